// The queries of a plan while it runs: what is open for each of them, and how it ended.

ghost use Rattle.std.specs.Prelude.{◌≡◌, ◌≤◌, [], All, IsSome, None, Some, length, map, vec_capacity, vec_len};

use crate::ending::Ending;

// A source is there from its opening until it is given back, and so is a sink. A query that doesn't join has no right source.
// Its session is there unless its least reservation was refused.
pub(crate) struct Job<S, K, St> {
    // How the least reservation was refused, if it was.
    pub(crate) refused: Option<Ending>,
    pub(crate) left: Option<S>,
    pub(crate) right: Option<S>,
    pub(crate) sink: Option<K>,
    pub(crate) ended: Option<Ending>,
    pub(crate) session: Option<St>,
}

// How each of them ended.
pub(crate) fn endings<S, K, St>(jobs: &[Job<S, K, St>], ends: Vec<Ending>) -> Vec<Ending>
    requires ended { All (λ job. IsSome job.ended) jobs.now }
    requires empty { ends.items ≡ [] }
    requires len { vec_len ends ≡ 0 }
    requires room { length jobs.now ≤ vec_capacity ends }
    ensures { map (λ ending. Some ending) result.items ≡ map (λ job. job.ended) jobs.now }
{
    let mut ends = ends;
    for job in jobs {
        match job.ended {
            Some(ending) => ends.push_reserved(ending),
            None => unreachable!(),
        }
    }
    ends
}

// Lets go of a thing that is not there.
pub(crate) fn let_go<T>(none: Option<T>)
    requires { none ≡ None }
{
    match none {
        None => (),
        Some(_) => unreachable!(),
    }
}
