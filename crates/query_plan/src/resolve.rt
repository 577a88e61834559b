// Members that name columns, and what stands for them in a query.

ghost use Rattle.std.specs.Prelude.{◌≡◌, ◌+◌, ◌<◌, ◌^◌, map, IfOk};
ghost use Rattle.query_plan.specs.Told.{Tells, Clears};
ghost use Rattle.query_plan.specs.Faults.{first_from};

use crate::error::PlanErr;
use crate::listed::Listed;
use std::alloc::Global;

/// The columns that members may name.
pub(crate) trait Resolve {
    ghost use Rattle.std.specs.Prelude.{ℕ, Option};
    ghost use Rattle.query_plan.specs.declared.error.PlanErr.{PlanErr};

    type Item;

    type Made: Drop;

    // The first thing that is wrong with the member at a place.
    ghost judge: { Self → ℕ → Self.Item → Option PlanErr };

    // What stands for a member with which nothing is wrong.
    ghost make: { Self → Self.Item → Self.Made };

    /// Resolves the member at this place of its list, from 0.
    fn resolve(&self, alloc: Global, place: usize, item: &Self::Item) -> Result<Self::Made, PlanErr>
        requires fits { place + 1 < 2 ^ 64 }
        ensures tells { Tells result (judge self.now place item.now) }
        ensures clears { Clears result (judge self.now place item.now) }
        ensures made { IfOk result (λ it. it ≡ make self.now item.now) };
}

/// What stands for each of the members.
pub(crate) fn resolve_all<N: Resolve>(
    alloc: Global,
    names: &N,
    items: &[N::Item],
) -> Result<Listed<N::Made>, PlanErr>
    ensures tells { Tells result (first_from (N.judge names.now) 0 items.now) }
    ensures clears { Clears result (first_from (N.judge names.now) 0 items.now) }
    ensures made { IfOk result (λ all. all ≡ map (N.make names.now) items.now) }
{
    let mut made = Vec::with_capacity(alloc, items.len())?;
    for (place, item) in items.iter().enumerate() {
        let it = names.resolve(alloc, place, item)?;
        made.push(it)?;
    }
    Ok(Listed::from_vec(made))
}
