ghost use Rattle.std.specs.Prelude.{◌≡◌, [], All, IfOk, vec_len};

use super::*;
use outside::{MeetGate, OpenGate, Point};
use std::alloc::{AllocError, Global};
use std::test::Fail;

fn empty(alloc: Global) -> Kept
    ensures { result.items.items ≡ [] }
{
    Kept {
        items: Vec::new(alloc),
    }
}

fn four(alloc: Global) -> Result<Vec<Kept>, AllocError>
    ensures empty { IfOk result (λ v. All (λ kept. kept.items.items ≡ []) v.items) }
    ensures len { IfOk result (λ v. vec_len v ≡ 4) }
{
    let mut all = Vec::new(alloc);
    all.reserve(4)?;
    all.push_reserved(empty(alloc));
    all.push_reserved(empty(alloc));
    all.push_reserved(empty(alloc));
    all.push_reserved(empty(alloc));
    Ok(all)
}

// So many numbers, from 0 on.
fn numbers(alloc: Global, count: u32) -> Result<Vec<u32>, AllocError> {
    let mut all = Vec::new(alloc);
    for number in 0..count {
        all.push(number)?;
    }
    Ok(all)
}

// How many numbers the lists have together, and their sum.
fn tally(kept: &[Kept]) -> (usize, u64) {
    let mut count = 0usize;
    let mut sum = 0u64;
    for other in kept {
        count = count.wrapping_add(other.items.len());
        sum = other
            .items
            .iter()
            .fold(sum, |sum, x| sum.wrapping_add(u64::from(*x)));
    }
    (count, sum)
}

#[test]
fn numbers_are_shared_among_threads(rt: HostRuntime) -> Result<(), Fail> {
    let alloc = rt.alloc();
    let all = numbers(alloc, 20000)?;
    let mut kept = four(alloc)?;
    let mut besides = Vec::from_elem(alloc, (), 4)?;
    let shared = share(
        &rt,
        alloc,
        &OpenGate,
        all.as_slice(),
        kept.as_mut_slice(),
        besides.as_mut_slice(),
    );
    assert_eq!(rt; (shared.is_ok(), tally(&kept)), (true, (20000, 199990000)));
    Ok(())
}

#[test]
fn numbers_are_shared_in_batches(rt: HostRuntime) -> Result<(), Fail> {
    let alloc = rt.alloc();
    let all = numbers(alloc, 20000)?;
    let mut kept = four(alloc)?;
    let mut besides = Vec::from_elem(alloc, (), 4)?;
    let shared = share_batches(
        &rt,
        alloc,
        &OpenGate,
        all.as_slice(),
        kept.as_mut_slice(),
        besides.as_mut_slice(),
    );
    assert_eq!(rt; (shared.is_ok(), tally(&kept)), (true, (20000, 199990000)));
    Ok(())
}

// Ten numbers stand in the queue until the first fragment takes one, and waits for the second to take one too.
#[test]
fn two_fragments_meet_at_a_gate(rt: HostRuntime) -> Result<(), Fail> {
    let alloc = rt.alloc();
    let all = numbers(alloc, 10)?;
    let mut kept = three(alloc)?;
    let mut besides = Vec::from_elem(alloc, (), 3)?;
    let held = (2000, Point::FragmentTook);
    let until = (2001, Point::FragmentTook);
    let gate = MeetGate::new(held, until, 10_000_000)?;
    let shared = share_at(
        &rt,
        alloc,
        &gate,
        all.as_slice(),
        kept.as_mut_slice(),
        besides.as_mut_slice(),
    );
    assert_eq!(rt;
        (shared.is_ok(), gate.came(), gate.missed()),
        (true, true, false)
    );
    assert_eq!(rt; tally(&kept), (10, 45));
    Ok(())
}

fn three(alloc: Global) -> Result<Vec<Kept>, AllocError>
    ensures len { IfOk result (λ v. vec_len v ≡ 3) }
{
    let mut all = Vec::new(alloc);
    all.reserve(3)?;
    all.push_reserved(empty(alloc));
    all.push_reserved(empty(alloc));
    all.push_reserved(empty(alloc));
    Ok(all)
}
