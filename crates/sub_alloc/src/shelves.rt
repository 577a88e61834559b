//! The lists of free pieces: which class has one, and how pieces are halved and joined.
ghost use Rattle.std.specs.Prelude.{◌≡◌, ℕ, ◌+◌, ◌-◌, ◌*◌, ◌^◌, ◌<◌, ◌≤◌, None, Some, true, length};
ghost use Rattle.index_list.specs.Listing.{IsProper, list_with, nodes_on};
ghost use Rattle.sub_alloc.specs.Calls.{IsLeastFor};
ghost use Rattle.sub_alloc.specs.Rules.{class_from, first_from, halved, is_class, is_filled, joined, newest, other_half};

use index_list::Lists;

// The least class of at least so many bytes. How many classes there are is for contracts alone.
pub(crate) fn class_for(_classes: u32, bytes: u32) -> u32
    requires some { 0 < _classes }
    requires bytes { bytes ≤ 64 * 2 ^ (_classes - 1) }
    ensures value { result ≡ class_from _classes 0 bytes }
    ensures inside { result < _classes }
    ensures len { IsLeastFor bytes (64 * 2 ^ result) }
{
    if bytes <= 64 {
        return 0;
    }
    (bytes - 1).ilog2() - 5
}

// The least class from this one on of which a piece is free, or how many classes there are.
pub(crate) fn first_filled(free: &Lists, from: u32, classes: u32) -> u32
    requires from { from ≤ classes }
    requires classes { classes ≡ length free.now.lists }
    ensures value { result ≡ first_from from free.now }
    ensures inside { result ≤ classes }
    ensures behind { from ≤ result }
    ensures filled { result < classes → is_filled (nodes_on result free.now) ≡ true }
    ensures proper { result < classes → IsProper free.now }
{
    for class in from..classes {
        if free.front(class).is_some() {
            return class;
        }
    }
    classes
}

// The place of the piece of a class that became free last.
#[tactic(auto, using(crate::proofs::Took::newest_is, crate::proofs::Took::newest_stands))]
pub(crate) fn last_free(free: &Lists, class: u32) -> u32
    requires class { class < length free.now.lists }
    requires filled { is_filled (nodes_on class free.now) ≡ true }
    requires proper { IsProper free.now }
    ensures value { result ≡ newest class free.now }
    ensures stands { list_with result free.now ≡ Some class }
{
    let Some(place) = free.back(class) else {
        unreachable!()
    };
    place
}

// Halves the piece of class `from` at a place until it is of class `to`. The upper halves become free, the longest first.
pub(crate) fn halve(free: &mut Lists, place: u32, from: u32, to: u32)
    requires down { to ≤ from }
    requires few { from ≤ length free.old.lists }
    requires short { from ≤ 15 }
    requires inside { place + 2 ^ from ≤ free.old.nodes }
    requires room { free.old.nodes < 2 ^ 31 }
    requires nowhere { (c : ℕ) → c < from → list_with (place + 2 ^ c) free.old ≡ None }
    ensures { free.new ≡ halved (from - to) to place free.old }
{
    let mut class = from;
    while class > to {
        class -= 1;
        free.push_back(class, place + (1 << class));
    }
}

// Where the other half of what a piece was halved from begins.
fn other_half(class: u32, place: u32) -> u32
    requires short { class ≤ 15 }
    requires fits { place < 2 ^ 31 }
    ensures { result ≡ other_half class place }
{
    // Halves are lower and upper ones in no order, so a branch on this bit would often be predicted wrong.
    place ^ (1 << class)
}

// Whether a free piece of this class begins here.
fn is_free(free: &Lists, class: u32, place: u32) -> bool
    requires short { class < 15 }
    requires inside { place < free.now.nodes }
    ensures { result ≡ is_class class (list_with place free.now) }
{
    // u32::MAX is no class, so one comparison tells whether a free piece begins here, and whether it is of this class.
    free.list_of(place).unwrap_or(u32::MAX) == class
}

// Joins a piece that is on no list with the other half of what it was halved from, while that is free and whole. The class
// and the place of what it is joined to.
pub(crate) fn join(free: &mut Lists, class: u32, place: u32, classes: u32) -> (u32, u32)
    requires class { class < classes }
    requires few { classes ≤ 15 }
    requires aligned { (r : ℕ) × (place ≡ r * 2 ^ class) }
    requires whole { (s : ℕ) × (free.old.nodes ≡ s * 2 ^ (classes - 1)) }
    requires inside { place < free.old.nodes }
    requires room { free.old.nodes < 2 ^ 31 }
    ensures { record { class = result.0; place = result.1; free = free.new } ≡ joined (classes - 1 - class) class place free.old }
{
    let mut class = class;
    let mut place = place;
    while class + 1 < classes {
        let other = other_half(class, place);
        if !is_free(free, class, other) {
            return (class, place);
        }
        free.remove(other);
        place = place.min(other);
        class += 1;
    }
    (class, place)
}
