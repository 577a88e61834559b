// Lists whose members are all read by one rule.

ghost use Rattle.std.specs.Prelude.{◌≡◌, ◌+◌, ◌<◌, ◌≤◌, ◌^◌, length, IfOk, map, option_map};
ghost use Rattle.query_plan.specs.Values.{list_of, as_list};
ghost use Rattle.toml.specs.View.{view};
ghost use Rattle.query_plan.specs.Faults.{list_of as list_within, first_from, member_in};
ghost use Rattle.query_plan.specs.Told.{Tells, Clears};

use crate::error::PlanErr;
use crate::listed::Listed;
use crate::paths;
use crate::rule::Rule;
use row_codec::Bytes;
use std::alloc::Global;
use toml::Value;

/// A list with as many members as the limits say, both of them allowed.
pub(crate) struct ListOf<R> {
    pub low: usize,
    pub high: usize,
    pub member: R,
}

impl<R: Rule> Rule for ListOf<R> {
    type Made = Listed<R::Made>;

    ghost check = { λ list. list_within list.low list.high (R.check list.member) };

    ghost made = { λ list value. map (R.made list.member) (list_of value) };

    ghost known = { λ list made. length made ≤ list.high };

    #[tactic(auto, unfolding(crate::specs::Faults::list_of))]
    fn read(&self, alloc: Global, path: &[u8], value: &Value) -> Result<Listed<R::Made>, PlanErr> {
        let Some(items) = items_of(value) else {
            let key = Bytes::of(alloc, path)?;
            return Err(PlanErr::WrongKind { key });
        };
        if items.len() < self.low || self.high < items.len() {
            let key = Bytes::of(alloc, path)?;
            return Err(PlanErr::Limit { key });
        }
        Ok(Listed::from_vec(read_all(alloc, path, items, &self.member)?))
    }
}

// Each of the members that stand in a list at this path.
fn read_all<R: Rule>(
    alloc: Global,
    path: &[u8],
    items: &[Value],
    member: &R,
) -> Result<Vec<R::Made>, PlanErr>
    ensures tells { Tells result (first_from (λ place item. R.check member.now (member_in path.now place) item) 0 (map (λ item. view item) items.now)) }
    ensures clears { Clears result (first_from (λ place item. R.check member.now (member_in path.now place) item) 0 (map (λ item. view item) items.now)) }
    ensures many { IfOk result (λ all. length all.items ≡ length items.now) }
    ensures made { IfOk result (λ all. all.items ≡ map (R.made member.now) (map (λ item. view item) items.now)) }
{
    let mut made = Vec::with_capacity(alloc, items.len())?;
    for (place, item) in items.iter().enumerate() {
        let it = read_one(alloc, path, place, item, member)?;
        made.push(it)?;
    }
    Ok(made)
}

// The member at this place of the list at this path.
pub(crate) fn read_one<R: Rule>(
    alloc: Global,
    path: &[u8],
    place: usize,
    item: &Value,
    member: &R,
) -> Result<R::Made, PlanErr>
    requires fits { place + 1 < 2 ^ 64 }
    ensures tells { Tells result (R.check member.now (member_in path.now place) (view item.now)) }
    ensures clears { Clears result (R.check member.now (member_in path.now place) (view item.now)) }
    ensures made { IfOk result (λ it. it ≡ R.made member.now (view item.now)) }
{
    let at = paths::member_in(alloc, path, place)?;
    member.read(alloc, at.as_slice(), item)
}

// The members of a list.
#[tactic(auto, using(crate::proofs::Items::items_back))]
pub(crate) fn items_of(value: &Value) -> Option<&[Value]>
    ensures { option_map (λ items. map (λ item. view item) items.now) result ≡ as_list (view value.now) }
{
    Some(value.as_array()?.as_slice())
}
