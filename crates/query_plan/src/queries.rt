// Queries: their keys, and then the columns that they name.

ghost use Rattle.std.specs.Prelude.{◌≡◌, ⊤, IfOk, codes, option_map};
ghost use Rattle.toml.specs.Data.{get_member, no_members};
ghost use Rattle.toml.specs.View.{table_view};
ghost use Rattle.query_plan.specs.Drafts.{query_in, pair_in, side_in, agg_in};
ghost use Rattle.query_plan.specs.Faults.{rows_fault, table_fault, list_of, text};
ghost use Rattle.query_plan.specs.Keys.{query_rows, number_rows, file_rows, shape_rows, any};
ghost use Rattle.query_plan.specs.Values.{under, number_of, number_at, text_of, text_at, list_at, table_of};
ghost use Rattle.query_plan.specs.Told.{Tells, Clears};

use crate::aggregates::AggTable;
use crate::draft::{AggDraft, Draft, SideDraft};
use crate::error::PlanErr;
use crate::file_name::FileName;
use crate::known::Where;
use crate::limit::Limit;
use crate::listed::Listed;
use crate::lists::{ListOf, items_of, read_one};
use crate::rule::Rule;
use crate::section::Section;
use crate::sides::SideTable;
use crate::texts::{AnyText, NameText};
use row_codec::Bytes;
use std::alloc::Global;
use toml::Value;

/// A list of two texts.
pub(crate) struct PairList;

impl Rule for PairList {
    type Made = (Bytes, Bytes);

    ghost check = { λ _. list_of 2 2 (text any) };

    ghost made = { λ _. pair_in };

    ghost known = { λ _ _. ⊤ };

    #[tactic(auto, unfolding(crate::specs::Faults::list_of))]
    fn read(&self, alloc: Global, path: &[u8], value: &Value) -> Result<(Bytes, Bytes), PlanErr> {
        let Some(items) = items_of(value) else {
            let key = Bytes::of(alloc, path)?;
            return Err(PlanErr::WrongKind { key });
        };
        let [left, right] = items else {
            let key = Bytes::of(alloc, path)?;
            return Err(PlanErr::Limit { key });
        };
        let left = read_one(alloc, path, 0, left, &AnyText)?;
        let right = read_one(alloc, path, 1, right, &AnyText)?;
        Ok((left, right))
    }
}

const PAIRS: ListOf<PairList> = ListOf {
    low: 1,
    high: 8,
    member: PairList,
};

const GROUP: ListOf<AnyText> = ListOf {
    low: 1,
    high: 8,
    member: AnyText,
};

const AGGS: ListOf<AggTable> = ListOf {
    low: 0,
    high: 16,
    member: AggTable,
};

// The numbers of a query.
#[derive(Clone, Copy)]
struct Numbers {
    page_blocks: u32,
    limit: u64,
    quota: u32,
}

fn read_numbers(section: &Section) -> Result<Numbers, PlanErr>
    ensures tells { Tells result (rows_fault number_rows section.now.path.now (table_view section.now.table.now)) }
    ensures clears { Clears result (rows_fault number_rows section.now.path.now (table_view section.now.table.now)) }
    ensures page_blocks { IfOk result (λ it. it.page_blocks ≡ number_at (codes "page_blocks") (table_view section.now.table.now)) }
    ensures limit { IfOk result (λ it. it.limit ≡ number_at (codes "limit") (table_view section.now.table.now)) }
    ensures quota { IfOk result (λ it. it.quota ≡ number_at (codes "quota") (table_view section.now.table.now)) }
{
    let page_blocks = section.needed("page_blocks", &Limit::Power(1, 256))?;
    let limit = section.needed("limit", &Limit::Within(0, 9223372036854775807))?;
    let quota = section.needed("quota", &Limit::Within(0, 1048576))?;
    Ok(Numbers {
        page_blocks: page_blocks as u32,
        limit,
        quota: quota as u32,
    })
}

// The files of a query.
#[derive(Drop)]
struct Sides {
    output: FileName,
    left: SideDraft,
    right: Option<SideDraft>,
}

fn read_sides(section: &Section) -> Result<Sides, PlanErr>
    ensures tells { Tells result (rows_fault file_rows section.now.path.now (table_view section.now.table.now)) }
    ensures clears { Clears result (rows_fault file_rows section.now.path.now (table_view section.now.table.now)) }
    ensures output { IfOk result (λ it. it.output ≡ text_at (codes "output") (table_view section.now.table.now)) }
    ensures left { IfOk result (λ it. it.left ≡ under (codes "left") (table_view section.now.table.now) (λ value. side_in (table_of value)) (side_in no_members)) }
    ensures right { IfOk result (λ it. it.right ≡ option_map (λ value. side_in (table_of value)) (get_member (codes "right") (table_view section.now.table.now))) }
{
    let output = section.needed("output", &NameText)?;
    let left = section.needed("left", &SideTable)?;
    let right = section.find(false, "right", &SideTable)?;
    Ok(Sides {
        output,
        left,
        right,
    })
}

// What a query makes of the rows.
#[derive(Drop)]
struct Shape {
    on: Listed<(Bytes, Bytes)>,
    group: Listed<Bytes>,
    aggs: Listed<AggDraft>,
    fragments: u32,
}

fn read_shape(section: &Section) -> Result<Shape, PlanErr>
    ensures tells { Tells result (rows_fault shape_rows section.now.path.now (table_view section.now.table.now)) }
    ensures clears { Clears result (rows_fault shape_rows section.now.path.now (table_view section.now.table.now)) }
    ensures on { IfOk result (λ it. it.on ≡ list_at (codes "on") (table_view section.now.table.now) pair_in) }
    ensures group { IfOk result (λ it. it.group ≡ list_at (codes "group") (table_view section.now.table.now) text_of) }
    ensures aggs { IfOk result (λ it. it.aggs ≡ list_at (codes "agg") (table_view section.now.table.now) (λ value. agg_in (table_of value))) }
    ensures fragments { IfOk result (λ it. it.fragments ≡ under (codes "fragments") (table_view section.now.table.now) number_of 1) }
{
    let joins = section.has("right");
    let on = section.find(joins, "on", &PAIRS)?;
    let group = section.find(!joins, "group", &GROUP)?;
    let aggs = section.find(false, "agg", &AGGS)?;
    let fragments = section.find(false, "fragments", &Limit::Within(1, 8))?;
    Ok(Shape {
        on: on.unwrap_or(Listed::empty(section.alloc)),
        group: group.unwrap_or(Listed::empty(section.alloc)),
        aggs: aggs.unwrap_or(Listed::empty(section.alloc)),
        fragments: fragments.unwrap_or(1) as u32,
    })
}

/// The keys of a query.
#[tactic(auto, unfolding(crate::specs::Drafts::query_in))]
pub(crate) fn read_keys(section: &Section) -> Result<Draft, PlanErr>
    ensures tells { Tells result (table_fault query_rows section.now.path.now (table_view section.now.table.now)) }
    ensures clears { Clears result (table_fault query_rows section.now.path.now (table_view section.now.table.now)) }
    ensures made { IfOk result (λ it. it ≡ query_in (table_view section.now.table.now)) }
{
    section.known_keys(Where::Query)?;
    let numbers = read_numbers(section)?;
    let sides = read_sides(section)?;
    let shape = read_shape(section)?;
    Ok(Draft {
        page_blocks: numbers.page_blocks,
        limit: numbers.limit,
        quota: numbers.quota,
        output: sides.output,
        left: sides.left,
        right: sides.right,
        on: shape.on,
        group: shape.group,
        aggs: shape.aggs,
        fragments: shape.fragments,
    })
}
