// Aggregates: what is computed, and of which column.

ghost use Rattle.std.specs.Prelude.{◌≡◌, ⊤, IfOk};
ghost use Rattle.toml.specs.View.{table_view};
ghost use Rattle.query_plan.specs.Values.{table_of};
ghost use Rattle.query_plan.specs.Words.{agg_over};
ghost use Rattle.query_plan.specs.Drafts.{agg_in};
ghost use Rattle.query_plan.specs.Faults.{table_fault};
ghost use Rattle.query_plan.specs.Keys.{aggregate, agg_rows};
ghost use Rattle.query_plan.specs.Told.{Tells, Clears};

use crate::draft::{AggDraft, AggWord};
use crate::error::PlanErr;
use crate::known::Where;
use crate::rule::Rule;
use crate::section::Section;
use crate::texts::AnyText;
use crate::words::AggText;
use row_codec::Bytes;
use std::alloc::Global;
use toml::Value;

/// The table of an aggregate.
pub(crate) struct AggTable;

impl Rule for AggTable {
    type Made = AggDraft;

    ghost check = { λ _. aggregate };

    ghost made = { λ _ value. agg_in (table_of value) };

    ghost known = { λ _ _. ⊤ };

    #[tactic(auto, unfolding(crate::specs::Keys::aggregate, crate::specs::Faults::table, crate::specs::Faults::table_with))]
    fn read(&self, alloc: Global, path: &[u8], value: &Value) -> Result<AggDraft, PlanErr> {
        let section = Section::of(alloc, path, value)?;
        read_agg(&section)
    }
}

#[tactic(auto, unfolding(crate::specs::Drafts::agg_in))]
fn read_agg(section: &Section) -> Result<AggDraft, PlanErr>
    ensures tells { Tells result (table_fault agg_rows section.now.path.now (table_view section.now.table.now)) }
    ensures clears { Clears result (table_fault agg_rows section.now.path.now (table_view section.now.table.now)) }
    ensures made { IfOk result (λ it. it ≡ agg_in (table_view section.now.table.now)) }
{
    section.known_keys(Where::Agg)?;
    let word = section.needed("op", &AggText)?;
    let column = section.find(section.takes_column(), "column", &AnyText)?;
    Ok(agg_over(
        word,
        column.unwrap_or(Bytes::from_vec(Vec::new(section.alloc))),
    ))
}

// An aggregate of a column; a count is of none.
fn agg_over(word: AggWord, column: Bytes) -> AggDraft
    ensures { result ≡ agg_over word column }
{
    match word {
        AggWord::Count => AggDraft::Count,
        AggWord::Sum => AggDraft::Sum(column),
        AggWord::Min => AggDraft::Min(column),
        AggWord::Max => AggDraft::Max(column),
    }
}
