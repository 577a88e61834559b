// Filters: a column, how it compares, and with which value.

ghost use Rattle.std.specs.Prelude.{◌≡◌, ⊤, IfOk};
ghost use Rattle.toml.specs.View.{table_view};
ghost use Rattle.query_plan.specs.Values.{table_of};
ghost use Rattle.query_plan.specs.Drafts.{filter_in};
ghost use Rattle.query_plan.specs.Faults.{table_fault};
ghost use Rattle.query_plan.specs.Keys.{filter, filter_rows};
ghost use Rattle.query_plan.specs.Told.{Tells, Clears};

use crate::draft::FilterDraft;
use crate::error::PlanErr;
use crate::known::Where;
use crate::rule::Rule;
use crate::scalar::Scalar;
use crate::section::Section;
use crate::texts::AnyText;
use crate::words::CmpText;
use std::alloc::Global;
use toml::Value;

/// The table of a filter.
pub(crate) struct FilterTable;

impl Rule for FilterTable {
    type Made = FilterDraft;

    ghost check = { λ _. filter };

    ghost made = { λ _ value. filter_in (table_of value) };

    ghost known = { λ _ _. ⊤ };

    #[tactic(auto, unfolding(crate::specs::Keys::filter, crate::specs::Faults::table, crate::specs::Faults::table_with))]
    fn read(&self, alloc: Global, path: &[u8], value: &Value) -> Result<FilterDraft, PlanErr> {
        let section = Section::of(alloc, path, value)?;
        read_filter(&section)
    }
}

#[tactic(auto, unfolding(crate::specs::Drafts::filter_in))]
fn read_filter(section: &Section) -> Result<FilterDraft, PlanErr>
    ensures tells { Tells result (table_fault filter_rows section.now.path.now (table_view section.now.table.now)) }
    ensures clears { Clears result (table_fault filter_rows section.now.path.now (table_view section.now.table.now)) }
    ensures made { IfOk result (λ it. it ≡ filter_in (table_view section.now.table.now)) }
{
    section.known_keys(Where::Filter)?;
    let column = section.needed("column", &AnyText)?;
    let op = section.needed("op", &CmpText)?;
    let value = section.needed("value", &Scalar)?;
    Ok(FilterDraft { column, op, value })
}
