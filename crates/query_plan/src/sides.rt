// Sides: a file, its columns and its filter.

ghost use Rattle.std.specs.Prelude.{◌≡◌, ⊤, IfOk};
ghost use Rattle.toml.specs.View.{table_view};
ghost use Rattle.query_plan.specs.Values.{table_of};
ghost use Rattle.query_plan.specs.Drafts.{side_in};
ghost use Rattle.query_plan.specs.Faults.{table_fault};
ghost use Rattle.query_plan.specs.Keys.{side, side_rows};
ghost use Rattle.query_plan.specs.Told.{Tells, Clears};

use crate::column_text::ColumnText;
use crate::draft::SideDraft;
use crate::error::PlanErr;
use crate::filters::FilterTable;
use crate::known::Where;
use crate::listed::Listed;
use crate::lists::ListOf;
use crate::rule::Rule;
use crate::section::Section;
use crate::texts::NameText;
use std::alloc::Global;
use toml::Value;

/// The table of a side.
pub(crate) struct SideTable;

impl Rule for SideTable {
    type Made = SideDraft;

    ghost check = { λ _. side };

    ghost made = { λ _ value. side_in (table_of value) };

    ghost known = { λ _ _. ⊤ };

    #[tactic(auto, unfolding(crate::specs::Keys::side, crate::specs::Faults::table, crate::specs::Faults::table_with))]
    fn read(&self, alloc: Global, path: &[u8], value: &Value) -> Result<SideDraft, PlanErr> {
        let section = Section::of(alloc, path, value)?;
        read_side(&section)
    }
}

const COLUMNS: ListOf<ColumnText> = ListOf {
    low: 1,
    high: 64,
    member: ColumnText,
};

const FILTERS: ListOf<FilterTable> = ListOf {
    low: 0,
    high: 16,
    member: FilterTable,
};

#[tactic(auto, unfolding(crate::specs::Drafts::side_in))]
fn read_side(section: &Section) -> Result<SideDraft, PlanErr>
    ensures tells { Tells result (table_fault side_rows section.now.path.now (table_view section.now.table.now)) }
    ensures clears { Clears result (table_fault side_rows section.now.path.now (table_view section.now.table.now)) }
    ensures made { IfOk result (λ it. it ≡ side_in (table_view section.now.table.now)) }
{
    section.known_keys(Where::Side)?;
    let file = section.needed("file", &NameText)?;
    let columns = section.needed("columns", &COLUMNS)?;
    let filter = section.find(false, "filter", &FILTERS)?;
    Ok(SideDraft {
        file,
        columns,
        filter: filter.unwrap_or(Listed::empty(section.alloc)),
    })
}
