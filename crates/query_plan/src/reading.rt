// The whole document.

ghost use Rattle.std.specs.Prelude.{◌≡◌, ◌≢◌, ◌≤◌, ⊤, Some, None, length, IfOk, IfErr};
ghost use Rattle.toml.specs.View.{table_view};
ghost use Rattle.query_plan.specs.Drafts.{query_in};
ghost use Rattle.query_plan.specs.Resolved.{query_of};
ghost use Rattle.query_plan.specs.Values.{table_of};
ghost use Rattle.query_plan.specs.Faults.{rows_fault, table_fault};
ghost use Rattle.query_plan.specs.Keys.{query, top_rows, trace_rows};
ghost use Rattle.query_plan.specs.PlanOf.{plan_in, plan_of, document_of, trace_in};
ghost use Rattle.query_plan.specs.Rules.{KeepsRules};
ghost use Rattle.query_plan.specs.Told.{Tells, Clears};

use crate::error::PlanErr;
use crate::known::Where;
use crate::limit::Limit;
use crate::lists::ListOf;
use crate::outputs::{distinct_outputs, distinct_trace, fitting_quotas};
use crate::plan::{Plan, Query, TracePlan};
use crate::queries::read_keys;
use crate::rule::Rule;
use crate::section::Section;
use crate::texts::NameText;
use crate::whole::resolve_query;
use row_codec::Bytes;
use std::alloc::Global;
use toml::{Table, Value};

// The most bytes of a document.
const MOST_BYTES: usize = 1048576;

/// The plan that a TOML document asks for over so many scratch slots.
///
/// # Errors
///
/// The first thing that is wrong with the document, in this order: its length; that it is TOML in
/// UTF-8; each table, first with its least unknown key and then key by key, a value whole before
/// the next key, where a query's columns are looked up once its keys are read; an output that is
/// used elsewhere, the one of the trace last; the sum of the quotas. `Memory`: there was no memory for the plan, or for the
/// error's key. When memory is wanting is left open.
pub fn read_plan(alloc: Global, bytes: &[u8], slots: u32) -> Result<Plan, PlanErr>
    ensures plan { IfOk result (λ plan. plan_of bytes.now slots ≡ Ok plan) }
    ensures cause { IfErr result (λ told. told ≢ PlanErr.Memory → plan_of bytes.now slots ≡ Err told) }
    ensures rules { IfOk result (KeepsRules slots) }
{
    if bytes.len() > MOST_BYTES {
        let key = Bytes::of(alloc, b"plan")?;
        return Err(PlanErr::Limit { key });
    }
    let table = read_table(alloc, bytes)?;
    let section = Section {
        alloc,
        path: &[],
        table: &table,
    };
    let plan = read_top(&section)?;
    distinct_outputs(alloc, plan.queries.as_slice())?;
    distinct_trace(alloc, plan.queries.as_slice(), &plan.trace)?;
    fitting_quotas(alloc, plan.queries.as_slice(), slots)?;
    Ok(plan)
}

// The table of a document.
fn read_table(alloc: Global, bytes: &[u8]) -> Result<Table, PlanErr>
    ensures table { IfOk result (λ table. document_of bytes.now ≡ Some (table_view table)) }
    ensures cause { IfErr result (λ told. told ≢ PlanErr.Memory → (told ≡ PlanErr.Syntax) × (document_of bytes.now ≡ None)) }
{
    match toml::table_from_slice(alloc, bytes) {
        Ok(table) => Ok(table),
        Err(error) if error.is_memory() => Err(PlanErr::Memory),
        Err(_) => Err(PlanErr::Syntax),
    }
}

/// The table of a query.
struct QueryTable;

impl Rule for QueryTable {
    type Made = Query;

    ghost check = { λ _. query };

    ghost made = { λ _ value. query_of (query_in (table_of value)) };

    ghost known = { λ _ _. ⊤ };

    #[tactic(auto, unfolding(crate::specs::Keys::query, crate::specs::Faults::table_with))]
    fn read(&self, alloc: Global, path: &[u8], value: &Value) -> Result<Query, PlanErr> {
        let section = Section::of(alloc, path, value)?;
        let draft = read_keys(&section)?;
        resolve_query(alloc, path, draft)
    }
}

const QUERIES: ListOf<QueryTable> = ListOf {
    low: 1,
    high: 16,
    member: QueryTable,
};

// The two keys of a trace.
fn read_trace(section: &Section) -> Result<Option<TracePlan>, PlanErr>
    ensures tells { Tells result (rows_fault trace_rows section.now.path.now (table_view section.now.table.now)) }
    ensures clears { Clears result (rows_fault trace_rows section.now.path.now (table_view section.now.table.now)) }
    ensures made { IfOk result (λ trace. trace ≡ trace_in (table_view section.now.table.now)) }
{
    let output = section.find(false, "trace", &NameText)?;
    let recorded = section.has("trace");
    let entries = section.find(recorded, "trace_entries", &Limit::Within(1, 1048576))?;
    Ok(output.map(|output| TracePlan {
        output,
        entries: entries.unwrap_or(1) as u32,
    }))
}

#[tactic(auto, unfolding(crate::specs::PlanOf::plan_in))]
fn read_top(section: &Section) -> Result<Plan, PlanErr>
    ensures tells { Tells result (table_fault top_rows section.now.path.now (table_view section.now.table.now)) }
    ensures clears { Clears result (table_fault top_rows section.now.path.now (table_view section.now.table.now)) }
    ensures made { IfOk result (λ plan. plan ≡ plan_in (table_view section.now.table.now)) }
    ensures few { IfOk result (λ plan. length plan.queries ≤ 16) }
{
    section.known_keys(Where::Top)?;
    let block_len = section.needed("block_len", &Limit::Power(64, 65536))?;
    let blocks = section.needed("blocks", &Limit::Blocks(1, 1048576, block_len))?;
    let writers = section.needed("writers", &Limit::Within(0, 8))?;
    let trace = read_trace(section)?;
    let queries = section.needed("query", &QUERIES)?;
    Ok(Plan {
        block_len: block_len as u32,
        blocks: blocks as u32,
        writers: writers as u32,
        trace,
        queries,
    })
}
