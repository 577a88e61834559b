// Which keys a table may have.

ghost use Rattle.std.specs.Prelude.{◌≡◌};
ghost use Rattle.toml.specs.View.{table_view};
ghost use Rattle.query_plan.specs.Faults.{is_allowed, unknown_fault};
ghost use Rattle.query_plan.specs.Presences.{has, takes_column};
ghost use Rattle.query_plan.specs.Keys.{rows_of, top_rows, query_rows, side_rows, agg_rows, filter_rows};
ghost use Rattle.query_plan.specs.Told.{Tells, Clears};

use crate::error::PlanErr;
use crate::paths;
use crate::section::Section;

/// The tables of a document.
#[derive(Clone, Copy)]
pub(crate) enum Where {
    Top,
    Query,
    Side,
    Agg,
    Filter,
}

impl Section<'_> {
    /// Refuses the least key that the table may not have.
    pub(crate) fn known_keys(&self, place: Where) -> Result<(), PlanErr>
        ensures tells { Tells result (unknown_fault (rows_of place) self.now.path.now (table_view self.now.table.now)) }
        ensures clears { Clears result (unknown_fault (rows_of place) self.now.path.now (table_view self.now.table.now)) }
    {
        // The keys of a table ascend.
        for key in self.table.keys() {
            if !self.allows(place, key.as_str()) {
                let key = paths::key_in(self.alloc, self.path, key.as_bytes())?;
                return Err(PlanErr::UnknownKey { key });
            }
        }
        Ok(())
    }

    fn allows(&self, place: Where, key: &str) -> bool
        ensures { result ≡ is_allowed (rows_of place) (table_view self.now.table.now) key.now }
    {
        match place {
            Where::Top => self.allows_at_top(key),
            Where::Query => self.allows_in_query(key),
            Where::Side => self.allows_in_side(key),
            Where::Agg => self.allows_in_agg(key),
            Where::Filter => self.allows_in_filter(key),
        }
    }

    fn allows_at_top(&self, key: &str) -> bool
        ensures { result ≡ is_allowed top_rows (table_view self.now.table.now) key.now }
    {
        match key {
            "block_len" | "blocks" | "writers" | "trace" | "query" => true,
            "trace_entries" => self.has("trace"),
            _ => false,
        }
    }

    fn allows_in_query(&self, key: &str) -> bool
        ensures { result ≡ is_allowed query_rows (table_view self.now.table.now) key.now }
    {
        match key {
            "page_blocks" | "limit" | "quota" | "output" | "left" | "right" | "group" => true,
            "on" => self.has("right"),
            "agg" => self.has("group"),
            "fragments" => self.has("group") && !self.has("right"),
            _ => false,
        }
    }

    fn allows_in_side(&self, key: &str) -> bool
        ensures { result ≡ is_allowed side_rows (table_view self.now.table.now) key.now }
    {
        matches!(key, "file" | "columns" | "filter")
    }

    fn allows_in_agg(&self, key: &str) -> bool
        ensures { result ≡ is_allowed agg_rows (table_view self.now.table.now) key.now }
    {
        match key {
            "op" => true,
            "column" => self.takes_column(),
            _ => false,
        }
    }

    fn allows_in_filter(&self, key: &str) -> bool
        ensures { result ≡ is_allowed filter_rows (table_view self.now.table.now) key.now }
    {
        matches!(key, "column" | "op" | "value")
    }

    /// Whether there is such a key.
    pub(crate) fn has(&self, key: &str) -> bool
        ensures { result ≡ has key.now (table_view self.now.table.now) }
    {
        self.get(key).is_some()
    }

    /// Whether an aggregate is of a column: there is an operation, and it is no count.
    pub(crate) fn takes_column(&self) -> bool
        ensures { result ≡ takes_column (table_view self.now.table.now) }
    {
        match self.get("op") {
            Some(value) => value.as_str() != Some("count"),
            None => false,
        }
    }
}
