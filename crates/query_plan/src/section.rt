// A table of the document, and how its keys are read.

ghost use Rattle.std.specs.Prelude.{◌≡◌, Some, None, IfOk, IfSome, option_map, true, is_some};
ghost use Rattle.toml.specs.Data.{get_member, as_table};
ghost use Rattle.toml.specs.View.{view, table_view};
ghost use Rattle.query_plan.specs.Faults.{key_fault, of_part};
ghost use Rattle.query_plan.specs.Told.{Tells, Clears};

use crate::error::PlanErr;
use crate::paths;
use crate::rule::Rule;
use row_codec::Bytes;
use std::alloc::Global;
use toml::{Table, Value};

/// A table, and the path at which it stands.
#[derive(Clone, Copy)]
pub(crate) struct Section<'t> {
    pub alloc: Global,
    pub path: &'t [u8],
    pub table: &'t Table,
}

impl<'t> Section<'t> {
    /// The table that stands at this path.
    pub(crate) fn of(
        alloc: Global,
        path: &'t [u8],
        value: &'t Value,
    ) -> Result<Section<'t>, PlanErr>
        ensures tells { Tells result (of_part (as_table (view value.now)) path.now (λ _. None)) }
        ensures table { IfOk result (λ section. as_table (view value.now) ≡ Some (table_view section.table.now)) }
        ensures path { IfOk result (λ section. section.path.now ≡ path.now) }
    {
        let Some(table) = value.as_table() else {
            let key = Bytes::of(alloc, path)?;
            return Err(PlanErr::WrongKind { key });
        };
        Ok(Section { alloc, path, table })
    }

    /// The value under a key.
    pub(crate) fn get(&self, key: &str) -> Option<&'t Value>
        ensures { option_map (λ value. view value.now) result ≡ get_member key.now (table_view self.now.table.now) }
    {
        self.table.get(key)
    }

    /// The value under a key, which has to be there where `must` says so.
    #[tactic(auto, unfolding(crate::specs::Faults::key_fault))]
    pub(crate) fn find<R: Rule>(
        &self,
        must: bool,
        key: &str,
        rule: &R,
    ) -> Result<Option<R::Made>, PlanErr>
        ensures tells { Tells result (key_fault must key.now (R.check rule.now) self.now.path.now (table_view self.now.table.now)) }
        ensures clears { Clears result (key_fault must key.now (R.check rule.now) self.now.path.now (table_view self.now.table.now)) }
        ensures made { IfOk result (λ it. it ≡ option_map (R.made rule.now) (get_member key.now (table_view self.now.table.now))) }
        ensures known { IfOk result (λ it. IfSome it (R.known rule.now)) }
        ensures there { IfOk result (λ it. must ≡ true → is_some it ≡ true) }
    {
        let path = paths::key_in(self.alloc, self.path, key.as_bytes())?;
        match self.get(key) {
            Some(value) => Ok(Some(rule.read(self.alloc, path.as_slice(), value)?)),
            None if must => Err(PlanErr::MissingKey { key: path }),
            None => Ok(None),
        }
    }

    /// The value under a key that has to be there.
    pub(crate) fn needed<R: Rule>(&self, key: &str, rule: &R) -> Result<R::Made, PlanErr>
        ensures tells { Tells result (key_fault true key.now (R.check rule.now) self.now.path.now (table_view self.now.table.now)) }
        ensures clears { Clears result (key_fault true key.now (R.check rule.now) self.now.path.now (table_view self.now.table.now)) }
        ensures known { IfOk result (R.known rule.now) }
        ensures made { IfOk result (λ it. option_map (R.made rule.now) (get_member key.now (table_view self.now.table.now)) ≡ Some it) }
    {
        let Some(made) = self.find(true, key, rule)? else {
            unreachable!()
        };
        Ok(made)
    }
}
