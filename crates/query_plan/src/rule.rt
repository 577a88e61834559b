// What is asked of a value, and what it is read as.

ghost use Rattle.std.specs.Prelude.{◌≡◌, IfOk};
ghost use Rattle.query_plan.specs.Told.{Tells, Clears};
ghost use Rattle.toml.specs.View.{view};

use crate::error::PlanErr;
use std::alloc::Global;
use toml::Value;

/// A kind of value with its limit.
pub(crate) trait Rule {
    ghost use Rattle.std.specs.Prelude.{ℕ, List, Option};
    ghost use Rattle.toml.specs.Data.{Data};
    ghost use Rattle.query_plan.specs.declared.error.PlanErr.{PlanErr};

    type Made: Drop;

    // The first thing that is wrong with the value at a path.
    ghost check: { Self → List ℕ → Data → Option PlanErr };

    // What a value is read as with which nothing is wrong.
    ghost made: { Self → Data → Self.Made };

    // What is known of what was read.
    ghost known: { Self → Self.Made → Type 0 };

    /// Reads the value that stands at this path.
    fn read(&self, alloc: Global, path: &[u8], value: &Value) -> Result<Self::Made, PlanErr>
        ensures tells { Tells result (check self.now path.now (view value.now)) }
        ensures clears { Clears result (check self.now path.now (view value.now)) }
        ensures made { IfOk result (λ it. it ≡ made self.now (view value.now)) }
        ensures known { IfOk result (known self.now) };
}
