// Texts that are kept as they are.

ghost use Rattle.std.specs.Prelude.{⊤};
ghost use Rattle.query_plan.specs.Values.{text_of};
ghost use Rattle.query_plan.specs.Faults.{text};
ghost use Rattle.query_plan.specs.Keys.{any, not_empty};

use crate::error::PlanErr;
use crate::file_name::FileName;
use crate::rule::Rule;
use row_codec::Bytes;
use std::alloc::Global;
use toml::Value;

/// Any text.
pub(crate) struct AnyText;

impl Rule for AnyText {
    type Made = Bytes;

    ghost check = { λ _. text any };

    ghost made = { λ _. text_of };

    ghost known = { λ _ _. ⊤ };

    #[tactic(auto, unfolding(crate::specs::Faults::text))]
    fn read(&self, alloc: Global, path: &[u8], value: &Value) -> Result<Bytes, PlanErr> {
        let Some(text) = value.as_str() else {
            let key = Bytes::of(alloc, path)?;
            return Err(PlanErr::WrongKind { key });
        };
        Ok(Bytes::of(alloc, text.as_bytes())?)
    }
}

/// The name of a file, which is not empty.
pub(crate) struct NameText;

impl Rule for NameText {
    type Made = FileName;

    ghost check = { λ _. text not_empty };

    ghost made = { λ _. text_of };

    ghost known = { λ _ _. ⊤ };

    #[tactic(auto, unfolding(crate::specs::Faults::text))]
    fn read(&self, alloc: Global, path: &[u8], value: &Value) -> Result<FileName, PlanErr> {
        let Some(text) = value.as_str() else {
            let key = Bytes::of(alloc, path)?;
            return Err(PlanErr::WrongKind { key });
        };
        if text.is_empty() {
            let key = Bytes::of(alloc, path)?;
            return Err(PlanErr::Limit { key });
        }
        Ok(FileName::from_string(String::from_str(alloc, text)?))
    }
}
