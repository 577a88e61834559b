// Words: the signs of comparisons, and the names of aggregates.

ghost use Rattle.std.specs.Prelude.{◌≡◌, ⊤};
ghost use Rattle.query_plan.specs.Words.{cmp_of, agg_of};
ghost use Rattle.query_plan.specs.Drafts.{cmp_in, word_in};
ghost use Rattle.query_plan.specs.Faults.{text};
ghost use Rattle.query_plan.specs.Keys.{is_cmp, is_agg};

use crate::draft::AggWord;
use crate::error::PlanErr;
use crate::rule::Rule;
use row_codec::Bytes;
use scan_filter::Cmp;
use std::alloc::Global;
use toml::Value;

/// The sign of a comparison.
pub(crate) struct CmpText;

impl Rule for CmpText {
    type Made = Cmp;

    ghost check = { λ _. text is_cmp };

    ghost made = { λ _. cmp_in };

    ghost known = { λ _ _. ⊤ };

    #[tactic(auto, unfolding(crate::specs::Faults::text))]
    fn read(&self, alloc: Global, path: &[u8], value: &Value) -> Result<Cmp, PlanErr> {
        let Some(text) = value.as_str() else {
            let key = Bytes::of(alloc, path)?;
            return Err(PlanErr::WrongKind { key });
        };
        let Some(cmp) = cmp_of(text) else {
            let key = Bytes::of(alloc, path)?;
            return Err(PlanErr::Limit { key });
        };
        Ok(cmp)
    }
}

fn cmp_of(text: &str) -> Option<Cmp>
    ensures { result ≡ cmp_of text.now }
{
    match text {
        "=" => Some(Cmp::Eq),
        "!=" => Some(Cmp::Ne),
        "<" => Some(Cmp::Lt),
        "<=" => Some(Cmp::Le),
        ">" => Some(Cmp::Gt),
        ">=" => Some(Cmp::Ge),
        _ => None,
    }
}

/// The name of an aggregate.
pub(crate) struct AggText;

impl Rule for AggText {
    type Made = AggWord;

    ghost check = { λ _. text is_agg };

    ghost made = { λ _. word_in };

    ghost known = { λ _ _. ⊤ };

    #[tactic(auto, unfolding(crate::specs::Faults::text))]
    fn read(&self, alloc: Global, path: &[u8], value: &Value) -> Result<AggWord, PlanErr> {
        let Some(text) = value.as_str() else {
            let key = Bytes::of(alloc, path)?;
            return Err(PlanErr::WrongKind { key });
        };
        let Some(word) = agg_of(text) else {
            let key = Bytes::of(alloc, path)?;
            return Err(PlanErr::Limit { key });
        };
        Ok(word)
    }
}

fn agg_of(text: &str) -> Option<AggWord>
    ensures { result ≡ agg_of text.now }
{
    match text {
        "count" => Some(AggWord::Count),
        "sum" => Some(AggWord::Sum),
        "min" => Some(AggWord::Min),
        "max" => Some(AggWord::Max),
        _ => None,
    }
}
