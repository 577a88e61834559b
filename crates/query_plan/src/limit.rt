// Which whole numbers a key takes.

ghost use Rattle.std.specs.Prelude.{◌≡◌, ◌≤◌, IfSome, is_some};
ghost use Rattle.query_plan.specs.Words.{keeps, fits, greatest};
ghost use Rattle.query_plan.specs.Values.{whole, number_of};
ghost use Rattle.query_plan.specs.Faults.{number};

use crate::error::PlanErr;
use crate::rule::Rule;
use row_codec::Bytes;
use std::alloc::Global;
use toml::Value;

// The most bytes of a pool.
const POOL_BYTES: u64 = 2147483648;

/// A range of numbers, both ends in it, and what else is asked.
#[derive(Clone, Copy)]
pub(crate) enum Limit {
    /// From the first to the second.
    Within(u64, u64),
    /// A power of two from the first to the second.
    Power(u64, u64),
    /// From the first to the second, where so many blocks of the third length fit a pool.
    Blocks(u64, u64, u64),
}

impl Limit {
    fn fits(self, n: u64) -> bool
        ensures { result ≡ fits self n }
    {
        match self {
            Limit::Within(low, high) => low <= n && n <= high,
            Limit::Power(low, high) => low <= n && n <= high && n.is_power_of_two(),
            Limit::Blocks(low, high, block_len) => {
                low <= n && n <= high && n.saturating_mul(block_len) <= POOL_BYTES
            }
        }
    }

    // The number, where it keeps the limit.
    fn kept(self, number: i64) -> Option<u64>
        ensures kept { is_some result ≡ keeps self number }
        ensures value { IfSome result (λ n. n ≡ whole number) }
        ensures known { IfSome result (λ n. n ≤ greatest self) }
    {
        let n = u64::try_from(number).ok()?;
        if self.fits(n) { Some(n) } else { None }
    }
}

impl Rule for Limit {
    type Made = u64;

    ghost check = { number };

    ghost made = { λ _ value. number_of value };

    ghost known = { λ limit n. n ≤ greatest limit };

    #[tactic(auto, unfolding(crate::specs::Faults::number))]
    fn read(&self, alloc: Global, path: &[u8], value: &Value) -> Result<u64, PlanErr> {
        let Some(number) = value.as_integer() else {
            let key = Bytes::of(alloc, path)?;
            return Err(PlanErr::WrongKind { key });
        };
        let Some(n) = self.kept(number) else {
            let key = Bytes::of(alloc, path)?;
            return Err(PlanErr::Limit { key });
        };
        Ok(n)
    }
}
