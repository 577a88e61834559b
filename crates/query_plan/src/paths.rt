// The paths of keys.

ghost use Rattle.std.specs.Prelude.{◌≡◌, ◌+◌, ◌<◌, ◌^◌, IfOk};
ghost use Rattle.query_plan.specs.Faults.{key_in, member_in};

use row_codec::{Bytes, Memory};
use std::alloc::Global;

/// The path of a key of the table at this path, which is empty for the document itself.
#[tactic(auto, unfolding(crate::specs::Faults::key_in))]
pub(crate) fn key_in(alloc: Global, path: &[u8], key: &[u8]) -> Result<Bytes, Memory>
    ensures path { IfOk result (λ made. made ≡ key_in path.now key.now) }
{
    if path.is_empty() {
        return Bytes::of(alloc, key);
    }
    let mut bytes = Vec::from_slice(alloc, path)?;
    bytes.push(b'.')?;
    bytes.extend_from_slice(key)?;
    Ok(Bytes::from_vec(bytes))
}

/// The path of a member of the list at this path, by its place from 0.
pub(crate) fn member_in(alloc: Global, path: &[u8], place: usize) -> Result<Bytes, Memory>
    requires fits { place + 1 < 2 ^ 64 }
    ensures path { IfOk result (λ made. made ≡ member_in path.now place) }
{
    let number = (place + 1).to_string(alloc)?;
    key_in(alloc, path, number.as_bytes())
}
