//! The hash of the key in the bytes of a partial row, which is read where it stands.
ghost use Rattle.std.specs.Prelude.{◌≡◌, ◌≤◌, [], ◌∷◌, filter_map, fold, length, slice_get, IfSome, IfNone};
ghost use Rattle.row_codec.specs.Order.{hash_of, hash_step};
ghost use Rattle.group_op.specs.KeyParts.{hash_at, hashed, hashed_behind, hashed_left, parts_at, tagged};
ghost use Rattle.group_op.specs.Stored.{IsPartialRow, key_at, key_kinds};

use crate::keying::{body_of, field_len};
use bucket_table::{RowHash, spread};
use row_codec::{Kind, law_row_back};
use store_api::Shape;

const PRIME: u64 = 1099511628211;

// The hash of no bytes.
const START: u64 = 14695981039346656037;

// The hash of the byte that tells a text, and of the first three of the four bytes with its length, where these are zero.
const SHORT_TEXT: u64 = 10167666227858214167;

/// The hashes of the keys of partial rows of one shape, spread over the chains of a table.
#[derive(Drop)]
pub(crate) struct KeyHash<'a> {
    pub(crate) shape: &'a Shape,
}

impl RowHash for KeyHash<'_> {
    ghost use Rattle.bucket_table.specs.Spreading.{spread};
    ghost use Rattle.group_op.specs.KeyParts.{hash_at};

    ghost hash = { λ h row. spread (hash_at h.shape.now row) };

    fn hash_row(&self, row: &[u8]) -> u64 {
        spread(key_hash(row, self.shape))
    }
}

// The hash of the key in the bytes of a row, and that of no bytes where they have none.
#[inline]
pub(crate) fn key_hash(row: &[u8], shape: &Shape) -> u64
    ensures { result ≡ hash_at shape.now row.now }
{
    let body = if row.len() < 4 { &[] } else { &row[4..] };
    match hash_fields(body, shape) {
        Some((hash, _left)) => hash,
        None => START,
    }
}

// The hash of the key of a partial row.
#[inline(always)]
pub(crate) fn hash_of_row(row: &[u8], shape: &Shape) -> u64
    requires { IsPartialRow shape.now row.now }
    ensures { result ≡ hash_of (key_at shape.now row.now) }
{
    law_row_back();
    key_hash(row, shape)
}

// The hash of the key, exactly where the bytes are a partial row.
#[inline(always)]
pub(crate) fn hash_of_partial(row: &[u8], shape: &Shape) -> Option<u64>
    ensures row { IfSome result (λ hash. IsPartialRow shape.now row.now) }
    ensures hash { IfSome result (λ hash. hash ≡ hash_of (key_at shape.now row.now)) }
    ensures none { IfNone result (IsPartialRow shape.now row.now → ⊥) }
{
    law_row_back();
    let body = body_of(row)?;
    let (hash, left) = hash_fields(body, shape)?;
    if left != 16 * shape.aggs.as_slice().len() {
        return None;
    }
    Some(hash)
}

// The hash of the key of these fields, and how many bytes are left behind them.
#[inline(always)]
fn hash_fields(body: &[u8], shape: &Shape) -> Option<(u64, usize)>
    ensures { result ≡ hashed_left (parts_at (key_kinds shape.now) body.now) }
{
    let mut hash = START;
    let mut rest = body;
    for column in shape.keys.as_slice() {
        let (len, now) = hash_column(shape.kinds.as_slice(), *column, rest, hash)?;
        hash = now;
        rest = &rest[len..];
    }
    Some((hash, rest.len()))
}

// The length of the field of a column, if there is one, and the hash with its part.
#[inline]
fn hash_column(kinds: &[Kind], column: usize, bytes: &[u8], hash: u64) -> Option<(usize, u64)>
    ensures part { hashed_behind bytes.now result ≡ hashed hash (parts_at (filter_map (slice_get kinds.now) (column ∷ [])) bytes.now) }
    ensures inside { IfSome result (λ (len, now). len ≤ length bytes.now) }
{
    if column >= kinds.len() {
        return Some((0, hash));
    }
    let kind = kinds[column];
    let len = field_len(kind, bytes)?;
    Some((len, hash_tagged(kind, &bytes[..len], hash)))
}

// The hash with what a field's bytes are in a key.
#[inline]
fn hash_tagged(kind: Kind, field: &[u8], hash: u64) -> u64
    ensures { result ≡ fold hash_step hash (tagged kind field.now) }
{
    match kind {
        Kind::Int => hash_more(hash_more(hash, &[1]), field),
        Kind::Text => hash_text(field, hash),
        Kind::Wide => hash,
    }
}

// The same for a text, of which the first steps are known where it is short and comes first.
#[inline]
fn hash_text(field: &[u8], hash: u64) -> u64
    ensures { result ≡ fold hash_step hash (2 ∷ field.now) }
{
    match field {
        [0, 0, 0, rest @ ..] if hash == START => hash_more(SHORT_TEXT, rest),
        _ => hash_more(hash_more(hash, &[2]), field),
    }
}

// The hash with more bytes.
#[inline]
fn hash_more(hash: u64, bytes: &[u8]) -> u64
    ensures { result ≡ fold hash_step hash bytes.now }
{
    bytes.iter().fold(hash, |hash, byte| {
        (hash ^ u64::from(*byte)).wrapping_mul(PRIME)
    })
}
