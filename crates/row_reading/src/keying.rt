//! The key in the bytes of a row, which is read where it stands.
ghost use Rattle.std.specs.Prelude.{◌≡◌, ◌≢◌, ◌≤◌, [], ◌∷◌, ◌++◌, drop, length, take, option_map, true, All, IfNone, IfOk, IfSome, OnOk};
ghost use Rattle.row_codec.specs.declared.values.Kind.TheVariants.{Wide};
ghost use Rattle.row_codec.specs.RowBytes.{framed, key_bytes};
ghost use Rattle.row_reading.specs.FieldParts.{behind_fields, cut_at, tagged};
ghost use Rattle.row_reading.specs.Reading.{IsKeyColumn, IsRowOf, values_at};

use crate::framing::body_of;
use row_codec::{Kind, Memory};

/// Writes the key of a row of these kinds in these columns over `key`, where the bytes are such a row, and answers whether
/// they are.
pub fn key_into(
    row: &[u8],
    kinds: &[Kind],
    columns: &[usize],
    key: &mut Vec<u8>,
) -> Result<bool, Memory>
    requires columns { All (IsKeyColumn kinds.now) columns.now }
    ensures row { IfOk result (λ found. found ≡ true → IsRowOf kinds.now row.now) }
    ensures key { IfOk result (λ found. found ≡ true → key.new.items ≡ key_bytes columns.now (values_at kinds.now row.now)) }
    ensures found { IfOk result (λ found. IsRowOf kinds.now row.now → found ≡ true) }
{
    let Some(fields) = fields_of(row, kinds) else {
        return Ok(false);
    };
    key.clear();
    for column in columns {
        push_column(fields, kinds, *column, key)?;
    }
    Ok(true)
}

// The bytes of all fields of a row of these kinds, where the bytes are one.
fn fields_of<'a>(row: &'a [u8], kinds: &[Kind]) -> Option<&'a [u8]>
    ensures some { IfSome result (λ fields. (framed fields.now ≡ row.now) × IsRowOf kinds.now row.now) }
    ensures none { IfNone result (IsRowOf kinds.now row.now → ⊥) }
{
    let Some(body) = body_of(row) else {
        return None;
    };
    let Some(rest) = behind_fields(kinds, body) else {
        return None;
    };
    if !rest.is_empty() {
        return None;
    }
    Some(body)
}

// Appends what the field in a column is in a key, of a row with these fields.
fn push_column(
    fields: &[u8],
    kinds: &[Kind],
    column: usize,
    key: &mut Vec<u8>,
) -> Result<(), Memory>
    requires row { IsRowOf kinds.now (framed fields.now) }
    requires column { IsKeyColumn kinds.now column }
    ensures ok { OnOk result (key.new.items ≡ key.old.items ++ key_bytes (column ∷ []) (values_at kinds.now (framed fields.now))) }
{
    let Some(rest) = behind_fields(&kinds[..column], fields) else {
        unreachable!()
    };
    let kind = kinds[column];
    let Some(len) = field_len(kind, rest) else {
        unreachable!()
    };
    push_tagged(kind, &rest[..len], key)
}

// The bytes behind fields of these kinds.
fn behind_fields<'a>(kinds: &[Kind], bytes: &'a [u8]) -> Option<&'a [u8]>
    ensures { option_map (λ rest. rest.now) result ≡ behind_fields kinds.now bytes.now }
{
    let mut rest = bytes;
    for kind in kinds {
        let len = field_len(*kind, rest)?;
        rest = &rest[len..];
    }
    Some(rest)
}

// The length of the field of this kind at the front.
fn field_len(kind: Kind, bytes: &[u8]) -> Option<usize>
    ensures cut { option_map (λ len. (take len bytes.now, drop len bytes.now)) result ≡ cut_at kind bytes.now }
    ensures inside { IfSome result (λ len. len ≤ length bytes.now) }
{
    let len = match kind {
        Kind::Int => 8,
        Kind::Text => {
            let (head, _text) = bytes.split_first_chunk::<4>()?;
            4 + u32::from_be_bytes(*head) as usize
        }
        Kind::Wide => 16,
    };
    if bytes.len() < len {
        return None;
    }
    Some(len)
}

// Appends what a field's bytes are in a key.
fn push_tagged(kind: Kind, field: &[u8], key: &mut Vec<u8>) -> Result<(), Memory>
    requires keyed { kind ≢ Wide }
    ensures ok { OnOk result (key.new.items ≡ key.old.items ++ tagged kind field.now) }
{
    match kind {
        Kind::Int => key.push(1)?,
        Kind::Text => key.push(2)?,
        Kind::Wide => unreachable!(),
    }
    key.extend_from_slice(field)?;
    Ok(())
}
