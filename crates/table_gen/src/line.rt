// The key of a row, and its line, which stands at the end of a small buffer.

ghost use Rattle.std.specs.Prelude.{◌≡◌, ◌<◌, length, drop};
ghost use Rattle.table_gen.specs.Table.{key_in_row, line_of};

use itoa::write_digits;

/// The bytes of the longest line: two numbers of 20 digits, a comma and a newline.
pub const LONGEST: usize = 42;

/// The key of this row, whatever the start; no sum is cut off.
#[inline]
pub fn key_of(start: u64, groups: u64, row: u64) -> u64
    requires { 0 < groups }
    ensures key { result ≡ key_in_row start groups row }
{
    let sum = 7 * u128::from(row) + u128::from(start);
    (sum % u128::from(groups)) as u64
}

/// Writes the line of `key` and `number` up to the end of `line`, and returns where it starts.
#[inline]
pub fn write_line(key: u64, number: u64, line: &mut [u8]) -> usize
    requires { length line.old ≡ 42 }
    ensures start { result < 42 }
    ensures written { drop result line.new ≡ line_of key number }
{
    line[LONGEST - 1] = b'\n';
    let comma = write_digits(number, line, LONGEST - 1) - 1;
    line[comma] = b',';
    write_digits(key, line, comma)
}
