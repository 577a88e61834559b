// A source that gives the table.

ghost use Rattle.std.specs.Prelude.{◌≡◌, ◌≤◌, ◌<◌, ◌++◌, length, take, min, [], Some, IsOk, IfOk, OnErr};
ghost use Rattle.std.specs.Io.KnownBytes.{ReadConsumes};
ghost use Rattle.outside.specs.Counts.{Rose};
ghost use Rattle.table_gen.specs.Table.{table_bytes};

use crate::line::{LONGEST, key_of, write_line};
use outside::{Failed, Source};
use std::marker::Model;

/// A source of the lines `k,v` and then `K,I` for each row number I from 0 on, where K is
/// `7 * I + start` modulo the number of groups. It takes no memory and never fails.
#[derive(Debug, Drop)]
pub struct TableSource {
    line: [u8; LONGEST],
    at: usize,
    row: u64,
    rows: u64,
    start: u64,
    groups: u64,
}

impl Model for TableSource {
    ghost use Rattle.std.specs.Prelude.{ℕ, ◌-◌, ◌<◌, ◌≤◌, ◌++◌, List, drop};
    ghost use Rattle.table_gen.specs.Table.{lines_from};

    ghost Value = { List ℕ };

    ghost view = { λ t. drop t.at t.line ++ lines_from t.start t.groups t.row (t.rows - t.row) };

    ghost invariant = { λ t. (t.at ≤ 42) × (t.row ≤ t.rows) × (0 < t.groups) };
}

impl TableSource {
    /// The table of `rows` rows, whose keys start at `start` and are below `groups`.
    pub fn new(start: u64, rows: u64, groups: u64) -> TableSource
        requires { 0 < groups }
        ensures table { result ≡ table_bytes start rows groups }
    {
        let mut line = [0; LONGEST];
        line[LONGEST - 4..].copy_from_slice(b"k,v\n");
        TableSource {
            line,
            at: LONGEST - 4,
            row: 0,
            rows,
            start,
            groups,
        }
    }

    /// Gives bytes of one line, as many as `buf` has room for, and answers how many.
    fn give(&mut self, buf: &mut [u8]) -> usize
        requires { 0 < length buf.old }
        ensures count { result ≤ length buf.new }
        ensures bytes { self.old ≡ take result buf.new ++ self.new }
        ensures end { result ≡ 0 → self.new ≡ [] }
    {
        if self.at == LONGEST && self.row < self.rows {
            let key = key_of(self.start, self.groups, self.row);
            self.at = write_line(key, self.row, &mut self.line);
            self.row += 1;
        }
        let (_, left) = self.line.split_at(self.at);
        let size = buf.len().min(left.len());
        let (piece, _) = left.split_at(size);
        buf[..size].copy_from_slice(piece);
        self.at += size;
        size
    }
}

impl Source for TableSource {
    ghost remaining = { λ t. Some t };

    ghost faults = { λ _. 0 };

    fn read(&mut self, buf: &mut [u8]) -> Result<usize, Failed>
        requires { 0 < length buf.old }
        // A read never fails, and fills `buf` unless the table ends.
        ensures ok { IsOk result }
        ensures size { IfOk result (λ n. n ≡ min (length buf.old) (length self.old)) }

        ensures count { IfOk result (λ n. n ≤ length buf.new) }
        ensures bytes { ReadConsumes (Some self.old) (Some self.new) result buf.new }
        ensures never_falls { 0 ≤ 0 }
        ensures failed { OnErr result (Rose 0 0) }
    {
        let mut filled = 0;
        while filled < buf.len() {
            let count = self.give(&mut buf[filled..]);
            if count == 0 {
                break;
            }
            filled += count;
        }
        Ok(filled)
    }
}
