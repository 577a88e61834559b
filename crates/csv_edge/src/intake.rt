// Bytes that were taken from a source, within a limit.

ghost use Rattle.std.specs.Prelude.{◌≡◌, ◌≤◌, ◌<◌, ◌+◌, [], length, drop, take, IfOk, IfErr, OnOk, IsErrOf};
ghost use Rattle.std.specs.Io.KnownBytes.{Consumes, IsAtEnd, Keeps, prepend_known};
ghost use Rattle.outside.specs.Counts.{Rose};
ghost use Rattle.csv_edge.specs.Rows.{CountsBytes, IsOfRecord, PassesLimit};

use crate::refusal::InputErr;
use outside::Source;
use std::alloc::{AllocError, Global};
use std::marker::Model;

// So many bytes are asked of the source in one read.
const READ_LEN: usize = 16384;

/// Bytes that a source gave and that belong to no piece yet, and how many more are allowed.
#[derive(Drop)]
pub(crate) struct Intake {
    buffer: Vec<u8>,
    at: usize,
    end: usize,
    allowed: u64,
}

impl Model for Intake {
    ghost use Rattle.std.specs.Prelude.{◌≤◌, drop, take, length};
    ghost use Rattle.csv_edge.specs.Unread.{Taken};

    ghost Value = { Taken };

    ghost view = { λ i. record { ahead = drop i.at (take i.end i.buffer.items); allowed = i.allowed } };

    ghost invariant = { λ i. (i.at ≤ i.end) × (i.end ≤ length i.buffer.items) × (3 ≤ length i.buffer.items) };
}

impl Intake {
    /// Nothing was taken yet.
    pub(crate) fn new(alloc: Global, allowed: u64) -> Result<Intake, AllocError>
        ensures { IfOk result (λ intake. intake ≡ record { ahead = []; allowed = allowed }) }
    {
        Ok(Intake {
            buffer: vec![in alloc; 0; READ_LEN]?,
            at: 0,
            end: 0,
            allowed,
        })
    }

    /// The bytes that were taken, from the front.
    pub(crate) fn as_slice(&self) -> &[u8]
        ensures { result.now ≡ self.now.ahead }
    {
        &self.buffer[self.at..self.end]
    }

    /// The first of them belong to a piece now.
    pub(crate) fn pass(&mut self, count: usize)
        requires { count ≤ length self.old.ahead }
        ensures { self.new ≡ record { ahead = drop count self.old.ahead; allowed = self.old.allowed } }
    {
        self.at += count;
    }

    /// Sees to it that a byte is ahead, as far as the source has one; where none was, that so many are.
    pub(crate) fn fetch<S: Source>(&mut self, src: &mut S, wanted: usize) -> Result<(), InputErr>
        requires some { 0 < wanted }
        requires wanted { wanted ≤ 3 }
        ensures taken { OnOk result (Keeps (prepend_known self.old.ahead (S.remaining src.old)) (prepend_known self.new.ahead (S.remaining src.new))) }
        ensures counted { OnOk result (self.old.allowed + length self.old.ahead ≡ self.new.allowed + length self.new.ahead) }
        ensures counts { OnOk result (CountsBytes self.old.allowed (S.remaining src.old) self.new.allowed (S.remaining src.new)) }
        ensures some { OnOk result (self.new.ahead ≡ [] → IsAtEnd (S.remaining src.new)) }
        ensures end { OnOk result (self.old.ahead ≡ [] → length self.new.ahead < wanted → IsAtEnd (S.remaining src.new)) }
        ensures large { IsErrOf result InputErr.TooLarge → PassesLimit self.old.allowed (S.remaining src.old) }
        ensures fault { IsErrOf result InputErr.Fault → Rose (S.faults src.old) (S.faults src.new) }
        ensures never_falls { S.faults src.old ≤ S.faults src.new }
        ensures cause { IfErr result (λ e. IsOfRecord e → ⊥) }
    {
        if !self.as_slice().is_empty() {
            return Ok(());
        }
        self.refill(src, wanted)
    }

    // Takes at least so many bytes, as far as the source has them.
    fn refill<S: Source>(&mut self, src: &mut S, wanted: usize) -> Result<(), InputErr>
        requires empty { self.old.ahead ≡ [] }
        requires wanted { wanted ≤ 3 }
        ensures taken { OnOk result (Consumes (S.remaining src.old) (S.remaining src.new) self.new.ahead) }
        ensures counted { OnOk result (self.old.allowed ≡ self.new.allowed + length self.new.ahead) }
        ensures end { OnOk result (length self.new.ahead < wanted → IsAtEnd (S.remaining src.new)) }
        ensures large { IsErrOf result InputErr.TooLarge → PassesLimit self.old.allowed (S.remaining src.old) }
        ensures fault { IsErrOf result InputErr.Fault → Rose (S.faults src.old) (S.faults src.new) }
        ensures never_falls { S.faults src.old ≤ S.faults src.new }
        ensures cause { IfErr result (λ e. IsOfRecord e → ⊥) }
    {
        self.at = 0;
        self.end = 0;
        let buffer = self.buffer.as_mut_slice();
        self.end = read_some(src, buffer, wanted, &mut self.allowed)?;
        Ok(())
    }
}

// Reads into the buffer until so many bytes stand there, or the source ends, and answers how many do.
fn read_some<S: Source>(
    src: &mut S,
    buffer: &mut [u8],
    wanted: usize,
    allowed: &mut u64,
) -> Result<usize, InputErr>
    requires { wanted ≤ length buffer.old }
    ensures fits { IfOk result (λ end. end ≤ length buffer.new) }
    ensures taken { IfOk result (λ end. Consumes (S.remaining src.old) (S.remaining src.new) (take end buffer.new)) }
    ensures counted { IfOk result (λ end. allowed.old ≡ allowed.new + end) }
    ensures end { IfOk result (λ end. end < wanted → IsAtEnd (S.remaining src.new)) }
    ensures large { IsErrOf result InputErr.TooLarge → PassesLimit allowed.old (S.remaining src.old) }
    ensures fault { IsErrOf result InputErr.Fault → Rose (S.faults src.old) (S.faults src.new) }
    ensures never_falls { S.faults src.old ≤ S.faults src.new }
    ensures cause { IfErr result (λ e. IsOfRecord e → ⊥) }
{
    let mut end = 0;
    while end < wanted {
        let count = src.read(&mut buffer[end..])?;
        if count == 0 {
            return Ok(end);
        }
        if count as u64 > *allowed {
            return Err(InputErr::TooLarge);
        }
        *allowed -= count as u64;
        end += count;
    }
    Ok(end)
}
