// What the words of a command ask for.

ghost use Rattle.std.specs.Prelude.{◌≡◌, ◌≢◌, ◌⊎◌, ◌&&◌, None, IfOk, IsErr, bytes_eq, codes, is_some, map, string_bytes, false, true};
ghost use Rattle.spill_top.specs.Asked.{check_in, count_in, plan_in};
ghost use Rattle.spill_top.specs.Words.{check_of, command_of, plan_file_of, self_check_of};

use crate::words::{Check, Command, are_operands, read_words, spelled_check};
use row_codec::Memory;
use std::alloc::Global;

// A count, a run of a plan, or a check of the program.
#[derive(Clone, Copy)]
pub(crate) enum Task<'a> {
    Count { file: &'a str, column: &'a str },
    Run { plan: &'a str },
    Check(Check),
}

// What words ask for, if they are a command. Other words are refused as such whether or not there is memory to read them.
pub(crate) fn read_task<'a>(alloc: Global, words: &'a [String]) -> Result<Option<Task<'a>>, Memory>
    ensures count { IfOk result (λ found. count_in found ≡ command_of (map string_bytes words.entry.now)) }
    ensures run { IfOk result (λ found. plan_in found ≡ plan_file_of (map string_bytes words.entry.now)) }
    ensures check { IfOk result (λ found. check_in found ≡ check_of (map string_bytes words.entry.now)) }
    ensures err { IsErr result → (command_of (map string_bytes words.entry.now) ≢ None) ⊎ (plan_file_of (map string_bytes words.entry.now) ≢ None) ⊎ (check_of (map string_bytes words.entry.now) ≢ None) }
{
    match read_words(alloc, words) {
        Ok(Some(Command::Count { file, column })) => Ok(Some(Task::Count { file, column })),
        Ok(Some(Command::Run { plan })) => Ok(Some(Task::Run { plan })),
        Ok(Some(Command::SelfCheck(check))) => Ok(Some(Task::Check(check))),
        Ok(None) => Ok(None),
        Err(Memory) => {
            if is_command(words) {
                Err(Memory)
            } else {
                Ok(None)
            }
        }
    }
}

// Whether the words are a command.
fn is_command(words: &[String]) -> bool
    ensures yes { result ≡ true → (command_of (map string_bytes words.now) ≢ None) ⊎ (plan_file_of (map string_bytes words.now) ≢ None) ⊎ (check_of (map string_bytes words.now) ≢ None) }
    ensures count { result ≡ false → command_of (map string_bytes words.now) ≡ None }
    ensures run { result ≡ false → plan_file_of (map string_bytes words.now) ≡ None }
    ensures check { result ≡ false → check_of (map string_bytes words.now) ≡ None }
{
    if !are_operands(words) {
        return false;
    }
    match words {
        [verb, _, _] => "count" == verb.as_str(),
        [verb, _] => "run" == verb.as_str(),
        [verb, start, rows, groups, blocks] => is_check(
            verb.as_str(),
            start.as_str(),
            rows.as_str(),
            groups.as_str(),
            blocks.as_str(),
        ),
        _ => false,
    }
}

// Whether five words are a check of the program.
fn is_check(verb: &str, start: &str, rows: &str, groups: &str, blocks: &str) -> bool
    ensures { result ≡ (bytes_eq (codes "selfcheck") verb.now && is_some (self_check_of start.now rows.now groups.now blocks.now)) }
{
    if "selfcheck" != verb {
        return false;
    }
    spelled_check(start, rows, groups, blocks).is_some()
}
