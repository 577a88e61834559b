// The words of a command, read by `clap`.

ghost use Rattle.std.specs.Prelude.{◌≡◌, IfOk, codes, true, map, option_map, option_and_then, string_bytes};
ghost use Rattle.std.specs.List.{list_all};
ghost use Rattle.clap.specs.Words.{first_of, found_of, rows_of, subcommand_rows_of};
ghost use Rattle.spill_top.specs.Asked.{asked};
ghost use Rattle.spill_top.specs.Words.{SelfCheck, is_operand, request_of, self_check_of, spelled};
ghost use Rattle.spill_top.specs.Parsing.{check_from, count_from, request_met, run_from};

use crate::number::number_in;
use crate::parser::parser;
use clap::ArgMatches;
use clap::error::ErrorKind;
use row_codec::Memory;
use std::alloc::Global;

// What the words ask for.
#[derive(Clone, Copy)]
pub(crate) enum Command<'a> {
    Count { file: &'a str, column: &'a str },
    Run { plan: &'a str },
    SelfCheck(Check),
}

// A check of the program over rows that are generated: the number of the first one, how many there are, in how many
// groups, and the blocks of the pool.
#[derive(Clone, Copy)]
pub(crate) struct Check {
    pub(crate) start: u32,
    pub(crate) rows: u32,
    pub(crate) groups: u32,
    pub(crate) blocks: u32,
}

// The command that words spell, if they are one.
pub(crate) fn read_words<'a>(
    alloc: Global,
    words: &'a [String],
) -> Result<Option<Command<'a>>, Memory>
    ensures { IfOk result (λ found. option_map asked found ≡ request_of (map string_bytes words.entry.now)) }
{
    if !are_operands(words) {
        return Ok(None);
    }
    let Some(matches) = parse(alloc, words)? else {
        return Ok(None);
    };
    Ok(command_met(&matches))
}

// Whether each word may name something.
pub(crate) fn are_operands(words: &[String]) -> bool
    ensures { result ≡ list_all is_operand (map string_bytes words.now) }
{
    for word in words {
        if !is_operand(word.as_str()) {
            return false;
        }
    }
    true
}

// Whether a word may: it is not empty and does not begin with a hyphen.
fn is_operand(word: &str) -> bool
    ensures { result ≡ is_operand word.now }
{
    match word.as_bytes() {
        [] => false,
        [first, ..] => *first != b'-',
    }
}

// What `clap` makes of operands, unless it refuses them.
fn parse<'a>(alloc: Global, words: &'a [String]) -> Result<Option<ArgMatches<'a>>, Memory>
    requires { list_all is_operand (map string_bytes words.now) ≡ true }
    ensures { IfOk result (λ found. option_and_then (λ m. request_met (subcommand_rows_of m)) found ≡ spelled (map string_bytes words.entry.now)) }
{
    match parser(alloc)?.try_get_matches_from(words) {
        Ok(matches) => Ok(Some(matches)),
        Err(e) => match e.kind() {
            ErrorKind::OutOfMemory => Err(Memory),
            _ => Ok(None),
        },
    }
}

// The command that was met.
fn command_met<'a>(matches: &ArgMatches<'a>) -> Option<Command<'a>>
    ensures { option_map asked result ≡ request_met (subcommand_rows_of matches.now) }
{
    let (name, found) = matches.subcommand()?;
    if name == "count" {
        read_count(found)
    } else if name == "run" {
        read_run(found)
    } else {
        read_self_check(found)
    }
}

fn read_count<'a>(found: &ArgMatches<'a>) -> Option<Command<'a>>
    ensures { option_map asked result ≡ count_from (first_of (codes "FILE") (rows_of (found_of found.now))) (first_of (codes "COLUMN") (rows_of (found_of found.now))) }
{
    Some(Command::Count {
        file: text_of(found, "FILE")?,
        column: text_of(found, "COLUMN")?,
    })
}

fn read_run<'a>(found: &ArgMatches<'a>) -> Option<Command<'a>>
    ensures { option_map asked result ≡ run_from (first_of (codes "PLAN") (rows_of (found_of found.now))) }
{
    Some(Command::Run {
        plan: text_of(found, "PLAN")?,
    })
}

fn read_self_check<'a>(found: &ArgMatches<'a>) -> Option<Command<'a>>
    ensures { option_map asked result ≡ check_from (first_of (codes "START") (rows_of (found_of found.now))) (first_of (codes "ROWS") (rows_of (found_of found.now)))
        (first_of (codes "GROUPS") (rows_of (found_of found.now))) (first_of (codes "BLOCKS") (rows_of (found_of found.now))) }
{
    let start = text_of(found, "START")?;
    let rows = text_of(found, "ROWS")?;
    let groups = text_of(found, "GROUPS")?;
    let blocks = text_of(found, "BLOCKS")?;
    Some(Command::SelfCheck(spelled_check(start, rows, groups, blocks)?))
}

// The check whose numbers these words spell.
pub(crate) fn spelled_check(start: &str, rows: &str, groups: &str, blocks: &str) -> Option<Check>
    ensures { option_map SelfCheck result ≡ self_check_of start.now rows.now groups.now blocks.now }
{
    Some(Check {
        start: number_in(start, 0, 2147483647)?,
        rows: number_in(rows, 0, 2147483647)?,
        groups: number_in(groups, 1, 2147483647)?,
        blocks: number_in(blocks, 1, 262144)?,
    })
}

// The text that stands in an operand's place.
fn text_of<'a>(found: &ArgMatches<'a>, id: &str) -> Option<&'a str>
    ensures { option_map (λ text. text.now) result ≡ first_of id.now (rows_of (found_of found.now)) }
{
    found.get_str(id)
}
