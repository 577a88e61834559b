// What is wrong with words that are no command.

use crate::shown::Shown;
use crate::usage::USAGE;
use std::io;

// Tells the mistake, where there are words, and how to call the program.
pub(crate) fn tell_mistake(rt: &impl Eprint, words: &[String]) -> io::Result<()> {
    if let Some((command, operands)) = words.split_first() {
        tell_of(rt, command.as_str(), operands)?;
    }
    rt.eprint(USAGE)
}

fn tell_of(rt: &impl Eprint, command: &str, operands: &[String]) -> io::Result<()> {
    let Some((count, names)) = operands_of(command) else {
        return eprintln!(rt; "spill: unknown command \"{}\"", Shown(command));
    };
    if operands.len() != count {
        return eprintln!(rt; "spill: wrong number of arguments: {command} takes {names}");
    }
    if operands.iter().any(|word| !is_operand(word.as_str())) {
        return eprintln!(rt;
            "spill: an argument is empty or begins with a hyphen: of a file write ./ before its name"
        );
    }
    eprintln!(rt;
        "spill: an argument is out of range: START and ROWS are at most 2147483647, GROUPS from 1 to 2147483647, BLOCKS from 1 to 262144"
    )
}

// How many operands a command takes, and their names.
fn operands_of(command: &str) -> Option<(usize, &'static str)> {
    match command {
        "count" => Some((2, "FILE COLUMN")),
        "run" => Some((1, "PLAN")),
        "selfcheck" => Some((4, "START ROWS GROUPS BLOCKS")),
        "help" | "--help" | "-h" | "--version" => Some((0, "none")),
        _ => None,
    }
}

fn is_operand(word: &str) -> bool {
    !word.is_empty() && !word.starts_with('-')
}
