// The commands, as `clap` is told of them.

ghost use Rattle.std.specs.Prelude.{◌≡◌, IfOk, codes, false};
ghost use Rattle.clap.specs.Words.{app_of, new_app, with_rule};
ghost use Rattle.clap.specs.declared.builder.command.Command.TheViews.{out-Command};
ghost use Rattle.spill_top.specs.Parsing.{bare, count_app, operand, run_app, self_check_app, spill_app};

use clap::{Arg, ArgAction, Command};
use std::alloc::{AllocError, Global};

// A command in which this operand has to stand behind those before.
fn with_operand<'a>(
    alloc: Global,
    parser: Command<'a>,
    id: &'a str,
) -> Result<Command<'a>, AllocError>
    ensures shape { IfOk result (λ more. app_of more ≡ with_rule (app_of parser.entry) (operand id.entry.now)) }
    ensures globals { IfOk result (λ more. (out-Command parser.entry).has_globals ≡ false → (out-Command more).has_globals ≡ false) }
{
    let arg = Arg::new(alloc, id).required(true).action(ArgAction::Set);
    parser.arg(arg)
}

// `count FILE COLUMN`
fn count_parser<'a>(alloc: Global) -> Result<Command<'a>, AllocError>
    ensures shape { IfOk result (λ p. app_of p ≡ count_app) }
    ensures local { IfOk result (λ p. (out-Command p).has_globals ≡ false) }
{
    let count = with_operand(alloc, Command::new(alloc, "count"), "FILE")?;
    with_operand(alloc, count, "COLUMN")
}

// `run PLAN`
fn run_parser<'a>(alloc: Global) -> Result<Command<'a>, AllocError>
    ensures shape { IfOk result (λ p. app_of p ≡ run_app) }
    ensures local { IfOk result (λ p. (out-Command p).has_globals ≡ false) }
{
    with_operand(alloc, Command::new(alloc, "run"), "PLAN")
}

// `selfcheck START ROWS GROUPS BLOCKS`
fn self_check_parser<'a>(alloc: Global) -> Result<Command<'a>, AllocError>
    ensures shape { IfOk result (λ p. app_of p ≡ self_check_app) }
    ensures local { IfOk result (λ p. (out-Command p).has_globals ≡ false) }
{
    let start = with_operand(alloc, Command::new(alloc, "selfcheck"), "START")?;
    let rows = with_operand(alloc, start, "ROWS")?;
    let groups = with_operand(alloc, rows, "GROUPS")?;
    with_operand(alloc, groups, "BLOCKS")
}

// A command of words that come without the program's name, with no help among its commands.
fn bare_parser<'a>(alloc: Global) -> Command<'a>
    ensures shape { app_of result ≡ bare (new_app (codes "spill")) }
    ensures local { (out-Command result).has_globals ≡ false }
{
    Command::new(alloc, "spill")
        .no_binary_name(true)
        .disable_help_flag(true)
        .disable_help_subcommand(true)
        .subcommand_required(true)
}

// The commands of this program.
pub(crate) fn parser<'a>(alloc: Global) -> Result<Command<'a>, AllocError>
    ensures { IfOk result (λ p. app_of p ≡ spill_app) }
{
    let one = bare_parser(alloc).subcommand(count_parser(alloc)?)?;
    let two = one.subcommand(run_parser(alloc)?)?;
    two.subcommand(self_check_parser(alloc)?)
}
