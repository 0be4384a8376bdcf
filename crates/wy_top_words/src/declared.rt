//! The command line as `clap` is told of it.
ghost use Rattle.std.specs.Prelude.{◌≡◌, IfOk, false};
ghost use Rattle.clap.specs.Words.{app_of, rule_of};
ghost use Rattle.wy_top_words.specs.Line.{app, bare_app, operands_rule, stats_rule, valued_rule, with_leaf};

use clap::{Arg, ArgAction, Command};
use std::alloc::{AllocError, Global};

/// The nine commands as subcommands. Each has the same options and any number of operands: which of them a command
/// takes is tested behind.
pub fn command_line<'a>(alloc: Global) -> Result<Command<'a>, AllocError>
    ensures app { IfOk result (λ c. app_of c ≡ app) }
{
    let line = bare(alloc);
    let line = with_command(alloc, line, "check")?;
    let line = with_command(alloc, line, "run")?;
    let line = with_command(alloc, line, "prove")?;
    let line = with_command(alloc, line, "conds")?;
    let line = with_command(alloc, line, "fmt")?;
    let line = with_command(alloc, line, "dis")?;
    let line = with_command(alloc, line, "big")?;
    let line = with_command(alloc, line, "probe")?;
    with_command(alloc, line, "again")
}

// No program's name stands first, and there is no word for help or a version.
fn bare<'a>(alloc: Global) -> Command<'a>
    ensures app { app_of result ≡ bare_app }
{
    Command::new(alloc, "wy")
        .no_binary_name(true)
        .disable_help_flag(true)
        .disable_help_subcommand(true)
        .disable_version_flag(true)
}

// The command of this name with every option.
fn with_command<'a>(
    alloc: Global,
    line: Command<'a>,
    name: &'a str,
) -> Result<Command<'a>, AllocError>
    ensures app { IfOk result (λ c. app_of c ≡ with_leaf (app_of line.entry) name.entry.now) }
{
    let command = Command::new(alloc, name)
        .arg(valued(alloc, "budget"))?
        .arg(valued(alloc, "steps"))?
        .arg(valued(alloc, "workers"))?
        .arg(stats(alloc))?
        .arg(operands(alloc))?;
    line.subcommand(command)
}

fn valued<'a>(alloc: Global, name: &'a str) -> Arg<'a>
    ensures rule { rule_of result ≡ valued_rule name.entry.now }
    ensures local { result.global ≡ false }
{
    Arg::new(alloc, name).long(name).action(ArgAction::Set)
}

fn stats<'a>(alloc: Global) -> Arg<'a>
    ensures rule { rule_of result ≡ stats_rule }
    ensures local { result.global ≡ false }
{
    Arg::new(alloc, "stats")
        .long("stats")
        .action(ArgAction::SetTrue)
}

fn operands<'a>(alloc: Global) -> Arg<'a>
    ensures rule { rule_of result ≡ operands_rule }
    ensures local { result.global ≡ false }
{
    Arg::new(alloc, "operands").action(ArgAction::Append)
}
