ghost use Rattle.std.specs.Prelude.{◌≡◌, IfOk, false, codes};
ghost use Rattle.clap.specs.Words.{rule_of};
ghost use Rattle.sg_command.specs.Words.{required_rule, option_rule, folder_app, init_app, run_app, gen_app, bare_app, stasis_app, IsApp};

use clap::{Arg, Command};
use std::alloc::{AllocError, Global};

// A word that has to be there.
fn required<'a>(alloc: Global, id: &'a str) -> Arg<'a>
    ensures rule { rule_of result ≡ required_rule id.entry.now }
    ensures own { result.global ≡ false }
{
    Arg::new(alloc, id).required(true)
}

// An option with one value.
fn option<'a>(alloc: Global, name: &'a str) -> Arg<'a>
    ensures rule { rule_of result ≡ option_rule name.entry.now }
    ensures own { result.global ≡ false }
{
    Arg::new(alloc, name).long(name)
}

// A subcommand with the word DIR.
fn with_folder<'a>(alloc: Global, name: &'a str) -> Result<Command<'a>, AllocError>
    ensures { IfOk result (IsApp (folder_app name.entry.now)) }
{
    Command::new(alloc, name).arg(required(alloc, "dir"))
}

fn init_command<'a>(alloc: Global) -> Result<Command<'a>, AllocError>
    ensures { IfOk result (IsApp init_app) }
{
    with_folder(alloc, "init")?.arg(option(alloc, "geometry"))
}

fn run_command<'a>(alloc: Global) -> Result<Command<'a>, AllocError>
    ensures { IfOk result (IsApp run_app) }
{
    with_folder(alloc, "run")?.arg(option(alloc, "stop-after"))
}

fn gen_command<'a>(alloc: Global) -> Result<Command<'a>, AllocError>
    ensures { IfOk result (IsApp gen_app) }
{
    Command::new(alloc, "gen")
        .arg(required(alloc, "seed"))?
        .arg(required(alloc, "count"))
}

// The command without its subcommands.
fn bare_command<'a>(alloc: Global) -> Command<'a>
    ensures { IsApp bare_app result }
{
    Command::new(alloc, "stasis")
        .no_binary_name(true)
        .subcommand_required(true)
}

/// The command with its six subcommands.
pub fn stasis_command<'a>(alloc: Global) -> Result<Command<'a>, AllocError>
    ensures { IfOk result (IsApp stasis_app) }
{
    bare_command(alloc)
        .subcommand(init_command(alloc)?)?
        .subcommand(run_command(alloc)?)?
        .subcommand(with_folder(alloc, "dump")?)?
        .subcommand(with_folder(alloc, "check")?)?
        .subcommand(with_folder(alloc, "log")?)?
        .subcommand(gen_command(alloc)?)
}
