//! The command line as it is declared to `clap`.

ghost use Rattle.std.specs.Prelude.{◌≡◌, false, IfOk};
ghost use Rattle.clap.specs.Walk.{rule_of};
ghost use Rattle.clap.specs.Simple.{app_of};
ghost use Rattle.lay_commands.specs.CommandLine.{compile_command, profile_command, interp_command, run_command, no_command, command_line};
ghost use Rattle.lay_commands.specs.CommandLine.{out_option, plain_flag, long_option, files_argument, elf_argument};

use clap::{Arg, ArgAction, Command};
use std::alloc::{AllocError, Global};

/// `-o NAME`, which is read back under the name OUT.
fn out_option<'a>(alloc: Global) -> Arg<'a>
    ensures rule { rule_of result ≡ out_option }
    ensures local { result.global ≡ false }
{
    Arg::new(alloc, "OUT").short('o').required(true)
}

/// `--plain`.
fn plain_flag<'a>(alloc: Global) -> Arg<'a>
    ensures rule { rule_of result ≡ plain_flag }
    ensures local { result.global ≡ false }
{
    Arg::new(alloc, "plain")
        .long("plain")
        .action(ArgAction::SetTrue)
}

/// `--NAME VALUE`.
fn long_option<'a>(alloc: Global, name: &'a str) -> Arg<'a>
    ensures rule { rule_of result ≡ long_option name.entry.now }
    ensures local { result.global ≡ false }
{
    Arg::new(alloc, name).long(name)
}

/// `FILE...`.
fn files_argument<'a>(alloc: Global) -> Arg<'a>
    ensures rule { rule_of result ≡ files_argument }
    ensures local { result.global ≡ false }
{
    Arg::new(alloc, "FILE").num_args(1..).required(true)
}

/// `ELF`.
fn elf_argument<'a>(alloc: Global) -> Arg<'a>
    ensures rule { rule_of result ≡ elf_argument }
    ensures local { result.global ≡ false }
{
    Arg::new(alloc, "ELF").required(true)
}

fn compile_command<'a>(alloc: Global) -> Result<Command<'a>, AllocError>
    ensures { IfOk result (λ c. app_of c ≡ compile_command) }
{
    let args = vec![in alloc;
        out_option(alloc),
        long_option(alloc, "profile"),
        plain_flag(alloc),
        long_option(alloc, "heap"),
        long_option(alloc, "stack"),
        files_argument(alloc),
    ]?;
    Command::new(alloc, "compile").args(args)
}

fn profile_command<'a>(alloc: Global) -> Result<Command<'a>, AllocError>
    ensures { IfOk result (λ c. app_of c ≡ profile_command) }
{
    let args = vec![in alloc;
        out_option(alloc),
        long_option(alloc, "turns"),
        files_argument(alloc),
    ]?;
    Command::new(alloc, "profile").args(args)
}

fn interp_command<'a>(alloc: Global) -> Result<Command<'a>, AllocError>
    ensures { IfOk result (λ c. app_of c ≡ interp_command) }
{
    let args = vec![in alloc; long_option(alloc, "turns"), files_argument(alloc)]?;
    Command::new(alloc, "interp").args(args)
}

fn run_command<'a>(alloc: Global) -> Result<Command<'a>, AllocError>
    ensures { IfOk result (λ c. app_of c ≡ run_command) }
{
    let args = vec![in alloc; long_option(alloc, "steps"), elf_argument(alloc)]?;
    Command::new(alloc, "run").args(args)
}

/// The command line.
pub fn command_line<'a>(alloc: Global) -> Result<Command<'a>, AllocError>
    ensures { IfOk result (λ c. app_of c ≡ command_line) }
{
    Command::new(alloc, "layc")
        .no_binary_name(true)
        .disable_help_flag(true)
        .disable_help_subcommand(true)
        .disable_version_flag(true)
        .subcommand_required(true)
        .subcommand(compile_command(alloc)?)?
        .subcommand(profile_command(alloc)?)?
        .subcommand(interp_command(alloc)?)?
        .subcommand(run_command(alloc)?)
}
