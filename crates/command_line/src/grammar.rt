//! The command line as `clap` reads it.

ghost use Rattle.std.specs.Prelude.{◌≡◌, IfOk, map, option_map, MatchOption};
ghost use Rattle.std.specs.String.{string_bytes};
ghost use Rattle.clap.specs.Simple.{app_of, subcommand_rows_of};
ghost use Rattle.command_line.specs.CommandLine.{AreTaken};
ghost use Rattle.command_line.specs.Grammar.{subcommands, words_of, words_read};

use crate::count::MOST_IMAGES;
use clap::builder::ValueParser;
use clap::error::ErrorKind;
use clap::{Arg, ArgMatches};
use reg_model::NoMemory;
use std::alloc::{AllocError, Global};

/// What `clap` read: which subcommand, and its argument as it was written.
#[derive(Clone, Copy, Debug)]
pub enum Asked<'a> {
    Run,
    Generate(&'a str),
}

/// The subcommands: `run`, without arguments, and `gen`, with a number from 1 to 500.
fn grammar<'a>(alloc: Global) -> Result<clap::Command<'a>, AllocError>
    ensures { IfOk result (λ command. app_of command ≡ subcommands) }
{
    let number = Arg::new(alloc, "N")
        .required(true)
        .value_parser(ValueParser::Unsigned(1, MOST_IMAGES as u64));
    let generate = clap::Command::new(alloc, "gen").arg(number)?;
    let run = clap::Command::new(alloc, "run");
    clap::Command::new(alloc, "unwind_main")
        .no_binary_name(true)
        .subcommand_required(true)
        .subcommand(run)?
        .subcommand(generate)
}

/// What `clap` reads in the words after the program's name. Help and version, which it answers by
/// itself, are nothing.
pub fn parse<'a>(alloc: Global, words: &'a [String]) -> Result<Option<Asked<'a>>, NoMemory>
    ensures { IfOk result (λ asked. AreTaken (map string_bytes words.now)
        → MatchOption asked ⊥ (λ a. words_of a ≡ map string_bytes words.now)) }
{
    match grammar(alloc)?.try_get_matches_from(words) {
        Ok(matches) => Ok(read_from(&matches)),
        Err(error) if error.kind() == ErrorKind::OutOfMemory => Err(NoMemory),
        Err(_) => Ok(None),
    }
}

/// Which subcommand was read.
fn read_from<'a>(matches: &ArgMatches<'a>) -> Option<Asked<'a>>
    ensures { option_map words_of result ≡ words_read (subcommand_rows_of matches.now) }
{
    let (name, inner) = matches.subcommand()?;
    if name == "run" {
        return Some(Asked::Run);
    }
    if name != "gen" {
        return None;
    }
    let number = inner.get_str("N")?;
    Some(Asked::Generate(number))
}
