//! Which command the words are.

ghost use Rattle.std.specs.Prelude.{◌≡◌, ◌∷◌, [], ℕ, IfOk, map, MatchOption, codes};
ghost use Rattle.std.specs.String.{string_bytes};
ghost use Rattle.command_line.specs.CommandLine.{AreTaken, Decides, IsCommandLine, IsCount};
ghost use Rattle.command_line.specs.Grammar.{words_of};

use crate::count::count_of;
use crate::grammar::{Asked, parse};
use reg_model::NoMemory;
use std::alloc::Global;

/// What the words of the command line ask for.
#[derive(Clone, Copy, Debug, PartialEq, Eq)]
pub enum Command {
    /// To run the script that is read.
    Run,
    /// To run the script that is generated, with so many images a thread, 1 to 500.
    Generate { count: u32 },
}

/// The command that the words after the program's name are, or None where they are none's: `run`,
/// or `gen` and one to three digits whose number is from 1 to 500.
pub fn command_of(alloc: Global, words: &[String]) -> Result<Option<Command>, NoMemory>
    ensures { IfOk result (Decides (map string_bytes words.now)) }
{
    match parse(alloc, words)? {
        Some(asked) => Ok(spelled(words, asked)),
        None => Ok(None),
    }
}

/// The command that was read, where the words are exactly its own.
fn spelled(words: &[String], asked: Asked<'_>) -> Option<Command>
    ensures { MatchOption result
        (words_of asked.entry ≡ map string_bytes words.now
        → ¬ AreTaken (map string_bytes words.now))
        (IsCommandLine (map string_bytes words.now)) }
{
    match asked {
        Asked::Run => match words {
            [word] if word.as_bytes() == b"run".as_slice() => Some(Command::Run),
            _ => None,
        },
        Asked::Generate(number) => match words {
            [name, word]
                if name.as_bytes() == b"gen".as_slice() && word.as_bytes() == number.as_bytes() => {
                generated(word.as_bytes())
            }
            _ => None,
        },
    }
}

/// The command `gen` with this word.
fn generated(word: &[u8]) -> Option<Command>
    ensures { MatchOption result ((count : ℕ) → ¬ IsCount word.now count)
        (IsCommandLine (codes "gen" ∷ word.now ∷ [])) }
{
    let count = count_of(word)?;
    Some(Command::Generate { count })
}
