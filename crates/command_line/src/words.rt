//! The words of a command line, `flowdir MODE [options]` without its first word.
//!
//! `clap` states which words a simple command takes, and what it finds in them. The plan is a
//! function of that: each option's value or its default. The program itself reads only the texts
//! of rows, of a schedule and of stops.

ghost use Rattle.std.specs.Prelude.{◌≡◌, IfOk, IfErr, [], map, string_bytes};
ghost use Rattle.std.specs.List.{AllByRecursion};
ghost use Rattle.clap.specs.Walk.{first_of};
ghost use Rattle.clap.specs.Words.{first_value, found_of, matches_of, fault_of, kind_of};
ghost use Rattle.command_line.specs.declared.words.WordsFault.TheVariants.{Memory};
ghost use Rattle.command_line.specs.Command.{flowdir_app, numbers, Passes};
ghost use Rattle.command_line.specs.Words.{reads, Answers, IsInRange};

use crate::plan::Plan;
use clap::error::ErrorKind;
use clap::{ArgMatches, Error};
use std::alloc::{AllocError, Global};

mod command;
mod laws;
mod options;
mod plays;
mod texts;
mod values;
mod wrong;

pub use laws::command_line_laws;
pub use wrong::wrong_word;

/// Why the words gave no plan.
#[derive(Clone, Copy, Debug, PartialEq, Eq, thiserror::Error)]
pub enum WordsFault {
    /// The command does not take the words, or a text that the mode uses is not a word for it.
    #[error("usage: flowdir serve|play|make|trial|check|totals|flows [options]")]
    Usage,
    #[error("out of memory")]
    Memory,
}

impl From<AllocError> for WordsFault {
    ghost from_gives = { λ _ e. e ≡ Memory };

    fn from(_: AllocError) -> WordsFault {
        WordsFault::Memory
    }
}

/// The matches of the command of the program.
fn parse<'a>(alloc: Global, words: &'a [String]) -> Result<ArgMatches<'a>, WordsFault>
    ensures taken { IfOk result (λ _. fault_of flowdir_app (map string_bytes words.now) ≡ []) }
    ensures values { IfOk result (λ m. first_value (found_of m)
        ≡ (λ name. first_of name (matches_of flowdir_app (map string_bytes words.now)))) }
    ensures numbers { IfOk result (λ m. AllByRecursion (Passes (found_of m)) numbers) }
    ensures refused { IfErr result (λ e. e ≡ WordsFault.Usage
        → fault_of flowdir_app (map string_bytes words.now) ≡ [] → ⊥) }
{
    let command = command::flowdir(alloc)?;
    match command.try_get_matches_from(words) {
        Ok(matches) => Ok(matches),
        Err(error) => Err(fault_for(&error)),
    }
}

fn fault_for(error: &Error) -> WordsFault
    ensures memory { result ≡ WordsFault.Usage → kind_of error.now ≡ ErrorKind.OutOfMemory → ⊥ }
    ensures usage { (kind_of error.now ≡ ErrorKind.OutOfMemory → ⊥) → result ≡ WordsFault.Usage }
{
    match error.kind() {
        ErrorKind::OutOfMemory => WordsFault::Memory,
        _ => WordsFault::Usage,
    }
}

/// The plan that the words after the program's name ask for.
///
/// A number is what `clap`'s reader of a u64 takes, so a leading `+` or zeros pass. `--` ends the
/// options, and an option that is given twice is not taken.
///
/// Faults: `Usage`, only where the words ask for no plan; `Memory`, where memory is wanting.
pub fn read_words(alloc: Global, words: &[String]) -> Result<Plan, WordsFault>
    ensures answers { Answers (reads (map string_bytes words.now)) result }
    ensures fits { IfOk result IsInRange }
{
    match parse(alloc, words) {
        Ok(matches) => match values::plan_of(alloc, &matches) {
            Ok(plan) => plan.ok_or(WordsFault::Usage),
            Err(AllocError) => Err(WordsFault::Memory),
        },
        Err(fault) => Err(fault),
    }
}
