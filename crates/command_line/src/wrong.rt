//! What is wrong with words that ask for no plan, and what may stand there instead.

use std::fmt;

/// What may stand as the value of an option.
#[derive(Clone, Copy)]
pub enum Choice {
    /// A number in this range.
    Number { least: u64, most: u64 },
    /// What this text says.
    Text(&'static str),
}

impl fmt::Display for Choice {
    fn fmt<W: fmt::Write>(&self, f: &mut fmt::Formatter<W>) -> fmt::Result {
        match self {
            Choice::Number { least, most } => write!(f, "a number from {least} to {most}"),
            Choice::Text(text) => f.write_str(text),
        }
    }
}

/// The first word that the command does not take or that the mode cannot use.
#[derive(Clone, Copy)]
pub enum WrongWord<'a> {
    /// No word is the mode.
    NoMode,
    /// The word stands where the mode stands, and is none.
    UnknownMode {
        word: &'a str,
    },
    /// The mode stands before this word.
    SecondMode {
        word: &'a str,
    },
    /// The word has the form of an option, and is none.
    UnknownOption {
        word: &'a str,
    },
    /// The option stands twice.
    Twice {
        name: &'static str,
    },
    /// No value stands behind the option.
    NoValue {
        name: &'static str,
        choice: Choice,
    },
    /// This value may not stand behind the option.
    BadValue {
        name: &'static str,
        value: &'a str,
        choice: Choice,
    },
    /// None of these.
    Other,
}

/// The modes, as a line of words may have them.
const MODES: &str = "give serve, play, make, trial, check, totals or flows";

impl fmt::Display for WrongWord<'_> {
    fn fmt<W: fmt::Write>(&self, f: &mut fmt::Formatter<W>) -> fmt::Result {
        match self {
            WrongWord::NoMode => write!(f, "no mode: {MODES}"),
            WrongWord::UnknownMode { word } => write!(f, "{}: no such mode: {MODES}", Shown(word)),
            WrongWord::SecondMode { word } => {
                write!(
                    f,
                    "{}: the mode stands before it; see flowdir help",
                    Shown(word)
                )
            }
            WrongWord::UnknownOption { word } => {
                write!(f, "{}: no such option; see flowdir help", Shown(word))
            }
            WrongWord::Twice { name } => write!(f, "--{name}: give it once"),
            WrongWord::NoValue { name, choice } => write!(f, "--{name}: give {choice}"),
            WrongWord::BadValue {
                name,
                value,
                choice,
            } => write!(f, "--{name} {}: give {choice}", Shown(value)),
            WrongWord::Other => f.write_str(
                "usage: flowdir serve|play|make|trial|check|totals|flows [options]",
            ),
        }
    }
}

/// A word as it is shown: in quotes, with its control characters spelled, if it is not plain.
#[derive(Clone, Copy)]
struct Shown<'a>(&'a str);

impl fmt::Display for Shown<'_> {
    fn fmt<W: fmt::Write>(&self, f: &mut fmt::Formatter<W>) -> fmt::Result {
        let Shown(word) = *self;
        if word.is_empty() || word.contains(is_hard_to_see) {
            write!(f, "{word:?}")
        } else {
            f.write_str(word)
        }
    }
}

/// A blank, or a character that shows nothing.
fn is_hard_to_see(character: char) -> bool {
    character.is_whitespace() || character.is_control()
}
