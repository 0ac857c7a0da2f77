//! Which word is wrong, where the words ask for no plan.
//!
//! The words are gone through from the first one on, as `clap` goes through them. What a value may be that `clap` takes
//! as it is depends on the mode: it is looked at behind the last word.

ghost use Rattle.std.specs.Prelude.{◌≡◌, IfOk, is_some, map, not, string_bytes};
ghost use Rattle.command_line.specs.Words.{reads};

use crate::plan::Mode;
use crate::words::options::{DEPTH, NUMBERS, NumberOption, SEATS, TEXTS};
use crate::words::plays::{schedule_of, stops_of};
use crate::words::texts::rows_of;
use crate::words::values::{calls_of, hashing_of, link_of, mode_of, share_of};
use crate::words::{WordsFault, read_words};
use crate::wrong::{Choice, WrongWord};
use std::alloc::{AllocError, Global};

/// An option, and what may stand behind it.
#[derive(Clone, Copy)]
struct Known {
    name: &'static str,
    choice: Choice,
}

/// An option with its value.
#[derive(Clone, Copy)]
struct Given<'a> {
    option: Known,
    value: &'a str,
}

/// What the words so far have.
#[derive(Drop)]
struct Walk<'a> {
    mode: Option<&'a str>,
    given: Vec<Given<'a>>,
    /// The option whose value is the next word.
    open: Option<Known>,
    /// `--` was there: the words behind it are no options.
    is_over: bool,
}

impl<'a> Walk<'a> {
    /// No word so far.
    fn new(alloc: Global) -> Walk<'a> {
        Walk {
            mode: None,
            given: Vec::new(alloc),
            open: None,
            is_over: false,
        }
    }

    /// Takes the next word, and answers what is wrong with it.
    fn take(&mut self, word: &'a str) -> Result<Option<WrongWord<'a>>, AllocError> {
        if let Some(option) = self.open.take() {
            return self.give(option, word, true);
        }
        if self.is_over || word == "-" || !word.starts_with('-') {
            return Ok(self.stand(word));
        }
        if word == "--" {
            self.is_over = true;
            return Ok(None);
        }
        self.begin(word)
    }

    /// Takes a word that stands alone: the mode.
    fn stand(&mut self, word: &'a str) -> Option<WrongWord<'a>> {
        if self.mode.is_some() {
            return Some(WrongWord::SecondMode { word });
        }
        self.mode = Some(word);
        None
    }

    /// Takes a word that begins with a dash: an option, with its value behind `=` or in the next word.
    fn begin(&mut self, word: &'a str) -> Result<Option<WrongWord<'a>>, AllocError> {
        let (front, value) = match word.split_once('=') {
            Some((front, value)) => (front, Some(value)),
            None => (word, None),
        };
        let Some(option) = option_of(front) else {
            return Ok(Some(WrongWord::UnknownOption { word: front }));
        };
        if self.value_of(option.name).is_some() {
            return Ok(Some(WrongWord::Twice { name: option.name }));
        }
        match value {
            Some(value) => self.give(option, value, false),
            None => {
                self.open = Some(option);
                Ok(None)
            }
        }
    }

    /// Takes the value of an option, which is a word of its own or not. One that is has no dash before it.
    fn give(
        &mut self,
        option: Known,
        value: &'a str,
        is_word: bool,
    ) -> Result<Option<WrongWord<'a>>, AllocError> {
        if is_word && value.starts_with("--") {
            return Ok(Some(option.without_value()));
        }
        if (is_word && value.len() > 1 && value.starts_with('-'))
            || !is_in_range(option.choice, value)
        {
            return Ok(Some(option.with_value(value)));
        }
        self.given.push(Given { option, value })?;
        Ok(None)
    }

    /// The value of an option so far.
    fn value_of(&self, name: &str) -> Option<&'a str> {
        for given in &self.given {
            if given.option.name == name {
                return Some(given.value);
            }
        }
        None
    }

    /// The number of an option so far, or its default.
    fn number(&self, option: &NumberOption<'static>) -> u64 {
        match self.value_of(option.name) {
            Some(value) => value.parse().unwrap_or(option.default),
            None => option.default,
        }
    }

    /// What is wrong once the last word is taken.
    fn end(self, alloc: Global) -> Result<WrongWord<'a>, AllocError> {
        if let Some(option) = self.open {
            return Ok(option.without_value());
        }
        let Some(word) = self.mode else {
            return Ok(WrongWord::NoMode);
        };
        let Some(mode) = mode_of(word) else {
            return Ok(WrongWord::UnknownMode { word });
        };
        for given in &self.given {
            if let Some(wrong) = self.wrong_value(alloc, mode, given)? {
                return Ok(wrong);
            }
        }
        Ok(WrongWord::Other)
    }

    /// What is wrong with a value that `clap` takes.
    fn wrong_value(
        &self,
        alloc: Global,
        mode: Mode,
        given: &Given<'a>,
    ) -> Result<Option<WrongWord<'a>>, AllocError> {
        let option = given.option;
        if option.name == "start" {
            return Ok(self.wrong_start(mode, given));
        }
        let seats = self.number(&SEATS);
        if is_fit(alloc, mode, seats, option.name, given.value)? {
            Ok(None)
        } else {
            Ok(Some(option.with_value(given.value)))
        }
    }

    /// What is wrong with a starting depth: it may be above the greatest one.
    fn wrong_start(&self, mode: Mode, given: &Given<'a>) -> Option<WrongWord<'a>> {
        let most = self.number(&DEPTH);
        let start = given.value.parse().unwrap_or(0);
        match mode {
            Mode::Serve | Mode::Play | Mode::Trial if start > most => Some(WrongWord::BadValue {
                name: "start",
                value: given.value,
                choice: Choice::Number { least: 0, most },
            }),
            _ => None,
        }
    }
}

impl Known {
    /// The option stands there without a value.
    fn without_value<'a>(self) -> WrongWord<'a> {
        WrongWord::NoValue {
            name: self.name,
            choice: self.choice,
        }
    }

    /// The option has this value, which may not stand there.
    fn with_value<'a>(self, value: &'a str) -> WrongWord<'a> {
        WrongWord::BadValue {
            name: self.name,
            value,
            choice: self.choice,
        }
    }
}

/// The option that a word names.
fn option_of(word: &str) -> Option<Known> {
    let name = word.strip_prefix("--")?;
    match number_named(NUMBERS.as_slice(), name) {
        Some(option) => Some(option),
        None => text_named(TEXTS.as_slice(), name),
    }
}

/// The option of this name with a number.
fn number_named(options: &[NumberOption<'static>], name: &str) -> Option<Known> {
    for option in options {
        if option.name == name {
            return Some(Known {
                name: option.name,
                choice: Choice::Number {
                    least: option.least,
                    most: option.most,
                },
            });
        }
    }
    None
}

/// The option of this name with a text.
fn text_named(options: &[&'static str], name: &str) -> Option<Known> {
    for option in options {
        if *option == name {
            return Some(Known {
                name: option,
                choice: Choice::Text(texts_for(option)),
            });
        }
    }
    None
}

/// What may stand behind an option with a text.
fn texts_for(name: &str) -> &'static str {
    if name == "hash" {
        "mix or ports"
    } else if name == "share" {
        "round, block or flow"
    } else if name == "calls" {
        "sessions or flows"
    } else if name == "link" {
        "0, 1, 9, 12, 14, 101, 108, 113, 228, 229 or 276"
    } else if name == "rows" {
        "four numbers with commas between, three up to 100000 and the last up to 5000"
    } else if name == "schedule" {
        "1 to 1000 parts I*K or I*end with commas between, of a caller I and 1 to 1000000 steps K"
    } else {
        "parts I:K with commas between, of callers I, each once, and at most 1000000000 steps K"
    }
}

/// Whether the value is a number in the range, if it has to be a number.
fn is_in_range(choice: Choice, value: &str) -> bool {
    match choice {
        Choice::Number { least, most } => match value.parse::<u64>() {
            Ok(number) => least <= number && number <= most,
            Err(_) => false,
        },
        Choice::Text(_) => true,
    }
}

/// Whether the text is one that the mode can use, if it uses this option.
fn is_fit(
    alloc: Global,
    mode: Mode,
    seats: u64,
    name: &str,
    value: &str,
) -> Result<bool, AllocError> {
    match mode {
        Mode::Serve => is_served(alloc, name, value),
        Mode::Play => Ok(is_served(alloc, name, value)? && is_played(alloc, seats, name, value)?),
        Mode::Totals => Ok(name != "link" || link_of(value).is_some()),
        Mode::Flows => Ok(is_read(name, value)),
        Mode::Make | Mode::Trial | Mode::Check => Ok(true),
    }
}

/// Whether the text is one for a capture that is read.
fn is_read(name: &str, value: &str) -> bool {
    if name == "link" {
        link_of(value).is_some()
    } else if name == "calls" {
        calls_of(value).is_some()
    } else {
        true
    }
}

/// Whether the text is one for calls that are served.
fn is_served(alloc: Global, name: &str, value: &str) -> Result<bool, AllocError> {
    if name == "hash" {
        Ok(hashing_of(value, 0).is_some())
    } else if name == "share" {
        Ok(share_of(value).is_some())
    } else if name == "rows" {
        Ok(rows_of(alloc, value)?.is_some())
    } else {
        Ok(is_read(name, value))
    }
}

/// Whether the text is one for a play.
fn is_played(alloc: Global, seats: u64, name: &str, value: &str) -> Result<bool, AllocError> {
    let seats = u32::try_from(seats).unwrap_or(1).max(1);
    if name == "schedule" {
        Ok(schedule_of(alloc, seats, value)?.is_some())
    } else if name == "stop" {
        Ok(stops_of(alloc, seats, value)?.is_some())
    } else {
        Ok(true)
    }
}

/// What is wrong with words that the command refuses.
fn found_in<'a>(alloc: Global, words: &'a [String]) -> Result<WrongWord<'a>, AllocError> {
    let mut walk = Walk::new(alloc);
    for word in words {
        if let Some(wrong) = walk.take(word.as_str())? {
            return Ok(wrong);
        }
    }
    walk.end(alloc)
}

/// What is wrong with the words after the program's name: something exactly if they ask for no plan. The only error is
/// want of memory.
pub fn wrong_word<'a>(
    alloc: Global,
    words: &'a [String],
) -> Result<Option<WrongWord<'a>>, AllocError>
    ensures named { IfOk result (λ wrong. is_some wrong ≡ not (is_some (reads (map string_bytes words.now)))) }
{
    match read_words(alloc, words) {
        Ok(_plan) => Ok(None),
        Err(WordsFault::Memory) => Err(AllocError),
        Err(WordsFault::Usage) => {
            let wrong = found_in(alloc, words)?;
            Ok(Some(wrong))
        }
    }
}
