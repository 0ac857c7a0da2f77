//! What only a gate sees of whole runs, over memory, and which packets need no read. The reports were worked by hand;
//! all else of runs the scripts of ci/ try on the built program.

mod captures;
mod gates;
mod holds;

use std::alloc::{AllocError, Global};

/// The words of a line, which stand apart by one blank.
fn words_of(alloc: Global, line: &str) -> Result<Vec<String>, AllocError> {
    let mut words = Vec::new(alloc);
    for word in line.split(' ') {
        words.push(String::from_str(alloc, word)?)?;
    }
    Ok(words)
}
