//! How a program uses the directory, as a caller writes it: the shortest use first.
#![tactic(auto)]

ghost use Rattle.std.specs.Prelude.{◌≡◌, ◌^◌, All, IfSome, length};
ghost use Rattle.word_rows.specs.Shape.{AreBelow};
ghost use Rattle.bucket_states.specs.Parts.{HasDistinctKeys};
ghost use Rattle.table_model.specs.Setup.{IsPair, seats_of};
ghost use Rattle.shared_table.specs.Values.{new_seats};

mod one_caller;
mod reader;
mod two_callers;

use hash_bits::Hashing;
pub use one_caller::remember;
use plain_map::Pair;
pub use reader::look_twice;
use shared_table::{Directory, Seat};
use std::alloc::Global;
use step_counts::{SeatRows, Settings};
pub use two_callers::remember_both;

#[cfg(test)]
mod tests;

// A directory may begin with pairs; those of these uses begin with none.
fn no_pairs() -> [Pair; 0]
    ensures distinct { HasDistinctKeys result }
    ensures pairs { All IsPair result }
{
    []
}

// So many callers, 8 keys of a class, 10 bits of a hash that make a class, and 0 of them at the opening.
fn settings_of(callers: u32) -> Option<Settings>
    ensures { IfSome result (λ s. s.seats ≡ callers) }
{
    Settings::new(callers, 8, 10, 0).ok()
}

// A directory that begins with no pair, and its seats. `None` comes for want of memory.
fn opened(alloc: Global, settings: &Settings, rows: &[SeatRows]) -> Option<(Directory, Vec<Seat>)>
    requires each_seat { length rows.now ≡ settings.now.seats }
    requires small { All (AreBelow (2 ^ 32)) rows.now }
    ensures seats { IfSome result (λ r. seats_of r.0.setup ≡ settings.now.seats) }
    ensures new { IfSome result (λ r. r.1.items ≡ new_seats r.0 0 settings.now.seats) }
{
    match Directory::open(alloc, settings, Hashing::Mix(0), rows, &no_pairs()) {
        Ok((directory, seats)) => Some((directory, seats)),
        Err(_none) => None,
    }
}
