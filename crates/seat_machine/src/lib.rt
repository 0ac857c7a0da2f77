//! A seat's call as a machine that is given one word at a time.
//!
//! **Stands for:** the program of its seat that the core's definitions have: what it has published, how many calls it
//! has answered, and its call in flight.
//! **Keeps:** what it asks for next, and where it goes by the word that it found, are exactly those of that program.
//! **Memory:** all that the seat will ever need is taken when the machine is made. A row that it stores is made once,
//! as its first word is asked for.
#![tactic(auto)]

mod asks;
mod bucket_tries;
mod changes;
mod directories;
mod directory_tries;
mod endings;
mod loads;
mod lookups;
mod machine;
mod opens;
mod ops;
mod passes;
mod puts;
mod seat;
mod stage;
mod takes;

pub use seat::SeatMachine;
