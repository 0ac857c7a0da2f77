//! The directory for C: a static library.
//!
//! A handle is the address of a box, and its ghost field holds what the box has. What a foreign caller owes is the
//! `requires` of a call, and nothing checks it there: the header says it in words.
#![tactic(auto)]

mod answer;
mod closed_exports;
mod fewer;
mod holder;
mod lasting_holder;
mod lasting_numbers;
mod lasting_options;
mod lasting_peeker;
mod lasting_reader_exports;
mod lasting_readers;
mod lasting_seat_exports;
mod lasting_seats;
mod lasting_shelf;
mod lasting_table_exports;
mod lasting_tables;
mod loose;
mod memory;
mod opening;
mod options;
mod peeker;
mod reader_exports;
mod readers;
mod seat_exports;
mod seats;
mod shelf;
mod status;
mod table_exports;
mod tables;
