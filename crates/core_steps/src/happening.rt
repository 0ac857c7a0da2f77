//! One event of one seat.

ghost use Rattle.std.specs.Prelude.{◌≡◌, ◌<◌, length, slice_index, slice_set};
ghost use Rattle.word_rows.specs.LayoutView.{shape_of};
ghost use Rattle.word_rows.specs.Places.{IsAddress, place, word_count};
ghost use Rattle.table_model.specs.Steps.{IsOnWord, address_of, becomes, told};
ghost use Rattle.core_steps.specs.Steps.{Advanced, AtEvent, AtStep, HasHappened};
ghost use Rattle.core_steps.specs.Moments.{AtCore, CoreHappened};

use crate::values::Stepped;
use bound_laws::fits_laws;
use plain_map::Call;
use play_laws::program_laws;
use seat_machine::SeatMachine;
use table_model::{Ask, Event};
use word_rows::{Address, Layout, place_laws};

// The number of the word at an address.
fn place(layout: &Layout, address: Address) -> usize
    requires { IsAddress (shape_of layout.now) address }
    ensures { result ≡ place (shape_of layout.now) address }
{
    (match address {
        Address::Root => layout.root(),
        Address::Announcement(seat) => layout.announcement(seat as u32),
        Address::Done(seat) => layout.done(seat as u32),
        Address::BucketWord(bucket) => layout.bucket_word(bucket),
        Address::OpWord(row, i) => layout.op_word(row, i),
        Address::BucketRowWord(row, i) => layout.bucket_row_word(row, i),
        Address::DirectoryWord(row, i) => layout.directory_word(row, i),
    }) as usize
}

// What a step finds and leaves.
fn perform(layout: &Layout, words: &mut Vec<u64>, ask: Ask) -> u64
    requires on { IsOnWord (shape_of layout.now) ask }
    requires long { length words.old.items ≡ word_count (shape_of layout.now) }
    ensures word { result ≡ told ask (slice_index words.old.items (place (shape_of layout.now) (address_of ask))) }
    ensures words { words.new.items ≡ slice_set words.old.items (place (shape_of layout.now) (address_of ask))
        (becomes ask (slice_index words.old.items (place (shape_of layout.now) (address_of ask)))) }
    ensures len { length words.new.items ≡ length words.old.items }
{
    place_laws();
    match ask {
        Ask::Nothing => 0,
        Ask::Load(from) => words[place(layout, from)],
        Ask::Store(to, word) => {
            words[place(layout, to)] = word;
            0
        }
        Ask::Exchange(at, old, new) => {
            let at = place(layout, at);
            let found = words[at];
            if found == old {
                words[at] = new;
            }
            found
        }
    }
}

// The next step of a seat in a call.
fn advance(layout: &Layout, words: &mut Vec<u64>, machine: &mut SeatMachine) -> Stepped
    requires stands { AtStep (shape_of layout.now) words.old.items machine.old }
    requires long { length words.old.items ≡ word_count (shape_of layout.now) }
    ensures advanced { (s : AtStep (shape_of layout.now) words.old.items machine.old) →
        Advanced s words.new.items machine.new result }
    ensures len { length words.new.items ≡ length words.old.items }
{
    fits_laws();
    program_laws();
    let ask = machine.next();
    let word = perform(layout, words, ask);
    match machine.take(word) {
        Some(record) => Stepped::Ended(record),
        None => Stepped::Going,
    }
}

// An event of a seat: it begins the call that is given, unless that is refused, or takes its next step.
fn happen(
    layout: &Layout,
    words: &mut Vec<u64>,
    machine: &mut SeatMachine,
    begin: Option<(u32, Call)>,
) -> Stepped
    requires stands { AtEvent (shape_of layout.now) words.old.items machine.old begin }
    requires long { length words.old.items ≡ word_count (shape_of layout.now) }
    ensures happened { (s : AtEvent (shape_of layout.now) words.old.items machine.old begin) →
        HasHappened s words.new.items machine.new result }
    ensures len { length words.new.items ≡ length words.old.items }
{
    match begin {
        Some((packet, call)) => match machine.begin(packet, &call) {
            Ok(()) => advance(layout, words, machine),
            Err(full) => Stepped::Refused(full),
        },
        None => advance(layout, words, machine),
    }
}

/// An event of a table.
pub(crate) fn happen_at(
    layout: &Layout,
    words: &mut Vec<u64>,
    seats: &mut Vec<SeatMachine>,
    event: &Event,
) -> Stepped
    requires stands { AtCore (shape_of layout.now) words.old.items seats.old.items event.now }
    ensures happened { (s : AtCore (shape_of layout.now) words.old.items seats.old.items event.now) →
        CoreHappened s words.new.items seats.new.items result }
{
    happen(layout, words, &mut seats[event.seat as usize], event.begin)
}
