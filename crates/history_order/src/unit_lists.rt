//! The unit of each call, by its seat and number.

ghost use Rattle.std.specs.Prelude.{◌≡◌, ℕ, ◌<◌, [], List, None, Some, length, map, slice_index_or};
ghost use Rattle.word_rows.specs.LayoutView.{shape_of};
ghost use Rattle.table_model.specs.Closing.{log_of, read_in, records_there};
ghost use Rattle.history_order.specs.Columns.{
  after_all,
  look_place,
  numbered_from,
  unit_at,
  version_place,
};
ghost use Rattle.history_order.specs.Fills.{AreUnits};
ghost use Rattle.history_order.specs.declared.tables.Unit.TheVariants.{Lookup, Version as VersionAt};

use crate::columns::{is_lookup, new_in, place_of, put};
use crate::tables::{Unit, Version};
use closed_words::{Starts, Words};
use plain_map::Record;

/// The units of the versions and the lookups, after those of the bucket rows.
pub(crate) fn units<W: Words>(
    starts: &Starts,
    words: &W,
    versions: &[Version],
    logs: &[Vec<&Record>],
    units: &mut [Vec<Option<Unit>>],
)
    requires { length units.old ≡ (shape_of starts.now.layout).settings.seats }
    ensures many { length units.new ≡ length units.old }
    ensures units { (rows : List ℕ) → AreUnits (shape_of starts.now.layout) (W.words words.now)
        (read_in logs.now) rows (map (λ list. list.items) units.old) →
        (seat place : ℕ) → seat < (shape_of starts.now.layout).settings.seats →
        slice_index_or (slice_index_or (map (λ list. list.items) units.new) seat []) place None
        ≡ unit_at (shape_of starts.now.layout) (W.words words.now) rows versions.now
        (log_of (read_in logs.now) seat) seat place }
{
    for seat in 0..starts.layout.settings().seats {
        let log = log_of(logs, seat);
        write_others(
            starts,
            words,
            versions,
            log,
            seat,
            &mut units[seat as usize],
        );
    }
}

/// The records of a seat.
pub(crate) fn log_of<'a, 'b>(logs: &'a [Vec<&'b Record>], seat: u32) -> &'a [&'b Record]
    ensures { records_there result.now ≡ log_of (read_in logs.now) seat }
{
    if (seat as usize) < logs.len() {
        &logs[seat as usize]
    } else {
        &[]
    }
}

// Those of a seat.
fn write_others<W: Words>(
    starts: &Starts,
    words: &W,
    versions: &[Version],
    log: &[&Record],
    seat: u32,
    units: &mut [Option<Unit>],
)
    ensures len { length units.new ≡ length units.old }
    ensures reads { (place : ℕ) → slice_index_or units.new place None
        ≡ after_all look_place (λ r. Some Lookup) place (length units.old) (records_there log.now)
        (after_all (version_place (shape_of starts.now.layout) (W.words words.now) seat)
        (λ numbered. Some (VersionAt numbered.0)) place (length units.old) (numbered_from 0 versions.now)
        (slice_index_or units.old place None)) }
{
    write_versions(starts, words, versions, seat, units);
    write_lookups(log, units);
}

// The versions in whose new leaves it is.
fn write_versions<W: Words>(
    starts: &Starts,
    words: &W,
    versions: &[Version],
    seat: u32,
    units: &mut [Option<Unit>],
)
    ensures len { length units.new ≡ length units.old }
    ensures reads { (place : ℕ) → slice_index_or units.new place None
        ≡ after_all (version_place (shape_of starts.now.layout) (W.words words.now) seat)
        (λ numbered. Some (VersionAt numbered.0)) place (length units.old) (numbered_from 0 versions.now)
        (slice_index_or units.old place None) }
{
    for at in 0..versions.len() {
        let place = place_of(new_in(starts, words, &versions[at].firsts, seat));
        put(units, place, Some(Unit::Version(at)));
    }
}

// The lookups.
fn write_lookups(log: &[&Record], units: &mut [Option<Unit>])
    ensures len { length units.new ≡ length units.old }
    ensures reads { (place : ℕ) → slice_index_or units.new place None
        ≡ after_all look_place (λ r. Some Lookup) place (length units.old) (records_there log.now)
        (slice_index_or units.old place None) }
{
    for record in log {
        put(units, look_place(record), Some(Unit::Lookup));
    }
}

// The place of a record's call, if it is a lookup.
fn look_place(answered: &Record) -> Option<u64>
    ensures { result ≡ look_place answered.now }
{
    if is_lookup(answered) {
        place_of(Some(u64::from(answered.number)))
    } else {
        None
    }
}
