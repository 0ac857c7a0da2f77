//! The opening: the leaves and the directory that a table begins with.
//!
//! The pairs are sorted by their classes, by counting: first each class counts its pairs, then a prefix is cut in two
//! where more pairs have it than a bucket has room for, and then each pair goes to its leaf through the directory.

ghost use Rattle.std.specs.Prelude.{◌≡◌, ◌^◌, ◌≤◌, [], IfErr, replicate, vec_capacity};
ghost use Rattle.std.specs.Result.{OnOk};
ghost use Rattle.plain_map.specs.PlainObject.{InRange};
ghost use Rattle.bucket_states.specs.Parts.{HasDistinctKeys};
ghost use Rattle.table_model.specs.Opening.{opening_directory, opening_leaves};
ghost use Rattle.table_model.specs.OpeningLaws.{CanOpen};
ghost use Rattle.table_model.specs.Setup.{HaveRoom, IsFirstWithoutRoom};
ghost use Rattle.dir_states.specs.Cuts.{cut_leaves};
ghost use Rattle.dir_states.specs.Openings.{OpeningHasRoom, first_directory, first_leaves, opening_seats};
ghost use Rattle.dir_states.specs.Rooms.{HasPlaces};
ghost use Rattle.dir_states.specs.Views.{as_directory};

use crate::counts::{count, zeros};
use crate::cuts::{cut, spare_all};
use crate::leaves::Table;
use crate::numbers::with_leaves;
use crate::{DirState, NoRoomAt, Opening};
use plain_map::{Pair, Rules};

/// Makes the opening with these pairs from a starting depth on.
///
/// `NoRoomAt` comes exactly where a pair finds no room, with the place of the first such pair; then nothing is known of
/// what `out` holds, but its room. It takes no memory.
pub fn opening(rules: &Rules, start: u32, first: &[Pair], out: &mut Opening) -> Result<(), NoRoomAt>
    requires room { OpeningHasRoom (opening_seats out.old) rules.now.items rules.now.depth out.old }
    requires range { InRange rules.now }
    requires within { start ≤ rules.now.depth }
    requires distinct { HasDistinctKeys first.now }
    ensures leaves { OnOk result (first_leaves out.new ≡ opening_leaves rules.now
        (opening_seats out.old) start first.now) }
    ensures state { OnOk result (first_directory out.new ≡ opening_directory start (first_leaves out.new)) }
    ensures found_room { OnOk result (HaveRoom rules.now first.now) }
    ensures no_room { IfErr result (λ no_room. IsFirstWithoutRoom rules.now first.now no_room.place) }
    ensures room { OpeningHasRoom (opening_seats out.old) rules.now.items rules.now.depth out.new }
{
    let table = Table {
        rules: *rules,
        seats: out.seats,
        items: rules.items as usize,
        most: 1 << rules.depth,
    };
    zeros(&table, &mut out.counts);
    if let Some(place) = count(rules, first, &mut out.counts) {
        return Err(NoRoomAt { place });
    }
    spare_all(&table, &mut out.leaves);
    cut(&table, start, &out.counts, &mut out.leaves);
    fill(&table, start, first, out);
    Ok(())
}

// Numbers the leaves, and lets each pair go to the leaf that the directory names for its key.
fn fill(table: &Table, start: u32, first: &[Pair], out: &mut Opening)
    requires can { CanOpen table.now.rules start first.now }
    requires seats { table.now.seats ≡ opening_seats out.old }
    requires leaves { first_leaves out.old ≡ cut_leaves table.now.rules table.now.seats first.now [] start }
    requires room { OpeningHasRoom table.now.seats table.now.rules.items table.now.rules.depth out.old }
    ensures leaves { first_leaves out.new ≡ opening_leaves table.now.rules table.now.seats start first.now }
    ensures state { first_directory out.new ≡ opening_directory start (first_leaves out.new) }
    ensures room { OpeningHasRoom table.now.seats table.now.rules.items table.now.rules.depth out.new }
{
    unnamed(start, &mut out.base);
    with_leaves(&mut out.state, 0, &out.leaves.made, &out.base);
    for pair in first {
        let place = out.state.bucket_of(&table.rules, &pair.key) as usize;
        out.leaves.made[place].bucket.items.push_reserved(*pair);
    }
}

// The directory of a depth that names bucket 0 at each place.
fn unnamed(depth: u32, directory: &mut DirState)
    requires depth { depth ≤ 12 }
    requires room { HasPlaces depth directory.old }
    ensures state { as_directory directory.new ≡ record { depth = depth; entries = replicate (2 ^ depth) 0 } }
    ensures room { vec_capacity directory.new.entries ≡ vec_capacity directory.old.entries }
{
    directory.depth = depth;
    directory.entries.clear();
    for _ in 0..1u64 << depth {
        directory.entries.push_reserved(0);
    }
}
