//! The words of one opening.

ghost use Rattle.std.specs.Prelude.{◌≡◌, ℕ, ◌^◌, All, Err, IfOk, length, replicate};
ghost use Rattle.plain_map.specs.declared.leaves.OpenFault.TheVariants.{NoRoom};
ghost use Rattle.bucket_states.specs.Parts.{HasDistinctKeys};
ghost use Rattle.word_rows.specs.Shape.{AreBelow};
ghost use Rattle.word_rows.specs.LayoutView.{shape_of};
ghost use Rattle.word_rows.specs.Places.{word_count};
ghost use Rattle.table_model.specs.Setup.{IsFirstWithoutRoom, IsPair, IsSetup, rules_of};
ghost use Rattle.table_model.specs.Worlds.{opening_words};
ghost use Rattle.opening_words.specs.Written.{setup_at};
ghost use Rattle.opening_words.specs.Openers.{settings_in};

use crate::Opener;
use hash_bits::Hashing;
use plain_map::{OpenFault, Pair};
use std::alloc::{AllocError, Global};
use word_rows::Layout;

/// The words of a table that opens with these pairs.
///
/// `NoRoom` comes exactly where a pair finds as many earlier ones of its class as a bucket has room for, and tells the
/// first such pair.
pub fn first_words(
    alloc: Global,
    layout: &Layout,
    hashing: Hashing,
    first: &[Pair],
) -> Result<Vec<u64>, OpenFault>
    requires small { All (AreBelow (2 ^ 32)) (shape_of layout.now).ranges }
    requires pairs { All IsPair first.now }
    requires distinct { HasDistinctKeys first.now }
    ensures setup { IfOk result (λ _. IsSetup (setup_at (shape_of layout.now) hashing first.now)) }
    ensures words { IfOk result (λ words.
        words.items ≡ opening_words (setup_at (shape_of layout.now) hashing first.now)) }
    ensures len { IfOk result (λ words. length words.items ≡ word_count (shape_of layout.now)) }
    ensures no_room { (place : ℕ) → result ≡ Err (NoRoom place) →
        IsFirstWithoutRoom (rules_of (setup_at (shape_of layout.now) hashing first.now)) first.now place }
{
    let Ok((mut opener, mut words)) = room_for(alloc, layout) else {
        return Err(OpenFault::Memory);
    };
    match opener.put(layout, hashing, first, &mut words) {
        Ok(()) => Ok(words),
        Err(no_room) => Err(OpenFault::NoRoom {
            place: no_room.place,
        }),
    }
}

// What an opening needs, and as many words as the table has.
fn room_for(alloc: Global, layout: &Layout) -> Result<(Opener, Vec<u64>), AllocError>
    ensures settings { IfOk result (λ room. settings_in room.0 ≡ (shape_of layout.now).settings) }
    ensures words { IfOk result (λ room. room.1.items ≡ replicate (word_count (shape_of layout.now)) 0) }
{
    let opener = Opener::with_room(alloc, layout.settings())?;
    let words = vec![in alloc; 0; layout.words() as usize]?;
    Ok((opener, words))
}
