//! What is kept from one opening to the next: words that are all 0, room for an opening, and the rooms of seats. So no
//! word is zeroed twice, and no room is made twice.

ghost use Rattle.std.specs.Prelude.{◌≡◌, IfOk, OnOk, length, replicate};
ghost use Rattle.word_rows.specs.LayoutView.{shape_of};
ghost use Rattle.word_rows.specs.Places.{word_count};
ghost use Rattle.opening_words.specs.Openers.{settings_in};

use crate::in_place::ClosedTable;
use crate::rooms::Rooms;
use opening_words::Opener;
use std::alloc::{AllocError, Global};
use std::mem;
use step_counts::Settings;
use word_rows::Layout;

/// Words that are all 0, and rooms. An opening is written into the words, and its places are cleared again. Rooms are
/// made again only where the settings are others.
#[derive(Drop)]
pub struct Blank {
    words: Vec<u64>,
    // For the settings of the last opening.
    opener: Option<Opener>,
    // Of the seats of the last table that was kept.
    rooms: Option<Rooms>,
    ghost zeros: { words.items ≡ replicate (length words.items) 0 },
}

impl Blank {
    /// None yet. They become as many as an opening needs.
    pub fn new(alloc: Global) -> Blank {
        Blank {
            words: Vec::new(alloc),
            opener: None,
            rooms: None,
        }
    }

    /// Makes so many words ahead, so that an opening of no more has none to make. Where there is no memory for them, an
    /// opening asks again.
    pub fn prepare(&mut self, words: usize) {
        let _ = self.resize(words);
    }

    /// Takes the room of its seats back from a closed table, so that the next one needs to make none. The memory of its
    /// words is given back.
    pub fn keep(&mut self, closed: ClosedTable) {
        self.rooms = Some(closed.into_rooms());
    }

    // Takes the rooms of seats out, where they are for these settings.
    pub(crate) fn take_rooms(
        &mut self,
        alloc: Global,
        settings: &Settings,
    ) -> Result<Rooms, AllocError> {
        if let Some(rooms) = self.rooms.take()
            && rooms.are_for(settings)
        {
            return Ok(rooms);
        }
        Rooms::new(alloc, settings)
    }

    // Takes out room for an opening of this layout, and its words. The words that are there already are not written
    // again, and the room is made again only where it was for other settings.
    pub(crate) fn take(
        &mut self,
        alloc: Global,
        layout: &Layout,
    ) -> Result<(Opener, Vec<u64>), AllocError>
        ensures settings { IfOk result (λ room. settings_in room.0 ≡ (shape_of layout.now).settings) }
        ensures words { IfOk result (λ room. room.1.items ≡ replicate (word_count (shape_of layout.now)) 0) }
    {
        self.resize(layout.words() as usize)?;
        let opener = opener_for(alloc, self.opener.take(), layout.settings())?;
        Ok((opener, self.take_words(alloc)))
    }

    // Makes the words so many.
    fn resize(&mut self, count: usize) -> Result<(), AllocError>
        ensures { OnOk result (length self.new.words.items ≡ count) }
    {
        self.words.resize(count, 0)
    }

    // Takes the words out.
    fn take_words(&mut self, alloc: Global) -> Vec<u64>
        ensures { result.items ≡ replicate (length self.old.words.items) 0 }
    {
        mem::replace(&mut self.words, Vec::new(alloc))
    }

    // Puts them back.
    pub(crate) fn put_back(&mut self, opener: Opener, words: Vec<u64>)
        requires { words.items ≡ replicate (length words.items) 0 }
    {
        self.opener = Some(opener);
        self.words = words;
    }
}

// The room that was kept, where it is for these settings, and else new room.
fn opener_for(
    alloc: Global,
    kept: Option<Opener>,
    settings: &Settings,
) -> Result<Opener, AllocError>
    ensures { IfOk result (λ opener. settings_in opener ≡ settings.now) }
{
    if let Some(opener) = kept
        && opener.is_for(settings)
    {
        return Ok(opener);
    }
    Opener::with_room(alloc, settings)
}
