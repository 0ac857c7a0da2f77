//! The rooms of seats, kept from one table to the next.

ghost use Rattle.std.specs.Prelude.{◌≡◌, ◌↔◌, All, IfOk, IsTrue};
ghost use Rattle.seat_calls.specs.Rooms.{HasAllRoom};

use seat_calls::Room;
use std::alloc::{AllocError, Global};
use step_counts::Settings;

/// Rooms for seats of tables of the same settings.
#[derive(Drop)]
pub(crate) struct Rooms {
    settings: Settings,
    free: Vec<Room>,
    ghost all: { All (HasAllRoom settings) free.items },
}

impl Rooms {
    /// None yet, with a place for that of each seat. The only error is want of memory.
    pub(crate) fn new(alloc: Global, settings: &Settings) -> Result<Rooms, AllocError> {
        Ok(Rooms {
            settings: *settings,
            free: Vec::with_capacity(alloc, settings.seats as usize)?,
        })
    }

    /// Whether they are for these settings.
    pub(crate) fn are_for(&self, settings: &Settings) -> bool
        ensures { IsTrue result ↔ (self.now.settings ≡ settings.now) }
    {
        self.settings == *settings
    }

    /// One of them where it is for these settings, and else a new one. The only error is want of memory.
    pub(crate) fn take(&mut self, alloc: Global, settings: &Settings) -> Result<Room, AllocError>
        ensures { IfOk result (HasAllRoom settings.now) }
    {
        if self.are_for(settings)
            && let Some(room) = self.free.pop()
        {
            return Ok(room);
        }
        Room::new(alloc, settings)
    }

    /// Keeps one where it is for the same settings and finds a place. It takes no memory.
    pub(crate) fn keep(&mut self, settings: &Settings, room: Room)
        requires { HasAllRoom settings.now room }
    {
        if self.are_for(settings) && self.free.len() < self.free.capacity() {
            self.free.push_reserved(room);
        }
    }
}
