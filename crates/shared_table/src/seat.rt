//! One seat of a directory, which answers one call after the other.
//!
//! **Words**: those of its directory; a seat writes its announcement, its done word, and rows and bucket words of its
//! own.
//! **Keeps**: `OneRun`, the rule that there is a run.
//! **Steps**: at most `bound(settings)` of its own for an update, exactly those of its row for a lookup.
//! **Why it ends**: each call is straight code over its own steps; no loop waits for another seat.

ghost use Rattle.std.specs.Prelude.{◌≡◌, ◌<◌, ◌≤◌, ◌^◌, IfOk, None, OnErr};
ghost use Rattle.std.specs.Result.{result_err};
ghost use Rattle.step_counts.specs.StepCounts.{step_bound};
ghost use Rattle.plain_map.specs.declared.calls.Call.TheVariants.{Count, Insert, Lookup, Put, Remove, Tally};
ghost use Rattle.plain_map.specs.Calls.{key_in};
ghost use Rattle.plain_map.specs.Serving.{CanCount, IsAskable};
ghost use Rattle.plain_map.specs.Updates.{IsUpdate, value_limit};
ghost use Rattle.word_rows.specs.LayoutView.{shape_of};
ghost use Rattle.table_model.specs.Setup.{Setup, seats_of, settings_of};
ghost use Rattle.seat_calls.specs.Rooms.{HasAllRoom};
ghost use Rattle.shared_table.specs.Rule.{IsReached, alone};
ghost use Rattle.shared_table.specs.Seating.{fresh};
ghost use Rattle.shared_table.specs.SeatValues.{IsIdle, account_of};
ghost use Rattle.shared_table.specs.Values.{Answers, IsOf, IsSame, refused_at, shortage_of};

use crate::directory::Directory;
use crate::rooms::Rooms;
use crate::running::{Hand, Token, run_lookup, run_update};
use crate::view::View;
use crate::zeros::Zeros;
use atomic_table::Badge;
use hash_bits::Hashing;
use plain_map::{Call, Full, Key, Record, first_short};
use seat_calls::{Desk, Room};
use std::marker::{Brand, Model};
use std::mem;
use step_counts::{SeatRows, need};
use word_rows::Layout;

/// One seat of a directory.
#[derive(Drop)]
pub struct Seat {
    pub(crate) badge: Badge<View>,
    pub(crate) desk: Desk,
    // Room for its directory tries.
    pub(crate) room: Room,
    // What it has published of each of its ranges.
    pub(crate) used: SeatRows,
    // The sizes of these ranges, and what one update may need of each.
    pub(crate) sizes: SeatRows,
    pub(crate) need: SeatRows,
    // How many calls it has answered.
    pub(crate) answered: u32,
    // The words of its own rows that are 0.
    pub(crate) zeros: Zeros,
}

impl Model for Seat {
    ghost use Rattle.shared_table.specs.SeatValues.{SeatValue};

    ghost Value = { SeatValue };

    ghost use Rattle.shared_table.specs.Insides.{SeatStands, seat_value};

    ghost view = { λ s. seat_value s.desk s.badge.table_id s.badge.views };

    ghost invariant = { λ s. SeatStands s.desk s.room s.badge.views s.used s.sizes s.need s.answered s.zeros };
}

impl Seat {
    /// Inserts a key with a value, where it is not there.
    ///
    /// `Full` comes exactly where fewer of a range are left than an update may need; then nothing happened.
    ///
    /// **Steps:** at most `step_counts::bound` of the table's settings; it waits for nobody and takes no memory.
    pub fn insert(
        &mut self,
        directory: &Directory,
        packet: u32,
        key: Key,
        value: u64,
    ) -> Result<Record, Full>
        requires seat { IsOf directory.now self.old }
        requires value { value < value_limit }
        requires countable { CanCount (account_of self.old).records }
        ensures same { IsSame self.old self.new }
        ensures refused { result_err result ≡ refused_at self.old (Insert key value) }
        ensures unanswered { OnErr result (self.new ≡ self.old) }
        ensures answered { IfOk result (Answers packet (Insert key value) self.old self.new) }
        ensures bounded { IfOk result (λ made. made.steps ≤ step_bound (settings_of self.old.holding.setup)) }
    {
        self.answer(directory, packet, &Call::Insert(key, value))
    }

    /// Takes a key out, where it is there.
    ///
    /// `Full` comes exactly where fewer of a range are left than an update may need; then nothing happened.
    ///
    /// **Steps:** at most `step_counts::bound` of the table's settings; it waits for nobody and takes no memory.
    pub fn remove(&mut self, directory: &Directory, packet: u32, key: Key) -> Result<Record, Full>
        requires seat { IsOf directory.now self.old }
        requires countable { CanCount (account_of self.old).records }
        ensures same { IsSame self.old self.new }
        ensures refused { result_err result ≡ refused_at self.old (Remove key) }
        ensures unanswered { OnErr result (self.new ≡ self.old) }
        ensures answered { IfOk result (Answers packet (Remove key) self.old self.new) }
        ensures bounded { IfOk result (λ made. made.steps ≤ step_bound (settings_of self.old.holding.setup)) }
    {
        self.answer(directory, packet, &Call::Remove(key))
    }

    /// Adds bytes to the session of a key, where it is there, and answers their total, which stops at 2^61 - 1.
    ///
    /// `Full` comes exactly where fewer of a range are left than an update may need; then nothing happened.
    ///
    /// **Steps:** at most `step_counts::bound` of the table's settings; it waits for nobody and takes no memory.
    pub fn tally(
        &mut self,
        directory: &Directory,
        packet: u32,
        key: Key,
        bytes: u64,
    ) -> Result<Record, Full>
        requires seat { IsOf directory.now self.old }
        requires bytes { bytes < value_limit }
        requires countable { CanCount (account_of self.old).records }
        ensures same { IsSame self.old self.new }
        ensures refused { result_err result ≡ refused_at self.old (Tally key bytes) }
        ensures unanswered { OnErr result (self.new ≡ self.old) }
        ensures answered { IfOk result (Answers packet (Tally key bytes) self.old self.new) }
        ensures bounded { IfOk result (λ made. made.steps ≤ step_bound (settings_of self.old.holding.setup)) }
    {
        self.answer(directory, packet, &Call::Tally(key, bytes))
    }

    /// Adds bytes to the session of a key, and inserts the key with this value and these bytes where it is not there:
    /// `New`, `NoRoom`, or `Sum` with the total, which stops at 2^61 - 1.
    ///
    /// `Full` comes exactly where fewer of a range are left than an update may need; then nothing happened.
    ///
    /// **Steps:** at most `step_counts::bound` of the table's settings; it waits for nobody and takes no memory.
    pub fn count(
        &mut self,
        directory: &Directory,
        packet: u32,
        key: Key,
        value: u64,
        bytes: u64,
    ) -> Result<Record, Full>
        requires seat { IsOf directory.now self.old }
        requires value { value < value_limit }
        requires bytes { bytes < value_limit }
        requires countable { CanCount (account_of self.old).records }
        ensures same { IsSame self.old self.new }
        ensures refused { result_err result ≡ refused_at self.old (Count key value bytes) }
        ensures unanswered { OnErr result (self.new ≡ self.old) }
        ensures answered { IfOk result (Answers packet (Count key value bytes) self.old self.new) }
        ensures bounded { IfOk result (λ made. made.steps ≤ step_bound (settings_of self.old.holding.setup)) }
    {
        self.answer(directory, packet, &Call::Count(key, value, bytes))
    }

    /// Gives a key this value, whether it is there or not: `New`, `NoRoom`, or `Old` with the value that it had. Its
    /// bytes stay.
    ///
    /// `Full` comes exactly where fewer of a range are left than an update may need; then nothing happened.
    ///
    /// **Steps:** at most `step_counts::bound` of the table's settings; it waits for nobody and takes no memory.
    pub fn put(
        &mut self,
        directory: &Directory,
        packet: u32,
        key: Key,
        value: u64,
    ) -> Result<Record, Full>
        requires seat { IsOf directory.now self.old }
        requires value { value < value_limit }
        requires countable { CanCount (account_of self.old).records }
        ensures same { IsSame self.old self.new }
        ensures refused { result_err result ≡ refused_at self.old (Put key value) }
        ensures unanswered { OnErr result (self.new ≡ self.old) }
        ensures answered { IfOk result (Answers packet (Put key value) self.old self.new) }
        ensures bounded { IfOk result (λ made. made.steps ≤ step_bound (settings_of self.old.holding.setup)) }
    {
        self.answer(directory, packet, &Call::Put(key, value))
    }

    /// Looks a key up. It is never refused, and takes no memory.
    ///
    /// **Steps:** exactly those of the items of the row that it reads; it waits for nobody.
    #[inline(always)]
    pub fn lookup(&mut self, directory: &Directory, packet: u32, key: &Key) -> Record
        requires seat { IsOf directory.now self.old }
        requires countable { CanCount (account_of self.old).records }
        ensures same { IsSame self.old self.new }
        ensures answered { Answers packet (Lookup key.now) self.old self.new result }
    {
        key.has_words();
        let badge = mem::replace(&mut self.badge, Badge::blank());
        let hand = Hand {
            token: badge.into_seat(),
            zeros: self.zeros,
        };
        let (hand, made) = run_lookup::<Brand>(
            &directory.table.shared,
            hand,
            &self.desk,
            packet,
            self.answered + 1,
            key,
        );
        let Hand { token, zeros } = hand;
        self.badge = token.into_badge();
        self.zeros = zeros;
        self.answered += 1;
        made
    }

    // Answers any call, or refuses it.
    #[inline(always)]
    pub(crate) fn answer(
        &mut self,
        directory: &Directory,
        packet: u32,
        call: &Call,
    ) -> Result<Record, Full>
        requires seat { IsOf directory.now self.old }
        requires askable { IsAskable call.now }
        requires countable { CanCount (account_of self.old).records }
        ensures same { IsSame self.old self.new }
        ensures refused { result_err result ≡ refused_at self.old call.now }
        ensures unanswered { OnErr result (self.new ≡ self.old) }
        ensures answered { IfOk result (Answers packet call.now self.old self.new) }
    {
        if let Call::Lookup(key) = call {
            return Ok(self.lookup(directory, packet, key));
        }
        if let Some(full) = self.shortage() {
            return Err(full);
        }
        Ok(self.update(directory, packet, call))
    }

    // What it has too little of for one more update.
    #[inline(always)]
    fn shortage(&self) -> Option<Full>
        ensures { result ≡ shortage_of self.now }
    {
        let left = SeatRows {
            op_rows: self.sizes.op_rows.saturating_sub(self.used.op_rows),
            bucket_rows: self.sizes.bucket_rows.saturating_sub(self.used.bucket_rows),
            bucket_words: self
                .sizes
                .bucket_words
                .saturating_sub(self.used.bucket_words),
            directory_rows: self
                .sizes
                .directory_rows
                .saturating_sub(self.used.directory_rows),
        };
        first_short(&left, &self.need)
    }

    // An update for which it has enough.
    #[inline(always)]
    fn update(&mut self, directory: &Directory, packet: u32, call: &Call) -> Record
        requires seat { IsOf directory.now self.old }
        requires update { IsUpdate call.now }
        requires enough { shortage_of self.old ≡ None }
        requires countable { CanCount (account_of self.old).records }
        ensures same { IsSame self.old self.new }
        ensures answered { Answers packet call.now self.old self.new result }
    {
        call.key().has_words();
        let badge = mem::replace(&mut self.badge, Badge::blank());
        let hand = Hand {
            token: badge.into_seat(),
            zeros: self.zeros,
        };
        let (hand, made) = run_update::<Brand>(
            &directory.table.shared,
            hand,
            &self.desk,
            &mut self.room,
            &mut self.used,
            packet,
            self.answered + 1,
            call,
        );
        let Hand { token, zeros } = hand;
        self.badge = token.into_badge();
        self.zeros = zeros;
        self.answered += 1;
        made
    }
}

// A seat that has made no call.
pub(crate) fn seated(
    token: Token,
    layout: &Layout,
    hashing: Hashing,
    number: u32,
    room: Room,
) -> Seat
    requires token { (s : Setup) × (token.me ≡ alone (fresh s number)) × IsReached (fresh s number)
        × (s.shape ≡ shape_of layout.now) × (s.hashing ≡ hashing) }
    requires number { number < (shape_of layout.now).settings.seats }
    requires room { HasAllRoom (shape_of layout.now).settings room }
    ensures table { result.table_id ≡ token.table_id }
    ensures me { token.me ≡ alone result.holding }
{
    let none = SeatRows {
        op_rows: 0,
        bucket_rows: 0,
        bucket_words: 0,
        directory_rows: 0,
    };
    let desk = Desk::new(*layout, hashing, number);
    let sizes = layout.sizes(number);
    Seat {
        badge: token.into_badge(),
        desk,
        room,
        used: none,
        sizes,
        need: need(layout.settings()),
        answered: 0,
        zeros: Zeros::all(&desk, &sizes),
    }
}

// What the seat held. Its room is kept.
pub(crate) fn unseated(seat: Seat, rooms: &mut Rooms) -> Token
    ensures table { result.table_id ≡ seat.table_id }
    ensures me { result.me ≡ alone seat.holding }
    ensures idle { IsIdle seat }
{
    let Seat {
        badge,
        desk,
        room,
        ..
    } = seat;
    rooms.keep(desk.layout.settings(), room);
    badge.into_seat()
}
