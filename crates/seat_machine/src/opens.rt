//! A machine is made, and begins a call.

ghost use Rattle.std.specs.Prelude.{◌≡◌, ◌+◌, ◌*◌, ◌-◌, ◌≤◌, ◌<◌, ◌^◌, All, IfOk, OnErr, OnOk, vec_capacity, vec_len};
ghost use Rattle.std.specs.Result.{result_err};
ghost use Rattle.plain_map.specs.Serving.{IsAskable};
ghost use Rattle.word_rows.specs.LayoutView.{shape_of};
ghost use Rattle.table_model.specs.Program.{blank};
ghost use Rattle.table_model.specs.SeatStates.{Idle};
ghost use Rattle.table_model.specs.Worlds.{refusal_of};
ghost use Rattle.seat_machine.specs.Programs.{begins, resting};
ghost use Rattle.seat_machine.specs.Room.{HasLoadedRoom, most_puts};
ghost use Rattle.seat_machine.specs.View.{setup_at};

use crate::machine::Machine;
use crate::stage::Stage;
use bucket_states::Bucket;
use dir_states::{Change, DirState, Loaded};
use hash_bits::Hashing;
use plain_map::{BucketRow, Call, Full, Key, first_short};
use std::alloc::{AllocError, Global};
use step_counts::{OP_WORDS, SeatRows, Settings, bucket_row_words, need};
use word_rows::Layout;

impl Machine {
    ghost use Rattle.seat_machine.specs.Stands.{IsKept};
    ghost use Rattle.seat_machine.specs.View.{program_of, setup_of, sizes};

    /// An idle seat, with all the room that it will ever need.
    ///
    /// The only error is want of memory.
    pub fn new(
        alloc: Global,
        settings: &Settings,
        hashing: Hashing,
        layout: Layout,
        seat: u32,
    ) -> Result<Machine, AllocError>
        requires settings { settings.now ≡ (shape_of layout).settings }
        requires seat { seat < settings.now.seats }
        ensures value { IfOk result (λ m. program_of m ≡ resting (setup_at layout hashing) seat) }
        ensures kept { IfOk result IsKept }
    {
        let seats = settings.seats as usize;
        let words = bucket_row_words(settings) as usize;
        Ok(Machine {
            layout,
            hashing,
            seat,
            used: SeatRows {
                op_rows: 0,
                bucket_rows: 0,
                bucket_words: 0,
                directory_rows: 0,
            },
            packet: 0,
            call: Call::Lookup(Key {
                k0: 0,
                k1: 0,
                k2: 0,
                k3: 0,
                k4: 0,
            }),
            count: 0,
            number: 0,
            steps: 0,
            seen: Vec::with_capacity(alloc, seats)?,
            stage: Stage::Idle,
            words: Vec::with_capacity(alloc, words)?,
            op: [0; OP_WORDS],
            row: BucketRow::with_room(alloc, settings)?,
            directory: DirState::with_room(alloc, settings)?,
            base: Bucket::with_room(alloc, settings)?,
            found: Vec::with_capacity(alloc, seats)?,
            made: Bucket::with_room(alloc, settings)?,
            out: vec![in alloc; 0; words]?,
            loaded: loaded_room(alloc, settings)?,
            many: 0,
            change: Change::with_room(alloc, settings)?,
            puts: Vec::with_capacity(alloc, most_puts(settings))?,
        })
    }

    /// Begins a call, unless it is refused.
    pub fn begin(&mut self, packet: u32, call: &Call) -> Result<(), Full>
        requires kept { IsKept self.old }
        requires idle { (program_of self.old).stand ≡ Idle }
        requires askable { IsAskable call.now }
        requires count { self.old.count < 2 ^ 32 - 1 }
        ensures refused { result_err result ≡ refusal_of (setup_of self.old) self.old.seat (blank self.old.used)
            call.now }
        ensures begun { OnOk result (program_of self.new ≡ begins (program_of self.old) (packet, call.now)) }
        ensures same { OnErr result (self.new ≡ self.old) }
        ensures kept { IsKept self.new }
    {
        if let Some(full) = self.refusal(call) {
            return Err(full);
        }
        self.packet = packet;
        self.call = *call;
        self.number = self.count + 1;
        self.steps = 0;
        self.seen.clear();
        self.stage = Stage::SeeDone;
        Ok(())
    }

    // Why the call is refused, if it is.
    fn refusal(&self, call: &Call) -> Option<Full>
        requires { self.now.seat < (sizes self.now).seats }
        ensures { result ≡ refusal_of (setup_of self.now) self.now.seat (blank self.now.used) call.now }
    {
        if let Call::Lookup(_) = call {
            return None;
        }
        let sizes = self.layout.sizes(self.seat);
        let left = SeatRows {
            op_rows: sizes.op_rows.saturating_sub(self.used.op_rows),
            bucket_rows: sizes.bucket_rows.saturating_sub(self.used.bucket_rows),
            bucket_words: sizes.bucket_words.saturating_sub(self.used.bucket_words),
            directory_rows: sizes
                .directory_rows
                .saturating_sub(self.used.directory_rows),
        };
        first_short(&left, &need(self.layout.settings()))
    }
}

// Room for the buckets that a directory try loads, one for each seat.
fn loaded_room(alloc: Global, settings: &Settings) -> Result<Vec<Loaded>, AllocError>
    ensures each { IfOk result (λ loaded. All (HasLoadedRoom settings.now) loaded.items) }
    ensures all { IfOk result (λ loaded. vec_len loaded ≡ settings.now.seats) }
{
    let mut loaded = Vec::with_capacity(alloc, settings.seats as usize)?;
    for _ in 0..settings.seats {
        loaded.push_reserved(Loaded {
            bucket: 0,
            row: 0,
            state: Bucket::with_room(alloc, settings)?,
        });
    }
    Ok(loaded)
}

// How many words a directory try stores at most.
fn most_puts(settings: &Settings) -> usize
    ensures { result ≡ most_puts settings.now }
{
    let seats = settings.seats as usize;
    let depth = settings.depth as usize;
    let leaves = seats * (depth + 2) + 1;
    leaves * (1 + bucket_row_words(settings) as usize) + (2 + (1usize << settings.depth))
}
