//! A lasting table, with the seats that nobody has.

ghost use Rattle.std.specs.Prelude.{◌≡◌, ◌≢◌, ◌<◌, ◌≤◌, ◌↔◌, ◌++◌, ◌∷◌, [], All, Err, IfErr, IfOk, IfSome, IsTrue, false, length};
ghost use Rattle.std.specs.Arc.{arc_value};
ghost use Rattle.plain_map.specs.declared.calls.Reply.TheVariants.{New};
ghost use Rattle.table_model.specs.Setup.{IsPair};
ghost use Rattle.lasting_table.specs.Values.{IsPartyOf, IsSame};
ghost use Rattle.flowdir_c.specs.LastingAsked.{plan_in};
ghost use Rattle.flowdir_c.specs.LastingShelves.{HasBrought, LastHasBrought, LastHasCopied, LastWasStopped, WasStopped};
ghost use Rattle.lasting_table.specs.Tables.{new_seats};
ghost use Rattle.flowdir_c.specs.declared.shelf.NotTaken.TheVariants.{Busy};

use crate::answer::FlowPair;
use crate::lasting_holder::{LastingHolder, copy_by};
use crate::lasting_peeker::{LastingPeeker, lasting_peeker_of};
use crate::shelf::NotTaken;
use hash_bits::Hashing;
use lasting_table::{LastingTable, Seat, rows_for};
use plain_map::{Call, Pair, Reply};
use std::alloc::{AllocError, Global};
use std::marker::Model;
use std::sync::Arc;
use step_counts::Settings;

/// A lasting table, and the seats that nobody has.
#[derive(Drop)]
pub struct LastingShelf {
    table: Arc<LastingTable, Global>,
    free: Vec<Seat>,
    settings: Settings,
}

impl Model for LastingShelf {
    ghost use Rattle.flowdir_c.specs.LastingShelves.{LastingValue};

    ghost Value = { LastingValue };

    ghost use Rattle.flowdir_c.specs.LastingInsides.{LastingStands, lasting_value};

    ghost view = { lasting_value };

    ghost invariant = { LastingStands };
}

/// A table without pairs, and all its seats. The only error is want of memory.
pub(crate) fn lasting_shelf_of(
    alloc: Global,
    settings: &Settings,
    seed: u64,
) -> Result<LastingShelf, AllocError>
    requires { settings.now.start ≡ settings.now.depth }
    ensures plan { IfOk result (λ shelf. shelf.table.plan ≡ plan_in settings.now seed) }
    ensures free { IfOk result (λ shelf. shelf.free ≡ new_seats shelf.table 0 settings.now.seats) }
    ensures places { IfOk result (λ shelf. settings.now.seats ≤ shelf.places) }
{
    let (table, free) = LastingTable::open(
        alloc,
        settings,
        Hashing::Mix(seed),
        rows_for(settings),
    )?;
    let table = Arc::new(alloc, table)?;
    Ok(LastingShelf {
        table,
        free,
        settings: *settings,
    })
}

// Whether a key was new.
fn is_new(reply: &Reply) -> bool
    ensures new { IsTrue result → reply.now ≡ New }
    ensures other { result ≡ false → reply.now ≢ New }
{
    match reply {
        Reply::New => true,
        Reply::Old(_)
        | Reply::NoRoom
        | Reply::Gone(_)
        | Reply::Found(_)
        | Reply::Absent
        | Reply::Sum(_) => false,
    }
}

// Brings these pairs one after the other, until one is not new, and tells whether each was.
fn bring(table: &LastingTable, seat: &mut Seat, pairs: &[Pair]) -> bool
    requires seat { IsPartyOf table.now seat.old }
    requires small { All IsPair pairs.now }
    ensures same { IsSame seat.old seat.new }
    ensures brought { IsTrue result → HasBrought pairs.now seat.old seat.new }
    ensures stopped { result ≡ false → WasStopped pairs.now seat.old seat.new }
{
    for pair in pairs {
        let call = Call::Count(pair.key, pair.value, pair.bytes);
        let Ok(reply) = seat.update(table, &call) else {
            return false;
        };
        if !is_new(&reply) {
            return false;
        }
    }
    true
}

impl LastingShelf {
    /// Brings these pairs by the last of its seats, and tells whether each was new.
    pub(crate) fn fill(&mut self, pairs: &[Pair]) -> bool
        requires some { 0 < length self.old.free }
        requires small { All IsPair pairs.now }
        ensures table { self.new.table ≡ self.old.table }
        ensures places { self.new.places ≡ self.old.places }
        ensures brought { IsTrue result → LastHasBrought pairs.now self.old.free self.new.free }
        ensures stopped { result ≡ false → LastWasStopped pairs.now self.old.free }
    {
        let Some(mut seat) = self.free.pop() else {
            unreachable!()
        };
        let is_done = bring(&self.table, &mut seat, pairs);
        if self.free.len() < self.free.capacity() {
            self.free.push_reserved(seat);
        }
        is_done
    }

    /// Takes a seat. `Busy` comes exactly if there is none.
    pub(crate) fn take(&mut self) -> Result<LastingHolder, NotTaken>
        ensures table { self.new.table ≡ self.old.table }
        ensures places { self.new.places ≡ self.old.places }
        ensures taken { IfOk result (λ holder. arc_value holder.table ≡ self.old.table) }
        ensures one { IfOk result (λ holder. self.old.free ≡ self.new.free ++ holder.seat ∷ []) }
        ensures place { IfOk result (λ _. length self.new.free < self.new.places) }
        ensures kept { IfErr result (λ _. self.new ≡ self.old) }
        ensures busy { result ≡ Err Busy → self.old.free ≡ [] }
        ensures none { self.old.free ≡ [] → result ≡ Err Busy }
    {
        if self.free.is_empty() {
            return Err(NotTaken::Busy);
        }
        let Ok(table) = Arc::try_clone(&self.table) else {
            return Err(NotTaken::Memory);
        };
        let Some(seat) = self.free.pop() else {
            return Err(NotTaken::Busy);
        };
        Ok(LastingHolder {
            table,
            seat,
            settings: self.settings,
        })
    }

    /// Whether there is a place for one more seat.
    pub(crate) fn has_place(&self) -> bool
        ensures place { IsTrue result → length self.now.free < self.now.places }
        ensures full { result ≡ false → self.now.places ≤ length self.now.free }
    {
        self.free.len() < self.free.capacity()
    }

    /// Takes a seat of its own back.
    pub(crate) fn keep(&mut self, holder: LastingHolder)
        requires own { arc_value holder.table ≡ self.old.table }
        requires place { length self.old.free < self.old.places }
        ensures table { self.new.table ≡ self.old.table }
        ensures places { self.new.places ≡ self.old.places }
        ensures free { self.new.free ≡ self.old.free ++ holder.seat ∷ [] }
    {
        let LastingHolder { seat, .. } = holder;
        if self.free.len() < self.free.capacity() {
            self.free.push_reserved(seat);
        }
    }

    /// Whether nobody has a seat.
    pub(crate) fn is_at_rest(&self) -> bool
        ensures { (result ≡ false) ↔ (length self.now.free < self.now.table.plan.settings.seats) }
    {
        self.free.len() >= self.settings.seats as usize
    }

    /// Copies the pairs of a bucket by the last of its seats, and tells how many there are; none, if there is no such
    /// bucket, if the room is too little or if that seat has asked too often.
    pub(crate) fn copy(&mut self, bucket: u64, out: &mut [FlowPair]) -> Option<usize>
        requires some { 0 < length self.old.free }
        ensures table { self.new.table ≡ self.old.table }
        ensures places { self.new.places ≡ self.old.places }
        ensures told { LastHasCopied bucket self.old.free self.new.free out.old out.new result }
    {
        let Some(mut seat) = self.free.pop() else {
            unreachable!()
        };
        let told = copy_by(&self.table, &mut seat, &self.settings, bucket, out);
        if self.free.len() < self.free.capacity() {
            self.free.push_reserved(seat);
        }
        told
    }

    /// A new reader, if there is memory for it.
    pub(crate) fn reader(&self) -> Option<LastingPeeker>
        ensures { IfSome result (λ peeker. arc_value peeker.table ≡ self.now.table) }
    {
        match Arc::try_clone(&self.table) {
            Ok(table) => Some(lasting_peeker_of(table)),
            Err(_) => None,
        }
    }
}
