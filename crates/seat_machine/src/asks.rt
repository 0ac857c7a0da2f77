//! What a seat asks for next.

ghost use Rattle.std.specs.Prelude.{◌≡◌, slice_get};
ghost use Rattle.table_model.specs.Asks.{store_of};
ghost use Rattle.table_model.specs.Program.{asks};

use crate::machine::Machine;
use crate::passes::prefix_at;
use crate::stage::Stage;
use plain_map::FullKind;
use step_counts::{BUCKET_HEAD_WORDS, COUNT_PLACE, DIRECTORY_HEAD_WORDS};
use table_model::{Ask, Put};
use word_rows::Address;

impl Machine {
    ghost use Rattle.seat_machine.specs.Stands.{IsKept};
    ghost use Rattle.seat_machine.specs.View.{program_of};

    /// What the seat asks for next. An idle one asks for nothing.
    pub fn next(&self) -> Ask
        requires { IsKept self.now }
        ensures { result ≡ asks (program_of self.now) }
    {
        match self.stage {
            Stage::Idle | Stage::Stuck => Ask::Nothing,
            Stage::SeeDone => Ask::Load(Address::Done(self.seen.len() as u64)),
            Stage::StoreOp(stored) => Ask::Store(
                Address::OpWord(self.next_number(FullKind::OpRows), stored),
                self.op[stored as usize],
            ),
            Stage::Announce => Ask::Store(
                Address::Announcement(self.seat as u64),
                self.next_number(FullKind::OpRows) + 1,
            ),
            Stage::FindRoot(_) | Stage::DirRoot(_, _, _) => Ask::Load(Address::Root),
            Stage::FindDepth(_, root) | Stage::DirDepth(_, _, _, root) => {
                Ask::Load(Address::DirectoryWord(root, 0))
            }
            Stage::FindEntry(_, root, depth) => {
                let place = prefix_at(&self.rules(), depth as u32, self.call.key());
                Ask::Load(Address::DirectoryWord(root, DIRECTORY_HEAD_WORDS as u64 + place))
            }
            Stage::LookWord(_, bucket)
            | Stage::LastWord(_, bucket)
            | Stage::DirWord(_, _, _, _, bucket) => Ask::Load(Address::BucketWord(bucket)),
            Stage::LookCount(row) => Ask::Load(Address::BucketRowWord(row, COUNT_PLACE as u64)),
            Stage::LookItems(row, _) => Ask::Load(Address::BucketRowWord(
                row,
                BUCKET_HEAD_WORDS as u64 + self.words.len() as u64,
            )),
            Stage::TryWord(round, _, _) => Ask::Load(Address::BucketWord(round.bucket)),
            Stage::TryRow(_, _, _, row) | Stage::LastRow(row) | Stage::DirRow(_, _, _, _, _, row) =>
                { Ask::Load(Address::BucketRowWord(row, self.words.len() as u64)) }
            Stage::TryAnnouncement(_, _, _, _) | Stage::DirAnnouncement(_, _, _, _) => {
                Ask::Load(Address::Announcement(self.found.len() as u64))
            }
            Stage::TryOp(_, _, _, _, op) | Stage::DirOp(_, _, _, _, op) => {
                Ask::Load(Address::OpWord(op, self.words.len() as u64))
            }
            Stage::TryStore(_, _, _, _, stored) => Ask::Store(
                Address::BucketRowWord(self.next_number(FullKind::BucketRows), stored),
                self.out[stored as usize],
            ),
            Stage::TryExchange(round, _, _, row) => Ask::Exchange(
                Address::BucketWord(round.bucket),
                row,
                self.next_number(FullKind::BucketRows),
            ),
            Stage::DirEntries(_, _, _, root, _) => Ask::Load(Address::DirectoryWord(
                root,
                DIRECTORY_HEAD_WORDS as u64 + self.directory.entries.len() as u64,
            )),
            Stage::DirStore(_, _, _, _, stored) => store_of(&self.puts, stored),
            Stage::DirExchange(_, _, _, root) => {
                Ask::Exchange(Address::Root, root, self.next_number(FullKind::DirRows))
            }
            Stage::StoreDone(_, _) => {
                Ask::Store(Address::Done(self.seat as u64), self.number as u64)
            }
        }
    }
}

// The store of one of these words. Past the last of them there is nothing to do.
fn store_of(puts: &[Put], i: u64) -> Ask
    ensures { result ≡ store_of (slice_get puts.now i) }
{
    match puts.get(i as usize) {
        Some(put) => Ask::Store(put.address, put.word),
        None => Ask::Nothing,
    }
}
