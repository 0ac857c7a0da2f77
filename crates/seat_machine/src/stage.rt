//! Where a seat stands.

use plain_map::Reply;
use table_model::{Aim, Round};

/// The phase of a seat without what the buffers hold. The numbers are those of the phase, in its order.
#[derive(Clone, Copy)]
pub enum Stage {
    Idle,
    SeeDone,
    StoreOp(u64),
    Announce,
    FindRoot(Aim),
    FindDepth(Aim, u64),
    FindEntry(Aim, u64, u64),
    LookWord(u64, u64),
    LookCount(u64),
    LookItems(u64, u64),
    TryWord(Round, u64, Option<u64>),
    TryRow(Round, u64, u64, u64),
    TryAnnouncement(Round, u64, u64, u64),
    TryOp(Round, u64, u64, u64, u64),
    TryStore(Round, u64, u64, u64, u64),
    TryExchange(Round, u64, u64, u64),
    DirRoot(Round, u64, Option<u64>),
    DirDepth(Round, u64, u64, u64),
    DirEntries(Round, u64, u64, u64, u64),
    DirAnnouncement(Round, u64, u64, u64),
    DirOp(Round, u64, u64, u64, u64),
    DirWord(Round, u64, u64, u64, u64),
    DirRow(Round, u64, u64, u64, u64, u64),
    DirStore(Round, u64, u64, u64, u64),
    DirExchange(Round, u64, u64, u64),
    LastWord(u64, u64),
    LastRow(u64),
    StoreDone(Reply, u64),
    Stuck,
}
