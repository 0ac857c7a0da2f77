//! The packets of a batch.

ghost use Rattle.std.specs.Prelude.{◌≡◌, ◌<◌, ◌≤◌, ◌+◌, ℕ, List, [], ◌++◌, false, length, Option, Some, MatchOption, IfOk, IfSome, IfNone, OnErr};
ghost use Rattle.edge_traits.specs.Edge.{Rose};
ghost use Rattle.capture_faults.specs.Endings.{IsEnding};
ghost use Rattle.std.specs.Option.{ForSome};
ghost use Rattle.capture_loop.specs.Batches.{IsCutAt, cut_of};
ghost use Rattle.capture_loop.specs.Endings.{HasFailed, OnLimit};
ghost use Rattle.capture_loop.specs.Input.{StopsAt};
ghost use Rattle.capture_loop.specs.Reading.{HaveCome};
ghost use Rattle.capture_loop.specs.Intake.{IsRead, IsTaken};

use crate::job::{MOST_BATCH, Pile};
use crate::opening::{Step, read_past, read_step};
use crate::portions::Portions;
use capture_faults::Ending;
use edge_traits::Source;
use pcap_reader::MOST_PACKETS;
use pcapng_reader::AnyReader;
use std::alloc::AllocError;

/// What was read of a batch.
#[derive(Clone, Copy)]
pub struct Part {
    /// How many packets were read whole.
    pub packets: u32,
    /// How the input ended, where it did.
    pub ending: Option<Ending>,
}

/// Reads the packets of a batch behind so many that were read before, where so many of the batch were taken already.
///
/// Behind the first packet that an eager batch gets here the source is not read: it ends where the reader holds no
/// further whole packet.
pub fn read_rest<S: Source, P: Pile>(
    reader: &mut AnyReader,
    source: &mut S,
    portions: &Portions,
    before: u64,
    taken: u32,
    pile: &mut P,
) -> Result<Part, AllocError>
    requires batch { (0 < portions.now.batch) × (portions.now.batch ≤ MOST_BATCH) }
    requires every { ForSome portions.now.every (λ every. 0 < every) }
    requires going { reader.old.ended ≡ false }
    requires given { reader.old.given ≡ before + taken }
    requires few { before < portions.now.limit }
    requires limited { (portions.now.limit ≤ P.most) × (portions.now.limit ≤ MOST_PACKETS) }
    requires few_taken { (taken ≤ cut_of portions.now before) × (before + taken ≤ portions.now.limit) }
    requires piled { (packets : List (List ℕ)) × P.holds pile.old before packets × (length packets ≡ taken) }
    ensures read { IfOk result (λ part. (old : List (List ℕ)) → P.holds pile.old before old → length old ≡ taken →
        (more : List (List ℕ)) × P.holds pile.new before (old ++ more) × (length (old ++ more) ≡ part.packets)
        × IsRead portions.now.limit before (S.left source.old) (S.left source.new) reader.old reader.new old more
        part) }
    ensures way { P.way pile.new ≡ P.way pile.old }
    ensures goes_on { IfOk result (λ part. IfNone part.ending ((reader.new.ended ≡ false)
        × (reader.new.given ≡ before + part.packets) × IsCutAt portions.now before part.packets
        × (before + part.packets < portions.now.limit))) }
    ensures beyond { IfOk result (λ part. (old : List (List ℕ)) → P.holds pile.old before old →
        length old ≡ taken → (link : ℕ) (first : Option (List ℕ)) (all : List (List ℕ)) → length all ≡ before →
        HaveCome link first (S.left source.old) reader.old (all ++ old) →
        IfSome part.ending (λ ending. OnLimit ending
        (StopsAt link portions.now.limit first (S.left source.new) reader.new.start))) }
    ensures few_packets { IfOk result (λ part. (taken ≤ part.packets)
        × (part.packets ≤ cut_of portions.now before) × (before + part.packets ≤ portions.now.limit)) }
    ensures ending { IfOk result (λ part. IfSome part.ending IsEnding) }
    ensures read_fault { IfOk result (λ part. part.ending ≡ Some Ending.ReadFault →
        Rose (S.faults source.old) (S.faults source.new)) }
    ensures counted { S.faults source.old ≤ S.faults source.new }
    ensures failed { IfOk result (λ part. HasFailed part.ending (S.failed source.old) (S.failed source.new)) }
    ensures none_failed { OnErr result (S.failed source.new ≡ S.failed source.old) }
{
    let limit = portions.limit;
    let most = u64::from(portions.at(before)).min(limit - before) as u32;
    for packets in taken..most {
        match read_step(reader, source, packets == taken || !portions.eager) {
            Step::Packet => {}
            Step::Dry => {
                return Ok(Part {
                    packets,
                    ending: None,
                });
            }
            Step::Ended(ending) => {
                return Ok(Part {
                    packets,
                    ending: Some(ending),
                });
            }
        }
        pile.take(before + u64::from(packets) + 1, reader.packet())?;
    }
    if before + u64::from(most) < limit {
        return Ok(Part {
            packets: most,
            ending: None,
        });
    }
    Ok(Part {
        packets: most,
        ending: Some(read_past(reader, source, limit)),
    })
}

/// Takes the packets that the reader holds, behind so many, into a pile that is empty, as far as they are of one batch,
/// and prepares the pile where the batch is whole. No more than `limit` are taken in all. Nothing is read.
pub fn take_held<P: Pile>(
    reader: &mut AnyReader,
    batch: u32,
    before: u64,
    limit: u64,
    pile: &mut P,
) -> Result<u32, AllocError>
    requires going { reader.old.ended ≡ false }
    requires given { reader.old.given ≡ before }
    requires few { (before < limit) × (batch ≤ MOST_BATCH) }
    requires limited { (limit ≤ P.most) × (limit ≤ MOST_PACKETS) }
    requires none { P.holds pile.old before [] }
    ensures way { P.way pile.new ≡ P.way pile.old }
    ensures taken { IfOk result (λ packets. (more : List (List ℕ)) × P.holds pile.new before more
        × (length more ≡ packets) × IsTaken limit reader.old reader.new batch before more) }
{
    let most = (limit - before).min(u64::from(batch)) as u32;
    for packets in 0..most {
        if !reader.next_held() {
            return Ok(packets);
        }
        pile.take(before + u64::from(packets) + 1, reader.packet())?;
    }
    pile.prepare()?;
    Ok(most)
}
