//! What the types of a report's first and last lines say of their numbers. These calls do nothing.

ghost use Rattle.std.specs.Prelude.{◌≡◌, ◌<◌, ◌^◌};
ghost use Rattle.step_counts.specs.Made.{IsMadeOf};
ghost use Rattle.step_counts.specs.StepCounts.{step_bound};
ghost use Rattle.capture_faults.specs.Endings.{IsCaptureFault, IsEnding, IsFormatFault};
ghost use Rattle.report_told.specs.Rules.{IsAnyFaultTold, IsBatch, IsEndingTold, IsFaultTold, IsHead, IsTail, seed_in};

use capture_faults::{AnyFault, CaptureFault, Ending};
use hash_bits::Hashing;
use report_text::{Head, Tail};
use step_counts::Settings;

// The type's own limit.
fn has_64_bits(number: u64)
    ensures { number < 2 ^ 64 }
{}

fn has_32_bits(number: u32)
    ensures { number < 2 ^ 32 }
{}

fn seed_fits(hashing: Hashing)
    ensures { seed_in hashing < 2 ^ 64 }
{
    let (Hashing::Mix(_seed) | Hashing::Ports(_seed)) = hashing;
}

fn capture_fault_fits(fault: CaptureFault)
    requires { IsCaptureFault fault }
    ensures { IsFaultTold fault }
{
    match fault {
        CaptureFault::ShortHeader { have: _have } => {}
        CaptureFault::Magic { bytes } => {
            let [_first, _second, _third, _fourth] = bytes;
        }
        CaptureFault::Version {
            major: _major,
            minor: _minor,
        } => {}
        CaptureFault::LinkType { found: _found } => {}
        CaptureFault::RecordLength {
            offset: _offset,
            found: _found,
        } => {}
        CaptureFault::ReadFault | CaptureFault::Memory => unreachable!(),
    }
}

fn fault_fits(fault: AnyFault)
    requires { IsFormatFault fault }
    ensures { IsAnyFaultTold fault }
{
    match fault {
        AnyFault::Capture(fault) => capture_fault_fits(fault),
        AnyFault::ByteOrder {
            offset: _offset,
            bytes,
        } => {
            let [_first, _second, _third, _fourth] = bytes;
        }
        AnyFault::BlockLength {
            offset: _offset,
            found: _found,
        } => {}
        AnyFault::Trailer {
            offset: _offset,
            found: _found,
        } => {}
        AnyFault::SectionVersion {
            offset: _offset,
            major: _major,
            minor: _minor,
        } => {}
        AnyFault::Interface {
            offset: _offset,
            found: _found,
        } => {}
        AnyFault::CapturedLength {
            offset: _offset,
            found: _found,
        } => {}
        AnyFault::Interfaces { offset: _offset } => {}
        AnyFault::Blocks { offset: _offset } => {}
    }
}

/// The numbers of an ending can be told.
pub fn ending_fits(ending: Ending)
    requires { IsEnding ending }
    ensures { IsEndingTold ending }
{
    match ending {
        Ending::Done { rest: _rest } => {}
        Ending::ReadFault => {}
        Ending::Limit { limit: _limit } => {}
        Ending::Fault(fault) => fault_fits(fault),
    }
}

/// A head of these settings can be told.
pub fn head_fits(head: &Head, settings: &Settings)
    requires settings { IsMadeOf settings.now head.now.seats head.now.items head.now.depth head.now.start }
    requires batch { IsBatch head.now.play head.now.batch }
    ensures { IsHead head.now }
{
    seed_fits(head.hashing);
    let _ranges = *settings;
}

/// So can the last lines of a report with this head, if they tell the bound of these settings.
pub fn tail_fits(head: &Head, tail: &Tail, settings: &Settings)
    requires settings { IsMadeOf settings.now head.now.seats head.now.items head.now.depth head.now.start }
    requires bound { tail.now.bound ≡ step_bound settings.now }
    requires ending { IsEnding tail.now.ending }
    ensures { IsTail head.now tail.now }
{
    has_64_bits(tail.leaves);
    has_32_bits(tail.depth);
    ending_fits(tail.ending);
    has_64_bits(tail.packets);
    has_64_bits(tail.calls);
    has_64_bits(tail.passed);
    has_64_bits(tail.full);
    has_64_bits(tail.pending);
    has_64_bits(tail.unbegun);
    has_64_bits(tail.update);
    has_64_bits(tail.lookup);
}
