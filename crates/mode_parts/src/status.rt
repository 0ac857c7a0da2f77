//! How a run ended.

ghost use Rattle.std.specs.Prelude.{◌≡◌};
ghost use Rattle.mode_parts.specs.Statuses.{other_link};

use capture_faults::{AnyFault, CaptureFault, Ending};
use capture_loop::Stop;
use packet_heads::Link;

/// How a run ended, and so the program's exit status.
#[derive(Clone, Copy, PartialEq, Eq)]
pub enum Status {
    /// The input was read to its end, and all that the mode writes was put.
    Done,
    /// Memory ran out. What was put is nothing, or the lines of whole batches.
    Memory,
    /// The words are not those of the command. Nothing was read or put.
    Usage,
    /// A read failed. The packets that were read whole before are served.
    ReadFault,
    /// A write failed. What was put is a front of what the mode writes.
    WriteFault,
    /// The capture has this fault. The packets before it are served.
    BadCapture { fault: AnyFault },
    /// A packet follows the last one that is allowed. The packets before it are served.
    Limit,
}

impl Status {
    ghost use Rattle.std.specs.Prelude.{◌≡◌, option_map};
    ghost use Rattle.mode_parts.specs.Statuses.{Says, code_of, status_by, status_of, text_of};

    /// The program's exit status.
    pub fn code(self) -> u8
        ensures { result ≡ code_of self }
    {
        match self {
            Status::Done => 0,
            Status::Memory => 1,
            Status::Usage => 2,
            Status::ReadFault => 3,
            Status::WriteFault => 4,
            Status::BadCapture { .. } => 5,
            Status::Limit => 6,
        }
    }

    /// What the program says of it on standard error, where it says anything. Of a fault of the capture it is what to
    /// give for another link type, and else nothing: the fault has a text of its own.
    pub fn complaint(self) -> Option<Complaint>
        ensures { Says self (option_map text_of result) }
    {
        match self {
            Status::Memory => Some(Complaint::of("flowdir: out of memory")),
            Status::Usage => Some(Complaint::of(
                "flowdir: usage: flowdir serve|play|make|trial|check|totals|flows [options]",
            )),
            Status::ReadFault => Some(Complaint::of("flowdir: read fault")),
            Status::WriteFault => Some(Complaint::of("flowdir: write fault")),
            Status::BadCapture { fault } => match other_link(&fault) {
                Some(found) => Some(Complaint::of_link(found)),
                None => None,
            },
            Status::Done | Status::Limit => None,
        }
    }

    /// The status of a run whose report was put whole.
    pub fn of_ending(ending: &Ending) -> Status
        ensures { result ≡ status_of ending.now }
    {
        match ending {
            Ending::Done { .. } => Status::Done,
            Ending::ReadFault => Status::ReadFault,
            Ending::Limit { .. } => Status::Limit,
            Ending::Fault(fault) => Status::BadCapture { fault: *fault },
        }
    }

    /// The status of a run that ended so.
    pub fn of_run(end: &Result<Ending, Stop>) -> Status
        ensures { result ≡ status_by end.now }
    {
        match end {
            Ok(ending) => Status::of_ending(ending),
            Err(Stop::Memory) => Status::Memory,
            Err(Stop::NotPut) => Status::WriteFault,
        }
    }
}

/// The link type of a savefile, where that is its fault.
fn other_link(fault: &AnyFault) -> Option<u16>
    ensures { result ≡ other_link fault.now }
{
    match fault {
        AnyFault::Capture(CaptureFault::LinkType { found }) => Some(*found),
        _ => None,
    }
}

/// What is said on standard error: a text, a number in decimal digits where there is one, and what stands behind it.
#[derive(Clone, Copy)]
pub struct Complaint {
    pub text: &'static str,
    pub number: Option<u16>,
    pub rest: &'static str,
}

impl Complaint {
    ghost use Rattle.std.specs.Prelude.{◌≡◌};
    ghost use Rattle.mode_parts.specs.Statuses.{SaysLink, text_of};

    /// One without a number.
    fn of(text: &'static str) -> Complaint
        ensures { text_of result ≡ text.entry.now }
    {
        Complaint {
            text,
            number: None,
            rest: "",
        }
    }

    /// One of a savefile with this link type, which was not asked for.
    fn of_link(found: u16) -> Complaint
        ensures { SaysLink found (text_of result) }
    {
        match Link::with_number(found) {
            Some(_link) => Complaint {
                text: "flowdir: give --link ",
                number: Some(found),
                rest: "",
            },
            None => Complaint {
                text: "flowdir: link type ",
                number: Some(found),
                rest: " is not read",
            },
        }
    }
}
