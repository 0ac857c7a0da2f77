//! A meter of flows that end by time: one caller's flow records, each at a place that a table has for its key.
#![tactic(auto)]

mod clock;
mod ends;
mod flow;
mod laws;
mod meter;
mod packet;

pub use clock::{Clock, Moment};
pub use ends::{EndRecord, EndedBy, FlowEnd, sort_by_ends};
pub use flow::{EndCause, EndedFlow, FlowRecord, Met, SideRecord};
pub use laws::{meter_laws, order_laws};
pub use meter::Meter;
pub use packet::{Packet, Timeouts};
