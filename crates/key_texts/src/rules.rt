//! Which calls packets make.

/// Which call a packet makes.
#[derive(Clone, Copy, Debug, PartialEq, Eq)]
pub enum CallRule {
    /// A flow of TCP begins and ends by flags, and is tallied and looked up between. Each packet of UDP inserts its
    /// flow.
    Sessions,
    /// Each packet counts its payload at its flow, and begins it where it is not there. No flow ends.
    Flows,
}
