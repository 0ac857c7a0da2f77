//! How the packets of a capture become calls.

use key_texts::CallRule;
use packet_heads::Framing;

/// How packets are framed, and which call each of them makes.
#[derive(Clone, Copy, PartialEq, Eq)]
pub struct Calling {
    pub framing: Framing,
    pub calls: CallRule,
}
