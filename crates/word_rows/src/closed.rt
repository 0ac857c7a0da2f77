//! A table at its close.

use crate::Layout;

/// Every word of a table that no caller works on any more.
#[derive(Drop)]
pub struct ClosedRows {
    pub layout: Layout,
    /// By their numbers.
    pub words: Vec<u64>,
}
