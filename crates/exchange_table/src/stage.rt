//! How far a call is.

/// A call begins in the run with its first step.
#[derive(Clone, Copy)]
pub enum Stage {
    /// No call is made.
    Rests,
    /// It has begun, and taken no step.
    Begun,
    /// It has taken steps.
    Runs,
}
