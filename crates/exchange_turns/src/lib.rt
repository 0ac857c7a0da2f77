//! What the calls of several seats come to on a table whose rows change owner at each exchange, where each class's
//! calls are made by one seat.
#![tactic(auto)]

mod laws;

pub use laws::class_order_laws;
