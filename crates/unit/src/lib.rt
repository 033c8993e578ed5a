// The unit: it takes requests, grants slots one by one, and hears what came of each. Every call is tied to the plain
// machine (crates/machine), for all inputs and over every ready queue. It needs no heap.
#![tactic(auto)]

mod recent;
mod releases;
pub mod token;
pub mod unit;

pub use token::Token;
pub use unit::Unit;
