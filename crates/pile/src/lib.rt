// The ordered pile: a bounded priority queue in memory that somebody lends, for every kind of element with a total order.
// docs/RULES.md has what it means in words.
#![tactic(auto)]

pub mod area;
pub mod order;
pub mod pile;
pub mod refusal;
mod sift;

pub use order::Ranked;
pub use pile::Pile;
pub use refusal::PutRefusal;
