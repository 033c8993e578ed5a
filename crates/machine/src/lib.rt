// The plain machine: what the unit means, call by call, and what holds of every history of calls. This crate is nearly all
// definitions (specs/) and proofs; the unit's calls are tied to it in a crate above.
#![tactic(auto)]

pub mod call;
pub mod promise;
pub mod refusal;

pub use call::{Answer, Call, Outcome, Reply};
pub use refusal::Refusal;
