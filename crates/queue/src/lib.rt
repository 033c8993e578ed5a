// Ready queues: the jobs that wait for a slot, first the one that is to run first. A ready queue is a trait, so that the
// unit is proved once over every queue; two are here, a heap and a row kept in order. docs/RULES.md has what a ready queue
// must show, in words.
#![tactic(auto)]

pub mod heap;
pub mod job;
pub mod lent;
pub mod ready;
pub mod row;

pub use heap::Heap;
pub use job::Job;
pub use pile::PutRefusal;
pub use ready::ReadyQueue;
pub use row::Row;
