// A ready queue as a heap: an ordered pile of jobs. Putting and dropping take time logarithmic in the count, all else
// constant time.
use super::job::Job;
use pile::Pile;

pub mod calls;

#[derive(Drop)]
pub struct Heap<'a> {
    pile: Pile<'a, Job>,
}
