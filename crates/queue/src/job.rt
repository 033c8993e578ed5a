// A job: work that waits for slots.
ghost use Rattle.queue.specs.Jobs.{sooner};
ghost use Rattle.queue.specs.JobOrder.{sooner_total};

use pile::Ranked;

// `deadline` is the slot before which it has to be over, `owner` says whose it is (a poll's or a lane's number), and
// `left` is how many slots it may still take. The order of the fields is the order of jobs: by deadline, then owner, then
// slots left.
#[derive(Clone, Copy, Debug, PartialEq, Eq, PartialOrd, Ord)]
pub struct Job {
    pub deadline: u32,
    pub owner: u8,
    pub left: u16,
}

// Which of two jobs runs first.
impl Ranked for Job {
    ghost before = { sooner };

    ghost total = { sooner_total };

    #[tactic(auto, unfolding(crate::specs::Jobs::sooner))]
    fn is_before(&self, other: &Job) -> bool {
        self < other
    }
}
