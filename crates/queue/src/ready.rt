// What a ready queue must show.
ghost use Rattle.std.specs.Prelude.{◌≡◌, ℕ, ◌<◌, List, length, MatchResult};
ghost use Rattle.pile.specs.Sorted.{first_of, without_first};
ghost use Rattle.queue.specs.declared.job.Job.{Job};
ghost use Rattle.queue.specs.Jobs.{put_job, is_some_job, spent};
ghost use Rattle.queue.specs.Sound.{Sound};

use super::job::Job;
use pile::PutRefusal;

pub trait ReadyQueue {
    // the jobs that it holds, in order
    ghost bag: { Self → List Job };

    // for how many jobs there is a place; every call keeps it, and says so: no field ties before a call to after it
    ghost places: { Self → ℕ };

    // the ghost name of what was lent to it, and 0 where it owns its memory; every call keeps it, so that whoever lends a
    // queue learns what it holds in the end
    ghost whose: { Self → ℕ };

    // the bag is in order and fits the places, of which there are at most 65,535
    ghost sound: { (queue : Self) → Sound (bag queue) (places queue) };

    fn places(&self) -> usize
        ensures value { result ≡ places self.now };

    fn count(&self) -> usize
        ensures value { result ≡ length (bag self.now) };

    // The job that runs first; none exactly if the bag is empty.
    fn first(&self) -> Option<Job>
        ensures value { result ≡ first_of (bag self.now) };

    // Adds a job; refused, by 34, exactly if every place is taken.
    fn put(&mut self, job: Job) -> Result<(), PutRefusal>
        ensures bag { MatchResult result (λ _. (length (bag self.old) < places self.old) × (bag self.new ≡ put_job job (bag self.old))) (λ _. (length (bag self.old) ≡ places self.old) × (bag self.new ≡ bag self.old)) }
        ensures places { places self.new ≡ places self.old }
        ensures whose { whose self.new ≡ whose self.old };

    // Lowers the slots left of the first job by one, in place; a job with at most one left leaves. False, and nothing done,
    // on an empty bag.
    fn spend(&mut self) -> bool
        ensures value { result ≡ is_some_job (bag self.old) }
        ensures bag { bag self.new ≡ spent (bag self.old) }
        ensures places { places self.new ≡ places self.old }
        ensures whose { whose self.new ≡ whose self.old };

    // Removes the first job. False, and nothing done, on an empty bag.
    fn drop_first(&mut self) -> bool
        ensures value { result ≡ is_some_job (bag self.old) }
        ensures bag { bag self.new ≡ without_first (bag self.old) }
        ensures places { places self.new ≡ places self.old }
        ensures whose { whose self.new ≡ whose self.old };
}
