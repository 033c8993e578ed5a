// A ready queue that is lent is a ready queue, so that a unit may hold its queue by value and a host may lend one.
use super::job::Job;
use super::ready::ReadyQueue;
use pile::PutRefusal;

impl<'q, Q: ReadyQueue> ReadyQueue for &'q mut Q {
    ghost bag = { λ lent. Q.ReadyQueue.bag lent.now };

    ghost places = { λ lent. Q.ReadyQueue.places lent.now };

    ghost whose = { λ lent. lent.ghost_name };

    ghost sound = { λ lent. Q.ReadyQueue.sound lent.now };

    fn places(&self) -> usize {
        (**self).places()
    }

    fn count(&self) -> usize {
        (**self).count()
    }

    fn first(&self) -> Option<Job> {
        (**self).first()
    }

    fn put(&mut self, job: Job) -> Result<(), PutRefusal> {
        (**self).put(job)
    }

    fn spend(&mut self) -> bool {
        (**self).spend()
    }

    fn drop_first(&mut self) -> bool {
        (**self).drop_first()
    }
}
