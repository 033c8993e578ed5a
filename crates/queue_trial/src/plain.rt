// What the queues are compared with: a vector of jobs in order, searched from its front.
use queue::Job;
use std::alloc::{AllocError, Global};

#[derive(Drop)]
pub struct PlainList {
    jobs: Vec<Job>,
    places: usize,
}

// What the list is kept in order by. The jobs' own order is not asked, since it is one of the things compared.
fn key(job: &Job) -> (u32, u8, u16) {
    (job.deadline, job.owner, job.left)
}

impl PlainList {
    pub fn new(heap: Global, places: usize) -> PlainList {
        PlainList {
            jobs: Vec::new(heap),
            places,
        }
    }

    pub fn count(&self) -> usize {
        self.jobs.len()
    }

    pub fn first(&self) -> Option<Job> {
        self.jobs.first().copied()
    }

    pub fn put(&mut self, job: Job) -> Result<bool, AllocError> {
        if self.jobs.len() >= self.places {
            return Ok(false);
        }
        let place = self
            .jobs
            .iter()
            .position(|other| key(other) >= key(&job))
            .unwrap_or(self.jobs.len());
        self.jobs.insert(place, job)?;
        Ok(true)
    }

    pub fn drop_first(&mut self) -> bool {
        if self.jobs.is_empty() {
            return false;
        }
        self.jobs.remove(0);
        true
    }

    pub fn spend(&mut self) -> bool {
        match self.jobs.first_mut() {
            None => false,
            Some(job) if job.left > 1 => {
                job.left -= 1;
                true
            }
            Some(_) => self.drop_first(),
        }
    }
}
