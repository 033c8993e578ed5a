// How a slot is granted.
ghost use Rattle.std.specs.Prelude.{◌≡◌, ◌+◌, ◌<◌, ◌≤◌, suc, length};
ghost use Rattle.admission.specs.Contents.{contents};
ghost use Rattle.machine.specs.declared.call.Call.TheVariants.{Grant};
ghost use Rattle.machine.specs.Limits.{slots_in_all};
ghost use Rattle.machine.specs.Machine.{put_all};
ghost use Rattle.machine.specs.Polls.{jobs_at};
ghost use Rattle.unit.specs.Meaning.{meaning, called, answered, as_grant};
ghost use Rattle.unit.specs.Releases.{releases_of, InStep};

use super::super::releases::{Release, Releases};
use super::super::token::Token;
use super::{SLOTS_IN_ALL, Unit};
use admission::Table;
use machine::Refusal;
use queue::{Job, ReadyQueue};

// Puts the jobs that are released at the slot, and moves the releases of their polls on.
fn release<Q: ReadyQueue>(queue: &mut Q, releases: &mut Releases, table: &Table, slot: u32)
    requires early { slot < slots_in_all }
    requires in_step { InStep (releases_of releases.old) (contents table.now).polls slot }
    requires places { length (Q.bag queue.old) + length (jobs_at slot 0 (contents table.now).polls) ≤ Q.places queue.old }
    ensures bag { Q.bag queue.new ≡ put_all (jobs_at slot 0 (contents table.now).polls) (Q.bag queue.old) }
    ensures in_step { InStep (releases_of releases.new) (contents table.now).polls (suc slot) }
    ensures places { Q.places queue.new ≡ Q.places queue.old }
    ensures whose { Q.whose queue.new ≡ Q.whose queue.old }
{
    while let Some(poll) = releases.first_due(slot) {
        let Some(row) = table.poll(usize::from(poll)) else {
            // never reached: every poll in the pile is in the table
            return;
        };
        let next = slot + u32::from(row.period);
        let job = Job {
            deadline: next,
            owner: poll,
            left: row.budget,
        };
        let placed = queue.put(job).is_ok();
        prove!(placed);
        releases.replace_first(Release { slot: next, poll });
    }
}

impl<Q: ReadyQueue> Unit<Q> {
    // Puts the jobs that are released now, and opens the slot for the first job of the queue.
    pub fn grant(&mut self) -> Result<Token, Refusal>
        ensures meaning { meaning Q.bag Q.places self.new ≡ called (meaning Q.bag Q.places self.old) Grant }
        ensures answer { as_grant result ≡ answered (meaning Q.bag Q.places self.old) Grant }
        ensures whose { Q.whose self.new.queue ≡ Q.whose self.old.queue }
    {
        if !self.opened {
            return Err(Refusal::Unopened);
        }
        if self.is_open {
            return Err(Refusal::SlotOpen);
        }
        if self.slot >= SLOTS_IN_ALL {
            return Err(Refusal::SlotsUsedUp);
        }
        let free = self.queue.places() - self.queue.count();
        if !self.releases.fit(self.slot, free) {
            return Err(Refusal::NoPlaceForRelease);
        }
        release(&mut self.queue, &mut self.releases, &self.table, self.slot);
        let first = self.queue.first();
        self.is_open = true;
        Ok(Token::new(self.number, self.slot, first))
    }
}
