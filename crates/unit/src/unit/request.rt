// What a lane asks.
ghost use Rattle.std.specs.Prelude.{◌≡◌, ◌≤◌, IfOk, ok_or};
ghost use Rattle.sheet.specs.Limits.{longest_span};
ghost use Rattle.std.specs.List.{slice_get};
ghost use Rattle.admission.specs.Contents.{contents};
ghost use Rattle.machine.specs.declared.refusal.Refusal.TheVariants.{NoSuchLane};
ghost use Rattle.unit.specs.InTable.{InTable};
ghost use Rattle.machine.specs.declared.call.Call.TheVariants.{Request};
ghost use Rattle.machine.specs.Lanes.{reach};
ghost use Rattle.machine.specs.Limits.{most_budget};
ghost use Rattle.unit.specs.Recents.{longest_reach};
ghost use Rattle.unit.specs.Meaning.{meaning, called, answered, as_deadline};

use super::super::recent::MOST_AHEAD;
use super::Unit;
use admission::{Lane, Table};
use machine::Refusal;
use queue::{Job, ReadyQueue};

// The largest budget of a request, in slots.
const MOST_BUDGET: u16 = 10_000;

// The owner number of lane 0.
const FIRST_LANE: u8 = 32;

// How far a budget reaches in a lane, rounded up to whole slots.
#[tactic(auto, using(crate::proofs::Requests::rounded_up))]
fn reach(lane: Lane, budget: u16) -> u32
    requires some { 1 ≤ lane.quota }
    requires within { lane.span ≤ longest_span }
    requires most { budget ≤ most_budget }
    ensures value { result ≡ reach lane budget }
    ensures bound { result ≤ longest_reach }
{
    (u32::from(budget) * u32::from(lane.span)).div_ceil(u32::from(lane.quota))
}

// What the table gives the lane of that number, if there is such a lane.
#[tactic(auto, using(crate::proofs::Requests::in_table))]
fn share_of(table: &Table, lane: u8) -> Result<Lane, Refusal>
    ensures value { result ≡ ok_or (slice_get (contents table.now).lanes lane) NoSuchLane }
    ensures found { IfOk result (λ share. InTable table.now lane share) }
{
    table.lane(usize::from(lane)).ok_or(Refusal::NoSuchLane)
}

impl<Q: ReadyQueue> Unit<Q> {
    // A lane asks for so many slots, and learns the deadline.
    pub fn request(&mut self, lane: u8, budget: u16) -> Result<u32, Refusal>
        ensures meaning { meaning Q.bag Q.places self.new ≡ called (meaning Q.bag Q.places self.old) (Request lane budget) }
        ensures answer { as_deadline result ≡ answered (meaning Q.bag Q.places self.old) (Request lane budget) }
        ensures whose { Q.whose self.new.queue ≡ Q.whose self.old.queue }
    {
        if self.is_open {
            return Err(Refusal::DuringSlot);
        }
        let share = share_of(&self.table, lane)?;
        if budget == 0 || budget > MOST_BUDGET {
            return Err(Refusal::BudgetOutOfRange);
        }
        let at = usize::from(lane);
        let recent = &self.recents[at];
        if recent.ahead(self.slot) >= MOST_AHEAD {
            return Err(Refusal::LaneAhead);
        }
        let deadline = recent.deadline(self.slot, reach(share, budget));
        let job = Job {
            deadline,
            owner: FIRST_LANE + lane,
            left: budget,
        };
        if self.queue.put(job).is_err() {
            return Err(Refusal::QueueFull);
        }
        self.recents[at].push(deadline);
        Ok(deadline)
    }
}
