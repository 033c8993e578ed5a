// The table of a hall: what admission fills and what the unit works from.
ghost use Rattle.std.specs.Prelude.{◌≡◌, ◌≤◌, true};
ghost use Rattle.std.specs.List.{list_all};
ghost use Rattle.few.specs.Elements.{elements};
ghost use Rattle.admission.specs.Demand.{longest_cycle, cycle_of, load_of};
ghost use Rattle.admission.specs.Limits.{poll_fits, lane_fits};

use few::Few;
use sheet::header::{MOST_LANES, MOST_POLLS};

mod fill;
mod view;

// A poll: a job of `budget` slots is released at slot `phase` and then every `period` slots, and is due a period later.
#[derive(Clone, Copy, Debug, PartialEq, Eq)]
pub struct Poll {
    pub phase: u16,
    pub period: u16,
    pub budget: u16,
}

// A lane: a section's share of the processor, `quota` slots of every `span`.
#[derive(Clone, Copy, Debug, PartialEq, Eq)]
pub struct Lane {
    pub span: u16,
    pub quota: u16,
}

// Stand in the places of a table that no poll and no lane has taken.
const NO_POLL: Poll = Poll {
    phase: 0,
    period: 1,
    budget: 1,
};

const NO_LANE: Lane = Lane { span: 1, quota: 1 };

// At most 32 polls and 8 lanes. Every table that exists is admissible: its numbers lie in their limits, its cycle is the
// least common multiple of all periods and spans, and its load, the slots that all of them take of a cycle, fits the cycle.
#[derive(Clone, Copy)]
pub struct Table {
    polls: Few<Poll, MOST_POLLS>,
    lanes: Few<Lane, MOST_LANES>,
    load: u64,
    cycle: u64,
    ghost polls_fit: { list_all poll_fits (elements polls) ≡ true },
    ghost lanes_fit: { list_all lane_fits (elements lanes) ≡ true },
    ghost cycle_is: { cycle ≡ cycle_of (elements polls) (elements lanes) },
    ghost short: { cycle ≤ longest_cycle },
    ghost load_is: { load ≡ load_of cycle (elements polls) (elements lanes) },
    ghost light: { load ≤ cycle },
}
