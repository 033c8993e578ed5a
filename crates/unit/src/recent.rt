// The last deadlines that a lane accepted, at most eight, the newest first.
ghost use Rattle.std.specs.Prelude.{◌≡◌, ◌+◌, ◌<◌, ◌≤◌, max, [], ◌∷◌, length, take};
ghost use Rattle.machine.specs.Lanes.{ahead, clock_of};
ghost use Rattle.machine.specs.Limits.{most_ahead, slots_in_all};
ghost use Rattle.unit.specs.Recents.{longest_reach, latest_deadline, Chained, GoesOn};

// So many deadlines of a lane may lie past the present slot, and so many are remembered.
pub(crate) const MOST_AHEAD: usize = 8;

// The first `count` of its places are taken.
#[derive(Clone, Copy, Debug)]
pub(crate) struct Recent {
    deadlines: [u32; MOST_AHEAD],
    count: usize,
    ghost size: { length deadlines ≡ most_ahead },
    ghost within: { count ≤ most_ahead },
    ghost chained: { Chained (take count deadlines) },
}

impl Recent {
    ghost use Rattle.unit.specs.Deadlines.{deadlines_of};

    pub(crate) fn new() -> Recent
        ensures value { deadlines_of result ≡ [] }
    {
        Recent {
            deadlines: [0; MOST_AHEAD],
            count: 0,
        }
    }

    // How many of them lie past the slot.
    #[tactic(auto, using(crate::proofs::Counting::counted))]
    pub(crate) fn ahead(&self, slot: u32) -> usize
        ensures value { result ≡ ahead slot (deadlines_of self.now) }
    {
        self.deadlines[..self.count]
            .iter()
            .filter(|deadline| **deadline > slot)
            .count()
    }

    // The newest, or 0 if there is none.
    pub(crate) fn last(&self) -> u32
        ensures value { result ≡ clock_of (deadlines_of self.now) }
    {
        self.deadlines[..self.count].first().copied().unwrap_or(0)
    }

    // The deadline of a request that reaches so far: it goes on from the later of the slot and the newest deadline. It is less
    // than 10^9, since fewer than eight lie past the slot.
    #[tactic(auto, using(crate::proofs::Recents::near))]
    pub(crate) fn deadline(&self, slot: u32, reach: u32) -> u32
        requires few { ahead slot (deadlines_of self.now) < most_ahead }
        requires early { slot ≤ slots_in_all }
        requires short { reach ≤ longest_reach }
        ensures value { result ≡ max slot (clock_of (deadlines_of self.now)) + reach }
        ensures bound { result ≤ latest_deadline }
        ensures goes_on { GoesOn (deadlines_of self.now) result }
    {
        slot.max(self.last()) + reach
    }

    // Puts a deadline in front; of nine the oldest is forgotten.
    pub(crate) fn push(&mut self, deadline: u32)
        requires near { GoesOn (deadlines_of self.old) deadline }
        ensures value { deadlines_of self.new ≡ take most_ahead (deadline ∷ deadlines_of self.old) }
    {
        // the oldest place comes to the front, and is taken
        self.deadlines.rotate_right(1);
        self.deadlines[0] = deadline;
        self.count = MOST_AHEAD.min(self.count + 1);
    }
}
