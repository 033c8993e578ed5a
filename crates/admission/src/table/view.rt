// What a table holds.
ghost use Rattle.std.specs.Prelude.{◌≡◌, length};
ghost use Rattle.std.specs.List.{slice_get};
ghost use Rattle.admission.specs.Contents.{contents, unfilled};

use super::{Lane, NO_LANE, NO_POLL, Poll, Table};
use few::Few;

impl Table {
    // A table that is not yet filled: no polls, no lanes, load 0 and cycle 1.
    pub fn new() -> Table
        ensures value { contents result ≡ unfilled }
    {
        Table {
            polls: Few::new(NO_POLL),
            lanes: Few::new(NO_LANE),
            load: 0,
            cycle: 1,
        }
    }

    pub fn poll_count(&self) -> usize
        ensures value { result ≡ length (contents self.now).polls }
    {
        self.polls.len()
    }

    pub fn lane_count(&self) -> usize
        ensures value { result ≡ length (contents self.now).lanes }
    {
        self.lanes.len()
    }

    // Poll number `i`, if there is one.
    pub fn poll(&self, i: usize) -> Option<Poll>
        ensures value { result ≡ slice_get (contents self.now).polls i }
    {
        self.polls.get(i)
    }

    // Lane number `i`, if there is one.
    pub fn lane(&self, i: usize) -> Option<Lane>
        ensures value { result ≡ slice_get (contents self.now).lanes i }
    {
        self.lanes.get(i)
    }

    pub fn load(&self) -> u64
        ensures value { result ≡ (contents self.now).load }
    {
        self.load
    }

    pub fn cycle(&self) -> u64
        ensures value { result ≡ (contents self.now).cycle }
    {
        self.cycle
    }
}
