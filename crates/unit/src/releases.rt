// The next releases of the polls. They are kept as a pile, the earliest first, so that a grant costs nothing for the polls
// that are not due.
ghost use Rattle.std.specs.Prelude.{◌≡◌, ◌+◌, ◌<◌, nat_le, [], length};
ghost use Rattle.pile.specs.Piles.{Piled};
ghost use Rattle.pile.specs.Sorted.{insert, without_first};
ghost use Rattle.sheet.specs.Limits.{most_polls};
ghost use Rattle.admission.specs.Contents.{contents};
ghost use Rattle.unit.specs.ReleaseOrder.{earlier, earlier_total};

use admission::Table;
use pile::{Ranked, area};
use sheet::header::MOST_POLLS;

// Poll number `poll` releases its next job at `slot`. The order of the fields is the order of releases: by slot, then by
// poll number.
#[derive(Clone, Copy, Debug, PartialEq, Eq, PartialOrd, Ord)]
pub(crate) struct Release {
    pub slot: u32,
    pub poll: u8,
}

impl Ranked for Release {
    ghost before = { earlier };

    ghost total = { earlier_total };

    #[tactic(auto, unfolding(crate::specs::ReleaseOrder::earlier))]
    fn is_before(&self, other: &Release) -> bool {
        self < other
    }
}

// The first `count` places of the area are the pile, one for each poll.
#[derive(Clone, Copy, Debug)]
pub(crate) struct Releases {
    area: [Release; MOST_POLLS],
    count: usize,
    ghost size: { length area ≡ most_polls },
    ghost piled: { Piled earlier area count },
}

impl Releases {
    ghost use Rattle.unit.specs.Releases.{releases_of, due_count, first_due, InStep};

    #[tactic(auto, using(pile::proofs::Inserting::sorted_none))]
    pub(crate) fn new() -> Releases
        ensures value { releases_of result ≡ [] }
        ensures count { result.count ≡ 0 }
    {
        Releases {
            area: [Release { slot: 0, poll: 0 }; MOST_POLLS],
            count: 0,
        }
    }

    // The first release of every poll.
    pub(crate) fn of(table: &Table) -> Releases
        ensures value { InStep (releases_of result) (contents table.now).polls 0 }
    {
        let mut releases = Releases::new();
        for poll in 0..MOST_POLLS as u8 {
            let Some(row) = table.poll(usize::from(poll)) else {
                break;
            };
            releases.put(Release {
                slot: u32::from(row.phase),
                poll,
            });
        }
        releases
    }

    // Adds a release, for which there is a place.
    fn put(&mut self, release: Release)
        requires free { self.old.count < most_polls }
        ensures bag { releases_of self.new ≡ insert earlier release (releases_of self.old) }
        ensures count { self.new.count ≡ self.old.count + 1 }
    {
        if let Ok(count) = area::put(&mut self.area, self.count, release) {
            self.count = count;
        }
    }

    // How many are due at the slot.
    fn due(&self, slot: u32) -> usize
        ensures value { result ≡ due_count slot (releases_of self.now) }
    {
        self.area[..self.count]
            .iter()
            .filter(|release| release.slot == slot)
            .count()
    }

    // Whether at most so many are due at the slot. They are counted only where fewer places are free than there are polls,
    // since never more are due.
    #[tactic(auto, using(crate::proofs::Piling::fits_all))]
    pub(crate) fn fit(&self, slot: u32, free: usize) -> bool
        ensures value { result ≡ nat_le (due_count slot (releases_of self.now)) free }
    {
        self.count <= free || self.due(slot) <= free
    }

    // The poll of the first release, if that is due at the slot.
    pub(crate) fn first_due(&self, slot: u32) -> Option<u8>
        ensures value { result ≡ first_due slot (releases_of self.now) }
    {
        let first = area::first(&self.area, self.count)?;
        (first.slot == slot).then_some(first.poll)
    }

    // Puts a release in the place of the first.
    pub(crate) fn replace_first(&mut self, release: Release)
        requires some { 0 < self.old.count }
        ensures bag { releases_of self.new ≡ insert earlier release (without_first (releases_of self.old)) }
    {
        area::replace_first(&mut self.area, self.count, release);
    }
}
