// The row as a ready queue.
ghost use Rattle.std.specs.Prelude.{◌≡◌, []};
ghost use Rattle.pile.specs.Piles.{places_of};
ghost use Rattle.queue.specs.OfRow.{row_bag, row_places, row_sound};

use super::super::job::Job;
use super::super::ready::ReadyQueue;
use super::Row;
use super::insert::insert;
use pile::{PutRefusal, area};

impl<'a> Row<'a> {
    // An empty queue over the area, which is left as it was. Its places are the area's, or 65,535 of a longer one. Clauses name
    // the area before and after the call, so that its lender learns what becomes of it.
    #[tactic(auto, unfolding(pile::specs::Sorted::sorted))]
    pub fn new(area: &'a mut [Job]) -> Row<'a>
        ensures bag { row_bag result ≡ [] }
        ensures places { row_places result ≡ places_of area.old }
        ensures same { result.area.now ≡ area.old }
        ensures lender { result.area.ghost_name ≡ area.entry.ghost_name }
    {
        Row { area, count: 0 }
    }
}

impl<'a> ReadyQueue for Row<'a> {
    ghost bag = { row_bag };

    ghost places = { row_places };

    ghost whose = { λ row. row.area.ghost_name };

    ghost sound = { row_sound };

    fn places(&self) -> usize {
        area::places(self.area)
    }

    #[tactic(auto, using(crate::proofs::RowCalls::count_is))]
    fn count(&self) -> usize {
        self.count
    }

    #[tactic(auto, using(crate::proofs::RowCalls::first_is))]
    fn first(&self) -> Option<Job> {
        self.area[..self.count].last().copied()
    }

    // in line, so that no call is made where there is no place
    #[inline]
    #[tactic(auto, using(crate::specs::OfRow::row_count))]
    fn put(&mut self, job: Job) -> Result<(), PutRefusal> {
        // named by the type, since `self` is lent here and a lent queue is a queue too (lent.rt)
        if self.count >= Row::places(self) {
            return Err(PutRefusal::Full);
        }
        insert(self.area, self.count, job);
        self.count += 1;
        Ok(())
    }

    #[tactic(auto, using(crate::proofs::RowCalls::row_spends))]
    fn spend(&mut self) -> bool {
        let Some(last) = self.count.checked_sub(1) else {
            return false;
        };
        let is_last_slot = self.area[last].left <= 1;
        if is_last_slot {
            self.count = last;
        } else {
            self.area[last].left -= 1;
        }
        true
    }

    #[tactic(auto, using(crate::proofs::RowCalls::row_drops))]
    fn drop_first(&mut self) -> bool {
        let Some(fallen) = self.count.checked_sub(1) else {
            return false;
        };
        self.count = fallen;
        true
    }
}
