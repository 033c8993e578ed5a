// The heap as a ready queue.
ghost use Rattle.std.specs.Prelude.{◌≡◌, []};
ghost use Rattle.pile.specs.Piles.{places_of};
ghost use Rattle.queue.specs.OfHeap.{heap_bag, heap_places, heap_sound};

use super::super::job::Job;
use super::super::ready::ReadyQueue;
use super::Heap;
use pile::{Pile, PutRefusal};

impl<'a> Heap<'a> {
    // An empty queue over the area, which is left as it was. Its places are the area's, or 65,535 of a longer one. Clauses name
    // the area before and after the call, so that its lender learns what becomes of it.
    #[tactic(auto, using(pile::proofs::Inserting::sorted_none))]
    pub fn new(area: &'a mut [Job]) -> Heap<'a>
        ensures bag { heap_bag result ≡ [] }
        ensures places { heap_places result ≡ places_of area.old }
        ensures same { result.pile.area.now ≡ area.old }
        ensures lender { result.pile.area.ghost_name ≡ area.entry.ghost_name }
    {
        Heap {
            pile: Pile::new(area),
        }
    }
}

impl<'a> ReadyQueue for Heap<'a> {
    ghost bag = { heap_bag };

    ghost places = { heap_places };

    ghost whose = { λ heap. heap.pile.area.ghost_name };

    ghost sound = { heap_sound };

    fn places(&self) -> usize {
        self.pile.places()
    }

    #[tactic(auto, using(crate::proofs::Heaps::count_is))]
    fn count(&self) -> usize {
        self.pile.count()
    }

    fn first(&self) -> Option<Job> {
        self.pile.first()
    }

    #[tactic(auto, using(crate::proofs::Heaps::heap_puts, crate::proofs::Heaps::put_places))]
    fn put(&mut self, job: Job) -> Result<(), PutRefusal> {
        self.pile.put(job)
    }

    #[tactic(auto, using(crate::proofs::Heaps::heap_spends))]
    fn spend(&mut self) -> bool {
        let Some(mut job) = self.pile.first() else {
            return false;
        };
        let is_last_slot = job.left <= 1;
        if is_last_slot {
            return self.pile.drop_first();
        }
        job.left -= 1;
        self.pile.replace_first(job)
    }

    #[tactic(auto, using(crate::proofs::Heaps::heap_drops))]
    fn drop_first(&mut self) -> bool {
        self.pile.drop_first()
    }
}
