// The ordered pile over memory that a host lends, since a unit has no heap for a `Vec`. It holds no more than the area and
// the count, and hands the area to the functions of `area`. Every pile holds its bag: `piled`. That a call keeps the lender
// is a clause of each: it ties what was before a call to what is after, which no field can.
ghost use Rattle.std.specs.Prelude.{◌≡◌, ◌≤◌, take, IsTrue, MatchBool, MatchResult};
ghost use Rattle.pile.specs.Sorted.{insert, first_of, without_first};
ghost use Rattle.pile.specs.Piles.{places_of, bag_of, Piled, Put, Dropped, Replaced};

use super::area;
use super::order::Ranked;
use super::refusal::PutRefusal;

#[derive(Drop)]
pub struct Pile<'a, T: Ranked> {
    area: &'a mut [T],
    count: usize,
    pub ghost piled: { Piled T.Ranked.before area.now count },
}

impl<'a, T: Ranked> Pile<'a, T> {
    // An empty pile over the area, which is left as it was.
    pub fn new(area: &'a mut [T]) -> Pile<'a, T>
        ensures empty { result.count ≡ 0 }
        ensures same { result.area.now ≡ area.old }
        ensures lender { result.area.ghost_name ≡ area.entry.ghost_name }
    {
        Pile { area, count: 0 }
    }

    pub fn places(&self) -> usize
        ensures value { result ≡ places_of self.now.area.now }
    {
        area::places(self.area)
    }

    pub fn count(&self) -> usize
        ensures value { result ≡ self.now.count }
    {
        self.count
    }

    // The least of the bag; none exactly if the bag is empty.
    pub fn first(&self) -> Option<T>
        ensures value { result ≡ first_of (take self.now.count self.now.area.now) }
        ensures least { result ≡ first_of (bag_of T.Ranked.before self.now.area.now self.now.count) }
    {
        area::first(self.area, self.count)
    }

    // Adds an element; refused exactly if no place is free.
    pub fn put(&mut self, element: T) -> Result<(), PutRefusal>
        ensures puts { MatchResult result (λ _. Put T.Ranked.before self.old.area.now self.old.count element self.new.area.now self.new.count) (λ _. (places_of self.old.area.now ≤ self.old.count) × (self.new ≡ self.old)) }
        ensures lender { self.new.area.ghost_name ≡ self.old.area.ghost_name }
    {
        self.count = area::put(self.area, self.count, element)?;
        Ok(())
    }

    // Removes the first; false, and nothing done, where there is none.
    pub fn drop_first(&mut self) -> bool
        ensures bag { bag_of T.Ranked.before self.new.area.now self.new.count ≡ without_first (bag_of T.Ranked.before self.old.area.now self.old.count) }
        ensures drops { MatchBool result (Dropped T.Ranked.before self.old.area.now self.old.count self.new.area.now self.new.count) ((self.old.count ≡ 0) × (self.new ≡ self.old)) }
        ensures lender { self.new.area.ghost_name ≡ self.old.area.ghost_name }
    {
        let Some(fallen) = area::drop_first(self.area, self.count) else {
            return false;
        };
        self.count = fallen;
        true
    }

    // Puts an element in the place of the first; false, and nothing done, where there is none.
    pub fn replace_first(&mut self, element: T) -> bool
        ensures bag { IsTrue result → bag_of T.Ranked.before self.new.area.now self.new.count ≡ insert T.Ranked.before element (without_first (bag_of T.Ranked.before self.old.area.now self.old.count)) }
        ensures replaces { MatchBool result (Replaced T.Ranked.before self.old.area.now self.old.count element self.new.area.now) ((self.old.count ≡ 0) × (self.new ≡ self.old)) }
        ensures count { self.new.count ≡ self.old.count }
        ensures lender { self.new.area.ghost_name ≡ self.old.area.ghost_name }
    {
        area::replace_first(self.area, self.count, element)
    }
}
