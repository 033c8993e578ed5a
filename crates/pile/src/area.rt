// A pile as the first `count` elements of an area. These functions serve a pile in memory that a host lends (`Pile`) and
// one in an array that a struct keeps itself.
ghost use Rattle.std.specs.Prelude.{◌≡◌, ℕ, ◌<◌, ◌≤◌, ◌⊎◌, length, take, MatchBool, MatchOption, MatchResult};
ghost use Rattle.pile.specs.Sorted.{first_of};
ghost use Rattle.pile.specs.Piles.{places_of, bag_of, Piled, Put, Dropped, Replaced};

use super::order::Ranked;
use super::refusal::PutRefusal;
use super::sift::{lift, sink};

// A pile has at most so many places.
pub const MOST_PLACES: usize = 65_535;

pub fn places<T>(area: &[T]) -> usize
    ensures value { result ≡ places_of area.now }
{
    area.len().min(MOST_PLACES)
}

// The least of the bag.
#[tactic(auto, using(crate::proofs::Calls::first_is_least))]
pub fn first<T: Ranked>(area: &[T], count: usize) -> Option<T>
    ensures value { result ≡ first_of (take count area.now) }
    ensures least { Piled T.Ranked.before area.now count → result ≡ first_of (bag_of T.Ranked.before area.now count) }
{
    if count == 0 {
        return None;
    }
    area.first().copied()
}

// Puts `element`, and says how many there are then.
pub fn put<T: Ranked>(area: &mut [T], count: usize, element: T) -> Result<usize, PutRefusal>
    ensures puts { MatchResult result (λ grown. Put T.Ranked.before area.old count element area.new grown) (λ _. (places_of area.old ≤ count) × (area.new ≡ area.old)) }
{
    if count >= places(area) {
        return Err(PutRefusal::Full);
    }
    lift(area, count, element);
    Ok(count + 1)
}

// Drops the first, and says how many there are then; nothing where there is no pile of so many.
pub fn drop_first<T: Ranked>(area: &mut [T], count: usize) -> Option<usize>
    ensures drops { MatchOption result (((count ≡ 0) ⊎ (length area.old < count)) × (area.new ≡ area.old)) (λ fallen. Dropped T.Ranked.before area.old count area.new fallen) }
{
    if count == 0 || count > area.len() {
        return None;
    }
    let fallen = count - 1;
    if fallen > 0 {
        let last = area[fallen];
        sink(area, fallen, last);
    }
    Some(fallen)
}

// Puts `element` in the place of the first. One that does not come after the first costs nothing.
pub fn replace_first<T: Ranked>(area: &mut [T], count: usize, element: T) -> bool
    ensures replaces { MatchBool result (Replaced T.Ranked.before area.old count element area.new) (((count ≡ 0) ⊎ (length area.old < count)) × (area.new ≡ area.old)) }
{
    if count == 0 || count > area.len() {
        return false;
    }
    if area[0].is_before(&element) {
        sink(area, count, element);
    } else {
        area[0] = element;
    }
    true
}
