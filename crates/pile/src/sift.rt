// The two ways through a heap. Both move a hole, a place whose element is held elsewhere, so that each element on the way
// is copied once. Their loops go from a child to its parent, or down, by index: no iterator goes through a slice that way.
ghost use Rattle.std.specs.Prelude.{◌≡◌, ℕ, ◌+◌, ◌<◌, ◌≤◌, length};
ghost use Rattle.pile.specs.Sorted.{sorted};
ghost use Rattle.pile.specs.Heaps.{Heaped, Rising, Hollow};
ghost use Rattle.pile.specs.Sifting.{Lifted, Sunk, LeastChild};

use super::order::Ranked;

// Puts `element` into the hole at `place`, or higher: the hole rises past every parent that comes after it.
pub(crate) fn lift<T: Ranked>(area: &mut [T], place: usize, element: T)
    requires { place < length area.old }
    ensures lifts { Lifted T.Ranked.before area.old place element area.new }
{
    let mut hole = place;
    while hole > 0 {
        let parent = (hole - 1) / 2;
        if !element.is_before(&area[parent]) {
            break;
        }
        area[hole] = area[parent];
        hole = parent;
    }
    area[hole] = element;
}

// Of the two children of `hole`, one that does not come after the other.
fn least_child<T: Ranked>(area: &[T], hole: usize) -> usize
    requires { hole + hole + 2 < length area.now }
    ensures least { LeastChild T.Ranked.before area.now hole result }
{
    let left = 2 * hole + 1;
    let right = left + 1;
    if area[right].is_before(&area[left]) {
        right
    } else {
        left
    }
}

// Puts `element` among the first `count`, of which the first is a hole: the hole sinks to the bottom, and `element` rises
// from there, since what stands in for a first is seldom early.
pub(crate) fn sink<T: Ranked>(area: &mut [T], count: usize, element: T)
    requires some { 0 < count }
    requires within { count ≤ length area.old }
    ensures sinks { Sunk T.Ranked.before area.old count element area.new }
{
    let mut hole = 0;
    while hole < (count - 1) / 2 {
        let child = least_child(area, hole);
        area[hole] = area[child];
        hole = child;
    }
    // the last element may be an only child
    if hole < count / 2 {
        let last = count - 1;
        area[hole] = area[last];
        hole = last;
    }
    lift(area, hole, element);
}
