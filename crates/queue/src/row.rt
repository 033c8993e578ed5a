// A ready queue as a row of jobs kept in falling order: the first job stands at the end, where it is reached, spent and
// dropped in constant time. Putting finds the place by halving, and moves up only the jobs that run sooner. The area is the
// host's, since a unit has no heap for a `Vec`.
ghost use Rattle.std.specs.Prelude.{◌≡◌, ◌≤◌};
ghost use Rattle.pile.specs.Piles.{places_of};
ghost use Rattle.queue.specs.Falling.{Falling};
ghost use Rattle.queue.specs.Jobs.{sooner};

use super::job::Job;

pub mod calls;
mod insert;

#[derive(Drop)]
pub struct Row<'a> {
    area: &'a mut [Job],
    count: usize,
    ghost within: { count ≤ places_of area.now },
    ghost falling: { Falling sooner area.now count },
}
