// Puts a job at its place in a row.
ghost use Rattle.std.specs.Prelude.{◌≡◌, ◌<◌, length};
ghost use Rattle.queue.specs.Falling.{Inserted};
ghost use Rattle.queue.specs.Jobs.{sooner};

use super::super::job::Job;
use pile::Ranked;

// Puts `job` behind those of the first `count` that do not run sooner; the jobs that do move up by one.
pub(super) fn insert(area: &mut [Job], count: usize, job: Job)
    requires { count < length area.old }
    ensures inserts { Inserted sooner area.old count job area.new }
    ensures length { length area.new ≡ length area.old }
{
    let place = area[..count].partition_point(|other| !other.is_before(&job));
    area.copy_within(place..count, place + 1);
    area[place] = job;
}
