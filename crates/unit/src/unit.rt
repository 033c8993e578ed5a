// The unit. It holds its queue by value, so that a host may give it one that owns its memory, or lend one.
ghost use Rattle.std.specs.Prelude.{◌≡◌, ◌<◌, ◌≤◌, true, length};
ghost use Rattle.sheet.specs.Limits.{most_lanes};
ghost use Rattle.admission.specs.Contents.{contents};
ghost use Rattle.machine.specs.Limits.{slots_in_all};
ghost use Rattle.unit.specs.Releases.{upto, releases_of, InStep};

use super::recent::Recent;
use super::releases::Releases;
use admission::Table;
use sheet::header::MOST_LANES;

mod grant;
mod open;
mod report;
mod request;

// A unit grants so many slots, numbered from 0.
const SLOTS_IN_ALL: u32 = 100_000_000;

// The present slot is `slot`; it is open from its grant to its report. Of `recents` those of the table's lanes are used.
#[derive(Drop)]
pub struct Unit<Q> {
    queue: Q,
    table: Table,
    number: u8,
    opened: bool,
    slot: u32,
    is_open: bool,
    recents: [Recent; MOST_LANES],
    releases: Releases,
    ghost early: { slot ≤ slots_in_all },
    ghost not_last: { is_open ≡ true → slot < slots_in_all },
    ghost lanes: { length recents ≡ most_lanes },
    ghost in_step: { InStep (releases_of releases) (contents table).polls (upto slot is_open) },
}
