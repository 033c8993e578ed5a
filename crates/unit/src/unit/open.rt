// How a unit begins.
ghost use Rattle.std.specs.Prelude.{◌≡◌, IfOk};
ghost use Rattle.std.specs.Option.{option_map_or};
ghost use Rattle.admission.specs.Contents.{contents};
ghost use Rattle.machine.specs.Machine.{unopened, opening, open_refusal, set_up};
ghost use Rattle.machine.specs.Promises.{EveryHistoryKeeps};
ghost use Rattle.unit.specs.Meaning.{meaning};

use super::super::recent::{MOST_AHEAD, Recent};
use super::super::releases::Releases;
use super::Unit;
use admission::Table;
use machine::Refusal;
use queue::ReadyQueue;
use sheet::header::MOST_LANES;

impl<Q: ReadyQueue> Unit<Q> {
    // A unit around a queue, unopened: it has no polls and no lanes, and no slot is open.
    pub fn new(queue: Q) -> Unit<Q>
        ensures meaning { meaning Q.bag Q.places result ≡ unopened (Q.bag queue) (Q.places queue) }
        ensures whose { Q.whose result.queue ≡ Q.whose queue }
    {
        Unit {
            queue,
            table: Table::new(),
            number: 0,
            opened: false,
            slot: 0,
            is_open: false,
            recents: [Recent::new(); MOST_LANES],
            releases: Releases::new(),
        }
    }

    // Opens the unit with a table, of which it keeps a copy, and a number. From here on every history of calls keeps the
    // promises, whatever the calls.
    pub fn open(&mut self, table: &Table, unit: u8) -> Result<(), Refusal>
        ensures meaning { meaning Q.bag Q.places self.new ≡ opening (meaning Q.bag Q.places self.old) (contents table.now) unit }
        ensures answer { result ≡ option_map_or Err (open_refusal (meaning Q.bag Q.places self.old) (contents table.now)) (Ok tt) }
        ensures promises { IfOk result (λ _. EveryHistoryKeeps (set_up (Q.places self.old.queue) (contents table.now) unit)) }
        ensures whose { Q.whose self.new.queue ≡ Q.whose self.old.queue }
    {
        let polls = table.poll_count();
        let lanes = table.lane_count();
        if polls == 0 && lanes == 0 {
            return Err(Refusal::EmptyTable);
        }
        if self.queue.count() > 0 {
            return Err(Refusal::QueueInUse);
        }
        if self.queue.places() < polls + MOST_AHEAD * lanes {
            return Err(Refusal::TooFewPlaces);
        }
        if self.opened {
            return Err(Refusal::OpenedBefore);
        }
        self.table = *table;
        self.number = unit;
        self.opened = true;
        self.slot = 0;
        self.is_open = false;
        self.recents = [Recent::new(); MOST_LANES];
        self.releases = Releases::of(table);
        Ok(())
    }
}
