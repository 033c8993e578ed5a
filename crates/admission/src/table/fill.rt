// Fills a table with the records of a sheet that is admitted.
ghost use Rattle.std.specs.Prelude.{◌≡◌};
ghost use Rattle.sheet.specs.Held.{held};
ghost use Rattle.admission.specs.Contents.{contents, Admissible};
ghost use Rattle.admission.specs.Verdict.{filled};

use super::{Lane, NO_LANE, NO_POLL, Poll, Table};
use few::Few;
use sheet::{Record, Records};

impl Table {
    // The table that holds these records, with their load and their cycle. It has a place for each.
    pub(crate) fn holding(records: &Records<'_>, load: u64, cycle: u64) -> Table
        requires admissible { Admissible (filled (held records.now) (load, cycle)) }
        ensures value { contents result ≡ filled (held records.now) (load, cycle) }
    {
        let mut polls = Few::new(NO_POLL);
        let mut lanes = Few::new(NO_LANE);
        for record in records.as_slice() {
            let placed = match *record {
                Record::Poll {
                    phase,
                    period,
                    budget,
                    ..
                } => polls
                    .push(Poll {
                        phase,
                        period,
                        budget,
                    })
                    .is_ok(),
                Record::Lane { span, quota, .. } => lanes.push(Lane { span, quota }).is_ok(),
            };
            prove!(placed);
        }
        Table {
            polls,
            lanes,
            load,
            cycle,
        }
    }
}
