// The records of a sheet, at most 40, in memory of their own.
ghost use Rattle.std.specs.Prelude.{◌≡◌, ◌≤◌, [], map, length};
ghost use Rattle.std.specs.List.{AllByRecursion, AllByRecursion-prop};
ghost use Rattle.few.specs.Elements.{elements};
ghost use Rattle.sheet.specs.Entries.{seen};
ghost use Rattle.sheet.specs.Limited.{WithinLimits, within_limits_prop};

use super::record::{MOST_RECORDS, NO_RECORD, Record};
use few::Few;

// Every number of every record lies in its limits.
#[derive(Clone, Copy)]
pub struct Records<'a> {
    list: Few<Record<'a>, MOST_RECORDS>,
    ghost within_limits: { AllByRecursion WithinLimits (map seen (elements list)) } by { AllByRecursion-prop WithinLimits within_limits_prop _ },
}

impl<'a> Records<'a> {
    ghost use Rattle.sheet.specs.Held.{records_in, held};

    pub fn new() -> Records<'a>
        ensures empty { held result ≡ [] }
    {
        Records {
            list: Few::new(NO_RECORD),
        }
    }

    // The list, whose records have been found to be within their limits.
    pub(crate) fn limited(list: Few<Record<'a>, MOST_RECORDS>) -> Records<'a>
        requires within_limits { AllByRecursion WithinLimits (map seen (elements list)) }
        ensures value { held result ≡ map seen (elements list.entry) }
    {
        Records { list }
    }

    pub fn as_slice(&self) -> &[Record<'a>]
        ensures value { result.now ≡ records_in self.now }
        ensures few { length result.now ≤ MOST_RECORDS }
    {
        self.list.as_slice()
    }
}
