// A record of a sheet. A poll is a periodic job: a board, a clock or a screen that is read again and again. A lane is a
// section's share of the processor for its own requests.
ghost use Rattle.std.specs.Prelude.{◌≡◌};
ghost use Rattle.sheet.specs.Entries.{seen, kind_of, name_of, place_of};

use super::header::{MOST_LANES, MOST_POLLS};
use super::kind::Kind;

// A sheet holds at most so many records: 32 polls and 8 lanes.
pub const MOST_RECORDS: usize = MOST_POLLS + MOST_LANES;

// A record, with its name as a part of the sheet and `at`, the byte at which it begins. All times are in slots.
#[derive(Clone, Copy, Debug, PartialEq, Eq)]
pub enum Record<'a> {
    Poll {
        name: &'a [u8],
        phase: u16,
        period: u16,
        budget: u16,
        at: usize,
    },
    Lane {
        name: &'a [u8],
        span: u16,
        quota: u16,
        at: usize,
    },
}

// Fills the places that no record of a sheet has taken.
pub const NO_RECORD: Record<'static> = Record::Lane {
    name: &[],
    span: 1,
    quota: 1,
    at: 0,
};

impl<'a> Record<'a> {
    pub fn kind(self) -> Kind
        ensures value { result ≡ kind_of (seen self.entry) }
    {
        match self {
            Record::Poll { .. } => Kind::Poll,
            Record::Lane { .. } => Kind::Lane,
        }
    }

    pub fn name(self) -> &'a [u8]
        ensures value { result.now ≡ name_of (seen self.entry) }
    {
        match self {
            Record::Poll { name, .. } | Record::Lane { name, .. } => name,
        }
    }

    // The byte at which it begins.
    pub fn at(self) -> usize
        ensures value { result ≡ place_of (seen self.entry) }
    {
        match self {
            Record::Poll { at, .. } | Record::Lane { at, .. } => at,
        }
    }
}
