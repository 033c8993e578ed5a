// The records of a sheet, a line for each.
ghost use Rattle.std.specs.Prelude.{◌≡◌, ◌+◌, ◌^◌, ◌<◌, ◌++◌, IfOk};
ghost use Rattle.sheet.specs.Entries.{seen};
ghost use Rattle.sheet.specs.Held.{held};
ghost use Rattle.sheet.specs.Reading.{read_sheet};
ghost use Rattle.notice.specs.Pages.{owner_of, poll_after, lane_after, heading, entry_lines, record_lines};

use crate::line::{LINE_BYTES, with_entry_line};
use sheet::{Record, Records};
use std::alloc::{AllocError, Global};

// The owner number of lane 0; that of poll 0 is 0.
const FIRST_LANE: u64 = 32;

// An empty line, and what the columns are.
const HEADING: &[u8] =
    b"\nkind  owner  name          phase  period/span  budget/quota  slots in one cycle\n";

// The owner numbers of the next poll and of the next lane.
#[derive(Drop)]
struct Owners {
    next_poll: u64,
    next_lane: u64,
}

impl Owners {
    // The owner number of this record, the next of its kind.
    fn next_for(&mut self, record: Record<'_>) -> u64
        requires another { self.old.next_poll + self.old.next_lane + 1 < 2 ^ 64 }
        ensures owner { result ≡ owner_of (seen «record».entry) self.old.next_poll self.old.next_lane }
        ensures next_poll { self.new.next_poll ≡ poll_after (seen «record».entry) self.old.next_poll }
        ensures next_lane { self.new.next_lane ≡ lane_after (seen «record».entry) self.old.next_lane }
        ensures one_more { self.new.next_poll + self.new.next_lane ≡ self.old.next_poll + self.old.next_lane + 1 }
    {
        match record {
            Record::Poll { .. } => {
                let owner = self.next_poll;
                self.next_poll += 1;
                owner
            }
            Record::Lane { .. } => {
                let owner = self.next_lane;
                self.next_lane += 1;
                owner
            }
        }
    }
}

// The text and the heading of the records.
fn with_heading(mut text: Vec<u8>) -> Result<Vec<u8>, AllocError>
    ensures bytes { IfOk result (λ longer. longer.items ≡ text.items ++ heading) }
{
    text.extend_from_slice(HEADING)?;
    Ok(text)
}

// The text and a line for each record. Polls have the owner numbers from 0 on, lanes those from 32 on.
fn with_entry_lines(
    heap: Global,
    mut text: Vec<u8>,
    records: &Records<'_>,
    cycle: Option<u64>,
) -> Result<Vec<u8>, AllocError>
    ensures bytes { IfOk result (λ longer. longer.items ≡ text.items ++ entry_lines cycle 0 32 (held records.now)) }
{
    let mut owners = Owners {
        next_poll: 0,
        next_lane: FIRST_LANE,
    };
    for record in records.as_slice() {
        let owner = owners.next_for(*record);
        text = with_entry_line(heap, text, *record, owner, cycle)?;
    }
    Ok(text)
}

// The text and the records of a sheet that could be read, under a heading; nothing more for one that could not.
pub(crate) fn with_record_lines(
    heap: Global,
    mut text: Vec<u8>,
    sheet: &[u8],
    cycle: Option<u64>,
) -> Result<Vec<u8>, AllocError>
    ensures bytes { IfOk result (λ longer. longer.items ≡ text.items ++ record_lines cycle (read_sheet sheet.now)) }
{
    let mut records = Records::new();
    if sheet::read_list(sheet, &mut records).is_err() {
        return Ok(text);
    }
    text.reserve_exact(HEADING.len() + LINE_BYTES * records.as_slice().len())?;
    text = with_heading(text)?;
    text = with_entry_lines(heap, text, &records, cycle)?;
    Ok(text)
}
