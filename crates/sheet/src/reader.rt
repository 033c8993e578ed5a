// Reads a sheet: its header, and then one record after another. The first question that is answered with no ends it.
ghost use Rattle.std.specs.Prelude.{◌≡◌, ◌+◌, ◌^◌, ◌<◌, ◌≤◌, [], map, length, drop, Ok, OnErr, MatchResult};
ghost use Rattle.few.specs.Elements.{elements};
ghost use Rattle.sheet.specs.Entries.{seen, end_of};
ghost use Rattle.sheet.specs.Held.{held};
ghost use Rattle.sheet.specs.Laws.{SheetLaws};
ghost use Rattle.sheet.specs.Reading.{after_header, read_sheet, Gives, GivesEntries};

use super::fault::RecordFault;
use super::header::{HEADER_BYTES, Header, read_header};
use super::kind::Kind;
use super::place::Place;
use super::record::{MOST_RECORDS, NO_RECORD, Record};
use super::records::Records;
use few::Few;

impl Record<'_> {
    // The first byte past it.
    fn end(self) -> usize
        requires { end_of (seen self) < 2 ^ 64 }
        ensures value { result ≡ end_of (seen self.entry) }
    {
        self.at() + 2 + self.name().len() + self.kind().numbers_size()
    }
}

// Reads the records that the header counts into an empty list. They end where the sheet does.
fn read_records<'a>(
    bytes: &'a [u8],
    header: Header,
    list: &mut Few<Record<'a>, MOST_RECORDS>,
) -> Result<(), RecordFault>
    requires inside { header.length ≤ length bytes.now }
    requires few { header.polls + header.lanes ≤ MOST_RECORDS }
    requires empty { elements list.old ≡ [] }
    ensures value { Gives (λ _. map seen (elements list.new)) result (after_header (Ok header) bytes.now) }
{
    let end = header.length;
    let sheet = &bytes[..end];
    let mut at = HEADER_BYTES;
    // by number, since the number of a record decides its kind
    for i in 0..header.polls + header.lanes {
        let kind = Kind::due(header.polls, i);
        let record = Place { sheet, at }.record(kind, list.as_slice())?;
        let placed = list.push(record).is_ok();
        prove!(placed);
        at = record.end();
    }
    if at != sheet.len() {
        return Err(RecordFault::Ending { at });
    }
    Ok(())
}

// Reads the sheet at the front of `bytes` into the lent area, and says how many records it holds. Only a sheet that
// passes every question writes there, and no further than its records reach.
#[tactic(auto, using(crate::proofs::Lawful::sheet_laws))]
pub fn read<'a>(
    bytes: &'a [u8],
    records: &mut [Record<'a>; MOST_RECORDS],
) -> Result<usize, RecordFault>
    ensures value { GivesEntries result records.new (read_sheet bytes.now) }
    ensures stays { MatchResult result (λ count. drop count records.new ≡ drop count records.old) (λ _. records.new ≡ records.old) }
    ensures laws { SheetLaws bytes.now }
{
    let header = read_header(bytes)?;
    let mut found = Few::new(NO_RECORD);
    read_records(bytes, header, &mut found)?;
    let count = found.len();
    records[0..count].copy_from_slice(found.as_slice());
    Ok(count)
}

// Reads the sheet at the front of `bytes` into the lent list. A refusal leaves the list as it was.
#[tactic(auto, using(crate::proofs::Lawful::sheet_laws))]
pub fn read_list<'a>(bytes: &'a [u8], records: &mut Records<'a>) -> Result<(), RecordFault>
    ensures value { Gives (λ _. held records.new) result (read_sheet bytes.now) }
    ensures stays { OnErr result (records.new ≡ records.old) }
    ensures laws { SheetLaws bytes.now }
{
    let header = read_header(bytes)?;
    let mut list = Few::new(NO_RECORD);
    read_records(bytes, header, &mut list)?;
    *records = Records::limited(list);
    Ok(())
}
