// Adds up what a sheet asks for and decides whether it fits.
ghost use Rattle.std.specs.Prelude.{◌≡◌, OnErr};
ghost use Rattle.sheet.specs.Entries.{seen};
ghost use Rattle.sheet.specs.Held.{held};
ghost use Rattle.sheet.specs.Reading.{Gives};
ghost use Rattle.admission.specs.Contents.{contents};
ghost use Rattle.admission.specs.Laws.{AdmissionLaws};
ghost use Rattle.admission.specs.Verdict.{length_of, share_of, cycle_from, load_in, admit_sheet, fill_table};

use super::fault::AdmissionFault;
use super::measure::{Cycle, common_multiple};
use super::table::Table;
use sheet::{Record, Records};

// Load and cycle, or why a sheet is not admitted.
pub type Verdict = Result<(u64, u64), AdmissionFault>;

// The longest cycle that is admitted.
const LONGEST_CYCLE: u64 = 1_000_000_000;

// A poll's period, a lane's span.
pub fn length_of(record: Record<'_>) -> u64
    ensures value { result ≡ length_of (seen «record».entry) }
{
    match record {
        Record::Poll { period, .. } => u64::from(period),
        Record::Lane { span, .. } => u64::from(span),
    }
}

// A poll's budget, a lane's quota.
pub fn share_of(record: Record<'_>) -> u64
    ensures value { result ≡ share_of (seen «record».entry) }
{
    match record {
        Record::Poll { budget, .. } => u64::from(budget),
        Record::Lane { quota, .. } => u64::from(quota),
    }
}

// The least common multiple of all periods and spans. A loop, since as a `try_fold` each step would need a clause that bounds
// it.
fn cycle_of(records: &Records<'_>) -> Result<Cycle, AdmissionFault>
    ensures value { Gives (λ cycle. cycle.slots) result (cycle_from 1 (held records.now)) }
{
    let mut slots = 1;
    for record in records.as_slice() {
        let grown = common_multiple(Cycle { slots }, length_of(*record));
        if grown > LONGEST_CYCLE {
            return Err(AdmissionFault::Cycle { at: record.at() });
        }
        slots = grown;
    }
    Ok(Cycle { slots })
}

// The slots that all polls and lanes take of a cycle. A loop, since a `sum` would need a clause that bounds it.
fn load_of(records: &Records<'_>, cycle: Cycle) -> u64
    ensures value { result ≡ load_in cycle.slots (held records.now) }
{
    let mut load = 0;
    for record in records.as_slice() {
        load += share_of(*record) * (cycle.slots / length_of(*record));
    }
    load
}

// Reads a sheet, adds up its load and its cycle, and answers both as a pair, which is how a verdict is told; a sheet that is
// admitted fills the table, and a refusal leaves it as it was.
#[tactic(auto, using(crate::proofs::Verdicts::admission_laws))]
pub fn admit(bytes: &[u8], table: &mut Table) -> Verdict
    ensures answer { result ≡ admit_sheet bytes.now }
    ensures fills { contents table.new ≡ fill_table bytes.now (contents table.old) }
    ensures stays { OnErr result (table.new ≡ table.old) }
    ensures laws { AdmissionLaws bytes.now }
{
    let mut records = Records::new();
    sheet::read_list(bytes, &mut records)?;
    let found = cycle_of(&records)?;
    let load = load_of(&records, found);
    let cycle = found.slots;
    if load > cycle {
        return Err(AdmissionFault::Load { load, cycle });
    }
    *table = Table::holding(&records, load, cycle);
    Ok((load, cycle))
}
