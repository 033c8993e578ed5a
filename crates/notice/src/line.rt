// The line of a record, in columns.
ghost use Rattle.std.specs.Prelude.{◌≡◌, ◌++◌, IfOk, Some};
ghost use Rattle.sheet.specs.Entries.{seen};
ghost use Rattle.admission.specs.Verdict.{slots_of};
ghost use Rattle.notice.specs.Columns.{at_left, at_right};
ghost use Rattle.notice.specs.Pages.{phase_text, slots_text, entry_line};

use admission::{length_of, share_of};
use sheet::Record;
use sheet::header::LONGEST_NAME;
use std::alloc::{AllocError, Global};
use std::fmt;

// The bytes of a line, where no number is longer than its column.
pub(crate) const LINE_BYTES: usize = 80;

// The text and a name, filled up with spaces to the 12 bytes of the longest.
fn with_name(mut text: Vec<u8>, name: &[u8]) -> Result<Vec<u8>, AllocError>
    ensures bytes { IfOk result (λ longer. longer.items ≡ text.items ++ at_left 12 name.now) }
{
    let end = text.len() + name.len().max(LONGEST_NAME);
    text.extend_from_slice(name)?;
    text.resize(end, b' ')?;
    Ok(text)
}

// The phase of a record; a lane has none.
#[derive(Drop)]
struct PhaseColumn<'a>(Record<'a>);

#[tactic(auto, using(crate::proofs::Widths::widths))]
impl fmt::Display for PhaseColumn<'_> {
    ghost output = { λ column. Some (at_right 7 (phase_text (seen column.0))) };

    fn fmt<W: fmt::Write>(&self, f: &mut fmt::Formatter<W>) -> fmt::Result {
        match self.0 {
            Record::Poll { phase, .. } => write!(f, "{phase:>7}"),
            Record::Lane { .. } => write!(f, "{:>7}", "-"),
        }
    }
}

// The slots of a cycle that a record takes. It needs no limit of the record or of the cycle: the product fits its type,
// and a length of 0 fits no times into a cycle.
fn slots_of(record: Record<'_>, cycle: u64) -> u128
    ensures value { result ≡ slots_of cycle (seen «record».entry) }
{
    let times = cycle.checked_div(length_of(record)).unwrap_or(0);
    u128::from(share_of(record)) * u128::from(times)
}

// The slots that a record takes of a cycle, where the cycle is known.
#[derive(Drop)]
struct SlotsColumn<'a> {
    record: Record<'a>,
    cycle: Option<u64>,
}

#[tactic(auto, using(crate::proofs::Widths::widths))]
impl fmt::Display for SlotsColumn<'_> {
    ghost output = { λ column. Some (at_right 20 (slots_text column.cycle (seen column.«record»))) };

    fn fmt<W: fmt::Write>(&self, f: &mut fmt::Formatter<W>) -> fmt::Result {
        match self.cycle {
            Some(cycle) => {
                let slots = slots_of(self.record, cycle);
                write!(f, "{slots:>20}")
            }
            None => write!(f, "{:>20}", "-"),
        }
    }
}

// The text and the line of one record more. The name is bytes; what stands before and behind it is text.
pub(crate) fn with_entry_line(
    heap: Global,
    mut text: Vec<u8>,
    record: Record<'_>,
    owner: u64,
    cycle: Option<u64>,
) -> Result<Vec<u8>, AllocError>
    ensures bytes { IfOk result (λ longer. longer.items ≡ text.items ++ entry_line cycle owner (seen «record».entry)) }
{
    let kind = record.kind();
    let front = format!(in heap; "{kind}{owner:>7}  ")?;
    text.extend_from_slice(front.as_bytes())?;
    text = with_name(text, record.name())?;
    let phase = PhaseColumn(record);
    let length = length_of(record);
    let share = share_of(record);
    let slots = SlotsColumn { record, cycle };
    let numbers = format!(in heap; "{phase}{length:>13}{share:>14}{slots}\n")?;
    text.extend_from_slice(numbers.as_bytes())?;
    Ok(text)
}
