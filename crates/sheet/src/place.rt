// One record of a sheet, from the place at which it begins.
ghost use Rattle.std.specs.Prelude.{◌≡◌, ◌+◌, ◌≤◌, map, length, IfOk, ◌<◌};
ghost use Rattle.sheet.specs.declared.kind.Kind.TheVariants.{Poll as OfPoll, Lane as OfLane};
ghost use Rattle.sheet.specs.Header.{word_at};
ghost use Rattle.sheet.specs.Entries.{seen, names_of, end_of};
ghost use Rattle.sheet.specs.Records.{numbers_size, is_plain_byte, is_plain, is_taken};
ghost use Rattle.sheet.specs.Reading.{name_at, entry_of, entry_at, Gives};

use super::fault::RecordFault;
use super::header::LONGEST_NAME;
use super::kind::Kind;
use super::record::Record;

// The latest phase, and the longest period or span.
const LATEST_PHASE: u16 = 10_000;

const LONGEST_SPAN: u16 = 10_000;

fn is_plain_byte(byte: u8) -> bool
    ensures value { result ≡ is_plain_byte byte }
{
    matches!(char::from(byte), 'a'..='z' | '0'..='9')
}

fn is_plain(name: &[u8]) -> bool
    ensures value { result ≡ is_plain name.now }
{
    name.iter().all(|byte| is_plain_byte(*byte))
}

fn is_taken(name: &[u8], earlier: &[Record<'_>]) -> bool
    ensures value { result ≡ is_taken name.now (names_of (map seen earlier.now)) }
{
    earlier.iter().any(|record| record.name() == name)
}

// The number of two bytes, the high one first.
fn word(sheet: &[u8], first: usize) -> u16
    requires { first + 1 < length sheet.now }
    ensures value { result ≡ word_at sheet.now first }
{
    u16::from_be_bytes([sheet[first], sheet[first + 1]])
}

// The byte `at` of a sheet, at which a record begins.
#[derive(Clone, Copy)]
pub(crate) struct Place<'a> {
    pub(crate) sheet: &'a [u8],
    pub(crate) at: usize,
}

impl<'a> Place<'a> {
    // The name of the record of this kind, once its letter and its name length are as they should be.
    fn name(self, kind: Kind) -> Result<&'a [u8], RecordFault>
        ensures value { Gives (λ name. name.now) result (name_at kind self.entry.sheet.now self.entry.at) }
        ensures fits { IfOk result (λ name. self.entry.at + 2 + length name.now + numbers_size kind ≤ length self.entry.sheet.now) }
    {
        let Place { sheet, at } = self;
        if at >= sheet.len() || !kind.has_letter(sheet[at]) {
            return Err(RecordFault::Letter { at });
        }
        if at + 1 >= sheet.len() {
            return Err(RecordFault::NameLength { at: at + 1 });
        }
        let length = usize::from(sheet[at + 1]);
        if length < 1
            || length > LONGEST_NAME
            || length + kind.numbers_size() > sheet.len() - (at + 2)
        {
            return Err(RecordFault::NameLength { at: at + 1 });
        }
        Ok(&sheet[at + 2..at + 2 + length])
    }

    // The poll of this name, whose numbers begin at `first`.
    fn poll(self, name: &'a [u8], first: usize) -> Result<Record<'a>, RecordFault>
        requires fits { first + numbers_size OfPoll ≤ length self.sheet.now }
        ensures value { Gives seen result (entry_of OfPoll name.now self.entry.sheet.now first self.entry.at) }
        ensures end { IfOk result (λ read. end_of (seen read) ≡ self.entry.at + 2 + length name.now + numbers_size OfPoll) }
    {
        let Place { sheet, at } = self;
        let phase = word(sheet, first);
        let period = word(sheet, first + 2);
        let budget = word(sheet, first + 4);
        if phase > LATEST_PHASE
            || !(1..=LONGEST_SPAN).contains(&period)
            || !(1..=period).contains(&budget)
        {
            return Err(RecordFault::Numbers { at: first });
        }
        Ok(Record::Poll {
            name,
            phase,
            period,
            budget,
            at,
        })
    }

    // The lane of this name, whose numbers begin at `first`.
    fn lane(self, name: &'a [u8], first: usize) -> Result<Record<'a>, RecordFault>
        requires fits { first + numbers_size OfLane ≤ length self.sheet.now }
        ensures value { Gives seen result (entry_of OfLane name.now self.entry.sheet.now first self.entry.at) }
        ensures end { IfOk result (λ read. end_of (seen read) ≡ self.entry.at + 2 + length name.now + numbers_size OfLane) }
    {
        let Place { sheet, at } = self;
        let span = word(sheet, first);
        let quota = word(sheet, first + 2);
        if !(1..=LONGEST_SPAN).contains(&span) || !(1..=span).contains(&quota) {
            return Err(RecordFault::Numbers { at: first });
        }
        Ok(Record::Lane {
            name,
            span,
            quota,
            at,
        })
    }

    // The record of this kind, which comes after the earlier ones.
    pub(crate) fn record(
        self,
        kind: Kind,
        earlier: &[Record<'a>],
    ) -> Result<Record<'a>, RecordFault>
        ensures value { Gives seen result (entry_at kind (map seen earlier.now) self.entry.sheet.now self.entry.at) }
        ensures inside { IfOk result (λ read. end_of (seen read) ≤ length self.entry.sheet.now) }
    {
        let name = self.name(kind)?;
        if !is_plain(name) || is_taken(name, earlier) {
            return Err(RecordFault::Name { at: self.at + 2 });
        }
        let first = self.at + 2 + name.len();
        match kind {
            Kind::Poll => self.poll(name, first),
            Kind::Lane => self.lane(name, first),
        }
    }
}
