// Why a sheet cannot be read, layer by layer: a record fault holds a byte fault whole, and the admission's fault
// (in the crate above) holds a record fault whole.
ghost use Rattle.std.specs.Prelude.{◌≡◌, Some};
ghost use Rattle.sheet.specs.declared.fault.RecordFault.TheVariants.{Bytes};
ghost use Rattle.sheet.specs.Faults.{byte_diagnosis, record_diagnosis};
ghost use Rattle.sheet.specs.Grounds.{layer_name, diagnosis_text, byte_ground, record_ground};

use std::error::Error;
use std::fmt;

// Which layer asked the question that was answered with no.
#[derive(Clone, Copy, Debug, PartialEq, Eq)]
pub enum Layer {
    Bytes,
    Record,
    Admission,
}

impl fmt::Display for Layer {
    ghost output = { λ layer. Some (layer_name layer) };

    fn fmt<W: fmt::Write>(&self, f: &mut fmt::Formatter<W>) -> fmt::Result {
        f.write_str(match self {
            Layer::Bytes => "bytes",
            Layer::Record => "record",
            Layer::Admission => "admission",
        })
    }
}

// What a fault is told by: its number, the byte of the sheet that it lies at, and its layer. The rules tell a refusal by a
// number. A case that holds a byte or another fault can have no discriminant, so a record's fault gives its number by case.
#[derive(Clone, Copy, Debug, PartialEq, Eq)]
pub struct Diagnosis {
    pub number: u8,
    pub byte: usize,
    pub layer: Layer,
}

impl fmt::Display for Diagnosis {
    ghost output = { λ told. Some (diagnosis_text told) };

    fn fmt<W: fmt::Write>(&self, f: &mut fmt::Formatter<W>) -> fmt::Result {
        let Diagnosis {
            number,
            byte,
            layer,
        } = self;
        write!(f, "{number} at byte {byte} ({layer})")
    }
}

// A no to a question about the five bytes of the header.
#[derive(Clone, Copy, Debug, PartialEq, Eq)]
pub enum ByteFault {
    // fewer than five bytes, or a length that does not lie from 5 to the bytes given
    Length = 10,
    // another version than 1
    Version = 11,
    // too many polls or lanes, or none of either
    Counts = 12,
}

impl Error for ByteFault {}

// The ground, in words.
impl fmt::Display for ByteFault {
    ghost output = { λ fault. Some (byte_ground fault) };

    fn fmt<W: fmt::Write>(&self, f: &mut fmt::Formatter<W>) -> fmt::Result {
        f.write_str(match self {
            ByteFault::Length =>
                "the sheet has fewer than 5 bytes, or its length is not from 5 to the bytes given",
            ByteFault::Version => "the version is not 1",
            ByteFault::Counts =>
                "there are more than 32 polls or 8 lanes, or there is neither a poll nor a lane",
        })
    }
}

// A no to a question about the records; `at` is the byte that the question is about.
#[derive(Clone, Copy, Debug, PartialEq, Eq)]
pub enum RecordFault {
    Bytes(ByteFault),
    // no letter inside the sheet, or not the one that is due
    Letter { at: usize },
    // no name length inside the sheet, one that is not allowed, or a record that does not end inside
    NameLength { at: usize },
    // a byte that is no small letter and no digit, or a name that an earlier record has
    Name { at: usize },
    // a number outside its limits
    Numbers { at: usize },
    // bytes between the last record and the sheet's length
    Ending { at: usize },
}

impl Error for RecordFault {}

// The ground, in words.
impl fmt::Display for RecordFault {
    ghost output = { λ fault. Some (record_ground fault) };

    fn fmt<W: fmt::Write>(&self, f: &mut fmt::Formatter<W>) -> fmt::Result {
        match self {
            RecordFault::Bytes(fault) => fault.fmt(f),
            RecordFault::Letter { .. } => f.write_str(
                "the letter of a record is missing or not the one due, P for polls and then L for lanes",
            ),
            RecordFault::NameLength { .. } => f.write_str(
                "the length of a name is missing or not from 1 to 12, or the record does not end inside the sheet",
            ),
            RecordFault::Name { .. } => f.write_str(
                "a name has something else than a to z and 0 to 9, or an earlier record has that name",
            ),
            RecordFault::Numbers { .. } => f.write_str(
                "a number of a record is outside its limits",
            ),
            RecordFault::Ending { .. } => f.write_str(
                "the last record does not end at the length of the sheet",
            ),
        }
    }
}

// By hand, since the clause names the case that it makes, and a derived one would not.
impl From<ByteFault> for RecordFault {
    ghost from_gives = { λ fault r. r ≡ Bytes fault };

    fn from(inner: ByteFault) -> RecordFault {
        RecordFault::Bytes(inner)
    }
}

impl ByteFault {
    pub fn diagnosis(self) -> Diagnosis
        ensures told { result ≡ byte_diagnosis self }
    {
        let byte = match self {
            ByteFault::Length => 0,
            ByteFault::Version => 2,
            ByteFault::Counts => 3,
        };
        Diagnosis {
            number: self as u8,
            byte,
            layer: Layer::Bytes,
        }
    }
}

impl RecordFault {
    pub fn diagnosis(self) -> Diagnosis
        ensures told { result ≡ record_diagnosis self }
    {
        let (number, byte) = match self {
            RecordFault::Bytes(fault) => return fault.diagnosis(),
            RecordFault::Letter { at } => (13, at),
            RecordFault::NameLength { at } => (14, at),
            RecordFault::Name { at } => (15, at),
            RecordFault::Numbers { at } => (16, at),
            RecordFault::Ending { at } => (17, at),
        };
        Diagnosis {
            number,
            byte,
            layer: Layer::Record,
        }
    }
}
