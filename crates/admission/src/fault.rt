// Why a sheet is not admitted. The fault of a sheet that cannot be read is held whole.
ghost use Rattle.std.specs.Prelude.{◌≡◌, Some};
ghost use Rattle.admission.specs.declared.fault.AdmissionFault.TheVariants.{Record};
ghost use Rattle.admission.specs.Faults.{admission_diagnosis};
ghost use Rattle.admission.specs.Grounds.{ground_of};

use sheet::{Diagnosis, Layer, RecordFault};
use std::error::Error;
use std::fmt;

#[derive(Clone, Copy, Debug, PartialEq, Eq)]
pub enum AdmissionFault {
    Record(RecordFault),
    // the cycle grows past its limit at the record that begins at byte `at`
    Cycle { at: usize },
    // the load is larger than the cycle
    Load { load: u64, cycle: u64 },
}

impl Error for AdmissionFault {}

// The ground of the refusal.
impl fmt::Display for AdmissionFault {
    ghost output = { λ fault. Some (ground_of fault) };

    fn fmt<W: fmt::Write>(&self, f: &mut fmt::Formatter<W>) -> fmt::Result {
        match self {
            AdmissionFault::Record(fault) => fault.fmt(f),
            AdmissionFault::Cycle { .. } => f.write_str(
                "from this record on the cycle, which all periods and spans divide, is longer than 1000000000 slots",
            ),
            AdmissionFault::Load { .. } => f.write_str(
                "the polls and lanes take more slots of a cycle than it has",
            ),
        }
    }
}

// By hand, since the clause names the case that it makes, and a derived one would not.
impl From<RecordFault> for AdmissionFault {
    ghost from_gives = { λ fault r. r ≡ Record fault };

    fn from(inner: RecordFault) -> AdmissionFault {
        AdmissionFault::Record(inner)
    }
}

impl AdmissionFault {
    pub fn diagnosis(self) -> Diagnosis
        ensures told { result ≡ admission_diagnosis self }
    {
        let (number, byte) = match self {
            AdmissionFault::Record(fault) => return fault.diagnosis(),
            AdmissionFault::Cycle { at } => (18, at),
            AdmissionFault::Load { .. } => (19, 0),
        };
        Diagnosis {
            number,
            byte,
            layer: Layer::Admission,
        }
    }
}
