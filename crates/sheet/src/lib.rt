// The hall sheet: from the bytes that an arbiter's machine sends to the records that they hold, or to the
// fault of the first question that is answered with no. docs/RULES.md has the format byte by byte.
#![tactic(auto)]

pub mod fault;
pub mod header;
pub mod kind;
mod place;
pub mod reader;
pub mod record;
pub mod records;

pub use fault::{ByteFault, Diagnosis, Layer, RecordFault};
pub use kind::Kind;
pub use reader::{read, read_list};
pub use record::{MOST_RECORDS, NO_RECORD, Record};
pub use records::Records;
