// The admission of a sheet: its cycle and its load are added up exactly, and a sheet whose load fits its cycle fills a
// table, from which the unit works.
#![tactic(auto)]

pub mod fault;
pub mod measure;
pub mod table;
pub mod verdict;

pub use fault::AdmissionFault;
pub use measure::common_measure;
pub use table::{Lane, Poll, Table};
pub use verdict::{Verdict, admit, length_of, share_of};
