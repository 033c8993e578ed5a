// A short list in memory of its own: at most `N` elements, no heap. The records of a sheet and the polls and lanes of a
// table stand in such lists. It is `Copy` where its elements are, so a table may be copied whole.
#![tactic(auto)]

mod list;

pub use list::Few;
