// Runs a list of calls on a unit. Its answers are those of the plain machine, whatever the calls, and over every ready queue.
#![tactic(auto)]

pub mod history;

pub use history::run;
