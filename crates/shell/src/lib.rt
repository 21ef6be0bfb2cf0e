// What the programs share: a file from standard input, an answer to standard output.
// Takes the runtime and, for a list, its mode; gives success or why the program fails.
// Promises which text or refusal comes of a file, and that a refusal is a failure; no contract speaks of what is read and printed.
#![tactic(auto)]

mod failure;
mod input;
mod job;
mod memory;
mod program;

pub use failure::{Failure, explain, refuse, status};
pub use input::read_file;
pub use memory::Memory;
pub use program::run;
