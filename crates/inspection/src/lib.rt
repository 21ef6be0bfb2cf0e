// A first look at a file's circuit.
// Takes a file and lent memory, gives the circuit's numbers, how many solutions it has and the smallest of them.
// Promises each of these, or the first refusal with its stage, and the memory afterwards, for every file.
#![tactic(auto)]

mod looking;
mod summary;

pub use looking::inspect;
pub use summary::{Summary, row_text};
