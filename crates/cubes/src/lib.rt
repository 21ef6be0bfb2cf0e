// Cubes of rows, the register's entries, and what a decider of rows promises.
// Takes cubes and entries of any content, gives tests of a row against them and of a cube against entries.
// Promises each answer by the rows that are held, for every number of inputs.
#![tactic(auto)]

mod cube;
mod decider;
mod entry;
mod list;

pub use cube::{Cube, MAX_INPUTS, Row};
pub use decider::{Decider, Question};
pub use entry::Entry;
pub use list::{held, meets, touches};
