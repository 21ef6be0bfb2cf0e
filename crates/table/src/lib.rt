// The table decider: a bit for each row, for up to 16 inputs.
// Takes a circuit and lent memory, gives a decider of the circuit's solutions.
// Promises every word of the table, and to each question a row that fits or, where none does, nothing.
#![tactic(auto)]

mod decider;
mod lanes;
mod making;
mod question;

pub use decider::Table;
pub use making::tabulate;
