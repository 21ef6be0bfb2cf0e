// The search decider, for circuits of up to 30 inputs.
// Takes a circuit and a value table, and gives a decider that searches the rows of each question's cube anew.
// Promises a row that fits the question, or nothing where none does; its set is the circuit's solutions.
#![tactic(auto)]

mod barring;
mod branch;
mod choice;
mod descent;
mod making;
mod signals;
#[cfg(test)]
mod tests;
mod verdict;

pub use making::{Made, Search};
