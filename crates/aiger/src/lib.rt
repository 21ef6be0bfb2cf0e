// A circuit from the bytes of an ASCII AIGER file.
// Takes the file's bytes and a gate table, gives the circuit's numbers and two words a gate, or the first fault.
// Promises that a file is accepted exactly when it is a written circuit within the limits, and what the table holds after;
// and that a rule and a line are told exactly of a file that breaks this rule there and is right before.
#![tactic(auto)]

mod counts;
mod file;
mod gates;
mod header;
mod literals;
mod reader;
mod states;
mod symbols;

pub use reader::read;
