// Circuits of one output and what they evaluate to.
// Takes the numbers of a reading and its gate table, gives a circuit within the limits, its values of every kind and its solutions.
// Promises the value of the output and of every place of the value table, and that it allows the circuit's value on each row that the inputs allow.
#![tactic(auto)]

mod assignment;
mod bit;
mod counting;
mod evaluator;
mod netlist;
mod patterns;
mod reading;
mod row;
mod solving;
mod ternary;
mod value;
mod word;
mod wordwise;

pub use assignment::{Assignment, evaluate_on};
pub use bit::Bit;
pub use counting::count_solutions;
pub use evaluator::evaluate;
pub use netlist::Circuit;
pub use patterns::{LANE_PLACES, pattern, used_lanes};
pub use reading::{MAX_GATES, MAX_INPUTS, MAX_TABLE_INPUTS, Reading};
pub use row::bit_at;
pub use solving::solution;
pub use ternary::Ternary;
pub use value::Value;
pub use word::Word;
pub use wordwise::solve_word;
