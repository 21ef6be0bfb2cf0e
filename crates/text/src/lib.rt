// The bytes of a file: their classes, numbers, lines of numbers, the line of a place, and the run of a machine.
// Takes the file's bytes and a place, gives what stands there and the place after it.
// Promises the value or the text fault and its place, by one definition for each, for every list of bytes.
#![tactic(auto)]

mod classes;
mod line_machine;
mod lines;
mod machine;
mod numbers;
mod places;

pub use classes::{Class, class_of};
pub use lines::{header_line, number_line, triple_line};
pub use machine::{Machine, run};
pub use numbers::number;
pub use places::line_of;
