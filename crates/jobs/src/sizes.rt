// How much a job needs for every circuit within the limits, with room for so many cubes.
use circuit::{MAX_GATES, MAX_INPUTS};

// Two words a gate.
pub const GATE_WORDS: usize = 2 * MAX_GATES as usize;

// A bit for each row of 16 inputs.
pub const BIT_WORDS: usize = 2048;

// A place for each variable, and place 0.
pub const PLACES: usize = MAX_INPUTS as usize + MAX_GATES as usize + 1;

// The most cubes of a list that a program or the call for C gives.
pub const ENTRIES: usize = 512;
