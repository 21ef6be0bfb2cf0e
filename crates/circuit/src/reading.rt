// The most inputs that a circuit may have: as many as a cube can fix.
pub const MAX_INPUTS: u32 = cubes::MAX_INPUTS;

// The most gates.
pub const MAX_GATES: u32 = 4096;

// The most inputs of a circuit whose rows are all gone through, as in a table.
pub const MAX_TABLE_INPUTS: u32 = 16;

// The numbers of a circuit that was read: how many inputs, how many gates, and the output's literal.
#[derive(Clone, Copy)]
pub struct Reading {
    pub inputs: u32,
    pub gates: u32,
    pub output: u32,
}
