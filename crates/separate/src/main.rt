// Prints the list of a circuit's solutions as separate cubes: no row lies in two of them.
#![tactic(auto)]

use shell::{run, status};
use std::process::ExitCode;

const SEPARATE: u32 = 1;

// By a rule of the project each mode has a program of its own; this line is all that differs.
fn main(rt: HostRuntime) -> ExitCode {
    status(run(&rt, SEPARATE))
}
