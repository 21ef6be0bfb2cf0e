// Prints the list of a circuit's solutions as cubes that may share rows.
#![tactic(auto)]

use shell::{run, status};
use std::process::ExitCode;

const SHARED: u32 = 2;

// By a rule of the project each mode has a program of its own; this line is all that differs.
fn main(rt: HostRuntime) -> ExitCode {
    status(run(&rt, SHARED))
}
