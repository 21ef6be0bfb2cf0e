// Reads many files from standard input, and prints a line for each and each mode: the text of its list, or the refusal. A line
// of three numbers stands before a file: the case's number, the file's bytes and the register's entries.
#![tactic(auto)]

mod fault;
mod job;

use fault::Fault;
use frames::{Frame, Frames};
use job::print_list;
use std::io::Read;

fn main(rt: HostRuntime) -> Result<(), Fault> {
    let mut all = Vec::new(rt.alloc());
    rt.stdin().read_to_end(&mut all)?;
    for frame in Frames::new(all.as_slice()) {
        let Frame { number, file, room } = frame?;
        for (mode, name) in [(1, "separate"), (2, "shared")] {
            print!(rt; "{number} {name} ")?;
            print_list(&rt, file, mode, room as usize)?;
        }
    }
    Ok(())
}
