// Worked cases beside the proved ones: thirty inputs, both sides of every limit, and two deciders that agree. Prints a line a
// case: what came of it, and at a limit whether that is what should.
#![tactic(auto)]

mod agreeing;
mod circuits;
mod deciding;
mod failure;
mod files;
mod reading;
mod registers;
mod tell;
mod waiving;
mod widest;

use std::io;

fn main(rt: HostRuntime) -> io::Result<()> {
    widest::print(&rt)?;
    reading::print(&rt)?;
    deciding::print(&rt)?;
    waiving::print(&rt)?;
    registers::print(&rt)?;
    agreeing::print(&rt)
}
