// Reads many files from standard input and prints the answer to each. A line of three numbers stands before a file: the
// case's number, the file's bytes and the gate table's words.
#![tactic(auto)]

use aiger::read;
use circuit::{MAX_GATES, Reading};
use faults::JobFault;
use frames::{Frame, FrameFault, Frames};
use std::io;
use std::io::Read;

const MODULUS: u64 = 1_000_000_007;

// No gate table needs more words; a line of the input that asks for more is an error.
const MAX_WORDS: usize = 2 * MAX_GATES as usize;

// Why the program fails.
#[derive(Debug, Drop)]
enum Fault {
    Io,
    // The line before a file, or its bytes.
    Case,
}

impl From<io::Error> for Fault {
    fn from(_e: io::Error) -> Fault {
        Fault::Io
    }
}

impl From<FrameFault> for Fault {
    fn from(_e: FrameFault) -> Fault {
        Fault::Case
    }
}

// Prints the table, or a sum over it where it is long.
fn print_table(rt: &HostRuntime, table: &[u32]) -> io::Result<()> {
    if table.len() <= 12 {
        for word in table {
            print!(rt; " {word}")?;
        }
    } else {
        let sum = table.iter().fold(
            0,
            |sum, word| (sum % MODULUS * 31 + u64::from(*word)) % MODULUS,
        );
        print!(rt; " sum {sum}")?;
    }
    println!(rt)
}

// Reads one file into a gate table that holds something else before, and prints the answer and the table.
fn print_case(rt: &HostRuntime, case: u32, file: &[u8], table: &mut [u32]) -> io::Result<()> {
    match read(file, table) {
        Ok(
            Reading {
                inputs,
                gates,
                output,
            },
        ) => {
            print!(rt; "{case} circuit {inputs} {gates} {output} |")?;
        }
        Err(fault) => {
            let refusal = JobFault::from(fault);
            print!(rt; "{case} {refusal} |")?;
        }
    }
    print_table(rt, table)
}

fn main(rt: HostRuntime) -> Result<(), Fault> {
    let mut all = Vec::new(rt.alloc());
    rt.stdin().read_to_end(&mut all)?;
    for frame in Frames::new(all.as_slice()) {
        let Frame { number, file, room } = frame?;
        // On the stack, so that no case ends for want of memory.
        let mut table = [7u32; MAX_WORDS];
        let table = table.get_mut(..room as usize).ok_or(Fault::Case)?;
        print_case(&rt, number, file, table)?;
    }
    Ok(())
}
