// One job in memory that is small, and that holds something else before.
use crate::fault::Fault;
use circuit::{Ternary, Word};
use cubes::Entry;
use faults::JobFault;
use jobs::{Workspace, list};
use std::alloc::{AllocError, Global};
use std::io::Write;

// For 24 gates.
const GATE_WORDS: usize = 48;

// For 10 inputs.
const BIT_WORDS: usize = 32;

// For 30 inputs and 24 gates.
const PLACES: usize = 55;

const TEXT_BYTES: usize = 1024;

// Writes the text of the list, and gives its length.
fn list_file(
    file: &[u8],
    mode: u32,
    register: &mut [Entry],
    text: &mut [u8],
) -> Result<usize, JobFault> {
    let mut gate_table = [7u32; GATE_WORDS];
    let mut bits = [7u32; BIT_WORDS];
    let mut words = [Word::new(7); PLACES];
    let mut signals = [Ternary::Unknown; PLACES];
    let workspace = Workspace {
        gate_table: &mut gate_table,
        bits: &mut bits,
        words: &mut words,
        signals: &mut signals,
    };
    list(file, mode, workspace, register, text)
}

// The lines of a text, joined to one. Byte by byte, so that it takes no more memory than the line.
fn joined(heap: Global, text: &[u8]) -> Result<Vec<u8>, AllocError> {
    let mut line = Vec::new(heap);
    let Some(lines) = text.strip_suffix(b"\n") else {
        line.extend_from_slice(b"no line end")?;
        return Ok(line);
    };
    for byte in lines {
        if *byte == b'\n' {
            line.extend_from_slice(b" / ")?;
        } else {
            line.push(*byte)?;
        }
    }
    Ok(line)
}

// Prints the lines of the text, or the refusal.
pub fn print_list(rt: &HostRuntime, file: &[u8], mode: u32, entries: usize) -> Result<(), Fault> {
    let heap = rt.alloc();
    let mut register = vec![in heap; Entry { care: 7, value: 7 }; entries]?;
    let mut text = vec![in heap; b'?'; TEXT_BYTES]?;
    match list_file(file, mode, register.as_mut_slice(), text.as_mut_slice()) {
        Ok(size) => {
            text.truncate(size);
            rt.stdout().write_all(&joined(heap, &text)?)?;
            println!(rt)?;
        }
        Err(fault) => println!(rt; "{fault}")?,
    }
    Ok(())
}
