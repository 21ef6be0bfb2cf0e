// The limits of a register and of the text memory.
use crate::circuits::{always, either_table};
use crate::failure::Failure;
use crate::tell::tell;
use crate::waiving::{EMPTY, waive_rows};
use circuit::Word;
use cubes::{Cube, Entry};
use faults::ListingFault;
use jobs::finish;
use listing::{Draft, Finished, Step};
use std::alloc::Global;
use std::io;
use table::Table;

// The finished listing of `either`, without a waived row.
fn listed(register: &mut [Entry], waived: Option<Cube>) -> Result<Finished, ListingFault> {
    let mut bits = [0u32; 1];
    let mut table = either_table(&mut bits);
    let mut draft = Draft::open(1, 2)?;
    if let Some(row) = waived {
        draft.waive(register, row)?;
    }
    finish(draft.begin(), register, &mut table)
}

fn total(heap: Global, finished: &Finished, register: &[Entry]) -> Result<String, Failure> {
    let total = finished.total(register)?;
    Ok(format!(in heap; "total {total}")?)
}

// The total of the list of `either`, without a waived row, in a register of so many entries.
fn total_in(heap: Global, entries: u32, waived: Option<Cube>) -> Result<String, Failure> {
    let mut register = vec![in heap; EMPTY; entries as usize]?;
    let finished = listed(register.as_mut_slice(), waived)?;
    total(heap, &finished, register.as_slice())
}

// Adds up the cubes of `either`, with a front part of the register.
fn front_total(heap: Global, front: u32) -> Result<String, Failure> {
    let mut register = [EMPTY; 2];
    let finished = listed(&mut register, None)?;
    total(heap, &finished, &register[0..front.min(2) as usize])
}

fn word(step: Step) -> &'static str {
    match step {
        Step::Listed(_) => "listed",
        Step::Ended(_) => "ended",
    }
}

// Lists a cube of `either`, and then calls next with a front part of the register.
fn second_next(front: u32) -> Result<&'static str, Failure> {
    let mut bits = [0u32; 1];
    let mut table = either_table(&mut bits);
    let mut register = [EMPTY; 2];
    let running = match Draft::open(1, 2)?.begin().next(&mut register, &mut table)? {
        Step::Listed(running) => running,
        Step::Ended(_) => return Ok("ended"),
    };
    let front = &mut register[0..front.min(2) as usize];
    Ok(word(running.next(front, &mut table)?))
}

// A next of a listing of 2 inputs, with a decider of so many.
fn next_with(inputs: u32) -> Result<&'static str, Failure> {
    let mut bits = [0u32; 1];
    let mut values = [Word::new(0); 4];
    let (mut table, _) = Table::make(&always(inputs), &mut bits, &mut values);
    let mut register = [EMPTY; 1];
    let draft = Draft::open(1, 2)?;
    Ok(word(draft.begin().next(&mut register, &mut table)?))
}

// Waives so many of all 8,192 rows of 13 inputs, and calls next.
fn next_after(heap: Global, waivers: u32) -> Result<&'static str, Failure> {
    let mut bits = [0u32; 256];
    let mut values = [Word::new(0); 14];
    let (mut table, _) = Table::make(&always(13), &mut bits, &mut values);
    let mut register = vec![in heap; EMPTY; 4097]?;
    let mut draft = Draft::open(1, 13)?;
    waive_rows(&mut draft, register.as_mut_slice(), waivers)?;
    Ok(word(draft.begin().next(register.as_mut_slice(), &mut table)?))
}

// Prints the list of `either`, with a front part of the register, into a text of so many bytes.
fn text_length(heap: Global, front: u32, bytes: u32) -> Result<String, Failure> {
    let mut register = [EMPTY; 2];
    let mut text = vec![in heap; 0u8; bytes as usize]?;
    let finished = listed(&mut register, None)?;
    let front = &register[0..front.min(2) as usize];
    let length = pla::print(&finished, front, text.as_mut_slice())?;
    Ok(format!(in heap; "bytes {length}")?)
}

pub fn print(rt: &HostRuntime) -> io::Result<()> {
    let heap = rt.alloc();
    let none = "refused 18 listing 0 0";
    let one = "refused 18 listing 1 0";
    for (entries, due) in [(2, "total 3"), (1, one), (0, none)] {
        tell(
            rt,
            "list of 2 cubes, register entries",
            entries,
            total_in(heap, entries, None),
            due,
        )?;
    }
    let row = Cube::low(3, 3);
    for (entries, due) in [(3, "total 2"), (2, "refused 18 listing 2 0")] {
        tell(
            rt,
            "list of a waiver and 2 cubes, register entries",
            entries,
            total_in(heap, entries, Some(row)),
            due,
        )?;
    }
    for (front, due) in [(2, "listed"), (1, one), (0, "refused 19 listing 1 0")] {
        tell(
            rt,
            "second next, register entries",
            front,
            second_next(front),
            due,
        )?;
    }
    let short = "refused 19 listing 2 0";
    for (size, due) in [(2, "total 3"), (1, short)] {
        tell(
            rt,
            "total of 2 cubes, register entries",
            size,
            front_total(heap, size),
            due,
        )?;
    }
    let other = "refused 20 listing 0 0";
    for (inputs, due) in [(1, other), (2, "listed"), (3, other)] {
        tell(
            rt,
            "next of 2 inputs, decider of inputs",
            inputs,
            next_with(inputs),
            due,
        )?;
    }
    for (size, due) in [(4_095, "listed"), (4_096, "refused 18 listing 4096 0")] {
        tell(
            rt,
            "next in a register of 4097 entries, waivers",
            size,
            next_after(heap, size),
            due,
        )?;
    }
    // The lines `.i 2`, `.o 1`, `.p 2`, `-1 1`, `10 1` have five bytes each, and `.e` has three.
    let text = "refused 22 table 28 0";
    for (bytes, due) in [(29, "bytes 28"), (28, "bytes 28"), (27, text), (0, text)] {
        tell(
            rt,
            "text of 28 bytes, text memory",
            bytes,
            text_length(heap, 2, bytes),
            due,
        )?;
    }
    for (front, due) in [(2, "bytes 28"), (1, short)] {
        tell(
            rt,
            "text of 2 cubes, register entries",
            front,
            text_length(heap, front, 28),
            due,
        )?;
    }
    Ok(())
}
