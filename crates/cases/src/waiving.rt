// The limits of opening a listing and of its waivers.
use crate::failure::Failure;
use crate::tell::tell;
use cubes::{Cube, Entry};
use faults::ListingFault;
use listing::Draft;
use std::alloc::Global;
use std::io;

pub const EMPTY: Entry = Entry { care: 0, value: 0 };

fn opened(mode: u32, inputs: u32) -> Result<&'static str, Failure> {
    Draft::open(mode, inputs)?;
    Ok("opened")
}

fn cubed(care: u32) -> Result<&'static str, Failure> {
    match Cube::new(care, 0) {
        Some(_) => Ok("a cube"),
        None => Ok("no cube"),
    }
}

// Waives one cube in a draft of so many inputs.
fn waived(inputs: u32, care: u32, value: u32) -> Result<&'static str, Failure> {
    let mut register = [EMPTY; 1];
    Draft::open(1, inputs)?.waive(&mut register, Cube::low(care, value))?;
    Ok("waived")
}

// Waives so many single rows of 13 inputs.
pub fn waive_rows(
    draft: &mut Draft,
    register: &mut [Entry],
    rows: u32,
) -> Result<(), ListingFault> {
    for row in 0..rows {
        draft.waive(register, Cube::low(0x1FFF, row))?;
    }
    Ok(())
}

// Waives so many rows, in a register that has an entry more than a listing uses.
fn rows_waived(heap: Global, rows: u32) -> Result<&'static str, Failure> {
    let mut register = vec![in heap; EMPTY; 4097]?;
    waive_rows(&mut Draft::open(1, 13)?, register.as_mut_slice(), rows)?;
    Ok("waived")
}

// Waives once, and then once more with a front part of the register.
fn waived_again(front: u32) -> Result<&'static str, Failure> {
    let mut register = [EMPTY; 2];
    let mut draft = Draft::open(1, 2)?;
    draft.waive(&mut register, Cube::low(3, 0))?;
    draft.waive(&mut register[0..front.min(2) as usize], Cube::low(3, 1))?;
    Ok("waived")
}

pub fn print(rt: &HostRuntime) -> io::Result<()> {
    let heap = rt.alloc();
    let mode = "refused 15 listing 0 0";
    for (mode, due) in [(0, mode), (1, "opened"), (2, "opened"), (3, mode)] {
        tell(rt, "mode", mode, opened(mode, 2), due)?;
    }
    let inputs = "refused 16 listing 0 0";
    for (inputs, due) in [(0, inputs), (1, "opened"), (30, "opened"), (31, inputs)] {
        tell(rt, "inputs of a listing", inputs, opened(1, inputs), due)?;
    }
    for (care, due) in [(1_073_741_823, "a cube"), (1_073_741_824, "no cube")] {
        tell(rt, "cube of care", care, cubed(care), due)?;
    }
    let waiver = "refused 17 listing 0 0";
    for (care, due) in [(3, "waived"), (4, waiver)] {
        tell(
            rt,
            "waiver of 2 inputs, care",
            care,
            waived(2, care, 0),
            due,
        )?;
    }
    for (care, due) in [(536_870_911, "waived"), (536_870_912, waiver)] {
        tell(
            rt,
            "waiver of 29 inputs, care",
            care,
            waived(29, care, 0),
            due,
        )?;
    }
    for (value, due) in [(0, "waived"), (1, "waived"), (2, waiver), (3, waiver)] {
        tell(
            rt,
            "waiver of 2 inputs, care 1, value",
            value,
            waived(2, 1, value),
            due,
        )?;
    }
    for (size, due) in [(4_096, "waived"), (4_097, "refused 18 listing 4096 0")] {
        tell(
            rt,
            "register of 4097 entries, waivers",
            size,
            rows_waived(heap, size),
            due,
        )?;
    }
    let full = "refused 18 listing 1 0";
    let short = "refused 19 listing 1 0";
    for (front, due) in [(2, "waived"), (1, full), (0, short)] {
        tell(
            rt,
            "second waiver, register entries",
            front,
            waived_again(front),
            due,
        )?;
    }
    Ok(())
}
