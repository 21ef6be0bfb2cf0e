// The limits of evaluating, counting and making a decider.
use crate::circuits::{always, either};
use crate::failure::Failure;
use crate::tell::tell;
use circuit::{Bit, Circuit, Ternary, Word, count_solutions, evaluate};
use search::Search;
use std::alloc::Global;
use std::io;
use table::Table;

// The output of `either` where both inputs are 1.
fn evaluated(heap: Global, places: u32) -> Result<String, Failure> {
    let mut values = vec![in heap; Bit::new(true); places as usize]?;
    let output = evaluate(&either(), values.as_mut_slice())?.on();
    Ok(format!(in heap; "output {output}")?)
}

fn counted(heap: Global, circuit: Circuit, places: u32) -> Result<String, Failure> {
    let mut values = vec![in heap; Word::new(0); places as usize]?;
    let count = count_solutions(&circuit, values.as_mut_slice())?;
    Ok(format!(in heap; "solutions {count}")?)
}

fn tabled(
    heap: Global,
    circuit: Circuit,
    words: u32,
    places: u32,
) -> Result<&'static str, Failure> {
    let mut bits = vec![in heap; 0u32; words as usize]?;
    let mut values = vec![in heap; Word::new(0); places as usize]?;
    let (_, outcome) = Table::make(&circuit, bits.as_mut_slice(), values.as_mut_slice());
    outcome?;
    Ok("made")
}

fn branched(heap: Global, circuit: Circuit, places: u32) -> Result<&'static str, Failure> {
    let mut values = vec![in heap; Ternary::Zero; places as usize]?;
    Search::make(circuit, values.as_mut_slice()).outcome?;
    Ok("made")
}

pub fn print(rt: &HostRuntime) -> io::Result<()> {
    let heap = rt.alloc();
    let places = "refused 22 table 4 0";
    for (size, due) in [(4, "output true"), (3, places)] {
        tell(
            rt,
            "evaluate, highest variable 3, places",
            size,
            evaluated(heap, size),
            due,
        )?;
    }
    let inputs = "refused 21 table 17 0";
    for (inputs, due) in [(16, "solutions 65536"), (17, inputs)] {
        tell(
            rt,
            "count of all rows, inputs",
            inputs,
            counted(heap, always(inputs), 18),
            due,
        )?;
    }
    for (places, due) in [(4, "solutions 3"), (3, places)] {
        tell(
            rt,
            "count, highest variable 3, places",
            places,
            counted(heap, either(), places),
            due,
        )?;
    }
    for (inputs, due) in [(16, "made"), (17, inputs)] {
        tell(
            rt,
            "table, inputs",
            inputs,
            tabled(heap, always(inputs), 4096, 18),
            due,
        )?;
    }
    for (words, due) in [(2048, "made"), (2047, "refused 22 table 2048 0")] {
        tell(
            rt,
            "table of 16 inputs, words",
            words,
            tabled(heap, always(16), words, 17),
            due,
        )?;
    }
    for (words, due) in [(1, "made"), (0, "refused 22 table 1 0")] {
        tell(
            rt,
            "table of 2 inputs, words",
            words,
            tabled(heap, either(), words, 4),
            due,
        )?;
    }
    for (places, due) in [(4, "made"), (3, places)] {
        tell(
            rt,
            "table, highest variable 3, places",
            places,
            tabled(heap, either(), 1, places),
            due,
        )?;
    }
    for (inputs, due) in [(17, "made"), (30, "made")] {
        tell(
            rt,
            "Search, inputs",
            inputs,
            branched(heap, always(inputs), 31),
            due,
        )?;
    }
    for (places, due) in [(4, "made"), (3, places)] {
        tell(
            rt,
            "Search, highest variable 3, places",
            places,
            branched(heap, either(), places),
            due,
        )?;
    }
    Ok(())
}
