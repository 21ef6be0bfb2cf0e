// Asks the search decider about the timing family, over the cube of all rows.
// Prints which questions have an answer and, if asked for, how long each took.
use crate::family::Family;
use circuit::Ternary;
use cubes::{Cube, Decider, Entry, Question};
use search::Search;
use std::io;
use std::time::Instant;

// More than the family's circuits need.
const PLACES: usize = 128;

const PAIRS: usize = 16;

// Asks once, and prints whether a row came and, if asked for, the time.
fn ask(
    rt: &HostRuntime,
    search: &mut Search,
    wanted: bool,
    barred: &[Entry],
    timed: bool,
) -> io::Result<()> {
    let inputs = search.inputs();
    let count = barred.len();
    let question = Question {
        cube: Cube::low(0, 0),
        wanted,
        barred,
    };
    let start = Instant::now(rt)?;
    let answer = match search.ask(question) {
        Some(_) => "yes",
        None => "no",
    };
    let millis = start.elapsed(rt)?.as_secs_f64() * 1000.0;
    print!(rt; "inputs {inputs} wanted {wanted} barred {count}: {answer}")?;
    if timed {
        print!(rt; ", {millis:.3} ms")?;
    }
    println!(rt)
}

// Both wanted bits, with no barred entry and with the pairs' cubes barred.
fn family_questions(rt: &HostRuntime, inputs: u32, timed: bool) -> io::Result<()> {
    let family = Family::new(inputs);
    let mut entries = [Entry { care: 0, value: 0 }; PAIRS];
    let count = family.pair_cubes(&mut entries);
    let mut values = [Ternary::Zero; PLACES];
    let mut made = Search::make(family.circuit(), &mut values);
    for wanted in [false, true] {
        ask(rt, &mut made.search, wanted, &[], timed)?;
        ask(rt, &mut made.search, wanted, &entries[..count], timed)?;
    }
    Ok(())
}

pub fn print(rt: &HostRuntime, timed: bool) -> io::Result<()> {
    for inputs in [17u32, 21, 25, 29] {
        family_questions(rt, inputs, timed)?;
    }
    Ok(())
}
