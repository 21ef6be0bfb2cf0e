// Questions to a table of 16 inputs, against more and more barred entries. Each line has the sum of the answers, so that the same
// work in another language can be compared.
use circuit::{Circuit, Reading, Word};
use cubes::{Cube, Decider, Entry, Question};
use std::io;
use std::time::Instant;
use table::Table;

const QUESTIONS: u32 = 200;

// The next of a sequence of numbers without order, and its upper half.
fn next(seed: &mut u32) -> u32 {
    *seed = seed.wrapping_mul(1664525).wrapping_add(1013904223);
    *seed >> 16
}

// Cubes without order that fix about four inputs each.
fn scatter(barred: &mut [Entry]) {
    let mut seed = 1;
    for e in barred.iter_mut() {
        let care = next(&mut seed) & next(&mut seed);
        *e = Entry::listed(Cube::low(care, next(&mut seed) & care));
    }
}

// Single rows, and at the end an entry that holds every row: no lane is dropped before it.
fn single(barred: &mut [Entry]) {
    for (i, e) in barred.iter_mut().enumerate() {
        *e = Entry::listed(Cube::low(0xFFFF, (i % 512) as u32 * 97));
    }
    if let Some(e) = barred.last_mut() {
        *e = Entry::listed(Cube::low(0, 0));
    }
}

// The sum of the answers to questions without order.
fn sum(table: &mut Table, wanted: bool, fixed: u32, barred: &[Entry]) -> u32 {
    let mut seed = 7;
    let mut sum = 0u32;
    for _ in 0..QUESTIONS {
        let care = next(&mut seed) & next(&mut seed) & fixed;
        let question = Question {
            cube: Cube::low(care, next(&mut seed) & care),
            wanted,
            barred,
        };
        if let Some(row) = table.ask(question) {
            sum = sum.wrapping_add(row).wrapping_add(1);
        }
    }
    sum
}

// Prints the sum and, if asked for, how long the questions took.
fn measure(
    rt: &HostRuntime,
    name: &str,
    table: &mut Table,
    fixed: u32,
    barred: &[Entry],
    timed: bool,
) -> io::Result<()> {
    let entries = barred.len();
    let start = Instant::now(rt)?;
    let sum = sum(table, entries > 0, fixed, barred);
    let micros = start.elapsed(rt)?.as_micros();
    print!(rt; "{name} {entries} entries: {QUESTIONS} questions, sum {sum}")?;
    if timed {
        print!(rt; ", {micros} us")?;
    }
    println!(rt)
}

// Questions against scattered cubes and against single rows.
fn rounds(
    rt: &HostRuntime,
    table: &mut Table,
    barred: &mut [Entry],
    timed: bool,
) -> io::Result<()> {
    scatter(barred);
    measure(rt, "open cubes, scattered", table, 0, barred, timed)?;
    measure(rt, "any cubes, scattered", table, 0xFFFF, barred, timed)?;
    single(barred);
    measure(rt, "open cubes, single", table, 0, barred, timed)
}

pub fn print(rt: &HostRuntime, timed: bool) -> io::Result<()> {
    // Every row is a solution.
    let reading = Reading {
        inputs: 16,
        gates: 0,
        output: 1,
    };
    let all = Circuit::take_up(reading, &[]);
    let mut bits = [0u32; 2048];
    let mut values = [Word::new(0); 17];
    let (mut table, _) = Table::make(&all, &mut bits, &mut values);
    measure(rt, "open cubes,", &mut table, 0, &[], timed)?;
    measure(rt, "any cubes,", &mut table, 0xFFFF, &[], timed)?;
    let mut few = [Entry { care: 0, value: 0 }; 64];
    rounds(rt, &mut table, &mut few, timed)?;
    let mut many = [Entry { care: 0, value: 0 }; 512];
    rounds(rt, &mut table, &mut many, timed)
}
