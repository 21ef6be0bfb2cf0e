// A table of two inputs, asked for rows in and outside of its set, with and without barred entries.
use circuit::{Circuit, Reading, Word};
use cubes::{Cube, Decider, Entry, Question};
use std::io;
use table::Table;

fn ask(
    rt: &HostRuntime,
    table: &mut Table,
    cube: Cube,
    wanted: bool,
    barred: &[Entry],
) -> io::Result<()> {
    let question = Question {
        cube,
        wanted,
        barred,
    };
    match table.ask(question) {
        Some(row) => println!(rt; "row {row}"),
        None => println!(rt; "nothing"),
    }
}

pub fn print(rt: &HostRuntime) -> io::Result<()> {
    // The OR of both inputs.
    let gates = [5, 3];
    let reading = Reading {
        inputs: 2,
        gates: 1,
        output: 7,
    };
    let either = Circuit::take_up(reading, &gates);
    let mut bits = [0u32; 1];
    let mut values = [Word::new(0); 4];
    let (mut table, _) = Table::make(&either, &mut bits, &mut values);
    let open = Cube::low(0, 0);
    let second = Cube::low(1, 1);
    let n = table.inputs();
    println!(rt; "{n} inputs")?;
    ask(rt, &mut table, open, true, &[])?;
    ask(rt, &mut table, open, false, &[])?;
    ask(rt, &mut table, second, false, &[])?;
    ask(rt, &mut table, open, true, &[Entry::listed(second)])?;
    ask(rt, &mut table, second, true, &[Entry::waiver(second)])?;
    let mut none: [u32; 0] = [];
    let (mut refused, _) = Table::make(&either, &mut none, &mut values);
    ask(rt, &mut refused, open, true, &[])?;
    ask(rt, &mut refused, open, false, &[])
}
