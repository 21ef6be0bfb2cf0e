// Circuits of the cases, and their deciders.
use circuit::{Circuit, Reading, Word};
use table::Table;

// So many inputs, and output 1.
pub fn always(inputs: u32) -> Circuit<'static> {
    let reading = Reading {
        inputs,
        gates: 0,
        output: 1,
    };
    Circuit::take_up(reading, &[])
}

// Input 1 or input 2: the rows 1, 2 and 3.
pub fn either() -> Circuit<'static> {
    let reading = Reading {
        inputs: 2,
        gates: 1,
        output: 7,
    };
    Circuit::take_up(reading, &[5, 3])
}

// The table of `either`.
pub fn either_table(bits: &mut [u32; 1]) -> Table<'_> {
    let mut values = [Word::new(0); 4];
    let (table, _) = Table::make(&either(), bits, &mut values);
    table
}
