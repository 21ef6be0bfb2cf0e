// Asks the table and the search the same questions about one circuit, and says for how many both find a row, and for how many
// neither does.
use circuit::{Circuit, Ternary, Word};
use cubes::{Cube, Decider, Entry, Question};
use search::{Made, Search};
use std::io;
use table::Table;

// Nine inputs: the first four pairs while input 9 is 1, the others while it is 0.
const FILE: &[u8] =
    b"aag 18 9 0 1 9\n2\n4\n6\n8\n10\n12\n14\n16\n18\n37\n20 4 2\n22 8 6\n24 12 10\n26 16 14\n28 23 21\n30 29 18\n32 27 25\n34 33 19\n36 35 31\n";

const INPUTS: u32 = 9;

const ROWS: u32 = 1 << INPUTS;

// Whether they find a row, where both do or neither does.
fn found<A: Decider, B: Decider>(a: &mut A, b: &mut B, question: Question) -> Option<bool> {
    let by_a = a.ask(question).is_some();
    let by_b = b.ask(question).is_some();
    (by_a == by_b).then_some(by_a)
}

// For how many cubes that fix the inputs of a care to the bits of a row, for both wanted bits, both find a row, or neither.
fn agreements<A: Decider, B: Decider>(
    a: &mut A,
    b: &mut B,
    care: u32,
    barred: &[Entry],
    row_found: bool,
) -> usize {
    (0..ROWS)
        .map(|row| (row, true))
        .chain((0..ROWS).map(|row| (row, false)))
        .filter(|(row, wanted)| {
            let question = Question {
                cube: Cube::low(care, row & care),
                wanted: *wanted,
                barred,
            };
            found(a, b, question) == Some(row_found)
        })
        .count()
}

pub fn print(rt: &HostRuntime) -> io::Result<()> {
    let mut gate_table = [0u32; 18];
    let Ok(reading) = aiger::read(FILE, &mut gate_table) else {
        return println!(rt; "the circuit is refused");
    };
    let circuit = Circuit::take_up(reading, &gate_table);
    let mut bits = [0u32; 16];
    let mut words = [Word::new(0); 19];
    let mut signals = [Ternary::Zero; 19];
    let (mut table, _) = Table::make(&circuit, &mut bits, &mut words);
    let Made {
        mut search,
        outcome: _,
    } = Search::make(circuit, &mut signals);
    let barred = [
        Entry::listed(Cube::low(0b110000000, 0b110000000)),
        Entry::waiver(Cube::low(0b000001001, 0b000000001)),
    ];
    for care in [0b111111111, 0b111100001, 0b000011111, 0b000000001] {
        for (what, entries) in [("no", &barred[0..0]), ("two", &barred[..])] {
            let rows = agreements(&mut table, &mut search, care, entries, true);
            let none = agreements(&mut table, &mut search, care, entries, false);
            println!(rt;
                "care {care:09b}, {what} barred entries: of 1024 questions both find a row for {rows}, neither for {none}"
            )?;
        }
    }
    Ok(())
}
