// The limits of a file, and of the numbers in it.
use crate::failure::Failure;
use crate::files::{
    circuit_file, file_of_bytes, file_of_pattern, file_with_digits, file_with_name,
};
use crate::tell::tell;
use circuit::{MAX_GATES, Reading};
use std::alloc::Global;
use std::{fmt, io};

// The words of a gate table that is long enough for every circuit.
const ALL_WORDS: u32 = 2 * MAX_GATES;

// What is told of a circuit that is read.
#[derive(Drop)]
struct Told(Reading);

impl fmt::Display for Told {
    fn fmt<W: fmt::Write>(&self, f: &mut fmt::Formatter<W>) -> fmt::Result {
        let Reading {
            inputs,
            gates,
            output,
        } = self.0;
        write!(f, "circuit {inputs} {gates} {output}")
    }
}

// Reads a file into a gate table of so many words.
fn read(heap: Global, file: &str, words: u32) -> Result<Told, Failure> {
    let mut table = vec![in heap; 0u32; words as usize]?;
    Ok(Told(aiger::read(file.as_bytes(), table.as_mut_slice())?))
}

fn tell_file(rt: &HostRuntime, what: &str, size: u32, file: String, due: &str) -> io::Result<()> {
    let answer = read(rt.alloc(), file.as_str(), ALL_WORDS);
    tell(rt, what, size, answer, due)
}

fn print_sizes(rt: &HostRuntime) -> io::Result<()> {
    let heap = rt.alloc();
    let long = "refused 1 text 65536 0";
    for (size, due) in [(65_536, "circuit 1 0 1"), (65_537, long)] {
        tell_file(rt, "file bytes", size, file_of_bytes(heap, size)?, due)?;
    }
    // No number of an accepted file has five digits: another rule refuses it.
    let five = "refused 8 circuit 1 1";
    for (size, due) in [(5, five), (6, "refused 3 text 4 1")] {
        tell_file(
            rt,
            "digits of a number",
            size,
            file_with_digits(heap, size)?,
            due,
        )?;
    }
    let inputs = "refused 4 circuit 1 1";
    for (inputs, due) in [
        (0, inputs),
        (1, "circuit 1 0 1"),
        (30, "circuit 30 0 1"),
        (31, inputs),
    ] {
        tell_file(rt, "inputs", inputs, circuit_file(heap, inputs, 0)?, due)?;
    }
    let gates = "refused 7 circuit 1 1";
    for (gates, due) in [(4_096, "circuit 1 4096 1"), (4_097, gates)] {
        tell_file(rt, "gates", gates, circuit_file(heap, 1, gates)?, due)?;
    }
    let words = "refused 9 circuit 1 1";
    let file = circuit_file(heap, 1, 4_096)?;
    for (words, due) in [(8_192, "circuit 1 4096 1"), (8_191, words)] {
        tell(
            rt,
            "4096 gates, gate table words",
            words,
            read(heap, file.as_str(), words),
            due,
        )?;
    }
    let empty = "refused 2 text 21 4";
    let long = "refused 2 text 85 4";
    for (size, due) in [
        (0, empty),
        (1, "circuit 1 0 1"),
        (64, "circuit 1 0 1"),
        (65, long),
    ] {
        tell_file(rt, "name bytes", size, file_with_name(heap, size)?, due)?;
    }
    Ok(())
}

// A limit of a number in a file, whose place in the pattern is `#`.
fn tell_numbers(
    rt: &HostRuntime,
    what: &str,
    pattern: &str,
    numbers: &[(u32, &str)],
) -> io::Result<()> {
    for (number, due) in numbers.iter().copied() {
        let file = file_of_pattern(rt.alloc(), pattern, number)?;
        tell_file(rt, what, number, file, due)?;
    }
    Ok(())
}

fn print_header_numbers(rt: &HostRuntime) -> io::Result<()> {
    let latches = "refused 5 circuit 1 1";
    tell_numbers(
        rt,
        "latches",
        "aag 1 1 # 1 0\n2\n1\n",
        &[(0, "circuit 1 0 1"), (1, latches)],
    )?;
    let outputs = "refused 6 circuit 1 1";
    tell_numbers(
        rt,
        "outputs",
        "aag 1 1 0 # 0\n2\n1\n",
        &[(0, outputs), (1, "circuit 1 0 1"), (2, outputs)],
    )?;
    let highest = "refused 8 circuit 1 1";
    tell_numbers(
        rt,
        "2 inputs and 1 gate, highest variable",
        "aag # 2 0 1 1\n2\n4\n7\n6 5 3\n",
        &[(2, highest), (3, "circuit 2 1 7"), (4, highest)],
    )
}

fn print_line_numbers(rt: &HostRuntime) -> io::Result<()> {
    let input = "refused 10 circuit 3 3";
    tell_numbers(
        rt,
        "second input, literal",
        "aag 3 2 0 1 1\n2\n#\n7\n6 5 3\n",
        &[(3, input), (4, "circuit 2 1 7"), (5, input)],
    )?;
    let output = "refused 11 circuit 4 4";
    tell_numbers(
        rt,
        "highest variable 3, output",
        "aag 3 2 0 1 1\n2\n4\n#\n6 5 3\n",
        &[(7, "circuit 2 1 7"), (8, output)],
    )?;
    let gate = "refused 12 circuit 5 5";
    tell_numbers(
        rt,
        "first gate after 2 inputs, literal",
        "aag 3 2 0 1 1\n2\n4\n7\n# 4 3\n",
        &[(5, gate), (6, "circuit 2 1 7"), (7, gate)],
    )?;
    let operand = "refused 13 circuit 5 5";
    tell_numbers(
        rt,
        "gate 6, left operand",
        "aag 3 2 0 1 1\n2\n4\n7\n6 # 3\n",
        &[(5, "circuit 2 1 7"), (6, operand)],
    )?;
    tell_numbers(
        rt,
        "gate 6, right operand",
        "aag 3 2 0 1 1\n2\n4\n7\n6 3 #\n",
        &[(5, "circuit 2 1 7"), (6, operand)],
    )?;
    let symbol = "refused 14 circuit 5 5";
    tell_numbers(
        rt,
        "2 inputs, symbol position",
        "aag 2 2 0 1 0\n2\n4\n1\ni# x\n",
        &[(1, "circuit 2 0 1"), (2, symbol)],
    )?;
    tell_numbers(
        rt,
        "1 output, symbol position",
        "aag 2 2 0 1 0\n2\n4\n1\no# x\n",
        &[(0, "circuit 2 0 1"), (1, symbol)],
    )
}

pub fn print(rt: &HostRuntime) -> io::Result<()> {
    print_sizes(rt)?;
    print_header_numbers(rt)?;
    print_line_numbers(rt)
}
