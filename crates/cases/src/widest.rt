// The widest cube: thirty inputs, output 1.
use crate::failure::Failure;
use crate::files::circuit_file;
use crate::tell::tell;
use crate::waiving::EMPTY;
use circuit::{Circuit, Ternary};
use jobs::finish;
use listing::Draft;
use search::Search;
use std::alloc::Global;
use std::io;

// How many cubes, the first one and the total, by the decider Search in a register of one entry.
fn list(heap: Global, mode: u32) -> Result<String, Failure> {
    let file = circuit_file(heap, 30, 0)?;
    let reading = aiger::read(file.as_bytes(), &mut [])?;
    let mut values = [Ternary::Zero; 31];
    let mut made = Search::make(Circuit::take_up(reading, &[]), &mut values);
    let mut register = [EMPTY; 1];
    let finished = finish(
        Draft::open(mode, 30)?.begin(),
        &mut register,
        &mut made.search,
    )?;
    let cubes = finished.cubes();
    let total = finished.total(&register)?;
    let first = register[0].cube();
    let care = first.care();
    let value = first.value();
    Ok(format!(in heap; "cubes {cubes}, first care {care} value {value}, total {total}")?)
}

// One cube with every input open, in both modes: 2 to the power of 30 rows.
pub fn print(rt: &HostRuntime) -> io::Result<()> {
    let heap = rt.alloc();
    let all = "cubes 1, first care 0 value 0, total 1073741824";
    for (size, due) in [(1, all), (2, all)] {
        tell(
            rt,
            "thirty inputs, output 1, mode",
            size,
            list(heap, size),
            due,
        )?;
    }
    Ok(())
}
