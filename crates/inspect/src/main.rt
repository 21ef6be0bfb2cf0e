// Prints a circuit's numbers, how many solutions it has and the smallest of them.
#![tactic(auto)]

ghost use Rattle.std.specs.Prelude.{◌≡◌, false, is_ok, IfOk};
ghost use Rattle.inspection.specs.Inspections.{inspected};
ghost use Rattle.jobs.specs.Sizes.{enough};

use faults::JobFault;
use inspection::{Summary, row_text};
use shell::{Failure, Memory, explain, read_file, refuse, status};
use std::alloc::{AllocError, Global};
use std::process::ExitCode;

// A look at the file, with memory of its own.
fn look(heap: Global, file: &[u8]) -> Result<Result<Summary, JobFault>, AllocError>
    ensures { IfOk result (λ answer. answer ≡ inspected file.now enough) }
{
    let mut memory = Memory::new(heap)?;
    Ok(inspection::inspect(file, memory.lend()))
}

// Line by line and by no `Display` of the summary: two lines have cases of their own, and a row's text needs the number of inputs.
fn show(rt: &HostRuntime, summary: Summary) -> Result<(), Failure> {
    let Summary {
        inputs,
        gates,
        output,
        solutions,
        smallest,
    } = summary;
    println!(rt; "inputs {inputs} gates {gates} output {output}")?;
    match solutions {
        Some(count) => println!(rt; "solutions {count}")?,
        None => println!(rt; "solutions not counted above 16 inputs")?,
    }
    match smallest {
        Some(row) => {
            let bits = row_text(rt.alloc(), inputs, row)?;
            println!(rt; "smallest solution {bits}")?;
        }
        None => println!(rt; "smallest solution none")?,
    }
    Ok(())
}

// Prints the summary or the refusal. No refusal is a success. `shell` has the same of a text; there it says why they are two.
fn tell(rt: &HostRuntime, answer: Result<Summary, JobFault>) -> Result<(), Failure>
    ensures { is_ok answer ≡ false → is_ok result ≡ false }
{
    match answer {
        Ok(summary) => show(rt, summary),
        Err(fault) => refuse(rt, fault),
    }
}

fn attempt(rt: &HostRuntime) -> Result<(), Failure> {
    let file = read_file(rt)?;
    tell(rt, look(rt.alloc(), &file)?)
}

fn main(rt: HostRuntime) -> ExitCode {
    status(explain(&rt, attempt(&rt)))
}
