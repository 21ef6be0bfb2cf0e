// The listing programs, but for their mode.
ghost use Rattle.std.specs.Prelude.{◌≡◌, false, is_ok};

use crate::input::read_file;
use crate::job::work;
use crate::{Failure, explain, refuse};
use faults::JobFault;
use std::io::Write;

// Reads a file, and prints its list or the refusal. Why it fails otherwise goes to standard error. The mode is a number by the
// same rule as in `jobs::list`.
pub fn run(rt: &HostRuntime, mode: u32) -> Result<(), Failure> {
    explain(rt, attempt(rt, mode))
}

fn attempt(rt: &HostRuntime, mode: u32) -> Result<(), Failure> {
    let file = read_file(rt)?;
    tell(rt, work(rt.alloc(), &file, mode)?)
}

// Prints the text or the refusal. No refusal is a success. `inspect` has the same of a summary: one public function of both
// would take a closure, and would have to require that it can be called.
fn tell(rt: &HostRuntime, outcome: Result<Vec<u8>, JobFault>) -> Result<(), Failure>
    ensures { is_ok outcome ≡ false → is_ok result ≡ false }
{
    match outcome {
        Ok(text) => {
            rt.stdout().write_all(&text)?;
            Ok(())
        }
        Err(fault) => refuse(rt, fault),
    }
}
