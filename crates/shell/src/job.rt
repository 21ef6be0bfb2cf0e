// One job with memory of its own.
ghost use Rattle.std.specs.Prelude.{◌≡◌, IfOk};
ghost use Rattle.shell.specs.Outcomes.{Said, answer_of, worked};

use crate::Memory;
use cubes::Entry;
use faults::JobFault;
use jobs::{ENTRIES, list};
use std::alloc::{AllocError, Global};

// A line of 30 inputs for each cube, and the other lines.
const TEXT_BYTES: usize = ENTRIES * 33 + 64;

// Allocates the memory, and lists the file's circuit with it: the list's text, or the refusal. The mode is a number by the
// same rule as in `jobs::list`.
pub fn work(heap: Global, file: &[u8], mode: u32) -> Result<Result<Vec<u8>, JobFault>, AllocError>
    ensures said { IfOk result (Said file.now mode) }
    ensures value { IfOk result (λ outcome. answer_of outcome ≡ worked file.now mode) }
{
    let mut memory = Memory::new(heap)?;
    let mut register = vec![in heap; Entry { care: 0, value: 0 }; ENTRIES]?;
    let mut text = vec![in heap; 0u8; TEXT_BYTES]?;
    match list(
        file,
        mode,
        memory.lend(),
        register.as_mut_slice(),
        text.as_mut_slice(),
    ) {
        Ok(size) => {
            text.truncate(size);
            Ok(Ok(text))
        }
        Err(fault) => Ok(Err(fault)),
    }
}
