// The file on standard input.
ghost use Rattle.std.specs.Prelude.{◌≡◌, ◌+◌, if◌then◌else◌, Ok, Err, IfErr, nat_lt};
ghost use Rattle.faults.specs.Reports.{max_file_bytes};
ghost use Rattle.shell.specs.declared.failure.Failure.TheVariants.{Usage, Refused};

use crate::Failure;
use faults::MAX_FILE_BYTES;
use std::env;
use std::io::Read;

// The file's bytes. A program takes no argument. No failure here is one that would have been told already.
pub fn read_file(rt: &HostRuntime) -> Result<Vec<u8>, Failure>
    ensures { IfErr result (λ failure. failure ≡ Refused → ⊥) }
{
    check_words(env::args(rt)?.count())?;
    let mut file = Vec::new(rt.alloc());
    rt.stdin().take(most_bytes()).read_to_end(&mut file)?;
    Ok(file)
}

// The first word of a call is the program's own name.
fn check_words(words: usize) -> Result<(), Failure>
    ensures { result ≡ (if nat_lt 1 words then Err Usage else Ok tt) }
{
    if words > 1 {
        return Err(Failure::Usage);
    }
    Ok(())
}

// One byte more than a file may have: no input is read without end, and one that is too long is seen to be.
fn most_bytes() -> u64
    ensures { result ≡ max_file_bytes + 1 }
{
    MAX_FILE_BYTES as u64 + 1
}
