// Why a program ends with status 1.
ghost use Rattle.std.specs.Prelude.{◌≡◌, false, Some, Err, is_ok, if◌then◌else◌};
ghost use Rattle.std.specs.Process.{exit_status};
ghost use Rattle.shell.specs.declared.failure.Failure.TheVariants.{Refused, Memory, Stream};
ghost use Rattle.shell.specs.Failures.{failure_text, OrStream};

use faults::JobFault;
use std::alloc::AllocError;
use std::process::ExitCode;
use std::{fmt, io};

#[derive(Clone, Copy, Debug)]
pub enum Failure {
    // An argument was given.
    Usage,
    // The job was refused, and the refusal printed.
    Refused,
    // There is not enough memory.
    Memory,
    // Standard input or output failed.
    Stream,
}

impl From<AllocError> for Failure {
    ghost from_gives = { λ _ failure. failure ≡ Memory };

    fn from(_e: AllocError) -> Failure {
        Failure::Memory
    }
}

impl From<io::Error> for Failure {
    ghost from_gives = { λ _ failure. failure ≡ Stream };

    fn from(_e: io::Error) -> Failure {
        Failure::Stream
    }
}

impl fmt::Display for Failure {
    ghost output = { λ failure. Some (failure_text failure) };

    fn fmt<W: fmt::Write>(&self, f: &mut fmt::Formatter<W>) -> fmt::Result {
        f.write_str(match self {
            Failure::Usage =>
                "usage: takes no argument; a circuit in ASCII AIGER on standard input",
            Failure::Refused => "refused",
            Failure::Memory => "not enough memory",
            Failure::Stream => "standard input or output failed",
        })
    }
}

// Prints a refusal, with which the program fails.
pub fn refuse(rt: &HostRuntime, fault: JobFault) -> Result<(), Failure>
    ensures refused { is_ok result ≡ false }
    ensures failure { OrStream result (Err Refused) }
{
    println!(rt; "{fault}")?;
    Err(Failure::Refused)
}

// Says on standard error why a program fails, and hands the result on. A refusal is printed already.
pub fn explain(rt: &HostRuntime, res: Result<(), Failure>) -> Result<(), Failure>
    ensures success { is_ok result ≡ is_ok res }
    ensures failure { OrStream result res }
{
    match res {
        Ok(()) | Err(Failure::Refused) => {}
        Err(failure) => eprintln!(rt; "{failure}")?,
    }
    res
}

// The status that a program ends with. Why it fails is told by then.
pub fn status(res: Result<(), Failure>) -> ExitCode
    ensures { exit_status result ≡ (if is_ok res then 0 else 1) }
{
    match res {
        Ok(()) => ExitCode::SUCCESS,
        Err(_) => ExitCode::FAILURE,
    }
}
