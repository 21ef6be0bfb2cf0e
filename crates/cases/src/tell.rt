// Prints a case of a limit.
use crate::failure::Failure;
use faults::Report;
use std::fmt::{self, Display};
use std::io;

// What is told of a refusal.
#[derive(Drop)]
struct Refused(Report);

impl Display for Refused {
    fn fmt<W: fmt::Write>(&self, f: &mut fmt::Formatter<W>) -> fmt::Result {
        let Report {
            number,
            layer,
            place,
            line,
        } = self.0;
        write!(f, "refused {number} {layer} {place} {line}")
    }
}

// Prints a line: what comes of the case at a size, and whether that is what should.
pub fn tell<T: Display + Drop>(
    rt: &HostRuntime,
    what: &str,
    size: u32,
    answer: Result<T, Failure>,
    due: &str,
) -> io::Result<()> {
    let heap = rt.alloc();
    let given = match answer {
        Ok(answer) => format!(in heap; "{answer}")?,
        Err(Failure::Refused(fault)) => {
            let refused = Refused(fault.report());
            format!(in heap; "{refused}")?
        }
        Err(Failure::Memory(error)) => return Err(io::Error::from(error)),
    };
    if given.as_str() == due {
        println!(rt; "{what} {size}: {given}, as it should be")
    } else {
        println!(rt; "{what} {size}: {given}, SHOULD BE {due}")
    }
}
