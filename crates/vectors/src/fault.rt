// Why the program fails.
use frames::FrameFault;
use std::alloc::AllocError;
use std::io;

#[derive(Debug, Drop)]
pub enum Fault {
    Memory,
    Stream,
    // The line before a file, or the file's bytes.
    Frame,
}

impl From<AllocError> for Fault {
    fn from(_e: AllocError) -> Fault {
        Fault::Memory
    }
}

impl From<io::Error> for Fault {
    fn from(_e: io::Error) -> Fault {
        Fault::Stream
    }
}

impl From<FrameFault> for Fault {
    fn from(_e: FrameFault) -> Fault {
        Fault::Frame
    }
}
