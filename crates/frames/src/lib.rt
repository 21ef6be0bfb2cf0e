// Many files in one run of bytes, as a program reads them from standard input.
// Takes the bytes, in which a line of three numbers (the file's number, its bytes, its room) stands before each file; gives the files.
// Promises which files they are, up to the first frame that is bad.
#![tactic(auto)]

ghost use Rattle.std.specs.Prelude.{◌≡◌, length};
ghost use Rattle.std.specs.IoError.{error_kind};
ghost use Rattle.std.specs.declared.io.ErrorKind.TheVariants.{InvalidData};
ghost use Rattle.frames.specs.Frames.{first_frame, parts};
ghost use Rattle.frames.specs.declared.FrameFault.TheVariants.{Line};

use faults::TextFault;
use std::io;
use text::triple_line;

#[derive(Clone, Copy)]
pub struct Frame<'a> {
    pub number: u32,
    pub file: &'a [u8],
    pub room: u32,
}

#[derive(Clone, Copy)]
pub enum FrameFault {
    // It does not begin with a line of three numbers.
    Line,
    // The bytes end before the file does.
    File,
}

impl From<TextFault> for FrameFault {
    ghost from_gives = { λ _ e. e ≡ Line };

    fn from(_fault: TextFault) -> FrameFault {
        FrameFault::Line
    }
}

impl From<FrameFault> for io::Error {
    ghost from_gives = { λ _ e. error_kind e ≡ InvalidData };

    fn from(_fault: FrameFault) -> io::Error {
        io::Error::from(io::ErrorKind::InvalidData)
    }
}

// The frames of the bytes, up to the first bad one.
#[derive(Drop)]
pub struct Frames<'a> {
    bytes: &'a [u8],
}

impl<'a> Frames<'a> {
    pub fn new(bytes: &'a [u8]) -> Frames<'a>
        ensures { result.bytes.now ≡ bytes.now }
    {
        Frames { bytes }
    }
}

// The frame at the front, and the bytes behind it.
fn split_frame<'a>(bytes: &'a [u8]) -> Result<(Frame<'a>, &'a [u8]), FrameFault>
    ensures { parts result ≡ first_frame bytes.now }
{
    let ([number, size, room], start) = triple_line(bytes, 0)?;
    let (file, rest) = bytes[start..]
        .split_at_checked(size as usize)
        .ok_or(FrameFault::File)?;
    let frame = Frame { number, file, room };
    Ok((frame, rest))
}

impl<'a> Iterator for Frames<'a> {
    ghost use Rattle.std.specs.Iterator.{at_most};
    ghost use Rattle.frames.specs.Frames.{TakesFrame};

    type Item = Result<Frame<'a>, FrameFault>;

    ghost next_gives = { λ s r t. TakesFrame s.bytes.now r t.bytes.now };

    ghost remaining = { λ s. at_most (length s.bytes.now) };

    fn next(&mut self) -> Option<Result<Frame<'a>, FrameFault>> {
        if self.bytes.is_empty() {
            return None;
        }
        match split_frame(self.bytes) {
            Ok((frame, rest)) => {
                self.bytes = rest;
                Some(Ok(frame))
            }
            Err(fault) => {
                self.bytes = &[];
                Some(Err(fault))
            }
        }
    }
}
