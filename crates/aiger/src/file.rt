// A file within the limit. It has so few lines that 32 bits hold their numbers.
ghost use Rattle.std.specs.Prelude.{◌≡◌, ◌<◌, ◌≤◌, length, MatchResult};
ghost use Rattle.faults.specs.Reports.{max_file_bytes};
ghost use Rattle.text.specs.Places.{line_of};
ghost use Rattle.aiger.specs.FaultLines.{too_long, located_at, located_in};

use faults::{CircuitFault, Located, MAX_FILE_BYTES, TextFault};
use text::line_of;

#[derive(Clone, Copy)]
pub struct File<'a> {
    pub bytes: &'a [u8],
    ghost short: { length bytes.now ≤ max_file_bytes },
}

impl<'a> File<'a> {
    // The file of these bytes, unless there are too many.
    pub fn new(bytes: &'a [u8]) -> Result<File<'a>, CircuitFault>
        ensures { MatchResult result (λ f. (length bytes.now ≤ max_file_bytes) × (f.bytes.now ≡ bytes.now)) (λ e. (max_file_bytes < length bytes.now) × (e ≡ too_long)) }
    {
        if bytes.len() > MAX_FILE_BYTES {
            return Err(CircuitFault::Text(Located {
                fault: TextFault::TooLong,
                line: 0,
            }));
        }
        Ok(File { bytes })
    }

    // The line of a place.
    pub fn line_at(self, place: usize) -> u32
        ensures { result ≡ line_of self.entry.bytes.now place }
    {
        line_of(self.bytes, place) as u32
    }

    // A text fault with its line.
    pub fn locate(self, fault: TextFault) -> Located
        ensures { result ≡ located_at self.entry.bytes.now fault }
    {
        let line = match fault {
            TextFault::TooLong => 0,
            TextFault::Misfit(place) | TextFault::BadNumber(place) => self.line_at(place),
        };
        Located { fault, line }
    }

    // What was read, or the text fault with its line.
    pub fn located<T>(self, read: Result<T, TextFault>) -> Result<T, Located>
        ensures { result ≡ located_in self.entry.bytes.now read }
    {
        // Tried: `map_err`, but what a closure over a file gives is not seen by the proof.
        match read {
            Ok(x) => Ok(x),
            Err(fault) => Err(self.locate(fault)),
        }
    }
}
