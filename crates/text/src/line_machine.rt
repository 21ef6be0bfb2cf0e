// The machine that reads a line of numbers: where it stands in the line and the class of the byte there say what it does. They
// are matched together, changing the machine in place, by a rule of the project.
ghost use Rattle.std.specs.Prelude.{◌≡◌};
ghost use Rattle.text.specs.Steps.{fresh, is_ended, step_of, end_of};

use crate::classes::{Class, class_of};
use crate::machine::Machine;
use crate::numbers::number;
use faults::TextFault;

// The longest line, the header, has numbers 0 to 4. A shorter line begins at a later number and ends with the same one.
const NUMBERS: usize = 5;

const LAST: u8 = 4;

// Where in the line the machine stands: at a byte of the word `aag`, at the blank before a number, at a number, at the
// newline or after it.
#[derive(Clone, Copy)]
pub enum Due {
    Word(u8),
    Gap(u8),
    Number(u8),
    End,
    Ended,
}

#[derive(Clone, Copy)]
pub struct LineMachine {
    due: Due,
    at: usize,
    values: [u32; NUMBERS],
}

impl LineMachine {
    // The machine at the start of a line, from a place on.
    pub fn new(due: Due, at: usize) -> LineMachine
        ensures { result ≡ fresh due at }
    {
        LineMachine {
            due,
            at,
            values: [0; NUMBERS],
        }
    }
}

impl Machine for LineMachine {
    type Fault = TextFault;

    type Answer = ([u32; NUMBERS], usize);

    ghost over = { is_ended };

    ghost at = { λ m. m.at };

    ghost after = { step_of };

    ghost answer = { end_of };

    fn is_over(&self) -> bool {
        matches!(self.due, Due::Ended)
    }

    fn place(&self) -> usize {
        self.at
    }

    // Takes in the byte where the machine stands, or the number that begins there.
    fn step(&mut self, file: &[u8]) -> Result<(), TextFault> {
        let Some(byte) = file.get(self.at) else {
            return Err(TextFault::Misfit(self.at));
        };
        match (self.due, class_of(*byte)) {
            (Due::Word(k), Class::Letter) => {
                self.due = match (k, *byte) {
                    (0 | 1, b'a') => Due::Word(k + 1),
                    (2.., b'g') => Due::Gap(0),
                    _ => return Err(TextFault::Misfit(self.at)),
                };
            }
            (Due::Gap(k), Class::Blank) => {
                self.due = Due::Number(k);
            }
            (Due::Number(k), Class::Digit) => {
                let (value, end) = number(file, self.at)?;
                self.at = end;
                if k < LAST {
                    self.values[k as usize] = value;
                    self.due = Due::Gap(k + 1);
                } else {
                    self.values[LAST as usize] = value;
                    self.due = Due::End;
                }
                return Ok(());
            }
            (Due::End, Class::Newline) => {
                self.due = Due::Ended;
            }
            _ => return Err(TextFault::Misfit(self.at)),
        }
        self.at += 1;
        Ok(())
    }

    // The five numbers and the place after the line, or the misfit where the file ends early.
    fn finish(self) -> Result<([u32; NUMBERS], usize), TextFault> {
        let values = self.values;
        match self.due {
            Due::Ended => Ok((values, self.at)),
            _ => Err(TextFault::Misfit(self.at)),
        }
    }
}
