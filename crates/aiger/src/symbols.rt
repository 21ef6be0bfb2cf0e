// The symbol lines and the comment: where the machine stands and the class of the byte there say what it does. They are matched
// together, changing the machine in place, by a rule of the project.
ghost use Rattle.std.specs.Prelude.{◌≡◌, ◌<◌, true, slice_set};
ghost use Rattle.aiger.specs.Symbols.{free, slot_of, misfit_of, step_of, is_over, end_of, refused_at, symbols_at};

use crate::counts::Counts;
use crate::file::File;
use crate::states::{Letter, SLOTS, State, SymbolFault, slot};
use faults::{CircuitFault, Rule, TextFault};
use text::{Class, Machine, class_of, number, run};

// The most bytes of a name.
const MAX_NAME: u8 = 64;

#[derive(Clone, Copy)]
pub struct SymbolMachine {
    state: State,
    at: usize,
    inputs: u32,
    seen: [bool; SLOTS],
}

impl SymbolMachine {
    // The byte where the machine stands misfits.
    fn misfit(&self) -> SymbolFault
        ensures { result ≡ misfit_of self.now }
    {
        SymbolFault::Text(TextFault::Misfit(self.at))
    }

    // The slot of a position, if the position is not too large and was not seen before.
    fn free_slot(&self, letter: Letter, position: u32) -> Option<usize>
        ensures { result ≡ free self.now.seen (slot_of letter position self.now.inputs) }
    {
        let place = slot(letter, position, self.inputs)?;
        match self.seen.get(place) {
            Some(true) => None,
            _ => Some(place),
        }
    }

    // Marks a slot. One past the last changes nothing.
    fn mark(&mut self, place: usize)
        ensures { self.new ≡ record { state = self.old.state; at = self.old.at; inputs = self.old.inputs; seen = slice_set self.old.seen place true } }
    {
        if place < SLOTS {
            self.seen[place] = true;
        }
    }
}

impl Machine for SymbolMachine {
    type Fault = SymbolFault;

    type Answer = ();

    ghost over = { is_over };

    ghost at = { λ m. m.at };

    ghost after = { step_of };

    ghost answer = { end_of };

    fn is_over(&self) -> bool {
        matches!(self.state, State::Done)
    }

    fn place(&self) -> usize {
        self.at
    }

    // Takes in the byte where the machine stands, or the number that begins there.
    fn step(&mut self, file: &[u8]) -> Result<(), SymbolFault> {
        let Some(byte) = file.get(self.at) else {
            return Err(self.misfit());
        };
        match (self.state, class_of(*byte)) {
            (State::Start, Class::Letter) => {
                self.state = match *byte {
                    b'i' => State::Position(Letter::Input),
                    b'o' => State::Position(Letter::Output),
                    b'c' => State::Comment,
                    _ => return Err(self.misfit()),
                };
            }
            (State::Position(letter), Class::Digit) => {
                let (position, end) = number(file, self.at)?;
                self.state = State::Gap(letter, position);
                self.at = end;
                return Ok(());
            }
            (State::Gap(letter, position), Class::Blank) => {
                self.state = State::Name(letter, position, 0);
            }
            (
                State::Name(letter, position, n),
                Class::Digit | Class::Blank | Class::Letter | Class::Mark,
            ) => {
                if n >= MAX_NAME {
                    return Err(self.misfit());
                }
                self.state = State::Name(letter, position, n + 1);
            }
            (State::Name(letter, position, n), Class::Newline) => {
                if n == 0 {
                    return Err(self.misfit());
                }
                let Some(place) = self.free_slot(letter, position) else {
                    return Err(SymbolFault::NoSlot(self.at));
                };
                self.mark(place);
                self.state = State::Start;
            }
            (State::Comment, Class::Newline) => {
                self.state = State::Done;
            }
            _ => return Err(self.misfit()),
        }
        self.at += 1;
        Ok(())
    }

    // Whether the file may end here.
    fn finish(self) -> Result<(), SymbolFault> {
        match self.state {
            State::Start | State::Done => Ok(()),
            _ => Err(self.misfit()),
        }
    }
}

// A fault of the machine, with its line.
fn refused(file: File, fault: SymbolFault) -> CircuitFault
    ensures { result ≡ refused_at file.entry.bytes.now fault }
{
    match fault {
        SymbolFault::Text(fault) => CircuitFault::Text(file.locate(fault)),
        SymbolFault::NoSlot(place) => {
            CircuitFault::Broken(Rule::SymbolPosition, file.line_at(place))
        }
    }
}

// The symbol lines and what follows them, up to the end of the file.
pub fn symbol_lines(file: File, start: usize, counts: Counts) -> Result<(), CircuitFault>
    ensures { result ≡ symbols_at file.entry.bytes.now start counts.inputs }
{
    let machine = SymbolMachine {
        state: State::Start,
        at: start,
        inputs: counts.inputs,
        seen: [false; SLOTS],
    };
    // Tried: `map_err`, but what a closure over a file gives is not seen by the proof.
    match run(file.bytes, machine) {
        Ok(()) => Ok(()),
        Err(fault) => Err(refused(file, fault)),
    }
}
