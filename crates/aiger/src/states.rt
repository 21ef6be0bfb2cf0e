// Where the symbol machine stands, what it refuses, and where it marks a symbol as seen: a slot for each input and one for
// the output.
ghost use Rattle.std.specs.Prelude.{◌≡◌};
ghost use Rattle.aiger.specs.Symbols.{slot_of};
ghost use Rattle.aiger.specs.declared.states.SymbolFault.TheVariants.{Text};

use circuit::MAX_INPUTS;
use faults::TextFault;

// The output's slot stands after those of the inputs.
const OUTPUT_SLOT: usize = MAX_INPUTS as usize;

pub const SLOTS: usize = OUTPUT_SLOT + 1;

#[derive(Clone, Copy)]
pub enum Letter {
    Input,
    Output,
}

// Where in a symbol line the machine stands: at its letter, at the position, at the blank after it, or in the name, after
// so many bytes of it; or behind the letter of the comment, or past its line.
#[derive(Clone, Copy)]
pub enum State {
    Start,
    Position(Letter),
    Gap(Letter, u32),
    Name(Letter, u32, u8),
    Comment,
    Done,
}

// What the machine refuses, by its place in the file.
#[derive(Clone, Copy)]
pub enum SymbolFault {
    Text(TextFault),
    // The position is too large, or was seen before: the place where its line ends.
    NoSlot(usize),
}

impl From<TextFault> for SymbolFault {
    ghost from_gives = { λ e r. r ≡ Text e };

    fn from(fault: TextFault) -> SymbolFault {
        SymbolFault::Text(fault)
    }
}

// The slot of a position, if it is not too large.
pub fn slot(letter: Letter, position: u32, inputs: u32) -> Option<usize>
    ensures { result ≡ slot_of letter position inputs }
{
    match letter {
        Letter::Input if position < inputs => Some(position as usize),
        Letter::Output if position == 0 => Some(OUTPUT_SLOT),
        _ => None,
    }
}
