// What is refused for want of lent memory, or since a table would be too large.
ghost use Rattle.std.specs.Prelude.{◌≡◌};
ghost use Rattle.faults.specs.Reports.{table_report};

use crate::{Layer, Report};

#[derive(Clone, Copy)]
pub enum TableFault {
    // A table decider takes at most 16 inputs: the number of inputs.
    TooManyInputs(u32),
    // Too few words for the bits of a table: the number needed.
    BitsShort(usize),
    // Too few places in a value table: the number needed.
    ValuesShort(usize),
    // Too few bytes of text memory: the number needed.
    TextShort(usize),
}

impl TableFault {
    pub fn report(self) -> Report
        ensures { result ≡ table_report self }
    {
        let (number, place) = match self {
            TableFault::TooManyInputs(inputs) => (21, inputs as usize),
            TableFault::BitsShort(needed) => (22, needed),
            TableFault::ValuesShort(needed) => (22, needed),
            TableFault::TextShort(needed) => (22, needed),
        };
        Report {
            number,
            layer: Layer::Table,
            place,
            line: 0,
        }
    }
}
