// What the circuit layer refuses: the numbers of a file that is well formed so far.
ghost use Rattle.std.specs.Prelude.{◌≡◌};
ghost use Rattle.faults.specs.declared.circuit.CircuitFault.TheVariants.{Text};
ghost use Rattle.faults.specs.Reports.{circuit_report, rule_number, text_report};

use crate::{Layer, MAX_FILE_BYTES, Report, TextFault};

// A text fault with its line: 1 and the newlines before its place, or 0 where the file is too long.
#[derive(Clone, Copy)]
pub struct Located {
    pub fault: TextFault,
    pub line: u32,
}

// The rules that a circuit's numbers keep.
#[derive(Clone, Copy)]
pub enum Rule {
    InputCount,
    LatchCount,
    OutputCount,
    GateCount,
    HighestVariable,
    GateTable,
    InputLine,
    OutputLiteral,
    GateLiteral,
    Operand,
    SymbolPosition,
}

#[derive(Clone, Copy)]
pub enum CircuitFault {
    Text(Located),
    // A rule, and the line that breaks it.
    Broken(Rule, u32),
}

impl From<Located> for CircuitFault {
    ghost from_gives = { λ e r. r ≡ Text e };

    fn from(e: Located) -> CircuitFault {
        CircuitFault::Text(e)
    }
}

impl Located {
    pub fn report(self) -> Report
        ensures { result ≡ text_report self.fault self.line }
    {
        let (number, place) = match self.fault {
            TextFault::TooLong => (1, MAX_FILE_BYTES),
            TextFault::Misfit(place) => (2, place),
            TextFault::BadNumber(place) => (3, place),
        };
        Report {
            number,
            layer: Layer::Text,
            place,
            line: self.line,
        }
    }
}

impl Rule {
    // A rule of the project: a refusal is told by its number.
    pub fn number(self) -> u32
        ensures { result ≡ rule_number self }
    {
        match self {
            Rule::InputCount => 4,
            Rule::LatchCount => 5,
            Rule::OutputCount => 6,
            Rule::GateCount => 7,
            Rule::HighestVariable => 8,
            Rule::GateTable => 9,
            Rule::InputLine => 10,
            Rule::OutputLiteral => 11,
            Rule::GateLiteral => 12,
            Rule::Operand => 13,
            Rule::SymbolPosition => 14,
        }
    }
}

impl CircuitFault {
    pub fn report(self) -> Report
        ensures { result ≡ circuit_report self }
    {
        match self {
            CircuitFault::Text(located) => located.report(),
            CircuitFault::Broken(rule, line) => Report {
                number: rule.number(),
                layer: Layer::Circuit,
                place: line as usize,
                line,
            },
        }
    }
}
