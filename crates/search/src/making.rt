// Making the search decider.
ghost use Rattle.std.specs.Prelude.{◌≡◌, ◌&&◌, length, is_ok, if◌then◌else◌};
ghost use Rattle.circuit.specs.Netlists.{netlist};
ghost use Rattle.circuit.specs.Solutions.{solves};
ghost use Rattle.search.specs.Searches.{made_of, inputs_of, rows_of};

use circuit::{Circuit, Ternary};
use faults::TableFault;

pub mod deciding;

// A circuit, and the value table for its questions. Where that is too short, a decider of no inputs and no rows.
#[derive(Drop)]
pub struct Search<'a, 'b> {
    circuit: Circuit<'a>,
    values: &'b mut [Ternary],
}

// What making gives: a decider and whether the value table has room. By a rule of the project a decider whose making is refused is still
// there, with no inputs and no rows, so this is no Result with it inside.
#[derive(Drop)]
pub struct Made<'a, 'b> {
    pub search: Search<'a, 'b>,
    pub outcome: Result<(), TableFault>,
}

impl<'a, 'b> Search<'a, 'b> {
    pub fn make(circuit: Circuit<'a>, values: &'b mut [Ternary]) -> Made<'a, 'b>
        ensures outcome { result.outcome ≡ made_of (netlist circuit.entry) (length values.old) }
        ensures circuit { result.search.circuit ≡ circuit.entry }
        ensures values { result.search.values.now ≡ values.old }
        ensures inputs { inputs_of result.search ≡ (if is_ok result.outcome then circuit.entry.inputs else 0) }
        ensures rows { rows_of result.search ≡ (λ row. is_ok result.outcome && solves (netlist circuit.entry) row) }
    {
        let outcome = circuit.check_places(values.len());
        let search = Search { circuit, values };
        Made { search, outcome }
    }
}
