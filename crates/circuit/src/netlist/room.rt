// The room that a circuit's evaluation needs.
ghost use Rattle.std.specs.Prelude.{◌≡◌, ◌+◌, ◌<◌, IfOk};
ghost use Rattle.circuit.specs.Circuits.{highest};
ghost use Rattle.circuit.specs.Netlists.{netlist};
ghost use Rattle.circuit.specs.Answers.{with_room};

use crate::Circuit;
use faults::TableFault;

impl<'a> Circuit<'a> {
    // How many places a value table needs: one for each variable, and place 0.
    pub fn places(&self) -> usize
        ensures { result ≡ highest (netlist self.now) + 1 }
    {
        self.inputs as usize + self.gates.len() / 2 + 1
    }

    // Whether a value table of so many places suffices.
    pub fn check_places(&self, places: usize) -> Result<(), TableFault>
        ensures value { result ≡ with_room (netlist self.now) places tt }
        ensures room { IfOk result (λ _. highest (netlist self.now) < places) }
    {
        let needed = self.places();
        if places < needed {
            return Err(TableFault::ValuesShort(needed));
        }
        Ok(())
    }
}
