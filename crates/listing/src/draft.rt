// Opening, waiving and beginning.
ghost use Rattle.std.specs.Prelude.{◌≡◌};
ghost use Rattle.listing.specs.Calls.{opened, waived, begun, well_formed};
ghost use Rattle.listing.specs.Theorem.{StoriesHold};

use crate::arity::Arity;
use crate::mode::Mode;
use crate::room::has_room;
use crate::states::{Draft, Running};
use cubes::{Cube, Entry};
use faults::ListingFault;

impl Draft {
    // A draft without entries; mode 1 is of separate cubes, mode 2 of shared rows. Every story starts here. The mode is a number, as a
    // rule of the project wants it: other numbers are refused by a number of their own.
    #[tactic(auto, using(crate::proofs::Main::stories_hold))]
    pub fn open(mode: u32, inputs: u32) -> Result<Draft, ListingFault>
        ensures draft { result ≡ opened mode inputs }
        ensures stories { StoriesHold }
    {
        let mode = Mode::try_from(mode)?;
        let arity = Arity::try_from(inputs)?;
        Ok(Draft {
            arity,
            mode,
            waivers: 0,
        })
    }

    // Writes the cube as one more waiver.
    pub fn waive(&mut self, register: &mut [Entry], cube: Cube) -> Result<(), ListingFault>
        ensures { (result, self.new, register.new) ≡ waived self.old register.old cube }
    {
        let held = self.waivers as usize;
        if register.len() < held {
            return Err(ListingFault::RegisterShort(held));
        }
        if !well_formed(cube, self.arity) {
            return Err(ListingFault::Waiver(held));
        }
        if !has_room(held, register) {
            return Err(ListingFault::RegisterFull(held));
        }
        register[held] = Entry::waiver(cube);
        self.waivers += 1;
        Ok(())
    }

    pub fn begin(self) -> Running
        ensures { result ≡ begun self }
    {
        Running {
            draft: self,
            cubes: 0,
        }
    }
}

// Whether the cube's value lies inside its care, and its care inside the inputs.
fn well_formed(cube: Cube, arity: Arity) -> bool
    ensures { result ≡ well_formed arity.inputs cube }
{
    cube.value() & cube.care() == cube.value() && cube.care() < 1 << arity.inputs
}
