// The modes and the numbers of inputs that open takes.
ghost use Rattle.std.specs.Prelude.{◌≡◌, ok_or};
ghost use Rattle.faults.specs.declared.listing.ListingFault.TheVariants.{Mode as ModeFault, InputCount};
ghost use Rattle.listing.specs.Calls.{mode_of, arity_of};

use crate::arity::Arity;
use crate::mode::Mode;
use cubes::MAX_INPUTS;
use faults::ListingFault;

impl TryFrom<u32> for Mode {
    type Error = ListingFault;

    ghost try_from_gives = { λ number r. r ≡ ok_or (mode_of number) ModeFault };

    fn try_from(number: u32) -> Result<Mode, ListingFault> {
        match number {
            1 => Ok(Mode::Separate),
            2 => Ok(Mode::Shared),
            _ => Err(ListingFault::Mode),
        }
    }
}

impl TryFrom<u32> for Arity {
    type Error = ListingFault;

    ghost try_from_gives = { λ inputs r. r ≡ ok_or (arity_of inputs) InputCount };

    fn try_from(inputs: u32) -> Result<Arity, ListingFault> {
        if inputs < 1 || inputs > MAX_INPUTS {
            return Err(ListingFault::InputCount);
        }
        Ok(Arity { inputs })
    }
}
