// The printer of a finished listing.
ghost use Rattle.std.specs.Prelude.{◌≡◌};
ghost use Rattle.pla.specs.Printed.{printed};
ghost use Rattle.pla.specs.Telling.{TextTells};

use crate::write::write_list;
use cubes::Entry;
use faults::{Fault, ListingFault};
use listing::Finished;

// Writes the text of the list, or refuses a register that is shorter than the entries held, then a text memory that is too short.
pub fn print(finished: &Finished, register: &[Entry], text: &mut [u8]) -> Result<usize, Fault>
    ensures value { (result, text.new) ≡ printed finished.now register.now text.old }
    ensures tells { TextTells }
{
    laws();
    let first = finished.waivers() as usize;
    let held = first + finished.cubes() as usize;
    if register.len() < held {
        return Err(Fault::Listing(ListingFault::RegisterShort(held)));
    }
    write_list(finished.inputs(), &register[first..held], text).map_err(Fault::Table)
}

// The laws of the text, which stand on the contract of `print`.
fn laws()
    ensures { TextTells }
{}
