// Listing and printing the rows of a decider.
ghost use Rattle.std.specs.Prelude.{◌≡◌};
ghost use Rattle.jobs.specs.Afterwards.{rows_register};
ghost use Rattle.jobs.specs.Lists.{rows_text};

use crate::finishing::finish;
use cubes::{Decider, Entry};
use faults::{JobFault, Stage};
use listing::Draft;

// Writes the text of the decider's list.
pub fn print_list<D: Decider>(
    mode: u32,
    decider: &mut D,
    register: &mut [Entry],
    text: &mut [u8],
) -> Result<usize, JobFault>
    ensures value { (result, text.new) ≡ rows_text mode (D.Decider.arity decider.old) (D.Decider.rows decider.old) register.old text.old }
    ensures register { register.new ≡ rows_register mode (D.Decider.arity decider.old) (D.Decider.rows decider.old) register.old }
{
    let draft = Draft::open(mode, decider.inputs())?;
    let finished = finish(draft.begin(), register, decider)?;
    pla::print(&finished, register, text).map_err(|fault| JobFault {
        fault,
        stage: Stage::Listing,
    })
}
