// Running a listing to its end.
ghost use Rattle.std.specs.Prelude.{◌≡◌};
ghost use Rattle.cubes.specs.Deciders.{Kept};
ghost use Rattle.jobs.specs.Lists.{most_nexts, run_of};

use cubes::{Decider, Entry};
use faults::ListingFault;
use listing::{Finished, Running, Step};

// Calls next until the listing is finished. Each next but the last uses one of at most 4,096 entries, so it ends.
pub fn finish<D: Decider>(
    running: Running,
    register: &mut [Entry],
    decider: &mut D,
) -> Result<Finished, ListingFault>
    ensures run { (result, register.new) ≡ run_of most_nexts (D.Decider.arity decider.old) (D.Decider.rows decider.old) running register.old }
    ensures kept { Kept D.Decider.arity D.Decider.rows decider.old decider.new }
{
    let mut listing = running;
    loop {
        match listing.next(register, decider)? {
            Step::Listed(longer) => listing = longer,
            Step::Ended(finished) => return Ok(finished),
        }
    }
}
