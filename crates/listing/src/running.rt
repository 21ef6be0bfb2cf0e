// The next cube, and reopening a running listing.
ghost use Rattle.std.specs.Prelude.{◌≡◌, ◌<◌};
ghost use Rattle.cubes.specs.Deciders.{Kept};
ghost use Rattle.listing.specs.Limits.{max_entries};
ghost use Rattle.listing.specs.Calls.{entries, one_more, nexted, reopened};

use crate::leading::find_lead;
use crate::mode::Mode;
use crate::room::has_room;
use crate::states::{Draft, Finished, Refusal, Running, Step};
use crate::widening::widen;
use cubes::{Decider, Entry};
use faults::ListingFault;

impl Running {
    // Lists the widest cube around the lead, or ends where no lead is left.
    pub fn next<D: Decider>(self, register: &mut [Entry], decider: &mut D) -> Result<Step, Refusal>
        ensures next { (result, register.new) ≡ nexted self (D.Decider.arity decider.old) (D.Decider.rows decider.old) register.old }
        ensures kept { Kept D.Decider.arity D.Decider.rows decider.old decider.new }
    {
        let held = self.held();
        if register.len() < held {
            return Err(self.refused(ListingFault::RegisterShort(held)));
        }
        let arity = self.draft.arity;
        if decider.inputs() != arity.inputs {
            return Err(self.refused(ListingFault::DeciderInputs(held)));
        }
        let Some(row) = find_lead(decider, &register[0..held]) else {
            return Ok(Step::Ended(Finished { listing: self }));
        };
        if !has_room(held, register) {
            return Err(self.refused(ListingFault::RegisterFull(held)));
        }
        let shut = match self.draft.mode {
            Mode::Separate => held,
            Mode::Shared => self.draft.waivers as usize,
        };
        let cube = widen(decider, arity, row, &register[0..shut]);
        register[held] = Entry::listed(cube);
        Ok(Step::Listed(self.longer()))
    }

    // A draft with the same waivers and no cubes.
    pub fn reopen(self) -> Draft
        ensures { result ≡ reopened self }
    {
        let Running { draft, cubes: _ } = self;
        draft
    }

    // The entries that it counts.
    pub(crate) fn held(&self) -> usize
        ensures { result ≡ entries self.now }
    {
        self.draft.waivers as usize + self.cubes as usize
    }

    fn refused(self, fault: ListingFault) -> Refusal
        ensures { result ≡ record { listing = self; fault = fault } }
    {
        Refusal {
            listing: self,
            fault,
        }
    }

    // The listing with one cube more.
    fn longer(self) -> Running
        requires { self.cubes < max_entries }
        ensures { result ≡ one_more self }
    {
        let Running { draft, cubes } = self;
        Running {
            draft,
            cubes: cubes + 1,
        }
    }
}
