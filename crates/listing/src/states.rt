// A listing in its three states. None can be copied, and only the calls make one. The register is lent to each call, by a rule of the
// project, so a listing holds its counts alone.
ghost use Rattle.std.specs.Prelude.{◌≡◌};

use crate::arity::Arity;
use crate::mode::Mode;
use faults::ListingFault;

// Takes waivers.
#[derive(Drop)]
pub struct Draft {
    pub(crate) arity: Arity,
    pub(crate) mode: Mode,
    pub(crate) waivers: u32,
}

// Lists cubes, behind the waivers of its draft.
#[derive(Drop)]
pub struct Running {
    pub(crate) draft: Draft,
    pub(crate) cubes: u32,
}

// Has listed every cube.
#[derive(Drop)]
pub struct Finished {
    pub(crate) listing: Running,
}

// What one next gives: a listing with one more cube, or the finished one. Both are what was asked for, so it is no Result.
#[derive(Drop)]
pub enum Step {
    Listed(Running),
    Ended(Finished),
}

// A refused next gives its listing back.
#[derive(Drop)]
pub struct Refusal {
    pub listing: Running,
    pub fault: ListingFault,
}

// The fault alone, where the listing is given up.
impl From<Refusal> for ListingFault {
    ghost from_gives = { λ refusal fault. fault ≡ refusal.fault };

    fn from(refusal: Refusal) -> ListingFault {
        refusal.fault
    }
}
