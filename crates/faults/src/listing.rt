// What the listing layer refuses. A place is the number of entries held.
ghost use Rattle.std.specs.Prelude.{◌≡◌};
ghost use Rattle.faults.specs.Reports.{listing_report};

use crate::{Layer, Report};

#[derive(Clone, Copy)]
pub enum ListingFault {
    // The mode is neither 1 nor 2.
    Mode,
    // The number of inputs is not 1 to 30.
    InputCount,
    // A waiver's value lies outside its care, or its care outside the inputs.
    Waiver(usize),
    // No entry is free, or 4,096 are used.
    RegisterFull(usize),
    // The register is shorter than the entries held.
    RegisterShort(usize),
    // The decider has another number of inputs.
    DeciderInputs(usize),
}

impl ListingFault {
    pub fn report(self) -> Report
        ensures { result ≡ listing_report self }
    {
        let (number, place) = match self {
            ListingFault::Mode => (15, 0),
            ListingFault::InputCount => (16, 0),
            ListingFault::Waiver(held) => (17, held),
            ListingFault::RegisterFull(held) => (18, held),
            ListingFault::RegisterShort(held) => (19, held),
            ListingFault::DeciderInputs(held) => (20, held),
        };
        Report {
            number,
            layer: Layer::Listing,
            place,
            line: 0,
        }
    }
}
