// Why a case has no answer.
use faults::{CircuitFault, Fault, ListingFault, TableFault};
use listing::Refusal;
use std::alloc::AllocError;

#[derive(Drop)]
pub enum Failure {
    Memory(AllocError),
    Refused(Fault),
}

impl From<AllocError> for Failure {
    fn from(error: AllocError) -> Failure {
        Failure::Memory(error)
    }
}

impl From<Fault> for Failure {
    fn from(fault: Fault) -> Failure {
        Failure::Refused(fault)
    }
}

impl From<CircuitFault> for Failure {
    fn from(fault: CircuitFault) -> Failure {
        Failure::Refused(Fault::Circuit(fault))
    }
}

impl From<TableFault> for Failure {
    fn from(fault: TableFault) -> Failure {
        Failure::Refused(Fault::Table(fault))
    }
}

impl From<ListingFault> for Failure {
    fn from(fault: ListingFault) -> Failure {
        Failure::Refused(Fault::Listing(fault))
    }
}

impl From<Refusal> for Failure {
    fn from(refusal: Refusal) -> Failure {
        Failure::from(refusal.fault)
    }
}
