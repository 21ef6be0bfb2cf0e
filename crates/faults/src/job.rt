// A job carries any fault, and adds the stage that met it.
ghost use Rattle.std.specs.Prelude.{◌≡◌, ◌≤◌, Some};
ghost use Rattle.faults.specs.declared.job.Fault.TheVariants.{Circuit, Listing, Table};
ghost use Rattle.faults.specs.declared.job.Stage.TheVariants.{Reading, Deciding, Listing as StageListing};
ghost use Rattle.faults.specs.Reports.{report_of, layer_of};
ghost use Rattle.faults.specs.Lines.{stage_name, refusal_line};

use crate::{CircuitFault, ListingFault, Report, TableFault};
use std::fmt;

#[derive(Clone, Copy)]
pub enum Fault {
    Circuit(CircuitFault),
    Listing(ListingFault),
    Table(TableFault),
}

#[derive(Clone, Copy)]
pub enum Stage {
    Reading,
    Deciding,
    Listing,
}

#[derive(Clone, Copy)]
pub struct JobFault {
    pub fault: Fault,
    pub stage: Stage,
}

impl From<CircuitFault> for JobFault {
    ghost from_gives = { λ e r. r ≡ record { fault = Circuit e; stage = Reading } };

    fn from(e: CircuitFault) -> JobFault {
        JobFault {
            fault: Fault::Circuit(e),
            stage: Stage::Reading,
        }
    }
}

impl From<TableFault> for JobFault {
    ghost from_gives = { λ e r. r ≡ record { fault = Table e; stage = Deciding } };

    fn from(e: TableFault) -> JobFault {
        JobFault {
            fault: Fault::Table(e),
            stage: Stage::Deciding,
        }
    }
}

impl From<ListingFault> for JobFault {
    ghost from_gives = { λ e r. r ≡ record { fault = Listing e; stage = StageListing } };

    fn from(e: ListingFault) -> JobFault {
        JobFault {
            fault: Fault::Listing(e),
            stage: Stage::Listing,
        }
    }
}

impl Fault {
    // The numbers are 1 to 22, and a number tells its layer.
    pub fn report(self) -> Report
        ensures value { result ≡ report_of self }
        ensures layer { result.layer ≡ layer_of result.number }
        ensures numbered { (1 ≤ result.number) × (result.number ≤ 22) }
    {
        match self {
            Fault::Circuit(fault) => fault.report(),
            Fault::Listing(fault) => fault.report(),
            Fault::Table(fault) => fault.report(),
        }
    }
}

impl fmt::Display for Stage {
    ghost output = { λ stage. Some (stage_name stage) };

    fn fmt<W: fmt::Write>(&self, f: &mut fmt::Formatter<W>) -> fmt::Result {
        match self {
            Stage::Reading => write!(f, "reading"),
            Stage::Deciding => write!(f, "deciding"),
            Stage::Listing => write!(f, "listing"),
        }
    }
}

// The line that a program prints of the refusal.
impl fmt::Display for JobFault {
    ghost output = { λ job. Some (refusal_line job) };

    fn fmt<W: fmt::Write>(&self, f: &mut fmt::Formatter<W>) -> fmt::Result {
        let report = self.fault.report();
        let number = report.number;
        let layer = report.layer;
        let place = report.place;
        let line = report.line;
        let stage = self.stage;
        write!(f, "refused {number} {layer} {place} {line} {stage}")
    }
}
