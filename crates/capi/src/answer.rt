// What a call tells beside the text, in numbers that C can read: an enum may not cross to C, so layer and stage are numbers.
ghost use Rattle.std.specs.Prelude.{◌≡◌};
ghost use Rattle.capi.specs.Answers.{layer_code, stage_code, succeeded, refused};

use faults::{JobFault, Layer, Stage};

#[derive(Clone, Copy)]
#[repr(C)]
pub struct Answer {
    // The length of the text; 0 where the job is refused.
    pub length: usize,
    // The refusal; all 0 where there is none.
    pub place: usize,
    pub number: u32,
    pub layer: u32,
    pub line: u32,
    pub stage: u32,
}

impl Answer {
    pub fn success(length: usize) -> Answer
        ensures { result ≡ succeeded length }
    {
        Answer {
            length,
            place: 0,
            number: 0,
            layer: 0,
            line: 0,
            stage: 0,
        }
    }

    pub fn refusal(fault: JobFault) -> Answer
        ensures { result ≡ refused fault }
    {
        let report = fault.fault.report();
        Answer {
            length: 0,
            place: report.place,
            number: report.number,
            layer: layer_code(report.layer),
            line: report.line,
            stage: stage_code(fault.stage),
        }
    }
}

fn layer_code(layer: Layer) -> u32
    ensures { result ≡ layer_code layer }
{
    match layer {
        Layer::Text => 0,
        Layer::Circuit => 1,
        Layer::Listing => 2,
        Layer::Table => 3,
    }
}

fn stage_code(stage: Stage) -> u32
    ensures { result ≡ stage_code stage }
{
    match stage {
        Stage::Reading => 0,
        Stage::Deciding => 1,
        Stage::Listing => 2,
    }
}
