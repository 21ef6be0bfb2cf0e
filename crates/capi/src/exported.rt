// The exported call.
ghost use Rattle.std.specs.Prelude.{◌≡◌, ◌≤◌, length, take};
ghost use Rattle.jobs.specs.Lists.{list_of};
ghost use Rattle.jobs.specs.Sizes.{enough, blank_register, text_bytes};
ghost use Rattle.jobs.specs.Told.{Told};
ghost use Rattle.capi.specs.Answers.{DueNumber, Truthful, answered};

use crate::Answer;
use circuit::{Ternary, Word};
use cubes::Entry;
use jobs::{BIT_WORDS, ENTRIES, GATE_WORDS, PLACES, Workspace};

// Lists the solutions of the file's circuit in a mode, as `jobs::list` does, with work memory of its own. Gives 0, or
// the number of the refusal. The mode is a number, as `jobs::list` takes it, and C has no other.
#[unsafe(no_mangle)]
pub extern "C" fn jerovuha_list(file: &[u8], mode: u32, text: &mut [u8], answer: &mut Answer) -> u32
    ensures value { (result, answer.new, text.new) ≡ answered (list_of file.now mode enough blank_register text.old) }
    ensures fits { answer.new.length ≤ length text.new }
    ensures due { text_bytes ≤ length text.old → DueNumber result }
    ensures refused { Truthful file.now answer.new }
    ensures told { result ≡ 0 → Told file.now enough.gate_table mode (take answer.new.length text.new) }
{
    // On the stack, since the library has no heap and the caller lends only the text.
    let mut gate_table = [0u32; GATE_WORDS];
    let mut bits = [0u32; BIT_WORDS];
    let mut words = [Word::new(0); PLACES];
    let mut signals = [Ternary::Zero; PLACES];
    let mut register = [Entry { care: 0, value: 0 }; ENTRIES];
    let workspace = Workspace {
        gate_table: &mut gate_table,
        bits: &mut bits,
        words: &mut words,
        signals: &mut signals,
    };
    *answer = match jobs::list(file, mode, workspace, &mut register, text) {
        Ok(size) => Answer::success(size),
        Err(fault) => Answer::refusal(fault),
    };
    answer.number
}
