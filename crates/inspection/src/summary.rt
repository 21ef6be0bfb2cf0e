// What is told of a circuit at a first look.
ghost use Rattle.std.specs.Prelude.{◌≡◌, ◌≤◌, IfOk, string_bytes};
ghost use Rattle.inspection.specs.Rows.{bit_text, row_text};

use circuit::bit_at;
use cubes::Row;
use std::alloc::{AllocError, Global};

#[derive(Clone, Copy)]
pub struct Summary {
    pub inputs: u32,
    pub gates: u32,
    pub output: u32,
    // The number of solutions, if there are few enough inputs to count them.
    pub solutions: Option<u32>,
    pub smallest: Option<Row>,
}

// The row's bits as text, input 1 first. No `Display`: a row is a number, and says no number of inputs.
#[tactic(auto, using(crate::proofs::Rows::row_more))]
pub fn row_text(heap: Global, inputs: u32, row: Row) -> Result<String, AllocError>
    ensures { IfOk result (λ s. string_bytes s ≡ row_text inputs row) }
{
    let mut text = String::new(heap);
    for place in (0..inputs).rev() {
        text.push(bit_text(row, place))?;
    }
    Ok(text)
}

fn bit_text(row: Row, place: u32) -> char
    ensures value { result ≡ bit_text row place }
    ensures ascii { result ≤ 49 }
{
    if bit_at(row, place) { '1' } else { '0' }
}
