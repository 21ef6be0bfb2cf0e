// A question, a word of 32 rows at a time.
ghost use Rattle.std.specs.Prelude.{◌≡◌, ℕ, ◌+◌, ◌*◌, ◌^◌, ◌<◌, ◌≤◌, true, not, ◌&&◌, length};
ghost use Rattle.circuit.specs.Limits.{max_table_inputs};
ghost use Rattle.circuit.specs.Kinds.{bit_at};
ghost use Rattle.circuit.specs.Lanes.{Lanes, words};
ghost use Rattle.cubes.specs.Cubes.{within, held};
ghost use Rattle.cubes.specs.Questions.{Answered};
ghost use Rattle.table.specs.Tables.{fits, table_rows};

use crate::lanes::{LANES, mask, of_kind};
use circuit::used_lanes;
use cubes::{Cube, Entry, Question, Row};

// Of the lanes of word w those that no barred entry holds.
fn free(barred: &[Entry], w: u32, start: u32) -> u32
    ensures { Lanes result (λ b. bit_at start b && not (held barred.now (32 * w + b))) }
{
    let mut left = start;
    // Where no lane is left, the other entries need no look.
    for e in barred {
        if left == 0 {
            return 0;
        }
        left &= !mask(e.cube(), w);
    }
    left
}

// The lanes of word w that fit the question.
fn candidates(n: u32, word: u32, w: u32, question: Question) -> u32
    requires { w < words n }
    ensures { Lanes result (λ b. fits n (bit_at word b) question.entry.cube.care question.entry.cube.value question.entry.wanted question.entry.barred.now (32 * w + b)) }
{
    let asked = of_kind(word, question.wanted) & used_lanes(n) & mask(question.cube, w);
    free(question.barred, w, asked)
}

// The word after the last that may have rows of the cube. Such a row is at most the cube's value with each open input 1.
fn end_word(n: u32, cube: Cube) -> u32
    requires { n ≤ max_table_inputs }
    ensures room { result ≤ words n }
    ensures past { (row : ℕ) → row < 2 ^ n → within cube.care cube.value row ≡ true → row < 32 * result }
{
    let rows = 1u32 << n;
    let most = cube.value() + (rows - 1 - cube.care() % rows);
    most.min(rows - 1) / LANES + 1
}

// The first row that fits, from the word of the cube's value on: no row of the cube is below it.
pub fn first(n: u32, bits: &[u32], question: Question) -> Option<Row>
    requires limit { n ≤ max_table_inputs }
    requires room { words n ≤ length bits.now }
    ensures { Answered n (table_rows bits.now) question.entry result }
{
    let cube = question.cube;
    for w in cube.value() / LANES..end_word(n, cube) {
        let left = candidates(n, bits[w as usize], w, question);
        if left != 0 {
            return Some(LANES * w + left.trailing_zeros());
        }
    }
    None
}
