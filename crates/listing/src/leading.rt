// The lead: the smallest row of a decider's set that no barred entry holds.
ghost use Rattle.std.specs.Prelude.{◌≡◌, ◌-◌, ◌*◌, ◌^◌, ◌<◌, ◌≤◌, true, if◌then◌else◌, None, nat_le};
ghost use Rattle.cubes.specs.Cubes.{held};
ghost use Rattle.cubes.specs.Deciders.{Answer, Kept};
ghost use Rattle.listing.specs.Limits.{max_inputs};
ghost use Rattle.listing.specs.Widest.{without, lead};

use cubes::{Cube, Decider, Entry, MAX_INPUTS, Question, Row};

// The smallest row of the decider's set that no barred entry holds. Nothing where it has more inputs than a cube can fix.
pub fn smallest_row<D: Decider>(decider: &mut D, barred: &[Entry]) -> Option<Row>
    ensures value { result ≡ (if nat_le (D.Decider.arity decider.old) max_inputs then lead (D.Decider.arity decider.old) (without (D.Decider.rows decider.old) (held barred.now)) else None) }
    ensures kept { Kept D.Decider.arity D.Decider.rows decider.old decider.new }
{
    let n = decider.inputs();
    if n > MAX_INPUTS {
        return None;
    }
    find_lead(decider, barred)
}

// Any such row first. Then, from input 1 on, one with a 0 in place of each 1, if there is one: a 0 needs no question.
pub(crate) fn find_lead<D: Decider>(decider: &mut D, barred: &[Entry]) -> Option<Row>
    requires { D.Decider.arity decider.old ≤ max_inputs }
    ensures lead { result ≡ lead (D.Decider.arity decider.old) (without (D.Decider.rows decider.old) (held barred.now)) }
    ensures kept { Kept D.Decider.arity D.Decider.rows decider.old decider.new }
{
    let n = decider.inputs();
    let mut best = probe(decider, n, 0, barred)?;
    for k in (0..n).rev() {
        let high = best >> k;
        if high % 2 == 1 {
            if let Some(row) = probe(decider, k, high - 1, barred) {
                best = row;
            }
        }
    }
    Some(best)
}

// A row of the set that no barred entry holds, with `high` as its bits from place k up.
fn probe<D: Decider>(decider: &mut D, k: u32, high: u32, barred: &[Entry]) -> Option<Row>
    requires limit { D.Decider.arity decider.old ≤ max_inputs }
    requires place { k ≤ D.Decider.arity decider.old }
    requires fits { high * 2 ^ k < 2 ^ D.Decider.arity decider.old }
    ensures answer { Answer (D.Decider.arity decider.old) (D.Decider.rows decider.old) (2 ^ D.Decider.arity decider.old - 2 ^ k) (high * 2 ^ k) true barred.now result }
    ensures kept { Kept D.Decider.arity D.Decider.rows decider.old decider.new }
{
    let care = (1u32 << decider.inputs()) - (1u32 << k);
    decider.ask(Question {
        cube: Cube::low(care, high << k),
        wanted: true,
        barred,
    })
}
