// The widest cube around a row: inputs 1 to n in turn, opened wherever the cube stays good.
ghost use Rattle.std.specs.Prelude.{◌≡◌, bit_and};
ghost use Rattle.cubes.specs.Cubes.{held};
ghost use Rattle.cubes.specs.Deciders.{Kept};
ghost use Rattle.listing.specs.Widest.{without, good, widest};

use crate::arity::Arity;
use cubes::{Cube, Decider, Entry, Question, Row, touches};

pub(crate) fn widen<D: Decider>(decider: &mut D, arity: Arity, row: Row, shut: &[Entry]) -> Cube
    requires { D.Decider.arity decider.old ≡ arity.inputs }
    ensures care { result.care ≡ widest arity.inputs (without (D.Decider.rows decider.old) (held shut.now)) row }
    ensures value { result.value ≡ bit_and row result.care }
    ensures kept { Kept D.Decider.arity D.Decider.rows decider.old decider.new }
{
    let n = arity.inputs;
    let mut care = (1u32 << n) - 1;
    for k in (0..n).rev() {
        let wider = care - (1u32 << k);
        if is_good(decider, arity, Cube::low(wider, row & wider), shut) {
            care = wider;
        }
    }
    Cube::low(care, row & care)
}

// Whether the cube holds only rows of the set that no shut entry holds. Touching one needs no question.
fn is_good<D: Decider>(decider: &mut D, arity: Arity, cube: Cube, shut: &[Entry]) -> bool
    requires { D.Decider.arity decider.old ≡ arity.inputs }
    ensures good { result ≡ good arity.inputs (without (D.Decider.rows decider.old) (held shut.now)) cube.care cube.value }
    ensures kept { Kept D.Decider.arity D.Decider.rows decider.old decider.new }
{
    if touches(cube, shut, arity.inputs).is_some() {
        return false;
    }
    let spoilt = decider.ask(Question {
        cube,
        wanted: false,
        barred: &[],
    });
    spoilt.is_none()
}
