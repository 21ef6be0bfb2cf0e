// The rows of a cube in one word: lane b of word w is row 32 w + b.
ghost use Rattle.std.specs.Prelude.{◌+◌, ◌*◌, ◌%◌, ◌<◌, bit_and, nat_eq};
ghost use Rattle.circuit.specs.Kinds.{bit_at, same};
ghost use Rattle.circuit.specs.Lanes.{Lanes};
ghost use Rattle.cubes.specs.Cubes.{within};

use circuit::{LANE_PLACES, pattern};
use cubes::Cube;

// How many rows a word has.
pub const LANES: u32 = 1 << LANE_PLACES;

// The lanes of a word that have the wanted bit.
pub fn of_kind(word: u32, wanted: bool) -> u32
    ensures { Lanes result (λ b. same wanted (bit_at word b)) }
{
    if wanted { word } else { !word }
}

// The lanes whose number has a 1 at place k, if care has one there.
// The bits are read by shifts here: with `circuit::bit_at`, which tests the place too, a question takes 7% longer.
fn cared(care: u32, k: u32) -> u32
    requires { k < 32 }
    ensures { Lanes result (λ b. bit_at (bit_and b care) k) }
{
    if (care >> k) % 2 == 1 { pattern(k) } else { 0 }
}

// The lanes that agree with the cube at place k.
fn side(cube: Cube, k: u32) -> u32
    requires { k < 32 }
    ensures { Lanes result (λ b. same (bit_at cube.value k) (bit_at (bit_and b cube.care) k)) }
{
    of_kind(cared(cube.care(), k), (cube.value() >> k) % 2 == 1)
}

// The lanes that agree with the cube at the places that tell a row's lane.
fn low_places(cube: Cube) -> u32
    ensures { Lanes result (λ b. nat_eq (bit_and b cube.care % 32) (cube.value % 32)) }
{
    let mut left = u32::MAX;
    for k in 0..LANE_PLACES {
        left &= side(cube, k);
    }
    left
}

// The lanes of word w whose rows lie in the cube.
pub fn mask(cube: Cube, w: u32) -> u32
    ensures { Lanes result (λ b. within cube.care cube.value (32 * w + b)) }
{
    if w & (cube.care() / LANES) == cube.value() / LANES {
        low_places(cube)
    } else {
        0
    }
}
