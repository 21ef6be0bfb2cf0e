// Tests of a row and of a cube against a list of entries of any content.
ghost use Rattle.std.specs.Prelude.{◌≡◌, true, false, ◌&&◌};
ghost use Rattle.cubes.specs.Cubes.{held, holds, within, Touch, Touches};

use crate::{Cube, Entry, Row};

// Whether some entry holds the row.
pub fn held(entries: &[Entry], row: Row) -> bool
    ensures { result ≡ held entries.now row }
{
    entries.iter().any(|e| e.cube().agrees(row))
}

// The place of the first entry that shares a row of n inputs with the cube.
pub fn touches(cube: Cube, entries: &[Entry], n: u32) -> Option<usize>
    ensures { Touches n cube.care cube.value entries.now result }
{
    entries.iter().position(|e| meets(cube, *e, n))
}

// Whether the cube and the entry share a row. If they share any, they share the one with no bit but those of their values.
pub fn meets(cube: Cube, e: Entry, n: u32) -> bool
    ensures shared { result ≡ true → Touch n cube.care cube.value e }
    ensures apart { result ≡ false → Touch n cube.care cube.value e → ⊥ }
{
    let other = e.cube();
    share(cube, other, n, cube.value() | other.value())
}

// Whether both cubes hold the row.
fn share(a: Cube, b: Cube, n: u32, row: Row) -> bool
    ensures { result ≡ (holds n a.care a.value row && within b.care b.value row) }
{
    a.holds(n, row) && b.agrees(row)
}
