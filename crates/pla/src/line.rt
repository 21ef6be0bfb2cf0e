// The line of a cube, input 1 first.
ghost use Rattle.std.specs.Prelude.{◌≤◌};
ghost use Rattle.listing.specs.Limits.{max_inputs};
ghost use Rattle.pla.specs.Text.{cube_line, ended};
ghost use Rattle.pla.specs.Writing.{Fits, Wrote};

use crate::position::Position;
use crate::writer::Writer;
use cubes::Cube;

// What stands after the inputs of a cube: its output.
pub const OUTPUT: &[u8; 3] = b" 1\n";

pub fn write_cube(writer: &mut Writer, n: u32, cube: Cube)
    requires few { n ≤ max_inputs }
    requires room { Fits writer.old (ended (cube_line n cube.care cube.value)) }
    ensures { Wrote writer.old (ended (cube_line n cube.care cube.value)) writer.new }
{
    for input in 1..n + 1 {
        writer.push(Position::of(cube, n - input).character() as u8);
    }
    writer.write(OUTPUT);
}
