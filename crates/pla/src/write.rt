// The whole text: the head, a line a cube, and the end.
ghost use Rattle.std.specs.Prelude.{◌≡◌, ◌^◌, ◌<◌, ◌≤◌, length};
ghost use Rattle.listing.specs.Limits.{max_inputs};
ghost use Rattle.pla.specs.Text.{written};

use crate::head::{HEAD_BYTES, write_head, write_head_lines};
use crate::line::{OUTPUT, write_cube};
use crate::writer::Writer;
use cubes::Entry;
use faults::TableFault;

const END: &[u8; 3] = b".e\n";

// Writes the text of a list of cubes of `n` inputs, or refuses if it does not fit.
#[tactic(auto, using(crate::proofs::Parts::length_rest))]
pub fn write_list(n: u32, cubes: &[Entry], text: &mut [u8]) -> Result<usize, TableFault>
    requires few { n ≤ max_inputs }
    requires counted { length cubes.now < 2 ^ 32 }
    ensures { (result, text.new) ≡ written n cubes.now text.old }
{
    let mut memory = [0; HEAD_BYTES];
    let head = write_head(n, cubes.len(), &mut memory);
    let needed = head.len() + cubes.len() * (n as usize + OUTPUT.len()) + END.len();
    if text.len() < needed {
        return Err(TableFault::TextShort(needed));
    }
    let mut writer = Writer::new(text);
    write_head_lines(&mut writer, n, cubes.len());
    for entry in cubes {
        write_cube(&mut writer, n, entry.cube());
    }
    writer.write(END);
    Ok(needed)
}
