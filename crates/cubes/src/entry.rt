// An entry of the register: two words, each with its kind in the top two bits and a number in the low 30.
ghost use Rattle.std.specs.Prelude.{◌≡◌};
ghost use Rattle.cubes.specs.Cubes.{waiver_entry, listed_entry, care_of, value_of};

use crate::Cube;

// The layout of an entry's words is fixed, so a kind is a number here and no enum.
const WAIVER_CARE: u32 = 1 << 30;

const LISTED_CARE: u32 = 2 << 30;

const VALUE: u32 = 3 << 30;

#[derive(Clone, Copy)]
pub struct Entry {
    pub care: u32,
    pub value: u32,
}

impl Entry {
    pub fn waiver(cube: Cube) -> Entry
        ensures { result ≡ waiver_entry cube.care cube.value }
    {
        Entry {
            care: WAIVER_CARE + cube.care(),
            value: VALUE + cube.value(),
        }
    }

    pub fn listed(cube: Cube) -> Entry
        ensures { result ≡ listed_entry cube.care cube.value }
    {
        Entry {
            care: LISTED_CARE + cube.care(),
            value: VALUE + cube.value(),
        }
    }

    // The cube of the entry, whatever the kinds of its words are.
    pub fn cube(self) -> Cube
        ensures care { result.care ≡ care_of self }
        ensures value { result.value ≡ value_of self }
    {
        Cube::low(self.care, self.value)
    }
}
