// Branches of the search: the inputs fixed so far, and their bits.
ghost use Rattle.std.specs.Prelude.{◌≡◌, ◌+◌, ◌-◌, ◌^◌, ◌<◌, ◌≤◌, true, false, if◌then◌else◌, MatchOption, bit_and, bit_or};
ghost use Rattle.circuit.specs.Limits.{max_inputs};
ghost use Rattle.search.specs.Branches.{is_open, open_count, Single, Each, SameRows};

use circuit::bit_at;
use cubes::Cube;

#[derive(Clone, Copy)]
pub struct Branch {
    inputs: u32,
    care: u32,
    value: u32,
    ghost few: { inputs ≤ max_inputs },
    ghost below: { care < 2 ^ inputs },
    ghost inside: { bit_and value care ≡ value },
}

impl Branch {
    // The cube's rows, or nothing where it has none.
    pub fn of_cube(cube: Cube, inputs: u32) -> Option<Branch>
        requires { inputs ≤ max_inputs }
        ensures { MatchOption result (Each inputs cube.care cube.value (λ _. ⊥)) (λ b. (b.inputs ≡ inputs) × SameRows inputs b.care b.value cube.care cube.value) }
    {
        let care = cube.care() & all_fixed(inputs);
        let value = cube.value();
        if value & care != value {
            return None;
        }
        Some(Branch {
            inputs,
            care,
            value,
        })
    }

    pub fn inputs(self) -> u32
        ensures { result ≡ self.inputs }
    {
        self.inputs
    }

    pub fn care(self) -> u32
        ensures { result ≡ self.care }
    {
        self.care
    }

    // Also the smallest of its rows.
    pub fn value(self) -> u32
        ensures { result ≡ self.value }
    {
        self.value
    }

    pub fn cube(self) -> Cube
        ensures care { result.care ≡ self.care }
        ensures value { result.value ≡ self.value }
    {
        Cube::low(self.care, self.value)
    }

    pub fn is_open(self, place: u32) -> bool
        ensures { result ≡ is_open self.inputs self.care place }
    {
        place < self.inputs && !bit_at(self.care, place)
    }

    // The suggested place where its input is open, else the lowest place of an open input.
    pub fn open_place(self, suggested: u32) -> Option<u32>
        ensures { MatchOption result (Single self.inputs self.care) (λ k. is_open self.inputs self.care k ≡ true) }
    {
        if self.is_open(suggested) {
            Some(suggested)
        } else {
            (0..self.inputs).find(|k| self.is_open(*k))
        }
    }

    // The half in which the open input at this place is fixed to the bit.
    pub fn half(self, place: u32, bit: bool) -> Branch
        requires { is_open self.inputs self.care place ≡ true }
        ensures inputs { result.inputs ≡ self.inputs }
        ensures care { result.care ≡ bit_or self.care (2 ^ place) }
        ensures value { result.value ≡ (if bit then bit_or self.value (2 ^ place) else self.value) }
        ensures fewer { open_count result.inputs result.care + 1 ≡ open_count self.inputs self.care }
    {
        let one = one_at(place);
        let care = self.care | one;
        let value = with_bit(self.value, one, bit);
        let inputs = self.inputs;
        Branch {
            inputs,
            care,
            value,
        }
    }
}

// The number that has a 1 at this place only.
fn one_at(place: u32) -> u32
    requires { place ≤ max_inputs }
    ensures { result ≡ 2 ^ place }
{
    1 << place
}

fn with_bit(value: u32, one: u32, bit: bool) -> u32
    ensures { result ≡ (if bit then bit_or value one else value) }
{
    if bit { value | one } else { value }
}

// The care that fixes each input.
pub fn all_fixed(inputs: u32) -> u32
    requires { inputs ≤ max_inputs }
    ensures { result ≡ 2 ^ inputs - 1 }
{
    one_at(inputs) - 1
}
