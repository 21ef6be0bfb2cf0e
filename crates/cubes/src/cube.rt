// A cube: the rows that have its value at the inputs that it fixes.
ghost use Rattle.std.specs.Prelude.{◌≡◌, ◌%◌, ◌^◌, ◌<◌, MatchOption, nat_lt};
ghost use Rattle.cubes.specs.Cubes.{number_limit, holds, within};

// A bit for each input, input 1 the highest.
pub type Row = u32;

// The most inputs that a cube can fix.
pub const MAX_INPUTS: u32 = 30;

// The numbers of a cube are below this.
const NUMBER_LIMIT: u32 = 1 << MAX_INPUTS;

// An input is fixed to its bit of `value` where its bit of `care` is 1.
#[derive(Clone, Copy)]
pub struct Cube {
    care: u32,
    value: u32,
    ghost numbers: { (care < number_limit) × (value < number_limit) },
}

impl Cube {
    // The cube of these numbers, if both are below the limit.
    pub fn new(care: u32, value: u32) -> Option<Cube>
        ensures { MatchOption result (care < number_limit → value < number_limit → ⊥) (λ c. (c.care ≡ care) × (c.value ≡ value)) }
    {
        if care >= NUMBER_LIMIT || value >= NUMBER_LIMIT {
            return None;
        }
        Some(Cube { care, value })
    }

    // The cube of the low 30 bits of both numbers.
    pub fn low(care: u32, value: u32) -> Cube
        ensures care { result.care ≡ care % number_limit }
        ensures value { result.value ≡ value % number_limit }
    {
        Cube {
            care: care % NUMBER_LIMIT,
            value: value % NUMBER_LIMIT,
        }
    }

    pub fn care(self) -> u32
        ensures { result ≡ self.care }
    {
        self.care
    }

    pub fn value(self) -> u32
        ensures { result ≡ self.value }
    {
        self.value
    }

    // Whether a number has the cube's value at each input that the cube fixes.
    pub fn agrees(self, row: Row) -> bool
        ensures { result ≡ within self.care self.value row }
    {
        row & self.care == self.value
    }

    // Whether the cube holds the row, with n inputs.
    pub fn holds(self, n: u32, row: Row) -> bool
        ensures { result ≡ holds n self.care self.value row }
    {
        is_row(row, n) && self.agrees(row)
    }
}

// Whether the number is a row of n inputs. Every number is one where n is 32 or more.
fn is_row(number: u32, n: u32) -> bool
    ensures { result ≡ nat_lt number (2 ^ n) }
{
    n >= 32 || number < 1 << n
}
