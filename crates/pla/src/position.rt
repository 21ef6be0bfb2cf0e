// What a cube has at an input, and its PLA character.
ghost use Rattle.std.specs.Prelude.{◌≡◌, ◌<◌};
ghost use Rattle.listing.specs.Limits.{max_inputs};
ghost use Rattle.pla.specs.Text.{character_of, position_at};

use cubes::Cube;

#[derive(Clone, Copy)]
pub enum Position {
    Zero,
    One,
    Open,
}

impl Position {
    // The cube's position at the input of a bit. The value's bit at an open input does not matter. By shifts, since this crate
    // does not stand on `circuit`, which has `bit_at`.
    pub fn of(cube: Cube, bit: u32) -> Position
        requires { bit < max_inputs }
        ensures { result ≡ position_at cube.care cube.value bit }
    {
        if (cube.care() >> bit) % 2 == 0 {
            Position::Open
        } else if (cube.value() >> bit) % 2 == 0 {
            Position::Zero
        } else {
            Position::One
        }
    }

    // A rule of the project: each position stands beside its character.
    pub fn character(self) -> char
        ensures { result ≡ character_of self }
    {
        match self {
            Position::Zero => '0',
            Position::One => '1',
            Position::Open => '-',
        }
    }
}
