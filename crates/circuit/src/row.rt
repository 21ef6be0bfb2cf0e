// The bits of a row.
ghost use Rattle.std.specs.Prelude.{◌≡◌};
ghost use Rattle.circuit.specs.Kinds.{bit_at};

// Whether the number has a 1 at this place, the lowest being place 0. A row gives this bit to the input with that place.
pub fn bit_at(number: u32, place: u32) -> bool
    ensures { result ≡ bit_at number place }
{
    place < u32::BITS && (number >> place) % 2 == 1
}
