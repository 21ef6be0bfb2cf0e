// The single bit: one lane, always settled.
ghost use Rattle.std.specs.Prelude.{◌≡◌};
ghost use Rattle.circuit.specs.Kinds.{bit_allows, bit_ops};
ghost use Rattle.std.proofs.Common.{rules};

use crate::Value;

#[derive(Clone, Copy)]
pub struct Bit {
    on: bool,
}

impl Bit {
    pub fn new(on: bool) -> Bit
        ensures { result ≡ record { on = on } }
    {
        Bit { on }
    }

    pub fn on(self) -> bool
        ensures { result ≡ self.on }
    {
        self.on
    }
}

impl Value for Bit {
    const LANES: u32 = 1;

    ghost LANES = { 1 };

    ghost may = { bit_allows };

    ghost ops = { bit_ops };

    ghost some = { Prim.search rules };

    ghost nothing = { Prim.search rules };

    ghost joins = { Prim.search rules };

    ghost flips = { Prim.search rules };

    ghost exact = { Prim.search rules };

    ghost commutes = { Prim.search rules };

    ghost stays = { Prim.search rules };

    ghost turns = { Prim.search rules };

    fn falsity() -> Bit {
        Bit { on: false }
    }

    fn and(self, other: Bit) -> Bit {
        Bit {
            on: self.on & other.on,
        }
    }

    fn not(self) -> Bit {
        Bit { on: !self.on }
    }

    fn look(self, lane: u32) -> Option<bool> {
        (lane < Self::LANES).then_some(self.on)
    }
}
