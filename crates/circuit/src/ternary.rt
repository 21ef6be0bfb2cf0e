// The three-valued signal: one lane, settled unless unknown.
ghost use Rattle.circuit.specs.Kinds.{ternary_allows, ternary_ops};
ghost use Rattle.std.proofs.Common.{rules};

use crate::Value;

#[derive(Clone, Copy)]
pub enum Ternary {
    Zero,
    One,
    Unknown,
}

impl Value for Ternary {
    const LANES: u32 = 1;

    ghost LANES = { 1 };

    ghost may = { ternary_allows };

    ghost ops = { ternary_ops };

    ghost some = { Prim.search rules };

    ghost nothing = { Prim.search rules };

    ghost joins = { Prim.search rules };

    ghost flips = { Prim.search rules };

    ghost exact = { Prim.search rules };

    ghost commutes = { Prim.search rules };

    ghost stays = { Prim.search rules };

    ghost turns = { Prim.search rules };

    fn falsity() -> Ternary {
        Ternary::Zero
    }

    fn and(self, other: Ternary) -> Ternary {
        match (self, other) {
            (Ternary::Zero, _) | (_, Ternary::Zero) => Ternary::Zero,
            (Ternary::One, Ternary::One) => Ternary::One,
            _ => Ternary::Unknown,
        }
    }

    fn not(self) -> Ternary {
        match self {
            Ternary::Zero => Ternary::One,
            Ternary::One => Ternary::Zero,
            Ternary::Unknown => Ternary::Unknown,
        }
    }

    fn look(self, lane: u32) -> Option<bool> {
        if lane >= Self::LANES {
            return None;
        }
        match self {
            Ternary::Zero => Some(false),
            Ternary::One => Some(true),
            Ternary::Unknown => None,
        }
    }
}
