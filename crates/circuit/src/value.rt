// The kinds of values that a circuit is evaluated over.
ghost use Rattle.std.specs.Prelude.{◌≡◌, ℕ, ◌<◌, Bool, true, false, not, ◌&&◌, ◌||◌, Option};
ghost use Rattle.circuit.specs.Kinds.{Ops, Settled, looked};

pub trait Value: Copy {
    // How many rows a value carries at once.
    const LANES: u32;

    ghost LANES: { ℕ };

    // Which bits a value allows in a lane.
    ghost may: { Self → ℕ → Bool → Bool };

    // Its false, AND and inverse.
    ghost ops: { Ops Self };

    fn lane_count() -> u32
        ensures { result ≡ LANES }
    {
        Self::LANES
    }

    fn falsity() -> Self
        ensures { result ≡ ops.falsity };

    fn and(self, other: Self) -> Self
        ensures { result ≡ ops.both self other };

    fn not(self) -> Self
        ensures { result ≡ ops.inverse self };

    // The settled bit of a lane; nothing where it is not settled, or there is no such lane.
    fn look(self, lane: u32) -> Option<bool>
        ensures { result ≡ looked LANES (may self) lane };

    // A lane allows a bit at least; the false value allows 0 alone.
    ghost some: { (u : Self) (k : ℕ) → k < LANES → (may u k false || may u k true) ≡ true };

    ghost nothing: { (k : ℕ) → k < LANES → (may ops.falsity k false ≡ true) × (may ops.falsity k true ≡ false) };

    // What is allowed goes through AND and the inverse, and AND allows no more than that.
    ghost joins: { (u w : Self) (k : ℕ) (p q : Bool) → k < LANES → may u k p ≡ true → may w k q ≡ true → may (ops.both u w) k (p && q) ≡ true };

    ghost flips: { (u : Self) (k : ℕ) (p : Bool) → k < LANES → may u k p ≡ true → may (ops.inverse u) k (not p) ≡ true };

    ghost exact: { (u w : Self) (k : ℕ) → k < LANES → (may (ops.both u w) k true ≡ (may u k true && may w k true)) × (may (ops.both u w) k false ≡ (may u k false || may w k false)) };

    ghost commutes: { (u w : Self) → ops.both u w ≡ ops.both w u };

    // Lanes that are settled in all operands stay settled.
    ghost stays: { (u w : Self) (k : ℕ) → k < LANES → Settled (may u k) → Settled (may w k) → Settled (may (ops.both u w) k) };

    ghost turns: { (u : Self) (k : ℕ) → k < LANES → Settled (may u k) → Settled (may (ops.inverse u) k) };
}
