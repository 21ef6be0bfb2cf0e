// A number of inputs that a listing takes.
ghost use Rattle.std.specs.Prelude.{◌≤◌};
ghost use Rattle.listing.specs.Limits.{max_inputs};

#[derive(Clone, Copy)]
pub struct Arity {
    pub(crate) inputs: u32,
    ghost limits: { (1 ≤ inputs) × (inputs ≤ max_inputs) },
}
