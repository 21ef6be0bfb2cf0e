// How the cubes of a list may lie.
#[derive(Clone, Copy)]
pub enum Mode {
    // No row lies in two cubes.
    Separate,
    // Cubes may share rows.
    Shared,
}
