// Whether one more entry can be written. Whether a register is too short is tested in each call: as a function it would be
// no plainer, since next, which gives its listing back, could not use `?`.
ghost use Rattle.std.specs.Prelude.{◌≡◌};
ghost use Rattle.listing.specs.Calls.{room};

use cubes::Entry;

// The most entries that a listing uses.
const MAX_ENTRIES: usize = 4096;

// Whether an entry is free behind those used, and fewer than the most are used.
pub(crate) fn has_room(used: usize, register: &[Entry]) -> bool
    ensures { result ≡ room used register.now }
{
    used < register.len() && used < MAX_ENTRIES
}
