// The line of a place.
ghost use Rattle.std.specs.Prelude.{◌≡◌};
ghost use Rattle.text.specs.Places.{line_of};

// 1 and the newlines before the place.
pub fn line_of(file: &[u8], place: usize) -> usize
    ensures { result ≡ line_of file.now place }
{
    let before = &file[..place.min(file.len())];
    1 + before.iter().filter(|byte| **byte == b'\n').count()
}
