// What the text layer refuses: the bytes of a file.

// The most bytes of a file.
pub const MAX_FILE_BYTES: usize = 65_536;

#[derive(Clone, Copy)]
pub enum TextFault {
    // The file has more bytes than it may.
    TooLong,
    // A byte misfits, or the file ends early: the place of that byte, or the file's length.
    Misfit(usize),
    // A number is too long or has a leading 0: the place of its first byte.
    BadNumber(usize),
}
