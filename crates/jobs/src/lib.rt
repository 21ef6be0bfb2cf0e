// Whole jobs: from the bytes of a file to what a program prints.
// Takes a file, a mode and lent memory, gives the text of the file's list, or the first refusal with its stage.
// Promises the answer and the memory afterwards for every file, that the text is that of a finished listing, and that two
// texts of one mode are equal exactly when the circuits have as many inputs and the same solutions.
#![tactic(auto)]

mod finishing;
mod from_file;
mod printing;
mod sizes;
mod workspace;

pub use finishing::finish;
pub use from_file::list;
pub use sizes::{BIT_WORDS, ENTRIES, GATE_WORDS, PLACES};
pub use workspace::Workspace;
