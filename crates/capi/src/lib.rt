// The interface for C, as a static library; include/jerovuha.h declares it.
// Takes a file's bytes, a mode and lent text memory, gives the text of the file's list, or the refusal by its numbers.
// Promises what `jobs::list` promises; the work memory is the call's own, on the stack.
#![tactic(auto)]

mod answer;
mod exported;

pub use answer::Answer;
pub use exported::jerovuha_list;
