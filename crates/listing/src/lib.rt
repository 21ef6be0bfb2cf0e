// Listings of a decider's rows as cubes, over a lent register.
// Takes a mode, a number of inputs, cubes to waive and any decider; gives the next cube, or the finished listing.
// Promises every call by a defined value, and the stories of these calls by one theorem.
#![tactic(auto)]

mod arity;
mod draft;
mod finished;
mod leading;
mod mode;
mod opening;
mod room;
mod running;
mod states;
mod widening;

pub use leading::smallest_row;
pub use mode::Mode;
pub use states::{Draft, Finished, Refusal, Running, Step};
