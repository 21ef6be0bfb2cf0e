// The refusals of every layer.
// Takes a fault as the layer below met it, gives it to the layer above with what that layer adds.
// Promises one number, layer, place and line for each fault, and the text that a program prints of it.
#![tactic(auto)]

mod circuit;
mod job;
mod listing;
mod report;
mod table;
mod text;

pub use circuit::{CircuitFault, Located, Rule};
pub use job::{Fault, JobFault, Stage};
pub use listing::ListingFault;
pub use report::{Layer, Report};
pub use table::TableFault;
pub use text::{MAX_FILE_BYTES, TextFault};
