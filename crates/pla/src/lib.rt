// The Berkeley PLA text of a finished listing.
// Takes the listing, its register and lent text memory, gives the length of the text that it writes there.
// Promises every byte of the text memory afterwards, also where it refuses; the text tells the list, and each line the rows of its cube.
#![tactic(auto)]

mod head;
mod line;
mod position;
mod printer;
#[cfg(test)]
mod tests;
mod write;
mod writer;

pub use printer::print;
