// The plan of a document and its canonical text, put piece by piece into an output.
#![tactic(auto)]

mod argument;
mod call;
pub mod document;
mod pattern;
pub mod place;
pub mod spelling;
mod value;
pub mod writer;
