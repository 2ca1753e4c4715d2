// Documents under an operation list: their rules, and the operation that checks one.
#![tactic(auto)]

pub mod arguments;
mod body;
pub mod callee;
pub mod calls;
pub mod check;
mod directory;
mod document;
pub mod graph;
mod header;
mod judging;
mod mask;
pub mod operation;
mod parameters;
pub mod records;
mod source;
pub mod stages;
mod wiring;
