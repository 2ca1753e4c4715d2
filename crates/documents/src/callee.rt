// The operation that a call names, with the tokens of its list and the words of the list's directory.
ghost use Rattle.documents.specs.Tallies.{ParamsRecorded, NamesBelow};

use crate::operation::Operation;
use syntax::tokens::Tokens;

// Its numbers are those that the directory has for it: the records of its parameters lie there, and their names stand in the list.
#[derive(Clone, Copy)]
pub struct Callee<'a> {
    pub list: Tokens<'a>,
    pub words: &'a [u32],
    pub operation: Operation,
    pub ghost params_recorded: { ParamsRecorded words.now operation },
    pub ghost names_below: { NamesBelow words.now list.count operation },
}
