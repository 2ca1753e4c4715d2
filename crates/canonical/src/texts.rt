// Both texts where they have passed their stages, and what the stages have left.
use syntax::tokens::Tokens;

// The tokens of both texts, the directory of the list, and the records of the document with how many calls they have.
#[derive(Clone, Copy)]
pub struct Texts<'a> {
    pub list: &'a Tokens<'a>,
    pub words: &'a [u32],
    pub records: &'a [u16],
    pub doc: &'a Tokens<'a>,
    pub calls: usize,
}
