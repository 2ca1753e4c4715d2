// The directory of a list that has passed its own rules.
ghost use Rattle.documents.specs.Judged.{Directed};

use syntax::tokens::Tokens;

// The tokens of the list, the index of its operations' names, and the words with the records of its operations and their parameters.
#[derive(Clone, Copy)]
pub struct Directory<'a> {
    pub tokens: Tokens<'a>,
    pub index: &'a [u16],
    pub words: &'a [u32],
    pub ghost directed: { ∥ Directed tokens.text.now tokens.table.now index.now words.now tokens.count ∥₁ },
}
