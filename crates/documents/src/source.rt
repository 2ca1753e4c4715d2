// The tokens of a document's text.
ghost use Rattle.std.specs.Prelude.{◌≤◌, length};
ghost use Rattle.lexis.specs.Sizes.{max_text, max_tokens};

use syntax::tokens::Tokens;

// There are no more of them, and the text is no longer, than the sizes allow.
#[derive(Clone, Copy)]
pub struct Source<'a> {
    pub tokens: Tokens<'a>,
    pub ghost few: { tokens.count ≤ max_tokens },
    pub ghost short: { length tokens.text.now ≤ max_text },
}
