// The words of a token table, and the spelling of a token.
ghost use Rattle.std.specs.Prelude.{◌≡◌, ◌<◌};
ghost use Rattle.index.specs.Found.{bytes_at};

use lexis::limits::Limits;
use syntax::tokens::Tokens;

// The bytes of the token at place i.
pub fn bytes_at<'a>(tokens: &Tokens<'a>, i: usize) -> &'a [u8]
    requires i_lt_n { i < tokens.now.count }
    ensures { result.now ≡ bytes_at tokens.now.text.now tokens.now.table.now i }
{
    let start = tokens.table[i * Limits::RECORD_WORDS + 1] as usize;
    let end = tokens.table[i * Limits::RECORD_WORDS + 2] as usize;
    &tokens.text[start..end]
}
