// The pieces of names in a row and of left sides.
ghost use Rattle.std.specs.Prelude.{◌≡◌, List, ◌∷◌, ◌+◌, ◌<◌, ◌≤◌};
ghost use Rattle.std.proofs.Math.Option.{some};
ghost use Rattle.lexis.specs.Lexer.{Token};
ghost use Rattle.lexis.specs.Sizes.{max_brackets};
ghost use Rattle.lexis.specs.Symbol.{a_name, right_round};
ghost use Rattle.syntax.specs.Tree.{Value, Ty};
ghost use Rattle.syntax.specs.Parser.{expect, row, plain, commas, left};
ghost use Rattle.syntax.specs.Parser.Parse.{ok};
ghost use Rattle.syntax.specs.Table.{token_at, toks};
ghost use Rattle.syntax.specs.Tokens.{from};
ghost use Rattle.lists.specs.Reading.{Val, read_at};
ghost use Rattle.writing.specs.Plan.{spellings};
ghost use Rattle.writing.specs.Layout.{names_pieces, left_pieces};
ghost use Rattle.writing.specs.Writing.{Puts, pattern_piece, pattern_pieces, is_bracketed};

use crate::writer::Writer;
use lexis::limits::Limits;
use lexis::symbol::Symbol;
use syntax::tokens::Tokens;
use syntax::value::Leaves;

// Puts the names in a row at place `at`, up to its closing bracket.
pub fn put_names(out: &mut Writer<'_>, tokens: &Tokens<'_>, at: usize)
    ensures { (ts : List Token) (us : List Token) → row plain (commas right_round) (expect a_name) (from tokens.now at) ≡ ok ts us
        → Puts (names_pieces (spellings ts)) out.old out.new }
{
    // No `for`: each turn passes a name and a comma, and the row ends where no comma follows.
    let mut i = at;
    while i < tokens.count {
        out.put_token(tokens, i);
        if tokens.symbol_at(i + 1) != Symbol::COMMA {
            return;
        }
        out.put_mark(b',');
        i += 2;
    }
}

// Puts the token at place i of a pattern: a bracket, a comma, or a name as it is spelt.
fn put_part(out: &mut Writer<'_>, tokens: &Tokens<'_>, i: usize)
    requires { i < tokens.now.count }
    ensures { Puts (λ q. pattern_piece (token_at tokens.now.text.now tokens.now.table.now i) ∷ q) out.old out.new }
{
    let c = tokens.symbol_at(i);
    if c == Symbol::COMMA {
        return out.put_mark(b',');
    }
    if c == Symbol::LEFT_SQUARE {
        return out.put_mark(b'[');
    }
    if c == Symbol::RIGHT_SQUARE {
        return out.put_mark(b']');
    }
    if c == Symbol::LEFT_ROUND {
        return out.put_mark(b'(');
    }
    if c == Symbol::RIGHT_ROUND {
        return out.put_mark(b')');
    }
    out.put_token(tokens, i);
}

// Puts the tokens of a pattern from place `from` up to place `to`.
fn put_parts(out: &mut Writer<'_>, tokens: &Tokens<'_>, from: usize, to: usize)
    requires { to ≤ tokens.now.count }
    ensures { Puts (pattern_pieces (toks tokens.now.text.now tokens.now.table.now to from)) out.old out.new }
{
    for i in from..to {
        put_part(out, tokens, i);
    }
}

// Whether the left side from place `at` up to its equals sign is a tuple in brackets.
fn is_bracketed(tokens: &Tokens<'_>, at: usize, equal: usize) -> bool
    ensures { result ≡ is_bracketed tokens.now.text.now tokens.now.table.now tokens.now.count at equal }
{
    if tokens.symbol_at(at) != Symbol::LEFT_ROUND {
        return false;
    }
    match tokens.value(at, Leaves::Names, Limits::BRACKETS) {
        Ok(next) => next == equal,
        Err(_) => false,
    }
}

// Puts the left side from place `at` up to its equals sign; the brackets of a top tuple are left out.
pub fn put_left(out: &mut Writer<'_>, tokens: &Tokens<'_>, at: usize, equal: usize)
    requires { equal < tokens.now.count }
    ensures { (v : Value) (us : List Token) (u : Ty) (w : Val) → left max_brackets (from tokens.now at) ≡ ok v us
        → us ≡ from tokens.now (equal + 1) → read_at v u ≡ some w
        → Puts (left_pieces w) out.old out.new }
{
    if is_bracketed(tokens, at, equal) {
        return put_parts(out, tokens, at + 1, equal - 1);
    }
    put_parts(out, tokens, at, equal);
}
