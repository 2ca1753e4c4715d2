// The words with a meaning of their own.
ghost use Rattle.std.specs.Prelude.{◌≡◌, cond, get_or};
ghost use Rattle.spellings.specs.Comparison.{same_bytes};
ghost use Rattle.lexis.specs.Ascii.{byte};
ghost use Rattle.lexis.specs.Kind.{name, kind_number};
ghost use Rattle.lexis.specs.Words.{kind_of_word};

use crate::kind::Kind;
use crate::token::byte_at;
use spellings::same;

// `kind` where w is spelt so; a name where not. `symbol_if` is not the same function: one for both would be told at each call what w is where not.
fn kind_if(w: &[u8], spelling: &[u8], kind: Kind) -> Kind
    ensures { kind_number result ≡ cond (same_bytes w.now spelling.now) (kind_number kind) name }
{
    if same(w, spelling) {
        return kind;
    }
    Kind::Name
}

// The kind of a word, which is compared with the words of its first byte.
pub(crate) fn kind_of_word(w: &[u8]) -> Kind
    ensures { kind_number result ≡ kind_of_word w.now }
{
    match byte_at(w, 0) {
        b't' => kind_t(w),
        b'f' => kind_f(w),
        b'g' => kind_if(w, b"graph", Kind::Keyword),
        b'e' => kind_e(w),
        b's' => kind_s(w),
        b'l' => kind_l(w),
        b'r' => kind_if(w, b"range_of", Kind::Keyword),
        b'i' => kind_i(w),
        b'v' => kind_if(w, b"version", Kind::Keyword),
        _ => Kind::Name,
    }
}

// A function for each first byte that begins several words.

// The kind of a word that begins with t.
fn kind_t(w: &[u8]) -> Kind
    requires { get_or w.now 0 0 ≡ byte "t" }
    ensures { kind_number result ≡ kind_of_word w.now }
{
    if same(w, b"true") {
        return Kind::Truth;
    }
    kind_if(w, b"tensor", Kind::Keyword)
}

// The kind of a word that begins with f.
fn kind_f(w: &[u8]) -> Kind
    requires { get_or w.now 0 0 ≡ byte "f" }
    ensures { kind_number result ≡ kind_of_word w.now }
{
    if same(w, b"false") {
        return Kind::Truth;
    }
    if same(w, b"fragment") {
        return Kind::Keyword;
    }
    kind_if(w, b"for", Kind::Keyword)
}

// The kind of a word that begins with e.
fn kind_e(w: &[u8]) -> Kind
    requires { get_or w.now 0 0 ≡ byte "e" }
    ensures { kind_number result ≡ kind_of_word w.now }
{
    if same(w, b"extent") {
        return Kind::Keyword;
    }
    kind_if(w, b"else", Kind::Keyword)
}

// The kind of a word that begins with s.
fn kind_s(w: &[u8]) -> Kind
    requires { get_or w.now 0 0 ≡ byte "s" }
    ensures { kind_number result ≡ kind_of_word w.now }
{
    if same(w, b"scalar") {
        return Kind::Keyword;
    }
    if same(w, b"string") {
        return Kind::Keyword;
    }
    kind_if(w, b"shape_of", Kind::Keyword)
}

// The kind of a word that begins with l.
fn kind_l(w: &[u8]) -> Kind
    requires { get_or w.now 0 0 ≡ byte "l" }
    ensures { kind_number result ≡ kind_of_word w.now }
{
    if same(w, b"logical") {
        return Kind::Keyword;
    }
    kind_if(w, b"length_of", Kind::Keyword)
}

// The kind of a word that begins with i.
fn kind_i(w: &[u8]) -> Kind
    requires { get_or w.now 0 0 ≡ byte "i" }
    ensures { kind_number result ≡ kind_of_word w.now }
{
    if same(w, b"in") {
        return Kind::Keyword;
    }
    kind_if(w, b"if", Kind::Keyword)
}
