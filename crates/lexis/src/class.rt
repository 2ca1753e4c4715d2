// The class of every byte value, in one table: what a byte can begin.
ghost use Rattle.std.specs.Prelude.{◌≡◌, map};
ghost use Rattle.lexis.specs.Bytes.{class_of, class_table};
ghost use Rattle.lexis.specs.Class.{class_number};

#[derive(Clone, Copy, PartialEq, Eq)]
pub enum Class {
    // What begins nothing.
    Other = 0,
    Space = 1,
    Digit = 2,
    // A letter or the underscore.
    Letter = 3,
    Quote = 4,
    // The sign that begins a comment.
    Comment = 5,
    // An operator when it stands alone.
    Operator = 6,
    // A syntactic character when it stands alone.
    Syntactic = 7,
    // An operator only when it stands twice.
    Twice = 8,
}

use Class::{Comment, Digit, Letter, Operator, Other, Quote, Space, Syntactic, Twice};

// An entry is a byte.
const _: () = prove!(size_of::<Class>() == 1);

static CLASSES: [Class; 256] = [
    Other, Other, Other, Other, Other, Other, Other, Other, Other, Space, Space, Space, Space,
    Space, Other, Other, Other, Other, Other, Other, Other, Other, Other, Other, Other, Other,
    Other, Other, Other, Other, Other, Other, Space, Operator, Quote, Comment, Other, Other, Twice,
    Quote, Syntactic, Syntactic, Operator, Operator, Syntactic, Operator, Other, Operator, Digit,
    Digit, Digit, Digit, Digit, Digit, Digit, Digit, Digit, Digit, Syntactic, Syntactic, Operator,
    Syntactic, Operator, Other, Other, Letter, Letter, Letter, Letter, Letter, Letter, Letter,
    Letter, Letter, Letter, Letter, Letter, Letter, Letter, Letter, Letter, Letter, Letter, Letter,
    Letter, Letter, Letter, Letter, Letter, Letter, Letter, Syntactic, Other, Syntactic, Operator,
    Letter, Other, Letter, Letter, Letter, Letter, Letter, Letter, Letter, Letter, Letter, Letter,
    Letter, Letter, Letter, Letter, Letter, Letter, Letter, Letter, Letter, Letter, Letter, Letter,
    Letter, Letter, Letter, Letter, Syntactic, Twice, Syntactic, Other, Other, Other, Other, Other,
    Other, Other, Other, Other, Other, Other, Other, Other, Other, Other, Other, Other, Other,
    Other, Other, Other, Other, Other, Other, Other, Other, Other, Other, Other, Other, Other,
    Other, Other, Other, Other, Other, Other, Other, Other, Other, Other, Other, Other, Other,
    Other, Other, Other, Other, Other, Other, Other, Other, Other, Other, Other, Other, Other,
    Other, Other, Other, Other, Other, Other, Other, Other, Other, Other, Other, Other, Other,
    Other, Other, Other, Other, Other, Other, Other, Other, Other, Other, Other, Other, Other,
    Other, Other, Other, Other, Other, Other, Other, Other, Other, Other, Other, Other, Other,
    Other, Other, Other, Other, Other, Other, Other, Other, Other, Other, Other, Other, Other,
    Other, Other, Other, Other, Other, Other, Other, Other, Other, Other, Other, Other, Other,
    Other, Other, Other, Other, Other, Other, Other, Other,
];

// The table. Its rule is proved here, over all entries at once.
fn table() -> &'static [Class; 256]
    ensures { map class_number result.now ≡ class_table }
{
    &CLASSES
}

// The class of a byte.
pub(crate) fn class_of(b: u8) -> Class
    ensures { class_number result ≡ class_of b }
{
    table()[b as usize]
}
