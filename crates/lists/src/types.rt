// Types in a token table, each as one number: the kinds of leaf that its word takes, whether tensor is its only word, and its pairs of
// square brackets.
ghost use Rattle.std.specs.Prelude.{◌≡◌, true, ◌+◌, ◌*◌, ◌<◌, ◌≤◌};
ghost use Rattle.lexis.specs.Sizes.{max_tokens};
ghost use Rattle.syntax.specs.Tree.{Ty};
ghost use Rattle.syntax.specs.Tokens.{from};
ghost use Rattle.lists.specs.Reading.{all_tensor};
ghost use Rattle.lists.specs.Types.{takes, kinds_of, pairs_of, word_kinds, type_code, OfType, TypeRange};
ghost use Rattle.lists.specs.Fitting.{still, type_walk, OfBase, OfPairs};

use lexis::symbol::Symbol;
use syntax::tokens::Tokens;

// The kinds of leaf that a type word takes, as a mask: bit k is kind k. No two words take the same kinds, and a tuple takes none.
// Numbers and no enum: a type's number is stored in a word of the directory, and the mask is tested by a shift.
#[derive(Clone, Copy)]
pub struct LeafKinds {}

impl LeafKinds {
    pub const TUPLE: u32 = 0;

    // Whole numbers that extent reaches.
    pub const EXTENT: u32 = 4;

    // Whole and real numbers.
    pub const SCALAR: u32 = 12;

    pub const STRING: u32 = 16;

    pub const LOGICAL: u32 = 32;

    // Names, numbers, true and false.
    pub const TENSOR: u32 = 46;
}

// Whether a leaf of this kind is among those. A kind is below 32.
#[tactic(auto, unfolding(crate::specs::Types::takes))]
pub fn takes(kinds: u32, kind: u32) -> bool
    ensures { result ≡ takes kinds kind }
{
    (kinds >> (kind % 32)) % 2 == 1
}

// The kinds of leaf that the type word s takes.
fn kinds_of(s: u32) -> u32
    ensures { (result < 64) × (result ≡ word_kinds s) }
{
    match s {
        Symbol::TENSOR => LeafKinds::TENSOR,
        Symbol::EXTENT => LeafKinds::EXTENT,
        Symbol::SCALAR => LeafKinds::SCALAR,
        Symbol::LOGICAL => LeafKinds::LOGICAL,
        Symbol::STRING => LeafKinds::STRING,
        _ => LeafKinds::TUPLE,
    }
}

// A type: the kinds of leaf that its word takes, its pairs of square brackets, whether tensor is the only word in it, and the place after it.
#[derive(Clone, Copy)]
pub struct TypeAt {
    pub kinds: u32,
    pub pairs: usize,
    pub tensor: bool,
    pub end: usize,
}

// The place after a type without its pairs of square brackets, and whether tensor is the only word in it.
#[derive(Clone, Copy)]
pub struct Span {
    pub at: usize,
    pub tensor: bool,
}

// Whether tensor is still the only word, after the terminal s.
#[tactic(auto, unfolding(crate::specs::Fitting::still))]
fn still(s: u32, tensor: bool) -> bool
    ensures { result ≡ still s tensor }
{
    tensor && s < Symbol::EXTENT
}

// The tokens of a tuple type after its bracket.
fn inside(tokens: &Tokens<'_>, at: usize) -> Span
    requires at_le_n { at ≤ tokens.now.count }
    ensures range { result.at ≤ tokens.now.count }
    ensures meaning { record { left = from tokens.now result.at; tensor = result.tensor }
        ≡ type_walk 1 true (from tokens.now at) }
{
    let mut depth = 1;
    let mut tensor = true;
    for i in at..tokens.count {
        let s = tokens.symbol_at(i);
        let opened = usize::from(s == Symbol::LEFT_ROUND);
        let closed = usize::from(s == Symbol::RIGHT_ROUND);
        depth = depth + opened - closed;
        tensor = still(s, tensor);
        if depth == 0 {
            return Span {
                at: i + 1,
                tensor: tensor,
            };
        }
    }
    Span {
        at: tokens.count,
        tensor: tensor,
    }
}

// A type without its pairs of square brackets, whose first terminal is s.
fn base(tokens: &Tokens<'_>, at: usize, s: u32) -> Span
    ensures range { result.at ≤ tokens.now.count }
    ensures meaning { OfBase tokens.now.text.now tokens.now.table.now tokens.now.count at s result }
{
    if tokens.count <= at {
        return Span {
            at: tokens.count,
            tensor: false,
        };
    }
    if s == Symbol::LEFT_ROUND {
        return inside(tokens, at + 1);
    }
    Span {
        at: at + 1,
        tensor: s == Symbol::TENSOR,
    }
}

// How many pairs of square brackets stand from place `at` on.
// A `while` and no `for`: nothing bounds the pairs before the scan, so a range would only repeat the test.
fn pairs(tokens: &Tokens<'_>, at: usize) -> usize
    requires at_le_n { at ≤ tokens.now.count }
    ensures range { at + 2 * result ≤ tokens.now.count + 1 }
    ensures meaning { OfPairs tokens.now.text.now tokens.now.table.now tokens.now.count at result }
{
    let mut k = 0;
    while tokens.symbol_at(at + 2 * k) == Symbol::LEFT_SQUARE {
        k += 1;
    }
    k
}

// The type at place `at`.
pub fn type_of(tokens: &Tokens<'_>, at: usize) -> TypeAt
    ensures range { TypeRange tokens.now.count result }
    ensures meaning { OfType tokens.now.text.now tokens.now.table.now tokens.now.count at result }
{
    let s = tokens.symbol_at(at);
    let b = base(tokens, at, s);
    let k = pairs(tokens, b.at);
    TypeAt {
        kinds: kinds_of(s),
        pairs: k,
        tensor: b.tensor,
        end: b.at + 2 * k,
    }
}

impl TypeAt {
    // The type as one number.
    pub fn code(self) -> u32
        requires { (self.kinds < 64) × (self.pairs ≤ max_tokens) }
        ensures { (u : Ty) → self.kinds ≡ kinds_of u → self.pairs ≡ pairs_of u → self.tensor ≡ all_tensor u → result ≡ type_code u }
    {
        self.kinds + 512 * (u32::from(self.tensor) + 2 * self.pairs as u32)
    }
}

// In the place of a type's number: several results. No type has this number.
pub const SEVERAL: u32 = 1;

// The number of the type `tensor`.
pub const TENSOR: u32 = LeafKinds::TENSOR + 512;

// The parts of a type's number.
pub fn kinds_in(code: u32) -> u32
    ensures { (u : Ty) → code ≡ type_code u → result ≡ kinds_of u }
{
    code % 512
}

pub fn is_tensor(code: u32) -> bool
    ensures { (u : Ty) → code ≡ type_code u → result ≡ all_tensor u }
{
    code / 512 % 2 == 1
}

pub fn pairs_in(code: u32) -> usize
    ensures { (u : Ty) → code ≡ type_code u → result ≡ pairs_of u }
{
    (code / 1024) as usize
}
