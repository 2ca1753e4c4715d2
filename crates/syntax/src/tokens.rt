// The tokens of a text, as a work area holds them.
ghost use Rattle.std.specs.Prelude.{ℕ, ◌<◌, get_or};
ghost use Rattle.syntax.specs.Table.{Holds};

// A text, the words of a work area with the records and terminals of its tokens, and how many tokens there are.
#[derive(Clone, Copy)]
pub struct Tokens<'a> {
    pub text: &'a [u8],
    pub table: &'a [u32],
    pub count: usize,
    pub ghost holds: { Holds text.now table.now count },
}

// The bytes of a text are below 256. A slice that is passed tells a proof so; one in a struct behind a reference does not.
pub fn below_256(text: &[u8])
    ensures { (i : ℕ) → get_or text.now i 0 < 256 }
{}
