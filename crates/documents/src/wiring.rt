// Identifiers of a body: assigned on left sides, used in arguments. The index of names has for each what it is in the header, and the
// first call that assigns it.
ghost use Rattle.std.specs.Prelude.{◌≡◌, ◌∷◌, [], suc, ◌+◌, ◌-◌, ◌<◌, ◌≤◌, length, IfSome};
ghost use Rattle.lexis.specs.Sizes.{max_tokens};
ghost use Rattle.syntax.specs.Table.{token_at, toks};
ghost use Rattle.syntax.specs.Tokens.{from};
ghost use Rattle.index.specs.Indexed.{Walkable};
ghost use Rattle.index.specs.Layout.{word_in};
ghost use Rattle.lists.specs.Fault.{earlier};
ghost use Rattle.lists.specs.Best.{meant};
ghost use Rattle.lists.specs.Scans.{is_use, names_among, uses_among};
ghost use Rattle.documents.specs.Walks.{code_of, coded};
ghost use Rattle.documents.specs.Records.{records_words, earlier_call};
ghost use Rattle.documents.specs.Naming.{listed_number};
ghost use Rattle.documents.specs.NameWalks.{Assigns, Uses};

use crate::records::wire;
use crate::source::Source;
use index::token::bytes_at;
use index::{enter, keep_word, look_up, word_of};
use lexis::limits::Limits;
use lexis::refusal::Refusal;
use lexis::symbol::Symbol;
use lists::best::Best;
use syntax::tokens::Tokens;

// The words of a name in the index; 0 in them, which are lent, is none.
#[derive(Clone, Copy)]
pub struct Word {}

impl Word {
    // What it is in the header, as a number.
    pub const LISTING: usize = 0;

    // The first call that assigns it, counted from 1.
    pub const ASSIGNER: usize = 1;
}

// What the header has a name as.
#[derive(Clone, Copy)]
pub enum Listed {
    Input = 1,
    Output = 2,
}

impl Listed {
    // The number of it, as the index has it. A method and no `From`: a trait could not promise its range.
    pub fn number(self) -> usize
        ensures value { result ≡ listed_number self }
        ensures range { (0 < result) × (result < 65536) }
    {
        self as usize
    }
}

// The first fault of names, and how many names there are.
#[derive(Clone, Copy)]
pub struct Tally {
    pub best: Best,
    pub count: usize,
}

impl Tally {
    // One name more, and its fault at this place, if it has one.
    pub fn next(self, refusal: Option<Refusal>, place: u32) -> Tally
        requires { self.count < max_tokens }
        ensures { (meant result.best ≡ earlier (meant self.best) (coded (code_of refusal) place)) × (result.count ≡ self.count + 1) }
    {
        let here = match refusal {
            Some(refusal) => Best::one(refusal, place),
            None => Best::none(),
        };
        Tally {
            best: self.best.earlier(here),
            count: self.count + 1,
        }
    }
}

// The identifier at place i of the left side of call k, if there is one: beyond the size, assigned again, or fed wrongly.
fn assigned_at(
    source: &Source<'_>,
    i: usize,
    k: usize,
    external: bool,
    index: &mut [u16],
    tally: Tally,
) -> Tally
    requires i_lt_n { (i < source.now.tokens.count) × (k ≤ i) × (tally.count ≤ i) }
    requires walkable { Walkable index.old i source.now.tokens.count }
    ensures count_le_count { (tally.count ≤ result.count) × (result.count ≤ suc i) }
    ensures walkable_2 { Walkable index.new (i + 1) source.now.tokens.count }
    ensures assigns { Assigns source.now.tokens.text.now source.now.tokens.table.now index.old index.new i (i + 1) k external
        (names_among (token_at source.now.tokens.text.now source.now.tokens.table.now i ∷ [])) tally result }
{
    if source.tokens.symbol_at(i) != Symbol::NAME {
        return tally;
    }
    let p = enter(&source.tokens, &mut *index, i);
    let input = word_of(index, p, Word::LISTING) == Listed::Input.number();
    let had = keep_word(&mut *index, p, Word::ASSIGNER, k + 1);
    let refusal = if tally.count == Limits::ASSIGNED {
        Some(Refusal::OverSize)
    } else if had.is_some() {
        Some(Refusal::AssignedAgain)
    } else if external != input {
        Some(Refusal::Misfed)
    } else {
        None
    };
    tally.next(refusal, source.tokens.start_at(i))
}

// The identifiers of the left side of call k, from place `at` up to place `equal`.
pub fn assigned(
    source: &Source<'_>,
    at: usize,
    equal: usize,
    k: usize,
    external: bool,
    index: &mut [u16],
    tally: Tally,
) -> Tally
    requires at_le_equal { (at ≤ equal) × (equal ≤ source.now.tokens.count) × (k ≤ at) × (tally.count ≤ at) }
    requires walkable { Walkable index.old at source.now.tokens.count }
    ensures count_le_count { (tally.count ≤ result.count) × (result.count ≤ equal) }
    ensures walkable_2 { Walkable index.new equal source.now.tokens.count }
    ensures assigns { Assigns source.now.tokens.text.now source.now.tokens.table.now index.old index.new at equal k external
        (names_among (toks source.now.tokens.text.now source.now.tokens.table.now equal at)) tally result }
{
    let mut sum = tally;
    for i in at..equal {
        sum = assigned_at(source, i, k, external, &mut *index, sum);
    }
    sum
}

// Whether a use stands at place i of arguments: a name that no `=` follows.
fn is_use(arguments: &Tokens<'_>, i: usize) -> bool
    requires i_lt_count { i < arguments.now.count }
    ensures { result ≡ is_use (token_at arguments.now.text.now arguments.now.table.now i) (from arguments.now (i + 1)) }
{
    if arguments.symbol_at(i) != Symbol::NAME {
        return false;
    }
    arguments.symbol_at(i + 1) != Symbol::EQUAL
}

// The index of the call that the index of names counts a from 1, if there is one and it is one of the first k.
fn earlier_call(a: Option<usize>, k: usize) -> Option<usize>
    ensures value { result ≡ earlier_call (word_in a) k }
    ensures upper_bound { IfSome result (λ c. c < k) }
{
    let c = a?.checked_sub(1)?;
    if c < k { Some(c) } else { None }
}

// The use at place i of the arguments of call k: beyond the size, or not assigned by an earlier call. Its wire is stored.
fn used_at(
    source: &Source<'_>,
    i: usize,
    k: usize,
    index: &[u16],
    records: &mut [u16],
    tally: Tally,
) -> Tally
    requires i_lt_n { (i < source.now.tokens.count) × (k ≤ max_tokens) × (tally.count ≤ i) }
    requires records_room { records_words ≤ length records.old }
    requires walkable { Walkable index.now source.now.tokens.count source.now.tokens.count }
    ensures count_le_count { (tally.count ≤ result.count) × (result.count ≤ suc tally.count) }
    ensures records_len_unchanged { length records.new ≡ length records.old }
    ensures uses { Uses source.now.tokens.text.now source.now.tokens.table.now index.now records.old records.new k
        (token_at source.now.tokens.text.now source.now.tokens.table.now i ∷ []) tally result }
{
    let place = source.tokens.start_at(i);
    let a = look_up(
        &source.tokens,
        index,
        bytes_at(&source.tokens, i),
        Word::ASSIGNER,
    );
    let call = earlier_call(a, k);
    wire(&mut *records, tally.count, place, call.unwrap_or(0));
    let refusal = if tally.count == Limits::USES {
        Some(Refusal::OverSize)
    } else if call.is_none() {
        Some(Refusal::UnassignedUse)
    } else {
        None
    };
    tally.next(refusal, place)
}

// The uses of the arguments of call k from place `from` up to place `to`. Most tokens are none, and are passed over in the loop.
pub fn used(
    source: &Source<'_>,
    from: usize,
    to: usize,
    k: usize,
    index: &[u16],
    records: &mut [u16],
    tally: Tally,
) -> Tally
    requires to_le_n { (to ≤ source.now.tokens.count) × (k ≤ max_tokens) × (tally.count ≤ from) }
    requires records_room { records_words ≤ length records.old }
    requires walkable { Walkable index.now source.now.tokens.count source.now.tokens.count }
    ensures count_le_count { (tally.count ≤ result.count) × (result.count ≤ tally.count + (to - from)) }
    ensures records_len_unchanged { length records.new ≡ length records.old }
    ensures uses { Uses source.now.tokens.text.now source.now.tokens.table.now index.now records.old records.new k
        (uses_among (toks source.now.tokens.text.now source.now.tokens.table.now to from)) tally result }
{
    let arguments = Tokens {
        text: source.tokens.text,
        table: source.tokens.table,
        count: to,
    };
    let mut sum = tally;
    for i in from..to {
        if is_use(&arguments, i) {
            sum = used_at(source, i, k, index, &mut *records, sum);
        }
    }
    sum
}
