// The pieces of calls.
ghost use Rattle.std.specs.Prelude.{◌≡◌, ◌∷◌, ◌*◌, ◌<◌, ◌≤◌, length, get_or};
ghost use Rattle.lexis.specs.Ascii.{ascii};
ghost use Rattle.lexis.specs.Sizes.{max_tokens, max_calls};
ghost use Rattle.syntax.specs.Table.{token_at};
ghost use Rattle.documents.specs.Judged.{Readable};
ghost use Rattle.documents.specs.Records.{call_size, records_words};
ghost use Rattle.writing.specs.Layout.{name_piece, mark};
ghost use Rattle.writing.specs.Writing.{Puts, Ranged, ReadableOps, PutsCall, PutsCalls};

use crate::argument::put_arguments;
use crate::pattern::put_left;
use crate::place::keeps_limits;
use crate::writer::Writer;
use documents::calls::{after_call, find};
use documents::operation::callee_at;
use documents::records::Records;
use lexis::symbol::Symbol;
use syntax::tokens::Tokens;

// Puts an equals sign, the name at place `name` and an opening bracket.
fn put_operation(out: &mut Writer<'_>, tokens: &Tokens<'_>, name: usize)
    requires { name < tokens.now.count }
    ensures { Puts
        (λ q. mark (ascii "=") ∷ name_piece (token_at tokens.now.text.now tokens.now.table.now name).bytes
        ∷ mark (ascii "(") ∷ q) out.old out.new }
{
    out.put_mark(b'=');
    out.put_token(tokens, name);
    out.put_mark(b'(');
}

// Puts the call at place `at`, whose operation is number k of the directory, and gives the place of the next call.
fn put_call(
    out: &mut Writer<'_>,
    list: &Tokens<'_>,
    words: &[u32],
    k: usize,
    doc: &Tokens<'_>,
    at: usize,
) -> usize
    requires ranged { Ranged list.now.text.now list.now.table.now list.now.count }
    requires readable { Readable words.now list.now.count k }
    requires ranged_2 { Ranged doc.now.text.now doc.now.table.now doc.now.count }
    requires dn_le_max_tokens { doc.now.count ≤ max_tokens }
    ensures { PutsCall list.now words.now k doc.now at out.old out.new result }
{
    let equal = find(doc, at, Symbol::EQUAL);
    if doc.count <= equal + 3 {
        return doc.count;
    }
    let callee = callee_at(list, words, k);
    put_left(out, doc, at, equal);
    put_operation(out, doc, equal + 1);
    let close = put_arguments(out, doc, equal + 3, &callee);
    out.put_mark(b')');
    out.put_spaced(b";", 10);
    after_call(doc, close)
}

// The number of the operation of call i.
fn operation_of(records: &[u16], i: usize) -> usize
    requires { (i < max_calls) × (records_words ≤ length records.now) }
    ensures { result ≡ get_or records.now (i * call_size) 0 }
{
    records[i * Records::CALL] as usize
}

// Puts so many calls from place `body` on, whose records stand in front of `records`, and stops beyond the limits: what has passed them is never
// written.
pub fn put_calls(
    out: &mut Writer<'_>,
    list: &Tokens<'_>,
    words: &[u32],
    records: &[u16],
    doc: &Tokens<'_>,
    calls: usize,
    body: usize,
)
    requires ranged { Ranged list.now.text.now list.now.table.now list.now.count }
    requires readable_ops { ReadableOps words.now records.now list.now.count calls }
    requires ranged_2 { Ranged doc.now.text.now doc.now.table.now doc.now.count }
    requires calls_le_max_calls { (calls ≤ max_calls) × (records_words ≤ length records.now) × (doc.now.count ≤ max_tokens) }
    ensures { PutsCalls list.now words.now records.now doc.now calls body out.old out.new }
{
    let mut at = body;
    for i in 0..calls {
        if !keeps_limits(out.place) {
            return;
        }
        at = put_call(out, list, words, operation_of(records, i), doc, at);
    }
}
