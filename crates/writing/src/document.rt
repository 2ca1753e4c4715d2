// The pieces of a whole document.
ghost use Rattle.std.specs.Prelude.{◌≡◌, List, [], ◌∷◌, ◌≤◌, length};
ghost use Rattle.lexis.specs.Ascii.{ascii};
ghost use Rattle.lexis.specs.Kind as Kind;
ghost use Rattle.lexis.specs.Lexer.{Token};
ghost use Rattle.lexis.specs.Sizes.{max_tokens, max_calls};
ghost use Rattle.lexis.specs.Symbol.{a_name as name_symbol, right_round};
ghost use Rattle.syntax.specs.Tree.{Document};
ghost use Rattle.syntax.specs.Parser.{expect, row, plain, commas, parse_document};
ghost use Rattle.syntax.specs.Parser.Parse.{ok};
ghost use Rattle.syntax.specs.Tokens.{from};
ghost use Rattle.documents.specs.Records.{records_words};
ghost use Rattle.writing.specs.Plan.{spellings};
ghost use Rattle.writing.specs.Layout.{spaced, lined, name_piece, mark, names_pieces};
ghost use Rattle.writing.specs.Writing.{Puts, Ranged, ReadableOps, PutsDocument};

use crate::call::put_calls;
use crate::pattern::put_names;
use crate::place::Place;
use crate::writer::Writer;
use documents::graph::graph_at;
use syntax::tokens::Tokens;

// Puts the version, the word `graph`, the graph's name and an opening bracket.
fn put_title(out: &mut Writer<'_>, tokens: &Tokens<'_>)
    ensures { (d : Document) → parse_document (from tokens.now 0) ≡ ok d []
        → Puts
        (λ q. spaced Kind.keyword (ascii "version") ∷ lined Kind.real (ascii "1.0") ∷ spaced Kind.keyword (ascii "graph") ∷ name_piece d.graph.bytes
        ∷ mark (ascii "(") ∷ q) out.old out.new }
{
    if 3 < tokens.count {
        out.put_spaced(b"version", 32);
        out.put_spaced(b"1.0", 10);
        out.put_spaced(b"graph", 32);
        out.put_token(tokens, 3);
        out.put_mark(b'(');
    }
}

// Puts what stands between the inputs and the outputs of a graph.
fn put_arrow(out: &mut Writer<'_>)
    ensures { Puts (λ q. mark (ascii ")") ∷ mark (ascii "->") ∷ mark (ascii "(") ∷ q) out.old out.new }
{
    out.put_mark(b')');
    out.put_word(b"->");
    out.put_mark(b'(');
}

// Puts everything of a document before its calls; its outputs stand from place `outputs` on.
fn put_header(out: &mut Writer<'_>, tokens: &Tokens<'_>, outputs: usize)
    ensures { (d : Document) (us : List Token) → parse_document (from tokens.now 0) ≡ ok d [] →
        row plain (commas right_round) (expect name_symbol) (from tokens.now outputs) ≡ ok d.outputs us → Puts (λ q.
        spaced Kind.keyword (ascii "version") ∷ lined Kind.real (ascii "1.0") ∷ spaced Kind.keyword (ascii "graph") ∷ name_piece d.graph.bytes ∷ mark (ascii "(")
        ∷ names_pieces (spellings d.inputs) (mark (ascii ")") ∷ mark (ascii "->") ∷ mark (ascii "(")
        ∷ names_pieces (spellings d.outputs) (lined Kind.syntactic (ascii ")") ∷ lined Kind.syntactic (ascii "{") ∷ q))) out.old out.new }
{
    put_title(out, tokens);
    put_names(out, tokens, 5);
    put_arrow(out);
    put_names(out, tokens, outputs);
    out.put_spaced(b")", 10);
    out.put_spaced(b"{", 10);
}

// Puts the canonical text of a document that has passed its stages, from the first byte on, or what of it passes the limits, and gives the place
// where it ends.
pub fn put_document(
    out: &mut [u8],
    list: &Tokens<'_>,
    words: &[u32],
    records: &[u16],
    doc: &Tokens<'_>,
    calls: usize,
) -> Place
    requires ranged { Ranged list.now.text.now list.now.table.now list.now.count }
    requires readable_ops { ReadableOps words.now records.now list.now.count calls }
    requires ranged_2 { Ranged doc.now.text.now doc.now.table.now doc.now.count }
    requires calls_le_max_calls { (calls ≤ max_calls) × (records_words ≤ length records.now) × (doc.now.count ≤ max_tokens) }
    ensures { PutsDocument list.now words.now records.now doc.now calls out.old out.new result }
{
    let mut writer = Writer::new(out);
    let graph = graph_at(doc);
    put_header(&mut writer, doc, graph.outputs);
    put_calls(&mut writer, list, words, records, doc, calls, graph.body);
    writer.put_spaced(b"}", 10);
    writer.place
}
