// What the list says to a call: codes 15 to 20. The list stands in one table, with its directory and its names; the document in another.
ghost use Rattle.std.specs.Prelude.{◌≡◌, ◌+◌, ◌<◌, ◌≤◌, min, Some, IfSome};
ghost use Rattle.documents.specs.Judged.{Readable, ClosesAt};
ghost use Rattle.documents.specs.Directories.{OfOperation, OfCall};

use crate::arguments::{refusal_at, tally_all};
use crate::directory::Directory;
use crate::mask::first_missing;
use crate::operation::callee_at;
use lexis::refusal::Refusal;
use lists::best::Best;
use lists::directory::find;
use lists::fitting::matches;
use syntax::list::Item;
use syntax::tokens::Tokens;

// The number of the operation of a call, if it is declared, its first fault of codes 15 to 20, and the place of the bracket that closes its arguments.
#[derive(Clone, Copy)]
pub struct Judged {
    pub op: Option<usize>,
    pub best: Best,
    pub close: usize,
}

// The place of the bracket that closes the arguments at place `at`, or the end.
fn closing(tokens: &Tokens<'_>, at: usize) -> usize
    ensures range { (min at tokens.now.count ≤ result) × (result ≤ tokens.now.count) }
    ensures meaning { ClosesAt tokens.now.text.now tokens.now.table.now tokens.now.count at result }
{
    let read = tokens.list(at, Item::Argument);
    let Ok(next) = read else {
        return tokens.count;
    };
    next - 1
}

// The call at place `at`, whose `=` stands at place `equal`, if its operation is number k of the directory: codes 16 to 20.
fn declared(
    directory: &Directory<'_>,
    k: usize,
    doc: &Tokens<'_>,
    at: usize,
    equal: usize,
) -> Judged
    requires readable { Readable directory.now.words.now directory.now.tokens.count k }
    requires at_lt_dn { (at < doc.now.count) × (equal + 3 < doc.now.count) }
    ensures range { (result.op ≡ Some k) × (equal ≤ result.close) × (result.close ≤ doc.now.count) }
    ensures meaning { OfOperation directory.now k doc.now at equal result }
{
    let callee = callee_at(&directory.tokens, directory.words, k);
    let o = callee.operation;
    let t = tally_all(doc, &callee, equal + 3);
    let missing = first_missing(o.required, t.bound, doc.start_at(equal + 1));
    let matched = matches(doc, at, &directory.tokens, o.results, o.code);
    let unmatched = Best::refusal_if(!matched, Refusal::Unmatched, doc.start_at(at));
    Judged {
        op: Some(k),
        best: t.best.earlier(missing).earlier(unmatched),
        close: t.at,
    }
}

// The call at place `at`, whose `=` stands at place `equal`, under the list.
pub fn judge(directory: &Directory<'_>, doc: &Tokens<'_>, at: usize, equal: usize) -> Judged
    requires at_lt_dn { (at < doc.now.count) × (equal ≤ doc.now.count) }
    ensures range { IfSome result.op (λ k. k < 65536) × (equal ≤ result.close) × (result.close ≤ doc.now.count) }
    ensures meaning { OfCall directory.now doc.now at equal result }
{
    if doc.count <= equal + 3 {
        return Judged {
            op: None,
            best: Best::none(),
            close: doc.count,
        };
    }
    let name = equal + 1;
    let found = find(&directory.tokens, directory.index, doc, name);
    let Some(k) = found else {
        return Judged {
            op: None,
            best: refusal_at(doc, name, Refusal::Undeclared),
            close: closing(doc, equal + 3),
        };
    };
    declared(directory, k, doc, at, equal)
}
