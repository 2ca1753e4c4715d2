// All rules of a document under a list that has passed its own.
ghost use Rattle.std.specs.Prelude.{[], ◌<◌, ◌≤◌, length};
ghost use Rattle.index.specs.Indexed.{Walkable};
ghost use Rattle.documents.specs.Naming.{Naming};
ghost use Rattle.documents.specs.Records.{records_words};
ghost use Rattle.documents.specs.Graphs.{HasDocument, Rising, Blank, Headed, Unmade};
ghost use Rattle.documents.specs.Sources.{OfVersion, OfDocument};

use crate::body::body;
use crate::directory::Directory;
use crate::graph::{Graph, graph_at};
use crate::header::{listed, unassigned};
use crate::source::Source;
use crate::wiring::{Listed, Tally};
use index::token::bytes_at;
use lexis::limits::Limits;
use lexis::refusal::Refusal;
use lists::best::Best;
use spellings::same;
use syntax::tokens::Tokens;

// The first fault of a document, and how many calls and uses it has.
#[derive(Clone, Copy)]
pub struct Ruled {
    pub best: Best,
    pub calls: usize,
    pub uses: usize,
}

// The version, which stands at place 1, is not spelt `1.0`.
fn bad_version(tokens: &Tokens<'_>) -> Best
    ensures { OfVersion tokens.now result }
{
    if tokens.count <= 1 {
        return Best::none();
    }
    let right = same(bytes_at(tokens, 1), b"1.0");
    Best::refusal_if(!right, Refusal::WrongVersion, tokens.start_at(1))
}

// The names of the graph's header, which are entered in the index.
fn header(source: &Source<'_>, graph: Graph, index: &mut [u16], best: Best) -> Best
    requires rising { Rising graph }
    requires closes_le_count { graph.closes ≤ source.now.tokens.count }
    requires walkable { Walkable index.old graph.first source.now.tokens.count }
    ensures walkable_2 { Walkable index.new graph.closes source.now.tokens.count }
    ensures headed { Naming source.now.tokens.text.now source.now.tokens.table.now index.old graph.first [] []
        → Headed source.now.tokens.text.now source.now.tokens.table.now index.new graph best result }
{
    let start = Tally {
        best: best,
        count: 0,
    };
    let inputs = listed(
        source,
        graph.first,
        graph.inputs,
        Limits::INPUTS,
        Listed::Input,
        &mut *index,
        start,
    );
    let first = inputs.best;
    let next = Tally {
        best: first,
        count: 0,
    };
    let outputs = listed(
        source,
        graph.outputs,
        graph.closes,
        Limits::OUTPUTS,
        Listed::Output,
        index,
        next,
    );
    outputs.best
}

// The names of the header that no call assigns.
fn unmade(tokens: &Tokens<'_>, graph: Graph, index: &[u16], best: Best) -> Best
    requires inputs_le_n { (graph.inputs ≤ tokens.now.count) × (graph.closes ≤ tokens.now.count) }
    requires walkable { Walkable index.now tokens.now.count tokens.now.count }
    ensures { Unmade tokens.now.text.now tokens.now.table.now index.now graph best result }
{
    let inputs = unassigned(
        tokens,
        graph.first,
        graph.inputs,
        index,
        Refusal::Misfed,
        best,
    );
    unassigned(
        tokens,
        graph.outputs,
        graph.closes,
        index,
        Refusal::UnassignedOutput,
        inputs,
    )
}

// The first fault of a document under a list that has none, and its records. The index is empty before.
pub fn document_rules(
    directory: &Directory<'_>,
    source: &Source<'_>,
    index: &mut [u16],
    records: &mut [u16],
) -> Ruled
    requires has_document { HasDocument source.now.tokens.text.now source.now.tokens.table.now source.now.tokens.count }
    requires records_room { records_words ≤ length records.old }
    requires blank { Blank index.old source.now.tokens.count }
    ensures { OfDocument directory.now source.now records.new result }
{
    let graph = graph_at(&source.tokens);
    let version = bad_version(&source.tokens);
    let listed = header(source, graph, &mut *index, version);
    let walk = body(directory, source, &mut *index, records, graph);
    Ruled {
        best: unmade(&source.tokens, graph, index, listed.earlier(walk.best)),
        calls: walk.calls,
        uses: walk.uses,
    }
}
