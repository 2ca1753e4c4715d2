// Where the parts of a document stand.
ghost use Rattle.std.specs.Prelude.{◌≡◌, [], ℕ, ◌-◌, ◌≤◌};
ghost use Rattle.syntax.specs.Tree.{Document};
ghost use Rattle.syntax.specs.Parser.{document};
ghost use Rattle.syntax.specs.Parser.Parse.{ok};
ghost use Rattle.syntax.specs.Tokens.{from};
ghost use Rattle.documents.specs.Graphs.{GraphAt};

use crate::calls::find;
use lexis::symbol::Symbol;
use syntax::tokens::Tokens;

// Places: where the inputs begin and close; where the outputs begin and close; where the body begins and its closing bracket stands.
#[derive(Clone, Copy)]
pub struct Graph {
    pub first: usize,
    pub inputs: usize,
    pub outputs: usize,
    pub closes: usize,
    pub body: usize,
    pub end: usize,
}

// The place of a graph's first input.
const FIRST_INPUT: usize = 5;

// The places of a document.
pub fn graph_at(tokens: &Tokens<'_>) -> Graph
    ensures inputs_le_n { (result.inputs ≤ tokens.now.count) × (result.closes ≤ tokens.now.count) × (result.end ≤ tokens.now.count) }
    ensures by_index { (b : ℕ) (d : Document) → document b (from tokens.now 0) ≡ ok d []
        → GraphAt tokens.now.text.now tokens.now.table.now tokens.now.count b result d }
{
    let inputs = find(tokens, FIRST_INPUT, Symbol::RIGHT_ROUND);
    let closes = find(tokens, inputs + 3, Symbol::RIGHT_ROUND);
    Graph {
        first: FIRST_INPUT,
        inputs: inputs,
        outputs: inputs + 3,
        closes: closes,
        body: closes + 2,
        end: tokens.count.saturating_sub(1),
    }
}
