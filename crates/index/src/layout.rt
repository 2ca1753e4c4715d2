// The words of an index: the heads of all chains, and for each place of the token table its link and two words that its name has.
use lexis::limits::Limits;

#[derive(Clone, Copy)]
pub struct Layout {}

impl Layout {
    // As many chains.
    pub const CHAINS: usize = 1024;

    // The words of a place: its link, and the words of its name.
    pub const PLACE_WORDS: usize = 3;

    // The words of an index over as many places as a token table has.
    pub const WORDS: usize = Layout::CHAINS + Limits::TOKENS * Layout::PLACE_WORDS;
}
