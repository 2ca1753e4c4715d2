// The parameters of an operation that is called, each by its number among them.
ghost use Rattle.std.specs.Prelude.{◌≡◌, ◌+◌, ◌<◌, IfSome, unwrap_or};
ghost use Rattle.index.specs.Layout.{word_in};
ghost use Rattle.lists.specs.Directory.{parameter_word};
ghost use Rattle.documents.specs.Callees.{spells, guesses, Numbers};

use crate::callee::Callee;
use index::token::bytes_at;
use lists::directory::Param;
use spellings::same;

impl Callee<'_> {
    // The place of the name of parameter i.
    pub fn name_of(&self, i: usize) -> usize
        requires { i < self.now.operation.count }
        ensures value { result ≡ parameter_word self.now.words.now (self.now.operation.first + i) 0 }
        ensures small { result < 4294967296 }
    {
        self.words[Param::FIRST + (self.operation.first + i) * Param::WORDS + Param::NAME] as usize
    }

    // The number of the type of parameter i.
    pub fn code_of(&self, i: usize) -> u32
        requires { i < self.now.operation.count }
        ensures { result ≡ parameter_word self.now.words.now (self.now.operation.first + i) 1 }
    {
        self.words[Param::FIRST + (self.operation.first + i) * Param::WORDS + Param::TYPE]
    }

    // The place of the default of parameter i, if it has one; 0 in the words, which are lent, is none.
    pub fn default_of(&self, i: usize) -> Option<usize>
        requires { i < self.now.operation.count }
        ensures value { word_in result ≡ parameter_word self.now.words.now (self.now.operation.first + i) 2 }
        ensures nonzero { IfSome result (λ d. 0 < d) }
    {
        match self.words[Param::FIRST
            + (self.operation.first + i) * Param::WORDS
            + Param::DEFAULT]
        {
            0 => None,
            d => Some(d as usize),
        }
    }

    // Whether parameter i is spelt w.
    fn is_spelt(&self, i: usize, w: &[u8]) -> bool
        requires { i < self.now.operation.count }
        ensures { result ≡ spells self.now i w.now }
    {
        same(bytes_at(&self.list, self.name_of(i)), w)
    }

    // The number of the first parameter that is spelt w.
    pub fn search(&self, w: &[u8]) -> Option<usize>
        ensures numbers { Numbers self.now w.now (unwrap_or result self.now.operation.count) }
        ensures upper_bound { IfSome result (λ i. i < self.now.operation.count) }
    {
        for i in 0..self.operation.count {
            if self.is_spelt(i, w) {
                return Some(i);
            }
        }
        None
    }

    // Whether the guess is the number of a parameter that is spelt w. It is, where arguments stand in the order of the parameters.
    pub fn is_guessed(&self, w: &[u8], guess: usize) -> bool
        ensures { result ≡ guesses self.now w.now guess }
    {
        if self.operation.count <= guess {
            return false;
        }
        self.is_spelt(guess, w)
    }

    // The number of the parameter that is spelt w. The guess is tried first.
    pub fn number_of(&self, w: &[u8], guess: usize) -> Option<usize>
        ensures numbers { Numbers self.now w.now (unwrap_or result self.now.operation.count) }
        ensures upper_bound { IfSome result (λ i. i < self.now.operation.count) }
    {
        if self.is_guessed(w, guess) {
            return Some(guess);
        }
        self.search(w)
    }
}
