// Every size, stated once, and the test of a count against each.
ghost use Rattle.std.specs.Prelude.{◌≡◌, leb, ltb};
ghost use Rattle.lexis.specs.Sizes.{max_text, max_tokens, max_name, max_string, max_number, table_words, work_words, call_words, wire_words};

#[derive(Clone, Copy)]
pub struct Limits {}

impl Limits {
    // The bytes of a text.
    pub const TEXT: usize = 16384;

    // The tokens of a text.
    pub const TOKENS: usize = 4096;

    // The bytes of a name.
    pub const NAME: usize = 64;

    // The bytes of a string between its quotes.
    pub const STRING: usize = 128;

    // The bytes of a number.
    pub const NUMBER: usize = 64;

    // The brackets of arrays, tuples and types that are open at once.
    pub const BRACKETS: usize = 8;

    // The operations of a list.
    pub const OPERATIONS: usize = 128;

    // The parameters of an operation.
    pub const PARAMETERS: usize = 32;

    // The results of an operation.
    pub const RESULTS: usize = 8;

    // The inputs of a graph.
    pub const INPUTS: usize = 32;

    // The outputs of a graph.
    pub const OUTPUTS: usize = 32;

    // The calls of a graph.
    pub const CALLS: usize = 384;

    // The identifiers on the left sides of a graph, repeats counted.
    pub const ASSIGNED: usize = 1024;

    // The identifiers in the arguments of a graph, repeats counted.
    pub const USES: usize = 1024;

    // The words of a record in a token table: kind, start, end after the last byte, line.
    pub const TOKEN_WORDS: usize = 4;

    // The words of a token table, at least.
    pub const TABLE_WORDS: usize = Limits::TOKENS * Limits::TOKEN_WORDS;

    // The words of a call table, at least: four for each call.
    pub const CALL_WORDS: usize = Limits::CALLS * 4;

    // The words of a wire table, at least: two for each use.
    pub const WIRE_WORDS: usize = Limits::USES * 2;

    // The words of a work area, at least.
    pub const WORK_WORDS: usize = 16384;

    // The words of a token's record in a work area: kind, start, end after the last byte.
    pub const RECORD_WORDS: usize = 3;

    // The first word of the terminals in a work area: one for each token, behind the records.
    pub const MARKS: usize = Limits::TOKENS * Limits::RECORD_WORDS;

    // The exponent of a number as written, without its sign.
    pub const WRITTEN: u32 = 9999;

    // The first written exponent out of range.
    pub const WRITTEN_END: u32 = Limits::WRITTEN + 1;

    // The exponent of a reduced number, to both sides of 0.
    pub const EXPONENT: i32 = 999;

    // The digits of a reduced mantissa.
    pub const MANTISSA_DIGITS: usize = 18;

    // The first number of more digits.
    pub const MANTISSA_END: u64 = 1000000000000000000;

    // A whole number at extent.
    pub const EXTENT: u64 = 2147483647;

    // Whether n of them are not too many. A function for each size and no generic one: by a rule of the project each size is tested here, under its name.
    pub fn text_fits(n: usize) -> bool
        ensures { result ≡ leb n max_text }
    {
        n <= Limits::TEXT
    }

    pub fn name_fits(n: usize) -> bool
        ensures { result ≡ leb n max_name }
    {
        n <= Limits::NAME
    }

    pub fn string_fits(n: usize) -> bool
        ensures { result ≡ leb n max_string }
    {
        n <= Limits::STRING
    }

    pub fn number_fits(n: usize) -> bool
        ensures { result ≡ leb n max_number }
    {
        n <= Limits::NUMBER
    }

    pub fn tokens_fit(n: usize) -> bool
        ensures { result ≡ leb n max_tokens }
    {
        n <= Limits::TOKENS
    }

    // One more token after n of them.
    pub fn token_fits(n: usize) -> bool
        ensures { result ≡ ltb n max_tokens }
    {
        n < Limits::TOKENS
    }

    // Whether a lent table of n words is long enough: again a function for each size.
    pub fn table_serves(n: usize) -> bool
        ensures { result ≡ leb table_words n }
    {
        Limits::TABLE_WORDS <= n
    }

    pub fn work_serves(n: usize) -> bool
        ensures { result ≡ leb work_words n }
    {
        Limits::WORK_WORDS <= n
    }

    pub fn calls_serve(n: usize) -> bool
        ensures { result ≡ leb call_words n }
    {
        Limits::CALL_WORDS <= n
    }

    pub fn wires_serve(n: usize) -> bool
        ensures { result ≡ leb wire_words n }
    {
        Limits::WIRE_WORDS <= n
    }
}
