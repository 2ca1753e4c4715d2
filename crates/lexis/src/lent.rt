// The records of a work area into a lent table, each with the line of its token.
ghost use Rattle.std.specs.Prelude.{◌≡◌, ◌+◌, ◌-◌, ◌<◌, ◌≤◌, length, take, drop};
ghost use Rattle.lexis.specs.Answer.{recorded};
ghost use Rattle.lexis.specs.Lexer.{lex};
ghost use Rattle.lexis.specs.Line.{line_feeds};
ghost use Rattle.lexis.specs.Sizes.{max_text, table_words};
ghost use Rattle.lexis.specs.Work.{Held, record_at};

use crate::limits::Limits;

// The line at `to`, where `from` stands on `line`: one more after each byte 10 between them.
fn line_at(text: &[u8], from: usize, to: usize, line: u32) -> u32
    requires to_in_bounds { (from ≤ to) × ((to ≤ length text.now) × (length text.now ≤ max_text)) }
    requires line_bound { line ≤ from + 1 }
    ensures { result ≡ line + line_feeds (take (to - from) (drop from text.now)) }
{
    let feeds = text[from..to].iter().filter(|b| **b == b'\n').count();
    line + feeds as u32
}

// The same over a gap, which is mostly empty or one byte.
fn line_after(text: &[u8], from: usize, to: usize, line: u32) -> u32
    requires to_in_bounds { (to ≤ length text.now) × (length text.now ≤ max_text) }
    requires from_le_to { (from ≤ to) × (line ≤ from + 1) }
    ensures { result ≡ line + line_feeds (take (to - from) (drop from text.now)) }
{
    if from == to {
        return line;
    }
    let next = from + 1;
    if text[from] == b'\n' {
        return line_at(text, next, to, line + 1);
    }
    line_at(text, next, to, line)
}

// The three words of a record at the word `i`.
pub fn put_words(area: &mut [u32], i: usize, kind: u32, start: u32, end: u32)
    requires { i + 2 < length area.old }
    ensures { area.new ≡ record_at area.old i kind start end }
{
    area[i] = kind;
    area[i + 1] = start;
    area[i + 2] = end;
}

// The records of the n tokens of a text, which stand in front of the work area, in front of the table with their lines. A token holds no
// byte 10, so only the gap before it is read.
pub fn fill(text: &[u8], work: &[u32], table: &mut [u32], n: usize)
    requires text_len_bound { (length text.now ≤ max_text) × (table_words ≤ length table.old) }
    requires held { Held (lex text.now) work.now n }
    ensures { table.new ≡ recorded text.now table.old (lex text.now) }
{
    let mut end = 0;
    let mut line = 1;
    for i in 0..n {
        let from = i * Limits::RECORD_WORDS;
        let to = i * Limits::TOKEN_WORDS;
        let start = work[from + 1];
        let last = work[from + 2];
        put_words(&mut *table, to, work[from], start, last);
        line = line_after(text, end, start as usize, line);
        table[to + 3] = line;
        end = last as usize;
    }
}
