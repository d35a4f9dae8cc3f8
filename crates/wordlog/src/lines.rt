// The log of a recording, in parts: what its head gives, and what each block of words adds.
ghost use Rattle.std.specs.Prelude.{◌≡◌, true, [], ◌++◌, ◌+◌, ◌-◌, ◌*◌, ◌/◌, ◌%◌, ◌≤◌, ◌<◌, length, take};
ghost use Rattle.rules.specs.Codes.{code as code_of, offered};
ghost use Rattle.answers.specs.Calls.{refused_correct_of};
ghost use Rattle.wordlog.specs.line.Line.{header, line as line_of, word_line};
ghost use Rattle.wordlog.specs.lines.Log.{word, lines as lines_of, bad, log};
ghost use Rattle.wordlog.specs.lines.Parts.{Taken, Room, Counted, Adds};
ghost use Rattle.wordlog.specs.lines.Block.{counted, Numbered, Behind};

use super::line;
use catalogue::offer;

// What the words of a block are corrected and numbered by.
#[derive(Clone, Copy)]
struct Block {
    code: u8,
    limit: u16,
    size: usize,
    index: u64,
    count: usize,
}

impl Block {
    // Corrects word k of the block's, and writes its line.
    fn write_at(&self, k: usize, words: &[u8], out: &mut [u8], text: &mut [u8], at: usize) -> usize
        requires numbered { Numbered self.now.code self.now.size self.now.index words.now × (k < counted self.now.size words.now) }
        requires out_len { (length out.old ≡ self.now.size) × (at + 128 ≤ length text.old) }
        ensures upper_bound { result ≤ at + 128 }
        ensures text_after { take result text.new
            ≡ take at text.old ++ word_line self.now.code self.now.limit (self.now.index + k) (word self.now.code words.now k) }
    {
        let from = k * self.size;
        let to = (from + self.size).min(words.len());
        line::write_word(
            self.code,
            self.limit,
            self.index + k as u64,
            &words[from..to],
            out,
            text,
            at,
        )
    }

    // Corrects its words, one after another, and writes their lines: answers where the text ends.
    fn write(&self, words: &[u8], out: &mut [u8], text: &mut [u8]) -> usize
        requires numbered { Numbered self.now.code self.now.size self.now.index words.now
            × (self.now.count ≡ counted self.now.size words.now) }
        requires out_len { (length out.old ≡ self.now.size) × (8 * length words.now + 128 ≤ length text.old) }
        ensures upper_bound { result ≤ length text.new }
        ensures text_after { take result text.new
            ≡ lines_of self.now.code self.now.limit self.now.index words.now self.now.count }
    {
        let mut end: usize = 0;
        for k in 0..self.count {
            end = self.write_at(k, words, out, text, end);
        }
        end
    }
}

// The octets of a word.
pub fn word_octets(code: u8) -> usize
    requires { offered code ≡ true }
    ensures { (result ≡ (code_of code).octets_of_word) × (16 ≤ result) × (result ≤ 1022) }
{
    offer::word_octets(code)
}

// How many octets of whole words 64 KiB hold.
pub fn block_octets(code: u8) -> usize
    requires { offered code ≡ true }
    ensures { (result % (code_of code).octets_of_word ≡ 0) × (0 < result) × (result ≤ 65536) }
{
    let size = word_octets(code);
    65536 / size * size
}

// A block of words, before which so many octets of words were read. Its last word may be short.
fn block_at(head: &[u8], read: u64, words: &[u8]) -> Block
    requires { Taken head.now }
    ensures { Behind head.now read words.now result }
{
    let code = head[0];
    let size = word_octets(code);
    let index = read / size as u64;
    let count = (words.len() + (size - 1)) / size;
    Block {
        code,
        limit: u16::from_be_bytes([head[1], head[2]]),
        size,
        index,
        count,
    }
}

// Whether a recording has fewer than three octets, or a bad code.
pub fn is_bad(head: &[u8]) -> bool
    ensures { result ≡ bad head.now }
{
    head.len() < 3 || !offer::is_offered(head[0])
}

// The log of a bad head: the header, and the line of refusal 1.
fn put_bad(text: &mut [u8]) -> usize
    requires { 256 ≤ length text.old }
    ensures { (result ≤ 256) × (take result text.new ≡ header ++ line_of 0 (refused_correct_of [] 1)) }
{
    let end = line::put_header(text);
    line::put_line(0, line::refusal(), text, end)
}

// The log of a recording's first three octets, or of the fewer that it has.
pub fn begin(head: &[u8], text: &mut [u8]) -> usize
    requires { (length head.now ≤ 3) × (256 ≤ length text.old) }
    ensures { (result ≤ length text.new) × (take result text.new ≡ log head.now) }
{
    if is_bad(head) {
        return put_bad(text);
    }
    line::put_header(text)
}

// What the log grows by: corrects a block of words, before which so many octets of words were read, and writes their lines.
pub fn go_on(head: &[u8], read: u64, words: &[u8], out: &mut [u8], text: &mut [u8]) -> usize
    requires { Taken head.now × Room head.now words.now out.old text.old × Counted head.now read words.now }
    ensures { (result ≤ length text.new) × Adds head.now read words.now (take result text.new) }
{
    let b = block_at(head, read, words);
    b.write(words, out, text)
}
