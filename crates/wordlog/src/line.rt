// A line of the log, as text: the decimal digits of a number, the fields of an answer, the header.
ghost use Rattle.std.specs.Prelude.{◌≡◌, [], ◌∷◌, ◌++◌, ◌+◌, ◌*◌, ◌≤◌, ◌<◌, ◌^◌, length, take};
ghost use Rattle.rules.specs.Codes.{code as code_of};
ghost use Rattle.answers.specs.Calls.{refused_correct_of};
ghost use Rattle.flipping.specs.endings.Answers.{as_corrected};
ghost use Rattle.wordlog.specs.line.Line.{decimal, fields, numbers as numbers_of, header, line as line_of, word_line};

use flipping::endings;

// A number behind the text so far: answers where the text ends then.
fn put(n: u64, text: &mut [u8], at: usize) -> usize
    requires { at + length (decimal n) ≤ length text.old }
    ensures { (result ≡ at + length (decimal n)) × (take result text.new ≡ take at text.old ++ decimal n) }
{
    if n < 10 {
        text[at] = b'0' + n as u8;
        return at + 1;
    }
    let end = put(n / 10, text, at);
    text[end] = b'0' + (n % 10) as u8;
    end + 1
}

// A space and a number. 21 octets hold any.
fn put_field(n: u64, text: &mut [u8], at: usize) -> usize
    requires { at + 21 ≤ length text.old }
    ensures { (result ≤ at + 21) × (take result text.new ≡ take at text.old ++ (32 ∷ decimal n)) }
{
    text[at] = b' ';
    put(n, text, at + 1)
}

// Numbers, a space before each.
fn put_fields(numbers: &[u64], text: &mut [u8], at: usize) -> usize
    requires { at + 21 * length numbers.now ≤ length text.old }
    ensures upper_bound { result ≤ at + 21 * length numbers.now }
    ensures text_after { take result text.new ≡ take at text.old ++ fields numbers.now }
{
    let mut end = at;
    for n in numbers {
        end = put_field(*n, text, end);
    }
    end
}

// What a line gives of an answer. A further field of the answer is one entry here, one in the definition, and one in the proof.
fn numbers(a: endings::Corrected) -> [u64; 5]
    ensures { result ≡ numbers_of (as_corrected a []) }
{
    [
        u64::from(a.number),
        u64::from(a.flips),
        u64::from(a.first),
        u64::from(a.last),
        u64::from(a.unlike),
    ]
}

// The line of an answer. 128 octets hold any.
pub fn put_line(index: u64, a: endings::Corrected, text: &mut [u8], at: usize) -> usize
    requires { at + 128 ≤ length text.old }
    ensures { (result ≤ at + 128) × (take result text.new ≡ take at text.old ++ line_of index (as_corrected a [])) }
{
    let values = numbers(a);
    let start = put(index, text, at);
    let end = put_fields(&values, text, start);
    text[end] = b'\n';
    end + 1
}

// The header, at the start of the text.
pub fn put_header(text: &mut [u8]) -> usize
    requires { 128 ≤ length text.old }
    ensures { (result ≤ 128) × (take result text.new ≡ header) }
{
    let names = b"word answer flips first last unlike\n";
    text[..names.len()].copy_from_slice(names);
    names.len()
}

// Corrects a word into out, and writes its line.
pub fn write_word(
    code: u8,
    limit: u16,
    index: u64,
    word: &[u8],
    out: &mut [u8],
    text: &mut [u8],
    at: usize,
) -> usize
    requires { (length out.old ≡ (code_of code).octets_of_word) × (at + 128 ≤ length text.old) }
    ensures upper_bound { result ≤ at + 128 }
    ensures text_after { take result text.new ≡ take at text.old ++ word_line code limit index word.now }
{
    let answer = codes::correct(code, word, limit, out);
    put_line(index, answer, text, at)
}

// Refusal 1: correct's record for a code that is not offered.
pub fn refusal() -> endings::Corrected
    ensures { line_of 0 (as_corrected result []) ≡ line_of 0 (refused_correct_of [] 1) }
{
    endings::refused_correct(1)
}
