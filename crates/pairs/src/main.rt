// Tries every pair of wrong bits of codes 1, 2 and 3 on the word of zeros: which are not mended by two flips, and how many are. A run
// does not depend on the codeword that was sent, so what is found holds for every codeword.
#![tactic(auto)]

ghost use Rattle.std.specs.Prelude.{◌+◌, ◌*◌, ◌≤◌, ◌<◌, ◌≡◌, length, IfOk};

use std::io;
use std::io::Write;

// Flips bit n; bit 0 is the most significant bit of octet 0.
fn flip(word: &mut [u8], n: usize)
    requires { n < 8 * length word.old }
    ensures { length word.new ≡ length word.old }
{
    let at = n / 8;
    word[at] ^= 0x80 >> (n % 8);
}

// Whether correct makes zeros of the word, by two flips.
fn is_mended(code: u8, word: &[u8], out: &mut [u8]) -> bool
    ensures { length out.new ≡ length out.old }
{
    let a = codes::correct(code, word, 65535, out);
    a.number == 0 && a.flips == 2 && out.iter().all(|octet| *octet == 0)
}

// One if the word, zeros but for bits a and b, is mended; otherwise it is said.
fn attempt<W: Write>(
    output: &mut W,
    code: u8,
    a: usize,
    b: usize,
    word: &[u8],
    out: &mut [u8],
) -> io::Result<u64>
    ensures at_most { IfOk result (λ n. n ≤ 1) }
    ensures kept { length out.new ≡ length out.old }
{
    if is_mended(code, word, out) {
        return Ok(1);
    }
    writeln!(output, "code {code}: bits {a} and {b} are not mended")?;
    Ok(0)
}

// How many of the pairs of bit a and a later one are mended.
fn with_later<W: Write>(
    output: &mut W,
    code: u8,
    a: usize,
    word: &mut [u8],
    out: &mut [u8],
) -> io::Result<u64>
    requires { (a < 8 * length word.old) × (length word.old ≤ 64) }
    ensures at_most { IfOk result (λ n. n ≤ 512) }
    ensures kept { length word.new ≡ length word.old }
{
    let end = 8 * word.len();
    let mut mended: u64 = 0;
    flip(word, a);
    for b in a + 1..end {
        flip(word, b);
        mended += attempt(output, code, a, b, word, out)?;
        flip(word, b);
    }
    flip(word, a);
    Ok(mended)
}

// All pairs of bits of a word of zeros.
fn all<W: Write>(output: &mut W, code: u8, word: &mut [u8], out: &mut [u8]) -> io::Result<()>
    requires { length word.old ≤ 64 }
{
    let end = 8 * word.len();
    let mut mended: u64 = 0;
    let mut tried: u64 = 0;
    for a in 0..end {
        mended += with_later(output, code, a, word, out)?;
        tried += (end - a - 1) as u64;
    }
    writeln!(
        output,
        "code {code}: {tried} pairs tried, {mended} mended by two flips"
    )
}

fn main(rt: HostRuntime) -> io::Result<()> {
    let output = &mut rt.stdout();
    all(output, 1, &mut [0u8; 16], &mut [0u8; 16])?;
    all(output, 2, &mut [0u8; 32], &mut [0u8; 32])?;
    all(output, 3, &mut [0u8; 64], &mut [0u8; 64])
}
