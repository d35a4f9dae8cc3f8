// The reason behind each line of the bench log. Reads what wordbench reads: one octet code, two octets limit, then words to the end.
// Under a word's line stand its flips, with bit, excess and broken checks left, for refusal 5 the bit of greatest excess, and for a
// refused word of code 1 the codeword that is nearest.
#![tactic(auto)]

use catalogue::offer;
use lists::listing;
use std::io;
use std::io::{Read, Write};
use std::process::ExitCode;
use streams::Failure;
use word::measured::Room;
use wordlog::lines;

// No run of any code has more flips than this.
const PLACES: usize = 511;

// A word's line, as the bench logs it.
fn put_line<W: Write>(output: &mut W, index: u64, a: listing::Listed) -> io::Result<()> {
    let listing::Listed {
        number,
        flips,
        first,
        last,
        unlike,
        ..
    } = a;
    writeln!(output, "{index} {number} {flips} {first} {last} {unlike}")
}

fn put_flip<W: Write>(output: &mut W, r: listing::FlipRecord) -> io::Result<()> {
    let listing::FlipRecord { bit, excess, left } = r;
    writeln!(output, "  flip {bit} {excess} {left}")
}

// The list of a word, to its end; where the flips are shown, each has its line.
fn follow<W: Write>(
    output: &mut W,
    code: u8,
    limit: u16,
    word: &[u8],
    shown: bool,
) -> io::Result<listing::Listing> {
    let mut room = Room::new();
    let mut l = listing::begin(code, word, limit, PLACES, &mut room);
    while l.goes {
        if shown {
            put_flip(output, l.record)?;
        }
        l = listing::next(l, word, &mut room);
    }
    Ok(l)
}

// The greatest excess and the lowest bit that has it, where no bit has one above 0.
fn put_reason<W: Write>(output: &mut W, a: listing::Listed) -> io::Result<()> {
    if a.number != 5 {
        return Ok(());
    }
    writeln!(output, "  stuck {} {}", a.bit, a.excess)
}

// How many flips lead to the nearest codeword, and their bits.
fn put_reached<W: Write>(output: &mut W, r: nearest::Reached) -> io::Result<()> {
    write!(output, "  nearest {}", r.least)?;
    for bit in r.bits.iter().take(r.least as usize) {
        write!(output, " {bit}")?;
    }
    output.write_all(b"\n")
}

// For a word whose run stuck or came to its limit: the nearest codeword within three flips, or that there is none. Words of another
// length than code 1's are refused by 2, and nothing is said of them.
fn put_nearest<W: Write>(output: &mut W, word: &[u8], a: listing::Listed) -> io::Result<()> {
    if a.number < 5 || a.number > 6 {
        return Ok(());
    }
    let mut out = [0u8; 16];
    let r = nearest::nearest(word, 3, &mut out);
    match r.number {
        0 => put_reached(output, r),
        2 => Ok(()),
        _ => output.write_all(b"  nearest none\n"),
    }
}

// A word's line, its flips and the reason. The line stands first, so the run is made twice.
fn explain<W: Write>(
    output: &mut W,
    index: u64,
    code: u8,
    limit: u16,
    word: &[u8],
) -> io::Result<()> {
    let l = follow(output, code, limit, word, false)?;
    let a = l.answer;
    put_line(output, index, a)?;
    follow(output, code, limit, word, true)?;
    put_reason(output, a)?;
    put_nearest(output, word, a)
}

// Word after word; the last may be short, and is refused.
fn words<R: Read, W: Write>(
    input: &mut R,
    output: &mut W,
    code: u8,
    limit: u16,
    word: &mut [u8],
) -> Result<(), Failure> {
    for index in 0..0x8000000000000000u64 {
        let n = streams::fill(input, word)?;
        if n == 0 {
            return Ok(());
        }
        explain(output, index, code, limit, &word[..n]).map_err(Failure::Output)?;
        if n < word.len() {
            return Ok(());
        }
    }
    Ok(())
}

// A recording's words, each with its reason.
fn run<R: Read, W: Write>(input: &mut R, output: &mut W) -> Result<(), Failure> {
    streams::write(output, b"word answer flips first last unlike\n")?;
    let mut head = [0u8; 3];
    let n = streams::fill(input, &mut head)?;
    if n < 3 || !offer::is_offered(head[0]) {
        explain(output, 0, 0, 0, b"").map_err(Failure::Output)?;
    } else {
        let mut word = [0u8; 1022];
        let size = lines::word_octets(head[0]);
        words(
            input,
            output,
            head[0],
            u16::from_be_bytes([head[1], head[2]]),
            &mut word[..size],
        )?;
    }
    // After the last octet one read more, which may fail.
    streams::is_ended(input)?;
    Ok(())
}

fn main(rt: HostRuntime) -> ExitCode {
    let ran = run(&mut rt.stdin(), &mut rt.stdout());
    streams::end(&rt, "why", ran)
}
