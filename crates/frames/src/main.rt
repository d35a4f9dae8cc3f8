// Takes the words of code 5 out of a telemetry stream: two octets limit, then the stream to its end. Prints a line for each word.
// The first argument is the edition; without it the old sequence stays.
#![tactic(auto)]

ghost use Rattle.std.specs.Prelude.{◌≡◌, ◌<◌, ◌≤◌, length, IfOk};

use flipping::endings;
use std::env::FillError;
use std::io;
use std::io::{Read, Write};
use std::process::ExitCode;
use std::rt::Env;
use streams::Failure;
use telemetry::taker::Taker;

// The line of a word.
fn line<W: Write>(
    output: &mut W,
    index: u64,
    offset: u64,
    r: endings::Corrected,
) -> io::Result<()> {
    let endings::Corrected {
        number,
        flips,
        first,
        last,
        unlike,
        lowest,
    } = r;
    writeln!(
        output,
        "{index} {offset} {number} {flips} {first} {last} {unlike} {lowest}"
    )
}

// Where the program stands after a call of the taker: the words and octets so far.
#[derive(Drop)]
struct Standing {
    taker: Taker,
    words: u64,
    octets: u64,
}

// One call of the taker, and how many octets it took. A complete word has its line; its first octet lies 1020 before the octets taken
// so far.
fn take<W: Write>(output: &mut W, s: Standing, part: &[u8]) -> Result<(Standing, usize), Failure>
    requires { 0 < length part.now }
    ensures { IfOk result (λ next. (0 < next.1) × (next.1 ≤ length part.now)) }
{
    let taker = s.taker;
    let r = taker.take(part);
    let next = r.next;
    let corrected = r.corrected;
    let octets = s.octets.wrapping_add(r.taken as u64);
    let mut words = s.words;
    if r.complete {
        line(output, words, octets.wrapping_sub(1020), corrected).map_err(Failure::Output)?;
        words = words.wrapping_add(1);
    }
    Ok((
        Standing {
            taker: next,
            words,
            octets,
        },
        r.taken,
    ))
}

// Call after call until the part is used up; the rest of it is brought again.
fn take_all<W: Write>(output: &mut W, s: Standing, part: &[u8]) -> Result<Standing, Failure> {
    let mut now = s;
    let mut rest = part;
    while !rest.is_empty() {
        let (next, taken) = take(output, now, rest)?;
        now = next;
        rest = &rest[taken..];
    }
    Ok(now)
}

// Part after part, as much as comes; none ends the stream.
fn stream<R: Read, W: Write>(
    input: &mut R,
    output: &mut W,
    taker: Taker,
    part: &mut [u8],
) -> Result<(), Failure> {
    let mut s = Standing {
        taker,
        words: 0,
        octets: 0,
    };
    for _ in 0..0x8000000000000000u64 {
        let n = streams::read(input, part)?;
        if n == 0 {
            return Ok(());
        }
        s = take_all(output, s, &part[..n])?;
    }
    Ok(())
}

// An edition is one digit; anything else is one that is not known.
fn edition_of(text: &[u8]) -> u8 {
    match text {
        [digit] if *digit >= b'0' => *digit - b'0',
        _ => 255,
    }
}

// The edition of the first argument, 0 where there is none.
fn edition<V: Env>(rt: &V) -> u8 {
    let mut text = [0u8; 8];
    match rt.arg(1, &mut text) {
        Ok(n) => edition_of(&text[..n]),
        Err(FillError::NotPresent) => 0,
        Err(FillError::TooLong) => edition_of(b""),
    }
}

// Why there is no limit, in one line on standard error.
fn no_limit<R: Read, E: Write>(input: &mut R, errors: &mut E) -> Result<(), Failure> {
    streams::is_ended(input)?;
    let _ = errors.write_all(b"frames: no limit of two octets\n");
    Ok(())
}

// The lines of a stream.
fn run<R: Read, W: Write, E: Write>(
    edition: u8,
    input: &mut R,
    output: &mut W,
    errors: &mut E,
) -> Result<(), Failure> {
    let mut head = [0u8; 2];
    let n = streams::fill(input, &mut head)?;
    if n < 2 {
        return no_limit(input, errors);
    }
    let made = Taker::told(edition, u16::from_be_bytes(head));
    if made.number != 0 {
        let _ = errors.write_all(b"frames: an edition that is not known\n");
        return Ok(());
    }
    streams::write(
        output,
        b"word offset answer flips first last unlike lowest\n",
    )?;
    let mut part = [0u8; 65536];
    let taker = made.taker;
    stream(input, output, taker, &mut part)
}

fn main(rt: HostRuntime) -> ExitCode {
    let ran = run(
        edition(&rt),
        &mut rt.stdin(),
        &mut rt.stdout(),
        &mut rt.stderr(),
    );
    streams::end(&rt, "frames", ran)
}
