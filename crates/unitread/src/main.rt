// Reads a telecommand transmission unit: one octet code, two octets limit, then the unit. Prints a line for each codeblock.
#![tactic(auto)]

ghost use Rattle.std.specs.Prelude.{◌<◌};

use flipping::endings;
use std::io;
use std::io::{Read, Write};
use std::process::ExitCode;
use streams::Failure;
use units::{readings, unitoffers};

// The longest unit of 64 KiB of information, code 1's.
const UNIT: usize = 131096;

// Whether the input is at its end; if not, why it can't be taken is said.
fn ended<R: Read, E: Write>(input: &mut R, errors: &mut E) -> Result<bool, Failure> {
    if streams::is_ended(input)? {
        return Ok(true);
    }
    let _ = errors.write_all(b"unitread: a unit of more than 131096 octets\n");
    Ok(false)
}

// A hexadecimal digit.
fn glyph(d: u8) -> u8
    requires { d < 16 }
{
    if d < 10 { b'0' + d } else { b'A' + (d - 10) }
}

// The line of an asking's answer: index, correct's numbers, and the information where there is some.
fn line<W: Write>(output: &mut W, index: u64, r: endings::Corrected, out: &[u8]) -> io::Result<()> {
    let endings::Corrected {
        number,
        flips,
        first,
        last,
        unlike,
        lowest,
    } = r;
    write!(
        output,
        "{index} {number} {flips} {first} {last} {unlike} {lowest} "
    )?;
    if number != 0 {
        return output.write_all(b"-\n");
    }
    for octet in out {
        output.write_all(&[glyph(octet / 16), glyph(octet % 16)])?;
    }
    output.write_all(b"\n")
}

// One codeblock after another; no unit that is held has more than 8,192.
fn lines<W: Write>(
    output: &mut W,
    first: readings::Reading,
    unit: &[u8],
    out: &mut [u8],
) -> io::Result<()> {
    let mut state = first;
    for index in 0..8192u64 {
        let handed = readings::read(state, unit, out);
        if handed.none {
            return Ok(());
        }
        let corrected = handed.corrected;
        line(output, index, corrected, out)?;
        if corrected.number != 0 {
            return Ok(());
        }
        state = handed.next;
    }
    Ok(())
}

// The lines of a unit: the refusal's, or the codeblocks'.
fn put_unit<W: Write>(output: &mut W, code: u8, limit: u16, unit: &[u8]) -> io::Result<()> {
    let state = readings::reader(code, unit, limit);
    let kept = state.kept;
    if kept.number != 0 {
        return line(output, 0, kept, b"");
    }
    let mut out = [0u8; 32];
    let size = unitoffers::room(code);
    lines(output, state, unit, &mut out[..size])
}

// The lines of the unit that is read.
fn run<R: Read, W: Write, E: Write>(
    input: &mut R,
    output: &mut W,
    errors: &mut E,
) -> Result<(), Failure> {
    streams::write(
        output,
        b"codeblock answer flips first last unlike lowest information\n",
    )?;
    let mut head = [0u8; 3];
    streams::fill(input, &mut head)?;
    let mut unit = [0u8; UNIT];
    let n = streams::fill(input, &mut unit)?;
    if !ended(input, errors)? {
        return Ok(());
    }
    put_unit(
        output,
        head[0],
        u16::from_be_bytes([head[1], head[2]]),
        &unit[..n],
    )
    .map_err(Failure::Output)
}

fn main(rt: HostRuntime) -> ExitCode {
    let ran = run(&mut rt.stdin(), &mut rt.stdout(), &mut rt.stderr());
    streams::end(&rt, "unitread", ran)
}
