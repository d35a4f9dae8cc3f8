// Corrects a recording: one octet code, two octets limit, then words to the end. Prints its log.
#![tactic(auto)]

ghost use Rattle.std.specs.Prelude.{◌≡◌, ◌+◌, ◌%◌, ◌≤◌, ◌<◌, length};
ghost use Rattle.wordlog.specs.lines.Parts.{Taken, size_in, Room, Counted};

use std::io::{Read, Write};
use std::process::ExitCode;
use streams::Failure;
use wordlog::lines;

// Block after block, each of as many words but the last: its lines are written behind those of the octets read before it.
fn blocks<R: Read, W: Write>(
    input: &mut R,
    output: &mut W,
    head: &[u8],
    words: &mut [u8],
    out: &mut [u8],
    text: &mut [u8],
) -> Result<(), Failure>
    requires taken { Taken head.now × Room head.now words.old out.old text.old }
    requires head_len { (length words.old % size_in head.now ≡ 0) × (0 < length words.old) × (length words.old ≤ 65536) }
{
    let mut read: u64 = 0;
    // no `for`: the last block is shorter, and `read` counts octets
    while read < 0x8000000000000000 {
        let n = streams::fill(input, words)?;
        let end = lines::go_on(head, read, &words[..n], out, text);
        streams::write(output, &text[..end])?;
        if n < words.len() {
            return Ok(());
        }
        read += n as u64;
    }
    Ok(())
}

// All words, in blocks of at most 64 KiB.
fn all<R: Read, W: Write>(input: &mut R, output: &mut W, head: &[u8]) -> Result<(), Failure>
    requires { Taken head.now }
{
    let mut words = [0u8; 65536];
    let mut out = [0u8; 1022];
    let mut text = streams::zeros::<524416>();
    let size = lines::word_octets(head[0]);
    let full = lines::block_octets(head[0]);
    blocks(
        input,
        output,
        head,
        &mut words[..full],
        &mut out[..size],
        &mut text,
    )
}

// The log of a head, and of the words behind it where it is taken.
fn log<R: Read, W: Write>(input: &mut R, output: &mut W, head: &[u8]) -> Result<(), Failure>
    requires { length head.now ≤ 3 }
{
    let mut text = [0u8; 256];
    let end = lines::begin(head, &mut text);
    streams::write(output, &text[..end])?;
    if !lines::is_bad(head) {
        all(input, output, head)?;
    }
    Ok(())
}

// The log of a recording.
fn run<R: Read, W: Write>(input: &mut R, output: &mut W) -> Result<(), Failure> {
    let mut head = [0u8; 3];
    let n = streams::fill(input, &mut head)?;
    log(input, output, &head[..n])
}

fn main(rt: HostRuntime) -> ExitCode {
    let ran = run(&mut rt.stdin(), &mut rt.stdout());
    streams::end(&rt, "wordbench", ran)
}
