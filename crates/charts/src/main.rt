// Prints what the pictures in docs are drawn from: the parity tables as they are lent, and runs on spoiled words, flip by flip.
#![tactic(auto)]

ghost use Rattle.std.specs.Prelude.{◌≡◌, ◌<◌, ◌≤◌, length};
ghost use Rattle.layout.specs.Rooms.{table_room};

use catalogue::{offer, tables};
use layout::TABLE;
use std::io;
use std::io::Write;

// An entry of a parity table: code, M, row, block, shift.
fn entry<W: Write>(
    output: &mut W,
    code: u8,
    size: usize,
    blocks: usize,
    place: usize,
    shift: u16,
) -> io::Result<()>
    requires { 0 < blocks }
{
    let row = place / 2 / blocks;
    let block = place / 2 % blocks;
    writeln!(output, "entry {code} {size} {row} {block} {shift}")
}

fn entries<W: Write>(
    output: &mut W,
    code: u8,
    size: usize,
    blocks: usize,
    h: &[u16],
) -> io::Result<()>
    requires { (0 < blocks) × (length h.now ≡ table_room) }
{
    for (i, shift) in h.iter().enumerate() {
        if (*shift as usize) < size {
            entry(output, code, size, blocks, i, *shift)?;
        }
    }
    Ok(())
}

fn table<W: Write>(output: &mut W, code: u8) -> io::Result<()>
    requires { (1 ≤ code) × (code ≤ 5) }
{
    let mut h = [0u16; TABLE];
    let o = offer::of(code);
    let sh = o.shape;
    let lent = tables::lend(sh.size, &mut h);
    entries(output, code, sh.size, sh.blocks, &h)
}

fn is_set(octet: u8, n: u32) -> bool
    requires { n < 8 }
{
    octet & (128u8 >> n) != 0
}

// The bits of a word that are 1: what was sent is all zeros, so these are wrong.
fn wrong<W: Write>(output: &mut W, code: u8, word: &[u8]) -> io::Result<()>
    requires { length word.now < 65536 }
{
    for n in 0..8 * word.len() {
        if is_set(word[n / 8], (n % 8) as u32) {
            writeln!(output, "wrong {code} {n}")?;
        }
    }
    Ok(())
}

// One flip of the run: the bit, its excess, and the checks still broken.
fn flip<W: Write>(output: &mut W, code: u8, word: &[u8], out: &mut [u8]) -> io::Result<bool> {
    let s = codes::step(code, word, out);
    if s.number != 0 || s.quiet {
        return Ok(false);
    }
    let broken = codes::check(code, out).broken;
    writeln!(output, "flip {code} {} {} {broken}", s.bit, s.excess)?;
    Ok(true)
}

// There and back again.
fn two_flips<W: Write>(
    output: &mut W,
    code: u8,
    word: &mut [u8],
    other: &mut [u8],
) -> io::Result<bool> {
    Ok(flip(output, code, word, other)? && flip(output, code, other, word)?)
}

fn flips<W: Write>(output: &mut W, code: u8, word: &mut [u8], other: &mut [u8]) -> io::Result<()> {
    for _ in 0..1022 {
        if !two_flips(output, code, word, other)? {
            return Ok(());
        }
    }
    Ok(())
}

// What a log line would say of the word.
fn answer<W: Write>(output: &mut W, code: u8, word: &[u8], out: &mut [u8]) -> io::Result<()> {
    let c = codes::correct(code, word, 65535, out);
    writeln!(
        output,
        "answer {code} {} {} {} {}",
        c.number, c.flips, c.first, c.last
    )
}

// Answer first, as the flips overwrite the word.
fn run<W: Write>(output: &mut W, code: u8, word: &mut [u8], other: &mut [u8]) -> io::Result<()>
    requires { length word.old < 65536 }
{
    let broken = codes::check(code, word).broken;
    writeln!(output, "word {code} {broken}")?;
    wrong(output, code, word)?;
    answer(output, code, word, other)?;
    flips(output, code, word, other)
}

// The first bit of every so many octets is wrong.
fn spoil(word: &mut [u8], apart: usize)
    requires { (0 < apart) × (apart < 65536) × (length word.old < 65536) }
{
    for octet in word.iter_mut().step_by(apart) {
        *octet = 128;
    }
}

fn telecommand<W: Write>(output: &mut W, word: [u8; 16]) -> io::Result<()> {
    let mut a = word;
    let mut b = [0u8; 16];
    run(output, 1, &mut a, &mut b)
}

fn near_earth<W: Write>(output: &mut W, apart: usize) -> io::Result<()>
    requires { (0 < apart) × (apart < 65536) }
{
    let mut a = [0u8; 1022];
    let mut b = [0u8; 1022];
    spoil(&mut a, apart);
    run(output, 4, &mut a, &mut b)
}

fn main(rt: HostRuntime) -> io::Result<()> {
    let output = &mut rt.stdout();
    table(output, 1)?;
    table(output, 2)?;
    table(output, 3)?;
    table(output, 4)?;
    // seven wrong bits, mended
    telecommand(
        output,
        [128, 0, 8, 0, 0, 128, 0, 8, 0, 0, 128, 0, 8, 0, 0, 128],
    )?;
    // nine, after which the run ends at another codeword
    telecommand(
        output,
        [64, 0, 0, 1, 32, 0, 0, 0, 0, 128, 0, 32, 16, 64, 1, 8],
    )?;
    // one bit of every 42nd octet
    near_earth(output, 42)
}
