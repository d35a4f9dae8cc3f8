// Runs the paper's cases that are not proved, and every row of the generator tables: a line for each, held to what is printed.
#![tactic(auto)]

ghost use Rattle.std.specs.Prelude.{◌+◌, ◌*◌, ◌≤◌, ◌<◌, ◌≡◌, length};

use flipping::endings;
use std::io;
use std::io::Write;

// Behind the octets there are zeros.
fn octet_or_zero(octets: &[u8], i: usize) -> u8 {
    if i < octets.len() { octets[i] } else { 0 }
}

// Bit 0 is the most significant bit of octet 0.
fn bit(octets: &[u8], n: usize) -> u8
    ensures { result < 2 }
{
    (octet_or_zero(octets, n / 8) >> (7 - n % 8)) % 2
}

// Four bits as a number.
fn digit(octets: &[u8], n: usize) -> u8
    requires { n < 65536 }
    ensures { result < 16 }
{
    8 * bit(octets, n) + 4 * bit(octets, n + 1) + 2 * bit(octets, n + 2) + bit(octets, n + 3)
}

// A hexadecimal digit as the tables print it.
fn glyph(d: u8) -> u8
    requires { d < 16 }
{
    if d < 10 { b'0' + d } else { b'A' + (d - 10) }
}

// So many digits from bit n on, as the tables print them; in one write, since standard output keeps nothing back.
fn spell<W: Write>(output: &mut W, octets: &[u8], n: usize, digits: usize) -> io::Result<()>
    requires { (n < 32768) × (digits ≤ 128) }
{
    let mut text = [0u8; 128];
    for (i, place) in text[..digits].iter_mut().enumerate() {
        *place = glyph(digit(octets, n + 4 * i));
    }
    output.write_all(&text[..digits])
}

// An octet with one bit set.
fn single(n: usize) -> u8
    requires { n < 8 }
{
    0x80 >> n
}

// The word of one information bit alone.
fn encode_alone(code: u8, n: usize, information: &mut [u8], word: &mut [u8]) -> u8
    requires { n < 8 * length information.old }
{
    let at = n / 8;
    information[at] = single(n % 8);
    let answer = codes::encode(code, information, word);
    information[at] = 0;
    answer
}

fn name_row<W: Write>(output: &mut W, code: u8, n: usize) -> io::Result<()> {
    write!(output, "code {code}, information bit {n}:")
}

// A printed row of codes 1 to 3: all of the parity, which has 4 M bits.
fn telecommand_row<W: Write>(
    output: &mut W,
    code: u8,
    m: usize,
    n: usize,
    information: &mut [u8],
    word: &mut [u8],
) -> io::Result<()>
    requires { (n < 8 * length information.old) × (4 * m ≡ 8 * length information.old) × (m ≤ 64) }
{
    encode_alone(code, n, information, word);
    name_row(output, code, n)?;
    output.write_all(b" ")?;
    spell(output, word, 4 * m, m)?;
    output.write_all(b"\n")
}

fn telecommand_rows<W: Write>(
    output: &mut W,
    code: u8,
    m: usize,
    information: &mut [u8],
    word: &mut [u8],
) -> io::Result<()>
    requires { (4 * m ≡ 8 * length information.old) × (0 < m) × (m ≤ 64) }
{
    for row in 0..4usize {
        telecommand_row(output, code, m, row * m, information, word)?;
    }
    Ok(())
}

// 511 bits as table 2 prints them, with one zero bit in front.
fn near_earth_block<W: Write>(output: &mut W, word: &[u8], n: usize) -> io::Result<()>
    requires { (0 < n) × (n < 16384) }
{
    write!(output, " {:X}", digit(word, n - 1) % 8)?;
    spell(output, word, n + 3, 127)
}

// A printed pair of rows.
fn near_earth_row<W: Write>(
    output: &mut W,
    n: usize,
    information: &mut [u8],
    word: &mut [u8],
) -> io::Result<()>
    requires { (n < 7154) × (length information.old ≡ 895) }
{
    encode_alone(4, n, information, word);
    name_row(output, 4, n)?;
    near_earth_block(output, word, 7154)?;
    near_earth_block(output, word, 7665)?;
    output.write_all(b"\n")
}

fn near_earth_rows<W: Write>(
    output: &mut W,
    information: &mut [u8],
    word: &mut [u8],
) -> io::Result<()>
    requires { length information.old ≡ 895 }
{
    for block in 0..14usize {
        near_earth_row(output, 511 * block, information, word)?;
    }
    Ok(())
}

fn octet_894<W: Write>(
    output: &mut W,
    value: u8,
    information: &mut [u8],
    word: &mut [u8],
) -> io::Result<()>
    requires { length information.old ≡ 895 }
{
    information[894] = value;
    let answer = codes::encode(4, information, word);
    information[894] = 0;
    writeln!(output, "code 4, octet 894 equal to {value:02X}: {answer}")
}

// What correct says, to the end of the line.
fn show_corrected<W: Write>(output: &mut W, a: endings::Corrected) -> io::Result<()> {
    let endings::Corrected {
        number,
        flips,
        first,
        last,
        ..
    } = a;
    writeln!(output, " {number} {flips} {first} {last}")
}

// A word of code 4 as code 5 sends it: without its first 18 bits, and with two zeros at the end.
fn shorten(word: &[u8], sent: &mut [u8])
    requires { length sent.old < 65536 }
{
    for (i, octet) in sent.iter_mut().enumerate() {
        *octet = (octet_or_zero(word, i + 2) << 2) | (octet_or_zero(word, i + 3) >> 6);
    }
}

fn unsent_bit<W: Write>(
    output: &mut W,
    information: &mut [u8],
    word: &mut [u8],
    sent: &mut [u8],
    out: &mut [u8],
) -> io::Result<()>
    requires { (length information.old ≡ 895) × (length sent.old < 65536) }
{
    encode_alone(4, 0, information, word);
    shorten(word, sent);
    output.write_all(b"code 4's word of information bit 0, sent by code 5, limit 1:")?;
    show_corrected(output, codes::correct(5, sent, 1, out))
}

fn one_broken<W: Write>(output: &mut W, code: u8, word: &[u8], out: &mut [u8]) -> io::Result<()> {
    let codes::Checked { broken, lowest, .. } = codes::check(code, word);
    write!(
        output,
        "code {code}, a word with one broken check: {broken}, the lowest {lowest};"
    )?;
    show_corrected(output, codes::correct(code, word, 65535, out))
}

// Zeros, and parity that breaks check 0 alone.
const BROKEN_128: [u8; 16] = [
    0, 0, 0, 0, 0, 0, 0, 0, 0x1C, 0xD6, 0xBE, 0x89, 0xFA, 0x26, 0xE1, 0xCD,
];

const BROKEN_256: [u8; 32] = [
    0, 0, 0, 0, 0, 0, 0, 0, 0, 0, 0, 0, 0, 0, 0, 0, 0xE3, 0x5E, 0x13, 0xD9, 0x41, 0xD0, 0x14, 0x17,
    0xEE, 0xC1, 0xFC, 0x77, 0xDE, 0xB3, 0x63, 0xED,
];

const BROKEN_512: [u8; 64] = [
    0, 0, 0, 0, 0, 0, 0, 0, 0, 0, 0, 0, 0, 0, 0, 0, 0, 0, 0, 0, 0, 0, 0, 0, 0, 0, 0, 0, 0, 0, 0, 0,
    0xDD, 0x87, 0xD8, 0xF2, 0xD2, 0xD5, 0x1B, 0xA6, 0xD7, 0x30, 0x9E, 0xC8, 0x8C, 0x75, 0x56, 0x6D,
    0x22, 0xF2, 0xE9, 0x27, 0xA8, 0xE1, 0xE7, 0x00, 0x22, 0x0F, 0xD4, 0xF0, 0x6E, 0xCE, 0x3D, 0xA3,
];

fn rows<W: Write>(output: &mut W) -> io::Result<()> {
    telecommand_rows(output, 1, 16, &mut [0u8; 8], &mut [0u8; 16])?;
    telecommand_rows(output, 2, 32, &mut [0u8; 16], &mut [0u8; 32])?;
    telecommand_rows(output, 3, 64, &mut [0u8; 32], &mut [0u8; 64])?;
    near_earth_rows(output, &mut [0u8; 895], &mut [0u8; 1022])
}

fn main(rt: HostRuntime) -> io::Result<()> {
    let output = &mut rt.stdout();
    rows(output)?;
    let mut information = [0u8; 895];
    let mut word = [0u8; 1022];
    octet_894(output, 0x01, &mut information, &mut word)?;
    octet_894(output, 0x40, &mut information, &mut word)?;
    unsent_bit(
        output,
        &mut information,
        &mut word,
        &mut [0u8; 1020],
        &mut [0u8; 1020],
    )?;
    one_broken(output, 1, &BROKEN_128, &mut [0u8; 16])?;
    one_broken(output, 2, &BROKEN_256, &mut [0u8; 32])?;
    one_broken(output, 3, &BROKEN_512, &mut [0u8; 64])
}
