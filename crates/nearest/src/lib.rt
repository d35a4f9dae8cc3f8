// The nearest command of code 1, by plain search: which few bits, flipped, give a codeword. The search carries the broken checks in one
// word, and a flip adds the bit's column to it.

#![tactic(auto)]

ghost use Rattle.std.specs.Prelude.{◌≡◌, ℕ, ◌-◌, ◌<◌, ◌≤◌, length, get_or, MatchOption};
ghost use Rattle.bits.specs.Bits.{Word, bit};
ghost use Rattle.vectors.specs.Vectors.{wbit};
ghost use Rattle.nearest.specs.Nearest.{first_list, fewest, searched as searched_for, nearest_answer};
ghost use Rattle.nearest.specs.Answers.{column_list, Broken, lowest_from, held, held_flipped, HandedOut, as_searched, as_reached};

use refusals::Refusal;

// The places of bits that are not used are 0.
// A record of C's: its number says whether the rest counts.
#[repr(C)]
#[derive(Clone, Copy)]
pub struct Reached {
    pub number: u8,
    pub least: u32,
    pub bits: [u32; 3],
}

// Up to three bits to flip; the places that are not used are 0.
#[derive(Clone, Copy)]
struct Flips {
    count: u32,
    bits: [u32; 3],
}

// Column n has a one for each check that covers bit n: check 0 is the most significant.
const COLUMNS: [u64; 128] = [
    0x8040_0020_0008_8000,
    0x4020_0010_0004_4000,
    0x2010_0008_0002_2000,
    0x1008_0004_0001_1000,
    0x0804_0002_8000_0800,
    0x0402_0001_4000_0400,
    0x0201_8000_2000_0200,
    0x8100_4000_1000_0100,
    0x4080_2000_0800_0080,
    0x2040_1000_0400_0040,
    0x1020_0800_0200_0020,
    0x0810_0400_0100_0010,
    0x0408_0200_0080_0008,
    0x0204_0100_0040_0004,
    0x0102_0080_0020_0002,
    0x0081_0040_0010_0001,
    0x0002_C000_0001_0001,
    0x0001_6000_8000_8000,
    0x8000_3000_4000_4000,
    0x4000_1800_2000_2000,
    0x2000_0C00_1000_1000,
    0x1000_0600_0800_0800,
    0x0800_0300_0400_0400,
    0x0400_0180_0200_0200,
    0x0200_00C0_0100_0100,
    0x0100_0060_0080_0080,
    0x0080_0030_0040_0040,
    0x0040_0018_0020_0020,
    0x0020_000C_0010_0010,
    0x0010_0006_0008_0008,
    0x0008_0003_0004_0004,
    0x0004_8001_0002_0002,
    0x2000_8000_C000_0100,
    0x1000_4000_6000_0080,
    0x0800_2000_3000_0040,
    0x0400_1000_1800_0020,
    0x0200_0800_0C00_0010,
    0x0100_0400_0600_0008,
    0x0080_0200_0300_0004,
    0x0040_0100_0180_0002,
    0x0020_0080_00C0_0001,
    0x0010_0040_0060_8000,
    0x0008_0020_0030_4000,
    0x0004_0010_0018_2000,
    0x0002_0008_000C_1000,
    0x0001_0004_0006_0800,
    0x8000_0002_0003_0400,
    0x4000_0001_8001_0200,
    0x0020_0001_2000_9000,
    0x0010_8000_1000_4800,
    0x0008_4000_0800_2400,
    0x0004_2000_0400_1200,
    0x0002_1000_0200_0900,
    0x0001_0800_0100_0480,
    0x8000_0400_0080_0240,
    0x4000_0200_0040_0120,
    0x2000_0100_0020_0090,
    0x1000_0080_0010_0048,
    0x0800_0040_0008_0024,
    0x0400_0020_0004_0012,
    0x0200_0010_0002_0009,
    0x0100_0008_0001_8004,
    0x0080_0004_8000_4002,
    0x0040_0002_4000_2001,
    0x0000_8000_0400_2000,
    0x0000_4000_0200_1000,
    0x0000_2000_0100_0800,
    0x0000_1000_0080_0400,
    0x0000_0800_0040_0200,
    0x0000_0400_0020_0100,
    0x0000_0200_0010_0080,
    0x0000_0100_0008_0040,
    0x0000_0080_0004_0020,
    0x0000_0040_0002_0010,
    0x0000_0020_0001_0008,
    0x0000_0010_8000_0004,
    0x0000_0008_4000_0002,
    0x0000_0004_2000_0001,
    0x0000_0002_1000_8000,
    0x0000_0001_0800_4000,
    0x8000_0000_8000_0001,
    0x4000_0000_4000_8000,
    0x2000_0000_2000_4000,
    0x1000_0000_1000_2000,
    0x0800_0000_0800_1000,
    0x0400_0000_0400_0800,
    0x0200_0000_0200_0400,
    0x0100_0000_0100_0200,
    0x0080_0000_0080_0100,
    0x0040_0000_0040_0080,
    0x0020_0000_0020_0040,
    0x0010_0000_0010_0020,
    0x0008_0000_0008_0010,
    0x0004_0000_0004_0008,
    0x0002_0000_0002_0004,
    0x0001_0000_0001_0002,
    0x1000_8000_0000_8000,
    0x0800_4000_0000_4000,
    0x0400_2000_0000_2000,
    0x0200_1000_0000_1000,
    0x0100_0800_0000_0800,
    0x0080_0400_0000_0400,
    0x0040_0200_0000_0200,
    0x0020_0100_0000_0100,
    0x0010_0080_0000_0080,
    0x0008_0040_0000_0040,
    0x0004_0020_0000_0020,
    0x0002_0010_0000_0010,
    0x0001_0008_0000_0008,
    0x8000_0004_0000_0004,
    0x4000_0002_0000_0002,
    0x2000_0001_0000_0001,
    0x8000_0040_0004_0000,
    0x4000_0020_0002_0000,
    0x2000_0010_0001_0000,
    0x1000_0008_8000_0000,
    0x0800_0004_4000_0000,
    0x0400_0002_2000_0000,
    0x0200_0001_1000_0000,
    0x0100_8000_0800_0000,
    0x0080_4000_0400_0000,
    0x0040_2000_0200_0000,
    0x0020_1000_0100_0000,
    0x0010_0800_0080_0000,
    0x0008_0400_0040_0000,
    0x0004_0200_0020_0000,
    0x0002_0100_0010_0000,
    0x0001_0080_0008_0000,
];

// The broken checks of a word.
fn syndrome(columns: &[u64], y: &[u64]) -> u64
    requires { (columns.now ≡ column_list) × (length y.now ≡ 3) }
    ensures { Broken result (wbit y.now) }
{
    let mut z: u64 = 0;
    for (n, column) in columns.iter().enumerate() {
        if vectors::is_set(y, n) {
            z ^= *column;
        }
    }
    z
}

// The lowest bit from a bit on that is covered by just these checks. Most of a search's time goes here.
fn only(columns: &[u64], z: u64, from: usize) -> Option<usize>
    requires { (columns.now ≡ column_list) × (from ≤ 128) }
    ensures { MatchOption result (lowest_from (128 - from) from z ≡ 128) (λ n. (n < 128) × (n ≡ lowest_from (128 - from) from z)) }
{
    for n in from..128 {
        if columns[n] == z {
            return Some(n);
        }
    }
    None
}

// The first so many bits from a bit on that, flipped, leave no check broken: by choosing a bit, and searching behind it with one flip
// fewer left.
fn search(columns: &[u64], z: u64, from: usize, left: u8) -> Option<Flips>
    requires { (columns.now ≡ column_list) × (from ≤ 128) × (left ≤ 3) }
    ensures { (x : Word) → Broken z x → result ≡ held (first_list left (128 - from) from x) }
{
    if left == 0 {
        if z != 0 {
            return None;
        }
        return Some(Flips {
            count: 0,
            bits: [0; 3],
        });
    }
    if left == 1 {
        let n = only(columns, z, from)?;
        return Some(Flips {
            count: 1,
            bits: [n as u32, 0, 0],
        });
    }
    for n in from..128 {
        if let Some(behind) = search(columns, z ^ columns[n], n + 1, left - 1) {
            let b = behind.bits;
            return Some(Flips {
                count: left as u32,
                bits: [n as u32, b[0], b[1]],
            });
        }
    }
    None
}

// No bits, then one more each time, up to the reach.
fn fewest_of(columns: &[u64], z: u64, reach: u8) -> Option<Flips>
    requires { (columns.now ≡ column_list) × (reach ≤ 3) }
    ensures { (x : Word) → Broken z x → result ≡ held (fewest reach x) }
{
    if reach == 0 {
        return search(columns, z, 0, 0);
    }
    match fewest_of(columns, z, reach - 1) {
        Some(fewer) => Some(fewer),
        None => search(columns, z, 0, reach),
    }
}

// Flips the bits of a list.
fn flip_listed(y: &mut [u64], l: Flips)
    requires { (length y.old ≡ 3) × (l.count ≤ 3) × ((k : ℕ) → get_or l.bits k 0 < 128) }
    ensures { held_flipped l (wbit y.old) (wbit y.new) }
{
    let bits = l.bits;
    let count = l.count as usize;
    for bit in &bits[..count] {
        vectors::flip_bit(y, *bit as usize);
    }
}

// The flips for a word. The columns are lent as a copy, since a constant is made anew wherever it is read.
fn list_for(y: &[u64; 3], reach: u8) -> Option<Flips>
    requires { reach ≤ 3 }
    ensures { result ≡ held (fewest reach (wbit y.now)) }
{
    let columns = COLUMNS;
    let z = syndrome(&columns, y);
    fewest_of(&columns, z, reach)
}

// The word with the bits of its list flipped, handed out.
fn hand_out(y: &mut [u64; 3], l: Flips, out: &mut [u8])
    requires { (length out.old ≡ 16) × (l.count ≤ 3) × ((k : ℕ) → get_or l.bits k 0 < 128) }
    ensures { HandedOut l (wbit y.old) out.new }
{
    flip_listed(y, l);
    vectors::store(y, 0, out);
}

// A word, an output of the right length, and a reach that is offered.
fn mended(y: &mut [u64; 3], reach: u8, out: &mut [u8]) -> Result<Flips, Refusal>
    requires { (length out.old ≡ 16) × (reach ≤ 3) }
    ensures { as_searched result out.new ≡ searched_for reach (wbit y.old) out.old }
{
    match list_for(y, reach) {
        Some(l) => {
            hand_out(y, l, out);
            Ok(l)
        }
        None => Err(Refusal::NoneNear),
    }
}

// The same of a word's octets.
fn searched(word: &[u8], reach: u8, out: &mut [u8]) -> Result<Flips, Refusal>
    requires { (length word.now ≡ 16) × (length out.old ≡ 16) × (reach ≤ 3) }
    ensures { as_searched result out.new ≡ searched_for reach (bit word.now) out.old }
{
    let mut y = [0u64; 3];
    vectors::load(word, &mut y);
    mended(&mut y, reach, out)
}

// The same of a word, a reach and an output of any length.
fn nearest_flips(word: &[u8], reach: u8, out: &mut [u8]) -> Result<Flips, Refusal>
    ensures { as_searched result out.new ≡ nearest_answer word.now reach out.old }
{
    refusals::admit(true, word.len(), 16, out.len(), 16)?;
    if reach > 3 {
        return Err(Refusal::Reach);
    }
    searched(word, reach, out)
}

// The fewest flips up to a reach that give a codeword, the first such list of bits in increasing order, and the mended word.
pub fn nearest(word: &[u8], reach: u8, out: &mut [u8]) -> Reached
    ensures { as_reached result out.new ≡ nearest_answer word.now reach out.old }
{
    match nearest_flips(word, reach, out) {
        Ok(l) => {
            let bits = l.bits;
            Reached {
                number: 0,
                least: l.count,
                bits,
            }
        }
        Err(refusal) => Reached {
            number: refusal.number(),
            least: 0,
            bits: [0; 3],
        },
    }
}
