// Rows of M bits in words, as the parity of a word is solved in them, and how they are written behind the information.
ghost use Rattle.std.specs.Prelude.{◌≡◌, false, ◌++◌, ℕ, ◌+◌, ◌-◌, ◌*◌, ◌/◌, ◌%◌, ◌<◌, ◌≤◌, length, get_or};
ghost use Rattle.bits.specs.Bits.{Word, bit, digit, octets};
ghost use Rattle.vectors.specs.Vectors.{wbit, Holds, up_to, from, added};
ghost use Rattle.encoder.specs.parityrows.Rows.{held, Fits, completed};

use layout::{SYNDROME, Shape};
use vectors::copying;
use word::received;

// A number that is no shift of any table: it ends the shifts of a step.
pub const END: u16 = 65535;

// How many words hold what is sent from the last octet of the information on: 1,029 bits at most, and one to read past them.
const TAIL: usize = 18;

// Adds the 64 bits of v to those of y from bit p on.
fn put_word(v: u64, y: &mut [u64], p: usize)
    requires { p / 64 + 2 ≤ length y.old }
    ensures { (x : Word) → Holds v x → wbit y.new ≡ added (wbit y.old) p (p + 64) x }
{
    let u = [0u64, v, 0u64, 0u64];
    vectors::add_turned(&u, 64 - p % 64, y, p / 64, 2);
}

// Adds row r of z to the bits of y from bit p on.
fn put_row(z: &[u64; SYNDROME], sh: Shape, r: usize, y: &mut [u64; TAIL], p: usize)
    requires { Fits sh × (r < sh.rows) × (p + sh.size ≤ 1029) }
    ensures { (f : ℕ → Word) → wbit z.now ≡ held sh f
        → wbit y.new ≡ added (wbit y.old) p (p + sh.size) (f r) }
{
    for j in 0..sh.words {
        put_word(z[r * sh.words + j], y, p + 64 * j);
    }
}

// Puts the rows behind the first bits of y, as parity block a the row (a + first) mod R.
fn put_rows(z: &[u64; SYNDROME], sh: Shape, first: usize, y: &mut [u64; TAIL], at: usize)
    requires { Fits sh × (first ≤ 1) × (at ≤ 7) }
    ensures { (f : ℕ → Word) (x : Word) → wbit z.now ≡ held sh f → wbit y.old ≡ up_to at x
        → wbit y.new ≡ completed sh first f at x }
{
    for a in 0..sh.rows {
        put_row(z, sh, (a + first) % sh.rows, y, at + a * sh.size);
    }
}

// Octet at, and zeros behind it; zeros alone past the last octet.
fn spare(octets: &[u8], at: usize) -> u64
    ensures { Holds result (up_to 8 (digit 8 (get_or octets.now at 0))) }
{
    if at < octets.len() {
        return received::leading(octets[at]);
    }
    0
}

// Puts the last bits of the information, which do not fill an octet, into y, which is handed over as zeros.
fn put_spare(information: &[u8], n: usize, y: &mut [u64])
    requires { (1 ≤ length y.old) × (wbit y.old ≡ (λ i. false)) }
    ensures { bit information.now ≡ up_to n (bit information.now)
        → wbit y.new ≡ up_to (n % 8) (from (8 * (n / 8)) (bit information.now)) }
{
    y[0] = spare(information, n / 8);
}

// What is sent from octet n / 8 on, where n bits of the information are: the last of them, and the rows. y is handed over as zeros.
fn lay_tail(
    information: &[u8],
    n: usize,
    z: &[u64; SYNDROME],
    sh: Shape,
    first: usize,
    y: &mut [u64; TAIL],
)
    requires { Fits sh × (first ≤ 1) × (wbit y.old ≡ (λ i. false)) }
    ensures { (f : ℕ → Word) → wbit z.now ≡ held sh f
        → bit information.now ≡ up_to n (bit information.now)
        → wbit y.new ≡ completed sh first f (n % 8) (from (8 * (n / 8)) (bit information.now)) }
{
    put_spare(information, n, y);
    put_rows(z, sh, first, y, n % 8);
}

// Writes octets, and behind them those of y.
fn write_both(front: &[u8], y: &[u64; TAIL], word: &mut [u8])
    requires { (length front.now ≤ length word.old) × (length word.old ≤ length front.now + 128) }
    ensures { word.new ≡ front.now ++ octets (length word.old - length front.now)
        (from 0 (wbit y.now)) }
{
    let at = front.len();
    copying::copy(front, &mut word[..at]);
    vectors::store(y, 0, &mut word[at..]);
}

// Writes the word: the octets that n bits of the information fill, and behind them what is laid from there on.
pub fn write(
    information: &[u8],
    n: usize,
    z: &[u64; SYNDROME],
    sh: Shape,
    first: usize,
    word: &mut [u8],
)
    requires { Fits sh × (first ≤ 1) × (n / 8 ≤ length information.now)
        × (n / 8 ≤ length word.old) × (length word.old ≤ n / 8 + 128) }
    ensures { (f : ℕ → Word) → wbit z.now ≡ held sh f
        → bit information.now ≡ up_to n (bit information.now)
        → word.new ≡ octets (length word.old) (completed sh first f n (bit information.now)) }
{
    let mut y = [0u64; TAIL];
    lay_tail(information, n, z, sh, first, &mut y);
    let at = n / 8;
    write_both(&information[..at], &y, word);
}
