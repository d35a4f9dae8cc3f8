// A quick no where a row is wider than a group: the checks in order, 64 at a time, up to the first group with a broken one.
ghost use Rattle.std.specs.Prelude.{◌≡◌, true, ℕ, ◌+◌, ◌*◌, ◌/◌, ◌≤◌, ◌<◌, length};
ghost use Rattle.bits.specs.Bits.{Word, bit, least};
ghost use Rattle.rules.specs.Codes.{Code, code as code_of, offered};
ghost use Rattle.rules.specs.Checks.{check, lowest as lowest_of};
ghost use Rattle.rules.specs.Encoding.{lifted};
ghost use Rattle.vectors.specs.Vectors.{wbit, Holds, up_to, from, twice};
ghost use Rattle.layout.specs.Lent.{Lent};
ghost use Rattle.catalogue.specs.offer.Offers.{offer_of};
ghost use Rattle.quick.specs.groups.Groups.{Has, reached, group, Twofold, Begun, Full, Inside, behind};

use catalogue::offer::NEAR_EARTH;
use catalogue::tables;
use layout::{BLOCK, Parity, Shape, TABLE, WORD};
use word::received;
use word::received::{Received, Sent};

// The 64 bits of the octets from bit p on, of nine octets.
fn octets_from(octets: &[u8], p: usize) -> u64
    requires { (p + 65 ≤ 8 * length octets.now) × (length octets.now ≤ 1022) }
    ensures { Holds result (from p (bit octets.now)) }
{
    let at = p / 8;
    vectors::funnel(
        vectors::eight(octets, at),
        (octets[at + 8] as u64) << 56,
        p % 8,
    )
}

// The same where the last of them may be the last of all.
fn octets_to(octets: &[u8], p: usize) -> u64
    requires { (p + 64 ≤ 8 * length octets.now) × (length octets.now ≤ 1022) }
    ensures { Holds result (from p (bit octets.now)) }
{
    if p % 8 == 0 {
        return vectors::eight(octets, p / 8);
    }
    octets_from(octets, p)
}

// The same of the word that the checks are over, with the bits that are not sent.
fn lifted_from(sent: Sent, p: usize) -> u64
    requires { (p + 65 ≤ 8 * length sent.octets.now + sent.unsent) × (9 ≤ length sent.octets.now) }
    ensures { (c : Code) → sent.entry.unsent ≡ c.unsent → Holds result (from p (lifted c (bit sent.entry.octets.now))) }
{
    let octets = sent.octets;
    let u = sent.unsent;
    if p < u {
        return vectors::eight(octets, 0) >> (u - p);
    }
    octets_from(octets, p - u)
}

// What the shift s adds to the first 64 checks of a row, where the block has the m bits from bit p on. Its last 64 bits and its first ones
// are read where it goes round.
fn wide_entry(sent: Sent, p: usize, m: usize, s: usize) -> u64
    requires { (130 ≤ m) × (p + m ≤ 8 * length sent.octets.now + sent.unsent) × (9 ≤ length sent.octets.now) }
    ensures { (c : Code) → sent.entry.unsent ≡ c.unsent → Holds result (reached m (lifted c (bit sent.entry.octets.now)) p s) }
{
    let end = m - 64;
    if s < end {
        return lifted_from(sent, p + s);
    }
    if s < m {
        return vectors::funnel(
            octets_to(sent.octets, p + end - sent.unsent),
            lifted_from(sent, p),
            s - end,
        );
    }
    0
}

// The first 64 checks of row 0.
fn first_group(sent: Sent, parity: Parity) -> u64
    requires { (1 ≤ parity.shape.rows) × (130 ≤ parity.shape.size)
        × (parity.shape.blocks * parity.shape.size ≤ 8 * length sent.octets.now + sent.unsent) × (9 ≤ length sent.octets.now) }
    ensures { (c : Code) → sent.entry.unsent ≡ c.unsent → Has 64 result
        (group parity.entry.shape parity.entry.places.now (lifted c (bit sent.entry.octets.now)) 0 (2 * parity.entry.shape.blocks)) }
{
    let h = parity.places;
    let sh = parity.shape;
    let mut v: u64 = 0;
    for k in 0..2 * sh.blocks {
        v ^= wide_entry(sent, k / 2 * sh.size, sh.size, h[k] as usize);
    }
    v
}

// The block of the m bits from bit p on, twice over.
fn double_block(y: &[u64], p: usize, m: usize, d: &mut [u64])
    requires { (1 ≤ m) × (m ≤ 512) × (p / 64 + 8 < length y.now) × (length d.old ≡ 16) }
    ensures { wbit d.new ≡ twice m (up_to m (from p (wbit y.now))) }
{
    let mut block = [0u64; BLOCK];
    vectors::cut(y, p, m, &mut block);
    vectors::double(&block, m, d);
}

// Every block twice over, each in 16 words.
fn double_blocks(y: &[u64], sh: Shape, d: &mut [u64])
    requires { (448 < sh.size) × (sh.size ≤ 512) × (sh.blocks ≡ 16) × (sh.blocks * sh.size ≤ 8176) × (length y.now ≡ 130)
        × (length d.old ≡ 256) }
    ensures { Twofold sh.blocks sh.size (wbit y.now) d.new }
{
    for b in 0..sh.blocks {
        let at = 16 * b;
        let end = at + 16;
        double_block(y, b * sh.size, sh.size, &mut d[at..end]);
    }
}

// Where each place of row r begins in the doubled blocks. It is worked out once, so that a group costs no more than its windows.
fn begin_row(parity: Parity, r: usize, begins: &mut [usize])
    requires { (r < parity.shape.rows) × (length begins.old ≡ 2 * parity.shape.blocks) }
    ensures { Begun (2 * parity.entry.shape.blocks) parity.entry.shape parity.entry.places.now r begins.new }
{
    let h = parity.places;
    let sh = parity.shape;
    for k in 0..2 * sh.blocks {
        begins[k] = 1024 * (k / 2) + h[2 * (r * sh.blocks) + k] as usize;
    }
}

// The first 64 checks: the sum of the 64 bits from each beginning on.
fn wide_group(d: &[u64], begins: &[usize]) -> u64
    requires { Inside begins.now 2 d.now }
    ensures { Holds result (behind begins.now (wbit d.now)) }
{
    let mut v: u64 = 0;
    for begin in begins {
        v ^= vectors::window(d, *begin);
    }
    v
}

// The lowest broken one of m checks, group after group, or m if none is broken.
fn groups_lowest(d: &[u64], begins: &[usize], m: usize) -> usize
    requires { (m ≤ 512) × (8 ≤ length d.now) × Inside begins.now 9 d.now }
    ensures { result ≡ least m (behind begins.now (wbit d.now)) }
{
    for g in 0..(m + 63) / 64 {
        let v = wide_group(&d[g..], begins);
        if v != 0 {
            let l = 64 * g + u64::leading_zeros(v) as usize;
            if l < m {
                return l;
            }
            return m; // what is set is past the last check
        }
    }
    m
}

// The lowest broken check of row r, counted from the row's first, or M if none is broken.
fn wide_row_lowest(d: &[u64], parity: Parity, r: usize) -> usize
    requires { Full parity.places.now parity.shape × (parity.shape.blocks ≡ 16) × (r < parity.shape.rows) × (length d.now ≡ 256) }
    ensures { (c : Code) (x : Word) → Lent c parity.entry.places.now parity.entry.shape
        → Twofold parity.entry.shape.blocks parity.entry.shape.size x d.now
        → result ≡ least parity.entry.shape.size (from (r * parity.entry.shape.size) (check c x)) }
{
    let mut begins = [0usize; 32];
    begin_row(parity, r, &mut begins);
    groups_lowest(d, &begins, parity.shape.size)
}

// The lowest broken check, row after row.
fn wide_rows_lowest(d: &[u64], parity: Parity) -> u32
    requires { Full parity.places.now parity.shape × (parity.shape.blocks ≡ 16) × (length d.now ≡ 256) }
    ensures { (c : Code) (x : Word) → Lent c parity.entry.places.now parity.entry.shape
        → Twofold parity.entry.shape.blocks parity.entry.shape.size x d.now
        → result ≡ lowest_of c x }
{
    let sh = parity.shape;
    for row in 0..sh.rows {
        let l = wide_row_lowest(d, parity, row);
        if l < sh.size {
            return (row * sh.size + l) as u32;
        }
    }
    (sh.rows * sh.size) as u32
}

// The lowest broken check of a word that is laid out whole.
fn whole_lowest(sent: Sent, parity: Parity) -> u32
    requires { Full parity.places.now parity.shape × (448 < parity.shape.size) × (parity.shape.blocks ≡ 16) }
    ensures { (c : Code) → Lent c parity.entry.places.now parity.entry.shape → sent.entry.unsent ≡ c.unsent
        → result ≡ lowest_of c (lifted c (bit sent.entry.octets.now)) }
{
    let mut y = [0u64; WORD];
    received::take(sent, &mut y);
    let mut d = [0u64; 256];
    double_blocks(&y, parity.shape, &mut d);
    wide_rows_lowest(&d, parity)
}

// The lowest broken check where a row is wider than a group. The first group comes straight from the octets; if it is met, the word is
// laid out, and group comes after group, from the first on: to begin with the second would cost more instructions, not fewer.
pub fn lowest(received: Received) -> u32
    requires { received.code.offer.shape.size ≡ 511 }
    ensures { (n : ℕ) → offered n ≡ true → received.entry.code.offer ≡ offer_of n
        → result ≡ lowest_of (code_of n) (lifted (code_of n) (bit received.entry.word.now)) }
{
    let o = received.code.offer;
    let mut h = [0u16; TABLE];
    tables::lend511(&mut h);
    let parity = Parity {
        places: &h,
        shape: NEAR_EARTH,
    };
    let sent = Sent {
        octets: received.word,
        unsent: o.unsent,
    };
    let v = first_group(sent, parity);
    if v != 0 {
        return u64::leading_zeros(v);
    }
    whole_lowest(sent, parity)
}
