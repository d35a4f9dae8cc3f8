// A quick no where one word holds a row: the checks in order, a row at a time, up to the first row with a broken one.
ghost use Rattle.std.specs.Prelude.{◌≡◌, true, ℕ, ◌+◌, ◌*◌, ◌≤◌, ◌<◌, length};
ghost use Rattle.bits.specs.Bits.{Word, bit, ◌⊕◌};
ghost use Rattle.rules.specs.Codes.{Code, code as code_of, offered};
ghost use Rattle.rules.specs.Checks.{lowest as lowest_of};
ghost use Rattle.rules.specs.Encoding.{lifted};
ghost use Rattle.vectors.specs.Vectors.{wbit, both, up_to, from, twice};
ghost use Rattle.layout.specs.Lent.{Lent};
ghost use Rattle.catalogue.specs.offer.Offers.{offer_of};
ghost use Rattle.quick.specs.groups.Groups.{Has, reached, placed, group};

use catalogue::tables;
use layout::{Parity, TABLE};
use vectors::Pair;
use word::received::Received;

// What the shift s adds to the checks of a row, where one word holds the block of m bits; d is the block twice over.
fn narrow_entry(d: Pair, m: usize, s: usize) -> u64
    requires { m ≤ 64 }
    ensures { (x : Word) (p : ℕ) → both d ≡ twice m (up_to m (from p x)) → Has m result (reached m x p s) }
{
    if s < m {
        return vectors::funnel(d.first, d.second, s);
    }
    0
}

// What block b adds to the checks of row r.
fn narrow_block(y: &[u64], parity: Parity, b: usize, r: usize) -> u64
    requires { (parity.shape.size ≤ 64) × (b < parity.shape.blocks) × (r < parity.shape.rows) × (length y.now ≡ 17) }
    ensures { Has parity.entry.shape.size result
        (λ i. placed parity.entry.shape parity.entry.places.now (wbit y.now) r (2 * b) i
        ⊕ placed parity.entry.shape parity.entry.places.now (wbit y.now) r (1 + 2 * b) i) }
{
    let h = parity.places;
    let sh = parity.shape;
    let block = vectors::front(vectors::window(y, b * sh.size), sh.size);
    let d = vectors::double_word(block, sh.size);
    let at = 2 * (r * sh.blocks + b);
    narrow_entry(d, sh.size, h[at] as usize) ^ narrow_entry(d, sh.size, h[at + 1] as usize)
}

// The checks of row r.
fn narrow_group(y: &[u64], parity: Parity, r: usize) -> u64
    requires { (parity.shape.size ≤ 64) × (r < parity.shape.rows) × (length y.now ≡ 17) }
    ensures { Has parity.entry.shape.size result
        (group parity.entry.shape parity.entry.places.now (wbit y.now) r (2 * parity.entry.shape.blocks)) }
{
    let mut v: u64 = 0;
    for b in 0..parity.shape.blocks {
        v ^= narrow_block(y, parity, b, r);
    }
    v
}

// The lowest broken check, row after row.
fn rows_lowest(y: &[u64], parity: Parity) -> u32
    requires { (parity.shape.size ≤ 64) × (length y.now ≡ 17) }
    ensures { (c : Code) → Lent c parity.entry.places.now parity.entry.shape → result ≡ lowest_of c (wbit y.now) }
{
    let sh = parity.shape;
    for r in 0..sh.rows {
        let v = vectors::front(narrow_group(y, parity, r), sh.size);
        if v != 0 {
            return (r * sh.size) as u32 + u64::leading_zeros(v);
        }
    }
    (sh.rows * sh.size) as u32
}

// The lowest broken check where one word holds a row.
pub fn lowest(received: Received) -> u32
    requires { received.code.offer.shape.size ≡ 511 → ⊥ }
    ensures { (n : ℕ) → offered n ≡ true → received.entry.code.offer ≡ offer_of n
        → result ≡ lowest_of (code_of n) (lifted (code_of n) (bit received.entry.word.now)) }
{
    let o = received.code.offer;
    let of = o.shape;
    let mut h = [0u16; TABLE];
    let sh = tables::lend_narrow(of.size, &mut h);
    let mut y = [0u64; 17];
    vectors::load(received.word, &mut y);
    let parity = Parity {
        places: &h,
        shape: sh,
    };
    rows_lowest(&y, parity)
}
