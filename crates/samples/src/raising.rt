// What a run by sizes keeps of each block: a bound, and the block's smallest bit at that bound; and how a flip raises it.
ghost use Rattle.std.specs.Prelude.{◌≡◌, Bool, true, ◌&&◌, ◌||◌, List, ◌⊎◌, ℕ, ◌+◌, ◌*◌, ◌%◌, ◌<◌, ◌≤◌, eqb, length, get_or};
ghost use Rattle.bits.specs.Bits.{Word, flipped};
ghost use Rattle.rules.specs.Codes.{Code};
ghost use Rattle.vectors.specs.Vectors.{wbit};
ghost use Rattle.layout.specs.Lent.{Lent, laid};
ghost use Rattle.flipping.specs.bounds.Reading.{hits, Twice};
ghost use Rattle.flipping.specs.bounds.Keeping.{Laid};
ghost use Rattle.magnitudes.specs.Patterns.{smaller};
ghost use Rattle.samples.specs.raising.Knowing.{Within, Ahead, Known, whole, covered, nearer as nearer_of};
ghost use Rattle.samples.specs.raising.Knowing.{Sampled, KnowsIn, covers, raises};

use flipping::bounds;
use flipping::bounds::Bounds;
use layout::{BLOCKS, ROWS};

// The number of no bit.
pub const UNKNOWN: usize = 8176;

// The bounds of the blocks, and for each block its smallest bit at that bound; or UNKNOWN.
#[derive(Drop)]
pub struct Kept {
    pub bounds: Bounds,
    pub bits: [usize; BLOCKS],
}

// How many of its checks every bit of a block has met at least, and the smallest bit that has met no more; or UNKNOWN.
#[derive(Clone, Copy)]
struct Low {
    met: u8,
    bit: usize,
}

// How many of the n checks of bit k of a block are broken.
pub fn broken_of(d: &[u64], starts: &[u16], from: usize, n: u8, k: usize) -> u8
    requires { Within starts.now d.now from n k }
    ensures { result ≡ hits (wbit d.now) starts.now from n k }
{
    let end = n as usize;
    let mut broken: u8 = 0;
    for e in 0..end {
        broken += u8::from(vectors::is_set(d, starts[from + e] as usize + k));
    }
    broken
}

// Of two bits the smaller; of equals the lower number.
pub fn lesser(samples: &[u32], a: usize, b: usize) -> usize
    requires { (a < length samples.now) × (b < length samples.now) }
    ensures { ((result ≡ a) ⊎ (result ≡ b)) × Ahead (smaller samples.now) result a × Ahead (smaller samples.now) result b }
{
    if a < b {
        return magnitudes::smaller(samples, a, b);
    }
    magnitudes::smaller(samples, b, a)
}

// The bit of a block that the check at p covers by the start s, where the check stands M places on once more; M or more if there is none.
fn bit_at(p: usize, s: usize, m: usize) -> usize
    requires { (p < 4096) × (m ≤ 512) }
    ensures { ((k : ℕ) → k < m → s + k ≡ p → result ≡ k) × ((k : ℕ) → k < m → s + k ≡ p + m → result ≡ k) }
{
    if s <= p {
        return p - s;
    }
    if s <= p + m {
        return p + m - s;
    }
    m
}

// What is known of a block, by the number of checks that every bit has met and the smallest bit, when bit k of it is seen too, of whose n
// checks so many are broken. It is made of numbers: a record that came in whole would be copied whole.
fn meet(samples: &[u32], n: u8, broken: u8, first: usize, k: usize, met: u8, known: usize) -> Low
    requires { (first + k < length samples.now) × (n ≤ 8) × (broken ≤ n) × (met ≤ n) }
    ensures { (result.met ≤ n) × ((d : Word) (starts : List ℕ) (from m : ℕ) (seen : ℕ → Bool) → k < m
        → first + m ≤ length samples.now → broken ≡ hits d starts from n k
        → Known samples.now d starts from n m first seen met known
        → Known samples.now d starts from n m first (λ j. seen j || eqb j k) result.met result.bit) }
{
    if broken + met > n {
        return Low {
            met: n - broken,
            bit: first + k,
        };
    }
    if broken + met < n {
        return Low { met, bit: known };
    }
    if known >= samples.len() {
        return Low { met, bit: known };
    }
    Low {
        met,
        bit: lesser(samples, known, first + k),
    }
}

// What is known of a block when bit k is seen too, if it is one of its m bits.
fn look(
    samples: &[u32],
    d: &[u64],
    starts: &[u16],
    from: usize,
    n: u8,
    m: usize,
    first: usize,
    k: usize,
    low: Low,
) -> Low
    requires { Within starts.now d.now from n m × (first + m ≤ length samples.now)
        × (low.met ≤ n) }
    ensures { (result.met ≤ n) × ((seen : ℕ → Bool)
        → Known samples.now (wbit d.now) starts.now from n m first seen low.met low.bit
        → Known samples.now (wbit d.now) starts.now from n m first (λ j. seen j || eqb j k)
        result.met result.bit) }
{
    if k >= m {
        return low;
    }
    meet(
        samples,
        n,
        broken_of(d, starts, from, n, k),
        first,
        k,
        low.met,
        low.bit,
    )
}

// What is known of a block when the bits that the check at p covers are seen too.
fn raise_in(
    samples: &[u32],
    d: &[u64],
    starts: &[u16],
    from: usize,
    n: u8,
    m: usize,
    first: usize,
    p: usize,
    low: Low,
) -> Low
    requires { Within starts.now d.now from n m × (first + m ≤ length samples.now)
        × (low.met ≤ n) × (p < 4096) }
    ensures { (result.met ≤ n) × ((seen : ℕ → Bool)
        → Known samples.now (wbit d.now) starts.now from n m first seen low.met low.bit
        → Known samples.now (wbit d.now) starts.now from n m first
        (λ j. seen j || covered starts.now from m p n j) result.met result.bit) }
{
    let end = n as usize;
    let mut now = low;
    for e in 0..end {
        let k = bit_at(p, starts[from + e] as usize, m);
        now = look(samples, d, starts, from, n, m, first, k, now);
    }
    now
}

// The first place of the check at p.
fn nearer(p: usize, m: usize) -> usize
    requires { (p % 1024 < 2 * m) × (p < 4096) × (m ≤ 512) }
    ensures { (result < 4096) × (result ≡ nearer_of m p) }
{
    if p % 1024 < m {
        return p;
    }
    p - m
}

impl Kept {
    // What is known of block b when the bits that the check at p covers are seen too; what is known of the others stays.
    fn raise_block(&mut self, samples: &[u32], rows: &[u64; ROWS], p: usize, b: usize)
        requires { Sampled samples.now self.old.bounds.places × (p < 4096) × (b < self.old.bounds.places.shape.blocks) }
        ensures { (self.new.bounds.places ≡ self.old.bounds.places) × ((seen seen' : ℕ → ℕ → Bool)
            → ((i : ℕ) → seen' b i ≡ true → (seen b i || covers self.old.bounds.places p b i) ≡ true)
            → ((j i : ℕ) → (j ≡ b → ⊥) → seen' j i ≡ true → seen j i ≡ true)
            → KnowsIn samples.now self.old.bounds.places (wbit rows.now) seen self.old.bounds.met self.old.bits
            → KnowsIn samples.now self.old.bounds.places (wbit rows.now) seen' self.new.bounds.met self.new.bits) }
    {
        let m = self.bounds.places.shape.size;
        let was = Low {
            met: self.bounds.met[b],
            bit: self.bits[b],
        };
        let low = raise_in(
            samples,
            rows,
            &self.bounds.places.starts,
            8 * b,
            self.bounds.places.counts[b],
            m,
            b * m,
            p,
            was,
        );
        self.bounds.met[b] = low.met;
        self.bits[b] = low.bit;
    }

    // What is known of every block when the bits that the check at p covers are seen too.
    fn raise_all(&mut self, samples: &[u32], rows: &[u64; ROWS], p: usize)
        requires { Sampled samples.now self.old.bounds.places × (p < 4096) }
        ensures { (self.new.bounds.places ≡ self.old.bounds.places) × ((seen : ℕ → ℕ → Bool)
            → KnowsIn samples.now self.old.bounds.places (wbit rows.now) seen self.old.bounds.met self.old.bits
            → KnowsIn samples.now self.old.bounds.places (wbit rows.now)
            (λ j i. seen j i || covers self.old.bounds.places p j i) self.new.bounds.met self.new.bits) }
    {
        for b in 0..self.bounds.places.shape.blocks {
            self.raise_block(samples, rows, p, b);
        }
    }

    // The same, if the check at p is broken.
    fn raise_check(&mut self, samples: &[u32], rows: &[u64; ROWS], p: usize)
        requires { Sampled samples.now self.old.bounds.places × (p < 4096) × (p % 1024 < 2 * self.old.bounds.places.shape.size) }
        ensures { (self.new.bounds.places ≡ self.old.bounds.places) × ((seen : ℕ → ℕ → Bool)
            → KnowsIn samples.now self.old.bounds.places (wbit rows.now) seen self.old.bounds.met self.old.bits
            → KnowsIn samples.now self.old.bounds.places (wbit rows.now)
            (λ j i. seen j i || (wbit rows.now p
            && covers self.old.bounds.places (nearer_of self.old.bounds.places.shape.size p) j i))
            self.new.bounds.met self.new.bits) }
    {
        if !vectors::is_set(rows, p) {
            return;
        }
        let m = self.bounds.places.shape.size;
        self.raise_all(samples, rows, nearer(p, m));
    }

    // What is known of every block when the bits are seen too that a broken check of bit k of block b covers.
    fn raise(&mut self, samples: &[u32], rows: &[u64; ROWS], b: usize, k: usize)
        requires { Sampled samples.now self.old.bounds.places
            × (b < self.old.bounds.places.shape.blocks) × (k < self.old.bounds.places.shape.size) }
        ensures { (self.new.bounds.places ≡ self.old.bounds.places) × ((seen : ℕ → ℕ → Bool)
            → KnowsIn samples.now self.old.bounds.places (wbit rows.now) seen self.old.bounds.met self.old.bits
            → KnowsIn samples.now self.old.bounds.places (wbit rows.now)
            (λ j i. seen j i || raises self.old.bounds.places (wbit rows.now) b k (get_or self.old.bounds.places.counts b 0) j i)
            self.new.bounds.met self.new.bits) }
    {
        let n = self.bounds.places.counts[b] as usize;
        for e in 0..n {
            let p = self.bounds.places.starts[8 * b + e] as usize + k;
            self.raise_check(samples, rows, p);
        }
    }

    // Flips the checks of a bit. Only the bits that a check covers which is broken then have fewer checks met than before: these are
    // seen anew.
    pub fn flip(&mut self, samples: &[u32], rows: &mut [u64; ROWS], bit: usize)
        requires { Sampled samples.now self.old.bounds.places
            × (bit < self.old.bounds.places.shape.blocks * self.old.bounds.places.shape.size) }
        ensures { (self.new.bounds.places ≡ self.old.bounds.places) × ((c : Code) (h : List ℕ) (x : Word)
            → Lent c h self.old.bounds.places.shape → Laid h self.old.bounds.places
            → Twice self.old.bounds.places.shape self.old.bounds.places.shape.rows (laid c self.old.bounds.places.shape x) (wbit rows.old)
            → Twice self.old.bounds.places.shape self.old.bounds.places.shape.rows
            (laid c self.old.bounds.places.shape (flipped x bit)) (wbit rows.new)
            × (KnowsIn samples.now self.old.bounds.places (wbit rows.old) whole self.old.bounds.met self.old.bits
            → KnowsIn samples.now self.old.bounds.places (wbit rows.new) whole self.new.bounds.met self.new.bits)) }
    {
        let m = self.bounds.places.shape.size;
        let b = bit / m;
        let k = bit % m;
        let n = self.bounds.places.counts[b] as usize;
        bounds::flip_checks(rows, &self.bounds.places.starts, 8 * b, n, k, m);
        self.raise(samples, rows, b, k);
    }
}
