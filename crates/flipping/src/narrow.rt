// Codes whose blocks one word holds: the rows of the syndrome over and over in a word each, and the bits of greatest excess from them.
ghost use Rattle.std.specs.Prelude.{◌≡◌, Bool, true, ◌&&◌, List, ℕ, ◌+◌, ◌-◌, ◌*◌, ◌%◌, ◌^◌, ◌<◌, ◌≤◌, eqb, ltb, length, get_or};
ghost use Rattle.std.specs.Int.Count.{count_leading_zeros};
ghost use Rattle.bits.specs.Bits.{Word, digit, flipped, tally, over, count_of, ◌⊕◌};
ghost use Rattle.rules.specs.Codes.{Code};
ghost use Rattle.vectors.specs.Vectors.{wbit, Holds, up_to, from as bits_from};
ghost use Rattle.layout.specs.Lent.{Fit, Lent, laid, score, entries, shifts_of, total};
ghost use Rattle.layout.specs.Rooms.{blocks_room};
ghost use Rattle.magnitudes.specs.Patterns.{smaller};
ghost use Rattle.magnitudes.specs.Sizes.{smallest};
ghost use Rattle.flipping.specs.narrow.Weighing.{around, Rows, Held, Weighs, broke, sent, Peaked};
ghost use Rattle.flipping.specs.narrow.Weighing.{Weighed, Greatest, Marks, Marked, Told, Chosen, scores_of, masks_of};

use super::choice::Best;
use layout::{BLOCKS, Parity, SYNDROME, Shape, WORD};

// The rows of a code whose blocks one word holds.
pub const NARROW_ROWS: usize = 4;

// Of the bits of a block, those that have none, at most one and at most two of some checks met; and how many checks these are.
#[derive(Clone, Copy)]
struct Weights {
    none: u64,
    one: u64,
    two: u64,
    checks: u32,
}

// A score, and the bits that have it.
#[derive(Clone, Copy)]
pub struct Level {
    pub score: u32,
    pub mask: u64,
}

// The greatest score, and the first block that has it.
#[derive(Clone, Copy)]
pub struct Peak {
    pub score: u32,
    pub block: usize,
}

// The first m bits of v over and over.
fn repeated(v: u64, m: usize) -> u64
    requires { (1 ≤ m) × (m ≤ 64) }
    ensures { (f : Word) → Holds v (up_to m f) → Holds result (around m f) }
{
    let mut all = v;
    let mut n = m;
    while n < 64 {
        all |= all >> n;
        n *= 2;
    }
    all
}

// The rows of the syndrome z.
pub fn begin(z: &[u64; SYNDROME], sh: Shape, rows: &mut [u64; NARROW_ROWS])
    requires { (1 ≤ sh.size) × (sh.size ≤ 64) × (sh.words ≡ 1) × (sh.rows ≡ 4) }
    ensures { (c : Code) (x : Word) → wbit z.now ≡ laid c sh x → Rows c sh x rows.new }
{
    for (r, row) in rows.iter_mut().enumerate() {
        *row = repeated(z[r], sh.size);
    }
}

// One check more of each bit: it is broken where x has a one.
fn with_check(w: Weights, x: u64) -> Weights
    requires { w.checks < 8 }
    ensures { (result.checks ≡ w.checks + 1) × ((counts f : Word) (hits : ℕ → ℕ) → Weighs counts hits w → Holds x f
        → Weighs counts (λ k. hits k + tally (f k)) result) }
{
    let two = (w.two & x) | w.one;
    let one = (w.one & x) | w.none;
    let none = w.none & x;
    Weights {
        none,
        one,
        two,
        checks: w.checks + 1,
    }
}

// The checks of one place of the table, in this row, if it has an entry.
fn with_place(w: Weights, row: u64, s: usize, m: usize) -> Weights
    requires { (w.checks < 8) × (1 ≤ m) × (m ≤ 64) × (64 % m ≡ 0) }
    ensures { (result.checks ≡ w.checks + tally (ltb s m)) × ((counts f : Word) (hits : ℕ → ℕ) → Weighs counts hits w
        → Holds row (around m f) → Weighs counts (λ k. hits k + tally (ltb s m && f ((k + (m - s)) % m))) result) }
{
    if s < m {
        return with_check(w, vectors::funnel(row, row, (64 - s) % 64));
    }
    w
}

// The checks of the two places of a block in this row.
fn with_row(w: Weights, row: u64, h: &[u16], at: usize, m: usize) -> Weights
    requires { (w.checks < 7) × (1 ≤ m) × (m ≤ 64) × (64 % m ≡ 0) × (at + 1 < length h.now) }
    ensures { (result.checks ≡ w.checks + length (entries m h.now at)) × (result.checks ≤ w.checks + 2)
        × ((counts f : Word) (hits : ℕ → ℕ) → Weighs counts hits w → Holds row (around m f)
        → Weighs counts (λ k. hits k + count_of (entries m h.now at) (λ s. f ((k + (m - s)) % m))) result) }
{
    let v = with_place(w, row, h[at] as usize, m);
    with_place(v, row, h[at + 1] as usize, m)
}

// The weights of those bits of block b that are in mask.
fn weigh(rows: &[u64], parity: Parity, b: usize, mask: u64) -> Weights
    requires { (parity.shape.words ≡ 1) × (length rows.now ≡ 4) × (b < parity.shape.blocks) }
    ensures { (result.checks ≡ total 4 (λ q. length (shifts_of parity.entry.shape parity.entry.places.now q b))) × (result.checks ≤ 8)
        × ((c : Code) (x counts : Word) → Rows c parity.entry.shape x rows.now → Holds mask counts
        → Weighs counts (broke c parity.entry.places.now parity.entry.shape b x 4) result) }
{
    let h = parity.places;
    let sh = parity.shape;
    let mut w = Weights {
        none: mask,
        one: mask,
        two: mask,
        checks: 0,
    };
    for r in 0..4 {
        w = with_row(w, rows[r], h, 2 * (r * sh.blocks + b), sh.size);
    }
    w
}

// The greatest score above 8 of the bits that were weighed, and the bits that have it.
fn highest(w: Weights) -> Level
    requires { w.checks ≤ 8 }
    ensures { w.checks ≤ 6 → (counts : Word) (hits g : ℕ → ℕ) → Weighs counts hits w
        → ((k : ℕ) → k < 64 → counts k ≡ true → g k + w.checks ≡ 2 * hits k + 8) → Peaked counts g result.score result.mask }
{
    if w.none != 0 {
        return Level {
            score: 8 + w.checks,
            mask: w.none,
        };
    }
    if w.one != 0 {
        return Level {
            score: 6 + w.checks,
            mask: w.one,
        };
    }
    if w.two != 0 {
        return Level {
            score: 4 + w.checks,
            mask: w.two,
        };
    }
    Level { score: 0, mask: 0 }
}

// The bits of block b that are sent.
fn sent_in(b: usize, from: usize, m: usize) -> u64
    requires { (from < m) × (m ≤ 64) }
    ensures { Holds result (sent m from b) }
{
    let all = vectors::front(u64::MAX, m);
    if b == 0 {
        return all ^ vectors::front(all, from);
    }
    all
}

// For each block the greatest score above 8 of its bits, and the bits that have it; bits before bit `from` are not sent.
pub fn weigh_all(rows: &[u64], parity: Parity, from: usize, levels: &mut [Level])
    requires { (parity.shape.words ≡ 1) × (length rows.now ≡ 4) × (from < parity.shape.size) × (length levels.old ≡ blocks_room) }
    ensures { (c : Code) (x : Word) → Lent c parity.entry.places.now parity.entry.shape → Rows c parity.entry.shape x rows.now
        → Weighed c parity.entry.shape from x (scores_of levels.new) (masks_of levels.new) parity.entry.shape.blocks }
{
    let sh = parity.shape;
    for b in 0..sh.blocks {
        levels[b] = highest(weigh(rows, parity, b, sent_in(b, from, sh.size)));
    }
}

// A block, or a later one with this score, if that is greater.
fn better(p: Peak, score: u32, b: usize) -> Peak
    ensures { (p.score < score → (result.score ≡ score) × (result.block ≡ b))
        × (score ≤ p.score → (result.score ≡ p.score) × (result.block ≡ p.block)) }
{
    if p.score < score {
        return Peak { score, block: b };
    }
    p
}

// The greatest of the scores, and the first block that has it; 8 if none is greater.
pub fn greatest(levels: &[Level], blocks: usize) -> Peak
    requires { (1 ≤ blocks) × (blocks ≤ length levels.now) × (length levels.now ≤ blocks_room) }
    ensures { Greatest (scores_of levels.now) blocks result.score result.block }
{
    let mut p = Peak { score: 8, block: 0 };
    for (b, level) in levels[..blocks].iter().enumerate() {
        p = better(p, level.score, b);
    }
    p
}

// The first bit of this block that is set in its mask.
pub fn first_bit(mask: u64, block: usize, m: usize) -> usize
    requires { (block < 16) × (m ≤ 64) }
    ensures { (mask < 2 ^ 64) × (result ≡ block * m + count_leading_zeros 64 mask) }
{
    block * m + u64::leading_zeros(mask) as usize
}

// The smallest of a bit and of those that are set in the mask of a block which begins with bit `first`, if it has the score `top`.
fn peak_in(samples: &[u32], score: u32, mask: u64, top: u32, first: usize, bit: usize) -> usize
    requires { (bit < length samples.now)
        × (score ≡ top → (i : ℕ) → i < 64 → digit 64 mask i ≡ true → first + i < length samples.now) }
    ensures { (result < length samples.now) × (score ≡ top → (marked : ℕ → Bool) (n : ℕ) → n ≤ 64
        → Holds mask (up_to n (bits_from first marked)) → result ≡ smallest (smaller samples.now) marked bit first n)
        × ((score ≡ top → ⊥) → result ≡ bit) }
{
    if score != top {
        return bit;
    }
    magnitudes::smallest_of(samples, mask, first, bit)
}

// The smallest of a bit and of those that the masks have of the blocks with this score.
fn smallest_peak(samples: &[u32], levels: &[Level], sh: Shape, top: u32, bit: usize) -> usize
    requires { (sh.blocks ≤ 16) × (1 ≤ sh.size) × (sh.size ≤ 64) × (length levels.now ≡ blocks_room)
        × (length samples.now ≡ sh.blocks * sh.size) × (bit < length samples.now)
        × Marked sh (scores_of levels.now) (masks_of levels.now) top }
    ensures { (marked : ℕ → Bool) → Marks marked sh (scores_of levels.now) (masks_of levels.now) top
        → result ≡ smallest (smaller samples.now) marked bit 0 (sh.blocks * sh.size) }
{
    let mut best = bit;
    for b in 0..sh.blocks {
        let level = levels[b];
        best = peak_in(samples, level.score, level.mask, top, b * sh.size, best);
    }
    best
}

// The bit of the greatest score above 8 where the blocks have been weighed; of several the one with the smallest sample, then the lowest
// number; without samples the lowest. A score of 8 says that there is none.
fn best_of(samples: &[u32], levels: &[Level; BLOCKS], sh: Shape) -> Best
    requires { Told sh samples.now (scores_of levels.now) (masks_of levels.now) }
    ensures { (c : Code) (h : List ℕ) (from : ℕ) (x : Word) → Fit h sh → Lent c h sh → from < sh.size
        → (0 < length samples.now → from ≡ 0)
        → Weighed c sh from x (scores_of levels.now) (masks_of levels.now) sh.blocks → Chosen c sh from x samples.now result }
{
    let p = greatest(levels, sh.blocks);
    let score = p.score;
    let low = first_bit(levels[p.block].mask, p.block, sh.size);
    if score <= 8 {
        return Best { score, bit: low };
    }
    if samples.is_empty() {
        return Best { score, bit: low };
    }
    Best {
        score,
        bit: smallest_peak(samples, levels, sh, score, low),
    }
}

// The best bit from bit `from` on, after all blocks have been weighed.
pub fn choose(samples: &[u32], rows: &[u64; NARROW_ROWS], parity: Parity, from: usize) -> Best
    requires { (parity.shape.words ≡ 1) × (1 ≤ parity.shape.blocks) × (from < parity.shape.size)
        × (0 < length samples.now → (length samples.now ≡ parity.shape.blocks * parity.shape.size) × (from ≡ 0))
        × Held parity.places.now parity.shape rows.now }
    ensures { (c : Code) (x : Word) → Lent c parity.entry.places.now parity.entry.shape → Rows c parity.entry.shape x rows.now
        → Chosen c parity.entry.shape from x samples.now result }
{
    // Copied, since C's compilers read what came in by value from memory for each block.
    let here = parity;
    let mut levels = [Level { score: 0, mask: 0 }; BLOCKS];
    weigh_all(rows, here, from, &mut levels);
    best_of(samples, &levels, here.shape)
}

// Flips the check of a row that covers bit k by the shift s; a number that is m or more is no shift. `each` has the first bit of
// every m set.
fn flip_place(row: u64, each: u64, s: usize, k: usize, m: usize) -> u64
    requires { (1 ≤ m) × (m ≤ 64) × (64 % m ≡ 0) × (k < m) × Holds each (around m (eqb 0)) }
    ensures { (f : Word) → Holds row f → Holds result (λ i. f i ⊕ (ltb s m && eqb (i % m) ((k + (m - s)) % m))) }
{
    if s < m {
        return row ^ vectors::funnel(each, each, (64 + s - k) % 64);
    }
    row
}

// Flips the checks of a row that cover bit k by the shifts of two places.
fn flip_row(row: u64, each: u64, h: &[u16], at: usize, k: usize, m: usize) -> u64
    requires { (1 ≤ m) × (m ≤ 64) × (64 % m ≡ 0) × (k < m) × Holds each (around m (eqb 0)) × (at + 1 < length h.now) }
    ensures { (f : Word) → Holds row f
        → Holds result (λ i. f i ⊕ over (entries m h.now at) (λ s. eqb (i % m) ((k + (m - s)) % m))) }
{
    let v = flip_place(row, each, h[at] as usize, k, m);
    flip_place(v, each, h[at + 1] as usize, k, m)
}

// Flips the checks that cover bit k of block b, row after row. `each` has the first bit of every M set.
fn flip_rows(rows: &mut [u64], parity: Parity, each: u64, b: usize, k: usize)
    requires { (parity.shape.words ≡ 1) × (length rows.old ≡ 4) × (b < parity.shape.blocks) × (k < parity.shape.size)
        × Holds each (around parity.shape.size (eqb 0)) }
    ensures { (q : ℕ) → q < 4 → (f : Word) → Holds (get_or rows.old q 0) f → Holds (get_or rows.new q 0)
        (λ i. f i ⊕ over (shifts_of parity.entry.shape parity.entry.places.now q b)
        (λ s. eqb (i % parity.entry.shape.size) ((k + (parity.entry.shape.size - s)) % parity.entry.shape.size))) }
{
    let h = parity.places;
    let sh = parity.shape;
    for r in 0..4 {
        rows[r] = flip_row(rows[r], each, h, 2 * (r * sh.blocks + b), k, sh.size);
    }
}

// Flips a bit of a word, and its checks with it.
pub fn flip(y: &mut [u64; WORD], rows: &mut [u64; NARROW_ROWS], parity: Parity, bit: usize)
    requires { (parity.shape.words ≡ 1) × (bit < parity.shape.blocks * parity.shape.size) }
    ensures word { wbit y.new ≡ flipped (wbit y.old) bit }
    ensures checks { (c : Code) (x : Word) → Lent c parity.entry.places.now parity.entry.shape → Rows c parity.entry.shape x rows.old
        → Rows c parity.entry.shape (flipped x bit) rows.new }
{
    vectors::flip_bit(y, bit);
    let m = parity.shape.size;
    let each = repeated(1u64 << 63, m);
    flip_rows(rows, parity, each, bit / m, bit % m);
}
