// The bit of greatest excess: the blocks of the greatest bound are weighed, and the bound of one that has no such bit goes down.
ghost use Rattle.std.specs.Prelude.{◌≡◌, ℕ, ◌*◌, ◌<◌, ◌≤◌, length, get_or};
ghost use Rattle.bits.specs.Bits.{least};
ghost use Rattle.vectors.specs.Vectors.{wbit};
ghost use Rattle.flipping.specs.bounds.Reading.{light};
ghost use Rattle.flipping.specs.bounds.Keeping.{bound};
ghost use Rattle.flipping.specs.choice.Searching.{highest, begin_in_of, Lowers, Looks, Finds, Seeks};

use super::bounds;
use super::bounds::Bounds;
use layout::ROWS;

// A bit, and its score.
#[derive(Clone, Copy)]
pub struct Best {
    pub score: u32,
    pub bit: usize,
}

// The bound of block b, by how many checks its bits have and how many of these every bit has met.
pub fn bound_of(counts: &[u8], met: &[u8], b: usize) -> u8
    requires { (b < length counts.now) × (b < length met.now) × (get_or counts.now b 0 ≤ 8)
        × (get_or met.now b 0 ≤ get_or counts.now b 0) }
    ensures { result ≡ bound counts.now met.now b }
{
    8 + counts[b] - 2 * met[b]
}

// The greatest bound.
pub fn greatest(counts: &[u8], met: &[u8], blocks: usize) -> u8
    requires { (blocks ≤ length counts.now) × (blocks ≤ length met.now)
        × ((b : ℕ) → b < blocks → (get_or counts.now b 0 ≤ 8) × (get_or met.now b 0 ≤ get_or counts.now b 0)) }
    ensures { result ≡ highest counts.now met.now blocks }
{
    let mut top: u8 = 0;
    for b in 0..blocks {
        top = top.max(bound_of(counts, met, b));
    }
    top
}

// The first bit of block b that counts, where bits from bit `from` on do, which is one of block 0.
fn begin_in(b: usize, from: usize) -> usize
    ensures { result ≡ begin_in_of b from }
{
    if b == 0 {
        return from;
    }
    0
}

impl Bounds {
    // The first bit of block b from bit `begin` on that has at most so many of its checks met; M if there is none.
    fn first_in_block(&self, rows: &[u64; ROWS], b: usize, met: usize, begin: usize) -> usize
        requires { (b < self.now.places.shape.blocks) × (met ≤ get_or self.now.places.counts b 0) }
        ensures { result ≡ least self.now.places.shape.size (light (wbit rows.now) self.now.places.starts (8 * b)
            (get_or self.now.places.counts b 0) met begin self.now.places.shape.size) }
    {
        let m = self.places.shape.size;
        let n = self.places.counts[b] as usize;
        for k in 0..self.places.shape.words {
            let found = bounds::weigh(rows, &self.places.starts, 8 * b, n, met, 64 * k, begin, m);
            if found != 0 {
                return 64 * k + u64::leading_zeros(found) as usize;
            }
        }
        m
    }

    // The same: a search for bits without a met check is the most frequent one, and a loop of its own for the compiler.
    fn first_light(&self, rows: &[u64; ROWS], b: usize, met: usize, begin: usize) -> usize
        requires { (b < self.now.places.shape.blocks) × (met ≤ get_or self.now.places.counts b 0) }
        ensures { result ≡ least self.now.places.shape.size (light (wbit rows.now) self.now.places.starts (8 * b)
            (get_or self.now.places.counts b 0) met begin self.now.places.shape.size) }
    {
        if met == 0 {
            return self.first_in_block(rows, b, 0, begin);
        }
        self.first_in_block(rows, b, met, begin)
    }

    // The bound of block b.
    pub fn bound_of(&self, b: usize) -> u8
        requires { b < self.now.places.shape.blocks }
        ensures { result ≡ bound self.now.places.counts self.now.met b }
    {
        bound_of(&self.places.counts, &self.met, b)
    }

    // The greatest bound.
    pub fn greatest(&self) -> u8
        ensures { result ≡ highest self.now.places.counts self.now.met self.now.places.shape.blocks }
    {
        greatest(&self.places.counts, &self.met, self.places.shape.blocks)
    }

    // The first bit of block b that counts and has at most as many of its checks met as the block's bound says; M if there is none.
    fn first_met(&self, rows: &[u64; ROWS], from: usize, b: usize) -> usize
        requires { b < self.now.places.shape.blocks }
        ensures { result ≡ least self.now.places.shape.size (light (wbit rows.now) self.now.places.starts (8 * b)
            (get_or self.now.places.counts b 0) (get_or self.now.met b 0) (begin_in_of b from) self.now.places.shape.size) }
    {
        self.first_light(rows, b, self.met[b] as usize, begin_in(b, from))
    }

    // The first bit of block b of score `top`, where its bound is not greater; M if there is none. If the bound was `top`, it goes down
    // then.
    fn look(&mut self, rows: &[u64; ROWS], from: usize, b: usize, top: u8) -> usize
        requires { (from < self.old.places.shape.size) × (b < self.old.places.shape.blocks)
            × (bound self.old.places.counts self.old.met b ≤ top) }
        ensures { (self.new.places ≡ self.old.places)
            × Looks self.old.places from (wbit rows.now) b top result self.old.met self.new.met }
    {
        let m = self.places.shape.size;
        if self.bound_of(b) != top {
            return m;
        }
        let k = self.first_met(rows, from, b);
        if k < m {
            return k;
        }
        self.met[b] += 1;
        m
    }

    // The first bit of score `top` from bit `from` on, where no bound is greater; the number of bits if there is none.
    fn first_at(&mut self, rows: &[u64; ROWS], from: usize, top: u8) -> usize
        requires { (from < self.old.places.shape.size)
            × ((b : ℕ) → b < self.old.places.shape.blocks → bound self.old.places.counts self.old.met b ≤ top) }
        ensures { (self.new.places ≡ self.old.places)
            × Seeks self.old.places from (wbit rows.now) self.old.met top result self.new.met }
    {
        let sh = self.places.shape;
        for b in 0..sh.blocks {
            let k = self.look(rows, from, b, top);
            if k < sh.size {
                return b * sh.size + k;
            }
        }
        sh.blocks * sh.size
    }

    // The bit of the greatest score from bit `from` on; of several, the lowest number.
    pub fn choose(&mut self, rows: &[u64; ROWS], from: usize) -> Best
        requires { (1 ≤ self.old.places.shape.blocks) × (from < self.old.places.shape.size) }
        ensures { (self.new.places ≡ self.old.places)
            × Lowers self.old.places from (wbit rows.now) self.old.met self.new.met
            × Finds self.old.places from (wbit rows.now) self.old.met result.score result.bit self.new.met }
    {
        let end = self.places.shape.blocks * self.places.shape.size;
        loop {
            let top = self.greatest();
            let bit = self.first_at(rows, from, top);
            if bit < end {
                return Best {
                    score: top as u32,
                    bit,
                };
            }
        }
    }
}
