// The smallest of the bits of greatest excess, by what a run keeps of each block: a bound, and the block's smallest bit at that bound.
ghost use Rattle.std.specs.Prelude.{◌≡◌, true, false, ◌⊎◌, ℕ, ◌+◌, ◌-◌, ◌*◌, ◌/◌, ◌%◌, ◌<◌, ◌≤◌, length};
ghost use Rattle.bits.specs.Bits.{digit};
ghost use Rattle.vectors.specs.Vectors.{wbit, Holds};
ghost use Rattle.flipping.specs.bounds.Reading.{hits};
ghost use Rattle.flipping.specs.bounds.Keeping.{bound};
ghost use Rattle.magnitudes.specs.Patterns.{smaller};
ghost use Rattle.samples.specs.raising.Knowing.{Within, Ahead, whole, Sampled, KnowsIn};
ghost use Rattle.samples.specs.smallest.Settling.{Lightest, all_set, SettledIn, LeadsIn, MostIn};

use super::raising;
use super::raising::Kept;
use flipping::bounds;
use flipping::choice::Best;
use layout::ROWS;

// The smallest of a bit, if it is one, and of the bits that are set in mask, which begins with bit `first`.
fn among(samples: &[u32], mask: u64, first: usize, bit: usize) -> usize
    requires { (bit < length samples.now → bit < first)
        × ((i : ℕ) → i < 64 → digit 64 mask i ≡ true → first + i < length samples.now) }
    ensures { (length samples.now ≤ result → (length samples.now ≤ bit)
        × ((i : ℕ) → i < 64 → digit 64 mask i ≡ false)) × (result < length samples.now
        → ((result ≡ bit) ⊎ ((first ≤ result) × (result < first + 64) × (digit 64 mask (result - first) ≡ true)))
        × (bit < length samples.now → Ahead (smaller samples.now) result bit)
        × ((i : ℕ) → i < 64 → digit 64 mask i ≡ true → Ahead (smaller samples.now) result (first + i))) }
{
    if mask == 0 {
        return bit;
    }
    if bit < samples.len() {
        return magnitudes::smallest_of(samples, mask, first, bit);
    }
    magnitudes::smallest_of(samples, mask, first, first + magnitudes::first_set(mask))
}

// The smallest bit of a block that has at most so many of its n checks met; if there is none, the number of samples.
fn smallest_in(
    samples: &[u32],
    d: &[u64],
    starts: &[u16],
    from: usize,
    n: usize,
    met: usize,
    m: usize,
    first: usize,
) -> usize
    requires { Within starts.now d.now from n m × (first + m ≤ length samples.now)
        × (met ≤ n) }
    ensures { Lightest samples.now (wbit d.now) starts.now from n met m first m result }
{
    let mut best = samples.len();
    let mut at = 0;
    // no `for`: a step more for each word of each block that is weighed
    while at < m {
        let mask = bounds::weigh(d, starts, from, n, met, at, 0, m);
        best = among(samples, mask, first + at, best);
        at += 64;
    }
    best
}

// Of 64 bits, those that have none of four checks met: the first bit's stand at a, b, c and e. Mostly two of them show that there is none.
fn none_met(d: &[u64], a: usize, b: usize, c: usize, e: usize) -> u64
    requires { (a / 64 + 1 < length d.now) × (b / 64 + 1 < length d.now) × (c / 64 + 1 < length d.now)
        × (e / 64 + 1 < length d.now) }
    ensures { Holds result (all_set (wbit d.now) a b c e) }
{
    let x = vectors::window(d, a);
    if x == 0 {
        return 0;
    }
    let y = x & vectors::window(d, b);
    if y == 0 {
        return 0;
    }
    y & vectors::window(d, c) & vectors::window(d, e)
}

// The smallest bit of a block that has none of its four checks met; if there is none, the number of samples.
fn smallest_none(
    samples: &[u32],
    d: &[u64],
    starts: &[u16],
    from: usize,
    m: usize,
    first: usize,
) -> usize
    requires { Within starts.now d.now from 4 m × (first + m ≤ length samples.now) }
    ensures { Lightest samples.now (wbit d.now) starts.now from 4 0 m first m result }
{
    let s0 = starts[from] as usize;
    let s1 = starts[from + 1] as usize;
    let s2 = starts[from + 2] as usize;
    let s3 = starts[from + 3] as usize;
    let mut best = samples.len();
    let mut at = 0;
    // no `for`, as in smallest_in
    while at < m {
        let v = none_met(d, s0 + at, s1 + at, s2 + at, s3 + at);
        if v != 0 {
            best = among(
                samples,
                vectors::front(v, bounds::ahead(m, at)),
                first + at,
                best,
            );
        }
        at += 64;
    }
    best
}

// The same as smallest_in; if it is for bits with none of four checks met, by the quicker way.
fn smallest_light(
    samples: &[u32],
    d: &[u64],
    starts: &[u16],
    from: usize,
    n: usize,
    met: usize,
    m: usize,
    first: usize,
) -> usize
    requires { Within starts.now d.now from n m × (first + m ≤ length samples.now)
        × (met ≤ n) }
    ensures { Lightest samples.now (wbit d.now) starts.now from n met m first m result }
{
    if met == 0 && n == 4 {
        return smallest_none(samples, d, starts, from, m, first);
    }
    smallest_in(samples, d, starts, from, n, met, m, first)
}

// The smaller of two bits of which the first may be none.
fn lead(samples: &[u32], best: usize, bit: usize) -> usize
    requires { bit < length samples.now }
    ensures { ((result ≡ best) ⊎ (result ≡ bit)) × (result < length samples.now) × Ahead (smaller samples.now) result bit
        × (best < length samples.now → Ahead (smaller samples.now) result best) }
{
    if best < samples.len() {
        return raising::lesser(samples, best, bit);
    }
    bit
}

// The smallest of the bits up to block b, from the one before it and the one that is known of the block; the number of samples if
// the block is to be weighed for it.
fn still(
    samples: &[u32],
    d: &[u64],
    starts: &[u16],
    from: usize,
    n: u8,
    met: u8,
    m: usize,
    bit: usize,
    best: usize,
) -> usize
    requires { Within starts.now d.now from n m × (met ≤ n)
        × (1 ≤ m) }
    ensures { result < length samples.now → (bit < length samples.now)
        × Ahead (smaller samples.now) result bit
        × (best < length samples.now → Ahead (smaller samples.now) result best)
        × ((result ≡ best) ⊎ ((result ≡ bit) × (n ≤ hits (wbit d.now) starts.now from n (bit % m) + met))) }
{
    let end = samples.len();
    if bit >= end {
        return end;
    }
    let r = lead(samples, best, bit);
    if r == best {
        return best;
    }
    if raising::broken_of(d, starts, from, n, bit % m) + met < n {
        return end;
    }
    bit
}

impl Kept {
    // The smallest of a bit and of those of block b that have no more checks met than is kept of it. If there is none of these, one more
    // is met.
    fn weigh(&mut self, samples: &[u32], rows: &[u64; ROWS], b: usize, best: usize) -> usize
        requires { Sampled samples.now self.old.bounds.places × (b < self.old.bounds.places.shape.blocks) }
        ensures { (self.new.bounds.places ≡ self.old.bounds.places)
            × SettledIn samples.now self.old.bounds.places (wbit rows.now) b (bound self.old.bounds.places.counts self.old.bounds.met b)
            best result self.old.bounds.met self.new.bounds.met self.old.bits self.new.bits }
    {
        let m = self.bounds.places.shape.size;
        let n = self.bounds.places.counts[b] as usize;
        let met = self.bounds.met[b] as usize;
        let bit = smallest_light(
            samples,
            rows,
            &self.bounds.places.starts,
            8 * b,
            n,
            met,
            m,
            b * m,
        );
        self.bits[b] = bit;
        if bit < samples.len() {
            return lead(samples, best, bit);
        }
        self.bounds.met[b] += 1;
        best
    }

    // The same, by the bit that is known of the block; the block is weighed only if that does not tell.
    fn at_bound(&mut self, samples: &[u32], rows: &[u64; ROWS], b: usize, best: usize) -> usize
        requires { Sampled samples.now self.old.bounds.places × (b < self.old.bounds.places.shape.blocks) }
        ensures { (self.new.bounds.places ≡ self.old.bounds.places)
            × SettledIn samples.now self.old.bounds.places (wbit rows.now) b (bound self.old.bounds.places.counts self.old.bounds.met b)
            best result self.old.bounds.met self.new.bounds.met self.old.bits self.new.bits }
    {
        let m = self.bounds.places.shape.size;
        let n = self.bounds.places.counts[b];
        let r = still(
            samples,
            rows,
            &self.bounds.places.starts,
            8 * b,
            n,
            self.bounds.met[b],
            m,
            self.bits[b],
            best,
        );
        if r < samples.len() {
            return r;
        }
        self.weigh(samples, rows, b, best)
    }

    // The smallest of a bit and of those of block b that have the score `top`, where no bit of the block has a greater one.
    fn settle(
        &mut self,
        samples: &[u32],
        rows: &[u64; ROWS],
        b: usize,
        top: u8,
        best: usize,
    ) -> usize
        requires { Sampled samples.now self.old.bounds.places × (b < self.old.bounds.places.shape.blocks)
            × (bound self.old.bounds.places.counts self.old.bounds.met b ≤ top) }
        ensures { (self.new.bounds.places ≡ self.old.bounds.places)
            × SettledIn samples.now self.old.bounds.places (wbit rows.now) b top best result
            self.old.bounds.met self.new.bounds.met self.old.bits self.new.bits }
    {
        if self.bounds.bound_of(b) != top {
            return best;
        }
        self.at_bound(samples, rows, b, best)
    }

    // The smallest bit of score `top`, where no bit has a greater one; if there is none, the number of samples.
    fn smallest_at(&mut self, samples: &[u32], rows: &[u64; ROWS], top: u8) -> usize
        requires { Sampled samples.now self.old.bounds.places × ((b : ℕ) → b < self.old.bounds.places.shape.blocks
            → bound self.old.bounds.places.counts self.old.bounds.met b ≤ top) }
        ensures { (self.new.bounds.places ≡ self.old.bounds.places)
            × (length samples.now ≤ result → (b : ℕ) → b < self.old.bounds.places.shape.blocks
            → bound self.old.bounds.places.counts self.new.bounds.met b < top)
            × (KnowsIn samples.now self.old.bounds.places (wbit rows.now) whole self.old.bounds.met self.old.bits
            → KnowsIn samples.now self.old.bounds.places (wbit rows.now) whole self.new.bounds.met self.new.bits
            × LeadsIn samples.now self.old.bounds.places (wbit rows.now) top result) }
    {
        let mut best = samples.len();
        for b in 0..self.bounds.places.shape.blocks {
            best = self.settle(samples, rows, b, top, best);
        }
        best
    }

    // The smallest bit of the greatest score: the bounds go down until one is found.
    pub fn choose(&mut self, samples: &[u32], rows: &[u64; ROWS]) -> Best
        requires { (1 ≤ self.old.bounds.places.shape.blocks) × Sampled samples.now self.old.bounds.places }
        ensures { (self.new.bounds.places ≡ self.old.bounds.places)
            × (result.bit < self.old.bounds.places.shape.blocks * self.old.bounds.places.shape.size)
            × (KnowsIn samples.now self.old.bounds.places (wbit rows.now) whole self.old.bounds.met self.old.bits
            → KnowsIn samples.now self.old.bounds.places (wbit rows.now) whole self.new.bounds.met self.new.bits
            × MostIn self.old.bounds.places (wbit rows.now) result.score
            × LeadsIn samples.now self.old.bounds.places (wbit rows.now) result.score result.bit) }
    {
        loop {
            let top = self.bounds.greatest();
            let bit = self.smallest_at(samples, rows, top);
            if bit < samples.len() {
                return Best {
                    score: top as u32,
                    bit,
                };
            }
        }
    }
}
