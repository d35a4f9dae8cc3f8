// Samples by their bit patterns, and the run that chooses by their sizes. A pattern is read and compared as a whole number, so that no mode
// of the machine's floating point matters.

#![tactic(auto)]

ghost use Rattle.std.specs.Prelude.{◌≡◌, Bool, true, false, ℕ, ◌+◌, ◌*◌, ◌/◌, ◌^◌, ◌<◌, ◌≤◌, eqb, length};
ghost use Rattle.bits.specs.Bits.{digit, ◌⊕◌, below, when◌then◌else◌};
ghost use Rattle.vectors.specs.Vectors.{wbit, Holds, up_to, from, joined};
ghost use Rattle.magnitudes.specs.Patterns.{is_one as is_one_of, pattern_of, read as read_of};
ghost use Rattle.magnitudes.specs.Patterns.{unsigned as unsigned_of, smaller as smaller_of, is_finite};
ghost use Rattle.magnitudes.specs.Patterns.{all_finite};
ghost use Rattle.magnitudes.specs.Sizes.{smallest as smallest_in};

// The bits of some samples, and whether all of these are finite.
#[derive(Clone, Copy)]
struct Marked<T> {
    bits: T,
    finite: bool,
}

// A pattern without its sign.
fn unsigned(p: u32) -> u32
    ensures { result ≡ unsigned_of p }
{
    p % 0x8000_0000
}

// Whether a sample is finite: the exponent's field is not all ones.
fn is_finite(p: u32) -> bool
    ensures { result ≡ is_finite p }
{
    unsigned(p) / 0x80_0000 != 255
}

// Whether a sample is read as 1: the sign is set, and the rest is not 0.
pub fn is_one(p: u32) -> bool
    ensures { result ≡ is_one_of p }
{
    p > 0x8000_0000
}

// The power of 2, if the sample is read as 1.
fn mark(p: u32, place: usize) -> u32
    requires { place < 32 }
    ensures { result ≡ (when is_one_of p then 2 ^ place else 0) }
{
    if is_one(p) { 1 << place } else { 0 }
}

// The bits of the n samples from sample `at` on, in front, and whether these are finite.
fn half(samples: &[u32], at: usize, n: usize) -> Marked<u32>
    requires { (n ≤ 32) × (at + n ≤ length samples.now) }
    ensures { ((i : ℕ) → i < 32 → digit 32 result.bits i ≡ up_to n (from at (read_of samples.now)) i)
        × (result.finite ≡ below n (λ i. is_finite (pattern_of samples.now (at + i)))) }
{
    let mut bits: u32 = 0;
    let mut finite = true;
    // by index: C's floats are read by their patterns where they stand, and lent no further
    for i in 0..n {
        bits |= mark(samples[at + i], 31 - i);
        finite = is_finite(samples[at + i]) & finite;
    }
    Marked { bits, finite }
}

// The same of up to 64 samples: in two halves, whose loops the compiler takes four samples at a time.
fn word(samples: &[u32], at: usize, n: usize) -> Marked<u64>
    requires { (n ≤ 64) × (at + n ≤ length samples.now) }
    ensures { Holds result.bits (up_to n (from at (read_of samples.now)))
        × (result.finite ≡ below n (λ i. is_finite (pattern_of samples.now (at + i)))) }
{
    let m = n.min(32);
    let a = half(samples, at, m);
    let b = half(samples, at + m, n - m);
    Marked {
        bits: ((a.bits as u64) << 32) | b.bits as u64,
        finite: b.finite & a.finite,
    }
}

// The words that the samples fill whole.
fn read_whole(samples: &[u32], y: &mut [u64]) -> bool
    requires { length samples.now ≤ 64 * length y.old }
    ensures { (wbit y.new ≡ joined (64 * (length samples.now / 64)) (read_of samples.now)
        (wbit y.old)) × (result ≡ below (64 * (length samples.now / 64))
        (λ i. is_finite (pattern_of samples.now i))) }
{
    let whole = samples.len() / 64;
    let mut finite = true;
    for k in 0..whole {
        let w = word(samples, 64 * k, 64);
        y[k] = w.bits;
        finite = w.finite & finite;
    }
    finite
}

// The bits read from the samples, in front of a vector of zeros, and whether every sample is finite.
pub fn read(samples: &[u32], y: &mut [u64]) -> bool
    requires { (length samples.now < 64 * length y.old) × (wbit y.old ≡ (λ n. false)) }
    ensures { (wbit y.new ≡ read_of samples.now) × (result ≡ all_finite samples.now) }
{
    let finite = read_whole(samples, y);
    let k = samples.len() / 64;
    let n = samples.len() % 64;
    let w = word(samples, 64 * k, n);
    y[k] = w.bits;
    w.finite & finite
}

// Of two bits, the later one only if its sample is smaller.
pub fn smaller(samples: &[u32], earlier: usize, later: usize) -> usize
    requires { (earlier < length samples.now) × (later < length samples.now) }
    ensures { result ≡ (when smaller_of samples.now later earlier then later else earlier) }
{
    if unsigned(samples[later]) < unsigned(samples[earlier]) {
        return later;
    }
    earlier
}

// The first bit of v that is set.
pub fn first_set(v: u64) -> usize
    requires { 0 < v }
    ensures { (result < 64) × (digit 64 v result ≡ true) × ((i : ℕ) → i < result → digit 64 v i ≡ false) }
{
    v.leading_zeros() as usize
}

// v with bit n flipped.
fn with_flipped(v: u64, n: usize) -> u64
    requires { n < 64 }
    ensures { (i : ℕ) → i < 64 → digit 64 result i ≡ digit 64 v i ⊕ eqb i n }
{
    v ^ (1u64 << (63 - n))
}

// The smallest of a bit and of the bits that are set in mask, which begins with bit `first`.
pub fn smallest_of(samples: &[u32], mask: u64, first: usize, bit: usize) -> usize
    requires { (bit < length samples.now) × ((i : ℕ) → i < 64 → digit 64 mask i ≡ true → first + i < length samples.now) }
    ensures { (result < length samples.now)
        × ((marked : ℕ → Bool) (n : ℕ) → n ≤ 64 → Holds mask (up_to n (from first marked))
        → result ≡ smallest_in (smaller_of samples.now) marked bit first n) }
{
    let mut left = mask;
    let mut best = bit;
    while left != 0 {
        let i = first_set(left);
        best = smaller(samples, best, first + i);
        left = with_flipped(left, i);
    }
    best
}
