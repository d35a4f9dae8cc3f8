// In how many bits a received word and another differ.
ghost use Rattle.std.specs.Prelude.{◌≡◌, ℕ, ◌+◌, ◌*◌, ◌/◌, ◌≤◌, ◌<◌, length};
ghost use Rattle.bits.specs.Bits.{bit, digit, count, ◌⊕◌};
ghost use Rattle.vectors.specs.Vectors.{wbit};

// In how many of their 64 bits two words differ.
fn apart(v: u64, w: u64) -> usize
    ensures { (result ≡ count 64 (λ i. digit 64 v i ⊕ digit 64 w i)) × (result ≤ 64) }
{
    if v == w {
        return 0;
    }
    (v ^ w).count_ones() as usize
}

// In how many of the first 64 k bits the octets differ from what stands in y from bit u on.
fn apart_whole(octets: &[u8], y: &[u64], u: usize, k: usize) -> usize
    requires { (8 * k ≤ length octets.now) × (length octets.now ≤ 1022) × (u / 64 + k + 1 ≤ length y.now) × (u < 64) }
    ensures { (result ≡ count (64 * k) (λ i. bit octets.now i ⊕ wbit y.now (u + i))) × (result ≤ 64 * k) }
{
    let mut sum: usize = 0;
    for j in 0..k {
        sum += apart(
            vectors::eight(octets, 8 * j),
            vectors::window(y, u + 64 * j),
        );
    }
    sum
}

// In how many of the first n bits the octets differ from what stands in y from bit u on; they hold these bits, and end within 64 of the
// last. It is not inlined, so that the function above it, which has the code's record, is.
#[inline(never)]
pub fn unlike(octets: &[u8], y: &[u64], u: usize, n: usize) -> usize
    requires { (n ≤ 8 * length octets.now) × (length octets.now < 8 * (n / 64) + 8) × (length octets.now ≤ 1022)
        × (n / 64 + 2 ≤ length y.now) × (u < 64) }
    ensures { (result ≡ count n (λ i. bit octets.now i ⊕ wbit y.now (u + i))) × (result ≤ 8192) }
{
    let k = n / 64;
    let t = n % 64;
    let sum = apart_whole(octets, y, u, k);
    if t == 0 {
        return sum;
    }
    let v = vectors::front(vectors::last(octets), t);
    let w = vectors::front(vectors::window(y, u + 64 * k), t);
    sum + apart(v, w)
}

// In how many of the first 64 k bits two vectors differ.
pub fn unlike_words(x: &[u64], y: &[u64], k: usize) -> usize
    requires { (k ≤ length x.now) × (k ≤ length y.now) × (k ≤ 16) }
    ensures { (result ≡ count (64 * k) (λ i. wbit x.now i ⊕ wbit y.now i)) × (result ≤ 1024) }
{
    let mut sum: usize = 0;
    for j in 0..k {
        sum += apart(x[j], y[j]);
    }
    sum
}
