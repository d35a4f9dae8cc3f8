// Vectors of bits in words of 64.

#![tactic(auto)]

pub mod copying;

ghost use Rattle.std.specs.Prelude.{◌≡◌, [], ◌∷◌, false, ℕ, ◌+◌, ◌-◌, ◌*◌, ◌/◌, ◌%◌, ◌^◌, ◌<◌, ◌≤◌, ltb, length};
ghost use Rattle.bits.specs.Bits.{Word, bit, digit, octets, count, least, flipped};
ghost use Rattle.vectors.specs.Vectors.{wbit, Clear, both, Holds, up_to, from, later, joined, twice, added, Doubled};

// The 64 bits of a and then b from bit t on.
pub fn funnel(a: u64, b: u64, t: usize) -> u64
    requires { t < 64 }
    ensures { Holds result (from t (wbit (a ∷ b ∷ []))) }
{
    if t == 0 {
        return a;
    }
    (a << t) | (b >> (64 - t))
}

// The 64 bits from bit t of word q on.
fn span(y: &[u64], q: usize, t: usize) -> u64
    requires { (q + 1 < length y.now) × (t < 64) }
    ensures { Holds result (from (64 * q + t) (wbit y.now)) }
{
    funnel(y[q], y[q + 1], t)
}

// The 64 bits from bit p on.
pub fn window(y: &[u64], p: usize) -> u64
    requires { p / 64 + 1 < length y.now }
    ensures { Holds result (from p (wbit y.now)) }
{
    span(y, p / 64, p % 64)
}

// The number of the first n octets from octet at on.
fn gathered(octets: &[u8], at: usize, n: usize) -> u64
    requires { (n ≤ 8) × (at + n ≤ length octets.now) }
    ensures { (result < 2 ^ (8 * n)) × ((i : ℕ) → i < 8 * n → digit (8 * n) result i ≡ bit octets.now (8 * at + i)) }
{
    let mut number: u64 = 0;
    for octet in &octets[at..at + n] {
        number = number * 256 + *octet as u64;
    }
    number
}

// The 64 bits of the eight octets from octet at on: in two halves the compiler knows them as one load.
pub fn eight(octets: &[u8], at: usize) -> u64
    requires { at + 8 ≤ length octets.now }
    ensures { Holds result (from (8 * at) (bit octets.now)) }
{
    (gathered(octets, at, 4) << 32) | gathered(octets, at + 4, 4)
}

// The octets behind the words that they fill whole, fewer than eight, and zeros behind them.
pub fn last(octets: &[u8]) -> u64
    ensures { Holds result (from (64 * (length octets.now / 8)) (bit octets.now)) }
{
    let n = octets.len() % 8;
    if n == 0 {
        return 0;
    }
    gathered(octets, octets.len() - n, n) << (64 - 8 * n)
}

// The words that the octets fill whole.
fn load_whole(octets: &[u8], ws: &mut [u64])
    requires { length octets.now ≤ 8 * length ws.old }
    ensures { wbit ws.new ≡ joined (64 * (length octets.now / 8)) (bit octets.now)
        (wbit ws.old) }
{
    let whole = octets.len() / 8;
    for k in 0..whole {
        ws[k] = eight(octets, 8 * k);
    }
}

// The octets, put in front of a vector of zeros.
pub fn load(octets: &[u8], ws: &mut [u64])
    requires { (length octets.now ≤ 8 * length ws.old) × (wbit ws.old ≡ (λ n. false)) }
    ensures { wbit ws.new ≡ bit octets.now }
{
    load_whole(octets, ws);
    let k = octets.len() / 8;
    if k < ws.len() {
        ws[k] = last(octets);
    }
}

// The words that the octets fill whole, all bits u places later, and the last of them as it was.
fn load_whole_later(octets: &[u8], u: usize, ws: &mut [u64]) -> u64
    requires { (0 < u) × (u < 64) × (length octets.now ≤ 8 * length ws.old) }
    ensures { Holds result (from (64 * (length octets.now / 8)) (later 64 (bit octets.now)))
        × (wbit ws.new
        ≡ joined (64 * (length octets.now / 8)) (later u (bit octets.now)) (wbit ws.old)) }
{
    let whole = octets.len() / 8;
    let mut before: u64 = 0;
    for k in 0..whole {
        let v = eight(octets, 8 * k);
        ws[k] = funnel(before, v, 64 - u);
        before = v;
    }
    before
}

// The octets, put u bits behind the front of a vector of zeros: moved as they are loaded, since a sweep of its own takes longer.
pub fn load_later(octets: &[u8], u: usize, ws: &mut [u64])
    requires { (0 < u) × (u < 64) × (length octets.now / 8 + 1 < length ws.old) × (wbit ws.old ≡ (λ n. false)) }
    ensures { wbit ws.new ≡ later u (bit octets.now) }
{
    let before = load_whole_later(octets, u, ws);
    let k = octets.len() / 8;
    let v = last(octets);
    ws[k] = funnel(before, v, 64 - u);
    ws[k + 1] = funnel(v, 0, 64 - u);
}

// The first t bits of v.
pub fn front(v: u64, t: usize) -> u64
    requires { t ≤ 64 }
    ensures { Holds result (up_to t (digit 64 v)) }
{
    if t == 64 {
        return v;
    }
    v ^ ((v << t) >> t)
}

// Clears the bits from bit n on of the word that has it.
pub fn trim_word(ws: &mut [u64], n: usize)
    requires { n / 64 < length ws.old }
    ensures { wbit ws.new
        ≡ joined (64 * (n / 64 + 1)) (up_to n (wbit ws.old)) (wbit ws.old) }
{
    let k = n / 64;
    ws[k] = front(ws[k], n % 64);
}

// Clears the bits from bit n on.
pub fn trim(ws: &mut [u64], n: usize)
    ensures { wbit ws.new ≡ up_to n (wbit ws.old) }
{
    let k = n / 64;
    if k < ws.len() {
        trim_word(ws, n);
        ws[k + 1..].fill(0);
    }
}

// The m bits from bit p on.
pub fn cut(y: &[u64], p: usize, m: usize, v: &mut [u64])
    requires { (m ≤ 64 * length v.old) × (p / 64 + length v.old < length y.now) }
    ensures { wbit v.new ≡ up_to m (from p (wbit y.now)) }
{
    let q = p / 64;
    let t = p % 64;
    for (k, word) in v.iter_mut().enumerate() {
        *word = span(y, q + k, t);
    }
    trim(v, m);
}

// The words of v that have a right neighbour among its first n, and n words behind each of them the 64 bits that begin t bits later in v.
fn double_words(v: &[u64], n: usize, t: usize, d: &mut [u64])
    requires { (1 ≤ n) × (n ≤ length v.now) × (t < 64) × (2 * n ≤ length d.old + 1) }
    ensures { Doubled v.now n t (n - 1) d.new }
{
    let mut a = v[0];
    for k in 0..n - 1 {
        let b = v[k + 1];
        d[k] = a;
        d[n + k] = funnel(a, b, t);
        a = b;
    }
}

// The m bits of v twice over. They stand in n words, t bits short of filling them, so they begin again t bits before word n.
pub fn double(v: &[u64], m: usize, d: &mut [u64])
    requires { (wbit v.now ≡ up_to m (wbit v.now)) × (1 ≤ m) × (m ≤ 64 * length v.now) × (2 * m ≤ 64 * length d.old)
        × (length d.old ≤ 2 ^ 57) }
    ensures { wbit d.new ≡ twice m (wbit v.now) }
{
    let n = (m + 63) / 64;
    let t = 64 * n - m;
    double_words(v, n, t, d);
    let a = v[n - 1];
    d[n - 1] = a | ((v[0] >> 1) >> (63 - t));
    if 2 * n - 1 < d.len() {
        d[2 * n - 1] = funnel(a, 0, t);
        trim(d, 128 * n);
    }
}

// Two words, one after the other.
#[derive(Clone, Copy)]
pub struct Pair {
    pub first: u64,
    pub second: u64,
}

// The m bits of v twice over, where one word holds them. Two shifts to the right, since m may be 64.
pub fn double_word(v: u64, m: usize) -> Pair
    requires { (1 ≤ m) × (m ≤ 64) }
    ensures { (x : Word) → Holds v (up_to m x) → both result ≡ twice m (up_to m x) }
{
    Pair {
        first: v | ((v >> 1) >> (m - 1)),
        second: funnel(v, 0, 64 - m),
    }
}

// Adds the 64 bits of v to word at of acc.
pub fn add_word(v: u64, acc: &mut [u64], at: usize)
    requires { at < length acc.old }
    ensures { (x : Word) → Holds v x → wbit acc.new ≡ added (wbit acc.old) (64 * at) (64 * (at + 1)) x }
{
    acc[at] ^= v;
}

// Adds the w words of d from bit s on to those of acc from word at on.
pub fn add_turned(d: &[u64], s: usize, acc: &mut [u64], at: usize, w: usize)
    requires { (at + w ≤ length acc.old) × (s / 64 + w < length d.now) }
    ensures { wbit acc.new ≡ added (wbit acc.old) (64 * at) (64 * (at + w)) (from s (wbit d.now)) }
{
    let q = s / 64;
    let t = s % 64;
    for j in 0..w {
        acc[at + j] ^= span(d, q + j, t);
    }
}

// How many bits are set.
pub fn ones(ws: &[u64]) -> usize
    requires { length ws.now ≤ 2 ^ 57 }
    ensures { result ≡ count (64 * length ws.now) (wbit ws.now) }
{
    let mut n: usize = 0;
    for word in ws {
        n += word.count_ones() as usize;
    }
    n
}

// Whether a bit is set.
pub fn any(ws: &[u64]) -> bool
    ensures { result ≡ ltb 0 (count (64 * length ws.now) (wbit ws.now)) }
{
    let mut v: u64 = 0;
    for word in ws {
        v |= *word;
    }
    v != 0
}

// How many words in front are 0, counted by fours.
fn skip(ws: &[u64]) -> usize
    requires { length ws.now ≤ 2 ^ 57 }
    ensures { (result ≤ length ws.now) × Clear ws.now result }
{
    let fours = ws.len() / 4;
    for j in 0..fours {
        let k = 4 * j;
        if (ws[k] | ws[k + 1]) | (ws[k + 2] | ws[k + 3]) != 0 {
            return k;
        }
    }
    4 * fours
}

// The first bit that is set, or the number of bits if none is.
pub fn first(ws: &[u64]) -> usize
    requires { length ws.now ≤ 2 ^ 57 }
    ensures { result ≡ least (64 * length ws.now) (wbit ws.now) }
{
    for k in skip(ws)..ws.len() {
        if ws[k] != 0 {
            return 64 * k + ws[k].leading_zeros() as usize;
        }
    }
    64 * ws.len()
}

// Flips bit n.
pub fn flip_bit(ws: &mut [u64], n: usize)
    requires { n < 64 * length ws.old }
    ensures { wbit ws.new ≡ flipped (wbit ws.old) n }
{
    let q = n / 64;
    ws[q] ^= 1u64 << (63 - n % 64);
}

// Whether bit n is set.
pub fn is_set(ws: &[u64], n: usize) -> bool
    requires { n < 64 * length ws.now }
    ensures { result ≡ wbit ws.now n }
{
    (ws[n / 64] >> (63 - n % 64)) % 2 == 1
}

// All bits u places later, of which the last u are 0; zeros in front.
pub fn lift(ws: &mut [u64], u: usize)
    requires { (u < 64) × ((n : ℕ) → 64 * length ws.old ≤ n + u → wbit ws.old n ≡ false) }
    ensures { wbit ws.new ≡ later u (wbit ws.old) }
{
    if u > 0 {
        let mut before: u64 = 0;
        for word in ws.iter_mut() {
            let v = *word;
            *word = funnel(before, v, 64 - u);
            before = v;
        }
    }
}

// Writes the first n octets of v from octet at on.
fn put(v: u64, n: usize, out: &mut [u8], at: usize)
    requires { (n ≤ 8) × (at + n ≤ length out.old) }
    ensures { bit out.new ≡ joined (8 * (at + n)) (joined (8 * at) (bit out.old) (λ k. digit 64 v (k - 8 * at)))
        (bit out.old) }
{
    for j in 0..n {
        out[at + j] = ((v >> (56 - 8 * j)) % 256) as u8;
    }
}

// The octets of the bits from bit u on.
pub fn store(ws: &[u64], u: usize, out: &mut [u8])
    requires { u / 64 + (length out.old + 7) / 8 < length ws.now }
    ensures { out.new ≡ octets (length out.old) (from u (wbit ws.now)) }
{
    let q = u / 64;
    let t = u % 64;
    let whole = out.len() / 8;
    for k in 0..whole {
        put(span(ws, q + k, t), 8, out, 8 * k);
    }
    let rest = out.len() % 8;
    if rest > 0 {
        put(span(ws, q + whole, t), rest, out, 8 * whole);
    }
}
