// What a run keeps from flip to flip: the rows of the syndrome, each twice over; the starts of every block; and a bound for each block.
ghost use Rattle.std.specs.Prelude.{◌≡◌, ℕ, ◌+◌, ◌-◌, ◌*◌, ◌/◌, ◌%◌, ◌^◌, ◌<◌, ◌≤◌, length, get_or, ◌&&◌, leb, ltb, eqb};
ghost use Rattle.bits.specs.Bits.{Word, digit, sum, flipped, ◌⊕◌};
ghost use Rattle.vectors.specs.Vectors.{wbit, Holds, up_to, from};
ghost use Rattle.flipping.specs.bounds.Reading.{Twice, Placed, other, hits, light, Noted, Listed, asked, Starts};
ghost use Rattle.flipping.specs.bounds.Keeping.{Ready, Laid, Flips};
ghost use Rattle.layout.specs.Rooms.{blocks_room, rows_room, starts_room};

use layout::{BLOCK, BLOCKS, Parity, ROWS, STARTS, SYNDROME, Shape};
use planes::{add, all, spread};
use vectors::{double, double_word, flip_bit, front, trim, window};

// Where the checks of each block's bits are read, in words of this shape: the starts of every block, and how many it has.
#[derive(Drop)]
pub struct Places {
    pub shape: Shape,
    pub starts: [u16; STARTS],
    pub counts: [u8; BLOCKS],
}

// Places, and for each block how many of its checks every bit has met at least.
#[derive(Drop)]
pub struct Bounds {
    pub places: Places,
    pub met: [u8; BLOCKS],
    pub ghost ready: { Ready places.shape places.starts places.counts met },
}

// Writes one start more, if place `at` of h has an entry, and says how many there are then.
fn note(h: &[u16], at: usize, m: usize, row: usize, starts: &mut [u16], n: usize) -> usize
    requires { (at < length h.now) × (n < length starts.old) × (row + m < 2 ^ 16) }
    ensures { Noted (get_or h.now at m) m row starts.old n starts.new result }
{
    let s = h[at] as usize;
    if s < m {
        starts[n] = (row + (m - s)) as u16;
        n + 1
    } else {
        n
    }
}

// The starts of block b at its two places of row r, behind n others, and how many there are then.
fn note_row(parity: Parity, b: usize, r: usize, starts: &mut [u16], n: usize) -> usize
    requires { (b < parity.shape.blocks) × (r < parity.shape.rows) × (length starts.old ≡ starts_room) × (n + 1 < starts_room) }
    ensures { (n ≤ result) × (result ≤ n + 2) × ((e : ℕ) → e < n → get_or starts.new e 0 ≡ get_or starts.old e 0)
        × ((first : ℕ) → first ≤ n → Listed starts.old first (n - first) (3072 + parity.entry.shape.size)
        (asked parity.entry.places.now parity.entry.shape b r)
        → Listed starts.new first (result - first) (3072 + parity.entry.shape.size)
        (asked parity.entry.places.now parity.entry.shape b (r + 1))) }
{
    let h = parity.places;
    let sh = parity.shape;
    let at = 2 * (r * sh.blocks + b);
    let next = note(h, at, sh.size, 1024 * r, starts, n);
    note(h, at + 1, sh.size, 1024 * r, starts, next)
}

// The starts of block b at its eight places, and how many they are.
fn gather(parity: Parity, b: usize, starts: &mut [u16]) -> usize
    requires { (b < parity.shape.blocks) × (length starts.old ≡ starts_room) }
    ensures { (result ≤ 8) × Starts parity.entry.places.now parity.entry.shape b starts.new result
        × ((e : ℕ) → e < 8 * b → get_or starts.new e 0 ≡ get_or starts.old e 0) }
{
    let mut n = 8 * b;
    for row in 0..parity.shape.rows {
        n = note_row(parity, b, row, starts, n);
    }
    n - 8 * b
}

impl Places {
    // The starts of every block, and how many each has.
    fn gather(&mut self, parity: Parity)
        requires { parity.shape ≡ self.old.shape }
        ensures { (self.new.shape ≡ self.old.shape) × (length self.new.starts ≡ starts_room) × (length self.new.counts ≡ blocks_room)
            × Laid parity.entry.places.now self.new }
    {
        for b in 0..parity.shape.blocks {
            self.counts[b] = gather(parity, b, &mut self.starts) as u8;
        }
    }
}

// The m bits of a row that begins with word `at`.
fn row(z: &[u64], at: usize, words: usize, m: usize, v: &mut [u64])
    requires { (at + words ≤ length z.now) × (words ≤ length v.old) × (m ≤ 64 * words) }
    ensures { wbit v.new ≡ up_to m (from (64 * at) (wbit z.now)) }
{
    for k in 0..words {
        v[k] = z[at + k];
    }
    trim(v, m);
}

// The first m bits of v, twice over from word `to` of d on.
fn double_narrow_row(v: u64, m: usize, d: &mut [u64], to: usize)
    requires { (1 ≤ m) × (m ≤ 64) × (to + 2 ≤ length d.old) × (length d.old < 2 ^ 32) }
    ensures { (z : Word) → (start : ℕ) → Holds v (from start z)
        → Placed z start m (wbit d.old) (64 * to) (wbit d.new) }
{
    let p = double_word(front(v, m), m);
    d[to] = p.first;
    d[to + 1] = p.second;
}

// The m bits of a row that begins with word `at`, twice over from word `to` of d on.
fn double_row(z: &[u64], at: usize, words: usize, m: usize, v: &mut [u64], d: &mut [u64], to: usize)
    requires { (at + words ≤ length z.now) × (words ≤ length v.old) × (1 ≤ m) × (m ≤ 64 * words) × (to + 2 * words ≤ length d.old)
        × (length d.old < 2 ^ 32) }
    ensures { Placed (wbit z.now) (64 * at) m (wbit d.old) (64 * to) (wbit d.new) }
{
    if words == 1 {
        double_narrow_row(z[at], m, d, to);
        return;
    }
    row(z, at, words, m, v);
    let end = to + 2 * words;
    double(v, m, &mut d[to..end]);
}

// Every row of the syndrome twice over.
fn double_rows(z: &[u64; SYNDROME], sh: Shape, v: &mut [u64; BLOCK], d: &mut [u64; ROWS])
    requires { (1 ≤ sh.size) × (sh.size ≤ 64 * sh.words) × (sh.words ≤ 8) × (sh.rows ≤ 4) × (sh.rows * sh.words ≤ 16) }
    ensures { Twice sh sh.rows (wbit z.now) (wbit d.new) }
{
    let words = sh.words;
    let m = sh.size;
    for r in 0..sh.rows {
        double_row(z, r * words, words, m, v, d, 16 * r);
    }
}

// The doubled rows of the syndrome z, and the bounds of the blocks of this shape: no met check is counted on yet.
pub fn begin(z: &[u64; SYNDROME], parity: Parity, rows: &mut [u64; ROWS]) -> Bounds
    ensures { Twice parity.entry.shape parity.entry.shape.rows (wbit z.now) (wbit rows.new)
        × (result.places.shape ≡ parity.entry.shape) × Laid parity.entry.places.now result.places × ((b : ℕ) → get_or result.met b 0 ≡ 0) }
{
    let sh = parity.shape;
    let mut v = [0u64; BLOCK];
    double_rows(z, sh, &mut v, rows);
    let mut bounds = Bounds {
        places: Places {
            shape: sh,
            starts: [0; STARTS],
            counts: [0; BLOCKS],
        },
        met: [0; BLOCKS],
    };
    bounds.places.gather(parity);
    bounds
}

// Of 64 bits, those of which at most so many checks are met, none or one; mostly the first checks show that there is none.
fn few_met(d: &[u64], starts: &[u16], first: usize, n: usize, at: usize, met: usize) -> u64
    requires { (met ≤ 1) × (n ≤ 8) × (first + n ≤ length starts.now) × (length starts.now < 2 ^ 32) × (length d.now < 2 ^ 32)
        × ((e : ℕ) → e < n → 64 + (get_or starts.now (first + e) 0 + at) < 64 * length d.now) }
    ensures { (i : ℕ) → i < 64 → digit 64 result i
        ≡ leb n (hits (wbit d.now) starts.now first n (at + i) + met) }
{
    let mut found = u64::MAX;
    let mut spare = spread(met);
    for e in 0..n {
        let x = window(d, starts[first + e] as usize + at);
        found = (found & x) | spare;
        if found == 0 {
            return 0;
        }
        spare &= x;
    }
    found
}

// Of 64 bits, those of which at least so many checks are broken: the counts begin so far below 8, and pass 7 there.
fn many_broken(d: &[u64], starts: &[u16], first: usize, n: usize, at: usize, need: usize) -> u64
    requires { (1 ≤ need) × (need ≤ 8) × (n ≤ 8) × (first + n ≤ length starts.now) × (length starts.now < 2 ^ 32)
        × (length d.now < 2 ^ 32) × ((e : ℕ) → e < n → 64 + (get_or starts.now (first + e) 0 + at) < 64 * length d.now) }
    ensures { (i : ℕ) → i < 64 → digit 64 result i ≡ leb need (hits (wbit d.now) starts.now first n (at + i)) }
{
    let mut counts = all(8 - need);
    let mut over: u64 = 0;
    for e in 0..n {
        let more = add(counts, window(d, starts[first + e] as usize + at));
        counts = more.planes;
        over |= more.over;
    }
    over
}

// Of 64 bits from bit `at` on, how many stand ahead of bit k.
pub fn ahead(k: usize, at: usize) -> usize
    ensures { (result ≤ 64) × ((i : ℕ) → i < 64 → ltb i result ≡ ltb (at + i) k) }
{
    k.saturating_sub(at).min(64)
}

// Of the bits that are set in v, which begins with bit `at`, those from bit `begin` to before bit m.
fn between(v: u64, at: usize, begin: usize, m: usize) -> u64
    ensures { (i : ℕ) → i < 64 → digit 64 result i ≡ ((leb begin (at + i) && ltb (at + i) m) && digit 64 v i) }
{
    let c = front(v, ahead(m, at));
    c ^ front(c, ahead(begin, at))
}

// Of 64 bits, those of which at most so many of the n checks are met.
fn lightest(d: &[u64], starts: &[u16], first: usize, n: usize, at: usize, met: usize) -> u64
    requires { (n ≤ 8) × (met ≤ n) × (first + n ≤ length starts.now) × (length starts.now < 2 ^ 32) × (length d.now < 2 ^ 32)
        × ((e : ℕ) → e < n → 64 + (get_or starts.now (first + e) 0 + at) < 64 * length d.now) }
    ensures { (i : ℕ) → i < 64 → digit 64 result i
        ≡ leb n (hits (wbit d.now) starts.now first n (at + i) + met) }
{
    if met <= 1 {
        return few_met(d, starts, first, n, at, met);
    }
    if met == n {
        return u64::MAX;
    }
    many_broken(d, starts, first, n, at, n - met)
}

// Of the 64 bits of a block from bit `at` on: those from bit `begin` to before bit m that have at most so many of their n checks met.
pub fn weigh(
    d: &[u64],
    starts: &[u16],
    first: usize,
    n: usize,
    met: usize,
    at: usize,
    begin: usize,
    m: usize,
) -> u64
    requires { (n ≤ 8) × (met ≤ n) × (first + n ≤ length starts.now) × (length starts.now < 2 ^ 32) × (length d.now < 2 ^ 32)
        × ((e : ℕ) → e < n → 64 + (get_or starts.now (first + e) 0 + at) < 64 * length d.now) }
    ensures { Holds result (from at (light (wbit d.now) starts.now first n met begin m)) }
{
    let found = lightest(d, starts, first, n, at, met);
    if found == 0 {
        return 0;
    }
    between(found, at, begin, m)
}

// Flips the check at p, in both places.
fn flip_check(d: &mut [u64], p: usize, m: usize)
    requires { (1 ≤ m) × (m ≤ 512) × (p % 1024 < 2 * m) × (p < 4096) × (length d.old ≡ rows_room) }
    ensures { wbit d.new ≡ flipped (flipped (wbit d.old) p) (other m p) }
{
    flip_bit(d, p);
    if p % 1024 < m {
        flip_bit(d, p + m);
    } else {
        flip_bit(d, p - m);
    }
}

// Flips the checks of bit k of a block.
pub fn flip_checks(d: &mut [u64], starts: &[u16], first: usize, n: usize, k: usize, m: usize)
    requires { (1 ≤ m) × (m ≤ 512) × (first + n ≤ length starts.now) × (length starts.now < 2 ^ 32) × (length d.old ≡ rows_room)
        × ((e : ℕ) → e < n → (get_or starts.now (first + e) 0 + k < 4096) × ((get_or starts.now (first + e) 0 + k) % 1024 < 2 * m)) }
    ensures { (p : ℕ) → wbit d.new p ≡ wbit d.old p
        ⊕ sum n (λ e. eqb p (get_or starts.now (first + e) 0 + k)
        ⊕ eqb p (other m (get_or starts.now (first + e) 0 + k))) }
{
    for e in 0..n {
        flip_check(d, starts[first + e] as usize + k, m);
    }
}

// After a flip that broke so many checks, the bits of each block may have so many met checks fewer.
fn raise(met: &mut [u8], by: u8)
    requires { length met.old ≡ blocks_room }
    ensures { (b : ℕ) → b < 16 → get_or met.new b 0 ≡ get_or met.old b 0 - by }
{
    for m in met.iter_mut() {
        *m = m.saturating_sub(by);
    }
}

impl Bounds {
    // Flips the checks of a bit and raises the bounds; the bit has as many met checks as the bound of its block says.
    pub fn flip(&mut self, rows: &mut [u64; ROWS], bit: usize)
        requires { bit < self.old.places.shape.blocks * self.old.places.shape.size }
        ensures { (self.new.places ≡ self.old.places) × Flips self.old.places bit rows.old self.old.met rows.new self.new.met }
    {
        let sh = self.places.shape;
        let b = bit / sh.size;
        let n = self.places.counts[b] as usize;
        flip_checks(rows, &self.places.starts, 8 * b, n, bit % sh.size, sh.size);
        let by = self.met[b];
        raise(&mut self.met, by);
    }
}
