// What comes next for a word whose syndrome is held, and the flipping run.
ghost use Rattle.std.specs.Prelude.{◌≡◌, List, [], ℕ, ◌*◌, ◌/◌, ◌≤◌, ◌<◌, length};
ghost use Rattle.bits.specs.Bits.{Word, flipped};
ghost use Rattle.rules.specs.Codes.{Code};
ghost use Rattle.rules.specs.Checks.{broken};
ghost use Rattle.rules.specs.Flipping.{by_excess};
ghost use Rattle.vectors.specs.Vectors.{wbit};
ghost use Rattle.layout.specs.declared.Shape.{Shape};
ghost use Rattle.layout.specs.Lent.{Lent, laid};
ghost use Rattle.magnitudes.specs.Patterns.{smaller};
ghost use Rattle.magnitudes.specs.Sizes.{by_size};
ghost use Rattle.flipping.specs.runs.Passes.{Holding, Begins, Beginning, KeptIn, MetIn, RowsIn, InsideIn};
ghost use Rattle.flipping.specs.runs.Passes.{Known, Running, Flipping, Chooses};
ghost use Rattle.flipping.specs.runs.Endings.{number_of};
ghost use Rattle.flipping.specs.runs.Passes.{Within, comes_next_of, RunsTo};

use super::bounds::Bounds;
use super::choice::Best;
use super::narrow::NARROW_ROWS;
use super::{bounds, narrow};
use layout::{Parity, ROWS, SYNDROME, WORD};

// What comes next: quiet; or stuck, with the greatest excess and the lowest bit that has it; or this bit, of this excess, is to be flipped.
#[derive(Clone, Copy)]
pub enum Next {
    Quiet,
    Stuck(usize, i8),
    Flip(usize, i8),
}

// How a run ends: quiet, stuck, or with as many flips as the limit allows.
#[derive(Clone, Copy)]
pub enum Ending {
    Quiet = 0,
    Stuck = 5,
    Limit = 6,
}

impl Ending {
    // The number by which the calls' records give an ending.
    pub fn number(self) -> u8
        ensures { result ≡ number_of self }
    {
        self as u8
    }
}

// How a run ended, and after how many flips.
#[derive(Clone, Copy)]
pub struct Ran {
    pub ending: Ending,
    pub flips: u32,
}

// A run, and the broken checks at its end.
#[derive(Clone, Copy)]
pub struct Ended {
    pub ran: Ran,
    pub last: u32,
}

// What comes next for a word that has a broken check and the syndrome z, by the bounds of its blocks; bits before bit `from` are not sent.
fn next_bounded(z: &[u64; SYNDROME], parity: Parity, from: usize) -> Next
    requires { (1 ≤ parity.shape.blocks) × (from < parity.shape.size) × Holding parity.places.now parity.shape (wbit z.now) }
    ensures { Within (parity.entry.shape.blocks * parity.entry.shape.size) result
        × ((c : Code) → Lent c parity.entry.places.now parity.entry.shape → c.unsent ≡ from → (x : Word)
        → wbit z.now ≡ laid c parity.entry.shape x → (broken c x ≡ 0 → ⊥) → by_excess c x ≡ comes_next_of result) }
{
    let mut rows = [0u64; ROWS];
    let mut bounds = bounds::begin(z, parity, &mut rows);
    let best = bounds.choose(&rows, from);
    let excess = best.score as i8 - 8;
    if best.score <= 8 {
        return Next::Stuck(best.bit, excess);
    }
    Next::Flip(best.bit, excess)
}

// The same where one word holds a block: a bit that is to be flipped shows at once. All bits have equal sizes.
fn next_narrow(z: &[u64; SYNDROME], parity: Parity, from: usize) -> Next
    requires { (1 ≤ parity.shape.blocks) × (from < parity.shape.size)
        × Holding parity.places.now parity.shape (wbit z.now) × (parity.shape.words ≡ 1) }
    ensures { Within (parity.entry.shape.blocks * parity.entry.shape.size) result
        × ((c : Code) → Lent c parity.entry.places.now parity.entry.shape → c.unsent ≡ from → (x : Word)
        → wbit z.now ≡ laid c parity.entry.shape x → (broken c x ≡ 0 → ⊥) → by_excess c x ≡ comes_next_of result) }
{
    let equal = [0u32; 0];
    let mut rows = [0u64; NARROW_ROWS];
    narrow::begin(z, parity.shape, &mut rows);
    let best = narrow::choose(&equal, &rows, parity, from);
    if best.score > 8 {
        let excess = best.score as i8 - 8;
        return Next::Flip(best.bit, excess);
    }
    next_bounded(z, parity, from)
}

// What comes next for the word whose syndrome is z; bits before bit `from` are not sent.
pub fn comes_next(z: &[u64; SYNDROME], parity: Parity, from: usize) -> Next
    requires { (1 ≤ parity.shape.blocks) × (from < parity.shape.size) × Holding parity.places.now parity.shape (wbit z.now) }
    ensures { Within (parity.entry.shape.blocks * parity.entry.shape.size) result
        × ((c : Code) → Lent c parity.entry.places.now parity.entry.shape → c.unsent ≡ from → (x : Word)
        → wbit z.now ≡ laid c parity.entry.shape x → by_excess c x ≡ comes_next_of result) }
{
    if syndromes::is_quiet(z) {
        return Next::Quiet;
    }
    if parity.shape.words == 1 {
        return next_narrow(z, parity, from);
    }
    next_bounded(z, parity, from)
}

// A run that ends.
fn at_end(ending: Ending, flips: u32, last: u32) -> Ended
    ensures { (result.ran.ending ≡ ending) × (result.ran.flips ≡ flips) × (result.last ≡ last) }
{
    Ended {
        ran: Ran { ending, flips },
        last,
    }
}

// What a run keeps of its word from flip to flip: it chooses the bit that is next, and follows when that is flipped.
trait Keeper {
    // What is kept is that of this word under this code.
    ghost stands: { Self → Code → Word → Type 0 };

    // And this bit may be flipped.
    ghost chosen: { Self → Code → Word → ℕ → Type 0 };

    // The samples whose sizes tell bits of equal excess apart; none, where all bits have equal sizes.
    ghost sizes: { Self → List ℕ };

    // The bit that is next, by its score.
    fn choose(&mut self) -> Best
        requires { Known (stands self.old) }
        ensures { (sizes self.new ≡ sizes self.old) × ((c : Code) (y : Word) → stands self.old c y → (broken c y ≡ 0 → ⊥)
            → Chooses (by_size (smaller (sizes self.old)) c) c y result × (8 < result.score → chosen self.new c y result.bit)) };

    // Flips a bit of the word, and what is kept follows.
    fn flip(&mut self, y: &mut [u64; WORD], bit: usize)
        requires { Flipping (chosen self.old) (wbit y.old) bit }
        ensures { (sizes self.new ≡ sizes self.old) × (wbit y.new ≡ flipped (wbit y.old) bit)
            × ((c : Code) → chosen self.old c (wbit y.old) bit → stands self.new c (flipped (wbit y.old) bit)) };
}

// What a run by the bounds of the blocks keeps; bits before bit `from` are not sent.
#[derive(Drop)]
struct ByBounds<'a> {
    bounds: &'a mut Bounds,
    rows: &'a mut [u64; ROWS],
    from: usize,
}

impl<'a> Keeper for ByBounds<'a> {
    ghost stands = { λ s. KeptIn s.bounds.now.places s.from s.rows.now s.bounds.now.met };

    ghost chosen = { λ s. MetIn s.bounds.now.places s.from s.rows.now s.bounds.now.met };

    ghost sizes = { λ s. [] };

    fn choose(&mut self) -> Best {
        self.bounds.choose(self.rows, self.from)
    }

    fn flip(&mut self, y: &mut [u64; WORD], bit: usize) {
        vectors::flip_bit(y, bit);
        self.bounds.flip(self.rows, bit);
    }
}

// What a run by the sizes of the samples keeps where one word holds a block: as many samples as bits, or none, where all bits have equal
// sizes.
#[derive(Drop)]
struct ByRows<'a> {
    samples: &'a [u32],
    parity: Parity<'a>,
    rows: [u64; NARROW_ROWS],
    from: usize,
    ghost narrow: { parity.shape.words ≡ 1 },
    ghost some: { 1 ≤ parity.shape.blocks },
    ghost begins: { from < parity.shape.size },
    ghost sized: { 0 < length samples.now → (length samples.now ≡ parity.shape.blocks * parity.shape.size) × (from ≡ 0) },
}

impl<'a> Keeper for ByRows<'a> {
    ghost stands = { λ s. RowsIn s.parity.places.now s.parity.shape s.from s.rows };

    ghost chosen = { λ s. InsideIn s.parity.places.now s.parity.shape s.from s.rows };

    ghost sizes = { λ s. s.samples.now };

    fn choose(&mut self) -> Best {
        let samples = self.samples;
        narrow::choose(samples, &self.rows, self.parity, self.from)
    }

    fn flip(&mut self, y: &mut [u64; WORD], bit: usize) {
        narrow::flip(y, &mut self.rows, self.parity, bit);
    }
}

// The run from the word y, of which this is kept, under a limit: flips until it ends. So many checks are broken.
fn go_on<K: Keeper>(kept: &mut K, y: &mut [u64; WORD], limit: u16, first: u32) -> Ended
    requires { Running (K.stands kept.old) first (wbit y.old) }
    ensures { (c : Code) (sh : Shape) → K.stands kept.old c (wbit y.old) → first ≡ broken c (wbit y.old)
        → RunsTo (by_size (smaller (K.sizes kept.old)) c) c sh limit (wbit y.old) result.ran (wbit y.new) (laid c sh (wbit y.new))
        × (result.last ≡ broken c (wbit y.new)) }
{
    let most = limit as u32;
    let mut flips: u32 = 0;
    let mut left = first;
    while left > 0 {
        let best = kept.choose();
        let top = best.score;
        if top <= 8 {
            return at_end(Ending::Stuck, flips, left);
        }
        if flips >= most {
            return at_end(Ending::Limit, flips, left); // no flip more
        }
        kept.flip(y, best.bit);
        left -= top - 8;
        flips += 1;
    }
    at_end(Ending::Quiet, flips, 0)
}

// The run from the word y with the syndrome z, of which so many checks are broken, by the bounds of its blocks.
fn run_bounded(
    y: &mut [u64; WORD],
    z: &[u64; SYNDROME],
    parity: Parity,
    from: usize,
    limit: u16,
    first: u32,
) -> Ended
    requires { (1 ≤ parity.shape.blocks) × (from < parity.shape.size)
        × Beginning parity.places.now parity.shape from first (wbit y.old) (wbit z.now) }
    ensures { (c : Code) → Begins c parity.entry.places.now parity.entry.shape from first (wbit y.old) (wbit z.now)
        → RunsTo (by_excess c) c parity.entry.shape limit (wbit y.old) result.ran (wbit y.new) (laid c parity.entry.shape (wbit y.new))
        × (result.last ≡ broken c (wbit y.new)) }
{
    let mut rows = [0u64; ROWS];
    let mut bounds = bounds::begin(z, parity, &mut rows);
    let mut kept = ByBounds {
        bounds: &mut bounds,
        rows: &mut rows,
        from,
    };
    go_on(&mut kept, y, limit, first)
}

// The run by the sizes of the samples, where one word holds a block: as many samples as bits, or none, where all bits have equal sizes.
pub fn run_narrow(
    samples: &[u32],
    y: &mut [u64; WORD],
    z: &[u64; SYNDROME],
    parity: Parity,
    from: usize,
    limit: u16,
    first: u32,
) -> Ended
    requires { (1 ≤ parity.shape.blocks) × (from < parity.shape.size)
        × (0 < length samples.now → (length samples.now ≡ parity.shape.blocks * parity.shape.size) × (from ≡ 0))
        × Beginning parity.places.now parity.shape from first (wbit y.old) (wbit z.now) × (parity.shape.words ≡ 1) }
    ensures { (c : Code) → Begins c parity.entry.places.now parity.entry.shape from first (wbit y.old) (wbit z.now)
        → RunsTo (by_size (smaller samples.now) c) c parity.entry.shape limit (wbit y.old) result.ran (wbit y.new)
        (laid c parity.entry.shape (wbit y.new)) × (result.last ≡ broken c (wbit y.new)) }
{
    let mut rows = [0u64; NARROW_ROWS];
    narrow::begin(z, parity.shape, &mut rows);
    let mut kept = ByRows {
        samples,
        parity,
        rows,
        from,
    };
    go_on(&mut kept, y, limit, first)
}

// The run from the word y with the syndrome z, of which so many checks are broken, under a limit: flips until it ends.
pub fn run(
    y: &mut [u64; WORD],
    z: &[u64; SYNDROME],
    parity: Parity,
    from: usize,
    limit: u16,
    first: u32,
) -> Ended
    requires { (1 ≤ parity.shape.blocks) × (from < parity.shape.size)
        × Beginning parity.places.now parity.shape from first (wbit y.old) (wbit z.now) }
    ensures { (c : Code) → Begins c parity.entry.places.now parity.entry.shape from first (wbit y.old) (wbit z.now)
        → RunsTo (by_excess c) c parity.entry.shape limit (wbit y.old) result.ran (wbit y.new) (laid c parity.entry.shape (wbit y.new))
        × (result.last ≡ broken c (wbit y.new)) }
{
    if first == 0 {
        return at_end(Ending::Quiet, 0, 0);
    }
    if parity.shape.words == 1 {
        let equal = [0u32; 0];
        return run_narrow(&equal, y, z, parity, from, limit, first);
    }
    run_bounded(y, z, parity, from, limit, first)
}
