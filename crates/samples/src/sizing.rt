// The run that flips the smallest of the bits of greatest excess.
ghost use Rattle.std.specs.Prelude.{◌≡◌, List, ℕ, ◌+◌, ◌-◌, ◌*◌, ◌/◌, ◌<◌, ◌≤◌, length, IfOk};
ghost use Rattle.bits.specs.Bits.{Word, count, tally, ◌⊕◌, flipped};
ghost use Rattle.rules.specs.Codes.{Code};
ghost use Rattle.rules.specs.Checks.{broken};
ghost use Rattle.vectors.specs.Vectors.{wbit};
ghost use Rattle.layout.specs.Lent.{Fit, Lent};
ghost use Rattle.flipping.specs.bounds.Keeping.{Laid};
ghost use Rattle.magnitudes.specs.Patterns.{read as read_of};
ghost use Rattle.samples.specs.raising.Knowing.{Sampled};
ghost use Rattle.samples.specs.sizing.Passing.{Chooses, SizesTo, StandsIn, StartingIn, ComingIn, PassesIn};
ghost use Rattle.flipping.specs.runs.Passes.{Begins, Beginning};

use super::raising::{Kept, UNKNOWN};
use flipping::runs::{Ending, Ran};
use flipping::{bounds, runs};
use layout::{BLOCKS, Parity, ROWS, SYNDROME, WORD};
use word::unlike;

// A run, the broken checks at its end, and in how many bits the word then differs from the one that was read.
#[derive(Clone, Copy)]
pub struct Ended {
    pub ran: Ran,
    pub last: u32,
    pub unlike: u32,
}

// The bit that is flipped next, and by how many checks fewer are broken then.
#[derive(Clone, Copy)]
struct Flip {
    bit: usize,
    fewer: u32,
}

// What a pass comes to: the broken checks that are left, and in how many bits the word differs then.
#[derive(Clone, Copy)]
struct Passed {
    left: u32,
    unlike: u32,
}

// In how many bits the word y differs from the one that was read, once bit `bit` is flipped; before that in so many.
fn counted(samples: &[u32], y: &[u64], bit: usize, unlike: u32) -> u32
    requires { (bit < length samples.now) × (bit < 64 * length y.now) × (unlike < 65536) }
    ensures { (result ≤ unlike + 1) × (tally (read_of samples.now bit ⊕ wbit y.now bit) ≤ unlike
        → result + 2 * tally (read_of samples.now bit ⊕ wbit y.now bit) ≡ unlike + 1) }
{
    if magnitudes::is_one(samples[bit]) == vectors::is_set(y, bit) {
        return unlike + 1;
    }
    unlike.saturating_sub(1)
}

// Flips a bit of the word y, and says in how many bits y differs from what was read then; before that in so many.
fn flip_counted(samples: &[u32], y: &mut [u64; WORD], bit: usize, unlike: u32) -> u32
    requires { (length samples.now ≤ 8176) × (bit < length samples.now) × (unlike < 65536) }
    ensures { (result ≤ unlike + 1) × (wbit y.new ≡ flipped (wbit y.old) bit)
        × (tally (read_of samples.now bit ⊕ wbit y.old bit) ≤ unlike
        → result + 2 * tally (read_of samples.now bit ⊕ wbit y.old bit) ≡ unlike + 1) }
{
    let r = counted(samples, y, bit, unlike);
    vectors::flip_bit(y, bit);
    r
}

// Flips a bit in y, and in what is kept if a check is broken then: so many fewer than before are.
fn pass(
    samples: &[u32],
    y: &mut [u64; WORD],
    rows: &mut [u64; ROWS],
    kept: &mut Kept,
    flip: Flip,
    was: u32,
    unlike: u32,
) -> Passed
    requires { Sampled samples.now kept.old.bounds.places × (length samples.now ≤ 8176) × (flip.bit < length samples.now)
        × (flip.fewer ≤ was) × (unlike < 65536) }
    ensures { (kept.new.bounds.places ≡ kept.old.bounds.places)
        × (result.left ≡ was - flip.fewer) × (result.unlike ≤ unlike + 1) × (wbit y.new ≡ flipped (wbit y.old) flip.bit)
        × (tally (read_of samples.now flip.bit ⊕ wbit y.old flip.bit) ≤ unlike
        → result.unlike + 2 * tally (read_of samples.now flip.bit ⊕ wbit y.old flip.bit) ≡ unlike + 1)
        × ((c : Code) (h : List ℕ) → Lent c h kept.old.bounds.places.shape → Laid h kept.old.bounds.places → 0 < result.left
        → StandsIn c samples.now (wbit y.old) kept.old.bounds.places rows.old kept.old.bounds.met kept.old.bits
        → StandsIn c samples.now (flipped (wbit y.old) flip.bit) kept.old.bounds.places rows.new kept.new.bounds.met kept.new.bits) }
{
    let now = flip_counted(samples, y, flip.bit, unlike);
    let left = was - flip.fewer;
    if left > 0 {
        kept.flip(samples, rows, flip.bit);
    }
    Passed { left, unlike: now }
}

// What comes next for a word of which rows and blocks are kept, and that has a broken check: the bit that is flipped; or the run ends,
// stuck, or with as many flips as the limit allows.
fn comes_next(
    samples: &[u32],
    rows: &[u64; ROWS],
    kept: &mut Kept,
    limit: u16,
    flips: u32,
) -> Result<Flip, Ending>
    requires { (1 ≤ kept.old.bounds.places.shape.blocks) × Sampled samples.now kept.old.bounds.places }
    ensures { (kept.new.bounds.places ≡ kept.old.bounds.places)
        × IfOk result (λ f. (f.bit < kept.old.bounds.places.shape.blocks * kept.old.bounds.places.shape.size) × (flips < limit))
        × ((c : Code) (h : List ℕ) (y : Word) → Lent c h kept.old.bounds.places.shape
        → c.unsent ≡ 0 → Fit h kept.old.bounds.places.shape → Laid h kept.old.bounds.places → (broken c y ≡ 0 → ⊥)
        → StandsIn c samples.now y kept.old.bounds.places rows.now kept.old.bounds.met kept.old.bits
        → StandsIn c samples.now y kept.old.bounds.places rows.now kept.new.bounds.met kept.new.bits
        × Chooses c kept.old.bounds.places.shape samples.now limit flips y result) }
{
    let best = kept.choose(samples, rows);
    if best.score <= 8 {
        return Err(Ending::Stuck);
    }
    if flips >= limit as u32 {
        return Err(Ending::Limit);
    }
    Ok(Flip {
        bit: best.bit,
        fewer: best.score - 8,
    })
}

// A pass of the run, for a word y with so many broken checks, one or more: a bit is flipped, or the run ends.
fn go_once(
    samples: &[u32],
    y: &mut [u64; WORD],
    rows: &mut [u64; ROWS],
    kept: &mut Kept,
    limit: u16,
    flips: u32,
    left: u32,
    unlike: u32,
) -> Result<Passed, Ending>
    requires { (1 ≤ kept.old.bounds.places.shape.blocks) × Sampled samples.now kept.old.bounds.places
        × (unlike < 65536) × (0 < left)
        × StartingIn samples.now left (wbit y.old) kept.old.bounds.places rows.old kept.old.bounds.met kept.old.bits }
    ensures { (kept.new.bounds.places ≡ kept.old.bounds.places)
        × IfOk result (λ p. (flips < limit) × (p.unlike ≤ unlike + 1))
        × ((c : Code) (h : List ℕ) (x : Word) → Lent c h kept.old.bounds.places.shape → c.unsent ≡ 0
        → Fit h kept.old.bounds.places.shape → Laid h kept.old.bounds.places
        → ComingIn c samples.now limit x flips y.old kept.old.bounds.places rows.old kept.old.bounds.met kept.old.bits left unlike
        → PassesIn c samples.now limit x flips y.new kept.old.bounds.places rows.new kept.new.bounds.met kept.new.bits
        left unlike result) }
{
    let flip = comes_next(samples, rows, kept, limit, flips)?;
    Ok(pass(samples, y, rows, kept, flip, left, unlike))
}

// A run that ends.
fn at_end(ending: Ending, flips: u32, last: u32, unlike: u32) -> Ended
    ensures { (result.ran.ending ≡ ending) × (result.ran.flips ≡ flips) × (result.last ≡ last) × (result.unlike ≡ unlike) }
{
    Ended {
        ran: Ran { ending, flips },
        last,
        unlike,
    }
}

// The run from the word y that was read, of which rows and blocks are kept, under a limit: flips until it ends. So many checks are broken.
fn go_on(
    samples: &[u32],
    y: &mut [u64; WORD],
    rows: &mut [u64; ROWS],
    kept: &mut Kept,
    limit: u16,
    first: u32,
) -> Ended
    requires { (1 ≤ kept.old.bounds.places.shape.blocks) × Sampled samples.now kept.old.bounds.places
        × (wbit y.old ≡ read_of samples.now)
        × StartingIn samples.now first (wbit y.old) kept.old.bounds.places rows.old kept.old.bounds.met kept.old.bits }
    ensures { (c : Code) (h : List ℕ) → Lent c h kept.old.bounds.places.shape → c.unsent ≡ 0
        → Fit h kept.old.bounds.places.shape → Laid h kept.old.bounds.places → first ≡ broken c (wbit y.old)
        → StandsIn c samples.now (wbit y.old) kept.old.bounds.places rows.old kept.old.bounds.met kept.old.bits
        → SizesTo c kept.old.bounds.places.shape samples.now limit (wbit y.old) result (wbit y.new) }
{
    let mut flips: u32 = 0;
    let mut left = first;
    let mut unlike: u32 = 0;
    while left > 0 {
        match go_once(samples, y, rows, kept, limit, flips, left, unlike) {
            Ok(passed) => {
                left = passed.left;
                unlike = passed.unlike;
            }
            Err(ending) => return at_end(ending, flips, left, unlike),
        }
        flips += 1;
    }
    at_end(Ending::Quiet, flips, 0, unlike)
}

// The run from the word y that was read, with the syndrome z, of which so many checks are broken, by the bounds of its blocks.
fn run_bounded(
    samples: &[u32],
    y: &mut [u64; WORD],
    z: &[u64; SYNDROME],
    parity: Parity,
    limit: u16,
    first: u32,
) -> Ended
    requires { (1 ≤ parity.shape.blocks) × (length samples.now ≡ parity.shape.blocks * parity.shape.size)
        × (wbit y.old ≡ read_of samples.now)
        × Beginning parity.places.now parity.shape 0 first (wbit y.old) (wbit z.now) }
    ensures { (c : Code) → Begins c parity.entry.places.now parity.entry.shape 0 first (wbit y.old) (wbit z.now)
        → SizesTo c parity.entry.shape samples.now limit (wbit y.old) result (wbit y.new) }
{
    let mut rows = [0u64; ROWS];
    let mut kept = Kept {
        bounds: bounds::begin(z, parity, &mut rows),
        bits: [UNKNOWN; BLOCKS],
    };
    go_on(samples, y, &mut rows, &mut kept, limit, first)
}

// The words that hold a word whose blocks one word holds each.
const NARROW: usize = 16;

// The run of `runs` that ended so, and in how many bits the words y at its end differ from x, as they were read.
fn ended_narrow(samples: &[u32], x: &[u64; NARROW], y: &[u64; WORD], end: runs::Ended) -> Ended
    requires { length samples.now ≤ 1024 }
    ensures { (result.ran.ending ≡ end.ran.ending) × (result.ran.flips ≡ end.ran.flips) × (result.last ≡ end.last)
        × (result.unlike ≡ count (64 * ((length samples.now + 63) / 64))
        (λ i. wbit x.now i ⊕ wbit y.now i)) }
{
    Ended {
        ran: end.ran,
        last: end.last,
        unlike: unlike::unlike_words(x, y, (samples.len() + 63) / 64) as u32,
    }
}

// The same where one word holds a block: the run of `runs`, and the words as they were read beside those at its end.
fn run_narrow(
    samples: &[u32],
    y: &mut [u64; WORD],
    z: &[u64; SYNDROME],
    parity: Parity,
    limit: u16,
    first: u32,
) -> Ended
    requires { (1 ≤ parity.shape.blocks) × (length samples.now ≡ parity.shape.blocks * parity.shape.size)
        × Beginning parity.places.now parity.shape 0 first (wbit y.old) (wbit z.now) × (parity.shape.words ≡ 1) }
    ensures { (c : Code) → Begins c parity.entry.places.now parity.entry.shape 0 first (wbit y.old) (wbit z.now)
        → SizesTo c parity.entry.shape samples.now limit (wbit y.old) result (wbit y.new) }
{
    let mut x = [0u64; NARROW];
    x.copy_from_slice(&y[..NARROW]);
    let end = runs::run_narrow(samples, y, z, parity, 0, limit, first);
    ended_narrow(samples, &x, y, end)
}

// The run from the word y that was read, with the syndrome z, of which so many checks are broken, under a limit: flips until it ends.
pub fn run(
    samples: &[u32],
    y: &mut [u64; WORD],
    z: &[u64; SYNDROME],
    parity: Parity,
    limit: u16,
    first: u32,
) -> Ended
    requires { (1 ≤ parity.shape.blocks) × (length samples.now ≡ parity.shape.blocks * parity.shape.size)
        × (wbit y.old ≡ read_of samples.now)
        × Beginning parity.places.now parity.shape 0 first (wbit y.old) (wbit z.now) }
    ensures { (c : Code) → Begins c parity.entry.places.now parity.entry.shape 0 first (wbit y.old) (wbit z.now)
        → SizesTo c parity.entry.shape samples.now limit (wbit y.old) result (wbit y.new) }
{
    if first == 0 {
        return at_end(Ending::Quiet, 0, 0, 0);
    }
    if parity.shape.words == 1 {
        return run_narrow(samples, y, z, parity, limit, first);
    }
    run_bounded(samples, y, z, parity, limit, first)
}
