// Correct on samples: the run on the bits read from them, which chooses by their sizes. What runs is given samples by their bit patterns.

#![tactic(auto)]

pub mod raising;
pub mod sizing;
pub mod smallest;

ghost use Rattle.std.specs.Prelude.{◌≡◌, true, false, not, ◌&&◌, ℕ, ◌*◌, ◌≤◌, ◌<◌, T, eqb, length};
ghost use Rattle.rules.specs.Codes.{code as code_of, offered};
ghost use Rattle.rules.specs.Checks.{broken as broken_of, lowest as lowest_of};
ghost use Rattle.answers.specs.Calls.{refusal as refusal_of};
ghost use Rattle.refusals.specs.Numbers.{number_in};
ghost use Rattle.vectors.specs.Vectors.{wbit};
ghost use Rattle.layout.specs.Lent.{laid};
ghost use Rattle.catalogue.specs.offer.Offers.{offer_of};
ghost use Rattle.catalogue.specs.tables.Flat.{Lends};
ghost use Rattle.word.specs.measured.Measured.{Size};
ghost use Rattle.flipping.specs.runs.Passes.{Begins, Beginning};
ghost use Rattle.flipping.specs.endings.Answers.{as_corrected};
ghost use Rattle.std.specs.Float.Ieee.{of_bits};
ghost use Rattle.std.specs.Float.{binary32};
ghost use Rattle.magnitudes.specs.Samples.{sample_of};
ghost use Rattle.magnitudes.specs.Patterns.{samples_of, pattern_of, read as read_of};
ghost use Rattle.samples.specs.Answers.{samples_answer};
ghost use Rattle.samples.specs.Found.{ran_patterns, Finds};

use catalogue::offer;
use catalogue::offer::{KnownOffer, Offer};
use flipping::endings;
use flipping::endings::Corrected;
use layout::{Parity, SYNDROME, Shape, TABLE, WORD};
use refusals::Refusal;
use word::{judging, measured, received};

// The most samples that a code takes.
const MOST: usize = 8176;

// Samples by their bit patterns, one for each bit of a word, of a code that correct on samples takes.
#[derive(Clone, Copy)]
struct Sampled<'a> {
    code: KnownOffer,
    samples: &'a [u32],
    ghost taken: { code.offer.steps ≡ true },
    ghost whole: { length samples.now ≡ code.offer.bits },
}

// What a run begins with: its code's shape, and how many checks of the word are broken and the lowest of them.
#[derive(Clone, Copy)]
struct Begun {
    shape: Shape,
    first: u32,
    lowest: u32,
}

// The parity table of blocks of this size into h, and the syndrome of the bits that y holds into z, which is handed over as zeros.
fn begin(size: usize, y: &[u64; WORD], h: &mut [u16; TABLE], z: &mut [u64; SYNDROME]) -> Begun
    requires { Size size × (wbit z.old ≡ (λ n. false)) }
    ensures { (n : ℕ) → offered n ≡ true → size ≡ (offer_of n).shape.size → (result.shape ≡ (offer_of n).shape)
        × Lends n h.new result.shape × (wbit z.new ≡ laid (code_of n) result.shape (wbit y.now))
        × (result.first ≡ broken_of (code_of n) (wbit y.now)) × (result.lowest ≡ lowest_of (code_of n) (wbit y.now)) }
{
    let sh = measured::checks(size, y, h, z);
    Begun {
        shape: sh,
        first: syndromes::broken(z),
        lowest: syndromes::lowest(z, sh),
    }
}

// The run on the bits y, whose syndrome is z, and its judgement; y is the word at its end. So many checks are broken, and so is the lowest.
fn run_judged(
    code: KnownOffer,
    samples: &[u32],
    limit: u16,
    y: &mut [u64; WORD],
    z: &[u64; SYNDROME],
    parity: Parity,
    first: u32,
    lowest: u32,
) -> Corrected
    requires { (1 ≤ parity.shape.blocks) × (length samples.now ≡ parity.shape.blocks * parity.shape.size)
        × (wbit y.old ≡ read_of samples.now)
        × Beginning parity.places.now parity.shape 0 first (wbit y.old) (wbit z.now) }
    ensures { (n : ℕ) → offered n ≡ true → code.offer ≡ offer_of n → T (offered n && not (eqb n 5))
        → Begins (code_of n) parity.entry.places.now parity.entry.shape 0 first (wbit y.old) (wbit z.now)
        → lowest ≡ lowest_of (code_of n) (wbit y.old) → Finds n samples.now limit (wbit y.new) result }
{
    let end = sizing::run(samples, y, z, parity, limit, first);
    let ran = end.ran;
    Corrected {
        number: judging::judge(code, y, ran.ending.number()),
        flips: ran.flips,
        first,
        last: end.last,
        unlike: end.unlike,
        lowest,
    }
}

// The same from the start, with room for the table and the syndrome, which is handed over as zeros.
fn run_within(
    sampled: Sampled,
    limit: u16,
    y: &mut [u64; WORD],
    h: &mut [u16; TABLE],
    z: &mut [u64; SYNDROME],
) -> Corrected
    requires { (wbit y.old ≡ read_of sampled.samples.now) × (wbit z.old ≡ (λ n. false)) }
    ensures { (n : ℕ) → offered n ≡ true → sampled.entry.code.offer ≡ offer_of n
        → Finds n sampled.entry.samples.now limit (wbit y.new) result }
{
    let o = sampled.code.offer;
    let of = o.shape;
    let begun = begin(of.size, y, h, z);
    let parity = Parity {
        places: h,
        shape: begun.shape,
    };
    run_judged(
        sampled.code,
        sampled.samples,
        limit,
        y,
        z,
        parity,
        begun.first,
        begun.lowest,
    )
}

// The run on the bits y that were read from as many samples as the code has bits, and its judgement; y is the word at its end.
fn run_read(sampled: Sampled, limit: u16, y: &mut [u64; WORD]) -> Corrected
    requires { wbit y.old ≡ read_of sampled.samples.now }
    ensures { (n : ℕ) → offered n ≡ true → sampled.entry.code.offer ≡ offer_of n
        → Finds n sampled.entry.samples.now limit (wbit y.new) result }
{
    let mut h = [0u16; TABLE];
    let mut z = [0u64; SYNDROME];
    run_within(sampled, limit, y, &mut h, &mut z)
}

// The same, into an output of the right length if the run is not refused.
fn correct_read(sampled: Sampled, limit: u16, y: &mut [u64; WORD], out: &mut [u8]) -> Corrected
    requires { (length out.old ≡ sampled.code.offer.word) × (wbit y.old ≡ read_of sampled.samples.now) }
    ensures { (n : ℕ) → offered n ≡ true → sampled.entry.code.offer ≡ offer_of n
        → as_corrected result out.new ≡ ran_patterns n sampled.entry.samples.now limit out.old }
{
    let r = run_read(sampled, limit, y);
    if r.number == 0 {
        let o = sampled.code.offer;
        received::write(y, o.unsent, o.bits, out);
    }
    r
}

// The run on samples, as many as the code has bits, into an output of the right length; 16 if one of them is not finite.
fn correct_taken(sampled: Sampled, limit: u16, out: &mut [u8]) -> Corrected
    requires { length out.old ≡ sampled.code.offer.word }
    ensures { (n : ℕ) → offered n ≡ true → sampled.entry.code.offer ≡ offer_of n
        → as_corrected result out.new ≡ samples_answer n (samples_of sampled.entry.samples.now) limit out.old }
{
    let mut y = [0u64; WORD];
    if !magnitudes::read(sampled.samples, &mut y) {
        return endings::refused_correct(16);
    }
    correct_read(sampled, limit, &mut y, out)
}

// Admits so many samples and an output of so many octets.
fn admit(o: Offer, samples: usize, octets: usize) -> Result<(), Refusal>
    ensures { number_in result ≡ refusal_of o.steps samples o.bits octets o.word }
{
    refusals::admit(o.steps, samples, o.bits, octets, o.word)
}

// The run on samples by their bit patterns, one for each bit, under a limit.
pub fn correct_patterns(code: u8, samples: &[u32], limit: u16, out: &mut [u8]) -> Corrected
    ensures { as_corrected result out.new ≡ samples_answer code (samples_of samples.now) limit out.old }
{
    let o = offer::of(code);
    match admit(o, samples.len(), out.len()) {
        Ok(()) => {
            let sampled = Sampled {
                code: KnownOffer { offer: o },
                samples,
            };
            correct_taken(sampled, limit, out)
        }
        Err(refusal) => endings::refused_correct(refusal.number()),
    }
}

// The bit pattern of a sample; of what is not a number, one that is none either.
fn pattern(s: f32) -> u32
    ensures { of_bits binary32 result ≡ s }
{
    if s == s {
        return f32::to_bits(s);
    }
    0x7fc0_0000
}

// The patterns of samples, at the front of room for them.
fn load(samples: &[f32], patterns: &mut [u32])
    requires { length samples.now ≤ length patterns.old }
    ensures { (length patterns.new ≡ length patterns.old) × ((i : ℕ) → i < length samples.now
        → of_bits binary32 (pattern_of patterns.new i) ≡ sample_of samples.now i) }
{
    for (i, s) in samples.iter().enumerate() {
        patterns[i] = pattern(*s);
    }
}

// The run on samples, as many as the code has bits, into an output of the right length; 16 if one of them is not finite.
fn correct_loaded(code: KnownOffer, samples: &[f32], limit: u16, out: &mut [u8]) -> Corrected
    requires { (code.offer.steps ≡ true) × (length samples.now ≡ code.offer.bits) × (length out.old ≡ code.offer.word) }
    ensures { (n : ℕ) → offered n ≡ true → code.offer ≡ offer_of n
        → as_corrected result out.new ≡ samples_answer n samples.now limit out.old }
{
    let mut patterns = [0u32; MOST];
    let n = samples.len();
    load(samples, &mut patterns);
    let sampled = Sampled {
        code,
        samples: &patterns[..n],
    };
    correct_taken(sampled, limit, out)
}

// The run on samples, one for each bit, under a limit.
pub fn correct_samples(code: u8, samples: &[f32], limit: u16, out: &mut [u8]) -> Corrected
    ensures { as_corrected result out.new ≡ samples_answer code samples.now limit out.old }
{
    let o = offer::of(code);
    match admit(o, samples.len(), out.len()) {
        Ok(()) => correct_loaded(KnownOffer { offer: o }, samples, limit, out),
        Err(refusal) => endings::refused_correct(refusal.number()),
    }
}
