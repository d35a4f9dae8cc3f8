// The word of a telecommand code: the checks that its information breaks, solved by steps that add turned copies of one row to another,
// where one word holds a row.
ghost use Rattle.std.specs.Prelude.{◌≡◌, true, false, ℕ, ◌*◌, ◌<◌, ◌≤◌, T, length};
ghost use Rattle.bits.specs.Bits.{Word, bit};
ghost use Rattle.rules.specs.Codes.{information, offered};
ghost use Rattle.rules.specs.Codes.{code as code_of};
ghost use Rattle.vectors.specs.Vectors.{wbit, both, Holds, up_to};
ghost use Rattle.layout.specs.Lent.{laid};
ghost use Rattle.syndromes.specs.Rows.{plus, doubled, turned, block_rows, word_rows};
ghost use Rattle.catalogue.specs.offer.Offers.{offer_of};
ghost use Rattle.encoder.specs.steps.Steps.{rows_in, stepped, walked};
ghost use Rattle.encoder.specs.parityrows.Rows.{held, Fits, copies, steps_of, Within, Shaped, narrow_shape, end_rows, Informs, word_of};

use super::parityrows;
use super::parityrows::END;
use catalogue::offer::KnownOffer;
use catalogue::{offer, tables};
use layout::{Parity, SYNDROME, Shape, TABLE};
use vectors::Pair;

// M = 16. A step: the row that is added to, the row whose turned copies are added, and the shifts.
const STEPS16: [[u16; 10]; 15] = [
    [3, 2, 1, END, END, END, END, END, END, END],
    [3, 1, 12, 14, END, END, END, END, END, END],
    [0, 2, 0, END, END, END, END, END, END, END],
    [0, 1, 11, END, END, END, END, END, END, END],
    [0, 0, 12, 14, END, END, END, END, END, END],
    [0, 3, 11, 13, END, END, END, END, END, END],
    [0, 0, 10, 15, END, END, END, END, END, END],
    [0, 0, 7, 12, 14, 15, END, END, END, END],
    [3, 0, 3, 4, 5, END, END, END, END, END],
    [3, 3, 12, 14, END, END, END, END, END, END],
    [3, 3, 4, 8, END, END, END, END, END, END],
    [1, 3, 0, END, END, END, END, END, END, END],
    [1, 0, 7, END, END, END, END, END, END, END],
    [2, 1, 11, END, END, END, END, END, END, END],
    [2, 0, 3, END, END, END, END, END, END, END],
];

// M = 32.
const STEPS32: [[u16; 10]; 15] = [
    [3, 2, 26, END, END, END, END, END, END, END],
    [3, 1, 23, 25, END, END, END, END, END, END],
    [0, 2, 20, END, END, END, END, END, END, END],
    [0, 1, 17, END, END, END, END, END, END, END],
    [0, 0, 2, 8, END, END, END, END, END, END],
    [0, 3, 20, 26, END, END, END, END, END, END],
    [0, 0, 8, 13, 29, 31, END, END, END, END],
    [0, 0, 5, 6, 9, 15, END, END, END, END],
    [3, 0, 11, 13, 15, END, END, END, END, END],
    [3, 3, 2, 8, END, END, END, END, END, END],
    [3, 3, 4, 16, END, END, END, END, END, END],
    [1, 3, 1, END, END, END, END, END, END, END],
    [1, 0, 20, END, END, END, END, END, END, END],
    [2, 1, 29, END, END, END, END, END, END, END],
    [2, 0, 21, END, END, END, END, END, END, END],
];

// M = 64.
const STEPS64: [[u16; 10]; 15] = [
    [3, 2, 3, END, END, END, END, END, END, END],
    [3, 1, 58, 59, END, END, END, END, END, END],
    [0, 2, 43, END, END, END, END, END, END, END],
    [0, 1, 35, END, END, END, END, END, END, END],
    [0, 0, 31, 32, END, END, END, END, END, END],
    [0, 3, 8, 62, END, END, END, END, END, END],
    [0, 0, 24, 51, END, END, END, END, END, END],
    [0, 0, 15, 19, 36, 49, END, END, END, END],
    [0, 0, 5, 22, 37, 46, 48, 51, 56, 59],
    [3, 0, 20, 21, 46, END, END, END, END, END],
    [3, 3, 0, 2, 33, 34, END, END, END, END],
    [1, 3, 37, END, END, END, END, END, END, END],
    [1, 0, 26, END, END, END, END, END, END, END],
    [2, 1, 56, END, END, END, END, END, END, END],
    [2, 0, 43, END, END, END, END, END, END, END],
];

// The copies of a doubled row that are turned by the shifts of a step, summed; one word holds the row.
fn turns(d: Pair, step: &[u16], size: usize) -> u64
    requires { (size ≤ 64) × (length step.now ≡ 10) }
    ensures { Holds result (copies size step.now (both d)) }
{
    let mut sum: u64 = 0;
    for shift in &step[2..] {
        if *shift as usize >= size {
            break;
        }
        sum ^= vectors::funnel(d.first, d.second, *shift as usize);
    }
    sum
}

// A step where one word holds a row.
fn step_narrow(step: &[u16], sh: Shape, z: &mut [u64; SYNDROME])
    requires { Fits sh × (sh.words ≡ 1) × (length step.now ≡ 10) × T (rows_in sh.rows step.now) }
    ensures { (f : ℕ → Word) → wbit z.old ≡ held sh f
        → wbit z.new ≡ held sh (stepped sh.size step.now f) }
{
    let d = vectors::double_word(z[step[1] as usize], sh.size);
    vectors::add_word(
        vectors::front(turns(d, step, sh.size), sh.size),
        z,
        step[0] as usize,
    );
}

// The list of steps for M, where one word holds a row.
fn narrow_steps(size: usize) -> [[u16; 10]; 15]
    requires { (size ≡ 16 → ⊥) → (size ≡ 32 → ⊥) → size ≡ 64 }
    ensures { result ≡ steps_of size }
{
    match size {
        16 => STEPS16,
        32 => STEPS32,
        _ => STEPS64,
    }
}

// The steps, one after the other, where one word holds a row.
fn walk_narrow(sh: Shape, z: &mut [u64; SYNDROME])
    requires { Fits sh × (sh.words ≡ 1) × Within sh.rows (steps_of sh.size)
        × ((sh.size ≡ 16 → ⊥) → (sh.size ≡ 32 → ⊥) → sh.size ≡ 64) }
    ensures { (f : ℕ → Word) → wbit z.old ≡ held sh f
        → wbit z.new ≡ held sh (walked sh.size (steps_of sh.size) 15 f) }
{
    let steps = narrow_steps(sh.size);
    for step in &steps {
        step_narrow(step, sh, z);
    }
}

// Adds information block b, of the words y, to the rows, where one word holds it.
fn add_narrow_block(y: &[u64], parity: Parity, b: usize, z: &mut [u64; SYNDROME])
    requires { (parity.shape.words ≡ 1) × (parity.shape.blocks ≡ 8) × (b < 4) × (length y.now ≡ 5) }
    ensures { wbit z.new ≡ plus (wbit z.old)
        (block_rows parity.entry b (turned (doubled parity.entry.shape.size (wbit y.now) b))) }
{
    let size = parity.shape.size;
    let v = vectors::front(vectors::window(y, b * size), size);
    syndromes::add_block(vectors::double_word(v, size), parity, b, z);
}

// Adds the information blocks to the rows, where one word holds a block.
fn add_narrow(octets: &[u8], parity: Parity, z: &mut [u64; SYNDROME])
    requires { (parity.shape.words ≡ 1) × (parity.shape.blocks ≡ 8) × (length octets.now ≤ 32) × (wbit z.old ≡ (λ i. false)) }
    ensures { wbit z.new ≡ word_rows parity.entry (bit octets.now) 4 }
{
    let mut y = [0u64; 5];
    vectors::load(octets, &mut y);
    for b in 0..4 {
        add_narrow_block(&y, parity, b, z);
    }
}

// The checks that the information breaks while the parity is 0, into z, which is handed over as zeros, where one word holds a row.
fn lay_narrow(octets: &[u8], sh: Shape, z: &mut [u64; SYNDROME])
    requires { Shaped sh × (sh ≡ narrow_shape sh.size) × ((sh.size ≡ 16 → ⊥) → (sh.size ≡ 32 → ⊥) → sh.size ≡ 64)
        × (length octets.now ≤ 32) × (wbit z.old ≡ (λ i. false)) }
    ensures { (n : ℕ) → offered n ≡ true → sh ≡ (offer_of n).shape
        → bit octets.now ≡ up_to (information (code_of n)) (bit octets.now)
        → wbit z.new ≡ laid (code_of n) sh (bit octets.now) }
{
    let mut h = [0u16; TABLE];
    tables::lend_narrow(sh.size, &mut h);
    let parity = Parity {
        places: &h,
        shape: sh,
    };
    add_narrow(octets, parity, z);
    syndromes::trim_rows(z, sh);
}

// The parity of the information of a telecommand code, row after row, into z, which is handed over as zeros.
fn solve_narrow(octets: &[u8], sh: Shape, z: &mut [u64; SYNDROME])
    requires { Shaped sh × (sh ≡ narrow_shape sh.size) × ((sh.size ≡ 16 → ⊥) → (sh.size ≡ 32 → ⊥) → sh.size ≡ 64)
        × (length octets.now ≤ 32) × (wbit z.old ≡ (λ i. false)) }
    ensures { (n : ℕ) → offered n ≡ true → sh ≡ (offer_of n).shape
        → bit octets.now ≡ up_to (information (code_of n)) (bit octets.now)
        → wbit z.new ≡ held sh (end_rows n sh.size (bit octets.now)) }
{
    lay_narrow(octets, sh, z);
    walk_narrow(sh, z);
}

// The word of a telecommand code.
pub fn encode(code: KnownOffer, information: &[u8], word: &mut [u8])
    requires { (code.offer.shape.size ≡ 511 → ⊥) × (length information.now ≡ code.offer.information)
        × (length word.old ≡ code.offer.word) }
    ensures { (n : ℕ) → offered n ≡ true → code.offer ≡ offer_of n → Informs n information.now
        → word.new ≡ word_of n information.now }
{
    let o = code.offer;
    let size = o.shape.size;
    let sh = offer::telecommand_shape(size);
    let mut z = [0u64; SYNDROME];
    solve_narrow(information, sh, &mut z);
    parityrows::write(information, 4 * size, &z, sh, 1, word);
}
