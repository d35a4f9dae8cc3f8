// The word of a near-Earth code: the checks that its information breaks, solved by steps that add turned copies of one row to another,
// where eight words hold a row.
ghost use Rattle.std.specs.Prelude.{◌≡◌, Bool, true, false, ℕ, ◌+◌, ◌-◌, ◌*◌, ◌^◌, ◌<◌, ◌≤◌, T, length};
ghost use Rattle.bits.specs.Bits.{Word, bit, number, tally, ◌⊕◌};
ghost use Rattle.rules.specs.Codes.{information, offered};
ghost use Rattle.rules.specs.Codes.{code as code_of};
ghost use Rattle.vectors.specs.Vectors.{wbit, Holds, up_to, later, added, twice};
ghost use Rattle.layout.specs.Lent.{laid};
ghost use Rattle.layout.specs.Rooms.{doubled_room, syndrome_room};
ghost use Rattle.syndromes.specs.Rows.{plus, doubled, turned, block_rows, word_rows};
ghost use Rattle.catalogue.specs.offer.Offers.{offer_of};
ghost use Rattle.word.specs.ownparity.Odd.{odd_block, odd_together_of};
ghost use Rattle.encoder.specs.steps.Steps.{source, rows_in, stepped, walked};
ghost use Rattle.encoder.specs.parityrows.Rows.{held, Kept, two_rows, Fits, copies, steps_of, Within, Shaped};
ghost use Rattle.encoder.specs.parityrows.Rows.{wide_shape, end_rows, Informs, word_of};

use super::parityrows;
use super::parityrows::END;
use catalogue::offer::{KnownOffer, NEAR_EARTH};
use catalogue::tables;
use layout::{BLOCK, DOUBLED, Parity, SYNDROME, Shape, TABLE};
use syndromes::addends::Doubled;
use word::received::Sent;
use word::{ownparity, received};

// M = 511.
const STEPS511: [[u16; 10]; 15] = [
    [1, 1, 247, END, END, END, END, END, END, END],
    [1, 0, 51, 382, END, END, END, END, END, END],
    [1, 1, 61, 151, 187, 204, 212, 254, 271, END],
    [1, 1, 72, 106, 122, 206, 209, 240, 331, END],
    [1, 1, 31, 175, 182, 243, 275, 443, 449, END],
    [1, 1, 39, 62, 350, 364, 375, 387, 486, END],
    [1, 1, 78, 124, 189, 217, 239, 263, 461, END],
    [1, 1, 33, 48, 189, 281, 411, 444, 467, END],
    [1, 1, 88, 139, 154, 184, 399, 465, 466, END],
    [1, 1, 102, 111, 132, 192, 243, 245, 335, END],
    [0, 1, 36, 261, END, END, END, END, END, END],
    [0, 0, 460, 477, 494, END, END, END, END, END],
    [0, 0, 307, 375, 443, END, END, END, END, END],
    [0, 0, 206, 239, 478, END, END, END, END, END],
    [0, 0, 313, 379, 445, END, END, END, END, END],
];

// Doubles the row whose copies a step adds.
fn double_row(z: &[u64], step: &[u16], sh: Shape, d: &mut [u64])
    requires { Fits sh × (length d.old ≡ doubled_room) × (length step.now ≡ 10) × T (rows_in sh.rows step.now)
        × (length z.now ≡ syndrome_room) × Kept sh (wbit z.now) }
    ensures { (f : ℕ → Word) → wbit z.now ≡ held sh f
        → wbit d.new ≡ twice sh.size (up_to sh.size (f (source step.now))) }
{
    let at = step[1] as usize * sh.words;
    let end = at + sh.words;
    vectors::double(&z[at..end], sh.size, d);
}

// Adds a doubled row to the w words of a row from word at on, turned by each of the shifts of a step.
fn add_turns(
    d: &[u64; DOUBLED],
    step: &[u16],
    size: usize,
    z: &mut [u64; SYNDROME],
    at: usize,
    w: usize,
)
    requires { (length step.now ≡ 10) × (size ≤ 64 * w) × (w ≤ 8) × (at + w ≤ syndrome_room) }
    ensures { wbit z.new ≡ added (wbit z.old) (64 * at) (64 * (at + w))
        (copies size step.now (wbit d.now)) }
{
    for shift in &step[2..] {
        if *shift as usize >= size {
            break;
        }
        vectors::add_turned(d, *shift as usize, z, at, w);
    }
}

// A step where more words hold a row; d has room for a doubled one.
fn step_wide(step: &[u16], sh: Shape, d: &mut [u64; DOUBLED], z: &mut [u64; SYNDROME])
    requires { Fits sh × (length step.now ≡ 10) × T (rows_in sh.rows step.now) × Kept sh (wbit z.old) }
    ensures { (f : ℕ → Word) → wbit z.old ≡ held sh f
        → wbit z.new ≡ held sh (stepped sh.size step.now f) }
{
    double_row(z, step, sh, d);
    add_turns(d, step, sh.size, z, step[0] as usize * sh.words, sh.words);
    syndromes::trim_rows(z, sh);
}

// The same where more words hold it, for M = 511.
fn walk_wide(sh: Shape, z: &mut [u64; SYNDROME])
    requires { Fits sh × (sh.size ≡ 511) × Within sh.rows (steps_of sh.size) × Kept sh (wbit z.old) }
    ensures { (f : ℕ → Word) → wbit z.old ≡ held sh f
        → wbit z.new ≡ held sh (walked sh.size (steps_of sh.size) 15 f) }
{
    let steps = STEPS511;
    let mut d = [0u64; DOUBLED];
    for step in &steps {
        step_wide(step, sh, &mut d, z);
    }
}

// A word of ones for 1, and of zeros for 0.
fn ones_if(odd: u64) -> u64
    ensures { (b : Bool) → odd ≡ tally b → Holds result (λ i. b) }
{
    if odd == 1 { 0xFFFFFFFFFFFFFFFF } else { 0 }
}

// Adds a word of 64 equal bits to each word of row r, of 511 bits.
fn invert_row(z: &mut [u64; SYNDROME], r: usize, v: u64)
    requires { r < 2 }
    ensures { (b : Bool) → Holds v (λ i. b)
        → wbit z.new ≡ added (wbit z.old) (512 * r) (512 * (r + 1)) (up_to 511 (λ i. b)) }
{
    let last = 8 * r + 7;
    for k in 8 * r..last {
        vectors::add_word(v, z, k);
    }
    vectors::add_word(vectors::front(v, 63), z, last);
}

// Inverts the rows that end with every bit the other way, by a number that has a bit for each block, set where its bits are odd in number.
fn invert(odd: u64, z: &mut [u64; SYNDROME])
    ensures { (x : Word) (f : ℕ → Word) → odd ≡ number 16 (odd_block x) → wbit z.old ≡ two_rows f
        → wbit z.new ≡ two_rows (λ r i. f r i ⊕ odd_together_of x r) }
{
    let together = ownparity::odd_together(odd);
    invert_row(z, 0, ones_if(together.first));
    invert_row(z, 1, ones_if(together.second));
}

// Cuts information block b straight from the octets and doubles it into d; part has room for a block. The number has one bit more, set
// where the block's bits are odd in number.
fn double_block(
    sent: Sent,
    b: usize,
    odd: u64,
    part: &mut [u64; BLOCK],
    d: &mut [u64; DOUBLED],
) -> u64
    requires { (b < 14) × (odd < 2 ^ 14) × (7154 ≤ 8 * length sent.octets.now + sent.unsent) }
    ensures odd { result ≡ 2 * odd + tally (odd_block (later sent.entry.unsent (bit sent.entry.octets.now)) b) }
    ensures twofold { wbit d.new ≡ doubled 511 (later sent.entry.unsent (bit sent.entry.octets.now)) b }
{
    received::cut_block(sent, b, part);
    let more = 2 * odd + ownparity::odd_of(part);
    vectors::double(part, 511, d);
    more
}

// Adds information block b to the rows, by way of part and d. The number has one bit more, as above.
fn add_wide_block(
    sent: Sent,
    b: usize,
    odd: u64,
    parity: Parity,
    part: &mut [u64; BLOCK],
    d: &mut [u64; DOUBLED],
    z: &mut [u64; SYNDROME],
) -> u64
    requires { (parity.shape.size ≡ 511) × (parity.shape.words ≡ 8) × (parity.shape.blocks ≡ 16) × (b < 14) × (odd < 2 ^ 14)
        × (7154 ≤ 8 * length sent.octets.now + sent.unsent) }
    ensures odd { result ≡ 2 * odd + tally (odd_block (later sent.entry.unsent (bit sent.entry.octets.now)) b) }
    ensures rows { wbit z.new ≡ plus (wbit z.old)
        (block_rows parity.entry b (turned (doubled parity.entry.shape.size (later sent.entry.unsent (bit sent.entry.octets.now)) b))) }
{
    let more = double_block(sent, b, odd, part, d);
    syndromes::add_block(Doubled { words: d }, parity, b, z);
    more
}

// Adds the information blocks to the rows. The number has a bit for each block, set where its bits are odd in number.
fn add_wide(sent: Sent, parity: Parity, z: &mut [u64; SYNDROME]) -> u64
    requires { (parity.shape.size ≡ 511) × (parity.shape.words ≡ 8) × (parity.shape.blocks ≡ 16)
        × (7154 ≤ 8 * length sent.octets.now + sent.unsent) × (wbit z.old ≡ (λ i. false)) }
    ensures odd { (result < 2 ^ 14) × (result ≡ number 14 (odd_block (later sent.entry.unsent (bit sent.entry.octets.now)))) }
    ensures rows { wbit z.new ≡ word_rows parity.entry (later sent.entry.unsent (bit sent.entry.octets.now)) 14 }
{
    let mut part = [0u64; BLOCK];
    let mut d = [0u64; DOUBLED];
    let mut odd: u64 = 0;
    for b in 0..14 {
        odd = add_wide_block(sent, b, odd, parity, &mut part, &mut d, z);
    }
    odd
}

// The checks that the information breaks while the parity is 0, into z, which is handed over as zeros; and the number for all 16 blocks.
fn lay_wide(sent: Sent, sh: Shape, z: &mut [u64; SYNDROME]) -> u64
    requires { Shaped sh × (sh ≡ wide_shape) × (7154 ≤ 8 * length sent.octets.now + sent.unsent) × (wbit z.old ≡ (λ i. false)) }
    ensures kept { Kept sh (wbit z.new) }
    ensures checks { (n : ℕ) (x : Word) → offered n ≡ true → sh ≡ (offer_of n).shape
        → x ≡ later sent.entry.unsent (bit sent.entry.octets.now)
        → x ≡ up_to (information (code_of n)) x → (result ≡ number 16 (odd_block x)) × (wbit z.new ≡ laid (code_of n) sh x) }
{
    let mut h = [0u16; TABLE];
    tables::lend511(&mut h);
    let parity = Parity {
        places: &h,
        shape: sh,
    };
    let odd = add_wide(sent, parity, z);
    syndromes::trim_rows(z, sh);
    4 * odd
}

// The parity of the information of a near-Earth code, row after row, into z, which is handed over as zeros.
fn solve_wide(sent: Sent, sh: Shape, z: &mut [u64; SYNDROME])
    requires { Shaped sh × (sh ≡ wide_shape) × (7154 ≤ 8 * length sent.octets.now + sent.unsent) × (wbit z.old ≡ (λ i. false)) }
    ensures { (n : ℕ) (x : Word) → offered n ≡ true → sh ≡ (offer_of n).shape
        → x ≡ later sent.entry.unsent (bit sent.entry.octets.now)
        → x ≡ up_to (information (code_of n)) x → wbit z.new ≡ held sh (λ r i. end_rows n sh.size x r i ⊕ odd_together_of x r) }
{
    let odd = lay_wide(sent, sh, z);
    walk_wide(sh, z);
    invert(odd, z);
}

// The word of a near-Earth code. The shape stands in numbers, so that a compiler sees them in the walk.
pub fn encode(code: KnownOffer, information: &[u8], word: &mut [u8])
    requires { (code.offer.shape.size ≡ 511) × (length information.now ≡ code.offer.information) × (length word.old ≡ code.offer.word) }
    ensures { (n : ℕ) → offered n ≡ true → code.offer ≡ offer_of n → Informs n information.now
        → word.new ≡ word_of n information.now }
{
    let o = code.offer;
    let sh = NEAR_EARTH;
    let mut z = [0u64; SYNDROME];
    let sent = Sent {
        octets: information,
        unsent: o.unsent,
    };
    solve_wide(sent, sh, &mut z);
    parityrows::write(information, 7154 - o.unsent, &z, sh, 0, word);
}
