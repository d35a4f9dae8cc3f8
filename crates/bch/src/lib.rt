// The older BCH words: encoding, and checking in two modes. A word is divided as a whole: each coefficient of the remainder
// is the sum of the bits at the ones of one row.

#![tactic(auto)]

ghost use Rattle.std.specs.Prelude.{◌≡◌, ◌&&◌, ◌^◌, ◌≤◌, ◌<◌, eqb, ltb, length};
ghost use Rattle.bits.specs.Bits.{Word, bit, digit, tally, sum};
ghost use Rattle.vectors.specs.Vectors.{Holds};
ghost use Rattle.bch.specs.Bch.{remainder, written, judged, bch_encode_answer, bch_check_answer};
ghost use Rattle.refusals.specs.Numbers.{number_in};
ghost use Rattle.bch.specs.Answers.{alone, as_encoded, as_judged, as_mended};

use refusals::Refusal;

// A record of C's: its number says whether the rest counts.
#[repr(C)]
#[derive(Clone, Copy)]
pub struct Mended {
    pub number: u8,
    pub mended: u8,
}

// Row j has a one for each bit of a word that counts towards the coefficient of x^(6-j) of its remainder. The fill bit is in none.
const ROWS: [u64; 7] = [
    0xA991_2D8E_86B9_EF80,
    0xFD59_BB49_C5E5_1840,
    0x7EAC_DDA4_E2F2_8C20,
    0x3F56_6ED2_7179_4610,
    0x1FAB_3769_38BC_A308,
    0xA644_B63A_1AE7_BE04,
    0x5322_5B1D_0D73_DF02,
];

// The seven parity bits, and all bits but the fill bit.
const PARITY: u64 = 0xFE;

const SENT: u64 = 0xFFFF_FFFF_FFFF_FFFE;

const ALL: u64 = 0xFFFF_FFFF_FFFF_FFFF;

// 1 if an odd number of bits are set.
fn odd(v: u64) -> u64
    ensures { (result < 2) × (result ≡ tally (sum 64 (digit 64 v))) }
{
    (u64::count_ones(v) % 2) as u64
}

// What the generator leaves of a word's 63 bits.
fn divide(v: u64) -> u64
    ensures { (result < 2 ^ 7) × ((x : Word) → Holds v x → result ≡ remainder 63 x) }
{
    let mut r: u64 = 0;
    for row in ROWS {
        r = 2 * r + odd(row & v);
    }
    r
}

// The bits of the 63 each of which alone leaves r.
fn places(r: u64) -> u64
    requires { r < 2 ^ 7 }
    ensures { Holds result (λ i. ltb i 63 && eqb r (alone i)) }
{
    let mut m: u64 = SENT;
    for (j, row) in ROWS.iter().enumerate() {
        if (r >> (6 - j)) % 2 == 1 {
            m &= *row;
        } else {
            m &= *row ^ ALL;
        }
    }
    m
}

// The bits of eight octets at most, zeros behind them.
fn taken(octets: &[u8]) -> u64
    requires { length octets.now ≤ 8 }
    ensures { Holds result (bit octets.now) }
{
    let mut y = [0u64; 2];
    vectors::load(octets, &mut y);
    y[0]
}

// The octets of a word, the fill bit 0.
fn write(v: u64, out: &mut [u8])
    requires { length out.old ≡ 8 }
    ensures { (x : Word) → Holds v x → out.new ≡ written x }
{
    let mut y = [0u64; 2];
    y[0] = v & SENT;
    vectors::store(&y, 0, out);
}

// The word of the information, or why there is none.
fn encoded(information: &[u8], word: &mut [u8]) -> Result<(), Refusal>
    ensures { as_encoded (number_in result) word.new ≡ bch_encode_answer information.now word.old }
{
    if information.len() != 7 {
        return Err(Refusal::InputLength);
    }
    if word.len() != 8 {
        return Err(Refusal::OutputLength);
    }
    let v = taken(information);
    let r = divide(v);
    write(v ^ (r * 2) ^ PARITY, word);
    Ok(())
}

// Information in, word out.
pub fn bch_encode(information: &[u8], word: &mut [u8]) -> u8
    ensures { as_encoded result word.new ≡ bch_encode_answer information.now word.old }
{
    refusals::number(encoded(information, word))
}

// How many bits are mended of a word of the right length, which goes into an output of the right length.
fn judge(detect_only: bool, word: &[u8], out: &mut [u8]) -> Result<u8, Refusal>
    requires { (length word.now ≡ 8) × (length out.old ≡ 8) }
    ensures { as_judged result out.new ≡ judged detect_only (bit word.now) out.old }
{
    let v = taken(word);
    let r = divide(v ^ PARITY);
    if r == 0 {
        write(v, out);
        return Ok(0);
    }
    if detect_only {
        return Err(Refusal::NoBchWord);
    }
    let m = places(r);
    if m == 0 {
        return Err(Refusal::NoBchWord);
    }
    write(v ^ m, out);
    Ok(1)
}

// The same of a word and an output of any length.
fn checked(detect_only: bool, word: &[u8], out: &mut [u8]) -> Result<u8, Refusal>
    ensures { as_judged result out.new ≡ bch_check_answer detect_only word.now out.old }
{
    if word.len() != 8 {
        return Err(Refusal::InputLength);
    }
    if out.len() != 8 {
        return Err(Refusal::OutputLength);
    }
    judge(detect_only, word, out)
}

// Single error correction, or detect-only: the word out, or 13.
pub fn bch_check(detect_only: bool, word: &[u8], out: &mut [u8]) -> Mended
    ensures { as_mended result out.new ≡ bch_check_answer detect_only word.now out.old }
{
    match checked(detect_only, word, out) {
        Ok(mended) => Mended { number: 0, mended },
        Err(refusal) => Mended {
            number: refusal.number(),
            mended: 0,
        },
    }
}
