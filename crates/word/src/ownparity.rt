// Whether the parity of a near-Earth word that meets every check is the encoder's: the ones of whole blocks decide.
ghost use Rattle.std.specs.Prelude.{◌≡◌, true, ℕ, ◌+◌, ◌*◌, ◌/◌, ◌^◌, ◌<◌, ◌≤◌, length};
ghost use Rattle.bits.specs.Bits.{Word, digit, tally, number, sum};
ghost use Rattle.rules.specs.Codes.{near_earth};
ghost use Rattle.rules.specs.Checks.{broken};
ghost use Rattle.rules.specs.Encoding.{OwnParity};
ghost use Rattle.vectors.specs.Vectors.{wbit, from};
ghost use Rattle.word.specs.ownparity.Odd.{odd_block, odd_together_of};
ghost use Rattle.layout.specs.Rooms.{word_room};

use layout::BLOCK;

// For each parity block, the blocks that it is counted with: the information blocks whose printed row has an odd number of ones, and
// itself.
const FIRST: u64 = 0x06E6;

const SECOND: u64 = 0x0D7D;

// 1 if an odd number of bits are set.
fn odd_word(v: u64) -> u64
    ensures { (result < 2) × ((w : ℕ) → v < 2 ^ w → result ≡ tally (sum w (digit w v))) }
{
    (v.count_ones() % 2) as u64
}

// All words added up, place by place.
fn folded(ws: &[u64]) -> u64
    ensures { sum 64 (digit 64 result) ≡ sum (length ws.now * 64) (wbit ws.now) }
{
    let mut v: u64 = 0;
    for word in ws {
        v ^= *word;
    }
    v
}

// 1 if an odd number of bits are set.
pub fn odd_of(ws: &[u64]) -> u64
    ensures { (result < 2) × (result ≡ tally (sum (length ws.now * 64) (wbit ws.now))) }
{
    odd_word(folded(ws))
}

// The same of the m bits from bit p on.
fn odd(y: &[u64], p: usize, m: usize) -> u64
    requires { (m ≤ 512) × (p / 64 + 8 < length y.now) }
    ensures { (result < 2) × (result ≡ tally (sum m (from p (wbit y.now)))) }
{
    let mut v = [0u64; BLOCK];
    vectors::cut(y, p, m, &mut v);
    odd_of(&v)
}

// For each of the 16 blocks, whether an odd number of its bits are set.
fn odd_blocks(y: &[u64]) -> u64
    requires { length y.now ≡ word_room }
    ensures { result ≡ number 16 (odd_block (wbit y.now)) }
{
    let mut v: u64 = 0;
    for j in 0..16 {
        v = 2 * v + odd(y, j * 511, 511);
    }
    v
}

// For each parity block, 1 if an odd number of bits are set of the blocks that it is counted with.
#[derive(Clone, Copy)]
pub struct Together {
    pub first: u64,
    pub second: u64,
}

// By a number that has a bit for each of the 16 blocks, set where an odd number of its bits are.
pub fn odd_together(v: u64) -> Together
    ensures { (x : Word) → v ≡ number 16 (odd_block x)
        → (result.first ≡ tally (odd_together_of x 0)) × (result.second ≡ tally (odd_together_of x 1)) }
{
    Together {
        first: odd_word(FIRST & v),
        second: odd_word(SECOND & v),
    }
}

// Whether the parity of a word that meets every check is the encoder's.
pub fn own_parity(y: &[u64]) -> bool
    requires { length y.now ≡ word_room }
    ensures { (octets_of_word octets_of_information unsent : ℕ)
        → broken (near_earth octets_of_word octets_of_information unsent) (wbit y.now) ≡ 0
        → (result ≡ true → OwnParity (near_earth octets_of_word octets_of_information unsent) (wbit y.now))
        × (OwnParity (near_earth octets_of_word octets_of_information unsent) (wbit y.now) → result ≡ true) }
{
    let odd = odd_together(odd_blocks(y));
    odd.first + odd.second == 0
}
