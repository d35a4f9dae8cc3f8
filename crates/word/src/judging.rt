// What is made of a quiet word: whether it is one that the encoder can give.
ghost use Rattle.std.specs.Prelude.{◌≡◌, true, false, List, ℕ, ◌≤◌, ◌<◌, ◌/◌, ◌+◌, ltb, length};
ghost use Rattle.bits.specs.Bits.{count};
ghost use Rattle.rules.specs.Codes.{code as code_of, offered};
ghost use Rattle.rules.specs.Checks.{broken};
ghost use Rattle.rules.specs.Flipping.{Run};
ghost use Rattle.answers.specs.Calls.{judged, fault as fault_of};
ghost use Rattle.vectors.specs.Vectors.{wbit, from};
ghost use Rattle.catalogue.specs.offer.Offers.{offer_of};
ghost use Rattle.refusals.specs.Numbers.{number_in};
ghost use Rattle.layout.specs.declared.Shape.{Shape};
ghost use Rattle.word.specs.measured.Measured.{Measured};
ghost use Rattle.layout.specs.Rooms.{syndrome_room, word_room};

use super::ownparity;
use catalogue::offer::KnownOffer;
use layout::{SYNDROME, WORD};
use refusals::Refusal;

// Whether one of n bits from bit `at` on is set.
fn some_set(y: &[u64; WORD], at: usize, n: usize) -> bool
    requires { (n ≤ 64) × (at / 64 + 1 < 130) }
    ensures { result ≡ ltb 0 (count n (from at (wbit y.now))) }
{
    let mut v = [0u64; 1];
    vectors::cut(y, at, n, &mut v);
    0 < vectors::ones(&v)
}

// The number of a run: after a quiet end 8 for parity unlike the encoder's. No run sets an unsent bit, so 7 is never given.
pub fn judge(code: KnownOffer, y: &[u64; WORD], number: u8) -> u8
    ensures { (n : ℕ) → offered n ≡ true → code.offer ≡ offer_of n → (run : Run) → run.number ≡ number → run.word ≡ wbit y.now
        → (number ≡ 0 → broken (code_of n) (wbit y.now) ≡ 0)
        → ((i : ℕ) → i < (code_of n).unsent → wbit y.now i ≡ false) → result ≡ judged (code_of n) run }
{
    if number != 0 {
        return number;
    }
    if !code.offer.asked {
        return 0;
    }
    if ownparity::own_parity(y) { 0 } else { 8 }
}

// What is wrong with a measured word: a broken check, a bit set after the parity, or parity unlike the encoder's.
pub fn fault(code: KnownOffer, y: &[u64; WORD], z: &[u64; SYNDROME]) -> Result<(), Refusal>
    ensures { (n : ℕ) → offered n ≡ true → code.offer ≡ offer_of n → (word h : List ℕ) (sh : Shape)
        → length word ≡ (code_of n).octets_of_word → Measured n word h (wbit y.now) (wbit z.now) sh → number_in result ≡ fault_of n word }
{
    if !syndromes::is_quiet(z) {
        return Err(Refusal::Broken);
    }
    let o = code.offer;
    if !o.asked {
        return Ok(());
    }
    if some_set(y, o.bits, o.fill) {
        return Err(Refusal::LastTwo);
    }
    if ownparity::own_parity(y) {
        Ok(())
    } else {
        Err(Refusal::OtherParity)
    }
}
