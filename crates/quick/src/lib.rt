// A quick no: the checks in order, up to the first group with a broken one. A group is worked out at once; the number reported is the
// definition's.

#![tactic(auto)]

pub mod groups;
pub mod lowest_narrow;
pub mod lowest_wide;

ghost use Rattle.std.specs.Prelude.{◌≡◌, true, ℕ, ◌≤◌};
ghost use Rattle.bits.specs.Bits.{Word, bit};
ghost use Rattle.rules.specs.Codes.{Code, code as code_of, checks, offered};
ghost use Rattle.rules.specs.Checks.{check, lowest as lowest_of};
ghost use Rattle.rules.specs.Encoding.{lifted};
ghost use Rattle.catalogue.specs.offer.Offers.{offer_of};
ghost use Rattle.quick.specs.Quick.{read, as_read, refused_quick, quick_answer};
ghost use Rattle.quick.specs.Answers.{as_quick};
ghost use Rattle.refusals.specs.Numbers.{number_of};

use catalogue::offer;
use catalogue::offer::KnownOffer;
use refusals::Refusal;
use word::received::Received;

// A record of C's: its number says whether the rest counts.
#[repr(C)]
#[derive(Clone, Copy)]
pub struct Answered {
    pub number: u8,
    pub yes: bool,
    pub evaluated: u32,
}

// What a refused call gives besides its number.
fn refused(refusal: Refusal) -> Answered
    ensures { as_quick result ≡ refused_quick (number_of refusal) }
{
    Answered {
        number: refusal.number(),
        yes: false,
        evaluated: 0,
    }
}

// The answer by the lowest broken check: that many checks were evaluated, and it; or all of them.
fn answer(lowest: u32, all: u32) -> Answered
    requires { lowest ≤ 2048 }
    ensures { (c : Code) (x : Word) → all ≡ checks c → lowest ≡ lowest_of c x → as_quick result ≡ as_read (read (checks c) (check c x)) }
{
    if lowest == all {
        return Answered {
            number: 0,
            yes: true,
            evaluated: all,
        };
    }
    Answered {
        number: 0,
        yes: false,
        evaluated: lowest + 1,
    }
}

// The lowest broken check, or the number of checks if none is broken.
fn lowest_broken(received: Received) -> u32
    ensures { (n : ℕ) → offered n ≡ true → received.entry.code.offer ≡ offer_of n
        → result ≡ lowest_of (code_of n) (lifted (code_of n) (bit received.entry.word.now)) }
{
    let o = received.code.offer;
    let sh = o.shape;
    if sh.size == 511 {
        return lowest_wide::lowest(received);
    }
    lowest_narrow::lowest(received)
}

// Whether every check of a word of the right length is met, and how many were evaluated.
fn quick_taken(received: Received) -> Answered
    ensures { (n : ℕ) → offered n ≡ true → received.entry.code.offer ≡ offer_of n → as_quick result
        ≡ as_read (read (checks (code_of n)) (check (code_of n) (lifted (code_of n) (bit received.entry.word.now)))) }
{
    let o = received.code.offer;
    let sh = o.shape;
    let lowest = lowest_broken(received);
    answer(lowest, (sh.rows * sh.size) as u32)
}

// Whether every check is met, and how many were evaluated.
pub fn quick(code: u8, word: &[u8]) -> Answered
    ensures { as_quick result ≡ quick_answer code word.now }
{
    let o = offer::of(code);
    match refusals::admit(o.offered, word.len(), o.word, 0, 0) {
        Ok(()) => quick_taken(Received {
            code: KnownOffer { offer: o },
            word,
        }),
        Err(refusal) => refused(refusal),
    }
}
