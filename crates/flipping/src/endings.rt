// How correct ends: its record and that record's refused form, and in how many bits the word at the end of a run is another.
ghost use Rattle.std.specs.Prelude.{◌≡◌, true, List, ℕ};
ghost use Rattle.bits.specs.Bits.{bit};
ghost use Rattle.rules.specs.Codes.{code as code_of, offered};
ghost use Rattle.rules.specs.Encoding.{lifted};
ghost use Rattle.answers.specs.Calls.{differing, refused_correct_of};
ghost use Rattle.catalogue.specs.offer.Offers.{offer_of};
ghost use Rattle.vectors.specs.Vectors.{wbit};
ghost use Rattle.flipping.specs.endings.Ends.{EndsAt};
ghost use Rattle.flipping.specs.endings.Answers.{as_corrected};

use layout::WORD;
use word::received::Received;
use word::unlike;

// A record of C's: its number says whether the rest counts.
#[repr(C)]
#[derive(Clone, Copy)]
pub struct Corrected {
    pub number: u8,
    pub flips: u32,
    pub first: u32,
    pub last: u32,
    pub unlike: u32,
    pub lowest: u32,
}

// What correct gives besides its number where it is refused by 1 to 3, and on samples also by 16.
pub fn refused_correct(number: u8) -> Corrected
    ensures { (out : List ℕ) → as_corrected result out ≡ refused_correct_of out number }
{
    Corrected {
        number,
        flips: 0,
        first: 0,
        last: 0,
        unlike: 0,
        lowest: 0,
    }
}

// In how many bits the word at the end of a run differs from the received one: no flip leaves it, and one flips one bit.
pub fn unlike_after(received: Received, y: &[u64; WORD], flips: u32) -> u32
    ensures { (n : ℕ) → offered n ≡ true → received.entry.code.offer ≡ offer_of n
        → EndsAt (code_of n) (bit received.entry.word.now) (wbit y.now) flips
        → result ≡ differing (code_of n) (lifted (code_of n) (bit received.entry.word.now)) (wbit y.now) }
{
    if flips <= 1 {
        return flips;
    }
    let o = received.code.offer;
    unlike::unlike(received.word, y, o.unsent, o.bits - o.unsent) as u32
}
