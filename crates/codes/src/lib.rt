// The calls. Each takes any code number, any lengths and any contents; what it refuses it refuses by number, and writes nothing.

#![tactic(auto)]

ghost use Rattle.std.specs.Prelude.{◌≡◌, true, false, List, ℕ, ◌<◌, eqb, length};
ghost use Rattle.bits.specs.Bits.{bit, flipped, when◌then◌else◌};
ghost use Rattle.rules.specs.Codes.{code as code_of, offered};
ghost use Rattle.rules.specs.Checks.{lowest};
ghost use Rattle.rules.specs.Encoding.{lifted, written};
ghost use Rattle.rules.specs.Flipping.{by_excess};
ghost use Rattle.answers.specs.Calls.{six_set_of, fault, checked_from, ran_from, stepped_from, next_step};
ghost use Rattle.answers.specs.Calls.{refused_check_of, refused_step_of};
ghost use Rattle.answers.specs.Calls.{encode_answer, check_answer, opened_from, open_answer, correct_answer, step_answer};
ghost use Rattle.catalogue.specs.offer.Offers.{offer_of};
ghost use Rattle.word.specs.measured.Measured.{Blank};
ghost use Rattle.vectors.specs.Vectors.{wbit};
ghost use Rattle.flipping.specs.runs.Passes.{Within, comes_next_of};
ghost use Rattle.flipping.specs.endings.Answers.{as_corrected};
ghost use Rattle.refusals.specs.Numbers.{number_of, number_in};
ghost use Rattle.codes.specs.Ends.{RunEnds};
ghost use Rattle.codes.specs.Answers.{as_encoded, as_checked, as_opened, as_stepped};

use catalogue::offer;
use catalogue::offer::KnownOffer;
use encoder::solver;
use flipping::endings::Corrected;
use flipping::runs::{Ended, Next};
use flipping::{endings, runs};
use layout::{Parity, WORD};
use refusals::Refusal;
use vectors::copying;
use word::measured::Room;
use word::received::Received;
use word::{judging, received};

// A record of C's: its number says whether the rest counts.
#[repr(C)]
#[derive(Clone, Copy)]
pub struct Checked {
    pub number: u8,
    pub broken: u32,
    pub lowest: u32,
}

// A record of C's: its number, and whether it was quiet, say whether the rest counts.
#[repr(C)]
#[derive(Clone, Copy)]
pub struct Stepped {
    pub number: u8,
    pub quiet: bool,
    pub bit: u32,
    pub excess: i8,
}

// What open gives: the number, the lowest broken check, and the information octets as a part of the word, lent back.
// A number, and no Result: a word is refused by 9 together with its lowest broken check.
#[derive(Clone, Copy)]
pub struct Opened<'a> {
    pub number: u8,
    pub lowest: u32,
    pub part: &'a [u8],
}

// What is wrong with a word, if anything is, and its lowest broken check.
#[derive(Clone, Copy)]
struct Found {
    fault: Result<(), Refusal>,
    lowest: u32,
}

// A run on a received word: its end, and how many checks are broken at its start and which is the lowest of them.
#[derive(Clone, Copy)]
struct Course {
    ended: Ended,
    first: u32,
    lowest: u32,
}

// What a refused check gives besides its number.
fn refused_check(refusal: Refusal) -> Checked
    ensures { as_checked result ≡ refused_check_of (number_of refusal) }
{
    Checked {
        number: refusal.number(),
        broken: 0,
        lowest: 0,
    }
}

// What a refused step gives besides its number.
fn refused_step(refusal: Refusal) -> Stepped
    ensures { (out : List ℕ) → as_stepped result out ≡ refused_step_of out (number_of refusal) }
{
    Stepped {
        number: refusal.number(),
        quiet: false,
        bit: 0,
        excess: 0,
    }
}

// Whether the last octet of the information is not a multiple of what it must be: one of code 4's last six bits is set.
fn six_set(code: KnownOffer, information: &[u8]) -> bool
    requires { length information.now ≡ code.offer.information }
    ensures { (n : ℕ) → offered n ≡ true → code.offer ≡ offer_of n → result ≡ six_set_of n information.now }
{
    let o = code.offer;
    let last = o.information - 1;
    information[last] % o.multiple != 0
}

// The word of the information, or why there is none.
fn encoded(code: u8, information: &[u8], word: &mut [u8]) -> Result<(), Refusal>
    ensures { as_encoded (number_in result) word.new ≡ encode_answer code information.now word.old }
{
    let o = offer::of(code);
    refusals::admit(
        o.offered,
        information.len(),
        o.information,
        word.len(),
        o.word,
    )?;
    let known = KnownOffer { offer: o };
    if six_set(known, information) {
        return Err(Refusal::LastSix);
    }
    solver::encode(known, information, word);
    Ok(())
}

// Information in, word out.
pub fn encode(code: u8, information: &[u8], word: &mut [u8]) -> u8
    ensures { as_encoded result word.new ≡ encode_answer code information.now word.old }
{
    refusals::number(encoded(code, information, word))
}

// How many checks of a word of the right length are broken, and the lowest of them.
fn check_taken(received: Received) -> Checked
    ensures { (n : ℕ) → offered n ≡ true → received.entry.code.offer ≡ offer_of n
        → as_checked result ≡ checked_from n received.entry.word.now }
{
    let mut room = Room::new();
    let sh = room.measure(received);
    Checked {
        number: 0,
        broken: syndromes::broken(&room.z),
        lowest: syndromes::lowest(&room.z, sh),
    }
}

// How many checks are broken, and the lowest of them.
pub fn check(code: u8, word: &[u8]) -> Checked
    ensures { as_checked result ≡ check_answer code word.now }
{
    let o = offer::of(code);
    match refusals::admit(o.offered, word.len(), o.word, 0, 0) {
        Ok(()) => check_taken(Received {
            code: KnownOffer { offer: o },
            word,
        }),
        Err(refusal) => refused_check(refusal),
    }
}

// What is wrong with a word of the right length, and its lowest broken check.
fn fault_of(received: Received) -> Found
    ensures { (n : ℕ) → offered n ≡ true → received.entry.code.offer ≡ offer_of n
        → (number_in result.fault ≡ fault n received.entry.word.now)
        × (result.lowest ≡ lowest (code_of n) (lifted (code_of n) (bit received.entry.word.now))) }
{
    let mut room = Room::new();
    let sh = room.measure(received);
    Found {
        fault: judging::fault(received.code, &room.y, &room.z),
        lowest: syndromes::lowest(&room.z, sh),
    }
}

// The information octets of a word of the right length, where it is a codeword.
fn open_taken<'a>(received: Received<'a>) -> Opened<'a>
    ensures { (n : ℕ) → offered n ≡ true → received.entry.code.offer ≡ offer_of n
        → as_opened result.number result.lowest result.part.now ≡ opened_from n received.entry.word.now }
{
    let o = received.code.offer;
    let word = received.word;
    let found = fault_of(received);
    let end = match found.fault {
        Ok(()) => o.information,
        Err(_) => 0,
    };
    Opened {
        number: refusals::number(found.fault),
        lowest: found.lowest,
        part: &word[..end],
    }
}

// The information octets of a codeword, lent back as a part of the word.
pub fn open<'a>(code: u8, word: &'a [u8]) -> Opened<'a>
    ensures { as_opened result.number result.lowest result.part.now ≡ open_answer code word.now }
{
    let o = offer::of(code);
    match refusals::admit(o.opens, word.len(), o.word, 0, 0) {
        Ok(()) => open_taken(Received {
            code: KnownOffer { offer: o },
            word,
        }),
        Err(refusal) => Opened {
            number: refusal.number(),
            lowest: 0,
            part: &word[..0],
        },
    }
}

// The flipping run on a word of the right length; y and z of the room are handed over as zeros, and y comes back as the word at its end.
fn run_taken(received: Received, limit: u16, room: &mut Room) -> Course
    requires { Blank room.old.y room.old.z }
    ensures { (n : ℕ) → offered n ≡ true → received.entry.code.offer ≡ offer_of n
        → RunEnds n received.entry.word.now limit result (wbit room.new.y) }
{
    let o = received.code.offer;
    let sh = room.measure(received);
    let first = syndromes::broken(&room.z);
    let lowest = syndromes::lowest(&room.z, sh);
    let parity = Parity {
        places: &room.h,
        shape: sh,
    };
    let ended = runs::run(&mut room.y, &room.z, parity, o.unsent, limit, first);
    Course {
        ended,
        first,
        lowest,
    }
}

// The word y into an output of the right length, if its number says that it is taken.
fn write_taken(code: KnownOffer, number: u8, y: &mut [u64; WORD], out: &mut [u8])
    requires { length out.old ≡ code.offer.word }
    ensures { (n : ℕ) → offered n ≡ true → code.offer ≡ offer_of n
        → out.new ≡ (when eqb number 0 then written (code_of n) (wbit y.old) else out.old) }
{
    if number == 0 {
        let o = code.offer;
        received::write(y, o.unsent, o.bits, out);
    }
}

// What correct gives of a run that has ended with the word y: its numbers, and the word where it is taken.
fn finish(received: Received, y: &mut [u64; WORD], run: Course, out: &mut [u8]) -> Corrected
    requires { length out.old ≡ received.code.offer.word }
    ensures { (n limit : ℕ) → offered n ≡ true → received.entry.code.offer ≡ offer_of n
        → RunEnds n received.entry.word.now limit run (wbit y.old)
        → as_corrected result out.new ≡ ran_from n received.entry.word.now limit out.old }
{
    let ended = run.ended;
    let ran = ended.ran;
    let unlike = endings::unlike_after(received, y, ran.flips);
    let number = judging::judge(received.code, y, ran.ending.number());
    write_taken(received.code, number, y, out);
    Corrected {
        number,
        flips: ran.flips,
        first: run.first,
        last: ended.last,
        unlike,
        lowest: run.lowest,
    }
}

// The flipping run on a word of the right length, into an output of the right length.
fn correct_taken(received: Received, limit: u16, out: &mut [u8]) -> Corrected
    requires { length out.old ≡ received.code.offer.word }
    ensures { (n : ℕ) → offered n ≡ true → received.entry.code.offer ≡ offer_of n
        → as_corrected result out.new ≡ ran_from n received.entry.word.now limit out.old }
{
    let mut room = Room::new();
    let run = run_taken(received, limit, &mut room);
    finish(received, &mut room.y, run, out)
}

// The flipping run on a received word, under a limit.
pub fn correct(code: u8, word: &[u8], limit: u16, out: &mut [u8]) -> Corrected
    ensures { as_corrected result out.new ≡ correct_answer code word.now limit out.old }
{
    let o = offer::of(code);
    match refusals::admit(o.offered, word.len(), o.word, out.len(), o.word) {
        Ok(()) => {
            let received = Received {
                code: KnownOffer { offer: o },
                word,
            };
            correct_taken(received, limit, out)
        }
        Err(refusal) => endings::refused_correct(refusal.number()),
    }
}

// What comes next for a word of the right length; y and z of the room are handed over as zeros, and y comes back as the word's bits.
fn next_of(received: Received, room: &mut Room) -> Next
    requires { Blank room.old.y room.old.z }
    ensures { Within 8176 result × ((n : ℕ) → offered n ≡ true → received.entry.code.offer ≡ offer_of n
        → (wbit room.new.y ≡ lifted (code_of n) (bit received.entry.word.now))
        × (by_excess (code_of n) (lifted (code_of n) (bit received.entry.word.now)) ≡ comes_next_of result)) }
{
    let o = received.code.offer;
    let sh = room.measure(received);
    let parity = Parity {
        places: &room.h,
        shape: sh,
    };
    runs::comes_next(&room.z, parity, o.unsent)
}

// A word with one bit flipped, into an output of the right length.
fn write_flipped(code: KnownOffer, y: &mut [u64; WORD], bit: usize, out: &mut [u8])
    requires { (bit < 8176) × (length out.old ≡ code.offer.word) }
    ensures { (n : ℕ) → offered n ≡ true → code.offer ≡ offer_of n
        → out.new ≡ written (code_of n) (flipped (wbit y.old) bit) }
{
    let o = code.offer;
    vectors::flip_bit(y, bit);
    received::write(y, o.unsent, o.bits, out);
}

// What step gives of a word y and what comes next for it.
fn step_out(received: Received, next: Next, y: &mut [u64; WORD], out: &mut [u8]) -> Stepped
    requires { (length out.old ≡ received.code.offer.word) × Within 8176 next }
    ensures { (n : ℕ) → offered n ≡ true → received.entry.code.offer ≡ offer_of n
        → wbit y.old ≡ lifted (code_of n) (bit received.entry.word.now)
        → as_stepped result out.new ≡ next_step (code_of n) received.entry.word.now
        (lifted (code_of n) (bit received.entry.word.now)) out.old (comes_next_of next) }
{
    match next {
        Next::Quiet => {
            copying::copy(received.word, out);
            Stepped {
                number: 0,
                quiet: true,
                bit: 0,
                excess: 0,
            }
        }
        Next::Stuck(_, _) => refused_step(Refusal::Stuck),
        Next::Flip(bit, excess) => {
            write_flipped(received.code, y, bit, out);
            Stepped {
                number: 0,
                quiet: false,
                bit: bit as u32,
                excess,
            }
        }
    }
}

// One flip of the run on a word of the right length, into an output of the right length.
fn step_taken(received: Received, out: &mut [u8]) -> Stepped
    requires { length out.old ≡ received.code.offer.word }
    ensures { (n : ℕ) → offered n ≡ true → received.entry.code.offer ≡ offer_of n
        → as_stepped result out.new ≡ stepped_from n received.entry.word.now out.old }
{
    let mut room = Room::new();
    let next = next_of(received, &mut room);
    step_out(received, next, &mut room.y, out)
}

// One flip of the run, with the bit's number and excess; or quiet, in which case the word is copied.
pub fn step(code: u8, word: &[u8], out: &mut [u8]) -> Stepped
    ensures { as_stepped result out.new ≡ step_answer code word.now out.old }
{
    let o = offer::of(code);
    match refusals::admit(o.steps, word.len(), o.word, out.len(), o.word) {
        Ok(()) => {
            let received = Received {
                code: KnownOffer { offer: o },
                word,
            };
            step_taken(received, out)
        }
        Err(refusal) => refused_step(refusal),
    }
}
