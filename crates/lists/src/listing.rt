// The list of a run, record by record: a record for each of its flips, correct's numbers, and the reason for a refusal 5.
ghost use Rattle.std.specs.Prelude.{◌≡◌, true, false, List, ℕ, ◌+◌, ◌*◌, ◌≤◌, ◌<◌, leb, length};
ghost use Rattle.bits.specs.Bits.{Word};
ghost use Rattle.rules.specs.Codes.{Code, offered, code as code_of};
ghost use Rattle.rules.specs.Checks.{broken};
ghost use Rattle.rules.specs.Flipping.{by_excess, flip, run};
ghost use Rattle.answers.specs.Lists.{Entry, refused_list};
ghost use Rattle.vectors.specs.Vectors.{wbit};
ghost use Rattle.layout.specs.Lent.{Fit, Lent, laid};
ghost use Rattle.catalogue.specs.offer.Offers.{offer_of};
ghost use Rattle.word.specs.measured.Measured.{Blank};
ghost use Rattle.flipping.specs.runs.Passes.{Holding, Within, comes_next_of};
ghost use Rattle.refusals.specs.Numbers.{number_of};
ghost use Rattle.lists.specs.listing.Answers.{listed_as};
ghost use Rattle.lists.specs.declared.listing.FlipRecord.{FlipRecord};
ghost use Rattle.flipping.specs.endings.Ends.{word_of, run_of};
ghost use Rattle.lists.specs.listing.Listings.{ends_with, Ends, Stands, Standing, Lists, Goes};

use catalogue::offer;
use catalogue::offer::{KnownOffer, Offer};
use flipping::runs::Next;
use flipping::{endings, runs};
use layout::{Parity, WORD};
use refusals::Refusal;
use word::judging;
use word::measured::Room;
use word::received::Received;

// For a flip: its bit number, its excess, and the broken checks left after it.
#[repr(C)]
#[derive(Clone, Copy)]
pub struct FlipRecord {
    pub bit: u32,
    pub excess: i8,
    pub left: u32,
}

// Correct's numbers, then bit and excess of the reason.
// A record of C's: its number says whether the rest counts.
#[repr(C)]
#[derive(Clone, Copy)]
pub struct Listed {
    pub number: u8,
    pub flips: u32,
    pub first: u32,
    pub last: u32,
    pub unlike: u32,
    pub lowest: u32,
    pub bit: u32,
    pub excess: i8,
}

// A list that is being written. Where it goes on, a flip was made, and its record belongs at this place; else the answer is made.
// A flag, not an enum: the definitions `Lists` and `Goes` hold this form, and both ends need the record and the answer so far.
#[derive(Clone, Copy)]
pub struct Listing {
    pub goes: bool,
    pub place: usize,
    pub record: FlipRecord,
    pub answer: Listed,
    pub limit: u16,
    pub offer: Offer,
}

// What a refused list gives besides its number.
fn refused(refusal: Refusal) -> Listing
    ensures { (result.goes ≡ false) × (result.place ≡ 0)
        × ((table : List Entry) → listed_as result.answer table ≡ refused_list table (number_of refusal)) }
{
    Listing {
        goes: false,
        place: 0,
        record: FlipRecord {
            bit: 0,
            excess: 0,
            left: 0,
        },
        answer: Listed {
            number: refusal.number(),
            flips: 0, // however many there were
            first: 0,
            last: 0,
            unlike: 0,
            lowest: 0,
            bit: 0,
            excess: 0,
        },
        limit: 0,
        offer: offer::of(0),
    }
}

// The list at the end of the run: its number, and bit and excess of the reason. Inlined, as the list would be written out for a call.
#[inline(always)]
fn ended(
    l: Listing,
    flips: usize,
    received: Received,
    y: &[u64; WORD],
    number: u8,
    bit: u32,
    excess: i8,
) -> Listing
    requires { flips ≤ 65535 }
    ensures { (result.goes ≡ false) × (result.place ≡ flips)
        × ((n limit : ℕ) → received.entry.code.offer ≡ offer_of n
        → Ends n received.entry.word.now limit l flips (wbit y.now) number bit excess → (table : List Entry)
        → listed_as result.answer table ≡ ends_with n received.entry.word.now limit table) }
{
    let begun = l.answer;
    let record = l.record;
    let count = flips as u32;
    let unlike = endings::unlike_after(received, y, count);
    let judged = judging::judge(received.code, y, number);
    Listing {
        goes: false, // no record is written past the list
        place: flips,
        record,
        answer: Listed {
            number: judged,
            flips: count,
            first: begun.first,
            last: record.left,
            unlike,
            lowest: begun.lowest,
            bit,
            excess,
        },
        limit: l.limit,
        offer: l.offer,
    }
}

// The list after one more flip, with its record.
fn went(l: Listing, flips: usize, bit: u32, excess: i8, left: u32) -> Listing
    ensures { (result.goes ≡ true) × (result.place ≡ flips) × (result.record ≡ record { bit = bit; excess = excess; left = left })
        × (result.answer ≡ l.answer) × (result.limit ≡ l.limit) × (result.offer ≡ l.offer) }
{
    Listing {
        goes: true,
        place: flips,
        record: FlipRecord { bit, excess, left },
        answer: l.answer,
        limit: l.limit,
        offer: l.offer,
    }
}

// What comes next for the word that was measured.
fn coming(code: KnownOffer, room: &Room) -> Next
    requires { Fit room.now.h code.offer.shape × Holding room.now.h code.offer.shape (wbit room.now.z) }
    ensures { Within (code.offer.shape.blocks * code.offer.shape.size) result
        × ((c : Code) → Lent c room.now.h code.offer.shape → c.unsent ≡ code.offer.unsent → (x : Word)
        → wbit room.now.z ≡ laid c code.offer.shape x → by_excess c x ≡ comes_next_of result) }
{
    let o = code.offer;
    let parity = Parity {
        places: &room.h,
        shape: o.shape,
    };
    runs::comes_next(&room.z, parity, o.unsent)
}

// The list after one flip more, or at the limit.
fn flip_on(
    l: Listing,
    flips: usize,
    received: Received,
    bit: usize,
    excess: i8,
    room: &mut Room,
) -> Listing
    requires { Standing received.word.now l flips room.old.h room.old.y room.old.z × (bit < l.offer.shape.blocks * l.offer.shape.size) }
    ensures { (result.place ≡ flips) × ((n limit places : ℕ) → received.entry.code.offer ≡ offer_of n
        → Stands n received.entry.word.now limit places l flips room.old.h room.old.y room.old.z
        → by_excess (code_of n) (wbit room.old.y) ≡ flip bit excess
        → Lists n received.entry.word.now limit places result room.new.h room.new.y room.new.z) }
{
    if flips >= l.limit as usize {
        return ended(l, flips, received, &room.y, 6, 0, 0);
    }
    let o = l.offer;
    let parity = Parity {
        places: &room.h,
        shape: o.shape,
    };
    syndromes::flip(&mut room.y, &mut room.z, parity, bit);
    let left = syndromes::broken(&room.z);
    went(l, flips, bit as u32, excess, left)
}

// What comes after so many flips: one more, or the end.
fn pass(l: Listing, flips: usize, word: &[u8], room: &mut Room) -> Listing
    requires { Standing word.now l flips room.old.h room.old.y room.old.z }
    ensures { (result.place ≡ flips) × ((n limit places : ℕ)
        → Stands n word.now limit places l flips room.old.h room.old.y room.old.z
        → Lists n word.now limit places result room.new.h room.new.y room.new.z) }
{
    let code = KnownOffer { offer: l.offer };
    let received = Received { code, word };
    match coming(code, room) {
        Next::Quiet => ended(l, flips, received, &room.y, 0, 0, 0),
        Next::Stuck(bit, excess) => { ended(l, flips, received, &room.y, 5, bit as u32, excess) }
        Next::Flip(bit, excess) => flip_on(l, flips, received, bit, excess, room),
    }
}

// The next record of the list, or its end.
pub fn next(l: Listing, word: &[u8], room: &mut Room) -> Listing
    requires { Goes word.now l room.old.h room.old.y room.old.z }
    ensures { (result.place ≡ l.place + 1) × ((n limit places : ℕ)
        → Lists n word.now limit places l room.old.h room.old.y room.old.z
        → Lists n word.now limit places result room.new.h room.new.y room.new.z) }
{
    pass(l, l.place + 1, word, room)
}

// No run has more flips than checks are broken at its start; for the near-Earth codes than half as many.
fn most_flips(o: Offer, first: u32) -> u32
    ensures { (n : ℕ) → offered n ≡ true → o ≡ offer_of n → (x : Word) → first ≡ broken (code_of n) x → (limit : ℕ)
        → length (run (by_excess (code_of n)) limit x).flips ≤ result }
{
    if o.asked {
        return first / 2;
    }
    first
}

// How many flips the run on a word has.
fn count_flips(received: Received, limit: u16) -> usize
    ensures { (n : ℕ) → offered n ≡ true → received.entry.code.offer ≡ offer_of n
        → result ≡ length (run_of n received.entry.word.now limit).flips }
{
    let o = received.code.offer;
    let mut room = Room::new();
    let sh = room.measure(received);
    let first = syndromes::broken(&room.z);
    let parity = Parity {
        places: &room.h,
        shape: sh,
    };
    let ended = runs::run(&mut room.y, &room.z, parity, o.unsent, limit, first);
    ended.ran.flips as usize
}

// Whether a table of so many places serves the run on a word: by the bounds where they tell, else the flips are counted.
fn serves(received: Received, limit: u16, first: u32, places: usize) -> bool
    ensures { (n : ℕ) → offered n ≡ true → received.entry.code.offer ≡ offer_of n
        → first ≡ broken (code_of n) (word_of n received.entry.word.now)
        → result ≡ leb (length (run_of n received.entry.word.now limit).flips) places }
{
    if limit as usize <= places {
        return true;
    }
    if most_flips(received.code.offer, first) as usize <= places {
        return true;
    }
    count_flips(received, limit) <= places
}

// The list before the first flip, of a word of which so many checks are broken, and this the lowest.
fn begun(o: Offer, limit: u16, first: u32, lowest: u32) -> Listing
    ensures { (result.place ≡ 0) × (result.record.left ≡ first) × (result.answer.first ≡ first) × (result.answer.lowest ≡ lowest)
        × (result.limit ≡ limit) × (result.offer ≡ o) }
{
    Listing {
        goes: false,
        place: 0,
        record: FlipRecord {
            bit: 0,
            excess: 0,
            left: first,
        },
        answer: Listed {
            number: 0,
            flips: 0,
            first,
            last: first,
            unlike: 0,
            lowest,
            bit: 0,
            excess: 0,
        },
        limit,
        offer: o,
    }
}

// The list of a word of the right length before the first flip; y and z of the room are handed over as zeros.
fn measured_list(received: Received, limit: u16, room: &mut Room) -> Listing
    requires { Blank room.old.y room.old.z }
    ensures { (n : ℕ) → offered n ≡ true → received.entry.code.offer ≡ offer_of n
        → (result.answer.first ≡ broken (code_of n) (word_of n received.entry.word.now))
        × ((places : ℕ) → leb (length (run_of n received.entry.word.now limit).flips) places ≡ true
        → Stands n received.entry.word.now limit places result 0 room.new.h room.new.y room.new.z) }
{
    let sh = room.measure(received);
    let first = syndromes::broken(&room.z);
    let lowest = syndromes::lowest(&room.z, sh);
    begun(received.code.offer, limit, first, lowest)
}

// The list of the run on a word of the right length.
fn begin_taken(received: Received, limit: u16, places: usize, room: &mut Room) -> Listing
    requires { Blank room.old.y room.old.z }
    ensures { (result.place ≡ 0) × ((n : ℕ) → offered n ≡ true → received.entry.code.offer ≡ offer_of n
        → Lists n received.entry.word.now limit places result room.new.h room.new.y room.new.z) }
{
    let l = measured_list(received, limit, room);
    let answer = l.answer;
    if !serves(received, limit, answer.first, places) {
        return refused(Refusal::Places);
    }
    pass(l, 0, received.word, room)
}

// The list of the run on a received word, under a limit, for a table of so many places; y and z of the room are handed over as zeros.
pub fn begin(code: u8, word: &[u8], limit: u16, places: usize, room: &mut Room) -> Listing
    requires { Blank room.old.y room.old.z }
    ensures { (result.place ≡ 0) × Lists code word.now limit places result room.new.h room.new.y room.new.z }
{
    let o = offer::of(code);
    match refusals::admit(o.offered, word.len(), o.word, 0, 0) {
        Ok(()) => {
            let received = Received {
                code: KnownOffer { offer: o },
                word,
            };
            begin_taken(received, limit, places, room)
        }
        Err(refusal) => refused(refusal),
    }
}
