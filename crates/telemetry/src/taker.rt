// The taker of telemetry: words of code 5 out of a stream of octets that comes in parts.
ghost use Rattle.std.specs.Prelude.{◌≡◌, [], ◌+◌, ◌<◌, ◌≤◌, length, replicate};
ghost use Rattle.std.proofs.lemmas.List.Edits.{sets};
ghost use Rattle.answers.specs.Calls.{refused_correct_of};
ghost use Rattle.flipping.specs.endings.Answers.{as_corrected};
ghost use Rattle.telemetry.specs.taker.Taking.{tell, standing, fresh_taker, new_taker, taker_for_answer};
ghost use Rattle.telemetry.specs.taker.Taking.{matched as matched_by, read_place, GoesOn};
ghost use Rattle.telemetry.specs.taker.Taking.{waiting as waiting_of, completed as completed_of, take_answer};
ghost use Rattle.telemetry.specs.taker.Answers.{as_taker, as_made, as_taken};

use super::sequences;
use flipping::endings;
use flipping::endings::Corrected;
use refusals::Refusal;

// The marker (CCSDS: the attached sync marker, ASM).
const MARKER: [u8; 4] = [0x1A, 0xCF, 0xFC, 0x1D];

// A taker between two parts: its place (octets of the marker matched, or 4 and the octets held of the word), what it was told, the octets.
#[repr(C)]
#[derive(Drop)]
pub struct Taker {
    pub place: usize,
    pub edition: u8,
    pub limit: u16,
    pub octets: [u8; 1020],
}

// A taker for an edition, and 19 where that is not known.
// A record of C's: its number says whether the rest counts.
#[repr(C)]
#[derive(Drop)]
pub struct Made {
    pub number: u8,
    pub taker: Taker,
}

// A call's answer: the moved taker, the octets taken, whether a word is complete, correct's numbers and the word.
// A record of C's: `complete` says whether the numbers and the word count.
#[repr(C)]
#[derive(Drop)]
pub struct Taken {
    pub next: Taker,
    pub taken: usize,
    pub complete: bool,
    pub corrected: Corrected,
    pub word: [u8; 1020],
}

// How far a search went: the place then, and the octets searched.
#[derive(Clone, Copy)]
struct Searched {
    place: usize,
    at: usize,
}

fn zeros() -> [u8; 1020]
    ensures { replicate 1020 0 ≡ result }
{
    [0; 1020]
}

fn read_place(place: usize) -> usize
    ensures { (result ≡ read_place place) × (result < 1024) }
{
    if place < 1024 { place } else { 0 }
}

// The octets of the marker matched after one octet more. Only the marker's first octet begins one.
fn matched(m: usize, octet: u8) -> usize
    requires { m < 4 }
    ensures { (result ≡ matched_by m octet) × (result ≤ 4) }
{
    // its first octet counts at any place, and is asked for first, so that many of them are passed quickly
    if octet == 0x1A {
        return 1;
    }
    if octet == MARKER[m] { m + 1 } else { 0 }
}

// The next place from `from` on where the marker's first octet stands, or the end of the part.
fn skip(part: &[u8], from: usize) -> usize
    requires { from ≤ length part.now }
    ensures lower_bound { (from ≤ result) × (result ≤ length part.now) }
    ensures goes_on { GoesOn part.now from 0 result 0 }
{
    for i in from..part.len() {
        if part[i] == 0x1A {
            return i;
        }
    }
    part.len()
}

// The same where nothing is matched; else the next octet counts, whatever it is.
fn jump(m: usize, part: &[u8], from: usize) -> usize
    requires { from ≤ length part.now }
    ensures lower_bound { (from ≤ result) × (result ≤ length part.now) }
    ensures goes_on { GoesOn part.now from m result m }
{
    if m == 0 { skip(part, from) } else { from }
}

// Searches a part until the marker is whole or the part is used up. A taker that holds octets of a word searches nothing.
fn search(place: usize, part: &[u8]) -> Searched
    requires { place < 1024 }
    ensures place_bound { (result.place < 1024) × (result.at ≤ length part.now) × (result.place < 4 → result.at ≡ length part.now) }
    ensures goes_on { GoesOn part.now 0 place result.at result.place }
{
    if place > 3 {
        return Searched { place, at: 0 };
    }
    let mut m = place;
    let mut i = jump(m, part, 0);
    // no `for`: a jump passes over octets that begin no marker
    while i < part.len() {
        m = matched(m, part[i]);
        if m > 3 {
            return Searched {
                place: m,
                at: i + 1,
            };
        }
        i = jump(m, part, i + 1);
    }
    Searched { place: m, at: i }
}

// Octets of a part into their places behind those held.
fn hold(octets: &mut [u8], held: usize, part: &[u8])
    requires { held + length part.now ≤ length octets.old }
    ensures { octets.new ≡ sets octets.old held part.now }
{
    let end = held + part.len();
    octets[held..end].copy_from_slice(part);
}

// Correct's numbers where no word is complete.
fn none() -> Corrected
    ensures { as_corrected result [] ≡ refused_correct_of [] 0 }
{
    endings::refused_correct(0)
}

fn waiting(taken: usize, place: usize, edition: u8, limit: u16, octets: [u8; 1020]) -> Taken
    ensures { as_taken result ≡ waiting_of taken (standing place (tell edition limit) octets) }
{
    let next = Taker {
        place,
        edition,
        limit,
        octets,
    };
    let word = zeros();
    let corrected = none();
    Taken {
        next,
        taken,
        complete: false,
        corrected,
        word,
    }
}

// A whole word: derandomised, corrected and handed out.
fn completed(taken: usize, edition: u8, limit: u16, octets: [u8; 1020]) -> Taken
    ensures { as_taken result ≡ completed_of taken (tell edition limit) octets }
{
    let mut received = octets;
    sequences::randomise_word(edition, &mut received);
    let mut mended = zeros();
    let corrected = codes::correct(5, &received, limit, &mut mended);
    let next = Taker {
        place: 0,
        edition,
        limit,
        octets,
    };
    Taken {
        next,
        taken,
        complete: true,
        corrected,
        word: mended,
    }
}

fn fresh(edition: u8, limit: u16) -> Taker
    ensures { as_taker result ≡ fresh_taker (tell edition limit) }
{
    let octets = zeros();
    Taker {
        place: 0,
        edition,
        limit,
        octets,
    }
}

impl Taker {
    // A taker at the start of a stream, under a limit, for the old sequence.
    pub fn new(limit: u16) -> Self
        ensures { as_taker result ≡ new_taker limit }
    {
        fresh(0, limit)
    }

    // The same for an edition: 0 where none is stated, or 1 to 5.
    pub fn told(edition: u8, limit: u16) -> Made
        ensures { as_made result ≡ taker_for_answer edition limit }
    {
        if edition > 5 {
            let old = fresh(0, limit);
            return Made {
                number: Refusal::Edition.number(),
                taker: old,
            };
        }
        let taker = fresh(edition, limit);
        Made { number: 0, taker }
    }

    // Goes on with a part of the stream until a word is complete or the part is used up.
    pub fn take(self, part: &[u8]) -> Taken
        ensures { as_taken result ≡ take_answer (as_taker self) part.now }
    {
        let edition = self.edition;
        let limit = self.limit;
        let mut octets = self.octets;
        let searched = search(read_place(self.place), part);
        let place = searched.place;
        let at = searched.at;
        if place < 4 {
            return waiting(at, place, edition, limit, octets);
        }
        let room = 1024 - place;
        let left = part.len() - at;
        if left < room {
            hold(&mut octets, place - 4, &part[at..]);
            return waiting(part.len(), place + left, edition, limit, octets);
        }
        let end = at + room;
        hold(&mut octets, place - 4, &part[at..end]);
        completed(end, edition, limit, octets)
    }
}
