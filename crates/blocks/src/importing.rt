// Recordings from blocks. Each call takes any octets; what it refuses it refuses by number, and writes nothing.
ghost use Rattle.std.specs.Prelude.{◌≡◌, ◌+◌, ◌*◌, ◌≤◌, ◌<◌, length, Some};
ghost use Rattle.blocks.specs.framecheck.FrameCheck.{sound};
ghost use Rattle.blocks.specs.Blocks.{number_in, used_in, count_right_of, clear as clear_of, filling_in, fault as fault_of, first_fault_of};
ghost use Rattle.blocks.specs.Blocks.{imported as imported_of, whole_blocks, import_answer, import_room};
ghost use Rattle.refusals.specs.Numbers.{number_in as refused_in};
ghost use Rattle.blocks.specs.importing.Answers.{as_faulty, as_taken, as_imported, found_in, place_of};

use super::framecheck;
use super::framecheck::Remainders;
use refusals::Refusal;
use vectors::copying;

// A record of C's: its number says whether the rest counts.
#[repr(C)]
#[derive(Clone, Copy)]
pub struct Imported {
    pub number: u8,
    pub block: u32,
}

// Why octets are refused, and the place of the block at fault; 0 where no block is.
#[derive(Clone, Copy)]
struct Faulty {
    refusal: Refusal,
    block: u32,
}

// Whether so many octets are whole blocks, at most 128 of them.
fn is_whole(long: usize) -> bool
    ensures { result ≡ whole_blocks long }
{
    long % 512 == 0 && long / 512 <= 128
}

// How many octets of a block are used.
fn used(block: &[u8]) -> usize
    requires { length block.now ≡ 512 }
    ensures { (result ≡ used_in block.now) × (result < 65536) }
{
    u16::from_be_bytes([block[4], block[5]]) as usize
}

// The number that a block says of itself.
fn number(block: &[u8]) -> usize
    requires { length block.now ≡ 512 }
    ensures { result ≡ number_in block.now }
{
    u32::from_be_bytes([block[0], block[1], block[2], block[3]]) as usize
}

// Whether the check of a block is right.
fn is_sound(block: &[u8], t: &Remainders) -> bool
    requires { length block.now ≡ 512 }
    ensures { result ≡ sound 510 block.now }
{
    framecheck::over(&block[..510], t) == u16::from_be_bytes([block[510], block[511]])
}

fn count_right(last: bool, used: usize) -> bool
    ensures { result ≡ count_right_of last used }
{
    if last {
        1 <= used && used <= 504
    } else {
        used == 504
    }
}

// Whether all of the octets are zeros.
fn clear(octets: &[u8]) -> bool
    ensures { result ≡ clear_of octets.now }
{
    octets.iter().all(|octet| *octet == 0)
}

// Whether zeros stand after the used octets.
fn is_filled(block: &[u8], used: usize) -> bool
    requires { (length block.now ≡ 512) × (used ≡ used_in block.now) × (used ≤ 504) }
    ensures { result ≡ clear_of (filling_in block.now) }
{
    let from = 6 + used;
    clear(&block[from..510])
}

// The fault of a block at a place: its check, its number, its count or its filling.
fn fault(place: usize, last: bool, block: &[u8], t: &Remainders) -> Result<(), Refusal>
    requires { length block.now ≡ 512 }
    ensures { refused_in result ≡ fault_of place last block.now }
{
    if !is_sound(block, t) {
        return Err(Refusal::BlockCheck);
    }
    if number(block) != place {
        return Err(Refusal::BlockNumber);
    }
    let n = used(block);
    if !count_right(last, n) {
        return Err(Refusal::BlockCount);
    }
    if !is_filled(block, n) {
        return Err(Refusal::BlockCount);
    }
    Ok(())
}

// The fault of the lowest block at fault, with its place.
fn first_fault(blocks: &[u8], n: usize, t: &Remainders) -> Result<(), Faulty>
    requires { (length blocks.now ≡ 512 * n) × (n ≤ 128) }
    ensures { as_faulty result ≡ first_fault_of n 0 blocks.now }
{
    for k in 0..n {
        let at = k * 512;
        let past = at + 512;
        match fault(k, k + 1 == n, &blocks[at..past], t) {
            Ok(()) => {}
            Err(refusal) => {
                return Err(Faulty {
                    refusal,
                    block: k as u32,
                });
            }
        }
    }
    Ok(())
}

// What is at fault with some octets: a length not of whole blocks or too many, then the lowest block at fault.
fn found(blocks: &[u8]) -> Result<(), Faulty>
    ensures { as_faulty result ≡ found_in blocks.now }
{
    if !is_whole(blocks.len()) {
        return Err(Faulty {
            refusal: Refusal::TooLong,
            block: 0,
        });
    }
    let t = framecheck::table();
    first_fault(blocks, blocks.len() / 512, &t)
}

// The place of what is at fault with some octets. So short an answer comes back in registers, and of two equal calls the compiler may
// make one: so `fromblocks`, which asks for the room and then imports, looks through its blocks once.
fn place_at_fault(blocks: &[u8]) -> Option<u32>
    ensures { result ≡ place_of (found_in blocks.now) }
{
    match found(blocks) {
        Ok(()) => None,
        Err(faulty) => Some(faulty.block),
    }
}

// What is at fault with some octets, where its place is known: the block there alone is looked at again. It is not inlined, so that its
// table and that of the first look never take stack together.
#[inline(never)]
fn fault_at(blocks: &[u8], block: u32) -> Result<(), Faulty>
    requires { Some block ≡ place_of (found_in blocks.now) }
    ensures { as_faulty result ≡ found_in blocks.now }
{
    if !is_whole(blocks.len()) {
        return Err(Faulty {
            refusal: Refusal::TooLong,
            block: 0,
        });
    }
    let n = blocks.len() / 512;
    let place = block as usize;
    let at = place * 512;
    let past = at + 512;
    let t = framecheck::table();
    match fault(place, place + 1 == n, &blocks[at..past], &t) {
        Ok(()) => Ok(()),
        Err(refusal) => Err(Faulty { refusal, block }),
    }
}

// How many octets are used in n blocks, all but the last of them full.
fn room(blocks: &[u8], n: usize) -> usize
    requires { (length blocks.now ≡ 512 * n) × (n ≤ 128) × ((first_fault_of n 0 blocks.now).number ≡ 0) }
    ensures { result ≡ length (imported_of n blocks.now) }
{
    if n == 0 {
        return 0;
    }
    let last = n - 1;
    let at = last * 512;
    504 * last + used(&blocks[at..])
}

// The used octets of n blocks, one block after another.
fn take_data(blocks: &[u8], n: usize, out: &mut [u8])
    requires { (length blocks.now ≡ 512 * n) × (n ≤ 128) × ((first_fault_of n 0 blocks.now).number ≡ 0)
        × (length out.old ≡ length (imported_of n blocks.now)) }
    ensures { out.new ≡ imported_of n blocks.now }
{
    let mut end: usize = 0;
    for k in 0..n {
        let at = k * 512;
        let past = at + 512;
        let count = used(&blocks[at..past]);
        let from = at + 6;
        let to = from + count;
        let start = end;
        end = start + count;
        copying::copy(&blocks[from..to], &mut out[start..end]);
    }
}

// The octets of a recording in blocks, or why there are none.
fn take_blocks(blocks: &[u8], out: &mut [u8]) -> Result<(), Faulty>
    ensures { as_taken result out.new ≡ import_answer blocks.now out.old }
{
    if let Some(block) = place_at_fault(blocks) {
        return fault_at(blocks, block);
    }
    let n = blocks.len() / 512;
    if out.len() != room(blocks, n) {
        return Err(Faulty {
            refusal: Refusal::OutputLength,
            block: 0,
        });
    }
    take_data(blocks, n, out);
    Ok(())
}

// The octets of a recording in blocks: 20 for a length not of whole blocks or too many, 21 to 23 for the lowest block at fault, 3 if the
// output is not as long as needed.
pub fn import_blocks(blocks: &[u8], out: &mut [u8]) -> Imported
    ensures { as_imported result out.new ≡ import_answer blocks.now out.old }
{
    match take_blocks(blocks, out) {
        Ok(()) => Imported {
            number: 0,
            block: 0,
        },
        Err(faulty) => {
            let refusal = faulty.refusal;
            Imported {
                number: refusal.number(),
                block: faulty.block,
            }
        }
    }
}

// The room that import needs, 0 where there is none.
pub fn imported_octets(blocks: &[u8]) -> usize
    ensures { result ≡ import_room blocks.now }
{
    match place_at_fault(blocks) {
        None => room(blocks, blocks.len() / 512),
        Some(_) => 0,
    }
}
