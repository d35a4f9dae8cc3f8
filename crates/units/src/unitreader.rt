// The reader as a struct that holds the unit's slice and a place. Each function over it only takes it apart or puts it together; `begin`
// and `block_at` do the work on a plain slice and numbers.
ghost use Rattle.std.specs.Prelude.{◌≡◌, [], eqb, replicate};
ghost use Rattle.bits.specs.Bits.{when◌then◌else◌};
ghost use Rattle.units.specs.unitrules.Units.{reader_number_of, reading_from};
ghost use Rattle.units.specs.readings.Answers.{as_reading};
ghost use Rattle.units.specs.unitreader.Named.{handed_at, as_block, made_over, as_made, moved_to};

use super::readings::{Handed, Reading};
use super::{readings, unitoffers};
use flipping::endings;

#[derive(Clone, Copy)]
pub struct Reader<'a> {
    pub unit: &'a [u8],
    pub place: usize,
    pub code: u8,
    pub limit: u16,
}

// An asking's answer with the octets that it hands out, and zeros behind them; `handed.next.place` is where the reader stands next.
#[derive(Clone, Copy)]
pub struct Block {
    pub handed: Handed,
    pub octets: [u8; 32],
}

fn buffer() -> [u8; 32]
    ensures { replicate 32 0 ≡ result }
{
    [0; 32]
}

// A reading that stands at a place.
fn standing(place: usize, code: u8, limit: u16) -> Reading
    ensures { as_reading result ≡ reading_from 0 code limit place }
{
    let kept = endings::refused_correct(0);
    Reading {
        kept,
        code,
        limit,
        place,
    }
}

// The codeblock at a place of a unit.
pub fn block_at(unit: &[u8], place: usize, code: u8, limit: u16) -> Block
    ensures { as_block result ≡ handed_at unit.now place code limit }
{
    let state = standing(place, code, limit);
    let size = unitoffers::room(code);
    let mut octets = buffer();
    let handed = readings::read(state, unit, &mut octets[..size]);
    Block { handed, octets }
}

// The number of a reader over a unit, and the octets that it stands on: none where it is refused.
fn begin<'a>(code: u8, unit: &'a [u8], limit: u16, number: &mut u8) -> &'a [u8]
    ensures { (number.new ≡ reader_number_of code unit.now)
        × (result.now ≡ (when eqb (reader_number_of code unit.now) 0 then unit.now else [])) }
{
    let state = readings::reader(code, unit, limit);
    let kept = state.kept;
    *number = kept.number;
    if kept.number != 0 {
        return &unit[..0];
    }
    unit
}

// A reader over a unit, at its first codeblock, where the number is 0. The theorem `reader_over_says` holds the number's place.
pub fn reader_over<'a>(code: u8, unit: &'a [u8], limit: u16, number: &mut u8) -> Reader<'a>
    ensures { as_made number.new result ≡ made_over code unit.now limit }
{
    let stands = begin(code, unit, limit, number);
    Reader {
        unit: stands,
        place: 0,
        code,
        limit,
    }
}

// The codeblock where the reader stands.
pub fn next<'a>(r: Reader<'a>) -> Block
    ensures { as_block result ≡ handed_at r.entry.unit.now r.entry.place r.entry.code r.entry.limit }
{
    block_at(r.unit, r.place, r.code, r.limit)
}

// The reader at another place.
pub fn moved<'a>(r: Reader<'a>, to: usize) -> Reader<'a>
    ensures { result ≡ moved_to r.entry to }
{
    Reader { place: to, ..r }
}
