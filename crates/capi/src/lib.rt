// The calls for C and Rust. A slice is handed over as a pointer and its length; the records are those of the calls.

#![tactic(auto)]

ghost use Rattle.std.specs.Prelude.{◌≡◌, ◌+◌, ◌*◌, length};
ghost use Rattle.answers.specs.Calls.{word_octets_answer, information_octets_answer, encode_answer, check_answer, open_answer};
ghost use Rattle.answers.specs.Calls.{correct_answer};
ghost use Rattle.answers.specs.Calls.{step_answer};
ghost use Rattle.answers.specs.Lists.{list_answer};
ghost use Rattle.lists.specs.listing.Answers.{as_entries, as_listed};
ghost use Rattle.magnitudes.specs.Patterns.{samples_of};
ghost use Rattle.samples.specs.Answers.{samples_answer};
ghost use Rattle.codes.specs.Answers.{as_encoded, as_checked, as_stepped};
ghost use Rattle.flipping.specs.endings.Answers.{as_corrected};
ghost use Rattle.units.specs.unitrules.Units.{unit_octets_of, write_answer, reader_answer, read_answer};
ghost use Rattle.units.specs.readings.Answers.{as_reading, as_handed};
ghost use Rattle.bch.specs.Bch.{bch_encode_answer, bch_check_answer};
ghost use Rattle.bch.specs.Answers.{as_encoded as as_bch_encoded, as_mended};
ghost use Rattle.quick.specs.Quick.{quick_answer};
ghost use Rattle.quick.specs.Answers.{as_quick};
ghost use Rattle.nearest.specs.Nearest.{nearest_answer};
ghost use Rattle.nearest.specs.Answers.{as_reached};
ghost use Rattle.telemetry.specs.taker.Taking.{new_taker, taker_for_answer, take_answer};
ghost use Rattle.telemetry.specs.taker.Answers.{as_taker, as_made, as_taken};
ghost use Rattle.blocks.specs.Blocks.{export_answer, export_room, import_answer, import_room};
ghost use Rattle.blocks.specs.importing.Answers.{as_imported};
ghost use Rattle.blocks.specs.exporting.Answers.{as_exported};

use bch::Mended;
use blocks::importing::Imported;
use blocks::{exporting, importing};
use catalogue::offer;
use codes::{Checked, Stepped};
use flipping::endings::Corrected;
use lists::listing::{FlipRecord, Listed};
use nearest::Reached;
use quick::Answered;
use telemetry::taker::{Made, Taken, Taker};
use units::readings;
use units::readings::{Handed, Reading};

// The version that the header names: 65536 times its major number, 256 times its minor number, and its patch number. The major
// number moves with the records and with what the calls take.
#[unsafe(no_mangle)]
pub extern "C" fn pandoricchia_version() -> u32
    ensures { result ≡ 65536 * 0 + 256 * 10 + 0 }
{
    65536 * 0 + 256 * 10 + 0
}

// The octets of a word; 0 for a code that is not offered.
#[unsafe(no_mangle)]
pub extern "C" fn pandoricchia_word_octets(code: u8) -> usize
    ensures { result ≡ word_octets_answer code }
{
    if !offer::is_offered(code) {
        return 0; // no words
    }
    offer::word_octets(code)
}

// The octets of a word's information; 0 for a code that is not offered.
#[unsafe(no_mangle)]
pub extern "C" fn pandoricchia_information_octets(code: u8) -> usize
    ensures { result ≡ information_octets_answer code }
{
    if !offer::is_offered(code) {
        return 0; // no information
    }
    offer::information_octets(code)
}

#[unsafe(no_mangle)]
pub extern "C" fn pandoricchia_encode(code: u8, information: &[u8], word: &mut [u8]) -> u8
    ensures { as_encoded result word.new ≡ encode_answer code information.now word.old }
{
    codes::encode(code, information, word)
}

#[unsafe(no_mangle)]
pub extern "C" fn pandoricchia_check(code: u8, word: &[u8]) -> Checked
    ensures { as_checked result ≡ check_answer code word.now }
{
    codes::check(code, word)
}

#[unsafe(no_mangle)]
pub extern "C" fn pandoricchia_quick(code: u8, word: &[u8]) -> Answered
    ensures { as_quick result ≡ quick_answer code word.now }
{
    quick::quick(code, word)
}

// What open gives, with the number of leading octets for the part: a returned reference has no form in C.
// A record of C's: its number says whether the rest counts.
#[repr(C)]
#[derive(Clone, Copy)]
pub struct Opened {
    pub number: u8,
    pub lowest: u32,
    pub octets: usize,
}

#[unsafe(no_mangle)]
pub extern "C" fn pandoricchia_open(code: u8, word: &[u8]) -> Opened
    ensures { (result.number ≡ (open_answer code word.now).number) × (result.lowest ≡ (open_answer code word.now).lowest)
        × (result.octets ≡ length (open_answer code word.now).part) }
{
    let opened = codes::open(code, word);
    let part = opened.part;
    Opened {
        number: opened.number,
        lowest: opened.lowest,
        octets: part.len(),
    }
}

#[unsafe(no_mangle)]
pub extern "C" fn pandoricchia_correct(
    code: u8,
    word: &[u8],
    limit: u16,
    out: &mut [u8],
) -> Corrected
    ensures { as_corrected result out.new ≡ correct_answer code word.now limit out.old }
{
    codes::correct(code, word, limit, out)
}

// The same on samples, one for each bit, whose sizes decide between bits of equal excess. C and Rust hand over floats, and their bit
// patterns are read.
#[unsafe(no_mangle)]
pub extern "C" fn pandoricchia_correct_samples(
    code: u8,
    samples: &[u32],
    limit: u16,
    out: &mut [u8],
) -> Corrected
    ensures { as_corrected result out.new ≡ samples_answer code (samples_of samples.now) limit out.old }
{
    samples::correct_patterns(code, samples, limit, out)
}

// The run's list, a record for each flip, into the caller's table.
#[unsafe(no_mangle)]
pub extern "C" fn pandoricchia_list(
    code: u8,
    word: &[u8],
    limit: u16,
    table: &mut [FlipRecord],
) -> Listed
    ensures { as_listed result table.new ≡ list_answer code word.now limit (as_entries table.old) }
{
    lists::list(code, word, limit, table)
}

#[unsafe(no_mangle)]
pub extern "C" fn pandoricchia_step(code: u8, word: &[u8], out: &mut [u8]) -> Stepped
    ensures { as_stepped result out.new ≡ step_answer code word.now out.old }
{
    codes::step(code, word, out)
}

#[unsafe(no_mangle)]
pub extern "C" fn pandoricchia_unit_octets(code: u8, information_len: usize) -> usize
    ensures { result ≡ unit_octets_of code information_len }
{
    units::unit_octets(code, information_len)
}

#[unsafe(no_mangle)]
pub extern "C" fn pandoricchia_write_unit(code: u8, information: &[u8], out: &mut [u8]) -> u8
    ensures { as_encoded result out.new ≡ write_answer code information.now out.old }
{
    units::write_unit(code, information, out)
}

// The reader's state is the caller's, by value: a struct that holds the unit's slice has no form in C.
#[unsafe(no_mangle)]
pub extern "C" fn pandoricchia_reader(code: u8, unit: &[u8], limit: u16) -> Reading
    ensures { as_reading result ≡ reader_answer code unit.now limit }
{
    readings::reader(code, unit, limit)
}

#[unsafe(no_mangle)]
pub extern "C" fn pandoricchia_read(state: Reading, unit: &[u8], out: &mut [u8]) -> Handed
    ensures { as_handed result out.new ≡ read_answer (as_reading state) unit.now out.old }
{
    readings::read(state, unit, out)
}

#[unsafe(no_mangle)]
pub extern "C" fn pandoricchia_bch_encode(information: &[u8], word: &mut [u8]) -> u8
    ensures { as_bch_encoded result word.new ≡ bch_encode_answer information.now word.old }
{
    bch::bch_encode(information, word)
}

#[unsafe(no_mangle)]
pub extern "C" fn pandoricchia_bch_check(detect_only: bool, word: &[u8], out: &mut [u8]) -> Mended
    ensures { as_mended result out.new ≡ bch_check_answer detect_only word.now out.old }
{
    bch::bch_check(detect_only, word, out)
}

#[unsafe(no_mangle)]
pub extern "C" fn pandoricchia_import_blocks(blocks: &[u8], out: &mut [u8]) -> Imported
    ensures { as_imported result out.new ≡ import_answer blocks.now out.old }
{
    importing::import_blocks(blocks, out)
}

#[unsafe(no_mangle)]
pub extern "C" fn pandoricchia_imported_octets(blocks: &[u8]) -> usize
    ensures { result ≡ import_room blocks.now }
{
    importing::imported_octets(blocks)
}

#[unsafe(no_mangle)]
pub extern "C" fn pandoricchia_export_blocks(octets: &[u8], out: &mut [u8]) -> u8
    ensures { as_exported result out.new ≡ export_answer octets.now out.old }
{
    exporting::export_blocks(octets, out)
}

#[unsafe(no_mangle)]
pub extern "C" fn pandoricchia_exported_octets(octets_len: usize) -> usize
    ensures { result ≡ export_room octets_len }
{
    exporting::exported_octets(octets_len)
}

#[unsafe(no_mangle)]
pub extern "C" fn pandoricchia_nearest(word: &[u8], reach: u8, out: &mut [u8]) -> Reached
    ensures { as_reached result out.new ≡ nearest_answer word.now reach out.old }
{
    nearest::nearest(word, reach, out)
}

#[unsafe(no_mangle)]
pub extern "C" fn pandoricchia_taker(limit: u16) -> Taker
    ensures { as_taker result ≡ new_taker limit }
{
    Taker::new(limit)
}

#[unsafe(no_mangle)]
pub extern "C" fn pandoricchia_taker_for(edition: u8, limit: u16) -> Made
    ensures { as_made result ≡ taker_for_answer edition limit }
{
    Taker::told(edition, limit)
}

#[unsafe(no_mangle)]
pub extern "C" fn pandoricchia_take(state: Taker, part: &[u8]) -> Taken
    ensures { as_taken result ≡ take_answer (as_taker state) part.now }
{
    state.take(part)
}
