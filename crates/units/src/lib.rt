// Telecommand transmission units of codes 1 and 3, written, and their lengths.

#![tactic(auto)]

pub mod readings;
pub mod unitoffers;
pub mod unitreader;
pub mod unitrules;

ghost use Rattle.std.specs.Prelude.{◌≡◌, ◌++◌, ◌+◌, ◌-◌, ◌*◌, ◌<◌, ◌≤◌, length, replicate, IfOk};
ghost use Rattle.bits.specs.Bits.{bit};
ghost use Rattle.rules.specs.Codes.{code as code_of};
ghost use Rattle.rules.specs.Encoding.{lifted, encoded, written as written_of};
ghost use Rattle.codes.specs.Answers.{as_encoded};
ghost use Rattle.refusals.specs.Numbers.{number_in};
ghost use Rattle.randomiser.specs.Randomiser.{telecommand, randomised};
ghost use Rattle.units.specs.unitrules.Units.{start, tail as tail_of, blocks_for, codeblock};
ghost use Rattle.units.specs.unitrules.Units.{codeblocks, unit as unit_of, unit_length};
ghost use Rattle.units.specs.unitrules.Units.{unit_octets_of, write_answer};
ghost use Rattle.units.specs.Numbers.{write_number_of};

use refusals::Refusal;
use unitoffers::{START, TAIL, UnitCode, unit_of};

// The octets of a unit, 0 where there is none.
pub fn unit_octets(code: u8, long: usize) -> usize
    ensures { result ≡ unit_octets_of code long }
{
    let u = unit_of(code);
    if !u.offered {
        return 0;
    }
    if long == 0 {
        return 0;
    }
    let blocks = (long - 1) / u.information + 1;
    if blocks < u.most {
        let ends = 8 + u.tail;
        return u.word * blocks + ends;
    }
    0
}

// A whole part of the information as a codeblock, randomised; `used` octets of codeblocks came before.
fn write_part(code: UnitCode, part: &[u8], used: usize, out: &mut [u8])
    requires { (length part.now ≡ (code_of code.number).octets_of_information)
        × (length out.old ≡ (code_of code.number).octets_of_word) }
    ensures { out.new ≡ randomised telecommand used
        (written_of (code_of code.number) (encoded (code_of code.number) (lifted (code_of code.number) (bit part.now)))) }
{
    codes::encode(code.number, part, out);
    randomiser::randomise(out, used);
}

fn fill() -> [u8; 32]
    ensures { replicate 32 0x55 ≡ result }
{
    [0x55; 32]
}

// The last part of the information, with its fill.
fn write_last(code: UnitCode, rest: &[u8], used: usize, out: &mut [u8])
    requires { (length rest.now < (code_of code.number).octets_of_information)
        × (length out.old ≡ (code_of code.number).octets_of_word) }
    ensures { out.new ≡ randomised telecommand used
        (written_of (code_of code.number) (encoded (code_of code.number)
        (lifted (code_of code.number) (bit (rest.now ++ replicate
        ((code_of code.number).octets_of_information - length rest.now) 0x55))))) }
{
    let mut part = fill();
    let long = rest.len();
    part[..long].copy_from_slice(rest);
    let size = code.information_octets();
    write_part(code, &part[..size], used, out);
}

// Codeblock k.
fn write_block(code: UnitCode, information: &[u8], k: usize, used: usize, out: &mut [u8])
    requires { (k * (code_of code.number).octets_of_information < length information.now)
        × (length out.old ≡ (code_of code.number).octets_of_word) }
    ensures { out.new ≡ randomised telecommand used (codeblock code.number information.now k) }
{
    let size = code.information_octets();
    let from = k * size;
    let left = information.len() - from;
    if left < size {
        write_last(code, &information[from..], used, out);
    } else {
        let end = from + size;
        write_part(code, &information[from..end], used, out);
    }
}

// All codeblocks, into an output that they fill.
fn write_blocks(code: UnitCode, information: &[u8], out: &mut [u8])
    requires { length out.old ≡ blocks_for code.number (length information.now) * (code_of code.number).octets_of_word }
    ensures { out.new ≡ randomised telecommand 0
        (codeblocks code.number information.now (blocks_for code.number (length information.now))) }
{
    let word = code.word_octets();
    for k in 0..out.len() / word {
        let at = k * word;
        let end = at + word;
        write_block(code, information, k, at, &mut out[at..end]);
    }
}

fn write_tail(code: UnitCode, out: &mut [u8])
    requires { length out.old ≡ length (tail_of code.number) }
    ensures { out.new ≡ tail_of code.number }
{
    let long = code.tail_octets();
    out.copy_from_slice(&TAIL[..long]);
}

fn write_start(out: &mut [u8])
    requires { length out.old ≡ 8 }
    ensures { out.new ≡ start }
{
    out.copy_from_slice(&START);
}

// The start and all codeblocks, into an output that they fill.
fn write_front(code: UnitCode, information: &[u8], out: &mut [u8])
    requires { length out.old ≡ 8 + blocks_for code.number (length information.now) * (code_of code.number).octets_of_word }
    ensures { out.new ≡ start ++ randomised telecommand 0
        (codeblocks code.number information.now (blocks_for code.number (length information.now))) }
{
    write_start(&mut out[..8]);
    write_blocks(code, information, &mut out[8..]);
}

// The tail behind them.
fn write_taken(code: UnitCode, information: &[u8], out: &mut [u8])
    requires { length out.old ≡ unit_length code.number (length information.now) }
    ensures { out.new ≡ unit_of code.number information.now }
{
    let room = out.len() - code.tail_octets();
    write_front(code, information, &mut out[..room]);
    write_tail(code, &mut out[room..]);
}

// Whether so much information can be written into so much room: the code that it is written by.
fn writable(code: u8, long: usize, room: usize) -> Result<UnitCode, Refusal>
    ensures numbered { number_in result ≡ write_number_of code long room }
    ensures given { IfOk result (λ u. u.number ≡ code) }
{
    let Some(unit_code) = UnitCode::of(code) else {
        return Err(Refusal::Code);
    };
    if long == 0 {
        return Err(Refusal::InputLength);
    }
    let needed = unit_octets(code, long);
    if needed == 0 {
        return Err(Refusal::OutputLength);
    }
    if room != needed {
        return Err(Refusal::OutputLength);
    }
    Ok(unit_code)
}

// A unit of the information, or why there is none.
fn written(code: u8, information: &[u8], out: &mut [u8]) -> Result<(), Refusal>
    ensures { as_encoded (number_in result) out.new ≡ write_answer code information.now out.old }
{
    let unit_code = writable(code, information.len(), out.len())?;
    write_taken(unit_code, information, out);
    Ok(())
}

// A unit of the information.
pub fn write_unit(code: u8, information: &[u8], out: &mut [u8]) -> u8
    ensures { as_encoded result out.new ≡ write_answer code information.now out.old }
{
    refusals::number(written(code, information, out))
}
