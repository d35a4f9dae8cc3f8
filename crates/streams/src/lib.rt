// What the bench's programs share: standard input read in parts, standard output written, and a failure said in one line.
#![tactic(auto)]

pub mod recordings;

ghost use Rattle.std.specs.Prelude.{◌≡◌, ◌+◌, ◌≤◌, ◌↔◌, length, IfOk, IsOk};
ghost use Rattle.std.specs.Io.{ReadsAtMost};
ghost use Rattle.std.specs.Process.{exit_status};

use std::io;
use std::io::{Read, Write};
use std::process::ExitCode;

// What ends a program before its work is done.
#[derive(Clone, Copy, Debug)]
pub enum Failure {
    Input(io::Error),
    Output(io::Error),
}

// A long array of zeros. Of one in place the check counts the octets one by one, of this one it knows their number.
pub fn zeros<const N: usize>() -> [u8; N]
    ensures { N ≡ length result }
{
    [0; N]
}

// One read: as much as comes, and nothing where the input has ended.
pub fn read<R: Read>(input: &mut R, part: &mut [u8]) -> Result<usize, Failure>
    ensures { ReadsAtMost result part.new }
{
    input.read(part).map_err(Failure::Input)
}

// Reads until the octets are full or the input ends, and says how many there are.
pub fn fill<R: Read>(input: &mut R, octets: &mut [u8]) -> Result<usize, Failure>
    ensures { ReadsAtMost result octets.new }
{
    let mut n = 0;
    // no `for`: a read brings as many as come
    while n < octets.len() {
        let more = read(input, &mut octets[n..])?;
        if more == 0 {
            return Ok(n);
        }
        n += more;
    }
    Ok(n)
}

// Whether the input is at its end; one octet is read to know it.
pub fn is_ended<R: Read>(input: &mut R) -> Result<bool, Failure> {
    let mut one = [0u8; 1];
    Ok(read(input, &mut one)? == 0)
}

// Writes a text whole.
pub fn write<W: Write>(output: &mut W, text: &[u8]) -> Result<(), Failure> {
    output.write_all(text).map_err(Failure::Output)
}

// The words of an error, without the number that std puts behind them.
fn words(text: &str) -> &str {
    match text.split_once(" (os error ") {
        Some((words, _)) => words,
        None => text,
    }
}

// A line on standard error: the program, what failed, and why.
fn say_why<R: Eprint + AllocGlobal>(
    rt: &R,
    name: &str,
    what: &str,
    error: &io::Error,
) -> io::Result<()> {
    let text = format!(in rt.alloc(); "{error}")?;
    let why = words(text.as_str());
    eprintln!(rt; "{name}: {what}: {why}")
}

fn say<R: Eprint + AllocGlobal>(rt: &R, name: &str, failure: Failure) -> io::Result<()> {
    match failure {
        Failure::Input(e) => say_why(rt, name, "standard input", &e),
        Failure::Output(e) => say_why(rt, name, "standard output", &e),
    }
}

// How a program ends: where it failed, that is said, and its status is not 0.
pub fn end<R: Eprint + AllocGlobal>(rt: &R, name: &str, ran: Result<(), Failure>) -> ExitCode
    ensures { exit_status result ≡ 0 ↔ IsOk ran }
{
    match ran {
        Ok(()) => ExitCode::SUCCESS,
        Err(failure) => {
            let _ = say(rt, name, failure);
            ExitCode::FAILURE
        }
    }
}
