// Writes a telecommand transmission unit: one octet code, then information to the end; the unit goes to standard output.
#![tactic(auto)]

use std::io::{Read, Write};
use std::process::ExitCode;
use streams::Failure;

// The most information.
const INFORMATION: usize = 65536;

// The longest unit of as much, code 1's.
const UNIT: usize = 131096;

// Whether the input is at its end; if not, why it can't be taken is said.
fn ended<R: Read, E: Write>(input: &mut R, errors: &mut E) -> Result<bool, Failure> {
    if streams::is_ended(input)? {
        return Ok(true);
    }
    let _ = errors.write_all(b"unitwrite: more than 65536 octets of information\n");
    Ok(false)
}

fn refused<E: Write>(errors: &mut E, number: u8) {
    let _ = writeln!(errors, "unitwrite: no unit is written: {number}");
}

fn write<W: Write, E: Write>(
    output: &mut W,
    errors: &mut E,
    code: u8,
    information: &[u8],
    unit: &mut [u8],
) -> Result<(), Failure> {
    let number = units::write_unit(code, information, unit);
    if number != 0 {
        refused(errors, number);
        return Ok(());
    }
    streams::write(output, unit)
}

// The unit of what is read, out.
fn run<R: Read, W: Write, E: Write>(
    input: &mut R,
    output: &mut W,
    errors: &mut E,
) -> Result<(), Failure> {
    let mut code = [0u8; 1];
    streams::fill(input, &mut code)?;
    let mut information = [0u8; INFORMATION];
    let n = streams::fill(input, &mut information)?;
    if !ended(input, errors)? {
        return Ok(());
    }
    let mut unit = [0u8; UNIT];
    let long = units::unit_octets(code[0], n);
    if long <= UNIT {
        write(
            output,
            errors,
            code[0],
            &information[..n],
            &mut unit[..long],
        )?;
    }
    Ok(())
}

fn main(rt: HostRuntime) -> ExitCode {
    let ran = run(&mut rt.stdin(), &mut rt.stdout(), &mut rt.stderr());
    streams::end(&rt, "unitwrite", ran)
}
