// A recording read whole, and what a call makes of it written.
use super::Failure;
use std::io::{Read, Write};

// Why a call makes nothing: the number of its refusal, and the block at fault, or 0.
#[derive(Clone, Copy)]
pub struct Refused {
    pub number: u8,
    pub block: u32,
}

// Writes what is made of all octets that are read, or a line that says why nothing is. The call is lent the octets and room for what it
// makes, and says how long that is.
pub fn convert<R, W, E, F>(
    name: &str,
    input: &mut R,
    output: &mut W,
    errors: &mut E,
    make: F,
) -> Result<(), Failure>
where
    R: Read,
    W: Write,
    E: Write,
    F: Fn(&[u8], &mut [u8]) -> Result<usize, Refused>,
    requires { F.IsAlwaysCallable make }
{
    // More than a recording holds in either form, so that more than fits is seen.
    let mut octets = [0u8; 65537];
    let mut room = [0u8; 65536];
    let n = super::fill(input, &mut octets)?;
    if n < octets.len() && !super::is_ended(input)? {
        return Ok(());
    }
    match make(&octets[..n], &mut room) {
        Ok(long) => super::write(output, &room[..long.min(room.len())]),
        Err(refused) => {
            let Refused { number, block } = refused;
            let _ = writeln!(errors, "{name}: refused: number {number} block {block}");
            Ok(())
        }
    }
}
