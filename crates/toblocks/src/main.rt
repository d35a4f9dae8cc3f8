// Reads the octets of a recording from standard input and writes them in blocks of the lab's disk.
#![tactic(auto)]

use blocks::exporting;
use std::process::ExitCode;
use streams::recordings;
use streams::recordings::Refused;

// The blocks of the octets at the front of the room; where they are refused, no block is at fault.
fn export(octets: &[u8], room: &mut [u8]) -> Result<usize, Refused> {
    let n = exporting::exported_octets(octets.len()).min(room.len());
    let number = exporting::export_blocks(octets, &mut room[..n]);
    if number != 0 {
        return Err(Refused { number, block: 0 });
    }
    Ok(n)
}

fn main(rt: HostRuntime) -> ExitCode {
    let ran = recordings::convert(
        "toblocks",
        &mut rt.stdin(),
        &mut rt.stdout(),
        &mut rt.stderr(),
        export,
    );
    streams::end(&rt, "toblocks", ran)
}
