// Reads blocks of the lab's disk from standard input and writes the octets of the recording.
#![tactic(auto)]

use blocks::importing;
use std::process::ExitCode;
use streams::recordings;
use streams::recordings::Refused;

// The octets of the blocks at the front of the room.
fn import(blocks: &[u8], room: &mut [u8]) -> Result<usize, Refused> {
    let n = importing::imported_octets(blocks).min(room.len());
    let answer = importing::import_blocks(blocks, &mut room[..n]);
    if answer.number != 0 {
        return Err(Refused {
            number: answer.number,
            block: answer.block,
        });
    }
    Ok(n)
}

fn main(rt: HostRuntime) -> ExitCode {
    let ran = recordings::convert(
        "fromblocks",
        &mut rt.stdin(),
        &mut rt.stdout(),
        &mut rt.stderr(),
        import,
    );
    streams::end(&rt, "fromblocks", ran)
}
