// Recordings into blocks. Each call takes any octets; what it refuses it refuses by number, and writes nothing.
ghost use Rattle.std.specs.Prelude.{◌≡◌, ◌++◌, ◌+◌, ◌-◌, ◌*◌, ◌/◌, ◌≤◌, length, take, replicate};
ghost use Rattle.blocks.specs.framecheck.FrameCheck.{framed};
ghost use Rattle.blocks.specs.Blocks.{two, four, front, block as block_of, exported as exported_of, export_answer, export_room};
ghost use Rattle.refusals.specs.Numbers.{number_in};
ghost use Rattle.blocks.specs.exporting.Answers.{as_exported};

use super::framecheck;
use super::framecheck::Remainders;
use refusals::Refusal;
use vectors::copying;

// The number of a block and its count.
fn put_head(place: u32, count: u16, out: &mut [u8])
    requires { length out.old ≡ 6 }
    ensures { out.new ≡ four place ++ two count }
{
    out[..4].copy_from_slice(&place.to_be_bytes());
    out[4..].copy_from_slice(&count.to_be_bytes());
}

// The used octets, and zeros after them.
fn put_data(used: &[u8], out: &mut [u8])
    requires { length used.now ≤ length out.old }
    ensures { out.new ≡ used.now ++ replicate (length out.old - length used.now) 0 }
{
    let n = used.len();
    copying::copy(used, &mut out[..n]);
    out[n..].fill(0);
}

// What the check is made over: head and data.
fn put_front(place: u32, used: &[u8], out: &mut [u8])
    requires { (length used.now ≤ 504) × (length out.old ≡ 510) }
    ensures { out.new ≡ front place used.now }
{
    put_head(place, used.len() as u16, &mut out[..6]);
    put_data(used, &mut out[6..]);
}

// The check behind the 510 octets that it is made over.
fn put_check(out: &mut [u8], t: &Remainders)
    requires { length out.old ≡ 512 }
    ensures { out.new ≡ framed (take 510 out.old) }
{
    let check = framecheck::over(&out[..510], t);
    out[510..].copy_from_slice(&check.to_be_bytes());
}

// One block.
fn put_block(place: u32, used: &[u8], out: &mut [u8], t: &Remainders)
    requires { (length used.now ≤ 504) × (length out.old ≡ 512) }
    ensures { out.new ≡ block_of place used.now }
{
    put_front(place, used, &mut out[..510]);
    put_check(out, t);
}

// As many blocks as the output holds.
fn put_blocks(octets: &[u8], n: usize, out: &mut [u8], t: &Remainders)
    requires { (n ≡ (length octets.now + 503) / 504) × (n ≤ 128) × (length out.old ≡ 512 * n) }
    ensures { out.new ≡ exported_of n 0 octets.now }
{
    for k in 0..n {
        let from = k * 504;
        let end = (from + 504).min(octets.len());
        let at = k * 512;
        let past = at + 512;
        put_block(k as u32, &octets[from..end], &mut out[at..past], t);
    }
}

// The blocks of a recording, or why there are none.
fn exported(octets: &[u8], out: &mut [u8]) -> Result<(), Refusal>
    ensures { as_exported (number_in result) out.new ≡ export_answer octets.now out.old }
{
    if 64512 < octets.len() {
        return Err(Refusal::TooLong);
    }
    let n = (octets.len() + 503) / 504;
    if out.len() != 512 * n {
        return Err(Refusal::OutputLength);
    }
    let t = framecheck::table();
    put_blocks(octets, n, out, &t);
    Ok(())
}

// The blocks of a recording: 20 for more than 64,512 octets, 3 if the output is not as long as needed.
pub fn export_blocks(octets: &[u8], out: &mut [u8]) -> u8
    ensures { as_exported result out.new ≡ export_answer octets.now out.old }
{
    refusals::number(exported(octets, out))
}

// The room that export needs for so many octets, 0 where there is none.
pub fn exported_octets(long: usize) -> usize
    ensures { result ≡ export_room long }
{
    if 64512 < long {
        return 0;
    }
    512 * ((long + 503) / 504)
}
