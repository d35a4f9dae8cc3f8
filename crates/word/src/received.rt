// Words as they are handed over: octets in, and octets out.
ghost use Rattle.std.specs.Prelude.{◌≡◌, false, ◌+◌, ◌-◌, ◌*◌, ◌/◌, ◌<◌, ◌≤◌, length};
ghost use Rattle.bits.specs.Bits.{bit, digit};
ghost use Rattle.rules.specs.Codes.{Code, bits as bits_of};
ghost use Rattle.rules.specs.Encoding.{lifted, written};
ghost use Rattle.vectors.specs.Vectors.{wbit, Holds, up_to, from, later};
ghost use Rattle.layout.specs.Rooms.{word_room};

use catalogue::offer::KnownOffer;
use layout::WORD;

// A received word, and its code, which says how long it is.
#[derive(Clone, Copy)]
pub struct Received<'a> {
    pub code: KnownOffer,
    pub word: &'a [u8],
    pub ghost whole: { length word.now ≡ code.offer.word },
}

// Octets as they are sent, and how many of the word's bits stand in front of them and are not.
#[derive(Clone, Copy)]
pub struct Sent<'a> {
    pub octets: &'a [u8],
    pub unsent: usize,
    pub ghost few: { unsent ≤ 18 },
    pub ghost held: { length octets.now ≤ 1022 },
}

// The bits that the checks are over, from octets that are handed in, into a vector of zeros; the unsent ones stand in front as zeros.
pub fn take(sent: Sent, y: &mut [u64])
    requires { (length y.old ≡ word_room) × (wbit y.old ≡ (λ n. false)) }
    ensures { (c : Code) → sent.entry.unsent ≡ c.unsent → wbit y.new ≡ lifted c (bit sent.entry.octets.now) }
{
    let octets = sent.octets;
    let unsent = sent.unsent;
    if unsent > 0 {
        vectors::load_later(octets, unsent, y);
    } else {
        vectors::load(octets, y);
    }
}

// The octets of a word as it is sent: the unsent bits are left out, and zero bits follow the last of its bits, in one word with it.
// Where none follow, all are sent.
pub fn write(y: &mut [u64; WORD], unsent: usize, bits: usize, out: &mut [u8])
    requires { (unsent ≤ 18) × (length out.old ≤ 1022) × (8 * length out.old + unsent ≤ bits → unsent ≡ 0)
        × (8 * length out.old + unsent ≤ 64 * (bits / 64 + 1)) }
    ensures { (c : Code) → unsent ≡ c.unsent → bits ≡ bits_of c → length out.old ≡ c.octets_of_word
        → out.new ≡ written c (wbit y.old) }
{
    if bits < 8 * out.len() + unsent {
        vectors::trim_word(y, bits);
        vectors::store(y, unsent, out);
    } else {
        vectors::store(y, 0, out);
    }
}

// An octet, and zeros behind it.
pub fn leading(octet: u8) -> u64
    ensures { Holds result (up_to 8 (digit 8 octet)) }
{
    (octet as u64) << 56
}

// The 64 bits from bit t of octet at on.
fn window(octets: &[u8], at: usize, t: usize) -> u64
    requires { (t < 8) × (8 * at + t + 64 ≤ 8 * length octets.now) }
    ensures { Holds result (from (8 * at + t) (bit octets.now)) }
{
    let v = vectors::eight(octets, at);
    if t == 0 {
        return v;
    }
    vectors::funnel(v, leading(octets[at + 8]), t)
}

// The 511 bits from bit p on. The last word is read from one bit before its own, so that no octet past the bits is read.
fn cut(octets: &[u8], p: usize, v: &mut [u64])
    requires { (p + 511 ≤ 8 * length octets.now) × (length octets.now ≤ 1022) × (length v.old ≡ 8) }
    ensures { wbit v.new ≡ up_to 511 (from p (bit octets.now)) }
{
    let at = p / 8;
    let t = p % 8;
    for k in 0..7 {
        v[k] = window(octets, at + 8 * k, t);
    }
    let last = p + 447;
    v[7] = vectors::funnel(window(octets, last / 8, last % 8), 0, 1);
}

// The first 511 bits, cut short by the unsent ones.
fn cut_short(sent: Sent, v: &mut [u64])
    requires { (64 ≤ length sent.octets.now) × (length v.old ≡ 8) }
    ensures { wbit v.new ≡ up_to (511 - sent.entry.unsent) (up_to 511 (from 0 (bit sent.entry.octets.now))) }
{
    cut(sent.octets, 0, v);
    vectors::trim(v, 511 - sent.unsent);
}

// The first 511 bits, the unsent ones in front as zeros.
fn cut_first(sent: Sent, v: &mut [u64])
    requires { (64 ≤ length sent.octets.now) × (length v.old ≡ 8) }
    ensures { wbit v.new ≡ up_to 511 (later sent.entry.unsent (bit sent.entry.octets.now)) }
{
    cut_short(sent, v);
    vectors::lift(v, sent.unsent);
}

// Block b of a near-Earth word, from octets that reach as far, with the unsent bits in front as zeros.
pub fn cut_block(sent: Sent, b: usize, v: &mut [u64])
    requires { (b < 16) × (b * 511 + 511 ≤ 8 * length sent.octets.now + sent.unsent) × (64 ≤ length sent.octets.now)
        × (length v.old ≡ 8) }
    ensures { wbit v.new ≡ up_to 511 (from (b * 511) (later sent.entry.unsent (bit sent.entry.octets.now))) }
{
    if b == 0 {
        cut_first(sent, v);
    } else {
        cut(sent.octets, b * 511 - sent.unsent, v);
    }
}
