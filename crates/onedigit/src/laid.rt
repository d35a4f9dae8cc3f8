// The published tables laid flat for `ties`, from the constants of the library. Each says which table of rules it stands for.
ghost use Rattle.std.specs.Prelude.{◌≡◌, ◌<◌, length};
ghost use Rattle.rules.specs.Tables.{parity16, parity32, parity64, parity511, generator16, generator32, generator64, generator511};
ghost use Rattle.identity.specs.ties.Flat.{parity_of, generator_of};
ghost use Rattle.onedigit.specs.Laid.{third_none, threes, words4, words28};
ghost use Rattle.layout.specs.Rooms.{table_room};

use catalogue::tables;
use identity::printed;
use identity::ties::Sizes;
use layout::TABLE;

// Codes 1 to 3 have four rows of four information blocks and four parity blocks; codes 4 and 5 have two rows of 14 and two.
pub const SIZES_16: Sizes = Sizes {
    m: 16,
    rows: 4,
    information_blocks: 4,
    parity_blocks: 4,
};

pub const SIZES_32: Sizes = Sizes {
    m: 32,
    rows: 4,
    information_blocks: 4,
    parity_blocks: 4,
};

pub const SIZES_64: Sizes = Sizes {
    m: 64,
    rows: 4,
    information_blocks: 4,
    parity_blocks: 4,
};

pub const SIZES_511: Sizes = Sizes {
    m: 511,
    rows: 2,
    information_blocks: 14,
    parity_blocks: 2,
};

// A place without a shift.
const NO: u16 = 65535;

// Place i of three for each block: the library's two, and one for an entry too many.
fn place(h: &[u16], i: usize) -> u16
    requires { (length h.now ≡ table_room) × (i < 96) }
    ensures { result ≡ third_none h.now i }
{
    if i % 3 == 2 {
        return NO;
    }
    h[i / 3 * 2 + i % 3]
}

fn spread(h: &[u16]) -> [u16; 96]
    requires { length h.now ≡ table_room }
    ensures { result ≡ threes h.now }
{
    let mut p = [NO; 96];
    for i in 0..96 {
        p[i] = place(h, i);
    }
    p
}

// The words of a generator table, row after row.
fn flat4(nested: &[[u64; 4]; 4]) -> [u64; 16]
    ensures { result ≡ words4 nested.now }
{
    let mut g = [0u64; 16];
    for i in 0..16 {
        g[i] = nested[i / 4][i % 4];
    }
    g
}

fn flat28(nested: &[[[u64; 8]; 2]; 14]) -> [u64; 224]
    ensures { result ≡ words28 nested.now }
{
    let mut g = [0u64; 224];
    for i in 0..224 {
        g[i] = nested[i / 16][i / 8 % 2][i % 8];
    }
    g
}

// A function for each table, since the clause of each names its own.
pub fn parity_16() -> [u16; 96]
    ensures { parity_of 16 4 8 result ≡ parity16 }
{
    let mut h = [0u16; TABLE];
    tables::lend16(&mut h);
    spread(&h)
}

pub fn generator_16() -> [u64; 16]
    ensures { generator_of 16 4 4 result ≡ generator16 }
{
    let nested = printed::rows16();
    flat4(&nested)
}

pub fn parity_32() -> [u16; 96]
    ensures { parity_of 32 4 8 result ≡ parity32 }
{
    let mut h = [0u16; TABLE];
    tables::lend32(&mut h);
    spread(&h)
}

pub fn generator_32() -> [u64; 16]
    ensures { generator_of 32 4 4 result ≡ generator32 }
{
    let nested = printed::rows32();
    flat4(&nested)
}

pub fn parity_64() -> [u16; 96]
    ensures { parity_of 64 4 8 result ≡ parity64 }
{
    let mut h = [0u16; TABLE];
    tables::lend64(&mut h);
    spread(&h)
}

pub fn generator_64() -> [u64; 16]
    ensures { generator_of 64 4 4 result ≡ generator64 }
{
    let nested = printed::rows64();
    flat4(&nested)
}

pub fn parity_511() -> [u16; 96]
    ensures { parity_of 511 2 16 result ≡ parity511 }
{
    let mut h = [0u16; TABLE];
    tables::lend511(&mut h);
    spread(&h)
}

pub fn generator_511() -> [u64; 224]
    ensures { generator_of 511 14 2 result ≡ generator511 }
{
    let nested = printed::rows511();
    flat28(&nested)
}
