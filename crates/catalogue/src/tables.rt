// The parity tables as nested constants, rows of blocks of shift pairs, and how they are lent to the engine.
ghost use Rattle.std.specs.Prelude.{◌≡◌, true, ℕ, ◌+◌, ◌≤◌, ◌<◌, ◌*◌, length};
ghost use Rattle.rules.specs.Codes.{offered};
ghost use Rattle.rules.specs.Tables.{parity16, parity32, parity64, parity511};
ghost use Rattle.catalogue.specs.offer.Offers.{offer_of};
ghost use Rattle.catalogue.specs.tables.Flat.{RowLaid, pairs, flat, flat8, flat16, Lends};
ghost use Rattle.layout.specs.Rooms.{table_room};

use super::offer::{NEAR_EARTH, telecommand_shape};
use layout::Shape;

// No entry: a number that is no shift of any table.
const NONE: u16 = 65535;

// Table 2-4 of document 001, M = 16.
const PARITY16: [[[u16; 2]; 8]; 4] = [
    [
        [0, 7],
        [2, NONE],
        [14, NONE],
        [6, NONE],
        [NONE, NONE],
        [0, NONE],
        [13, NONE],
        [0, NONE],
    ],
    [
        [6, NONE],
        [0, 15],
        [0, NONE],
        [1, NONE],
        [0, NONE],
        [NONE, NONE],
        [0, NONE],
        [7, NONE],
    ],
    [
        [4, NONE],
        [1, NONE],
        [0, 15],
        [14, NONE],
        [11, NONE],
        [0, NONE],
        [NONE, NONE],
        [3, NONE],
    ],
    [
        [0, NONE],
        [1, NONE],
        [9, NONE],
        [0, 13],
        [14, NONE],
        [1, NONE],
        [0, NONE],
        [NONE, NONE],
    ],
];

// Table 2-5 of document 001, M = 32.
const PARITY32: [[[u16; 2]; 8]; 4] = [
    [
        [0, 31],
        [15, NONE],
        [25, NONE],
        [0, NONE],
        [NONE, NONE],
        [20, NONE],
        [12, NONE],
        [0, NONE],
    ],
    [
        [28, NONE],
        [0, 30],
        [29, NONE],
        [24, NONE],
        [0, NONE],
        [NONE, NONE],
        [1, NONE],
        [20, NONE],
    ],
    [
        [8, NONE],
        [0, NONE],
        [0, 28],
        [1, NONE],
        [29, NONE],
        [0, NONE],
        [NONE, NONE],
        [21, NONE],
    ],
    [
        [18, NONE],
        [30, NONE],
        [0, NONE],
        [0, 30],
        [25, NONE],
        [26, NONE],
        [0, NONE],
        [NONE, NONE],
    ],
];

// Table 2-6 of document 001, M = 64.
const PARITY64: [[[u16; 2]; 8]; 4] = [
    [
        [0, 63],
        [30, NONE],
        [50, NONE],
        [25, NONE],
        [NONE, NONE],
        [43, NONE],
        [62, NONE],
        [0, NONE],
    ],
    [
        [56, NONE],
        [0, 61],
        [50, NONE],
        [23, NONE],
        [0, NONE],
        [NONE, NONE],
        [37, NONE],
        [26, NONE],
    ],
    [
        [16, NONE],
        [0, NONE],
        [0, 55],
        [27, NONE],
        [56, NONE],
        [0, NONE],
        [NONE, NONE],
        [43, NONE],
    ],
    [
        [35, NONE],
        [56, NONE],
        [62, NONE],
        [0, 11],
        [58, NONE],
        [3, NONE],
        [0, NONE],
        [NONE, NONE],
    ],
];

// Table 1 of document 000, M = 511.
const PARITY511: [[[u16; 2]; 16]; 2] = [
    [
        [0, 176],
        [12, 239],
        [0, 352],
        [24, 431],
        [0, 392],
        [151, 409],
        [0, 351],
        [9, 359],
        [0, 307],
        [53, 329],
        [0, 207],
        [18, 281],
        [0, 399],
        [202, 457],
        [0, 247],
        [36, 261],
    ],
    [
        [99, 471],
        [130, 473],
        [198, 435],
        [260, 478],
        [215, 420],
        [282, 481],
        [48, 396],
        [193, 445],
        [273, 430],
        [302, 451],
        [96, 379],
        [191, 386],
        [244, 467],
        [364, 470],
        [51, 382],
        [192, 414],
    ],
];

// The blocks of a row, one place after another from place at on.
fn flatten_row(nested: &[[u16; 2]], h: &mut [u16], at: usize)
    requires { (at + 2 * length nested.now ≤ length h.old) × (length h.old ≡ table_room) }
    ensures { RowLaid nested.now (2 * length nested.now) at h.old h.new }
{
    for (b, block) in nested.iter().enumerate() {
        h[at + 2 * b] = block[0];
        h[at + 2 * b + 1] = block[1];
    }
}

// Rows of blocks that fill the places of h, one place after another.
fn flatten<const BLOCKS: usize, const ROWS: usize>(
    nested: &[[[u16; 2]; BLOCKS]; ROWS],
    h: &mut [u16],
)
    requires { (length h.old ≡ table_room) × (0 < BLOCKS) × (2 * BLOCKS * ROWS ≡ table_room) }
    ensures { h.new ≡ flat BLOCKS nested.now }
{
    for (r, row) in nested.iter().enumerate() {
        flatten_row(row, h, 2 * BLOCKS * r);
    }
}

// The places of each table, laid flat, out of a copy: the compiler lays these itself then, which saves check 120 instructions.
// A function for each, since the clause of each names its own table.
pub fn lend16(h: &mut [u16])
    requires { length h.old ≡ table_room }
    ensures { h.new ≡ flat8 (pairs parity16) }
{
    let nested = PARITY16;
    flatten(&nested, h);
}

pub fn lend32(h: &mut [u16])
    requires { length h.old ≡ table_room }
    ensures { h.new ≡ flat8 (pairs parity32) }
{
    let nested = PARITY32;
    flatten(&nested, h);
}

pub fn lend64(h: &mut [u16])
    requires { length h.old ≡ table_room }
    ensures { h.new ≡ flat8 (pairs parity64) }
{
    let nested = PARITY64;
    flatten(&nested, h);
}

pub fn lend511(h: &mut [u16])
    requires { length h.old ≡ table_room }
    ensures { h.new ≡ flat16 (pairs parity511) }
{
    let nested = PARITY511;
    flatten(&nested, h);
}

// The parity table whose blocks have this size, lent: its places into h, and its shape, in numbers that a compiler sees.
pub fn lend(size: usize, h: &mut [u16]) -> Shape
    requires { length h.old ≡ table_room }
    ensures { (n : ℕ) → offered n ≡ true → size ≡ (offer_of n).shape.size → (result ≡ (offer_of n).shape) × Lends n h.new result }
{
    if size == 16 {
        lend16(h);
        return telecommand_shape(16);
    }
    if size == 32 {
        lend32(h);
        return telecommand_shape(32);
    }
    if size == 64 {
        lend64(h);
        return telecommand_shape(64);
    }
    lend511(h);
    NEAR_EARTH
}

// The same where one word holds a row. `lend` has the one caller that its speed rests on, so it does not call this.
pub fn lend_narrow(size: usize, h: &mut [u16]) -> Shape
    requires { (length h.old ≡ table_room) × (size ≡ 511 → ⊥) }
    ensures { ((n : ℕ) → offered n ≡ true → size ≡ (offer_of n).shape.size → (result ≡ (offer_of n).shape) × Lends n h.new result)
        × (result.size ≤ 64) }
{
    if size == 16 {
        lend16(h);
        return telecommand_shape(16);
    }
    if size == 32 {
        lend32(h);
        return telecommand_shape(32);
    }
    lend64(h);
    telecommand_shape(64)
}
