// What is measured of a word: its table, its bits and its syndrome.
ghost use Rattle.std.specs.Prelude.{◌≡◌, true, false, ℕ, ◌≤◌, length};
ghost use Rattle.rules.specs.Codes.{offered};
ghost use Rattle.rules.specs.Codes.{code as code_of};
ghost use Rattle.vectors.specs.Vectors.{wbit};
ghost use Rattle.layout.specs.Lent.{laid};
ghost use Rattle.catalogue.specs.offer.Offers.{offer_of};
ghost use Rattle.catalogue.specs.tables.Flat.{Lends};
ghost use Rattle.word.specs.measured.Measured.{Size, Blank, Measured};
ghost use Rattle.layout.specs.Rooms.{syndrome_room, table_room, word_room};

use super::received;
use super::received::{Received, Sent};
use catalogue::tables;
use layout::{Parity, SYNDROME, Shape, TABLE, WORD};

// Room for what is measured of a word: the places of its code's parity table, its bits, and its syndrome.
#[derive(Drop)]
pub struct Room {
    pub h: [u16; TABLE],
    pub y: [u64; WORD],
    pub z: [u64; SYNDROME],
}

// The parity table of blocks of this size into h, its shape, and the syndrome of the bits that y holds into z, which is handed over
// as zeros.
pub fn checks(size: usize, y: &[u64; WORD], h: &mut [u16; TABLE], z: &mut [u64; SYNDROME]) -> Shape
    requires { Size size × (wbit z.old ≡ (λ n. false)) }
    ensures { (n : ℕ) → offered n ≡ true → size ≡ (offer_of n).shape.size → (result ≡ (offer_of n).shape) × Lends n h.new result
        × (wbit z.new ≡ laid (code_of n) result (wbit y.now)) }
{
    let sh = tables::lend(size, h);
    syndromes::syndrome(
        y,
        Parity {
            places: h,
            shape: sh,
        },
        z,
    );
    sh
}

// What is measured, by the two numbers of a code's record that it takes: the record itself would be written out for each call.
fn measure_by(sent: Sent, size: usize, room: &mut Room) -> Shape
    requires { Size size × Blank room.old.y room.old.z }
    ensures { (n : ℕ) → offered n ≡ true → sent.entry.unsent ≡ (offer_of n).unsent → size ≡ (offer_of n).shape.size
        → (result ≡ (offer_of n).shape)
        × Measured n sent.entry.octets.now room.new.h (wbit room.new.y) (wbit room.new.z) result }
{
    received::take(sent, &mut room.y);
    checks(size, &room.y, &mut room.h, &mut room.z)
}

impl Room {
    // Of zeros.
    pub fn new() -> Room
        ensures { Blank result.y result.z }
    {
        Room {
            h: [0; TABLE],
            y: [0; WORD],
            z: [0; SYNDROME],
        }
    }

    // The parity table into h, its shape, the word's bits into y, and its syndrome into z; y and z are handed over as zeros.
    pub fn measure(&mut self, received: Received) -> Shape
        requires { Blank self.old.y self.old.z }
        ensures { (result ≡ received.entry.code.offer.shape) × ((n : ℕ) → offered n ≡ true → received.entry.code.offer ≡ offer_of n
            → Measured n received.entry.word.now self.new.h (wbit self.new.y) (wbit self.new.z) result) }
    {
        let o = received.code.offer;
        let sent = Sent {
            octets: received.word,
            unsent: o.unsent,
        };
        measure_by(sent, o.shape.size, self)
    }
}
