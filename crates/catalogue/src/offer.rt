// What a code number fixes. No other function compares code numbers.
ghost use Rattle.std.specs.Prelude.{◌≡◌, true, ◌≤◌};
ghost use Rattle.rules.specs.Codes.{code as code_of, offered};
ghost use Rattle.catalogue.specs.offer.Offers.{telecommand_shape as telecommand_shape_of, telecommand_offer, near_earth_offer, offer_of};
ghost use Rattle.catalogue.specs.offer.Offers.{Known};
ghost use Rattle.catalogue.specs.offer.Once.{known_once};

use layout::Shape;

#[derive(Clone, Copy)]
pub struct Offer {
    // Flags, and no Option: the definition `offer_of` gives every number an offer, and the three differ.
    // which calls offer the code: open and step leave out one each
    pub offered: bool,
    pub opens: bool,
    pub steps: bool,
    // the octets of a word and of its information; the last octet of the information is a multiple of this number
    pub word: usize,
    pub information: usize,
    pub multiple: u8,
    // the bits that the checks are over; those in front that are not sent, and the zero bits that are sent after the parity
    pub bits: usize,
    pub unsent: usize,
    pub fill: usize,
    // whether a quiet word may have another parity than the encoder's
    pub asked: bool,
    // its parity table
    pub shape: Shape,
}

// What some code number fixes, of a code that is offered.
#[derive(Clone, Copy)]
pub struct KnownOffer {
    pub offer: Offer,
    pub ghost known: { Known offer } by { known_once offer-code offer },
}

// The shape of a near-Earth code's parity table: two rows of 16 blocks, each in eight words.
pub const NEAR_EARTH: Shape = Shape {
    size: 511,
    words: 8,
    blocks: 16,
    rows: 2,
};

// And of a telecommand code's, by M: four rows of eight blocks, each in one word.
pub fn telecommand_shape(size: usize) -> Shape
    ensures { result ≡ telecommand_shape_of size }
{
    Shape {
        size,
        words: 1,
        blocks: 8,
        rows: 4,
    }
}

// A telecommand code: its octets, its bits, and M.
fn telecommand(word: usize, information: usize, bits: usize, size: usize) -> Offer
    ensures { result ≡ telecommand_offer word information bits size }
{
    Offer {
        offered: true,
        opens: true,
        steps: true,
        word,
        information,
        multiple: 1,
        bits,
        unsent: 0,
        fill: 0,
        asked: false,
        shape: telecommand_shape(size),
    }
}

// A near-Earth code: whether every bit is sent, its octets, and what is not sent or sent besides.
fn near_earth(
    whole: bool,
    word: usize,
    information: usize,
    multiple: u8,
    unsent: usize,
    fill: usize,
) -> Offer
    ensures { result ≡ near_earth_offer whole word information multiple unsent fill }
{
    Offer {
        offered: true,
        opens: !whole,
        steps: whole,
        word,
        information,
        multiple,
        bits: 8176,
        unsent,
        fill,
        asked: true,
        shape: NEAR_EARTH,
    }
}

// A number that no code has: what is measured by it is refused before it is used.
fn none() -> Offer
    ensures { result ≡ offer_of 0 }
{
    Offer {
        offered: false,
        opens: false,
        steps: false,
        word: 16,
        information: 8,
        multiple: 1,
        bits: 128,
        unsent: 0,
        fill: 0,
        asked: false,
        shape: telecommand_shape(16),
    }
}

// What a code number fixes.
pub fn of(code: u8) -> Offer
    ensures { result ≡ offer_of code }
{
    match code {
        1 => telecommand(16, 8, 128, 16),
        2 => telecommand(32, 16, 256, 32),
        3 => telecommand(64, 32, 512, 64),
        4 => near_earth(true, 1022, 895, 64, 0, 0),
        5 => near_earth(false, 1020, 892, 1, 18, 2),
        _ => none(),
    }
}

// Whether a code is offered.
pub fn is_offered(code: u8) -> bool
    ensures { result ≡ offered code }
{
    of(code).offered
}

// The octets of a word.
pub fn word_octets(code: u8) -> usize
    requires { offered code ≡ true }
    ensures { (result ≡ (code_of code).octets_of_word) × (result ≤ 1022) }
{
    of(code).word
}

// The octets of a word's information.
pub fn information_octets(code: u8) -> usize
    requires { offered code ≡ true }
    ensures { (result ≡ (code_of code).octets_of_information) × (result ≤ (code_of code).octets_of_word) }
{
    of(code).information
}
