// What a code number fixes of telecommand transmission units, and their start and tail sequences.
ghost use Rattle.std.specs.Prelude.{◌≡◌, true, false, ◌≤◌, length, MatchOption};
ghost use Rattle.rules.specs.Codes.{code as code_of};
ghost use Rattle.units.specs.unitrules.Units.{unit_code, tail as tail_of};
ghost use Rattle.units.specs.unitoffers.Offers.{unit_offer_of};

pub const START: [u8; 8] = [0x03, 0x47, 0x76, 0xC7, 0x27, 0x28, 0x95, 0xB0];

pub const TAIL: [u8; 16] = [
    0x55, 0x55, 0x55, 0x56, 0xAA, 0xAA, 0xAA, 0xAA, 0x55, 0x55, 0x55, 0x55, 0x55, 0x55, 0x55, 0x55,
];

// What a code number fixes of units: whether they are of this code, the octets of a codeblock, of its information and of the tail,
// and how many codeblocks no length can hold.
// A flag, and no Option: the definition `unit_offer_of` gives every number an offer, and `room` speaks of any.
#[derive(Clone, Copy)]
pub struct UnitOffer {
    pub offered: bool,
    pub word: usize,
    pub information: usize,
    pub tail: usize,
    pub most: usize,
}

// Units are of codes 1 and 3. Another number has code 3's octets, and is refused before they are used.
pub fn unit_of(code: u8) -> UnitOffer
    ensures { result ≡ unit_offer_of code }
{
    match code {
        1 => UnitOffer {
            offered: true,
            word: 16,
            information: 8,
            tail: 16,
            most: 0x0FFFFFFFFFFFFFFF,
        },
        _ => UnitOffer {
            offered: code == 3,
            word: 64,
            information: 32,
            tail: 0,
            most: 0x0400000000000000,
        },
    }
}

// The octets that a codeblock hands out, for any number: code 3's where no unit is of the code.
pub fn room(code: u8) -> usize
    ensures { (result ≡ (unit_offer_of code).information) × (result ≤ 32) }
{
    let u = unit_of(code);
    u.information
}

// A code that units are of.
#[derive(Clone, Copy)]
pub struct UnitCode {
    pub number: u8,
    pub ghost offered: { unit_code number ≡ true },
}

impl UnitCode {
    pub fn of(code: u8) -> Option<UnitCode>
        ensures { MatchOption result (unit_code code ≡ false) (λ u. u.number ≡ code) }
    {
        let u = unit_of(code);
        if u.offered {
            Some(UnitCode { number: code })
        } else {
            None
        }
    }

    // The octets of a codeblock.
    pub fn word_octets(self) -> usize
        ensures { (result ≡ (code_of self.number).octets_of_word) × (16 ≤ result) × (result ≤ 64) }
    {
        let u = unit_of(self.number);
        u.word
    }

    pub fn information_octets(self) -> usize
        ensures { (result ≡ (code_of self.number).octets_of_information) × (8 ≤ result) × (result ≤ 32) }
    {
        let u = unit_of(self.number);
        u.information
    }

    pub fn tail_octets(self) -> usize
        ensures { (result ≡ length (tail_of self.number)) × (result ≤ 16) }
    {
        let u = unit_of(self.number);
        u.tail
    }
}
