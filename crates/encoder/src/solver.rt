// The word of information: its parity is solved where one word holds a row, or where eight do.
ghost use Rattle.std.specs.Prelude.{◌≡◌, true, ℕ, length};
ghost use Rattle.rules.specs.Codes.{offered};
ghost use Rattle.catalogue.specs.offer.Offers.{offer_of};
ghost use Rattle.encoder.specs.parityrows.Rows.{Informs, word_of};

use super::{narrowparity, wideparity};
use catalogue::offer::KnownOffer;

// The word of information of the right length whose spare bits are 0, into an output of the right length.
pub fn encode(code: KnownOffer, information: &[u8], word: &mut [u8])
    requires { (length information.now ≡ code.offer.information) × (length word.old ≡ code.offer.word) }
    ensures { (n : ℕ) → offered n ≡ true → code.offer ≡ offer_of n → Informs n information.now
        → word.new ≡ word_of n information.now }
{
    let o = code.offer;
    let of = o.shape;
    if of.size == 511 {
        wideparity::encode(code, information, word);
    } else {
        narrowparity::encode(code, information, word);
    }
}
