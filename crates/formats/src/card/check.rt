// From bytes to a card: every rule, in a fixed order.
ghost use Rattle.std.specs.Prelude.{◌≡◌, IsNone};
ghost use Rattle.formats.specs.CardRules.{CardRules};
ghost use Rattle.formats.specs.Cards.{card_fault};
ghost use Rattle.formats.specs.Checks.{IsCheckedView};

use crate::card::Card;
use crate::card::header::Header;
use crate::card::thread::Thread;
use model::Fault;

// The card over bytes, or the first rule that they break.
impl<'a> TryFrom<&'a [u8]> for Card<'a> {
    type Error = Fault;

    ghost try_from_gives = { λ bytes answer. IsCheckedView (λ card. card.bytes.now) card_fault CardRules bytes.now answer };

    fn try_from(bytes: &'a [u8]) -> Result<Card<'a>, Fault> {
        let header = Header::new(bytes)?;
        header.check_threads()?;
        // by number: threads lie at their own offsets and not in a row, so there are no items to walk
        for processor in 0..header.processors() {
            Thread { header, processor }.check_instrs()?;
        }
        Ok(Card::new(bytes))
    }
}

impl<'a> Card<'a> {
    // The card over bytes that are known to have no fault, as where they were checked before: nothing
    // is checked again.
    pub fn new(bytes: &'a [u8]) -> Card<'a>
        requires { IsNone (card_fault bytes.now) }
        ensures { result.bytes.now ≡ bytes.now }
    {
        Card { bytes }
    }
}
