// A card whose lines are led, one to one, to the lines of the card below it.
ghost use Rattle.std.specs.Prelude.{◌≡◌, false};
ghost use Rattle.cards.specs.Lines.{length_lines};
ghost use Rattle.cards.specs.Contacts.{after_exchange, exchange_told, straight};
ghost use Rattle.cards.specs.Crosses.{crossing_lines, crossed_line};

use super::contacts::Contacts;
use super::{Card, CardRefusal, LINES};

// Line n is that line of the card below which is n's contact.
#[derive(Drop)]
pub struct Crossing<C> {
    below: C,
    contacts: Contacts,
}

impl<C: Card> Crossing<C> {
    // At first every line is its own contact, so the lines are those of the card below.
    pub fn new(below: C) -> Crossing<C>
        ensures contacts { result.contacts.to ≡ straight }
        ensures lines { crossing_lines C.Card.lines result ≡ C.Card.lines below }
        ensures below { result.below ≡ below }
    {
        Crossing {
            below,
            contacts: Contacts::straight(),
        }
    }

    // Each card that stands on another lends that one, a field of its own.
    pub fn below(&self) -> &C
        ensures { result.now ≡ self.now.below }
    {
        &self.below
    }

    // The lines a and b exchange their contacts. A number above 255 names no line, and is refused.
    pub fn exchange(&mut self, a: u16, b: u16) -> Result<(), CardRefusal>
        ensures told { result ≡ exchange_told a b }
        ensures contacts { self.new.contacts.to ≡ after_exchange 0 self.old.contacts.to a b }
        ensures below { self.new.below ≡ self.old.below }
        ensures lines { crossing_lines C.Card.lines self.new ≡ after_exchange false (crossing_lines C.Card.lines self.old) a b }
    {
        self.contacts.exchange(a, b)
    }
}

#[tactic(auto, using(crate::proofs::Rows::unchanged))]
impl<C: Card> Card for Crossing<C> {
    ghost lines = { λ c. crossing_lines C.Card.lines c };

    ghost size = { λ x. length_lines (crossed_line x.contacts.to (C.Card.lines x.below)) };

    fn read(&self, n: u16) -> bool {
        n < LINES && self.below.read(self.contacts.of(n))
    }

    fn write(&mut self, n: u16, on: bool) {
        if n < LINES {
            self.below.write(self.contacts.of(n), on);
        }
    }
}
