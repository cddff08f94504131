// The table of contacts of a crossing card.
ghost use Rattle.std.specs.Prelude.{◌≡◌, ◌<◌, length, slice_index};
ghost use Rattle.cards.specs.Contacts.{OneToOne, after_exchange, exchange_told, straight};

use super::{CardRefusal, LINES};
use std::array;

// The contact of line n is to[n]. No two lines have one contact.
#[derive(Drop)]
pub struct Contacts {
    to: [u8; 256],
    ghost size: { length to ≡ 256 },
    ghost apart: { OneToOne to },
}

impl Contacts {
    // Every line is its own contact.
    pub fn straight() -> Contacts
        ensures { result.to ≡ straight }
    {
        Contacts {
            to: array::from_fn(|n| n as u8),
        }
    }

    // The number is of 16 bits, as in the interface of a card, which this serves.
    pub fn of(&self, n: u16) -> u16
        requires { n < 256 }
        ensures contact { result ≡ slice_index self.now.to n }
        ensures line { result < 256 }
    {
        u16::from(self.to[usize::from(n)])
    }

    // The lines a and b exchange their contacts.
    pub fn exchange(&mut self, a: u16, b: u16) -> Result<(), CardRefusal>
        ensures told { result ≡ exchange_told a b }
        ensures contacts { self.new.to ≡ after_exchange 0 self.old.to a b }
    {
        if a < LINES && b < LINES {
            self.to.swap(usize::from(a), usize::from(b));
            Ok(())
        } else {
            Err(CardRefusal::NoSuchLine)
        }
    }
}
