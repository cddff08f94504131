// A card that flips some lines of the card below it.
ghost use Rattle.std.specs.Prelude.{◌≡◌};
ghost use Rattle.cards.specs.Lines.{length_lines};
ghost use Rattle.cards.specs.Flips.{flipped, low_lines, flipped_line};

use super::{Card, LINES};

// Line n is line n of the card below, flipped if the mask has true at n.
#[derive(Drop)]
pub struct ActiveLow<C> {
    below: C,
    mask: [bool; 256],
}

impl<C: Card> ActiveLow<C> {
    pub fn new(below: C, mask: [bool; 256]) -> ActiveLow<C>
        ensures lines { low_lines C.Card.lines result ≡ flipped mask (C.Card.lines below) }
        ensures mask { result.mask ≡ mask }
        ensures below { result.below ≡ below }
    {
        ActiveLow { below, mask }
    }

    // Each card that stands on another lends that one, a field of its own.
    pub fn below(&self) -> &C
        ensures { result.now ≡ self.now.below }
    {
        &self.below
    }
}

#[tactic(auto, using(crate::proofs::Rows::unchanged))]
impl<C: Card> Card for ActiveLow<C> {
    ghost lines = { λ a. low_lines C.Card.lines a };

    ghost size = { λ x. length_lines (flipped_line x.mask (C.Card.lines x.below)) };

    fn read(&self, n: u16) -> bool {
        n < LINES && (self.below.read(n) ^ self.mask[usize::from(n)])
    }

    fn write(&mut self, n: u16, on: bool) {
        if n < LINES {
            self.below.write(n, on ^ self.mask[usize::from(n)]);
        }
    }
}
