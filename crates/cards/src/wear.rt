// A card that counts how often each line was switched.
ghost use Rattle.std.specs.Prelude.{◌≡◌, slice_set};
ghost use Rattle.cards.specs.Counts.{all_zero, count_told, counts_after, worn_lines, worn};
ghost use Rattle.cards.specs.Lines.{all_off, length_lines};

use super::{Card, CardRefusal, LINES};

// A 32-bit count of switchings for each line, which wraps. A line with an odd count is on.
#[derive(Drop)]
pub struct Wear {
    counts: [u32; 256],
}

impl Wear {
    pub fn new() -> Wear
        ensures counts { result.counts ≡ all_zero }
        ensures lines { worn_lines result ≡ all_off }
    {
        Wear { counts: [0; 256] }
    }

    // How often line n was switched. A number above 255 names no line, and is refused.
    pub fn count(&self, n: u16) -> Result<u32, CardRefusal>
        ensures { result ≡ count_told self.now n }
    {
        self.counts
            .get(usize::from(n))
            .copied()
            .ok_or(CardRefusal::NoSuchLine)
    }
}

#[tactic(auto, using(crate::proofs::Rows::unchanged))]
impl Card for Wear {
    ghost lines = { worn_lines };

    ghost size = { λ x. length_lines (worn x.counts) };

    fn read(&self, n: u16) -> bool {
        n < LINES && self.counts[usize::from(n)] % 2 == 1
    }

    // A line that is already as it should be is not switched, and not counted.
    fn write(&mut self, n: u16, on: bool)
        ensures lines { worn_lines self.new ≡ slice_set (worn_lines self.old) n on }
        ensures counts { self.new.counts ≡ counts_after self.old.counts n on }
    {
        if n < LINES && self.read(n) != on {
            self.counts[usize::from(n)] = self.counts[usize::from(n)].wrapping_add(1);
        }
    }
}
