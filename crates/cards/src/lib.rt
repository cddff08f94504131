// Cards of 256 lines, which are on or off.
#![tactic(auto)]

ghost use Rattle.std.specs.Prelude.{◌≡◌, Bool, false, List, length, slice_index_or, slice_set};
ghost use Rattle.cards.specs.Lines.{all_off, packed_lines, line, length_lines};
ghost use Rattle.cards.specs.Refusals.{refusal_number};

pub mod active_low;
mod contacts;
pub mod crossing;
pub mod wear;

// How many lines a card has. Each card tests the number itself, in `read` and in `write`. If `Card` had bodies that test it,
// the `write` of a wear card could not have its clause on counts.
const LINES: u16 = 256;

pub trait Card {
    // The lines, line 0 first.
    ghost lines: { Self → List Bool };

    // Whether line n is on. A number above 255 names no line, and reads as off.
    fn read(&self, n: u16) -> bool
        ensures { result ≡ slice_index_or (lines self.now) n false };

    // Line n becomes `on`, and the others stay. With a number above 255 nothing changes.
    fn write(&mut self, n: u16, on: bool)
        ensures { lines self.new ≡ slice_set (lines self.old) n on };

    ghost size: { (x : Self) → length (lines x) ≡ 256 };
}

// Why a question or a change that names a line is refused.
#[derive(Clone, Copy, PartialEq, Eq, Debug)]
pub enum CardRefusal {
    NoSuchLine = 2,
}

impl CardRefusal {
    // The number that the rules give it. Each enum casts itself, since a cast takes no type parameter.
    pub fn number(self) -> u16
        ensures { result ≡ refusal_number self }
    {
        self as u16
    }
}

// One bit a line: line n is bit n % 8 of byte n / 8.
#[derive(Drop)]
pub struct Packed {
    bytes: [u8; 32],
}

impl Packed {
    pub fn new() -> Packed
        ensures { packed_lines result ≡ all_off }
    {
        Packed { bytes: [0; 32] }
    }
}

#[tactic(auto, using(crate::proofs::Rows::unchanged))]
impl Card for Packed {
    ghost lines = { packed_lines };

    ghost size = { λ x. length_lines (line x.bytes) };

    fn read(&self, n: u16) -> bool {
        n < LINES && (self.bytes[usize::from(n) / 8] >> (n % 8)) % 2 == 1
    }

    fn write(&mut self, n: u16, on: bool) {
        if n < LINES && self.read(n) != on {
            self.bytes[usize::from(n) / 8] ^= 1 << (n % 8);
        }
    }
}

#[cfg(test)]
mod tests {
    use super::active_low::ActiveLow;
    use super::crossing::Crossing;
    use super::wear::Wear;
    use super::*;

    #[test]
    fn each_line_by_itself(rt: HostRuntime) {
        let mut card = Packed::new();
        for n in 0..256u16 {
            assert!(rt; !card.read(n), "off at first");
            card.write(n, true);
            assert!(rt; card.read(n), "on when it was switched on");
            assert!(rt; n == 255 || !card.read(n + 1), "the next line stays off");
        }
        for n in 0..256u16 {
            assert!(rt; card.read(n), "still on");
            card.write(n, true);
            assert!(rt; card.read(n), "switched on twice");
            card.write(n, false);
            assert!(rt; !card.read(n), "off when it was switched off");
            assert!(rt; n == 255 || card.read(n + 1), "the next line stays on");
        }
    }

    #[test]
    fn no_such_line(rt: HostRuntime) {
        let mut card = Packed::new();
        card.write(256, true);
        card.write(65535, true);
        assert!(rt; !card.read(256) && !card.read(65535), "past the last line");
        for n in 0..256u16 {
            assert!(rt; !card.read(n), "no line was touched");
        }
    }

    #[test]
    fn switchings_are_counted(rt: HostRuntime) {
        let mut card = Wear::new();
        card.write(7, false);
        card.write(7, true);
        card.write(7, true);
        assert_eq!(rt; card.count(7), Ok(1), "on twice is one switching");
        assert!(rt; card.read(7));
        card.write(7, false);
        assert_eq!(rt; card.count(7), Ok(2));
        assert!(rt; !card.read(7));
        assert_eq!(rt; card.count(255), Ok(0));
        assert_eq!(rt; card.count(256), Err(CardRefusal::NoSuchLine));
    }

    #[test]
    fn a_pile_of_cards(rt: HostRuntime) {
        let mask = std::array::from_fn(|n| n == 3);
        let mut card = Crossing::new(ActiveLow::new(Wear::new(), mask));
        assert!(rt; card.read(3) && !card.read(200), "line 3 is flipped");
        assert_eq!(rt; card.exchange(3, 200), Ok(()));
        assert!(rt;
            !card.read(3) && card.read(200),
            "the two have changed places"
        );
        card.write(200, false);
        card.write(3, true);
        assert!(rt;
            card.read(3) && !card.read(200),
            "each is written by itself"
        );
        assert_eq!(rt; card.exchange(3, 256), Err(CardRefusal::NoSuchLine));
        assert_eq!(rt; card.exchange(256, 3), Err(CardRefusal::NoSuchLine));
        assert_eq!(rt; card.exchange(3, 200), Ok(()));
        assert!(rt;
            !card.read(3) && card.read(200),
            "changed back, with what was written"
        );
    }
}
