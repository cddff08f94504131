// Numbers that are below a bound, as tasks and registers are.
ghost use Rattle.std.specs.Prelude.{◌≡◌, ◌<◌};
ghost use Rattle.words.specs.Numbers.{below};

use std::marker::Model;

// A number below N.
#[derive(Clone, Copy, PartialEq, Eq, Debug)]
pub struct Below<const N: u8> {
    number: u8,
}

impl<const N: u8> Model for Below<N> {
    ghost use Rattle.std.specs.Prelude.{ℕ, ◌<◌};

    ghost Value = { ℕ };

    ghost view = { λ b. b.number };

    ghost invariant = { λ b. b.number < N };

    ghost inverse = { λ n. record { number = n } };
}

impl<const N: u8> Below<N> {
    // An Option and not TryFrom, like the library's NonZero: there is nothing to add about a number past the bound.
    pub fn new(number: u16) -> Option<Below<N>>
        ensures { result ≡ below N number }
    {
        match u8::try_from(number) {
            Ok(number) if number < N => Some(Below { number }),
            _ => None,
        }
    }

    // A number that is known to be below N.
    pub fn of(number: u8) -> Below<N>
        requires { number < N }
        ensures { result ≡ number }
    {
        Below { number }
    }

    pub fn get(self) -> u8
        ensures value { result ≡ self.entry }
        ensures below { result < N }
    {
        self.number
    }
}

// One of the 32 tasks.
pub type TaskNumber = Below<32>;

// One of the 128 registers of a task.
pub type RegisterNumber = Below<128>;

// Registers with a use of their own.
impl RegisterNumber {
    pub const STACK_DEPTH: RegisterNumber = Below { number: 0x77 };

    pub const TIMER: RegisterNumber = Below { number: 0x78 };

    pub const ABORT_ADDRESS: RegisterNumber = Below { number: 0x7B };
}
