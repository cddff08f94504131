// The law of order: for any cells C, answers A and B and refusals R.
#![tactic(auto)]

ghost use Rattle.std.specs.Prelude.{◌≡◌};
ghost use Rattle.law.specs.Bites.{NotEmpty};
ghost use Rattle.law.specs.Entries.{cell_of, touch_number};
ghost use Rattle.law.specs.Order.{OrderLaw};

use std::fmt;

// An entry of a trail: a cell, and whether the event read or changed it.
#[derive(Clone, Copy, PartialEq, Eq, Debug)]
pub enum Entry<C> {
    Read(C),
    Changed(C),
}

impl<C: Copy> Entry<C> {
    pub fn cell(self) -> C
        ensures { result ≡ cell_of self }
    {
        match self {
            Entry::Read(c) | Entry::Changed(c) => c,
        }
    }

    // How the cell was touched, as a number: 0 if it was read, 1 if it was changed. By a match, since an
    // enum whose variants hold a cell cannot be cast to a number.
    pub fn touch_number(self) -> u16
        ensures { result ≡ touch_number self }
    {
        match self {
            Entry::Read(_) => 0,
            Entry::Changed(_) => 1,
        }
    }
}

// An entry as "read RAM 0010", or "changed flag 7".
impl<C: fmt::Display> fmt::Display for Entry<C> {
    fn fmt<W: fmt::Write>(&self, f: &mut fmt::Formatter<W>) -> fmt::Result {
        match self {
            Entry::Read(cell) => write!(f, "read {cell}"),
            Entry::Changed(cell) => write!(f, "changed {cell}"),
        }
    }
}

// The law of order. It stands in the contract, so it has to be proved.
pub fn order_law<C, A, B, R>()
    ensures { OrderLaw C A B R }
{}

// The law is not empty: its condition is needed, and can be met.
pub fn law_bites()
    ensures { NotEmpty }
{}
