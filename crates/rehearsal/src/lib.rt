// The same events on two machines, in two orders.
#![tactic(auto)]

ghost use Rattle.std.specs.Prelude.{◌≡◌, ℕ, ◌+◌, ◌<◌, ◌≤◌, true, false, map, length, take, drop, Decides, MatchOption, MatchResult, OnOk};
ghost use Rattle.law.specs.Order.{Taken, Same};
ghost use Rattle.machine.specs.Calls.{cells_of, Equal};
ghost use Rattle.events.specs.Events.{told};
ghost use Rattle.events.specs.Rows.{Runs};
ghost use Rattle.rehearsal.specs.Tests.{lists?, changed?, hit?, clash?, before?, distinct?, within?, Fine, IsSwap, Broken, BrokenAfter};
ghost use Rattle.rehearsal.specs.Rehearsals.{IsOrder, picked, Within, Room, Verdict, IfFirst};

use cards::Card;
use cells::Cell;
use events::{Event, NoRoom, Report, apply, run};
use law::Entry;
use machine::Machine;
use std::error::Error;
use std::fmt;

// Two events that an order swaps though they clash: their positions, and a cell that they clash on.
#[derive(Clone, Copy, PartialEq, Eq, Debug)]
pub struct Swap {
    pub first: usize,
    pub second: usize,
    pub cell: Cell,
}

// Why a rehearsal does not take place, or stops before the second machine is touched.
#[derive(Clone, Copy, PartialEq, Eq, Debug)]
pub enum Objection {
    // A list has fewer reports than there are events.
    NoRoom,
    // Not every position stands in the order once, or it has others.
    NoOrder,
    // The two machines do not start with equal cells.
    OtherStart,
    Swaps(Swap),
}

impl From<NoRoom> for Objection {
    ghost use Rattle.rehearsal.specs.declared.Objection.{Objection};

    ghost from_gives = { λ _ objection. objection ≡ Objection.NoRoom };

    fn from(_: NoRoom) -> Objection {
        Objection::NoRoom
    }
}

// A swap as "the events 83 and 88, which clash on flag 7".
impl fmt::Display for Swap {
    fn fmt<W: fmt::Write>(&self, f: &mut fmt::Formatter<W>) -> fmt::Result {
        write!(
            f,
            "the events {} and {}, which clash on {}",
            self.first, self.second, self.cell
        )
    }
}

impl fmt::Display for Objection {
    fn fmt<W: fmt::Write>(&self, f: &mut fmt::Formatter<W>) -> fmt::Result {
        match self {
            Self::NoRoom => f.write_str("too little room for the reports"),
            Self::NoOrder => f.write_str("no order of the events"),
            Self::OtherStart => f.write_str("the machines do not start with equal cells"),
            Self::Swaps(swap) => write!(f, "it swaps {swap}"),
        }
    }
}

impl Error for Objection {}

fn lists(trail: &[Entry<Cell>], cell: Cell) -> bool
    ensures { result ≡ lists? cell trail.now }
{
    trail.iter().any(|entry| entry.cell().same(cell))
}

// The cell of an entry, if the event changed it.
fn changed(entry: Entry<Cell>) -> Option<Cell>
    ensures { result ≡ changed? entry }
{
    match entry {
        Entry::Read(_) => None,
        Entry::Changed(cell) => Some(cell),
    }
}

// The first cell that `a` changes and `b` lists.
fn hit(a: &[Entry<Cell>], b: &[Entry<Cell>]) -> Option<Cell>
    ensures { result ≡ hit? a.now b.now }
{
    a.iter()
        .filter_map(|entry| changed(*entry))
        .find(|cell| lists(b, *cell))
}

// A cell that one of two trails changes and the other lists.
pub fn clash(a: &[Entry<Cell>], b: &[Entry<Cell>]) -> Option<Cell>
    ensures { result ≡ clash? a.now b.now }
{
    hit(a, b).or_else(|| hit(b, a))
}

fn before(order: &[usize], x: usize, y: usize) -> bool
    ensures { result ≡ before? x y order.now }
{
    order
        .iter()
        .position(|k| *k == x)
        .is_some_and(|i| order[i + 1..].contains(&y))
}

fn distinct(order: &[usize]) -> bool
    ensures { result ≡ distinct? order.now }
{
    let mut rest = order;
    while let [k, later @ ..] = rest {
        if later.contains(k) {
            return false;
        }
        rest = later;
    }
    true
}

fn within(order: &[usize], n: usize) -> bool
    ensures { result ≡ within? n order.now }
{
    order.iter().all(|k| *k < n)
}

// Whether `order` has each position below n once, and no other. With n of them below n and none twice, none is missing.
pub fn is_order(order: &[usize], n: usize) -> bool
    ensures { Decides result (IsOrder n order.now) }
{
    order.len() == n && within(order, n) && distinct(order)
}

// The swap of the positions i and j, where their reports clash and the order does not keep i before j.
fn swap_of(reports: &[Report], order: &[usize], i: usize, j: usize) -> Option<Swap>
    requires first { i < length reports.now }
    requires second { j < length reports.now }
    ensures { MatchOption result (Fine reports.now order.now i j) (IsSwap reports.now order.now i j) }
{
    if before(order, i, j) {
        return None;
    }
    clash(reports[i].entries(), reports[j].entries()).map(|cell| Swap {
        first: i,
        second: j,
        cell,
    })
}

// Report i against those after it. The positions are what is looked for, so the search goes over positions.
fn swap_after(reports: &[Report], order: &[usize], i: usize) -> Option<Swap>
    requires { i < length reports.now }
    ensures { MatchOption result ((j : ℕ) → i < j → j < length reports.now → Fine reports.now order.now i j) (BrokenAfter reports.now order.now i) }
{
    (i + 1..reports.len()).find_map(|j| swap_of(reports, order, i, j))
}

fn find_swap(reports: &[Report], order: &[usize]) -> Option<Swap>
    ensures { MatchOption result ((i j : ℕ) → i < j → j < length reports.now → Fine reports.now order.now i j) (Broken reports.now order.now) }
{
    (0..reports.len()).find_map(|i| swap_after(reports, order, i))
}

// Runs the events at the positions of `order`. The reports are written by their places, since a proof knows
// nothing of what was written through a zip of `iter_mut`.
fn run_in<I: Card, O: Card>(
    machine: &mut Machine<I, O>,
    ram: &mut [u16],
    events: &[Event],
    order: &[usize],
    reports: &mut [Report],
)
    requires room { length order.now ≤ length reports.old }
    requires within { Within (length events.now) order.now }
    ensures runs { Runs (length ram.old) (picked events.now order.now) (cells_of I.Card.lines O.Card.lines machine.old ram.old) (take (length order.now) reports.new) (cells_of I.Card.lines O.Card.lines machine.new ram.new) }
    ensures rest { drop (length order.now) reports.new ≡ drop (length order.now) reports.old }
{
    for (k, position) in order.iter().enumerate() {
        reports[k] = apply(machine, ram, events[*position]);
    }
}

// Runs the events on the first machine as they stand and, if the order keeps every clashing pair, on the second in that
// order. Then each event has the same report on both, and all cells end equal: nothing is compared to find that out.
// The parameters stay apart: who calls this has machines, RAM and reports in places of its own, and would have to build a
// struct of three loans only for this call.
pub fn rehearse<I: Card, O: Card, J: Card, P: Card>(
    first: &mut Machine<I, O>,
    ram1: &mut [u16],
    second: &mut Machine<J, P>,
    ram2: &mut [u16],
    events: &[Event],
    order: &[usize],
    reports1: &mut [Report],
    reports2: &mut [Report],
) -> Result<(), Objection>
    ensures verdict { Verdict (Room (length events.now) (length reports1.old) (length reports2.old)) (IsOrder (length events.now) order.now) (Equal I.Card.lines O.Card.lines J.Card.lines P.Card.lines first.old ram1.old second.old ram2.old) (map told (take (length events.now) reports1.new)) order.now result }
    ensures first { IfFirst result (Runs (length ram1.old) events.now (cells_of I.Card.lines O.Card.lines first.old ram1.old) (take (length events.now) reports1.new) (cells_of I.Card.lines O.Card.lines first.new ram1.new) × (drop (length events.now) reports1.new ≡ drop (length events.now) reports1.old)) ((first.new ≡ first.old) × (ram1.new ≡ ram1.old) × (reports1.new ≡ reports1.old)) }
    ensures second { MatchResult result (λ _. Runs (length ram2.old) (picked events.now order.now) (cells_of J.Card.lines P.Card.lines second.old ram2.old) (take (length events.now) reports2.new) (cells_of J.Card.lines P.Card.lines second.new ram2.new) × (drop (length events.now) reports2.new ≡ drop (length events.now) reports2.old)) (λ _. (second.new ≡ second.old) × (ram2.new ≡ ram2.old) × (reports2.new ≡ reports2.old)) }
    ensures alike { OnOk result (Taken order.now (take (length events.now) reports1.new) (take (length events.now) reports2.new) × Same (cells_of I.Card.lines O.Card.lines first.new ram1.new) (cells_of J.Card.lines P.Card.lines second.new ram2.new)) }
{
    if reports1.len() < events.len() || reports2.len() < events.len() {
        return Err(Objection::NoRoom);
    }
    if !is_order(order, events.len()) {
        return Err(Objection::NoOrder);
    }
    if !first.same_cells(ram1, second, ram2) {
        return Err(Objection::OtherStart);
    }
    run(first, ram1, events, reports1)?;
    if let Some(swap) = find_swap(&reports1[..events.len()], order) {
        return Err(Objection::Swaps(swap));
    }
    run_in(second, ram2, events, order, reports2);
    Ok(())
}
