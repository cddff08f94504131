// Events as values, and lists of them on one machine.
#![tactic(auto)]

ghost use Rattle.std.specs.Prelude.{◌≡◌, length, take, drop, MatchResult, OnOk};
ghost use Rattle.machine.specs.Calls.{cells_of, Did};
ghost use Rattle.events.specs.Rows.{room_told, Runs, FramesEach, DependsEach, AnyOrder, Prefixes};
ghost use Rattle.events.specs.Events.{asked_tree, tree, told, blank, Does};

use cards::Card;
use cells::Cell;
use law::Entry;
use machine::{Answered, Machine, Refused};
use perform::Answer;
use std::error::Error;
use std::fmt;
use words::Refusal;

// What is asked of a machine, with its numbers.
#[derive(Clone, Copy, PartialEq, Eq, Debug)]
pub enum Ask {
    Place { address: u16, word: u16 },
    Feed { line: u16, on: bool },
    Tick,
    Start { task: u16, address: u16 },
    Kill { task: u16 },
    Abort { task: u16 },
    Turn { task: u16 },
}

// What is asked as "place 0010 12CD", or "turn 0".
impl fmt::Display for Ask {
    fn fmt<W: fmt::Write>(&self, f: &mut fmt::Formatter<W>) -> fmt::Result {
        match self {
            Ask::Place { address, word } => write!(f, "place {address:04X} {word:04X}"),
            Ask::Feed { line, on } => write!(f, "feed {line} {on}"),
            Ask::Tick => f.write_str("tick"),
            Ask::Start { task, address } => write!(f, "start {task} {address:04X}"),
            Ask::Kill { task } => write!(f, "kill {task}"),
            Ask::Abort { task } => write!(f, "abort {task}"),
            Ask::Turn { task } => write!(f, "turn {task}"),
        }
    }
}

// An event: what is asked, and the length of the list for its trail.
#[derive(Clone, Copy, PartialEq, Eq, Debug)]
pub struct Event {
    pub ask: Ask,
    pub room: usize,
}

// An event with a list of 200 entries, which is enough for any trail.
impl From<Ask> for Event {
    ghost use Rattle.events.specs.Events.{with_list};

    ghost from_gives = { λ ask event. event ≡ with_list ask };

    fn from(ask: Ask) -> Event {
        Event { ask, room: 200 }
    }
}

// What an event came to: its answer or refusal, and its trail up to the count, in an array, since no event allocates.
#[derive(Clone, Copy, PartialEq, Eq, Debug)]
pub struct Report {
    pub end: Result<Answer, Refusal>,
    pub count: usize,
    pub trail: [Entry<Cell>; 200],
}

// What stands in a report past its count.
const NOTHING: Entry<Cell> = Entry::Read(Cell::Ram { address: 0 });

impl Report {
    // A report of nothing yet, for `run` to write over.
    #[tactic(auto, unfolding(crate::specs::Events::blanks))]
    pub fn blank() -> Report
        ensures { result ≡ blank }
    {
        Report {
            end: Ok(Answer::Done),
            count: 0,
            trail: [NOTHING; 200],
        }
    }

    // The trail: the entries up to the count.
    pub fn entries(&self) -> &[Entry<Cell>]
        ensures { result.now ≡ (told self.now).trail }
    {
        &self.trail[..self.count.min(200)]
    }
}

// A report as its end, the count and the trail: "Done, entries 1; changed RAM 0010".
impl fmt::Display for Report {
    fn fmt<W: fmt::Write>(&self, f: &mut fmt::Formatter<W>) -> fmt::Result {
        let count = self.count;
        match self.end {
            Ok(answer) => write!(f, "{}", Answered { answer, count })?,
            Err(refusal) => write!(f, "{}", Refused { refusal, count })?,
        }
        for entry in self.entries() {
            write!(f, "; {entry}")?;
        }
        Ok(())
    }
}

// Makes the call that is asked for, on the list that it is given. What is asked is an enum and no closure, since events
// are kept, copied and put into other orders. RAM is lent to each call, so clauses name it beside the machine.
pub fn call<I: Card, O: Card>(
    machine: &mut Machine<I, O>,
    ram: &mut [u16],
    ask: Ask,
    trail: &mut [Entry<Cell>],
) -> Result<Answered, Refused>
    ensures { Did (asked_tree (length ram.old) (length trail.old) ask) (cells_of I.Card.lines O.Card.lines machine.old ram.old) trail.old result (cells_of I.Card.lines O.Card.lines machine.new ram.new) trail.new }
{
    match ask {
        Ask::Place { address, word } => machine.place(ram, address, word, trail),
        Ask::Feed { line, on } => machine.feed(ram, line, on, trail),
        Ask::Tick => machine.tick(ram, trail),
        Ask::Start { task, address } => machine.start(ram, task, address, trail),
        Ask::Kill { task } => machine.kill(ram, task, trail),
        Ask::Abort { task } => machine.abort(ram, task, trail),
        Ask::Turn { task } => machine.turn(ram, task, trail),
    }
}

// Runs one event. No trail is longer than 200, so a longer list is not needed. A part of each caller, so that a report is made
// where it is wanted, and not copied.
#[inline(always)]
pub fn apply<I: Card, O: Card>(machine: &mut Machine<I, O>, ram: &mut [u16], event: Event) -> Report
    ensures { Does (tree (length ram.old) event) (cells_of I.Card.lines O.Card.lines machine.old ram.old) result (cells_of I.Card.lines O.Card.lines machine.new ram.new) }
{
    let mut trail = [NOTHING; 200];
    let (end, count) = match call(machine, ram, event.ask, &mut trail[..event.room.min(200)]) {
        Ok(told) => (Ok(told.answer), told.count),
        Err(no) => (Err(no.refusal), no.count),
    };
    Report { end, count, trail }
}

// There are fewer reports than events.
#[derive(Clone, Copy, PartialEq, Eq, Debug)]
pub struct NoRoom;

impl fmt::Display for NoRoom {
    ghost use Rattle.std.specs.Prelude.{Some, codes};

    ghost output = { λ _. Some (codes "fewer reports than events") };

    fn fmt<W: fmt::Write>(&self, f: &mut fmt::Formatter<W>) -> fmt::Result {
        f.write_str("fewer reports than events")
    }
}

impl Error for NoRoom {}

// Runs the events one after the other, and writes what each comes to over the start of `reports`.
pub fn run<I: Card, O: Card>(
    machine: &mut Machine<I, O>,
    ram: &mut [u16],
    events: &[Event],
    reports: &mut [Report],
) -> Result<(), NoRoom>
    ensures told { result ≡ room_told (length events.now) (length reports.old) }
    ensures runs { MatchResult result (λ _. Runs (length ram.old) events.now (cells_of I.Card.lines O.Card.lines machine.old ram.old) (take (length events.now) reports.new) (cells_of I.Card.lines O.Card.lines machine.new ram.new)) (λ _. (machine.new ≡ machine.old) × (ram.new ≡ ram.old)) }
    ensures rest { MatchResult result (λ _. drop (length events.now) reports.new ≡ drop (length events.now) reports.old) (λ _. reports.new ≡ reports.old) }
    ensures frame { OnOk result (FramesEach (length ram.old) events.now (cells_of I.Card.lines O.Card.lines machine.old ram.old) (take (length events.now) reports.new)) }
    ensures dependence { OnOk result (DependsEach (length ram.old) events.now (cells_of I.Card.lines O.Card.lines machine.old ram.old) (take (length events.now) reports.new)) }
    ensures order { OnOk result (AnyOrder (length ram.old) events.now (cells_of I.Card.lines O.Card.lines machine.old ram.old) (take (length events.now) reports.new) (cells_of I.Card.lines O.Card.lines machine.new ram.new)) }
    ensures prefixes { OnOk result (Prefixes (length ram.old) events.now (cells_of I.Card.lines O.Card.lines machine.old ram.old) (take (length events.now) reports.new)) }
{
    if reports.len() < events.len() {
        return Err(NoRoom);
    }
    // Written by index, since a proof knows nothing of what a zip over `iter_mut` wrote.
    for (i, event) in events.iter().enumerate() {
        reports[i] = apply(machine, ram, *event);
    }
    Ok(())
}
