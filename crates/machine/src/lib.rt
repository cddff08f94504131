// The machine: 32 tasks, RAM and flags between a card of inputs and a card of outputs, and the events that change it.
#![tactic(auto)]

ghost use Rattle.std.specs.Prelude.{◌≡◌, ℕ, Bool, List, length, Decides};
ghost use Rattle.cells.specs.declared.Cell.{Cell as CellOf};
ghost use Rattle.store.specs.View.{view, new_cells};
ghost use Rattle.machine.specs.Calls.{cells_of, counted, early_refusal, Admits, Ends, Did, asked, Equal};
ghost use Rattle.machine.specs.Events.{ram_fits, launch, cycle, place, feed, tick, start, kill, abort, turn};

use cards::Card;
use cells::{Cell, Kind, Trail};
use law::Entry;
use perform::{Answer, abort_task, end_task, make_ready, perform_action, tick_tasks};
use plan::plan_command;
use std::error::Error;
use std::fmt;
use store::{Board, Line, State, Store, write_ram};
use words::{Reason, Refusal, TaskNumber};

// An answer, and how many entries the trail has: the list is the caller's, so its count is told. A refusal has a record of
// its own: in a generic one the field would be called neither answer nor refusal.
#[derive(Clone, Copy, PartialEq, Eq, Debug)]
pub struct Answered {
    pub answer: Answer,
    pub count: usize,
}

impl fmt::Display for Answered {
    fn fmt<W: fmt::Write>(&self, f: &mut fmt::Formatter<W>) -> fmt::Result {
        write!(f, "{}, entries {}", self.answer, self.count)
    }
}

// A refusal, and how many entries the trail has.
#[derive(Clone, Copy, PartialEq, Eq, Debug)]
pub struct Refused {
    pub refusal: Refusal,
    pub count: usize,
}

impl fmt::Display for Refused {
    fn fmt<W: fmt::Write>(&self, f: &mut fmt::Formatter<W>) -> fmt::Result {
        write!(f, "{}, entries {}", self.refusal, self.count)
    }
}

impl Error for Refused {}

// A refusal before anything was listed.
impl From<Reason> for Refused {
    ghost from_gives = { λ reason refused. refused ≡ early_refusal reason };

    fn from(reason: Reason) -> Refused {
        Refused {
            refusal: Refusal::from(reason),
            count: 0,
        }
    }
}

// What an event came to, with the count of its trail.
fn counted(end: Result<Answer, Refusal>, notes: &Trail) -> Result<Answered, Refused>
    ensures { result ≡ counted end notes.now.count }
{
    let count = notes.count();
    match end {
        Ok(answer) => Ok(Answered { answer, count }),
        Err(refusal) => Err(Refused { refusal, count }),
    }
}

#[derive(Drop)]
pub struct Machine<I, O> {
    store: Store<I, O>,
}

// Whether RAM has a length that is allowed.
fn ram_fits(size: usize) -> bool
    ensures { result ≡ ram_fits size }
{
    (256..=65536).contains(&size)
}

// The tests that come first in every event: RAM's length, whether what the event names is there, and the room for the trail.
fn admit<T: Copy>(size: usize, named: Option<T>, room: usize) -> Result<T, Refused>
    ensures { Admits result size room named }
{
    if !ram_fits(size) {
        return Err(Refused::from(Reason::RamLength));
    }
    let named = named.ok_or(Reason::NoSuchThing)?;
    if room < 200 {
        return Err(Refused::from(Reason::ShortTrail));
    }
    Ok(named)
}

fn launch_task(
    board: &mut Board,
    t: TaskNumber,
    address: u16,
    trail: &mut Trail,
) -> Result<Answer, Refusal>
    ensures { (is os : List Bool) (ws : List ℕ) → Ends (launch t address) (view board.old is os ws) trail.old result (view board.new is os ws) trail.new }
{
    match board.read_state(t, trail) {
        State::Idle => Ok(make_ready(board, t, address, trail)),
        State::Ready => Err(Refusal::from(Reason::NotIdle)),
    }
}

impl<I: Card, O: Card> Machine<I, O> {
    // A machine between two cards: its tasks idle, their numbers zero, its flags off.
    pub fn new(inputs: I, outputs: O) -> Machine<I, O>
        ensures cells { (ws : List ℕ) (x : CellOf) → cells_of I.Card.lines O.Card.lines result ws x ≡ new_cells (I.Card.lines inputs) (O.Card.lines outputs) ws x }
        ensures inputs { result.store.inputs ≡ inputs }
        ensures outputs { result.store.outputs ≡ outputs }
    {
        Machine {
            store: Store {
                board: Board::new(),
                inputs,
                outputs,
            },
        }
    }

    // Lends the cards out to be asked, for example for a wear card's counts.
    pub fn inputs(&self) -> &I
        ensures { result.now ≡ self.now.store.inputs }
    {
        &self.store.inputs
    }

    pub fn outputs(&self) -> &O
        ensures { result.now ≡ self.now.store.outputs }
    {
        &self.store.outputs
    }

    // Asks what a cell holds.
    pub fn cell(&self, ram: &[u16], kind: Kind, task: u16, number: u16) -> Result<u16, Refusal>
        ensures { result ≡ asked (length ram.now) kind task number (cells_of I.Card.lines O.Card.lines self.now ram.now) }
    {
        if !ram_fits(ram.len()) {
            return Err(Refusal::from(Reason::RamLength));
        }
        let cell = Cell::new(ram.len(), kind, task, number).ok_or(Reason::NoSuchThing)?;
        Ok(self.store.read_cell(ram, cell))
    }

    // Whether this machine with its RAM and another with its own hold the same in all cells. Their cards may be of other
    // types, so this is no `==`.
    pub fn same_cells<J: Card, P: Card>(
        &self,
        ram: &[u16],
        other: &Machine<J, P>,
        other_ram: &[u16],
    ) -> bool
        ensures { Decides result (Equal I.Card.lines O.Card.lines J.Card.lines P.Card.lines self.now ram.now other.now other_ram.now) }
    {
        self.store.same_cells(&other.store) && ram == other_ram
    }

    // Each event makes its first tests, takes its step and counts its trail by three calls of its own. One function for all,
    // with the step as a closure, would be no shorter where it is called, and its contract would have to speak of RAM and of
    // the list. RAM stays a parameter, since it is lent to each call.

    // Puts a word into RAM.
    pub fn place(
        &mut self,
        ram: &mut [u16],
        address: u16,
        word: u16,
        trail: &mut [Entry<Cell>],
    ) -> Result<Answered, Refused>
        ensures { Did (place (length ram.old) (length trail.old) address word) (cells_of I.Card.lines O.Card.lines self.old ram.old) trail.old result (cells_of I.Card.lines O.Card.lines self.new ram.new) trail.new }
    {
        let there = usize::from(address) < ram.len();
        let address = admit(ram.len(), there.then_some(address), trail.len())?;
        let mut notes = Trail::new(trail);
        write_ram(ram, address, word, &mut notes);
        counted(Ok(Answer::Done), &notes)
    }

    // Shows the machine a new level on an input line.
    pub fn feed(
        &mut self,
        ram: &[u16],
        line: u16,
        on: bool,
        trail: &mut [Entry<Cell>],
    ) -> Result<Answered, Refused>
        ensures { Did (feed (length ram.now) (length trail.old) line on) (cells_of I.Card.lines O.Card.lines self.old ram.now) trail.old result (cells_of I.Card.lines O.Card.lines self.new ram.now) trail.new }
    {
        let line = admit(ram.len(), u8::try_from(line).ok(), trail.len())?;
        let mut notes = Trail::new(trail);
        self.store.write_line(Line::Input(line), on, &mut notes);
        counted(Ok(Answer::Done), &notes)
    }

    // Makes an idle task ready at an address.
    pub fn start(
        &mut self,
        ram: &[u16],
        task: u16,
        address: u16,
        trail: &mut [Entry<Cell>],
    ) -> Result<Answered, Refused>
        ensures { Did (start (length ram.now) (length trail.old) task address) (cells_of I.Card.lines O.Card.lines self.old ram.now) trail.old result (cells_of I.Card.lines O.Card.lines self.new ram.now) trail.new }
    {
        let task = admit(ram.len(), TaskNumber::new(task), trail.len())?;
        let mut notes = Trail::new(trail);
        let end = launch_task(&mut self.store.board, task, address, &mut notes);
        counted(end, &notes)
    }

    // Ten milliseconds have passed: every timer and delay that is not zero counts down.
    pub fn tick(&mut self, ram: &[u16], trail: &mut [Entry<Cell>]) -> Result<Answered, Refused>
        ensures { Did (tick (length ram.now) (length trail.old)) (cells_of I.Card.lines O.Card.lines self.old ram.now) trail.old result (cells_of I.Card.lines O.Card.lines self.new ram.now) trail.new }
    {
        admit(ram.len(), Some(()), trail.len())?;
        let mut notes = Trail::new(trail);
        let answer = tick_tasks(&mut self.store.board, &mut notes);
        counted(Ok(answer), &notes)
    }

    // Stops a task.
    pub fn kill(
        &mut self,
        ram: &[u16],
        task: u16,
        trail: &mut [Entry<Cell>],
    ) -> Result<Answered, Refused>
        ensures { Did (kill (length ram.now) (length trail.old) task) (cells_of I.Card.lines O.Card.lines self.old ram.now) trail.old result (cells_of I.Card.lines O.Card.lines self.new ram.now) trail.new }
    {
        let task = admit(ram.len(), TaskNumber::new(task), trail.len())?;
        let mut notes = Trail::new(trail);
        let answer = end_task(&mut self.store.board, task, &mut notes);
        counted(Ok(answer), &notes)
    }

    // Sends a task to its abort address, or stops it where it has none.
    pub fn abort(
        &mut self,
        ram: &[u16],
        task: u16,
        trail: &mut [Entry<Cell>],
    ) -> Result<Answered, Refused>
        ensures { Did (abort (length ram.now) (length trail.old) task) (cells_of I.Card.lines O.Card.lines self.old ram.now) trail.old result (cells_of I.Card.lines O.Card.lines self.new ram.now) trail.new }
    {
        let task = admit(ram.len(), TaskNumber::new(task), trail.len())?;
        let mut notes = Trail::new(trail);
        let answer = abort_task(&mut self.store.board, task, &mut notes);
        counted(Ok(answer), &notes)
    }

    // One command of a task that is ready and has no delay.
    fn cycle(&mut self, ram: &[u16], t: TaskNumber, trail: &mut Trail) -> Result<Answer, Refusal>
        ensures { Ends (cycle (length ram.now) t) (cells_of I.Card.lines O.Card.lines self.old ram.now) trail.old result (cells_of I.Card.lines O.Card.lines self.new ram.now) trail.new }
    {
        let State::Ready = self.store.board.read_state(t, trail) else {
            return Ok(Answer::Idle);
        };
        if self.store.board.read_delay(t, trail) != 0 {
            return Ok(Answer::Waiting);
        }
        let place = self.store.board.read_place(t, trail);
        let action = plan_command(&self.store.board, ram, t, place, trail)?;
        Ok(perform_action(&mut self.store, t, action, trail))
    }

    // Gives a task its turn.
    pub fn turn(
        &mut self,
        ram: &mut [u16],
        task: u16,
        trail: &mut [Entry<Cell>],
    ) -> Result<Answered, Refused>
        ensures { Did (turn (length ram.old) (length trail.old) task) (cells_of I.Card.lines O.Card.lines self.old ram.old) trail.old result (cells_of I.Card.lines O.Card.lines self.new ram.new) trail.new }
    {
        let task = admit(ram.len(), TaskNumber::new(task), trail.len())?;
        let mut notes = Trail::new(trail);
        let end = self.cycle(ram, task, &mut notes);
        counted(end, &notes)
    }
}
