// What a turn changes. Nothing here can refuse.
#![tactic(auto)]

ghost use Rattle.std.specs.Prelude.{◌≡◌, Bool, List, ℕ};
ghost use Rattle.cells.specs.declared.Cell.TheVariants.{Register, Delay};
ghost use Rattle.cells.specs.Runs.{Goes};
ghost use Rattle.store.specs.View.{view, cells_of};
ghost use Rattle.perform.specs.declared.Answer.TheVariants.{Done};
ghost use Rattle.perform.specs.Perform.{answer_number, timer, move_on, kill, ready_at, abort, count_down, tick_task, ticks, branch, write, invert, halt, perform};

use cards::Card;
use cells::Trail;
use plan::Action;
use std::fmt;
use store::{Board, Line, State, Store};
use words::{RegisterNumber, TaskNumber};

// How deep an empty stack is.
const EMPTY: u16 = 0;

// What an accepted event says.
#[derive(Clone, Copy, PartialEq, Eq, Debug)]
pub enum Answer {
    Done = 0,
    Idle = 1,
    Waiting = 2,
    Halted = 3,
    Ran = 4,
}

impl Answer {
    // The number that the rules give it. Each enum casts itself, since a cast takes no type parameter.
    pub fn number(self) -> u16
        ensures { result ≡ answer_number self }
    {
        self as u16
    }
}

impl fmt::Display for Answer {
    fn fmt<W: fmt::Write>(&self, f: &mut fmt::Formatter<W>) -> fmt::Result {
        f.write_str(match self {
            Answer::Done => "Done",
            Answer::Idle => "Idle",
            Answer::Waiting => "Waiting",
            Answer::Halted => "Halted",
            Answer::Ran => "Ran",
        })
    }
}

// The functions below take the board or the store, the task and the trail apart: a struct of these would hold two loans,
// made anew for each command and taken apart in each step. Line, value and next stay parameters too: each variant of `Action`
// has only some of them.

// A command ends with the change of its task's place.
fn move_on(board: &mut Board, t: TaskNumber, place: u16, trail: &mut Trail) -> Answer
    ensures { (is os : List Bool) (ws : List ℕ) → Goes (move_on t place) (view board.old is os ws) trail.old result (view board.new is os ws) trail.new }
{
    board.write_place(t, place, trail);
    Answer::Ran
}

// Stops a task.
pub fn end_task(board: &mut Board, t: TaskNumber, trail: &mut Trail) -> Answer
    ensures { (is os : List Bool) (ws : List ℕ) → Goes (kill t) (view board.old is os ws) trail.old result (view board.new is os ws) trail.new }
{
    board.write_state(t, State::Idle, trail);
    Answer::Done
}

// Makes a task ready at an address.
pub fn make_ready(board: &mut Board, t: TaskNumber, address: u16, trail: &mut Trail) -> Answer
    ensures { (is os : List Bool) (ws : List ℕ) → Goes (ready_at t address) (view board.old is os ws) trail.old result (view board.new is os ws) trail.new }
{
    board.write_state(t, State::Ready, trail);
    board.write_place(t, address, trail);
    board.write_delay(t, 0, trail);
    board.write_register(t, RegisterNumber::STACK_DEPTH, 0, trail);
    board.write_register(t, RegisterNumber::TIMER, 0, trail);
    board.write_register(t, RegisterNumber::ABORT_ADDRESS, 0, trail);
    Answer::Done
}

// Sends a task to its abort address, or stops it where it has none, which by the rules of the machine is 0.
pub fn abort_task(board: &mut Board, t: TaskNumber, trail: &mut Trail) -> Answer
    ensures { (is os : List Bool) (ws : List ℕ) → Goes (abort t) (view board.old is os ws) trail.old result (view board.new is os ws) trail.new }
{
    let State::Ready = board.read_state(t, trail) else {
        return Answer::Done;
    };
    let target = board.read_register(t, RegisterNumber::ABORT_ADDRESS, trail);
    if target == 0 {
        return end_task(board, t, trail);
    }
    board.write_place(t, target, trail);
    // the stack is empty there
    board.write_register(t, RegisterNumber::STACK_DEPTH, EMPTY, trail);
    Answer::Done
}

// The timer and the delay have a function each: a shared one would take two closures, to read the cell and to write it, and
// be longer at both calls.
fn count_timer(board: &mut Board, t: TaskNumber, trail: &mut Trail)
    ensures { (is os : List Bool) (ws : List ℕ) → Goes (count_down (Register t timer)) (view board.old is os ws) trail.old Done (view board.new is os ws) trail.new }
{
    let timer = board.read_register(t, RegisterNumber::TIMER, trail);
    if let Some(left) = timer.checked_sub(1) {
        board.write_register(t, RegisterNumber::TIMER, left, trail);
    }
}

fn count_delay(board: &mut Board, t: TaskNumber, trail: &mut Trail)
    ensures { (is os : List Bool) (ws : List ℕ) → Goes (count_down (Delay t)) (view board.old is os ws) trail.old Done (view board.new is os ws) trail.new }
{
    let delay = board.read_delay(t, trail);
    if let Some(left) = delay.checked_sub(1) {
        board.write_delay(t, left, trail);
    }
}

fn tick_task(board: &mut Board, t: TaskNumber, trail: &mut Trail)
    ensures { (is os : List Bool) (ws : List ℕ) → Goes (tick_task t) (view board.old is os ws) trail.old Done (view board.new is os ws) trail.new }
{
    count_timer(board, t, trail);
    count_delay(board, t, trail);
}

// Counts the timers and delays of all tasks down, task by task.
pub fn tick_tasks(board: &mut Board, trail: &mut Trail) -> Answer
    ensures { (is os : List Bool) (ws : List ℕ) → Goes (ticks 32) (view board.old is os ws) trail.old result (view board.new is os ws) trail.new }
{
    for t in 0..32u8 {
        tick_task(board, TaskNumber::of(t), trail);
    }
    Answer::Done
}

fn branch_on<I: Card, O: Card>(
    store: &mut Store<I, O>,
    t: TaskNumber,
    line: Line,
    value: bool,
    to: u16,
    next: u16,
    trail: &mut Trail,
) -> Answer
    ensures { (ws : List ℕ) → Goes (branch t line value to next) (cells_of I.Card.lines O.Card.lines store.old ws) trail.old result (cells_of I.Card.lines O.Card.lines store.new ws) trail.new }
{
    let bit = store.read_line(line, trail);
    let place = if bit == value { to } else { next };
    move_on(&mut store.board, t, place, trail)
}

fn write_bit<I: Card, O: Card>(
    store: &mut Store<I, O>,
    t: TaskNumber,
    line: Line,
    value: bool,
    next: u16,
    trail: &mut Trail,
) -> Answer
    ensures { (ws : List ℕ) → Goes (write t line value next) (cells_of I.Card.lines O.Card.lines store.old ws) trail.old result (cells_of I.Card.lines O.Card.lines store.new ws) trail.new }
{
    store.write_line(line, value, trail);
    move_on(&mut store.board, t, next, trail)
}

fn invert_bit<I: Card, O: Card>(
    store: &mut Store<I, O>,
    t: TaskNumber,
    line: Line,
    next: u16,
    trail: &mut Trail,
) -> Answer
    ensures { (ws : List ℕ) → Goes (invert t line next) (cells_of I.Card.lines O.Card.lines store.old ws) trail.old result (cells_of I.Card.lines O.Card.lines store.new ws) trail.new }
{
    let bit = store.read_line(line, trail);
    write_bit(store, t, line, !bit, next, trail)
}

fn halt_while<I: Card, O: Card>(
    store: &mut Store<I, O>,
    t: TaskNumber,
    line: Line,
    value: bool,
    next: u16,
    trail: &mut Trail,
) -> Answer
    ensures { (ws : List ℕ) → Goes (halt t line value next) (cells_of I.Card.lines O.Card.lines store.old ws) trail.old result (cells_of I.Card.lines O.Card.lines store.new ws) trail.new }
{
    let bit = store.read_line(line, trail);
    if bit == value {
        return Answer::Halted;
    }
    move_on(&mut store.board, t, next, trail)
}

// Does what is left of a command of task t. Commands are words in RAM, so they are the cases of an enum and no closures.
pub fn perform_action<I: Card, O: Card>(
    store: &mut Store<I, O>,
    t: TaskNumber,
    action: Action,
    trail: &mut Trail,
) -> Answer
    ensures { (ws : List ℕ) → Goes (perform t action) (cells_of I.Card.lines O.Card.lines store.old ws) trail.old result (cells_of I.Card.lines O.Card.lines store.new ws) trail.new }
{
    match action {
        Action::Jump { to } => move_on(&mut store.board, t, to, trail),
        Action::BranchOn {
            line,
            value,
            to,
            next,
        } => branch_on(store, t, line, value, to, next, trail),
        Action::Write { line, value, next } => { write_bit(store, t, line, value, next, trail) }
        Action::Invert { line, next } => { invert_bit(store, t, line, next, trail) }
        Action::HaltWhile { line, value, next } => {
            halt_while(store, t, line, value, next, trail)
        }
        Action::EndTask { next } => {
            end_task(&mut store.board, t, trail);
            move_on(&mut store.board, t, next, trail)
        }
    }
}
