// The tasks and flags of a machine, and RAM: each kind of cell is read and changed here, with its entry in the trail.
#![tactic(auto)]

ghost use Rattle.std.specs.Prelude.{◌≡◌, ℕ, ◌<◌, Bool, List, length, Decides};
ghost use Rattle.cells.specs.declared.Cell.{Cell};
ghost use Rattle.cells.specs.declared.Cell.TheVariants.{Register, Place, State as StateCell, Delay, Flag, Ram};
ghost use Rattle.cells.specs.Cells.{There};
ghost use Rattle.cells.specs.Runs.{Sees, Pokes};
ghost use Rattle.store.specs.View.{state_number, level, view, cells_of, new_cells, line_cell, task_eq, with_register, Equal};
ghost use Rattle.std.specs.Cmp.Rules.{comparing};
ghost use Rattle.std.proofs.Common.{rules};

use cards::Card;
use cells::{Cell, Trail};
use law::Entry;
use words::{RegisterNumber, TaskNumber};

#[derive(Clone, Copy, PartialEq, Eq, Debug)]
pub enum State {
    Idle = 0,
    Ready = 1,
}

impl State {
    // The number that the rules give it. Each enum casts itself, since a cast takes no type parameter.
    pub fn number(self) -> u16
        ensures { result ≡ state_number self }
    {
        self as u16
    }
}

// The record of one task. All tables here have one length, so that a machine is fixed memory.
#[derive(Clone, Copy, Eq, Debug)]
pub struct Task {
    registers: [u16; 128],
    place: u16,
    state: State,
    delay: u16,
}

impl Task {
    // The answer of `==`. The contract says that it decides whether the two are the same.
    #[tactic(auto, using(crate::proofs::Sameness::tasks_decide))]
    pub fn same_as(&self, other: &Task) -> bool
        ensures { Decides result (self.now ≡ other.now) }
    {
        *self == *other
    }

    // A function of its own: when the register is written like the other parts, the proof does not find how many registers
    // the task has.
    fn set_register(&mut self, r: RegisterNumber, v: u16)
        ensures after { self.new ≡ with_register self.old r v }
        ensures within { r < length self.old.registers }
    {
        self.registers[usize::from(r.get())] = v;
    }
}

// Two records are the same if all their parts are. Written out, since a derived `==` promises the test alone, and not that it
// decides whether the two are the same.
impl PartialEq for Task {
    ghost eq = { task_eq };

    ghost laws = { Prim.search (comparing, rules) };

    #[tactic(auto, using(crate::proofs::Sameness::tasks_decide))]
    fn eq(&self, other: &Task) -> bool
        ensures tested { result ≡ task_eq self.now other.now }
        ensures decided { Decides result (self.now ≡ other.now) }
    {
        self.place == other.place
            && self.state == other.state
            && self.delay == other.delay
            && self.registers[..] == other.registers[..]
    }
}

// The plain part of a machine: its table of tasks, and its flags.
#[derive(PartialEq, Eq, Debug, Drop)]
pub struct Board {
    tasks: [Task; 32],
    flags: [bool; 256],
}

impl Board {
    pub fn new() -> Board
        ensures { (is os : List Bool) (ws : List ℕ) (x : Cell) → view result is os ws x ≡ new_cells is os ws x }
    {
        let task = Task {
            registers: [0; 128],
            place: 0,
            state: State::Idle,
            delay: 0,
        };
        Board {
            tasks: [task; 32],
            flags: [false; 256],
        }
    }

    // The answer of `==`. The contract says that it decides whether all tasks and flags are the same.
    #[tactic(auto, using(crate::proofs::Sameness::boards_decide))]
    pub fn same_as(&self, other: &Board) -> bool
        ensures { Decides result (self.now ≡ other.now) }
    {
        self == other
    }

    // Each kind of cell has one function that reads it and one that writes it. One function for all would take the cell, the
    // field and a way from the field's type to a number, and every call would have to put these together.
    pub fn read_state(&self, t: TaskNumber, trail: &mut Trail) -> State
        ensures { (is os : List Bool) (ws : List ℕ) → Sees (view self.now is os ws) (StateCell t) (state_number result) trail.old trail.new }
    {
        let task = t.get();
        trail.note(Entry::Read(Cell::State { task }));
        self.tasks[usize::from(task)].state
    }

    pub fn read_place(&self, t: TaskNumber, trail: &mut Trail) -> u16
        ensures { (is os : List Bool) (ws : List ℕ) → Sees (view self.now is os ws) (Place t) result trail.old trail.new }
    {
        let task = t.get();
        trail.note(Entry::Read(Cell::Place { task }));
        self.tasks[usize::from(task)].place
    }

    pub fn read_delay(&self, t: TaskNumber, trail: &mut Trail) -> u16
        ensures { (is os : List Bool) (ws : List ℕ) → Sees (view self.now is os ws) (Delay t) result trail.old trail.new }
    {
        let task = t.get();
        trail.note(Entry::Read(Cell::Delay { task }));
        self.tasks[usize::from(task)].delay
    }

    pub fn read_register(&self, t: TaskNumber, r: RegisterNumber, trail: &mut Trail) -> u16
        ensures { (is os : List Bool) (ws : List ℕ) → Sees (view self.now is os ws) (Register t r) result trail.old trail.new }
    {
        let task = t.get();
        let number = r.get();
        trail.note(Entry::Read(Cell::Register { task, number }));
        self.tasks[usize::from(task)].registers[usize::from(number)]
    }

    pub fn read_flag(&self, n: u8, trail: &mut Trail) -> bool
        ensures { (is os : List Bool) (ws : List ℕ) → Sees (view self.now is os ws) (Flag n) (level result) trail.old trail.new }
    {
        trail.note(Entry::Read(Cell::Flag { line: n }));
        self.flags[usize::from(n)]
    }

    pub fn write_state(&mut self, t: TaskNumber, v: State, trail: &mut Trail)
        ensures { (is os : List Bool) (ws : List ℕ) → Pokes (view self.old is os ws) (StateCell t) (state_number v) (view self.new is os ws) trail.old trail.new }
    {
        let task = t.get();
        trail.note(Entry::Changed(Cell::State { task }));
        let record = &mut self.tasks[usize::from(task)];
        record.state = v;
    }

    pub fn write_place(&mut self, t: TaskNumber, v: u16, trail: &mut Trail)
        ensures { (is os : List Bool) (ws : List ℕ) → Pokes (view self.old is os ws) (Place t) v (view self.new is os ws) trail.old trail.new }
    {
        let task = t.get();
        trail.note(Entry::Changed(Cell::Place { task }));
        let record = &mut self.tasks[usize::from(task)];
        record.place = v;
    }

    pub fn write_delay(&mut self, t: TaskNumber, v: u16, trail: &mut Trail)
        ensures { (is os : List Bool) (ws : List ℕ) → Pokes (view self.old is os ws) (Delay t) v (view self.new is os ws) trail.old trail.new }
    {
        let task = t.get();
        trail.note(Entry::Changed(Cell::Delay { task }));
        let record = &mut self.tasks[usize::from(task)];
        record.delay = v;
    }

    pub fn write_register(&mut self, t: TaskNumber, r: RegisterNumber, v: u16, trail: &mut Trail)
        ensures { (is os : List Bool) (ws : List ℕ) → Pokes (view self.old is os ws) (Register t r) v (view self.new is os ws) trail.old trail.new }
    {
        let task = t.get();
        let number = r.get();
        trail.note(Entry::Changed(Cell::Register { task, number }));
        self.tasks[usize::from(task)].set_register(r, v);
    }

    pub fn write_flag(&mut self, n: u8, v: bool, trail: &mut Trail)
        ensures { (is os : List Bool) (ws : List ℕ) → Pokes (view self.old is os ws) (Flag n) (level v) (view self.new is os ws) trail.old trail.new }
    {
        trail.note(Entry::Changed(Cell::Flag { line: n }));
        self.flags[usize::from(n)] = v;
    }
}

// RAM is lent to each call, so no type can carry that an address is in it.
pub fn read_ram(ram: &[u16], a: u16, trail: &mut Trail) -> u16
    requires { a < length ram.now }
    ensures { (b : Board) (is os : List Bool) → Sees (view b is os ram.now) (Ram a) result trail.old trail.new }
{
    trail.note(Entry::Read(Cell::Ram { address: a }));
    ram[usize::from(a)]
}

pub fn write_ram(ram: &mut [u16], a: u16, v: u16, trail: &mut Trail)
    requires { a < length ram.old }
    ensures { (b : Board) (is os : List Bool) → Pokes (view b is os ram.old) (Ram a) v (view b is os ram.new) trail.old trail.new }
{
    trail.note(Entry::Changed(Cell::Ram { address: a }));
    ram[usize::from(a)] = v;
}

// A line of a card, or a flag, by its number. `words` has the kinds alone, since a mode names no number.
#[derive(Clone, Copy, PartialEq, Eq, Debug)]
pub enum Line {
    Input(u8),
    Output(u8),
    Flag(u8),
}

// All of a machine but its RAM, which callers lend: the board, between a card of inputs and a card of outputs.
#[derive(Drop)]
pub struct Store<I, O> {
    pub board: Board,
    pub inputs: I,
    pub outputs: O,
}

impl<I: Card, O: Card> Store<I, O> {
    pub fn read_line(&self, line: Line, trail: &mut Trail) -> bool
        ensures { (ws : List ℕ) → Sees (cells_of I.Card.lines O.Card.lines self.now ws) (line_cell line) (level result) trail.old trail.new }
    {
        match line {
            Line::Input(n) => {
                trail.note(Entry::Read(Cell::Input { line: n }));
                self.inputs.read(u16::from(n))
            }
            Line::Output(n) => {
                trail.note(Entry::Read(Cell::Output { line: n }));
                self.outputs.read(u16::from(n))
            }
            Line::Flag(n) => self.board.read_flag(n, trail),
        }
    }

    pub fn write_line(&mut self, line: Line, on: bool, trail: &mut Trail)
        ensures { (ws : List ℕ) → Pokes (cells_of I.Card.lines O.Card.lines self.old ws) (line_cell line) (level on) (cells_of I.Card.lines O.Card.lines self.new ws) trail.old trail.new }
    {
        match line {
            Line::Input(n) => {
                trail.note(Entry::Changed(Cell::Input { line: n }));
                self.inputs.write(u16::from(n), on);
            }
            Line::Output(n) => {
                trail.note(Entry::Changed(Cell::Output { line: n }));
                self.outputs.write(u16::from(n), on);
            }
            Line::Flag(n) => self.board.write_flag(n, on, trail),
        }
    }

    // What any one cell holds, with no entry in a trail: for questions, which the functions above would list.
    pub fn read_cell(&self, ram: &[u16], cell: Cell) -> u16
        requires { There (length ram.now) cell }
        ensures { result ≡ cells_of I.Card.lines O.Card.lines self.now ram.now cell }
    {
        let tasks = &self.board.tasks;
        match cell {
            Cell::Ram { address } => ram[usize::from(address)],
            Cell::Register { task, number } => {
                tasks[usize::from(task)].registers[usize::from(number)]
            }
            Cell::Place { task } => tasks[usize::from(task)].place,
            Cell::State { task } => tasks[usize::from(task)].state.number(),
            Cell::Delay { task } => tasks[usize::from(task)].delay,
            Cell::Flag { line } => u16::from(self.board.flags[usize::from(line)]),
            Cell::Input { line } => u16::from(self.inputs.read(u16::from(line))),
            Cell::Output { line } => u16::from(self.outputs.read(u16::from(line))),
        }
    }

    // Whether this store and another hold the same in all cells. Their cards may be of other types, so this is no `==`.
    pub fn same_cells<J: Card, P: Card>(&self, other: &Store<J, P>) -> bool
        ensures { Decides result (Equal I.Card.lines O.Card.lines J.Card.lines P.Card.lines self.now other.now) }
    {
        self.board.same_as(&other.board)
            && same_lines(&self.inputs, &other.inputs)
            && same_lines(&self.outputs, &other.outputs)
    }
}

// Whether two cards show the same lines. They may be of different types, so this is no `==`.
pub fn same_lines<C: Card, D: Card>(a: &C, b: &D) -> bool
    ensures { Decides result (C.Card.lines a.now ≡ D.Card.lines b.now) }
{
    (0..256u16).all(|n| a.read(n) == b.read(n))
}
