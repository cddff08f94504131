// The cells of a machine, and the trail that lists those which an event reads and changes.
#![tactic(auto)]

ghost use Rattle.std.specs.Prelude.{◌≡◌, [], ◌∷◌, IfSome};
ghost use Rattle.cells.specs.Cells.{kind_number, kind_of, task_of, number_of, same, There, named};
ghost use Rattle.cells.specs.Trails.{Fresh, Grows};

use law::Entry;
use std::fmt;
use words::{RegisterNumber, TaskNumber};

#[derive(Clone, Copy, PartialEq, Eq, Debug)]
pub enum Kind {
    Ram = 0,
    Register = 1,
    Place = 2,
    State = 3,
    Delay = 4,
    Flag = 5,
    Input = 6,
    Output = 7,
}

impl Kind {
    // The number that the rules give it. Each enum casts itself, since a cast takes no type parameter.
    pub fn number(self) -> u16
        ensures { result ≡ kind_number self }
    {
        self as u16
    }
}

impl fmt::Display for Kind {
    fn fmt<W: fmt::Write>(&self, f: &mut fmt::Formatter<W>) -> fmt::Result {
        f.write_str(match self {
            Kind::Ram => "RAM",
            Kind::Register => "register",
            Kind::Place => "place",
            Kind::State => "state",
            Kind::Delay => "delay",
            Kind::Flag => "flag",
            Kind::Input => "input",
            Kind::Output => "output",
        })
    }
}

// One cell. A line is a byte, since there are 256 of each kind. Tasks and registers are plain bytes too, since anyone may
// write down a cell, and only `Cell::new` says which there are.
#[derive(Clone, Copy, PartialEq, Eq, Debug)]
pub enum Cell {
    Ram { address: u16 },
    Register { task: u8, number: u8 },
    Place { task: u8 },
    State { task: u8 },
    Delay { task: u8 },
    Flag { line: u8 },
    Input { line: u8 },
    Output { line: u8 },
}

impl Cell {
    // The cell of these numbers in a machine with `size` words of RAM, if there is one. A number that a cell does not have
    // must be 0.
    pub fn new(size: usize, kind: Kind, task: u16, number: u16) -> Option<Cell>
        ensures value { result ≡ named size kind task number }
        ensures there { IfSome result (There size) }
    {
        match kind {
            Kind::Ram if task == 0 && usize::from(number) < size => Some(Cell::Ram {
                address: number,
            }),
            Kind::Register => {
                let number = RegisterNumber::new(number)?.get();
                TaskNumber::new(task).map(|t| Cell::Register {
                    task: t.get(),
                    number,
                })
            }
            Kind::Place if number == 0 => TaskNumber::new(task).map(|t| Cell::Place {
                task: t.get(),
            }),
            Kind::State if number == 0 => TaskNumber::new(task).map(|t| Cell::State {
                task: t.get(),
            }),
            Kind::Delay if number == 0 => TaskNumber::new(task).map(|t| Cell::Delay {
                task: t.get(),
            }),
            Kind::Flag if task == 0 => u8::try_from(number).ok().map(|line| Cell::Flag { line }),
            Kind::Input if task == 0 => u8::try_from(number).ok().map(|line| Cell::Input { line }),
            Kind::Output if task == 0 => u8::try_from(number)
                .ok()
                .map(|line| Cell::Output { line }),
            _ => None,
        }
    }

    // Whether the two are one cell: what `==` finds, said by kind, task and number.
    pub fn same(self, other: Cell) -> bool
        ensures { result ≡ same self other }
    {
        self == other
    }

    pub fn kind(self) -> Kind
        ensures { result ≡ kind_of self }
    {
        match self {
            Cell::Ram { .. } => Kind::Ram,
            Cell::Register { .. } => Kind::Register,
            Cell::Place { .. } => Kind::Place,
            Cell::State { .. } => Kind::State,
            Cell::Delay { .. } => Kind::Delay,
            Cell::Flag { .. } => Kind::Flag,
            Cell::Input { .. } => Kind::Input,
            Cell::Output { .. } => Kind::Output,
        }
    }

    // The task of the cell, and by the rules of the machine 0 where it has none.
    pub fn task(self) -> u16
        ensures { result ≡ task_of self }
    {
        match self {
            Cell::Register { task, .. }
            | Cell::Place { task }
            | Cell::State { task }
            | Cell::Delay { task } => u16::from(task),
            _ => 0,
        }
    }

    // The address, register or line of the cell, and by the rules of the machine 0 where it has none.
    pub fn number(self) -> u16
        ensures { result ≡ number_of self }
    {
        match self {
            Cell::Ram { address } => address,
            Cell::Register { number, .. } => u16::from(number),
            Cell::Flag { line } | Cell::Input { line } | Cell::Output { line } => u16::from(line),
            _ => 0,
        }
    }
}

// A cell as RAM 0010, flag 7, or task 0 R77.
impl fmt::Display for Cell {
    fn fmt<W: fmt::Write>(&self, f: &mut fmt::Formatter<W>) -> fmt::Result {
        let kind = self.kind();
        match self {
            Cell::Ram { address } => write!(f, "{kind} {address:04X}"),
            Cell::Register { task, number } => write!(f, "task {task} R{number:02X}"),
            Cell::Place { task } | Cell::State { task } | Cell::Delay { task } => {
                write!(f, "task {task} {kind}")
            }
            Cell::Flag { line } | Cell::Input { line } | Cell::Output { line } => {
                write!(f, "{kind} {line}")
            }
        }
    }
}

// The list that a caller lends for a trail, filled from its start to a count. The memory is the caller's, so that no event
// allocates: a vector would need a heap.
#[derive(Drop)]
pub struct Trail<'a> {
    entries: &'a mut [Entry<Cell>],
    count: usize,
}

impl<'a> Trail<'a> {
    pub fn new(entries: &'a mut [Entry<Cell>]) -> Trail<'a>
        ensures { Fresh entries.entry result }
    {
        Trail { entries, count: 0 }
    }

    pub fn count(&self) -> usize
        ensures { result ≡ self.now.count }
    {
        self.count
    }

    // Writes one entry more. A list that is full stays as it is. With `get_mut` in place of a test and an index the proof does
    // not close: of a list written through it, only the length is known.
    #[tactic(auto, using(crate::proofs::Noting::adds_one))]
    pub fn note(&mut self, entry: Entry<Cell>)
        ensures { Grows (entry ∷ []) self.old self.new }
    {
        if self.count < self.entries.len() {
            self.entries[self.count] = entry;
            self.count += 1;
        }
    }
}
