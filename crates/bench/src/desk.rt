// A machine with its RAM.
use cards::Card;
use cells::{Cell, Kind};
use events::{Event, apply};
use machine::Machine;
use std::alloc::{AllocError, Global};
use std::io;
use words::RegisterNumber;

const WORDS: usize = 256;

// Each kind of cell, with how many tasks and how many numbers its cells have.
const KINDS: [(Kind, u16, u16); 8] = [
    (Kind::Ram, 1, 256),
    (Kind::Register, 32, 128),
    (Kind::Place, 32, 1),
    (Kind::State, 32, 1),
    (Kind::Delay, 32, 1),
    (Kind::Flag, 1, 256),
    (Kind::Input, 1, 256),
    (Kind::Output, 1, 256),
];

#[derive(Drop)]
pub(crate) struct Desk<I, O> {
    pub(crate) machine: Machine<I, O>,
    pub(crate) ram: Vec<u16>,
}

impl<I: Card + Drop, O: Card + Drop> Desk<I, O> {
    pub(crate) fn new(heap: Global, inputs: I, outputs: O) -> Result<Desk<I, O>, AllocError> {
        Ok(Desk {
            machine: Machine::new(inputs, outputs),
            ram: vec![in heap; 0; WORDS]?,
        })
    }

    fn value(&self, cell: Cell) -> Option<u16> {
        let asked = self
            .machine
            .cell(&self.ram, cell.kind(), cell.task(), cell.number());
        asked.ok()
    }

    // One event, as a list of its own, with what it came to.
    pub(crate) fn step(&mut self, rt: &impl Print, event: Event) -> io::Result<()> {
        let report = apply(&mut self.machine, &mut self.ram, event);
        println!(rt; "0 {}: {report}", event.ask)
    }

    pub(crate) fn print_task(&self, rt: &impl Print, task: u8) -> io::Result<()> {
        for cell in [
            Cell::State { task },
            Cell::Place { task },
            Cell::Delay { task },
            register(task, RegisterNumber::STACK_DEPTH),
            register(task, RegisterNumber::TIMER),
            register(task, RegisterNumber::ABORT_ADDRESS),
        ] {
            if let Some(value) = self.value(cell) {
                print_cell(rt, cell, value)?;
            }
        }
        Ok(())
    }

    // Every cell that is not zero. In a new machine all are zero.
    pub(crate) fn print_changed(&self, rt: &impl Print) -> io::Result<()> {
        for (kind, tasks, numbers) in KINDS {
            for task in 0..tasks {
                for number in 0..numbers {
                    if let Ok(value) = self.machine.cell(&self.ram, kind, task, number)
                        && value != 0
                        && let Some(cell) = Cell::new(WORDS, kind, task, number)
                    {
                        print_cell(rt, cell, value)?;
                    }
                }
            }
        }
        Ok(())
    }
}

fn register(task: u8, number: RegisterNumber) -> Cell {
    Cell::Register {
        task,
        number: number.get(),
    }
}

fn print_cell(rt: &impl Print, cell: Cell, value: u16) -> io::Result<()> {
    println!(rt; "   {cell} holds {value:04X}")
}
