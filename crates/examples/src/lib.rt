#![tactic(auto)]

// Examples of what the machine says, lists and holds, each on a machine of its own.
#[cfg(test)]
mod tests {
    use cards::Packed;
    use cells::{Cell, Kind};
    use events::{Ask, call};
    use law::Entry::{self, Changed, Read};
    use machine::{Answered, Machine, Refused};
    use perform::Answer;
    use std::alloc::{AllocError, Global};
    use std::process::Abort;
    use std::test::Fail;
    use words::{Reason, Refusal};

    // An entry that no event here writes.
    const MARK: Entry<Cell> = Read(Cell::Ram { address: 0xABCD });

    // A machine with its RAM. The bench has one over any cards, which prints. One for both would have to stand in a crate of
    // the product, which needs none: RAM is lent to each call.
    #[derive(Drop)]
    struct Desk {
        machine: Machine<Packed, Packed>,
        ram: Vec<u16>,
    }

    impl Desk {
        fn new(heap: Global, size: usize) -> Result<Desk, AllocError> {
            Ok(Desk {
                machine: Machine::new(Packed::new(), Packed::new()),
                ram: vec![in heap; 0u16; size]?,
            })
        }

        fn call(&mut self, ask: Ask, list: &mut [Entry<Cell>]) -> Result<Answered, Refused> {
            call(&mut self.machine, &mut self.ram, ask, list)
        }

        // A call whose trail is not looked at.
        fn ask(&mut self, ask: Ask) -> Result<Answered, Refused> {
            self.call(ask, &mut [MARK; 200])
        }

        // Puts words into RAM. Those past its end are left out.
        fn load(&mut self, place: u16, words: [u16; 3]) {
            for (k, word) in (0u16..3).zip(words) {
                let address = place.wrapping_add(k);
                let _ = self.ask(Ask::Place { address, word });
            }
        }

        fn start(&mut self, rt: &impl Abort, task: u16, address: u16) {
            let end = self.ask(Ask::Start { task, address });
            assert_eq!(rt; end, said(Answer::Done, 7));
        }

        // Another task switches a line on, by SBIT.
        fn switch_on(&mut self, rt: &impl Abort, head: u16, line: u16) {
            self.load(0x80, [head, line, 0]);
            self.start(rt, 7, 0x80);
            assert_eq!(rt; self.ask(Ask::Turn { task: 7 }), said(Answer::Ran, 7));
        }

        // What comes before the turn of a row.
        fn prepare(&mut self, rt: &impl Abort, row: Row) {
            let Row(At { task, place, .. }, words, before, _, _, _) = row;
            self.load(place, words);
            match before {
                Off => {}
                Fed(line) => {
                    let end = self.ask(Ask::Feed { line, on: true });
                    assert_eq!(rt; end, said(Answer::Done, 1));
                }
                Lit(line) => self.switch_on(rt, 0x120D, line),
                Up(flag) => self.switch_on(rt, 0x120E, flag),
            }
            self.start(rt, u16::from(task), place);
        }

        // After an event the list has these entries.
        fn lists(&mut self, rt: &impl Abort, ask: Ask, answer: Answer, entries: &[Entry<Cell>]) {
            let mut list = [MARK; 200];
            let end = self.call(ask, &mut list);
            assert_eq!(rt; end, said(answer, entries.len()));
            listed(rt, &list, entries);
        }

        fn value(&self, cell: Cell) -> Result<u16, Refusal> {
            self.machine
                .cell(&self.ram, cell.kind(), cell.task(), cell.number())
        }

        fn same_cells(&self, other: &Desk) -> bool {
            self.machine
                .same_cells(&self.ram, &other.machine, &other.ram)
        }
    }

    fn said(answer: Answer, count: usize) -> Result<Answered, Refused> {
        Ok(Answered { answer, count })
    }

    // The reason with this number. The tables give numbers, as the rules of the machine do.
    fn reason(number: u16) -> Result<Reason, Fail> {
        let reasons = [
            Reason::RamLength,
            Reason::NoSuchThing,
            Reason::ShortTrail,
            Reason::NotIdle,
            Reason::PastRam,
            Reason::UnknownCode,
            Reason::WrongMode,
            Reason::OperandPast,
            Reason::ValueRange,
            Reason::StackDepth,
        ];
        let found = reasons.into_iter().find(|it| it.number() == number);
        Ok(found.ok_or("no such reason")?)
    }

    // A refusal that names neither task nor place.
    fn plain(number: u16) -> Result<Refusal, Fail> {
        Ok(Refusal {
            reason: reason(number)?,
            task: 0,
            place: 0,
            operand: 0,
        })
    }

    // RAM's length, and the task and the place of a command.
    #[derive(Clone, Copy)]
    struct At {
        size: usize,
        task: u8,
        place: u16,
    }

    const HERE: At = At {
        size: 256,
        task: 0,
        place: 0x10,
    };

    const LAST: At = At { task: 31, ..HERE };

    const NEAR: At = At {
        place: 0xFE,
        ..HERE
    };

    const END: At = At {
        place: 0xFF,
        ..HERE
    };

    const PAST: At = At {
        place: 0x100,
        ..HERE
    };

    const LONG: At = At {
        size: 65535,
        task: 0,
        place: 0xFFFE,
    };

    const FULL: At = At {
        size: 65536,
        ..LONG
    };

    const TOP: At = At {
        place: 0xFFFF,
        ..FULL
    };

    // What is switched on before: nothing, an input line, an output line or a flag.
    #[derive(Clone, Copy)]
    enum Before {
        Off,
        Fed(u16),
        Lit(u16),
        Up(u16),
    }

    use Before::{Fed, Lit, Off, Up};

    // What the turn says: Ran with the place afterwards, or a refusal with its number and operand. The place stays
    // otherwise, and a refusal names the command's task and place.
    #[derive(Clone, Copy)]
    enum Comes {
        Ran(u16),
        Halted,
        No(u16, u8),
    }

    use Comes::{Halted, No, Ran};

    // What a line, or the state of the command's task, holds afterwards.
    #[derive(Clone, Copy)]
    enum Holds {
        In(u8, u16),
        Out(u8, u16),
        Flag(u8, u16),
        State(u16),
    }

    use Holds::{Flag, In, Out, State};

    // Where, the words, what is on before, what the turn says, its count of entries, and a cell afterwards. The fields, and
    // those of the three enums, have no names, so that a row of the tables is one line.
    #[derive(Clone, Copy)]
    struct Row(At, [u16; 3], Before, Comes, usize, Holds);

    const TABLE: [Row; 65] = [
        // TBR0 and TBR1 of an input, an output and a flag
        Row(HERE, [0x100C, 0x40, 7], Off, Ran(0x40), 8, In(7, 0)),
        Row(HERE, [0x100C, 0x40, 7], Fed(7), Ran(0x13), 8, In(7, 1)),
        Row(HERE, [0x110C, 0x40, 7], Off, Ran(0x13), 8, In(7, 0)),
        Row(HERE, [0x110C, 0x40, 7], Fed(7), Ran(0x40), 8, In(7, 1)),
        Row(HERE, [0x100D, 0x40, 5], Off, Ran(0x40), 8, Out(5, 0)),
        Row(HERE, [0x110D, 0x40, 5], Lit(5), Ran(0x40), 8, Out(5, 1)),
        Row(HERE, [0x100E, 0x40, 5], Up(5), Ran(0x13), 8, Flag(5, 1)),
        Row(HERE, [0x110E, 0xFFFF, 5], Up(5), Ran(0xFFFF), 8, Flag(5, 1)),
        // SBIT, CBIT and IBIT of an output and a flag
        Row(HERE, [0x120D, 5, 0], Off, Ran(0x12), 7, Out(5, 1)),
        Row(HERE, [0x120E, 5, 0], Up(5), Ran(0x12), 7, Flag(5, 1)),
        Row(HERE, [0x130D, 5, 0], Lit(5), Ran(0x12), 7, Out(5, 0)),
        Row(HERE, [0x130E, 5, 0], Off, Ran(0x12), 7, Flag(5, 0)),
        Row(HERE, [0x130E, 5, 0], Up(5), Ran(0x12), 7, Flag(5, 0)),
        Row(HERE, [0x140D, 5, 0], Lit(5), Ran(0x12), 8, Out(5, 0)),
        Row(HERE, [0x140E, 5, 0], Off, Ran(0x12), 8, Flag(5, 1)),
        // a line is switched alone
        Row(HERE, [0x120D, 5, 0], Off, Ran(0x12), 7, Flag(5, 0)),
        Row(HERE, [0x120E, 5, 0], Off, Ran(0x12), 7, Out(5, 0)),
        Row(HERE, [0x120D, 5, 0], Off, Ran(0x12), 7, In(5, 0)),
        Row(HERE, [0x130D, 5, 0], Lit(6), Ran(0x12), 7, Out(6, 1)),
        // THT0 and THT1 of an input, an output and a flag
        Row(HERE, [0x150C, 7, 0], Off, Halted, 6, In(7, 0)),
        Row(HERE, [0x150C, 7, 0], Fed(7), Ran(0x12), 7, In(7, 1)),
        Row(HERE, [0x160C, 7, 0], Fed(7), Halted, 6, In(7, 1)),
        Row(HERE, [0x160C, 7, 0], Off, Ran(0x12), 7, In(7, 0)),
        Row(HERE, [0x150D, 5, 0], Off, Halted, 6, Out(5, 0)),
        Row(HERE, [0x160E, 5, 0], Up(5), Halted, 6, Flag(5, 1)),
        // BRA, to any address, and JSKI
        Row(HERE, [0x5000, 0x40, 0], Off, Ran(0x40), 6, State(1)),
        Row(HERE, [0x5000, 0xFFFF, 0], Off, Ran(0xFFFF), 6, State(1)),
        Row(HERE, [0x5500, 0, 0], Off, Ran(0x11), 6, State(0)),
        Row(LAST, [0x5500, 0, 0], Off, Ran(0x11), 6, State(0)),
        // an offset in a register, which a word or a high byte names
        Row(HERE, [0x123D, 0x44, 0], Off, Ran(0x12), 8, Out(0, 1)),
        Row(LAST, [0x123D, 0x7F, 0], Off, Ran(0x12), 8, Out(0, 1)),
        Row(HERE, [0x12DD, 0x4400, 0], Off, Ran(0x12), 8, Out(0, 1)),
        Row(HERE, [0x11DC, 0x40, 0x7F00], Fed(0), Ran(0x40), 9, In(0, 1)),
        // an offset in a high byte, which is widened by its sign
        Row(HERE, [0x12CD, 0x500, 0], Off, Ran(0x12), 7, Out(5, 1)),
        Row(HERE, [0x12CD, 0x7F00, 0], Off, Ran(0x12), 7, Out(127, 1)),
        Row(HERE, [0x12CD, 0x8000, 0], Off, No(9, 2), 5, Out(128, 0)),
        Row(HERE, [0x11CC, 9, 0xFF00], Fed(255), No(9, 2), 6, In(255, 1)),
        // the last line of each kind, and the number after it
        Row(HERE, [0x110C, 9, 255], Fed(255), Ran(9), 8, In(255, 1)),
        Row(HERE, [0x120D, 255, 0], Off, Ran(0x12), 7, Out(255, 1)),
        Row(HERE, [0x120E, 255, 0], Off, Ran(0x12), 7, Flag(255, 1)),
        Row(HERE, [0x110C, 0x40, 256], Fed(0), No(9, 2), 6, In(0, 1)),
        Row(HERE, [0x120D, 256, 0], Off, No(9, 2), 5, Out(0, 0)),
        Row(HERE, [0x120E, 256, 0], Off, No(9, 2), 5, Flag(0, 0)),
        // a wrong low byte, high byte or register
        Row(HERE, [0x12CD, 0x501, 0], Off, No(7, 1), 5, Out(5, 0)),
        Row(HERE, [0x12DD, 0x4401, 0], Off, No(7, 1), 5, Out(0, 0)),
        Row(HERE, [0x123D, 0x144, 0], Off, No(7, 1), 5, Out(0, 0)),
        Row(HERE, [0x123D, 0x80, 0], Off, No(7, 1), 5, Out(0, 0)),
        Row(HERE, [0x11DC, 0x40, 0x8000], Off, No(7, 1), 6, In(0, 0)),
        // a wrong mode: of the source, of the base, of both, of a field that is not used
        Row(HERE, [0x121D, 5, 0], Off, No(7, 1), 4, Out(5, 0)),
        Row(HERE, [0x120C, 5, 0], Off, No(7, 2), 4, In(5, 0)),
        Row(HERE, [0x1012, 0x40, 5], Off, No(7, 1), 4, State(1)),
        Row(HERE, [0x5010, 0x40, 0], Off, No(7, 0), 4, State(1)),
        Row(HERE, [0x5001, 0x40, 0], Off, No(7, 0), 4, State(1)),
        Row(LAST, [0x5501, 0, 0], Off, No(7, 0), 4, State(1)),
        // a code that there is not
        Row(HERE, [0xFF00, 0, 0], Off, No(6, 0), 4, State(1)),
        Row(LAST, [0x20C0, 0x3344, 0], Off, No(6, 0), 4, State(1)),
        // a word past RAM
        Row(PAST, [0, 0, 0], Off, No(5, 0), 3, State(1)),
        Row(END, [0x120D, 0, 0], Off, No(5, 0), 4, Out(0, 0)),
        Row(NEAR, [0x110C, 0x40, 0], Fed(0), No(5, 0), 5, In(0, 1)),
        Row(LONG, [0x120D, 0, 0], Off, No(5, 0), 4, Out(0, 0)),
        Row(END, [0x5500, 0, 0], Off, Ran(0x100), 6, State(0)),
        // words on both sides of FFFF
        Row(TOP, [0x110C, 0x40, 7], Off, Ran(2), 8, In(7, 0)),
        Row(TOP, [0x120E, 9, 0], Off, Ran(1), 7, Flag(9, 1)),
        Row(FULL, [0x120E, 9, 0], Off, Ran(0), 7, Flag(9, 1)),
        Row(TOP, [0x5500, 0, 0], Off, Ran(0), 6, State(0)),
    ];

    // The examples of docs/MACHINE.md, and some codes and modes that do not exist.
    const DOCUMENTED: [Row; 23] = [
        Row(HERE, [0x11CC, 0x20, 0x300], Off, Ran(0x13), 8, In(3, 0)),
        Row(HERE, [0x11CC, 0x20, 0x300], Fed(3), Ran(0x20), 8, In(3, 1)),
        Row(HERE, [0x10CC, 0x20, 0x300], Off, Ran(0x20), 8, In(3, 0)),
        Row(HERE, [0x12CD, 0x400, 0], Off, Ran(0x12), 7, Out(4, 1)),
        Row(HERE, [0x13CD, 0x400, 0], Lit(4), Ran(0x12), 7, Out(4, 0)),
        Row(HERE, [0x12DD, 0x1000, 0], Off, Ran(0x12), 8, Out(0, 1)),
        Row(HERE, [0x123D, 0x10, 0], Off, Ran(0x12), 8, Out(0, 1)),
        Row(HERE, [0x14CE, 0x700, 0], Off, Ran(0x12), 8, Flag(7, 1)),
        Row(HERE, [0x15CC, 0x300, 0], Off, Halted, 6, In(3, 0)),
        Row(HERE, [0x15CC, 0x300, 0], Fed(3), Ran(0x12), 7, In(3, 1)),
        Row(HERE, [0x17CC, 0, 0], Off, No(6, 0), 4, State(1)),
        Row(HERE, [0x0000, 0, 0], Off, No(6, 0), 4, State(1)),
        Row(HERE, [0x5100, 0, 0], Off, No(6, 0), 4, State(1)),
        Row(HERE, [0x121D, 0x400, 0], Off, No(7, 1), 4, Out(4, 0)),
        Row(HERE, [0x12CC, 0x400, 0], Off, No(7, 2), 4, In(4, 0)),
        Row(HERE, [0x12FF, 0x400, 0], Off, No(7, 1), 4, Out(4, 0)),
        Row(HERE, [0x12CF, 0x400, 0], Off, No(7, 2), 4, Out(4, 0)),
        Row(HERE, [0x10CB, 0x20, 0], Off, No(7, 2), 4, State(1)),
        Row(HERE, [0x12CD, 0x401, 0], Off, No(7, 1), 5, Out(4, 0)),
        Row(HERE, [0x12DD, 0x8000, 0], Off, No(7, 1), 5, Out(0, 0)),
        Row(HERE, [0x12DE, 0x7F00, 0], Off, Ran(0x12), 8, Flag(0, 1)),
        Row(END, [0x5000, 0, 0], Off, No(5, 0), 4, State(1)),
        Row(TOP, [0x5000, 0x1234, 0], Off, Ran(0x1234), 6, State(1)),
    ];

    // What the turn of a row says, and the place afterwards.
    fn outcome(row: Row) -> Result<(Result<Answered, Refused>, u16), Fail> {
        let Row(At { task, place, .. }, _, _, comes, count, _) = row;
        match comes {
            Ran(next) => Ok((said(Answer::Ran, count), next)),
            Halted => Ok((said(Answer::Halted, count), place)),
            No(number, operand) => {
                let reason = reason(number)?;
                let refusal = Refusal {
                    reason,
                    task,
                    place,
                    operand,
                };
                Ok((Err(Refused { refusal, count }), place))
            }
        }
    }

    // The cell of a row, and what it is to hold.
    fn held(row: Row) -> (Cell, u16) {
        let Row(At { task, .. }, _, _, _, _, holds) = row;
        match holds {
            In(line, value) => (Cell::Input { line }, value),
            Out(line, value) => (Cell::Output { line }, value),
            Flag(line, value) => (Cell::Flag { line }, value),
            State(value) => (Cell::State { task }, value),
        }
    }

    fn run(rt: &impl Abort, heap: Global, i: usize, row: Row) -> Result<(), Fail> {
        let Row(At { size, task, .. }, _, _, _, _, _) = row;
        let (end, next) = outcome(row)?;
        let (cell, value) = held(row);
        let mut desk = Desk::new(heap, size)?;
        desk.prepare(rt, row);
        let turn = Ask::Turn {
            task: u16::from(task),
        };
        assert_eq!(rt; desk.ask(turn), end, "row {i}");
        assert_eq!(rt;
            desk.value(Cell::Place { task }),
            Ok(next),
            "row {i}: the place"
        );
        assert_eq!(rt; desk.value(cell), Ok(value), "row {i}: the cell");
        Ok(())
    }

    #[test]
    fn commands(rt: HostRuntime) -> Result<(), Fail> {
        for (i, row) in TABLE.iter().chain(DOCUMENTED.iter()).enumerate() {
            run(&rt, rt.alloc(), i, *row)?;
        }
        Ok(())
    }

    // Whether a list has these entries, and no other was written.
    fn listed(rt: &impl Abort, list: &[Entry<Cell>], entries: &[Entry<Cell>]) {
        for (i, entry) in list.iter().enumerate() {
            let wanted = entries.get(i).copied().unwrap_or(MARK);
            assert_eq!(rt; *entry, wanted, "entry {i}");
        }
    }

    // With these lengths of RAM and of the list an event is refused by the number, and nothing is changed or listed.
    fn refuses(
        rt: &impl Abort,
        heap: Global,
        ask: Ask,
        size: usize,
        room: usize,
        number: u16,
        why: &str,
    ) -> Result<(), Fail> {
        let mut list = vec![in heap; MARK; room]?;
        let mut desk = Desk::new(heap, size)?;
        let end = desk.call(ask, &mut list);
        let refusal = plain(number)?;
        assert_eq!(rt; end, Err(Refused { refusal, count: 0 }), "{why}");
        listed(rt, &list, &[]);
        assert!(rt;
            desk.same_cells(&Desk::new(heap, size)?),
            "a cell was changed"
        );
        Ok(())
    }

    const KNOWN: [Ask; 7] = [
        Ask::Place {
            address: 0xFF,
            word: 0xFFFF,
        },
        Ask::Feed {
            line: 255,
            on: true,
        },
        Ask::Tick,
        Ask::Start {
            task: 31,
            address: 0x10,
        },
        Ask::Kill { task: 31 },
        Ask::Abort { task: 31 },
        Ask::Turn { task: 31 },
    ];

    const UNKNOWN: [Ask; 6] = [
        Ask::Place {
            address: 0x100,
            word: 0xFFFF,
        },
        Ask::Feed {
            line: 256,
            on: true,
        },
        Ask::Start {
            task: 32,
            address: 0x10,
        },
        Ask::Kill { task: 32 },
        Ask::Abort { task: 32 },
        Ask::Turn { task: 32 },
    ];

    #[test]
    fn first_refusals(rt: HostRuntime) -> Result<(), Fail> {
        for ask in KNOWN {
            for (size, room, number, why) in [
                (255, 200, 1, "RAM too short"),
                (65537, 200, 1, "RAM too long"),
                (255, 199, 1, "RAM before the list"),
                (256, 199, 3, "a short list"),
                (65536, 0, 3, "an empty list"),
            ] {
                refuses(&rt, rt.alloc(), ask, size, room, number, why)?;
            }
        }
        for ask in UNKNOWN {
            for (size, room, number, why) in [
                (255, 199, 1, "RAM before the name"),
                (256, 199, 2, "the name before the list"),
                (256, 200, 2, "the name"),
            ] {
                refuses(&rt, rt.alloc(), ask, size, room, number, why)?;
            }
        }
        Ok(())
    }

    #[test]
    fn second_start(rt: HostRuntime) -> Result<(), Fail> {
        let mut desk = Desk::new(rt.alloc(), 256)?;
        let mut other = Desk::new(rt.alloc(), 256)?;
        desk.start(&rt, 3, 0x10);
        other.start(&rt, 3, 0x10);
        let mut list = [MARK; 200];
        let again = Ask::Start {
            task: 3,
            address: 0x20,
        };
        let refusal = plain(4)?;
        assert_eq!(rt;
            desk.call(again, &mut list),
            Err(Refused { refusal, count: 1 })
        );
        listed(&rt, &list, &[Read(Cell::State { task: 3 })]);
        assert!(rt; desk.same_cells(&other), "a cell was changed");
        Ok(())
    }

    // Task 2 has a turn at 0010.
    fn turn(
        rt: &impl Abort,
        heap: Global,
        words: [u16; 3],
        answer: Answer,
        entries: &[Entry<Cell>],
    ) -> Result<(), Fail> {
        let mut desk = Desk::new(heap, 256)?;
        desk.load(0x10, words);
        desk.start(rt, 2, 0x10);
        desk.lists(rt, Ask::Turn { task: 2 }, answer, entries);
        Ok(())
    }

    // Entries of task 2: its state, delay and place are read, and its place is changed.
    const S: Entry<Cell> = Read(Cell::State { task: 2 });

    const D: Entry<Cell> = Read(Cell::Delay { task: 2 });

    const P: Entry<Cell> = Read(Cell::Place { task: 2 });

    const Q: Entry<Cell> = Changed(Cell::Place { task: 2 });

    // The words from 0010 on are read.
    const W0: Entry<Cell> = Read(Cell::Ram { address: 0x10 });

    const W1: Entry<Cell> = Read(Cell::Ram { address: 0x11 });

    const W2: Entry<Cell> = Read(Cell::Ram { address: 0x12 });

    // A register of task 2.
    fn register(number: u8) -> Cell {
        Cell::Register { task: 2, number }
    }

    #[test]
    fn trails_of_turns(rt: HostRuntime) -> Result<(), Fail> {
        let heap = rt.alloc();
        let input = Cell::Input { line: 7 };
        let output = Cell::Output { line: 5 };
        let flag = Cell::Flag { line: 5 };
        // SBIT of output 5
        let set = [S, D, P, W0, W1, Changed(output), Q];
        turn(&rt, heap, [0x120D, 5, 0], Answer::Ran, &set)?;
        // TBR1 of input 7
        let tested = [S, D, P, W0, W1, W2, Read(input), Q];
        turn(&rt, heap, [0x110C, 0x40, 7], Answer::Ran, &tested)?;
        // IBIT of flag 5
        let turned = [S, D, P, W0, W1, Read(flag), Changed(flag), Q];
        turn(&rt, heap, [0x140E, 5, 0], Answer::Ran, &turned)?;
        // THT0 of the input that R44 names
        let named = Read(Cell::Input { line: 0 });
        let halted = [S, D, P, W0, W1, Read(register(0x44)), named];
        turn(&rt, heap, [0x153C, 0x44, 0], Answer::Halted, &halted)?;
        // BRA and JSKI
        let moved = [S, D, P, W0, W1, Q];
        turn(&rt, heap, [0x5000, 0x40, 0], Answer::Ran, &moved)?;
        let stopped = [S, D, P, W0, Changed(Cell::State { task: 2 }), Q];
        turn(&rt, heap, [0x5500, 0, 0], Answer::Ran, &stopped)
    }

    #[test]
    fn trails_of_events(rt: HostRuntime) -> Result<(), Fail> {
        let mut desk = Desk::new(rt.alloc(), 256)?;
        let done = Answer::Done;
        let place = Ask::Place {
            address: 9,
            word: 0xFFFF,
        };
        desk.lists(&rt, place, done, &[Changed(Cell::Ram { address: 9 })]);
        let feed = Ask::Feed { line: 9, on: true };
        desk.lists(&rt, feed, done, &[Changed(Cell::Input { line: 9 })]);
        // a tick reads all timers and delays, which are zero
        let ticked: Vec<Entry<Cell>> = (0..32)
            .flat_map(|task| {
                let timer = Cell::Register { task, number: 0x78 };
                [Read(timer), Read(Cell::Delay { task })]
            })
            .collect(rt.alloc())?;
        desk.lists(&rt, Ask::Tick, done, &ticked);
        desk.lists(&rt, Ask::Turn { task: 2 }, Answer::Idle, &[S]);
        desk.lists(&rt, Ask::Abort { task: 2 }, done, &[S]);
        let start = Ask::Start {
            task: 2,
            address: 0x10,
        };
        let state = Changed(Cell::State { task: 2 });
        let delay = Changed(Cell::Delay { task: 2 });
        let depth = Changed(register(0x77));
        let timer = Changed(register(0x78));
        let abort = Changed(register(0x7B));
        desk.lists(&rt, start, done, &[S, state, Q, delay, depth, timer, abort]);
        let stopped = [S, Read(register(0x7B)), state];
        desk.lists(&rt, Ask::Abort { task: 2 }, done, &stopped);
        desk.lists(&rt, Ask::Kill { task: 2 }, done, &[state]);
        Ok(())
    }

    // The kind, task, number and touch of an entry.
    #[test]
    fn numbers(rt: HostRuntime) {
        for (entry, numbers) in [
            (W0, [0, 0, 0x10, 0]),
            (Read(register(0x44)), [1, 2, 0x44, 0]),
            (P, [2, 2, 0, 0]),
            (Q, [2, 2, 0, 1]),
            (S, [3, 2, 0, 0]),
            (D, [4, 2, 0, 0]),
            (Changed(Cell::Flag { line: 5 }), [5, 0, 5, 1]),
            (Read(Cell::Input { line: 7 }), [6, 0, 7, 0]),
            (Changed(Cell::Output { line: 5 }), [7, 0, 5, 1]),
        ] {
            let cell = entry.cell();
            let told = [
                cell.kind().number(),
                cell.task(),
                cell.number(),
                entry.touch_number(),
            ];
            assert_eq!(rt; told, numbers);
        }
    }

    // A question refuses by 1, then by 2, and never for want of a list.
    #[test]
    fn questions(rt: HostRuntime) {
        let short = [0u16; 255];
        let ram = [7u16; 256];
        let machine = Machine::new(Packed::new(), Packed::new());
        assert_eq!(rt; machine.cell(&ram, Kind::Ram, 0, 255), Ok(7));
        for (kind, task, number) in [
            (Kind::Ram, 0, 256),
            (Kind::Ram, 1, 0),
            (Kind::Register, 32, 0),
            (Kind::Register, 0, 128),
            (Kind::Place, 0, 1),
            (Kind::State, 32, 0),
            (Kind::Delay, 0, 1),
            (Kind::Flag, 0, 256),
            (Kind::Input, 1, 0),
            (Kind::Output, 0, 256),
        ] {
            for (ram, refusal) in [(ram.as_slice(), 2), (short.as_slice(), 1)] {
                let asked = machine.cell(ram, kind, task, number);
                assert_eq!(rt; asked.map_err(|no| no.reason.number()), Err(refusal));
            }
        }
    }
}
