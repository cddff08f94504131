// The tasks of a morning, the events that run them, and another order of these.
use events::{Ask, Event};
use std::alloc::{AllocError, Global};

// The words of a task, and the address of the first.
#[derive(Clone, Copy)]
struct Listing {
    address: u16,
    words: &'static [u16],
}

// Direction on; step until the home switch shows; direction off; homed flag on; end.
const HOMING: Listing = Listing {
    address: 0x10,
    words: &[
        0x12CD, 0x0400, // 10: SBIT output 4, the direction
        0x11CC, 0x001B, 0x0300, // 12: TBR1 input 3, the home switch: jump to 1B
        0x12CD, 0x0500, // 15: SBIT output 5, the step line
        0x13CD, 0x0500, // 17: CBIT output 5
        0x5000, 0x0012, // 19: BRA 12
        0x13CD, 0x0400, // 1B: CBIT output 4
        0x12CE, 0x0700, // 1D: SBIT flag 7, homed
        0x5500, // 1F: JSKI
    ],
};

// The exhaust runs while the lid is shut.
const EXHAUST: Listing = Listing {
    address: 0x30,
    words: &[
        0x15CC, 0x0600, // 30: THT0 input 6, the lid
        0x12CD, 0x0800, // 32: SBIT output 8, the exhaust
        0x16CC, 0x0600, // 34: THT1 input 6
        0x13CD, 0x0800, // 36: CBIT output 8
        0x5000, 0x0030, // 38: BRA 30
    ],
};

// One pulse once the head is homed.
const PULSE: Listing = Listing {
    address: 0x50,
    words: &[
        0x15CE, 0x0700, // 50: THT0 flag 7
        0x12CD, 0x0A00, // 52: SBIT output 10, the beam
        0x13CD, 0x0A00, // 54: CBIT output 10
        0x5500, // 56: JSKI
    ],
};

// A guest's lamp follows its switch.
const LAMP: Listing = Listing {
    address: 0x60,
    words: &[
        0x15CC, 0x0800, // 60: THT0 input 8, the switch
        0x12CD, 0x0900, // 62: SBIT output 9, the lamp
        0x16CC, 0x0800, // 64: THT1 input 8
        0x13CD, 0x0900, // 66: CBIT output 9
        0x5000, 0x0060, // 68: BRA 60
    ],
};

// A word that is no command.
const SLIP: Listing = Listing {
    address: 0x80,
    words: &[0xFF00],
};

impl Listing {
    fn place(self, asks: &mut Vec<Ask>) -> Result<(), AllocError> {
        let addresses = self.address..=u16::MAX;
        asks.extend(
            addresses.zip(self.words).map(|(address, word)| Ask::Place {
                address,
                word: *word,
            }),
        )
    }

    fn start(self, task: u16) -> Ask {
        Ask::Start {
            task,
            address: self.address,
        }
    }
}

// What the world does in a round: the lid shuts and opens, the lamp's switch too, and the head reaches home.
fn world(round: u16) -> Option<Ask> {
    match round {
        1 => Some(Ask::Feed { line: 6, on: true }),
        2 => Some(Ask::Feed { line: 8, on: true }),
        4 => Some(Ask::Turn { task: 4 }),
        6 => Some(Ask::Tick),
        9 => Some(Ask::Feed { line: 8, on: false }),
        12 => Some(Ask::Feed { line: 3, on: true }),
        14 => Some(Ask::Feed { line: 6, on: false }),
        _ => None,
    }
}

// Homing has a turn in each round, the exhaust and the lamp in turns, and the pulse in the last rounds.
fn asks_of(round: u16) -> [Option<Ask>; 4] {
    [
        Some(Ask::Turn { task: 0 }),
        world(round),
        Some(Ask::Turn {
            task: 1 + round % 2,
        }),
        (round >= 13).then_some(Ask::Turn { task: 3 }),
    ]
}

fn asks(heap: Global) -> Result<Vec<Ask>, AllocError> {
    let mut asks = Vec::new(heap);
    for listing in [HOMING, EXHAUST, PULSE, LAMP, SLIP] {
        listing.place(&mut asks)?;
    }
    let started = [HOMING, EXHAUST, LAMP, PULSE, SLIP];
    asks.extend(
        (0..5)
            .zip(started)
            .map(|(task, listing)| listing.start(task)),
    )?;
    for round in 0..18 {
        asks.extend(asks_of(round).into_iter().flatten())?;
    }
    asks.extend([Ask::Abort { task: 1 }, Ask::Kill { task: 4 }, Ask::Tick])?;
    Ok(asks)
}

pub(crate) fn events(heap: Global) -> Result<Vec<Event>, AllocError> {
    asks(heap)?.into_iter().map(Event::from).collect(heap)
}

// Two tasks are started, and the second has a word that is no command.
pub(crate) fn slip() -> [Event; 3] {
    let place = Ask::Place {
        address: SLIP.address,
        word: SLIP.words[0],
    };
    [place, HOMING.start(0), SLIP.start(1)].map(Event::from)
}

pub(crate) fn slip_turn() -> Event {
    Event::from(Ask::Turn { task: 1 })
}

// What an event has to do with, in the order in which the groups come.
#[derive(Clone, Copy, PartialEq, Eq, PartialOrd, Ord, Debug)]
pub(crate) enum Group {
    SettingUp,
    Lamp,
    Exhaust,
    Homing,
    Pulse,
    Slip,
    Ticks,
}

// The group of an event, where the turns of the pulse are put into a group of the caller's choice.
fn group_of(ask: Ask, pulse: Group) -> Group {
    match ask {
        Ask::Place { .. } | Ask::Start { .. } => Group::SettingUp,
        Ask::Feed { line: 8, .. } | Ask::Turn { task: 2 } => Group::Lamp,
        Ask::Feed { line: 6, .. } | Ask::Turn { task: 1 } | Ask::Abort { .. } => Group::Exhaust,
        Ask::Feed { .. } | Ask::Turn { task: 0 } => Group::Homing,
        Ask::Turn { task: 3 } => pulse,
        Ask::Turn { .. } | Ask::Kill { .. } => Group::Slip,
        Ask::Tick => Group::Ticks,
    }
}

// The positions group by group, and within a group as they were.
pub(crate) fn order(
    heap: Global,
    events: &[Event],
    pulse: Group,
) -> Result<Vec<usize>, AllocError> {
    let mut order: Vec<usize> = (0..events.len()).collect(heap)?;
    order.sort_by_key(|i| events.get(*i).map(|event| group_of(event.ask, pulse)))?;
    Ok(order)
}
