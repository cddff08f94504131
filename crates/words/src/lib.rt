// Command words: what a head, the table of codes and a data word say.
#![tactic(auto)]

ghost use Rattle.std.specs.Prelude.{◌≡◌, ◌%◌};
ghost use Rattle.words.specs.Numbers.{reason_number};
ghost use Rattle.words.specs.Codes.{admits, at_fault, before_data, length_of, layout, decoded};
ghost use Rattle.words.specs.Words.{refusal_at, plain, head, control, source, base};

use arith::{high_byte, low_byte, widen};
use std::error::Error;
use std::fmt;

mod bounded;

pub use bounded::{Below, RegisterNumber, TaskNumber};

// Why a call is refused.
#[derive(Clone, Copy, PartialEq, Eq, Debug)]
pub enum Reason {
    RamLength = 1,
    NoSuchThing = 2,
    ShortTrail = 3,
    NotIdle = 4,
    PastRam = 5,
    UnknownCode = 6,
    WrongMode = 7,
    OperandPast = 8,
    ValueRange = 9,
    StackDepth = 10,
}

impl Reason {
    // The number that the rules give it. Each enum casts itself, since a cast takes no type parameter.
    pub fn number(self) -> u16
        ensures { result ≡ reason_number self }
    {
        self as u16
    }
}

impl fmt::Display for Reason {
    fn fmt<W: fmt::Write>(&self, f: &mut fmt::Formatter<W>) -> fmt::Result {
        f.write_str(match self {
            Reason::RamLength => "RAM has no allowed length",
            Reason::NoSuchThing => "no such task, line, address or cell",
            Reason::ShortTrail => "list too short for the trail",
            Reason::NotIdle => "the task is not idle",
            Reason::PastRam => "command word past RAM",
            Reason::UnknownCode => "unknown code",
            Reason::WrongMode => "mode not allowed, or a fixed bit wrong",
            Reason::OperandPast => "operand past RAM or past R7F",
            Reason::ValueRange => "value out of range",
            Reason::StackDepth => "stack empty or full",
        })
    }
}

// A refusal is one record, which every call hands up whole. By the rules of the machine a task, a place or an operand that
// is absent is 0, and the operand is 1 for a source and 2 for a destination.
#[derive(Clone, Copy, PartialEq, Eq, Debug)]
pub struct Refusal {
    pub reason: Reason,
    pub task: u8,
    pub place: u16,
    pub operand: u8,
}

impl fmt::Display for Refusal {
    fn fmt<W: fmt::Write>(&self, f: &mut fmt::Formatter<W>) -> fmt::Result {
        let Refusal {
            reason,
            task,
            place,
            operand,
        } = *self;
        let number = reason.number();
        write!(
            f,
            "refused by {number} ({reason}), task {task}, place {place:04X}, operand {operand}"
        )
    }
}

impl Error for Refusal {}

// A refusal that names no task, place or operand.
impl From<Reason> for Refusal {
    ghost from_gives = { λ reason refusal. refusal ≡ plain reason };

    fn from(reason: Reason) -> Refusal {
        Refusal {
            reason,
            task: 0,
            place: 0,
            operand: 0,
        }
    }
}

// Where a command stands: its task, and the address of its head.
#[derive(Clone, Copy, PartialEq, Eq, Debug)]
pub struct Site {
    pub task: u8,
    pub place: u16,
}

impl Site {
    pub fn refusal(self, reason: Reason, operand: u8) -> Refusal
        ensures { result ≡ refusal_at self reason operand }
    {
        Refusal {
            reason,
            task: self.task,
            place: self.place,
            operand,
        }
    }
}

// The lowest four bits, by a mask, as all words are taken apart.
fn low_digit(word: u16) -> u8
    ensures { result ≡ word % 16 }
{
    (word & 15) as u8
}

// The first word of a command.
#[derive(Clone, Copy, PartialEq, Eq, Debug)]
pub struct Head {
    pub code: u8,
    pub source: u8,
    pub destination: u8,
}

impl From<u16> for Head {
    ghost from_gives = { λ word h. h ≡ head word };

    fn from(word: u16) -> Head {
        Head {
            code: high_byte(word),
            source: low_digit(word >> 4),
            destination: low_digit(word),
        }
    }
}

// The word after the head of a command of two pairs: its high byte is fixed, and its modes are those of the second pair. It
// is no Head: a type of two modes in both would only put one name more before each mode.
#[derive(Clone, Copy, PartialEq, Eq, Debug)]
pub struct Control {
    pub fixed: u8,
    pub source: u8,
    pub destination: u8,
}

impl From<u16> for Control {
    ghost from_gives = { λ word c. c ≡ control word };

    fn from(word: u16) -> Control {
        let Head {
            code,
            source,
            destination,
        } = Head::from(word);
        Control {
            fixed: code,
            source,
            destination,
        }
    }
}

// What a command does with an operand, which decides the modes that it may have. A field that is not used has a rule too: it
// must be 0, and no operand is charged with it. So this is a role, and not the lack of one.
#[derive(Clone, Copy, PartialEq, Eq, Debug)]
pub enum Role {
    Unused,
    Offset,
    ReadBase,
    WrittenBase,
}

impl Role {
    // A mode is the number in its four bits, and not a case of an enum: most numbers are a mode for some command only.
    pub fn admits(self, mode: u8) -> bool
        ensures { result ≡ admits self mode }
    {
        match self {
            Role::Unused => mode == 0,
            Role::Offset => matches!(mode, 0 | 3 | 0xC | 0xD),
            Role::ReadBase => matches!(mode, 0xC | 0xD | 0xE),
            Role::WrittenBase => matches!(mode, 0xD | 0xE),
        }
    }

    // The operand that a wrong mode is charged to. By the rules of the machine it is 0, none, where the field is not used.
    pub fn at_fault(self, operand: u8) -> u8
        ensures { result ≡ at_fault self operand }
    {
        match self {
            Role::Unused => 0,
            _ => operand,
        }
    }
}

#[derive(Clone, Copy, PartialEq, Eq, Debug)]
pub struct Pair {
    pub source: Role,
    pub destination: Role,
}

const UNUSED: Pair = Pair {
    source: Role::Unused,
    destination: Role::Unused,
};

// How the words of a command are laid out: whether a jump address follows the head, and the pairs of operands after it.
#[derive(Clone, Copy, PartialEq, Eq, Debug)]
pub struct Layout {
    pub jump: bool,
    pub first: Option<Pair>,
    pub second: Option<Pair>,
}

impl Layout {
    // How many words stand before the data of the pair: the head, and the jump address if there is one.
    pub fn before_data(self) -> u16
        ensures { result ≡ before_data self }
    {
        1 + u16::from(self.jump)
    }

    pub fn length(self) -> u16
        ensures { result ≡ length_of self }
    {
        self.before_data() + u16::from(self.first.is_some())
    }
}

// The layout of a command without operands, and of unknown codes.
const BARE: Layout = Layout {
    jump: false,
    first: None,
    second: None,
};

const JUMP: Layout = Layout { jump: true, ..BARE };

// One bit, on a base that is only read or on one that is written.
const READ_BIT: Option<Pair> = Some(Pair {
    source: Role::Offset,
    destination: Role::ReadBase,
});

const WRITTEN_BIT: Option<Pair> = Some(Pair {
    source: Role::Offset,
    destination: Role::WrittenBase,
});

const BIT_READ: Layout = Layout {
    first: READ_BIT,
    ..BARE
};

const BIT_WRITE: Layout = Layout {
    first: WRITTEN_BIT,
    ..BARE
};

const BIT_JUMP: Layout = Layout {
    first: READ_BIT,
    ..JUMP
};

// The layout by code, for the codes from 10 to 17 and from 50 to 57: constant tables, so that one index chooses it.
const BIT_ROWS: [Layout; 8] = [
    BIT_JUMP, BIT_JUMP, BIT_WRITE, BIT_WRITE, BIT_WRITE, BIT_READ, BIT_READ, BARE,
];

const JUMP_ROWS: [Layout; 8] = [JUMP, BARE, BARE, BARE, BARE, BARE, BARE, BARE];

// Each turn asks for it twice, and a copy of a layout costs more than finding it.
#[inline]
pub fn layout_of(code: u8) -> Layout
    ensures { result ≡ layout code }
{
    match code {
        0x10..=0x17 => BIT_ROWS[usize::from(code - 0x10)],
        0x50..=0x57 => JUMP_ROWS[usize::from(code - 0x50)],
        _ => BARE,
    }
}

// The commands that are built, by what they do.
#[derive(Clone, Copy, PartialEq, Eq, Debug)]
pub enum Command {
    // TBR0, TBR1: jump if the bit is `value`.
    BranchOn { value: bool },
    // SBIT, CBIT.
    Write { value: bool },
    // IBIT.
    Invert,
    // THT0, THT1: stay while the bit is `value`.
    HaltWhile { value: bool },
    // BRA.
    Branch,
    // JSKI.
    EndTask,
}

// Chooses the command, or says what is wrong with its head: one match over code ranges, guarded by what the modes say, so
// that code and modes are decided in one place.
pub fn decode(head: Head, site: Site) -> Result<Command, Refusal>
    ensures { result ≡ decoded head site }
{
    let pair = layout_of(head.code).first.unwrap_or(UNUSED);
    let source = pair.source.admits(head.source);
    let destination = pair.destination.admits(head.destination);
    match head.code {
        0x10..=0x11 if source && destination => Ok(Command::BranchOn {
            value: head.code == 0x11,
        }),
        0x12..=0x13 if source && destination => Ok(Command::Write {
            value: head.code == 0x12,
        }),
        0x14 if source && destination => Ok(Command::Invert),
        0x15..=0x16 if source && destination => Ok(Command::HaltWhile {
            value: head.code == 0x16,
        }),
        0x50 if source && destination => Ok(Command::Branch),
        0x55 if source && destination => Ok(Command::EndTask),
        0x10..=0x16 | 0x50 | 0x55 if source => {
            Err(site.refusal(Reason::WrongMode, pair.destination.at_fault(2)))
        }
        0x10..=0x16 | 0x50 | 0x55 => Err(site.refusal(Reason::WrongMode, pair.source.at_fault(1))),
        _ => Err(site.refusal(Reason::UnknownCode, 0)),
    }
}

// A source as the words of a command give it.
#[derive(Clone, Copy, PartialEq, Eq, Debug)]
pub enum Operand {
    Immediate(u16),
    Register(RegisterNumber),
}

// The source of a pair whose destination has no word or byte of its own.
pub fn source_operand(mode: u8, word: u16, site: Site, operand: u8) -> Result<Operand, Refusal>
    ensures { result ≡ source mode word site operand }
{
    let high = high_byte(word);
    let low = low_byte(word);
    let found = match mode {
        0 => Some(Operand::Immediate(word)),
        3 if high == 0 => RegisterNumber::new(u16::from(low)).map(Operand::Register),
        0xC if low == 0 => Some(Operand::Immediate(widen(high))),
        0xD if low == 0 => RegisterNumber::new(u16::from(high)).map(Operand::Register),
        _ => None,
    };
    found.ok_or(site.refusal(Reason::WrongMode, operand))
}

// Which kind of lines the number of a bit counts, before the number is known.
#[derive(Clone, Copy, PartialEq, Eq, Debug)]
pub enum Base {
    Inputs,
    Outputs,
    Flags,
}

// The base that a mode stands for, if it stands for one.
pub fn base_operand(mode: u8) -> Option<Base>
    ensures { result ≡ base mode }
{
    match mode {
        0xC => Some(Base::Inputs),
        0xD => Some(Base::Outputs),
        0xE => Some(Base::Flags),
        _ => None,
    }
}
