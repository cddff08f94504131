// 16-bit arithmetic: what an operation makes of two words, and how two words compare. A word is read as it stands, as a
// signed number, or as two bytes.
#![tactic(auto)]

ghost use Rattle.std.specs.Prelude.{◌≡◌};
ghost use Rattle.arith.specs.Words.{high, low, widened, joined};
ghost use Rattle.arith.specs.Operations.{computed};
ghost use Rattle.arith.specs.Relations.{holds};

mod divisions;
mod shifts;

// Words are taken apart by shifts and masks.
pub fn high_byte(word: u16) -> u8
    ensures { result ≡ high word }
{
    (word >> 8) as u8
}

pub fn low_byte(word: u16) -> u8
    ensures { result ≡ low word }
{
    (word & 0xff) as u8
}

// A byte as a word, by its sign.
pub fn widen(byte: u8) -> u16
    ensures { result ≡ widened byte }
{
    i16::from(byte.cast_signed()).cast_unsigned()
}

fn join(upper: u8, lower: u8) -> u16
    ensures { result ≡ joined upper lower }
{
    u16::from_be_bytes([upper, lower])
}

// What a command does with its two words. The source comes first, here and in every function below. The names of the four
// moves of a byte say first which byte of the source is taken, and then which byte of the destination it replaces.
#[derive(Clone, Copy, PartialEq, Eq, Debug)]
pub enum Operation {
    Move,
    ZeroExtend,
    SignExtend,
    LowToHigh,
    HighToLow,
    HighToHigh,
    LowToLow,
    And,
    Or,
    Xor,
    Complement,
    Negate,
    LogicalShift,
    ArithmeticShift,
    Rotate,
    Add,
    Subtract,
    Multiply,
    Divide,
    Quotient,
    Modulo,
    Remainder,
}

impl Operation {
    // What the operation makes of the two, or none where the source is out of range: a shift past 31 to either side, or a
    // divisor 0.
    pub fn apply(self, source: u16, destination: u16) -> Option<u16>
        ensures { result ≡ computed self source destination }
    {
        match self {
            Operation::Move => Some(source),
            Operation::ZeroExtend => Some(u16::from(low_byte(source))),
            Operation::SignExtend => Some(widen(low_byte(source))),
            Operation::LowToHigh => Some(join(low_byte(source), low_byte(destination))),
            Operation::HighToLow => Some(join(high_byte(destination), high_byte(source))),
            Operation::HighToHigh => Some(join(high_byte(source), low_byte(destination))),
            Operation::LowToLow => Some(join(high_byte(destination), low_byte(source))),
            Operation::And => Some(destination & source),
            Operation::Or => Some(destination | source),
            Operation::Xor => Some(destination ^ source),
            Operation::Complement => Some(!source),
            Operation::Negate => Some(source.wrapping_neg()),
            Operation::LogicalShift => shifts::logical(source, destination),
            Operation::ArithmeticShift => shifts::arithmetic(source, destination),
            Operation::Rotate => shifts::rotate(source, destination),
            Operation::Add => Some(destination.wrapping_add(source)),
            Operation::Subtract => Some(destination.wrapping_sub(source)),
            Operation::Multiply => Some(destination.wrapping_mul(source)),
            Operation::Divide => Some(divisions::down(source, destination)?.quotient),
            Operation::Quotient => Some(divisions::toward_zero(source, destination)?.quotient),
            Operation::Modulo => Some(divisions::down(source, destination)?.remainder),
            Operation::Remainder => Some(divisions::toward_zero(source, destination)?.remainder),
        }
    }
}

// How a source may stand to a destination: the first six compare words as they stand, the last four as signed numbers.
#[derive(Clone, Copy, PartialEq, Eq, Debug)]
pub enum Relation {
    Equal,
    NotEqual,
    Below,
    BelowOrEqual,
    Above,
    AboveOrEqual,
    Less,
    LessOrEqual,
    Greater,
    GreaterOrEqual,
}

impl Relation {
    // Whether the source stands in the relation to the destination.
    pub fn holds(self, source: u16, destination: u16) -> bool
        ensures { result ≡ holds self source destination }
    {
        let left = source.cast_signed();
        let right = destination.cast_signed();
        match self {
            Relation::Equal => source == destination,
            Relation::NotEqual => source != destination,
            Relation::Below => source < destination,
            Relation::BelowOrEqual => source <= destination,
            Relation::Above => source > destination,
            Relation::AboveOrEqual => source >= destination,
            Relation::Less => left < right,
            Relation::LessOrEqual => left <= right,
            Relation::Greater => left > right,
            Relation::GreaterOrEqual => left >= right,
        }
    }
}
