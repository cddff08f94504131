// Shifts of the destination by the source.
ghost use Rattle.std.specs.Prelude.{◌≡◌};
ghost use Rattle.arith.specs.Shifts.{shift_of, right_by_sign, shifted, logical_shift, arithmetic_shift, rotation, IsShifted};
ghost use Rattle.arith.specs.Laws.{Logical, Arithmetic, Rotation};

// Where to, and by how many bits.
#[derive(Clone, Copy, PartialEq, Eq, Debug)]
pub enum Shift {
    Left(u32),
    Right(u32),
}

impl Shift {
    // The shift that a source asks for, read as a signed number: to the right where it is negative. An Option and not
    // TryFrom: there is nothing to add about a distance past 31.
    pub fn new(source: u16) -> Option<Shift>
        ensures { result ≡ shift_of source }
    {
        let by = source.cast_signed();
        let distance = u32::from(by.unsigned_abs());
        if distance > 31 {
            None
        } else if by < 0 {
            Some(Shift::Right(distance))
        } else {
            Some(Shift::Left(distance))
        }
    }
}

// By 15 and more, every bit is the sign.
fn shift_right_by_sign(word: u16, by: u32) -> u16
    ensures { result ≡ right_by_sign by word }
{
    (word.cast_signed() >> by.min(15)).cast_unsigned()
}

// The destination, as `left` or `right` moves it by the distance that the source asks for.
fn shifted_by<L: FnOnce(u16, u32) -> u16, R: FnOnce(u16, u32) -> u16>(
    source: u16,
    destination: u16,
    left: L,
    right: R,
) -> Option<u16>
    requires left { L.IsAlwaysCallable left }
    requires right { R.IsAlwaysCallable right }
    ensures { IsShifted (L.post left) (R.post right) source destination result }
{
    match Shift::new(source)? {
        Shift::Left(by) => Some(left(destination, by)),
        Shift::Right(by) => Some(right(destination, by)),
    }
}

// Zeros come in on either side. By 16 and more, every bit is shifted out.
pub fn logical(source: u16, destination: u16) -> Option<u16>
    ensures value { result ≡ shifted logical_shift source destination }
    ensures powers { Logical source destination result }
{
    shifted_by(source, destination, u16::unbounded_shl, u16::unbounded_shr)
}

// Zeros come in on the right, and the sign on the left.
pub fn arithmetic(source: u16, destination: u16) -> Option<u16>
    ensures value { result ≡ shifted arithmetic_shift source destination }
    ensures powers { Arithmetic source destination result }
{
    shifted_by(source, destination, u16::unbounded_shl, shift_right_by_sign)
}

// What leaves on one side comes in on the other.
pub fn rotate(source: u16, destination: u16) -> Option<u16>
    ensures value { result ≡ shifted rotation source destination }
    ensures places { Rotation source destination result }
{
    shifted_by(source, destination, u16::rotate_left, u16::rotate_right)
}
