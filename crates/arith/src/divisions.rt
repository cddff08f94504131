// Signed division of the destination by the source, by the two ways to round.
ghost use Rattle.std.specs.Prelude.{◌≡◌};
ghost use Rattle.arith.specs.Divisions.{opposed, divided_toward_zero, divided_down};
ghost use Rattle.arith.specs.Laws.{Truncated, Floored};

// The quotient and the remainder as words. Of 8000 by FFFF the quotient is 32,768, which is the word 8000 again.
#[derive(Clone, Copy, PartialEq, Eq, Debug)]
pub struct Division {
    pub quotient: u16,
    pub remainder: u16,
}

// The remainder has the sign of the destination. None where the divisor is 0.
pub fn toward_zero(source: u16, destination: u16) -> Option<Division>
    ensures value { result ≡ divided_toward_zero source destination }
    ensures rounded { Truncated source destination result }
{
    if source == 0 {
        return None;
    }
    let divisor = source.cast_signed();
    let dividend = destination.cast_signed();
    Some(Division {
        quotient: dividend.wrapping_div(divisor).cast_unsigned(),
        remainder: dividend.wrapping_rem(divisor).cast_unsigned(),
    })
}

// Whether the remainder is on the other side of 0 than the divisor.
fn opposed(remainder: i16, divisor: i16) -> bool
    ensures { result ≡ opposed remainder divisor }
{
    if divisor < 0 {
        remainder > 0
    } else {
        remainder < 0
    }
}

// The remainder has the sign of the source. Where rounding toward zero left one of the other sign, it rounded up, and
// the quotient is one less.
pub fn down(source: u16, destination: u16) -> Option<Division>
    ensures value { result ≡ divided_down source destination }
    ensures rounded { Floored source destination result }
{
    let division = toward_zero(source, destination)?;
    if opposed(division.remainder.cast_signed(), source.cast_signed()) {
        Some(Division {
            quotient: division.quotient.wrapping_sub(1),
            remainder: division.remainder.wrapping_add(source),
        })
    } else {
        Some(division)
    }
}
