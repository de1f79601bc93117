//! The frames of a stream.
ghost use Rattle.std.specs.Prelude.{◌≡◌};
ghost use Rattle.example_rule.specs.Frames.{frame_of, sum_of};

/// The check sum's factor: 2 to the power 64 divided by the golden ratio, rounded to an odd number.
pub const FACTOR: u64 = 0x9E37_79B9_7F4A_7C15;

/// The bits that the check sum turns at its end.
pub const MASK: u64 = 0x5555_5555_5555_5555;

/// A number and its check sum.
#[derive(Clone, Copy, Debug, Drop)]
pub struct Frame {
    pub number: u64,
    pub sum: u64,
}

/// The check sum of a number: the low 64 bits of its product with `FACTOR`, with the bits of `MASK`
/// turned.
pub fn check_sum(number: u64) -> u64
    ensures { result ≡ sum_of number }
{
    number.wrapping_mul(FACTOR) ^ MASK
}

impl Frame {
    /// The frame of a number, with the right sum.
    pub fn of(number: u64) -> Frame
        ensures { result ≡ frame_of number }
    {
        let sum = check_sum(number);
        Frame { number, sum }
    }
}
