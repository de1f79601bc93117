//! The decimal digits of a number, on the stack.

ghost use Rattle.std.specs.Prelude.{◌≡◌, decimal};

use std::marker::Model;

// The most digits of a `u128`.
const MAX_DIGITS: usize = 39;

/// The decimal digits of a number, without leading zeros.
#[derive(Drop)]
pub(crate) struct Digits {
    // the digits stand at the end
    bytes: [u8; MAX_DIGITS],
    start: usize,
}

impl Model for Digits {
    ghost use Rattle.std.specs.Prelude.{ℕ, List, drop, ◌≤◌};
    ghost use Rattle.audit.specs.declared.digits.TheConstants.{MAX_DIGITS};

    ghost Value = { List ℕ };

    ghost view = { λ d. drop d.start d.bytes };

    ghost invariant = { λ d. d.start ≤ MAX_DIGITS };
}

impl Digits {
    pub(crate) fn of(number: u128) -> Digits
        ensures { result ≡ decimal number }
    {
        let mut bytes = [0; MAX_DIGITS];
        let mut start = MAX_DIGITS - 1;
        let mut rest = number;
        while rest > 9 {
            bytes[start] = b'0' + (rest % 10) as u8;
            rest /= 10;
            start -= 1;
        }
        bytes[start] = b'0' + rest as u8;
        Digits { bytes, start }
    }

    pub(crate) fn as_slice(&self) -> &[u8]
        ensures { result.now ≡ self.now }
    {
        &self.bytes[self.start..]
    }
}
