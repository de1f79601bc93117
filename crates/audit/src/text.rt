//! A short text on the stack.

ghost use Rattle.std.specs.Prelude.{◌≡◌, ◌<◌, [], ◌∷◌, ◌++◌, length};

use std::marker::Model;

/// At most `N` bytes, in place.
#[derive(Drop)]
pub(crate) struct Text<const N: usize> {
    bytes: [u8; N],
    len: usize,
}

impl<const N: usize> Model for Text<N> {
    ghost use Rattle.std.specs.Prelude.{ℕ, List, take, ◌≤◌};

    ghost Value = { List ℕ };

    ghost view = { λ t. take t.len t.bytes };

    ghost invariant = { λ t. t.len ≤ N };
}

impl<const N: usize> Text<N> {
    pub(crate) fn new() -> Text<N>
        ensures { result ≡ [] }
    {
        Text {
            bytes: [0; N],
            len: 0,
        }
    }

    pub(crate) fn len(&self) -> usize
        ensures { result ≡ length self.now }
    {
        self.len
    }

    pub(crate) fn as_slice(&self) -> &[u8]
        ensures { result.now ≡ self.now }
    {
        &self.bytes[..self.len]
    }

    pub(crate) fn clear(&mut self)
        ensures { self.new ≡ [] }
    {
        self.len = 0;
    }

    pub(crate) fn push(&mut self, byte: u8)
        requires { length self.old < N }
        ensures { self.new ≡ self.old ++ byte ∷ [] }
    {
        self.bytes[self.len] = byte;
        self.len += 1;
    }
}
