//! What the letters of a script name.

ghost use Rattle.std.specs.Prelude.{◌≡◌, vec_len};

use script::PassName;
use std::alloc::{AllocError, Global};
use std::mem;

/// How many letters name a pass.
pub const PASS_NAMES: usize = 26;

/// A call that a pass has begun, and how many steps it has made since.
#[derive(Drop)]
pub struct Begun<O> {
    pub operation: O,
    pub steps: u64,
}

/// What a letter names.
#[derive(Drop)]
pub enum Place<P, O> {
    /// No pass was split for it, or the pass was dropped.
    Nobody,
    /// A pass between its calls.
    Resting(P),
    /// A pass in the middle of a call.
    Acting(Begun<O>),
}

/// What each letter names.
#[derive(Drop)]
pub struct Places<P, O> {
    pub of: Vec<Place<P, O>>,
    pub ghost each: { vec_len of ≡ 26 },
}

impl<P: Drop, O: Drop> Places<P, O> {
    ghost use Rattle.std.specs.Prelude.{◌≡◌, ◌-◌, ◌<◌, IsTrue, IfOk, length, replicate, slice_set, slice_index_or};
    ghost use Rattle.std.specs.Char.{is_ascii_lowercase};
    ghost use Rattle.player.specs.declared.place.Place.TheVariants.{Nobody};

    /// No letter names a pass.
    pub fn new(alloc: Global) -> Result<Places<P, O>, AllocError>
        ensures { IfOk result (λ places. places.of.items ≡ replicate 26 Nobody) }
    {
        let mut of = Vec::new(alloc);
        while of.len() < PASS_NAMES {
            of.push(Place::Nobody)?;
        }
        Ok(Places { of })
    }

    /// Puts this in the letter's place, and returns what was there.
    pub fn exchange(&mut self, name: PassName, place: Place<P, O>) -> Place<P, O>
        requires { IsTrue (is_ascii_lowercase name.0) }
        ensures places { self.new.of.items ≡ slice_set self.old.of.items (name.0 - 97) place }
        ensures within { name.0 - 97 < length self.old.of.items }
        ensures was { slice_index_or self.old.of.items (name.0 - 97) result ≡ result }
    {
        let index = usize::from(name.0 - b'a');
        mem::replace(&mut self.of[index], place)
    }
}
