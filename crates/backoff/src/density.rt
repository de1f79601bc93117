//! What a pass knows of its caller: whether its calls follow one another closely.
ghost use Rattle.std.specs.Prelude.{◌≡◌, ◌<◌, ◌≤◌, ◌↔◌, IsTrue};
ghost use Rattle.backoff.specs.Density.{
  IsLookedAt,
  IsUnderWay,
  HasFailed,
  hash_of,
  known_of,
};

use tagged_index::Tagged;

/// How many calls with a failed compare-and-swap come to one look. A look costs two loads.
const CALLS_A_LOOK: u8 = 4;

/// A pass waits if its evidence is at least this. Each look that finds the word unchanged adds one.
pub const DENSE: u8 = 8;

/// The most evidence that a pass has. With this bound a pass soon notices that its caller does
/// other work.
pub const MOST_EVIDENCE: u8 = 24;

/// How much evidence a look takes away if it finds the word changed. An unchanged word adds less,
/// since the other threads may have been away too.
const CHANGE: u8 = 4;

/// How many values the evidence can have in a number.
const EVIDENCES: u32 = 32;

/// What each failure adds to a number, and what each unit of the hash adds.
const FAILURE: u32 = EVIDENCES;

const HASH: u32 = 256;

/// What the mark adds if a compare-and-swap of the call under way has failed.
const FAILED: u32 = 65_536;

/// What the mark adds if the hash is that of the watched word as the last call left it.
const LEFT: u32 = 131_072;

/// What a pass knows of its caller, as one number, so that it moves as one. The number holds the
/// evidence, then the failures, then the hash, and then the mark. The mark says that a call has
/// something to look at, or that a compare-and-swap has failed.
#[derive(Clone, Copy)]
pub struct Density {
    pub number: u32,
}

/// A `Density` taken apart.
#[derive(Clone, Copy)]
pub struct Known {
    /// How much speaks for calls that follow one another closely: 0 to `MOST_EVIDENCE`.
    pub evidence: u8,
    /// How many calls with a failed compare-and-swap have ended since the pass kept a hash: 0 to 3.
    pub failures: u8,
    pub sight: Sight,
}

/// What a pass keeps from one call to the next.
#[derive(Clone, Copy)]
pub enum Sight {
    Nothing,
    /// A compare-and-swap of the call that is under way has failed.
    Failed,
    /// A hash of the watched word as the last call left it.
    Left(u8),
}

// A hash of a tagged word. It differs after most changes.
#[inline]
fn hash_of(word: u64) -> u8
    ensures { result ≡ hash_of word }
{
    let word = Tagged::from_word(word);
    ((word.tag() ^ word.index() as u64) % 256) as u8
}

impl Known {
    /// A density taken apart.
    #[inline]
    pub fn of(density: Density) -> Known
        ensures { result ≡ known_of density }
    {
        let number = density.number;
        Known {
            evidence: (number % EVIDENCES) as u8,
            failures: (number / FAILURE % 8) as u8,
            sight: if number < FAILED {
                Sight::Nothing
            } else if number < LEFT {
                Sight::Failed
            } else {
                Sight::Left((number / HASH % 256) as u8)
            },
        }
    }

    /// The density that these make. Taken apart, it gives them again if they are in range.
    #[inline]
    pub fn together(self) -> Density
        ensures { self.evidence < 32 → self.failures < 8 → known_of result ≡ self }
    {
        let sight = match self.sight {
            Sight::Nothing => 0,
            Sight::Failed => FAILED,
            Sight::Left(hash) => LEFT + hash as u32 * HASH,
        };
        let evidence = self.evidence as u32 % EVIDENCES;
        let failures = self.failures as u32 % 8;
        Density {
            number: evidence + failures * FAILURE + sight,
        }
    }

    /// The knowledge after a look that found this word. An unchanged word adds one to the evidence,
    /// up to the most. A changed one takes away four, down to 0.
    #[inline]
    fn after_look(self, word: u64) -> Known
        ensures { IsLookedAt self word result }
    {
        let evidence = match self.sight {
            Sight::Left(hash) => {
                if hash != hash_of(word) {
                    self.evidence.saturating_sub(CHANGE)
                } else if self.evidence < MOST_EVIDENCE {
                    self.evidence + 1
                } else {
                    MOST_EVIDENCE
                }
            }
            _ => self.evidence,
        };
        Known {
            evidence,
            sight: Sight::Nothing,
            ..self
        }
    }

    /// The knowledge after a call with a failed compare-and-swap that left this word. Each fourth
    /// such call keeps a hash of it.
    #[inline]
    fn after_failure(self, word: u64) -> Known
        ensures { HasFailed self word result }
    {
        if self.failures < CALLS_A_LOOK - 1 {
            return Known {
                failures: self.failures + 1,
                sight: Sight::Nothing,
                ..self
            };
        }
        Known {
            failures: 0,
            sight: Sight::Left(hash_of(word)),
            ..self
        }
    }
}

impl Density {
    /// A new pass knows nothing.
    #[inline]
    pub fn new() -> Density
        ensures { result.number ≡ 0 }
    {
        Density { number: 0 }
    }

    /// Whether a call that begins has something to look at, or a compare-and-swap of the call under
    /// way has failed.
    #[inline(always)]
    pub fn is_marked(self) -> bool
        ensures { IsTrue result ↔ (65_536 ≤ self.number) }
    {
        self.number >= FAILED
    }

    /// The density after a look that found this word.
    #[inline]
    pub fn after_look(self, word: u64) -> Density
        ensures { IsLookedAt (known_of self) word (known_of result) }
    {
        Known::of(self).after_look(word).together()
    }

    /// The density after a call with a failed compare-and-swap that left this word.
    #[inline]
    pub fn after_failure(self, word: u64) -> Density
        ensures { HasFailed (known_of self) word (known_of result) }
    {
        Known::of(self).after_failure(word).together()
    }

    /// The density when a call is left under way after a failed compare-and-swap.
    #[inline]
    pub fn under_way(self) -> Density
        ensures { IsUnderWay (known_of self) (known_of result) }
    {
        let known = Known {
            sight: Sight::Failed,
            ..Known::of(self)
        };
        known.together()
    }
}
