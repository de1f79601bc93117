//! What the words ask for.

/// The container.
#[derive(Debug, Clone, Copy)]
pub enum Kind {
    Stack,
    Queue,
    Ring,
}

impl Kind {
    // `None` if no container is called so.
    fn of(name: &str) -> Option<Kind> {
        match name {
            "stack" => Some(Kind::Stack),
            "queue" => Some(Kind::Queue),
            "ring" => Some(Kind::Ring),
            _ => None,
        }
    }
}

/// The call that is made again and again.
#[derive(Debug, Clone, Copy)]
pub enum Call {
    /// A put and a take, in turn.
    Pair,
    /// A put into a full container.
    RefusedPut,
    /// A take from an empty container.
    RefusedTake,
    /// A look at a full container.
    Look,
}

impl Call {
    // `None` if no call is called so.
    fn of(name: &str) -> Option<Call> {
        match name {
            "pair" => Some(Call::Pair),
            "refused-put" => Some(Call::RefusedPut),
            "refused-take" => Some(Call::RefusedTake),
            "look" => Some(Call::Look),
            _ => None,
        }
    }
}

/// What is to be counted.
#[derive(Clone, Copy)]
pub struct Asked {
    pub kind: Kind,
    pub capacity: u32,
    pub call: Call,
    pub times: u32,
}

impl Asked {
    /// What these words ask for, the first of which is the program's name; `None` if they are others
    /// than the program's head says, or in another order.
    pub fn of(words: &[&str]) -> Option<Asked> {
        let [
            _,
            "--kind",
            kind,
            "--capacity",
            capacity,
            "--call",
            call,
            "--items",
            times,
        ] = words
        else {
            return None;
        };
        Some(Asked {
            kind: Kind::of(kind)?,
            capacity: capacity.parse::<u32>().ok()?,
            call: Call::of(call)?,
            times: times.parse::<u32>().ok()?,
        })
    }
}
