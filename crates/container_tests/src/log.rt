//! What threads put and took, under the numbers that their calls answered.

use std::alloc::{AllocError, AllocFailed, Global};
use std::sync::atomic::{AtomicU64, Ordering};

/// Which value a put or a take had under each number of a run.
#[derive(Drop)]
pub(crate) struct Log {
    /// One more than the value that was put under this number; 0 if none was.
    puts: Vec<AtomicU64>,
    /// One more than the value that was taken under this number; 0 if none was.
    takes: Vec<AtomicU64>,
    /// How many answers had a number that the run can't have, or that another answer had.
    strange: AtomicU64,
    /// How many answers contradict an earlier one of the same pass.
    faults: AtomicU64,
}

// `count` words, each 0.
fn zeros(alloc: Global, count: u64) -> Result<Vec<AtomicU64>, AllocFailed<AtomicU64>> {
    let mut words = Vec::new(alloc);
    for _ in 0..count {
        words.push(AtomicU64::new(0))?;
    }
    Ok(words)
}

impl Log {
    /// The log of a run whose calls have numbers below this.
    pub(crate) fn of(alloc: Global, numbers: u64) -> Result<Log, AllocFailed<AtomicU64>> {
        Ok(Log {
            puts: zeros(alloc, numbers)?,
            takes: zeros(alloc, numbers)?,
            strange: AtomicU64::new(0),
            faults: AtomicU64::new(0),
        })
    }

    // Notes that a call of this number had this value.
    fn note(&self, calls: &[AtomicU64], value: u64, number: u64) {
        let place = usize::try_from(number).ok();
        let earlier = match place.and_then(|at| calls.get(at)) {
            Some(word) => word.swap(value.saturating_add(1), Ordering::SeqCst),
            None => 1,
        };
        if earlier != 0 {
            self.strange.fetch_add(1, Ordering::SeqCst);
        }
    }

    /// Notes a put.
    pub(crate) fn note_put(&self, value: u64, number: u64) {
        self.note(&self.puts, value, number);
    }

    /// Notes a take.
    pub(crate) fn note_take(&self, value: u64, number: u64) {
        self.note(&self.takes, value, number);
    }

    /// Notes an answer that contradicts what its pass knows.
    pub(crate) fn note_fault(&self) {
        self.faults.fetch_add(1, Ordering::SeqCst);
    }

    /// Whether each call had a number of its own, and none contradicts what its pass knows.
    pub(crate) fn is_sound(&self) -> bool {
        self.strange.load(Ordering::SeqCst) == 0 && self.faults.load(Ordering::SeqCst) == 0
    }

    /// Whether puts and takes are numbered 0, 1, 2, .. without a gap, and the take of each number
    /// gave the value of the put of that number.
    pub(crate) fn is_of_a_queue(&self) -> bool {
        self.puts.iter().zip(self.takes.iter()).all(|(put, take)| {
            let value = put.load(Ordering::SeqCst);
            value != 0 && take.load(Ordering::SeqCst) == value
        })
    }

    /// Whether the calls are numbered 0, 1, 2, .. without a gap, and a stack of one thread that
    /// makes them in this order gives the same values and is empty at the end.
    pub(crate) fn is_of_a_stack(&self, alloc: Global) -> Result<bool, AllocFailed<u64>> {
        let mut stack = Vec::new(alloc);
        for (put, take) in self.puts.iter().zip(self.takes.iter()) {
            let (put, take) = (put.load(Ordering::SeqCst), take.load(Ordering::SeqCst));
            if (put == 0) == (take == 0) {
                return Ok(false);
            }
            if put != 0 {
                stack.push(put)?;
            } else if stack.pop() != Some(take) {
                return Ok(false);
            }
        }
        Ok(stack.is_empty())
    }

    /// Whether each of `producers` producers put `each` values in rising order: the first 0, 1, 2,
    /// .., the next from `each` on.
    pub(crate) fn has_puts_of(
        &self,
        alloc: Global,
        producers: u32,
        each: u64,
    ) -> Result<bool, AllocError> {
        let mut counts = vec![in alloc; 0u64; producers as usize]?;
        for put in &self.puts {
            let Some(value) = put.load(Ordering::SeqCst).checked_sub(1) else {
                continue;
            };
            let producer = usize::try_from(value.checked_div(each).unwrap_or(0));
            let Some(count) = producer.ok().and_then(|at| counts.get_mut(at)) else {
                return Ok(false);
            };
            if value % each.max(1) != *count {
                return Ok(false);
            }
            *count = count.saturating_add(1);
        }
        Ok(counts.iter().all(|count| *count == each))
    }
}
