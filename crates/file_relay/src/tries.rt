//! How often the workers of a relay tried, counted at its gate.

use relay::Gate;
use std::alloc::{AllocError, Global};
use std::sync::atomic::{AtomicU64, Ordering};

/// How many puts each producer tried, and how many takes each consumer tried. No contract says what
/// a word holds that threads share. Tests show that these words hold these counts.
#[derive(Drop)]
pub struct Tries {
    puts: Vec<AtomicU64>,
    takes: Vec<AtomicU64>,
}

impl Tries {
    /// A count of 0 for each of these producers and consumers.
    pub fn new(alloc: Global, producers: usize, consumers: usize) -> Result<Tries, AllocError> {
        Ok(Tries {
            puts: zeros(alloc, producers)?,
            takes: zeros(alloc, consumers)?,
        })
    }

    /// How many puts were tried. The count stays at `u64::MAX`.
    pub fn puts(&self) -> u64 {
        sum(&self.puts)
    }

    /// How many takes were tried. The count stays at `u64::MAX`.
    pub fn takes(&self) -> u64 {
        sum(&self.takes)
    }
}

impl Gate for Tries {
    fn pass(&self, who: u64, call: u64) {
        let who = who as usize;
        let tries = match self.puts.get(who) {
            Some(tries) => Some(tries),
            None => self.takes.get(who.saturating_sub(self.puts.len())),
        };
        if let Some(tries) = tries {
            tries.store(call.saturating_add(1), Ordering::SeqCst);
        }
    }
}

fn zeros(alloc: Global, count: usize) -> Result<Vec<AtomicU64>, AllocError> {
    let mut words = Vec::new(alloc);
    for _ in 0..count {
        words.push(AtomicU64::new(0))?;
    }
    Ok(words)
}

fn sum(words: &[AtomicU64]) -> u64 {
    let mut sum: u64 = 0;
    for word in words {
        sum = sum.saturating_add(word.load(Ordering::SeqCst));
    }
    sum
}
