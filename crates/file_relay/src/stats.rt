//! What the program writes about a relay beside its outcome.

ghost use Rattle.std.specs.Prelude.{◌≡◌, ◌==◌, ◌++◌, IfOk, OnOk, count_by, string_bytes};
ghost use Rattle.file_relay.specs.Stats.{IsStatsOf, consumer_lines, ended_puts, ended_takes, is_met, stats_text, time_line, took_each};

use relay::{Message, Relayed, Taken};
use relay_args::RelayArgs;
use std::alloc::{AllocError, Global};
use std::fmt::Write;

/// What the program writes about a relay beside its outcome.
#[derive(Debug, Drop, PartialEq, Eq)]
pub struct Stats {
    /// How long it took in nanoseconds, threads and all; `None` if no clock could be read.
    pub nanoseconds: Option<u128>,
    /// How many messages were delivered.
    pub delivered: u64,
    /// How many messages each consumer took.
    pub took: Vec<u64>,
    /// How many puts were refused because the container was full.
    pub full: u64,
    /// How many takes were refused because it was empty.
    pub empty: u64,
}

impl Stats {
    /// The stats of a relay that took `nanoseconds` and in which `puts` puts and `takes` takes were
    /// tried.
    pub fn of(
        alloc: Global,
        args: &RelayArgs,
        relayed: &Relayed,
        puts: u64,
        takes: u64,
        nanoseconds: Option<u128>,
    ) -> Result<Stats, AllocError>
        ensures of { IfOk result (IsStatsOf args.now relayed.now puts takes) }
        ensures time { IfOk result (λ stats. stats.nanoseconds ≡ nanoseconds) }
    {
        let took = took_by_each(alloc, args.consumers, &relayed.delivered)?;
        let delivered = relayed.delivered.len() as u64;
        let left = relayed.left.len() as u64;
        let full = puts
            .saturating_sub(delivered)
            .saturating_sub(left)
            .saturating_sub(ended_producers(args, &relayed.unsent));
        let empty = takes
            .saturating_sub(delivered)
            .saturating_sub(ended_consumers(args, &took));
        Ok(Stats {
            nanoseconds,
            delivered,
            took,
            full,
            empty,
        })
    }

    /// A line for the time and the messages a second, a line for each consumer, and a line for the
    /// refusals.
    pub fn text(&self, alloc: Global) -> Result<String, AllocError>
        ensures { IfOk result (λ text. string_bytes text ≡ stats_text self.now) }
    {
        let mut text = String::new(alloc);
        push_time(&mut text, self.delivered, self.nanoseconds)?;
        push_consumers(&mut text, &self.took)?;
        writeln!(text, "refused full {} empty {}", self.full, self.empty)?;
        Ok(text)
    }
}

// How many messages each of the `consumers` consumers took.
fn took_by_each(alloc: Global, consumers: u32, delivered: &[Taken]) -> Result<Vec<u64>, AllocError>
    ensures { IfOk result (λ took. took.items ≡ took_each consumers delivered.now) }
{
    (0..consumers)
        .map(|consumer| took_by(delivered, consumer))
        .collect(alloc)
}

// How many messages this consumer took.
fn took_by(delivered: &[Taken], consumer: u32) -> u64
    ensures { result ≡ count_by (λ t. t.consumer == consumer) delivered.now }
{
    delivered
        .iter()
        .filter(|taken| taken.consumer == consumer)
        .count() as u64
}

// Whether a count has reached a limit that is set.
fn is_reached(limit: Option<u32>, count: u64) -> bool
    ensures { result ≡ is_met limit count }
{
    match limit {
        Some(most) => u64::from(most) == count,
        None => false,
    }
}

// How many producers ended at a refused put.
fn ended_producers(args: &RelayArgs, unsent: &[Vec<Message>]) -> u64
    ensures { result ≡ ended_puts args.now unsent.now }
{
    let stopped = unsent.iter().filter(|messages| messages.len() != 0).count() as u64;
    let has_closed = match unsent {
        [first, ..] => args.close_after.is_some() && first.len() != 0,
        [] => false,
    };
    stopped.saturating_sub(u64::from(has_closed))
}

// How many consumers ended at a refused take.
fn ended_consumers(args: &RelayArgs, took: &[u64]) -> u64
    ensures { result ≡ ended_takes args.now took.now }
{
    let stopped = took
        .iter()
        .filter(|count| !is_reached(args.take, **count))
        .count() as u64;
    let has_shut = match took {
        [first, ..] => is_reached(args.shut_after, *first) && !is_reached(args.take, *first),
        [] => false,
    };
    stopped.saturating_sub(u64::from(has_shut))
}

// The line of the time.
fn push_time(text: &mut String, delivered: u64, nanoseconds: Option<u128>) -> Result<(), AllocError>
    ensures { OnOk result (string_bytes text.new
        ≡ string_bytes text.old ++ time_line delivered nanoseconds) }
{
    match nanoseconds {
        Some(time) => {
            let rate = u128::from(delivered) * 1_000_000_000 / time.max(1);
            writeln!(
                text,
                "messages {delivered} nanoseconds {time} per second {rate}"
            )?;
        }
        None => writeln!(
            text,
            "messages {delivered} nanoseconds unknown per second unknown"
        )?,
    }
    Ok(())
}

// A line for each consumer.
fn push_consumers(text: &mut String, took: &[u64]) -> Result<(), AllocError>
    ensures { OnOk result (string_bytes text.new
        ≡ string_bytes text.old ++ consumer_lines 0 took.now) }
{
    for (consumer, count) in took.iter().enumerate() {
        writeln!(text, "consumer {consumer} took {count}")?;
    }
    Ok(())
}
