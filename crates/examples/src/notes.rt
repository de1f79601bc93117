//! A note that goes along with a message: one thread puts a job into a queue and tells of it, and
//! whoever is told hears no answer that was right only before the job was put.

ghost use Rattle.std.specs.Prelude.{◌≡◌, IfErr, IfOk, IfSome};
ghost use Rattle.bounded_model.specs.Justified.{take_answer};
ghost use Rattle.ms_queue.specs.Calls.{IsPassOf, IsNoteOf};
ghost use Rattle.examples.specs.Told.{TellsOfPut, RightSince};

use crate::fault::Fault;
use bounded_model::{Container, TakeRefused};
use ms_queue::{Note, Pass, Queue};
use std::alloc::Global;
use std::snapshot::Snapshot;
use std::sync::Wait;
use std::thread;
use std::thread::{Promise, Threads};
use tagged_index::{Limits, MAX_TAG};

/// The message to the other end: there is this job, and the note goes along.
#[derive(Drop)]
struct Message<N> {
    job: u64,
    note: N,
}

// Puts a job, and makes the message that tells of it; `None` if no job was put, or no note could be
// had.
fn put_and_tell<C: Container<u64>, R: Wait>(
    rt: &R,
    container: &C,
    by: C::Pass,
    job: u64,
) -> Option<Message<C::Note>>
    requires { C.is_pass container.now by }
    ensures of { IfSome result (λ m. C.is_note container.now m.note) }
    ensures job { IfSome result (λ m. m.job ≡ job) }
    ensures tells { IfSome result (λ m. TellsOfPut (C.shape container.now) (C.pass by) job (C.told m.note)) }
{
    let (mut pass, answer) = container.put(rt, by, job);
    match answer {
        Ok(_) => {
            let note = container.note(&mut pass)?;
            Some(Message { job, note })
        }
        Err(_) => None,
    }
}

// Takes a job after the note was heard. A refusal was right at a time at which everything that the
// note tells had happened.
fn take_as_told<C: Container<u64>, R: Wait>(
    rt: &R,
    container: &C,
    by: C::Pass,
    note: C::Note,
) -> (C::Pass, Result<(u64, u64), TakeRefused>)
    requires pass { C.is_pass container.now by }
    requires note { C.is_note container.now note }
    ensures of { C.is_pass container.now result.0 }
    ensures since { IfErr result.1 (λ why. RightSince (C.shape container.now) (C.told note) (C.pass result.0) (take_answer why)) }
{
    let mut pass = by;
    container.heed(&mut pass, note);
    container.take(rt, pass)
}

/// The putting thread answers with a note of this queue.
#[derive(Drop)]
struct NoteOf(Snapshot<Queue<u64>>);

impl Promise<Option<Message<Note<u64>>>> for NoteOf {
    ghost kept_by = { λ p told. IfSome told (λ m. IsNoteOf p.0.value m.note) };
}

// The message of a thread that puts the job. `NoThread` if there was none, and `NoJob` if it put no
// job.
fn told_by_thread<R: Threads + Wait + Sync>(
    rt: &R,
    queue: &Queue<u64>,
    putter: Pass<u64>,
    job: u64,
) -> Result<Message<Note<u64>>, Fault>
    requires { IsPassOf queue.now putter }
    ensures { IfOk result (λ m. IsNoteOf queue.now m.note) }
{
    thread::scope(
        thread::scope_env(),
        rt,
        |scope| -> Result<Message<Note<u64>>, Fault>
            requires { IsPassOf queue.now putter }
            ensures { IfOk result (λ m. IsNoteOf queue.entry.now m.note) }
        {
            let promise = NoteOf(Snapshot::of(queue));
            let putting = scope.spawn_with(
                promise,
                move || -> Option<Message<Note<u64>>>
                    requires { IsPassOf queue.now putter }
                    ensures { IfSome result (λ m. IsNoteOf queue.entry.now m.note) }
                { put_and_tell(rt, queue, putter, job) },
            );
            let Ok(putting) = putting else {
                return Err(Fault::NoThread);
            };
            putting.join(rt).ok_or(Fault::NoJob)
        },
    )
}

// Has a thread put the job, and takes a job here. Returns the job that the message tells of, and the
// take's answer.
fn hand_over<R: Threads + Wait + Sync>(
    rt: &R,
    alloc: Global,
    job: u64,
) -> Result<(u64, Result<(u64, u64), TakeRefused>), Fault> {
    let Some(limits) = Limits::of(4, MAX_TAG) else {
        unreachable!()
    };
    let (queue, mut root) = Queue::new(alloc, limits)?;
    let Some(putter) = queue.split(&mut root) else {
        unreachable!()
    };
    let Some(taker) = queue.split(&mut root) else {
        unreachable!()
    };
    let Message { job, note } = told_by_thread(rt, &queue, putter, job)?;
    let (_, taken) = take_as_told(rt, &queue, taker, note);
    Ok((job, taken))
}

pub fn show<R: AllocGlobal + Print + Threads + Wait + Sync>(rt: &R) -> Result<(), Fault> {
    let (told, taken) = hand_over(rt, rt.alloc(), 7)?;
    println!(rt; "told of job {told}, taken {taken:?}")?;
    Ok(())
}
