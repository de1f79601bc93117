//! A pool of buffers: threads borrow buffers from a stack and give them back, and at the end one
//! compare-and-swap takes them all. The pool is a stack, so that the buffer used last is used next.

ghost use Rattle.std.specs.Prelude.{◌≡◌, ◌≤◌, All, IfOk, length};
ghost use Rattle.treiber_stack.specs.Calls.{IsPassOf, IsRootOf};
ghost use Rattle.examples.specs.Puts.{PutsOne};
ghost use Rattle.examples.specs.declared.buffers.TheConstants.{SIZE};

use crate::fault::Fault;
use bounded_model::{Bulk, Container};
use std::alloc::{AllocError, Global};
use std::sync::Wait;
use std::thread;
use std::thread::Threads;
use tagged_index::{Limits, MAX_TAG};
use treiber_stack::{Pass, Root, Stack};
use waiting::{put_waiting, take_waiting};

/// How many bytes a buffer has.
const SIZE: usize = 1_024;

const BUFFERS: u32 = 4;

const THREADS: u32 = 3;

/// How often each thread uses a buffer.
const TIMES: u32 = 1_000;

/// Bytes, and how often they were used.
#[derive(Drop)]
struct Buffer {
    bytes: Vec<u8>,
    uses: u64,
}

impl Buffer {
    // A buffer that was never used.
    fn new(alloc: Global) -> Result<Buffer, AllocError>
        ensures { IfOk result (λ buffer. (length buffer.bytes.items ≡ SIZE) × (buffer.uses ≡ 0)) }
    {
        let bytes = vec![in alloc; 0u8; SIZE]?;
        Ok(Buffer { bytes, uses: 0 })
    }

    // How often it was used.
    fn uses(&self) -> u64
        ensures { result ≡ self.now.uses }
    {
        self.uses
    }

    fn fill(&mut self) {
        self.bytes.as_mut_slice().fill(0xff);
        self.uses = self.uses.saturating_add(1);
    }
}

// Gives a buffer to the pool, and waits while the pool is full; returns whether it went in.
fn give<C: Container<Buffer>, R: Wait>(
    rt: &R,
    pool: &C,
    by: C::Pass,
    buffer: Buffer,
) -> (C::Pass, bool)
    requires { C.is_pass pool.now by }
    ensures of { C.is_pass pool.now result.0 }
    ensures gives { PutsOne (C.shape pool.now) (C.pass by) buffer (C.pass result.0) result.1 }
{
    match put_waiting(pool, rt, by, buffer) {
        (pass, Ok(_)) => (pass, true),
        (pass, Err(_)) => (pass, false),
    }
}

// Borrows a buffer, fills it and gives it back, `times` times.
fn use_pool<C: Container<Buffer>, R: Wait>(rt: &R, pool: &C, by: C::Pass, times: u32) -> C::Pass
    requires { C.is_pass pool.now by }
    ensures { C.is_pass pool.now result }
{
    let mut pass = by;
    for _ in 0..times {
        let (back, borrowed) = take_waiting(pool, rt, pass);
        let Ok((mut buffer, _)) = borrowed else {
            return back;
        };
        buffer.fill();
        pass = give(rt, pool, back, buffer).0;
    }
    pass
}

// Fills the pool, which has room for all of them.
fn fill<R: Wait>(
    rt: &R,
    alloc: Global,
    pool: &Stack<Buffer>,
    by: Pass<Buffer>,
    buffers: u32,
) -> Result<Pass<Buffer>, Fault>
    requires { IsPassOf pool.now by }
    ensures { IfOk result (λ pass. IsPassOf pool.now pass) }
{
    let mut pass = by;
    for _ in 0..buffers {
        let buffer = Buffer::new(alloc)?;
        let (back, _) = pool.put(rt, pass, buffer);
        pass = back;
    }
    Ok(pass)
}

// A pass for each thread.
fn passes(
    alloc: Global,
    pool: &Stack<Buffer>,
    root: &mut Root<Buffer>,
    threads: u32,
) -> Result<Vec<Pass<Buffer>>, Fault>
    requires { IsRootOf pool.now root.old }
    ensures { IfOk result (λ ps. All (IsPassOf pool.now) ps.items) }
{
    let mut all = Vec::new(alloc);
    for _ in 0..threads {
        let pass = pool.split(root).ok_or(Fault::NoPass)?;
        all.push(pass)?;
    }
    Ok(all)
}

// Threads use the pool at once; they have ended when this returns. `false` if one was not started.
fn use_at_once<R: Threads + Wait + Sync>(
    rt: &R,
    pool: &Stack<Buffer>,
    users: Vec<Pass<Buffer>>,
    times: u32,
) -> bool
    requires { All (IsPassOf pool.now) users.items }
{
    thread::scope(
        thread::scope_env(),
        rt,
        |scope| -> bool
            requires { All (IsPassOf pool.now) users.items }
        {
            let mut started = true;
            for pass in users {
                let user = scope.spawn(
                    move ||
                        requires { IsPassOf pool.now pass }
                    {
                        use_pool(rt, pool, pass, times);
                    },
                );
                started &= user.is_ok();
            }
            started
        },
    )
}

/// What came back.
#[derive(Clone, Copy)]
struct Back {
    buffers: u64,
    uses: u64,
}

// Lends `buffers` buffers to `threads` threads, `times` times to each thread, and takes all buffers
// back at once.
fn lend<R: Threads + Wait + Sync>(
    rt: &R,
    alloc: Global,
    buffers: u32,
    threads: u32,
    times: u32,
) -> Result<Back, Fault>
    requires { 1 ≤ buffers × buffers ≤ 1000 }
{
    let Some(limits) = Limits::of(buffers, MAX_TAG) else {
        unreachable!()
    };
    let (pool, mut root) = Stack::new(alloc, limits)?;
    let Some(keeper) = pool.split(&mut root) else {
        unreachable!()
    };
    let users = passes(alloc, &pool, &mut root, threads)?;
    let keeper = fill(rt, alloc, &pool, keeper, buffers)?;
    if !use_at_once(rt, &pool, users, times) {
        return Err(Fault::NoThread);
    }
    let none = Back {
        buffers: 0,
        uses: 0,
    };
    let (_, back, _) = pool.fold_all_atomic(
        rt,
        keeper,
        none,
        |back: Back, buffer: Buffer| Back {
            buffers: back.buffers.saturating_add(1),
            uses: back.uses.saturating_add(buffer.uses()),
        },
    );
    Ok(back)
}

pub fn show<R: AllocGlobal + Print + Threads + Wait + Sync>(rt: &R) -> Result<(), Fault> {
    let back = lend(rt, rt.alloc(), BUFFERS, THREADS, TIMES)?;
    println!(rt;
        "{} buffers are back, used {} times",
        back.buffers, back.uses
    )?;
    Ok(())
}
