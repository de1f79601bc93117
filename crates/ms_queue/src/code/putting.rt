//! A put, step by step. While the put has a cell, the value is in the cell's slot, and a snapshot
//! shows it to proofs. The line numbers are those of Michael and Scott's `enqueue` (calls/putting.rt).
ghost use Rattle.std.specs.Prelude.{◌≡◌, ◌≤◌, ◌+◌};
ghost use Rattle.tagged_index.specs.Fields.{number};
ghost use Rattle.tagged_index.specs.declared.word.TheConstants.{MAX_TAG};
ghost use Rattle.queue_machine.specs.Machine.{null_word};
ghost use Rattle.ms_queue.specs.code.Putting.{put_account};

use crate::code::giving::{Give, Held, give_access, give_next};
use crate::code::seeking::{End, Seek, seek_access, seek_on};
use crate::life::queue::{Answered, Queue};
use crate::rule::Queued;
use atomic_table::Seat;
use bounded_model::{PutRefused, Word};
use index_list::{move_out, put_in};
use machine::seats::View;
use queue_machine::Line;
use queue_table::Operation;
use queue_table::layout::{CELL_LIST, NODE_LIST, TAIL, cell, next};
use running::{Access, Code, Next, Op, Outcome, Replies, Tie, raised};
use std::snapshot::Snapshot;
use tagged_index::{NULL, Tagged};

/// A put that was begun.
pub type PutOp<T> = Op<T, Line<T>, Operation<T>, PutAt<T>>;

/// The next step of a put, with what it has read and holds.
#[derive(Drop)]
pub enum PutAt<T> {
    /// Load `CELLS`.
    LoadCells(T),
    /// Load the link of the free cell.
    LoadCellLink(T, Tagged),
    /// Compare-and-swap `CELLS` for the next free cell.
    TakeCell(T, Tagged, u32),
    /// No cell is free: go to the end of the chain, to say why nothing can be put.
    Refusing(T, Seek),
    /// Load `NODES` (E1).
    LoadNodes(Snapshot<T>, u32),
    /// Load the link of the free node.
    LoadNodeLink(Snapshot<T>, u32, Tagged),
    /// Compare-and-swap `NODES` for the next free node.
    TakeNode(Snapshot<T>, u32, Tagged, u32),
    /// Store the cell in the node (E2).
    StoreCell(Snapshot<T>, Held),
    /// Load the node's `next`.
    LoadNext(Snapshot<T>, Held),
    /// Store null with the next tag in it (E3).
    PrepareNext(Snapshot<T>, Held, Tagged),
    /// Go to the end of the chain (E5 to E8, and E13).
    Seeking(Snapshot<T>, Held, Seek),
    /// Compare-and-swap the last node's `next` for the node (E9).
    LinkNext(Snapshot<T>, Held, Tagged, Tagged),
    /// The value is put. Compare-and-swap `TAIL` for the node that has it (E17); the second word is
    /// the link.
    SwingTail(Snapshot<T>, Tagged, Tagged),
    /// Give the node and the cell back, or the cell alone.
    GiveBack(PutRefused<T>, Held, Give),
}

/// What a put answers.
pub(crate) type Answer<T> = Result<u64, PutRefused<T>>;

// Null with this tag.
#[inline(always)]
fn null_word(tag: u64) -> u64
    requires { tag ≤ MAX_TAG }
    ensures { result ≡ number (null_word tag) }
{
    match Tagged::of(NULL, false, false, tag) {
        Some(word) => word.word(),
        None => unreachable!(),
    }
}

impl<T, D: Tie<T>> Code<Queue<T, D>, T, Line<T>, Operation<T>, Queued<D>, Answered<Answer<T>>, 2>
    for PutAt<T> {
    ghost use Rattle.ms_queue.specs.code.Putting.{put_account};

    ghost account = { put_account };

    #[inline]
    fn is_refusal(answer: &Answered<Answer<T>>) -> bool {
        answer.reply.is_err()
    }

    #[inline(always)]
    fn access(&self, on: &Queue<T, D>) -> Access {
        match self {
            PutAt::LoadCells(_) => Access::LoadTop(CELL_LIST),
            PutAt::LoadCellLink(_, cells) => Access::LoadLink(CELL_LIST, cells.index()),
            PutAt::TakeCell(_, cells, link) => Access::Take(CELL_LIST, *cells, *link),
            PutAt::Refusing(_, at) => seek_access(on, at),
            PutAt::LoadNodes(_, _) => Access::LoadTop(NODE_LIST),
            PutAt::LoadNodeLink(_, _, nodes) => Access::LoadLink(NODE_LIST, nodes.index()),
            PutAt::TakeNode(_, _, nodes, link) => Access::TakeBare(NODE_LIST, *nodes, *link),
            PutAt::StoreCell(_, held) => Access::Keep(cell(held.node), held.cell as u64),
            PutAt::LoadNext(_, held) => Access::Load(next(held.node)),
            PutAt::PrepareNext(_, held, link) => {
                Access::Store(next(held.node), null_word(link.tag() + 1))
            }
            PutAt::Seeking(_, _, at) => seek_access(on, at),
            PutAt::LinkNext(_, held, tail, link) => {
                Access::Return(next(tail.index()), *link, raised(*link, held.node))
            }
            PutAt::SwingTail(_, tail, link) => {
                Access::Swap(TAIL, *tail, raised(*tail, link.index()))
            }
            PutAt::GiveBack(_, held, at) => give_access(on, *held, at),
        }
    }

    #[inline(always)]
    fn next(
        self,
        on: &Queue<T, D>,
        seat: &mut Seat<Option<T>, View<T, Line<T>>>,
        outcome: Outcome,
    ) -> Next<PutAt<T>, Answered<Answer<T>>> {
        match self {
            PutAt::LoadCells(value) => {
                let cells = Tagged::from_word(outcome.word);
                if cells.index() == NULL {
                    return Next::On(PutAt::Refusing(value, Seek::LoadTail));
                }
                if cells.tag() >= on.limits.tag_limit() {
                    return Next::Done(Answered {
                        kept: (),
                        reply: Err(PutRefused::Spent(value, Word::Cells, cells.tag())),
                    });
                }
                Next::On(PutAt::LoadCellLink(value, cells))
            }
            PutAt::LoadCellLink(value, cells) => {
                Next::On(PutAt::TakeCell(value, cells, outcome.word as u32))
            }
            PutAt::TakeCell(value, cells, _) => {
                if !outcome.won {
                    return Next::Lost(PutAt::LoadCells(value));
                }
                // With the cell comes its slot, and the value moves in.
                let cell = cells.index();
                let shown = Snapshot::of(&value);
                put_in(&on.table.shared, seat, cell, value);
                Next::On(PutAt::LoadNodes(shown, cell))
            }
            PutAt::Refusing(value, at) => match seek_on(on, at, outcome) {
                Next::On(at) => Next::On(PutAt::Refusing(value, at)),
                Next::Lost(at) => Next::Lost(PutAt::Refusing(value, at)),
                Next::Done(end) => match end {
                    End::Closed(_) => Next::Done(Answered {
                        kept: (),
                        reply: Err(PutRefused::Closed(value)),
                    }),
                    End::Open(_, _) => Next::Done(Answered {
                        kept: (),
                        reply: Err(PutRefused::Full(value)),
                    }),
                },
            },
            PutAt::LoadNodes(shown, cell) => {
                // A put that has a cell always finds a node with room.
                let nodes = Tagged::from_word(outcome.word);
                if nodes.index() == NULL || nodes.tag() >= on.limits.tag_limit() {
                    let value = move_out(&on.table.shared, seat, cell);
                    let why = PutRefused::Spent(value, Word::Nodes, nodes.tag());
                    let held = Held {
                        cell,
                        node: 0,
                        aligned: [],
                    };
                    return Next::On(PutAt::GiveBack(why, held, Give::LoadCells));
                }
                Next::On(PutAt::LoadNodeLink(shown, cell, nodes))
            }
            PutAt::LoadNodeLink(shown, cell, nodes) => {
                Next::On(PutAt::TakeNode(shown, cell, nodes, outcome.word as u32))
            }
            PutAt::TakeNode(shown, cell, nodes, _) => {
                if !outcome.won {
                    return Next::Lost(PutAt::LoadNodes(shown, cell));
                }
                let held = Held {
                    cell,
                    node: nodes.index(),
                    aligned: [],
                };
                Next::On(PutAt::StoreCell(shown, held))
            }
            PutAt::StoreCell(shown, held) => Next::On(PutAt::LoadNext(shown, held)),
            PutAt::LoadNext(shown, held) => {
                // Both the preparation and the link raise the tag.
                let link = Tagged::from_word(outcome.word);
                if link.tag() + 1 >= on.limits.tag_limit() {
                    let value = move_out(&on.table.shared, seat, held.cell);
                    let why = PutRefused::Spent(value, Word::Next(held.node), link.tag());
                    return Next::On(PutAt::GiveBack(why, held, Give::LoadNodes));
                }
                Next::On(PutAt::PrepareNext(shown, held, link))
            }
            PutAt::PrepareNext(shown, held, _) => {
                Next::On(PutAt::Seeking(shown, held, Seek::LoadTail))
            }
            PutAt::Seeking(shown, held, at) => match seek_on(on, at, outcome) {
                Next::On(at) => Next::On(PutAt::Seeking(shown, held, at)),
                Next::Lost(at) => Next::Lost(PutAt::Seeking(shown, held, at)),
                Next::Done(end) => match end {
                    End::Closed(_) => {
                        let value = move_out(&on.table.shared, seat, held.cell);
                        let why = PutRefused::Closed(value);
                        Next::On(PutAt::GiveBack(why, held, Give::LoadNodes))
                    }
                    End::Open(tail, link) => Next::On(PutAt::LinkNext(shown, held, tail, link)),
                },
            },
            PutAt::LinkNext(shown, held, tail, link) => {
                if !outcome.won {
                    return Next::Lost(PutAt::Seeking(shown, held, Seek::LoadTail));
                }
                // The put has had its effect.
                Next::On(PutAt::SwingTail(shown, tail, raised(link, held.node)))
            }
            // Whichever pass succeeds, the tail then no longer lags behind this put.
            PutAt::SwingTail(_, tail, _) => Next::Done(Answered {
                kept: (),
                reply: Ok(tail.tag()),
            }),
            PutAt::GiveBack(why, held, at) => match give_next(on, at, outcome) {
                Next::On(at) => Next::On(PutAt::GiveBack(why, held, at)),
                Next::Lost(at) => Next::Lost(PutAt::GiveBack(why, held, at)),
                Next::Done(()) => Next::Done(Answered {
                    kept: (),
                    reply: Err(why),
                }),
            },
        }
    }
}

impl<T, D: Tie<T>> Replies<Queue<T, D>, T, Line<T>, Operation<T>, Queued<D>, (), Answer<T>, 2>
    for PutAt<T> {
    ghost use Rattle.std.specs.Prelude.{refl};
    ghost use Rattle.ms_queue.specs.code.KeepsAnswers.{put_given, put_promises};

    ghost gives = { put_promises };

    ghost idle = { λ key o answer. refl };

    ghost given = { put_given D.rule };

    ghost kept = { λ key o answer. tt };
}
