//! The messages that came through and those that are left, put together.

ghost use Rattle.std.specs.Prelude.{◌≡◌, ◌≤◌, ◌<◌, ◌+◌, ◌++◌, ◌∷◌, [], List, length, vec_len, vec_capacity, All, IsPermutation, IfSome, IfNone, slice_index_or, Vec};
ghost use Rattle.std.specs.List.Sorted.{IsNonDecreasingBy};
ghost use Rattle.std.specs.declared.alloc.Global.{Global};
ghost use Rattle.relay.specs.declared.outcome.Taken.{Taken};
ghost use Rattle.relay.specs.Rooms.{IsRoomFor};
ghost use Rattle.relay.specs.Merge.{all_of, IsUp, IsHeight, IsTop, IsAbove, Merging};

use crate::{Message, Taken};
use bounded_model::Leaving;

/// All messages that are left, in order.
pub(crate) fn drain<L: Leaving<Message> + Drop>(rest: L, room: Vec<Message>) -> Vec<Message>
    requires { IsRoomFor (length (L.left rest)) room }
    ensures { result.items ≡ L.left rest }
{
    let mut rest = rest;
    let mut left = room;
    while let Some(message) = rest.next() {
        left.push_reserved(message);
    }
    left
}

/// Puts lists in which the numbers rise together by their numbers. One list alone stays where it is.
pub(crate) fn merge(lists: Vec<Vec<Taken>>, room: Vec<Taken>) -> Vec<Taken>
    requires some { 0 < vec_len lists }
    requires up { All IsUp lists.items }
    requires room { IsRoomFor (length (all_of lists.items)) room }
    ensures same { IsPermutation (all_of lists.items) result.items }
    ensures sorted { IsNonDecreasingBy (λ t. t.number) result.items }
{
    let mut lists = lists;
    if lists.len() == 1
        && let Some(only) = lists.pop()
    {
        return only;
    }
    merge_many(lists, room)
}

// Puts lists together by their numbers, the greatest first. In the end it turns the whole list
// round.
fn merge_many(lists: Vec<Vec<Taken>>, room: Vec<Taken>) -> Vec<Taken>
    requires some { 0 < vec_len lists }
    requires up { All IsUp lists.items }
    requires room { IsRoomFor (length (all_of lists.items)) room }
    ensures same { IsPermutation (all_of lists.items) result.items }
    ensures sorted { IsNonDecreasingBy (λ t. t.number) result.items }
{
    let mut lists = lists;
    let mut all = room;
    while let Some(list) = take_greatest(&mut lists) {
        let (rest, more) = move_run(list, &lists, all);
        lists.push_reserved(shrunk(rest));
        all = more;
    }
    all.reverse();
    all
}

// Takes the list with the greatest number out of the lists; `None` if they are empty.
fn take_greatest(lists: &mut Vec<Vec<Taken>>) -> Option<Vec<Taken>>
    requires some { 0 < vec_len lists.old }
    requires up { All IsUp lists.old.items }
    ensures none { IfNone result (all_of lists.old.items ≡ []) }
    ensures len { IfSome result (λ l. vec_len lists.new + 1 ≡ vec_len lists.old) }
    ensures capacity { IfSome result (λ l. vec_len lists.new < vec_capacity lists.new) }
    ensures up { IfSome result (λ l. IsUp l × All IsUp lists.new.items) }
    ensures above { IfSome result (λ l. (0 < vec_len l) × IsAbove l lists.new.items) }
    ensures same { IfSome result (λ l. IsPermutation (all_of lists.old.items)
        (all_of (lists.new.items ++ l ∷ []))) }
{
    let place = greatest(lists);
    if lists[place].is_empty() {
        return None;
    }
    Some(lists.remove(place))
}

// Moves the messages at the list's end, the last first, while no other list has a greater number,
// and until memory can be given back. Returns the rest of the list, and all messages moved.
fn move_run(list: Vec<Taken>, others: &[Vec<Taken>], moved: Vec<Taken>) -> (Vec<Taken>, Vec<Taken>)
    requires some { 0 < vec_len list }
    requires up { IsUp list × All IsUp others.now }
    requires above { IsAbove list others.now }
    requires room { vec_len moved + vec_len list ≤ vec_capacity moved }
    ensures up { IsUp result.0 }
    ensures fewer { vec_len result.0 < vec_len list }
    ensures room { vec_len result.1 + vec_len result.0 ≡ vec_len moved + vec_len list }
    ensures capacity { vec_capacity result.1 ≡ vec_capacity moved }
    ensures merging { (start : List Taken)
        → Merging start moved.items (others.now ++ list ∷ [])
        → Merging start result.1.items (others.now ++ result.0 ∷ []) }
{
    let bound = bound(others);
    let mut rest = list;
    let mut all = moved;
    while let Some(taken) = rest.pop() {
        all.push_reserved(taken);
        if height(&rest) < bound || has_much_free(&rest) {
            return (rest, all);
        }
    }
    (rest, all)
}

// The list; memory that has become free is given back, an eighth of it at a time.
fn shrunk(list: Vec<Taken>) -> Vec<Taken>
    ensures { result.items ≡ list.items }
{
    let mut list = list;
    if has_much_free(&list) {
        list.shrink_to_fit();
    }
    list
}

// Whether more than an eighth of the list's memory is free.
fn has_much_free(list: &Vec<Taken>) -> bool {
    list.len() < list.capacity() / 8 * 7
}

// The place of the list with the greatest number.
fn greatest(lists: &[Vec<Taken>]) -> usize
    requires some { 0 < length lists.now }
    requires up { All IsUp lists.now }
    ensures place { result < length lists.now }
    ensures top { (l : Vec Taken Global) → l ≡ slice_index_or lists.now result l
        → IsTop lists.now l }
{
    let mut best = 0;
    let mut most = height(&lists[0]);
    for place in 1..lists.len() {
        let height = height(&lists[place]);
        if most < height {
            best = place;
            most = height;
        }
    }
    best
}

// A number above all of the lists.
fn bound(lists: &[Vec<Taken>]) -> u128
    requires { All IsUp lists.now }
    ensures { All (λ l. All (λ t. t.number < result) l.items) lists.now }
{
    let mut most = 0;
    for list in lists {
        most = height(list).max(most);
    }
    most
}

// One above the list's last number, or 0 if the list is empty.
fn height(list: &Vec<Taken>) -> u128
    requires up { IsUp list.now }
    ensures is { IsHeight list.now result }
    ensures below { All (λ t. t.number < result) list.now.items }
{
    let count = list.len();
    if count == 0 {
        0
    } else {
        u128::from(list[count - 1].number) + 1
    }
}
