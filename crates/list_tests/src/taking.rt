//! Takes by the list steps, successful and failed.
use crate::cells::{another, give, look, look_below, made, take, take_first};
use tagged_index::NULL;

#[test]
fn a_won_take_gives_the_first_of_the_list(rt: HostRuntime) {
    let (table, mut seat) = made(&rt);
    let table = &table.shared;
    let mut other = another(table, &mut seat);
    let top = look(table, &mut seat);
    let next = look_below(&rt, table, &mut seat, top);
    assert_eq!(rt; (top.index(), top.tag(), next), (0, 0, 1));
    assert!(rt; take(&rt, table, &mut seat, top, next));
    let top = look(table, &mut other);
    let next = look_below(&rt, table, &mut other, top);
    assert_eq!(rt; (top.index(), top.tag(), next), (1, 1, 2));
    assert!(rt; take(&rt, table, &mut other, top, next));
    let top = look(table, &mut other);
    assert_eq!(rt; (top.index(), top.tag()), (2, 2));
}

#[test]
fn three_takes_empty_the_list_and_a_cell_given_back_is_taken_next(rt: HostRuntime) {
    let (table, mut first) = made(&rt);
    let table = &table.shared;
    let mut second = another(table, &mut first);
    let mut third = another(table, &mut first);
    let mut fourth = another(table, &mut first);
    assert_eq!(rt; take_first(&rt, table, &mut first), 0);
    let cell = take_first(&rt, table, &mut second);
    assert_eq!(rt; cell, 1);
    assert_eq!(rt; take_first(&rt, table, &mut third), 2);
    let top = look(table, &mut third);
    assert_eq!(rt; (top.index(), top.tag()), (NULL, 3));
    give(&rt, table, &mut second, cell);
    assert_eq!(rt; take_first(&rt, table, &mut fourth), 1);
    let top = look(table, &mut fourth);
    assert_eq!(rt; (top.index(), top.tag()), (NULL, 4));
}

#[test]
fn a_lost_exchange_changes_nothing(rt: HostRuntime) {
    let (table, mut slow) = made(&rt);
    let table = &table.shared;
    let mut quick = another(table, &mut slow);
    let seen = look(table, &mut slow);
    let below = look_below(&rt, table, &mut slow, seen);
    let top = look(table, &mut quick);
    let next = look_below(&rt, table, &mut quick, top);
    assert!(rt; take(&rt, table, &mut quick, top, next));
    let before = look(table, &mut quick);
    assert!(rt; !take(&rt, table, &mut slow, seen, below));
    assert_eq!(rt; look(table, &mut quick), before);
    assert_eq!(rt; (before.index(), before.tag()), (1, 1));
}

// The first cell is back on top when the late compare-and-swap comes, and its link is another. If
// only the index counted, it would succeed, and put a held cell on top.
#[test]
fn a_late_exchange_loses_though_its_cell_is_back(rt: HostRuntime) {
    let (table, mut late) = made(&rt);
    let table = &table.shared;
    let mut first = another(table, &mut late);
    let mut second = another(table, &mut late);
    let seen = look(table, &mut late);
    let below = look_below(&rt, table, &mut late, seen);
    let top = look(table, &mut first);
    let next = look_below(&rt, table, &mut first, top);
    assert!(rt; take(&rt, table, &mut first, top, next));
    let taken = top.index();
    let top = look(table, &mut second);
    let next = look_below(&rt, table, &mut second, top);
    assert!(rt; take(&rt, table, &mut second, top, next));
    give(&rt, table, &mut first, taken);
    let back = look(table, &mut second);
    assert_eq!(rt; (back.index(), back.tag()), (0, 2));
    assert!(rt; !take(&rt, table, &mut late, seen, below));
    assert_eq!(rt; look(table, &mut second), back);
    let now = look(table, &mut late);
    assert_eq!(rt; look_below(&rt, table, &mut late, now), 2);
}
