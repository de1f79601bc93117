//! Worked words and limits.
use tagged_index::{Limits, Tagged};

/// Worked words: index, mark, second mark and tag, and the word that they make.
const WORKED_WORDS: [(u32, bool, bool, u64, u64); 6] = [
    (1_048_575, false, false, 0, 0x0000_0000_000f_ffff),
    (1_048_575, true, false, 0, 0x0000_0000_001f_ffff),
    (1_048_575, false, true, 0, 0x0000_0000_002f_ffff),
    (1, false, false, 5, 0x0000_0000_0140_0001),
    (0, false, false, 4_398_046_511_103, 0xffff_ffff_ffc0_0000),
    (
        1_048_575,
        true,
        true,
        4_398_046_511_103,
        0xffff_ffff_ffff_ffff,
    ),
];

#[test]
fn worked_words_in_both_directions(rt: HostRuntime) {
    for (index, mark, second, tag, word) in WORKED_WORDS {
        let read = Tagged::from_word(word);
        assert_eq!(rt; read.index(), index);
        assert_eq!(rt; read.is_marked(), mark);
        assert_eq!(rt; read.has_second(), second);
        assert_eq!(rt; read.tag(), tag);
        assert_eq!(rt; read.word(), word);
        assert_eq!(rt; Tagged::of(index, mark, second, tag), Some(read));
    }
}

#[test]
fn fields_out_of_range_make_no_word(rt: HostRuntime) {
    assert_eq!(rt; Tagged::of(1_048_576, false, false, 0), None);
    assert_eq!(rt; Tagged::of(0, false, false, 4_398_046_511_104), None);
}

#[test]
fn each_change_alters_its_own_fields(rt: HostRuntime) {
    let word = Tagged::from_word(0x0000_0000_0140_0001);
    assert_eq!(rt; word.kept(3).word(), 0x0000_0000_0140_0003);
    assert_eq!(rt; word.marked().word(), 0x0000_0000_0150_0001);
    assert_eq!(rt; word.with_second().word(), 0x0000_0000_0160_0001);
    assert_eq!(rt;
        word.marked().with_second().marked().word(),
        0x0000_0000_0170_0001
    );
    assert_eq!(rt;
        word.raised(6, 3),
        Some(Tagged::from_word(0x0000_0000_0180_0003))
    );
    assert_eq!(rt; word.raised(5, 3), None);
}

#[test]
fn limits_are_made_in_range_alone(rt: HostRuntime) {
    for (capacity, tag_limit) in [(1, 2), (1_048_573, 2), (1, 4_398_046_511_103)] {
        let limits = Limits::of(capacity, tag_limit).expect(&rt, "in range");
        assert_eq!(rt; limits.capacity(), capacity);
        assert_eq!(rt; limits.tag_limit(), tag_limit);
        assert_eq!(rt; limits.passes(), 65_535);
        let few = limits.for_passes(3);
        assert_eq!(rt;
            (few.capacity(), few.tag_limit(), few.passes()),
            (capacity, tag_limit, 3)
        );
    }
    for (capacity, tag_limit) in [(0, 2), (1_048_574, 2), (1, 1), (1, 4_398_046_511_104)] {
        assert_eq!(rt; Limits::of(capacity, tag_limit), None);
    }
}
