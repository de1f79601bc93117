//! What is wrong with a line of a script, in words for a person.

use tagged_index::{MAX_CAPACITY, MAX_TAG, MIN_CAPACITY, MIN_TAG_LIMIT};

const FIRST_LINE: &str =
    "the first line is queue CAPACITY TAGLIMIT or stack CAPACITY TAGLIMIT, with one space between";

const LIMITS: &str =
    "CAPACITY is 1 to 1048573 and TAGLIMIT 2 to 4398046511103, without leading zeros";

const CALLS: &str =
    "after the pass comes put V, take, close, shut, look, begin, step K, range, fold, rfold, meet or drop";

// The texts above say these numbers.
const _: () = prove!(MIN_CAPACITY == 1 && MAX_CAPACITY == 1_048_573);

const _: () = prove!(MIN_TAG_LIMIT == 2 && MAX_TAG == 4_398_046_511_103);

/// What the line of this number, from 1, should have been. It is the first line of the script that
/// cannot stand there.
pub(crate) fn expected(script: &[u8], number: u64) -> &'static str {
    if script.is_empty() {
        return "the script is empty; its first line makes the container, as in queue 4 100";
    }
    let place = usize::try_from(number.saturating_sub(1)).unwrap_or_default();
    let bytes = script.split(|byte| *byte == b'\n').nth(place);
    let bytes = bytes.unwrap_or_default();
    if !bytes.is_ascii() {
        return "the line has a byte that is no ASCII character";
    }
    let line = str::from_utf8(bytes).unwrap_or_default();
    if line.ends_with('\r') {
        return "the line ends in CR; a line feed alone ends a line";
    }
    if place == 0 {
        return expected_first(line);
    }
    if line == "finish" {
        return "finish is the last line";
    }
    if line.is_empty() || line.split(' ').any(|word| word.is_empty()) {
        return "a line has words with exactly one space between, and is not empty";
    }
    expected_of(line, script.starts_with(b"queue "))
}

fn expected_first(line: &str) -> &'static str {
    let mut words = line.split(' ');
    let kind = words.next().unwrap_or_default();
    if kind == "ring" {
        return "a script runs on a queue or a stack; a ring has no scripts";
    }
    if (kind == "queue" || kind == "stack") && words.count() == 2 {
        LIMITS
    } else {
        FIRST_LINE
    }
}

fn expected_of(line: &str, is_queue: bool) -> &'static str {
    let (pass, call) = line.split_once(' ').unwrap_or((line, ""));
    let is_pass = pass.len() == 1 && pass.starts_with(|letter: char| letter.is_ascii_lowercase());
    if !is_pass {
        return "a line begins with a pass, which is a letter from a to z; the last line may be finish";
    }
    match call.split_once(' ').unwrap_or((call, "")) {
        ("put" | "begin", _) if call.contains("put") => "put V: V is 1 to 64 letters and digits",
        ("range" | "fold" | "rfold", _) if is_queue => "a queue has no range, fold or rfold",
        ("range", _) => "range V ..: each V is 1 to 64 letters and digits",
        ("begin", "look") => "the look of a stack is one step, so it is not begun",
        ("begin", _) => "begin: put V, take, close, shut, or the look of a queue",
        ("step", _) => "step K: K is 1 to 65535, without leading zeros",
        ("meet", _) => "meet Q: Q is a pass, and another one",
        _ => CALLS,
    }
}
