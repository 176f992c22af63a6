//! Trees of the greatest height, and trees one higher; and the longest programs.
use crate::outcome::{Shown, comes_to};
use std::alloc::Global;

fn push(text: &mut String, part: &str, times: u32) {
    for _ in 0..times {
        let _ = text.push_str(part);
    }
}

// The parts of a row, which `|` separates, once and so often in turn.
fn nested(alloc: Global, row: &str, times: u32) -> String {
    let mut text = String::new(alloc);
    let mut is_once = true;
    for part in row.split('|') {
        push(&mut text, part, if is_once { 1 } else { times });
        is_once = !is_once;
    }
    text
}

// The number of times at the front of a row, and what follows it.
fn times_of(row: &str) -> (u32, &str) {
    let (times, parts) = row.split_once('|').unwrap_or((row, "no parts"));
    (times.parse().unwrap_or(0), parts)
}

// So often nested the parts make a statement of height 256, which is read; once more, it is refused where it begins.
// An assignment is one higher than its value, and a number has height 1; `{}` and `f()` have the heights 1 and 2. A declaration is
// one higher than its type. `i++` is `i = i + 1`, of height 3; a call alone has height 2.
const GREATEST: &str = "\
254|; x = |(|1|)|;
254|; x = |!|1||;
254|; x = ||1| + 1|;
254|; x = ||1|[1]|;
254|; x = ||1|.a|;
254|; x = |f(|1|)|;
254|; x = |int(|1|)|;
254|; x = |{|{}|}|;
254|; x = |{1: |{:}|}|;
253|; x = |(|f()|)|;
254|; x: |array of |int||;
254|; x: |map [int] of |t||;
254|; x: |{a: |int|}|;
254|; x: |proto {a: |t| @ 1}|;
254|; t: table sum of |array of |t||;
255|; |{|;|}|
255|; |if (a) |;||
255|; |if (a) ; else |;||
255|; |while (a) |;||
255|; |do |;| while (a);|
255|; |for (;;) |;||
255|; |when (i: some int; i) |;||
253|; |{|i++;|}|
253|; |{|i--;|}|
254|; |{|f();|}|
252|; |{|for (;; i++) ;|}|";

// Whether a row's statement is read, and refused where it is one higher.
fn is_greatest(alloc: Global, row: &str) -> bool {
    let (times, parts) = times_of(row);
    let greatest = nested(alloc, parts, times);
    let higher = nested(alloc, parts, times.saturating_add(1));
    comes_to(alloc, Shown::Count, greatest.as_str(), " 2 read")
        && comes_to(alloc, Shown::Count, higher.as_str(), " 1:3")
}

// Rows with a blank line between them; 149,796 lines of 7 bytes make 1,048,572.
const LONG: &str = "\
300|x = 1;
  y = |(|1|)|; => 2:3

100000|x = 1;
  y = |(|1|)|; => 2:3

200000||{||}| => 1:1

149796||x = 1;
||| => 149796 read

200000|x = {1|, 1|||}; => 1 read

200000|{|x++;|||} => 1 read

200000|x = 1| + 1|||; => 1:1

1|x = 1;
  if (a) ;
\ty = ;
| => 3:2";

// Whether a long text comes to its outcome.
fn is_long(alloc: Global, row: &str) -> bool {
    let (text, expected) = row.split_once(" =>").unwrap_or((row, "no arrow"));
    let (times, parts) = times_of(text);
    let text = nested(alloc, parts, times);
    comes_to(alloc, Shown::Count, text.as_str(), expected)
}

// The tables are what calls give, so that no proof sees what stands in them.
fn greatest() -> &'static str {
    GREATEST
}

fn long() -> &'static str {
    LONG
}

#[test]
fn a_statement_has_height_256_at_most_and_long_texts_come_to_an_outcome(rt: HostRuntime) {
    for row in greatest().lines() {
        assert!(rt; is_greatest(rt.alloc(), row), "at {row}");
    }
    for row in long().split("\n\n") {
        assert!(rt; is_long(rt.alloc(), row), "at {row}");
    }
}
