//! Programs with the types of a `.proto` file round them.
ghost use Rattle.sz_protofile_types.specs.Sound.{AreSound};

use crate::judged::{program_of, told};
use std::alloc::{AllocError, Global};
use std::test::Fail;
use sz_check::check_with;
use sz_lex::lex;
use sz_parse::parse;
use sz_protofile_types::{NamedTypes, file_types_are_sound, read_proto};
use sz_tree::Tree;

// In each line a file stands before the bar, behind it a program before `=>`, where `$` is the end of a line, and after it what `check_with`
// says of it.
const ROWS: &str =
    "message Q {int64 a = 1;} | q: Q = input;$c: table sum of int;$emit c <- q.a; => fine
message Q {int64 a = 1;} | q: R; => 6 at 1:4: R
message Q {int64 a = 1;} | q: Q; x := q.b; => 11 at 1:14: b
message Q {int64 a = 1;} | x: int = Q; => 8 at 1:10: Q
message Q {int64 a = 1;} | Q = 1; => 8 at 1:1: Q
message Q {int64 a = 1;} | emit Q <- 1; => 8 at 1:6: Q
message Q {int64 a = 1;} | x: int; y: x; => 8 at 1:12: x
message Q {int64 a = 1;} | q: Q = Q(input); => fine
message Q {int64 a = 1;} | q: Q = Q(1); => 9 at 1:10
message Q {int64 a = 1;} | q: Q = {1}; => fine
message Q {int64 a = 1;} | q: Q = 1; => 9 at 1:8
message Q {int64 a = 1;} | Q(); => 12 at 1:1
message Q {int64 a = 1;} | static s: Q = {1};$x: int = s.a; => fine
message Q {int64 a = 1;} | f: function(q: Q): Q { p: Q = q; return p; }$q: Q = f({1}); => fine
message Q {int64 a = 1;} | qs: array of Q; m: map[string] of Q; t: {q: Q}; x: int = qs[0].a + m[\"x\"].a + t.q.a; => fine
message Q {int64 a = 1;} | type R = proto { q: Q @ 1, qs: array of Q @ 2 }; r: R = input; x: int = r.q.a + r.qs[0].a; => fine
message Q {int64 a = 1;} | s: table sum of Q; t: table collection[Q] of Q; q: Q; emit s <- q; emit t[q] <- q; => fine
message Q {string a = 1;} | s: table sum of Q; => 17 at 1:10
message Q {int64 a = 1;} | t: table collection of Q; emit t <- 1; => 9 at 1:37
message Q {int64 a = 1;} | type Q = int; q: Q = 1; => fine
message Q {int64 a = 1;} | type Q = array of Q; q: Q; x: int = q[0].a; => fine
message Q {int64 a = 1;} | type Q = int; type Q = int; => 7 at 1:20: Q
message Q {int64 a = 1;} | Q: int = 3; x: int = Q + 1; => fine
message Q {int64 a = 1;} | Q: int = 3; q: Q; => 8 at 1:16: Q
message Q {int64 a = 1;} | Q: Q = {1}; x: int = Q.a; => fine
message Q {int64 a = 1;} | Q: function(q: Q): int { return q.a; }$x: int = Q({1}); => fine
message Q {int64 a = 1;} | Q: table sum of int; emit Q <- 1; => fine
message Q {int64 a = 1;} | Q: table sum of int; q: Q; => 8 at 1:25: Q
message Q {int64 a = 1;} | f: function(Q: int): int { return Q; } => fine
message Q {int64 a = 1;} | f: function(Q: int, q: Q): int { return Q; } => 8 at 1:24: Q
message Q {int64 a = 1;} | f: function(q: Q): int { Q: int = q.a; return Q; } => fine
message Q {int64 a = 1;} | { Q: int; q: Q; } => 8 at 1:14: Q
message Q {int64 a = 1;} | { Q: int; } q: Q; => fine
message Q {int64 a = 1;} | for (Q: int = 0; Q < 3; Q++) ; q: Q; => fine
message Q {int64 a = 1;} | when (Q: some int; \"ab\"[Q] == 97) ; q: Q; => fine
message P {sint64 d = 1;} message Q {repeated P p = 1;} | q: Q = input; x: int = q.p[0].d; => fine
message Q {message P {bool d = 1;} P p = 1;} | p: Q_P; q: Q; x: bool = q.p.d || p.d; => fine
message Q {message P {bool d = 1;} P p = 1;} | p: P; => 6 at 1:4: P
message Q {int64 type = 1;} | q: Q; x: int = q.type_; => fine
message N {N next = 1; int64 v = 2;} | n: N = input; x: int = n.v; => fine
message N {N next = 1; int64 v = 2;} | n: N; x: int = n.next.v; => 11 at 1:18: next
message E {} | e: E = input; f: E; f = e; => fine
message E {} | e: E = {}; => 9 at 1:8
message len {int64 a = 1;} | x: int = len(\"a\"); => 9 at 1:14
message input {int64 a = 1;} | x: bytes = input; => 8 at 1:12: input
message match {int64 a = 1;} | m: match; => fine
message Q {} | m: match; => 16 at 1:4: match
; | x: int = 1; => fine
; | q: Q; => 6 at 1:4: Q
; | input = B\"a\"; => 14 at 1:1: input";

fn rows() -> &'static str {
    ROWS
}

// What is said of a program with these types round it.
fn said(alloc: Global, tree: &Tree, types: &NamedTypes) -> Result<String, AllocError>
    requires sound { AreSound types.now }
{
    match check_with(alloc, tree, types) {
        Ok(_) => String::from_str(alloc, "fine"),
        Err(error) => told(alloc, &error),
    }
}

// The same of a program and a file, as texts.
fn outcome(alloc: Global, file: &[u8], program: &[u8]) -> Result<String, AllocError> {
    if file.len() > 1_048_576 || program.len() > 1_048_576 {
        return String::from_str(alloc, "too long");
    }
    let Ok(types) = read_proto(alloc, file) else {
        return String::from_str(alloc, "no types");
    };
    file_types_are_sound();
    let Ok(tokens) = lex(alloc, program) else {
        return String::from_str(alloc, "no tokens");
    };
    match parse(alloc, &tokens) {
        Ok(tree) => said(alloc, &tree, &types),
        Err(_) => String::from_str(alloc, "no tree"),
    }
}

// Whether it is said of a program what its row says.
fn holds(alloc: Global, row: &str) -> Result<bool, Fail> {
    let (texts, wanted) = row.split_once(" => ").ok_or("no arrow")?;
    let (file, program) = texts.split_once(" | ").ok_or("no bar")?;
    let program = program_of(alloc, program)?;
    Ok(outcome(alloc, file.as_bytes(), &program)?.as_str() == wanted)
}

#[test]
fn each_program_is_judged_with_the_types_of_its_file(rt: HostRuntime) -> Result<(), Fail> {
    for row in rows().lines() {
        assert!(&rt; holds(rt.alloc(), row)?, "at {row}");
    }
    Ok(())
}
