//! Runs by example: messages, and values of proto types. The lines are as in `runs.rt`.

/// The runs.
pub const RUNS: &str = r#"== messages: a record becomes a message by the numbers of its fields
$ [run p f --frame delimited]
< \x11\x08\x05\x08\x07\x12\x02\x01\x02\x10\x03\x2b\x08\x01\x2c\x0a\x01\x78
type M = proto { a: int @ 1, b: array of int @ 2 };¶m: M = input;¶out: table collection of {a: int, b: array of int};¶emit out <- {m.a, m.b};¶ => 0 out[] = {7, {1, 2, 3}}¶
< \x01\x08
type M = proto { a: int @ 1, b: array of int @ 2 };¶m: M = input;¶out: table collection of {a: int, b: array of int};¶emit out <- {m.a, m.b};¶ => 0
< \x13\x0a\x02\x75\x73\x10\x80\x80\x9a\xa6\xea\xaf\xe3\x01\x1a\x04\x72\x75\x73\x74\x13\x0a\x02\x75\x73\x10\x80\x80\x9a\xa6\xea\xaf\xe3\x01\x1a\x04\x72\x75\x73\x74\x05\x1a\x03\x61\x62\x63
type Query = proto { country: string @ 1, at: time @ 2, text: string @ 3 };¶q: Query = input;¶hits: table sum[country: string][hour: int] of int;¶emit hits[q.country][int(q.at) / 3600000000 % 24] <- 1;¶ => 0 hits[""][0] = 1¶hits["us"][1] = 2¶

== messages: what is missing is 0, false or empty
$ [run p f --frame delimited]
< \x00
type M = proto {a: int @ 1, b: bool @ 2, c: string @ 3, d: bytes @ 4, e: time @ 5, f: array of int @ 6, g: proto {h: int @ 1} @ 7}; t: table collection of M; m: M = input; emit t <- m; => 0 t[] = {0, false, "", B"", 0, {}, {0}}¶
< \x1d\x08\xff\xff\xff\xff\xff\xff\xff\xff\xff\x01\x10\x02\x1a\x01\x78\x22\x01\xff\x28\x07\x30\x01\x30\x02\x3a\x02\x08\x09
type M = proto {a: int @ 1, b: bool @ 2, c: string @ 3, d: bytes @ 4, e: time @ 5, f: array of int @ 6, g: proto {h: int @ 1} @ 7}; t: table collection of M; m: M = input; emit t <- m; => 0 t[] = {-1, true, "x", B"\xff", 7, {1, 2}, {9}}¶

== messages: numbers are varints, or fixed where they stand so
$ [run p f --frame delimited]
< \x03\x08\xac\x02
type M = proto {a: int @ 1}; t: table collection of M; m: M = input; emit t <- m; => 0 t[] = {300}¶
< \x05\x0d\xff\xff\xff\xff
type M = proto {a: int @ 1}; t: table collection of M; m: M = input; emit t <- m; => 0 t[] = {-1}¶
< \x09\x09\x00\x00\x00\x00\x00\x00\x00\x80
type M = proto {a: int @ 1}; t: table collection of M; m: M = input; emit t <- m; => 0 t[] = {-9223372036854775808}¶
< \x02\x08\x03
type M = proto {a: int @ 1 zigzag}; t: table collection of M; m: M = input; emit t <- m; => 0 t[] = {-2}¶
< \x05\x0d\x03\x00\x00\x00
type M = proto {a: int @ 1 zigzag}; t: table collection of M; m: M = input; emit t <- m; => 0 t[] = {3}¶
< \x02\x08\x03
type M = proto {a: int @ 1 fixed32}; t: table collection of M; m: M = input; emit t <- m; => 0 t[] = {3}¶
< \x02\x08\x00
type M = proto {a: bool @ 1}; t: table collection of M; m: M = input; emit t <- m; => 0 t[] = {false}¶
< \x07\x0a\x03\x01\xac\x02\x08\x05
type M = proto {a: array of int @ 1}; t: table collection of M; m: M = input; emit t <- m; => 0 t[] = {{1, 300, 5}}¶
< \x04\x0a\x02\x01\x02
type M = proto {a: array of int @ 1 zigzag}; t: table collection of M; m: M = input; emit t <- m; => 0 t[] = {{-1, 1}}¶
< \x0a\x0a\x08\x01\x00\x00\x00\xfe\xff\xff\xff
type M = proto {a: array of int @ 1 fixed32}; t: table collection of M; m: M = input; emit t <- m; => 0 t[] = {{1, -2}}¶
< \x0a\x0a\x08\x01\x00\x00\x00\x00\x00\x00\x00
type M = proto {a: array of int @ 1 fixed64}; t: table collection of M; m: M = input; emit t <- m; => 0 t[] = {{1}}¶
< \x04\x0a\x02\x00\x05
type M = proto {a: array of bool @ 1}; t: table collection of M; m: M = input; emit t <- m; => 0 t[] = {{false, true}}¶
< \x05\x0a\x01\x78\x0a\x00
type M = proto {a: array of string @ 1}; t: table collection of M; m: M = input; emit t <- m; => 0 t[] = {{"x", ""}}¶

== messages: the last of a field wins, messages join, and what no field takes is skipped
$ [run p f --frame delimited]
< \x04\x08\x01\x08\x02
type M = proto {a: int @ 1}; t: table collection of M; m: M = input; emit t <- m; => 0 t[] = {2}¶
< \x08\x0a\x02\x08\x01\x0a\x02\x10\x02
type M = proto {a: proto {b: int @ 1, c: int @ 2} @ 1}; t: table collection of M; m: M = input; emit t <- m; => 0 t[] = {{1, 2}}¶
< \x05\x08\x04\x0a\x01\x41
type M = proto {a: int @ 1}; t: table collection of M; m: M = input; emit t <- m; => 0 t[] = {4}¶
< \x15\x08\x04\x10\x05\x1a\x01\x41\x21\x01\x02\x03\x04\x05\x06\x07\x08\x2d\x01\x02\x03\x04
type M = proto {a: int @ 1}; t: table collection of M; m: M = input; emit t <- m; => 0 t[] = {4}¶
< \x06\x0b\x08\x05\x0c\x08\x06
type M = proto {a: int @ 1}; t: table collection of M; m: M = input; emit t <- m; => 0 t[] = {6}¶

== messages: bytes that are no message are undefined
$ [run p f --frame delimited]
< \x00
type M = proto {a: string @ 1, b: array of int @ 2 fixed32}; t: table collection of bool; m: M = input; emit t <- def(m); => 0 t[] = true¶
< \x01\x08
type M = proto {a: string @ 1, b: array of int @ 2 fixed32}; t: table collection of bool; m: M = input; emit t <- def(m); => 0 t[] = false¶
< \x02\x00\x01
type M = proto {a: string @ 1, b: array of int @ 2 fixed32}; t: table collection of bool; m: M = input; emit t <- def(m); => 0 t[] = false¶
< \x02\x0e\x01
type M = proto {a: string @ 1, b: array of int @ 2 fixed32}; t: table collection of bool; m: M = input; emit t <- def(m); => 0 t[] = false¶
< \x03\x0a\x02\x41
type M = proto {a: string @ 1, b: array of int @ 2 fixed32}; t: table collection of bool; m: M = input; emit t <- def(m); => 0 t[] = false¶
< \x03\x0a\x01\xff
type M = proto {a: string @ 1, b: array of int @ 2 fixed32}; t: table collection of bool; m: M = input; emit t <- def(m); => 0 t[] = false¶
< \x06\x0a\x01\xff\x0a\x01\x41
type M = proto {a: string @ 1, b: array of int @ 2 fixed32}; t: table collection of bool; m: M = input; emit t <- def(m); => 0 t[] = false¶
< \x05\x12\x03\x01\x02\x03
type M = proto {a: string @ 1, b: array of int @ 2 fixed32}; t: table collection of bool; m: M = input; emit t <- def(m); => 0 t[] = false¶
< \x01\x1b
type M = proto {a: string @ 1, b: array of int @ 2 fixed32}; t: table collection of bool; m: M = input; emit t <- def(m); => 0 t[] = false¶
< \x02\x1b\x24
type M = proto {a: string @ 1, b: array of int @ 2 fixed32}; t: table collection of bool; m: M = input; emit t <- def(m); => 0 t[] = false¶
< \x01\x1c
type M = proto {a: string @ 1, b: array of int @ 2 fixed32}; t: table collection of bool; m: M = input; emit t <- def(m); => 0 t[] = false¶

== messages: a message and the groups in it are a hundred deep at most
$ [run p f --frame delimited]
< \xc6\x01\x2b\x2b\x2b\x2b\x2b\x2b\x2b\x2b\x2b\x2b\x2b\x2b\x2b\x2b\x2b\x2b\x2b\x2b\x2b\x2b\x2b\x2b\x2b\x2b\x2b\x2b\x2b\x2b\x2b\x2b\x2b\x2b\x2b\x2b\x2b\x2b\x2b\x2b\x2b\x2b\x2b\x2b\x2b\x2b\x2b\x2b\x2b\x2b\x2b\x2b\x2b\x2b\x2b\x2b\x2b\x2b\x2b\x2b\x2b\x2b\x2b\x2b\x2b\x2b\x2b\x2b\x2b\x2b\x2b\x2b\x2b\x2b\x2b\x2b\x2b\x2b\x2b\x2b\x2b\x2b\x2b\x2b\x2b\x2b\x2b\x2b\x2b\x2b\x2b\x2b\x2b\x2b\x2b\x2b\x2b\x2b\x2b\x2b\x2b\x2c\x2c\x2c\x2c\x2c\x2c\x2c\x2c\x2c\x2c\x2c\x2c\x2c\x2c\x2c\x2c\x2c\x2c\x2c\x2c\x2c\x2c\x2c\x2c\x2c\x2c\x2c\x2c\x2c\x2c\x2c\x2c\x2c\x2c\x2c\x2c\x2c\x2c\x2c\x2c\x2c\x2c\x2c\x2c\x2c\x2c\x2c\x2c\x2c\x2c\x2c\x2c\x2c\x2c\x2c\x2c\x2c\x2c\x2c\x2c\x2c\x2c\x2c\x2c\x2c\x2c\x2c\x2c\x2c\x2c\x2c\x2c\x2c\x2c\x2c\x2c\x2c\x2c\x2c\x2c\x2c\x2c\x2c\x2c\x2c\x2c\x2c\x2c\x2c\x2c\x2c\x2c\x2c\x2c\x2c\x2c\x2c\x2c\x2c
type M = proto { a: int @ 1, b: array of int @ 2 };¶m: M = input;¶out: table collection of {a: int, b: array of int};¶emit out <- {m.a, m.b};¶ => 0 out[] = {0, {}}¶
< \xc8\x01\x2b\x2b\x2b\x2b\x2b\x2b\x2b\x2b\x2b\x2b\x2b\x2b\x2b\x2b\x2b\x2b\x2b\x2b\x2b\x2b\x2b\x2b\x2b\x2b\x2b\x2b\x2b\x2b\x2b\x2b\x2b\x2b\x2b\x2b\x2b\x2b\x2b\x2b\x2b\x2b\x2b\x2b\x2b\x2b\x2b\x2b\x2b\x2b\x2b\x2b\x2b\x2b\x2b\x2b\x2b\x2b\x2b\x2b\x2b\x2b\x2b\x2b\x2b\x2b\x2b\x2b\x2b\x2b\x2b\x2b\x2b\x2b\x2b\x2b\x2b\x2b\x2b\x2b\x2b\x2b\x2b\x2b\x2b\x2b\x2b\x2b\x2b\x2b\x2b\x2b\x2b\x2b\x2b\x2b\x2b\x2b\x2b\x2b\x2b\x2b\x2c\x2c\x2c\x2c\x2c\x2c\x2c\x2c\x2c\x2c\x2c\x2c\x2c\x2c\x2c\x2c\x2c\x2c\x2c\x2c\x2c\x2c\x2c\x2c\x2c\x2c\x2c\x2c\x2c\x2c\x2c\x2c\x2c\x2c\x2c\x2c\x2c\x2c\x2c\x2c\x2c\x2c\x2c\x2c\x2c\x2c\x2c\x2c\x2c\x2c\x2c\x2c\x2c\x2c\x2c\x2c\x2c\x2c\x2c\x2c\x2c\x2c\x2c\x2c\x2c\x2c\x2c\x2c\x2c\x2c\x2c\x2c\x2c\x2c\x2c\x2c\x2c\x2c\x2c\x2c\x2c\x2c\x2c\x2c\x2c\x2c\x2c\x2c\x2c\x2c\x2c\x2c\x2c\x2c\x2c\x2c\x2c\x2c\x2c\x2c
type M = proto { a: int @ 1, b: array of int @ 2 };¶m: M = input;¶out: table collection of {a: int, b: array of int};¶emit out <- {m.a, m.b};¶ => 0

== messages: values of proto types are tuples
< ¶
type M = proto {a: int @ 1, b: array of int @ 2}; t: table collection of M; m: M = {5, {6}}; m.a = 7; m.b[0] = 7; emit t <- m; => 0 t[] = {7, {7}}¶
type M = proto {a: int @ 1, b: int @ 2}; s: table sum of M; m: M = {5, 6}; emit s <- m; emit s <- {1, 1}; => 0 s[] = {6, 7}¶
type M = proto {a: int @ 1}; t: table collection of bool; m: M = {5}; emit t <- m == {5}; emit t <- m != {6}; => 0 t[] = true¶t[] = true¶
type M = proto {a: int @ 1}; t: table collection of int; emit t <- M(B"\x08\x07").a; emit t <- M(input).a; => 0 t[] = 0¶t[] = 7¶
type M = proto {a: int @ 1}; t: table sum[M] of int; emit t[{2}] <- 1; emit t[{1}] <- 1; => 0 t[{1}] = 1¶t[{2}] = 1¶
type M = proto {a: int @ 1}; t: table maximum(1) of M weight w: int; emit t <- {2} weight 1; emit t <- {3} weight 2; => 0 t[] = {3} weight 2¶
type M = proto {a: int @ 1}; t: table set(2) of x: array of M; emit t <- {{1}}; emit t <- {{1}}; => 0 t[] = {{1}}¶
f: function(m: proto {a: int @ 1}): int { return m.a; } t: table collection of int; emit t <- f({4}); => 0 t[] = 4¶
type M = proto {a: array of int @ 1}; t: table collection of int; m: M = B"\x0a\x02\x05\x06"; when (i: each int; m.a[i] > 5) emit t <- i; => 0 t[] = 1¶

== messages: what their types may not be
< ¶
x: proto {a: int @ 0}; => 2 ! program: bad proto field: a at 1:11
x: proto {a: int @ 1, a: int @ 2}; => 2 ! program: bad proto field: a at 1:23
x: proto {a: int @ 1, b: int @ 1}; => 2 ! program: bad proto field: b at 1:23
x: proto {a: int @ 536870911}; => 0
x: proto {a: int @ 536870912}; => 2 ! program: bad proto field: a at 1:11
x: proto {a: map[int] of int @ 1}; => 2 ! program: bad proto field: a at 1:11
x: proto {a: array of array of int @ 1}; => 2 ! program: bad proto field: a at 1:11
x: proto {a: {b: int} @ 1}; => 2 ! program: bad proto field: a at 1:11
x: proto {a: string @ 1 zigzag}; => 2 ! program: bad proto field: a at 1:11
x: proto {a: array of time @ 1 fixed64}; => 0
x: proto {a: proto {b: int @ 1, b: int @ 2} @ 1, a: int @ 2}; => 2 ! program: bad proto field: b at 1:33
type M = proto {a: int @ 1}; x: M = {}; => 2 ! program: wrong type at 1:37
type M = proto {a: int @ 1}; x: M = "a"; => 2 ! program: wrong type at 1:37
type M = proto {a: int @ 1}; y: M; x: int = y.b; => 2 ! program: no such field: b at 1:47
"#;
