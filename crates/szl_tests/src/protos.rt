//! Runs by example: types of a `.proto` file. The lines are as in `runs.rt`.

/// The runs.
pub const RUNS: &str = r#"== the messages of a file are types of the program
$ [run p f --frame delimited --proto q]
% syntax = "proto3"; message Q { string country = 1; message P { sint64 d = 1; double x = 2; } repeated P type = 2; oneof o { int32 k = 3; } }
< \x06\x12\x02\x08\x03\x18\x07
q: Q = input; c: table sum of int; emit c <- q.type_[0].d; => 0 c[] = -2¶
$ [check p --proto q] => 0
$ [check p] => 2 ! program: unknown name: Q at 1:4
$ [check --proto=q -- p] => 0
% message N { N next = 1; int64 v = 2; }
$ [run p f --frame delimited --proto q]
< \x06\x0a\x02\x10\x05\x10\x07
n: N = input; t: table collection of N; emit t <- n; => 0 t[] = {7}¶
n: N = input; x: int = n.next; => 2 ! program: no such field: next at 1:26

== fields of each kind are decoded as the file says, and what isn't kept is passed over
$ [run p f --frame delimited --proto q]
% message M { sint64 a = 1; fixed32 b = 2; message N { int32 c = 1; } N n = 3; repeated N m = 4; oneof o { int32 k = 5; } sfixed64 z = 6; bool t = 7; bytes y = 8; }
< \x24\x08\x03\x15\xff\xff\xff\xff\x1a\x02\x08\x05\x22\x02\x08\x01\x22\x02\x08\x02\x28\x07\x31\xfd\xff\xff\xff\xff\xff\xff\xff\x38\x01\x42\x02\x78\xff
t: table collection of M; m: M = input; emit t <- m; => 0 t[] = {-2, -1, {5}, {{1}, {2}}, -3, true, B"x\xff"}¶
< \x00
t: table collection of M; m: M = input; emit t <- m; => 0 t[] = {0, 0, {0}, {}, 0, false, B""}¶
< \x01\x08
t: table collection of bool; m: M = input; emit t <- def(m); => 0 t[] = false¶
% message M { repeated sint32 a = 1; repeated sfixed32 b = 2; enum E { X = 0; Y = 1; } repeated E e = 3; uint64 u = 4; string s = 5; }
< \x1f\x0a\x02\x03\x02\x12\x04\xfe\xff\xff\xff\x18\x01\x1a\x01\x00\x20\xff\xff\xff\xff\xff\xff\xff\xff\xff\x01\x2a\x00\x2a\x01\x61
t: table collection of M; m: M = input; emit t <- m; => 0 t[] = {{-2, 1}, {-2}, {1, 0}, -1, "a"}¶
% message M { double x = 1; float y = 2; map<string, int32> m = 3; group G = 4 { int32 a = 1; } }
< \x09\x09\x00\x00\x00\x00\x00\x00\x00\x40
t: table collection of M; m: M = input; emit t <- m; => 0 t[] = {}¶

== tables of a message, and workers
$ [run p f --frame delimited --proto q]
% message M { int32 a = 1; sint32 b = 2; }
< \x04\x08\x01\x10\x02\x04\x08\x02\x10\x01
t: table sum of M; m: M = input; emit t <- m; => 0 t[] = {3, 0}¶
t: table sum[M] of int; m: M = input; emit t[m] <- 1; => 0 t[{1, 1}] = 1¶t[{2, -1}] = 1¶
t: table maximum(1) of M weight w: int; m: M = input; emit t <- m weight m.a; => 0 t[] = {2, -1} weight 2¶
t: table set(5) of x: array of M; m: M = input; emit t <- {m, m}; => 0 t[] = {{1, 1}, {1, 1}}¶t[] = {{2, -1}, {2, -1}}¶
f: function(m: M): int { return m.a; } t: table sum of int; m: M = input; emit t <- f(m); => 0 t[] = 3¶
$ [run p f --frame delimited --proto q --shard 1 --workers 1] => 0 t[] = 3¶
$ [run p f --frame delimited --proto q --shard 1 --workers 2] => 0 t[] = 3¶
$ [run p f --frame delimited --proto q --shard 1 --workers 3] => 0 t[] = 3¶
$ [run p f --frame delimited --proto q --shard 1 --workers 8 --twice 0,1 --kill 0.0.1] => 0 t[] = 3¶

== the program's own names hide those of the file, and those hide the names of the language
$ [run p f --proto q]
% message M { int32 a = 1; } message input { string s = 1; }
< 1¶
type M = {b: bool}; t: table collection of M; m: M = {true}; emit t <- m; => 0 t[] = {true}¶
M: int = 5; t: table sum of int; emit t <- M; => 0 t[] = 5¶
M: table sum of int; emit M <- 1; => 0 M[] = 1¶
x: string = input; => 2 ! program: wrong kind of name: input at 1:13
type input = int; x: input = 1; t: table sum of int; emit t <- x; => 0 t[] = 1¶
{ type M = int; m: M = 1; } => 2 ! program: misplaced statement at 1:3
x: int = M; => 2 ! program: wrong kind of name: M at 1:10
type A = M; x: A; y: int = x.b; => 2 ! program: no such field: b at 1:30

== a file that is refused, each time for its first cause
$ [run p f --proto q]
% enum
x: int = 1; => 13 ! proto file: syntax at 1:1
$ [check p --proto q] => 13 ! proto file: syntax at 1:1
% import "x"; message A { x.B b = 1; }
$ [check p --proto q] => 13 ! proto file: unknown type: x.B at 1:25
% message A { B b = 1; }
$ [check p --proto q] => 13 ! proto file: unknown type: B at 1:13
% message A { B b = 1; } message A { message B { } }
$ [check p --proto q] => 13 ! proto file: unknown type: B at 1:13
% message A { }¶message A { }
$ [check p --proto q] => 13 ! proto file: declared twice: A at 2:9
% message A { int32 type = 1; int32 type_ = 2; }
$ [check p --proto q] => 13 ! proto file: declared twice: type_ at 1:35
% message A { int32 b = 0; }
$ [check p --proto q] => 13 ! proto file: bad field number: b at 1:19
% message A { int32 b = 1; int32 c = 1; }
$ [check p --proto q] => 13 ! proto file: bad field number: c at 1:32
% message A { string s = 1; } "
$ [check p --proto q] => 13 ! proto file: syntax at 1:29
% edition = "2023"; message A { }
$ [check p --proto q] => 13 ! proto file: syntax at 1:1
% message A0 { int32 a = 1; } message A1 { A0 a = 1; A0 b = 2; } message A2 { A1 a = 1; A1 b = 2; } message A3 { A2 a = 1; A2 b = 2; } message A4 { A3 a = 1; A3 b = 2; } message A5 { A4 a = 1; A4 b = 2; } message A6 { A5 a = 1; A5 b = 2; } message A7 { A6 a = 1; A6 b = 2; } message A8 { A7 a = 1; A7 b = 2; } message A9 { A8 a = 1; A8 b = 2; } message A10 { A9 a = 1; A9 b = 2; } message A11 { A10 a = 1; A10 b = 2; } message A12 { A11 a = 1; A11 b = 2; } message A13 { A12 a = 1; A12 b = 2; } message A14 { A13 a = 1; A13 b = 2; }
$ [check p --proto q] => 0
% message A0 { int32 a = 1; } message A1 { A0 a = 1; A0 b = 2; } message A2 { A1 a = 1; A1 b = 2; } message A3 { A2 a = 1; A2 b = 2; } message A4 { A3 a = 1; A3 b = 2; } message A5 { A4 a = 1; A4 b = 2; } message A6 { A5 a = 1; A5 b = 2; } message A7 { A6 a = 1; A6 b = 2; } message A8 { A7 a = 1; A7 b = 2; } message A9 { A8 a = 1; A8 b = 2; } message A10 { A9 a = 1; A9 b = 2; } message A11 { A10 a = 1; A10 b = 2; } message A12 { A11 a = 1; A11 b = 2; } message A13 { A12 a = 1; A12 b = 2; } message A14 { A13 a = 1; A13 b = 2; } message A15 { A14 a = 1; A14 b = 2; }
$ [check p --proto q] => 13 ! proto file: too many fields at 1:1

== the file comes behind the words, and before the program and the input
$ [run p f --proto q]
% enum
a ? b => 13 ! proto file: syntax at 1:1
$ [run nobody f --proto q] => 13 ! proto file: syntax at 1:1
$ [run p nobody --proto q] => 13 ! proto file: syntax at 1:1
$ [check nobody --proto q] => 13 ! proto file: syntax at 1:1
$ [run p f --proto q --workers 0] => 1 ! bad command line
$ [run p f --proto nobody] => 5 ! read failed
$ [check p --proto nobody] => 5 ! read failed
! q 0
$ [run p f --proto q] => 5 ! read failed
! q 1
$ [run p f --proto q] => 5 ! read failed
! q 0
$ [run p f] => 2 ! program: bad character at 1:3
! none
% message A { int32 a = 1; }
$ [run p f --proto q]
a ? b => 2 ! program: bad character at 1:3
$ [run nobody f --proto q] => 5 ! read failed
$ [run p nobody --proto q] => 2 ! program: bad character at 1:3
x: int = 1; => 5 ! read failed
f: function(n: int): int { return f(n); }¶static s: int = f(0); => 3 ! record 0: calls too deep at 1:35
! p 0
$ [run p f --proto q] => 5 ! read failed
$ [check p --proto q] => 5 ! read failed

== which words ask for a file
$ [run p f --proto q]
x: int = 1; => 0
$ [run p f --proto] => 1 ! bad command line
$ [run p f --proto=] => 1 ! bad command line
$ [run p f --proto q --proto q] => 1 ! bad command line
$ [run p f --proto -] => 1 ! bad command line
$ [run - f --proto=-] => 1 ! bad command line
$ [run p - --proto=-] => 1 ! bad command line
$ [check - --proto=-] => 1 ! bad command line
$ [selftest 1 1 1 --proto q] => 1 ! bad command line
$ [merge f --proto q] => 1 ! bad command line
! - 0
$ [run p f --proto=-] => 5 ! read failed
$ [check p --proto=-] => 5 ! read failed
"#;
