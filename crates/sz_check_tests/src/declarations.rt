//! Tables, emits, types of messages and named types. In each line a program stands before `=>`, where `$` is the end of a line, and after it what
//! `check` says of it.

/// Each kind of table, with limits, indexes, elements and weights that it takes and that it doesn't.
pub const TABLES: &str = "t: table maximum of string weight int; => 17 at 1:10
t: table maximum(0) of string weight int; => 17 at 1:10
t: table maximum(1) of string weight int; => fine
t: table maximum(10000) of string weight int; => fine
t: table maximum(10001) of string weight int; => 17 at 1:10
t: table maximum(4294967297) of string weight int; => 17 at 1:10
t: table maximum(2)[string] of {a: int} weight w: time; => fine
t: table maximum(2) of string; => 17 at 1:10
t: table maximum(2) of string weight string; => 17 at 1:10
t: table minimum of string weight int; => 17 at 1:10
t: table minimum(0) of string weight int; => 17 at 1:10
t: table minimum(1) of string weight int; => fine
t: table minimum(10000) of string weight int; => fine
t: table minimum(10001) of string weight int; => 17 at 1:10
t: table minimum(4294967297) of string weight int; => 17 at 1:10
t: table minimum(2)[string] of {a: int} weight w: time; => fine
t: table minimum(2) of string; => 17 at 1:10
t: table minimum(2) of string weight string; => 17 at 1:10
t: table set of bytes; => 17 at 1:10
t: table set(0) of bytes; => 17 at 1:10
t: table set(1) of bytes; => fine
t: table set(1000000) of bytes; => fine
t: table set(1000001) of bytes; => 17 at 1:10
t: table set(3)[int][string] of map[int] of bool; => fine
t: table set(3) of int weight int; => 17 at 1:10
t: table collection of array of int; => fine
t: table collection[time][bytes] of bool; => fine
t: table collection(1) of int; => 17 at 1:10
t: table collection of int weight int; => 17 at 1:10
t: table sum of int; => fine
t: table sum of {a: int, b: int}; => fine
type M = proto { a: int @ 1, b: int @ 2 }; t: table sum of M; => fine
t: table sum(0) of int; => 17 at 1:10
t: table sum(1) of int; => 17 at 1:10
t: table sum of string; => 17 at 1:10
t: table sum of time; => 17 at 1:10
t: table sum of {a: int, b: string}; => 17 at 1:10
t: table sum of proto { a: int @ 1, b: bool @ 2 }; => 17 at 1:10
t: table sum of array of int; => 17 at 1:10
t: table sum of int weight int; => 17 at 1:10
t: table sample of int; => 16 at 1:10: sample
t: table weightedsample of int; => 16 at 1:10: weightedsample
t: table distinctsample of int; => 16 at 1:10: distinctsample
t: table quantile of int; => 16 at 1:10: quantile
t: table top of int; => 16 at 1:10: top
t: table unique of int; => 16 at 1:10: unique
t: table inversehistogram of int; => 16 at 1:10: inversehistogram
t: table text of int; => 16 at 1:10: text
t: table recordio of int; => 16 at 1:10: recordio
t: table mrcounter of int; => 16 at 1:10: mrcounter
t: table average of int; => 6 at 1:10: average
t: table float of int; => 6 at 1:10: float
t: table sum[T] of int; => 6 at 1:14: T
t: table sum of T; => 6 at 1:17: T
t: table maximum(1) of int weight T; => 6 at 1:35: T
t: table average[T] of U; => 6 at 1:10: average
type T = int; t: table sum of int weight T; => 17 at 1:24";

/// Emits into each kind of table.
pub const EMITS: &str = "t: table sum of int; emit t <- 1; => fine
t: table sum of {a: int, b: int}; emit t <- {1, 2}; => fine
t: table sum of {a: int, b: int}; emit t <- {1}; => 12 at 1:45
t: table sum of int; emit t <- \"a\"; => 9 at 1:32
t: table sum[int][string][bytes][time][bool] of int; emit t[1][\"a\"][B\"a\"][time(1)][true] <- 1; => fine
t: table sum[{a: int}][array of int] of int; emit t[{1}][{1, 2}] <- 1; => fine
t: table sum[int][string] of int; emit t[1] <- 1; => 12 at 1:40
t: table sum[int] of int; emit t[1][2] <- 1; => 12 at 1:32
t: table sum of int; emit t[1] <- 1; => 12 at 1:27
t: table sum[int] of int; emit t[\"a\"] <- 1; => 9 at 1:34
t: table maximum(1) of int weight int; emit t <- 1 weight 2; => fine
t: table minimum(1)[int] of string weight time; emit t[1] <- \"a\" weight time(1); => fine
t: table maximum(1) of int weight int; emit t <- 1; => 13 at 1:40
t: table minimum(1) of int weight int; emit t <- 1; => 13 at 1:40
t: table sum of int; emit t <- 1 weight 2; => 13 at 1:22
t: table set(1) of int; emit t <- 1 weight 2; => 13 at 1:25
t: table maximum(1) of int weight time; emit t <- 1 weight 2; => 9 at 1:60
t: table maximum(1) of int weight int; emit t <- \"a\"; => 9 at 1:50
t: table set(1) of array of int; emit t <- {}; => fine
t: table collection of map[int] of int; emit t <- {1: 2}; => fine
type M = proto { a: int @ 1 }; t: table collection of M; m: M = input; emit t <- m; emit t <- {1}; => fine
x: int; emit x <- 1; => 8 at 1:14: x
emit t <- 1; => 6 at 1:6: t";

/// Types of messages, with each encoding, and composites of them.
pub const PROTO_TYPES: &str =
    "type N = proto { x: bool @ 1 };$type M = proto { a: bool @ 1, b: int @ 2, c: time @ 3, d: string @ 4, e: bytes @ 5, f: N @ 6 }; => fine
type N = proto { x: bool @ 1 };$type M = proto { a: array of bool @ 1, b: array of int @ 2, c: array of time @ 3, d: array of string @ 4, e: array of bytes @ 5, f: array of N @ 6 }; => fine
type M = proto { a: int @ 1 zigzag, b: time @ 2 fixed32, c: array of int @ 3 fixed64, d: array of time @ 4 zigzag }; => fine
type T = int; type A = array of time; type M = proto { a: T @ 1 fixed64, b: A @ 2 fixed32 }; => fine
m: proto { a: int @ 536870911 }; => fine
m: proto { a: int @ 0 }; => 18 at 1:12: a
m: proto { a: int @ 536870912 }; => 18 at 1:12: a
m: proto { a: int @ 1, b: int @ 1 }; => 18 at 1:24: b
m: proto { a: int @ 1, a: int @ 2 }; => 18 at 1:24: a
m: {a: int, a: int}; => 18 at 1:13: a
m: proto { a: int @ 1 varint }; => 18 at 1:12: a
m: proto { a: string @ 1 zigzag }; => 18 at 1:12: a
m: proto { a: bool @ 1 fixed32 }; => 18 at 1:12: a
m: proto { a: array of bytes @ 1 fixed64 }; => 18 at 1:12: a
m: proto { a: {b: int} @ 1 }; => 18 at 1:12: a
m: proto { a: map[int] of int @ 1 }; => 18 at 1:12: a
m: proto { a: array of array of int @ 1 }; => 18 at 1:12: a
m: proto { a: array of map[int] of int @ 1 }; => 18 at 1:12: a
type A = array of int; m: proto { a: array of A @ 1 }; => 18 at 1:35: a
m: proto { a: T @ 1 }; => 6 at 1:15: T
type M = proto { a: int @ 1, b: array of int @ 2 }; m: M = {1, {2, 3}}; x: int = m.a; => fine
type N = proto { x: int @ 1 }; type M = proto { n: N @ 1 }; m: M = {{1}}; x: int = m.n.x; m.n.x = 2; => fine
type M = proto { a: int @ 1 }; m: M = {1, 2}; => 12 at 1:39
type M = proto { a: int @ 1 }; m: M = {\"a\"}; => 9 at 1:40
type M = proto { a: int @ 1 }; m: M = {}; => 9 at 1:39
type M = proto { a: int @ 1 }; m: M = {1: 2}; => 9 at 1:39
type M = proto { a: int @ 1 }; m: M = B\"a\"; n: M = M(input); k: M = M(m); => fine
type M = proto { a: int @ 1 }; m: M = \"a\"; => 9 at 1:39
type M = proto { a: int @ 1 }; m: M; t: {a: int} = m; => 9 at 1:52
type M = proto { a: int @ 1 }; m: M; x: int = m.b; => 11 at 1:49: b
type M = proto { a: int @ 1 }; m: M; m.b = 1; => 11 at 1:40: b
m: proto { a: int @ 1 }; n: proto { a: int @ 2 } = m; => 9 at 1:52
m: proto { a: int @ 1 }; n: proto { a: int @ 1 zigzag } = m; => 9 at 1:59
m: proto { a: int @ 1 }; n: proto { a: int @ 1 } = m; b: bool = m == n; => fine";

/// Named types: such as are made where they are declared, and maps of maps of maps, which aren't.
pub const NAMED_TYPES: &str =
    "type T = {a: int, b: array of string}; x: T; y: T = x; z: {a: int, b: array of string} = y; => fine
type T = {a: int}; type U = {a: string}; t: T; u: U = t; => 9 at 1:55
type T = {a: int}; type U = {t: T, ts: array of T, m: map[string] of T}; u: U; v: U = u; x: int = v.t.a + v.ts[0].a + v.m[\"x\"].a; => fine
type M = map[int] of int; type N = map[M] of M; type O = map[N] of N; type P = map[O] of O; type Q = map[P] of P; q: Q; p: P; r: P = q[p]; => fine
type M = map[int] of int; type N = map[M] of M; type O = map[N] of N; type P = map[O] of O; type Q = map[P] of P; q: Q; p: P; o: O = q[p]; => 9 at 1:134
type M = map[int] of int; type N = map[M] of M; type O = map[N] of N; type P = map[O] of O; type Q = map[P] of P; type T = {q: Q}; t: T; p: P; r: P = t.q[p]; => fine
type M = map[int] of int; type N = map[M] of M; type O = map[N] of N; type P = map[O] of O; type Q = map[P] of P; m: proto { q: Q @ 1 }; => 18 at 1:126: q
type M = proto { a: int @ 1 }; type L = array of M; m: proto { a: M @ 1, b: L @ 2 }; => fine
type M = proto { a: int @ 1 }; type L = array of M; m: proto { b: array of L @ 1 }; => 18 at 1:64: b
type L = array of array of int; m: proto { b: L @ 1 }; => 18 at 1:44: b
type T = {a: int}; m: proto { b: T @ 1 }; => 18 at 1:31: b";
