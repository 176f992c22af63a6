//! Whole programs, and each form of statement and of expression. In each line a program stands before `=>`, where `$` is the end of a line, and after it what `check` says of it.

/// Whole programs.
pub const PROGRAMS: &str =
    "count: table sum of int;$total: table sum of int;$sum_of_squares: table sum of int;$x: int = input;$emit count <- 1;$emit total <- x;$emit sum_of_squares <- x * x; => fine
c: table sum of int;$x: int = input;$if (x > 0) emit c <- 1; => fine
x: int = input;$while (x > 0) x = x - 1; => fine
best: table maximum(2) of string weight w: int;$s: string = input;$emit best <- s weight 5; => fine
s: table set(2) of string;$r: string = input;$emit s <- r; => fine
t: table collection of string;$s: string = input;$emit t <- s; => fine
at: table collection of {i: int, j: int};$a: array of int = {1, 2, 2};$b: array of int = {2};$when (i, j: some int; a[i] == b[j]) emit at <- {i, j}; => fine
c: table sum of int;$a: array of int = {};$b: array of int = {1, 2, 3};$when (i: all int; a[i] > 0) emit c <- 1; => fine
type M = proto { a: int @ 1, b: array of int @ 2 };$m: M = input;$out: table collection of {a: int, b: array of int};$emit out <- {m.a, m.b}; => fine
type Query = proto { country: string @ 1, at: time @ 2, text: string @ 3 };$q: Query = input;$hits: table sum[country: string][hour: int] of int;$emit hits[q.country][int(q.at) / 3600000000 % 24] <- 1; => fine
t: table collection of int;$s: string = input;$emit t <- len(s);$emit t <- s[1];$emit t <- strfind(\"b\", s);$emit t <- len(bytes(s));$emit t <- s[9]; => fine
t: table collection of int;$x: int = input;$emit t <- x / 2;$emit t <- x % 2;$emit t <- x / 0;$emit t <- x << 64; => fine
t: table collection of map[string] of int;$m: map[string] of int = {\"b\": 2, \"a\": 1, \"b\": 3};$m[\"c\"] = 4;$emit t <- m; => fine
f: function(n: int): int { return f(n + 1); }$x: int = f(0); => fine
a: array of int = {1};$a[1] = 5; => fine
type Query = proto { country: string @ 1, hour: int @ 2, micros: int @ 3 };$q: Query = input;$queries: table sum[country: string] of int;$slow: table maximum(3) of string weight micros: int;$hours: table set(24) of int;$emit queries[q.country] <- 1;$emit slow <- q.country weight q.micros;$emit hours <- q.hour; => fine
x: bool = 1; => 9 at 1:11
t: table quantile(101) of int; => 16 at 1:10: quantile";

/// Each form of statement, and the refusals that are its own.
pub const STATEMENTS: &str = "; => fine
{ x: int = 1; x = 2; } => fine
x: int; => fine
x: int = 1; => fine
x: string = 1; => fine
x := 1; => fine
x := {1}; => 10 at 1:6
x: int; x = 1; => fine
x: int; x++; x--; => fine
x: string; x++; => 9 at 1:12
x: time; x++; => fine
input++; => 14 at 1:1: input
a: array of array of int = {{1}}; a[0][0] = 1; => fine
m: map[string] of {a: int} = {\"x\": {1}}; m[\"x\"].a = 2; => fine
m: map[array of int] of int; m[{1}] = 2; => 10 at 1:32
s: string = \"ab\"; s[0] = 5; => 14 at 1:19: s
s: bytes = B\"ab\"; s[0] = 5; => 14 at 1:19: s
static s: int = 1; s = 2; => 14 at 1:20: s
input = B\"a\"; => 14 at 1:1: input
f: function(): int { input = B\"a\"; return 1; } => 6 at 1:22: input
x: int; x.a = 1; => 9 at 1:9
t: {a: int}; t.b = 1; => 11 at 1:16: b
x: int; x = \"a\"; => 9 at 1:13
f: function(): int { return 1; } f = 1; => 8 at 1:34: f
f: function(): int { return 1; } f(); => fine
type T = int; T(1); => fine
x: int; x(1); => 8 at 1:9: x
if (true) ; => fine
if (true) ; else ; => fine
x: int; if (true) x = 1; else x = 2; => fine
if (1) ; => 9 at 1:5
if (1) ; else ; => 9 at 1:5
if (true) ; else x = 1; => 6 at 1:18: x
if (1) ; else x = 1; => 6 at 1:15: x
while (true) break; => fine
while (true) continue; => fine
while (1) ; => 9 at 1:8
do break; while (true); => fine
do ; while (1); => 9 at 1:13
for (i: int = 0; i < 3; i++) ; => fine
for (i := 0; i < 3; i = i + 1) continue; => fine
for (;;) break; => fine
x: int; for (x = 0; x < 3; x++) ; => fine
f: function(): int { return 1; } for (f(); true; f()) break; => fine
for (i: int = 0; i; i++) ; => 9 at 1:18
break; => 15 at 1:1
continue; => 15 at 1:1
while (true) { f: int; } break; => 15 at 1:26
f: function(): int { break; } => 15 at 1:22
return; => fine
return 1; => 15 at 1:1
f: function(): int { return; } => 15 at 1:22
f: function(): int { return \"a\"; } => 9 at 1:29
f: function(): array of int { return {1}; } => fine
{ static s: int = 1; } => 15 at 1:3
{ type T = int; } => 15 at 1:3
{ t: table sum of int; } => 15 at 1:3
{ f: function(): int { return 1; } } => 15 at 1:3
static s: int = 1; static t: string = s; => fine
static s: int = input; => 6 at 1:17: input
c: table sum of int; f: function(): int { emit c <- 1; return 1; } f(); => fine
c: table sum of int; f: function(): int { emit c <- 1; return 1; } static s: int = f(); => 22 at 1:84
c: table sum of int; f: function(): int { emit c <- 1; return 1; } g: function(): int { return f(); } static s: int = g(); => 22 at 1:119
f: function(): int { return 1; } static s: int = f(); => fine
type T = int; x: int = 1; x: int = 2; => 7 at 1:27: x
x: int; x: table sum of int; => 7 at 1:9: x
type T = int; type T = int; => 7 at 1:20: T
x: int; static x: int = 1; => 7 at 1:16: x
x: int; x: function(): int { return 1; } => 7 at 1:9: x
f: function(a: int, a: int): int { return 1; } => 7 at 1:21: a
x: int; x := 1; => 7 at 1:9: x
x: int; y: x; => 8 at 1:12: x
when (i: some int; i > 0) ; => 19 at 1:7: i";

/// Each form of expression, and the refusals that are its own.
pub const EXPRESSIONS: &str =
    "x: int = 1; s: string = \"a\"; b: bytes = B\"a\"; c: int = 'a'; t: bool = true; => fine
x: bytes = input; => fine
static s: int = 1; x: int = s; => fine
x: int = (1); => fine
x: bool = (1); => 9 at 1:11
x: int = -1; y: int = +x; z: int = ~x; b: bool = !true; => fine
x: int = -\"a\"; => 9 at 1:11
b: bool = !1; => 9 at 1:12
x: int = 1 + 2 - 3 * 4 / 5 % 6 & 7 | 8 ^ 9 << 1 >> 2; => fine
t: time = time(1) + 1 - 2; d: int = t - t; => fine
s: string = \"a\" + \"b\"; b: bytes = B\"a\" + B\"b\"; a: array of int = {1}; c: array of int = a + {2}; => fine
x: int = true + 1; => 9 at 1:10
x: int = 1 + true; => 9 at 1:14
x: int = true + {1}; => 9 at 1:17
a: array of int; b: array of int = {1} + a; => 10 at 1:36
b: bool = 1 == 2 && 1 != 2 || 1 < 2; => fine
b: bool = \"a\" <= \"b\" || B\"a\" > B\"b\" && time(1) >= time(2); => fine
b: bool = true < false; => 9 at 1:11
b: bool = true == false; => fine
b: bool = 1 == \"a\"; => 9 at 1:16
t: {a: int, b: string}; b: bool = t == {1, \"a\"}; => fine
b: bool = 1 && true; => 9 at 1:11
b: bool = true || 1; => 9 at 1:19
a: array of int; x: int = a[0]; s: string; y: int = s[0]; b: bytes; z: int = b[0]; m: map[string] of int; w: int = m[\"a\"]; => fine
x: int = 1[0]; => 9 at 1:10
a: array of int; x: int = a[\"a\"]; => 9 at 1:29
m: map[array of int] of int; x: int = m[{1}]; => 10 at 1:41
x: int = {1}[0]; => 10 at 1:10
a: array of int; b: array of int = a[0:1]; s: string = \"abc\"[0:1]; c: bytes = B\"abc\"[0:1]; => fine
m: map[int] of int; n: map[int] of int = m[0:1]; => 9 at 1:42
s: string = \"abc\"[true:1]; => 9 at 1:19
s: string = \"abc\"[0:true]; => 9 at 1:21
a: array of int = {1}[0:1]; => 10 at 1:19
t: {a: int, b: string}; x: int = t.a; s: string = t.b; => fine
t: {a: int}; x: int = t.b; => 11 at 1:25: b
x: int; y: int = x.a; => 9 at 1:18
f: function(n: int, s: string): string { return s; } s: string = f(1, \"a\"); => fine
f: function(n: int): int { return n; } x: int = f(\"a\"); => 9 at 1:51
f: function(n: int): int { return n; } x: int = f(); => 12 at 1:49
f: function(n: int): int { return n; } x: int = f(1, 2); => 12 at 1:49
f: function(a: array of int): int { return a[0]; } x: int = f({1}); => fine
m: map[string] of int; x: int = len(m) + len(\"a\") + len(B\"a\"); k: array of string = keys(m); b: bool = haskey(m, \"a\"); => fine
x: int = strfind(\"a\", \"b\") + strfind(B\"a\", B\"b\"); => fine
x: int = len(1); => 9 at 1:14
x: int = len(); => 12 at 1:10
x: int = len(\"a\", \"b\"); => 12 at 1:10
x: int = len(1, 2); => 9 at 1:14
x: int = len({1}); => 10 at 1:14
k: array of int = keys(\"a\"); => 9 at 1:24
m: map[string] of int; b: bool = haskey(m, 1); => 9 at 1:44
m: map[string] of int; b: bool = haskey(m); => 12 at 1:34
x: int = strfind(1, \"a\"); => 9 at 1:18
x: int = strfind(\"a\", B\"a\"); => 9 at 1:23
b: bool = def(1); => fine
b: bool = def({1}); => 10 at 1:15
b: bool = def(({1})); => 10 at 1:16
s: string = string(1); x: int = int(\"1\"); b: bytes = bytes(\"a\"); t: time = time(1); => fine
x: int = int({1}); => 10 at 1:14
b: bytes = bytes(1); => 9 at 1:18
type A = array of int; a: A = {1}; b: A = A(a); => fine
type A = array of int; a: A = A({1}); => 10 at 1:33
type T = int; x: int = T(); => 12 at 1:24
type T = int; x: int = T(1, 2); => 12 at 1:24
type B = bool; b: bool = B(1); => 9 at 1:28
a: array of int = {}; b: array of int = {1, 2}; t: {a: int, b: string} = {1, \"a\"}; m: map[int] of string = {:}; n: map[int] of string = {1: \"a\"}; => fine
a: array of {a: int} = {{1}, {2}}; m: map[int] of array of int = {1: {1}, 2: {}}; => fine
a: array of int = {1, \"a\"}; => 9 at 1:23
t: {a: int, b: string} = {1}; => 12 at 1:26
t: {a: int} = {\"a\"}; => 9 at 1:16
t: {a: int} = {}; => 9 at 1:15
m: map[int] of int = {1}; => 9 at 1:22
a: array of int = {1: 2}; => 9 at 1:19
m: map[int] of string = {\"a\": \"a\"}; => 9 at 1:26
m: map[int] of string = {1: 1}; => 9 at 1:29
x: int = {1}; => 9 at 1:10
x: int = y; => 6 at 1:10: y
x: int = match(1); => 16 at 1:10: match
x: float; => 16 at 1:4: float
type T = int; x: int = T; => 8 at 1:24: T";
