//! Checks by example: the first refusal of a program. The lines are as in `runs.rt`.

/// The runs.
pub const RUNS: &str = r#"== check: unknown names
$ [check p]
x: int = y; => 2 ! program: unknown name: y at 1:10
y: int = 1; x: int = y; => 0
x: int = x; => 2 ! program: unknown name: x at 1:10
{ y: int = 1; } x: int = y; => 2 ! program: unknown name: y at 1:26
{ y: int = 1; x: int = y; } => 0
f(1); => 2 ! program: unknown name: f at 1:1
emit c <- 1; => 2 ! program: unknown name: c at 1:6
y = 1; => 2 ! program: unknown name: y at 1:1
x: T; => 2 ! program: unknown name: T at 1:4
type A = array of A; => 2 ! program: unknown name: A at 1:19
type A = int; type B = array of A; => 0
if (true) y: int = 1; else y = 2; => 2 ! program: unknown name: y at 1:28
for (i: int = 0; i < 3; i++) ; i = 1; => 2 ! program: unknown name: i at 1:32
f: function(n: int): int { return x; } => 2 ! program: unknown name: x at 1:35
x: int = 1; f: function(n: int): int { return x; } => 2 ! program: unknown name: x at 1:47
static s: int = 1; f: function(n: int): int { return s; } => 0
f: function(n: int): bytes { return input; } => 2 ! program: unknown name: input at 1:37
f: function(n: int): int { return f(n); } => 0
static s: bytes = input; => 2 ! program: unknown name: input at 1:19
x: int = 1; static s: int = x; => 2 ! program: unknown name: x at 1:29
static a: int = 1; static b: int = a; => 0
static s: int = g(1); => 2 ! program: unknown name: g at 1:17
c: table sum of int; static s: int = c; => 2 ! program: unknown name: c at 1:38
len: int = 5; static s: int = len("ab"); => 0
keys: int = 1; f: function(m: map[int] of int): array of int { return keys(m); } => 0
f: function(t: int, x: T): int { return x; } => 2 ! program: unknown name: T at 1:24

== check: left out names
$ [check p]
x: float; => 2 ! program: not in this profile: float at 1:4
x: int = match("a", "b"); => 2 ! program: not in this profile: match at 1:10
x: int = fingerprint(1); => 2 ! program: not in this profile: fingerprint at 1:10
x: int = fingerprintof(1); => 2 ! program: not in this profile: fingerprintof at 1:10
float: int = 1; x: int = float; => 0
type match = int; x: match = 1; => 0

== check: names declared twice
$ [check p]
x: int = 1;¶x: int = 2; => 2 ! program: declared twice: x at 2:1
x: int; { x: int; } => 0
type A = int; A: int; => 2 ! program: declared twice: A at 1:15
f: function(a: int, a: int): int { return 1; } => 2 ! program: declared twice: a at 1:21
f: function(a: int): int { a: int = 1; return a; } => 2 ! program: declared twice: a at 1:28
f: function(a: int): int { { a: int = 1; } return a; } => 0
f: function(f: int): int { return f; } => 0
f: function(): int { return 1; } f: int; => 2 ! program: declared twice: f at 1:34
for (i: int = 0; i < 3; i++) { i: int = 1; } => 0
for (i: int = 0; i < 3; i++) i: int = 1; => 0
if (true) x: int; x: int; => 0
input: int = 1; => 0
len: int = 1; len: int = 2; => 2 ! program: declared twice: len at 1:15
static s: int = 1; s: int; => 2 ! program: declared twice: s at 1:20
c: table sum of int; c: table sum of int; => 2 ! program: declared twice: c at 1:22

== check: names of a wrong kind
$ [check p]
type A = int; x: int = A; => 2 ! program: wrong kind of name: A at 1:24
type A = int; x: A = 1; => 0
x: int = 1; y: x; => 2 ! program: wrong kind of name: x at 1:16
x: int = 1; x(2); => 2 ! program: wrong kind of name: x at 1:13
x: int = 1; emit x <- 1; => 2 ! program: wrong kind of name: x at 1:18
c: table sum of int; x: int = c; => 2 ! program: wrong kind of name: c at 1:31
c: table sum of int; c = 1; => 2 ! program: wrong kind of name: c at 1:22
c: table sum of int; emit c <- 1; => 0
f: function(): int { return 1; } x: int = f; => 2 ! program: wrong kind of name: f at 1:43
f: function(): int { return 1; } x: int = f(); => 0
x: int = len; => 2 ! program: wrong kind of name: len at 1:10
type A = int; A = 1; => 2 ! program: wrong kind of name: A at 1:15
input(1); => 2 ! program: wrong kind of name: input at 1:1
f: function(T: int, x: T): int { return x; } => 2 ! program: wrong kind of name: T at 1:24
f: function(T: int): T { return 1; } => 2 ! program: wrong kind of name: T at 1:22
type T = int; f: function(T: int): T { return 1; } => 2 ! program: wrong kind of name: T at 1:36

== check: wrong types
$ [check p]
x: bool = 1; => 2 ! program: wrong type at 1:11
x: bool = true; => 0
x: int = true; => 0
x: bool = (1); => 2 ! program: wrong type at 1:11
if (1) ; => 2 ! program: wrong type at 1:5
if (true) ; => 0
while ("a") ; => 2 ! program: wrong type at 1:8
do ; while (1); => 2 ! program: wrong type at 1:13
for (; 1; ) ; => 2 ! program: wrong type at 1:8
for (;;) ; => 0
f: function(a: int): int { return "x"; } => 2 ! program: wrong type at 1:35
f: function(a: int): int { return true; } => 2 ! program: wrong type at 1:35
x: int = 1; x = "a"; => 2 ! program: wrong type at 1:17
x: int = 1; x = true; => 2 ! program: wrong type at 1:17
x: bool = true; x++; => 2 ! program: wrong type at 1:17
x: time = time(1); x++; => 0
c: table sum of int; emit c <- "a"; => 2 ! program: wrong type at 1:32
f: function(a: int): int { return a; } x: int = f(true); => 2 ! program: wrong type at 1:51
a: array of int = {1, "b"}; => 2 ! program: wrong type at 1:23
m: map[string] of int = {1: 2}; => 2 ! program: wrong type at 1:26
m: map[string] of int = {"a": "b"}; => 2 ! program: wrong type at 1:31
a: array of int = {:}; => 2 ! program: wrong type at 1:19
m: map[string] of int = {}; => 2 ! program: wrong type at 1:25
x: int = {1}; => 2 ! program: wrong type at 1:10
t: {a: int} = {}; => 2 ! program: wrong type at 1:15
t: {a: int, b: int} = {1, 2}; u: {a: int, c: int} = t; => 2 ! program: wrong type at 1:53
t: {a: int, b: int} = {1, 2}; u: {a: int, b: int} = t; => 0
x: int = 1; y: int = x.f; => 2 ! program: wrong type at 1:22
x: int = 1; x.f = 2; => 2 ! program: wrong type at 1:13
x: int = 1; x[0] = 2; => 2 ! program: wrong type at 1:13

== check: composites without a type
$ [check p]
x := {1}; => 2 ! program: composite without a type at 1:6
x: array of int = {1}; => 0
x: array of int = ({1}); => 0
if ({1} == {1}) ; => 2 ! program: composite without a type at 1:5
x: array of int = {1}; b: bool = x == {2}; => 0
x: array of int = {1}; y: array of int = x + {2}; => 0
x: array of int = {1} + {2}; => 2 ! program: composite without a type at 1:19
x: int = len({1}); => 2 ! program: composite without a type at 1:14
x := {:}; => 2 ! program: composite without a type at 1:6
m: map[int] of array of int = {1: {2}}; => 0
f: function(a: array of int): int { return a[0]; } x: int = f({1}); => 0
f: function(): array of int { return {1}; } => 0
a: array of int = {1}; a = {2}; => 0
type A = array of int; x := A({1}); => 2 ! program: composite without a type at 1:31

== check: wrong counts
$ [check p]
x: int = len("a", "b"); => 2 ! program: wrong count at 1:10
x: int = len("a"); => 0
x: int = len(); => 2 ! program: wrong count at 1:10
x: int = strfind("a"); => 2 ! program: wrong count at 1:10
f: function(a: int): int { return a; } x: int = f(1, 2); => 2 ! program: wrong count at 1:49
f: function(a: int): int { return a; } x: int = f(); => 2 ! program: wrong count at 1:49
f: function(a: int): int { return a; } x: int = f(1); => 0
t: {a: int, b: int} = {1}; => 2 ! program: wrong count at 1:23
t: {a: int, b: int} = {1, 2, 3}; => 2 ! program: wrong count at 1:23
t: {a: int, b: int} = {1, 2}; => 0
c: table sum of int; emit c[1] <- 2; => 2 ! program: wrong count at 1:27
type A = string; x: A = A(1, 2); => 2 ! program: wrong count at 1:25
type A = string; x: A = A(); => 2 ! program: wrong count at 1:25

== check: wrong weights
$ [check p]
c: table sum of int; emit c <- 1 weight 2; => 2 ! program: wrong weight at 1:22
c: table sum of int; emit c <- 1; => 0

== check: not assignable
$ [check p]
input = B"a"; => 2 ! program: not assignable: input at 1:1
input = 5; => 2 ! program: not assignable: input at 1:1
input++; => 2 ! program: not assignable: input at 1:1
static s: int = 1; s = 2; => 2 ! program: not assignable: s at 1:20
static s: int = 1; s--; => 2 ! program: not assignable: s at 1:20
s: string = "ab"; s[0] = 1; => 2 ! program: not assignable: s at 1:19
b: bytes = B"ab"; b[0] = 1; => 2 ! program: not assignable: b at 1:19
a: array of int = {1}; a[0] = 2; => 0
m: map[string] of int = {:}; m["a"] = 2; => 0
a: array of string = {"a"}; a[0] = "b"; => 0
a: array of string = {"a"}; a[0][0] = 1; => 2 ! program: not assignable: a at 1:29

== check: misplaced statements
$ [check p]
break; => 2 ! program: misplaced statement at 1:1
continue; => 2 ! program: misplaced statement at 1:1
while (true) break; => 0
do { continue; } while (true); => 0
for (;;) { if (true) break; } => 0
if (true) break; => 2 ! program: misplaced statement at 1:11
return 1; => 2 ! program: misplaced statement at 1:1
return; => 0
f: function(): int { return; } => 2 ! program: misplaced statement at 1:22
f: function(): int { while (true) break; return 1; } => 0
f: function(): int { break; return 1; } => 2 ! program: misplaced statement at 1:22
{ type A = int; } => 2 ! program: misplaced statement at 1:3
{ static s: int = 1; } => 2 ! program: misplaced statement at 1:3
{ c: table sum of int; } => 2 ! program: misplaced statement at 1:3
{ f: function(): int { return 1; } } => 2 ! program: misplaced statement at 1:3
f: function(): int { static s: int = y; return 1; } => 2 ! program: misplaced statement at 1:22
while (true) type A = int; => 2 ! program: misplaced statement at 1:14

== check: bad fields
$ [check p]
t: {a: int, a: int}; => 2 ! program: bad proto field: a at 1:13
t: {a: int, b: int}; => 0
type T = {a: int, b: {b: int, b: int}}; => 2 ! program: bad proto field: b at 1:31
t: {a: int, a: x}; => 2 ! program: unknown name: x at 1:16

== check: when and proto types
$ [check p]
when (i: some int; true) ; => 2 ! program: unbounded variable: i at 1:7
x: int; { when (i: some int; true) ; } => 2 ! program: unbounded variable: i at 1:17
x: bool = 1; y: proto {a: int @ 1}; => 2 ! program: wrong type at 1:11
f: function(m: proto {a: int @ 1}): int { return 1; } => 0
t: table quantile(101) of int; when (i: some int; true) ; => 2 ! program: not in this profile: quantile at 1:10
type M = array of proto {a: int @ 1}; => 0
if (true) x: map[int] of proto {a: int @ 1}; => 0
a: array of int; when (i: some int; a[i] > 0) ; => 0
when (i: some int; y[i]) x = 1; => 2 ! program: unknown name: y at 1:20
a: array of int; when (i: some int; a[i]) x = 1; => 2 ! program: unknown name: x at 1:43
x: bool = 1; y: int = => 2 ! program: syntax at 1:14

== check: two mistakes
$ [check p]
x: int = y + z; => 2 ! program: unknown name: y at 1:10
x: int; x: int = y; => 2 ! program: unknown name: y at 1:18
x: T = y; => 2 ! program: unknown name: T at 1:4
f(y); => 2 ! program: unknown name: f at 1:1
if (1) x = 1; => 2 ! program: unknown name: x at 1:8
while (1) x = 1; => 2 ! program: unknown name: x at 1:11
do x = 1; while (1); => 2 ! program: unknown name: x at 1:4
for (; 1; y++) x = 1; => 2 ! program: unknown name: y at 1:11
x: int = len(1, 2); => 2 ! program: wrong type at 1:14
x: int = 1 + y + "a"; => 2 ! program: unknown name: y at 1:14
x: bool = true + 1; => 2 ! program: wrong type at 1:11
x: bool = true + {1}; => 2 ! program: wrong type at 1:18
a: {b: int} = {1}; a.no[y] = 1; => 2 ! program: no such field: no at 1:22
a: array of int = {1}; a[y] = z; => 2 ! program: unknown name: y at 1:26
input = y; => 2 ! program: not assignable: input at 1:1
c: table sum of int; emit c[y] <- z; => 2 ! program: unknown name: y at 1:29
c: table sum of int; emit c[1] <- true; => 2 ! program: wrong type at 1:35
c: table sum of int; emit c[1] <- 2 weight 3; => 2 ! program: wrong count at 1:27
emit c <- y; => 2 ! program: unknown name: c at 1:6
f: function(a: A): B { return y; } => 2 ! program: unknown name: A at 1:16
f: function(a: int): B { return y; } => 2 ! program: unknown name: B at 1:22
f: int; f: function(): int { return y; } => 2 ! program: declared twice: f at 1:9
t: {a: int} = {"x", 2}; => 2 ! program: wrong type at 1:16
x: int = y;¶z: int = w; => 2 ! program: unknown name: y at 1:10
{ break; x = 1; } => 2 ! program: misplaced statement at 1:3

== check: type rows
$ [check p]
x: int = -1; => 0
x: int = -true; => 2 ! program: wrong type at 1:11
x: int = +1; => 0
x: int = +"a"; => 2 ! program: wrong type at 1:11
x: int = ~1; => 0
x: int = ~true; => 2 ! program: wrong type at 1:11
x: bool = !true; => 0
x: bool = !1; => 2 ! program: wrong type at 1:12
x: bool = true && false; => 0
x: bool = 1 && true; => 2 ! program: wrong type at 1:11
x: bool = true && 1; => 2 ! program: wrong type at 1:19
x: bool = true || false; => 0
x: bool = 1 || true; => 2 ! program: wrong type at 1:11
x: bool = true || 1; => 2 ! program: wrong type at 1:19
x: int = 1 + 2; => 0
x: int = 1 + true; => 2 ! program: wrong type at 1:14
x: time = time(1) + 2; => 0
x: time = time(1) + time(2); => 2 ! program: wrong type at 1:21
x: string = "a" + "b"; => 0
x: string = "a" + B"b"; => 2 ! program: wrong type at 1:19
x: bytes = B"a" + B"b"; => 0
x: bytes = B"a" + 1; => 2 ! program: wrong type at 1:19
x: bool = true + true; => 2 ! program: wrong type at 1:11
x: int = 1 - 2; => 0
x: time = time(1) - 2; => 0
x: int = time(1) - time(2); => 0
x: int = 1 - time(2); => 2 ! program: wrong type at 1:14
x: string = "a" - "b"; => 2 ! program: wrong type at 1:13
x: int = 1 * 2 / 3 % 4; => 0
x: int = "a" * 2; => 2 ! program: wrong type at 1:10
x: int = 1 * "a"; => 2 ! program: wrong type at 1:14
x: int = 1 / true; => 2 ! program: wrong type at 1:14
x: int = true % 1; => 2 ! program: wrong type at 1:10
x: int = 1 & 2 | 3 ^ 4; => 0
x: int = 1 & true; => 2 ! program: wrong type at 1:14
x: int = true | 1; => 2 ! program: wrong type at 1:10
x: int = 1 ^ "a"; => 2 ! program: wrong type at 1:14
x: int = 1 << 2 >> 3; => 0
x: int = 1 << time(1); => 2 ! program: wrong type at 1:15
x: int = time(1) >> 1; => 2 ! program: wrong type at 1:10
x: bool = 1 == 2; => 0
x: bool = 1 == "a"; => 2 ! program: wrong type at 1:16
x: bool = true != false; => 0
x: bool = B"a" != "a"; => 2 ! program: wrong type at 1:19
x: bool = 1 < 2; => 0
x: bool = time(1) <= time(2); => 0
x: bool = "a" > "b"; => 0
x: bool = B"a" >= B"b"; => 0
x: bool = true < false; => 2 ! program: wrong type at 1:11
x: bool = 1 < "a"; => 2 ! program: wrong type at 1:15
a: array of int = {1}; b: bool = a < a; => 2 ! program: wrong type at 1:34
a: array of int = {1}; x: int = a[0]; => 0
a: array of int = {1}; x: int = a[true]; => 2 ! program: wrong type at 1:35
s: string = "a"; x: int = s[0]; => 0
b: bytes = B"a"; x: int = b[0]; => 0
s: string = "a"; x: int = s["a"]; => 2 ! program: wrong type at 1:29
m: map[string] of int = {"a": 1}; x: int = m["a"]; => 0
m: map[string] of int = {"a": 1}; x: int = m[1]; => 2 ! program: wrong type at 1:46
x: int = 1[0]; => 2 ! program: wrong type at 1:10
s: string = "abc"[0: 1]; => 0
b: bytes = B"abc"[0: 1]; => 0
a: array of int = {1}; b: array of int = a[0: 1]; => 0
s: string = 1[0: 1]; => 2 ! program: wrong type at 1:13
s: string = "abc"["a": 1]; => 2 ! program: wrong type at 1:19
s: string = "abc"[0: "a"]; => 2 ! program: wrong type at 1:22
m: map[int] of int = {:}; x: array of int = keys(m); => 0
x: array of int = keys(1); => 2 ! program: wrong type at 1:24
m: map[int] of int = {:}; x: bool = haskey(m, 1); => 0
m: map[int] of int = {:}; x: bool = haskey(m, "a"); => 2 ! program: wrong type at 1:47
x: int = strfind("a", "b"); => 0
x: int = strfind(B"a", B"b"); => 0
x: int = strfind("a", B"b"); => 2 ! program: wrong type at 1:23
x: int = strfind(1, "b"); => 2 ! program: wrong type at 1:18
x: int = int("1"); => 0
x: int = int(B"1"); => 0
x: int = int(true); => 0
x: int = int(time(1)); => 0
x: string = string(B"a"); => 0
x: string = string(1); => 0
x: string = string(time(1)); => 2 ! program: wrong type at 1:20
x: bytes = bytes("a"); => 0
x: bytes = bytes(1); => 2 ! program: wrong type at 1:18
x: time = time(1); => 0
x: time = time(true); => 2 ! program: wrong type at 1:16
x: bool = def(1); => 0
x: bool = def(y); => 2 ! program: unknown name: y at 1:15
x: string = 1; => 0
x: bytes = "a"; => 0
x: string = B"a"; => 0
x: time = 1; => 0
x: int = time(1); => 0
x: array of int = {1}; y: array of bool = x; => 2 ! program: wrong type at 1:43

== check: hidden names
$ [check p]
x: int = 1; { x: string = "a"; y: string = x; } y: int = x; => 0
x: int = 1; { x: string = "a"; } x = "a"; => 2 ! program: wrong type at 1:38
x: int = 1; if (true) x: string = "a"; x = "a"; => 2 ! program: wrong type at 1:44
x: int = 1; if (true) ; else x: string = "a"; x = 2; => 0
x: int = 1; while (true) { x: string = "a"; x = "b"; } x = 2; => 0
x: int = 1; do { x: string = "a"; x = "b"; } while (x == 1); => 0
x: int = 1; for (x: string = "a"; x == "b"; x = "c") { x: bool = true; x = false; } x = 2; => 0
static x: int = 1; f: function(x: string): string { return x + "a"; } y: int = x; => 0
static x: int = 1; f: function(): string { x: string = "a"; return x; } => 0
type T = int; { T: string = "a"; T = "b"; } x: T = 1; => 0
len: function(a: int): string { return "a"; } x: string = len(1); => 0
input: string = "a"; input = "b"; => 0
c: table sum of int; { c: int = 1; c = 2; } emit c <- 3; => 0

== check: emits that aren't allowed
$ [check p]
c: table sum of int;¶f: function(): int { emit c <- 1; return 1; }¶static s: int = f(); => 2 ! program: emit not allowed here at 3:17
c: table sum of int;¶f: function(): int { emit c <- 1; return 1; }¶static s: int = 1 + f(); => 2 ! program: emit not allowed here at 3:21
c: table sum of int;¶f: function(): int { emit c <- 1; return 1; }¶g: function(): int { return f(); }¶static s: int = g(); => 2 ! program: emit not allowed here at 4:17
c: table sum of int;¶f: function(): int { return 1; emit c <- 1; }¶static s: int = f(); => 2 ! program: emit not allowed here at 3:17
c: table sum of int;¶f: function(): int { if (false) emit c <- 1; return f(); }¶static s: int = f(); => 2 ! program: emit not allowed here at 3:17
c: table sum of int;¶f: function(): int { emit c <- 1; return 1; }¶static s: int = f(1); => 2 ! program: wrong count at 3:17
c: table sum of int;¶f: function(): int { emit c <- 1; return 1; }¶x: int = f(); => 0
c: table sum of int;¶f: function(): int { return 1; }¶static s: int = f();¶emit c <- s; => 0

== check: fields
$ [check p]
t: {a: int}; x: int = t.b; => 2 ! program: no such field: b at 1:25
t: {a: int}; t.b = 1; => 2 ! program: no such field: b at 1:16
t: {a: {b: int}}; x: int = t.a.c; => 2 ! program: no such field: c at 1:32
type T = {a: int}; t: T; x: int = t.a; => 0
"#;
