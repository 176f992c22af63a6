//! Runs by example: what statements, functions and statics do, and how records fault. The lines are as in `runs.rt`.

/// The runs.
pub const RUNS: &str = r#"== an undefined value ends the record where it has to be defined
< ¶
x: int;¶x = 1 / 0; => 3 ! record 1: undefined value used at 2:1
x: int;¶x++; => 3 ! record 1: undefined value used at 2:1
u: int; a: array of int = {1};¶a[u] = 5; => 3 ! record 1: undefined value used at 2:1
u: int; m: map[int] of int = {:};¶m[u] = 5; => 3 ! record 1: undefined value used at 2:1
u: bool;¶if (u) ; => 3 ! record 1: undefined value used at 2:1
u: bool;¶if (u && false) ; else ; => 3 ! record 1: undefined value used at 2:1
u: bool;¶while (u) ; => 3 ! record 1: undefined value used at 2:1
u: bool;¶do ; while (u); => 3 ! record 1: undefined value used at 2:1
u: bool;¶for (; u; ) ; => 3 ! record 1: undefined value used at 2:1
x: int;¶for (x = 1 / 0; false; ) ; => 3 ! record 1: undefined value used at 2:6
x: int;¶for (; true; x = 1 / 0) ; => 3 ! record 1: undefined value used at 2:14
u: string;¶len(u); => 3 ! record 1: undefined value used at 2:1
f: function(): int { }¶f(); => 3 ! record 1: undefined value used at 2:1
c: table sum of int; u: int; x: int = u; y := u; emit c <- u; { z: int = u; } emit c <- 1; => 0 c[] = 1¶
u: int; strfind("a", "b"); => 0

== a store outside the value ends the record
< ¶
a: array of int = {1};¶a[1] = 5; => 3 ! record 1: store outside the value at 2:1
a: array of int = {1};¶a[-1] = 5; => 3 ! record 1: store outside the value at 2:1
a: array of int = {};¶a[0] = 5; => 3 ! record 1: store outside the value at 2:1
a: array of int;¶a[0] = 5; => 3 ! record 1: store outside the value at 2:1
t: {a: int};¶t.a = 5; => 3 ! record 1: store outside the value at 2:1
m: map[int] of int;¶m[1] = 5; => 3 ! record 1: store outside the value at 2:1
m: map[int] of array of int = {:};¶m[1][0] = 5; => 3 ! record 1: store outside the value at 2:1
m: map[int] of {a: int} = {1: {2}};¶m[3].a = 5; => 3 ! record 1: store outside the value at 2:1
a: array of array of int = {{1}};¶a[0][1] = 5; => 3 ! record 1: store outside the value at 2:1
a: array of array of int = {{1}};¶a[1][0] = 5; => 3 ! record 1: store outside the value at 2:1

== at one statement the budget comes first, then an undefined value, then a store outside
< ¶
a: array of int = {1};¶a[5] = 1 / 0; => 3 ! record 1: undefined value used at 2:1
a: array of int;¶a[1 / 0] = 5; => 3 ! record 1: undefined value used at 2:1
$ [run p f --budget 8]
a: array of int = {1};¶a[5] = 1; => 3 ! record 1: store outside the value at 2:1
$ [run p f --budget 7] => 3 ! record 1: budget passed at 2:1
$ [run p f --budget 4]
x: int;¶x = 1 / 0; => 3 ! record 1: undefined value used at 2:1
$ [run p f --budget 3] => 3 ! record 1: budget passed at 2:1
$ [run p f --budget 2]
u: bool;¶if (u) ; => 3 ! record 1: undefined value used at 2:1
$ [run p f --budget 1] => 3 ! record 1: budget passed at 2:1

== assignments change a variable, or a part of its value
< ¶
c: table sum of int; x: int = 1; x = 5; emit c <- x; => 0 c[] = 5¶
c: table sum of int; x: int; x = 5; x++; x++; x--; emit c <- x; => 0 c[] = 6¶
c: table sum of int; t: time = time(5); t++; emit c <- int(t); => 0 c[] = 6¶
c: table sum of int; a: array of int = {1, 2}; a[1] = 7; emit c <- a[0] + a[1] * 10; => 0 c[] = 71¶
c: table sum of int; m: map[string] of int = {"b": 2, "a": 1, "b": 3}; m["c"] = 4; m["a"] = 5; emit c <- m["a"] + m["b"] * 10 + m["c"] * 100 + len(m) * 1000; => 0 c[] = 3435¶
c: table sum of int; t: {a: int, b: int} = {1, 2}; t.b = 7; emit c <- t.a + t.b * 10; => 0 c[] = 71¶
c: table sum of int; m: map[int] of {a: array of int} = {1: {{2, 3}}}; m[1].a[0] = 7; emit c <- m[1].a[0] + m[1].a[1] * 10; => 0 c[] = 37¶
c: table sum of int; a: array of map[int] of int = {{:}}; a[0][5] = 6; emit c <- a[0][5]; => 0 c[] = 6¶
c: table sum of int; a: array of int = {1}; b: array of int = a; b[0] = 5; emit c <- a[0] + b[0] * 10; => 0 c[] = 51¶
c: table sum of int; a: array of int = {0, 1}; a[a[0]] = a[1] + 4; emit c <- a[0] + a[1] * 10; => 0 c[] = 15¶

== maps that grow: keys are at their places, with their values, in whatever order they came
< ¶
c: table sum[int] of int; m: map[int] of int = {:}; for (i := 600; i > 0; i--) m[i * 2] = i; m[1200] = 7; emit c[0] <- len(m); when (k: each int; def(m[k])) emit c[1] <- m[k]; a := keys(m); emit c[2] <- a[0] + a[299] * 10 + a[599] * 10000; emit c[3] <- m[2] + m[600] * 10 + m[1200] * 10000; if (haskey(m, 2) && haskey(m, 1200) && !haskey(m, 601) && !def(m[0]) && !def(m[1202])) emit c[4] <- 1; => 0 c[0] = 600¶c[1] = 179707¶c[2] = 12006002¶c[3] = 73001¶c[4] = 1¶
c: table sum[int] of int; m: map[int] of int = {:}; for (i := 0; i < 300; i++) { m[i] = i * 3; m[1000 - i] = i; } m[299] = -5; m[701] = 4; emit c[0] <- len(m); when (k: each int; def(m[k])) emit c[1] <- m[k]; a := keys(m); emit c[2] <- a[128] + a[300] * 1000 + a[598] * 1000000; emit c[3] <- m[298] + m[702] * 1000 + m[299] * 1000000 + m[701] * 10000000; if (haskey(m, 299) && haskey(m, 701) && !haskey(m, 300) && !haskey(m, 700) && !def(m[1001])) emit c[4] <- 1; => 0 c[0] = 600¶c[1] = 178203¶c[2] = 999701128¶c[3] = 35298894¶c[4] = 1¶
c: table sum[int] of int; m: map[int] of int = {:}; for (i := 1; i < 601; i++) m[i * 257 % 601] = i; m[257] = 0; emit c[0] <- len(m); when (k: each int; def(m[k])) emit c[1] <- m[k]; a := keys(m); emit c[2] <- a[0] + a[255] * 10 + a[599] * 10000; emit c[3] <- m[1] + m[256] * 1000 + m[257] * 1000000 + m[600] * 10000000; if (haskey(m, 1) && haskey(m, 600) && !haskey(m, 0) && !def(m[601])) emit c[4] <- 1; => 0 c[0] = 600¶c[1] = 180299¶c[2] = 6002561¶c[3] = 1520153449¶c[4] = 1¶
c: table sum[string] of int; m: map[string] of int = {:}; for (i := 0; i < 600; i++) m[string(i)] = i; m["99"] = 1000; a := keys(m); for (i := 0; i < 600; i = i + 150) emit c[a[i]] <- m[a[i]]; emit c[a[599]] <- m[a[599]]; emit c["all"] <- len(m); when (k: each string; m[k] >= 0) emit c["sum"] <- m[k]; emit c["none"] <- int(haskey(m, "600")) + int(haskey(m, "")) + int(haskey(m, "0.5")); => 0 c["0"] = 0¶c["233"] = 233¶c["369"] = 369¶c["503"] = 503¶c["99"] = 1000¶c["all"] = 600¶c["none"] = 0¶c["sum"] = 180601¶
c: table sum[int] of int; u: array of {m: map[int] of int, n: int} = {{{:}, 5}}; for (i := 0; i < 600; i++) u[0].m[i * 7 % 600 - 300] = i; emit c[0] <- len(u[0].m) + u[0].n * 1000; emit c[1] <- u[0].m[-300] + u[0].m[0] * 1000 + u[0].m[299] * 1000000; emit c[2] <- keys(u[0].m)[450]; => 0 c[0] = 5600¶c[1] = 257300000¶c[2] = 150¶
c: table sum[int] of int; m: map[int] of array of int = {:}; for (i := 0; i < 600; i++) m[-i] = {i, 1}; m[-300][1] = 9; when (k: each int; i: each int; m[k][i] >= 0) emit c[i] <- m[k][i]; emit c[2] <- m[-300][0] + m[-300][1] * 1000 + len(m) * 10000; => 0 c[0] = 179700¶c[1] = 608¶c[2] = 6009300¶

== maps that grow: those with the same pairs are equal, and a copy is a map of its own
< ¶
c: table sum[int] of int; a: map[int] of int = {:}; b := a; o := a; for (i := 0; i < 600; i++) { a[i] = i; b[599 - i] = 599 - i; o[i * 77 % 600] = i * 77 % 600; } d := a; emit c[0] <- int(a == b) + int(a == d) * 10 + int(b == o) * 100 + int(a != o) * 1000; d[300] = 0; emit c[1] <- int(a == d) + int(b != d) * 10 + a[300] * 100; d[300] = 300; emit c[2] <- int(a == d) + int(o == d) * 10; d[600] = 1; emit c[3] <- int(a == d) + len(a) * 10 + len(d) * 10000; b[-1] = 1; emit c[4] <- int(b == d) + int(a == o) * 10; => 0 c[0] = 111¶c[1] = 30010¶c[2] = 11¶c[3] = 6016000¶c[4] = 10¶
< ¶¶
c: table sum[int] of int; f: function(n: int): map[int] of int { m: map[int] of int = {:}; for (i := 0; i < n; i++) m[-i] = i; return m; } static s: map[int] of int = f(600); m := s; m[1] = 7; m[-599] = 0; m[-1000] = 3; emit c[0] <- len(s) + len(m) * 1000; emit c[1] <- s[-599] + m[-599] * 1000 + m[-598] * 1000000; emit c[2] <- int(s == f(600)) + int(s == m) * 10; => 0 c[0] = 1205200¶c[1] = 1196001198¶c[2] = 2¶

== a part is read where it stands, and is a copy of its own once it is kept
< ¶
c: table sum of int; static m: map[int] of array of int = {1: {4, 5}, 2: {6}}; emit c <- m[1][1] + len(m[2]) * 10; => 0 c[] = 15¶
c: table sum of int; m: map[int] of array of int = {1: {4, 5}, 2: {6}}; emit c <- m[1][1] + len(m[2]) * 10; => 0 c[] = 15¶
c: table sum of int; static a: array of array of array of int = {{{1}, {2, 3}}}; emit c <- a[0][1][1] + len(a[0][1]) * 10; => 0 c[] = 23¶
c: table sum of int; a: array of array of array of int = {{{1}, {2, 3}}}; emit c <- a[0][1][1] + len(a[0][1]) * 10; => 0 c[] = 23¶
c: table sum of int; a: array of array of array of int = {{{1}}}; if (!def(a[0][1]) && !def(a[1][0]) && !def(a[0][0][1])) emit c <- 5; => 0 c[] = 5¶
c: table sum of int; a: array of array of int = {{1, 2}}; b: array of int = a[0]; a[0][1] = 7; emit c <- b[1] + a[0][1] * 10; => 0 c[] = 72¶
c: table sum of int; a: array of array of int = {{1, 2}}; b: array of int = a[0]; b[1] = 7; emit c <- b[1] + a[0][1] * 10; => 0 c[] = 27¶
c: table sum of int; static a: array of array of int = {{1, 2}}; b: array of int = a[0]; b[1] = 7; emit c <- b[1] + a[0][1] * 10; => 0 c[] = 27¶
c: table sum of int; a: array of string = {"x", "yz"}; t: string = a[0]; a[0] = a[1]; a[1] = t; emit c <- len(a[0]) + len(a[1]) * 10; => 0 c[] = 12¶
c: table sum of int; f: function(p: array of int): int { p[0] = 9; return p[0]; } a: array of array of int = {{1, 2}}; emit c <- f(a[0]) + a[0][0] * 10; => 0 c[] = 19¶
c: table sum of int; f: function(p: array of array of int): array of int { return p[1]; } a: array of array of int = {{1}, {2, 3}}; b: array of int = f(a); a[1][1] = 8; emit c <- b[1]; => 0 c[] = 3¶
c: table sum of int; u: {m: map[string] of string, n: int} = {{"a": "xyz"}, 7}; if (haskey(u.m, "a") && !def(u.m["b"])) emit c <- len(u.m["a"]) + u.n * 10; => 0 c[] = 73¶
c: table sum of int; a: array of array of int = {{1, 2, 5}}; when (i: some int; a[0][i] == 5) emit c <- i; => 0 c[] = 2¶

== if runs one of its parts
< ¶
c: table sum of int; if (true) emit c <- 1; else emit c <- 10; => 0 c[] = 1¶
c: table sum of int; if (false) emit c <- 1; else emit c <- 10; => 0 c[] = 10¶
c: table sum of int; if (false) emit c <- 1; emit c <- 10; => 0 c[] = 10¶
c: table sum of int; if (true) if (false) emit c <- 1; else emit c <- 10; => 0 c[] = 10¶
c: table sum of int; if (false) if (false) emit c <- 1; else emit c <- 10; => 0
c: table sum of int; if (false) ; else if (true) emit c <- 100; else emit c <- 10; => 0 c[] = 100¶

== an inner block may hide a name
< ¶
c: table sum of int; x: int = 1; { x: int = 2; emit c <- x; } emit c <- x * 10; => 0 c[] = 12¶
c: table sum of int; x: int = 1; { x = 2; } emit c <- x; => 0 c[] = 2¶
c: table sum of int; x: int = 1; if (true) x: int = 2; emit c <- x; => 0 c[] = 1¶
c: table sum of int; x: int = 1; for (x: int = 5; x < 7; x++) emit c <- x; emit c <- x * 100; => 0 c[] = 111¶
c: table sum of int; x: int = 1; { x: int = x + 1; emit c <- x; } => 0 c[] = 2¶
c: table sum of int; len: function(s: string): int { return 9; } emit c <- len("a"); => 0 c[] = 9¶
c: table sum of int; input: int = 4; emit c <- input; => 0 c[] = 4¶

== while, do and for
< ¶
c: table sum of int; i: int = 0; while (i < 3) { emit c <- i; i++; } => 0 c[] = 3¶
c: table sum of int; while (false) emit c <- 1; => 0
c: table sum of int; do emit c <- 1; while (false); => 0 c[] = 1¶
c: table sum of int; i: int = 0; do { emit c <- i; i++; } while (i < 3); => 0 c[] = 3¶
c: table sum of int; i: int = 0; while (true) { i++; if (i > 3) break; if (i == 2) continue; emit c <- i; } => 0 c[] = 4¶
c: table sum of int; i: int = 0; do { i++; if (i > 3) break; if (i == 2) continue; emit c <- i; } while (true); => 0 c[] = 4¶
c: table sum of int; i: int = 0; do { i++; if (i == 3) continue; emit c <- i; } while (i < 3); => 0 c[] = 3¶
c: table sum of int; for (i: int = 0; i < 4; i++) { if (i == 2) continue; emit c <- i; } => 0 c[] = 4¶
c: table sum of int; for (i: int = 0; ; i++) { if (i > 3) break; emit c <- i; } => 0 c[] = 6¶
c: table sum of int; i: int = 5; for (; i < 7; ) { emit c <- i; i++; } => 0 c[] = 11¶
c: table sum of int; for (i := 0; i < 2; i++) for (j: int = 0; j < 3; j++) { if (j == 1) continue; if (j > i + 1) break; emit c <- i * 10 + j; } => 0 c[] = 22¶
c: table sum of int; for (i: int = 0; i < 3; i++) { while (true) { if (i == 1) break; emit c <- 1; break; } emit c <- 10; } => 0 c[] = 32¶
c: table sum of int; for (i: int = 0; i < 3; i++) { y: int; if (def(y)) emit c <- 1; y = i; emit c <- y * 10; } => 0 c[] = 30¶
c: table sum of int; i: int = 0; while (i < 10000) i++; emit c <- i; => 0 c[] = 10000¶

== a run ends though its program doesn't
< ¶
$ [run p f --budget 999]
while (true) ; => 3 ! record 1: budget passed at 1:8
$ [run p f --budget 1000] => 3 ! record 1: budget passed at 1:1
$ [run p f --budget 1001] => 3 ! record 1: budget passed at 1:1
for (;;) ; => 3 ! record 1: budget passed at 1:1
do ; while (true); => 3 ! record 1: budget passed at 1:1
while (true) continue; => 3 ! record 1: budget passed at 1:1
static a: int = 1;¶f: function(): int { while (true) ; }¶static b: int = f(); => 3 ! record 0: budget passed at 2:22
$ [run p f --budget 100]
f: function(n: int): int { return f(n + 1); }¶x: int = f(0); => 3 ! record 1: budget passed at 1:37
$ [run p f] => 3 ! record 1: calls too deep at 1:35
f: function(): int { return f(); }¶f(); => 3 ! record 1: calls too deep at 1:29

== return ends the record
< 1¶2¶
c: table sum of int; emit c <- 1; return; emit c <- 10; => 0 c[] = 2¶
c: table sum of int; x: int = input; if (x == 1) return; emit c <- x; => 0 c[] = 2¶
c: table sum of int; x: int = input; while (true) { for (;;) { emit c <- x; return; } } => 0 c[] = 3¶

== functions
< ¶
c: table sum of int; f: function(n: int): int { if (n == 0) return 1; return n * f(n - 1); } emit c <- f(5); => 0 c[] = 120¶
c: table sum of int; f: function(a: int, b: int): int { return a - b; } emit c <- f(7, 2) + f(2, 7) * 10; => 0 c[] = -45¶
c: table sum of int; f: function(n: int): int { x: int; if (def(x)) return 1; x = 5; return 0; } emit c <- f(1) + f(1); => 0 c[] = 0¶
c: table sum of int; f: function(n: int): int { n = n + 1; return n; } x: int = 1; emit c <- f(x) + x * 10; => 0 c[] = 12¶
c: table sum of int; f: function(n: int): int { m: int = n; if (n > 0) f(n - 1); return m; } emit c <- f(3); => 0 c[] = 3¶
c: table sum of int; f: function(n: int): int { if (n > 0) return 1; } emit c <- int(def(f(1))) + int(def(f(0))) * 10; => 0 c[] = 1¶
c: table sum of int; f: function(n: int): int { return 1 / n; } emit c <- int(def(f(1))) + int(def(f(0))) * 10; => 0 c[] = 1¶
c: table sum of int; f: function(n: int): int { emit c <- n; return n; } emit c <- f(2) * 10; => 0 c[] = 22¶
c: table sum of int; f: function(n: int): int { for (i: int = 0; ; i++) if (i * i >= n) return i; } emit c <- f(10); => 0 c[] = 4¶
c: table sum of int; f: function(n: int): int { while (true) { n++; if (n > 5) break; } return n; } emit c <- f(1); => 0 c[] = 6¶
c: table sum of int; f: function(s: string): string { return s + s; } emit c <- len(f(f("ab"))); => 0 c[] = 8¶
c: table sum of int; f: function(a: array of int): int { a[0] = 9; return a[0]; } a: array of int = {1}; emit c <- f(a) + a[0] * 10 + f({5}) * 100; => 0 c[] = 919¶
c: table sum of int; f: function(n: int): {a: int} { return {n}; } emit c <- f(3).a; => 0 c[] = 3¶
c: table sum of int; f: function(n: int): int { return n + 1; } g: function(n: int): int { return f(f(n)); } emit c <- g(1); => 0 c[] = 3¶
f: function(n: int): int { x: int; x = 1 / 0; return 1; }¶y: int = f(1); => 3 ! record 1: undefined value used at 1:36
f: function(n: int): int { a: array of int = {1}; a[n] = 5; return 1; }¶y: int = f(1); => 3 ! record 1: store outside the value at 1:51

== as many as 128 calls may be open
< ¶
f: function(n: int): int { if (n == 1) return 1; return f(n - 1) + 1; }¶c: table sum of int; emit c <- f(128); => 0 c[] = 128¶
f: function(n: int): int { if (n == 1) return 1; return f(n - 1) + 1; }¶c: table sum of int; emit c <- f(129); => 3 ! record 1: calls too deep at 1:57
f: function(n: int): int { if (n == 1) return len("a"); return f(n - 1) + int("1"); }¶c: table sum of int; emit c <- f(128); => 0 c[] = 128¶
f: function(n: int): int { u: int; if (n == 1) return int(def(f(u))); return f(n - 1); }¶c: table sum of int; emit c <- f(128); => 0 c[] = 0¶
f: function(n: int): int { if (n == 1) return 1; return f(n - 1) + 1; }¶c: table sum of int; emit c <- f(128) + f(128); => 0 c[] = 256¶

== statics are computed once, before the records
< 1¶2¶
c: table sum of int; static s: int = 2 + 3; emit c <- s; => 0 c[] = 10¶
c: table sum of int; static a: int = 2; static b: int = a * 5; emit c <- b; => 0 c[] = 20¶
c: table sum of int; f: function(n: int): int { return n * n; } static s: int = f(4); emit c <- s; => 0 c[] = 32¶
c: table sum of int; static s: array of int = {4, 5}; f: function(n: int): int { return s[n]; } emit c <- f(1); => 0 c[] = 10¶
c: table sum of int; static s: int = 1 / 0; emit c <- int(def(s)); => 0 c[] = 0¶
c: table sum of int; static s: string = 12; static n: int = "7"; emit c <- len(s) * 10 + n; => 0 c[] = 54¶
c: table sum of int; static s: array of int = {4}; a: array of int = s; a[0] = 9; emit c <- s[0]; => 0 c[] = 8¶
c: table sum of int; type A = array of int; static s: A = {1}; emit c <- len(s); => 0 c[] = 2¶
c: table sum of int; emit c <- 1; static s: int = 5; emit c <- s; => 0 c[] = 12¶

== a fault in a static is one of record 0
f: function(n: int): int { return f(n + 1); }¶static s: int = f(0); => 3 ! record 0: calls too deep at 1:35
f: function(): int { x: int; x = 1 / 0; return 1; }¶static s: int = f(); => 3 ! record 0: undefined value used at 1:30
f: function(): int { a: array of int; a[0] = 1; return 1; }¶static s: int = f(); => 3 ! record 0: store outside the value at 1:39
< ¶
x: int;¶x = 1 / 0;¶f: function(n: int): int { return f(n); }¶static s: int = f(0); => 3 ! record 0: calls too deep at 3:35

== the first record that faults decides, and nothing is printed
< 1¶¶
c: table sum of int;¶x: int = input;¶if (x > 0) emit c <- 1;¶ => 3 ! record 2: undefined value used at 3:1
< 1¶¶5¶¶
c: table sum of int;¶x: int = input;¶if (x > 0) emit c <- 1;¶ => 3 ! record 2: undefined value used at 3:1
< ¶
c: table sum of int; emit c <- 1;¶x: int;¶x = 1 / 0; => 3 ! record 1: undefined value used at 3:1
< 2¶0¶1¶
c: table sum of int; a: array of int = {5};¶x: int = input; if (x == 0) a[x - 1] = 5;¶if (x == 1) a[1 / 0] = 5;¶emit c <- 1; => 3 ! record 2: store outside the value at 2:29
< 1¶1¶1¶1¶1¶1¶1¶1¶1¶x¶
x: int = input;¶if (x > 0) ; => 3 ! record 10: undefined value used at 2:1

== each record has variables and a budget of its own
< 1¶2¶3¶
c: table sum of int; x: int; if (def(x)) emit c <- 1; x = 5; emit c <- 10; => 0 c[] = 30¶
c: table sum of int; a: array of int = {0}; a[0] = a[0] + 1; emit c <- a[0]; => 0 c[] = 3¶
c: table sum of int; x: int = input; if (x == 1) { y: int = 7; } z: int; if (def(z)) emit c <- 100; emit c <- x; => 0 c[] = 6¶
f: function(): int { x: int; if (def(x)) return 1; x = 2; return 0; }¶c: table sum of int; emit c <- f(); => 0 c[] = 0¶
$ [run p f --budget 3]
c: table sum of int; emit c <- 1; => 0 c[] = 3¶
$ [run p f --budget 7]
c: table sum of int; x: int = input; y: int = x; emit c <- 1; => 3 ! record 1: budget passed at 1:50
$ [run p f --budget 8] => 0 c[] = 3¶
"#;
