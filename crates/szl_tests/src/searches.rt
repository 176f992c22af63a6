//! Runs by example: searches by `when`. The lines are as in `runs.rt`.

/// The runs.
pub const RUNS: &str = r#"== when: the first candidates, each of them, and all of them
< xab¶
at: table collection of {i: int, j: int};¶a: array of int = {1, 2, 2};¶b: array of int = {2};¶when (i, j: some int; a[i] == b[j]) emit at <- {i, j};¶s: string = input;¶when (i, j: some int; s[i:j] == "ab") emit at <- {i, j};¶ => 0 at[] = {1, 0}¶at[] = {1, 3}¶
< ¶
c: table sum of int;¶a: array of int = {};¶b: array of int = {1, 2, 3};¶when (i: all int; a[i] > 0) emit c <- 1;¶when (i: all int; b[i] < b[i + 1]) emit c <- 10;¶when (i: each int; b[i] != 2) emit c <- 100;¶ => 0 c[] = 211¶

== when: some ends with the first that succeeds, each goes on
< ¶
t: table collection of int; a: array of int = {0, 3, 5}; when (i: some int; a[i] > 0) emit t <- i; => 0 t[] = 1¶
t: table collection of int; a: array of int = {0, 3, 5}; when (i: each int; a[i] > 0) emit t <- i; => 0 t[] = 1¶t[] = 2¶
t: table collection of int; a: array of int = {0, 3, 5}; when (i: some int; a[i] > 9) emit t <- i; => 0
t: table collection of int; a: array of int = {1, 2}; b: array of int = {2, 2}; when (i: some int; j: each int; a[i] == b[j]) emit t <- i * 10 + j; => 0 t[] = 10¶t[] = 11¶
t: table collection of int; a: array of int = {2, 2}; b: array of int = {2, 2}; when (i: some int; j: each int; a[i] == b[j]) emit t <- i * 10 + j; => 0 t[] = 0¶t[] = 1¶
t: table collection of int; a: array of int = {2, 2}; b: array of int = {1, 2}; when (i: each int; j: some int; a[i] == b[j]) emit t <- i * 10 + j; => 0 t[] = 1¶t[] = 11¶
t: table collection of int; a: array of int = {1, 2}; b: array of int = {3, 2}; when (i: some int; j: all int; a[i] < b[j]) emit t <- i; => 0 t[] = 0¶
t: table collection of int; a: array of int = {3, 2, 1}; b: array of int = {3, 2}; when (i: each int; j: all int; a[i] < b[j]) emit t <- i; => 0 t[] = 2¶

== when: all holds where nothing is false, and with no candidates
< ¶
t: table collection of int; a: array of int = {1, 2}; when (i: all int; a[i] > 0) emit t <- 7; => 0 t[] = 7¶
t: table collection of int; a: array of int = {1, 0}; when (i: all int; a[i] > 0) emit t <- 7; => 0
t: table collection of int; a: array of int; when (i: all int; a[i] > 0) emit t <- 7; => 0 t[] = 7¶
t: table collection of int; a: array of int; when (i: some int; a[i] > 0) emit t <- 7; => 0
t: table collection of int; a: array of int = {1, 2}; u: int; when (i: all int; a[i] > u) emit t <- 7; => 0 t[] = 7¶
t: table collection of int; a: array of int = {1, 2}; u: int; when (i: some int; a[i] > u) emit t <- 7; => 0
t: table collection of int; a: array of int = {1}; b: array of int = {}; when (i: all int; j: all int; a[i] > b[j]) emit t <- 7; => 0 t[] = 7¶

== when: candidates are places, ends of slices, or keys in order
< aéb¶
t: table collection of int; s: string = input; when (i: each int; s[i] > 97) emit t <- i; => 0 t[] = 1¶t[] = 2¶
t: table collection of int; when (i: each int; input[i] > 97) emit t <- i; => 0 t[] = 1¶t[] = 2¶t[] = 3¶
t: table collection of int; s: string = input; when (i: each int; s[i:len(s)] != "") emit t <- i; => 0 t[] = 0¶t[] = 1¶t[] = 2¶
t: table collection of int; s: string = input; when (i: each int; s[i:len(s)] == "") emit t <- i; => 0 t[] = 3¶
t: table collection of int; a: array of int = {4, 5}; when (i: each int; len(a[0:i]) == i) emit t <- i; => 0 t[] = 0¶t[] = 1¶t[] = 2¶
t: table collection of string; m: map[string] of int = {"b": 2, "a": 1, "c": 3}; when (k: some string; m[k] > 0) emit t <- k; => 0 t[] = "a"¶
t: table collection of string; m: map[string] of int = {"b": 2, "a": 1, "c": 3}; when (k: each string; m[k] != 1) emit t <- k; => 0 t[] = "b"¶t[] = "c"¶
t: table collection of int; m: map[int] of array of int = {7: {1, 2}, 5: {0}}; when (k: each int; i: each int; m[k][i] > 0) emit t <- k * 10 + i; => 0 t[] = 70¶t[] = 71¶
t: table collection of int; when (i: each int; !def("aé"[i])) emit t <- i; => 0
t: table collection of int; when (i: each int; def("aé"[i])) emit t <- i; => 0 t[] = 0¶t[] = 1¶
t: table collection of int; when (i: each int; !def("é"[0:i])) emit t <- i; => 0
t: table collection of int; when (i: each int; !def("é"[i:1])) emit t <- i; => 0
t: table collection of int; when (i: each int; "é"[i:1] == "") emit t <- i; => 0 t[] = 1¶
t: table collection of int; b: bytes = input; when (i: each int; b[i:len(b)] == B"") emit t <- i; => 0 t[] = 4¶
t: table collection of int; b: bytes = input; when (i: each int; b[0:i] == B"") emit t <- i; => 0 t[] = 0¶

== when: the first part that fits is the bound, and it is fixed when the search comes to its variable
< ¶
t: table collection of int; a: array of int = {1, 1, 1}; b: array of int = {5}; when (i: each int; b[i] > a[i]) emit t <- i; => 0 t[] = 0¶
t: table collection of int; a: array of int = {1, 1, 1}; b: array of int = {5}; when (i: each int; a[i] < b[0]) emit t <- i; => 0 t[] = 0¶t[] = 1¶t[] = 2¶
t: table collection of int; a: array of int = {1, 2}; n: int = 0; when (i: each int; a[i] > 0) { n++; a = a + {9}; } emit t <- n; => 0 t[] = 2¶
t: table collection of int; a: array of int = {1, 2}; n: int = 0; when (i: each int; a[i] > 0) { n++; a = {}; } emit t <- n; => 0 t[] = 1¶

== when: the keys of a map are those that it had, whatever the statement does to it
< ¶
c: table sum of int; n: int = 0; m: map[string] of int = {"a": 1, "b": 2, "c": 3}; when (k: each string; m[k] > 0) { m[k + "x"] = 9; n++; } emit c <- n * 10 + len(m); => 0 c[] = 36¶
c: table sum of int; n: int = 0; m: map[string] of int = {"a": 1, "b": 2, "c": 3}; when (k: each string; !def(m[k]) || m[k] > 0) { n++; m = {:}; } emit c <- n; => 0 c[] = 3¶
c: table sum of int; n: int = 0; m: map[int] of int = {1: 1, 2: 1}; when (i: each int; m[i] > 0) { when (j: each int; m[j] > 0) { m[i * 10 + j] = 1; n++; } } emit c <- n + len(m) * 10; => 0 c[] = 86¶
c: table sum of int; n: int = 0; m: map[int] of int = {1: 1}; when (k: each int; m[k] > 0) { m[2] = 1; n++; } emit c <- n + len(m) * 10; => 0 c[] = 21¶
c: table sum of int; n: int = 0; m: map[string] of map[int] of int = {"a": {1: 1, 2: 1}}; when (k: each int; m["a"][k] > 0) { m["a"][k + 10] = 1; n++; } emit c <- n + len(m["a"]) * 10; => 0 c[] = 42¶
c: table sum of int; static s: map[int] of int = {1: 5, 2: 6}; m: map[int] of int = {1: 1}; o := m; when (k: each int; s[k] > 0) m[k] = s[k]; emit c <- m[1] + m[2] * 10 + o[1] * 100 + len(o) * 1000; => 0 c[] = 1165¶
c: table sum of int; a: array of int = {1, 2}; b := a; when (i: each int; a[i] > 0) a[i] = 9; emit c <- a[0] + a[1] * 10 + b[0] * 100 + b[1] * 1000; => 0 c[] = 2199¶
c: table sum of int; n: int = 0; f: function(m: map[int] of int): int { m[9] = 1; return len(m); } m: map[int] of int = {1: 1, 2: 1}; when (k: each int; m[k] > 0) n = n * 10 + f(m); emit c <- n + len(m) * 100; => 0 c[] = 233¶

== when: the keys of a map that grew in any order are its candidates, in their order
< ¶
c: table sum[int] of int; m: map[int] of int = {:}; for (i := 0; i < 600; i++) m[i * 271 % 600] = i; n: int = -1; t: int = 0; when (k: each int; m[k] >= 0) { if (k == n + 1) n = k; t = (t * 31 + m[k]) % 1000003; } emit c[0] <- n; emit c[1] <- t; when (k: each int; m[k] > 500) emit c[2] <- 1; when (k: some int; m[k] == 599) emit c[3] <- k; when (k: all int; m[k] < 600) emit c[4] <- 1; when (k: all int; m[k] < 599) emit c[5] <- 1; => 0 c[0] = 599¶c[1] = 399818¶c[2] = 99¶c[3] = 329¶c[4] = 1¶
c: table sum[int] of int; m: map[int] of int = {:}; for (i := 600; i > 0; i--) m[i] = 1; n: int = 0; when (k: each int; m[k] > 0) { m[-k] = 1; m[k + 1000] = 2; emit c[0] <- k * (n % 7); n++; } emit c[1] <- n; emit c[2] <- len(m); when (k: each int; m[k] > 0) emit c[3] <- m[k]; emit c[4] <- keys(m)[600]; => 0 c[0] = 540300¶c[1] = 600¶c[2] = 1800¶c[3] = 2400¶c[4] = 1¶

== when: break and continue stay inside, and return leaves it
< ¶
t: table collection of int; f: function(a: array of int): int { when (i: some int; a[i] > 1) return i; return 9; } emit t <- f({1, 2, 3}); emit t <- f({}); => 0 t[] = 1¶t[] = 9¶
t: table collection of int; f: function(a: array of int): int { when (i: each int; a[i] > 1) return i; return 9; } emit t <- f({1, 2, 3}); emit t <- f({1}); => 0 t[] = 1¶t[] = 9¶
t: table collection of int; a: array of int = {1, 2}; when (i: each int; a[i] > 0) { emit t <- i; return; } emit t <- 7; => 0 t[] = 0¶
t: table collection of int; a: array of int = {1, 2}; when (i: each int; a[i] > 0) for (j := 0; j < 9; j++) { if (j > i) break; emit t <- j; } => 0 t[] = 0¶t[] = 0¶t[] = 1¶
t: table collection of int; a: array of int = {1}; when (i: each int; a[i] > 0) { when (j: each int; a[j] > 0) emit t <- i + j; } emit t <- 5; => 0 t[] = 0¶t[] = 5¶
t: table collection of int; f: function(a: array of int): int { when (i: all int; a[i] > 0) return 1; return 0; } emit t <- f({1, 2}); emit t <- f({0}); => 0 t[] = 0¶t[] = 1¶

== when: three kinds in one, what is undefined, and faults inside
< aéb¶
t: table collection of int; a: array of int = {1, 2}; b: array of int = {2, 3}; d: array of int = {3, 2}; when (i: each int; j: some int; k: all int; a[i] <= b[j] && b[j] <= d[k]) emit t <- i * 10 + j; => 0 t[] = 0¶t[] = 10¶
t: table collection of int; a: array of int = {1, 2}; u: int; when (i: each int; a[i] > u) emit t <- i; => 0
t: table collection of int; when (i: all int; input[i] >= 97) emit t <- 7; => 0 t[] = 7¶
t: table collection of int; s: string = input; when (i: all int; s[i] > 97) emit t <- 7; => 0
t: table collection of int; m: map[string] of int = {"a": 1, "b": 2}; when (k: all string; m[k] > 0) emit t <- 7; => 0 t[] = 7¶
t: table collection of int; m: map[string] of int = {"a": 1, "b": 0}; when (k: all string; m[k] > 0) emit t <- 7; => 0
t: table collection of int; a: array of int = {1, 2}; u: int; when (i: some int; a[i] > 1) if (u > 0) ; => 3 ! record 1: undefined value used at 1:92
t: table collection of int; a: array of int = {1, 2}; when (i: each int; a[i] > 1) a[i + 1] = 5; => 3 ! record 1: store outside the value at 1:84

== when: what it may not be
< ¶
when (i: some int; i > 0) ; => 2 ! program: unbounded variable: i at 1:7
when (i: some int; true) ; => 2 ! program: unbounded variable: i at 1:7
x: int; { when (i: some int; true) ; } => 2 ! program: unbounded variable: i at 1:17
a: array of int; when (i: some int; a[(i)] > 0) ; => 2 ! program: unbounded variable: i at 1:24
a: array of int; when (i: some int; a[i + 1] > 0) ; => 2 ! program: unbounded variable: i at 1:24
a: array of array of int; when (i, j: some int; a[j][i] > 0) ; => 2 ! program: unbounded variable: i at 1:33
a: array of int; when (i: all int; j: some int; a[i] == a[j]) ; => 2 ! program: all must come last at 1:36
a: array of int; when (i: each int; a[i] > 0) i = 1; => 2 ! program: not assignable: i at 1:47
a: array of int; when (i: all int; a[i] > 0) x: int = i; => 2 ! program: unknown name: i at 1:55
a: array of int; when (i: some int; a[i]) ; => 2 ! program: wrong type at 1:37
a: array of int; when (i: some string; a[i] > 0) ; => 2 ! program: wrong type at 1:42
while (true) { a: array of int; when (i: some int; a[i] > 0) break; } => 2 ! program: misplaced statement at 1:62
c: table sum of int; f: function(): int { emit c <- 1; return 1; } a: array of int; when (i: some int; a[i] == f()) ; => 2 ! program: emit not allowed here at 1:112

== when: ticks of its bases, its candidates and its conditions
< ¶
$ [run p f --budget 17]
c: table sum of int; a: array of int = {3, 5}; when (i: some int; a[i] == 3) emit c <- i; => 0 c[] = 0¶
$ [run p f --budget 16] => 3 ! record 1: budget passed at 1:78
$ [run p f --budget 23]
c: table sum of int; a: array of int = {3, 5}; when (i: each int; a[i] == 3) emit c <- i; => 0 c[] = 0¶
$ [run p f --budget 22] => 3 ! record 1: budget passed at 1:67
$ [run p f --budget 20]
c: table sum of int; a: array of int = {3, 5}; when (i: all int; a[i] == 3) emit c <- 7; => 0
$ [run p f --budget 19] => 3 ! record 1: budget passed at 1:66
$ [run p f --budget 54]
c: table sum of int; a: array of int = {3, 5}; b: array of int = {6, 7}; when (i, j: all int; a[i] < b[j]) emit c <- 1; => 0 c[] = 1¶
$ [run p f --budget 53] => 3 ! record 1: budget passed at 1:108
$ [run p f --budget 35] => 3 ! record 1: budget passed at 1:74
$ [run p f --budget 34] => 3 ! record 1: budget passed at 1:102
$ [run p f --budget 33] => 3 ! record 1: budget passed at 1:74
$ [run p f --budget 8]
c: table sum of int; a: array of int = {3, 5}; when (i: some int; a[i] == 3) emit c <- i; => 3 ! record 1: budget passed at 1:48
$ [run p f --budget 7] => 3 ! record 1: budget passed at 1:67
"#;
