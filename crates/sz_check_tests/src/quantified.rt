//! The statement `when`. In each line a program stands before `=>`, where `$` is the end of a line, and after it what `check` says of it.

/// Its variables, its condition and the statement inside, and the refusals that are its own.
pub const WHENS: &str = "a: array of int; when (i: some int; a[i] == 1) i = 2; => 14 at 1:48: i
a: array of int; when (i: each int; a[i] == 1) i++; => 14 at 1:48: i
a: array of int; when (i: all int; a[i] == 1) i = 2; => 6 at 1:47: i
i: int; a: array of int; when (i: all int; a[i] == 1) i = 2; => fine
m: map[array of int] of int; when (k: some array of int; def(m[k])) k[0] = 1; => 14 at 1:69: k
while (true) when (i: some int; \"ab\"[i] == 97) break; => 15 at 1:48
while (true) when (i: each int; \"ab\"[i] == 97) continue; => 15 at 1:48
while (true) when (i: some int; \"ab\"[i] == 97) while (true) break; => fine
f: function(): int { when (i: some int; \"ab\"[i] == 97) return i; } => fine
when (i: some int; \"ab\"[i] == 97) return; => fine
when (i: some int; \"ab\"[i] == 97) return 1; => 15 at 1:35
when (i: some int; \"ab\"[i] == 97) static s: int = 1; => 15 at 1:35
when (i: some int; i > 0) ; => 19 at 1:7: i
a: array of int; when (i: some int; a[(i)] == 1) ; => 19 at 1:24: i
a: array of int; when (i: some int; a[i + 1] == 1) ; => 19 at 1:24: i
a: array of int; when (i, j: some int; a[i] == j) ; => 19 at 1:27: j
a: array of array of int; when (i, j: some int; a[j][i] == 1) ; => 19 at 1:33: i
a: array of array of int; when (i, j: some int; a[i][j] == 1) ; => fine
s: string; when (i: some int; s[i:i] == \"\") ; => fine
s: string; when (i: each int; s[0:i] == \"a\") ; => fine
a: array of int; when (i: all int; len(a[i:2]) == 1) ; => fine
s: string; a: array of int; when (i: some int; s[a[i]:i] == \"\") ; => fine
m: map[string] of int; when (k: some string; m[k] == 1) ; => fine
m: map[string] of int; when (k: some int; m[k] == 1) ; => 9 at 1:45
m: map[string] of int; when (i: some int; keys(m)[i] == \"a\") ; => fine
b: bytes; when (i: each int; b[i] == 1) ; => fine
r: {i: array of int}; when (i: some int; r.i[i] == 1) ; => fine
a: array of int; when (i: all int; j: some int; a[i] == a[j]) ; => 20 at 1:36
a: array of int; when (i: some int; j: all int; k: each int; a[i] == a[j] && a[k] == 1) ; => 20 at 1:49
a: array of int; when (i: some int; j: each int; k: all int; a[i] == a[j] && a[k] == 1) ; => fine
a: array of int; when (i: all int; j: some int; a[i] + a[j]) ; => 9 at 1:49
a: array of int; when (i: all int; j: some int; a[i] == 1) ; => 19 at 1:36: j
when (i: some int; true) x = 1; => 6 at 1:26: x
when (i: all int; j: some int; true) x: int = i; => 6 at 1:47: i
when (i: some int; 1) ; => 9 at 1:20
when (i, i: some int; true) ; => 7 at 1:10: i
when (i: some x; true) ; => 6 at 1:15: x
when (i: some int; {1}[i] == 1) ; => 10 at 1:20
i: int; when (i: some int; \"a\"[i] == 97) ; => fine
when (i: some int; \"a\"[i] == 97) ; x: int = i; => 6 at 1:45: i
when (i: all int; \"a\"[i] == 97) x: int = i; => 6 at 1:42: i
when (i: some int; \"a\"[i] == 97) x: int = i; => fine
a: array of int; when (i: some int; a[i] == 1) when (j: each int; a[j] == i) when (k: all int; a[k] < j) ; => fine
t: table sum of int; f: function(): int { emit t <- 1; return 1; } when (i: some int; \"ab\"[i] == f()) ; => 22 at 1:98
t: table sum of int; f: function(): int { emit t <- 1; return 1; } when (i: some int; \"ab\"[i] == f(1)) ; => 12 at 1:98
t: table sum of int; f: function(): int { emit t <- 1; return 1; } when (i: some int; \"ab\"[i] == f() && x) ; => 22 at 1:98
f: function(): int { return 97; } when (i: some int; \"ab\"[i] == f()) ; => fine
t: table sum of int; f: function(): int { emit t <- 1; return 1; } when (i: some int; \"ab\"[i] == 97) f(); => fine
t: table sum of int; g: function(a: array of int): int { when (i: some int; a[i] == g(a)) x = 1; emit t <- 1; } => 22 at 1:85
t: table sum of int; g: function(a: array of int): int { when (i: some int; a[i] == g(a)) x = 1; } => 6 at 1:91: x
t: table sum of int; f: function(): int { emit t <- 1; return 1; } g: function(a: array of int): int { when (i: some int; a[i] == g(a)) ; f(); } => 22 at 1:131
t: table sum of int; f: function(): int { emit t <- 1; return 1; } g: function(a: array of int): int { when (i: some int; a[i] == g(a)) ; x: int = 1 + len({f()}); } => 22 at 1:131
t: table sum of int; f: function(): int { emit t <- 1; return 1; } g: function(a: array of int): int { when (i: some int; a[i] == g(a)) ; f: int; f(); } => 8 at 1:147: f
t: table sum of int; f: function(): int { emit t <- 1; return 1; } g: function(a: array of int): int { when (i: some int; a[i] == g(a)) ; { f: int; } f(); } => 22 at 1:131
t: table sum of int; f: function(): int { emit t <- 1; return 1; } g: function(a: array of int): int { when (i: some int; a[i] == g(a)) ; for (f: int = 1; true; f()) ; } => 8 at 1:162: f
t: table sum of int; f: function(): int { emit t <- 1; return 1; } g: function(a: array of int): int { when (i: some int; a[i] == g(a)) ; when (f: some int; a[f] == f()) ; } => 8 at 1:166: f
t: table sum of int; f: function(): int { emit t <- 1; return 1; } g: function(a: array of int): int { when (i: some int; a[i] == g(a)) ; when (f: all int; a[f] == 1) f(); } => 22 at 1:131
t: table sum of int; f: function(): int { emit t <- 1; return 1; } g: function(f: int): int { when (i: some int; \"ab\"[i] == g(1)) ; f(); } => 8 at 1:133: f
t: table sum of int; g: function(): int { emit t <- 1; return g(); } static s: int = g(); => 22 at 1:86
g: function(n: int): int { return g(n); } static s: int = g(1); => fine
g: function(n: int): int { when (i: some int; \"ab\"[i] == g(n)) ; return n; } => fine";
