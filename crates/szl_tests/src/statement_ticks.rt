//! Runs by example: the ticks that statements, calls and statics take. The lines are as in `runs.rt`.

/// The runs.
pub const RUNS: &str =
    r#"== ticks: an emit takes one, and the weights of its parts if they are defined
< ¶
$ [run p f --budget 3]
c: table sum of int; emit c <- 7; => 0 c[] = 7¶
$ [run p f --budget 2] => 3 ! record 1: budget passed at 1:22
$ [run p f --budget 1] => 3 ! record 1: budget passed at 1:22
$ [run p f --budget 2]
c: table sum of int; u: int; emit c <- u; => 0
$ [run p f --budget 1] => 3 ! record 1: budget passed at 1:30
$ [run p f --budget 4]
c: table sum of int; emit c <- len("ab"); => 0 c[] = 2¶
$ [run p f --budget 3] => 3 ! record 1: budget passed at 1:22
$ [run p f --budget 2] => 3 ! record 1: budget passed at 1:22

== ticks: a call takes one after its arguments, and what its function does
< ¶
$ [run p f --budget 7]
f: function(n: int): int { return n + 1; }¶x := f(4); => 0
$ [run p f --budget 6] => 3 ! record 1: budget passed at 2:1
$ [run p f --budget 5] => 3 ! record 1: budget passed at 1:28
$ [run p f --budget 4] => 3 ! record 1: budget passed at 1:35
$ [run p f --budget 3] => 3 ! record 1: budget passed at 1:39
$ [run p f --budget 2] => 3 ! record 1: budget passed at 1:35
$ [run p f --budget 1] => 3 ! record 1: budget passed at 2:6
$ [run p f --budget 4]
f: function(a: int, b: int): int { return a; }¶u: int; x := f(u, 1); => 0
$ [run p f --budget 3] => 3 ! record 1: budget passed at 2:9
$ [run p f --budget 2] => 3 ! record 1: budget passed at 2:14
$ [run p f --budget 1] => 3 ! record 1: budget passed at 2:19
$ [run p f --budget 2]
f: function(): int { }¶x := f(); => 0
$ [run p f --budget 1] => 3 ! record 1: budget passed at 2:1
$ [run p f --budget 6]
f: function(): int { return 1 / 0; }¶x := f(); => 0
$ [run p f --budget 5] => 3 ! record 1: budget passed at 2:1
$ [run p f --budget 4] => 3 ! record 1: budget passed at 1:22
$ [run p f --budget 4]
f: function(): string { return "abc"; }¶x := f(); => 0
$ [run p f --budget 3] => 3 ! record 1: budget passed at 2:1
$ [run p f --budget 2] => 3 ! record 1: budget passed at 1:25
$ [run p f --budget 3]
f: function(): int { return 1; }¶f(); => 0
$ [run p f --budget 2] => 3 ! record 1: budget passed at 1:22
$ [run p f --budget 1] => 3 ! record 1: budget passed at 1:29

== ticks: an assignment takes one after its indexes and its value
< ¶
$ [run p f --budget 2]
x: int; x = 5; => 0
$ [run p f --budget 1] => 3 ! record 1: budget passed at 1:9
$ [run p f --budget 6]
x: int = 1; x++; => 0
$ [run p f --budget 5] => 3 ! record 1: budget passed at 1:13
$ [run p f --budget 4] => 3 ! record 1: budget passed at 1:13
$ [run p f --budget 6]
x: int = 1; x--; => 0
$ [run p f --budget 5] => 3 ! record 1: budget passed at 1:13
$ [run p f --budget 8]
a: array of int = {1};¶a[0] = 7; => 0
$ [run p f --budget 7] => 3 ! record 1: budget passed at 2:1
$ [run p f --budget 6]
m: map[string] of int = {:};¶m["a"] = 7; => 0
$ [run p f --budget 5] => 3 ! record 1: budget passed at 2:1
$ [run p f --budget 7]
t: {a: int} = {1};¶t.a = 7; => 0
$ [run p f --budget 6] => 3 ! record 1: budget passed at 2:1
$ [run p f --budget 13]
a: array of array of int = {{1}};¶a[0][0] = 7; => 0
$ [run p f --budget 12] => 3 ! record 1: budget passed at 2:1
$ [run p f --budget 12]
a: array of int = {1};¶a = {2, 3}; => 0
$ [run p f --budget 11] => 3 ! record 1: budget passed at 2:1

== ticks: if takes one after its condition, and a block none
< ¶
$ [run p f --budget 2]
if (true) ; => 0
$ [run p f --budget 1] => 3 ! record 1: budget passed at 1:1
$ [run p f --budget 2]
if (false) ; else ; => 0
$ [run p f --budget 1] => 3 ! record 1: budget passed at 1:1
$ [run p f --budget 4]
if (true) x := 1; else y := "a" + "b"; => 0
$ [run p f --budget 3] => 3 ! record 1: budget passed at 1:11
$ [run p f --budget 4]
if (false) x := 1; else y := 2; => 0
$ [run p f --budget 3] => 3 ! record 1: budget passed at 1:25
$ [run p f --budget 1]
{ ; {} { x: int; } } => 0

== ticks: while takes one for each test and for each return to it
< ¶
< 2¶
$ [run p f --budget 25]
x: int = input;¶while (x > 0) x = x - 1; => 0
$ [run p f --budget 24] => 3 ! record 1: budget passed at 2:1
$ [run p f --budget 23] => 3 ! record 1: budget passed at 2:8
$ [run p f --budget 20] => 3 ! record 1: budget passed at 2:1
$ [run p f --budget 19] => 3 ! record 1: budget passed at 2:15
$ [run p f --budget 7] => 3 ! record 1: budget passed at 2:19
$ [run p f --budget 6] => 3 ! record 1: budget passed at 2:1
< ¶
$ [run p f --budget 2]
while (false) ; => 0
$ [run p f --budget 1] => 3 ! record 1: budget passed at 1:1
$ [run p f --budget 2]
while (true) break; => 0
$ [run p f --budget 1] => 3 ! record 1: budget passed at 1:1
$ [run p f --budget 24]
i: int = 0;¶while (i < 2) { i++; continue; } => 0
$ [run p f --budget 23] => 3 ! record 1: budget passed at 2:1
$ [run p f --budget 22] => 3 ! record 1: budget passed at 2:8
$ [run p f --budget 23]
i: int = 0;¶while (true) { i++; if (i == 2) break; } => 0
$ [run p f --budget 22] => 3 ! record 1: budget passed at 2:21
$ [run p f --budget 21] => 3 ! record 1: budget passed at 2:25

== ticks: do takes one for each test and for each return to its body
< ¶
$ [run p f --budget 19]
i: int = 0;¶do i++; while (i < 2); => 0
$ [run p f --budget 18] => 3 ! record 1: budget passed at 2:1
$ [run p f --budget 17] => 3 ! record 1: budget passed at 2:16
$ [run p f --budget 11] => 3 ! record 1: budget passed at 2:4
$ [run p f --budget 10] => 3 ! record 1: budget passed at 2:1
$ [run p f --budget 9] => 3 ! record 1: budget passed at 2:1
$ [run p f --budget 2]
do ; while (false); => 0
$ [run p f --budget 1] => 3 ! record 1: budget passed at 1:1
$ [run p f --budget 1]
do break; while (true); => 0
$ [run p f --budget 19]
i: int = 0;¶do { i++; continue; } while (i < 2); => 0
$ [run p f --budget 18] => 3 ! record 1: budget passed at 2:1
$ [run p f --budget 17] => 3 ! record 1: budget passed at 2:30
$ [run p f --budget 21]
i: int = 0;¶do { i++; if (i == 2) break; } while (true); => 0
$ [run p f --budget 20] => 3 ! record 1: budget passed at 2:11
$ [run p f --budget 13] => 3 ! record 1: budget passed at 2:6

== ticks: for takes one for each test, a missing one too, and for each return to it
< ¶
$ [run p f --budget 42]
c: table sum of int;¶for (i: int = 0; i < 3; i++) emit c <- i; => 0 c[] = 3¶
$ [run p f --budget 41] => 3 ! record 1: budget passed at 2:1
$ [run p f --budget 40] => 3 ! record 1: budget passed at 2:18
$ [run p f --budget 38] => 3 ! record 1: budget passed at 2:18
$ [run p f --budget 37] => 3 ! record 1: budget passed at 2:1
$ [run p f --budget 36] => 3 ! record 1: budget passed at 2:25
$ [run p f --budget 9] => 3 ! record 1: budget passed at 2:25
$ [run p f --budget 1]
for (;;) break; => 0
$ [run p f --budget 3]
x: int; for (x = 1;;) break; => 0
$ [run p f --budget 2] => 3 ! record 1: budget passed at 1:9
$ [run p f --budget 1] => 3 ! record 1: budget passed at 1:14
$ [run p f --budget 4]
for (x := 1; false; ) ; => 0
$ [run p f --budget 3] => 3 ! record 1: budget passed at 1:1
$ [run p f --budget 2] => 3 ! record 1: budget passed at 1:14
$ [run p f --budget 51]
c: table sum of int;¶for (i: int = 0; i < 3; i++) { if (i == 1) continue; emit c <- i; } => 0 c[] = 2¶
$ [run p f --budget 50] => 3 ! record 1: budget passed at 2:1
$ [run p f --budget 46] => 3 ! record 1: budget passed at 2:1
$ [run p f --budget 33]
c: table sum of int;¶for (i: int = 0; ; i++) { if (i == 2) break; emit c <- i; } => 0 c[] = 1¶
$ [run p f --budget 32] => 3 ! record 1: budget passed at 2:27
$ [run p f --budget 29] => 3 ! record 1: budget passed at 2:31
$ [run p f --budget 7]
f: function(n: int): int { return n; }¶for (; f(1) == 2; f(3)) ; => 0
$ [run p f --budget 6] => 3 ! record 1: budget passed at 2:1
$ [run p f --budget 5] => 3 ! record 1: budget passed at 2:8

== ticks: return takes one after its value
< ¶
$ [run p f --budget 4]
c: table sum of int; emit c <- 1; return; emit c <- 10; => 0 c[] = 1¶
$ [run p f --budget 3] => 3 ! record 1: budget passed at 1:35
$ [run p f --budget 1]
return; => 0
$ [run p f --budget 3]
if (true) return; x := 1; => 0
$ [run p f --budget 2] => 3 ! record 1: budget passed at 1:11

== ticks: statics share a budget of their own
< ¶
$ [run p f --budget 4]
static s: int = 1 + 2; => 0
$ [run p f --budget 3] => 3 ! record 0: budget passed at 1:1
$ [run p f --budget 2] => 3 ! record 0: budget passed at 1:17
$ [run p f --budget 1] => 3 ! record 0: budget passed at 1:21
$ [run p f --budget 6]
static a: int = 1;¶static b: int = a + 1; => 0
$ [run p f --budget 5] => 3 ! record 0: budget passed at 2:1
$ [run p f --budget 4] => 3 ! record 0: budget passed at 2:17
$ [run p f --budget 2] => 3 ! record 0: budget passed at 2:17
$ [run p f --budget 6]
static s: string = 12; => 0
$ [run p f --budget 5] => 3 ! record 0: budget passed at 1:1
$ [run p f --budget 4] => 3 ! record 0: budget passed at 1:20
$ [run p f --budget 4]
c: table sum of int; static s: int = 1 + 2;¶emit c <- s; => 0 c[] = 3¶
$ [run p f --budget 3] => 3 ! record 0: budget passed at 1:22
$ [run p f --budget 3]
c: table sum of int; static s: int = 5;¶emit c <- s; => 0 c[] = 5¶
$ [run p f --budget 2] => 3 ! record 1: budget passed at 2:1
$ [run p f --budget 1] => 3 ! record 0: budget passed at 1:22
$ [run p f --budget 5]
f: function(n: int): int { return n; }¶static s: int = f(1); => 0
$ [run p f --budget 4] => 3 ! record 0: budget passed at 2:1
$ [run p f --budget 3] => 3 ! record 0: budget passed at 1:28
"#;
