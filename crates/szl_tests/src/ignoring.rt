//! Runs by example: undefined values that are passed over, and lines that are counted. The lines are as in `runs.rt`.

/// The runs.
pub const RUNS: &str = r#"== passed over: an undefined condition, and the lines of emits
< 1¶¶
$ [run p f --ignore-undefs]
c: table sum of int;¶x: int = input;¶if (x > 0) emit c <- 1;¶ => 0 c[] = 1¶_undefs[3] = 1¶
$ [run p f] => 3 ! record 2: undefined value used at 3:1
< 3¶x¶4¶
$ [run p f --ignore-undefs]
count: table sum of int;¶total: table sum of int;¶sum_of_squares: table sum of int;¶x: int = input;¶emit count <- 1;¶emit total <- x;¶emit sum_of_squares <- x * x;¶ => 0 count[] = 3¶total[] = 7¶sum_of_squares[] = 25¶_undefs[6] = 1¶_undefs[7] = 1¶
$ [run p f] => 0 count[] = 3¶total[] = 7¶sum_of_squares[] = 25¶
< ¶
$ [run p f --ignore-undefs --budget 7]
x: int = input;¶while (x > 0) x = x - 1;¶ => 0 _undefs[2] = 1¶
$ [run p f --ignore-undefs --budget 6] => 3 ! record 1: budget passed at 2:1
$ [run p f --budget 7] => 3 ! record 1: undefined value used at 2:1

== passed over: assignments, which store nothing
< ¶
$ [run p f --ignore-undefs]
t: table sum of int; u: int; x: int = 3;¶x = u;¶emit t <- x; => 0 t[] = 3¶_undefs[2] = 1¶
x: int;¶x++;¶x--; => 0 _undefs[2] = 1¶_undefs[3] = 1¶
t: table sum of int; a: array of int = {1}; u: int;¶a[u] = 5;¶emit t <- a[0]; => 0 t[] = 1¶_undefs[2] = 1¶
t: table sum of int; m: map[string] of int = {"a": 1}; s: string;¶m[s] = 5;¶emit t <- len(m); => 0 t[] = 1¶_undefs[2] = 1¶
a: array of int = {1}; u: int;¶a[7] = u; => 0 _undefs[2] = 1¶
a: array of array of int = {{1}}; u: int;¶a[7][u] = 1; => 0 _undefs[2] = 1¶
a: array of int = {1};¶a[7] = 5; => 3 ! record 1: store outside the value at 2:1
a: array of int;¶a[0] = 5; => 3 ! record 1: store outside the value at 2:1

== passed over: conditions, where neither part of an `if` runs, and a loop ends
< ¶
$ [run p f --ignore-undefs]
t: table sum of int; u: int;¶if (u > 0) emit t <- 1; else emit t <- 2; => 0 _undefs[2] = 1¶
t: table sum of int; u: int;¶if (u > 0) ; else if (u > 1) ;¶emit t <- 1; => 0 t[] = 1¶_undefs[2] = 1¶
t: table sum of int; u: int;¶while (u > 0) emit t <- 1;¶emit t <- 2; => 0 t[] = 2¶_undefs[2] = 1¶
t: table sum of int; a: array of int = {1, 1}; i: int = 0;¶while (a[i] == 1)¶i++;¶emit t <- i; => 0 t[] = 2¶_undefs[2] = 1¶
t: table sum of int; a: array of int = {1, 1}; i: int = 0;¶do¶i++;¶while (a[i] == 1);¶emit t <- i; => 0 t[] = 2¶_undefs[2] = 1¶
t: table collection of int; a: array of int = {1, 1};¶for (i: int = 0; a[i] == 1; i++)¶emit t <- i; => 0 t[] = 0¶t[] = 1¶_undefs[2] = 1¶
t: table sum of int; u: int; i: int = 0;¶while (i < 3) {¶i++;¶if (u > 0) continue;¶emit t <- 1; } => 0 t[] = 3¶_undefs[4] = 3¶

== passed over: calls without a value
< ¶
$ [run p f --ignore-undefs]
f: function(): int { }¶f(); => 0 _undefs[2] = 1¶
t: table sum of int; f: function(): int { emit t <- 1; }¶f();¶f(); => 0 t[] = 2¶_undefs[2] = 1¶_undefs[3] = 1¶
t: table sum of int; f: function(n: int): int { emit t <- 1; return n; } u: int;¶f(u); => 0 _undefs[2] = 1¶
f: function(): int { return 1 / 0; }¶x := f(); => 0
f: function(n: int): int {¶return f(n + 1); }¶f(0); => 3 ! record 1: calls too deep at 2:8

== counted: emits with an undefined part
< ¶
$ [run p f --ignore-undefs]
t: table maximum(1)[int] of int weight int; u: int;¶emit t[u] <- 1 weight 1;¶emit t[1] <- u weight 1;¶emit t[1] <- 1 weight u;¶emit t[1] <- 2 weight 3; => 0 t[1] = 2 weight 3¶_undefs[2] = 1¶_undefs[3] = 1¶_undefs[4] = 1¶
t: table sum of int; u: int;¶emit t <- u; emit t <- u; if (u > 0) ; => 0 _undefs[2] = 3¶
z: table sum of int; u: int;¶emit z <- u;¶a: table sum of int;¶emit a <- 1;¶emit z <- 2; => 0 z[] = 2¶a[] = 1¶_undefs[2] = 1¶
u: int;¶u++;¶;¶;¶;¶;¶;¶;¶;¶;¶u++;¶u++; => 0 _undefs[2] = 1¶_undefs[11] = 1¶_undefs[12] = 1¶
u: int;¶x: int = u;¶y := u + 1; => 0

== passed over: inside functions and searches
< ¶
$ [run p f --ignore-undefs]
t: table sum of int; f: function(n: int): int {¶u: int;¶if (u > 0) return 1;¶return n; }¶emit t <- f(5); => 0 t[] = 5¶_undefs[3] = 1¶
t: table sum of int; f: function(n: int): int {¶u: int;¶while (u > 0) ;¶n = u;¶return n; }¶if (f(5) == 5) emit t <- 1; => 0 t[] = 1¶_undefs[3] = 1¶_undefs[4] = 1¶
a: array of int = {1, 2}; u: int;¶when (i: some int; a[i] == 2) {¶u = a[7]; } => 0 _undefs[3] = 1¶
t: table sum of int; a: array of int = {1, 2}; u: int;¶when (i: each int; a[i] > 0)¶emit t <- u; => 0 _undefs[3] = 2¶
a: array of int = {1, 2}; u: int;¶when (i: all int; a[i] > 0)¶if (u > 0) ; => 0 _undefs[3] = 1¶
a: array of int = {1, 2}; u: int;¶when (i: each int; j: some int; a[i] == a[j])¶{ u++;¶u--; } => 0 _undefs[3] = 2¶_undefs[4] = 2¶
t: table sum of int; a: array of int = {1, 2}; u: int;¶when (i: some int; a[i] == u) emit t <- 1; => 0

== a static isn't counted
< ¶¶
$ [run p f --ignore-undefs]
t: table sum of int; f: function(): int {¶u: int;¶if (u > 0) return 1;¶return 4; }¶static s: int = f();¶emit t <- s; => 0 t[] = 8¶
$ [run p f] => 3 ! record 0: undefined value used at 3:1
$ [run p f --ignore-undefs]
t: table sum of int; f: function(): int {¶u: int;¶if (u > 0) return 1;¶return 4; }¶static s: int = f();¶emit t <- s + f(); => 0 t[] = 16¶_undefs[3] = 2¶

== a statement that is passed over takes its ticks
< ¶
$ [run p f --ignore-undefs --budget 4]
u: int; x: int = 3;¶x = u; => 0 _undefs[2] = 1¶
$ [run p f --ignore-undefs --budget 3] => 3 ! record 1: budget passed at 2:1
$ [run p f --ignore-undefs --budget 4]
u: int;¶if (u > 0) ; => 0 _undefs[2] = 1¶
$ [run p f --ignore-undefs --budget 3] => 3 ! record 1: budget passed at 2:1
$ [run p f --ignore-undefs --budget 4]
u: int;¶do ; while (u > 0); => 0 _undefs[2] = 1¶
$ [run p f --ignore-undefs --budget 3] => 3 ! record 1: budget passed at 2:1
$ [run p f --ignore-undefs --budget 6]
u: int;¶for (i: int = 0; u > 0; i++) ; => 0 _undefs[2] = 1¶
$ [run p f --ignore-undefs --budget 5] => 3 ! record 1: budget passed at 2:1
$ [run p f --ignore-undefs --budget 2]
f: function(n: int): int { }¶f(1); => 0 _undefs[2] = 1¶
$ [run p f --ignore-undefs --budget 1] => 3 ! record 1: budget passed at 2:1
$ [run p f --ignore-undefs --budget 1]
f: function(): int { }¶f(); => 0 _undefs[2] = 1¶
$ [run p f --ignore-undefs --budget 2]
t: table sum of int; u: int;¶emit t <- u; => 0 _undefs[2] = 1¶
$ [run p f --ignore-undefs --budget 1] => 3 ! record 1: budget passed at 2:1

== lines are counted over all records, in whatever shards, once
< ¶1¶¶2¶
$ [run p f --ignore-undefs]
c: table sum of int;¶x: int = input;¶if (x > 0) emit c <- 1;¶ => 0 c[] = 2¶_undefs[3] = 2¶
$ [run p f --ignore-undefs --shard 1 --workers 1] => 0 c[] = 2¶_undefs[3] = 2¶
$ [run p f --ignore-undefs --shard 1 --workers 8] => 0 c[] = 2¶_undefs[3] = 2¶
$ [run p f --shard 1 --ignore-undefs --twice 0,1,2,3 --workers 8] => 0 c[] = 2¶_undefs[3] = 2¶
$ [run p f --shard 1 --attempts 2 --kill 0.0.0,2.0.1 --ignore-undefs] => 0 c[] = 2¶_undefs[3] = 2¶
$ [run p f --shard 2 --attempts 2 --kill 0.0.2,1.1.1 --twice 0 --ignore-undefs] => 0 c[] = 2¶_undefs[3] = 2¶
$ [run p f --shard 1 --attempts 1 --kill 1.0.0 --ignore-undefs] => 7 ! shard 1 lost
$ [run p f --shard 1 --ignore-undefs --budget 6] => 3 ! record 1: budget passed at 3:1

== a table of the reserved name
< ¶
$ [run p f --ignore-undefs]
_undefs: table sum of int; => 2 ! program: reserved name: _undefs at 1:1
c: table sum of int;¶  _undefs: table maximum(2) of int weight int; => 2 ! program: reserved name: _undefs at 2:3
_undefs: table sum of int; emit _undefs <- "a"; => 2 ! program: wrong type at 1:44
_undefs: table sum of int; _undefs: table sum of int; => 2 ! program: declared twice: _undefs at 1:28
_undef: table sum of int; emit _undef <- 1; => 0 _undef[] = 1¶
$ [run p f]
_undefs: table sum of int; emit _undefs <- 3; => 0 _undefs[] = 3¶
$ [check p] => 0
$ [run p f --ignore-undefs]
t: table sum of int; _undefs: int = 3;¶emit t <- _undefs; emit t <- 1 / 0; => 0 t[] = 3¶_undefs[2] = 1¶
t: table sum of int; type _undefs = int;¶x: _undefs = 2; emit t <- x; => 0 t[] = 2¶
t: table sum of int; _undefs: function(): int { return 2; } emit t <- _undefs(); => 0 t[] = 2¶
emit _undefs[1] <- 1; => 2 ! program: unknown name: _undefs at 1:6

== the table of lines isn't one of the 64
< ¶
$ [run p f --ignore-undefs]
t1: table sum of int; t2: table sum of int; t3: table sum of int; t4: table sum of int; t5: table sum of int; t6: table sum of int; t7: table sum of int; t8: table sum of int; t9: table sum of int; t10: table sum of int; t11: table sum of int; t12: table sum of int; t13: table sum of int; t14: table sum of int; t15: table sum of int; t16: table sum of int; t17: table sum of int; t18: table sum of int; t19: table sum of int; t20: table sum of int; t21: table sum of int; t22: table sum of int; t23: table sum of int; t24: table sum of int; t25: table sum of int; t26: table sum of int; t27: table sum of int; t28: table sum of int; t29: table sum of int; t30: table sum of int; t31: table sum of int; t32: table sum of int; t33: table sum of int; t34: table sum of int; t35: table sum of int; t36: table sum of int; t37: table sum of int; t38: table sum of int; t39: table sum of int; t40: table sum of int; t41: table sum of int; t42: table sum of int; t43: table sum of int; t44: table sum of int; t45: table sum of int; t46: table sum of int; t47: table sum of int; t48: table sum of int; t49: table sum of int; t50: table sum of int; t51: table sum of int; t52: table sum of int; t53: table sum of int; t54: table sum of int; t55: table sum of int; t56: table sum of int; t57: table sum of int; t58: table sum of int; t59: table sum of int; t60: table sum of int; t61: table sum of int; t62: table sum of int; t63: table sum of int; t64: table sum of int;¶emit t64 <- 1;¶emit t64 <- 1 / 0; => 0 t64[] = 1¶_undefs[3] = 1¶
t1: table sum of int; t2: table sum of int; t3: table sum of int; t4: table sum of int; t5: table sum of int; t6: table sum of int; t7: table sum of int; t8: table sum of int; t9: table sum of int; t10: table sum of int; t11: table sum of int; t12: table sum of int; t13: table sum of int; t14: table sum of int; t15: table sum of int; t16: table sum of int; t17: table sum of int; t18: table sum of int; t19: table sum of int; t20: table sum of int; t21: table sum of int; t22: table sum of int; t23: table sum of int; t24: table sum of int; t25: table sum of int; t26: table sum of int; t27: table sum of int; t28: table sum of int; t29: table sum of int; t30: table sum of int; t31: table sum of int; t32: table sum of int; t33: table sum of int; t34: table sum of int; t35: table sum of int; t36: table sum of int; t37: table sum of int; t38: table sum of int; t39: table sum of int; t40: table sum of int; t41: table sum of int; t42: table sum of int; t43: table sum of int; t44: table sum of int; t45: table sum of int; t46: table sum of int; t47: table sum of int; t48: table sum of int; t49: table sum of int; t50: table sum of int; t51: table sum of int; t52: table sum of int; t53: table sum of int; t54: table sum of int; t55: table sum of int; t56: table sum of int; t57: table sum of int; t58: table sum of int; t59: table sum of int; t60: table sum of int; t61: table sum of int; t62: table sum of int; t63: table sum of int; t64: table sum of int;¶t65: table sum of int; => 2 ! program: too many tables at 2:1

== the flag stands without a value, once, and a run alone takes it
< ¶
$ [run --ignore-undefs p f]
u: int; u++; => 0 _undefs[1] = 1¶
$ [run p --ignore-undefs f] => 0 _undefs[1] = 1¶
$ [run --ignore-undefs -- p f] => 0 _undefs[1] = 1¶
$ [run --ignore-undefs --budget 9 p f] => 0 _undefs[1] = 1¶
$ [run p f --ignore-undefs=x] => 1 ! bad command line
$ [run p f --ignore-undefs=] => 1 ! bad command line
$ [run p f --ignore-undefs x] => 1 ! bad command line
$ [run p f --ignore-undefs --ignore-undefs] => 1 ! bad command line
$ [run p f --budget --ignore-undefs] => 1 ! bad command line
$ [run p f -- --ignore-undefs] => 1 ! bad command line
$ [run p f --ignore-undef] => 1 ! bad command line
$ [run p f -ignore-undefs] => 1 ! bad command line
$ [check p --ignore-undefs] => 1 ! bad command line
$ [selftest 1 3 2 --ignore-undefs] => 1 ! bad command line"#;
