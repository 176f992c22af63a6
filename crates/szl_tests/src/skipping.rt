//! Runs by example: records that are passed over. The lines are as in `runs.rt`.

/// The runs.
pub const RUNS: &str =
    r#"== the first records that fault are passed over, and the next one is the answer
< 1¶¶1¶
$ [run p f --skip 1]
c: table sum of int;¶x: int = input;¶if (x > 0) emit c <- 1;¶ => 0 c[] = 2¶
$ [run p f --skip=1] => 0 c[] = 2¶
$ [run p f --skip 01] => 0 c[] = 2¶
$ [run p f --skip 1000] => 0 c[] = 2¶
$ [run p f --skip 0] => 3 ! record 2: undefined value used at 3:1
$ [run p f] => 3 ! record 2: undefined value used at 3:1
< ¶1¶¶x¶1¶
$ [run p f --skip 0] => 3 ! record 1: undefined value used at 3:1
$ [run p f --skip 1] => 3 ! record 3: undefined value used at 3:1
$ [run p f --skip 2] => 3 ! record 4: undefined value used at 3:1
$ [run p f --skip 3] => 0 c[] = 2¶
< ¶x¶
$ [run p f --skip 1] => 3 ! record 2: undefined value used at 3:1
$ [run p f --skip 2] => 0
$ [run p f --skip 2 --shard 1] => 0

== records are passed over in the order of the input, by any number of workers
< ¶1¶¶
$ [run p f --skip 1 --shard 1 --workers 1]
c: table sum of int;¶x: int = input;¶if (x > 0) emit c <- 1;¶ => 3 ! record 3: undefined value used at 3:1
$ [run p f --skip 1 --shard 1 --workers 2] => 3 ! record 3: undefined value used at 3:1
$ [run p f --skip 1 --shard 1 --workers 3] => 3 ! record 3: undefined value used at 3:1
$ [run p f --skip 1 --shard 1 --workers 4] => 3 ! record 3: undefined value used at 3:1
$ [run p f --skip 1 --shard 1 --workers 5] => 3 ! record 3: undefined value used at 3:1
$ [run p f --skip 1 --shard 1 --workers 6] => 3 ! record 3: undefined value used at 3:1
$ [run p f --skip 1 --shard 1 --workers 7] => 3 ! record 3: undefined value used at 3:1
$ [run p f --skip 1 --shard 1 --workers 8] => 3 ! record 3: undefined value used at 3:1
< 1¶¶1¶x¶¶1¶y¶
$ [run p f --skip 3 --shard 1 --workers 1] => 3 ! record 7: undefined value used at 3:1
$ [run p f --skip 3 --shard 2 --workers 1] => 3 ! record 7: undefined value used at 3:1
$ [run p f --skip 2 --shard 3 --workers 1] => 3 ! record 5: undefined value used at 3:1
$ [run p f --skip 4 --shard 2 --workers 1] => 0 c[] = 3¶
$ [run p f --skip 3 --shard 1 --workers 2] => 3 ! record 7: undefined value used at 3:1
$ [run p f --skip 3 --shard 2 --workers 2] => 3 ! record 7: undefined value used at 3:1
$ [run p f --skip 2 --shard 3 --workers 2] => 3 ! record 5: undefined value used at 3:1
$ [run p f --skip 4 --shard 2 --workers 2] => 0 c[] = 3¶
$ [run p f --skip 3 --shard 1 --workers 3] => 3 ! record 7: undefined value used at 3:1
$ [run p f --skip 3 --shard 2 --workers 3] => 3 ! record 7: undefined value used at 3:1
$ [run p f --skip 2 --shard 3 --workers 3] => 3 ! record 5: undefined value used at 3:1
$ [run p f --skip 4 --shard 2 --workers 3] => 0 c[] = 3¶
$ [run p f --skip 3 --shard 1 --workers 8] => 3 ! record 7: undefined value used at 3:1
$ [run p f --skip 3 --shard 2 --workers 8] => 3 ! record 7: undefined value used at 3:1
$ [run p f --skip 2 --shard 3 --workers 8] => 3 ! record 5: undefined value used at 3:1
$ [run p f --skip 4 --shard 2 --workers 8] => 0 c[] = 3¶

== a doubled shard passes its records over once
< x¶1¶x¶1¶
$ [run p f --skip 2 --shard 1 --twice 0,1,2,3 --workers 1]
c: table sum of int;¶x: int = input;¶if (x > 0) emit c <- 1;¶ => 0 c[] = 2¶
$ [run p f --skip 1 --shard 2 --twice 0,1 --workers 1] => 3 ! record 3: undefined value used at 3:1
$ [run p f --skip 2 --shard 1 --twice 0,1,2,3 --workers 2] => 0 c[] = 2¶
$ [run p f --skip 1 --shard 2 --twice 0,1 --workers 2] => 3 ! record 3: undefined value used at 3:1
$ [run p f --skip 2 --shard 1 --twice 0,1,2,3 --workers 3] => 0 c[] = 2¶
$ [run p f --skip 1 --shard 2 --twice 0,1 --workers 3] => 3 ! record 3: undefined value used at 3:1
$ [run p f --skip 2 --shard 1 --twice 0,1,2,3 --workers 8] => 0 c[] = 2¶
$ [run p f --skip 1 --shard 2 --twice 0,1 --workers 8] => 3 ! record 3: undefined value used at 3:1

== a record that is passed over has no emits, also none before its fault
< 3¶x¶4¶
$ [run p f --skip 1]
t: table collection of string; c: table sum of int;¶s: string = input; x: int = input; emit t <- s; emit c <- 1;¶if (x > 0) emit c <- 10; => 0 t[] = "3"¶t[] = "4"¶c[] = 22¶
$ [run p f --skip 1 --workers 1 --shard 1] => 0 t[] = "3"¶t[] = "4"¶c[] = 22¶

== each kind of fault is passed over
< 1¶2¶3¶4¶5¶
$ [run p f --budget 5000 --skip 4]
t: table sum of int; f: function(n: int): int { return f(n + 1); } x: int = input; u: int; a: array of int = {1};¶emit t <- x;¶if (x == 1) if (u > 0) ;¶if (x == 2) a[7] = 1;¶if (x == 3) f(0);¶if (x == 4) while (true) ;¶emit t <- 10; => 0 t[] = 15¶
$ [run p f --budget 5000 --skip 0] => 3 ! record 1: undefined value used at 3:13
$ [run p f --budget 5000 --skip 1] => 3 ! record 2: store outside the value at 4:13
$ [run p f --budget 5000 --skip 2] => 3 ! record 3: calls too deep at 1:56
< 9¶1¶9¶
$ [run p f --budget 41 --skip 1]
c: table sum of int;¶x: int = input;¶while (x == 9) ;¶emit c <- x; => 3 ! record 3: budget passed at 3:1
$ [run p f --budget 41 --skip 2] => 0 c[] = 1¶

== a fault in a static is not passed over
$ [run p f --skip 1000]
f: function(n: int): int { return f(n + 1); }¶static s: int = f(0); => 3 ! record 0: calls too deep at 1:35
$ [run p f --skip 0] => 3 ! record 0: calls too deep at 1:35
< 1¶
$ [run p f --skip 1000] => 3 ! record 0: calls too deep at 1:35
$ [run p none --skip 1] => 3 ! record 0: calls too deep at 1:35

== a lost shard decides, unless there are too many faults before it
< ¶1¶1¶¶
$ [run p f --skip 1 --shard 1 --attempts 1 --kill 2.0.0]
c: table sum of int;¶x: int = input;¶if (x > 0) emit c <- 1;¶ => 7 ! shard 2 lost
$ [run p f --skip 0 --shard 1 --attempts 1 --kill 2.0.0] => 3 ! record 1: undefined value used at 3:1
< ¶x¶1¶¶
$ [run p f --skip 1 --shard 1 --attempts 1 --kill 2.0.0] => 3 ! record 2: undefined value used at 3:1
$ [run p f --skip 2 --shard 1 --attempts 1 --kill 2.0.0] => 7 ! shard 2 lost
$ [run p f --skip 2 --shard 1 --attempts 2 --kill 2.0.0] => 3 ! record 4: undefined value used at 3:1
$ [run p f --skip 3 --shard 1 --attempts 2 --kill 2.0.0] => 0 c[] = 1¶

== whether a death counts is a matter of the records of its own shard
< ¶1¶
$ [run p f --skip 1 --shard 2 --attempts 1 --kill 0.0.2]
c: table sum of int;¶x: int = input;¶if (x > 0) emit c <- 1;¶ => 7 ! shard 0 lost
$ [run p f --skip 0 --shard 2 --attempts 1 --kill 0.0.2] => 3 ! record 1: undefined value used at 3:1
$ [run p f --skip 0 --shard 2 --attempts 1 --kill 0.0.0] => 7 ! shard 0 lost
$ [run p f --skip 0 --shard 2 --attempts 1 --kill 0.0.1] => 3 ! record 1: undefined value used at 3:1
$ [run p f --skip 1 --shard 2 --attempts 1 --kill 0.0.1] => 7 ! shard 0 lost
$ [run p f --skip 1 --shard 2 --attempts 1 --kill 0.0.3] => 0 c[] = 1¶
< x¶1¶x¶
$ [run p f --skip 1 --shard 1 --attempts 1 --kill 2.0.1] => 7 ! shard 2 lost
$ [run p f --skip 1 --shard 1 --attempts 2 --kill 2.0.1] => 3 ! record 3: undefined value used at 3:1
$ [run p f --skip 1 --shard 1 --attempts 2 --kill 2.0.1,2.1.0] => 7 ! shard 2 lost
$ [run p f --skip 0 --shard 1 --attempts 1 --kill 2.0.1] => 3 ! record 1: undefined value used at 3:1
< x¶x¶1¶
$ [run p f --skip 1 --attempts 1 --kill 0.0.2] => 3 ! record 2: undefined value used at 3:1
$ [run p f --skip 1 --attempts 1 --kill 0.0.1] => 7 ! shard 0 lost
$ [run p f --skip 2 --attempts 1 --kill 0.0.3] => 7 ! shard 0 lost
$ [run p f --skip 1 --attempts 2 --kill 0.0.1,0.1.2] => 3 ! record 2: undefined value used at 3:1

== an attempt that dies after a record that is passed over is made again
< x¶1¶1¶x¶1¶
$ [run p f --skip 2 --shard 3 --attempts 2 --kill 0.0.2,1.0.1 --twice 0,1 --workers 1]
c: table sum of int;¶x: int = input;¶if (x > 0) emit c <- 1;¶ => 0 c[] = 3¶
$ [run p f --skip 1 --shard 3 --attempts 2 --kill 0.0.2,1.0.1 --twice 0,1 --workers 1] => 3 ! record 4: undefined value used at 3:1
$ [run p f --skip 2 --shard 3 --attempts 2 --kill 0.0.2,1.0.1 --twice 0,1 --workers 2] => 0 c[] = 3¶
$ [run p f --skip 1 --shard 3 --attempts 2 --kill 0.0.2,1.0.1 --twice 0,1 --workers 2] => 3 ! record 4: undefined value used at 3:1
$ [run p f --skip 2 --shard 3 --attempts 2 --kill 0.0.2,1.0.1 --twice 0,1 --workers 3] => 0 c[] = 3¶
$ [run p f --skip 1 --shard 3 --attempts 2 --kill 0.0.2,1.0.1 --twice 0,1 --workers 3] => 3 ! record 4: undefined value used at 3:1
$ [run p f --skip 2 --shard 3 --attempts 2 --kill 0.0.2,1.0.1 --twice 0,1 --workers 8] => 0 c[] = 3¶
$ [run p f --skip 1 --shard 3 --attempts 2 --kill 0.0.2,1.0.1 --twice 0,1 --workers 8] => 3 ! record 4: undefined value used at 3:1

== a damaged input is told after records that are passed over
< \x01x\x011\x05ab
$ [run p f --skip 1 --frame delimited]
c: table sum of int;¶x: int = input;¶if (x > 0) emit c <- 1;¶ => 4 ! input damaged at byte 4
$ [run p f --skip 0 --frame delimited] => 3 ! record 1: undefined value used at 3:1
$ [run p f --skip 1 --frame delimited --attempts 1 --kill 0.0.2] => 7 ! shard 0 lost
$ [run p f --skip 1 --frame delimited --shard 1 --workers 8] => 4 ! input damaged at byte 4

== statements are passed over without their record, and a record with its statements
< 1¶7¶x¶
$ [run p f --skip 1 --ignore-undefs]
t: table sum of int; x: int = input; a: array of int = {1, 2};¶emit t <- 1; emit t <- 1 / 0;¶a[x] = 5;¶emit t <- a[1]; => 0 t[] = 9¶_undefs[2] = 2¶_undefs[3] = 1¶
$ [run p f --skip 0 --ignore-undefs] => 3 ! record 2: store outside the value at 3:1
$ [run p f --skip 1] => 3 ! record 3: undefined value used at 3:1
$ [run p f --skip 2] => 0 t[] = 6¶

== how many records may be passed over
< ¶1¶
$ [run p f --skip 1001]
c: table sum of int;¶x: int = input;¶if (x > 0) emit c <- 1;¶ => 1 ! bad command line
$ [run p f --skip 18446744073709551616] => 1 ! bad command line
$ [run p f --skip -1] => 1 ! bad command line
$ [run p f --skip] => 1 ! bad command line
$ [run p f --skip=] => 1 ! bad command line
$ [run p f --skip x] => 1 ! bad command line
$ [run p f --skip 1 --skip 1] => 1 ! bad command line
$ [run --skip 1 p f] => 0 c[] = 1¶
$ [run p f -- --skip 1] => 1 ! bad command line
$ [check p --skip 1] => 1 ! bad command line
$ [selftest 1 3 2 --skip 1] => 1 ! bad command line"#;
