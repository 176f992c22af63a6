//! Runs by example: records that are passed over, in runs that are drawn. The lines are as in `runs.rt`, and `tools/make/kill-lists` made them.

/// The runs.
pub const RUNS: &str = r#"== drawn
< \x013\x013\x013\x02-1\x0212\x02-1\x05ab
$ [run p f --shard 3 --attempts 1 --skip 4 --frame delimited]
c: table sum of int; x: int = input; if (x > 0) emit c <- x; => 4 ! input damaged at byte 15
$ [run p f --shard 2 --attempts 2 --skip 3 --kill 1.1.1,2.0.0,2.1.1,3.0.2 --twice 1 --frame delimited] => 7 ! shard 2 lost
$ [run p f --shard 2 --attempts 3 --skip 3 --kill 2.1.2 --frame delimited] => 4 ! input damaged at byte 15
$ [run p f --shard 3 --attempts 2 --skip 1000 --frame delimited] => 4 ! input damaged at byte 15
$ [run p f --shard 3 --attempts 3 --skip 4 --kill 0.1.2,1.1.2,2.1.0,2.2.0,3.0.1 --twice 1,2 --frame delimited] => 4 ! input damaged at byte 15
< 3¶
$ [run p f --shard 2 --attempts 2 --skip 1 --kill 0.0.0,0.1.0,1.0.0,2.0.1,3.1.0 --twice 1,3]
c: table sum of int; x: int = input; if (x > 0) emit c <- x; => 7 ! shard 0 lost
$ [run p f --shard 3 --attempts 3 --skip 1 --kill 0.0.3,0.1.3,1.1.2,3.0.2,3.2.1] => 0 c[] = 3¶
$ [run p f --shard 2 --attempts 2 --skip 2 --kill 1.0.1,2.0.1,2.1.0,3.1.0 --twice 1,3] => 0 c[] = 3¶
$ [run p f --shard 3 --attempts 3 --skip 3 --kill 0.0.3,0.1.0,0.2.3,1.1.0,1.2.0,2.0.1,2.1.0 --twice 0] => 0 c[] = 3¶
$ [run p f --shard 3 --attempts 1 --skip 0 --twice 2 --ignore-undefs] => 0 c[] = 3¶
< 1¶1¶x¶0¶0¶1¶
$ [run p f --shard 1 --attempts 3 --skip 0 --kill 0.1.3,1.2.0,2.2.3,3.0.2 --twice 2,3 --ignore-undefs]
c: table sum of int; x: int = input; a: array of int = {1, 2};¶emit c <- 1 / 0;¶a[x] = 7;¶emit c <- a[0]; => 0 c[] = 18¶_undefs[2] = 6¶_undefs[3] = 1¶
$ [run p f --shard 2 --attempts 3 --skip 4 --kill 0.2.3,3.0.3 --ignore-undefs] => 0 c[] = 18¶_undefs[2] = 6¶_undefs[3] = 1¶
$ [run p f --shard 3 --attempts 2 --skip 4 --kill 1.0.0,1.1.1,2.1.3 --twice 3] => 7 ! shard 1 lost
$ [run p f --shard 2 --attempts 1 --skip 3 --kill 2.0.3,3.0.1 --twice 1] => 0 c[] = 17¶
$ [run p f --shard 2 --attempts 2 --skip 1 --kill 3.0.2] => 0 c[] = 17¶
< 0¶9¶
$ [run p f --shard 3 --attempts 1 --skip 4 --ignore-undefs]
c: table sum of int; x: int = input; a: array of int = {1, 2};¶emit c <- 1 / 0;¶a[x] = 7;¶emit c <- a[0]; => 0 c[] = 7¶_undefs[2] = 1¶
$ [run p f --shard 1 --attempts 1 --skip 4 --twice 1 --ignore-undefs] => 0 c[] = 7¶_undefs[2] = 1¶
$ [run p f --shard 3 --attempts 3 --skip 2 --kill 0.2.3,1.2.1 --twice 0] => 0 c[] = 7¶
$ [run p f --shard 3 --attempts 2 --skip 0 --kill 3.0.1,3.1.3 --twice 2,3] => 3 ! record 2: store outside the value at 3:1
$ [run p f --shard 1 --attempts 2 --skip 0 --twice 1] => 3 ! record 2: store outside the value at 3:1
< 9¶0¶9¶0¶x¶-1¶9¶
$ [run p f --shard 1 --attempts 3 --skip 1 --kill 0.1.3,1.1.0,1.2.3,2.1.2,2.2.3 --twice 1]
c: table sum of int; x: int = input; a: array of int = {1, 2};¶emit c <- 1 / 0;¶a[x] = 7;¶emit c <- a[0]; => 3 ! record 3: store outside the value at 3:1
$ [run p f --shard 2 --attempts 2 --skip 1 --kill 0.0.1,2.0.1,3.0.3] => 3 ! record 3: store outside the value at 3:1
$ [run p f --shard 3 --attempts 3 --skip 3 --kill 2.0.0,3.0.2,3.2.1 --twice 3 --ignore-undefs] => 3 ! record 7: store outside the value at 3:1
$ [run p f --shard 1 --attempts 3 --skip 4 --kill 0.0.2,0.1.3,2.0.3,2.1.1,3.1.2,3.2.2 --twice 0,3] => 3 ! record 7: store outside the value at 3:1
$ [run p f --shard 3 --attempts 3 --skip 0 --kill 0.1.0,1.1.0] => 3 ! record 1: store outside the value at 3:1
< 3¶x¶x¶9¶¶3¶12¶¶
$ [run p f --shard 3 --attempts 1 --skip 1 --kill 3.0.2 --budget 41 --twice 2]
c: table sum of int;¶x: int = input; while (x == 9) ;¶emit c <- x; => 3 ! record 3: undefined value used at 2:17
$ [run p f --shard 1 --attempts 1 --skip 4 --kill 1.0.3,2.0.3,3.0.3 --budget 41 --twice 0,1 --ignore-undefs] => 0 c[] = 18¶_undefs[2] = 4¶_undefs[3] = 4¶
$ [run p f --shard 3 --attempts 1 --skip 3 --kill 2.0.3,3.0.0 --budget 41 --twice 0] => 3 ! record 5: undefined value used at 2:17
$ [run p f --shard 2 --attempts 3 --skip 4 --kill 1.1.0,2.0.1,2.1.1,2.2.3,3.0.1 --budget 41 --twice 3] => 3 ! record 8: undefined value used at 2:17
$ [run p f --shard 2 --attempts 1 --skip 4 --kill 3.0.1 --budget 41 --twice 0,2,3 --ignore-undefs] => 7 ! shard 3 lost
< 9¶1¶0¶1¶-1¶0¶1¶0¶
$ [run p f --shard 1 --attempts 1 --skip 1 --kill 1.0.3 --twice 0]
c: table sum of int; x: int = input; a: array of int = {1, 2};¶emit c <- 1 / 0;¶a[x] = 7;¶emit c <- a[0]; => 3 ! record 5: store outside the value at 3:1
$ [run p f --shard 1 --attempts 2 --skip 4 --kill 0.1.2,1.1.2,2.1.3 --twice 3] => 0 c[] = 24¶
$ [run p f --shard 3 --attempts 1 --skip 1000] => 0 c[] = 24¶
$ [run p f --shard 2 --attempts 2 --skip 1 --kill 0.0.3,0.1.1,2.0.2,2.1.0,3.0.2,3.1.2 --twice 3] => 7 ! shard 2 lost
$ [run p f --shard 3 --attempts 1 --skip 2 --kill 1.0.1,2.0.3 --twice 2,3] => 7 ! shard 1 lost
< \x0212\x0212\x02-1\x0212\x02-1
$ [run p f --shard 2 --attempts 3 --skip 4 --kill 0.0.1,0.2.1,1.0.3,1.2.3,3.0.1,3.1.0 --twice 1 --frame delimited]
n: table sum of int; t: table collection of string;¶s: string = input; x: int = input; emit n <- 1; emit t <- s;¶if (x > 3) emit n <- 100; => 0 n[] = 305¶t[] = "-1"¶t[] = "-1"¶t[] = "12"¶t[] = "12"¶t[] = "12"¶
$ [run p f --shard 2 --attempts 1 --skip 3 --twice 2,3 --frame delimited] => 0 n[] = 305¶t[] = "-1"¶t[] = "-1"¶t[] = "12"¶t[] = "12"¶t[] = "12"¶
$ [run p f --shard 1 --attempts 3 --skip 1 --kill 0.0.1,1.2.0,2.1.1,2.2.2 --twice 3 --frame delimited] => 0 n[] = 305¶t[] = "-1"¶t[] = "-1"¶t[] = "12"¶t[] = "12"¶t[] = "12"¶
$ [run p f --shard 2 --attempts 3 --skip 2 --kill 1.1.2,3.1.0 --twice 3 --ignore-undefs --frame delimited] => 0 n[] = 305¶t[] = "-1"¶t[] = "-1"¶t[] = "12"¶t[] = "12"¶t[] = "12"¶
$ [run p f --shard 3 --attempts 1 --skip 0 --twice 0,2,3 --frame delimited] => 0 n[] = 305¶t[] = "-1"¶t[] = "-1"¶t[] = "12"¶t[] = "12"¶t[] = "12"¶
< 12¶-1¶12¶12¶12¶9¶
$ [run p f --shard 1 --attempts 1 --skip 0 --kill 1.0.2,3.0.3 --twice 2,3]
n: table sum of int; t: table collection of string;¶s: string = input; x: int = input; emit n <- 1; emit t <- s;¶if (x > 3) emit n <- 100; => 0 n[] = 506¶t[] = "-1"¶t[] = "12"¶t[] = "12"¶t[] = "12"¶t[] = "12"¶t[] = "9"¶
$ [run p f --shard 1 --attempts 3 --skip 1 --kill 2.0.1,2.2.2 --twice 1] => 0 n[] = 506¶t[] = "-1"¶t[] = "12"¶t[] = "12"¶t[] = "12"¶t[] = "12"¶t[] = "9"¶
$ [run p f --shard 2 --attempts 1 --skip 3 --twice 0] => 0 n[] = 506¶t[] = "-1"¶t[] = "12"¶t[] = "12"¶t[] = "12"¶t[] = "12"¶t[] = "9"¶
$ [run p f --shard 3 --attempts 2 --skip 2 --kill 0.0.3] => 0 n[] = 506¶t[] = "-1"¶t[] = "12"¶t[] = "12"¶t[] = "12"¶t[] = "12"¶t[] = "9"¶
$ [run p f --shard 3 --attempts 3 --skip 4 --kill 0.0.3 --twice 0] => 0 n[] = 506¶t[] = "-1"¶t[] = "12"¶t[] = "12"¶t[] = "12"¶t[] = "12"¶t[] = "9"¶
< -1¶x¶3¶3¶12¶3¶
$ [run p f --shard 2 --attempts 3 --skip 0 --kill 0.0.0,0.1.2,3.2.0 --twice 3]
n: table sum of int; t: table collection of string;¶s: string = input; x: int = input; emit n <- 1; emit t <- s;¶if (x > 3) emit n <- 100; => 3 ! record 2: undefined value used at 3:1
$ [run p f --shard 1 --attempts 2 --skip 4 --kill 3.0.2,3.1.2] => 0 n[] = 105¶t[] = "-1"¶t[] = "12"¶t[] = "3"¶t[] = "3"¶t[] = "3"¶
$ [run p f --shard 1 --attempts 3 --skip 2 --kill 0.1.2,1.0.1,2.1.3,2.2.2,3.2.3] => 0 n[] = 105¶t[] = "-1"¶t[] = "12"¶t[] = "3"¶t[] = "3"¶t[] = "3"¶
$ [run p f --shard 3 --attempts 1 --skip 1000 --kill 2.0.1 --twice 0] => 0 n[] = 105¶t[] = "-1"¶t[] = "12"¶t[] = "3"¶t[] = "3"¶t[] = "3"¶
$ [run p f --shard 2 --attempts 2 --skip 0 --kill 0.0.0,2.0.3,2.1.3 --twice 0] => 3 ! record 2: undefined value used at 3:1
< 9¶
$ [run p f --shard 3 --attempts 1 --skip 1 --kill 1.0.2,3.0.0 --twice 2]
c: table sum of int; x: int = input; a: array of int = {1, 2};¶emit c <- 1 / 0;¶a[x] = 7;¶emit c <- a[0]; => 0
$ [run p f --shard 2 --attempts 3 --skip 2 --kill 1.0.1,1.1.0,1.2.2 --twice 3] => 0
$ [run p f --shard 1 --attempts 1 --skip 3 --twice 0] => 0
$ [run p f --shard 2 --attempts 2 --skip 1 --kill 0.1.0,1.0.0,3.0.2 --twice 2] => 0
$ [run p f --shard 3 --attempts 3 --skip 2 --kill 1.1.0,3.1.0 --twice 0] => 0
< 12¶12¶9¶-1¶-1¶3¶12¶-1¶12¶
$ [run p f --shard 3 --attempts 2 --skip 1 --kill 0.1.3,2.1.0 --twice 1]
n: table sum of int; t: table collection of string;¶s: string = input; x: int = input; emit n <- 1; emit t <- s;¶if (x > 3) emit n <- 100; => 0 n[] = 509¶t[] = "-1"¶t[] = "-1"¶t[] = "-1"¶t[] = "12"¶t[] = "12"¶t[] = "12"¶t[] = "12"¶t[] = "3"¶t[] = "9"¶
$ [run p f --shard 1 --attempts 1 --skip 1 --kill 2.0.1 --twice 3 --ignore-undefs] => 7 ! shard 2 lost
$ [run p f --shard 1 --attempts 1 --skip 2 --kill 1.0.3 --twice 0] => 0 n[] = 509¶t[] = "-1"¶t[] = "-1"¶t[] = "-1"¶t[] = "12"¶t[] = "12"¶t[] = "12"¶t[] = "12"¶t[] = "3"¶t[] = "9"¶
$ [run p f --shard 2 --attempts 2 --skip 4 --kill 1.1.3,2.0.3,2.1.3 --twice 1,2] => 0 n[] = 509¶t[] = "-1"¶t[] = "-1"¶t[] = "-1"¶t[] = "12"¶t[] = "12"¶t[] = "12"¶t[] = "12"¶t[] = "3"¶t[] = "9"¶
$ [run p f --shard 2 --attempts 3 --skip 1 --kill 1.1.1,2.0.1 --twice 1,2 --ignore-undefs] => 0 n[] = 509¶t[] = "-1"¶t[] = "-1"¶t[] = "-1"¶t[] = "12"¶t[] = "12"¶t[] = "12"¶t[] = "12"¶t[] = "3"¶t[] = "9"¶
< 12¶9¶3¶
$ [run p f --shard 2 --attempts 3 --skip 0 --kill 3.2.2 --twice 1]
c: table sum of int; x: int = input; if (x > 0) emit c <- x; => 0 c[] = 24¶
$ [run p f --shard 3 --attempts 1 --skip 0 --kill 1.0.2 --twice 1] => 0 c[] = 24¶
$ [run p f --shard 2 --attempts 3 --skip 1000 --kill 0.0.2,0.1.2,0.2.1,1.0.3,1.1.2,1.2.1,2.1.0,3.1.2,3.2.3] => 7 ! shard 0 lost
$ [run p f --shard 1 --attempts 1 --skip 2 --kill 0.0.0,1.0.2,2.0.0 --twice 0,2] => 7 ! shard 0 lost
$ [run p f --shard 3 --attempts 3 --skip 1 --kill 0.1.1,1.2.2,2.0.1,2.1.1,3.0.0,3.1.0 --twice 1] => 0 c[] = 24¶
< 12¶12¶¶3¶
$ [run p f --shard 1 --attempts 1 --skip 4 --kill 0.0.0,1.0.2,3.0.2 --twice 1,3]
n: table sum of int; t: table collection of string;¶s: string = input; x: int = input; emit n <- 1; emit t <- s;¶if (x > 3) emit n <- 100; => 7 ! shard 0 lost
$ [run p f --shard 3 --attempts 1 --skip 3 --kill 0.0.3 --twice 0,3] => 7 ! shard 0 lost
$ [run p f --shard 1 --attempts 1 --skip 1000 --kill 0.0.1,2.0.1 --twice 1,3] => 7 ! shard 0 lost
$ [run p f --shard 2 --attempts 1 --skip 2 --kill 3.0.0 --twice 0,1,2] => 0 n[] = 203¶t[] = "12"¶t[] = "12"¶t[] = "3"¶
$ [run p f --shard 1 --attempts 1 --skip 2 --kill 1.0.0 --twice 3] => 7 ! shard 1 lost
< \x0212\x0212\x013\x019
$ [run p f --shard 2 --attempts 1 --skip 1 --kill 3.0.0 --frame delimited]
c: table sum of int; x: int = input; if (x > 0) emit c <- x; => 0 c[] = 36¶
$ [run p f --shard 1 --attempts 3 --skip 0 --kill 1.1.2,2.1.1,2.2.2,3.2.1 --twice 3 --frame delimited] => 0 c[] = 36¶
$ [run p f --shard 2 --attempts 1 --skip 1000 --kill 3.0.0 --frame delimited] => 0 c[] = 36¶
$ [run p f --shard 3 --attempts 2 --skip 0 --kill 1.1.3,2.0.3 --twice 1 --frame delimited] => 0 c[] = 36¶
$ [run p f --shard 2 --attempts 3 --skip 1 --kill 1.1.0,1.2.1,2.0.2,3.0.2 --twice 2 --frame delimited] => 0 c[] = 36¶
< 12¶
$ [run p f --shard 1 --attempts 3 --skip 1000 --kill 1.1.2,3.1.3 --twice 2]
n: table sum of int; t: table collection of string;¶s: string = input; x: int = input; emit n <- 1; emit t <- s;¶if (x > 3) emit n <- 100; => 0 n[] = 101¶t[] = "12"¶
$ [run p f --shard 1 --attempts 3 --skip 1 --kill 0.0.0,2.2.1,3.0.2,3.2.1 --twice 1,3] => 0 n[] = 101¶t[] = "12"¶
$ [run p f --shard 2 --attempts 3 --skip 1 --kill 1.2.2,2.1.3 --twice 1] => 0 n[] = 101¶t[] = "12"¶
$ [run p f --shard 1 --attempts 2 --skip 4 --kill 2.1.0,3.0.1 --twice 1] => 0 n[] = 101¶t[] = "12"¶
$ [run p f --shard 2 --attempts 2 --skip 0 --kill 0.0.2,0.1.1,1.0.3,3.0.2] => 0 n[] = 101¶t[] = "12"¶
< \x00\x02-1\x0212\x01x\x01x\x00\x02-1
$ [run p f --shard 2 --attempts 2 --skip 0 --kill 3.0.1 --twice 0,1 --frame delimited]
n: table sum of int; t: table collection of string;¶s: string = input; x: int = input; emit n <- 1; emit t <- s;¶if (x > 3) emit n <- 100; => 3 ! record 1: undefined value used at 3:1
$ [run p f --shard 2 --attempts 2 --skip 2 --kill 2.1.1,3.1.0 --twice 0,2,3 --frame delimited] => 3 ! record 5: undefined value used at 3:1
$ [run p f --shard 2 --attempts 2 --skip 1 --kill 0.0.0,0.1.0,1.1.1 --twice 1,3 --frame delimited] => 7 ! shard 0 lost
$ [run p f --shard 2 --attempts 2 --skip 1000 --kill 2.0.3,3.0.3 --twice 2,3 --frame delimited] => 0 n[] = 103¶t[] = "-1"¶t[] = "-1"¶t[] = "12"¶
$ [run p f --shard 1 --attempts 3 --skip 4 --kill 0.0.0,1.0.2,1.2.1,2.2.2 --twice 1 --frame delimited] => 0 n[] = 103¶t[] = "-1"¶t[] = "-1"¶t[] = "12"¶
< ¶¶1¶
$ [run p f --shard 2 --attempts 3 --skip 4 --kill 0.0.1,1.0.1,3.0.2]
c: table sum of int; x: int = input; a: array of int = {1, 2};¶emit c <- 1 / 0;¶a[x] = 7;¶emit c <- a[0]; => 0 c[] = 1¶
$ [run p f --shard 3 --attempts 1 --skip 2 --twice 0,2] => 0 c[] = 1¶
$ [run p f --shard 2 --attempts 1 --skip 2 --kill 1.0.2,2.0.1] => 0 c[] = 1¶
$ [run p f --shard 3 --attempts 3 --skip 1000 --kill 1.2.0,2.2.0,3.0.3,3.1.0,3.2.3 --twice 0,2] => 0 c[] = 1¶
$ [run p f --shard 1 --attempts 1 --skip 1 --kill 2.0.3 --twice 0,1] => 3 ! record 2: undefined value used at 3:1
< \x013\x0212\x019\x0212\x0212\x0212\x0212\x01x\x01x\x05ab
$ [run p f --shard 3 --attempts 2 --skip 0 --kill 1.1.2,3.0.1 --frame delimited]
c: table sum of int; x: int = input; if (x > 0) emit c <- x; => 3 ! record 8: undefined value used at 1:38
$ [run p f --shard 2 --attempts 3 --skip 1 --kill 0.0.3,0.2.1 --frame delimited] => 3 ! record 9: undefined value used at 1:38
$ [run p f --shard 3 --attempts 3 --skip 1 --kill 0.0.1,0.2.0,2.0.3,2.1.0,2.2.3,3.1.2 --twice 0,1,2,3 --frame delimited] => 3 ! record 9: undefined value used at 1:38
$ [run p f --shard 1 --attempts 2 --skip 0 --kill 1.1.0,2.1.1 --twice 0 --frame delimited] => 3 ! record 8: undefined value used at 1:38
$ [run p f --shard 3 --attempts 2 --skip 0 --kill 0.0.1,0.1.0,2.1.3 --twice 0,2 --frame delimited] => 7 ! shard 0 lost
< \x00\x0212\x02-1\x00\x00\x00\x013\x013
$ [run p f --shard 2 --attempts 3 --skip 1000 --kill 0.1.0,2.1.1 --twice 0,1,2,3 --frame delimited]
n: table sum of int; t: table collection of string;¶s: string = input; x: int = input; emit n <- 1; emit t <- s;¶if (x > 3) emit n <- 100; => 0 n[] = 104¶t[] = "-1"¶t[] = "12"¶t[] = "3"¶t[] = "3"¶
$ [run p f --shard 1 --attempts 1 --skip 2 --frame delimited] => 3 ! record 5: undefined value used at 3:1
$ [run p f --shard 1 --attempts 1 --skip 4 --kill 3.0.3 --twice 1 --frame delimited] => 0 n[] = 104¶t[] = "-1"¶t[] = "12"¶t[] = "3"¶t[] = "3"¶
$ [run p f --shard 1 --attempts 1 --skip 3 --twice 3 --frame delimited] => 3 ! record 6: undefined value used at 3:1
$ [run p f --shard 2 --attempts 3 --skip 1 --kill 0.0.2,0.1.0,1.0.3,1.2.2,2.2.3,3.0.3,3.1.0 --twice 3 --frame delimited] => 3 ! record 4: undefined value used at 3:1
< 3¶9¶x¶3¶¶3¶3¶12¶3¶
$ [run p f --shard 1 --attempts 2 --skip 1000 --kill 0.1.1,3.0.1,3.1.3 --twice 0 --ignore-undefs]
c: table sum of int; x: int = input; if (x > 0) emit c <- x; => 0 c[] = 36¶_undefs[1] = 2¶
$ [run p f --shard 1 --attempts 1 --skip 2 --kill 0.0.0] => 7 ! shard 0 lost
$ [run p f --shard 3 --attempts 2 --skip 2 --kill 0.0.0,1.0.1] => 0 c[] = 36¶
$ [run p f --shard 3 --attempts 2 --skip 2 --kill 0.0.3,1.0.2,3.1.1 --twice 0,2] => 0 c[] = 36¶
$ [run p f --shard 2 --attempts 1 --skip 2 --kill 2.0.2,3.0.0] => 7 ! shard 2 lost
< 12¶12¶12¶¶9¶3¶¶
$ [run p f --shard 2 --attempts 2 --skip 4 --ignore-undefs]
c: table sum of int; x: int = input; if (x > 0) emit c <- x; => 0 c[] = 48¶_undefs[1] = 2¶
$ [run p f --shard 2 --attempts 3 --skip 1 --kill 2.0.3,2.2.0,3.0.2,3.1.0 --twice 1,3] => 3 ! record 7: undefined value used at 1:38
$ [run p f --shard 2 --attempts 3 --skip 4 --kill 0.0.0,2.0.3,2.2.0 --twice 0,1] => 0 c[] = 48¶
$ [run p f --shard 3 --attempts 1 --skip 0 --kill 3.0.0] => 3 ! record 4: undefined value used at 1:38
$ [run p f --shard 2 --attempts 2 --skip 0 --kill 0.1.0,2.0.3,3.1.1 --twice 2 --ignore-undefs] => 0 c[] = 48¶_undefs[1] = 2¶
< 3¶¶9¶9¶12¶12¶-1¶12¶12¶
$ [run p f --shard 3 --attempts 1 --skip 1 --kill 0.0.1,3.0.0 --budget 41]
c: table sum of int;¶x: int = input; while (x == 9) ;¶emit c <- x; => 7 ! shard 0 lost
$ [run p f --shard 1 --attempts 1 --skip 2 --kill 1.0.1 --budget 41 --twice 0] => 7 ! shard 1 lost
$ [run p f --shard 1 --attempts 2 --skip 0 --budget 41 --twice 0,3] => 3 ! record 2: undefined value used at 2:17
$ [run p f --shard 2 --attempts 1 --skip 1000 --budget 41 --twice 1] => 0 c[] = 50¶
$ [run p f --shard 1 --attempts 3 --skip 1 --kill 0.1.0,0.2.1,1.1.2,1.2.3,3.2.3 --budget 41 --twice 0,2] => 3 ! record 3: budget passed at 2:17
< \x00\x013\x013\x01x\x01x\x0212\x0212
$ [run p f --shard 1 --attempts 3 --skip 4 --kill 0.2.1,1.2.2,3.1.1,3.2.2 --twice 2 --frame delimited]
n: table sum of int; t: table collection of string;¶s: string = input; x: int = input; emit n <- 1; emit t <- s;¶if (x > 3) emit n <- 100; => 0 n[] = 204¶t[] = "12"¶t[] = "12"¶t[] = "3"¶t[] = "3"¶
$ [run p f --shard 3 --attempts 2 --skip 1 --kill 1.0.1,2.1.1 --twice 3 --frame delimited] => 3 ! record 4: undefined value used at 3:1
$ [run p f --shard 3 --attempts 2 --skip 1 --kill 2.0.1,2.1.2 --twice 0,1,2 --frame delimited] => 3 ! record 4: undefined value used at 3:1
$ [run p f --shard 3 --attempts 3 --skip 3 --kill 0.1.3,1.0.0,1.2.2,3.0.3,3.1.3 --frame delimited] => 0 n[] = 204¶t[] = "12"¶t[] = "12"¶t[] = "3"¶t[] = "3"¶
$ [run p f --shard 2 --attempts 3 --skip 1 --kill 0.1.0,1.1.1,1.2.1 --frame delimited] => 3 ! record 4: undefined value used at 3:1
< x¶9¶¶12¶12¶¶
$ [run p f --shard 3 --attempts 1 --skip 2 --kill 1.0.2,3.0.1 --twice 2]
n: table sum of int; t: table collection of string;¶s: string = input; x: int = input; emit n <- 1; emit t <- s;¶if (x > 3) emit n <- 100; => 7 ! shard 1 lost
$ [run p f --shard 3 --attempts 3 --skip 1 --kill 0.0.1,0.2.1,3.1.2] => 3 ! record 3: undefined value used at 3:1
$ [run p f --shard 1 --attempts 2 --skip 4 --kill 0.1.2 --twice 0] => 0 n[] = 303¶t[] = "12"¶t[] = "12"¶t[] = "9"¶
$ [run p f --shard 2 --attempts 3 --skip 3 --kill 0.0.3,1.1.3,2.0.1,2.1.1 --twice 1] => 0 n[] = 303¶t[] = "12"¶t[] = "12"¶t[] = "9"¶
$ [run p f --shard 1 --attempts 1 --skip 2 --twice 1,3] => 3 ! record 6: undefined value used at 3:1
< 12¶12¶-1¶-1¶
$ [run p f --shard 1 --attempts 3 --skip 2 --kill 1.2.3,2.1.1,3.1.2 --twice 0 --ignore-undefs]
c: table sum of int; x: int = input; if (x > 0) emit c <- x; => 0 c[] = 24¶
$ [run p f --shard 1 --attempts 1 --skip 3 --kill 2.0.0] => 7 ! shard 2 lost
$ [run p f --shard 2 --attempts 1 --skip 1 --kill 2.0.3,3.0.3 --twice 3] => 0 c[] = 24¶
$ [run p f --shard 1 --attempts 1 --skip 1000 --kill 0.0.2 --twice 0] => 0 c[] = 24¶
$ [run p f --shard 1 --attempts 1 --skip 2 --ignore-undefs] => 0 c[] = 24¶
< -1¶
$ [run p f --shard 2 --attempts 2 --skip 3 --kill 0.1.3,3.1.3 --twice 0]
n: table sum of int; t: table collection of string;¶s: string = input; x: int = input; emit n <- 1; emit t <- s;¶if (x > 3) emit n <- 100; => 0 n[] = 1¶t[] = "-1"¶
$ [run p f --shard 1 --attempts 3 --skip 0 --kill 0.0.2,0.2.0,1.0.1,1.1.2] => 0 n[] = 1¶t[] = "-1"¶
$ [run p f --shard 3 --attempts 2 --skip 1 --kill 0.1.0,2.0.0 --twice 2] => 0 n[] = 1¶t[] = "-1"¶
$ [run p f --shard 3 --attempts 2 --skip 1 --kill 2.1.2 --twice 1] => 0 n[] = 1¶t[] = "-1"¶
$ [run p f --shard 1 --attempts 2 --skip 1 --kill 1.1.3,3.0.2 --ignore-undefs] => 0 n[] = 1¶t[] = "-1"¶
< \x02-1\x013\x013\x00\x01x\x05ab
$ [run p f --shard 2 --attempts 1 --skip 3 --kill 3.0.2 --twice 0,1 --frame delimited]
n: table sum of int; t: table collection of string;¶s: string = input; x: int = input; emit n <- 1; emit t <- s;¶if (x > 3) emit n <- 100; => 4 ! input damaged at byte 10
$ [run p f --shard 3 --attempts 2 --skip 1 --kill 0.0.1,1.0.0,2.0.2,2.1.0,3.0.3 --twice 1 --frame delimited] => 3 ! record 5: undefined value used at 3:1
$ [run p f --shard 1 --attempts 2 --skip 1 --kill 2.0.2,2.1.2,3.0.3 --twice 0,1 --frame delimited] => 3 ! record 5: undefined value used at 3:1
$ [run p f --shard 2 --attempts 1 --skip 2 --kill 1.0.3 --twice 0,1 --frame delimited] => 4 ! input damaged at byte 10
$ [run p f --shard 1 --attempts 3 --skip 2 --kill 1.2.0,3.0.0 --twice 2 --frame delimited] => 4 ! input damaged at byte 10
< 3¶12¶3¶¶x¶3¶x¶
$ [run p f --shard 3 --attempts 1 --skip 2 --kill 0.0.0,1.0.2,2.0.1,3.0.1 --twice 2 --ignore-undefs]
c: table sum of int; x: int = input; if (x > 0) emit c <- x; => 7 ! shard 0 lost
$ [run p f --shard 3 --attempts 3 --skip 2 --kill 0.2.1,2.0.3,3.0.0 --twice 2 --ignore-undefs] => 0 c[] = 21¶_undefs[1] = 3¶
$ [run p f --shard 2 --attempts 1 --skip 3] => 0 c[] = 21¶
$ [run p f --shard 2 --attempts 1 --skip 1 --kill 1.0.3 --twice 0] => 3 ! record 5: undefined value used at 1:38
$ [run p f --shard 1 --attempts 1 --skip 1 --kill 1.0.0] => 7 ! shard 1 lost
< -1¶12¶9¶12¶3¶
$ [run p f --shard 2 --attempts 2 --skip 4 --kill 0.1.2,1.0.0,2.0.3,2.1.2,3.0.0,3.1.1 --budget 41 --twice 0,3 --ignore-undefs]
c: table sum of int;¶x: int = input; while (x == 9) ;¶emit c <- x; => 0 c[] = 26¶
$ [run p f --shard 3 --attempts 3 --skip 4 --kill 0.2.1,2.0.0,2.1.3,2.2.1,3.1.2 --budget 41 --ignore-undefs] => 0 c[] = 26¶
$ [run p f --shard 1 --attempts 1 --skip 4 --kill 0.0.2,3.0.1 --budget 41 --twice 0,2 --ignore-undefs] => 7 ! shard 3 lost
$ [run p f --shard 1 --attempts 2 --skip 1000 --kill 1.0.2,1.1.1,3.0.3,3.1.0 --budget 41 --twice 0,3 --ignore-undefs] => 0 c[] = 26¶
$ [run p f --shard 2 --attempts 3 --skip 1000 --kill 0.0.3,1.0.0,2.2.1 --budget 41 --twice 2] => 0 c[] = 26¶
< ¶3¶x¶¶¶12¶
$ [run p f --shard 2 --attempts 3 --skip 3 --kill 0.0.0,1.1.2,1.2.0,3.1.1,3.2.2 --twice 0,2]
n: table sum of int; t: table collection of string;¶s: string = input; x: int = input; emit n <- 1; emit t <- s;¶if (x > 3) emit n <- 100; => 3 ! record 5: undefined value used at 3:1
$ [run p f --shard 3 --attempts 2 --skip 0 --kill 1.0.0 --twice 0,3] => 3 ! record 1: undefined value used at 3:1
$ [run p f --shard 3 --attempts 2 --skip 2 --kill 0.0.1 --twice 0] => 3 ! record 4: undefined value used at 3:1
$ [run p f --shard 2 --attempts 1 --skip 2 --kill 2.0.1,3.0.3 --twice 1,3] => 3 ! record 4: undefined value used at 3:1
$ [run p f --shard 1 --attempts 1 --skip 2] => 3 ! record 4: undefined value used at 3:1
< x¶x¶¶-1¶x¶0¶¶0¶
$ [run p f --shard 2 --attempts 3 --skip 1 --kill 0.2.1,1.2.0,2.0.2,2.1.0 --twice 0,3]
c: table sum of int; x: int = input; a: array of int = {1, 2};¶emit c <- 1 / 0;¶a[x] = 7;¶emit c <- a[0]; => 3 ! record 2: undefined value used at 3:1
$ [run p f --shard 2 --attempts 2 --skip 2 --kill 2.0.3,3.1.3 --twice 0] => 3 ! record 3: undefined value used at 3:1
$ [run p f --shard 2 --attempts 3 --skip 2 --kill 1.2.2,2.1.3,2.2.1,3.0.0,3.2.1 --twice 3] => 3 ! record 3: undefined value used at 3:1
$ [run p f --shard 3 --attempts 2 --skip 0 --ignore-undefs] => 3 ! record 4: store outside the value at 3:1
$ [run p f --shard 3 --attempts 3 --skip 0 --kill 0.0.2,0.2.1,1.0.1,2.2.2,3.1.2 --twice 2] => 3 ! record 1: undefined value used at 3:1
< 0¶
$ [run p f --shard 3 --attempts 2 --skip 3 --kill 3.0.1 --twice 1,2]
c: table sum of int; x: int = input; a: array of int = {1, 2};¶emit c <- 1 / 0;¶a[x] = 7;¶emit c <- a[0]; => 0 c[] = 7¶
$ [run p f --shard 2 --attempts 2 --skip 1000 --kill 1.1.0,2.1.3 --twice 1] => 0 c[] = 7¶
$ [run p f --shard 1 --attempts 2 --skip 1000 --kill 0.1.0,1.0.1,2.1.0 --twice 3] => 0 c[] = 7¶
$ [run p f --shard 1 --attempts 2 --skip 2 --kill 1.0.0,1.1.3,2.1.2 --twice 1 --ignore-undefs] => 0 c[] = 7¶_undefs[2] = 1¶
$ [run p f --shard 2 --attempts 2 --skip 2 --kill 3.1.3 --twice 3] => 0 c[] = 7¶
< \x00\x013\x00\x013\x01x\x0212\x013\x02-1\x013
$ [run p f --shard 1 --attempts 2 --skip 2 --twice 2 --frame delimited]
c: table sum of int; x: int = input; if (x > 0) emit c <- x; => 3 ! record 5: undefined value used at 1:38
$ [run p f --shard 2 --attempts 2 --skip 0 --kill 0.1.3,2.0.1,3.0.0 --twice 1 --frame delimited] => 3 ! record 1: undefined value used at 1:38
$ [run p f --shard 2 --attempts 2 --skip 2 --kill 0.0.3,0.1.3,1.0.3 --twice 1 --ignore-undefs --frame delimited] => 0 c[] = 24¶_undefs[1] = 3¶
$ [run p f --shard 3 --attempts 2 --skip 2 --kill 0.0.3,0.1.2,1.1.1 --twice 0,2 --frame delimited] => 7 ! shard 0 lost
$ [run p f --shard 3 --attempts 1 --skip 2 --kill 0.0.2,1.0.3,2.0.3,3.0.1 --frame delimited] => 7 ! shard 0 lost
< 9¶3¶12¶¶-1¶9¶¶x¶
$ [run p f --shard 1 --attempts 2 --skip 0 --kill 0.1.0,1.0.3,3.0.0 --twice 0,2]
n: table sum of int; t: table collection of string;¶s: string = input; x: int = input; emit n <- 1; emit t <- s;¶if (x > 3) emit n <- 100; => 3 ! record 4: undefined value used at 3:1
$ [run p f --shard 3 --attempts 1 --skip 2 --kill 3.0.1 --twice 2] => 3 ! record 8: undefined value used at 3:1
$ [run p f --shard 3 --attempts 1 --skip 0 --kill 1.0.2] => 3 ! record 4: undefined value used at 3:1
$ [run p f --shard 3 --attempts 2 --skip 2 --twice 3] => 3 ! record 8: undefined value used at 3:1
$ [run p f --shard 1 --attempts 1 --skip 0 --kill 0.0.2 --twice 2] => 3 ! record 4: undefined value used at 3:1
< 12¶
$ [run p f --shard 2 --attempts 1 --skip 2 --kill 2.0.0 --twice 3 --ignore-undefs]
c: table sum of int; x: int = input; if (x > 0) emit c <- x; => 0 c[] = 12¶
$ [run p f --shard 2 --attempts 3 --skip 0 --kill 2.0.1,2.2.1,3.2.3 --twice 1] => 0 c[] = 12¶
$ [run p f --shard 2 --attempts 1 --skip 1000 --twice 0,3] => 0 c[] = 12¶
$ [run p f --shard 2 --attempts 3 --skip 2 --kill 2.1.0,2.2.0 --twice 0,2 --ignore-undefs] => 0 c[] = 12¶
$ [run p f --shard 2 --attempts 1 --skip 2 --kill 0.0.2,2.0.3] => 0 c[] = 12¶
< 3¶x¶
$ [run p f --shard 1 --attempts 2 --skip 1000 --kill 1.1.0 --twice 2,3]
n: table sum of int; t: table collection of string;¶s: string = input; x: int = input; emit n <- 1; emit t <- s;¶if (x > 3) emit n <- 100; => 0 n[] = 1¶t[] = "3"¶
$ [run p f --shard 1 --attempts 3 --skip 4 --kill 1.0.0,1.2.0,2.0.1,2.2.3,3.0.2,3.1.3 --twice 0,1] => 0 n[] = 1¶t[] = "3"¶
$ [run p f --shard 3 --attempts 2 --skip 1] => 0 n[] = 1¶t[] = "3"¶
$ [run p f --shard 1 --attempts 1 --skip 1 --kill 0.0.2,3.0.0 --twice 2,3] => 0 n[] = 1¶t[] = "3"¶
$ [run p f --shard 2 --attempts 3 --skip 0 --kill 0.0.3,1.0.1,1.2.3,2.0.3,2.2.0 --twice 3 --ignore-undefs] => 0 n[] = 2¶t[] = "3"¶t[] = "x"¶_undefs[3] = 1¶
< x¶12¶¶¶3¶-1¶
$ [run p f --shard 1 --attempts 1 --skip 1000 --kill 0.0.3,1.0.3 --budget 41]
c: table sum of int;¶x: int = input; while (x == 9) ;¶emit c <- x; => 0 c[] = 14¶
$ [run p f --shard 3 --attempts 1 --skip 2 --kill 0.0.3 --budget 41 --twice 3] => 7 ! shard 0 lost
$ [run p f --shard 2 --attempts 1 --skip 2 --kill 2.0.2 --budget 41 --twice 1,3] => 3 ! record 4: undefined value used at 2:17
$ [run p f --shard 3 --attempts 1 --skip 2 --kill 3.0.0 --budget 41 --twice 3] => 3 ! record 4: undefined value used at 2:17
$ [run p f --shard 2 --attempts 3 --skip 2 --kill 0.0.0,0.2.3,2.1.2,2.2.2,3.1.2,3.2.0 --budget 41] => 3 ! record 4: undefined value used at 2:17
< 0¶1¶
$ [run p f --shard 3 --attempts 2 --skip 1 --kill 0.0.3,2.1.2,3.0.2,3.1.2 --twice 2]
c: table sum of int; x: int = input; a: array of int = {1, 2};¶emit c <- 1 / 0;¶a[x] = 7;¶emit c <- a[0]; => 0 c[] = 8¶
$ [run p f --shard 3 --attempts 1 --skip 1000 --kill 3.0.2 --twice 0,2,3] => 0 c[] = 8¶
$ [run p f --shard 1 --attempts 2 --skip 2 --kill 0.0.2,0.1.3,2.0.2] => 0 c[] = 8¶
$ [run p f --shard 1 --attempts 1 --skip 1000 --twice 0,2] => 0 c[] = 8¶
$ [run p f --shard 1 --attempts 1 --skip 1000 --kill 0.0.2,1.0.0] => 7 ! shard 1 lost
< x¶¶3¶12¶12¶3¶12¶
$ [run p f --shard 1 --attempts 2 --skip 4 --kill 0.0.0,2.1.0,3.1.3 --twice 2]
c: table sum of int; x: int = input; if (x > 0) emit c <- x; => 0 c[] = 42¶
$ [run p f --shard 3 --attempts 3 --skip 1 --kill 1.2.1,3.0.3,3.2.1 --twice 1,3] => 3 ! record 2: undefined value used at 1:38
$ [run p f --shard 2 --attempts 3 --skip 0 --kill 0.1.0,2.0.1,3.1.0 --twice 1] => 3 ! record 1: undefined value used at 1:38
$ [run p f --shard 2 --attempts 1 --skip 1 --kill 2.0.3,3.0.3 --twice 0,1] => 3 ! record 2: undefined value used at 1:38
$ [run p f --shard 3 --attempts 3 --skip 0 --kill 0.0.2,0.1.2,1.0.2,1.2.2] => 3 ! record 1: undefined value used at 1:38
"#;
