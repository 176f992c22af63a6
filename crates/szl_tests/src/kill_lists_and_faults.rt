//! Runs by example: deaths before and after a record that faults. The lines are as in `runs.rt`, and `tools/make/kill-lists` made them.

/// The runs.
pub const RUNS: &str = r#"== a death counts in front of the record that faults
< 3¶x¶5¶6¶
$ [run p f --shard 2 --attempts 2 --workers 3]
c: table sum of int; x: int = input; if (x > 0) emit c <- x; => 3 ! record 2: undefined value used at 1:38
$ [run p f --shard 2 --attempts 2 --kill 0.1.0 --workers 3] => 3 ! record 2: undefined value used at 1:38
$ [run p f --shard 2 --attempts 2 --kill 0.1.1 --workers 3] => 3 ! record 2: undefined value used at 1:38
$ [run p f --shard 2 --attempts 2 --kill 0.1.2 --workers 3] => 3 ! record 2: undefined value used at 1:38
$ [run p f --shard 2 --attempts 2 --kill 0.0.0 --workers 3] => 3 ! record 2: undefined value used at 1:38
$ [run p f --shard 2 --attempts 2 --kill 0.0.0,0.1.0 --workers 3] => 7 ! shard 0 lost
$ [run p f --shard 2 --attempts 2 --kill 0.0.0,0.1.1 --workers 3] => 7 ! shard 0 lost
$ [run p f --shard 2 --attempts 2 --kill 0.0.0,0.1.2 --workers 3] => 3 ! record 2: undefined value used at 1:38
$ [run p f --shard 2 --attempts 2 --kill 0.0.1 --workers 3] => 3 ! record 2: undefined value used at 1:38
$ [run p f --shard 2 --attempts 2 --kill 0.0.1,0.1.0 --workers 3] => 7 ! shard 0 lost
$ [run p f --shard 2 --attempts 2 --kill 0.0.1,0.1.1 --workers 3] => 7 ! shard 0 lost
$ [run p f --shard 2 --attempts 2 --kill 0.0.1,0.1.2 --workers 3] => 3 ! record 2: undefined value used at 1:38
$ [run p f --shard 2 --attempts 2 --kill 0.0.2 --workers 3] => 3 ! record 2: undefined value used at 1:38
$ [run p f --shard 2 --attempts 2 --kill 0.0.2,0.1.0 --workers 3] => 3 ! record 2: undefined value used at 1:38
$ [run p f --shard 2 --attempts 2 --kill 0.0.2,0.1.1 --workers 3] => 3 ! record 2: undefined value used at 1:38
$ [run p f --shard 2 --attempts 2 --kill 0.0.2,0.1.2 --workers 3] => 3 ! record 2: undefined value used at 1:38

== a death after the record that faults is none
< x¶4¶5¶6¶
$ [run p f --shard 2 --attempts 2 --workers 1]
c: table sum of int; x: int = input; if (x > 0) emit c <- x; => 3 ! record 1: undefined value used at 1:38
$ [run p f --shard 2 --attempts 2 --kill 0.1.0 --workers 1] => 3 ! record 1: undefined value used at 1:38
$ [run p f --shard 2 --attempts 2 --kill 0.1.1 --workers 1] => 3 ! record 1: undefined value used at 1:38
$ [run p f --shard 2 --attempts 2 --kill 0.1.2 --workers 1] => 3 ! record 1: undefined value used at 1:38
$ [run p f --shard 2 --attempts 2 --kill 0.0.0 --workers 1] => 3 ! record 1: undefined value used at 1:38
$ [run p f --shard 2 --attempts 2 --kill 0.0.0,0.1.0 --workers 1] => 7 ! shard 0 lost
$ [run p f --shard 2 --attempts 2 --kill 0.0.0,0.1.1 --workers 1] => 3 ! record 1: undefined value used at 1:38
$ [run p f --shard 2 --attempts 2 --kill 0.0.0,0.1.2 --workers 1] => 3 ! record 1: undefined value used at 1:38
$ [run p f --shard 2 --attempts 2 --kill 0.0.1 --workers 1] => 3 ! record 1: undefined value used at 1:38
$ [run p f --shard 2 --attempts 2 --kill 0.0.1,0.1.0 --workers 1] => 3 ! record 1: undefined value used at 1:38
$ [run p f --shard 2 --attempts 2 --kill 0.0.1,0.1.1 --workers 1] => 3 ! record 1: undefined value used at 1:38
$ [run p f --shard 2 --attempts 2 --kill 0.0.1,0.1.2 --workers 1] => 3 ! record 1: undefined value used at 1:38
$ [run p f --shard 2 --attempts 2 --kill 0.0.2 --workers 1] => 3 ! record 1: undefined value used at 1:38
$ [run p f --shard 2 --attempts 2 --kill 0.0.2,0.1.0 --workers 1] => 3 ! record 1: undefined value used at 1:38
$ [run p f --shard 2 --attempts 2 --kill 0.0.2,0.1.1 --workers 1] => 3 ! record 1: undefined value used at 1:38
$ [run p f --shard 2 --attempts 2 --kill 0.0.2,0.1.2 --workers 1] => 3 ! record 1: undefined value used at 1:38

== a fault after a shard that is lost doesn't decide
< 3¶4¶x¶
$ [run p f --shard 2 --attempts 2 --workers 8]
c: table sum of int; x: int = input; if (x > 0) emit c <- x; => 3 ! record 3: undefined value used at 1:38
$ [run p f --shard 2 --attempts 2 --kill 1.1.0 --workers 8] => 3 ! record 3: undefined value used at 1:38
$ [run p f --shard 2 --attempts 2 --kill 1.0.0 --workers 8] => 3 ! record 3: undefined value used at 1:38
$ [run p f --shard 2 --attempts 2 --kill 1.0.0,1.1.0 --workers 8] => 7 ! shard 1 lost
$ [run p f --shard 2 --attempts 2 --kill 0.1.1 --workers 8] => 3 ! record 3: undefined value used at 1:38
$ [run p f --shard 2 --attempts 2 --kill 0.1.1,1.1.0 --workers 8] => 3 ! record 3: undefined value used at 1:38
$ [run p f --shard 2 --attempts 2 --kill 0.1.1,1.0.0 --workers 8] => 3 ! record 3: undefined value used at 1:38
$ [run p f --shard 2 --attempts 2 --kill 0.1.1,1.0.0,1.1.0 --workers 8] => 7 ! shard 1 lost
$ [run p f --shard 2 --attempts 2 --kill 0.0.1 --workers 8] => 3 ! record 3: undefined value used at 1:38
$ [run p f --shard 2 --attempts 2 --kill 0.0.1,1.1.0 --workers 8] => 3 ! record 3: undefined value used at 1:38
$ [run p f --shard 2 --attempts 2 --kill 0.0.1,1.0.0 --workers 8] => 3 ! record 3: undefined value used at 1:38
$ [run p f --shard 2 --attempts 2 --kill 0.0.1,1.0.0,1.1.0 --workers 8] => 7 ! shard 1 lost
$ [run p f --shard 2 --attempts 2 --kill 0.0.1,0.1.1 --workers 8] => 7 ! shard 0 lost
$ [run p f --shard 2 --attempts 2 --kill 0.0.1,0.1.1,1.1.0 --workers 8] => 7 ! shard 0 lost
$ [run p f --shard 2 --attempts 2 --kill 0.0.1,0.1.1,1.0.0 --workers 8] => 7 ! shard 0 lost
$ [run p f --shard 2 --attempts 2 --kill 0.0.1,0.1.1,1.0.0,1.1.0 --workers 8] => 7 ! shard 0 lost
"#;
