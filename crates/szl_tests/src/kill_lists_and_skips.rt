//! Runs by example: deaths before and after records that are passed over. The lines are as in `runs.rt`, and `tools/make/kill-lists` made them.

/// The runs.
pub const RUNS: &str = r#"== no record is passed over
< x¶4¶5¶6¶
$ [run p f --shard 2 --attempts 2 --skip 0 --workers 2]
c: table sum of int; x: int = input; if (x > 0) emit c <- x; => 3 ! record 1: undefined value used at 1:38
$ [run p f --shard 2 --attempts 2 --kill 1.1.0 --skip 0 --workers 2] => 3 ! record 1: undefined value used at 1:38
$ [run p f --shard 2 --attempts 2 --kill 1.1.1 --skip 0 --workers 2] => 3 ! record 1: undefined value used at 1:38
$ [run p f --shard 2 --attempts 2 --kill 1.0.0 --skip 0 --workers 2] => 3 ! record 1: undefined value used at 1:38
$ [run p f --shard 2 --attempts 2 --kill 1.0.0,1.1.0 --skip 0 --workers 2] => 3 ! record 1: undefined value used at 1:38
$ [run p f --shard 2 --attempts 2 --kill 1.0.0,1.1.1 --skip 0 --workers 2] => 3 ! record 1: undefined value used at 1:38
$ [run p f --shard 2 --attempts 2 --kill 1.0.1 --skip 0 --workers 2] => 3 ! record 1: undefined value used at 1:38
$ [run p f --shard 2 --attempts 2 --kill 1.0.1,1.1.0 --skip 0 --workers 2] => 3 ! record 1: undefined value used at 1:38
$ [run p f --shard 2 --attempts 2 --kill 1.0.1,1.1.1 --skip 0 --workers 2] => 3 ! record 1: undefined value used at 1:38
$ [run p f --shard 2 --attempts 2 --kill 0.1.0 --skip 0 --workers 2] => 3 ! record 1: undefined value used at 1:38
$ [run p f --shard 2 --attempts 2 --kill 0.1.0,1.1.0 --skip 0 --workers 2] => 3 ! record 1: undefined value used at 1:38
$ [run p f --shard 2 --attempts 2 --kill 0.1.0,1.1.1 --skip 0 --workers 2] => 3 ! record 1: undefined value used at 1:38
$ [run p f --shard 2 --attempts 2 --kill 0.1.0,1.0.0 --skip 0 --workers 2] => 3 ! record 1: undefined value used at 1:38
$ [run p f --shard 2 --attempts 2 --kill 0.1.0,1.0.0,1.1.0 --skip 0 --workers 2] => 3 ! record 1: undefined value used at 1:38
$ [run p f --shard 2 --attempts 2 --kill 0.1.0,1.0.0,1.1.1 --skip 0 --workers 2] => 3 ! record 1: undefined value used at 1:38
$ [run p f --shard 2 --attempts 2 --kill 0.1.0,1.0.1 --skip 0 --workers 2] => 3 ! record 1: undefined value used at 1:38
$ [run p f --shard 2 --attempts 2 --kill 0.1.0,1.0.1,1.1.0 --skip 0 --workers 2] => 3 ! record 1: undefined value used at 1:38
$ [run p f --shard 2 --attempts 2 --kill 0.1.0,1.0.1,1.1.1 --skip 0 --workers 2] => 3 ! record 1: undefined value used at 1:38
$ [run p f --shard 2 --attempts 2 --kill 0.1.1 --skip 0 --workers 2] => 3 ! record 1: undefined value used at 1:38
$ [run p f --shard 2 --attempts 2 --kill 0.1.1,1.1.0 --skip 0 --workers 2] => 3 ! record 1: undefined value used at 1:38
$ [run p f --shard 2 --attempts 2 --kill 0.1.1,1.1.1 --skip 0 --workers 2] => 3 ! record 1: undefined value used at 1:38
$ [run p f --shard 2 --attempts 2 --kill 0.1.1,1.0.0 --skip 0 --workers 2] => 3 ! record 1: undefined value used at 1:38
$ [run p f --shard 2 --attempts 2 --kill 0.1.1,1.0.0,1.1.0 --skip 0 --workers 2] => 3 ! record 1: undefined value used at 1:38
$ [run p f --shard 2 --attempts 2 --kill 0.1.1,1.0.0,1.1.1 --skip 0 --workers 2] => 3 ! record 1: undefined value used at 1:38
$ [run p f --shard 2 --attempts 2 --kill 0.1.1,1.0.1 --skip 0 --workers 2] => 3 ! record 1: undefined value used at 1:38
$ [run p f --shard 2 --attempts 2 --kill 0.1.1,1.0.1,1.1.0 --skip 0 --workers 2] => 3 ! record 1: undefined value used at 1:38
$ [run p f --shard 2 --attempts 2 --kill 0.1.1,1.0.1,1.1.1 --skip 0 --workers 2] => 3 ! record 1: undefined value used at 1:38
$ [run p f --shard 2 --attempts 2 --kill 0.0.0 --skip 0 --workers 2] => 3 ! record 1: undefined value used at 1:38
$ [run p f --shard 2 --attempts 2 --kill 0.0.0,1.1.0 --skip 0 --workers 2] => 3 ! record 1: undefined value used at 1:38
$ [run p f --shard 2 --attempts 2 --kill 0.0.0,1.1.1 --skip 0 --workers 2] => 3 ! record 1: undefined value used at 1:38
$ [run p f --shard 2 --attempts 2 --kill 0.0.0,1.0.0 --skip 0 --workers 2] => 3 ! record 1: undefined value used at 1:38
$ [run p f --shard 2 --attempts 2 --kill 0.0.0,1.0.0,1.1.0 --skip 0 --workers 2] => 3 ! record 1: undefined value used at 1:38
$ [run p f --shard 2 --attempts 2 --kill 0.0.0,1.0.0,1.1.1 --skip 0 --workers 2] => 3 ! record 1: undefined value used at 1:38
$ [run p f --shard 2 --attempts 2 --kill 0.0.0,1.0.1 --skip 0 --workers 2] => 3 ! record 1: undefined value used at 1:38
$ [run p f --shard 2 --attempts 2 --kill 0.0.0,1.0.1,1.1.0 --skip 0 --workers 2] => 3 ! record 1: undefined value used at 1:38
$ [run p f --shard 2 --attempts 2 --kill 0.0.0,1.0.1,1.1.1 --skip 0 --workers 2] => 3 ! record 1: undefined value used at 1:38
$ [run p f --shard 2 --attempts 2 --kill 0.0.0,0.1.0 --skip 0 --workers 2] => 7 ! shard 0 lost
$ [run p f --shard 2 --attempts 2 --kill 0.0.0,0.1.0,1.1.0 --skip 0 --workers 2] => 7 ! shard 0 lost
$ [run p f --shard 2 --attempts 2 --kill 0.0.0,0.1.0,1.1.1 --skip 0 --workers 2] => 7 ! shard 0 lost
$ [run p f --shard 2 --attempts 2 --kill 0.0.0,0.1.0,1.0.0 --skip 0 --workers 2] => 7 ! shard 0 lost
$ [run p f --shard 2 --attempts 2 --kill 0.0.0,0.1.0,1.0.0,1.1.0 --skip 0 --workers 2] => 7 ! shard 0 lost
$ [run p f --shard 2 --attempts 2 --kill 0.0.0,0.1.0,1.0.0,1.1.1 --skip 0 --workers 2] => 7 ! shard 0 lost
$ [run p f --shard 2 --attempts 2 --kill 0.0.0,0.1.0,1.0.1 --skip 0 --workers 2] => 7 ! shard 0 lost
$ [run p f --shard 2 --attempts 2 --kill 0.0.0,0.1.0,1.0.1,1.1.0 --skip 0 --workers 2] => 7 ! shard 0 lost
$ [run p f --shard 2 --attempts 2 --kill 0.0.0,0.1.0,1.0.1,1.1.1 --skip 0 --workers 2] => 7 ! shard 0 lost
$ [run p f --shard 2 --attempts 2 --kill 0.0.0,0.1.1 --skip 0 --workers 2] => 3 ! record 1: undefined value used at 1:38
$ [run p f --shard 2 --attempts 2 --kill 0.0.0,0.1.1,1.1.0 --skip 0 --workers 2] => 3 ! record 1: undefined value used at 1:38
$ [run p f --shard 2 --attempts 2 --kill 0.0.0,0.1.1,1.1.1 --skip 0 --workers 2] => 3 ! record 1: undefined value used at 1:38
$ [run p f --shard 2 --attempts 2 --kill 0.0.0,0.1.1,1.0.0 --skip 0 --workers 2] => 3 ! record 1: undefined value used at 1:38
$ [run p f --shard 2 --attempts 2 --kill 0.0.0,0.1.1,1.0.0,1.1.0 --skip 0 --workers 2] => 3 ! record 1: undefined value used at 1:38
$ [run p f --shard 2 --attempts 2 --kill 0.0.0,0.1.1,1.0.0,1.1.1 --skip 0 --workers 2] => 3 ! record 1: undefined value used at 1:38
$ [run p f --shard 2 --attempts 2 --kill 0.0.0,0.1.1,1.0.1 --skip 0 --workers 2] => 3 ! record 1: undefined value used at 1:38
$ [run p f --shard 2 --attempts 2 --kill 0.0.0,0.1.1,1.0.1,1.1.0 --skip 0 --workers 2] => 3 ! record 1: undefined value used at 1:38
$ [run p f --shard 2 --attempts 2 --kill 0.0.0,0.1.1,1.0.1,1.1.1 --skip 0 --workers 2] => 3 ! record 1: undefined value used at 1:38
$ [run p f --shard 2 --attempts 2 --kill 0.0.1 --skip 0 --workers 2] => 3 ! record 1: undefined value used at 1:38
$ [run p f --shard 2 --attempts 2 --kill 0.0.1,1.1.0 --skip 0 --workers 2] => 3 ! record 1: undefined value used at 1:38
$ [run p f --shard 2 --attempts 2 --kill 0.0.1,1.1.1 --skip 0 --workers 2] => 3 ! record 1: undefined value used at 1:38
$ [run p f --shard 2 --attempts 2 --kill 0.0.1,1.0.0 --skip 0 --workers 2] => 3 ! record 1: undefined value used at 1:38
$ [run p f --shard 2 --attempts 2 --kill 0.0.1,1.0.0,1.1.0 --skip 0 --workers 2] => 3 ! record 1: undefined value used at 1:38
$ [run p f --shard 2 --attempts 2 --kill 0.0.1,1.0.0,1.1.1 --skip 0 --workers 2] => 3 ! record 1: undefined value used at 1:38
$ [run p f --shard 2 --attempts 2 --kill 0.0.1,1.0.1 --skip 0 --workers 2] => 3 ! record 1: undefined value used at 1:38
$ [run p f --shard 2 --attempts 2 --kill 0.0.1,1.0.1,1.1.0 --skip 0 --workers 2] => 3 ! record 1: undefined value used at 1:38
$ [run p f --shard 2 --attempts 2 --kill 0.0.1,1.0.1,1.1.1 --skip 0 --workers 2] => 3 ! record 1: undefined value used at 1:38
$ [run p f --shard 2 --attempts 2 --kill 0.0.1,0.1.0 --skip 0 --workers 2] => 3 ! record 1: undefined value used at 1:38
$ [run p f --shard 2 --attempts 2 --kill 0.0.1,0.1.0,1.1.0 --skip 0 --workers 2] => 3 ! record 1: undefined value used at 1:38
$ [run p f --shard 2 --attempts 2 --kill 0.0.1,0.1.0,1.1.1 --skip 0 --workers 2] => 3 ! record 1: undefined value used at 1:38
$ [run p f --shard 2 --attempts 2 --kill 0.0.1,0.1.0,1.0.0 --skip 0 --workers 2] => 3 ! record 1: undefined value used at 1:38
$ [run p f --shard 2 --attempts 2 --kill 0.0.1,0.1.0,1.0.0,1.1.0 --skip 0 --workers 2] => 3 ! record 1: undefined value used at 1:38
$ [run p f --shard 2 --attempts 2 --kill 0.0.1,0.1.0,1.0.0,1.1.1 --skip 0 --workers 2] => 3 ! record 1: undefined value used at 1:38
$ [run p f --shard 2 --attempts 2 --kill 0.0.1,0.1.0,1.0.1 --skip 0 --workers 2] => 3 ! record 1: undefined value used at 1:38
$ [run p f --shard 2 --attempts 2 --kill 0.0.1,0.1.0,1.0.1,1.1.0 --skip 0 --workers 2] => 3 ! record 1: undefined value used at 1:38
$ [run p f --shard 2 --attempts 2 --kill 0.0.1,0.1.0,1.0.1,1.1.1 --skip 0 --workers 2] => 3 ! record 1: undefined value used at 1:38
$ [run p f --shard 2 --attempts 2 --kill 0.0.1,0.1.1 --skip 0 --workers 2] => 3 ! record 1: undefined value used at 1:38
$ [run p f --shard 2 --attempts 2 --kill 0.0.1,0.1.1,1.1.0 --skip 0 --workers 2] => 3 ! record 1: undefined value used at 1:38
$ [run p f --shard 2 --attempts 2 --kill 0.0.1,0.1.1,1.1.1 --skip 0 --workers 2] => 3 ! record 1: undefined value used at 1:38
$ [run p f --shard 2 --attempts 2 --kill 0.0.1,0.1.1,1.0.0 --skip 0 --workers 2] => 3 ! record 1: undefined value used at 1:38
$ [run p f --shard 2 --attempts 2 --kill 0.0.1,0.1.1,1.0.0,1.1.0 --skip 0 --workers 2] => 3 ! record 1: undefined value used at 1:38
$ [run p f --shard 2 --attempts 2 --kill 0.0.1,0.1.1,1.0.0,1.1.1 --skip 0 --workers 2] => 3 ! record 1: undefined value used at 1:38
$ [run p f --shard 2 --attempts 2 --kill 0.0.1,0.1.1,1.0.1 --skip 0 --workers 2] => 3 ! record 1: undefined value used at 1:38
$ [run p f --shard 2 --attempts 2 --kill 0.0.1,0.1.1,1.0.1,1.1.0 --skip 0 --workers 2] => 3 ! record 1: undefined value used at 1:38
$ [run p f --shard 2 --attempts 2 --kill 0.0.1,0.1.1,1.0.1,1.1.1 --skip 0 --workers 2] => 3 ! record 1: undefined value used at 1:38

== a death counts after a record that is passed over
< x¶4¶5¶6¶
$ [run p f --shard 2 --attempts 2 --skip 1 --workers 2]
c: table sum of int; x: int = input; if (x > 0) emit c <- x; => 0 c[] = 15¶
$ [run p f --shard 2 --attempts 2 --kill 1.1.0 --skip 1 --workers 2] => 0 c[] = 15¶
$ [run p f --shard 2 --attempts 2 --kill 1.1.1 --skip 1 --workers 2] => 0 c[] = 15¶
$ [run p f --shard 2 --attempts 2 --kill 1.0.0 --skip 1 --workers 2] => 0 c[] = 15¶
$ [run p f --shard 2 --attempts 2 --kill 1.0.0,1.1.0 --skip 1 --workers 2] => 7 ! shard 1 lost
$ [run p f --shard 2 --attempts 2 --kill 1.0.0,1.1.1 --skip 1 --workers 2] => 7 ! shard 1 lost
$ [run p f --shard 2 --attempts 2 --kill 1.0.1 --skip 1 --workers 2] => 0 c[] = 15¶
$ [run p f --shard 2 --attempts 2 --kill 1.0.1,1.1.0 --skip 1 --workers 2] => 7 ! shard 1 lost
$ [run p f --shard 2 --attempts 2 --kill 1.0.1,1.1.1 --skip 1 --workers 2] => 7 ! shard 1 lost
$ [run p f --shard 2 --attempts 2 --kill 0.1.0 --skip 1 --workers 2] => 0 c[] = 15¶
$ [run p f --shard 2 --attempts 2 --kill 0.1.0,1.1.0 --skip 1 --workers 2] => 0 c[] = 15¶
$ [run p f --shard 2 --attempts 2 --kill 0.1.0,1.1.1 --skip 1 --workers 2] => 0 c[] = 15¶
$ [run p f --shard 2 --attempts 2 --kill 0.1.0,1.0.0 --skip 1 --workers 2] => 0 c[] = 15¶
$ [run p f --shard 2 --attempts 2 --kill 0.1.0,1.0.0,1.1.0 --skip 1 --workers 2] => 7 ! shard 1 lost
$ [run p f --shard 2 --attempts 2 --kill 0.1.0,1.0.0,1.1.1 --skip 1 --workers 2] => 7 ! shard 1 lost
$ [run p f --shard 2 --attempts 2 --kill 0.1.0,1.0.1 --skip 1 --workers 2] => 0 c[] = 15¶
$ [run p f --shard 2 --attempts 2 --kill 0.1.0,1.0.1,1.1.0 --skip 1 --workers 2] => 7 ! shard 1 lost
$ [run p f --shard 2 --attempts 2 --kill 0.1.0,1.0.1,1.1.1 --skip 1 --workers 2] => 7 ! shard 1 lost
$ [run p f --shard 2 --attempts 2 --kill 0.1.1 --skip 1 --workers 2] => 0 c[] = 15¶
$ [run p f --shard 2 --attempts 2 --kill 0.1.1,1.1.0 --skip 1 --workers 2] => 0 c[] = 15¶
$ [run p f --shard 2 --attempts 2 --kill 0.1.1,1.1.1 --skip 1 --workers 2] => 0 c[] = 15¶
$ [run p f --shard 2 --attempts 2 --kill 0.1.1,1.0.0 --skip 1 --workers 2] => 0 c[] = 15¶
$ [run p f --shard 2 --attempts 2 --kill 0.1.1,1.0.0,1.1.0 --skip 1 --workers 2] => 7 ! shard 1 lost
$ [run p f --shard 2 --attempts 2 --kill 0.1.1,1.0.0,1.1.1 --skip 1 --workers 2] => 7 ! shard 1 lost
$ [run p f --shard 2 --attempts 2 --kill 0.1.1,1.0.1 --skip 1 --workers 2] => 0 c[] = 15¶
$ [run p f --shard 2 --attempts 2 --kill 0.1.1,1.0.1,1.1.0 --skip 1 --workers 2] => 7 ! shard 1 lost
$ [run p f --shard 2 --attempts 2 --kill 0.1.1,1.0.1,1.1.1 --skip 1 --workers 2] => 7 ! shard 1 lost
$ [run p f --shard 2 --attempts 2 --kill 0.0.0 --skip 1 --workers 2] => 0 c[] = 15¶
$ [run p f --shard 2 --attempts 2 --kill 0.0.0,1.1.0 --skip 1 --workers 2] => 0 c[] = 15¶
$ [run p f --shard 2 --attempts 2 --kill 0.0.0,1.1.1 --skip 1 --workers 2] => 0 c[] = 15¶
$ [run p f --shard 2 --attempts 2 --kill 0.0.0,1.0.0 --skip 1 --workers 2] => 0 c[] = 15¶
$ [run p f --shard 2 --attempts 2 --kill 0.0.0,1.0.0,1.1.0 --skip 1 --workers 2] => 7 ! shard 1 lost
$ [run p f --shard 2 --attempts 2 --kill 0.0.0,1.0.0,1.1.1 --skip 1 --workers 2] => 7 ! shard 1 lost
$ [run p f --shard 2 --attempts 2 --kill 0.0.0,1.0.1 --skip 1 --workers 2] => 0 c[] = 15¶
$ [run p f --shard 2 --attempts 2 --kill 0.0.0,1.0.1,1.1.0 --skip 1 --workers 2] => 7 ! shard 1 lost
$ [run p f --shard 2 --attempts 2 --kill 0.0.0,1.0.1,1.1.1 --skip 1 --workers 2] => 7 ! shard 1 lost
$ [run p f --shard 2 --attempts 2 --kill 0.0.0,0.1.0 --skip 1 --workers 2] => 7 ! shard 0 lost
$ [run p f --shard 2 --attempts 2 --kill 0.0.0,0.1.0,1.1.0 --skip 1 --workers 2] => 7 ! shard 0 lost
$ [run p f --shard 2 --attempts 2 --kill 0.0.0,0.1.0,1.1.1 --skip 1 --workers 2] => 7 ! shard 0 lost
$ [run p f --shard 2 --attempts 2 --kill 0.0.0,0.1.0,1.0.0 --skip 1 --workers 2] => 7 ! shard 0 lost
$ [run p f --shard 2 --attempts 2 --kill 0.0.0,0.1.0,1.0.0,1.1.0 --skip 1 --workers 2] => 7 ! shard 0 lost
$ [run p f --shard 2 --attempts 2 --kill 0.0.0,0.1.0,1.0.0,1.1.1 --skip 1 --workers 2] => 7 ! shard 0 lost
$ [run p f --shard 2 --attempts 2 --kill 0.0.0,0.1.0,1.0.1 --skip 1 --workers 2] => 7 ! shard 0 lost
$ [run p f --shard 2 --attempts 2 --kill 0.0.0,0.1.0,1.0.1,1.1.0 --skip 1 --workers 2] => 7 ! shard 0 lost
$ [run p f --shard 2 --attempts 2 --kill 0.0.0,0.1.0,1.0.1,1.1.1 --skip 1 --workers 2] => 7 ! shard 0 lost
$ [run p f --shard 2 --attempts 2 --kill 0.0.0,0.1.1 --skip 1 --workers 2] => 7 ! shard 0 lost
$ [run p f --shard 2 --attempts 2 --kill 0.0.0,0.1.1,1.1.0 --skip 1 --workers 2] => 7 ! shard 0 lost
$ [run p f --shard 2 --attempts 2 --kill 0.0.0,0.1.1,1.1.1 --skip 1 --workers 2] => 7 ! shard 0 lost
$ [run p f --shard 2 --attempts 2 --kill 0.0.0,0.1.1,1.0.0 --skip 1 --workers 2] => 7 ! shard 0 lost
$ [run p f --shard 2 --attempts 2 --kill 0.0.0,0.1.1,1.0.0,1.1.0 --skip 1 --workers 2] => 7 ! shard 0 lost
$ [run p f --shard 2 --attempts 2 --kill 0.0.0,0.1.1,1.0.0,1.1.1 --skip 1 --workers 2] => 7 ! shard 0 lost
$ [run p f --shard 2 --attempts 2 --kill 0.0.0,0.1.1,1.0.1 --skip 1 --workers 2] => 7 ! shard 0 lost
$ [run p f --shard 2 --attempts 2 --kill 0.0.0,0.1.1,1.0.1,1.1.0 --skip 1 --workers 2] => 7 ! shard 0 lost
$ [run p f --shard 2 --attempts 2 --kill 0.0.0,0.1.1,1.0.1,1.1.1 --skip 1 --workers 2] => 7 ! shard 0 lost
$ [run p f --shard 2 --attempts 2 --kill 0.0.1 --skip 1 --workers 2] => 0 c[] = 15¶
$ [run p f --shard 2 --attempts 2 --kill 0.0.1,1.1.0 --skip 1 --workers 2] => 0 c[] = 15¶
$ [run p f --shard 2 --attempts 2 --kill 0.0.1,1.1.1 --skip 1 --workers 2] => 0 c[] = 15¶
$ [run p f --shard 2 --attempts 2 --kill 0.0.1,1.0.0 --skip 1 --workers 2] => 0 c[] = 15¶
$ [run p f --shard 2 --attempts 2 --kill 0.0.1,1.0.0,1.1.0 --skip 1 --workers 2] => 7 ! shard 1 lost
$ [run p f --shard 2 --attempts 2 --kill 0.0.1,1.0.0,1.1.1 --skip 1 --workers 2] => 7 ! shard 1 lost
$ [run p f --shard 2 --attempts 2 --kill 0.0.1,1.0.1 --skip 1 --workers 2] => 0 c[] = 15¶
$ [run p f --shard 2 --attempts 2 --kill 0.0.1,1.0.1,1.1.0 --skip 1 --workers 2] => 7 ! shard 1 lost
$ [run p f --shard 2 --attempts 2 --kill 0.0.1,1.0.1,1.1.1 --skip 1 --workers 2] => 7 ! shard 1 lost
$ [run p f --shard 2 --attempts 2 --kill 0.0.1,0.1.0 --skip 1 --workers 2] => 7 ! shard 0 lost
$ [run p f --shard 2 --attempts 2 --kill 0.0.1,0.1.0,1.1.0 --skip 1 --workers 2] => 7 ! shard 0 lost
$ [run p f --shard 2 --attempts 2 --kill 0.0.1,0.1.0,1.1.1 --skip 1 --workers 2] => 7 ! shard 0 lost
$ [run p f --shard 2 --attempts 2 --kill 0.0.1,0.1.0,1.0.0 --skip 1 --workers 2] => 7 ! shard 0 lost
$ [run p f --shard 2 --attempts 2 --kill 0.0.1,0.1.0,1.0.0,1.1.0 --skip 1 --workers 2] => 7 ! shard 0 lost
$ [run p f --shard 2 --attempts 2 --kill 0.0.1,0.1.0,1.0.0,1.1.1 --skip 1 --workers 2] => 7 ! shard 0 lost
$ [run p f --shard 2 --attempts 2 --kill 0.0.1,0.1.0,1.0.1 --skip 1 --workers 2] => 7 ! shard 0 lost
$ [run p f --shard 2 --attempts 2 --kill 0.0.1,0.1.0,1.0.1,1.1.0 --skip 1 --workers 2] => 7 ! shard 0 lost
$ [run p f --shard 2 --attempts 2 --kill 0.0.1,0.1.0,1.0.1,1.1.1 --skip 1 --workers 2] => 7 ! shard 0 lost
$ [run p f --shard 2 --attempts 2 --kill 0.0.1,0.1.1 --skip 1 --workers 2] => 7 ! shard 0 lost
$ [run p f --shard 2 --attempts 2 --kill 0.0.1,0.1.1,1.1.0 --skip 1 --workers 2] => 7 ! shard 0 lost
$ [run p f --shard 2 --attempts 2 --kill 0.0.1,0.1.1,1.1.1 --skip 1 --workers 2] => 7 ! shard 0 lost
$ [run p f --shard 2 --attempts 2 --kill 0.0.1,0.1.1,1.0.0 --skip 1 --workers 2] => 7 ! shard 0 lost
$ [run p f --shard 2 --attempts 2 --kill 0.0.1,0.1.1,1.0.0,1.1.0 --skip 1 --workers 2] => 7 ! shard 0 lost
$ [run p f --shard 2 --attempts 2 --kill 0.0.1,0.1.1,1.0.0,1.1.1 --skip 1 --workers 2] => 7 ! shard 0 lost
$ [run p f --shard 2 --attempts 2 --kill 0.0.1,0.1.1,1.0.1 --skip 1 --workers 2] => 7 ! shard 0 lost
$ [run p f --shard 2 --attempts 2 --kill 0.0.1,0.1.1,1.0.1,1.1.0 --skip 1 --workers 2] => 7 ! shard 0 lost
$ [run p f --shard 2 --attempts 2 --kill 0.0.1,0.1.1,1.0.1,1.1.1 --skip 1 --workers 2] => 7 ! shard 0 lost

== two records of a shard fault, and none may
< x¶y¶3¶5¶
$ [run p f --shard 3 --attempts 2 --skip 0 --workers 3]
n: table sum of int; t: table collection of string;¶s: string = input; x: int = input; emit n <- 1; emit t <- s;¶if (x > 3) emit n <- 100; => 3 ! record 1: undefined value used at 3:1
$ [run p f --shard 3 --attempts 2 --kill 0.1.0 --skip 0 --workers 3] => 3 ! record 1: undefined value used at 3:1
$ [run p f --shard 3 --attempts 2 --kill 0.1.1 --skip 0 --workers 3] => 3 ! record 1: undefined value used at 3:1
$ [run p f --shard 3 --attempts 2 --kill 0.1.2 --skip 0 --workers 3] => 3 ! record 1: undefined value used at 3:1
$ [run p f --shard 3 --attempts 2 --kill 0.1.3 --skip 0 --workers 3] => 3 ! record 1: undefined value used at 3:1
$ [run p f --shard 3 --attempts 2 --kill 0.0.0 --skip 0 --workers 3] => 3 ! record 1: undefined value used at 3:1
$ [run p f --shard 3 --attempts 2 --kill 0.0.0,0.1.0 --skip 0 --workers 3] => 7 ! shard 0 lost
$ [run p f --shard 3 --attempts 2 --kill 0.0.0,0.1.1 --skip 0 --workers 3] => 3 ! record 1: undefined value used at 3:1
$ [run p f --shard 3 --attempts 2 --kill 0.0.0,0.1.2 --skip 0 --workers 3] => 3 ! record 1: undefined value used at 3:1
$ [run p f --shard 3 --attempts 2 --kill 0.0.0,0.1.3 --skip 0 --workers 3] => 3 ! record 1: undefined value used at 3:1
$ [run p f --shard 3 --attempts 2 --kill 0.0.1 --skip 0 --workers 3] => 3 ! record 1: undefined value used at 3:1
$ [run p f --shard 3 --attempts 2 --kill 0.0.1,0.1.0 --skip 0 --workers 3] => 3 ! record 1: undefined value used at 3:1
$ [run p f --shard 3 --attempts 2 --kill 0.0.1,0.1.1 --skip 0 --workers 3] => 3 ! record 1: undefined value used at 3:1
$ [run p f --shard 3 --attempts 2 --kill 0.0.1,0.1.2 --skip 0 --workers 3] => 3 ! record 1: undefined value used at 3:1
$ [run p f --shard 3 --attempts 2 --kill 0.0.1,0.1.3 --skip 0 --workers 3] => 3 ! record 1: undefined value used at 3:1
$ [run p f --shard 3 --attempts 2 --kill 0.0.2 --skip 0 --workers 3] => 3 ! record 1: undefined value used at 3:1
$ [run p f --shard 3 --attempts 2 --kill 0.0.2,0.1.0 --skip 0 --workers 3] => 3 ! record 1: undefined value used at 3:1
$ [run p f --shard 3 --attempts 2 --kill 0.0.2,0.1.1 --skip 0 --workers 3] => 3 ! record 1: undefined value used at 3:1
$ [run p f --shard 3 --attempts 2 --kill 0.0.2,0.1.2 --skip 0 --workers 3] => 3 ! record 1: undefined value used at 3:1
$ [run p f --shard 3 --attempts 2 --kill 0.0.2,0.1.3 --skip 0 --workers 3] => 3 ! record 1: undefined value used at 3:1
$ [run p f --shard 3 --attempts 2 --kill 0.0.3 --skip 0 --workers 3] => 3 ! record 1: undefined value used at 3:1
$ [run p f --shard 3 --attempts 2 --kill 0.0.3,0.1.0 --skip 0 --workers 3] => 3 ! record 1: undefined value used at 3:1
$ [run p f --shard 3 --attempts 2 --kill 0.0.3,0.1.1 --skip 0 --workers 3] => 3 ! record 1: undefined value used at 3:1
$ [run p f --shard 3 --attempts 2 --kill 0.0.3,0.1.2 --skip 0 --workers 3] => 3 ! record 1: undefined value used at 3:1
$ [run p f --shard 3 --attempts 2 --kill 0.0.3,0.1.3 --skip 0 --workers 3] => 3 ! record 1: undefined value used at 3:1

== two records of a shard fault, and one may be passed over
< x¶y¶3¶5¶
$ [run p f --shard 3 --attempts 2 --skip 1 --workers 3]
n: table sum of int; t: table collection of string;¶s: string = input; x: int = input; emit n <- 1; emit t <- s;¶if (x > 3) emit n <- 100; => 3 ! record 2: undefined value used at 3:1
$ [run p f --shard 3 --attempts 2 --kill 0.1.0 --skip 1 --workers 3] => 3 ! record 2: undefined value used at 3:1
$ [run p f --shard 3 --attempts 2 --kill 0.1.1 --skip 1 --workers 3] => 3 ! record 2: undefined value used at 3:1
$ [run p f --shard 3 --attempts 2 --kill 0.1.2 --skip 1 --workers 3] => 3 ! record 2: undefined value used at 3:1
$ [run p f --shard 3 --attempts 2 --kill 0.1.3 --skip 1 --workers 3] => 3 ! record 2: undefined value used at 3:1
$ [run p f --shard 3 --attempts 2 --kill 0.0.0 --skip 1 --workers 3] => 3 ! record 2: undefined value used at 3:1
$ [run p f --shard 3 --attempts 2 --kill 0.0.0,0.1.0 --skip 1 --workers 3] => 7 ! shard 0 lost
$ [run p f --shard 3 --attempts 2 --kill 0.0.0,0.1.1 --skip 1 --workers 3] => 7 ! shard 0 lost
$ [run p f --shard 3 --attempts 2 --kill 0.0.0,0.1.2 --skip 1 --workers 3] => 3 ! record 2: undefined value used at 3:1
$ [run p f --shard 3 --attempts 2 --kill 0.0.0,0.1.3 --skip 1 --workers 3] => 3 ! record 2: undefined value used at 3:1
$ [run p f --shard 3 --attempts 2 --kill 0.0.1 --skip 1 --workers 3] => 3 ! record 2: undefined value used at 3:1
$ [run p f --shard 3 --attempts 2 --kill 0.0.1,0.1.0 --skip 1 --workers 3] => 7 ! shard 0 lost
$ [run p f --shard 3 --attempts 2 --kill 0.0.1,0.1.1 --skip 1 --workers 3] => 7 ! shard 0 lost
$ [run p f --shard 3 --attempts 2 --kill 0.0.1,0.1.2 --skip 1 --workers 3] => 3 ! record 2: undefined value used at 3:1
$ [run p f --shard 3 --attempts 2 --kill 0.0.1,0.1.3 --skip 1 --workers 3] => 3 ! record 2: undefined value used at 3:1
$ [run p f --shard 3 --attempts 2 --kill 0.0.2 --skip 1 --workers 3] => 3 ! record 2: undefined value used at 3:1
$ [run p f --shard 3 --attempts 2 --kill 0.0.2,0.1.0 --skip 1 --workers 3] => 3 ! record 2: undefined value used at 3:1
$ [run p f --shard 3 --attempts 2 --kill 0.0.2,0.1.1 --skip 1 --workers 3] => 3 ! record 2: undefined value used at 3:1
$ [run p f --shard 3 --attempts 2 --kill 0.0.2,0.1.2 --skip 1 --workers 3] => 3 ! record 2: undefined value used at 3:1
$ [run p f --shard 3 --attempts 2 --kill 0.0.2,0.1.3 --skip 1 --workers 3] => 3 ! record 2: undefined value used at 3:1
$ [run p f --shard 3 --attempts 2 --kill 0.0.3 --skip 1 --workers 3] => 3 ! record 2: undefined value used at 3:1
$ [run p f --shard 3 --attempts 2 --kill 0.0.3,0.1.0 --skip 1 --workers 3] => 3 ! record 2: undefined value used at 3:1
$ [run p f --shard 3 --attempts 2 --kill 0.0.3,0.1.1 --skip 1 --workers 3] => 3 ! record 2: undefined value used at 3:1
$ [run p f --shard 3 --attempts 2 --kill 0.0.3,0.1.2 --skip 1 --workers 3] => 3 ! record 2: undefined value used at 3:1
$ [run p f --shard 3 --attempts 2 --kill 0.0.3,0.1.3 --skip 1 --workers 3] => 3 ! record 2: undefined value used at 3:1

== two records of a shard fault, and both may be passed over
< x¶y¶3¶5¶
$ [run p f --shard 3 --attempts 2 --skip 2 --workers 3]
n: table sum of int; t: table collection of string;¶s: string = input; x: int = input; emit n <- 1; emit t <- s;¶if (x > 3) emit n <- 100; => 0 n[] = 102¶t[] = "3"¶t[] = "5"¶
$ [run p f --shard 3 --attempts 2 --kill 0.1.0 --skip 2 --workers 3] => 0 n[] = 102¶t[] = "3"¶t[] = "5"¶
$ [run p f --shard 3 --attempts 2 --kill 0.1.1 --skip 2 --workers 3] => 0 n[] = 102¶t[] = "3"¶t[] = "5"¶
$ [run p f --shard 3 --attempts 2 --kill 0.1.2 --skip 2 --workers 3] => 0 n[] = 102¶t[] = "3"¶t[] = "5"¶
$ [run p f --shard 3 --attempts 2 --kill 0.1.3 --skip 2 --workers 3] => 0 n[] = 102¶t[] = "3"¶t[] = "5"¶
$ [run p f --shard 3 --attempts 2 --kill 0.0.0 --skip 2 --workers 3] => 0 n[] = 102¶t[] = "3"¶t[] = "5"¶
$ [run p f --shard 3 --attempts 2 --kill 0.0.0,0.1.0 --skip 2 --workers 3] => 7 ! shard 0 lost
$ [run p f --shard 3 --attempts 2 --kill 0.0.0,0.1.1 --skip 2 --workers 3] => 7 ! shard 0 lost
$ [run p f --shard 3 --attempts 2 --kill 0.0.0,0.1.2 --skip 2 --workers 3] => 7 ! shard 0 lost
$ [run p f --shard 3 --attempts 2 --kill 0.0.0,0.1.3 --skip 2 --workers 3] => 7 ! shard 0 lost
$ [run p f --shard 3 --attempts 2 --kill 0.0.1 --skip 2 --workers 3] => 0 n[] = 102¶t[] = "3"¶t[] = "5"¶
$ [run p f --shard 3 --attempts 2 --kill 0.0.1,0.1.0 --skip 2 --workers 3] => 7 ! shard 0 lost
$ [run p f --shard 3 --attempts 2 --kill 0.0.1,0.1.1 --skip 2 --workers 3] => 7 ! shard 0 lost
$ [run p f --shard 3 --attempts 2 --kill 0.0.1,0.1.2 --skip 2 --workers 3] => 7 ! shard 0 lost
$ [run p f --shard 3 --attempts 2 --kill 0.0.1,0.1.3 --skip 2 --workers 3] => 7 ! shard 0 lost
$ [run p f --shard 3 --attempts 2 --kill 0.0.2 --skip 2 --workers 3] => 0 n[] = 102¶t[] = "3"¶t[] = "5"¶
$ [run p f --shard 3 --attempts 2 --kill 0.0.2,0.1.0 --skip 2 --workers 3] => 7 ! shard 0 lost
$ [run p f --shard 3 --attempts 2 --kill 0.0.2,0.1.1 --skip 2 --workers 3] => 7 ! shard 0 lost
$ [run p f --shard 3 --attempts 2 --kill 0.0.2,0.1.2 --skip 2 --workers 3] => 7 ! shard 0 lost
$ [run p f --shard 3 --attempts 2 --kill 0.0.2,0.1.3 --skip 2 --workers 3] => 7 ! shard 0 lost
$ [run p f --shard 3 --attempts 2 --kill 0.0.3 --skip 2 --workers 3] => 0 n[] = 102¶t[] = "3"¶t[] = "5"¶
$ [run p f --shard 3 --attempts 2 --kill 0.0.3,0.1.0 --skip 2 --workers 3] => 7 ! shard 0 lost
$ [run p f --shard 3 --attempts 2 --kill 0.0.3,0.1.1 --skip 2 --workers 3] => 7 ! shard 0 lost
$ [run p f --shard 3 --attempts 2 --kill 0.0.3,0.1.2 --skip 2 --workers 3] => 7 ! shard 0 lost
$ [run p f --shard 3 --attempts 2 --kill 0.0.3,0.1.3 --skip 2 --workers 3] => 7 ! shard 0 lost

== of a later shard its own records alone count
< x¶4¶x¶6¶
$ [run p f --shard 2 --attempts 2 --skip 1 --workers 3]
c: table sum of int; x: int = input; if (x > 0) emit c <- x; => 3 ! record 3: undefined value used at 1:38
$ [run p f --shard 2 --attempts 2 --kill 1.1.0 --skip 1 --workers 3] => 3 ! record 3: undefined value used at 1:38
$ [run p f --shard 2 --attempts 2 --kill 1.1.1 --skip 1 --workers 3] => 3 ! record 3: undefined value used at 1:38
$ [run p f --shard 2 --attempts 2 --kill 1.1.2 --skip 1 --workers 3] => 3 ! record 3: undefined value used at 1:38
$ [run p f --shard 2 --attempts 2 --kill 1.0.0 --skip 1 --workers 3] => 3 ! record 3: undefined value used at 1:38
$ [run p f --shard 2 --attempts 2 --kill 1.0.0,1.1.0 --skip 1 --workers 3] => 7 ! shard 1 lost
$ [run p f --shard 2 --attempts 2 --kill 1.0.0,1.1.1 --skip 1 --workers 3] => 7 ! shard 1 lost
$ [run p f --shard 2 --attempts 2 --kill 1.0.0,1.1.2 --skip 1 --workers 3] => 7 ! shard 1 lost
$ [run p f --shard 2 --attempts 2 --kill 1.0.1 --skip 1 --workers 3] => 3 ! record 3: undefined value used at 1:38
$ [run p f --shard 2 --attempts 2 --kill 1.0.1,1.1.0 --skip 1 --workers 3] => 7 ! shard 1 lost
$ [run p f --shard 2 --attempts 2 --kill 1.0.1,1.1.1 --skip 1 --workers 3] => 7 ! shard 1 lost
$ [run p f --shard 2 --attempts 2 --kill 1.0.1,1.1.2 --skip 1 --workers 3] => 7 ! shard 1 lost
$ [run p f --shard 2 --attempts 2 --kill 1.0.2 --skip 1 --workers 3] => 3 ! record 3: undefined value used at 1:38
$ [run p f --shard 2 --attempts 2 --kill 1.0.2,1.1.0 --skip 1 --workers 3] => 7 ! shard 1 lost
$ [run p f --shard 2 --attempts 2 --kill 1.0.2,1.1.1 --skip 1 --workers 3] => 7 ! shard 1 lost
$ [run p f --shard 2 --attempts 2 --kill 1.0.2,1.1.2 --skip 1 --workers 3] => 7 ! shard 1 lost
"#;
