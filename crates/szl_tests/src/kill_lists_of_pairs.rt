//! Runs by example: each list of deaths of two shards of two records. The lines are as in `runs.rt`, and `tools/make/kill-lists` made them.

/// The runs.
pub const RUNS: &str = r#"== what a dying attempt adds doesn't count
< 3¶4¶5¶6¶
$ [run p f --shard 2 --attempts 2 --workers 2]
c: table sum of int; x: int = input; emit c <- x; => 0 c[] = 18¶
$ [run p f --shard 2 --attempts 2 --kill 1.1.0 --workers 2] => 0 c[] = 18¶
$ [run p f --shard 2 --attempts 2 --kill 1.1.1 --workers 2] => 0 c[] = 18¶
$ [run p f --shard 2 --attempts 2 --kill 1.0.0 --workers 2] => 0 c[] = 18¶
$ [run p f --shard 2 --attempts 2 --kill 1.0.0,1.1.0 --workers 2] => 7 ! shard 1 lost
$ [run p f --shard 2 --attempts 2 --kill 1.0.0,1.1.1 --workers 2] => 7 ! shard 1 lost
$ [run p f --shard 2 --attempts 2 --kill 1.0.1 --workers 2] => 0 c[] = 18¶
$ [run p f --shard 2 --attempts 2 --kill 1.0.1,1.1.0 --workers 2] => 7 ! shard 1 lost
$ [run p f --shard 2 --attempts 2 --kill 1.0.1,1.1.1 --workers 2] => 7 ! shard 1 lost
$ [run p f --shard 2 --attempts 2 --kill 0.1.0 --workers 2] => 0 c[] = 18¶
$ [run p f --shard 2 --attempts 2 --kill 0.1.0,1.1.0 --workers 2] => 0 c[] = 18¶
$ [run p f --shard 2 --attempts 2 --kill 0.1.0,1.1.1 --workers 2] => 0 c[] = 18¶
$ [run p f --shard 2 --attempts 2 --kill 0.1.0,1.0.0 --workers 2] => 0 c[] = 18¶
$ [run p f --shard 2 --attempts 2 --kill 0.1.0,1.0.0,1.1.0 --workers 2] => 7 ! shard 1 lost
$ [run p f --shard 2 --attempts 2 --kill 0.1.0,1.0.0,1.1.1 --workers 2] => 7 ! shard 1 lost
$ [run p f --shard 2 --attempts 2 --kill 0.1.0,1.0.1 --workers 2] => 0 c[] = 18¶
$ [run p f --shard 2 --attempts 2 --kill 0.1.0,1.0.1,1.1.0 --workers 2] => 7 ! shard 1 lost
$ [run p f --shard 2 --attempts 2 --kill 0.1.0,1.0.1,1.1.1 --workers 2] => 7 ! shard 1 lost
$ [run p f --shard 2 --attempts 2 --kill 0.1.1 --workers 2] => 0 c[] = 18¶
$ [run p f --shard 2 --attempts 2 --kill 0.1.1,1.1.0 --workers 2] => 0 c[] = 18¶
$ [run p f --shard 2 --attempts 2 --kill 0.1.1,1.1.1 --workers 2] => 0 c[] = 18¶
$ [run p f --shard 2 --attempts 2 --kill 0.1.1,1.0.0 --workers 2] => 0 c[] = 18¶
$ [run p f --shard 2 --attempts 2 --kill 0.1.1,1.0.0,1.1.0 --workers 2] => 7 ! shard 1 lost
$ [run p f --shard 2 --attempts 2 --kill 0.1.1,1.0.0,1.1.1 --workers 2] => 7 ! shard 1 lost
$ [run p f --shard 2 --attempts 2 --kill 0.1.1,1.0.1 --workers 2] => 0 c[] = 18¶
$ [run p f --shard 2 --attempts 2 --kill 0.1.1,1.0.1,1.1.0 --workers 2] => 7 ! shard 1 lost
$ [run p f --shard 2 --attempts 2 --kill 0.1.1,1.0.1,1.1.1 --workers 2] => 7 ! shard 1 lost
$ [run p f --shard 2 --attempts 2 --kill 0.0.0 --workers 2] => 0 c[] = 18¶
$ [run p f --shard 2 --attempts 2 --kill 0.0.0,1.1.0 --workers 2] => 0 c[] = 18¶
$ [run p f --shard 2 --attempts 2 --kill 0.0.0,1.1.1 --workers 2] => 0 c[] = 18¶
$ [run p f --shard 2 --attempts 2 --kill 0.0.0,1.0.0 --workers 2] => 0 c[] = 18¶
$ [run p f --shard 2 --attempts 2 --kill 0.0.0,1.0.0,1.1.0 --workers 2] => 7 ! shard 1 lost
$ [run p f --shard 2 --attempts 2 --kill 0.0.0,1.0.0,1.1.1 --workers 2] => 7 ! shard 1 lost
$ [run p f --shard 2 --attempts 2 --kill 0.0.0,1.0.1 --workers 2] => 0 c[] = 18¶
$ [run p f --shard 2 --attempts 2 --kill 0.0.0,1.0.1,1.1.0 --workers 2] => 7 ! shard 1 lost
$ [run p f --shard 2 --attempts 2 --kill 0.0.0,1.0.1,1.1.1 --workers 2] => 7 ! shard 1 lost
$ [run p f --shard 2 --attempts 2 --kill 0.0.0,0.1.0 --workers 2] => 7 ! shard 0 lost
$ [run p f --shard 2 --attempts 2 --kill 0.0.0,0.1.0,1.1.0 --workers 2] => 7 ! shard 0 lost
$ [run p f --shard 2 --attempts 2 --kill 0.0.0,0.1.0,1.1.1 --workers 2] => 7 ! shard 0 lost
$ [run p f --shard 2 --attempts 2 --kill 0.0.0,0.1.0,1.0.0 --workers 2] => 7 ! shard 0 lost
$ [run p f --shard 2 --attempts 2 --kill 0.0.0,0.1.0,1.0.0,1.1.0 --workers 2] => 7 ! shard 0 lost
$ [run p f --shard 2 --attempts 2 --kill 0.0.0,0.1.0,1.0.0,1.1.1 --workers 2] => 7 ! shard 0 lost
$ [run p f --shard 2 --attempts 2 --kill 0.0.0,0.1.0,1.0.1 --workers 2] => 7 ! shard 0 lost
$ [run p f --shard 2 --attempts 2 --kill 0.0.0,0.1.0,1.0.1,1.1.0 --workers 2] => 7 ! shard 0 lost
$ [run p f --shard 2 --attempts 2 --kill 0.0.0,0.1.0,1.0.1,1.1.1 --workers 2] => 7 ! shard 0 lost
$ [run p f --shard 2 --attempts 2 --kill 0.0.0,0.1.1 --workers 2] => 7 ! shard 0 lost
$ [run p f --shard 2 --attempts 2 --kill 0.0.0,0.1.1,1.1.0 --workers 2] => 7 ! shard 0 lost
$ [run p f --shard 2 --attempts 2 --kill 0.0.0,0.1.1,1.1.1 --workers 2] => 7 ! shard 0 lost
$ [run p f --shard 2 --attempts 2 --kill 0.0.0,0.1.1,1.0.0 --workers 2] => 7 ! shard 0 lost
$ [run p f --shard 2 --attempts 2 --kill 0.0.0,0.1.1,1.0.0,1.1.0 --workers 2] => 7 ! shard 0 lost
$ [run p f --shard 2 --attempts 2 --kill 0.0.0,0.1.1,1.0.0,1.1.1 --workers 2] => 7 ! shard 0 lost
$ [run p f --shard 2 --attempts 2 --kill 0.0.0,0.1.1,1.0.1 --workers 2] => 7 ! shard 0 lost
$ [run p f --shard 2 --attempts 2 --kill 0.0.0,0.1.1,1.0.1,1.1.0 --workers 2] => 7 ! shard 0 lost
$ [run p f --shard 2 --attempts 2 --kill 0.0.0,0.1.1,1.0.1,1.1.1 --workers 2] => 7 ! shard 0 lost
$ [run p f --shard 2 --attempts 2 --kill 0.0.1 --workers 2] => 0 c[] = 18¶
$ [run p f --shard 2 --attempts 2 --kill 0.0.1,1.1.0 --workers 2] => 0 c[] = 18¶
$ [run p f --shard 2 --attempts 2 --kill 0.0.1,1.1.1 --workers 2] => 0 c[] = 18¶
$ [run p f --shard 2 --attempts 2 --kill 0.0.1,1.0.0 --workers 2] => 0 c[] = 18¶
$ [run p f --shard 2 --attempts 2 --kill 0.0.1,1.0.0,1.1.0 --workers 2] => 7 ! shard 1 lost
$ [run p f --shard 2 --attempts 2 --kill 0.0.1,1.0.0,1.1.1 --workers 2] => 7 ! shard 1 lost
$ [run p f --shard 2 --attempts 2 --kill 0.0.1,1.0.1 --workers 2] => 0 c[] = 18¶
$ [run p f --shard 2 --attempts 2 --kill 0.0.1,1.0.1,1.1.0 --workers 2] => 7 ! shard 1 lost
$ [run p f --shard 2 --attempts 2 --kill 0.0.1,1.0.1,1.1.1 --workers 2] => 7 ! shard 1 lost
$ [run p f --shard 2 --attempts 2 --kill 0.0.1,0.1.0 --workers 2] => 7 ! shard 0 lost
$ [run p f --shard 2 --attempts 2 --kill 0.0.1,0.1.0,1.1.0 --workers 2] => 7 ! shard 0 lost
$ [run p f --shard 2 --attempts 2 --kill 0.0.1,0.1.0,1.1.1 --workers 2] => 7 ! shard 0 lost
$ [run p f --shard 2 --attempts 2 --kill 0.0.1,0.1.0,1.0.0 --workers 2] => 7 ! shard 0 lost
$ [run p f --shard 2 --attempts 2 --kill 0.0.1,0.1.0,1.0.0,1.1.0 --workers 2] => 7 ! shard 0 lost
$ [run p f --shard 2 --attempts 2 --kill 0.0.1,0.1.0,1.0.0,1.1.1 --workers 2] => 7 ! shard 0 lost
$ [run p f --shard 2 --attempts 2 --kill 0.0.1,0.1.0,1.0.1 --workers 2] => 7 ! shard 0 lost
$ [run p f --shard 2 --attempts 2 --kill 0.0.1,0.1.0,1.0.1,1.1.0 --workers 2] => 7 ! shard 0 lost
$ [run p f --shard 2 --attempts 2 --kill 0.0.1,0.1.0,1.0.1,1.1.1 --workers 2] => 7 ! shard 0 lost
$ [run p f --shard 2 --attempts 2 --kill 0.0.1,0.1.1 --workers 2] => 7 ! shard 0 lost
$ [run p f --shard 2 --attempts 2 --kill 0.0.1,0.1.1,1.1.0 --workers 2] => 7 ! shard 0 lost
$ [run p f --shard 2 --attempts 2 --kill 0.0.1,0.1.1,1.1.1 --workers 2] => 7 ! shard 0 lost
$ [run p f --shard 2 --attempts 2 --kill 0.0.1,0.1.1,1.0.0 --workers 2] => 7 ! shard 0 lost
$ [run p f --shard 2 --attempts 2 --kill 0.0.1,0.1.1,1.0.0,1.1.0 --workers 2] => 7 ! shard 0 lost
$ [run p f --shard 2 --attempts 2 --kill 0.0.1,0.1.1,1.0.0,1.1.1 --workers 2] => 7 ! shard 0 lost
$ [run p f --shard 2 --attempts 2 --kill 0.0.1,0.1.1,1.0.1 --workers 2] => 7 ! shard 0 lost
$ [run p f --shard 2 --attempts 2 --kill 0.0.1,0.1.1,1.0.1,1.1.0 --workers 2] => 7 ! shard 0 lost
$ [run p f --shard 2 --attempts 2 --kill 0.0.1,0.1.1,1.0.1,1.1.1 --workers 2] => 7 ! shard 0 lost
"#;
