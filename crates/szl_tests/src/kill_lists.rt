//! Runs by example: each list of deaths of two shards of one record. The lines are as in `runs.rt`, and `tools/make/kill-lists` made them.

/// The runs.
pub const RUNS: &str = r#"== a shard is lost where both attempts die
< 3¶-1¶
$ [run p f --shard 1 --attempts 2]
count: table sum of int;¶total: table sum of int;¶sum_of_squares: table sum of int;¶x: int = input;¶emit count <- 1;¶emit total <- x;¶emit sum_of_squares <- x * x; => 0 count[] = 2¶total[] = 2¶sum_of_squares[] = 10¶
$ [run p f --shard 1 --attempts 2 --kill 1.1.0] => 0 count[] = 2¶total[] = 2¶sum_of_squares[] = 10¶
$ [run p f --shard 1 --attempts 2 --kill 1.1.1] => 0 count[] = 2¶total[] = 2¶sum_of_squares[] = 10¶
$ [run p f --shard 1 --attempts 2 --kill 1.0.0] => 0 count[] = 2¶total[] = 2¶sum_of_squares[] = 10¶
$ [run p f --shard 1 --attempts 2 --kill 1.0.0,1.1.0] => 7 ! shard 1 lost
$ [run p f --shard 1 --attempts 2 --kill 1.0.0,1.1.1] => 7 ! shard 1 lost
$ [run p f --shard 1 --attempts 2 --kill 1.0.1] => 0 count[] = 2¶total[] = 2¶sum_of_squares[] = 10¶
$ [run p f --shard 1 --attempts 2 --kill 1.0.1,1.1.0] => 7 ! shard 1 lost
$ [run p f --shard 1 --attempts 2 --kill 1.0.1,1.1.1] => 7 ! shard 1 lost
$ [run p f --shard 1 --attempts 2 --kill 0.1.0] => 0 count[] = 2¶total[] = 2¶sum_of_squares[] = 10¶
$ [run p f --shard 1 --attempts 2 --kill 0.1.0,1.1.0] => 0 count[] = 2¶total[] = 2¶sum_of_squares[] = 10¶
$ [run p f --shard 1 --attempts 2 --kill 0.1.0,1.1.1] => 0 count[] = 2¶total[] = 2¶sum_of_squares[] = 10¶
$ [run p f --shard 1 --attempts 2 --kill 0.1.0,1.0.0] => 0 count[] = 2¶total[] = 2¶sum_of_squares[] = 10¶
$ [run p f --shard 1 --attempts 2 --kill 0.1.0,1.0.0,1.1.0] => 7 ! shard 1 lost
$ [run p f --shard 1 --attempts 2 --kill 0.1.0,1.0.0,1.1.1] => 7 ! shard 1 lost
$ [run p f --shard 1 --attempts 2 --kill 0.1.0,1.0.1] => 0 count[] = 2¶total[] = 2¶sum_of_squares[] = 10¶
$ [run p f --shard 1 --attempts 2 --kill 0.1.0,1.0.1,1.1.0] => 7 ! shard 1 lost
$ [run p f --shard 1 --attempts 2 --kill 0.1.0,1.0.1,1.1.1] => 7 ! shard 1 lost
$ [run p f --shard 1 --attempts 2 --kill 0.1.1] => 0 count[] = 2¶total[] = 2¶sum_of_squares[] = 10¶
$ [run p f --shard 1 --attempts 2 --kill 0.1.1,1.1.0] => 0 count[] = 2¶total[] = 2¶sum_of_squares[] = 10¶
$ [run p f --shard 1 --attempts 2 --kill 0.1.1,1.1.1] => 0 count[] = 2¶total[] = 2¶sum_of_squares[] = 10¶
$ [run p f --shard 1 --attempts 2 --kill 0.1.1,1.0.0] => 0 count[] = 2¶total[] = 2¶sum_of_squares[] = 10¶
$ [run p f --shard 1 --attempts 2 --kill 0.1.1,1.0.0,1.1.0] => 7 ! shard 1 lost
$ [run p f --shard 1 --attempts 2 --kill 0.1.1,1.0.0,1.1.1] => 7 ! shard 1 lost
$ [run p f --shard 1 --attempts 2 --kill 0.1.1,1.0.1] => 0 count[] = 2¶total[] = 2¶sum_of_squares[] = 10¶
$ [run p f --shard 1 --attempts 2 --kill 0.1.1,1.0.1,1.1.0] => 7 ! shard 1 lost
$ [run p f --shard 1 --attempts 2 --kill 0.1.1,1.0.1,1.1.1] => 7 ! shard 1 lost
$ [run p f --shard 1 --attempts 2 --kill 0.0.0] => 0 count[] = 2¶total[] = 2¶sum_of_squares[] = 10¶
$ [run p f --shard 1 --attempts 2 --kill 0.0.0,1.1.0] => 0 count[] = 2¶total[] = 2¶sum_of_squares[] = 10¶
$ [run p f --shard 1 --attempts 2 --kill 0.0.0,1.1.1] => 0 count[] = 2¶total[] = 2¶sum_of_squares[] = 10¶
$ [run p f --shard 1 --attempts 2 --kill 0.0.0,1.0.0] => 0 count[] = 2¶total[] = 2¶sum_of_squares[] = 10¶
$ [run p f --shard 1 --attempts 2 --kill 0.0.0,1.0.0,1.1.0] => 7 ! shard 1 lost
$ [run p f --shard 1 --attempts 2 --kill 0.0.0,1.0.0,1.1.1] => 7 ! shard 1 lost
$ [run p f --shard 1 --attempts 2 --kill 0.0.0,1.0.1] => 0 count[] = 2¶total[] = 2¶sum_of_squares[] = 10¶
$ [run p f --shard 1 --attempts 2 --kill 0.0.0,1.0.1,1.1.0] => 7 ! shard 1 lost
$ [run p f --shard 1 --attempts 2 --kill 0.0.0,1.0.1,1.1.1] => 7 ! shard 1 lost
$ [run p f --shard 1 --attempts 2 --kill 0.0.0,0.1.0] => 7 ! shard 0 lost
$ [run p f --shard 1 --attempts 2 --kill 0.0.0,0.1.0,1.1.0] => 7 ! shard 0 lost
$ [run p f --shard 1 --attempts 2 --kill 0.0.0,0.1.0,1.1.1] => 7 ! shard 0 lost
$ [run p f --shard 1 --attempts 2 --kill 0.0.0,0.1.0,1.0.0] => 7 ! shard 0 lost
$ [run p f --shard 1 --attempts 2 --kill 0.0.0,0.1.0,1.0.0,1.1.0] => 7 ! shard 0 lost
$ [run p f --shard 1 --attempts 2 --kill 0.0.0,0.1.0,1.0.0,1.1.1] => 7 ! shard 0 lost
$ [run p f --shard 1 --attempts 2 --kill 0.0.0,0.1.0,1.0.1] => 7 ! shard 0 lost
$ [run p f --shard 1 --attempts 2 --kill 0.0.0,0.1.0,1.0.1,1.1.0] => 7 ! shard 0 lost
$ [run p f --shard 1 --attempts 2 --kill 0.0.0,0.1.0,1.0.1,1.1.1] => 7 ! shard 0 lost
$ [run p f --shard 1 --attempts 2 --kill 0.0.0,0.1.1] => 7 ! shard 0 lost
$ [run p f --shard 1 --attempts 2 --kill 0.0.0,0.1.1,1.1.0] => 7 ! shard 0 lost
$ [run p f --shard 1 --attempts 2 --kill 0.0.0,0.1.1,1.1.1] => 7 ! shard 0 lost
$ [run p f --shard 1 --attempts 2 --kill 0.0.0,0.1.1,1.0.0] => 7 ! shard 0 lost
$ [run p f --shard 1 --attempts 2 --kill 0.0.0,0.1.1,1.0.0,1.1.0] => 7 ! shard 0 lost
$ [run p f --shard 1 --attempts 2 --kill 0.0.0,0.1.1,1.0.0,1.1.1] => 7 ! shard 0 lost
$ [run p f --shard 1 --attempts 2 --kill 0.0.0,0.1.1,1.0.1] => 7 ! shard 0 lost
$ [run p f --shard 1 --attempts 2 --kill 0.0.0,0.1.1,1.0.1,1.1.0] => 7 ! shard 0 lost
$ [run p f --shard 1 --attempts 2 --kill 0.0.0,0.1.1,1.0.1,1.1.1] => 7 ! shard 0 lost
$ [run p f --shard 1 --attempts 2 --kill 0.0.1] => 0 count[] = 2¶total[] = 2¶sum_of_squares[] = 10¶
$ [run p f --shard 1 --attempts 2 --kill 0.0.1,1.1.0] => 0 count[] = 2¶total[] = 2¶sum_of_squares[] = 10¶
$ [run p f --shard 1 --attempts 2 --kill 0.0.1,1.1.1] => 0 count[] = 2¶total[] = 2¶sum_of_squares[] = 10¶
$ [run p f --shard 1 --attempts 2 --kill 0.0.1,1.0.0] => 0 count[] = 2¶total[] = 2¶sum_of_squares[] = 10¶
$ [run p f --shard 1 --attempts 2 --kill 0.0.1,1.0.0,1.1.0] => 7 ! shard 1 lost
$ [run p f --shard 1 --attempts 2 --kill 0.0.1,1.0.0,1.1.1] => 7 ! shard 1 lost
$ [run p f --shard 1 --attempts 2 --kill 0.0.1,1.0.1] => 0 count[] = 2¶total[] = 2¶sum_of_squares[] = 10¶
$ [run p f --shard 1 --attempts 2 --kill 0.0.1,1.0.1,1.1.0] => 7 ! shard 1 lost
$ [run p f --shard 1 --attempts 2 --kill 0.0.1,1.0.1,1.1.1] => 7 ! shard 1 lost
$ [run p f --shard 1 --attempts 2 --kill 0.0.1,0.1.0] => 7 ! shard 0 lost
$ [run p f --shard 1 --attempts 2 --kill 0.0.1,0.1.0,1.1.0] => 7 ! shard 0 lost
$ [run p f --shard 1 --attempts 2 --kill 0.0.1,0.1.0,1.1.1] => 7 ! shard 0 lost
$ [run p f --shard 1 --attempts 2 --kill 0.0.1,0.1.0,1.0.0] => 7 ! shard 0 lost
$ [run p f --shard 1 --attempts 2 --kill 0.0.1,0.1.0,1.0.0,1.1.0] => 7 ! shard 0 lost
$ [run p f --shard 1 --attempts 2 --kill 0.0.1,0.1.0,1.0.0,1.1.1] => 7 ! shard 0 lost
$ [run p f --shard 1 --attempts 2 --kill 0.0.1,0.1.0,1.0.1] => 7 ! shard 0 lost
$ [run p f --shard 1 --attempts 2 --kill 0.0.1,0.1.0,1.0.1,1.1.0] => 7 ! shard 0 lost
$ [run p f --shard 1 --attempts 2 --kill 0.0.1,0.1.0,1.0.1,1.1.1] => 7 ! shard 0 lost
$ [run p f --shard 1 --attempts 2 --kill 0.0.1,0.1.1] => 7 ! shard 0 lost
$ [run p f --shard 1 --attempts 2 --kill 0.0.1,0.1.1,1.1.0] => 7 ! shard 0 lost
$ [run p f --shard 1 --attempts 2 --kill 0.0.1,0.1.1,1.1.1] => 7 ! shard 0 lost
$ [run p f --shard 1 --attempts 2 --kill 0.0.1,0.1.1,1.0.0] => 7 ! shard 0 lost
$ [run p f --shard 1 --attempts 2 --kill 0.0.1,0.1.1,1.0.0,1.1.0] => 7 ! shard 0 lost
$ [run p f --shard 1 --attempts 2 --kill 0.0.1,0.1.1,1.0.0,1.1.1] => 7 ! shard 0 lost
$ [run p f --shard 1 --attempts 2 --kill 0.0.1,0.1.1,1.0.1] => 7 ! shard 0 lost
$ [run p f --shard 1 --attempts 2 --kill 0.0.1,0.1.1,1.0.1,1.1.0] => 7 ! shard 0 lost
$ [run p f --shard 1 --attempts 2 --kill 0.0.1,0.1.1,1.0.1,1.1.1] => 7 ! shard 0 lost
"#;
