//! Runs by example: workers. The lines are as in `runs.rt`.

/// The runs.
pub const RUNS: &str = r#"== there are 1 to 64 workers, and 4 where none are asked for
< 3¶-1¶
$ [run p f]
c: table sum of int; x: int = input; emit c <- x; => 0 c[] = 2¶
$ [run p f --workers 4] => 0 c[] = 2¶
$ [run p f --workers=04] => 0 c[] = 2¶
$ [run p f --workers 1] => 0 c[] = 2¶
$ [run p f --workers 2] => 0 c[] = 2¶
$ [run p f --workers 64] => 0 c[] = 2¶
$ [run p f --workers 0] => 1 ! bad command line
$ [run p f --workers 65] => 1 ! bad command line
$ [run p f --workers] => 1 ! bad command line
$ [run p f --workers -1] => 1 ! bad command line
$ [run p f --workers two] => 1 ! bad command line
$ [run p f --workers 2 --workers 2] => 1 ! bad command line

== the tables are those of all shards, whoever runs them
< c¶a¶a¶
$ [run p f --shard 1 --workers 4]
t: table collection of string;¶s: string = input;¶emit t <- s;¶ => 0 t[] = "a"¶t[] = "a"¶t[] = "c"¶
< 3¶-1¶
$ [run p f --shard 1 --attempts 2 --kill 0.0.0 --workers 4]
count: table sum of int;¶total: table sum of int;¶sum_of_squares: table sum of int;¶x: int = input;¶emit count <- 1;¶emit total <- x;¶emit sum_of_squares <- x * x;¶ => 0 count[] = 2¶total[] = 2¶sum_of_squares[] = 10¶
< 3¶-1¶
$ [run p f --shard 1 --twice 0,1 --workers 2] => 0 count[] = 2¶total[] = 2¶sum_of_squares[] = 10¶

== there may be more workers than shards
$ [run p f --workers 64]
count: table sum of int;¶total: table sum of int;¶sum_of_squares: table sum of int;¶x: int = input;¶emit count <- 1;¶emit total <- x;¶emit sum_of_squares <- x * x;¶ => 0
< 3¶-1¶
$ [run p f --workers 64] => 0 count[] = 2¶total[] = 2¶sum_of_squares[] = 10¶
< 3¶-1¶
$ [run p f --shard 1 --workers 64] => 0 count[] = 2¶total[] = 2¶sum_of_squares[] = 10¶
< 3¶-1¶
$ [run p f --twice 0 --attempts 2 --kill 0.0.1 --workers 64] => 0 count[] = 2¶total[] = 2¶sum_of_squares[] = 10¶
< 3¶-1¶
$ [run p f --shard 1 --twice 0,1 --attempts 4 --kill 0.0.0,0.1.0,0.2.0,1.0.1,1.1.1,1.2.1 --workers 64] => 0 count[] = 2¶total[] = 2¶sum_of_squares[] = 10¶

== a shard of which each attempt dies is lost, whoever runs it
< 3¶-1¶
$ [run p f --shard 1 --attempts 2 --kill 1.0.0,1.1.1 --workers 1]
count: table sum of int;¶total: table sum of int;¶sum_of_squares: table sum of int;¶x: int = input;¶emit count <- 1;¶emit total <- x;¶emit sum_of_squares <- x * x;¶ => 7 ! shard 1 lost
< 3¶-1¶
$ [run p f --shard 1 --attempts 2 --kill 1.0.0,1.1.1 --workers 2] => 7 ! shard 1 lost
< 3¶-1¶
$ [run p f --shard 1 --attempts 2 --kill 1.0.0,1.1.1 --workers 3] => 7 ! shard 1 lost
< 3¶-1¶
$ [run p f --shard 1 --attempts 2 --kill 1.0.0,1.1.1 --workers 8] => 7 ! shard 1 lost

== the first shard that faults or is lost decides, by any number of workers
< ¶1¶1¶¶1¶
$ [run p f --shard 1 --attempts 1 --kill 2.0.0 --workers 1]
c: table sum of int;¶x: int = input;¶if (x > 0) emit c <- 1;¶ => 3 ! record 1: undefined value used at 3:1
< ¶1¶1¶¶1¶
$ [run p f --shard 1 --attempts 1 --kill 2.0.0 --workers 2] => 3 ! record 1: undefined value used at 3:1
< ¶1¶1¶¶1¶
$ [run p f --shard 1 --attempts 1 --kill 2.0.0 --workers 3] => 3 ! record 1: undefined value used at 3:1
< ¶1¶1¶¶1¶
$ [run p f --shard 1 --attempts 1 --kill 2.0.0 --workers 4] => 3 ! record 1: undefined value used at 3:1
< ¶1¶1¶¶1¶
$ [run p f --shard 1 --attempts 1 --kill 2.0.0 --workers 5] => 3 ! record 1: undefined value used at 3:1
< ¶1¶1¶¶1¶
$ [run p f --shard 1 --attempts 1 --kill 2.0.0 --workers 6] => 3 ! record 1: undefined value used at 3:1
< ¶1¶1¶¶1¶
$ [run p f --shard 1 --attempts 1 --kill 2.0.0 --workers 7] => 3 ! record 1: undefined value used at 3:1
< ¶1¶1¶¶1¶
$ [run p f --shard 1 --attempts 1 --kill 2.0.0 --workers 8] => 3 ! record 1: undefined value used at 3:1
< 1¶1¶1¶¶
$ [run p f --shard 1 --attempts 1 --kill 2.0.0 --workers 1] => 7 ! shard 2 lost
< 1¶1¶1¶¶
$ [run p f --shard 1 --attempts 1 --kill 2.0.0 --workers 2] => 7 ! shard 2 lost
< 1¶1¶1¶¶
$ [run p f --shard 1 --attempts 1 --kill 2.0.0 --workers 3] => 7 ! shard 2 lost
< 1¶1¶1¶¶
$ [run p f --shard 1 --attempts 1 --kill 2.0.0 --workers 4] => 7 ! shard 2 lost
< 1¶1¶1¶¶
$ [run p f --shard 1 --attempts 1 --kill 2.0.0 --workers 5] => 7 ! shard 2 lost
< 1¶1¶1¶¶
$ [run p f --shard 1 --attempts 1 --kill 2.0.0 --workers 6] => 7 ! shard 2 lost
< 1¶1¶1¶¶
$ [run p f --shard 1 --attempts 1 --kill 2.0.0 --workers 7] => 7 ! shard 2 lost
< 1¶1¶1¶¶
$ [run p f --shard 1 --attempts 1 --kill 2.0.0 --workers 8] => 7 ! shard 2 lost

== a self test has the same tables by any number of workers
$ [selftest 7 10000 1]
no program => 0 queries["de"] = 2119¶queries["fr"] = 2100¶queries["jp"] = 2239¶queries["us"] = 2092¶slow[] = "de" weight 999¶slow[] = "de" weight 999¶slow[] = "de" weight 999¶hours[] = 0¶hours[] = 1¶hours[] = 2¶hours[] = 3¶hours[] = 4¶hours[] = 5¶hours[] = 6¶hours[] = 7¶hours[] = 8¶hours[] = 9¶hours[] = 10¶hours[] = 11¶hours[] = 12¶hours[] = 13¶hours[] = 14¶hours[] = 15¶hours[] = 16¶hours[] = 17¶hours[] = 18¶hours[] = 19¶hours[] = 20¶hours[] = 21¶hours[] = 22¶hours[] = 23¶
$ [selftest 7 10000 2] => 0 queries["de"] = 2119¶queries["fr"] = 2100¶queries["jp"] = 2239¶queries["us"] = 2092¶slow[] = "de" weight 999¶slow[] = "de" weight 999¶slow[] = "de" weight 999¶hours[] = 0¶hours[] = 1¶hours[] = 2¶hours[] = 3¶hours[] = 4¶hours[] = 5¶hours[] = 6¶hours[] = 7¶hours[] = 8¶hours[] = 9¶hours[] = 10¶hours[] = 11¶hours[] = 12¶hours[] = 13¶hours[] = 14¶hours[] = 15¶hours[] = 16¶hours[] = 17¶hours[] = 18¶hours[] = 19¶hours[] = 20¶hours[] = 21¶hours[] = 22¶hours[] = 23¶
$ [selftest 7 10000 8] => 0 queries["de"] = 2119¶queries["fr"] = 2100¶queries["jp"] = 2239¶queries["us"] = 2092¶slow[] = "de" weight 999¶slow[] = "de" weight 999¶slow[] = "de" weight 999¶hours[] = 0¶hours[] = 1¶hours[] = 2¶hours[] = 3¶hours[] = 4¶hours[] = 5¶hours[] = 6¶hours[] = 7¶hours[] = 8¶hours[] = 9¶hours[] = 10¶hours[] = 11¶hours[] = 12¶hours[] = 13¶hours[] = 14¶hours[] = 15¶hours[] = 16¶hours[] = 17¶hours[] = 18¶hours[] = 19¶hours[] = 20¶hours[] = 21¶hours[] = 22¶hours[] = 23¶
$ [selftest 7 10000 64] => 0 queries["de"] = 2119¶queries["fr"] = 2100¶queries["jp"] = 2239¶queries["us"] = 2092¶slow[] = "de" weight 999¶slow[] = "de" weight 999¶slow[] = "de" weight 999¶hours[] = 0¶hours[] = 1¶hours[] = 2¶hours[] = 3¶hours[] = 4¶hours[] = 5¶hours[] = 6¶hours[] = 7¶hours[] = 8¶hours[] = 9¶hours[] = 10¶hours[] = 11¶hours[] = 12¶hours[] = 13¶hours[] = 14¶hours[] = 15¶hours[] = 16¶hours[] = 17¶hours[] = 18¶hours[] = 19¶hours[] = 20¶hours[] = 21¶hours[] = 22¶hours[] = 23¶
"#;
