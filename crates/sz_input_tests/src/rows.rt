//! Command lines, and what each asks for.

/// A row is words, ` => `, and what they ask for; `~` stands for an empty word. A run is told as its program, input, frame,
/// workers, shard, attempts and budget, then its kills and its doubled shards, how many records that fault it
/// passes over where that is more than none, whether it ignores undefined values, the file of its types where it has one, and
/// whether it saves its tables.
pub const ROWS: &str = "\
== commands
 => usage
~ => usage
run => usage
Run p f => usage
RUN p f => usage
runs p f => usage
ru p f => usage
check => usage
chec p => usage
Check p => usage
selftest => usage
self 1 1 1 => usage
help => usage
--help => usage
-h => usage
--version => usage
-V => usage
run --help => usage
run --version => usage
check --help => usage
selftest --help => usage
run p f --help => usage
run p f -h => usage
run p f -V => usage
run help => usage
-- run p f => usage
--frame lines run p f => usage
merges a b => usage
Merge a b => usage
resum p f => usage
resumes p f => usage
Resume p f => usage
p f => usage
== names of run
run p f => run p f lines 4 1000 3 16777216 [] []
run - f => run - f lines 4 1000 3 16777216 [] []
run p - => run p - lines 4 1000 3 16777216 [] []
run p => usage
run p f g => usage
run - - => usage
run ~ f => usage
run p ~ => usage
run ~ ~ => usage
run p f ~ => usage
run -p f => usage
run p -f => usage
run -- - - => usage
run -- ~ f => usage
run - -- - => usage
run p f -- g => usage
run -- p f => run p f lines 4 1000 3 16777216 [] []
run p -- f => run p f lines 4 1000 3 16777216 [] []
run p f -- => run p f lines 4 1000 3 16777216 [] []
run -- -p f => run -p f lines 4 1000 3 16777216 [] []
run -- p -- => run p -- lines 4 1000 3 16777216 [] []
run -- -- f => run -- f lines 4 1000 3 16777216 [] []
run -- --frame lines => run --frame lines lines 4 1000 3 16777216 [] []
run -- --workers=2 - => run --workers=2 - lines 4 1000 3 16777216 [] []
run p -- - => run p - lines 4 1000 3 16777216 [] []
run - -- f => run - f lines 4 1000 3 16777216 [] []
run p=q f => run p=q f lines 4 1000 3 16777216 [] []
run run check => run run check lines 4 1000 3 16777216 [] []
run p p => run p p lines 4 1000 3 16777216 [] []
run é ü => run é ü lines 4 1000 3 16777216 [] []
run -- p => usage
run -- p f g => usage
run p f -- --workers 2 => usage
run -- => usage
run p f -- -- => usage
== where options stand
run --workers 2 p f => run p f lines 2 1000 3 16777216 [] []
run p --workers 2 f => run p f lines 2 1000 3 16777216 [] []
run p f --workers 2 => run p f lines 2 1000 3 16777216 [] []
run p f --workers=2 => run p f lines 2 1000 3 16777216 [] []
run --workers=2 p f => run p f lines 2 1000 3 16777216 [] []
run p --workers=2 -- f => run p f lines 2 1000 3 16777216 [] []
run --workers 2 -- -p -f => run -p -f lines 2 1000 3 16777216 [] []
run p f --workers => usage
run p f --workers -- => usage
run p f --workers= => usage
run p f --workers ~ => usage
run p f --workers - => usage
run p f --workers -2 => usage
run p f --workers=-2 => usage
run p f --workers +2 => usage
run p f --workers=+2 => usage
run p f --workers = 2 => usage
run p f --workers= 2 => usage
run p f --workers==2 => usage
run p f --workers=2= => usage
run p f -workers 2 => usage
run p f workers 2 => usage
run p f --work 2 => usage
run p f --worker=2 => usage
run p f --workerss 2 => usage
run p f --Workers 2 => usage
run p f --=2 => usage
run p f -w 2 => usage
run p f -= => usage
run p f ---workers 2 => usage
run --workers p f => usage
run p --workers f => usage
run p f --workers 2 --workers 2 => usage
run p f --workers=2 --workers 2 => usage
run p f --workers => usage
run p f --workers= => usage
run p f --shard 2 --shard 2 => usage
run p f --shard=2 --shard 2 => usage
run p f --shard => usage
run p f --shard= => usage
run p f --attempts 2 --attempts 2 => usage
run p f --attempts=2 --attempts 2 => usage
run p f --attempts => usage
run p f --attempts= => usage
run p f --budget 2 --budget 2 => usage
run p f --budget=2 --budget 2 => usage
run p f --budget => usage
run p f --budget= => usage
run p f --frame lines --frame lines => usage
run p f --frame=lines --frame lines => usage
run p f --frame => usage
run p f --frame= => usage
run p f --kill 0.0.0 --kill 0.0.0 => usage
run p f --kill=0.0.0 --kill 0.0.0 => usage
run p f --kill => usage
run p f --kill= => usage
run p f --twice 0 --twice 0 => usage
run p f --twice=0 --twice 0 => usage
run p f --twice => usage
run p f --twice= => usage
run p f --workers 2 --workers 3 => usage
run --workers=2 p f --workers=3 => usage
run p f --journal j => usage
run p f --workers 2 --shard 3 --attempts 4 --budget 5 --frame delimited --kill 6.1.7 --twice 8 => run p f delimited 2 3 4 5 [6.1.7] [8]
run --twice=8 --kill=6.1.7 p --frame=delimited --budget=5 f --attempts=4 --shard=3 --workers=2 => run p f delimited 2 3 4 5 [6.1.7] [8]
== frames
run p f --frame lines => run p f lines 4 1000 3 16777216 [] []
run p f --frame delimited => run p f delimited 4 1000 3 16777216 [] []
run p f --frame=lines => run p f lines 4 1000 3 16777216 [] []
run p f --frame=delimited => run p f delimited 4 1000 3 16777216 [] []
run p f --frame line => usage
run p f --frame Lines => usage
run p f --frame LINES => usage
run p f --frame delimited. => usage
run p f --frame lines,delimited => usage
run p f --frame ~ => usage
run p f --frame 0 => usage
run p f --frame -- => usage
run p f --frame -lines => usage
run p f --frame=lines= => usage
== numbers at their bounds
run p f --workers 1 => run p f lines 1 1000 3 16777216 [] []
run p f --workers 64 => run p f lines 64 1000 3 16777216 [] []
run p f --workers=64 => run p f lines 64 1000 3 16777216 [] []
run p f --workers 0 => usage
run p f --workers 65 => usage
run p f --workers=65 => usage
run p f --shard 1 => run p f lines 4 1 3 16777216 [] []
run p f --shard 65536 => run p f lines 4 65536 3 16777216 [] []
run p f --shard=65536 => run p f lines 4 65536 3 16777216 [] []
run p f --shard 0 => usage
run p f --shard 65537 => usage
run p f --shard=65537 => usage
run p f --attempts 1 => run p f lines 4 1000 1 16777216 [] []
run p f --attempts 8 => run p f lines 4 1000 8 16777216 [] []
run p f --attempts=8 => run p f lines 4 1000 8 16777216 [] []
run p f --attempts 0 => usage
run p f --attempts 9 => usage
run p f --attempts=9 => usage
run p f --budget 1 => run p f lines 4 1000 3 1 [] []
run p f --budget 4294967296 => run p f lines 4 1000 3 4294967296 [] []
run p f --budget=4294967296 => run p f lines 4 1000 3 4294967296 [] []
run p f --budget 0 => usage
run p f --budget 4294967297 => usage
run p f --budget=4294967297 => usage
run p f --workers 08 => run p f lines 8 1000 3 16777216 [] []
run p f --workers 00000000000000000008 => run p f lines 8 1000 3 16777216 [] []
run p f --workers 000000000000000000008 => usage
run p f --shard 00001000 => run p f lines 4 1000 3 16777216 [] []
run p f --budget 00000000004294967296 => run p f lines 4 1000 3 4294967296 [] []
run p f --budget 000000000004294967296 => usage
run p f --workers 18446744073709551616 => usage
run p f --workers 18446744073709551617 => usage
run p f --workers 99999999999999999999 => usage
run p f --workers 184467440737095516160 => usage
run p f --workers 4294967298 => usage
run p f --workers 1_0 => usage
run p f --workers 0x4 => usage
run p f --workers 1e1 => usage
run p f --workers 4.0 => usage
run p f --workers 4, => usage
run p f --workers ４ => usage
run p f --workers four => usage
run p f --workers 2 3 => usage
== kills
run p f --kill 0.0.0 => run p f lines 4 1000 3 16777216 [0.0.0] []
run p f --kill 2147483647.7.65536 => run p f lines 4 1000 3 16777216 [2147483647.7.65536] []
run p f --kill 1.0.0,1.1.1 => run p f lines 4 1000 3 16777216 [1.0.0,1.1.1] []
run p f --kill 0.0.2,0.1.2 => run p f lines 4 1000 3 16777216 [0.0.2,0.1.2] []
run p f --kill 5000.0.0 => run p f lines 4 1000 3 16777216 [5000.0.0] []
run p f --kill 3.2.1,1.2.3,2.2.2 => run p f lines 4 1000 3 16777216 [3.2.1,1.2.3,2.2.2] []
run p f --kill=0.0.0,1.0.0 => run p f lines 4 1000 3 16777216 [0.0.0,1.0.0] []
run p f --kill 00.007.010 => run p f lines 4 1000 3 16777216 [0.7.10] []
run p f --kill 0.0.00000000000000000001 => run p f lines 4 1000 3 16777216 [0.0.1] []
run p f --attempts 1 --kill 0.7.0 => run p f lines 4 1000 1 16777216 [0.7.0] []
run p f --kill 0.0.0,0.0.1 => usage
run p f --kill 0.0.0,00.0.1 => usage
run p f --kill 0.0.0,0.0.0 => usage
run p f --kill 1.1.1,0.0.0,1.1.2 => usage
run p f --kill 2147483648.0.0 => usage
run p f --kill 0.8.0 => usage
run p f --kill 0.0.65537 => usage
run p f --kill 0.0 => usage
run p f --kill 0 => usage
run p f --kill 0.0.0.0 => usage
run p f --kill 0.0.0. => usage
run p f --kill .. => usage
run p f --kill 0..0 => usage
run p f --kill .0.0 => usage
run p f --kill 0.0. => usage
run p f --kill , => usage
run p f --kill 0.0.0, => usage
run p f --kill ,0.0.0 => usage
run p f --kill 0.0.0,,1.0.0 => usage
run p f --kill a.0.0 => usage
run p f --kill 0.a.0 => usage
run p f --kill 0.0.a => usage
run p f --kill +0.0.0 => usage
run p f --kill 0.0.+0 => usage
run p f --kill 0.-1.0 => usage
run p f --kill -1.0.0 => usage
run p f --kill 0:0:0 => usage
run p f --kill 0.0.0;1.0.0 => usage
run p f --kill 0.0.000000000000000000001 => usage
run p f --kill ~ => usage
run p f --kill 18446744073709551616.0.0 => usage
run p f --kill=-1.0.0 => usage
run p f --kill 0.0.0 1.0.0 => usage
== doubled shards
run p f --twice 0 => run p f lines 4 1000 3 16777216 [] [0]
run p f --twice 2147483647 => run p f lines 4 1000 3 16777216 [] [2147483647]
run p f --twice 1,0,2 => run p f lines 4 1000 3 16777216 [] [1,0,2]
run p f --twice 0,1,2,3 => run p f lines 4 1000 3 16777216 [] [0,1,2,3]
run p f --twice=5,6 => run p f lines 4 1000 3 16777216 [] [5,6]
run p f --twice 007 => run p f lines 4 1000 3 16777216 [] [7]
run p f --kill 1.0.0 --twice 1 => run p f lines 4 1000 3 16777216 [1.0.0] [1]
run p f --twice 1,1 => usage
run p f --twice 1,01 => usage
run p f --twice 0,1,0 => usage
run p f --twice 2147483648 => usage
run p f --twice a => usage
run p f --twice 1, => usage
run p f --twice 1,,2 => usage
run p f --twice ,1 => usage
run p f --twice , => usage
run p f --twice 1.0 => usage
run p f --twice +1 => usage
run p f --twice ~ => usage
run p f --twice 000000000000000000001 => usage
== records that are passed over
run p f --skip 0 => run p f lines 4 1000 3 16777216 [] []
run p f --skip 1 => run p f lines 4 1000 3 16777216 [] [] skipping 1
run p f --skip=1000 => run p f lines 4 1000 3 16777216 [] [] skipping 1000
run --skip 0007 p f => run p f lines 4 1000 3 16777216 [] [] skipping 7
run p f --skip 2 --ignore-undefs => run p f lines 4 1000 3 16777216 [] [] skipping 2 ignoring
run p f --kill 0.0.1 --skip=3 --twice 0 => run p f lines 4 1000 3 16777216 [0.0.1] [0] skipping 3
run p f -- --skip => usage
run -- p --skip => run p --skip lines 4 1000 3 16777216 [] []
run p f --skip 1001 => usage
run p f --skip=18446744073709551616 => usage
run p f --skip 00000000000000001000 => run p f lines 4 1000 3 16777216 [] [] skipping 1000
run p f --skip 000000000000000000001 => usage
run p f --skip -1 => usage
run p f --skip=-1 => usage
run p f --skip=+1 => usage
run p f --skip => usage
run p f --skip= => usage
run p f --skip ~ => usage
run p f --skip --ignore-undefs => usage
run p f --skip 1.0 => usage
run p f --skip 1 --skip 1 => usage
run p f --skip=1 --skip 2 => usage
run p f --skips 1 => usage
check p --skip 1 => usage
selftest 1 1 1 --skip 1 => usage
== the flag of run
run p f --ignore-undefs => run p f lines 4 1000 3 16777216 [] [] ignoring
run --ignore-undefs p f => run p f lines 4 1000 3 16777216 [] [] ignoring
run p --ignore-undefs f => run p f lines 4 1000 3 16777216 [] [] ignoring
run --ignore-undefs -- p f => run p f lines 4 1000 3 16777216 [] [] ignoring
run --ignore-undefs --frame delimited p f => run p f delimited 4 1000 3 16777216 [] [] ignoring
run --frame=delimited --ignore-undefs p f => run p f delimited 4 1000 3 16777216 [] [] ignoring
run p f --budget 5 --ignore-undefs --workers 2 => run p f lines 2 1000 3 5 [] [] ignoring
run p f --twice 1 --kill 0.0.0 --ignore-undefs => run p f lines 4 1000 3 16777216 [0.0.0] [1] ignoring
run -- p --ignore-undefs => run p --ignore-undefs lines 4 1000 3 16777216 [] []
run --ignore-undefs -- --ignore-undefs f => run --ignore-undefs f lines 4 1000 3 16777216 [] [] ignoring
run p f -- --ignore-undefs => usage
run p f --ignore-undefs --ignore-undefs => usage
run --ignore-undefs p --ignore-undefs f => usage
run p f --ignore-undefs=x => usage
run p f --ignore-undefs= => usage
run p f --ignore-undefs x => usage
run p f --ignore-undefs true => usage
run p f --ignore-undef => usage
run p f --ignore-undefss => usage
run p f --Ignore-undefs => usage
run p f -ignore-undefs => usage
run p f --budget --ignore-undefs => usage
run p f --budget --ignore-undefs 5 => usage
run p f --bogus --ignore-undefs => usage
run --ignore-undefs => usage
run p --ignore-undefs => usage
--ignore-undefs run p f => usage
check p --ignore-undefs => usage
check --ignore-undefs p => usage
check p --ignore-undefs=x => usage
check -- --ignore-undefs => check --ignore-undefs
selftest 1 1 1 --ignore-undefs => usage
selftest --ignore-undefs 1 1 1 => usage
== check
check p => check p
check - => check -
check -- p => check p
check p -- => check p
check -- -p => check -p
check -- -- => check --
check -- - => check -
check ~ => usage
check -- ~ => usage
check p q => usage
check -p => usage
check -- => usage
check p --frame lines => usage
check --workers 4 p => usage
check p --workers=4 => usage
check p --bogus => usage
check p -- q => usage
== selftest
selftest 0 0 1 => selftest 0 0 1
selftest 9223372036854775807 1000000 64 => selftest 9223372036854775807 1000000 64
selftest -- 1 2 3 => selftest 1 2 3
selftest 1 -- 2 3 => selftest 1 2 3
selftest 01 002 0003 => selftest 1 2 3
selftest 1 2 3 -- => selftest 1 2 3
selftest 9223372036854775808 1 1 => usage
selftest 1 1000001 1 => usage
selftest 1 1 0 => usage
selftest 1 1 65 => usage
selftest 1 1 => usage
selftest 1 1 1 1 => usage
selftest ~ 1 1 => usage
selftest 1 ~ 1 => usage
selftest 1 1 ~ => usage
selftest - 1 1 => usage
selftest -1 1 1 => usage
selftest +1 1 1 => usage
selftest a 1 1 => usage
selftest 1 1 1 --workers 2 => usage
selftest --frame lines 1 1 1 => usage
selftest --frame=delimited 1 1 1 => usage
selftest -- -1 1 1 => usage
selftest 000000000000000000001 1 1 => usage
selftest 18446744073709551616 1 1 => usage";
