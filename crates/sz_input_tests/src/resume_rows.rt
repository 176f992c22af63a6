//! Command lines of jobs that are resumed, and what each asks for.

/// Rows as those of `rows.rt`: a job that is resumed is told as a run is. It takes the options of a run, but for the one that saves tables.
pub const RESUME_ROWS: &str = "\
== names
resume p f => resume p f lines 4 1000 3 16777216 [] []
resume - f => resume - f lines 4 1000 3 16777216 [] []
resume p - => resume p - lines 4 1000 3 16777216 [] []
resume -- p f => resume p f lines 4 1000 3 16777216 [] []
resume p -- f => resume p f lines 4 1000 3 16777216 [] []
resume p f -- => resume p f lines 4 1000 3 16777216 [] []
resume -- -p f => resume -p f lines 4 1000 3 16777216 [] []
resume -- p -- => resume p -- lines 4 1000 3 16777216 [] []
resume -- p --save => resume p --save lines 4 1000 3 16777216 [] []
resume p p => resume p p lines 4 1000 3 16777216 [] []
resume run resume => resume run resume lines 4 1000 3 16777216 [] []
resume resume run => resume resume run lines 4 1000 3 16777216 [] []
run resume f => run resume f lines 4 1000 3 16777216 [] []
check resume => check resume
merge resume f => merge resume f
resume => usage
resume p => usage
resume p f g => usage
resume - - => usage
resume -- - - => usage
resume ~ f => usage
resume p ~ => usage
resume -- p => usage
resume -- p f g => usage
resume -p f => usage
resume p -f => usage
resume p f -h => usage
resume --help => usage
resume --version => usage
resume run p f => usage
run resume p f => usage
-- resume p f => usage
--shard 2 resume p f => usage
resumed p f => usage
RESUME p f => usage
== each option with a value
resume p f --frame lines => resume p f lines 4 1000 3 16777216 [] []
resume p f --frame delimited => resume p f delimited 4 1000 3 16777216 [] []
resume --frame=delimited p f => resume p f delimited 4 1000 3 16777216 [] []
resume p f --workers 1 => resume p f lines 1 1000 3 16777216 [] []
resume --workers=64 p f => resume p f lines 64 1000 3 16777216 [] []
resume p f --shard 1 => resume p f lines 4 1 3 16777216 [] []
resume p --shard=65536 f => resume p f lines 4 65536 3 16777216 [] []
resume p f --attempts 8 => resume p f lines 4 1000 8 16777216 [] []
resume p f --attempts=1 => resume p f lines 4 1000 1 16777216 [] []
resume p f --budget 1 => resume p f lines 4 1000 3 1 [] []
resume p f --budget=4294967296 => resume p f lines 4 1000 3 4294967296 [] []
resume p f --skip 2 => resume p f lines 4 1000 3 16777216 [] [] skipping 2
resume p f --skip=1000 => resume p f lines 4 1000 3 16777216 [] [] skipping 1000
resume p f --kill 0.0.0,1.2.3 => resume p f lines 4 1000 3 16777216 [0.0.0,1.2.3] []
resume --kill=2147483647.7.65536 p f => resume p f lines 4 1000 3 16777216 [2147483647.7.65536] []
resume p f --twice 1,0 => resume p f lines 4 1000 3 16777216 [] [1,0]
resume --twice=2147483647 p f => resume p f lines 4 1000 3 16777216 [] [2147483647]
resume p f --proto q => resume p f lines 4 1000 3 16777216 [] [] types q
resume p - --proto=q => resume p - lines 4 1000 3 16777216 [] [] types q
resume p f --proto=- => resume p f lines 4 1000 3 16777216 [] [] types -
resume p f --workers 2 --shard 3 --attempts 4 --budget 5 --frame delimited --kill 6.1.7 --twice 8 => resume p f delimited 2 3 4 5 [6.1.7] [8]
resume --twice=8 --kill=6.1.7 p --frame=delimited --budget=5 f --attempts=4 --shard=3 --workers=2 => resume p f delimited 2 3 4 5 [6.1.7] [8]
resume p f --frame line => usage
resume p f --workers 0 => usage
resume p f --workers 65 => usage
resume p f --shard 0 => usage
resume p f --shard 65537 => usage
resume p f --attempts 0 => usage
resume p f --attempts 9 => usage
resume p f --budget 0 => usage
resume p f --budget 4294967297 => usage
resume p f --skip 1001 => usage
resume p f --kill 0.0.0,0.0.1 => usage
resume p f --kill 2147483648.0.0 => usage
resume p f --twice 1,1 => usage
resume p f --twice 2147483648 => usage
resume p f --proto - => usage
resume p - --proto=- => usage
resume - f --proto=- => usage
resume p f --proto => usage
resume p f --proto= => usage
resume p f --shard => usage
resume p f --shard= => usage
resume p f --shard -- => usage
resume p f --shard 2 --shard 2 => usage
resume p f --proto=q --proto=q => usage
resume p f --journal j => usage
resume p f --resume => usage
resume p f -- --workers 2 => usage
== the flag that ignores undefined values
resume p f --ignore-undefs => resume p f lines 4 1000 3 16777216 [] [] ignoring
resume --ignore-undefs p f => resume p f lines 4 1000 3 16777216 [] [] ignoring
resume --ignore-undefs -- p f => resume p f lines 4 1000 3 16777216 [] [] ignoring
resume p f --proto q --ignore-undefs --skip 3 => resume p f lines 4 1000 3 16777216 [] [] skipping 3 ignoring types q
resume p f --ignore-undefs --ignore-undefs => usage
resume p f --ignore-undefs=x => usage
resume p f -- --ignore-undefs => usage
resume p --ignore-undefs => usage
== no flag saves its tables
resume p f --save => usage
resume --save p f => usage
resume p --save f => usage
resume --save -- p f => usage
resume p f --save --ignore-undefs => usage
resume p f --ignore-undefs --save => usage
resume p f --save --save => usage
resume p f --save=x => usage
resume p f --shard 2 --save => usage";
