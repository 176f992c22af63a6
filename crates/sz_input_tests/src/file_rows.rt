//! Command lines with saved tables and files of types, and what each asks for.

/// Rows as those of `rows.rt`: the flag that saves tables, the file of types, and files to join.
pub const FILE_ROWS: &str = "\
== the flag that saves tables
run p f --save => run p f lines 4 1000 3 16777216 [] [] saving
run --save p f => run p f lines 4 1000 3 16777216 [] [] saving
run p --save f => run p f lines 4 1000 3 16777216 [] [] saving
run --save -- p f => run p f lines 4 1000 3 16777216 [] [] saving
run --save --frame delimited p f => run p f delimited 4 1000 3 16777216 [] [] saving
run --frame=delimited --save p f => run p f delimited 4 1000 3 16777216 [] [] saving
run p f --budget 5 --save --workers 2 => run p f lines 2 1000 3 5 [] [] saving
run p f --save --ignore-undefs => run p f lines 4 1000 3 16777216 [] [] ignoring saving
run p f --ignore-undefs --save => run p f lines 4 1000 3 16777216 [] [] ignoring saving
run --save --ignore-undefs p f => run p f lines 4 1000 3 16777216 [] [] ignoring saving
run --ignore-undefs p --save f => run p f lines 4 1000 3 16777216 [] [] ignoring saving
run p f --skip 2 --save => run p f lines 4 1000 3 16777216 [] [] skipping 2 saving
run -- p --save => run p --save lines 4 1000 3 16777216 [] []
run --save -- --save f => run --save f lines 4 1000 3 16777216 [] [] saving
run p f -- --save => usage
run p f --save --save => usage
run --save p --save f => usage
run p f --save --ignore-undefs --save => usage
run p f --ignore-undefs --save --ignore-undefs => usage
run p f --save=x => usage
run p f --save= => usage
run p f --save x => usage
run p f --save true => usage
run p f --saves => usage
run p f --sav => usage
run p f --Save => usage
run p f -save => usage
run p f --budget --save => usage
run p f --budget --save 5 => usage
run p f --bogus --save => usage
run --save => usage
run p --save => usage
--save run p f => usage
check p --save => usage
check --save p => usage
check p --save=x => usage
check -- --save => check --save
selftest 1 1 1 --save => usage
selftest --save 1 1 1 => usage
== the file of types
run p f --proto q => run p f lines 4 1000 3 16777216 [] [] types q
run p f --proto=q => run p f lines 4 1000 3 16777216 [] [] types q
run --proto q p f => run p f lines 4 1000 3 16777216 [] [] types q
run p --proto=q f => run p f lines 4 1000 3 16777216 [] [] types q
run --proto q -- p f => run p f lines 4 1000 3 16777216 [] [] types q
run --proto=-q p f => run p f lines 4 1000 3 16777216 [] [] types -q
run --proto=-- p f => run p f lines 4 1000 3 16777216 [] [] types --
run --proto=--save p f => run p f lines 4 1000 3 16777216 [] [] types --save
run --proto==q p f => run p f lines 4 1000 3 16777216 [] [] types =q
run p p --proto p => run p p lines 4 1000 3 16777216 [] [] types p
run p f --proto q --save => run p f lines 4 1000 3 16777216 [] [] types q saving
run p f --save --proto q => run p f lines 4 1000 3 16777216 [] [] types q saving
run p f --ignore-undefs --proto q --frame delimited => run p f delimited 4 1000 3 16777216 [] [] ignoring types q
run p f --proto=- => run p f lines 4 1000 3 16777216 [] [] types -
run - f --proto q => run - f lines 4 1000 3 16777216 [] [] types q
run p - --proto q => run p - lines 4 1000 3 16777216 [] [] types q
run p - --proto=q => run p - lines 4 1000 3 16777216 [] [] types q
run - f --proto=- => usage
run p - --proto=- => usage
run - - --proto=- => usage
run - - --proto q => usage
run --proto=- - f => usage
run --proto=- -- p - => usage
run p f --proto - => usage
run p - --proto - => usage
run p f --proto -q => usage
run p f --proto => usage
run p f --proto= => usage
run p f --proto ~ => usage
run p f --proto -- => usage
run p f --proto --save => usage
run p f --proto --ignore-undefs q => usage
run p f --proto q --proto q => usage
run p f --proto=q --proto r => usage
run --proto q p --proto=q f => usage
run p f --proto q r => usage
run p --proto q => usage
run --proto p f => usage
run ~ f --proto q => usage
run p ~ --proto q => usage
run p f --prot q => usage
run p f --protos q => usage
run p f --Proto q => usage
run p f -proto q => usage
run p f -- --proto q => usage
run -- --proto q => run --proto q lines 4 1000 3 16777216 [] []
check p --proto q => check p types q
check p --proto=q => check p types q
check --proto q p => check p types q
check --proto=q -- p => check p types q
check - --proto q => check - types q
check p --proto=- => check p types -
check p --proto p => check p types p
check - --proto=- => usage
check --proto=- -- - => usage
check p --proto - => usage
check p --proto= => usage
check p --proto ~ => usage
check p --proto => usage
check p --proto q --proto q => usage
check p --proto=q --proto=r => usage
check ~ --proto q => usage
check --proto q => usage
check p r --proto q => usage
check p --proto q --frame lines => usage
check p --proto q --workers=4 => usage
check p --workers 4 --proto q => usage
check p --proto q --save => usage
check p --proto q --ignore-undefs => usage
check p -- --proto => usage
selftest 1 1 1 --proto q => usage
selftest --proto=q 1 1 1 => usage
== merge
merge a => merge a
merge a b => merge a b
merge a a => merge a a
merge a b c d => merge a b c d
merge - => merge -
merge a - => merge a -
merge - b c => merge - b c
merge -- a - => merge a -
merge -- -a --save => merge -a --save
merge -- -- => merge --
merge a -- b => merge a b
merge a b -- => merge a b
merge merge run => merge merge run
merge a --save => merge a saving
merge --save a b => merge a b saving
merge a --save b => merge a b saving
merge --save -- a --save => merge a --save saving
merge - --save => merge - saving
merge => usage
merge -- => usage
merge --save => usage
merge ~ => usage
merge a ~ => usage
merge ~ a => usage
merge a ~ b => usage
merge a -- ~ => usage
merge - - => usage
merge - a - => usage
merge - -- - => usage
merge -- - a - => usage
merge -a => usage
merge a --save --save => usage
merge --save a --save => usage
merge a --save=x => usage
merge a --save= => usage
merge a -- --save => merge a --save
merge a --ignore-undefs => usage
merge a --save --ignore-undefs => usage
merge a --ignore-undefs --save => usage
merge a --workers 2 => usage
merge a --workers=2 => usage
merge --workers 2 a b => usage
merge a --frame lines => usage
merge a --budget 5 => usage
merge a --skip 1 => usage
merge a --shard 1 => usage
merge a --attempts 1 => usage
merge a --kill 0.0.0 => usage
merge a --twice 0 => usage
merge a --proto q => usage
merge a --proto=q => usage
merge a --bogus => usage
merge a --help => usage
merge a -s => usage
--save merge a => usage";
