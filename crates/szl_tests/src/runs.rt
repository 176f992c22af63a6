//! Whole runs of the program, as text that tests and `tools/check/runs` read: the language by example.
//!
//! A line `PROGRAM => STATUS OUTPUT ! LINE` is a run: the text of the program, the exit status, the text that goes to standard
//! output, and the line that goes to standard error. Output, and `!` with its line, are left out where there is none. A line that was cut
//! has `…` in the place of what is missing.
//! `¶` stands for the end of a line, and `→` for a tab. The program is the file `p`, and the input is the file `f`.
//!
//! Lines above a run say what else it is given, up to the next line of the kind or the next title:
//!
//! - `== TITLE` begins anew: with the words `run p f`, an empty input, and no call that fails.
//! - `$ [WORDS]` has the words of the command line, with a blank between two of them. With `=> STATUS OUTPUT ! LINE` after it the line is
//!   a run, of the program above.
//! - `< INPUT` has the input, in which `\x` and two hexadecimal digits stand for a byte.
//! - `% PROTO` has the `.proto` file, which is the file `q`, written in the same way. Without such a line it is empty.
//! - `! p 0` has the first call on the program fail, `! f 0` that on the input, `! q 0` that on the `.proto` file, `! - 0` that on standard
//!   input, which isn't there, `! out 1` the second writing to the output, `! err 2` the third to the error stream, and `! none` no call. The
//!   output takes 5 bytes at once, the error stream 4.
//!
//! The rows of this file and of those beside it stand nowhere else; `tools/check/runs --rows` prints them in one page.

/// The runs.
pub const RUNS: &str = r#"== tables hold the sums of all lines
count: table sum of int;¶total: table sum of int;¶sum_of_squares: table sum of int;¶x: int = input;¶emit count <- 1;¶emit total <- x;¶emit sum_of_squares <- x * x;¶ => 0
< 3¶-1¶
count: table sum of int;¶total: table sum of int;¶sum_of_squares: table sum of int;¶x: int = input;¶emit count <- 1;¶emit total <- x;¶emit sum_of_squares <- x * x;¶ => 0 count[] = 2¶total[] = 2¶sum_of_squares[] = 10¶
< 3¶x¶4¶
count: table sum of int;¶total: table sum of int;¶sum_of_squares: table sum of int;¶x: int = input;¶emit count <- 1;¶emit total <- x;¶emit sum_of_squares <- x * x;¶ => 0 count[] = 3¶total[] = 7¶sum_of_squares[] = 25¶
< 9223372036854775807¶9223372036854775807¶
count: table sum of int; total: table sum of int; x: int = input; emit count <- 1; emit total <- x; => 0 count[] = 2¶total[] = 18446744073709551614¶
< 9223372036854775807
c: table sum of int;¶x: int = input;¶emit c <- x + 1;¶ => 0 c[] = -9223372036854775808¶
< 1¶
c: table sum of int;¶x: int = input;¶if (x > 0) emit c <- 1;¶ => 0 c[] = 1¶
< aéb¶
c: table sum of int; s: string = input; emit c <- len(s); emit c <- s[1] * 1000; => 0 c[] = 233003¶

== a text that can't be read is refused at its cause
< 3¶
x: int = 07; => 2 ! program: bad literal at 1:10
a ? b => 2 ! program: bad character at 1:3
c: table sum of int;¶emit c <- ; => 2 ! program: syntax at 2:1
x: int = input => 2 ! program: syntax at 1:1
x: bool = true;¶y: int = 07; => 2 ! program: bad literal at 2:10
x: bool = true;¶emit ; => 2 ! program: syntax at 2:1
x: int = 1; } => 2 ! program: syntax at 1:13
if (true) ; else => 2 ! program: syntax at 1:1
x: int = bool(1); => 2 ! program: syntax at 1:1
x: int = -9223372036854775808; => 2 ! program: bad literal at 1:11

== run refuses what check refuses
< 3¶
c: table sum of int; emit c <- y; => 2 ! program: unknown name: y at 1:32
c: table sum of int; emit c <- 1 + (2 * y); => 2 ! program: unknown name: y at 1:41
emit c <- 1; => 2 ! program: unknown name: c at 1:6
x: int = x; => 2 ! program: unknown name: x at 1:10
x: int = 1; emit x <- 1; => 2 ! program: wrong kind of name: x at 1:18
c: table sum of int; x: int = c; => 2 ! program: wrong kind of name: c at 1:31
x: int = 1; x: int = 2; => 2 ! program: declared twice: x at 1:13
y: int = 1;¶x: bool = true;¶y: int = 2; => 2 ! program: declared twice: y at 3:1
c: table sum of int; c: int = 1; => 2 ! program: declared twice: c at 1:22
c: int = 1; c: table sum of int; => 2 ! program: declared twice: c at 1:13
x: int = input + 1; => 2 ! program: wrong type at 1:18
x: int = len(1); => 2 ! program: wrong type at 1:14
x: bool = 1; => 2 ! program: wrong type at 1:11
c: table sum of int; emit c[1] <- 1; => 2 ! program: wrong count at 1:27
c: table sum of int; emit c <- 1 weight 1; => 2 ! program: wrong weight at 1:22
c: table sum of int; emit c <- input; => 2 ! program: wrong type at 1:32
input = B"a"; => 2 ! program: not assignable: input at 1:1
break; => 2 ! program: misplaced statement at 1:1
x: float; => 2 ! program: not in this profile: float at 1:4
x := {1}; => 2 ! program: composite without a type at 1:6

== programs that print nothing
< 3¶
 => 0
# nothing¶  ; => 0
; => 0
{} => 0
x: bool = true;¶y: int = 1; => 0
x: int = 1; ; => 0
x: int = (input); => 0
x: int; => 0
x := 1; => 0
x: int = 1; x = 2; => 0
{ x: int = 1; } => 0
input: int = 1; => 0
len: int = 1; => 0
keys: int = 1; => 0
haskey: int = 1; => 0
strfind: table sum of int; => 0
c: table sum of int; => 0

== words that are no command line have a status of their own
$ [run p]
c: table sum of int; x: int = input; emit c <- x; => 1 ! bad command line
$ [run p f g] => 1 ! bad command line
$ [run p f --workers 0] => 1 ! bad command line
$ [run - -] => 1 ! bad command line
$ [run p -f] => 1 ! bad command line
$ [run  f] => 1 ! bad command line
$ [run p ] => 1 ! bad command line
$ [walk p f] => 1 ! bad command line
$ [Run p f] => 1 ! bad command line
$ [] => 1 ! bad command line
$ [check] => 1 ! bad command line
$ [check a b] => 1 ! bad command line
$ [check --x] => 1 ! bad command line
$ [check ] => 1 ! bad command line
$ [run p f --help] => 1 ! bad command line
$ [run p f --version] => 1 ! bad command line
$ [run p f -h] => 1 ! bad command line
$ [--help] => 1 ! bad command line
$ [help] => 1 ! bad command line
$ [merges p f] => 1 ! bad command line

== options stand anywhere after the command
< 3¶-1¶
$ [run p f]
c: table sum of int; x: int = input; emit c <- x; => 0 c[] = 2¶
$ [run p f --budget 100] => 0 c[] = 2¶
$ [run p f --budget=100] => 0 c[] = 2¶
$ [run --budget 100 p f] => 0 c[] = 2¶
$ [run p --budget=100 f] => 0 c[] = 2¶
$ [run --frame lines --budget 100 p f] => 0 c[] = 2¶
$ [run p f --frame=lines] => 0 c[] = 2¶
$ [run -- p f] => 0 c[] = 2¶
$ [run p -- f] => 0 c[] = 2¶
$ [run p f --] => 0 c[] = 2¶
$ [run --budget 100 -- p f] => 0 c[] = 2¶
$ [run p f --budget 0100] => 0 c[] = 2¶
$ [run p f --budget 4294967296] => 0 c[] = 2¶
$ [run p f --budget 9] => 0 c[] = 2¶
$ [run p f --budget 5] => 3 ! record 1: budget passed at 1:38
$ [run p f --budget 1] => 3 ! record 1: budget passed at 1:31
$ [run p f --budget 0] => 1 ! bad command line
$ [run p f --budget 4294967297] => 1 ! bad command line
$ [run p f --budget] => 1 ! bad command line
$ [run p f --budget=] => 1 ! bad command line
$ [run p f --budget -1] => 1 ! bad command line
$ [run p f --budget=-1] => 1 ! bad command line
$ [run p f --budget +1] => 1 ! bad command line
$ [run p f --budget 1x] => 1 ! bad command line
$ [run p f --budget 100000000000000000000] => 1 ! bad command line
$ [run p f --budget 000000000000000000100] => 1 ! bad command line
$ [run p f --budget 9 --budget 9] => 1 ! bad command line
$ [run p f --budget=9 --budget 9] => 1 ! bad command line
$ [run p f --frame x] => 1 ! bad command line
$ [run p f --frame] => 1 ! bad command line
$ [run p f --frame lines --frame lines] => 1 ! bad command line
$ [run p f --Budget 9] => 1 ! bad command line
$ [run p f --bud 9] => 1 ! bad command line
$ [run p f -budget 9] => 1 ! bad command line
$ [--budget 9 run p f] => 1 ! bad command line
$ [run p f -- --budget 9] => 1 ! bad command line

== shards and attempts have their bounds, and the lists their forms
< 3¶-1¶
$ [run p f --shard 1000]
c: table sum of int; x: int = input; emit c <- x; => 0 c[] = 2¶
$ [run p f --shard 1] => 0 c[] = 2¶
$ [run p f --shard=65536] => 0 c[] = 2¶
$ [run p f --shard 0] => 1 ! bad command line
$ [run p f --shard 65537] => 1 ! bad command line
$ [run p f --attempts 1] => 0 c[] = 2¶
$ [run p f --attempts 8] => 0 c[] = 2¶
$ [run p f --attempts 0] => 1 ! bad command line
$ [run p f --attempts 9] => 1 ! bad command line
$ [run p f --workers 4 --shard 1000 --attempts 3 --budget 100 --frame lines] => 0 c[] = 2¶
$ [run p f --kill 0.0.0] => 0 c[] = 2¶
$ [run p f --kill 7.7.7] => 0 c[] = 2¶
$ [run p f --kill x] => 1 ! bad command line
$ [run p f --kill 0.0.0,0.0.1] => 1 ! bad command line
$ [run p f --twice 0] => 0 c[] = 2¶
$ [run p f --twice 7] => 0 c[] = 2¶
$ [run p f --twice 0,0] => 1 ! bad command line
$ [run p f --kill 0.0.0 --kill 0.1.0] => 1 ! bad command line
$ [run p f --shard 1 --attempts 2 --kill 0.0.0,1.0.1 --twice 1,0] => 0 c[] = 2¶
$ [selftest 1 1] => 1 ! bad command line
$ [selftest 9223372036854775808 1 1] => 1 ! bad command line

== a self test runs its own program over its own file, and opens none
$ [selftest 1 3 2]
no program => 0 queries["de"] = 1¶queries["fr"] = 1¶queries["us"] = 1¶slow[] = "de" weight 819¶slow[] = "us" weight 472¶slow[] = "fr" weight 305¶hours[] = 3¶hours[] = 17¶
$ [selftest 1 1 1] => 0 queries["fr"] = 1¶slow[] = "fr" weight 305¶hours[] = 17¶
$ [selftest 2 1 1] => 0
$ [selftest 5 0 64] => 0
$ [selftest 1 1 65] => 1 ! bad command line
$ [selftest 1 1000001 1] => 1 ! bad command line

== the tables are those of all shards
$ [run p f --shard 1 --twice 0 --kill 0.0.0 --attempts 1]
count: table sum of int;¶total: table sum of int;¶sum_of_squares: table sum of int;¶x: int = input;¶emit count <- 1;¶emit total <- x;¶emit sum_of_squares <- x * x;¶ => 0
< a¶b¶a¶
$ [run p f --shard 1]
s: table set(2) of string;¶r: string = input;¶emit s <- r;¶ => 0 s[] = "a"¶s[] = "b"¶
< a¶b¶a¶c¶
$ [run p f --shard 1] => 0 s[] = overflow¶
< c¶a¶a¶
$ [run p f --shard 1]
t: table collection of string;¶s: string = input;¶emit t <- s;¶ => 0 t[] = "a"¶t[] = "a"¶t[] = "c"¶
< 3¶-1¶
$ [run p f --shard 1]
count: table sum of int;¶total: table sum of int;¶sum_of_squares: table sum of int;¶x: int = input;¶emit count <- 1;¶emit total <- x;¶emit sum_of_squares <- x * x;¶ => 0 count[] = 2¶total[] = 2¶sum_of_squares[] = 10¶

== a shard is run again after an attempt that dies, and a doubled shard counts once
< 3¶-1¶
$ [run p f --shard 1 --attempts 2 --kill 0.0.0]
count: table sum of int;¶total: table sum of int;¶sum_of_squares: table sum of int;¶x: int = input;¶emit count <- 1;¶emit total <- x;¶emit sum_of_squares <- x * x;¶ => 0 count[] = 2¶total[] = 2¶sum_of_squares[] = 10¶
< 3¶-1¶
$ [run p f --shard 1 --twice 0,1] => 0 count[] = 2¶total[] = 2¶sum_of_squares[] = 10¶
< 3¶-1¶
$ [run p f --shard 1 --attempts 2 --kill 0.0.1,1.1.0 --twice 0,1] => 0 count[] = 2¶total[] = 2¶sum_of_squares[] = 10¶
< 3¶-1¶
$ [run p f --shard 2 --attempts 2 --kill 0.0.2 --twice 0] => 0 count[] = 2¶total[] = 2¶sum_of_squares[] = 10¶

== a shard of which all attempts die is lost
< 3¶-1¶
$ [run p f --shard 1 --attempts 2 --kill 1.0.0,1.1.1]
count: table sum of int;¶total: table sum of int;¶sum_of_squares: table sum of int;¶x: int = input;¶emit count <- 1;¶emit total <- x;¶emit sum_of_squares <- x * x;¶ => 7 ! shard 1 lost
< 3¶-1¶
$ [run p f --shard 1 --attempts 2 --kill 1.0.0,1.1.1 --twice 1] => 7 ! shard 1 lost
< 3¶-1¶
$ [run p f --attempts 1 --kill 0.0.2] => 7 ! shard 0 lost
< 3¶-1¶
$ [run p f --attempts 1 --kill 0.0.3] => 0 count[] = 2¶total[] = 2¶sum_of_squares[] = 10¶
< 3¶-1¶
$ [run p f --shard 1 --attempts 1 --kill 2.0.0] => 0 count[] = 2¶total[] = 2¶sum_of_squares[] = 10¶

== the first shard that faults or is lost decides
< ¶1¶
$ [run p f --shard 2 --attempts 2 --kill 0.0.2,0.1.2]
c: table sum of int;¶x: int = input;¶if (x > 0) emit c <- 1;¶ => 3 ! record 1: undefined value used at 3:1
< ¶1¶
$ [run p f --shard 2 --attempts 2 --kill 0.0.0,0.1.0] => 7 ! shard 0 lost
< ¶1¶
$ [run p f --shard 2 --attempts 2 --kill 0.0.0] => 3 ! record 1: undefined value used at 3:1
< ¶1¶1¶¶1¶
$ [run p f --shard 1 --attempts 1 --kill 2.0.0] => 3 ! record 1: undefined value used at 3:1
< 1¶1¶1¶¶
$ [run p f --shard 1 --attempts 1 --kill 2.0.0] => 7 ! shard 2 lost
< 1¶¶1¶¶
$ [run p f --shard 1] => 3 ! record 2: undefined value used at 3:1
< 1¶1¶1¶¶
$ [run p f --shard 3] => 3 ! record 4: undefined value used at 3:1

== a lost shard comes before the ending, and a fault in a static before all shards
< \x011\x05ab
$ [run p f --frame delimited --attempts 1 --kill 0.0.1]
count: table sum of int;¶total: table sum of int;¶sum_of_squares: table sum of int;¶x: int = input;¶emit count <- 1;¶emit total <- x;¶emit sum_of_squares <- x * x;¶ => 7 ! shard 0 lost
< \x011\x05ab
$ [run p f --frame delimited --attempts 1 --kill 0.0.2] => 4 ! input damaged at byte 2
< 1¶
$ [run p f --attempts 1 --kill 0.0.0]
f: function(n: int): int { return f(n + 1); }¶static s: int = f(0); => 3 ! record 0: calls too deep at 1:35

== a check takes no options
$ [check p]
c: table sum of int; x: int = input; emit c <- x; => 0
$ [check -- p] => 0
$ [check p --] => 0
$ [check p --budget 9] => 1 ! bad command line
$ [check p --frame lines] => 1 ! bad command line
$ [check p --workers 4] => 1 ! bad command line
$ [check p f] => 1 ! bad command line

== a check of a fine program answers nothing
$ [check p]
count: table sum of int;¶total: table sum of int;¶sum_of_squares: table sum of int;¶x: int = input;¶emit count <- 1;¶emit total <- x;¶emit sum_of_squares <- x * x;¶ => 0

== a check reads only the program
$ [check p]
! f 0
count: table sum of int;¶total: table sum of int;¶sum_of_squares: table sum of int;¶x: int = input;¶emit count <- 1;¶emit total <- x;¶emit sum_of_squares <- x * x;¶ => 0
! p 0
count: table sum of int;¶total: table sum of int;¶sum_of_squares: table sum of int;¶x: int = input;¶emit count <- 1;¶emit total <- x;¶emit sum_of_squares <- x * x;¶ => 5 ! read failed
$ [check missing]
! none
count: table sum of int;¶total: table sum of int;¶sum_of_squares: table sum of int;¶x: int = input;¶emit count <- 1;¶emit total <- x;¶emit sum_of_squares <- x * x;¶ => 5 ! read failed

== a failing device is named
< 3¶-1¶
! out 1
count: table sum of int;¶total: table sum of int;¶sum_of_squares: table sum of int;¶x: int = input;¶emit count <- 1;¶emit total <- x;¶emit sum_of_squares <- x * x;¶ => 6 count ! write failed
! p 0
count: table sum of int;¶total: table sum of int;¶sum_of_squares: table sum of int;¶x: int = input;¶emit count <- 1;¶emit total <- x;¶emit sum_of_squares <- x * x;¶ => 5 ! read failed
! p 2
count: table sum of int;¶total: table sum of int;¶sum_of_squares: table sum of int;¶x: int = input;¶emit count <- 1;¶emit total <- x;¶emit sum_of_squares <- x * x;¶ => 5 ! read failed
! f 0
count: table sum of int;¶total: table sum of int;¶sum_of_squares: table sum of int;¶x: int = input;¶emit count <- 1;¶emit total <- x;¶emit sum_of_squares <- x * x;¶ => 5 ! read failed
! none
$ [run p missing] => 5 ! read failed

== what the output took before a writing failed stays there
< 3¶-1¶
! out 0
count: table sum of int;¶total: table sum of int;¶sum_of_squares: table sum of int;¶x: int = input;¶emit count <- 1;¶emit total <- x;¶emit sum_of_squares <- x * x;¶ => 6 ! write failed
! out 1
count: table sum of int;¶total: table sum of int;¶sum_of_squares: table sum of int;¶x: int = input;¶emit count <- 1;¶emit total <- x;¶emit sum_of_squares <- x * x;¶ => 6 count ! write failed
! out 2
count: table sum of int;¶total: table sum of int;¶sum_of_squares: table sum of int;¶x: int = input;¶emit count <- 1;¶emit total <- x;¶emit sum_of_squares <- x * x;¶ => 6 count[] =  ! write failed
! out 3
count: table sum of int;¶total: table sum of int;¶sum_of_squares: table sum of int;¶x: int = input;¶emit count <- 1;¶emit total <- x;¶emit sum_of_squares <- x * x;¶ => 6 count[] = 2¶tot ! write failed
! out 4
count: table sum of int;¶total: table sum of int;¶sum_of_squares: table sum of int;¶x: int = input;¶emit count <- 1;¶emit total <- x;¶emit sum_of_squares <- x * x;¶ => 6 count[] = 2¶total[]  ! write failed
! out 5
count: table sum of int;¶total: table sum of int;¶sum_of_squares: table sum of int;¶x: int = input;¶emit count <- 1;¶emit total <- x;¶emit sum_of_squares <- x * x;¶ => 6 count[] = 2¶total[] = 2¶s ! write failed
! out 6
count: table sum of int;¶total: table sum of int;¶sum_of_squares: table sum of int;¶x: int = input;¶emit count <- 1;¶emit total <- x;¶emit sum_of_squares <- x * x;¶ => 6 count[] = 2¶total[] = 2¶sum_of ! write failed
! out 7
count: table sum of int;¶total: table sum of int;¶sum_of_squares: table sum of int;¶x: int = input;¶emit count <- 1;¶emit total <- x;¶emit sum_of_squares <- x * x;¶ => 6 count[] = 2¶total[] = 2¶sum_of_squa ! write failed
! out 8
count: table sum of int;¶total: table sum of int;¶sum_of_squares: table sum of int;¶x: int = input;¶emit count <- 1;¶emit total <- x;¶emit sum_of_squares <- x * x;¶ => 6 count[] = 2¶total[] = 2¶sum_of_squares[] ! write failed
! out 9
count: table sum of int;¶total: table sum of int;¶sum_of_squares: table sum of int;¶x: int = input;¶emit count <- 1;¶emit total <- x;¶emit sum_of_squares <- x * x;¶ => 6 count[] = 2¶total[] = 2¶sum_of_squares[] = 10 ! write failed
! out 10
count: table sum of int;¶total: table sum of int;¶sum_of_squares: table sum of int;¶x: int = input;¶emit count <- 1;¶emit total <- x;¶emit sum_of_squares <- x * x;¶ => 0 count[] = 2¶total[] = 2¶sum_of_squares[] = 10¶

== a line that can't be written whole changes no status
< 1¶¶
! err 0
c: table sum of int;¶x: int = input;¶if (x > 0) emit c <- 1;¶ => 3
! err 1
c: table sum of int;¶x: int = input;¶if (x > 0) emit c <- 1;¶ => 3 ! reco…
! err 2
c: table sum of int;¶x: int = input;¶if (x > 0) emit c <- 1;¶ => 3 ! record 2…
! err 3
c: table sum of int;¶x: int = input;¶if (x > 0) emit c <- 1;¶ => 3 ! record 2: un…
! err 11
c: table sum of int;¶x: int = input;¶if (x > 0) emit c <- 1;¶ => 3 ! record 2: undefined value used at 3:1
! err 0
x: int = y; => 2
$ [run p] => 1

== the input isn't opened where a static faults
! f 0
f: function(n: int): int { return f(n + 1); }¶static s: int = f(0); => 3 ! record 0: calls too deep at 1:35
x: int = y; => 2 ! program: unknown name: y at 1:10
static s: int = 1; => 5 ! read failed

== records are lines
c: table sum of int; emit c <- len(input) * 10 + 1; => 0
< ¶
c: table sum of int; emit c <- len(input) * 10 + 1; => 0 c[] = 1¶
< ab¶c
c: table sum of int; emit c <- len(input) * 10 + 1; => 0 c[] = 32¶
< ab¶¶c¶
c: table sum of int; emit c <- len(input) * 10 + 1; => 0 c[] = 33¶
< 7\x0d¶
c: table sum of int; x: int = input; emit c <- len(input) + int(def(x)) * 10; => 0 c[] = 2¶
< \xff¶a¶
c: table sum of int; s: string = input; emit c <- input[0] + int(def(s)) * 1000; => 0 c[] = 1352¶
< \x00\x09¶
c: table sum of int; emit c <- input[0] + input[1] * 10; => 0 c[] = 90¶

== records may be delimited by their lengths
$ [run p f --frame delimited]
count: table sum of int;¶total: table sum of int;¶sum_of_squares: table sum of int;¶x: int = input;¶emit count <- 1;¶emit total <- x;¶emit sum_of_squares <- x * x;¶ => 0
< \x013\x02-1
count: table sum of int;¶total: table sum of int;¶sum_of_squares: table sum of int;¶x: int = input;¶emit count <- 1;¶emit total <- x;¶emit sum_of_squares <- x * x;¶ => 0 count[] = 2¶total[] = 2¶sum_of_squares[] = 10¶
< \x80\x00
count: table sum of int;¶total: table sum of int;¶sum_of_squares: table sum of int;¶x: int = input;¶emit count <- 1;¶emit total <- x;¶emit sum_of_squares <- x * x;¶ => 0 count[] = 1¶
< \x03a¶b\x00\x81\x00c
c: table sum of int; emit c <- len(input) * 10 + 1; => 0 c[] = 43¶

== a damaged input is named by its byte, unless a record faults before
$ [run p f --frame delimited]
< \x011\x05ab
count: table sum of int;¶total: table sum of int;¶sum_of_squares: table sum of int;¶x: int = input;¶emit count <- 1;¶emit total <- x;¶emit sum_of_squares <- x * x;¶ => 4 ! input damaged at byte 2
< \x01x\x05ab
c: table sum of int;¶x: int = input;¶if (x > 0) emit c <- 1;¶ => 3 ! record 1: undefined value used at 3:1
< \x80
c: table sum of int; emit c <- 1; => 4 ! input damaged at byte 0
< \xff\xff\xff\xff\xff\xff\xff\xff\xff\xff
c: table sum of int; emit c <- 1; => 4 ! input damaged at byte 0
< \x05
c: table sum of int; emit c <- 1; => 4 ! input damaged at byte 0
< \x011\x012\x80
c: table sum of int; emit c <- 1; => 4 ! input damaged at byte 4
c: table sum of int; emit d <- 1; => 2 ! program: unknown name: d at 1:27

== an input past a limit is named by its byte, unless a record faults before
$ [run p f --frame delimited]
< \xff\xff\xff\xff\xff\xff\xff\xff\xff\x01
c: table sum of int; emit c <- 1; => 9 ! input limit at byte 0
< \x81\x80\x80\x02
c: table sum of int; emit c <- 1; => 9 ! input limit at byte 0
< \x80\x80\x80\x02
c: table sum of int; emit c <- 1; => 4 ! input damaged at byte 0
< \x011\x81\x80\x80\x02
c: table sum of int; emit c <- 1; => 9 ! input limit at byte 2
< \x01x\x81\x80\x80\x02
c: table sum of int;¶x: int = input;¶if (x > 0) emit c <- 1;¶ => 3 ! record 1: undefined value used at 3:1
"#;
