//! Programs, and what is said of each. In each line a program stands before the first `=>`, where `$` is the end of a line; then the line of the
//! refusal without `program: `, and its number; and then words that the lines below have.

/// Texts without tokens.
pub const TEXTS: &str =
    r#"x: int = 3?; => bad character at 1:11 => 1 => No token begins with `?`: there is no `a ? b : c`.
é: int = 3; => bad character at 1:1 => 1 => outside of strings and comments a program has ASCII alone
x: string = “a”; => bad character at 1:13 => 1 => in its place write `"`
x: int = 007; => bad literal at 1:10 => 2 => no 0 in front
x: int = 0xg; => bad literal at 1:10 => 2 => base 16 has one or more digits after `0x`
x: int = 0X1F; => bad literal at 1:10 => 2 => after `0x` (a small `x`), is below 2^64
x: int = 0x10000000000000000; => bad literal at 1:10 => 2 => is below 2^64
x: int = 9223372036854775808; => bad literal at 1:10 => 2 => at most 9223372036854775807
x: int = 12ab; => bad literal at 1:10 => 2 => `a` follows them
x: string = "ab; => bad literal at 1:13 => 2 => ends with `"` in the line
x: string = "a\q"; => bad literal at 1:13 => 2 => No escape begins with `\q`
x: string = "a\x80"; => bad literal at 1:13 => 2 => No escape begins with `\x`
x: int = 'ab'; => bad literal at 1:10 => 2 => a string stands between double quotes"#;

/// Statements that aren't ones.
pub const SYNTAX: &str =
    r#"x: int = 1;$y = x +; => syntax at 2:1 => 5 => Expected an expression, found `;` at 2:8.
x: int = 1;$y: int = x y; => syntax at 2:1 => 5 => Expected an operator, `(`, `[`, `.` or `;`, found `y` at 2:12.
x: int = 1 => syntax at 1:1 => 5 => found the end of the program
if (true) {$x: int = 1; => syntax at 1:1 => 5 => `{` at 1:11 isn't closed.
x: int = (1 + 2; => syntax at 1:1 => 5 => `(` at 1:10 isn't closed.
x: int = 1$y: int = 2; => syntax at 1:1 => 5 => is a `;` missing after `1`?
f: function(a: int b: int): int { return a; } => syntax at 1:1 => 5 => is a `,` missing after `int`?
type: int = 1; => syntax at 1:1 => 5 => found `:` at 1:5.
type: int = 1; => syntax at 1:1 => 5 => `type` is a reserved word
time: int = 1; => syntax at 1:1 => 5 => `time` is a reserved word
x: int = all; => syntax at 1:1 => 5 => `all` is a reserved word
x: int = 1; } => syntax at 1:13 => 5 => nothing is open that it could close
x: int = 1; // one => syntax at 1:13 => 5 => a comment begins with `#`
else x = 1; => syntax at 1:1 => 5 => right after the statement of its `if`
table c: sum of int; => syntax at 1:1 => 5 => a table is declared as in
int x = 1; => syntax at 1:1 => 5 => a variable is declared as in
1; => syntax at 1:1 => 5 => a value alone is no statement
x int = 1; => syntax at 1:1 => 5 => `:` stands between a name and its type
x += 1; => syntax at 1:1 => 5 => write `x = x + 1;`
x == 1; => syntax at 1:1 => 5 => `==` compares
c <- 1; => syntax at 1:1 => 5 => an emit begins with `emit`
emit c = 1; => syntax at 1:1 => 5 => `<-` stands before the value
emit c <- 1, 2; => syntax at 1:1 => 5 => several values are one in braces
if x == 1 { ; } => syntax at 1:1 => 5 => parentheses stand round
static x = 1; => syntax at 1:1 => 5 => declared with its type
type T int; => syntax at 1:1 => 5 => a type is declared as in
for (int i = 0; i < 3; i++) ; => syntax at 1:1 => 5 => the variable of a `for` is declared as in
for (i: int = 0, i < 3, i++) ; => syntax at 1:1 => 5 => `;` stands between the parts of a `for`
when (some i: int; true) ; => syntax at 1:1 => 5 => declared as in `i: some int;`
when (i: int; true) ; => syntax at 1:1 => 5 => Expected `some`, `each` or `all`, found `int`
when (i: some int; a[i] == 1; true) ; => syntax at 1:1 => 5 => found `;` at 1:29.
x: array[int]; => syntax at 1:1 => 5 => as in `array of int`
x: int[]; => syntax at 1:1 => 5 => as in `array of int`
m: map of string; => syntax at 1:1 => 5 => as in `map[string] of int`
c: sum of int; => syntax at 1:1 => 5 => a table is declared as in
c: table; => syntax at 1:1 => 5 => Expected a name, found `;`
c: table set[int] of; => syntax at 1:1 => 5 => Expected a type, found `;`
t: {int, string}; => syntax at 1:1 => 5 => as in `{a: int, b: string}`
t: {a: int; b: int}; => syntax at 1:1 => 5 => `,` stands between the parts
type M = proto { int32 a = 1 }; => syntax at 1:1 => 5 => the name stands first
type M = proto { a: int = 1 }; => syntax at 1:1 => 5 => as in `a: int @ 1`
x: = 1; => syntax at 1:1 => 5 => write the type
x: static int = 1; => syntax at 1:1 => 5 => `static` stands first
f: function(n: int) { return n; } => syntax at 1:1 => 5 => a function is declared as in
f: function(n: int): int return n; => syntax at 1:1 => 5 => the body of a function stands in braces
x: array of int = [1, 2]; => syntax at 1:1 => 5 => an array is written in braces
x: array of int = {1, 2,}; => syntax at 1:1 => 5 => no comma stands at the end
x: int = 1.5; => syntax at 1:1 => 5 => numbers are whole
x: int = if (true) 1 else 2; => syntax at 1:1 => 5 => an `if` is a statement
x: bool = 1 < 2 < 3; => syntax at 1:1 => 5 => comparisons don't stand in a row
if (x<-1) ; => syntax at 1:1 => 5 => write `x < -1`
if (x = 1) ; => syntax at 1:1 => 5 => `==` compares two values
x: int = y++ + 1; => syntax at 1:1 => 5 => no part of an expression
m: map[string] of int = {"a": 1, "b"}; => syntax at 1:1 => 5 => each key of a map has a value
x: bool = true and false; => syntax at 1:1 => 5 => `and` is written `&&`
x: bytes = b"abc"; => syntax at 1:1 => 5 => as in `B"abc"`"#;

/// Names.
pub const NAMES: &str = r#"x: int = y; => unknown name: y at 1:10 => 6 => 1 | x: int = y;
x: int = y; => unknown name: y at 1:10 => 6 => a variable is declared before it is used
count: int = 1; x: int = cuont; => unknown name: cuont at 1:26 => 6 => Hint: is `count` meant?
x: Int; => unknown name: Int at 1:4 => 6 => Hint: is `int` meant?
x: str; => unknown name: str at 1:4 => 6 => Hint: here it is `string`.
x: int = length("a"); => unknown name: length at 1:10 => 6 => Hint: here it is `len`.
c: table max(1) of int weight int; => unknown name: max at 1:10 => 6 => Hint: here it is `maximum`.
c: table mean of int; => unknown name: mean at 1:10 => 6 => The kinds of tables are `sum`
emit c <- 1; => unknown name: c at 1:6 => 6 => a table is declared before
x: int = f(1); => unknown name: f at 1:10 => 6 => The functions that each program has are `len`
x: int = y;$y: int = 1; => unknown name: y at 1:10 => 6 => `y` is declared at 2:1 as a variable, below this place
if (true) { y: int = 2; }$x: int = y; => unknown name: y at 2:10 => 6 => in a block that has ended
n: int = 1;$f: function(m: int): int { return n; } => unknown name: n at 2:35 => 6 => declared at 1:1 as a variable, and a function sees only its parameters
n: int = 1;$static s: int = n; => unknown name: n at 2:17 => 6 => a static sees no variables
f: function(m: int): int { return len(input); } => unknown name: input at 1:39 => 6 => as in `f(input)`
a: array of int;$when (i: some int; j: all int; a[i] < a[j]) a[j] = 1; => unknown name: j at 2:47 => 6 => its variables by `all`
x: int = 1;$x: int = 2; => declared twice: x at 2:1 => 7 => `x` is declared at 1:1 as a variable already
f: function(a: int, a: int): int { return 1; } => declared twice: a at 1:21 => 7 => declared at 1:13 as a parameter
c: table sum of int;$x: int = c; => wrong kind of name: c at 2:10 => 8 => Expected a value, and `c` is declared at 1:1 as a table.
c: table sum of int;$c = 1; => wrong kind of name: c at 2:1 => 8 => as in `emit c <- 1;`
x: int = 1; emit x <- 1; => wrong kind of name: x at 1:18 => 8 => Expected a table, and `x` is declared at 1:1 as a variable.
x: int = 1; y: x; => wrong kind of name: x at 1:16 => 8 => Expected a type, and `x` is declared at 1:1 as a variable.
x: float; => not in this profile: float at 1:4 => 16 => thousandths
c: table top(3) of string weight int; => not in this profile: top at 1:10 => 16 => `maximum` takes the largest
p: {x: int} = {1};$n: int = p.y; => no such field: y at 2:12 => 11 => Expected `x`, the fields that are there.
p: {x: int} = {1};$n: int = p.y; => no such field: y at 2:12 => 11 => `p` is of type `{x: int}`.
p: {a: {x: int}};$p.a.y = 1; => no such field: y at 2:5 => 11 => `p.a` is of type `{x: int}`.
input = B"a"; => not assignable: input at 1:1 => 14 => the record
s: string = "ab";$s[0] = 'x'; => not assignable: s at 2:1 => 14 => `s` is of type `string`.
static s: int = 1;$s = 2; => not assignable: s at 2:1 => 14 => as a static, which keeps its value"#;

/// Types and counts.
pub const TYPES: &str =
    r#"x: int = 1;$x = "4"; => wrong type at 2:5 => 9 => Expected a value of type `int`, found `"4"` of type `string`.
x: int = 1;$x = "4"; => wrong type at 2:5 => 9 => Hint: `int("4")` has that type.
x: int = {1}; => wrong type at 1:10 => 9 => Braces stand for an array, a map or a tuple
a: array of int = {:}; => wrong type at 1:19 => 9 => `{:}` is the empty map
if (1) ; => wrong type at 1:5 => 9 => Expected a value of type `bool`, found `1` of type `int`.
if (1) ; => wrong type at 1:5 => 9 => as in `x != 0`
a: array of int;$b: int = a["x"]; => wrong type at 2:12 => 9 => Expected a value of type `int`
a: array of int;$a = a + 3; => wrong type at 2:9 => 9 => Hint: `{3}` has that type.
type P = {x: int}; p: P;$q: int = p; => wrong type at 2:10 => 9 => found `p` of type `{x: int}`.
static s: int = 1 + "a"; => wrong type at 1:21 => 9 => Expected a value of type `int`
s: string = "a" & "b"; => wrong type at 1:13 => 9 => Expected a value of type `int`, found `"a"` of type `string`.
s: string = "ab";$x: bool = s[0] == "a"; => wrong type at 2:19 => 9 => between single quotes
s: string = "ab";$s = s[0]; => wrong type at 2:5 => 9 => the part of one character
i: string = "a";$i++; => wrong type at 2:1 => 9 => Expected a variable of type `int`, found `i` of type `string`.
x: int = 1;$y: int = x[0]; => wrong type at 2:10 => 9 => before `[`, found `x` of type `int`.
x: int = 1;$x.y = 2; => wrong type at 2:1 => 9 => before `.`, found `x` of type `int`.
x: int = len(5); => wrong type at 1:14 => 9 => Expected a string, bytes, an array or a map, found `5` of type `int`.
f: function(m: map[string] of int): int { return m; } => wrong type at 1:50 => 9 => found `m` of type `map[string] of int`.
x := {1, 2}; => composite without a type at 1:6 => 10 => `:=` gives no type
n: int = len({1}); => composite without a type at 1:14 => 10 => this place has none
t: {a: int, b: int} = {1}; => wrong count at 1:23 => 12 => Found 1 part.
t: {a: int, b: int} = {1}; => wrong count at 1:23 => 12 => Expected a value of type `{a: int, b: int}`
f: function(a: int, b: int): int { return a; }$x: int = f(1); => wrong count at 2:10 => 12 => as a function with 2 parameters.
x: int = len("a", "b"); => wrong count at 1:10 => 12 => `len` takes 1 argument.
c: table sum[int][int] of int;$emit c[1] <- 1; => wrong count at 2:6 => 12 => `c` is declared at 1:1 as a table with 2 indexes.
c: table sum of int;$emit c <- 1 weight 2; => wrong weight at 2:1 => 13 => as a table without a weight
c: table maximum(1) of int weight int;$emit c <- 1; => wrong weight at 2:1 => 13 => as a table with a weight"#;

/// Statements, tables, messages and searches.
pub const STATEMENTS: &str = r#"break; => misplaced statement at 1:1 => 15 => stand inside a loop
return 1; => misplaced statement at 1:1 => 15 => Outside of functions `return` has no value
f: function(): int { return; } => misplaced statement at 1:22 => 15 => Inside of a function `return` has a value
if (true) { static s: int = 1; } => misplaced statement at 1:13 => 15 => at the top level, outside of all braces
c: table set of string; => bad table at 1:10 => 17 => A table of kind `set` has no limit here: write a number from 1 to 1000000
c: table maximum(10001) of int weight int; => bad table at 1:10 => 17 => a number from 1 to 10000
c: table sum(3) of int; => bad table at 1:10 => 17 => has no limit: leave out
c: table maximum(3) of int; => bad table at 1:10 => 17 => has a weight: `weight int`
c: table maximum(3) of int weight string; => bad table at 1:10 => 17 => this one's has another type
c: table collection of int weight int; => bad table at 1:10 => 17 => has no weight: leave out
c: table sum of string; => bad table at 1:10 => 17 => is of `int`, or of a tuple
type M = proto { a: int @ 1, b: int @ 1 }; => bad proto field: b at 1:30 => 18 => has the number 1.
type M = proto { a: int @ 1, a: int @ 2 }; => bad proto field: a at 1:30 => 18 => has this name
type M = proto { a: int @ 0 }; => bad proto field: a at 1:18 => 18 => from 1 to 536870911
type M = proto { a: int @ 1 varint }; => bad proto field: a at 1:18 => 18 => none of the encodings
type M = proto { a: string @ 1 zigzag }; => bad proto field: a at 1:18 => 18 => stands at fields of type `int`
type M = proto { a: map[int] of int @ 1 }; => bad proto field: a at 1:18 => 18 => no field of this type
n: int = 3;$when (i: some int; i < n) ; => unbounded variable: i at 2:7 => 19 => that is the variable alone
a: array of int = {1};$when (i: all int; j: some int; a[i] < a[j]) ; => all must come last at 2:19 => 20 => `j` is by `some` or `each`
c: table sum of int;$f: function(n: int): int { emit c <- n; return n; }$static s: int = f(1); => emit not allowed here at 3:17 => 22 => at 2:1 as a function, which emits"#;
