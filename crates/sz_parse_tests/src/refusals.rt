//! Texts that are no program: each form with a token missing, a token twice, or a token of something else.

pub const A_REFUSAL_IS_AT_THE_FIRST_STATEMENT_THAT_IS_NOT_WHOLE: &str = r#"} => 1:1
; } => 1:3
{ => 1:1
; {;;}; { => 1:9
{;}} => 1:4
{ x = 1; y = } z = 2; => 1:1
x = 1; y = ; z = 3; => 1:8
x: int; y: string = "a"; { x = 1; } } => 1:37
if (a) ; x = ; => 1:10"#;

pub const A_WRONG_DECLARATION_IS_REFUSED: &str = "\
x int; => 1:1
x: ; => 1:1
x:: int; => 1:1
x: int int; => 1:1
x: int 1; => 1:1
x: int = ; => 1:1
x: int = = 1; => 1:1
x: int = 1 => 1:1
x: 5; => 1:1
: int; => 1:1
x x: int; => 1:1
x := ; => 1:1
x := := 1; => 1:1
x := 1 => 1:1
x := 1 2; => 1:1
:= 1; => 1:1
x := int; => 1:1
static : int = 1; => 1:1
static x int = 1; => 1:1
static x: = 1; => 1:1
static x: int 1; => 1:1
static x: int = ; => 1:1
static x: int = 1 => 1:1
static x: int; => 1:1
static static x: int = 1; => 1:1
static x y: int = 1; => 1:1
static x := 1; => 1:1
type = int; => 1:1
type t int; => 1:1
type t = ; => 1:1
type t = int => 1:1
type type t = int; => 1:1
type t = = int; => 1:1
type t = int int; => 1:1
type t = 1; => 1:1
type t := int; => 1:1";

pub const A_WRONG_TABLE_IS_REFUSED: &str = "\
t: table; => 1:1
t: table of int; => 1:1
t: table sum int; => 1:1
t: table sum of; => 1:1
t: table sum of int => 1:1
t: table table sum of int; => 1:1
t: table sum sum of int; => 1:1
t: table sum of of int; => 1:1
t: table map of int; => 1:1
t: table sum() of int; => 1:1
t: table sum(a) of int; => 1:1
t: table sum(1 of int; => 1:1
t: table sum((1)) of int; => 1:1
t: table sum(-1) of int; => 1:1
t: table sum(1)(2) of int; => 1:1
t: table sum[] of int; => 1:1
t: table sum[int of int; => 1:1
t: table sum[k:] of int; => 1:1
t: table sum[k: k: int] of int; => 1:1
t: table sum[int](1) of int; => 1:1
t: table sum of int weight; => 1:1
t: table sum of int weight weight int; => 1:1
t: table sum of int int; => 1:1
t: table sum of 1; => 1:1";

pub const A_WRONG_FUNCTION_IS_REFUSED: &str = "\
f: function: int {} => 1:1
f: function(): {} => 1:1
f: function() int {} => 1:1
f: function(): int => 1:1
f: function(): int ; => 1:1
f: function(): int { => 1:1
f: function(): int {;}} => 1:23
f: function(a): int {} => 1:1
f: function(a: int,): int {} => 1:1
f: function(,): int {} => 1:1
f: function(a: int b: int): int {} => 1:1
f: function(a: int,, b: int): int {} => 1:1
f: function(1: int): int {} => 1:1
f: function((a: int)): int {} => 1:1
f: function function(): int {} => 1:1
f: function(): int { x = ; } => 1:1";

pub const A_WRONG_ASSIGNMENT_OR_CALL_IS_REFUSED: &str = "\
x 1; => 1:1
x = 1 => 1:1
x = ; => 1:1
x = = 1; => 1:1
x[] = 1; => 1:1
x[1 = 1; => 1:1
x[1]] = 1; => 1:1
x[1:2] = 1; => 1:1
x. = 1; => 1:1
x..a = 1; => 1:1
x.1 = 1; => 1:1
(x) = 1; => 1:1
f(x) = 1; => 1:1
f(x).a = 1; => 1:1
x++ => 1:1
x++ ++; => 1:1
x[0]++; => 1:1
x.a--; => 1:1
++x; => 1:1
f(; => 1:1
f(1; => 1:1
f 1); => 1:1
f(1,); => 1:1
f(,1); => 1:1
f(1,,2); => 1:1
f(1 2); => 1:1
f(1) => 1:1
f(1)(2); => 1:1
f()[0]; => 1:1
1; => 1:1
x; => 1:1
x + 1; => 1:1
int(1); => 1:1";

pub const A_WRONG_IF_OR_LOOP_IS_REFUSED: &str = "\
if a) ; => 1:1
if (a ; => 1:1
if () ; => 1:1
if (a) => 1:1
if (a) else ; => 1:1
if (a) ; else else ; => 1:1
else ; => 1:1
if (a) then ; => 1:1
if if (a) ; => 1:1
if ((a) ; => 1:1
if (a) x = ; => 1:1
while a ; => 1:1
while () ; => 1:1
while (a) => 1:1
while (a ; => 1:1
while (a)) ; => 1:1
while while (a) ; => 1:1
while (a) { x = } => 1:1
do ; while (a) => 1:1
do ; (a); => 1:1
do while (a); => 1:1
do ; while a; => 1:1
do ; ; while (a); => 1:1
do do ; while (a); => 1:1
for ;;) ; => 1:1
for (;) ; => 1:1
for (;;;) ; => 1:1
for (;;) => 1:1
for (;; ; => 1:1
for (i;;) ; => 1:1
for (i: int;;) ; => 1:1
for (; i = 1;) ; => 1:1
for (;; i := 1) ; => 1:1
for (;; i++,) ; => 1:1
for (i = 0, j = 0;;) ; => 1:1
for for (;;) ; => 1:1";

pub const A_WRONG_JUMP_IS_REFUSED: &str = "\
break => 1:1
break 1; => 1:1
break break; => 1:1
continue => 1:1
continue x; => 1:1
continue continue; => 1:1
return => 1:1
return x => 1:1
return return; => 1:1
return x y; => 1:1
return =; => 1:1";

pub const A_WRONG_EMIT_IS_REFUSED: &str = "\
emit <- 1; => 1:1
emit t 1; => 1:1
emit t <- ; => 1:1
emit t <- 1 => 1:1
emit t <- <- 1; => 1:1
emit emit t <- 1; => 1:1
emit t[] <- 1; => 1:1
emit t[1 <- 1; => 1:1
emit t[1:2] <- 1; => 1:1
emit t.a <- 1; => 1:1
emit t <- 1 weight; => 1:1
emit t <- 1 weight weight 2; => 1:1
emit t <- 1, 2; => 1:1
emit 1 <- 1; => 1:1
t <- 1; => 1:1";

pub const A_WRONG_WHEN_IS_REFUSED: &str = "\
when (i: some int; i ; => 1:1
when i: some int; i) ; => 1:1
when (i: some int;) ; => 1:1
when (i some int; i) ; => 1:1
when (i: int; i) ; => 1:1
when (i: some; i) ; => 1:1
when (i: some int i) ; => 1:1
when (: some int; i) ; => 1:1
when (i: some some int; i) ; => 1:1
when (i,: some int; i) ; => 1:1
when (i,,j: some int; i) ; => 1:1
when (i: some int;; i) ; => 1:1
when (a) ; => 1:1
when () ; => 1:1
when (i: any int; i) ; => 1:1
when (i: some int; i) => 1:1
when (i: some int; i)) ; => 1:1
when when (i: some int; i) ; => 1:1";

pub const A_WRONG_TYPE_IS_REFUSED: &str = "\
x: array int; => 1:1
x: array of; => 1:1
x: array of of int; => 1:1
x: array array of int; => 1:1
x: map int] of int; => 1:1
x: map [] of int; => 1:1
x: map [int of int; => 1:1
x: map [int] int; => 1:1
x: map [int] of; => 1:1
x: map [k:] of int; => 1:1
x: map [k: int: int] of int; => 1:1
x: map [int, int] of int; => 1:1
x: map map [int] of int; => 1:1
x: {}; => 1:1
x: {a}; => 1:1
x: {a int}; => 1:1
x: {a: int; => 1:1
x: {a: int,}; => 1:1
x: {,a: int}; => 1:1
x: {a: int b: int}; => 1:1
x: {int}; => 1:1
x: {a: int}}; => 1:1
x: proto {}; => 1:1
x: proto a: int @ 1}; => 1:1
x: proto {a: int}; => 1:1
x: proto {a: int @}; => 1:1
x: proto {a: int 1}; => 1:1
x: proto {a: int @ 1,}; => 1:1
x: proto {a: int @ b}; => 1:1
x: proto {a: int @@ 1}; => 1:1
x: proto {a: int @ 1 b c}; => 1:1
x: proto {a: int @ 1 int}; => 1:1
x: proto {a: int @ 1 => 1:1
x: proto proto {a: int @ 1}; => 1:1
x: (int); => 1:1
x: int[]; => 1:1
x: function; => 1:1";

pub const A_WRONG_OPERAND_IS_REFUSED: &str = "\
x = (1; => 1:1
x = 1); => 1:1
x = (); => 1:1
x = (1)); => 1:1
x = a[; => 1:1
x = a[1; => 1:1
x = a[]; => 1:1
x = a[:]; => 1:1
x = a[1:]; => 1:1
x = a[:2]; => 1:1
x = a[1:2:3]; => 1:1
x = a[1,2]; => 1:1
x = a[1]]; => 1:1
x = a.; => 1:1
x = a..b; => 1:1
x = a.1; => 1:1
x = a.int; => 1:1
x = .a; => 1:1
x = def a; => 1:1
x = def(); => 1:1
x = def(a; => 1:1
x = def(a, b); => 1:1
x = def def(a); => 1:1
x = bool(1); => 1:1
x = int 1; => 1:1
x = int(); => 1:1
x = int(1, 2); => 1:1
x = int int(1); => 1:1
x = if; => 1:1
x = weight; => 1:1";

pub const A_WRONG_LIST_OR_MAP_IS_REFUSED: &str = "\
x = {; => 1:1
x = {1; => 1:1
x = {1,}; => 1:1
x = {,1}; => 1:1
x = {1,,2}; => 1:1
x = {1 2}; => 1:1
x = {::}; => 1:1
x = {:1}; => 1:1
x = {1:}; => 1:1
x = {1: 2,}; => 1:1
x = {1: 2, 3}; => 1:1
x = {1, 2: 3}; => 1:1
x = {1: 2 3: 4}; => 1:1
x = {1: 2: 3}; => 1:1";

pub const A_WRONG_OPERATOR_IS_REFUSED: &str = "\
x = 1 +; => 1:1
x = * 1; => 1:1
x = 1 + * 2; => 1:1
x = 1 2; => 1:1
x = a < b < c; => 1:1
x = a == b == c; => 1:1
x = a < b == c; => 1:1
x = a <- b; => 1:1
x = !; => 1:1
x = -; => 1:1
x = a!b; => 1:1
x = a ||; => 1:1
x = && a; => 1:1
x = a & & b; => 1:1
x = a @ b; => 1:1
x = --a; => 1:1
x = a = b; => 1:1
x = a := b; => 1:1";
