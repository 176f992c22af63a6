//! Each form of the grammar, and its tree; and the places of what a tree is made of.

pub const EACH_FORM_OF_EXPRESSION_IS_READ: &str =
    r#"x = 1; x = "a"; x = B"b"; x = 'c'; => (assign x 1) (assign x "a") (assign x B"b") (assign x 'c')
x = true; x = false; x = y; => (assign x true) (assign x false) (assign x y)
x = f(); x = f(1); x = f(1, y, g()); => (assign x (call f)) (assign x (call f 1)) (assign x (call f 1 y (call g)))
x = def(y); x = (y); x = ((y)); => (assign x (def y)) (assign x (paren y)) (assign x (paren (paren y)))
x = int(1); x = string(y); => (assign x (Int 1)) (assign x (String y))
x = bytes(y); x = time("t"); => (assign x (Bytes y)) (assign x (Time "t"))
x = {}; x = {1}; x = {1, y, {}}; => (assign x (list)) (assign x (list 1)) (assign x (list 1 y (list)))
x = {:}; x = {1: 2}; x = {1: 2, y: {:}}; => (assign x (map)) (assign x (map 1 2)) (assign x (map 1 2 y (map)))
x = a[1]; x = a[1:2]; x = a.b; => (assign x (index a 1)) (assign x (slice a 1 2)) (assign x (field b a))
x = a[1][2:3].b; x = f(1)[0]; => (assign x (field b (slice (index a 1) 2 3))) (assign x (index (call f 1) 0))
x = "ab"[0]; x = {1}[0]; x = {1: 2}.a; => (assign x (index "ab" 0)) (assign x (index (list 1) 0)) (assign x (field a (map 1 2)))
x = (a)[i + 1]; x = int(a).b; => (assign x (index (paren a) (Add i 1))) (assign x (field b (Int a)))
x = -1; x = +a; x = !a; x = ~a; => (assign x (Negate 1)) (assign x (Plus a)) (assign x (Not a)) (assign x (Complement a))
x = -+!~a; x = - -a; => (assign x (Negate (Plus (Not (Complement a))))) (assign x (Negate (Negate a)))
x = -a[1]; x = -a.b; => (assign x (Negate (index a 1))) (assign x (Negate (field b a)))
x = -f(1); x = (-a)[1]; => (assign x (Negate (call f 1))) (assign x (index (paren (Negate a)) 1))"#;

pub const OPERATORS_BIND_BY_THEIR_LEVEL_AND_GROUP_TO_THE_LEFT: &str = "\
x = 1 + 1; => (assign x (Add 1 1))
x = a || b; x = a && b; => (assign x (Or a b)) (assign x (And a b))
x = a == b; x = a != b; => (assign x (Equal a b)) (assign x (NotEqual a b))
x = a < b; x = a <= b; => (assign x (Less a b)) (assign x (LessEqual a b))
x = a > b; x = a >= b; => (assign x (Greater a b)) (assign x (GreaterEqual a b))
x = a + b; x = a - b; => (assign x (Add a b)) (assign x (Subtract a b))
x = a | b; x = a ^ b; => (assign x (BitOr a b)) (assign x (BitXor a b))
x = a * b; x = a / b; x = a % b; => (assign x (Multiply a b)) (assign x (Divide a b)) (assign x (Remainder a b))
x = a << b; x = a >> b; x = a & b; => (assign x (ShiftLeft a b)) (assign x (ShiftRight a b)) (assign x (BitAnd a b))
x = a || b && c; x = a && b || c; => (assign x (Or a (And b c))) (assign x (Or (And a b) c))
x = a && b == c; x = a == b && c; => (assign x (And a (Equal b c))) (assign x (And (Equal a b) c))
x = a < b + c; x = a + b < c; => (assign x (Less a (Add b c))) (assign x (Less (Add a b) c))
x = a + b * c; x = a * b + c; => (assign x (Add a (Multiply b c))) (assign x (Add (Multiply a b) c))
x = a | b & c; x = a ^ b << c; => (assign x (BitOr a (BitAnd b c))) (assign x (BitXor a (ShiftLeft b c)))
x = -a * b; x = a * -b; => (assign x (Multiply (Negate a) b)) (assign x (Multiply a (Negate b)))
x = -a - -b; x = !a && b; => (assign x (Subtract (Negate a) (Negate b))) (assign x (And (Not a) b))
x = a - b - c; x = a - b + c - d; => (assign x (Subtract (Subtract a b) c)) (assign x (Subtract (Add (Subtract a b) c) d))
x = a / b * c % d; => (assign x (Remainder (Multiply (Divide a b) c) d))
x = a || b || c; x = a && b && c; => (assign x (Or (Or a b) c)) (assign x (And (And a b) c))
x = a - (b - c); x = (a + b) * c; => (assign x (Subtract a (paren (Subtract b c)))) (assign x (Multiply (paren (Add a b)) c))
x = (a < b) == (c < d); => (assign x (Equal (paren (Less a b)) (paren (Less c d))))
x = a < b && c < d || e == f; => (assign x (Or (And (Less a b) (Less c d)) (Equal e f)))";

pub const EACH_FORM_OF_TYPE_IS_READ: &str = "\
a: bool; b: int; c: string; => (declare a Bool -) (declare b Int -) (declare c String -)
d: bytes; e: time; f: t; => (declare d Bytes -) (declare e Time -) (declare f t -)
a: array of int; a: array of array of t; => (declare a (array Int) -) (declare a (array (array t)) -)
a: map [int] of string; a: map [k: int] of map [t] of u; => (declare a (map - Int String) -) (declare a (map k Int (map - t u)) -)
a: {x: int}; a: {x: int, y: {z: t}}; => (declare a (tuple x Int) -) (declare a (tuple x Int y (tuple z t)) -)
a: proto {x: int @ 1}; => (declare a (proto x Int 1 -) -)
a: proto {x: int @ 1 fixed32, y: array of t @ 0x10}; => (declare a (proto x Int 1 fixed32 y (array t) 16 -) -)";

pub const EACH_FORM_OF_STATEMENT_IS_READ: &str = "\
# a comment =>
 =>
; {} {;} {{} x = 1;} => (empty) (block) (block (empty)) (block (block) (assign x 1))
x: int; x: int = 1; x := 1; => (declare x Int -) (declare x Int 1) (define x 1)
static x: int = 1; type t = int; type t = {a: u}; => (static x Int 1) (type t Int) (type t (tuple a u))
t: table sum of int; => (table t sum - (of - Int) -)
t: table top(10) of string weight int; => (table t top 10 (of - String) - Int)
t: table sum [string][k: int] of n: int; => (table t sum - (of n Int) - String k Int -)
t: table maximum(0x3)[a: t] of b: u weight w: int; => (table t maximum 3 (of b u) a t w Int)
f: function(): int {} => (function f : Int)
f: function(a: int, b: {c: t}): bool { return a; ; } => (function f a Int b (tuple c t) : Bool (return a) (empty))
f: function(a: t): u {}; => (function f a t : u) (empty)
x = 1; x[1] = 2; x.a = 3; x[i].a[j] = 4; => (assign x 1) (assign x 1 2) (assign x .a 3) (assign x i .a j 4)
x++; x--; f(); f(1, x); => (increment x) (decrement x) (do f) (do f 1 x)
if (a) ; if (a) ; else x++; => (if a (empty) -) (if a (empty) (increment x))
while (a) x++; do x++; while (a); => (while a (increment x)) (do (increment x) a)
for (;;) ; for (i = 0; i < 3; i++) x++; => (for - - - (empty)) (for (assign i 0) (Less i 3) (increment i) (increment x))
for (i: int = 0; ; f()) ; => (for (declare i Int 0) - (do f) (empty))
for (i := 0; a; x[0] = 1) break; => (for (define i 0) a (assign x 0 1) (break))
for (f();;) ; for (i--;; i--) continue; => (for (do f) - - (empty)) (for (decrement i) - (decrement i) (continue))
break; continue; return; return x; => (break) (continue) (return -) (return x)
emit t <- 1; emit t[1][a] <- x weight 2; => (emit t <- 1 -) (emit t 1 a <- x 2)
when (i: some int; a[i]) ; => (when (Some i Int) (index a i) (empty))
when (i, j: each t; k: all string; m: some int; i < j) x++; => (when (Each i j t) (All k String) (Some m Int) (Less i j) (increment x))
when (i: some int; f(i, j)) ; => (when (Some i Int) (call f i j) (empty))";

pub const AN_ELSE_BELONGS_TO_THE_IF_WHOSE_PART_IT_FOLLOWS: &str = "\
if (a) if (b) x++; else y++; => (if a (if b (increment x) (increment y)) -)
if (a) {if (b) x++;} else y++; => (if a (block (if b (increment x) -)) (increment y))
if (a) x++; else if (b) y++; else z++; => (if a (increment x) (if b (increment y) (increment z)))
if (a) if (b) x++; else y++; else z++; => (if a (if b (increment x) (increment y)) (increment z))
if (a) while (b) if (c) ; else ; => (if a (while b (if c (empty) (empty))) -)
if (a) do if (b) ; while (c); else ; => (if a (do (if b (empty) -) c) (empty))
if (a) ; else if (b) ; => (if a (empty) (if b (empty) -))
if (a) ; ; else ; => 1:12
if (a) ; else => 1:1
if (a) ; else ; else ; => 1:17";

/// Later `at` stand the column of each statement; of a declaration the columns of its name, its type and its value; of the value
/// its level, and of an operator how loosely it binds and how loose its left operand may be; and the column of a step.
pub const TREES_KNOW_THEIR_PLACES: &str = "\
x: t = {:}; => at 1 1 4 8 0
  x: {a: int} = f(x); => at 3 3 6 17 0
 x: proto {a: int @ 1} = {1}; => at 2 2 5 26 0
x: t = f(x) + 1; => at 1 1 4 8 2 2 2
x: t = a || b; => at 1 1 4 8 5 5 5
x: t = a && b; => at 1 1 4 8 4 4 4
x: t = a < b; => at 1 1 4 8 3 3 2
x: t = a | b; => at 1 1 4 8 2 2 2
x: t = a & b; => at 1 1 4 8 1 1 1
  i++; f: function(): t {} {} => at 3 3 8 28";
