//! Runs by example: the ticks that expressions take. The lines are as in `runs.rt`.

/// The runs.
pub const RUNS: &str = r#"== ticks: a literal, a variable and a declaration take one each
< ¶
$ [run p f --budget 2]
x := 1; => 0
$ [run p f --budget 1] => 3 ! record 1: budget passed at 1:1
$ [run p f --budget 4]
x: int = 1; y := x; => 0
$ [run p f --budget 3] => 3 ! record 1: budget passed at 1:13
$ [run p f --budget 2] => 3 ! record 1: budget passed at 1:18
$ [run p f --budget 2]
x := true; => 0
$ [run p f --budget 1] => 3 ! record 1: budget passed at 1:1
$ [run p f --budget 2]
x := "abc"; => 0
$ [run p f --budget 1] => 3 ! record 1: budget passed at 1:1
$ [run p f --budget 2]
x := B"abc"; => 0
$ [run p f --budget 1] => 3 ! record 1: budget passed at 1:1
$ [run p f --budget 2]
x := input; => 0
$ [run p f --budget 1] => 3 ! record 1: budget passed at 1:1
$ [run p f --budget 1]
x: int; y: int; => 0
$ [run p f --budget 2]
u: int; x := u; => 0
$ [run p f --budget 1] => 3 ! record 1: budget passed at 1:9

== ticks: an operator takes one after its operands
< ¶
$ [run p f --budget 4]
c: table sum of int; emit c <- -7; => 0 c[] = -7¶
$ [run p f --budget 3] => 3 ! record 1: budget passed at 1:22
$ [run p f --budget 1] => 3 ! record 1: budget passed at 1:32
$ [run p f --budget 5]
c: table sum of int; emit c <- 1 + 2; => 0 c[] = 3¶
$ [run p f --budget 4] => 3 ! record 1: budget passed at 1:22
$ [run p f --budget 2] => 3 ! record 1: budget passed at 1:32
$ [run p f --budget 7]
c: table sum of int; emit c <- (1 + 2) * 3; => 0 c[] = 9¶
$ [run p f --budget 6] => 3 ! record 1: budget passed at 1:22
$ [run p f --budget 4] => 3 ! record 1: budget passed at 1:32
$ [run p f --budget 4]
c: table sum of int; emit c <- 1 / 0; => 0
$ [run p f --budget 3] => 3 ! record 1: budget passed at 1:22
$ [run p f --budget 3]
x := !true; => 0
$ [run p f --budget 2] => 3 ! record 1: budget passed at 1:1
$ [run p f --budget 4]
x := 1 < 2; => 0
$ [run p f --budget 3] => 3 ! record 1: budget passed at 1:1
$ [run p f --budget 4]
x := "ab" == "ab"; => 0
$ [run p f --budget 3] => 3 ! record 1: budget passed at 1:1
$ [run p f --budget 5]
x := time(5) - 3; => 0
$ [run p f --budget 4] => 3 ! record 1: budget passed at 1:1

== ticks: && and || take one after what they look at
< ¶
$ [run p f --budget 4]
x := true && false; => 0
$ [run p f --budget 3] => 3 ! record 1: budget passed at 1:1
$ [run p f --budget 2] => 3 ! record 1: budget passed at 1:6
$ [run p f --budget 1] => 3 ! record 1: budget passed at 1:14
$ [run p f --budget 3]
x := false && true; => 0
$ [run p f --budget 2] => 3 ! record 1: budget passed at 1:1
$ [run p f --budget 1] => 3 ! record 1: budget passed at 1:6
$ [run p f --budget 3]
x := true || false; => 0
$ [run p f --budget 2] => 3 ! record 1: budget passed at 1:1
$ [run p f --budget 1] => 3 ! record 1: budget passed at 1:6
$ [run p f --budget 4]
x := false || true; => 0
$ [run p f --budget 3] => 3 ! record 1: budget passed at 1:1
$ [run p f --budget 3]
u: bool; x := u && true; => 0
$ [run p f --budget 2] => 3 ! record 1: budget passed at 1:10
$ [run p f --budget 3]
u: bool; x := u || true; => 0
$ [run p f --budget 2] => 3 ! record 1: budget passed at 1:10
$ [run p f --budget 4]
u: bool; x := true && u; => 0
$ [run p f --budget 3] => 3 ! record 1: budget passed at 1:10

== ticks: def, elements and fields take one
< ¶
$ [run p f --budget 3]
x := def(1); => 0
$ [run p f --budget 2] => 3 ! record 1: budget passed at 1:1
$ [run p f --budget 1] => 3 ! record 1: budget passed at 1:6
$ [run p f --budget 3]
u: int; x := def(u); => 0
$ [run p f --budget 2] => 3 ! record 1: budget passed at 1:9
$ [run p f --budget 1] => 3 ! record 1: budget passed at 1:14
$ [run p f --budget 4]
x := "abc"[1]; => 0
$ [run p f --budget 3] => 3 ! record 1: budget passed at 1:1
$ [run p f --budget 2] => 3 ! record 1: budget passed at 1:6
$ [run p f --budget 4]
x := "abc"[5]; => 0
$ [run p f --budget 3] => 3 ! record 1: budget passed at 1:1
$ [run p f --budget 11]
a: array of int = {4, 5};¶x := a[1]; => 0
$ [run p f --budget 10] => 3 ! record 1: budget passed at 2:1
$ [run p f --budget 11]
m: map[int] of int = {4: 5};¶x := m[4]; => 0
$ [run p f --budget 10] => 3 ! record 1: budget passed at 2:1
$ [run p f --budget 10]
t: {a: int, b: int} = {4, 5};¶x := t.b; => 0
$ [run p f --budget 9] => 3 ! record 1: budget passed at 2:1
$ [run p f --budget 3]
u: {a: int};¶x := u.a; => 0
$ [run p f --budget 2] => 3 ! record 1: budget passed at 2:1

== ticks: a sum that joins takes the weight of its result
< ¶
$ [run p f --budget 8]
s: string = "ab" + "c"; => 0
$ [run p f --budget 7] => 3 ! record 1: budget passed at 1:1
$ [run p f --budget 6] => 3 ! record 1: budget passed at 1:13
$ [run p f --budget 3] => 3 ! record 1: budget passed at 1:13
$ [run p f --budget 7]
s: string = "é" + ""; => 0
$ [run p f --budget 6] => 3 ! record 1: budget passed at 1:1
$ [run p f --budget 5] => 3 ! record 1: budget passed at 1:13
$ [run p f --budget 5]
s: string = "" + ""; => 0
$ [run p f --budget 4] => 3 ! record 1: budget passed at 1:1
$ [run p f --budget 3] => 3 ! record 1: budget passed at 1:13
$ [run p f --budget 8]
b := B"a" + B"bc"; => 0
$ [run p f --budget 7] => 3 ! record 1: budget passed at 1:1
$ [run p f --budget 4]
u: string; s := u + "abc"; => 0
$ [run p f --budget 3] => 3 ! record 1: budget passed at 1:12
$ [run p f --budget 12]
a: array of int = {1};¶b := a + a; => 0
$ [run p f --budget 11] => 3 ! record 1: budget passed at 2:1

== ticks: a slice takes the weight of its result
< ¶
$ [run p f --budget 7]
s := "abc"[1:2]; => 0
$ [run p f --budget 6] => 3 ! record 1: budget passed at 1:1
$ [run p f --budget 5] => 3 ! record 1: budget passed at 1:6
$ [run p f --budget 3] => 3 ! record 1: budget passed at 1:6
$ [run p f --budget 6]
s := "abc"[3:3]; => 0
$ [run p f --budget 5] => 3 ! record 1: budget passed at 1:1
$ [run p f --budget 4] => 3 ! record 1: budget passed at 1:6
$ [run p f --budget 5]
s := "abc"[2:1]; => 0
$ [run p f --budget 4] => 3 ! record 1: budget passed at 1:1
$ [run p f --budget 3] => 3 ! record 1: budget passed at 1:6
$ [run p f --budget 8]
s := "aéb"[1:2]; => 0
$ [run p f --budget 7] => 3 ! record 1: budget passed at 1:1
$ [run p f --budget 9]
s := B"abc"[0:3]; => 0
$ [run p f --budget 8] => 3 ! record 1: budget passed at 1:1
$ [run p f --budget 19]
a: array of string = {"ab", "c"};¶s := a[0:1]; => 0
$ [run p f --budget 18] => 3 ! record 1: budget passed at 2:1

== ticks: so does a slice of the record, which is cut where it lies
< abc¶
$ [run p f --budget 9]
s := input[0:3]; => 0
$ [run p f --budget 8] => 3 ! record 1: budget passed at 1:1
$ [run p f --budget 7] => 3 ! record 1: budget passed at 1:6

== ticks: a composite takes the weight of its result
< ¶
$ [run p f --budget 3]
a: array of int = {}; => 0
$ [run p f --budget 2] => 3 ! record 1: budget passed at 1:1
$ [run p f --budget 1] => 3 ! record 1: budget passed at 1:19
$ [run p f --budget 3]
m: map[int] of int = {:}; => 0
$ [run p f --budget 2] => 3 ! record 1: budget passed at 1:1
$ [run p f --budget 1] => 3 ! record 1: budget passed at 1:22
$ [run p f --budget 7]
a: array of int = {1, 2}; => 0
$ [run p f --budget 6] => 3 ! record 1: budget passed at 1:1
$ [run p f --budget 5] => 3 ! record 1: budget passed at 1:19
$ [run p f --budget 9]
t: {a: int, b: string} = {1, "ab"}; => 0
$ [run p f --budget 8] => 3 ! record 1: budget passed at 1:1
$ [run p f --budget 9]
m: map[int] of int = {1: 5, 1: 6}; => 0
$ [run p f --budget 8] => 3 ! record 1: budget passed at 1:1
$ [run p f --budget 8]
m: map[string] of int = {"a": 1}; => 0
$ [run p f --budget 7] => 3 ! record 1: budget passed at 1:1
$ [run p f --budget 4]
u: int; a: array of int = {1, u}; => 0
$ [run p f --budget 3] => 3 ! record 1: budget passed at 1:9
$ [run p f --budget 4]
u: int; m: map[int] of int = {1: u}; => 0
$ [run p f --budget 3] => 3 ! record 1: budget passed at 1:9
$ [run p f --budget 12]
a: array of array of int = {{1}, {}}; => 0
$ [run p f --budget 11] => 3 ! record 1: budget passed at 1:1

== ticks: of the predeclared functions keys alone takes a weight
< ¶
$ [run p f --budget 3]
x := len("abc"); => 0
$ [run p f --budget 2] => 3 ! record 1: budget passed at 1:1
$ [run p f --budget 1] => 3 ! record 1: budget passed at 1:6
$ [run p f --budget 4]
x := strfind("b", "ab"); => 0
$ [run p f --budget 3] => 3 ! record 1: budget passed at 1:1
$ [run p f --budget 2] => 3 ! record 1: budget passed at 1:6
$ [run p f --budget 12]
m: map[int] of int = {2: 3};¶k := keys(m); => 0
$ [run p f --budget 11] => 3 ! record 1: budget passed at 2:1
$ [run p f --budget 10] => 3 ! record 1: budget passed at 2:6
$ [run p f --budget 11]
m: map[int] of int = {2: 3};¶k := haskey(m, 2); => 0
$ [run p f --budget 10] => 3 ! record 1: budget passed at 2:1
$ [run p f --budget 3]
u: map[int] of int; k := keys(u); => 0
$ [run p f --budget 2] => 3 ! record 1: budget passed at 1:21

== ticks: a conversion to string or bytes takes the weight of its result
< ¶
$ [run p f --budget 3]
x := int("12"); => 0
$ [run p f --budget 2] => 3 ! record 1: budget passed at 1:1
$ [run p f --budget 1] => 3 ! record 1: budget passed at 1:6
$ [run p f --budget 3]
x := int("a"); => 0
$ [run p f --budget 2] => 3 ! record 1: budget passed at 1:1
$ [run p f --budget 1] => 3 ! record 1: budget passed at 1:6
$ [run p f --budget 3]
x := time(1); => 0
$ [run p f --budget 2] => 3 ! record 1: budget passed at 1:1
$ [run p f --budget 1] => 3 ! record 1: budget passed at 1:6
$ [run p f --budget 6]
x := string(12); => 0
$ [run p f --budget 5] => 3 ! record 1: budget passed at 1:1
$ [run p f --budget 8]
x := string(true); => 0
$ [run p f --budget 7] => 3 ! record 1: budget passed at 1:1
$ [run p f --budget 6]
x := bytes("é"); => 0
$ [run p f --budget 5] => 3 ! record 1: budget passed at 1:1
$ [run p f --budget 6]
x := string(B"ab"); => 0
$ [run p f --budget 5] => 3 ! record 1: budget passed at 1:1
$ [run p f --budget 3]
x := string(B"\xff"); => 0
$ [run p f --budget 2] => 3 ! record 1: budget passed at 1:1
$ [run p f --budget 3]
x := string("ab"); => 0
$ [run p f --budget 2] => 3 ! record 1: budget passed at 1:1
$ [run p f --budget 3]
x := bytes(B"ab"); => 0
$ [run p f --budget 2] => 3 ! record 1: budget passed at 1:1
$ [run p f --budget 3]
x := int(1); => 0
$ [run p f --budget 2] => 3 ! record 1: budget passed at 1:1
$ [run p f --budget 5]
type S = string;¶x := S(7); => 0
$ [run p f --budget 4] => 3 ! record 1: budget passed at 2:1

== ticks: a conversion by declaration is taken at its value
< ¶
$ [run p f --budget 6]
s: string = 12; => 0
$ [run p f --budget 5] => 3 ! record 1: budget passed at 1:1
$ [run p f --budget 4] => 3 ! record 1: budget passed at 1:13
$ [run p f --budget 1] => 3 ! record 1: budget passed at 1:13
$ [run p f --budget 6]
s: string = (12); => 0
$ [run p f --budget 5] => 3 ! record 1: budget passed at 1:1
$ [run p f --budget 4] => 3 ! record 1: budget passed at 1:13
$ [run p f --budget 3]
x: int = "7"; => 0
$ [run p f --budget 2] => 3 ! record 1: budget passed at 1:1
$ [run p f --budget 1] => 3 ! record 1: budget passed at 1:10
$ [run p f --budget 3]
x: int = "a"; => 0
$ [run p f --budget 2] => 3 ! record 1: budget passed at 1:1
$ [run p f --budget 3]
x: time = 5; => 0
$ [run p f --budget 2] => 3 ! record 1: budget passed at 1:1
$ [run p f --budget 6]
b: bytes = "ab"; => 0
$ [run p f --budget 5] => 3 ! record 1: budget passed at 1:1
$ [run p f --budget 4]
s: string = input; => 0
$ [run p f --budget 3] => 3 ! record 1: budget passed at 1:1
$ [run p f --budget 2]
x: int = 1; => 0
$ [run p f --budget 1] => 3 ! record 1: budget passed at 1:1

== ticks: a conversion to a message takes the weight of its result
< \x08\x05¶
$ [run p f --budget 5]
type P = proto {a: int @ 1}; p: P = input; => 0
$ [run p f --budget 4] => 3 ! record 1: budget passed at 1:30
$ [run p f --budget 3] => 3 ! record 1: budget passed at 1:37
$ [run p f --budget 2] => 3 ! record 1: budget passed at 1:37
< \x08¶
$ [run p f --budget 3]
type P = proto {a: int @ 1}; p: P = input; => 0
$ [run p f --budget 2] => 3 ! record 1: budget passed at 1:30
"#;
