//! Programs, each with its code as text after `=>`: the constants and types that lines name by numbers from 0; the functions, each with
//! its first line, its parameters and its locals; the first line of each static; that of the record, with its locals; and the lines, each
//! with its place, its instruction, its ticks, and the place in the program that a fault at it has. Blank lines part the programs.

const ROWS: &str = r#"=> record 0 of 0 | 0 EndRecord +0 1:1

x: int = 1;
=> constant 1 | record 0 of 1 | 0 Push(0) +1 1:10 | 1 Keep(0) +1 1:1 | 2 EndRecord +0 1:1

x: int; x = 2; x++;
=> constant 2 | constant 1 | record 0 of 1 | 0 Clear(0) +0 1:1 | 1 Push(0) +1 1:13 | 2 Store(0) +1 1:9 | 3 Local(0) +1 1:16
   4 Push(1) +1 1:16 | 5 Binary(Add) +1 1:16 | 6 Store(0) +1 1:16 | 7 EndRecord +0 1:1

a: array of {i: int}; a[1].i = 2;
=> constant 1 | constant 2 | record 0 of 1 | 0 Clear(0) +0 1:1 | 1 Push(0) +1 1:25 | 2 Push(1) +1 1:32 | 3 Store(0[].0) +1 1:23
   4 EndRecord +0 1:1

s: string = 1 + 2; t: int = int(3);
=> constant 1 | constant 2 | constant 3 | type Str | record 0 of 2 | 0 Push(0) +1 1:13 | 1 Push(1) +1 1:17 | 2 Binary(Add) +1 1:13
   3 Convert(0) +1 1:13 | 4 Keep(0) +1 1:1 | 5 Push(2) +1 1:33 | 6 Tick +1 1:29 | 7 Keep(1) +1 1:20 | 8 EndRecord +0 1:1

n: int = -len(input); d: bool = !def(n);
=> record 0 of 2 | 0 Input +1 1:15 | 1 Apply(Len) +1 1:11 | 2 Unary(Negate) +1 1:10 | 3 Keep(0) +1 1:1 | 4 Local(0) +1 1:38
   5 Def +1 1:34 | 6 Unary(Not) +1 1:33 | 7 Keep(1) +1 1:23 | 8 EndRecord +0 1:1

b: bool = true && false || true;
=> constant true | constant false | record 0 of 1 | 0 Push(0) +1 1:11 | 1 AndTest(3) +0 1:11 | 2 Push(1) +1 1:19 | 3 Tick +1 1:11
   4 OrTest(6) +0 1:11 | 5 Push(0) +1 1:28 | 6 Tick +1 1:11 | 7 Keep(0) +1 1:1 | 8 EndRecord +0 1:1

a: array of int = {1, 2};
a = a[0:1];
=> constant 1 | constant 2 | constant 0 | record 0 of 1 | 0 Push(0) +1 1:20 | 1 Push(1) +1 1:23 | 2 MakeArray(2) +1 1:19
   3 Keep(0) +1 1:1 | 4 Local(0) +1 2:5 | 5 Push(2) +1 2:7 | 6 Push(0) +1 2:9 | 7 Slice +1 2:5 | 8 Store(0) +1 2:1 | 9 EndRecord +0 1:1

m: map[int] of int = {3: 4, 5: 6};
t: {u: int} = {m[3]};
x: int = t.u;
=> constant 3 | constant 4 | constant 5 | constant 6 | record 0 of 3 | 0 Push(0) +1 1:23 | 1 Push(1) +1 1:26 | 2 Push(2) +1 1:29
   3 Push(3) +1 1:32 | 4 MakeMap(2) +1 1:22 | 5 Keep(0) +1 1:1 | 6 Local(0) +1 2:16 | 7 Push(0) +1 2:18 | 8 Index +1 2:16
   9 MakeTuple(1) +1 2:15 | 10 Keep(1) +1 2:1 | 11 Local(1) +1 3:10 | 12 Field(0) +1 3:10 | 13 Keep(2) +1 3:1 | 14 EndRecord +0 1:1

x: int = 1;
if (x > 0) { x = 2; } else ;
if (x < 0) ;
=> constant 1 | constant 0 | constant 2 | record 0 of 1 | 0 Push(0) +1 1:10 | 1 Keep(0) +1 1:1 | 2 Local(0) +1 2:5 | 3 Push(1) +1 2:9
   4 Binary(Greater) +1 2:5 | 5 Test(9, 9) +1 2:1 | 6 Push(2) +1 2:18 | 7 Store(0) +1 2:14 | 8 Jump(9) +0 1:1 | 9 Local(0) +1 3:5
   10 Push(1) +1 3:9 | 11 Binary(Less) +1 3:5 | 12 Test(14, 14) +1 3:1 | 13 Jump(14) +0 1:1 | 14 EndRecord +0 1:1

while (true) { if (false) break; continue; }
=> constant true | constant false | record 0 of 0 | 0 Jump(3) +0 1:1 | 1 Jump(11) +0 1:1 | 2 Tick +1 1:1 | 3 Push(0) +1 1:8
   4 Test(1, 1) +1 1:1 | 5 Push(1) +1 1:20 | 6 Test(9, 9) +1 1:16 | 7 Jump(1) +0 1:1 | 8 Jump(9) +0 1:1 | 9 Jump(2) +0 1:1 | 10 Jump(2) +0 1:1
   11 EndRecord +0 1:1

while (true) { while (true) break; break; }
=> constant true | record 0 of 0 | 0 Jump(3) +0 1:1 | 1 Jump(14) +0 1:1 | 2 Tick +1 1:1 | 3 Push(0) +1 1:8 | 4 Test(1, 1) +1 1:1
   5 Jump(8) +0 1:1 | 6 Jump(12) +0 1:1 | 7 Tick +1 1:16 | 8 Push(0) +1 1:23 | 9 Test(6, 6) +1 1:16 | 10 Jump(6) +0 1:1 | 11 Jump(7) +0 1:1
   12 Jump(1) +0 1:1 | 13 Jump(2) +0 1:1 | 14 EndRecord +0 1:1

do { if (true) continue; if (true) break; } while (false);
=> constant true | constant false | record 0 of 0 | 0 Jump(3) +0 1:1 | 1 Jump(15) +0 1:1 | 2 Jump(11) +0 1:1 | 3 Push(0) +1 1:10
   4 Test(7, 7) +1 1:6 | 5 Jump(2) +0 1:1 | 6 Jump(7) +0 1:1 | 7 Push(0) +1 1:30 | 8 Test(11, 11) +1 1:26 | 9 Jump(1) +0 1:1
   10 Jump(11) +0 1:1 | 11 Push(1) +1 1:52 | 12 Test(1, 1) +1 1:1 | 13 Tick +1 1:1 | 14 Jump(3) +0 1:1 | 15 EndRecord +0 1:1

for (i: int = 0; i < 3; i++) { if (true) continue; break; }
=> constant 0 | constant 1 | constant 3 | constant true | record 0 of 1 | 0 Push(0) +1 1:15 | 1 Keep(0) +1 1:6 | 2 Jump(9) +0 1:1
   3 Jump(19) +0 1:1 | 4 Local(0) +1 1:25 | 5 Push(1) +1 1:25 | 6 Binary(Add) +1 1:25 | 7 Store(0) +1 1:25 | 8 Tick +1 1:1
   9 Local(0) +1 1:18 | 10 Push(2) +1 1:22 | 11 Binary(Less) +1 1:18 | 12 Test(3, 3) +1 1:1 | 13 Push(3) +1 1:36 | 14 Test(17, 17) +1 1:32
   15 Jump(4) +0 1:1 | 16 Jump(17) +0 1:1 | 17 Jump(3) +0 1:1 | 18 Jump(4) +0 1:1 | 19 EndRecord +0 1:1

for (;;) break;
=> record 0 of 0 | 0 Jump(3) +0 1:1 | 1 Jump(6) +0 1:1 | 2 Tick +1 1:1 | 3 Tick +1 1:1 | 4 Jump(1) +0 1:1 | 5 Jump(2) +0 1:1
   6 EndRecord +0 1:1

f: function(n: int): int { if (n > 0) return f(n - 1); }
x: int = f(3);
f(1);
=> constant 0 | constant 1 | constant 3 | function 0 1 1 | record 14 of 1 | 0 Local(0) +1 1:32 | 1 Push(0) +1 1:36
   2 Binary(Greater) +1 1:32 | 3 Test(10, 10) +1 1:28 | 4 Local(0) +1 1:48 | 5 Push(1) +1 1:52 | 6 Binary(Sub) +1 1:48 | 7 Call(0) +1 1:46
   8 Return +1 1:39 | 9 Jump(10) +0 1:1 | 10 Push(0) +0 1:1 | 11 Push(0) +0 1:1 | 12 Binary(Div) +0 1:1 | 13 Return +0 1:1
   14 Push(2) +1 2:12 | 15 Call(0) +1 2:10 | 16 Keep(0) +1 2:1 | 17 Push(1) +1 3:3 | 18 Call(0) +1 3:1 | 19 Discard +0 3:1
   20 EndRecord +0 1:1

static k: string = 5;
static j: string = k;
s: string = j;
=> constant 5 | type Str | static 0 | static 4 | record 7 of 1 | 0 Push(0) +1 1:20 | 1 Convert(0) +1 1:20 | 2 KeepStatic(0) +1 1:1
   3 EndRecord +0 1:1 | 4 Static(0) +1 2:20 | 5 KeepStatic(1) +1 2:1 | 6 EndRecord +0 1:1 | 7 Static(1) +1 3:13 | 8 Keep(0) +1 3:1
   9 EndRecord +0 1:1

c: table sum of int;
emit c <- 1;
=> constant 1 | record 0 of 0 | 0 Push(0) +1 2:11 | 1 Emit(0, 0, false) +1 2:1 | 2 EndRecord +0 1:1

t: table maximum(2)[int][string] of string weight int;
emit t[1]["a"] <- "b" weight 2;
=> constant 1 | constant "a" | constant "b" | constant 2 | record 0 of 0 | 0 Push(0) +1 2:8 | 1 Push(1) +1 2:11 | 2 Push(2) +1 2:19
   3 Push(3) +1 2:30 | 4 Emit(0, 2, true) +1 2:1 | 5 EndRecord +0 1:1

return;
x: int = 1;
=> constant 1 | record 0 of 1 | 0 EndRecord +1 1:1 | 1 Push(0) +1 2:10 | 2 Keep(0) +1 2:1 | 3 EndRecord +0 1:1"#;

// Programs that search by `when`, or take messages.
const SEARCHES: &str = r#"a: array of int = {3, 5};
when (i: some int; a[i] == 5) a[i] = 4;
=> constant 3 | constant 5 | constant 4 | record 0 of 2 | 0 Push(0) +1 1:20 | 1 Push(1) +1 1:23 | 2 MakeArray(2) +1 1:19
   3 Keep(0) +1 1:1 | 4 Jump(6) +0 1:1 | 5 Jump(19) +0 1:1 | 6 Local(0) +1 2:20 | 7 Enter(false) +0 1:1 | 8 Next(1, 5) +1 2:1
   9 Local(0) +1 2:20 | 10 Local(1) +1 2:22 | 11 Index +1 2:20 | 12 Push(1) +1 2:28 | 13 Binary(Equal) +1 2:20 | 14 Meets(8) +0 1:1
   15 Local(1) +1 2:33 | 16 Push(2) +1 2:38 | 17 Store(0[]) +1 2:31 | 18 Leave +0 1:1 | 19 EndRecord +0 1:1

a: array of int = {1};
when (i: each int; a[i] > 0) return;
=> constant 1 | constant false | constant 0 | constant true | record 0 of 2 | 0 Push(0) +1 1:20 | 1 MakeArray(1) +1 1:19
   2 Keep(0) +1 1:1 | 3 Jump(5) +0 1:1 | 4 Jump(20) +0 1:1 | 5 Local(0) +1 2:20 | 6 Enter(false) +0 1:1 | 7 Push(1) +0 1:1
   8 Next(1, 19) +1 2:1 | 9 Local(0) +1 2:20 | 10 Local(1) +1 2:22 | 11 Index +1 2:20 | 12 Push(2) +1 2:27 | 13 Binary(Greater) +1 2:20
   14 Meets(8) +0 1:1 | 15 EndRecord +1 2:30 | 16 Discard +0 1:1 | 17 Push(3) +0 1:1 | 18 Jump(8) +0 1:1 | 19 Meets(4) +0 1:1
   20 EndRecord +0 1:1

f: function(a: array of array of int): int { when (i: each int; j: each int; a[i][j] == 5) return j; }
=> constant false | constant 5 | constant true | constant 0 | function 0 1 3 | record 36 of 0 | 0 Jump(2) +0 1:1 | 1 Jump(32) +0 1:1
   2 Local(0) +1 1:78 | 3 Enter(false) +0 1:1 | 4 Push(0) +0 1:1 | 5 Next(1, 31) +1 1:46 | 6 Local(0) +1 1:78 | 7 Local(1) +1 1:80
   8 Index +1 1:78 | 9 Enter(false) +0 1:1 | 10 Push(0) +0 1:1 | 11 Next(2, 27) +1 1:46 | 12 Local(0) +1 1:78 | 13 Local(1) +1 1:80
   14 Index +1 1:78 | 15 Local(2) +1 1:83 | 16 Index +1 1:78 | 17 Push(1) +1 1:89 | 18 Binary(Equal) +1 1:78 | 19 Meets(11) +0 1:1
   20 Discard +0 1:1 | 21 Discard +0 1:1 | 22 Local(2) +1 1:99 | 23 Return +1 1:92 | 24 Discard +0 1:1 | 25 Push(2) +0 1:1
   26 Jump(11) +0 1:1 | 27 Meets(5) +0 1:1 | 28 Discard +0 1:1 | 29 Push(2) +0 1:1 | 30 Jump(5) +0 1:1 | 31 Meets(1) +0 1:1
   32 Push(3) +0 1:1 | 33 Push(3) +0 1:1 | 34 Binary(Div) +0 1:1 | 35 Return +0 1:1 | 36 EndRecord +0 1:1

s: string = "ab";
when (i: all int; s[0:i] != "b") s = "c";
=> constant "ab" | constant 0 | constant "b" | constant "c" | record 0 of 2 | 0 Push(0) +1 1:13 | 1 Keep(0) +1 1:1 | 2 Jump(4) +0 1:1
   3 Jump(20) +0 1:1 | 4 Local(0) +1 2:19 | 5 Enter(true) +0 1:1 | 6 Jump(9) +0 1:1 | 7 Leave +0 1:1 | 8 Jump(3) +0 1:1
   9 Next(1, 18) +1 2:1 | 10 Local(0) +1 2:19 | 11 Push(1) +1 2:21 | 12 Local(1) +1 2:23 | 13 Slice +1 2:19 | 14 Push(2) +1 2:29
   15 Binary(NotEqual) +1 2:19 | 16 Fails(7) +0 1:1 | 17 Jump(9) +0 1:1 | 18 Push(3) +1 2:38 | 19 Store(0) +1 2:34 | 20 EndRecord +0 1:1

m: map[string] of array of int = {"a": {1}};
when (k: some string; i: all int; m[k][i] > 0) ;
=> constant "a" | constant 1 | constant 0 | record 0 of 3 | 0 Push(0) +1 1:35 | 1 Push(1) +1 1:41 | 2 MakeArray(1) +1 1:40
   3 MakeMap(1) +1 1:34 | 4 Keep(0) +1 1:1 | 5 Jump(7) +0 1:1 | 6 Jump(28) +0 1:1 | 7 Local(0) +1 2:35 | 8 Enter(false) +0 1:1
   9 Next(1, 6) +1 2:1 | 10 Local(0) +1 2:35 | 11 Local(1) +1 2:37 | 12 Index +1 2:35 | 13 Enter(false) +0 1:1 | 14 Jump(17) +0 1:1
   15 Leave +0 1:1 | 16 Jump(9) +0 1:1 | 17 Next(2, 27) +1 2:1 | 18 Local(0) +1 2:35 | 19 Local(1) +1 2:37 | 20 Index +1 2:35
   21 Local(2) +1 2:40 | 22 Index +1 2:35 | 23 Push(2) +1 2:45 | 24 Binary(Greater) +1 2:35 | 25 Fails(15) +0 1:1 | 26 Jump(17) +0 1:1
   27 Leave +0 1:1 | 28 EndRecord +0 1:1

type M = proto { a: int @ 1 };
m: M = input;
k: M = M(m);
x: int = k.a;
=> type Proto(Fields { fields: [Field { name: Text { string: "a" }, ty: Int, number: 1, code: Plain }] }) | record 0 of 3 | 0 Input +1 2:8
   1 Decode(0) +1 2:8 | 2 Keep(0) +1 2:1 | 3 Local(0) +1 3:10 | 4 Tick +1 3:8 | 5 Keep(1) +1 3:1 | 6 Local(1) +1 4:10
   7 Field(0) +1 4:10 | 8 Keep(2) +1 4:1 | 9 EndRecord +0 1:1

type M = proto { t: time @ 2 fixed64 };
f: function(s: string): M { return M(bytes(s)); }
x: int = f("ab").t;
=> constant 0 | constant "ab" | type Bytes
   type Proto(Fields { fields: [Field { name: Text { string: "t" }, ty: Time, number: 2, code: Fixed64 }] }) | type Int | function 0 1 1
   record 8 of 1 | 0 Local(0) +1 2:44 | 1 Convert(0) +1 2:38 | 2 Decode(1) +1 2:36 | 3 Return +1 2:29 | 4 Push(0) +0 1:1
   5 Push(0) +0 1:1 | 6 Binary(Div) +0 1:1 | 7 Return +0 1:1 | 8 Push(1) +1 3:12 | 9 Call(0) +1 3:10 | 10 Field(0) +1 3:10
   11 Convert(2) +1 3:10 | 12 Keep(0) +1 3:1 | 13 EndRecord +0 1:1"#;

/// All programs.
pub fn rows() -> [&'static str; 2] {
    [ROWS, SEARCHES]
}
