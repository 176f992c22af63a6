//! Runs by example: what expressions give. The lines are as in `runs.rt`.

/// The runs.
pub const RUNS: &str = r#"== values are computed as they are grouped
< 3¶
c: table sum of int; x: int = input; emit c <- (x + 1) * 2; => 0 c[] = 8¶
c: table sum of int; x: int = input; emit c <- x + 1 * 2; => 0 c[] = 5¶
c: table sum of int; x: int = input; emit c <- 10 - x - 2; => 0 c[] = 5¶
c: table sum of int; x: int = input; emit c <- 10 - (x - 2); => 0 c[] = 9¶
c: table sum of int; x: int = input; emit c <- ((x)) * (x * x); => 0 c[] = 27¶
c: table sum of int; x: int = input; y: int = x * 2; emit c <- y - x * y; => 0 c[] = -12¶
sum: int = 4; c: table sum of int; emit c <- sum; => 0 c[] = 4¶
c: table sum of int; emit c <- 0x10 - 0xffffffffffffffff; => 0 c[] = 17¶
# what is counted¶c: table sum of int; # a table¶→emit c <- # one¶1;# the end => 0 c[] = 1¶
c: table sum of int; emit c <- 7 - 2 * 3 << 1; => 0 c[] = -5¶
c: table sum of int; emit c <- 1 | 2 + 4 ^ 1; => 0 c[] = 6¶
c: table sum of int; emit c <- -2 * -3; => 0 c[] = 6¶
c: table sum of int; emit c <- - -2; => 0 c[] = 2¶
c: table sum of int; emit c <- ~-1; => 0 c[] = 0¶
c: table sum of int; if (1 + 1 == 2 && !(2 > 3) || false) emit c <- 1; => 0 c[] = 1¶
c: table sum of int; if (true || true && false) emit c <- 1; => 0 c[] = 1¶

== whole numbers wrap to 64 bits
< ¶
c: table sum of int; emit c <- 9223372036854775807 + 1; => 0 c[] = -9223372036854775808¶
c: table sum of int; emit c <- -9223372036854775807 - 2; => 0 c[] = 9223372036854775807¶
c: table sum of int; emit c <- 9223372036854775807 * 2; => 0 c[] = -2¶
c: table sum of int; emit c <- -0x8000000000000000; => 0 c[] = -9223372036854775808¶
c: table sum of int; emit c <- ~0x8000000000000000; => 0 c[] = 9223372036854775807¶
c: table sum of int; emit c <- 0x8000000000000000 / -1; => 0 c[] = -9223372036854775808¶
c: table sum of int; emit c <- 0x8000000000000000 % -1; => 0 c[] = 0¶
c: table sum of int; emit c <- 1 << 63; => 0 c[] = -9223372036854775808¶
c: table sum of int; emit c <- 3 << 63; => 0 c[] = -9223372036854775808¶
c: table sum of int; x: int = 9223372036854775807; x++; emit c <- x; => 0 c[] = -9223372036854775808¶
c: table sum of int; x: int = 0x8000000000000000; x--; emit c <- x; => 0 c[] = 9223372036854775807¶

== operators on whole numbers
< ¶
c: table sum of int; emit c <- 7 / 2; => 0 c[] = 3¶
c: table sum of int; emit c <- -7 / 2; => 0 c[] = -3¶
c: table sum of int; emit c <- 7 / -2; => 0 c[] = -3¶
c: table sum of int; emit c <- 7 % 2; => 0 c[] = 1¶
c: table sum of int; emit c <- -7 % 2; => 0 c[] = -1¶
c: table sum of int; emit c <- 7 % -2; => 0 c[] = 1¶
c: table sum of int; emit c <- 7 * -2; => 0 c[] = -14¶
c: table sum of int; emit c <- 1 << 3; => 0 c[] = 8¶
c: table sum of int; emit c <- -1 >> 63; => 0 c[] = -1¶
c: table sum of int; emit c <- 9 >> 1; => 0 c[] = 4¶
c: table sum of int; emit c <- 6 & 3; => 0 c[] = 2¶
c: table sum of int; emit c <- 6 | 3; => 0 c[] = 7¶
c: table sum of int; emit c <- 6 ^ 3; => 0 c[] = 5¶
c: table sum of int; emit c <- +7; => 0 c[] = 7¶
c: table sum of int; emit c <- ~7; => 0 c[] = -8¶
c: table sum of int; emit c <- 1; emit c <- 1 / 0; => 0 c[] = 1¶
c: table sum of int; emit c <- 1; emit c <- 1 % 0; => 0 c[] = 1¶
c: table sum of int; emit c <- 1; emit c <- 1 << 64; => 0 c[] = 1¶
c: table sum of int; emit c <- 1; emit c <- 1 << -1; => 0 c[] = 1¶
c: table sum of int; emit c <- 1; emit c <- 1 >> 64; => 0 c[] = 1¶
c: table sum of int; emit c <- 1; emit c <- 0 * (1 / 0); => 0 c[] = 1¶
c: table sum of int; emit c <- 1; emit c <- -(1 / 0); => 0 c[] = 1¶

== comparisons are by the order of values
< ¶
c: table sum of int; emit c <- int(1 == 1) + int(1 == 2) * 10; => 0 c[] = 1¶
c: table sum of int; emit c <- int(1 != 1) + int(1 != 2) * 10; => 0 c[] = 10¶
c: table sum of int; emit c <- int(1 < 1) + int(-1 < 1) * 10 + int(2 < 1) * 100; => 0 c[] = 10¶
c: table sum of int; emit c <- int(1 <= 1) + int(-1 <= 1) * 10 + int(2 <= 1) * 100; => 0 c[] = 11¶
c: table sum of int; emit c <- int(1 > 1) + int(-1 > 1) * 10 + int(2 > 1) * 100; => 0 c[] = 100¶
c: table sum of int; emit c <- int(1 >= 1) + int(-1 >= 1) * 10 + int(2 >= 1) * 100; => 0 c[] = 101¶
c: table sum of int; emit c <- int("a" < "ab") + int("b" < "ab") * 10 + int("z" < "é") * 100; => 0 c[] = 101¶
c: table sum of int; emit c <- int(B"\x7f" < B"\x80") + int(B"" >= B"a") * 10; => 0 c[] = 1¶
c: table sum of int; emit c <- int(time(1) <= time(2)) + int(time(1) == time(2)) * 10; => 0 c[] = 1¶
c: table sum of int; emit c <- int(true == true) + int(true != true) * 10; => 0 c[] = 1¶
c: table sum of int; a: array of int = {1, 2}; emit c <- int(a == {1, 2}) + int(a == {1}) * 10; => 0 c[] = 1¶
c: table sum of int; m: map[int] of int = {1: 2, 3: 4}; emit c <- int(m == {3: 4, 1: 2}) + int(m != {:}) * 10; => 0 c[] = 11¶
c: table sum of int; t: {a: int, b: string} = {1, "x"}; emit c <- int(t == {1, "x"}) + int(t == {1, "y"}) * 10; => 0 c[] = 1¶
c: table sum of int; emit c <- int(def(1 / 0 == 1)) + int(def("a"[9] < 1)) * 10; => 0 c[] = 0¶

== an undefined value makes what is computed of it undefined
< ¶
c: table sum of int; u: int; emit c <- int(def(u)) + int(def(1)) * 10; => 0 c[] = 10¶
c: table sum of int; u: int; x: int = u; emit c <- int(def(x)); => 0 c[] = 0¶
c: table sum of int; u: bool; emit c <- int(def(u && true)) + int(def(u && false)) * 10 + int(def(u || true)) * 100; => 0 c[] = 0¶
c: table sum of int; u: bool; emit c <- int(def(true && u)) + int(def(false && u)) * 10 + int(def(true || u)) * 100; => 0 c[] = 110¶
c: table sum of int; u: bool; emit c <- int(def(false || u)) + int(def(!u)) * 10; => 0 c[] = 0¶
c: table sum of int; u: string; emit c <- int(def(u + "a")) + int(def(u[0])) * 10 + int(def(u[0:0])) * 100 + int(def(len(u))) * 1000; => 0 c[] = 0¶
c: table sum of int; u: int; a: array of int = {1, u}; emit c <- int(def(a)) + int(def("a"[u])) * 10; => 0 c[] = 0¶
c: table sum of int; u: int; t: {a: int, b: int} = {1, u}; emit c <- int(def(t)) + int(def(t.a)) * 10; => 0 c[] = 0¶
c: table sum of int; u: int; m: map[int] of int = {1: u}; n: map[int] of int = {u: 1}; emit c <- int(def(m)) + int(def(n)) * 10; => 0 c[] = 0¶
c: table sum of int; u: map[int] of int; emit c <- int(def(u[1])) + int(def(keys(u))) * 10 + int(def(haskey(u, 1))) * 100; => 0 c[] = 0¶
c: table sum of int; u: string; emit c <- int(def(strfind(u, "a"))) + int(def(strfind("a", u))) * 10 + int(def(int(u))) * 100; => 0 c[] = 0¶
c: table sum of int; u: int; emit c <- u; => 0
c: table sum of int; f: function(a: int, b: int): int { return a; } u: int; emit c <- int(def(f(1, u))) + int(def(f(1, 2))) * 10; => 0 c[] = 10¶

== strings, bytes and arrays have elements and slices
< ¶
c: table sum of int; emit c <- "aéb"[1]; => 0 c[] = 233¶
c: table sum of int; emit c <- B"a\xff"[1]; => 0 c[] = 255¶
c: table sum of int; a: array of int = {4, 5}; emit c <- a[0] + a[1] * 10; => 0 c[] = 54¶
c: table sum of int; emit c <- int(def("aé"[2])) + int(def("aé"[-1])) * 10 + int(def("aé"[1])) * 100; => 0 c[] = 100¶
c: table sum of int; emit c <- int("aéb"[1:3] == "éb") + int("aéb"[3:3] == "") * 10 + int("aéb"[0:3] == "aéb") * 100; => 0 c[] = 111¶
c: table sum of int; s: string = "aé"; for (i: int = 0; i < 7; i++) s = s + s; t: int = 0; for (i: int = 0; i < len(s); i++) t = t + s[i]; emit c <- t; => 0 c[] = 42240¶
c: table sum of int; s: string = "aé"; for (i: int = 0; i < 7; i++) s = s + s; emit c <- int(s[63:66] == "éaé") + int(s[254:256] == "aé") * 10 + int(def(s[255:257])) * 100 + s[128] * 1000 + len(s) * 1000000; => 0 c[] = 256097011¶
c: table sum of int; emit c <- int(B"abc"[1:2] == B"b") + len(bytes("aéb")[1:4]) * 10; => 0 c[] = 31¶
c: table sum of int; a: array of int = {4, 5, 6}; emit c <- a[1:3][0] + len(a[0:0]) * 10; => 0 c[] = 5¶
c: table sum of int; emit c <- int(def("abc"[2:1])) + int(def("abc"[-1:1])) * 10 + int(def("abc"[0:4])) * 100; => 0 c[] = 0¶
c: table sum of int; emit c <- 'a' + '\n' + 'é' - "\u00e9"[0]; => 0 c[] = 107¶
c: table sum of int; a: array of array of int = {{1, 2}, {3}}; emit c <- a[0][1] * 10 + a[1][0]; => 0 c[] = 23¶
c: table sum of int; emit c <- int("ab" + "c" == "abc") + int(B"a" + B"" == B"a") * 10; => 0 c[] = 11¶
c: table sum of int; a: array of int = {1}; emit c <- len(a + {2, 3}) + (a + {2, 3})[2] * 10; => 0 c[] = 33¶

== tuples have fields
< ¶
c: table sum of int; t: {a: int, b: int} = {4, 5}; emit c <- t.a + t.b * 10; => 0 c[] = 54¶
c: table sum of int; type P = {x: int, y: int}; p: P = {1, 2}; emit c <- p.x * 10 + p.y; => 0 c[] = 12¶
c: table sum of int; t: {a: {b: array of int}} = {{{7, 8}}}; emit c <- t.a.b[1]; => 0 c[] = 8¶
c: table sum of int; u: {a: int}; emit c <- int(def(u.a)); => 0 c[] = 0¶

== maps have a value for each key
< ¶
c: table sum of int; m: map[string] of int = {"b": 2, "a": 1, "b": 3}; emit c <- len(m) + m["b"] * 10; => 0 c[] = 32¶
c: table sum of int; m: map[int] of int = {3: 5, 1: 6}; emit c <- keys(m)[0] + keys(m)[1] * 10 + len(keys(m)) * 100; => 0 c[] = 231¶
c: table sum of int; m: map[int] of int = {3: 5}; emit c <- int(haskey(m, 3)) + int(haskey(m, 4)) * 10 + int(def(m[4])) * 100; => 0 c[] = 1¶
c: table sum of int; m: map[int] of int = {:}; emit c <- len(m) + len(keys(m)); => 0 c[] = 0¶
c: table sum of int; m: map[array of int] of int; k: array of int = {1}; m = {k: 5}; emit c <- m[k]; => 0 c[] = 5¶

== predeclared functions
< ¶
c: table sum of int; emit c <- len("aéb") + len(B"abcd") * 10 + len("") * 100; => 0 c[] = 43¶
c: table sum of int; a: array of int = {}; emit c <- len(a); => 0 c[] = 0¶
c: table sum of int; emit c <- strfind("b", "aéb") + strfind("", "x") * 10 + strfind("xy", "axyxy") * 100; => 0 c[] = 102¶
c: table sum of int; emit c <- strfind("x", "ab"); => 0 c[] = -1¶
c: table sum of int; emit c <- strfind(B"\xa9b", bytes("aéb")) + strfind(B"", B"") * 10; => 0 c[] = 2¶

== bytes are searched, measured, cut and read as numbers where they lie
< ¶
c: table sum of int; emit c <- strfind(B"b", B"abcb") + (strfind(B"x", B"ab") + 2) * 10 + (strfind(B"a", B"") + 2) * 100 + strfind(B"", B"xy") * 1000 + strfind(B"ab", B"aab") * 10000; => 0 c[] = 10111¶
< a b¶
c: table sum of int; emit c <- strfind(B" ", input) + strfind(B"b", input[1:3]) * 10 + strfind(input[0:1], input) * 100 + strfind(input[0:2], input[1:3]) * 1000; => 0 c[] = -989¶
< ab,cd,,x¶
c: table sum of int; r := input[3:len(input)]; q := r[1:3]; emit c <- len(r) + len(q) * 10 + int(q == B"d,") * 100 + int(input == B"ab,cd,,x") * 1000; => 0 c[] = 1125¶
c: table sum of int; u: int; r := input[1:4]; emit c <- int(def(r[u:2])) + int(def(r[0:u])) * 10 + int(def(r[2:1])) * 100 + int(def(r[-1:2])) * 1000 + int(def(r[0:4])) * 10000 + int(def(r[3:3])) * 100000; => 0 c[] = 100000¶
< 12,-7,+5,x¶
c: table sum of int; emit c <- int(input[0:2]) + int(input[3:5]) * 100 + int(input[6:8]) * 10000 + int(def(int(input[9:10]))) * 1000000 + int(def(int(input[2:2]))) * 10000000; => 0 c[] = 49312¶

== texts of ASCII are searched, measured, cut and compared where they lie
< ab,cd,,x¶
c: table sum of int; s: string = input; q := s[3:len(s)]; r := q[1:3]; emit c <- len(s) + len(q) * 100 + len(r) * 1000 + int(r == "d,") * 10000 + int("d," == r) * 100000 + int(s == "ab,cd,,x") * 1000000; => 0 c[] = 1112508¶
c: table sum of int; u: int; s: string = input[1:4]; emit c <- int(def(s[u:2])) + int(def(s[0:u])) * 10 + int(def(s[2:1])) * 100 + int(def(s[-1:2])) * 1000 + int(def(s[0:4])) * 10000 + int(def(s[3:3])) * 100000 + len(s[3:3]) * 1000000; => 0 c[] = 100000¶
c: table sum of int; s: string = input; emit c <- strfind(",", s) + strfind(s[6:8], s) * 10 + (strfind("z", s) + 2) * 100 + s[7] * 1000 + int(bytes(s[0:2]) == B"ab") * 1000000 + strfind(s[3:3], s) * 10000000; => 0 c[] = 1120162¶
c: table sum of int; s: string = input; emit c <- int(s[0:1] < "b") + int("b" > s[0:1]) * 10 + int(s[0:2] < s[0:3]) * 100 + int(s[3:4] >= s[1:2]) * 1000 + int(s[0:1] != "a") * 10000 + int(s[0:0] == "") * 100000; => 0 c[] = 101111¶
c: table sum of int; s: string = input; t := s[0:2] + s[3:5] + "é" + s[7:8]; emit c <- len(t) + int(t == "abcdéx") * 10 + int(s + s + s == "ab,cd,,xab,cd,,xab,cd,,x") * 100 + int("é" + s[0:1] == "éa") * 1000 + int(s[0:1] + "b" == "ab") * 10000; => 0 c[] = 11116¶
c: table sum of int; s: string = input; m: map[string] of int = {s[0:2]: 5, s[3:5]: 6, "x": 7, s[7:8]: 8}; emit c <- len(m) + m["ab"] * 10 + m[s[3:5]] * 100 + m["x"] * 1000 + int(haskey(m, s[0:1])) * 10000 + int(haskey(m, s[0:2])) * 100000; => 0 c[] = 108653¶
c: table sum of int; s: string = input; n := 0; while (len(s) > 0) { if (s[0:1] == ",") n++; s = s[1:len(s)]; } emit c <- n + len(s) * 10; => 0 c[] = 3¶
t: table collection of int; s: string = input[0:6]; when (i: each int; s[i] == 44) emit t <- i; => 0 t[] = 2¶t[] = 5¶
t: table collection of string; s: string = input; emit t <- s[0:2]; emit t <- s; emit t <- s[8:8]; a: array of string = {s[3:5], "b"}; a[1] = s[7:8]; emit t <- a[0] + a[1]; => 0 t[] = ""¶t[] = "ab"¶t[] = "ab,cd,,x"¶t[] = "cdx"¶
< aéb¶
c: table sum of int; s: string = input; t := s[1:3]; emit c <- len(s) + len(t) * 10 + int(t == "éb") * 100 + s[1] * 1000; => 0 c[] = 233123¶
c: table sum of int; r: string = input[0:1]; q: string = input[3:4]; emit c <- int(r == "a") + int(q == "b") * 10 + int(def(string(input[1:2]))) * 100 + int(r + string(input[1:3]) + q == "aéb") * 1000; => 0 c[] = 1011¶
< 12,-7,+5,x¶
c: table sum of int; s: string = input; emit c <- int(s[0:2]) + int(s[3:5]) * 100 + int(s[6:8]) * 10000 + int(def(int(s[9:10]))) * 1000000 + int(def(int(s[2:2]))) * 10000000; => 0 c[] = 49312¶

== conversions
< ¶
c: table sum of int; emit c <- int("+7") + int("-07") + int(B"12"); => 0 c[] = 12¶
c: table sum of int; emit c <- int("-9223372036854775808"); => 0 c[] = -9223372036854775808¶
c: table sum of int; emit c <- int(def(int("9223372036854775808"))) + int(def(int(""))) * 10 + int(def(int("-"))) * 100; => 0 c[] = 0¶
c: table sum of int; emit c <- int(def(int(" 7"))) + int(def(int("7 "))) * 10 + int(def(int("0x7"))) * 100; => 0 c[] = 0¶
c: table sum of int; emit c <- int(string(-12) == "-12") + int(string(true) == "true") * 10 + int(string(false) == "false") * 100; => 0 c[] = 111¶
c: table sum of int; emit c <- int(true) + int(false) * 10; => 0 c[] = 1¶
c: table sum of int; emit c <- len(bytes("é")) + int(string(B"\xc3\xa9") == "é") * 10 + int(def(string(B"\xff"))) * 100; => 0 c[] = 12¶
c: table sum of int; t: time = time(5); emit c <- int(t) + int(t + 3) * 10; => 0 c[] = 85¶
c: table sum of int; emit c <- time(5) - time(3) + int(time(5) - 3) * 10; => 0 c[] = 22¶
c: table sum of int; type N = int; emit c <- N("7") + int(7); => 0 c[] = 14¶
c: table sum of int; s: string = 12; b: bytes = "é"; t: time = 3; x: int = t; emit c <- len(s) + len(b) * 10 + x * 100; => 0 c[] = 322¶
c: table sum of int; x: int = true; y: int = "8"; z: int = "a"; emit c <- x + y * 10 + int(def(z)) * 100; => 0 c[] = 81¶
c: table sum of int; s: string = true; t: string = B"a"; u: string = B"\xff"; emit c <- len(s) + len(t) * 10 + int(def(u)) * 100; => 0 c[] = 14¶
"#;
