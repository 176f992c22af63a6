//! Runs by example: what tables of each kind print. The lines are as in `runs.rt`.

/// The runs.
pub const RUNS: &str = r#"== a maximum has the greatest by weight, with a row for each repeat
m: table maximum(2) of string weight int; s: string = input; emit m <- s weight len(s); => 0
< b¶a¶a¶
best: table maximum(2) of string weight w: int;¶s: string = input;¶emit best <- s weight 5;¶ => 0 best[] = "a" weight 5¶best[] = "a" weight 5¶
< a¶
m: table maximum(2) of string weight int; s: string = input; emit m <- s weight len(s); => 0 m[] = "a" weight 1¶
< a¶bb¶
m: table maximum(2) of string weight int; s: string = input; emit m <- s weight len(s); => 0 m[] = "bb" weight 2¶m[] = "a" weight 1¶
< a¶ccc¶bb¶
m: table maximum(2) of string weight int; s: string = input; emit m <- s weight len(s); => 0 m[] = "ccc" weight 3¶m[] = "bb" weight 2¶
< bb¶ccc¶bb¶a¶ccc¶
m: table maximum(2) of string weight int; s: string = input; emit m <- s weight len(s); => 0 m[] = "ccc" weight 3¶m[] = "ccc" weight 3¶
< c¶bb¶a¶b¶
m: table maximum(2) of string weight int; s: string = input; emit m <- s weight len(s); => 0 m[] = "bb" weight 2¶m[] = "a" weight 1¶
< a¶bb¶
m: table maximum(1) of string weight int; s: string = input; emit m <- s weight -len(s); => 0 m[] = "a" weight -1¶
< 5¶-9223372036854775808¶9223372036854775807¶
m: table maximum(2) of int weight int; x: int = input; emit m <- 1 weight x; => 0 m[] = 1 weight 9223372036854775807¶m[] = 1 weight 5¶
< 3¶5¶4¶
m: table maximum(2) of n: int weight at: time; x: int = input; emit m <- x weight time(x * 2); => 0 m[] = 5 weight 10¶m[] = 4 weight 8¶

== a minimum has the least by weight, with a row for each repeat
m: table minimum(2) of string weight int; s: string = input; emit m <- s weight len(s); => 0
< a¶
m: table minimum(2) of string weight int; s: string = input; emit m <- s weight len(s); => 0 m[] = "a" weight 1¶
< bb¶a¶
m: table minimum(2) of string weight int; s: string = input; emit m <- s weight len(s); => 0 m[] = "a" weight 1¶m[] = "bb" weight 2¶
< ccc¶a¶bb¶
m: table minimum(2) of string weight int; s: string = input; emit m <- s weight len(s); => 0 m[] = "a" weight 1¶m[] = "bb" weight 2¶
< a¶bb¶a¶
m: table minimum(2) of string weight int; s: string = input; emit m <- s weight len(s); => 0 m[] = "a" weight 1¶m[] = "a" weight 1¶
< c¶bb¶a¶b¶
m: table minimum(2) of string weight int; s: string = input; emit m <- s weight len(s); => 0 m[] = "a" weight 1¶m[] = "b" weight 1¶
< 5¶-9223372036854775808¶9223372036854775807¶
m: table minimum(2) of int weight int; x: int = input; emit m <- 1 weight x; => 0 m[] = 1 weight -9223372036854775808¶m[] = 1 weight 5¶
< 3¶-5¶4¶
m: table minimum(1) of int weight time; x: int = input; emit m <- x weight time(x); => 0 m[] = -5 weight -5¶

== a set has each value once, or overflows
s: table set(2) of string;¶r: string = input;¶emit s <- r;¶ => 0
< a¶
s: table set(2) of string;¶r: string = input;¶emit s <- r;¶ => 0 s[] = "a"¶
< a¶b¶a¶
s: table set(2) of string;¶r: string = input;¶emit s <- r;¶ => 0 s[] = "a"¶s[] = "b"¶
< b¶b¶a¶a¶
s: table set(2) of string;¶r: string = input;¶emit s <- r;¶ => 0 s[] = "a"¶s[] = "b"¶
< a¶b¶a¶c¶
s: table set(2) of string;¶r: string = input;¶emit s <- r;¶ => 0 s[] = overflow¶
< a¶b¶c¶a¶
s: table set(2) of string;¶r: string = input;¶emit s <- r;¶ => 0 s[] = overflow¶
< a¶a¶
s: table set(1) of string; r: string = input; emit s <- r; => 0 s[] = "a"¶
< a¶b¶dd¶cc¶cc¶e¶fff¶
s: table set(2)[length: int] of string; r: string = input; emit s[len(r)] <- r; => 0 s[1] = overflow¶s[2] = "cc"¶s[2] = "dd"¶s[3] = "fff"¶

== a collection has all values with repeats
t: table collection of string;¶s: string = input;¶emit t <- s;¶ => 0
< a¶
t: table collection of string;¶s: string = input;¶emit t <- s;¶ => 0 t[] = "a"¶
< c¶a¶a¶
t: table collection of string;¶s: string = input;¶emit t <- s;¶ => 0 t[] = "a"¶t[] = "a"¶t[] = "c"¶
< 10¶9¶-1¶9¶
t: table collection of int; x: int = input; emit t <- x; => 0 t[] = -1¶t[] = 9¶t[] = 9¶t[] = 10¶
< ¶b¶ab¶é¶B¶¶
t: table collection of string;¶s: string = input;¶emit t <- s;¶ => 0 t[] = ""¶t[] = ""¶t[] = "B"¶t[] = "ab"¶t[] = "b"¶t[] = "é"¶

== a sum adds numbers, or tuples of numbers by their parts
t: table sum of {a: int, b: int}; x: int = input; emit t <- {x, 1}; => 0
< 7¶
t: table sum of {a: int, b: int}; x: int = input; emit t <- {x, 1}; => 0 t[] = {7, 1}¶
< 3¶-5¶
t: table sum of {a: int, b: int}; x: int = input; emit t <- {x, 1}; => 0 t[] = {-2, 2}¶
t: table sum of n: int; x: int = input; emit t <- x; => 0 t[] = -2¶
t: table sum of {a: int}; x: int = input; emit t <- {x}; => 0 t[] = {-2}¶
type P = {n: int, squares: int}; t: table sum[positive: bool] of P; x: int = input; emit t[x > 0] <- {1, x * x}; => 0 t[false] = {1, 25}¶t[true] = {1, 9}¶
< 9223372036854775807¶9223372036854775807¶
t: table sum of {a: int, b: int}; x: int = input; emit t <- {x, -x - 1}; => 0 t[] = {18446744073709551614, -18446744073709551616}¶
t: table sum[string] of int; x: int = input; emit t["up"] <- x; emit t["down"] <- -x - 1; => 0 t["down"] = -18446744073709551616¶t["up"] = 18446744073709551614¶

== a sum is found by its index list, however many bytes that has
< aaaaaaaaaaaaaaaaaaaaaaaaa¶aaaaaaaaaaaaaaaaaaaaaaaaaa¶aaaaaaaaaaaaaaaaaaaaaaaaa¶
c: table sum[string] of int; s: string = input; emit c[s] <- 1; => 0 c["aaaaaaaaaaaaaaaaaaaaaaaaa"] = 2¶c["aaaaaaaaaaaaaaaaaaaaaaaaaa"] = 1¶
$ [run p f --shard 1 --workers 2]
c: table sum[string] of int; s: string = input; emit c[s] <- 1; => 0 c["aaaaaaaaaaaaaaaaaaaaaaaaa"] = 2¶c["aaaaaaaaaaaaaaaaaaaaaaaaaa"] = 1¶

== a table to which nothing was emitted prints nothing
a: table sum of int; b: table maximum(1) of int weight int; c: table minimum(1) of int weight int; d: table set(1) of int; e: table collection of int;  => 0
a: table sum of int; b: table maximum(1) of int weight int; c: table minimum(1) of int weight int; d: table set(1) of int; e: table collection of int; x: int = input; emit a <- x; emit b <- 1 weight x; emit c <- x weight 1; emit d <- x; emit e <- x; => 0
< x¶¶
a: table sum of int; b: table maximum(1) of int weight int; c: table minimum(1) of int weight int; d: table set(1) of int; e: table collection of int;  => 0
a: table sum of int; b: table maximum(1) of int weight int; c: table minimum(1) of int weight int; d: table set(1) of int; e: table collection of int; x: int = input; emit a <- x; emit b <- 1 weight x; emit c <- x weight 1; emit d <- x; emit e <- x; => 0
a: table sum[int] of int; b: table collection[string][int] of int; x: int = input; emit a[x] <- 1; emit b["a"][x] <- 1; => 0
< x¶7¶
a: table sum of int; b: table maximum(1) of int weight int; c: table minimum(1) of int weight int; d: table set(1) of int; e: table collection of int; x: int = input; emit a <- x; emit b <- 1 weight x; emit c <- x weight 1; emit d <- x; emit e <- x; => 0 a[] = 7¶b[] = 1 weight 7¶c[] = 7 weight 1¶d[] = 7¶e[] = 7¶
a: table sum[int] of int; x: int = input; emit a[x] <- 1; emit a[1] <- x; => 0 a[1] = 7¶a[7] = 1¶

== tables stand in the order of their declarations, index lists in that of their values
< 1¶2¶
b: table collection of int; a: table sum of int; x: int = input; emit a <- x; emit b <- x; => 0 b[] = 1¶b[] = 2¶a[] = 3¶
< us 1¶us 1¶ 0¶
hits: table sum[country: string][hour: int] of int;¶line: string = input;¶blank: int = strfind(" ", line);¶hour: int = line[blank + 1:len(line)];¶emit hits[line[0:blank]][hour] <- 1;¶ => 0 hits[""][0] = 1¶hits["us"][1] = 2¶
< 10¶-1¶2¶10¶
c: table sum[int] of int; x: int = input; emit c[x] <- 1; => 0 c[-1] = 1¶c[2] = 1¶c[10] = 2¶
c: table sum[time] of int; x: int = input; emit c[time(x)] <- 1; => 0 c[-1] = 1¶c[2] = 1¶c[10] = 2¶
c: table sum[bool] of int; x: int = input; emit c[x > 2] <- x; => 0 c[false] = 1¶c[true] = 20¶
c: table collection[bool][int] of int; x: int = input; emit c[x > 0][x % 2] <- x; => 0 c[false][-1] = -1¶c[true][0] = 2¶c[true][0] = 10¶c[true][0] = 10¶
< b¶ab¶a¶¶B¶é¶
c: table sum[string] of int; s: string = input; emit c[s] <- 1; => 0 c[""] = 1¶c["B"] = 1¶c["a"] = 1¶c["ab"] = 1¶c["b"] = 1¶c["é"] = 1¶
< ba¶a¶b¶aaa¶a¶
c: table sum[word: string][length: int] of int; s: string = input; emit c[s[0:1]][len(s)] <- 1; => 0 c["a"][1] = 2¶c["a"][3] = 1¶c["b"][1] = 1¶c["b"][2] = 1¶
< \xff¶a"¶
c: table sum[bytes] of int; emit c[input] <- 1; => 0 c[B"a\""] = 1¶c[B"\xff"] = 1¶
< 2¶1¶
c: table sum[array of int] of int; x: int = input; emit c[{x, 1}] <- 1; emit c[{x}] <- 1; emit c[{}] <- 1; => 0 c[{}] = 2¶c[{1}] = 1¶c[{1, 1}] = 1¶c[{2}] = 1¶c[{2, 1}] = 1¶
< b¶a¶cc¶
c: table sum[{a: int, b: string}] of int; s: string = input; emit c[{len(s), s}] <- 1; => 0 c[{1, "a"}] = 1¶c[{1, "b"}] = 1¶c[{2, "cc"}] = 1¶
c: table sum[map[string] of int] of int; s: string = input; emit c[{s: 1}] <- 1; emit c[{:}] <- 1; => 0 c[{:}] = 3¶c[{"a": 1}] = 1¶c[{"b": 1}] = 1¶c[{"cc": 1}] = 1¶
m: table maximum(1)[length: int] of string weight int; s: string = input; emit m[len(s)] <- s weight s[0]; => 0 m[1] = "b" weight 98¶m[2] = "cc" weight 99¶
< ¶
c: table sum[string][int] of int; for (i := 15; i > 0; i--) { emit c["b"][i] <- 1; emit c["a"][-i] <- i; } => 0 c["a"][-15] = 15¶c["a"][-14] = 14¶c["a"][-13] = 13¶c["a"][-12] = 12¶c["a"][-11] = 11¶c["a"][-10] = 10¶c["a"][-9] = 9¶c["a"][-8] = 8¶c["a"][-7] = 7¶c["a"][-6] = 6¶c["a"][-5] = 5¶c["a"][-4] = 4¶c["a"][-3] = 3¶c["a"][-2] = 2¶c["a"][-1] = 1¶c["b"][1] = 1¶c["b"][2] = 1¶c["b"][3] = 1¶c["b"][4] = 1¶c["b"][5] = 1¶c["b"][6] = 1¶c["b"][7] = 1¶c["b"][8] = 1¶c["b"][9] = 1¶c["b"][10] = 1¶c["b"][11] = 1¶c["b"][12] = 1¶c["b"][13] = 1¶c["b"][14] = 1¶c["b"][15] = 1¶
c: table sum[int] of int; for (i := 1; i < 61; i++) emit c[i * 37 % 61] <- i; => 0 c[1] = 33¶c[2] = 5¶c[3] = 38¶c[4] = 10¶c[5] = 43¶c[6] = 15¶c[7] = 48¶c[8] = 20¶c[9] = 53¶c[10] = 25¶c[11] = 58¶c[12] = 30¶c[13] = 2¶c[14] = 35¶c[15] = 7¶c[16] = 40¶c[17] = 12¶c[18] = 45¶c[19] = 17¶c[20] = 50¶c[21] = 22¶c[22] = 55¶c[23] = 27¶c[24] = 60¶c[25] = 32¶c[26] = 4¶c[27] = 37¶c[28] = 9¶c[29] = 42¶c[30] = 14¶c[31] = 47¶c[32] = 19¶c[33] = 52¶c[34] = 24¶c[35] = 57¶c[36] = 29¶c[37] = 1¶c[38] = 34¶c[39] = 6¶c[40] = 39¶c[41] = 11¶c[42] = 44¶c[43] = 16¶c[44] = 49¶c[45] = 21¶c[46] = 54¶c[47] = 26¶c[48] = 59¶c[49] = 31¶c[50] = 3¶c[51] = 36¶c[52] = 8¶c[53] = 41¶c[54] = 13¶c[55] = 46¶c[56] = 18¶c[57] = 51¶c[58] = 23¶c[59] = 56¶c[60] = 28¶

== maps that grow: one is one index and one value, in whatever order it grew
< ¶
c: table sum[map[int] of int] of int; a: map[int] of int = {:}; b := a; for (i := 0; i < 260; i++) { a[i] = i % 10; b[259 - i] = (259 - i) % 10; } emit c[a] <- 1; emit c[b] <- 10; emit c[a] <- 100; => 0 c[{0: 0, 1: 1, 2: 2, 3: 3, 4: 4, 5: 5, 6: 6, 7: 7, 8: 8, 9: 9, 10: 0, 11: 1, 12: 2, 13: 3, 14: 4, 15: 5, 16: 6, 17: 7, 18: 8, 19: 9, 20: 0, 21: 1, 22: 2, 23: 3, 24: 4, 25: 5, 26: 6, 27: 7, 28: 8, 29: 9, 30: 0, 31: 1, 32: 2, 33: 3, 34: 4, 35: 5, 36: 6, 37: 7, 38: 8, 39: 9, 40: 0, 41: 1, 42: 2, 43: 3, 44: 4, 45: 5, 46: 6, 47: 7, 48: 8, 49: 9, 50: 0, 51: 1, 52: 2, 53: 3, 54: 4, 55: 5, 56: 6, 57: 7, 58: 8, 59: 9, 60: 0, 61: 1, 62: 2, 63: 3, 64: 4, 65: 5, 66: 6, 67: 7, 68: 8, 69: 9, 70: 0, 71: 1, 72: 2, 73: 3, 74: 4, 75: 5, 76: 6, 77: 7, 78: 8, 79: 9, 80: 0, 81: 1, 82: 2, 83: 3, 84: 4, 85: 5, 86: 6, 87: 7, 88: 8, 89: 9, 90: 0, 91: 1, 92: 2, 93: 3, 94: 4, 95: 5, 96: 6, 97: 7, 98: 8, 99: 9, 100: 0, 101: 1, 102: 2, 103: 3, 104: 4, 105: 5, 106: 6, 107: 7, 108: 8, 109: 9, 110: 0, 111: 1, 112: 2, 113: 3, 114: 4, 115: 5, 116: 6, 117: 7, 118: 8, 119: 9, 120: 0, 121: 1, 122: 2, 123: 3, 124: 4, 125: 5, 126: 6, 127: 7, 128: 8, 129: 9, 130: 0, 131: 1, 132: 2, 133: 3, 134: 4, 135: 5, 136: 6, 137: 7, 138: 8, 139: 9, 140: 0, 141: 1, 142: 2, 143: 3, 144: 4, 145: 5, 146: 6, 147: 7, 148: 8, 149: 9, 150: 0, 151: 1, 152: 2, 153: 3, 154: 4, 155: 5, 156: 6, 157: 7, 158: 8, 159: 9, 160: 0, 161: 1, 162: 2, 163: 3, 164: 4, 165: 5, 166: 6, 167: 7, 168: 8, 169: 9, 170: 0, 171: 1, 172: 2, 173: 3, 174: 4, 175: 5, 176: 6, 177: 7, 178: 8, 179: 9, 180: 0, 181: 1, 182: 2, 183: 3, 184: 4, 185: 5, 186: 6, 187: 7, 188: 8, 189: 9, 190: 0, 191: 1, 192: 2, 193: 3, 194: 4, 195: 5, 196: 6, 197: 7, 198: 8, 199: 9, 200: 0, 201: 1, 202: 2, 203: 3, 204: 4, 205: 5, 206: 6, 207: 7, 208: 8, 209: 9, 210: 0, 211: 1, 212: 2, 213: 3, 214: 4, 215: 5, 216: 6, 217: 7, 218: 8, 219: 9, 220: 0, 221: 1, 222: 2, 223: 3, 224: 4, 225: 5, 226: 6, 227: 7, 228: 8, 229: 9, 230: 0, 231: 1, 232: 2, 233: 3, 234: 4, 235: 5, 236: 6, 237: 7, 238: 8, 239: 9, 240: 0, 241: 1, 242: 2, 243: 3, 244: 4, 245: 5, 246: 6, 247: 7, 248: 8, 249: 9, 250: 0, 251: 1, 252: 2, 253: 3, 254: 4, 255: 5, 256: 6, 257: 7, 258: 8, 259: 9}] = 111¶
s: table set(1)[int] of map[int] of int; a: map[int] of int = {:}; b := a; for (i := 0; i < 260; i++) { a[i] = i % 10; b[259 - i] = (259 - i) % 10; } emit s[0] <- a; emit s[0] <- b; emit s[1] <- a; b[128] = 0; emit s[1] <- b; => 0 s[0] = {0: 0, 1: 1, 2: 2, 3: 3, 4: 4, 5: 5, 6: 6, 7: 7, 8: 8, 9: 9, 10: 0, 11: 1, 12: 2, 13: 3, 14: 4, 15: 5, 16: 6, 17: 7, 18: 8, 19: 9, 20: 0, 21: 1, 22: 2, 23: 3, 24: 4, 25: 5, 26: 6, 27: 7, 28: 8, 29: 9, 30: 0, 31: 1, 32: 2, 33: 3, 34: 4, 35: 5, 36: 6, 37: 7, 38: 8, 39: 9, 40: 0, 41: 1, 42: 2, 43: 3, 44: 4, 45: 5, 46: 6, 47: 7, 48: 8, 49: 9, 50: 0, 51: 1, 52: 2, 53: 3, 54: 4, 55: 5, 56: 6, 57: 7, 58: 8, 59: 9, 60: 0, 61: 1, 62: 2, 63: 3, 64: 4, 65: 5, 66: 6, 67: 7, 68: 8, 69: 9, 70: 0, 71: 1, 72: 2, 73: 3, 74: 4, 75: 5, 76: 6, 77: 7, 78: 8, 79: 9, 80: 0, 81: 1, 82: 2, 83: 3, 84: 4, 85: 5, 86: 6, 87: 7, 88: 8, 89: 9, 90: 0, 91: 1, 92: 2, 93: 3, 94: 4, 95: 5, 96: 6, 97: 7, 98: 8, 99: 9, 100: 0, 101: 1, 102: 2, 103: 3, 104: 4, 105: 5, 106: 6, 107: 7, 108: 8, 109: 9, 110: 0, 111: 1, 112: 2, 113: 3, 114: 4, 115: 5, 116: 6, 117: 7, 118: 8, 119: 9, 120: 0, 121: 1, 122: 2, 123: 3, 124: 4, 125: 5, 126: 6, 127: 7, 128: 8, 129: 9, 130: 0, 131: 1, 132: 2, 133: 3, 134: 4, 135: 5, 136: 6, 137: 7, 138: 8, 139: 9, 140: 0, 141: 1, 142: 2, 143: 3, 144: 4, 145: 5, 146: 6, 147: 7, 148: 8, 149: 9, 150: 0, 151: 1, 152: 2, 153: 3, 154: 4, 155: 5, 156: 6, 157: 7, 158: 8, 159: 9, 160: 0, 161: 1, 162: 2, 163: 3, 164: 4, 165: 5, 166: 6, 167: 7, 168: 8, 169: 9, 170: 0, 171: 1, 172: 2, 173: 3, 174: 4, 175: 5, 176: 6, 177: 7, 178: 8, 179: 9, 180: 0, 181: 1, 182: 2, 183: 3, 184: 4, 185: 5, 186: 6, 187: 7, 188: 8, 189: 9, 190: 0, 191: 1, 192: 2, 193: 3, 194: 4, 195: 5, 196: 6, 197: 7, 198: 8, 199: 9, 200: 0, 201: 1, 202: 2, 203: 3, 204: 4, 205: 5, 206: 6, 207: 7, 208: 8, 209: 9, 210: 0, 211: 1, 212: 2, 213: 3, 214: 4, 215: 5, 216: 6, 217: 7, 218: 8, 219: 9, 220: 0, 221: 1, 222: 2, 223: 3, 224: 4, 225: 5, 226: 6, 227: 7, 228: 8, 229: 9, 230: 0, 231: 1, 232: 2, 233: 3, 234: 4, 235: 5, 236: 6, 237: 7, 238: 8, 239: 9, 240: 0, 241: 1, 242: 2, 243: 3, 244: 4, 245: 5, 246: 6, 247: 7, 248: 8, 249: 9, 250: 0, 251: 1, 252: 2, 253: 3, 254: 4, 255: 5, 256: 6, 257: 7, 258: 8, 259: 9}¶s[1] = overflow¶
m: table maximum(1)[int] of map[int] of int weight int; a: map[int] of int = {:}; b := a; for (i := 0; i < 260; i++) { a[i] = i % 10; b[259 - i] = (259 - i) % 10; } emit m[0] <- a weight 1; emit m[0] <- b weight 1; b[260] = 0; emit m[0] <- b weight 1; emit m[0] <- {9: 0} weight 0; => 0 m[0] = {0: 0, 1: 1, 2: 2, 3: 3, 4: 4, 5: 5, 6: 6, 7: 7, 8: 8, 9: 9, 10: 0, 11: 1, 12: 2, 13: 3, 14: 4, 15: 5, 16: 6, 17: 7, 18: 8, 19: 9, 20: 0, 21: 1, 22: 2, 23: 3, 24: 4, 25: 5, 26: 6, 27: 7, 28: 8, 29: 9, 30: 0, 31: 1, 32: 2, 33: 3, 34: 4, 35: 5, 36: 6, 37: 7, 38: 8, 39: 9, 40: 0, 41: 1, 42: 2, 43: 3, 44: 4, 45: 5, 46: 6, 47: 7, 48: 8, 49: 9, 50: 0, 51: 1, 52: 2, 53: 3, 54: 4, 55: 5, 56: 6, 57: 7, 58: 8, 59: 9, 60: 0, 61: 1, 62: 2, 63: 3, 64: 4, 65: 5, 66: 6, 67: 7, 68: 8, 69: 9, 70: 0, 71: 1, 72: 2, 73: 3, 74: 4, 75: 5, 76: 6, 77: 7, 78: 8, 79: 9, 80: 0, 81: 1, 82: 2, 83: 3, 84: 4, 85: 5, 86: 6, 87: 7, 88: 8, 89: 9, 90: 0, 91: 1, 92: 2, 93: 3, 94: 4, 95: 5, 96: 6, 97: 7, 98: 8, 99: 9, 100: 0, 101: 1, 102: 2, 103: 3, 104: 4, 105: 5, 106: 6, 107: 7, 108: 8, 109: 9, 110: 0, 111: 1, 112: 2, 113: 3, 114: 4, 115: 5, 116: 6, 117: 7, 118: 8, 119: 9, 120: 0, 121: 1, 122: 2, 123: 3, 124: 4, 125: 5, 126: 6, 127: 7, 128: 8, 129: 9, 130: 0, 131: 1, 132: 2, 133: 3, 134: 4, 135: 5, 136: 6, 137: 7, 138: 8, 139: 9, 140: 0, 141: 1, 142: 2, 143: 3, 144: 4, 145: 5, 146: 6, 147: 7, 148: 8, 149: 9, 150: 0, 151: 1, 152: 2, 153: 3, 154: 4, 155: 5, 156: 6, 157: 7, 158: 8, 159: 9, 160: 0, 161: 1, 162: 2, 163: 3, 164: 4, 165: 5, 166: 6, 167: 7, 168: 8, 169: 9, 170: 0, 171: 1, 172: 2, 173: 3, 174: 4, 175: 5, 176: 6, 177: 7, 178: 8, 179: 9, 180: 0, 181: 1, 182: 2, 183: 3, 184: 4, 185: 5, 186: 6, 187: 7, 188: 8, 189: 9, 190: 0, 191: 1, 192: 2, 193: 3, 194: 4, 195: 5, 196: 6, 197: 7, 198: 8, 199: 9, 200: 0, 201: 1, 202: 2, 203: 3, 204: 4, 205: 5, 206: 6, 207: 7, 208: 8, 209: 9, 210: 0, 211: 1, 212: 2, 213: 3, 214: 4, 215: 5, 216: 6, 217: 7, 218: 8, 219: 9, 220: 0, 221: 1, 222: 2, 223: 3, 224: 4, 225: 5, 226: 6, 227: 7, 228: 8, 229: 9, 230: 0, 231: 1, 232: 2, 233: 3, 234: 4, 235: 5, 236: 6, 237: 7, 238: 8, 239: 9, 240: 0, 241: 1, 242: 2, 243: 3, 244: 4, 245: 5, 246: 6, 247: 7, 248: 8, 249: 9, 250: 0, 251: 1, 252: 2, 253: 3, 254: 4, 255: 5, 256: 6, 257: 7, 258: 8, 259: 9} weight 1¶

== values of every type are printed
< aéb¶
t: table collection of int;¶s: string = input;¶emit t <- len(s);¶emit t <- s[1];¶emit t <- strfind("b", s);¶emit t <- len(bytes(s));¶emit t <- s[9];¶ => 0 t[] = 2¶t[] = 3¶t[] = 4¶t[] = 233¶
< -7¶
t: table collection of int;¶x: int = input;¶emit t <- x / 2;¶emit t <- x % 2;¶emit t <- x / 0;¶emit t <- x << 64;¶ => 0 t[] = -3¶t[] = -1¶
< ¶
t: table collection of map[string] of int;¶m: map[string] of int = {"b": 2, "a": 1, "b": 3};¶m["c"] = 4;¶emit t <- m;¶ => 0 t[] = {"a": 1, "b": 3, "c": 4}¶
t: table collection of map[int] of string; emit t <- {2: "b", 1: "a"}; emit t <- {:}; => 0 t[] = {:}¶t[] = {1: "a", 2: "b"}¶
t: table collection of bool; emit t <- true; emit t <- false; => 0 t[] = false¶t[] = true¶
t: table collection of time; emit t <- time(10); emit t <- time(-1); => 0 t[] = -1¶t[] = 10¶
t: table collection of array of string; emit t <- {"a", "b"}; emit t <- {}; emit t <- {"a"}; => 0 t[] = {}¶t[] = {"a"}¶t[] = {"a", "b"}¶
t: table collection of {a: int, b: array of bool}; emit t <- {1, {true, false}}; emit t <- {1, {}}; => 0 t[] = {1, {}}¶t[] = {1, {true, false}}¶
s: table set(2) of {a: int, b: int}; emit s <- {2, 1}; emit s <- {1, 2}; emit s <- {2, 1}; => 0 s[] = {1, 2}¶s[] = {2, 1}¶
m: table maximum(2) of {k: string, v: map[string] of int} weight int; emit m <- {"a", {"b": 1}} weight 1; emit m <- {"a", {:}} weight 1; => 0 m[] = {"a", {:}} weight 1¶m[] = {"a", {"b": 1}} weight 1¶
t: table collection of bytes; emit t <- B"a\n\xff\u00e9"; emit t <- B""; => 0 t[] = B""¶t[] = B"a\n\xff\xc3\xa9"¶

== quotes, backslashes and bytes that control a device are printed as escapes
< a"b\c→d\x01\x7fé¶
t: table collection of string;¶s: string = input;¶emit t <- s;¶ => 0 t[] = "a\"b\\c\td\x01\x7fé"¶
t: table sum[string] of int; s: string = input; emit t[s] <- 1; => 0 t["a\"b\\c\td\x01\x7fé"] = 1¶
t: table collection of bytes; emit t <- input; => 0 t[] = B"a\"b\\c\td\x01\x7f\xc3\xa9"¶
t: table collection of string; emit t <- "\r\n\t\'\x1f ~"; => 0 t[] = "\r\n\t'\x1f ~"¶

== emits in functions and loops go to their tables
< 3¶
t: table collection of int; f: function(n: int): int { if (n > 0) { emit t <- n; return f(n - 1); } return 0; } x: int = input; y: int = f(x); => 0 t[] = 1¶t[] = 2¶t[] = 3¶
s: table set(2) of int; t: table sum[even: bool] of int; x: int = input; for (i: int = 0; i < x; i++) { emit s <- i % 2; emit t[i % 2 == 0] <- i; } => 0 s[] = 0¶s[] = 1¶t[false] = 1¶t[true] = 2¶

== an emit takes a tick and the weights of its parts
< ¶
$ [run p f --budget 10]
m: table maximum(1)[string] of string weight int; emit m["ab"] <- "c" weight 7; => 0 m["ab"] = "c" weight 7¶
$ [run p f --budget 9] => 3 ! record 1: budget passed at 1:51

== tables are judged by the rules of their kinds
$ [check p]
t: table quantile(101) of int; => 2 ! program: not in this profile: quantile at 1:10
t: table sample of int; => 2 ! program: not in this profile: sample at 1:10
t: table weightedsample of int; => 2 ! program: not in this profile: weightedsample at 1:10
t: table distinctsample of int; => 2 ! program: not in this profile: distinctsample at 1:10
t: table top of int; => 2 ! program: not in this profile: top at 1:10
t: table unique of int; => 2 ! program: not in this profile: unique at 1:10
t: table inversehistogram of int; => 2 ! program: not in this profile: inversehistogram at 1:10
t: table text of int; => 2 ! program: not in this profile: text at 1:10
t: table recordio of int; => 2 ! program: not in this profile: recordio at 1:10
t: table mrcounter of int; => 2 ! program: not in this profile: mrcounter at 1:10
t: table total of int; => 2 ! program: unknown name: total at 1:10
t: table map of int; => 2 ! program: syntax at 1:1
t: table sum[int] of int;¶emit t <- 1; => 2 ! program: wrong count at 2:6
t: table sum of int;¶emit t[1] <- 1; => 2 ! program: wrong count at 2:6
t: table sum[int][int] of int; emit t[1] <- 1; => 2 ! program: wrong count at 1:37
t: table sum[int] of int; emit t["a"] <- 1; => 2 ! program: wrong type at 1:34
t: table sum of {a: int, b: int}; emit t <- 1; => 2 ! program: wrong type at 1:45
t: table maximum(1) of int weight int; emit t <- 1 weight "a"; => 2 ! program: wrong type at 1:59
t: table maximum(1) of int weight int; emit t <- 1; => 2 ! program: wrong weight at 1:40
t: table collection of int; emit t <- 1 weight 1; => 2 ! program: wrong weight at 1:29
t: table maximum of int weight int; => 2 ! program: bad table at 1:10
t: table maximum(0) of int weight int; => 2 ! program: bad table at 1:10
t: table maximum(10001) of int weight int; => 2 ! program: bad table at 1:10
t: table maximum(2) of int; => 2 ! program: bad table at 1:10
t: table maximum(2) of int weight string; => 2 ! program: bad table at 1:10
t: table minimum of int weight int; => 2 ! program: bad table at 1:10
t: table minimum(10001) of int weight int; => 2 ! program: bad table at 1:10
t: table minimum(2) of int; => 2 ! program: bad table at 1:10
t: table set of int; => 2 ! program: bad table at 1:10
t: table set(0) of int; => 2 ! program: bad table at 1:10
t: table set(1000001) of int; => 2 ! program: bad table at 1:10
t: table set(2) of int weight int; => 2 ! program: bad table at 1:10
t: table collection(2) of int; => 2 ! program: bad table at 1:10
t: table collection of int weight int; => 2 ! program: bad table at 1:10
t: table sum(1) of int; => 2 ! program: bad table at 1:10
t: table sum of bool; => 2 ! program: bad table at 1:10
t: table sum of string; => 2 ! program: bad table at 1:10
t: table sum of {a: int, b: bool}; => 2 ! program: bad table at 1:10
t: table sum of array of int; => 2 ! program: bad table at 1:10
t: table sum of int weight int; => 2 ! program: bad table at 1:10
t: table maximum(10000) of int weight int; => 0
t: table minimum(1) of int weight time; => 0
t: table set(1000000) of int; => 0
t: table collection of map[string] of int; => 0
t: table sum[a: int][b: string][bool] of {x: int, y: int}; => 0
$ [run p f]
t: table quantile(101) of int; => 2 ! program: not in this profile: quantile at 1:10
t: table total of int; => 2 ! program: unknown name: total at 1:10
t: table map of int; => 2 ! program: syntax at 1:1
t: table sum[int] of int;¶emit t <- 1; => 2 ! program: wrong count at 2:6
t: table sum of int;¶emit t[1] <- 1; => 2 ! program: wrong count at 2:6
t: table maximum(1) of int weight int; emit t <- 1; => 2 ! program: wrong weight at 1:40
t: table collection of int; emit t <- 1 weight 1; => 2 ! program: wrong weight at 1:29
t: table maximum(2) of int; => 2 ! program: bad table at 1:10
t: table set of int; => 2 ! program: bad table at 1:10
t: table sum of bool; => 2 ! program: bad table at 1:10
t: table maximum(10000) of int weight int; => 0
t: table minimum(1) of int weight time; => 0
t: table set(1000000) of int; => 0
t: table collection of map[string] of int; => 0
t: table sum[a: int][b: string][bool] of {x: int, y: int}; => 0

== a table may have proto types where it may have tuples
t: table collection of proto {a: int @ 1}; => 0
t: table sum[int][proto {a: int @ 1}] of int; => 0
t: table sum of proto {a: int @ 1, b: int @ 2}; => 0
t: table sum of proto {a: int @ 1, b: time @ 2}; => 2 ! program: bad table at 1:10
t: table maximum(1) of int weight w: proto {a: int @ 1}; => 2 ! program: bad table at 1:10
t: table set(2) of x: array of proto {a: int @ 1}; => 0

== a log by tables of each kind
< us 1 /index 120¶de 1 /news 300¶us 1 /index 80¶fr 1 /index 95¶us 2 /news 450¶us 2 /index -¶de 3 /index 60¶de 3 /news 300¶
# Lines `country hour page bytes`: requests and bytes by country and hour.¶¶# The word with this number, counted from 0, of a line with a blank between two words; undefined where there are fewer.¶word: function(line: string, number: int): string {¶    blank: int = strfind(" ", line + " ");¶    if (number == 0) return line[0:blank];¶    return word(line[blank + 1:len(line)], number - 1);¶}¶¶hours: table sum[country: string][hour: int] of {requests: int, sent: int};¶¶line: string = input;¶hour: int = word(line, 1);¶sent: int = word(line, 3);¶¶if (!def(sent)) sent = 0;¶emit hours[word(line, 0)][hour] <- {1, sent};¶ => 0 hours["de"][1] = {1, 300}¶hours["de"][3] = {2, 360}¶hours["fr"][1] = {1, 95}¶hours["us"][1] = {2, 200}¶hours["us"][2] = {2, 450}¶
# Lines `country hour page bytes`: the three largest answers, by their bytes.¶¶# The word with this number, counted from 0, of a line with a blank between two words; undefined where there are fewer.¶word: function(line: string, number: int): string {¶    blank: int = strfind(" ", line + " ");¶    if (number == 0) return line[0:blank];¶    return word(line[blank + 1:len(line)], number - 1);¶}¶¶largest: table maximum(3) of {country: string, page: string} weight sent: int;¶¶line: string = input;¶sent: int = word(line, 3);¶emit largest <- {word(line, 0), word(line, 2)} weight sent;¶ => 0 largest[] = {"us", "/news"} weight 450¶largest[] = {"de", "/news"} weight 300¶largest[] = {"de", "/news"} weight 300¶
# Lines `country hour page bytes`: who asked for each page first.¶¶# The word with this number, counted from 0, of a line with a blank between two words; undefined where there are fewer.¶word: function(line: string, number: int): string {¶    blank: int = strfind(" ", line + " ");¶    if (number == 0) return line[0:blank];¶    return word(line[blank + 1:len(line)], number - 1);¶}¶¶first: table minimum(1)[page: string] of country: string weight hour: int;¶¶line: string = input;¶hour: int = word(line, 1);¶emit first[word(line, 2)] <- word(line, 0) weight hour;¶ => 0 first["/index"] = "fr" weight 1¶first["/news"] = "de" weight 1¶
# Lines `country hour page bytes`: the countries that asked for each page, or that there are more than two.¶¶# The word with this number, counted from 0, of a line with a blank between two words; undefined where there are fewer.¶word: function(line: string, number: int): string {¶    blank: int = strfind(" ", line + " ");¶    if (number == 0) return line[0:blank];¶    return word(line[blank + 1:len(line)], number - 1);¶}¶¶countries: table set(2)[page: string] of country: string;¶¶line: string = input;¶emit countries[word(line, 2)] <- word(line, 0);¶ => 0 countries["/index"] = overflow¶countries["/news"] = "de"¶countries["/news"] = "us"¶
# Lines `country hour page bytes`: those whose bytes are no number, as they are.¶¶# The word with this number, counted from 0, of a line with a blank between two words; undefined where there are fewer.¶word: function(line: string, number: int): string {¶    blank: int = strfind(" ", line + " ");¶    if (number == 0) return line[0:blank];¶    return word(line[blank + 1:len(line)], number - 1);¶}¶¶lines: table sum of int;¶unread: table collection of line: string;¶¶line: string = input;¶sent: int = word(line, 3);¶emit lines <- 1;¶if (!def(sent)) emit unread <- line;¶ => 0 lines[] = 8¶unread[] = "us 2 /index -"¶
"#;
