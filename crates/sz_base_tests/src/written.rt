//! Messages that protoc wrote, with the values that its Python library reads: made by tools/make/messages.

/// Types, the bytes of messages, and their values.
pub(crate) const ROWS: &str = "\
# fields that are zero aren't written
type 1 int 2 int 3 int 4 int 5 zigzag int 6 zigzag int 7 bool 8 int

=> {0, 0, 0, 0, 0, 0, false, 0}
# the same of fixed numbers, texts and bytes
type 1 int 2 int 3 int 4 int 5 int 6 int 7 string 8 bytes

=> {0, 0, 0, 0, 0, 0, '', x}
# varints of each type
type 1 int 2 int 3 int 4 int 5 zigzag int 6 zigzag int 7 bool 8 int
08 96 01 10 80 80 80 80 80 20 18 ff ff ff ff 0f 20 ff ff ff ff ff ff ff ff ff 01 28 01 30 95 01 38 01 40 ac 02
=> {150, 1099511627776, 4294967295, -1, -1, -75, true, 300}
# the least varint of each type
type 1 int 2 int 3 int 4 int 5 zigzag int 6 zigzag int 7 bool 8 int
08 80 80 80 80 f8 ff ff ff ff 01 10 80 80 80 80 80 80 80 80 80 01 18 01 20 01 28 ff ff ff ff 0f 30 ff ff ff ff ff ff ff
ff ff 01 40 ff ff ff ff ff ff ff ff ff 01
=> {-2147483648, -9223372036854775808, 1, 1, -2147483648, -9223372036854775808, false, -1}
# the greatest varint of each type
type 1 int 2 int 3 int 4 int 5 zigzag int 6 zigzag int 7 bool 8 int
08 ff ff ff ff 07 10 ff ff ff ff ff ff ff ff 7f 20 80 80 80 80 80 80 80 80 80 01 28 fe ff ff ff 0f 30 fe ff ff ff ff ff
ff ff ff 01
=> {2147483647, 9223372036854775807, 0, -9223372036854775808, 2147483647, 9223372036854775807, false, 0}
# of two messages one after another the last varints count
type 1 int 2 int 3 int 4 int 5 zigzag int 6 zigzag int 7 bool 8 int
08 96 01 10 80 80 80 80 80 20 18 ff ff ff ff 0f 20 ff ff ff ff ff ff ff ff ff 01 28 01 30 95 01 38 01 40 ac 02 08 ff ff
ff ff 07 10 ff ff ff ff ff ff ff ff 7f 20 80 80 80 80 80 80 80 80 80 01 28 fe ff ff ff 0f 30 fe ff ff ff ff ff ff ff ff
01
=> {2147483647, 9223372036854775807, 4294967295, -9223372036854775808, 2147483647, 9223372036854775807, true, 300}
# fixed numbers, floating-point numbers, a text and bytes
type 1 int 2 int 3 int 4 int 5 int 6 int 7 string 8 bytes
09 00 00 00 00 00 00 f8 3f 15 00 00 20 c0 1d ff ff ff ff 21 00 00 00 00 00 00 00 80 2d f9 ff ff ff 31 f8 ff ff ff ff ff
ff ff 3a 04 74 65 78 74 42 03 00 ff 80
=> {4609434218613702656, -1071644672, -1, -9223372036854775808, -7, -8, 'text', x00ff80}
# the least of them
type 1 int 2 int 3 int 4 int 5 int 6 int 7 string 8 bytes
09 00 00 00 00 00 00 00 80 15 00 00 00 80 1d 01 00 00 00 21 01 00 00 00 00 00 00 00 2d 00 00 00 80 31 00 00 00 00 00 00
00 80
=> {-9223372036854775808, -2147483648, 1, 1, -2147483648, -9223372036854775808, '', x}
# the greatest of them
type 1 int 2 int 3 int 4 int 5 int 6 int 7 string 8 bytes
09 00 00 00 00 00 00 f0 7f 15 00 00 80 7f 1d 00 00 00 80 21 ff ff ff ff ff ff ff ff 2d ff ff ff 7f 31 ff ff ff ff ff ff
ff 7f
=> {9218868437227405312, 2139095040, -2147483648, -1, 2147483647, 9223372036854775807, '', x}
# of two messages one after another the last ones count
type 1 int 2 int 3 int 4 int 5 int 6 int 7 string 8 bytes
09 00 00 00 00 00 00 f0 7f 15 00 00 80 7f 1d 00 00 00 80 21 ff ff ff ff ff ff ff ff 2d ff ff ff 7f 31 ff ff ff ff ff ff
ff 7f 09 00 00 00 00 00 00 f8 3f 15 00 00 20 c0 1d ff ff ff ff 21 00 00 00 00 00 00 00 80 2d f9 ff ff ff 31 f8 ff ff ff
ff ff ff ff 3a 04 74 65 78 74 42 03 00 ff 80
=> {4609434218613702656, -1071644672, -1, -9223372036854775808, -7, -8, 'text', x00ff80}
# packed varints
type 1 array int 2 array int 3 array int 4 array int 5 zigzag array int 6 zigzag array int 7 array bool 8 array int
0a 0b 00 ff ff ff ff ff ff ff ff ff 01 12 0c ac 02 d4 fd ff ff ff ff ff ff ff 01 1a 06 00 ff ff ff ff 0f 22 0b 01 ff ff
ff ff ff ff ff ff ff 01 2a 03 00 01 02 32 03 7f 80 01 3a 03 01 00 01 42 0c 01 ff ff ff ff ff ff ff ff ff 01 00
=> {[0, -1], [300, -300], [0, 4294967295], [1, -1], [0, -1, 1], [-64, 64], [true, false, true], [1, -1, 0]}
# varints that aren't packed
type 1 array int 2 array int 3 array int 4 array int 5 zigzag array int 6 zigzag array int 7 array bool 8 array int
08 00 08 ff ff ff ff ff ff ff ff ff 01 10 ac 02 10 d4 fd ff ff ff ff ff ff ff 01 18 00 18 ff ff ff ff 0f 20 01 20 ff ff
ff ff ff ff ff ff ff 01 28 00 28 01 28 02 30 7f 30 80 01 38 01 38 00 38 01 40 01 40 ff ff ff ff ff ff ff ff ff 01 40 00
=> {[0, -1], [300, -300], [0, 4294967295], [1, -1], [0, -1, 1], [-64, 64], [true, false, true], [1, -1, 0]}
# some packed and some not
type 1 array int 2 array int 3 array int 4 array int 5 zigzag array int 6 zigzag array int 7 array bool 8 array int
0a 0b 00 ff ff ff ff ff ff ff ff ff 01 12 0c ac 02 d4 fd ff ff ff ff ff ff ff 01 1a 06 00 ff ff ff ff 0f 22 0b 01 ff ff
ff ff ff ff ff ff ff 01 2a 03 00 01 02 32 03 7f 80 01 3a 03 01 00 01 42 0c 01 ff ff ff ff ff ff ff ff ff 01 00 28 0a 38
01 2a 02 0c 0e
=> {[0, -1], [300, -300], [0, 4294967295], [1, -1], [0, -1, 1, 5, 6, 7], [-64, 64], [true, false, true, true], [1, -1, 0]}
# no elements
type 1 array int 2 array int 3 array int 4 array int 5 zigzag array int 6 zigzag array int 7 array bool 8 array int

=> {[], [], [], [], [], [], [], []}
# packed fixed numbers, texts and bytes
type 1 fixed64 array int 2 fixed32 array int 3 fixed32 array int 4 fixed64 array int 5 fixed32 array int 6 fixed64 array int 7 array string 8 array bytes
0a 10 00 00 00 00 00 00 00 00 00 00 00 00 00 00 f0 3f 12 08 00 00 00 00 00 00 80 3f 1a 08 01 00 00 00 ff ff ff ff 22 10
01 00 00 00 00 00 00 00 ff ff ff ff ff ff ff ff 2a 08 01 00 00 00 ff ff ff ff 32 10 01 00 00 00 00 00 00 00 ff ff ff ff
ff ff ff ff 3a 00 3a 01 61 42 00 42 01 01
=> {[0, 4607182418800017408], [0, 1065353216], [1, -1], [1, -1], [1, -1], [1, -1], ['', 'a'], [x, x01]}
# fixed numbers that aren't packed
type 1 fixed64 array int 2 fixed32 array int 3 fixed32 array int 4 fixed64 array int 5 fixed32 array int 6 fixed64 array int 7 array string 8 array bytes
09 00 00 00 00 00 00 00 00 09 00 00 00 00 00 00 f0 3f 15 00 00 00 00 15 00 00 80 3f 1d 01 00 00 00 1d ff ff ff ff 21 01
00 00 00 00 00 00 00 21 ff ff ff ff ff ff ff ff 2d 01 00 00 00 2d ff ff ff ff 31 01 00 00 00 00 00 00 00 31 ff ff ff ff
ff ff ff ff
=> {[0, 4607182418800017408], [0, 1065353216], [1, -1], [1, -1], [1, -1], [1, -1], [], []}
# messages in a message
type 1 { 1 zigzag int 2 zigzag int } 2 { 1 zigzag int 2 zigzag int } 3 string
0a 04 08 02 10 01 12 03 08 d8 04 1a 02 61 62
=> {{1, -1}, {300, 0}, 'ab'}
# a message in two pieces
type 1 { 1 zigzag int 2 zigzag int } 2 { 1 zigzag int 2 zigzag int } 3 string
0a 04 08 02 10 01 12 03 08 d8 04 1a 02 61 62 0a 02 10 0a 12 02 10 0c
=> {{1, 5}, {300, 6}, 'ab'}
# lists of messages, empty ones too, and the greatest number of a field
type 1 string 2 array { 1 { 1 zigzag int 2 zigzag int } 2 { 1 zigzag int 2 zigzag int } 3 string } 5 array { 1 zigzag int 2 zigzag int } 536870911 bytes
0a 01 64 12 0f 0a 04 08 02 10 01 12 03 08 d8 04 1a 02 61 62 12 00 2a 02 08 04 2a 02 10 06 fa ff ff ff 0f 01 01
=> {'d', [{{1, -1}, {300, 0}, 'ab'}, {{0, 0}, {0, 0}, ''}], [{2, 0}, {0, 3}], x01}
# two drawings one after another
type 1 string 2 array { 1 { 1 zigzag int 2 zigzag int } 2 { 1 zigzag int 2 zigzag int } 3 string } 5 array { 1 zigzag int 2 zigzag int } 536870911 bytes
0a 01 64 12 0f 0a 04 08 02 10 01 12 03 08 d8 04 1a 02 61 62 12 00 2a 02 08 04 2a 02 10 06 fa ff ff ff 0f 01 01 0a 01 64
12 0f 0a 04 08 02 10 01 12 03 08 d8 04 1a 02 61 62 12 00 2a 02 08 04 2a 02 10 06 fa ff ff ff 0f 01 01
=> {'d', [{{1, -1}, {300, 0}, 'ab'}, {{0, 0}, {0, 0}, ''}, {{1, -1}, {300, 0}, 'ab'}, {{0, 0}, {0, 0}, ''}], [{2, 0}, {0, 3}, {2, 0}, {0, 3}], x01}
# letters beyond ASCII
type 1 string 2 array { 1 { 1 zigzag int 2 zigzag int } 2 { 1 zigzag int 2 zigzag int } 3 string } 5 array { 1 zigzag int 2 zigzag int } 536870911 bytes
0a 0a 61 c3 a9 e2 82 ac f0 9d 84 9e fa ff ff ff 0f 02 c3 a9
=> {'aé€𝄞', [], [], xc3a9}
# times
type 1 string 2 time 3 fixed64 array time
0a 01 65 10 80 80 f9 c0 c1 c4 82 03 1a 18 ff ff ff ff ff ff ff ff 00 00 00 00 00 00 00 00 05 00 00 00 00 00 00 00
=> {'e', @1700000000000000, [@-1, @0, @5]}
# maps are lists of messages
type 1 array { 1 string 2 int } 2 array { 1 int 2 { 1 zigzag int 2 zigzag int } } 3 array { 1 bool 2 bytes }
0a 05 0a 01 61 10 01 0a 0e 0a 01 62 10 ff ff ff ff ff ff ff ff ff 01 12 0f 08 ff ff ff ff ff ff ff ff ff 01 12 02 08 02
1a 05 08 01 12 01 6d
=> {[{'a', 1}, {'b', -1}], [{-1, {1, 0}}], [{true, x6d}]}
# one of several fields
type 1 int 2 string 3 { 1 zigzag int 2 zigzag int }
08 05
=> {5, '', {0, 0}}
# another one of them
type 1 int 2 string 3 { 1 zigzag int 2 zigzag int }
1a 02 10 02
=> {0, '', {0, 1}}
# varints that the type doesn't have
type 5 zigzag int
08 96 01 10 80 80 80 80 80 20 18 ff ff ff ff 0f 20 ff ff ff ff ff ff ff ff ff 01 28 01 30 95 01 38 01 40 ac 02
=> {-1}
# fixed numbers and bytes that the type doesn't have
type 7 string
09 00 00 00 00 00 00 f8 3f 15 00 00 20 c0 1d ff ff ff ff 21 00 00 00 00 00 00 00 80 2d f9 ff ff ff 31 f8 ff ff ff ff ff
ff ff 3a 04 74 65 78 74 42 03 00 ff 80
=> {'text'}
# lists that the type doesn't have
type 6 zigzag array int
0a 0b 00 ff ff ff ff ff ff ff ff ff 01 12 0c ac 02 d4 fd ff ff ff ff ff ff ff 01 1a 06 00 ff ff ff ff 0f 22 0b 01 ff ff
ff ff ff ff ff ff ff 01 2a 03 00 01 02 32 03 7f 80 01 3a 03 01 00 01 42 0c 01 ff ff ff ff ff ff ff ff ff 01 00
=> {[-64, 64]}
# the same, not packed
type 6 zigzag array int
08 00 08 ff ff ff ff ff ff ff ff ff 01 10 ac 02 10 d4 fd ff ff ff ff ff ff ff 01 18 00 18 ff ff ff ff 0f 20 01 20 ff ff
ff ff ff ff ff ff ff 01 28 00 28 01 28 02 30 7f 30 80 01 38 01 38 00 38 01 40 01 40 ff ff ff ff ff ff ff ff ff 01 40 00
=> {[-64, 64]}
# messages that the type doesn't have
type 2 { 1 zigzag int 2 zigzag int }
0a 04 08 02 10 01 12 03 08 d8 04 1a 02 61 62
=> {{300, 0}}
# a message in itself, down to the type's depth
type 1 zigzag int 2 { 1 zigzag int 2 { 1 zigzag int } }
08 02 12 0e 08 04 12 0a 08 06 12 06 08 08 12 02 08 0a
=> {1, {2, {3}}}
# groups, extensions and required fields
type 1 string 7 int 8 array { 1 string 2 int 3 fixed32 array int }
0a 01 71 13 1a 01 75 21 03 00 00 00 00 00 00 00 2b 30 01 2c 14 13 1a 01 76 14 38 02 42 0d 0a 01 72 1d 01 00 00 00 1d ff
ff ff ff 42 05 0a 01 73 10 09 a2 06 01 6e aa 06 03 0a 01 78
=> {'q', 2, [{'r', 0, [1, -1]}, {'s', 9, []}]}
# groups between two pieces of a message
type 1 string 7 int 8 array { 1 string 2 int 3 fixed32 array int }
0a 01 71 13 1a 01 75 21 03 00 00 00 00 00 00 00 2b 30 01 2c 14 13 1a 01 76 14 38 02 42 0d 0a 01 72 1d 01 00 00 00 1d ff
ff ff ff 42 05 0a 01 73 10 09 a2 06 01 6e aa 06 03 0a 01 78 0a 01 70 42 03 0a 01 74
=> {'p', 2, [{'r', 0, [1, -1]}, {'s', 9, []}, {'t', 0, []}]}
# protoc's own description of a file
type 1 array { 1 string 2 string 4 array { 1 string 2 array { 1 string 3 int 4 int 5 int 6 string 10 string } } 12 string }
0a 54 0a 0b 73 68 6f 72 74 2e 70 72 6f 74 6f 12 01 70 22 3a 0a 01 4d 12 0c 0a 01 61 18 01 20 01 28 05 52 01 61 12 14 0a
01 62 18 02 20 03 28 0b 32 06 2e 70 2e 4d 2e 4e 52 01 62 1a 11 0a 01 4e 12 0c 0a 01 63 18 03 20 01 28 08 52 01 63 62 06
70 72 6f 74 6f 33
=> {[{'short.proto', 'p', [{'M', [{'a', 1, 1, 5, '', 'a'}, {'b', 2, 3, 11, '.p.M.N', 'b'}]}], 'proto3'}]}";
