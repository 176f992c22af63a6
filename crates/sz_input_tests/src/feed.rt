//! What no clause says of the generated input: that files are made where there is memory, and files worked out by hand.
use std::alloc::Global;
use sz_feed::{MOST_RECORDS, feed};

// A seed, a number of records, and the file of them.
type Row = (u64, u32, &'static [u8]);

const ROWS: &[Row] = &[
    (5, 0, &[]),
    (1, 1, &[9, 0x0a, 2, b'f', b'r', 0x10, 17, 0x18, 0xb1, 2]),
    (
        1,
        3,
        &[
            9, 0x0a, 2, b'f', b'r', 0x10, 17, 0x18, 0xb1, 2, 9, 0x0a, 2, b'd', b'e', 0x10, 3, 0x18,
            0xb3, 6, 9, 0x0a, 2, b'u', b's', 0x10, 17, 0x18, 0xd8, 3,
        ],
    ),
    // A record that is no message: 224 is a multiple of 7.
    (2, 1, &[1, 8]),
    // A seed counts modulo 65,536.
    (65_538, 1, &[1, 8]),
];

fn rows() -> &'static [Row] {
    ROWS
}

// Whether the file of a seed is that of its row.
fn holds(alloc: Global, row: &Row) -> bool {
    let (seed, records, wanted) = *row;
    if records > MOST_RECORDS {
        return false;
    }
    match feed(alloc, seed, records) {
        Ok(file) => file.as_slice() == wanted,
        Err(_) => false,
    }
}

#[test]
fn seeds_have_their_files(rt: HostRuntime) {
    for row in rows() {
        let same = holds(rt.alloc(), row);
        assert!(rt; same, "at {}, {}", row.0, row.1);
    }
}
