//! Jobs and rounds as bytes, and bytes that are none, each with what is in it.

use sz_journal::Triple;
use sz_types::Frame;

/// A job, and its bytes.
pub(crate) struct JobRow {
    pub(crate) what: &'static str,
    pub(crate) frame: Frame,
    pub(crate) shard: u32,
    pub(crate) attempts: u32,
    pub(crate) budget: u64,
    pub(crate) ignoring: bool,
    pub(crate) skip: u32,
    pub(crate) kills: &'static [Triple],
    pub(crate) doubled: &'static [u32],
    pub(crate) program: &'static [u8],
    pub(crate) proto: &'static [u8],
    pub(crate) bytes: &'static [u8],
}

const JOBS: &[JobRow] = &[
    JobRow {
        what: "one attempt that dies, one shard with two tickets, and no file of types",
        frame: Frame::Lines,
        shard: 1,
        attempts: 2,
        budget: 16_777_216,
        ignoring: false,
        skip: 0,
        kills: &[Triple {
            shard: 0,
            number: 0,
            after: 0,
        }],
        doubled: &[1],
        program: b"c",
        proto: b"",
        bytes: &[
            83, 90, 74, 79, 66, 48, 48, 49, 0, 0, 0, 0, 1, 0, 0, 0, 2, 0, 0, 0, 0, 1, 0, 0, 0, 0,
            0, 0, 0, 0, 0, 0, 0, 1, 0, 0, 0, 0, 0, 0, 0, 0, 0, 0, 0, 0, 0, 0, 0, 1, 0, 0, 0, 1, 0,
            0, 0, 0, 0, 0, 0, 1, 99, 0, 0, 0, 0, 0, 0, 0, 0,
        ],
    },
    JobRow {
        what: "lengths before records, and all that a command line may ask for",
        frame: Frame::Delimited,
        shard: 65_536,
        attempts: 8,
        budget: 4_294_967_296,
        ignoring: true,
        skip: 1_000,
        kills: &[
            Triple {
                shard: 1,
                number: 2,
                after: 3,
            },
            Triple {
                shard: 256,
                number: 0,
                after: 65_537,
            },
        ],
        doubled: &[],
        program: b"",
        proto: b"ab",
        bytes: &[
            83, 90, 74, 79, 66, 48, 48, 49, 1, 0, 1, 0, 0, 0, 0, 0, 8, 0, 0, 0, 1, 0, 0, 0, 0, 1,
            0, 0, 3, 232, 0, 0, 0, 2, 0, 0, 0, 1, 0, 0, 0, 2, 0, 0, 0, 3, 0, 0, 1, 0, 0, 0, 0, 0,
            0, 1, 0, 1, 0, 0, 0, 0, 0, 0, 0, 0, 0, 0, 0, 0, 0, 0, 0, 0, 0, 0, 0, 2, 97, 98,
        ],
    },
    JobRow {
        what: "numbers that no command line may have",
        frame: Frame::Lines,
        shard: 0,
        attempts: 0,
        budget: 18_446_744_073_709_551_615,
        ignoring: false,
        skip: 4_294_967_295,
        kills: &[],
        doubled: &[7, 7],
        program: b"",
        proto: b"",
        bytes: &[
            83, 90, 74, 79, 66, 48, 48, 49, 0, 0, 0, 0, 0, 0, 0, 0, 0, 255, 255, 255, 255, 255,
            255, 255, 255, 0, 255, 255, 255, 255, 0, 0, 0, 0, 0, 0, 0, 2, 0, 0, 0, 7, 0, 0, 0, 7,
            0, 0, 0, 0, 0, 0, 0, 0, 0, 0, 0, 0, 0, 0, 0, 0,
        ],
    },
];

// Bytes that are those of no job, with what is wrong with them.
const NO_JOBS: &[(&str, &[u8])] = &[
    ("no bytes", &[]),
    (
        "another mark",
        &[
            83, 90, 74, 79, 66, 48, 48, 50, 0, 0, 0, 0, 1, 0, 0, 0, 1, 0, 0, 0, 0, 0, 0, 0, 1, 0,
            0, 0, 0, 0, 0, 0, 0, 0, 0, 0, 0, 0, 0, 0, 0, 0, 0, 0, 0, 0, 0, 0, 0, 0, 0, 0, 0, 0,
        ],
    ),
    (
        "a frame of 2",
        &[
            83, 90, 74, 79, 66, 48, 48, 49, 2, 0, 0, 0, 1, 0, 0, 0, 1, 0, 0, 0, 0, 0, 0, 0, 1, 0,
            0, 0, 0, 0, 0, 0, 0, 0, 0, 0, 0, 0, 0, 0, 0, 0, 0, 0, 0, 0, 0, 0, 0, 0, 0, 0, 0, 0,
        ],
    ),
    (
        "a truth value of 2",
        &[
            83, 90, 74, 79, 66, 48, 48, 49, 0, 0, 0, 0, 1, 0, 0, 0, 1, 0, 0, 0, 0, 0, 0, 0, 1, 2,
            0, 0, 0, 0, 0, 0, 0, 0, 0, 0, 0, 0, 0, 0, 0, 0, 0, 0, 0, 0, 0, 0, 0, 0, 0, 0, 0, 0,
        ],
    ),
    (
        "more attempts that die than there are bytes",
        &[
            83, 90, 74, 79, 66, 48, 48, 49, 0, 0, 0, 0, 1, 0, 0, 0, 1, 0, 0, 0, 0, 0, 0, 0, 1, 0,
            0, 0, 0, 0, 255, 255, 255, 255, 0, 0, 0, 0, 0, 0, 0, 0, 0, 0, 0, 0, 0, 0, 0, 0, 0, 0,
            0, 0,
        ],
    ),
    (
        "a program that is longer than the bytes",
        &[
            83, 90, 74, 79, 66, 48, 48, 49, 0, 0, 0, 0, 1, 0, 0, 0, 1, 0, 0, 0, 0, 0, 0, 0, 1, 0,
            0, 0, 0, 0, 0, 0, 0, 0, 0, 0, 0, 0, 255, 255, 255, 255, 255, 255, 255, 255, 0, 0, 0, 0,
            0, 0, 0, 0,
        ],
    ),
    (
        "a byte behind the file of types",
        &[
            83, 90, 74, 79, 66, 48, 48, 49, 0, 0, 0, 0, 1, 0, 0, 0, 1, 0, 0, 0, 0, 0, 0, 0, 1, 0,
            0, 0, 0, 0, 0, 0, 0, 0, 0, 0, 0, 0, 0, 0, 0, 0, 0, 0, 0, 0, 0, 0, 0, 0, 0, 0, 0, 0, 0,
        ],
    ),
];

/// A round: its numbers, and its bytes.
pub(crate) struct RoundRow {
    pub(crate) what: &'static str,
    pub(crate) next_shard: u64,
    pub(crate) records: u64,
    pub(crate) next_byte: u64,
    pub(crate) passed: u32,
    pub(crate) bytes: &'static [u8],
}

const ROUNDS: &[RoundRow] = &[
    RoundRow {
        what: "one record, of a sum of one emit under a bound of 16",
        next_shard: 1,
        records: 1,
        next_byte: 2,
        passed: 0,
        bytes: &[
            0, 0, 0, 0, 0, 0, 0, 1, 0, 0, 0, 0, 0, 0, 0, 1, 0, 0, 0, 0, 0, 0, 0, 2, 0, 0, 0, 0, 83,
            90, 84, 65, 66, 76, 69, 49, 0, 0, 0, 0, 0, 0, 0, 16, 0, 0, 0, 1, 0, 0, 0, 1, 99, 0, 0,
            0, 0, 0, 0, 0, 0, 0, 2, 0, 0, 0, 0, 0, 0, 0, 0, 1, 0, 0, 0, 1, 0, 0, 0, 0, 0, 0, 0, 0,
            0, 0, 0, 0, 0, 0, 0, 1,
        ],
    },
    RoundRow {
        what: "numbers of all bytes, and no tables",
        next_shard: 72_623_859_790_382_856,
        records: 18_446_744_073_709_551_615,
        next_byte: 0,
        passed: 67_305_985,
        bytes: &[
            1, 2, 3, 4, 5, 6, 7, 8, 255, 255, 255, 255, 255, 255, 255, 255, 0, 0, 0, 0, 0, 0, 0, 0,
            4, 3, 2, 1, 83, 90, 84, 65, 66, 76, 69, 49, 0, 0, 0, 0, 0, 0, 0, 0, 0, 0, 0, 0,
        ],
    },
];

pub(crate) fn jobs() -> &'static [JobRow] {
    JOBS
}

pub(crate) fn no_jobs() -> &'static [(&'static str, &'static [u8])] {
    NO_JOBS
}

pub(crate) fn rounds() -> &'static [RoundRow] {
    ROUNDS
}
