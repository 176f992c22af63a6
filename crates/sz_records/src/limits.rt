//! What a file may hold.

/// What a file may hold at most.
#[derive(Clone, Copy, Debug, PartialEq, Eq)]
pub struct FrameLimits {
    /// The bytes of a record, without its length or its newline.
    pub record_bytes: u64,
    /// The number of records.
    pub records: u64,
    /// The bytes of the file, lengths and newlines included.
    pub input_bytes: u64,
}

impl FrameLimits {
    /// 4 MiB a record, 2^31 records, 2^40 bytes in all.
    pub const FULL: FrameLimits = FrameLimits {
        record_bytes: 4_194_304,
        records: 2_147_483_648,
        input_bytes: 1_099_511_627_776,
    };
}
