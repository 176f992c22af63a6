//! How a call of the program ends.
ghost use Rattle.std.specs.Prelude.{◌≡◌};
ghost use Rattle.szl.specs.Failing.{code_of};

/// The exit statuses 0 to 16, in order. Where no device failed, each but that of want of memory comes exactly where it says; the first that does
/// is answered, in this order: the words, the `.proto` file, the program, its statics, the journal, the records, the end of the input; or after the
/// words the files to be joined, one by one.
#[derive(Clone, Copy, Debug, PartialEq, Eq)]
pub enum Status {
    /// All text was written, if there is any, and each file was read to its end.
    Done,
    /// The words are no command line.
    Usage,
    /// The program is refused.
    Program,
    /// More records fault than may be passed over, and no shard up to the one with the first too many is lost; or a static faults.
    RecordFault,
    /// No shard decides, and the input is damaged where a record would begin.
    Damaged,
    /// A file couldn't be opened or read. It comes only where the count of faults of the files rose.
    ReadFailed,
    /// The text couldn't be written, or not all of it. It comes only where the count of faults of the output rose.
    WriteFailed,
    /// All attempts on a shard died, and no shard before it decides.
    ShardLost,
    /// There was not enough memory. It may come at any call.
    NoMemory,
    /// No shard decides, and the input passes a limit where a record would begin; or a file to be joined has more than 2^40 bytes.
    Limit,
    /// A file to be joined holds no saved tables.
    BadTables,
    /// A file to be joined holds tables that are declared otherwise than those of the first.
    OtherTables,
    /// The bounds of the files to be joined are together more than 2^63.
    TablesLimit,
    /// The `.proto` file is refused.
    BadProtoFile,
    /// The journal is that of another job.
    OtherJob,
    /// The journal is damaged, or the input is shorter than what the journal has of it.
    JournalDamaged,
    /// The disk of the journal failed. It comes only where its count of faults rose.
    DiskFailed,
}

impl Status {
    /// The number of the status, from 0.
    pub fn code(self) -> u8
        ensures value { result ≡ code_of self }
    {
        self as u8
    }
}
