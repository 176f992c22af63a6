//! Inputs of several pieces and rounds, too long for a row.
use crate::command::{NEVER, PLAIN, Setting, left};
use std::alloc::Global;
use std::process::Abort;
use std::sync::Wait;
use std::test::Fail;
use std::thread::Threads;
use sz_io::NoMemory;

/// A run over an input in which one part stands so often, between two others.
struct Stream {
    words: &'static str,
    program: &'static str,
    front: &'static str,
    part: &'static str,
    count: u32,
    later: &'static str,
    /// The number of the call on the input that fails: 0 opens it, and the reads follow.
    fails: u64,
    left: &'static str,
}

/// A program that counts the records above 0, and faults on those that are no number.
const COUNT: &str = "c: table sum of int;\nx: int = input;\nif (x > 0) emit c <- 1;";

/// A program that adds up the lengths of the records.
const LENGTHS: &str = "c: table sum of int; s: string = input; emit c <- len(s);";

/// A run over lines with the number 1, whose input never fails. A row says how many lines there are, and what differs.
const ONES: Stream = Stream {
    words: "run p f",
    program: COUNT,
    front: "",
    part: "1\n",
    count: 0,
    later: "",
    fails: NEVER,
    left: "0 ",
};

/// 65,536 bytes are read at once, and 4,096 shards are a round.
const STREAMS: &[Stream] = &[
    // A round that decides is run before the next piece is read.
    Stream {
        words: "run p f --shard 1",
        front: "\n",
        count: 100_000,
        fails: 2,
        left: "3 ! record 1: undefined value used at 3:1",
        ..ONES
    },
    Stream {
        words: "run p f --shard 1 --attempts 1 --kill 34000.0.0",
        count: 100_000,
        fails: 3,
        left: "7 ! shard 34000 lost",
        ..ONES
    },
    // Where none decides, or the round isn't full, the next piece is needed.
    Stream {
        words: "run p f --shard 1",
        count: 40_000,
        later: "x\n1\n",
        fails: 3,
        left: "5 ! read failed",
        ..ONES
    },
    Stream {
        words: "run p f --shard 1",
        count: 100_000,
        fails: 2,
        left: "5 ! read failed",
        ..ONES
    },
    Stream {
        words: "run p f --shard 1",
        count: 100_000,
        fails: 4,
        left: "5 ! read failed",
        ..ONES
    },
    // An attempt that dies in a later round is made again, a doubled shard counts once, and one that is lost has its number.
    Stream {
        words: "run p f --shard 1 --kill 5000.0.0",
        count: 100_000,
        left: "0 c[] = 100000¶",
        ..ONES
    },
    Stream {
        words: "run p f --shard 1 --twice 4095,4096,40000 --workers 2",
        count: 50_000,
        left: "0 c[] = 50000¶",
        ..ONES
    },
    Stream {
        words: "run p f --shard 1 --attempts 1 --kill 9000.0.0",
        count: 40_000,
        later: "x\n",
        left: "7 ! shard 9000 lost",
        ..ONES
    },
    Stream {
        words: "run p f --shard 1",
        count: 40_000,
        later: "x\n",
        left: "3 ! record 40001: undefined value used at 3:1",
        ..ONES
    },
    // Records lie across pieces, and so does a last line without its end.
    Stream {
        words: "run p f",
        part: "12345\n",
        count: 50_000,
        later: "1",
        left: "0 c[] = 50001¶",
        ..ONES
    },
    Stream {
        words: "run p f --shard 7",
        program: LENGTHS,
        part: "123\r\n",
        count: 60_000,
        later: "12345",
        left: "0 c[] = 240005¶",
        ..ONES
    },
    // A record is longer than a piece.
    Stream {
        words: "run p f",
        program: LENGTHS,
        front: "a\n",
        part: "a",
        count: 200_000,
        later: "\na",
        fails: NEVER,
        left: "0 c[] = 200002¶",
    },
    // The input is damaged, or passes a limit, after several rounds.
    Stream {
        words: "run p f --frame delimited --shard 1",
        part: "\u{1}1",
        count: 40_000,
        later: "\u{5}ab",
        left: "4 ! input damaged at byte 80000",
        ..ONES
    },
    Stream {
        words: "run p f --frame delimited --shard 1",
        front: "\u{1}x",
        part: "\u{1}1",
        count: 40_000,
        later: "\u{5}ab",
        left: "3 ! record 1: undefined value used at 3:1",
        ..ONES
    },
    Stream {
        words: "run p f --shard 4",
        front: "1\n",
        part: "1",
        count: 4_194_305,
        later: "\n1\n",
        left: "9 ! input limit at byte 2",
        ..ONES
    },
    // Records that are passed over count from round to round: the last one of a round, the first of the next, and one of a later round.
    Stream {
        words: "run p f --shard 1 --skip 1",
        count: 4_095,
        later: "x\nx\n1\n",
        left: "3 ! record 4097: undefined value used at 3:1",
        ..ONES
    },
    Stream {
        words: "run p f --shard 1 --skip 2 --workers 8",
        count: 4_095,
        later: "x\nx\n1\n",
        left: "0 c[] = 4096¶",
        ..ONES
    },
    Stream {
        words: "run p f --shard 1 --skip 0",
        count: 4_095,
        later: "x\nx\n1\n",
        left: "3 ! record 4096: undefined value used at 3:1",
        ..ONES
    },
    Stream {
        words: "run p f --shard 1 --skip 2 --twice 0,4095,40000",
        front: "x\n",
        count: 40_000,
        later: "x\nx\n",
        left: "3 ! record 40003: undefined value used at 3:1",
        ..ONES
    },
    Stream {
        words: "run p f --shard 1 --skip 3 --twice 0,4095,40001",
        front: "x\n",
        count: 40_000,
        later: "x\nx\n",
        left: "0 c[] = 40000¶",
        ..ONES
    },
    // A shard that is lost in a later round decides after records that were passed over, and not after one too many.
    Stream {
        words: "run p f --shard 1 --skip 2 --attempts 1 --kill 9000.0.0",
        front: "x\nx\n",
        count: 40_000,
        later: "x\n",
        left: "7 ! shard 9000 lost",
        ..ONES
    },
    Stream {
        words: "run p f --shard 1 --skip 1 --attempts 1 --kill 9000.0.0",
        front: "x\nx\n",
        count: 40_000,
        later: "x\n",
        left: "3 ! record 2: undefined value used at 3:1",
        ..ONES
    },
    // No more than 1,000 are passed over. All the records of a shard, and of several, may fault.
    Stream {
        words: "run p f --skip 1000",
        part: "\n",
        count: 1_000,
        later: "1\n",
        left: "0 c[] = 1¶",
        ..ONES
    },
    Stream {
        words: "run p f --skip 1000",
        part: "\n",
        count: 1_001,
        later: "1\n",
        left: "3 ! record 1001: undefined value used at 3:1",
        ..ONES
    },
    Stream {
        words: "run p f --shard 1 --skip 1000 --workers 8",
        part: "\n",
        count: 1_001,
        later: "1\n",
        left: "3 ! record 1001: undefined value used at 3:1",
        ..ONES
    },
    Stream {
        words: "run p f --shard 7 --skip 999 --workers 8",
        front: "1\n",
        part: "\n",
        count: 1_000,
        later: "1\n",
        left: "3 ! record 1001: undefined value used at 3:1",
        ..ONES
    },
    Stream {
        words: "run p f --shard 300 --skip 1000 --workers 3",
        front: "1\n",
        part: "\n",
        count: 1_000,
        later: "1\n",
        left: "0 c[] = 2¶",
        ..ONES
    },
    // One too many ends the run before the next piece is read; as many as may be passed over don't.
    Stream {
        words: "run p f --shard 1 --skip 1",
        front: "\n\n",
        count: 100_000,
        fails: 2,
        left: "3 ! record 2: undefined value used at 3:1",
        ..ONES
    },
    Stream {
        words: "run p f --shard 1 --skip 2",
        front: "\n\n",
        count: 100_000,
        fails: 2,
        left: "5 ! read failed",
        ..ONES
    },
    Stream {
        words: "run p f --skip 1",
        front: "x\n",
        part: "1",
        count: 4_194_305,
        later: "\n1\n",
        left: "9 ! input limit at byte 2",
        ..ONES
    },
];

/// The runs. A call gives them, so that no proof sees them.
fn streams() -> &'static [Stream] {
    STREAMS
}

/// The input of a run.
fn input_of(alloc: Global, stream: &Stream) -> Result<String, NoMemory> {
    let mut input = String::from_str(alloc, stream.front)?;
    for _ in 0..stream.count {
        input.push_str(stream.part)?;
    }
    input.push_str(stream.later)?;
    Ok(input)
}

/// Whether a run leaves what it says.
fn holds<R: Threads + Wait + Sync>(rt: &R, alloc: Global, stream: &Stream) -> Result<bool, Fail> {
    let input = input_of(alloc, stream)?;
    let given = Setting {
        program: "",
        words: stream.words,
        input: input.as_str(),
        proto: "",
        input_fails: stream.fails,
        ..PLAIN
    };
    Ok(left(rt, alloc, &given, stream.program.as_bytes())?.as_str() == stream.left)
}

/// Fails where a run leaves something else than it says.
fn all_hold<R: Abort + Threads + Wait + Sync>(rt: &R, alloc: Global) -> Result<(), Fail> {
    for stream in streams() {
        assert!(rt;
            holds(rt, alloc, stream)?,
            "{} of {}",
            stream.words,
            stream.count
        );
    }
    Ok(())
}

#[test]
fn an_input_of_several_pieces_leaves_what_it_says(rt: HostRuntime) -> Result<(), Fail> {
    all_hold(&rt, rt.alloc())
}
