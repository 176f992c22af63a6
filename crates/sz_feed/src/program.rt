//! The program that goes with generated files.
ghost use Rattle.std.specs.Prelude.{◌≡◌};
ghost use Rattle.sz_feed.specs.Program.{program_text};

/// A program over the messages of a generated file, which are delimited: it counts the queries of each country, keeps the
/// three slowest and collects the hours.
pub const PROGRAM: &str =
    "type Query = proto { country: string @ 1, hour: int @ 2, micros: int @ 3 };
q: Query = input;
queries: table sum[country: string] of int;
slow: table maximum(3) of string weight micros: int;
hours: table set(24) of int;
emit queries[q.country] <- 1;
emit slow <- q.country weight q.micros;
emit hours <- q.hour;
";

/// The bytes of the program.
#[tactic(auto, unfolding(crate::specs::Program::program_text))]
pub fn program_bytes() -> &'static [u8]
    ensures value { result.now ≡ program_text }
    ensures constant { PROGRAM.now ≡ program_text }
{
    PROGRAM.as_bytes()
}
