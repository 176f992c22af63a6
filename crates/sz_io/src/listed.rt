//! The calls of a device in memory that are to fail.
ghost use Rattle.std.specs.Prelude.{◌≡◌};
ghost use Rattle.sz_io.specs.Listed.{is_listed};

/// Whether the call of this number is to fail. The last number stands for all calls from there on, and these succeed.
pub fn is_listed(fails: &[u64], call: u64) -> bool
    ensures { result ≡ is_listed fails.now call }
{
    fails.contains(&call) && call < u64::MAX
}
