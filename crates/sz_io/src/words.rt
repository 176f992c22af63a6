//! Which words of a command line name a file.
ghost use Rattle.std.specs.Prelude.{◌≡◌};
ghost use Rattle.sz_io.specs.Words.{is_dashed, is_file_name};

/// Whether a word names a file: it isn't empty, and doesn't begin with `-` unless it is `-`, which is standard input.
pub fn is_file_name(word: &[u8]) -> bool
    ensures value { result ≡ is_file_name word.now }
{
    word.len() > 0 && !is_dashed(word)
}

// Whether the word begins with `-` and goes on.
fn is_dashed(word: &[u8]) -> bool
    ensures value { result ≡ is_dashed word.now }
{
    word.len() > 1 && word[0] == b'-'
}
