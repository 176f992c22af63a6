//! The words that a program is called with.

use std::alloc::{Alloc, AllocError, Global};
use std::env::{self, Env};
use std::io;

/// The words of the command line without the program's name. Words of which one isn't UTF-8 are given as no words, which are no command line.
pub fn given_words<R: Env + Alloc<A = Global>>(rt: &R) -> Result<Vec<String>, AllocError> {
    let mut words = Vec::new(rt.alloc());
    match env::args(rt) {
        Ok(given) => {
            for word in given.skip(1) {
                words.push(word)?;
            }
        }
        Err(error) if error.kind() == io::ErrorKind::OutOfMemory => return Err(AllocError),
        Err(_) => {}
    }
    Ok(words)
}
