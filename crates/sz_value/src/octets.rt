//! Byte strings inside values.
ghost use Rattle.std.specs.Prelude.{◌≡◌, ◌==◌, ℕ, List, length, IfOk};

use crate::NoMemory;
use std::alloc::Global;
use std::marker::Model;

/// The bytes of a byte string, which don't change once it is made.
///
/// Contracts see the list of its bytes.
#[derive(Debug)]
pub struct Octets {
    bytes: Vec<u8>,
}

impl Drop for Octets {
    fn drop(self) {
        let Octets { bytes: _ } = self;
    }
}

impl Model for Octets {
    ghost Value = { List ℕ };

    ghost view = { λ octets. octets.bytes.items };
}

impl Octets {
    /// Takes over the bytes, and takes no memory.
    pub fn from_vec(bytes: Vec<u8>) -> Octets
        ensures value { result ≡ bytes.items }
    {
        Octets { bytes }
    }

    /// A copy of the bytes.
    pub fn from_slice(alloc: Global, bytes: &[u8]) -> Result<Octets, NoMemory>
        ensures value { IfOk result (λ octets. octets ≡ bytes.now) }
    {
        let bytes = Vec::from_slice(alloc, bytes)?;
        Ok(Octets { bytes })
    }

    /// Hands the bytes over, which are not copied.
    pub fn into_vec(self) -> Vec<u8>
        ensures value { result.items ≡ self }
    {
        let Octets { bytes } = self;
        bytes
    }

    /// The bytes, in order.
    pub fn as_slice(&self) -> &[u8]
        ensures value { result.now ≡ self.now }
    {
        self.bytes.as_slice()
    }

    /// The number of bytes.
    pub fn len(&self) -> usize
        ensures value { result ≡ length self.now }
    {
        self.bytes.len()
    }

    /// Whether there are no bytes.
    pub fn is_empty(&self) -> bool
        ensures value { result ≡ (length self.now == 0) }
    {
        self.bytes.is_empty()
    }
}
