//! Few bytes, which are kept in place.
ghost use Rattle.std.specs.Prelude.{◌≡◌, ◌≤◌, length};

use std::marker::Model;

// The most bytes that are kept in place. With a byte that counts them and one that tells that they are in place they take 32 bytes, as do the
// address, the length and the room of a block with a mark that tells it.
pub(crate) const MOST: usize = 30;

// At most so many bytes, in place. They take no memory.
//
// Contracts see the list of the bytes.
pub(crate) struct ShortBytes {
    count: u8,
    places: [u8; MOST],
}

impl Drop for ShortBytes {
    fn drop(self) {
        let ShortBytes {
            count: _,
            places: _,
        } = self;
    }
}

impl Model for ShortBytes {
    ghost use Rattle.std.specs.Prelude.{ℕ, List, ◌≤◌, take};
    ghost use Rattle.sz_flat.specs.declared.short_bytes.TheConstants.{MOST};

    ghost Value = { List ℕ };

    ghost view = { λ short. take short.count short.places };

    ghost invariant = { λ short. short.count ≤ MOST };
}

impl ShortBytes {
    // A copy of the bytes.
    pub(crate) fn copied(bytes: &[u8]) -> ShortBytes
        requires few { length bytes.now ≤ MOST }
        ensures value { result ≡ bytes.now }
    {
        let mut places = [0; MOST];
        places[..bytes.len()].copy_from_slice(bytes);
        ShortBytes {
            count: bytes.len() as u8,
            places,
        }
    }

    // The bytes.
    pub(crate) fn as_slice(&self) -> &[u8]
        ensures value { result.now ≡ self.now }
    {
        &self.places[..self.count as usize]
    }
}
