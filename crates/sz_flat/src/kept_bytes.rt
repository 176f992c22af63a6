//! Bytes that are kept in place where they are few.
ghost use Rattle.std.specs.Prelude.{◌≡◌, [], IfOk, OnOk, OnErr};
ghost use Rattle.sz_value.specs.Data.{data_of};
ghost use Rattle.sz_flat.specs.Spelling.{HaveShortLengths};
ghost use Rattle.sz_flat.specs.Lists.{SpellsAll};

use crate::NoMemory;
use crate::short_bytes::{MOST, ShortBytes};
use crate::storage::Storage;
use crate::writing::spell_anew;
use std::alloc::Global;
use std::marker::Model;
use sz_value::List;

// The bytes of a list of values. A copy keeps few bytes in place, and takes memory only for more: most keys of tables are short, and a
// table may have a million of them. What values are spelled into is a block, which keeps its room for the next ones.
//
// Contracts see the list of the bytes.
pub(crate) struct KeptBytes {
    alloc: Global,
    storage: Storage,
}

impl Drop for KeptBytes {
    fn drop(self) {
        let KeptBytes {
            alloc: _,
            storage: _,
        } = self;
    }
}

impl Model for KeptBytes {
    ghost use Rattle.std.specs.Prelude.{ℕ, List};
    ghost use Rattle.sz_flat.specs.Storage.{bytes_of};

    ghost Value = { List ℕ };

    ghost view = { λ kept. bytes_of kept.storage };
}

impl KeptBytes {
    // No bytes, which take no memory.
    pub(crate) fn new(alloc: Global) -> KeptBytes
        ensures value { result ≡ [] }
    {
        KeptBytes {
            alloc,
            storage: Storage::Long(Vec::new(alloc)),
        }
    }

    // A copy of the bytes, with room for no others.
    pub(crate) fn copied(alloc: Global, bytes: &[u8]) -> Result<KeptBytes, NoMemory>
        ensures value { IfOk result (λ kept. kept ≡ bytes.now) }
    {
        let storage = if bytes.len() <= MOST {
            Storage::Short(ShortBytes::copied(bytes))
        } else {
            Storage::Long(Vec::from_slice(alloc, bytes)?)
        };
        Ok(KeptBytes { alloc, storage })
    }

    // The bytes.
    pub(crate) fn as_slice(&self) -> &[u8]
        ensures value { result.now ≡ self.now }
    {
        match &self.storage {
            Storage::Short(bytes) => bytes.as_slice(),
            Storage::Long(bytes) => bytes.as_slice(),
        }
    }

    // Spells the values in the stead of its own bytes, into the room that it keeps for the next ones. Where there is no memory, there
    // are no bytes.
    pub(crate) fn spell(&mut self, values: &List) -> Result<(), NoMemory>
        requires short { HaveShortLengths (data_of values.now) }
        ensures ok { OnOk result (SpellsAll self.new values.now) }
        ensures err { OnErr result (self.new ≡ []) }
    {
        match &mut self.storage {
            Storage::Long(bytes) => spell_anew(values, bytes),
            Storage::Short(_) => {
                let mut bytes = Vec::new(self.alloc);
                let spelled = spell_anew(values, &mut bytes);
                self.storage = Storage::Long(bytes);
                spelled
            }
        }
    }
}
