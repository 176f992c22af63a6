//! Hashes of names, by which nearly all names that a file doesn't have are passed over before they are written out.
ghost use Rattle.std.specs.Prelude.{◌≡◌, [], IfOk, OnOk, codes, map};
ghost use Rattle.std.specs.String.{string_bytes};
ghost use Rattle.sz_protofile.specs.Names.{put_after};
ghost use Rattle.sz_protofile_names.specs.Hashes.{hash_with, hash_on, hash_of, with_hash, with_hashes};

use indexmap::IndexSet;
use std::alloc::Global;
use sz_types::NoMemory;

// Hashes, each once.
pub type Hashes = IndexSet<u64>;

// The hash with a byte more.
fn hash_with(hash: u64, byte: u8) -> u64
    ensures value { result ≡ hash_with hash byte }
{
    hash.wrapping_mul(11400714819323198485)
        .wrapping_add(byte as u64)
}

// The hash of a text behind one that has this hash.
fn hash_on(hash: u64, text: &[u8]) -> u64
    ensures value { result ≡ hash_on hash text.now }
{
    let mut all = hash;
    for byte in text {
        all = hash_with(all, *byte);
    }
    all
}

// The hash of a text.
pub fn hash_of(text: &str) -> u64
    ensures value { result ≡ hash_of text.now }
{
    hash_on(0, text.as_bytes())
}

// The hash of a name behind others, which have this hash, with a dot between if there are any.
pub fn hash_put_after(before: &str, hash: u64, name: &str) -> u64
    requires hashed { hash ≡ hash_of before.now }
    ensures value { result ≡ hash_of (put_after (codes ".") before.now name.now) }
{
    if before.is_empty() {
        return hash_of(name);
    }
    hash_on(hash_with(hash, b'.'), name.as_bytes())
}

// Takes the hash.
fn take_hash(hashes: &mut Hashes, hash: u64) -> Result<(), NoMemory>
    ensures ok { OnOk result (hashes.new.keys ≡ with_hash hashes.old.keys hash) }
{
    hashes.insert(hash)?;
    Ok(())
}

// The hashes of the names.
pub fn hashes_of(alloc: Global, names: &[String]) -> Result<Hashes, NoMemory>
    ensures value { IfOk result (λ hashes. hashes.keys ≡ with_hashes [] (map string_bytes names.now)) }
{
    let mut hashes = IndexSet::new(alloc);
    for name in names {
        take_hash(&mut hashes, hash_of(name.as_str()))?;
    }
    Ok(hashes)
}
