//! Numbers and texts, appended to bytes.
ghost use Rattle.std.specs.Prelude.{◌≡◌, ◌++◌, length, flat_map, OnOk};
ghost use Rattle.sz_flat.specs.Spelling.{length_bytes};
ghost use Rattle.sz_save_format.specs.Entries.{count_bytes};
ghost use Rattle.sz_journal.specs.Jobs.{triple_bytes, kills_bytes, doubled_bytes, text_bytes};

use crate::NoMemory;
use crate::job::Triple;

// Appends a number in 4 bytes.
pub(crate) fn put_short(number: u32, out: &mut Vec<u8>) -> Result<(), NoMemory>
    ensures value { OnOk result (out.new.items ≡ out.old.items ++ length_bytes number) }
{
    out.extend_from_slice(&number.to_be_bytes())?;
    Ok(())
}

// Appends a number in 8 bytes.
pub(crate) fn put_count(number: u64, out: &mut Vec<u8>) -> Result<(), NoMemory>
    ensures value { OnOk result (out.new.items ≡ out.old.items ++ count_bytes number) }
{
    out.extend_from_slice(&number.to_be_bytes())?;
    Ok(())
}

// Appends a text behind its length.
pub(crate) fn put_text(text: &[u8], out: &mut Vec<u8>) -> Result<(), NoMemory>
    ensures value { OnOk result (out.new.items ≡ out.old.items ++ text_bytes text.now) }
{
    put_count(text.len() as u64, out)?;
    out.extend_from_slice(text)?;
    Ok(())
}

// Appends a length in 4 bytes: the low ones of its 8.
#[tactic(auto, using(crate::proofs::PutLemmas::low_bytes))]
fn put_length(length: usize, out: &mut Vec<u8>) -> Result<(), NoMemory>
    ensures value { OnOk result (out.new.items ≡ out.old.items ++ length_bytes length) }
{
    let bytes = (length as u64).to_be_bytes();
    out.extend_from_slice(&bytes[4..])?;
    Ok(())
}

// Appends kills behind their number.
pub(crate) fn put_kills(kills: &[Triple], out: &mut Vec<u8>) -> Result<(), NoMemory>
    ensures value { OnOk result (out.new.items ≡ out.old.items ++ kills_bytes kills.now) }
{
    put_length(kills.len(), out)?;
    put_triples(kills, out)
}

fn put_triples(kills: &[Triple], out: &mut Vec<u8>) -> Result<(), NoMemory>
    ensures value { OnOk result (out.new.items ≡ out.old.items ++ flat_map triple_bytes kills.now) }
{
    for kill in kills {
        put_triple(kill, out)?;
    }
    Ok(())
}

fn put_triple(kill: &Triple, out: &mut Vec<u8>) -> Result<(), NoMemory>
    ensures value { OnOk result (out.new.items ≡ out.old.items ++ triple_bytes kill.now) }
{
    put_short(kill.shard, out)?;
    put_short(kill.number, out)?;
    put_short(kill.after, out)
}

// Appends numbers of shards behind their number.
pub(crate) fn put_doubled(shards: &[u32], out: &mut Vec<u8>) -> Result<(), NoMemory>
    ensures value { OnOk result (out.new.items ≡ out.old.items ++ doubled_bytes shards.now) }
{
    put_length(shards.len(), out)?;
    put_shards(shards, out)
}

fn put_shards(shards: &[u32], out: &mut Vec<u8>) -> Result<(), NoMemory>
    ensures value { OnOk result (out.new.items ≡ out.old.items ++ flat_map length_bytes shards.now) }
{
    for shard in shards {
        put_short(*shard, out)?;
    }
    Ok(())
}
