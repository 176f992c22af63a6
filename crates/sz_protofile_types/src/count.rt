//! How many fields there are in the types of messages.
ghost use Rattle.std.specs.Prelude.{◌≡◌, ◌≤◌, ℕ, List, map, sum, IfOk, OnOk, nat_le};
ghost use Rattle.indexmap.specs.IndexMap.{get_by_text};
ghost use Rattle.sz_protofile.specs.declared.scope.Scope.{Scope as Called};
ghost use Rattle.sz_protofile.specs.Types.{field_count, most_fields};
ghost use Rattle.sz_protofile_types.specs.Making.{type_in, made_of};
ghost use Rattle.sz_protofile_types.specs.Holding.{capped, counted, number_as, after_counted};

use crate::Ranks;
use indexmap::IndexMap;
use std::alloc::Global;
use sz_protofile::{FieldIn, Scope, Sort};
use sz_types::NoMemory;

// As many fields may the types of a file have together.
const MOST_FIELDS: usize = 100_000;

// Numbers of fields by the full names of messages.
type Counts = IndexMap<String, usize>;

// The number, and one more than there may be for each larger one.
fn capped(count: usize) -> usize
    ensures value { result ≡ capped count }
    ensures within { result ≤ 100001 }
{
    if count > MOST_FIELDS {
        MOST_FIELDS + 1
    } else {
        count
    }
}

// The number of fields of a message.
fn count_of(counts: &Counts, name: &str) -> usize
    ensures value { result ≡ counted (get_by_text counts.now name.now) }
    ensures within { result ≤ 100001 }
{
    capped(counts.get(name).copied().unwrap_or(0))
}

// How many fields a field adds to its message's type.
fn added_by(ranks: &Ranks, counts: &Counts, field: &FieldIn) -> usize
    ensures value { result ≡ number_as ranks.now (λ m. counted (get_by_text counts.now m)) field.now field.now.sort }
    ensures within { result ≤ 100002 }
{
    match &field.sort {
        Sort::Unkept => 0,
        Sort::Kept(_) => 1,
        Sort::Message(target) => {
            if ranks.rank(target.as_str()) < ranks.rank(field.owner.as_str()) {
                count_of(counts, target.as_str()) + 1
            } else {
                0
            }
        }
    }
}

// Counts a field, and what is in its type.
fn count_field(
    alloc: Global,
    ranks: &Ranks,
    counts: &mut Counts,
    field: &FieldIn,
) -> Result<(), NoMemory>
    ensures ok { OnOk result ((m : List ℕ) → counted (get_by_text counts.new m)
        ≡ after_counted ranks.now (λ m. counted (get_by_text counts.old m)) field.now m) }
{
    let owner = field.owner.as_str();
    let count = capped(count_of(counts, owner) + added_by(ranks, counts, field));
    counts.insert(String::from_str(alloc, owner)?, count)?;
    Ok(())
}

// Counts the fields, by rising ranks of the messages in which they stand.
fn count_fields(alloc: Global, ranks: &Ranks, fields: &[FieldIn]) -> Result<Counts, NoMemory>
    ensures value { IfOk result (λ counts. (m : List ℕ) → counted (get_by_text counts m)
        ≡ capped (field_count (type_in (made_of ranks.now fields.now) m))) }
{
    let mut counts = IndexMap::new(alloc);
    for field in fields {
        count_field(alloc, ranks, &mut counts, field)?;
    }
    Ok(counts)
}

// The number of fields of all these messages.
fn total(counts: &Counts, messages: &[Scope]) -> usize
    ensures value { result ≡ capped (sum (map (λ (s : Called). counted (get_by_text counts.now s.full)) messages.now)) }
{
    let mut total = 0;
    for message in messages {
        total = capped(total + count_of(counts, message.full.as_str()));
    }
    total
}

// Whether the types of these messages have no more fields together than a file's may have.
pub(crate) fn are_few(
    alloc: Global,
    ranks: &Ranks,
    fields: &[FieldIn],
    messages: &[Scope],
) -> Result<bool, NoMemory>
    ensures value { IfOk result (λ few. few ≡ nat_le (sum (map (λ (s : Called). field_count (type_in (made_of ranks.now fields.now) s.full)) messages.now))
        most_fields) }
{
    let counts = count_fields(alloc, ranks, fields)?;
    Ok(total(&counts, messages) <= MOST_FIELDS)
}
