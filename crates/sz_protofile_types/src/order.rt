//! An order of fields in which types can be made.
ghost use Rattle.std.specs.Prelude.{IfOk};
ghost use Rattle.sz_protofile_types.specs.Making.{IsInOrder};

use crate::Ranks;
use sz_protofile::FieldIn;
use sz_types::NoMemory;

// The fields by rising ranks of the messages in which they stand, of each message in their order.
pub(crate) fn in_order(fields: Vec<FieldIn>, ranks: &Ranks) -> Result<Vec<FieldIn>, NoMemory>
    ensures value { IfOk result (λ ordered. IsInOrder ranks.now fields.items ordered.items) }
{
    let mut ordered = fields;
    ordered.sort_by_cached_key(|field| ranks.rank(field.owner.as_str()))?;
    Ok(ordered)
}
