//! What stands between parts.
ghost use Rattle.std.specs.Prelude.{◌≡◌, ◌++◌, OnOk};
ghost use Rattle.sz_print.specs.Joined.{comma_before};

use sz_value::NoMemory;

// Appends a comma and a blank in front of each part but the first. Places are counted from 0.
pub(crate) fn push_comma(at: usize, out: &mut Vec<u8>) -> Result<(), NoMemory>
    ensures value { OnOk result (out.new.items ≡ out.old.items ++ comma_before at) }
{
    if at > 0 {
        out.extend_from_slice(b", ")?;
    }
    Ok(())
}
