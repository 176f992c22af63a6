//! The table of the lines that an ignoring program passes over.
ghost use Rattle.std.specs.Prelude.{◌≡◌, length, OnOk, IfOk};
ghost use Rattle.sz_types.specs.SeenTables.{seen_table};
ghost use Rattle.sz_mean.specs.Marked.{table_of_lines, with_lines, counting_behind};

use std::alloc::Global;
use sz_gen_expr::small;
use sz_types::{TableDecl, TableDecls, TableKind, Text, Ty, Tys};
use sz_value::NoMemory;

/// Adds the table of lines, where the program is ignoring, and gives its number.
pub fn count_lines(
    alloc: Global,
    ignore: bool,
    tables: &mut TableDecls,
) -> Result<Option<u32>, NoMemory>
    ensures tables { OnOk result (tables.new ≡ with_lines ignore tables.old) }
    ensures number { IfOk result (λ number. number ≡ counting_behind ignore (length tables.old)) }
{
    if !ignore {
        return Ok(None);
    }
    let number = small(tables.len())?;
    let lines = table_of_lines(alloc)?;
    tables.push(lines)?;
    Ok(Some(number))
}

// The table of lines.
fn table_of_lines(alloc: Global) -> Result<TableDecl, NoMemory>
    ensures value { IfOk result (λ made. seen_table made ≡ table_of_lines) }
{
    let name = Text::from_str(alloc, "_undefs")?;
    let mut indexes = Tys::new(alloc);
    indexes.push(Ty::Int)?;
    Ok(TableDecl {
        name,
        kind: TableKind::Sum,
        limit: 0,
        indexes,
        element: Ty::Int,
        weight: None,
    })
}
