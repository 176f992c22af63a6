//! The lines of the rows of a table under one index list.
ghost use Rattle.std.specs.Prelude.{◌≡◌, ◌++◌, map, OnOk};
ghost use Rattle.std.specs.Fmt.{signed_decimal};
ghost use Rattle.std.specs.List.{flat_map};
ghost use Rattle.sz_types.specs.Seen as types;
ghost use Rattle.sz_types.specs.SeenTables.{seen_table};
ghost use Rattle.sz_value.specs.Seen.{seen};
ghost use Rattle.sz_tabs.specs.Seen.{seen_shown};
ghost use Rattle.sz_print.specs.Joined.{joined};
ghost use Rattle.sz_print.specs.Lines.{is_number, shown_text, sums_text, weight_text, indexes_text, index_text, row_line, row_lines};

use crate::comma::push_comma;
use crate::number::push_number;
use crate::value::push_value;
use sz_tabs::{NoMemory, Row, RowValue, Rows};
use sz_types::{TableDecl, Ty};
use sz_value::{List, Value};

/// Appends a line for each row of the table under the index list.
pub fn push_rows(
    table: &TableDecl,
    indexes: &List,
    rows: &Rows,
    out: &mut Vec<u8>,
) -> Result<(), NoMemory>
    ensures value { OnOk result (out.new.items ≡ out.old.items ++ row_lines (seen_table table.now) indexes.now rows.now) }
{
    push_each_row(table, indexes.as_slice(), rows.as_slice(), out)
}

// Appends a line for each row.
fn push_each_row(
    table: &TableDecl,
    indexes: &[Value],
    rows: &[Row],
    out: &mut Vec<u8>,
) -> Result<(), NoMemory>
    ensures value { OnOk result (out.new.items ≡ out.old.items ++ row_lines (seen_table table.now) (map seen indexes.now) rows.now) }
{
    for row in rows {
        push_row(table, indexes, row, out)?;
    }
    Ok(())
}

// Appends the line of a row.
fn push_row(
    table: &TableDecl,
    indexes: &[Value],
    row: &Row,
    out: &mut Vec<u8>,
) -> Result<(), NoMemory>
    ensures value { OnOk result (out.new.items ≡ out.old.items ++ row_line (seen_table table.now) (map seen indexes.now) row.now) }
{
    out.extend_from_slice(table.name.as_str().as_bytes())?;
    push_indexes(indexes, out)?;
    out.extend_from_slice(b" = ")?;
    push_shown(&table.element, &row.value, out)?;
    push_weight(row.weight, out)?;
    out.push(b'\n')?;
    Ok(())
}

// Appends the indexes, each in brackets, or a pair of brackets where there is none.
fn push_indexes(indexes: &[Value], out: &mut Vec<u8>) -> Result<(), NoMemory>
    ensures value { OnOk result (out.new.items ≡ out.old.items ++ indexes_text (map seen indexes.now)) }
{
    if indexes.is_empty() {
        out.extend_from_slice(b"[]")?;
        return Ok(());
    }
    push_each_index(indexes, out)
}

// Appends each index in brackets.
fn push_each_index(indexes: &[Value], out: &mut Vec<u8>) -> Result<(), NoMemory>
    ensures value { OnOk result (out.new.items ≡ out.old.items ++ flat_map index_text (map seen indexes.now)) }
{
    for index in indexes {
        out.push(b'[')?;
        push_value(index, out)?;
        out.push(b']')?;
    }
    Ok(())
}

// Appends what a row shows.
fn push_shown(element: &Ty, shown: &RowValue, out: &mut Vec<u8>) -> Result<(), NoMemory>
    ensures value { OnOk result (out.new.items ≡ out.old.items ++ shown_text (types.seen element.now) (seen_shown shown.now)) }
{
    match shown {
        RowValue::One(value) => push_value(value, out),
        RowValue::Sums(sums) => push_sums(element, sums.as_slice(), out),
        RowValue::Overflow => {
            out.extend_from_slice(b"overflow")?;
            Ok(())
        }
    }
}

// Appends the sum of a table of numbers, or the sums by component in braces.
fn push_sums(element: &Ty, sums: &[i128], out: &mut Vec<u8>) -> Result<(), NoMemory>
    ensures value { OnOk result (out.new.items ≡ out.old.items ++ sums_text (types.seen element.now) sums.now) }
{
    if is_number(element) {
        return push_numbers(sums, out);
    }
    out.push(b'{')?;
    push_numbers(sums, out)?;
    out.push(b'}')?;
    Ok(())
}

// Appends the numbers with a comma between them.
fn push_numbers(numbers: &[i128], out: &mut Vec<u8>) -> Result<(), NoMemory>
    ensures value { OnOk result (out.new.items ≡ out.old.items ++ joined signed_decimal numbers.now) }
{
    for (at, number) in numbers.iter().enumerate() {
        push_comma(at, out)?;
        push_number(*number, out)?;
    }
    Ok(())
}

// Whether the elements are numbers, and not tuples of them.
fn is_number(element: &Ty) -> bool
    ensures value { result ≡ is_number (types.seen element.now) }
{
    match element {
        Ty::Int => true,
        Ty::Bool
        | Ty::Time
        | Ty::Str
        | Ty::Bytes
        | Ty::Array(_)
        | Ty::Map(_, _)
        | Ty::Tuple(_)
        | Ty::Proto(_) => false,
    }
}

// Appends the weight, if there is one.
fn push_weight(weight: Option<i64>, out: &mut Vec<u8>) -> Result<(), NoMemory>
    ensures value { OnOk result (out.new.items ≡ out.old.items ++ weight_text weight) }
{
    let Some(weight) = weight else {
        return Ok(());
    };
    out.extend_from_slice(b" weight ")?;
    push_number(i128::from(weight), out)
}
