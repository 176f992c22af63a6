//! The text of values, of lines of rows, and of all tables.
ghost use Rattle.std.specs.Prelude.{◌≡◌, ◌∷◌, [], ◌<◌, ◌^◌, All, length};
ghost use Rattle.sz_types.specs.Data.{Shape};
ghost use Rattle.sz_total.specs.Weights.{HaveTheirWeights};

use crate::totals::{Dealt, add_dealt, declarations};
use std::alloc::Global;
use std::test::Fail;
use sz_flat::{FlatError, from_flat};
use sz_print::{push_rows, push_value, text};
use sz_tabs::{NoMemory, Row, RowValue, Rows, Sums};
use sz_total::Total;
use sz_types::{Fields, TableDecl, TableDecls, TableKind, Text, Ty, Tys};
use sz_value::{List, Value};

// Values, spelled as bytes, and their text.
const VALUES: &[(&[u8], &str)] = &[
    (&[1, 0], "false"),
    (&[1, 1], "true"),
    (&[2, 0, 0, 0, 0, 0, 0, 0, 0], "0"),
    (&[2, 0, 0, 0, 0, 0, 0, 0, 42], "42"),
    (&[2, 255, 255, 255, 255, 255, 255, 255, 255], "-1"),
    (&[2, 0x80, 0, 0, 0, 0, 0, 0, 0], "-9223372036854775808"),
    (
        &[2, 0x7f, 255, 255, 255, 255, 255, 255, 255],
        "9223372036854775807",
    ),
    (&[3, 0, 0, 0, 0, 0, 0, 0, 9], "9"),
    (&[4, 0, 0, 0, 0], "\"\""),
    (&[4, 0, 0, 0, 1, 0x61], "\"a\""),
    (&[4, 0, 0, 0, 2, 0xc3, 0xa9], "\"é\""),
    (&[4, 0, 0, 0, 2, b'"', b'\\'], "\"\\\"\\\\\""),
    (&[4, 0, 0, 0, 3, 10, 9, 13], "\"\\n\\t\\r\""),
    (
        &[4, 0, 0, 0, 5, 0, 1, 31, 127, 32],
        "\"\\x00\\x01\\x1f\\x7f \"",
    ),
    (&[5, 0, 0, 0, 0], "B\"\""),
    (
        &[5, 0, 0, 0, 5, 0x61, 0x80, 0xff, 0x7f, 10],
        "B\"a\\x80\\xff\\x7f\\n\"",
    ),
    (&[6, 0, 0, 0, 0], "{}"),
    (
        &[6, 0, 0, 0, 2, 1, 1, 6, 0, 0, 0, 1, 1, 0],
        "{true, {false}}",
    ),
    (&[7, 0, 0, 0, 2, 1, 1, 4, 0, 0, 0, 1, 0x61], "{true, \"a\"}"),
    (&[8, 0, 0, 0, 0], "{:}"),
    (
        &[8, 0, 0, 0, 2, 1, 0, 1, 1, 1, 1, 1, 0],
        "{false: true, true: false}",
    ),
];

fn values() -> &'static [(&'static [u8], &'static str)] {
    VALUES
}

// The text of the value that these bytes spell.
fn printed(alloc: Global, flat: &[u8]) -> Result<Vec<u8>, FlatError> {
    let value = from_flat(alloc, flat)?;
    let text = text_of_value(alloc, &value);
    drop(value);
    text
}

fn text_of_value(alloc: Global, value: &Value) -> Result<Vec<u8>, FlatError> {
    let mut out = Vec::new(alloc);
    push_value(value, &mut out)?;
    Ok(out)
}

// Whether this is the text of the value that these bytes spell.
fn is_printed(alloc: Global, flat: &[u8], want: &str) -> bool {
    match printed(alloc, flat) {
        Ok(out) => out.as_slice() == want.as_bytes(),
        Err(_) => false,
    }
}

#[test]
fn values_have_their_text(rt: HostRuntime) -> Result<(), Fail> {
    for (flat, want) in values() {
        let same = is_printed(rt.alloc(), flat, want);
        assert!(rt; same, "at {want}");
    }
    Ok(())
}

// What a row shows: a value, spelled as bytes, sums, or that its set is full.
enum Shown {
    One(&'static [u8]),
    Sums(&'static [i128]),
    Overflow,
}

// A row of a table of numbers or of tuples, its index list, and its line.
struct Line {
    of_tuples: bool,
    indexes: &'static [&'static [u8]],
    shown: Shown,
    weight: Option<i64>,
    want: &'static str,
}

const LINES: &[Line] = &[
    Line {
        of_tuples: false,
        indexes: &[],
        shown: Shown::Sums(&[3]),
        weight: None,
        want: "t[] = 3\n",
    },
    Line {
        of_tuples: false,
        indexes: &[&[4, 0, 0, 0, 1, 0x61], &[1, 1]],
        shown: Shown::Sums(&[-36_893_488_147_419_103_232]),
        weight: None,
        want: "t[\"a\"][true] = -36893488147419103232\n",
    },
    Line {
        of_tuples: true,
        indexes: &[],
        shown: Shown::Sums(&[]),
        weight: None,
        want: "t[] = {}\n",
    },
    Line {
        of_tuples: true,
        indexes: &[&[6, 0, 0, 0, 0]],
        shown: Shown::Sums(&[1, -2, 18_446_744_073_709_551_616]),
        weight: None,
        want: "t[{}] = {1, -2, 18446744073709551616}\n",
    },
    Line {
        of_tuples: false,
        indexes: &[],
        shown: Shown::One(&[4, 0, 0, 0, 1, 10]),
        weight: None,
        want: "t[] = \"\\n\"\n",
    },
    Line {
        of_tuples: false,
        indexes: &[&[8, 0, 0, 0, 0]],
        shown: Shown::One(&[8, 0, 0, 0, 0]),
        weight: Some(-7),
        want: "t[{:}] = {:} weight -7\n",
    },
    Line {
        of_tuples: true,
        indexes: &[],
        shown: Shown::Overflow,
        weight: None,
        want: "t[] = overflow\n",
    },
];

fn lines() -> &'static [Line] {
    LINES
}

// A table of numbers, or of tuples.
fn table(alloc: Global, of_tuples: bool) -> Result<TableDecl, NoMemory> {
    let name = Text::from_str(alloc, "t")?;
    let element = if of_tuples {
        Ty::Tuple(Fields::new(alloc)?)
    } else {
        Ty::Int
    };
    Ok(TableDecl {
        name,
        kind: TableKind::Sum,
        limit: 0,
        indexes: Tys::new(alloc),
        element,
        weight: None,
    })
}

// What a row shows, as a value of the tables.
fn shown_value(alloc: Global, shown: &Shown) -> Result<RowValue, FlatError> {
    match shown {
        Shown::One(flat) => Ok(RowValue::One(from_flat(alloc, flat)?)),
        Shown::Sums(sums) => Ok(RowValue::Sums(Sums::copied(alloc, sums)?)),
        Shown::Overflow => Ok(RowValue::Overflow),
    }
}

// The values that these bytes spell, in order.
fn values_of(alloc: Global, spelled: &[&[u8]]) -> Result<List, FlatError> {
    let mut list = List::new(alloc);
    for flat in spelled {
        list.push(from_flat(alloc, flat)?)?;
    }
    Ok(list)
}

// The row of a line, alone.
fn rows_of(alloc: Global, line: &Line) -> Result<Rows, FlatError> {
    let value = shown_value(alloc, &line.shown)?;
    Ok(alone(alloc, value, line.weight)?)
}

fn alone(alloc: Global, value: RowValue, weight: Option<i64>) -> Result<Rows, NoMemory> {
    let mut rows = Rows::new(alloc);
    rows.push(Row { value, weight })?;
    Ok(rows)
}

// The text of a line.
fn line_text(alloc: Global, line: &Line) -> Result<Vec<u8>, FlatError> {
    let indexes = values_of(alloc, line.indexes)?;
    let rows = rows_of(alloc, line)?;
    let table = table(alloc, line.of_tuples)?;
    let text = text_of_rows(alloc, &table, &indexes, &rows);
    drop(table);
    text
}

fn text_of_rows(
    alloc: Global,
    table: &TableDecl,
    indexes: &List,
    rows: &Rows,
) -> Result<Vec<u8>, FlatError> {
    let mut out = Vec::new(alloc);
    push_rows(table, indexes, rows, &mut out)?;
    Ok(out)
}

// Whether a line has its text.
fn has_its_text(alloc: Global, line: &Line) -> bool {
    match line_text(alloc, line) {
        Ok(out) => out.as_slice() == line.want.as_bytes(),
        Err(_) => false,
    }
}

#[test]
fn rows_have_their_lines(rt: HostRuntime) -> Result<(), Fail> {
    for line in lines() {
        let same = has_its_text(rt.alloc(), line);
        assert!(rt; same, "at {}", line.want);
    }
    Ok(())
}

// Emits: the number of the table, the index, the number and the weight.
const EMITS: &[(u64, i64, i64, i64)] = &[
    (4, 2, 5, 0),
    (0, 1, 7, 0),
    (1, 0, 3, 4),
    (0, -1, 2, 0),
    (1, 0, 9, 4),
    (0, 1, -8, 0),
    (1, 0, 1, 6),
    (1, 0, 2, 1),
    (3, 0, 1, 0),
    (3, 5, 1, 0),
    (3, 0, 2, 0),
    (3, 0, 3, 0),
    (3, 0, 4, 0),
    (3, 5, 1, 0),
    (4, 2, 5, 0),
    (4, 2, -5, 0),
];

// The text of the tables after these emits.
const TEXT: &str = "\
sums[-1] = 2
sums[1] = -1
most[0] = 1 weight 6
most[0] = 3 weight 4
most[0] = 9 weight 4
set[0] = overflow
set[5] = 1
all[2] = -5
all[2] = 5
all[2] = 5
";

fn emits() -> &'static [(u64, i64, i64, i64)] {
    EMITS
}

fn wanted() -> &'static str {
    TEXT
}

// The text of the tables after the emits.
fn text_after(
    alloc: Global,
    tables: &TableDecls,
    emits: &[(u64, i64, i64, i64)],
) -> Result<Vec<u8>, NoMemory>
    requires weights { HaveTheirWeights tables.now }
    requires numbers { All (λ table. (table.element ≡ Shape.int) × (table.indexes ≡ Shape.int ∷ [])) tables.now }
    requires few { length emits.now < 2 ^ 32 }
{
    let mut total = Total::new(alloc, tables)?;
    for (table, index, number, weight) in emits {
        let dealt = Dealt {
            table: *table,
            index: *index,
            number: *number,
            weight: *weight,
            side: 0,
        };
        add_dealt(alloc, &mut total, tables, &dealt)?;
    }
    text(alloc, &total, tables)
}

// Whether the tables have their text after the emits.
fn have_their_text(alloc: Global, emits: &[(u64, i64, i64, i64)]) -> Result<bool, NoMemory>
    requires few { length emits.now < 2 ^ 32 }
{
    let tables = declarations(alloc)?;
    let text = text_after(alloc, &tables, emits)?;
    Ok(text.as_slice() == wanted().as_bytes())
}

#[test]
fn all_tables_have_their_text(rt: HostRuntime) -> Result<(), Fail> {
    let emits = emits();
    if emits.len() < 1000 {
        assert!(rt; have_their_text(rt.alloc(), emits)?);
    }
    Ok(())
}
