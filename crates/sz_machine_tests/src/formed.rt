//! Which code is well formed: an example, each instruction with numbers up to the last and after it, and routines.
ghost use Rattle.std.specs.Prelude.{◌≡◌, ◌++◌, ◌∷◌, [], IfOk, OnOk};
ghost use Rattle.sz_instr.specs.Example.{example_lines, sum_named, example};

use crate::example::{line, sum};
use std::alloc::Global;
use sz_instr::{Code, Instr, Lines, Routine, Routines, Step, Steps, well_formed};
use sz_types::{BinOp, Builtin, Fields, NoMemory, TableDecls, Ty, Tys, UnOp};
use sz_value::{List, Value};

fn lines_of_example(alloc: Global) -> Result<Lines, NoMemory>
    ensures value { IfOk result (λ lines. lines ≡ example_lines) }
{
    let lines = vec![in alloc;
        line(Instr::Input, 1, 5, 10),
        line(Instr::Convert(0), 1, 5, 10),
        line(Instr::Keep(0), 1, 5, 1),
        line(Instr::Push(0), 1, 6, 15),
        line(Instr::Emit(0, 0, false), 1, 6, 1),
        line(Instr::Local(0), 1, 7, 15),
        line(Instr::Emit(1, 0, false), 1, 7, 1),
        line(Instr::Local(0), 1, 8, 24),
        line(Instr::Local(0), 1, 8, 28),
        line(Instr::Binary(BinOp::Mul), 1, 8, 24),
        line(Instr::Emit(2, 0, false), 1, 8, 1),
        line(Instr::EndRecord, 0, 1, 1),
    ]?;
    Ok(Lines::from_vec(lines))
}

fn one(alloc: Global) -> Result<List, NoMemory>
    ensures value { IfOk result (λ values. values ≡ example.constants) }
{
    let mut values = List::new(alloc);
    values.push(Value::Int(1))?;
    Ok(values)
}

fn whole_numbers(alloc: Global) -> Result<Tys, NoMemory>
    ensures value { IfOk result (λ types. types ≡ example.types) }
{
    let mut types = Tys::new(alloc);
    types.push(Ty::Int)?;
    Ok(types)
}

fn add_sum(alloc: Global, tables: &mut TableDecls, name: &str) -> Result<(), NoMemory>
    ensures value { OnOk result (tables.new ≡ tables.old ++ sum_named name.now ∷ []) }
{
    tables.push(sum(alloc, name)?)
}

fn tables_of_example(alloc: Global) -> Result<TableDecls, NoMemory>
    ensures value { IfOk result (λ tables. tables ≡ example.tables) }
{
    let mut tables = TableDecls::new(alloc);
    add_sum(alloc, &mut tables, "count")?;
    add_sum(alloc, &mut tables, "total")?;
    add_sum(alloc, &mut tables, "sum_of_squares")?;
    Ok(tables)
}

fn code_of_example(alloc: Global) -> Result<Code, NoMemory>
    ensures value { IfOk result (λ code. code ≡ example) }
{
    let lines = lines_of_example(alloc)?;
    let constants = one(alloc)?;
    let types = whole_numbers(alloc)?;
    let tables = tables_of_example(alloc)?;
    Ok(Code {
        lines,
        functions: Routines::new(alloc),
        statics: Routines::new(alloc),
        main: Routine {
            entry: 0,
            params: 0,
            locals: 1,
        },
        constants,
        types,
        tables,
        ignore: None,
    })
}

// Whether the example is well formed, how many lines it has, and from which line of the program's text the one at place 10 is.
fn example_told(alloc: Global) -> Result<(bool, usize, u32), NoMemory> {
    let code = code_of_example(alloc)?;
    let told = (
        well_formed(&code),
        code.lines.len(),
        code.lines.get(10).place.line,
    );
    drop(code);
    Ok(told)
}

#[test]
fn the_code_of_the_example_is_well_formed(rt: HostRuntime) {
    assert!(rt; example_told(rt.alloc()) == Ok((true, 12, 8)));
}

// Where a routine begins, how many parameters it has, and how many locals.
type Parts = (usize, u32, u32);

fn one_routine(alloc: Global, parts: Parts) -> Result<Routines, NoMemory> {
    let (entry, params, locals) = parts;
    let mut routines = Routines::new(alloc);
    routines.push(Routine {
        entry,
        params,
        locals,
    })?;
    Ok(routines)
}

// Two lines, the second with this instruction.
fn two_lines(alloc: Global, instr: Instr) -> Result<Lines, NoMemory> {
    let mut lines = Lines::new(alloc);
    lines.push(line(Instr::Tick, 1, 1, 1))?;
    lines.push(line(instr, 1, 1, 1))?;
    Ok(lines)
}

// The type of whole numbers, and that of messages without fields.
fn number_and_message(alloc: Global) -> Result<Tys, NoMemory> {
    let mut types = Tys::new(alloc);
    types.push(Ty::Int)?;
    types.push(Ty::Proto(Fields::new(alloc)?))?;
    Ok(types)
}

fn one_table(alloc: Global) -> Result<TableDecls, NoMemory> {
    let mut tables = TableDecls::new(alloc);
    add_sum(alloc, &mut tables, "total")?;
    Ok(tables)
}

// Whether code of two lines, the second with this instruction, is well formed with these routines: a function, a static, and that
// of the record, and this table for lines. It has one constant, two types, of which the second is a proto type, and one table.
fn is_formed(
    alloc: Global,
    instr: Instr,
    function: Parts,
    computes: Parts,
    main: Parts,
    ignore: Option<u32>,
) -> Result<bool, NoMemory> {
    let lines = two_lines(alloc, instr)?;
    let functions = one_routine(alloc, function)?;
    let statics = one_routine(alloc, computes)?;
    let constants = one(alloc)?;
    let types = number_and_message(alloc)?;
    let tables = one_table(alloc)?;
    let (entry, params, locals) = main;
    let code = Code {
        lines,
        functions,
        statics,
        main: Routine {
            entry,
            params,
            locals,
        },
        constants,
        types,
        tables,
        ignore,
    };
    let formed = well_formed(&code);
    drop(code);
    Ok(formed)
}

// The same of routines with three locals, two and one.
fn is_instr_in_range(alloc: Global, instr: Instr) -> Result<bool, NoMemory> {
    is_formed(alloc, instr, (0, 1, 3), (1, 0, 2), (0, 0, 1), None)
}

// The first of the instructions of which this isn't so, or is so if it isn't wanted, by its place.
fn first_other(
    alloc: Global,
    instrs: Result<Vec<Instr>, NoMemory>,
    wanted: bool,
) -> Result<Option<usize>, NoMemory> {
    for (place, instr) in instrs?.into_iter().enumerate() {
        if is_instr_in_range(alloc, instr)? != wanted {
            return Ok(Some(place));
        }
    }
    Ok(None)
}

// A path of two steps, whose indexes and parts are no numbers of the code's own.
fn path(alloc: Global) -> Result<Steps, NoMemory> {
    let mut steps = Steps::new(alloc);
    steps.push(Step::Index)?;
    steps.push(Step::Field(9))?;
    Ok(steps)
}

// Instructions with the last number of each kind.
fn up_to_the_last(alloc: Global) -> Result<Vec<Instr>, NoMemory> {
    let path = path(alloc)?;
    Ok(vec![in alloc;
        Instr::Push(0),
        Instr::Local(2),
        Instr::Static(0),
        Instr::Input,
        Instr::Keep(2),
        Instr::KeepStatic(0),
        Instr::Clear(2),
        Instr::Store(2, path),
        Instr::Unary(UnOp::Not),
        Instr::Binary(BinOp::Add),
        Instr::Apply(Builtin::Len),
        Instr::Convert(0),
        Instr::Decode(1),
        Instr::MakeArray(9),
        Instr::MakeTuple(9),
        Instr::MakeMap(9),
        Instr::Index,
        Instr::Slice,
        Instr::Field(9),
        Instr::Def,
        Instr::Tick,
        Instr::Jump(1),
        Instr::Test(1, 1),
        Instr::AndTest(1),
        Instr::OrTest(1),
        Instr::Call(0),
        Instr::Return,
        Instr::EndRecord,
        Instr::Discard,
        Instr::Emit(0, 9, true),
        Instr::Enter(true),
        Instr::Next(2, 1),
        Instr::Leave,
        Instr::Meets(1),
        Instr::Fails(1),
    ]?)
}

// Instructions with numbers that are out of range.
fn after_the_last(alloc: Global) -> Result<Vec<Instr>, NoMemory> {
    let path = path(alloc)?;
    Ok(vec![in alloc;
        Instr::Push(1),
        Instr::Local(3),
        Instr::Static(1),
        Instr::Keep(3),
        Instr::KeepStatic(1),
        Instr::Clear(3),
        Instr::Store(3, path),
        Instr::Convert(2),
        Instr::Decode(0),
        Instr::Decode(2),
        Instr::Jump(2),
        Instr::Test(2, 1),
        Instr::Test(1, 2),
        Instr::AndTest(2),
        Instr::OrTest(2),
        Instr::Call(1),
        Instr::Emit(1, 0, false),
        Instr::Next(3, 1),
        Instr::Next(2, 2),
        Instr::Meets(2),
        Instr::Fails(2),
    ]?)
}

#[test]
fn numbers_are_in_range_up_to_the_last(rt: HostRuntime) {
    let alloc = rt.alloc();
    assert_eq!(rt; first_other(alloc, up_to_the_last(alloc), true), Ok(None));
    assert_eq!(rt; first_other(alloc, after_the_last(alloc), false), Ok(None));
}

// The locals of the function, of the static and of the record's routine, a local, and whether it is in range.
type Most = (u32, u32, u32, u32, bool);

const MOST: &[Most] = &[
    (7, 0, 0, 6, true),
    (7, 0, 0, 7, false),
    (0, 7, 0, 6, true),
    (0, 7, 0, 7, false),
    (0, 0, 7, 6, true),
    (0, 0, 7, 7, false),
    (7, 7, 7, 6, true),
    (7, 7, 7, 7, false),
];

fn most() -> &'static [Most] {
    MOST
}

// Whether the local is in range, or isn't, as its row says.
fn is_local(alloc: Global, row: &Most) -> bool {
    let (function, computes, main, local, wanted) = *row;
    let formed = is_formed(
        alloc,
        Instr::Local(local),
        (0, 0, function),
        (0, 0, computes),
        (0, 0, main),
        None,
    );
    formed == Ok(wanted)
}

#[test]
fn any_routine_may_have_the_most_locals(rt: HostRuntime) {
    for row in most() {
        let same = is_local(rt.alloc(), row);
        assert!(rt; same, "at {row:?}");
    }
}

// A routine, and whether it is one of code of two lines.
const ROUTINES: &[(Parts, bool)] = &[
    ((0, 0, 0), true),
    ((1, 2, 2), true),
    ((2, 0, 0), false),
    ((0, 3, 2), false),
];

fn routines() -> &'static [(Parts, bool)] {
    ROUTINES
}

// Whether code is well formed with this routine as its function, as its static, and as that of the record.
fn are_formed(alloc: Global, made: Parts) -> Result<(bool, bool, bool), NoMemory> {
    let plain = (0, 0, 0);
    let function = is_formed(alloc, Instr::Tick, made, plain, plain, None)?;
    let computes = is_formed(alloc, Instr::Tick, plain, made, plain, None)?;
    let main = is_formed(alloc, Instr::Tick, plain, plain, made, None)?;
    Ok((function, computes, main))
}

#[test]
fn routines_begin_at_lines_and_have_their_parameters(rt: HostRuntime) {
    for (made, wanted) in routines() {
        let same = are_formed(rt.alloc(), *made) == Ok((*wanted, *wanted, *wanted));
        assert!(rt; same, "at {made:?}");
    }
}

// The table for lines, and whether it is one of code with one table.
const LINE_TABLES: &[(Option<u32>, bool)] = &[(None, true), (Some(0), true), (Some(1), false)];

fn line_tables() -> &'static [(Option<u32>, bool)] {
    LINE_TABLES
}

#[test]
fn the_table_for_lines_is_one_of_the_code(rt: HostRuntime) {
    let plain = (0, 0, 0);
    for (table, wanted) in line_tables() {
        let formed = is_formed(rt.alloc(), Instr::Tick, plain, plain, plain, *table);
        assert_eq!(rt; formed, Ok(*wanted), "at {table:?}");
    }
}
