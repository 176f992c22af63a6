//! Large programs, which `check` judges.
use std::alloc::{AllocError, Global};
use std::fmt::Write;
use std::test::Fail;
use std::thread::Builder;
use sz_check::check;
use sz_lex::lex;
use sz_parse::parse;

/// How much stack the program runs a command line on, as in `szl_cli`.
const STACK_BYTES: usize = 2 << 30;

/// Appends a part so often.
fn repeat(text: &mut String, part: &str, times: u32) -> Result<(), AllocError> {
    for _ in 0..times {
        text.push_str(part)?;
    }
    Ok(())
}

/// A chain of this many types, each an array of the one before, and a variable of the last.
fn chain(alloc: Global, count: u32) -> Result<String, AllocError> {
    let mut program = String::new(alloc);
    writeln!(program, "type A0 = int;")?;
    for number in 1..count {
        writeln!(program, "type A{number} = array of A{};", number - 1)?;
    }
    writeln!(program, "x: A{};", count.saturating_sub(1))?;
    Ok(program)
}

/// This many types, each a map of the one before to itself, of which no variable is.
fn doubling(alloc: Global, count: u32) -> Result<String, AllocError> {
    let mut program = String::new(alloc);
    writeln!(program, "type M0 = int;")?;
    for number in 1..count {
        let before = number - 1;
        writeln!(program, "type M{number} = map[M{before}] of M{before};")?;
    }
    Ok(program)
}

/// This many variables of a named tuple type with as many parts.
fn wide(alloc: Global, count: u32) -> Result<String, AllocError> {
    let mut program = String::new(alloc);
    program.push_str("type T = {a: int")?;
    for number in 1..count {
        write!(program, ", a{number}: int")?;
    }
    program.push_str("};\n")?;
    for number in 0..count {
        writeln!(program, "x{number}: T;")?;
    }
    Ok(program)
}

/// This many variables of a tuple type that is 200 levels high.
fn nested(alloc: Global, count: u32) -> Result<String, AllocError> {
    let mut program = String::new(alloc);
    for number in 0..count {
        program.push_str("{ x: ")?;
        repeat(&mut program, "{a:", 200)?;
        program.push_str("int")?;
        repeat(&mut program, "}", 200)?;
        writeln!(program, "; y: int = {number};")?;
        program.push_str("}\n")?;
    }
    Ok(program)
}

/// A chain of this many types, each with 254 tuples round the one before, and two variables of the last. No text has a type that is
/// much higher than that of 1,000.
fn tower(alloc: Global, count: u32) -> Result<String, AllocError> {
    let mut program = String::new(alloc);
    writeln!(program, "type T0 = int;")?;
    for number in 1..count {
        write!(program, "type T{number} = ")?;
        repeat(&mut program, "{a:", 254)?;
        write!(program, "T{}", number - 1)?;
        repeat(&mut program, "}", 254)?;
        program.push_str(";\n")?;
    }
    let last = count.saturating_sub(1);
    writeln!(program, "x: T{last};")?;
    program.push_str("{ ")?;
    writeln!(program, "z: T{last};")?;
    program.push_str("z = x; }\n")?;
    Ok(program)
}

/// This many variables, each with the value of the one before.
fn declarations(alloc: Global, count: u32) -> Result<String, AllocError> {
    let mut program = String::new(alloc);
    writeln!(program, "x0: int = 1;")?;
    for number in 1..count {
        writeln!(program, "x{number}: int = x{};", number - 1)?;
    }
    Ok(program)
}

/// Whether the text is read, and nothing of it is refused.
fn is_fine(alloc: Global, text: &str) -> bool {
    if text.len() > 1_048_576 {
        return false;
    }
    let Ok(tokens) = lex(alloc, text.as_bytes()) else {
        return false;
    };
    let Ok(tree) = parse(alloc, &tokens) else {
        return false;
    };
    let checked = check(alloc, &tree);
    let is_fine = checked.is_ok();
    drop(checked);
    is_fine
}

/// Whether nothing is refused of large programs.
fn large_are_fine(alloc: Global) -> Result<bool, AllocError> {
    let chain = chain(alloc, 30_000)?;
    let doubling = doubling(alloc, 10_000)?;
    let wide = wide(alloc, 10_000)?;
    let nested = nested(alloc, 1_000)?;
    let tower = tower(alloc, 1_000)?;
    let declarations = declarations(alloc, 45_000)?;
    let is_deep_fine = is_fine(alloc, &chain) && is_fine(alloc, &nested) && is_fine(alloc, &tower);
    let is_wide_fine = is_fine(alloc, &doubling) && is_fine(alloc, &wide);
    Ok(is_deep_fine && is_wide_fine && is_fine(alloc, &declarations))
}

#[test]
fn large_programs_are_judged_on_the_stack_of_the_command_line(rt: HostRuntime) -> Result<(), Fail> {
    let alloc = rt.alloc();
    let thread = Builder::new()
        .stack_size(STACK_BYTES)
        .spawn(&rt, move || large_are_fine(alloc))?;
    assert_eq!(&rt; thread.join(&rt), Ok(true));
    Ok(())
}
