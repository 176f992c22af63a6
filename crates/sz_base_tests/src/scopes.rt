//! What names mean while blocks are opened and closed, step by step.
use crate::scopes::Step::{
    Close, Closed, Declare, Depth, Many, Means, Nothing, Open, Opened, Seen, Twice, Unseen,
};
use std::alloc::Global;
use std::fmt::Write;
use sz_scope::{Meaning, NoMemory, ScopeError, Scopes, Sight};

#[derive(Clone, Copy)]
enum Step {
    Open,
    // Closes a block, or finds none to close.
    Close(bool),
    // Declares a name that the innermost block doesn't have.
    Declare(&'static str, Meaning),
    // A name that the innermost block has is refused.
    Twice(&'static str),
    Depth(usize),
    Means(&'static str, Meaning),
    // The name is nowhere.
    Nothing(&'static str),
    // What a name means from a place.
    Seen(&'static str, Sight, Meaning),
    Unseen(&'static str, Sight),
    // Declares `name0`, `name1` and so on, so many names with their numbers as what they mean.
    Many(u32),
    // Opens blocks up to this depth, each with a `name7` that means its depth.
    Opened(u32),
    // Closes so many blocks.
    Closed(u32),
}

const AN_INNER_BLOCK_HIDES_A_NAME_UNTIL_IT_IS_CLOSED: &[Step] = &[
    Open,
    Declare("x", Meaning::Var(1)),
    Declare("len", Meaning::Builtin(2)),
    Open,
    Declare("x", Meaning::Table(3)),
    Declare("y", Meaning::Static(4)),
    Means("x", Meaning::Table(3)),
    Means("y", Meaning::Static(4)),
    Means("len", Meaning::Builtin(2)),
    Nothing("z"),
    Close(true),
    Means("x", Meaning::Var(1)),
    Nothing("y"),
    Close(true),
    Nothing("x"),
    Close(false),
    Depth(0),
];

const A_NAME_IS_DECLARED_ONCE_IN_A_BLOCK: &[Step] = &[
    Open,
    Declare("x", Meaning::Var(1)),
    Declare("len", Meaning::Builtin(2)),
    Open,
    Declare("x", Meaning::Table(3)),
    Declare("y", Meaning::Static(4)),
    Twice("y"),
    Means("y", Meaning::Static(4)),
    Declare("len", Meaning::Var(5)),
    Twice("len"),
    Means("len", Meaning::Var(5)),
    // What was declared in a block that is closed is forgotten.
    Close(true),
    Open,
    Declare("y", Meaning::TypeName(7)),
    Means("y", Meaning::TypeName(7)),
];

const A_NAME_THAT_IS_NOT_SEEN_IS_LOOKED_FOR_OUTSIDE: &[Step] = &[
    Open,
    Declare("x", Meaning::Var(1)),
    Declare("len", Meaning::Builtin(2)),
    Open,
    Declare("x", Meaning::Table(3)),
    Declare("y", Meaning::Static(4)),
    Open,
    Declare("x", Meaning::Quantified(8)),
    Declare("len", Meaning::Var(9)),
    Seen("x", Sight::Record, Meaning::Quantified(8)),
    Seen("x", Sight::Function { outside: 2 }, Meaning::Quantified(8)),
    Seen("x", Sight::Function { outside: 3 }, Meaning::Table(3)),
    Unseen("x", Sight::Static),
    Seen("len", Sight::Record, Meaning::Var(9)),
    Seen("len", Sight::Function { outside: 2 }, Meaning::Var(9)),
    Seen("len", Sight::Function { outside: 3 }, Meaning::Builtin(2)),
    Seen("len", Sight::Static, Meaning::Builtin(2)),
    Seen("y", Sight::Static, Meaning::Static(4)),
];

const MANY_NAMES_AND_DEEP_BLOCKS: &[Step] = &[
    Open,
    Many(20_000),
    Opened(256),
    Depth(256),
    Means("name19999", Meaning::Var(19_999)),
    Means("name7", Meaning::Table(255)),
    Unseen("name7", Sight::Static),
    Closed(255),
    Means("name7", Meaning::Var(7)),
];

// The steps of each run come from a call, so that no proof sees them.
fn runs() -> [&'static [Step]; 4] {
    [
        AN_INNER_BLOCK_HIDES_A_NAME_UNTIL_IT_IS_CLOSED,
        A_NAME_IS_DECLARED_ONCE_IN_A_BLOCK,
        A_NAME_THAT_IS_NOT_SEEN_IS_LOOKED_FOR_OUTSIDE,
        MANY_NAMES_AND_DEEP_BLOCKS,
    ]
}

// What comes of a declaration in the innermost block. Where no block is open it is want of memory.
fn declared(scopes: &mut Scopes, name: &str, what: Meaning) -> Result<(), ScopeError> {
    if scopes.depth() == 0 {
        return Err(ScopeError::NoMemory);
    }
    scopes.declare(name, what)
}

// Declares a name for each number below `count`, with the number as what it means, and says whether each could be.
fn declare_many(scopes: &mut Scopes, alloc: Global, count: u32) -> bool {
    let mut all = true;
    for number in 0..count {
        let mut name = String::new(alloc);
        let is_written = write!(name, "name{number}").is_ok();
        all = all && is_written && declared(scopes, name.as_str(), Meaning::Var(number)).is_ok();
    }
    all
}

// Opens blocks up to this depth, each of which has a name, and says whether each could be.
fn open_many(scopes: &mut Scopes, depth: u32) -> bool {
    let mut all = true;
    for number in 1..depth {
        all = all && scopes.push().is_ok();
        all = all && declared(scopes, "name7", Meaning::Table(number)).is_ok();
    }
    all
}

// Closes so many blocks, and says whether each was open.
fn close_many(scopes: &mut Scopes, count: u32) -> bool {
    let mut all = true;
    for _ in 0..count {
        all = all && scopes.pop();
    }
    all
}

// Takes a step, and says whether it went as it says.
fn goes(alloc: Global, scopes: &mut Scopes, step: &Step) -> bool {
    match step {
        Step::Open => scopes.push().is_ok(),
        Step::Close(was_open) => scopes.pop() == *was_open,
        Step::Declare(name, what) => declared(scopes, name, *what).is_ok(),
        Step::Twice(name) => declared(scopes, name, Meaning::Input) == Err(ScopeError::Twice),
        Step::Depth(depth) => scopes.depth() == *depth,
        Step::Means(name, what) => scopes.find(name).copied() == Some(*what),
        Step::Nothing(name) => scopes.find(name).is_none(),
        Step::Seen(name, sight, what) => scopes.find_seen(name, *sight).copied() == Some(*what),
        Step::Unseen(name, sight) => scopes.find_seen(name, *sight).is_none(),
        Step::Many(count) => declare_many(scopes, alloc, *count),
        Step::Opened(depth) => open_many(scopes, *depth),
        Step::Closed(count) => close_many(scopes, *count),
    }
}

// The first of the steps that doesn't go as it says.
fn first_wrong(alloc: Global, scopes: &mut Scopes, steps: &[Step]) -> Option<usize> {
    for (number, step) in steps.iter().enumerate() {
        if !goes(alloc, scopes, step) {
            return Some(number);
        }
    }
    None
}

// The same of steps that begin with no block.
fn first_wrong_alone(alloc: Global, steps: &[Step]) -> Result<Option<usize>, NoMemory> {
    let mut scopes = Scopes::new(alloc)?;
    Ok(first_wrong(alloc, &mut scopes, steps))
}

#[test]
fn blocks_and_names_go_as_the_steps_say(rt: HostRuntime) {
    for (run, steps) in runs().iter().enumerate() {
        assert_eq!(rt;
            first_wrong_alone(rt.alloc(), steps),
            Ok(None),
            "in run {run}"
        );
    }
}
