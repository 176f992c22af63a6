//! What was often meant by a token that can't stand where it does.
use crate::stuck::Stuck;

/// Rows, of which the first counts that holds: conditions with `and` between them, which `holds` tells, and what is said. Of the token:
///
/// - `start`, `second`, `third`: it is that one of its statement.
/// - `at`, `before`, `first`, `next`: it, the token before it, the first one of the statement, the one after it is one of these.
/// - `joined`: the one after it is one of these, with nothing between the two.
/// - `spelled`, `after`: it, the token before it is spelled so.
/// - `in`: the innermost bracket that is open before it is one of these, where `nothing` stands for none.
/// - `takes`, `not`: all of these, none of these can stand in its place.
/// - `alone`: one thing alone can.
/// - `inside`: another token follows it in its line.
const HINTS: &str = r#"start and at / => a comment begins with `#`, and ends with its line
start and at ++ -- => `++` and `--` stand after a variable, as in `x++;`; a comment begins with `#`
start and at ) ] } => nothing is open that it could close
start and at else => `else` stands right after the statement of its `if`
start and at table => TABLE
start and at function def and next name => FUNCTION
start and at proto => a type is declared as in `type M = proto { a: int @ 1 };`
start and at array map => VARIABLE
start and at bool int string bytes time and next name => VARIABLE
start and at an expression => a value alone is no statement: it is given to a variable, as in `x = 1;`, or emitted, as in `emit c <- 1;`
takes = and not * and at an operator and joined = => an operator and `=` aren't joined: write `x = x + 1;`
second and takes := and at == => `=` gives a variable its value; `==` compares
second and takes := and at <- => an emit begins with `emit`, as in `emit c <- 1;`
second and takes := and at function => FUNCTION
second and takes := and at table => TABLE
second and takes := and at name => a variable is declared as in `x: int = 1;`, and a function is called as in `f(1);`
second and takes := and at a type => `:` stands between a name and its type, as in `x: int = 1;`
before if while for when and takes ( => parentheses stand round what follows, as in `if (x == 1) x = 2;`
first emit and takes <- => `<-` stands before the value of an emit, as in `emit c[key] <- 1;`
first emit and at , and in nothing => several values are one in braces, as in `emit c <- {1, 2};`
first static and takes : and in nothing => a static is declared with its type, as in `static x: int = 1;`
first type and third => a type is declared as in `type T = array of int;`
first for and third and at a type => the variable of a `for` is declared as in `for (i: int = 0; i < 3; i++)`
first for and at , and takes ; => `;` stands between the parts of a `for`
first when and at some each all => the variables of a `when` are declared as in `i: some int;`
before array => the type of an array is written as in `array of int`
before map => the type of a map is written as in `map[string] of int`
at of and before name => TABLE
at static and before : => `static` stands first, as in `static x: int = 1;`
at = and before : => write the type, as in `x: int = 1;`, or `x := 1;`
at [ and not * <- and takes = => the type of an array is written as in `array of int`
at [ and not * <- and takes ; => the type of an array is written as in `array of int`
at ; and takes , and inside => `,` stands between the parts
takes @ => each field of a message has a number, as in `a: int @ 1`
not * and takes : and before ) => FUNCTION
not * and takes : and before name and in ( [ { => the name stands first, then `:` and the type, as in `a: int`
not string-literal and takes name and in { and at a type => each part has a name and a type, as in `{a: int, b: string}`
not string-literal and takes { and alone => the body of a function stands in braces
before . and at number => numbers are whole: there are no fractions
before . and at string-literal => strings are joined by `+`
takes string-literal and at [ => an array is written in braces, as in `{1, 2, 3}`
takes string-literal and at ) ] } and before , => no comma stands at the end of a list
takes string-literal and at function => FUNCTION
takes string-literal and at if => an `if` is a statement, and has no value
takes * and at = and joined > => `:` stands between a key and its value, as in `{"a": 1}`
takes * and at = and in ( => `==` compares two values
takes * and at <- and in nothing ( { => `x<-1` has the sign `<-`; write `x < -1`
takes * and at ++ -- => `++` and `--` are statements, and no part of an expression
takes * : and in { and at } , => each key of a map has a value, as in `{"a": 1}`
takes * and at == != < <= > >= => comparisons don't stand in a row: write `a < b && b < c`
takes * and at ) ] } and in nothing => nothing is open that it could close
takes * and spelled and => `and` is written `&&`
takes * and spelled or => `or` is written `||`
takes * and after not => `not` is written `!`
takes * and after b and at string-literal => bytes begin with a capital letter, as in `B"abc"`"#;

/// Sentences that stand in several rows.
const DECLARED: &[(&str, &str)] = &[
    (
        "FUNCTION",
        "a function is declared as in `f: function(n: int): int { return n; }`",
    ),
    ("TABLE", "a table is declared as in `c: table sum of int;`"),
    ("VARIABLE", "a variable is declared as in `x: int = 1;`"),
];

fn hints() -> &'static str {
    HINTS
}

fn declared() -> &'static [(&'static str, &'static str)] {
    DECLARED
}

/// What was often meant by the token of a statement that can't be read.
pub fn hint(stuck: &Stuck<'_, '_>) -> Option<&'static str> {
    for row in hints().split('\n') {
        let (conditions, said) = row.split_once(" => ").unwrap_or((row, ""));
        if all_hold(stuck, conditions) {
            return Some(written_out(said));
        }
    }
    None
}

fn all_hold(stuck: &Stuck<'_, '_>, conditions: &str) -> bool {
    conditions
        .split(" and ")
        .all(|condition| stuck.holds(condition))
}

fn written_out(said: &'static str) -> &'static str {
    for (name, sentence) in declared() {
        if *name == said {
            return *sentence;
        }
    }
    said
}
