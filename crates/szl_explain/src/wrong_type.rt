//! What is said of a wrong type: the type of the expression, the types that its statement takes, and how to come from one to the other.
use crate::fault::Fault;
use std::alloc::{AllocError, Global};
use szl_explain_judge::{Trial, ends_of_expressions};
use szl_explain_source::{Page, joined};

/// An expression of a wrong type, its last token, and the types of which its statement takes a value in its place.
#[derive(Clone, Copy)]
struct Found<'t, 'w> {
    fault: Fault<'t>,
    last: usize,
    trial: Trial<'t>,
    wanted: &'w [&'t [u8]],
}

/// Shows the expression at the place of a fault, and says its type, and with which types the statement passes.
pub fn say_wrong_type(alloc: Global, page: &mut Page, fault: Fault<'_>) -> Result<(), AllocError> {
    let ends = ends_of_expressions(alloc, fault.source, fault.token)?;
    for last in ends.iter().rev() {
        let trial = Trial::new(fault.source, fault.top, fault.token, *last);
        if trial.has_type(alloc)? {
            return say_expression(alloc, page, fault, *last, true);
        }
    }
    match ends.as_slice() {
        [.., last] => say_expression(alloc, page, fault, *last, false),
        [] => {
            fault.show(page);
            Ok(())
        }
    }
}

/// Says what is expected in place of the expression up to a token, what is found, and how to come from one to the other.
fn say_expression(
    alloc: Global,
    page: &mut Page,
    fault: Fault<'_>,
    last: usize,
    has_type: bool,
) -> Result<(), AllocError> {
    let source = fault.source;
    let trial = Trial::new(source, fault.top, fault.token, last);
    let wanted = trial.wanted_types(alloc)?;
    let found = Found {
        fault,
        last,
        trial,
        wanted: &wanted,
    };
    page.line(source.text, source.place(fault.token), trial.text().len());
    found.say_expected(page);
    if !has_type {
        page.fill("ound %.\n", &[trial.text()]);
        page.say(found.about_braces());
        return Ok(());
    }
    let ty = trial.one_type(alloc)?;
    match ty {
        Some(ty) => page.fill("ound % of type %.\n", &[trial.text(), ty]),
        None => page.fill("ound %.\n", &[trial.text()]),
    }
    found.say_hint(alloc, page, ty)
}

impl<'t, 'w> Found<'t, 'w> {
    /// Whether a value of this type can stand in the place of the expression.
    fn takes(&self, ty: &str) -> bool {
        self.wanted.iter().any(|wanted| *wanted == ty.as_bytes())
    }

    /// What is expected by the tokens round the expression, if that is more than types can say.
    fn expected_by_tokens(&self) -> Option<&'static str> {
        let source = self.fault.source;
        let next = self.last.saturating_add(1);
        let before = self.fault.token.saturating_sub(1);
        let called = source.spelled(before.saturating_sub(1));
        if source.is(next, "[") {
            Some("an array, a map, a string or bytes before `[`")
        } else if source.is(next, ".") {
            Some("a tuple or a message before `.`")
        } else if source.is(next, "++ --") {
            Some("a variable of type `int`")
        } else if !source.is(before, "(") {
            None
        } else if called == b"len".as_slice() {
            Some("a string, bytes, an array or a map")
        } else if called == b"keys".as_slice() || called == b"haskey".as_slice() {
            Some("a map")
        } else {
            None
        }
    }

    /// Says what is expected, if that is known, up to the first letter of what is found.
    fn say_expected(&self, page: &mut Page) {
        if let Some(words) = self.expected_by_tokens() {
            page.say("Expected ");
            page.say(words);
            page.say(", f");
        } else if self.wanted.is_empty() {
            page.say("F");
        } else {
            page.say("Expected a value of type ");
            page.names(self.wanted);
            page.say(", f");
        }
    }

    /// What braces without a type stand for.
    fn about_braces(&self) -> &'static str {
        let source = self.fault.source;
        let next = self.fault.token.saturating_add(1);
        if !source.is(self.fault.token, "{") {
            ""
        } else if source.is(next, ":") {
            "`{:}` is the empty map; an empty array is `{}`.\n"
        } else if source.is(next, "}") {
            "`{}` is the empty array; an empty map is `{:}`.\n"
        } else {
            "Braces stand for an array, a map or a tuple.\n"
        }
    }

    /// Says how to come from the expression to a value of a type that is expected.
    fn say_hint(
        &self,
        alloc: Global,
        page: &mut Page,
        ty: Option<&[u8]>,
    ) -> Result<(), AllocError> {
        if let Some(words) = self.hint_by_tokens(alloc, ty)? {
            page.say(words);
            return Ok(());
        }
        for (name, before) in [
            ("int", "int("),
            ("string", "string("),
            ("bytes", "bytes("),
            ("time", "time("),
        ] {
            if self.takes(name) && self.say_between(alloc, page, before, ")")? {
                return Ok(());
            }
        }
        self.say_between(alloc, page, "{", "}")?;
        Ok(())
    }

    /// Says that the program passes with other text before the expression and after it, if it does: so it answers.
    fn say_between(
        &self,
        alloc: Global,
        page: &mut Page,
        before: &str,
        after: &str,
    ) -> Result<bool, AllocError> {
        let is_passing = self
            .trial
            .passes_between(alloc, before.as_bytes(), after.as_bytes())?;
        if is_passing {
            let text = joined(
                alloc,
                &[before.as_bytes(), self.trial.text(), after.as_bytes()],
            )?;
            page.fill("Hint: % has that type.\n", &[&text]);
        }
        Ok(is_passing)
    }

    /// The hint that the tokens of the expression give, if they give one.
    fn hint_by_tokens(
        &self,
        alloc: Global,
        ty: Option<&[u8]>,
    ) -> Result<Option<&'static str>, AllocError> {
        let source = self.fault.source;
        let first = self.fault.token;
        let is_one = first == self.last;
        let is_letter = match self.trial.text() {
            [b'"', byte, b'"'] => !byte.is_ascii_digit(),
            _ => false,
        };
        let is_int = ty == Some(b"int".as_slice());
        Ok(if is_letter && self.takes("int") {
            Some("Hint: a character is a number, and stands between single quotes, as in `'a'`.\n")
        } else if is_one && source.is(first, "character") && self.takes("string") {
            Some(
                "Hint: a string stands between double quotes, as in `\"a\"`; a character between single ones is a number.\n",
            )
        } else if self.is_index_of_text(alloc)? {
            Some("Hint: one index gives a number; `s[i:i + 1]` is the part of one character.\n")
        } else if is_int && self.takes("bool") && self.wanted.len() == 1 {
            Some("Hint: a comparison is a `bool`, as in `x != 0`.\n")
        } else {
            None
        })
    }

    /// Whether the expression is an index of a string or of bytes, where a part of it could stand.
    fn is_index_of_text(&self, alloc: Global) -> Result<bool, AllocError> {
        let source = self.fault.source;
        let is_text = self.takes("string") || self.takes("bytes");
        if !is_text || !source.is(self.last, "]") {
            return Ok(false);
        }
        let before = self.last.saturating_sub(1);
        let open = Trial::new(source, self.fault.top, self.fault.token, before);
        open.passes_between(alloc, b"", b":1")
    }
}
