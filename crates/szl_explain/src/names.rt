//! What is said of names: unknown ones, those that are declared twice, and those that stand for something else.
use crate::fault::Fault;
use crate::uses::Use;
use std::alloc::{AllocError, Global};
use szl_explain_source::{Declared, Names, Page, Sort, say_declared};

impl<'t> Fault<'t> {
    /// Says where an unknown name is declared after all, or what it may be meant for.
    pub fn say_unknown(&self, alloc: Global, page: &mut Page) -> Result<(), AllocError> {
        if self.name() == b"input".as_slice() {
            page.say(
                "`input` is the record, which functions and statics don't see. Hint: give it to a function as an argument, as in `f(input)`.\n",
            );
            return Ok(());
        }
        if let Some(declared) = self.declared(alloc)? {
            say_declared(page, self.source, declared);
            page.say(self.why_unseen());
            return Ok(());
        }
        let names = Names::of(alloc, self.source)?;
        match names.first(self.source, self.name()) {
            Some(declared) => {
                self.say_elsewhere(page, declared);
                Ok(())
            }
            None => self.say_meant(alloc, page, &names),
        }
    }

    /// Says that a name is declared below or in another block.
    fn say_elsewhere(&self, page: &mut Page, declared: Declared) {
        say_declared(page, self.source, declared);
        page.say(if declared.token >= self.token {
            ", below this place: a name is known after its declaration.\n"
        } else {
            ", in a block that has ended before this place.\n"
        });
    }

    /// Why a name isn't seen that is declared in a block that is open.
    fn why_unseen(&self) -> &'static str {
        let top = self.source.token_from(self.top);
        if self.source.is(top, "static") {
            ", and a static sees no variables.\n"
        } else if self.source.is(top.saturating_add(2), "function") {
            ", and a function sees only its parameters and what it declares itself. Hint: give it as an argument.\n"
        } else {
            ", and the statement of a `when` doesn't see its variables by `all`.\n"
        }
    }

    /// Says what a name may be meant for that is declared nowhere.
    fn say_meant(&self, alloc: Global, page: &mut Page, names: &Names) -> Result<(), AllocError> {
        let used = Use::of(alloc, *self)?;
        let near = names.near(alloc, self.source, self.token, used.wanted())?;
        if !near.is_empty() {
            page.say("Hint: is ");
            page.names(&near);
            page.say(" meant?\n");
        } else if let Some(own) = used.own_name(self.name()) {
            page.fill("Hint: here it is %.\n", &[own.as_bytes()]);
        } else {
            page.say(used.known());
        }
        Ok(())
    }

    /// Says where the name was declared before.
    pub fn say_twice(&self, alloc: Global, page: &mut Page) -> Result<(), AllocError> {
        if let Some(declared) = self.declared(alloc)? {
            say_declared(page, self.source, declared);
            page.say(" already, in the same block.\n");
            if declared.sort == Sort::Variable {
                page.say("Hint: without a type, as in `x = 2;`, a variable gets another value.\n");
            }
        }
        Ok(())
    }

    /// Says what the name stands for, and what is wanted.
    pub fn say_wrong_kind(&self, alloc: Global, page: &mut Page) -> Result<(), AllocError> {
        let used = Use::of(alloc, *self)?;
        page.say("Expected ");
        page.say(used.what());
        page.say(", and ");
        match self.declared(alloc)? {
            Some(declared) => {
                say_declared(page, self.source, declared);
                page.say(".\n");
                if used == Use::Value {
                    page.say(self.how_used(declared.sort));
                }
            }
            None => page.fill("% is a name that each program has.\n", &[self.name()]),
        }
        Ok(())
    }

    /// How a name is used that stands where a value is wanted.
    fn how_used(&self, sort: Sort) -> &'static str {
        let is_assigned = self.source.is(self.token.saturating_add(1), "=");
        match sort {
            Sort::Table if is_assigned => {
                "Hint: a table gets what is emitted to it, as in `emit c <- 1;`.\n"
            }
            Sort::Table => "A program can't read what a table holds: that is printed at the end.\n",
            Sort::Function => {
                "Hint: a function is called with its arguments between parentheses, as in `f(1)`.\n"
            }
            _ => "",
        }
    }
}
