//! What is said of statements: variables that keep their values, places where a statement can't stand, searches, composites without a type.
use crate::fault::Fault;
use crate::paths::{first_of_path, say_levels};
use std::alloc::{AllocError, Global};
use szl_explain_judge::fields_there;
use szl_explain_source::{Names, Page, Sort, say_declared};

impl<'t> Fault<'t> {
    /// Says which fields there are, by trying the names of fields in its place, and what the levels of its path are.
    pub fn say_no_field(&self, alloc: Global, page: &mut Page) -> Result<(), AllocError> {
        self.say_fields(alloc, page)?;
        let first = first_of_path(self.source, self.token);
        say_levels(alloc, page, *self, first, self.token)
    }

    /// Says which fields there are.
    fn say_fields(&self, alloc: Global, page: &mut Page) -> Result<(), AllocError> {
        let parts = Names::of(alloc, self.source)?.parts(alloc)?;
        let found = fields_there(alloc, self.source, self.top, self.token, &parts)?;
        if found.is_empty() {
            page.say("It is taken of a value that has no fields of the names in this program.\n");
        } else {
            page.say("Expected ");
            page.names(&found);
            page.say(", the fields that are there.\n");
        }
        Ok(())
    }

    /// Says why the variable keeps its value.
    pub fn say_not_assignable(&self, alloc: Global, page: &mut Page) -> Result<(), AllocError> {
        let source = self.source;
        let Some(declared) = self.declared(alloc)? else {
            page.say(
                "`input` is the record, which keeps its bytes. Hint: copy it to a variable, as in `s: string = input;`.\n",
            );
            return Ok(());
        };
        say_declared(page, source, declared);
        if declared.sort == Sort::Static || declared.sort == Sort::Quantified {
            page.say(", which keeps its value.\n");
            return Ok(());
        }
        page.say(", but the path leads into a string or bytes, whose parts keep their values.\n");
        say_levels(alloc, page, *self, self.token, source.next(self.token, "="))?;
        page.say("Hint: put it together from parts, as in `s = s[0:3] + \"x\" + s[4:len(s)];`.\n");
        Ok(())
    }

    /// Says which function emits that is called where nothing may be emitted.
    pub fn say_emit_here(&self, alloc: Global, page: &mut Page) -> Result<(), AllocError> {
        if let Some(declared) = self.declared(alloc)? {
            say_declared(page, self.source, declared);
            page.say(", which emits, itself or by a function that it calls.\n");
        }
        page.say("The value of a static and the condition of a `when` emit nothing.\n");
        Ok(())
    }

    /// Says where such a statement may stand.
    pub fn say_misplaced(&self, page: &mut Page) {
        let has_value = !self.source.is(self.token.saturating_add(1), ";");
        page.say(if self.source.is(self.token, "break continue") {
            "`break` and `continue` stand inside a loop, with no `when` between. Hint: in a `when` set a variable, and test it after.\n"
        } else if !self.source.is(self.token, "return") {
            "Tables, functions, types and statics are declared at the top level, outside of all braces.\n"
        } else if has_value {
            "Outside of functions `return` has no value: `return;` ends the run over this record.\n"
        } else {
            "Inside of a function `return` has a value, as in `return 1;`.\n"
        });
    }

    /// Says what the candidates of a variable are taken from.
    pub fn say_unbounded(&self, page: &mut Page) {
        page.fill(
            "The candidates of % come from a part of the condition: an index `a[..]` that is the variable alone, or a slice that begins or ends with it; no such part is there. `a` names no later variable.\nHint: to go through numbers write a `for`.\n",
            &[self.name()],
        );
    }

    /// Says which variables come last.
    pub fn say_order(&self, page: &mut Page) {
        page.fill(
            "% is by `some` or `each`, and a variable by `all` stands before it.\n",
            &[self.name()],
        );
    }

    /// Says where a composite gets its type.
    pub fn say_no_type(&self, page: &mut Page) {
        page.say(if self.source.is(self.token.saturating_sub(1), ":=") {
            "`:=` gives no type. Hint: write the type, as in `x: array of int = {1, 2};`.\n"
        } else {
            "Braces take their type from their place, and this place has none. Hint: declare a variable with the type, and use that here.\n"
        });
    }
}
