//! What is known in front of a statement.
ghost use Rattle.std.specs.Prelude.{◌≡◌, ◌⊎◌, ◌∷◌, ◌++◌, ◌-◌, ◌<◌, [], length, not, IfOk, IfSome, OnErr, if◌then◌else◌};
ghost use Rattle.sz_types.specs.Seen.{seen};
ghost use Rattle.sz_check_rules.specs.Names.{Named, has, look_up, declare, type_name};
ghost use Rattle.sz_check_rules.specs.Names as names;
ghost use Rattle.sz_check_names.specs.Outcome.{Judges, Stops};
ghost use Rattle.sz_check_rules.specs.Refusals.{unseen, has_name, left_out_names};
ghost use Rattle.sz_check_rules.specs.Scene.{with_variable, with_quantified};
ghost use Rattle.sz_check_names.specs.Knowledge.{at_first, meaning_of, means_of, maybe_means_of, IsOfTypes, Knowledge, blocks_of, blocks_for, scene_of, outside_of, in_function, IsRoundFunction};
ghost use Rattle.sz_check_names.specs.Keeping.{floor_of, place_of, placed, sight_for, fitting, with_name, with_type, IsBySight, IsTyped, without_innermost, at_no_name};
ghost use Rattle.sz_check_names.specs.Written.{shape_in};
ghost use Rattle.sz_scope.specs.declared.sight.Sight.TheVariants as sights;

use crate::error::{JudgeError, Verdict};
use crate::field_names::{is_new, one_block};
use crate::meaning::{Meaning, Means};
use crate::number::small;
use crate::site::Site;
use crate::waiting::beside;
use crate::written::{NamedTypes, Written};
use std::alloc::{AllocError, Global};
use std::marker::Model;
use std::mem;
use sz_check_rules::Cause;
use sz_scope::{Scopes, Sight};
use sz_tree::Name;
use sz_types::{Builtin, Ty, Tys, copy_ty};

/// What is known in front of a statement: the blocks that are open, what each name in them means, and the types of the routine's
/// variables by number.
#[derive(Drop)]
pub struct Known {
    // A name's meaning goes by its place among all meanings.
    scopes: Scopes,
    meanings: Vec<Meaning>,
    types: NamedTypes,
    sight: Sight,
    locals: Tys,
}

/// What a function leaves aside of what is known outside it, to be put back after it.
#[derive(Drop)]
pub struct Aside {
    sight: Sight,
    locals: Tys,
}

// Round how many blocks the routine stands that looks so.
fn floor(sight: Sight) -> usize
    ensures value { result ≡ floor_of sight }
{
    match sight {
        Sight::Function { outside } => outside,
        _ => 0,
    }
}

// The sight of a routine's expressions, or of the value of a static.
fn sight_for(sight: Sight, site: Site) -> Sight
    ensures value { result ≡ sight_for sight site }
{
    match site {
        Site::Statement | Site::Condition => sight,
        Site::Static => Sight::Static,
    }
}

// The sight of a routine inside this many blocks, where it is one.
fn fitting(sight: Sight, blocks: usize) -> Sight
    ensures value { result ≡ fitting sight blocks }
{
    match sight {
        Sight::Function { outside } if outside <= blocks => sight,
        _ => Sight::Record,
    }
}

// The place of the meaning by which a name goes; the record has none.
fn place_of(what: sz_scope::Meaning) -> Option<usize>
    ensures value { result ≡ place_of what }
{
    match what {
        sz_scope::Meaning::Var(place)
        | sz_scope::Meaning::Static(place)
        | sz_scope::Meaning::Quantified(place)
        | sz_scope::Meaning::TypeName(place)
        | sz_scope::Meaning::Table(place)
        | sz_scope::Meaning::Function(place)
        | sz_scope::Meaning::Builtin(place) => Some(place as usize),
        sz_scope::Meaning::Input => None,
    }
}

// A meaning at a place, as the blocks keep it.
fn placed(place: u32, meaning: &Meaning) -> sz_scope::Meaning
    ensures value { result ≡ placed place meaning.now }
{
    match meaning {
        Meaning::Variable(_, _) => sz_scope::Meaning::Var(place),
        Meaning::Quantified(_, _) => sz_scope::Meaning::Quantified(place),
        Meaning::Static(_, _) => sz_scope::Meaning::Static(place),
        Meaning::Type(_) => sz_scope::Meaning::TypeName(place),
        Meaning::Table(_, _) => sz_scope::Meaning::Table(place),
        Meaning::Function(_, _) => sz_scope::Meaning::Function(place),
        Meaning::Predeclared(_) => sz_scope::Meaning::Builtin(place),
        Meaning::Input => sz_scope::Meaning::Input,
    }
}

// Closes the innermost block, if there are more than `outside` round it.
fn close_innermost(scopes: &mut Scopes, outside: usize)
    ensures value { scopes.new ≡ without_innermost outside scopes.old }
{
    let depth = scopes.depth();
    if depth > 0 && depth - 1 > outside {
        scopes.pop();
    }
}

// Whether a name that nothing declares is one of those that are left out.
fn is_left_out(name: &[u8]) -> bool
    ensures value { result ≡ has_name name.now left_out_names }
{
    name == b"float".as_slice()
        || name == b"fingerprint".as_slice()
        || name == b"fingerprintof".as_slice()
        || name == b"match".as_slice()
}

// Nothing that is seen has the name: it is unknown, or left out.
fn unseen(alloc: Global, name: &Name) -> JudgeError
    ensures value { Stops {Y = Unit} result (unseen name.now) }
{
    let cause = if is_left_out(name.text().as_bytes()) {
        Cause::LeftOut
    } else {
        Cause::UnknownName
    };
    JudgeError::of(alloc, cause, name)
}

impl Model for Known {
    ghost use Rattle.sz_check_names.specs.Knowledge.{Knowledge};
    ghost use Rattle.sz_check_names.specs.KnownCode.{knowledge_code};
    ghost use Rattle.sz_check_names.specs.Keeping.{blocks_by, knowledge_of, IsKept};

    ghost Value = { Knowledge };

    ghost coded = { knowledge_code };

    ghost view = { λ k. knowledge_of (blocks_by k.types k.meanings.items k.scopes) k.sight k.types k.locals };

    ghost invariant = { λ k. IsKept k.types k.meanings.items k.scopes k.sight };
}

impl Known {
    /// The predeclared names, in a block round the program's own, which is empty.
    pub fn predeclared(alloc: Global) -> Result<Known, AllocError>
        ensures value { IfOk result (λ made. scene_of made ≡ at_first) }
        ensures fresh { IfOk result (λ made. (made.outside.types ≡ []) × (made.outside.sight ≡ sights.Record)) }
    {
        let mut known = Known::in_one_block(alloc)?;
        let (_, known) = beside(known.put_predeclared(), known)?;
        Ok(known)
    }

    // The predeclared names in the one block, and an empty block inside it.
    fn put_predeclared(&mut self) -> Result<(), AllocError>
        requires first { self.old ≡ at_no_name }
        ensures value { IfOk result (λ _. scene_of self.new ≡ at_first) }
        ensures fresh { IfOk result (λ _. (self.new.outside.types ≡ []) × (self.new.outside.sight ≡ sights.Record)) }
    {
        self.put("strfind", Meaning::Predeclared(Builtin::StrFind))?;
        self.put("haskey", Meaning::Predeclared(Builtin::HasKey))?;
        self.put("keys", Meaning::Predeclared(Builtin::Keys))?;
        self.put("len", Meaning::Predeclared(Builtin::Len))?;
        self.put("input", Meaning::Input)?;
        self.open()
    }

    // No names, in the one block that is open.
    fn in_one_block(alloc: Global) -> Result<Known, AllocError>
        ensures value { IfOk result (λ made. made ≡ at_no_name) }
    {
        Ok(Known {
            scopes: one_block(alloc)?,
            meanings: Vec::new(alloc),
            types: NamedTypes::new(alloc),
            sight: Sight::Record,
            locals: Tys::new(alloc),
        })
    }

    // A name more in the innermost block, if the block doesn't have it: so it says.
    fn put(&mut self, name: &str, meaning: Meaning) -> Result<bool, AllocError>
        requires typed { IsTyped (length self.old.outside.types) meaning }
        ensures new { IfOk result (λ is_new. is_new ≡ not (has name.now self.old.innermost)) }
        ensures ok { IfOk result
            (λ is_new. self.new ≡ (if is_new then with_name name.now (meaning_of self.old.outside.types meaning) self.old else
            self.old)) }
        ensures err { OnErr result (self.new ≡ self.old) }
    {
        let (place, meaning) = beside(small(self.meanings.len()), meaning)?;
        let what = placed(place, &meaning);
        self.meanings.push(meaning)?;
        is_new(self.scopes.declare(name, what))
    }

    // A type more, with its number.
    fn add_type(&mut self, written: Written) -> Result<u32, AllocError>
        ensures number { IfOk result (λ number. number ≡ length self.old.outside.types) }
        ensures ok { IfOk result (λ _. self.new ≡ with_type (shape_in self.old.outside.types written) self.old) }
        ensures err { OnErr result (self.new ≡ self.old) }
    {
        self.types.add(written)
    }

    /// What the name stands for where an expression stands, if anything that is seen has it.
    pub fn find(&self, site: Site, name: &Name) -> Option<Means<'_>>
        ensures value { maybe_means_of result ≡ names.meaning_of name.now.text (blocks_for self.now site) }
        ensures types { IfSome result (IsOfTypes self.now.outside.types) }
    {
        let sight = sight_for(self.sight, site);
        let found = self.scopes.find_seen(name.text().as_str(), sight)?;
        match place_of(*found) {
            Some(place) => Some(self.meanings[place].means(&self.types)),
            None => Some(Means::Input),
        }
    }

    /// What the name stands for, or the refusal of an unknown name, or of one that is left out of the language, where
    /// nothing that is seen has it. The value of a static sees less than a statement.
    pub fn look_up(&self, site: Site, name: &Name) -> Verdict<Means<'_>>
        ensures value { Judges means_of result (look_up name.now (blocks_for self.now site)) }
        ensures types { IfOk result (IsOfTypes self.now.outside.types) }
    {
        match self.find(site, name) {
            Some(means) => Ok(means),
            None => Err(unseen(self.types.alloc(), name)),
        }
    }

    /// A name more in the innermost block, or the refusal `declared twice`.
    pub fn declare(&mut self, name: &Name, meaning: Meaning) -> Verdict<()>
        requires typed { IsTyped (length self.old.outside.types) meaning }
        ensures value { Judges (λ _. blocks_of self.new) result
            (declare name.now (meaning_of self.old.outside.types meaning) (blocks_of self.old)) }
        ensures outside { self.new.outside ≡ self.old.outside }
        ensures locals { self.new.locals ≡ self.old.locals }
        ensures err { OnErr result (self.new ≡ self.old) }
    {
        if self.put(name.text().as_str(), meaning)? {
            Ok(())
        } else {
            Err(JudgeError::of(self.types.alloc(), Cause::Redeclared, name))
        }
    }

    /// A type by its name, as it is written, or the refusal `declared twice`.
    pub fn declare_type(&mut self, name: &Name, written: Written) -> Verdict<()>
        ensures value { Judges (λ _. blocks_of self.new) result
            (declare name.now (type_name (shape_in self.old.outside.types written)) (blocks_of self.old)) }
        ensures outside { (self.new.outside ≡ self.old.outside)
            ⊎ (self.new.outside ≡ record self.old.outside { types = self.old.outside.types ++ shape_in self.old.outside.types written ∷ [] }) }
        ensures locals { self.new.locals ≡ self.old.locals }
        ensures err { OnErr result (self.new.innermost ≡ self.old.innermost) }
    {
        let number = match &written {
            Written::Named(number) if (*number as usize) < self.types.len() => *number,
            _ => self.add_type(written)?,
        };
        self.declare(name, Meaning::Type(number))
    }

    // A type more among those of the routine's variables: its number, and a copy of it.
    fn add_local(&mut self, ty: Ty) -> Result<(u32, Ty), AllocError>
        ensures number { IfOk result (λ x. x.0 ≡ length self.old.locals) }
        ensures copy { IfOk result (λ x. seen x.1 ≡ seen ty) }
        ensures ok { IfOk result (λ _. self.new ≡ record self.old { locals = self.old.locals ++ seen ty ∷ [] }) }
        ensures err { OnErr result (self.new ≡ self.old) }
    {
        let (number, ty) = beside(small(self.locals.len()), ty)?;
        let (copy, ty) = beside(copy_ty(self.types.alloc(), &ty), ty)?;
        let (_, copy) = beside(self.locals.push(ty), copy)?;
        Ok((number, copy))
    }

    /// A variable more, which has the next number of its routine, counted from 0; or the refusal `declared twice`.
    pub fn declare_variable(&mut self, name: &Name, ty: Ty) -> Verdict<u32>
        ensures value { Judges (λ _. scene_of self.new) result (with_variable name.now (seen ty) (scene_of self.old)) }
        ensures number { IfOk result (λ number. number ≡ length self.old.locals) }
        ensures outside { self.new.outside ≡ self.old.outside }
        ensures err { OnErr result (self.new.innermost ≡ self.old.innermost) }
    {
        let (number, copy) = self.add_local(ty)?;
        self.declare(name, Meaning::Variable(number, copy))?;
        Ok(number)
    }

    /// A variable more that a `when` quantifies, which has the next number of all variables of its routine; or the refusal
    /// `declared twice`.
    pub fn declare_quantified(&mut self, name: &Name, ty: Ty) -> Verdict<u32>
        ensures value { Judges (λ _. scene_of self.new) result (with_quantified name.now (seen ty) (scene_of self.old)) }
        ensures number { IfOk result (λ number. number ≡ length self.old.locals) }
        ensures outside { self.new.outside ≡ self.old.outside }
        ensures err { OnErr result (self.new.innermost ≡ self.old.innermost) }
    {
        let (number, copy) = self.add_local(ty)?;
        self.declare(name, Meaning::Quantified(number, copy))?;
        Ok(number)
    }

    /// An empty block more, inside.
    pub fn open(&mut self) -> Result<(), AllocError>
        ensures value { IfOk result (λ _. self.new ≡ record self.old { innermost = []; outside = outside_of self.old }) }
        ensures err { OnErr result (self.new ≡ self.old) }
    {
        self.scopes.push()
    }

    /// The end of the innermost block, if the routine opened it. The variables inside keep their numbers.
    pub fn close(&mut self)
        ensures value { (k : Knowledge) → self.old.outside ≡ outside_of k → self.new ≡ record k { locals = self.old.locals } }
        ensures none { self.old.outside.own ≡ 0 → self.new ≡ self.old }
    {
        let outside = floor(self.sight);
        close_innermost(&mut self.scopes, outside);
    }

    /// The block of a function inside the innermost one, with no variables yet; and what is to be put back after the function.
    pub fn enter_function(&mut self) -> Result<Aside, AllocError>
        ensures value { IfOk result (λ _. self.new ≡ in_function self.old) }
        ensures aside { IfOk result (λ aside. (aside.sight ≡ self.old.outside.sight) × (aside.locals ≡ self.old.locals)) }
        ensures kept { IfOk result (λ _. IsBySight self.old) }
        ensures err { OnErr result (self.new ≡ self.old) }
    {
        let outside = self.scopes.depth();
        self.scopes.push()?;
        let none = Tys::new(self.types.alloc());
        Ok(Aside {
            sight: mem::replace(&mut self.sight, Sight::Function { outside }),
            locals: mem::replace(&mut self.locals, none),
        })
    }

    /// The end of a function's block, with the types of the function's variables by number.
    pub fn leave_function(&mut self, aside: Aside) -> Tys
        ensures value { (k : Knowledge) → IsBySight k → aside.sight ≡ k.outside.sight → aside.locals ≡ k.locals → IsRoundFunction k
            self.old → self.new ≡ k }
        ensures locals { result ≡ self.old.locals }
    {
        close_innermost(&mut self.scopes, 0);
        self.sight = fitting(aside.sight, self.scopes.depth().saturating_sub(1));
        mem::replace(&mut self.locals, aside.locals)
    }

    /// Where its parts are.
    pub fn alloc(&self) -> Global {
        self.types.alloc()
    }

    /// The named types by number.
    pub fn types(&self) -> &NamedTypes
        ensures value { result.now ≡ self.now.outside.types }
    {
        &self.types
    }

    /// The types of the record's variables by number.
    pub fn into_locals(self) -> Tys
        ensures value { result ≡ self.locals }
    {
        self.locals
    }
}
