//! Whether a statement emits, by its tree.
ghost use Rattle.std.specs.Prelude.{◌≡◌, ◌||◌, ◌++◌, ◌∷◌, [], take, length, map as each, IfOk, OnOk};
ghost use Rattle.std.specs.Option.{option_map};
ghost use Rattle.sz_tree.specs.Expressions.{exps_of, pairs_of};
ghost use Rattle.sz_tree.specs.Statements.{stms_of};
ghost use Rattle.sz_tree.specs.View.{tree_of, pair_of, step_of, simple_of, first_of, quantifier_of, stm_of};
ghost use Rattle.sz_check_rules.specs.Refusals.{has_name};
ghost use Rattle.sz_check_names.specs.Knowledge.{blocks_of, maybe_means_of};
ghost use Rattle.sz_check_rules.specs.EmittingTrees.{means_emitting, emits_by, is_seen_inside, texts_of, quantified_names, calls, exp_emits, exps_emit};
ghost use Rattle.sz_check_rules.specs.EmittingTrees.{pairs_emit, part_emits, steps_emit, simple_emits, between_emits, first_emits, hidden_after_first};
ghost use Rattle.sz_check_rules.specs.EmittingTrees.{hidden_after, stm_emits, stms_emit, for_emits, when_emits};
ghost use Rattle.sz_check_emits.specs.Hidden.{hidden_of};

use std::alloc::AllocError;
use sz_check_names::{Known, Means, Site};
use sz_tree::{Expr, First, Name, Pair, Quantifier, Quantity, Simple, Step, Stmt};

// The names that variables hide.
type Hidden<'t> = Vec<&'t Name>;

// Whether a statement emits, unless memory ran out.
type Emits = Result<bool, AllocError>;

// Whether a name calls what emits, by what it stands for.
fn means_emitting(means: Option<Means<'_>>) -> bool
    ensures value { result ≡ means_emitting (maybe_means_of means.entry) }
{
    match means {
        Some(Means::Function(_, signature)) => signature.emits,
        _ => false,
    }
}

// Whether a variable has the name.
fn has_name(hidden: &[&Name], name: &Name) -> bool
    ensures value { result ≡ has_name name.now.text (hidden_of hidden.now) }
{
    for other in hidden {
        if name.text().as_bytes() == other.text().as_bytes() {
            return true;
        }
    }
    false
}

// Whether the name calls what emits, where variables have these names.
fn calls(known: &Known, hidden: &[&Name], name: &Name) -> bool
    ensures value { result ≡ calls (emits_by (blocks_of known.now)) (hidden_of hidden.now) name.now.text }
{
    means_emitting(known.find(Site::Statement, name)) && !has_name(hidden, name)
}

// Whether evaluating the expression can emit.
#[cycle(emits)]
#[tactic(auto, unfolding(sz_check_rules::specs::EmittingTrees::exp_emits), using(sz_tree::proofs::RowLemmas::tree_of_call, sz_tree::proofs::RowLemmas::tree_of_list, sz_tree::proofs::RowLemmas::tree_of_map))]
fn exp_emits(known: &Known, hidden: &[&Name], tree: &Expr) -> bool
    ensures value { result ≡ exp_emits (emits_by (blocks_of known.now)) (hidden_of hidden.now) (tree_of tree.now) }
{
    match tree {
        Expr::Literal(_, _) | Expr::Named(_) => false,
        Expr::Call(name, items) => {
            calls(known, hidden, name) || exps_emit(known, hidden, items.as_slice())
        }
        Expr::List(_, items) => exps_emit(known, hidden, items.as_slice()),
        Expr::Map(_, pairs) => pairs_emit(known, hidden, pairs.as_slice()),
        Expr::Def(_, part) | Expr::Paren(_, part) => exp_emits(known, hidden, part),
        Expr::Convert(_, _, part) | Expr::Field(_, part, _) | Expr::Unary(_, _, part) => {
            exp_emits(known, hidden, part)
        }
        Expr::Index(_, a, b) | Expr::Binary(_, _, a, b) => {
            exp_emits(known, hidden, a) || exp_emits(known, hidden, b)
        }
        Expr::Slice(_, a, b, c) => {
            exp_emits(known, hidden, a)
                || exp_emits(known, hidden, b)
                || exp_emits(known, hidden, c)
        }
    }
}

#[cycle(emits)]
#[tactic(auto, using(crate::proofs::EmitLemmas::exps_turn, crate::proofs::EmitLemmas::exps_over))]
fn exps_emit(known: &Known, hidden: &[&Name], trees: &[Expr]) -> bool
    ensures value { result ≡ exps_emit (emits_by (blocks_of known.now)) (hidden_of hidden.now) (exps_of (each tree_of trees.now)) }
{
    for tree in trees {
        if exp_emits(known, hidden, tree) {
            return true;
        }
    }
    false
}

#[cycle(emits)]
#[tactic(auto, using(crate::proofs::EmitLemmas::pairs_turn, crate::proofs::EmitLemmas::pairs_over))]
fn pairs_emit(known: &Known, hidden: &[&Name], pairs: &[Pair]) -> bool
    ensures value { result ≡ pairs_emit (emits_by (blocks_of known.now)) (hidden_of hidden.now) (pairs_of (each pair_of pairs.now)) }
{
    for pair in pairs {
        if exp_emits(known, hidden, &pair.key) || exp_emits(known, hidden, &pair.value) {
            return true;
        }
    }
    false
}

// Whether an expression that may be missing can emit.
fn part_emits(known: &Known, hidden: &[&Name], tree: &Option<Expr>) -> bool
    ensures value { result ≡ part_emits (emits_by (blocks_of known.now)) (hidden_of hidden.now) (option_map tree_of tree.now) }
{
    match tree {
        Some(tree) => exp_emits(known, hidden, tree),
        None => false,
    }
}

// Whether a step is by an index that can emit.
#[tactic(auto, unfolding(sz_check_rules::specs::EmittingTrees::steps_emit))]
fn step_emits(known: &Known, hidden: &[&Name], step: &Step) -> bool
    ensures value { result ≡ steps_emit (emits_by (blocks_of known.now)) (hidden_of hidden.now) (step_of step.now ∷ []) }
{
    match step {
        Step::Index(tree) => exp_emits(known, hidden, tree),
        Step::Field(_) => false,
    }
}

// Whether an index among the steps can emit.
#[tactic(auto, using(crate::proofs::EmitLemmas::steps_turn, crate::proofs::EmitLemmas::steps_over))]
fn steps_emit(known: &Known, hidden: &[&Name], steps: &[Step]) -> bool
    ensures value { result ≡ steps_emit (emits_by (blocks_of known.now)) (hidden_of hidden.now) (each step_of steps.now) }
{
    for step in steps {
        if step_emits(known, hidden, step) {
            return true;
        }
    }
    false
}

// Whether an assignment or a call can emit.
fn simple_emits(known: &Known, hidden: &[&Name], tree: &Simple) -> bool
    ensures value { result ≡ simple_emits (emits_by (blocks_of known.now)) (hidden_of hidden.now) (simple_of tree.now) }
{
    match tree {
        Simple::Assign(path, value) => {
            steps_emit(known, hidden, path.steps.as_slice()) || exp_emits(known, hidden, value)
        }
        Simple::Increment(_) | Simple::Decrement(_) => false,
        Simple::Call(name, items) => {
            calls(known, hidden, name) || exps_emit(known, hidden, items.as_slice())
        }
    }
}

// Whether what is done between the turns of a `for` can emit.
fn between_emits(known: &Known, hidden: &[&Name], tree: &Option<Simple>) -> bool
    ensures value { result ≡ between_emits (emits_by (blocks_of known.now)) (hidden_of hidden.now) (option_map simple_of tree.now) }
{
    match tree {
        Some(tree) => simple_emits(known, hidden, tree),
        None => false,
    }
}

// Hides the name of a variable after what was found of its value.
fn hide_after<'t>(emits: bool, hidden: &mut Hidden<'t>, name: &'t Name) -> Emits
    ensures value { IfOk result (λ same. same ≡ emits) }
    ensures hidden { OnOk result (hidden_of hidden.new.items ≡ hidden_of hidden.old.items ++ name.now.text ∷ []) }
{
    hidden.push(name)?;
    Ok(emits)
}

// Whether the first part of a `for` can emit. Its variable's name is hidden after it.
fn first_emits<'t>(known: &Known, hidden: &mut Hidden<'t>, first: &'t Option<First>) -> Emits
    ensures value { IfOk result (λ emits. emits ≡ first_emits (emits_by (blocks_of known.now)) (hidden_of hidden.old.items) (option_map first_of first.now)) }
    ensures hidden { OnOk result (hidden_of hidden.new.items ≡ hidden_after_first (hidden_of hidden.old.items) (option_map first_of first.now)) }
{
    match first {
        None => Ok(false),
        Some(First::Declare(name, _, value)) | Some(First::Define(name, value)) => {
            hide_after(exp_emits(known, hidden.as_slice(), value), hidden, name)
        }
        Some(First::Simple(tree)) => Ok(simple_emits(known, hidden.as_slice(), tree)),
    }
}

// Hides these names.
fn hide_names<'t>(hidden: &mut Hidden<'t>, names: &'t [Name]) -> Result<(), AllocError>
    ensures ok { OnOk result (hidden_of hidden.new.items ≡ hidden_of hidden.old.items ++ texts_of names.now) }
{
    for name in names {
        hidden.push(name)?;
    }
    Ok(())
}

/// Whether the statement inside a `when` sees such a variable.
pub fn is_seen_inside(quantity: Quantity) -> bool
    ensures value { result ≡ is_seen_inside quantity }
{
    match quantity {
        Quantity::All => false,
        Quantity::Some | Quantity::Each => true,
    }
}

// Hides the names that quantifiers declare: in the condition all, and inside those that the statement inside sees.
fn hide_quantified<'t>(
    hidden: &mut Hidden<'t>,
    quantifiers: &'t [Quantifier],
    inside: bool,
) -> Result<(), AllocError>
    ensures ok { OnOk result (hidden_of hidden.new.items ≡ hidden_of hidden.old.items ++ quantified_names inside (each quantifier_of quantifiers.now)) }
{
    for quantifier in quantifiers {
        if !inside || is_seen_inside(quantifier.quantity) {
            hide_names(hidden, quantifier.names.as_slice())?;
        }
    }
    Ok(())
}

// Whether the statement can emit. A variable that it declares is hidden after it.
#[cycle(stm_emits)]
#[tactic(auto, unfolding(sz_check_rules::specs::EmittingTrees::stm_emits), using(sz_tree::proofs::RowLemmas::stm_of_block))]
fn stm_emits<'t>(known: &Known, hidden: &mut Hidden<'t>, tree: &'t Stmt) -> Emits
    ensures value { IfOk result (λ emits. emits ≡ stm_emits (emits_by (blocks_of known.now)) (hidden_of hidden.old.items) (stm_of tree.now)) }
    ensures hidden { OnOk result (hidden_of hidden.new.items ≡ hidden_after (hidden_of hidden.old.items) (stm_of tree.now)) }
{
    match tree {
        Stmt::Empty(_) | Stmt::Break(_) | Stmt::Continue(_) => Ok(false),
        Stmt::Static(_, _, _, _) | Stmt::Type(_, _, _) => Ok(false),
        Stmt::Table(_, _) | Stmt::Function(_, _, _, _) => Ok(false),
        Stmt::Block(_, trees) => block_emits(known, hidden, trees.as_slice()),
        Stmt::Declare(name, _, value) => {
            hide_after(part_emits(known, hidden.as_slice(), value), hidden, name)
        }
        Stmt::Define(name, value) => {
            hide_after(exp_emits(known, hidden.as_slice(), value), hidden, name)
        }
        Stmt::Simple(tree) => Ok(simple_emits(known, hidden.as_slice(), tree)),
        Stmt::If(_, test, body, None) | Stmt::While(_, test, body) => {
            tested_emits(known, hidden, body, test)
        }
        Stmt::If(_, test, taken, Some(other)) => {
            let asked = exp_emits(known, hidden.as_slice(), test);
            let taken = inside_emits(known, hidden, taken)?;
            let other = inside_emits(known, hidden, other)?;
            Ok(asked || (taken || other))
        }
        Stmt::DoWhile(_, body, test) => {
            let asked = exp_emits(known, hidden.as_slice(), test);
            let body = inside_emits(known, hidden, body)?;
            Ok(body || asked)
        }
        Stmt::For(_, first, test, between, body) => {
            for_emits(known, hidden, body, first, test, between)
        }
        Stmt::Return(_, value) => Ok(part_emits(known, hidden.as_slice(), value)),
        Stmt::Emit(_, _, _, _, _) => Ok(true),
        Stmt::When(_, quantifiers, test, body) => {
            when_emits(known, hidden, body, quantifiers.as_slice(), test)
        }
    }
}

// Whether a part statement can emit.
#[cycle(stm_emits)]
fn inside_emits<'t>(known: &Known, hidden: &mut Hidden<'t>, tree: &'t Stmt) -> Emits
    ensures value { IfOk result (λ emits. emits ≡ stm_emits (emits_by (blocks_of known.now)) (hidden_of hidden.old.items) (stm_of tree.now)) }
    ensures kept { OnOk result (hidden_of hidden.new.items ≡ hidden_of hidden.old.items) }
{
    let count = hidden.len();
    let emits = stm_emits(known, hidden, tree)?;
    hidden.truncate(count);
    Ok(emits)
}

// Whether a test or the statement after it can emit.
#[cycle(stm_emits)]
fn tested_emits<'t>(known: &Known, hidden: &mut Hidden<'t>, body: &'t Stmt, test: &Expr) -> Emits
    ensures value { IfOk result (λ emits. emits ≡ (exp_emits (emits_by (blocks_of known.now)) (hidden_of hidden.old.items) (tree_of test.now)
        || stm_emits (emits_by (blocks_of known.now)) (hidden_of hidden.old.items) (stm_of body.now))) }
    ensures kept { OnOk result (hidden_of hidden.new.items ≡ hidden_of hidden.old.items) }
{
    let asked = exp_emits(known, hidden.as_slice(), test);
    let body = inside_emits(known, hidden, body)?;
    Ok(asked || body)
}

// Whether one of the statements of a block can emit.
#[cycle(stm_emits)]
fn block_emits<'t>(known: &Known, hidden: &mut Hidden<'t>, trees: &'t [Stmt]) -> Emits
    ensures value { IfOk result (λ emits. emits ≡ stms_emit (emits_by (blocks_of known.now)) (hidden_of hidden.old.items) (stms_of (each stm_of trees.now))) }
    ensures kept { OnOk result (hidden_of hidden.new.items ≡ hidden_of hidden.old.items) }
{
    let count = hidden.len();
    let emits = stms_emit(known, hidden, trees)?;
    hidden.truncate(count);
    Ok(emits)
}

// Whether a `for` can emit.
#[cycle(stm_emits)]
fn for_emits<'t>(
    known: &Known,
    hidden: &mut Hidden<'t>,
    body: &'t Stmt,
    first: &'t Option<First>,
    test: &Option<Expr>,
    between: &Option<Simple>,
) -> Emits
    ensures value { IfOk result (λ emits. emits ≡ for_emits (emits_by (blocks_of known.now)) (hidden_of hidden.old.items)
        (option_map first_of first.now) (option_map tree_of test.now) (option_map simple_of between.now) (stm_of body.now)) }
    ensures kept { OnOk result (hidden_of hidden.new.items ≡ hidden_of hidden.old.items) }
{
    let count = hidden.len();
    let start = first_emits(known, hidden, first)?;
    let asked = part_emits(known, hidden.as_slice(), test);
    let step = between_emits(known, hidden.as_slice(), between);
    let body = inside_emits(known, hidden, body)?;
    hidden.truncate(count);
    Ok(start || (asked || step || body))
}

// Whether a `when` can emit.
#[cycle(stm_emits)]
fn when_emits<'t>(
    known: &Known,
    hidden: &mut Hidden<'t>,
    body: &'t Stmt,
    quantifiers: &'t [Quantifier],
    test: &Expr,
) -> Emits
    ensures value { IfOk result (λ emits. emits ≡ when_emits (emits_by (blocks_of known.now)) (hidden_of hidden.old.items)
        (each quantifier_of quantifiers.now) (tree_of test.now) (stm_of body.now)) }
    ensures kept { OnOk result (hidden_of hidden.new.items ≡ hidden_of hidden.old.items) }
{
    let count = hidden.len();
    hide_quantified(hidden, quantifiers, false)?;
    let asked = exp_emits(known, hidden.as_slice(), test);
    hidden.truncate(count);
    hide_quantified(hidden, quantifiers, true)?;
    let body = inside_emits(known, hidden, body)?;
    hidden.truncate(count);
    Ok(asked || body)
}

// Whether one of the statements can emit. The variables that they declare are hidden after them.
#[cycle(stm_emits)]
fn stms_emit<'t>(known: &Known, hidden: &mut Hidden<'t>, trees: &'t [Stmt]) -> Emits
    ensures value { IfOk result (λ emits. emits ≡ stms_emit (emits_by (blocks_of known.now)) (hidden_of hidden.old.items) (stms_of (each stm_of trees.now))) }
    ensures front { OnOk result (take (length hidden.old.items) (hidden_of hidden.new.items) ≡ hidden_of hidden.old.items) }
{
    let mut emits = false;
    for tree in trees {
        let here = stm_emits(known, hidden, tree)?;
        emits = emits || here;
    }
    Ok(emits)
}

/// Whether a function with this name and these statements emits, where what it sees is known, its parameters too. A call of
/// itself adds nothing.
pub fn body_emits(known: &Known, name: &Name, trees: &[Stmt]) -> Result<bool, AllocError>
    ensures value { IfOk result (λ emits. emits ≡ stms_emit (emits_by (blocks_of known.now)) (name.now.text ∷ []) (stms_of (each stm_of trees.now))) }
{
    let mut hidden = Vec::new(known.alloc());
    hidden.push(name)?;
    stms_emit(known, &mut hidden, trees)
}
