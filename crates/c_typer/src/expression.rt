//! Expressions.
ghost use Rattle.std.specs.Prelude.{◌≡◌, IfOk, OnOk};
ghost use Rattle.c_tree.specs.Exprs as e;
ghost use Rattle.c_tree.specs.Exprs.{expr_of, placed_of};
ghost use Rattle.c_tree.specs.TypeRules as rules;
ghost use Rattle.c_tree.specs.Elaboration as typing;
ghost use Rattle.c_tree.specs.Views.{expression_of, name_of};
ghost use Rattle.c_typer.specs.links.FirstFaults.{first_of, noted};
ghost use Rattle.c_typer.specs.links.Scopes.{globals_of, referring_of, scope_of};

use crate::faults::Faults;
use crate::globals::{Globals, Referring};
use crate::meaning::{Reference, int, resolve};
use crate::scope::Scope;
use c_tree::expr::{Expr, Placed};
use c_tree::language::Language;
use c_tree::rule::Rule;
use c_tree::tree::{Expression, Name};
use ido_base::place::Place;
use ido_ints::{Binary, Kind, Unary, Value, common};
use std::alloc::{AllocError, Global};

/// The place of the first token.
pub fn first_place(expression: &Expression) -> Place
    ensures { result ≡ typing.first_place (expression_of expression.now) }
{
    match expression {
        Expression::Number { place, .. }
        | Expression::Null { place }
        | Expression::Address { place, .. }
        | Expression::Referent { place, .. }
        | Expression::Parenthesised { place, .. }
        | Expression::Unary { place, .. }
        | Expression::Cast { place, .. } => *place,
        Expression::Named { name } => name.place,
        Expression::Element { array, .. } => array.place,
        Expression::Binary { left, .. } => first_place(left),
        Expression::Conditional { condition, .. } => first_place(condition),
    }
}

/// A name, as it stands in an expression.
pub fn named(globals: &Globals, scope: &Scope, name: &Name) -> Expr
    ensures { expr_of result ≡ typing.named (globals_of globals.now) (scope_of scope.now) (name_of name.now) }
{
    resolve(globals, scope, &name.text).named(name.place)
}

/// An element of an array.
pub fn element(
    alloc: Global,
    globals: &Globals,
    scope: &Scope,
    array: &Name,
    index: Placed,
) -> Result<Expr, AllocError>
    ensures { IfOk result (λ x. expr_of x ≡ typing.element (globals_of globals.now) (scope_of scope.now) (name_of array.now) index.place (expr_of index.expr)) }
{
    resolve(globals, scope, &array.text).element(alloc, array.place, index)
}

/// The element to which a local refers, whose `*` stands at the place.
pub fn followed(
    alloc: Global,
    globals: &Globals,
    scope: &Scope,
    place: Place,
    name: &Name,
) -> Result<Expr, AllocError>
    ensures { IfOk result (λ x. expr_of x ≡ typing.followed (globals_of globals.now) (scope_of scope.now) place (name_of name.now)) }
{
    match resolve(globals, scope, &name.text).reference() {
        Some(reference) => Ok(Expr::Element {
            place,
            variable: reference.array.number,
            kind: reference.array.kind,
            index_place: place,
            index: Box::new(alloc, referent(place, reference))?,
        }),
        None => Ok(int(0)),
    }
}

/// The index of the element to which the local refers.
pub fn referent(place: Place, reference: Reference) -> Expr
    ensures { expr_of result ≡ e.Referent place reference.array.last reference.local }
{
    Expr::Referent {
        place,
        last: reference.array.last,
        local: reference.local,
    }
}

/// The address of an element of an array.
fn address(
    alloc: Global,
    globals: &Globals,
    scope: &Scope,
    array: &Name,
    index: Placed,
) -> Result<Expr, AllocError>
    ensures { IfOk result (λ x. expr_of x ≡ typing.address (globals_of globals.now) (scope_of scope.now) (name_of array.now) index.place (expr_of index.expr)) }
{
    resolve(globals, scope, &array.text).address(alloc, index)
}

/// What the element is to which a local refers.
pub fn referent_referring(globals: &Globals, scope: &Scope, name: &Name) -> Referring
    ensures { referring_of result ≡ rules.of_referent globals.now.language (globals_of globals.now) (scope_of scope.now) (name_of name.now) }
{
    match resolve(globals, scope, &name.text).reference() {
        Some(reference) => reference.array.elements,
        None => Referring::Anything,
    }
}

/// What the value of a name is, or an element of it.
pub fn name_referring(globals: &Globals, scope: &Scope, name: &Name) -> Referring
    ensures { referring_of result ≡ rules.of_name globals.now.language (globals_of globals.now) (scope_of scope.now) (name_of name.now) }
{
    resolve(globals, scope, &name.text).referring(globals)
}

/// What the value of an expression is.
pub fn referring(globals: &Globals, scope: &Scope, expression: &Expression) -> Referring
    ensures { referring_of result ≡ rules.referring globals.now.language (globals_of globals.now) (scope_of scope.now) (expression_of expression.now) }
{
    match expression {
        Expression::Number { .. }
        | Expression::Unary { .. }
        | Expression::Cast { .. }
        | Expression::Binary { .. }
        | Expression::Conditional { .. } => Referring::Number,
        Expression::Named { name } => name_referring(globals, scope, name),
        Expression::Element { array, .. } => name_referring(globals, scope, array),
        Expression::Null { .. } => Referring::Null,
        Expression::Address { array, .. } => {
            resolve(globals, scope, &array.text).address_referring()
        }
        Expression::Referent { reference, .. } => referent_referring(globals, scope, reference),
        Expression::Parenthesised { inner, .. } => referring(globals, scope, inner),
    }
}

/// Where a value that refers is told.
fn told_at(expression: &Expression) -> Place
    ensures { result ≡ rules.told_at (expression_of expression.now) }
{
    match expression {
        Expression::Number { place, .. }
        | Expression::Null { place }
        | Expression::Address { place, .. }
        | Expression::Unary { place, .. }
        | Expression::Cast { place, .. } => *place,
        Expression::Named { name } => name.place,
        Expression::Element { array, .. } => array.place,
        Expression::Referent { reference, .. } => reference.place,
        Expression::Parenthesised { inner, .. } => told_at(inner),
        Expression::Binary { left, .. } => told_at(left),
        Expression::Conditional { condition, .. } => told_at(condition),
    }
}

/// Whether it may be a number.
pub fn may_be_number(value: Referring) -> bool
    ensures { result ≡ rules.may_be_number (referring_of value) }
{
    match value {
        Referring::Number | Referring::Anything => true,
        Referring::Null | Referring::To { .. } => false,
    }
}

/// Whether both are references, to one array, or one of them is null.
pub fn are_comparable(one: Referring, other: Referring) -> bool
    ensures { result ≡ rules.are_comparable (referring_of one) (referring_of other) }
{
    match one {
        Referring::Anything => true,
        Referring::Number => match other {
            Referring::Anything => true,
            Referring::Number | Referring::Null | Referring::To { .. } => false,
        },
        Referring::Null => match other {
            Referring::Number => false,
            Referring::Null | Referring::To { .. } | Referring::Anything => true,
        },
        Referring::To { array } => match other {
            Referring::Number => false,
            Referring::To { array: with } => array == with,
            Referring::Null | Referring::Anything => true,
        },
    }
}

/// Notes a reference where a number is wanted.
pub fn note_number(globals: &Globals, scope: &Scope, faults: &mut Faults, expression: &Expression)
    ensures { first_of faults.new ≡ noted (first_of faults.old)
        (rules.number_faults globals.now.language (globals_of globals.now) (scope_of scope.now) (expression_of expression.now)) }
{
    if !may_be_number(referring(globals, scope, expression)) {
        faults.note(Rule::WrongSort, told_at(expression));
    }
}

/// Notes a value that isn't one for what refers so, and whose name stands at the place.
pub fn note_given(
    globals: &Globals,
    scope: &Scope,
    faults: &mut Faults,
    to: Referring,
    target: Place,
    expression: &Expression,
)
    ensures { first_of faults.new ≡ noted (first_of faults.old)
        (rules.given_faults globals.now.language (globals_of globals.now) (scope_of scope.now) (referring_of to) target (expression_of expression.now)) }
{
    match to {
        Referring::Number => note_number(globals, scope, faults, expression),
        Referring::Null | Referring::To { .. } | Referring::Anything => {
            if !are_comparable(to, referring(globals, scope, expression)) {
                faults.note(Rule::WrongSort, target);
            }
        }
    }
}

/// Whether the operator compares references.
fn is_comparison(operator: Binary) -> bool
    ensures { result ≡ rules.is_comparison operator }
{
    matches!(operator, Binary::Equal | Binary::NotEqual)
}

/// Notes operands that are neither numbers nor references to compare.
#[tactic(auto, using(crate::proofs::FirstFaultLaws::noted_append))]
fn note_operands(
    globals: &Globals,
    scope: &Scope,
    faults: &mut Faults,
    operator: Binary,
    left: &Expression,
    right: &Expression,
)
    ensures { first_of faults.new ≡ noted (first_of faults.old)
        (rules.operand_faults globals.now.language (globals_of globals.now) (scope_of scope.now) operator (expression_of left.now) (expression_of right.now)) }
{
    let compared = is_comparison(operator)
        && are_comparable(
            referring(globals, scope, left),
            referring(globals, scope, right),
        );
    if !compared {
        note_number(globals, scope, faults, left);
        note_number(globals, scope, faults, right);
    }
}

/// Notes a reference in a plain program.
pub fn note_only_full(globals: &Globals, faults: &mut Faults, place: Place)
    ensures { first_of faults.new ≡ noted (first_of faults.old) (rules.only_full globals.now.language place) }
{
    match globals.language {
        Language::Plain => faults.note(Rule::WrongSort, place),
        Language::Full => (),
    }
}

/// Notes the rule that the use of a name breaks as an array to whose elements there may be references.
pub fn note_array(globals: &Globals, scope: &Scope, faults: &mut Faults, name: &Name)
    ensures { first_of faults.new ≡ noted (first_of faults.old)
        (rules.array_faults globals.now.language (globals_of globals.now) (scope_of scope.now) (name_of name.now)) }
{
    let rule = resolve(globals, scope, &name.text).array_rule(globals);
    faults.note_some(rule, name.place);
}

/// Notes the rule that the use of a name as a reference breaks.
pub fn note_reference(globals: &Globals, scope: &Scope, faults: &mut Faults, name: &Name)
    ensures { first_of faults.new ≡ noted (first_of faults.old)
        (rules.reference_faults globals.now.language (globals_of globals.now) (scope_of scope.now) (name_of name.now)) }
{
    let rule = resolve(globals, scope, &name.text).reference_rule();
    faults.note_some(rule, name.place);
}

/// Notes the rule that the use of a name breaks.
pub fn note_use(globals: &Globals, scope: &Scope, faults: &mut Faults, name: &Name, indexed: bool)
    ensures { first_of faults.new ≡ noted (first_of faults.old)
        (rules.use_faults globals.now.language (globals_of globals.now) (scope_of scope.now) (name_of name.now) indexed) }
{
    let rule = resolve(globals, scope, &name.text).use_rule(indexed);
    faults.note_some(rule, name.place);
}

/// An expression.
#[tactic(auto, using(crate::proofs::FirstFaultLaws::noted_append))]
pub fn value(
    alloc: Global,
    globals: &Globals,
    scope: &Scope,
    faults: &mut Faults,
    expression: &Expression,
) -> Result<Expr, AllocError>
    ensures made { IfOk result (λ x. expr_of x ≡ typing.expr (globals_of globals.now) (scope_of scope.now) (expression_of expression.now)) }
    ensures noted { OnOk result (first_of faults.new ≡ noted (first_of faults.old)
        (rules.expression_faults globals.now.language (globals_of globals.now) (scope_of scope.now) (expression_of expression.now))) }
{
    match expression {
        Expression::Number { value, .. } => Ok(Expr::Constant { value: *value }),
        Expression::Named { name } => {
            note_use(globals, scope, faults, name, false);
            Ok(named(globals, scope, name))
        }
        Expression::Element { array, index } => {
            note_use(globals, scope, faults, array, true);
            let place = first_place(index);
            let expr = value(alloc, globals, scope, faults, index)?;
            note_number(globals, scope, faults, index);
            element(alloc, globals, scope, array, Placed { place, expr })
        }
        Expression::Null { place } => {
            note_only_full(globals, faults, *place);
            Ok(Expr::Constant {
                value: Value::new(Kind::UnsignedLong, 0),
            })
        }
        Expression::Address {
            place,
            array,
            index,
        } => {
            note_only_full(globals, faults, *place);
            note_array(globals, scope, faults, array);
            let place = first_place(index);
            let expr = value(alloc, globals, scope, faults, index)?;
            note_number(globals, scope, faults, index);
            address(alloc, globals, scope, array, Placed { place, expr })
        }
        Expression::Referent { place, reference } => {
            note_only_full(globals, faults, *place);
            note_reference(globals, scope, faults, reference);
            followed(alloc, globals, scope, *place, reference)
        }
        Expression::Parenthesised { inner, .. } => value(alloc, globals, scope, faults, inner),
        Expression::Unary {
            operator,
            operand,
            ..
        } => {
            let made = value(alloc, globals, scope, faults, operand)?;
            note_number(globals, scope, faults, operand);
            unary_of(alloc, *operator, made)
        }
        Expression::Cast { kind, operand, .. } => {
            let made = value(alloc, globals, scope, faults, operand)?;
            note_number(globals, scope, faults, operand);
            cast_of(alloc, *kind, made)
        }
        Expression::Binary {
            operator,
            left,
            right,
        } => {
            let first = value(alloc, globals, scope, faults, left)?;
            let second = value(alloc, globals, scope, faults, right)?;
            note_operands(globals, scope, faults, *operator, left, right);
            binary_of(alloc, *operator, first, second)
        }
        Expression::Conditional {
            condition,
            then,
            otherwise,
        } => {
            let first = value(alloc, globals, scope, faults, condition)?;
            let second = value(alloc, globals, scope, faults, then)?;
            let third = value(alloc, globals, scope, faults, otherwise)?;
            note_number(globals, scope, faults, condition);
            note_number(globals, scope, faults, then);
            note_number(globals, scope, faults, otherwise);
            conditional_of(alloc, first, second, third)
        }
    }
}

/// Notes the persistent variable that a name in a key is.
fn note_persistent(globals: &Globals, scope: &Scope, faults: &mut Faults, name: &Name)
    ensures { first_of faults.new ≡ noted (first_of faults.old)
        (rules.persistent_faults globals.now.language (globals_of globals.now) (scope_of scope.now) (name_of name.now)) }
{
    let rule = resolve(globals, scope, &name.text).persistent_rule();
    faults.note_some(rule, name.place);
}

/// Notes the persistent variables in a key.
#[tactic(auto, using(crate::proofs::FirstFaultLaws::noted_append))]
pub fn note_shared(globals: &Globals, scope: &Scope, faults: &mut Faults, expression: &Expression)
    ensures { first_of faults.new ≡ noted (first_of faults.old)
        (rules.shared_faults globals.now.language (globals_of globals.now) (scope_of scope.now) (expression_of expression.now)) }
{
    match expression {
        Expression::Number { .. } | Expression::Null { .. } => (),
        Expression::Referent { place, .. } => faults.note(Rule::WrongSort, *place),
        Expression::Named { name } => note_persistent(globals, scope, faults, name),
        Expression::Element { array, index } | Expression::Address { array, index, .. } => {
            note_persistent(globals, scope, faults, array);
            note_shared(globals, scope, faults, index);
        }
        Expression::Parenthesised { inner, .. } => note_shared(globals, scope, faults, inner),
        Expression::Unary { operand, .. } | Expression::Cast { operand, .. } => {
            note_shared(globals, scope, faults, operand)
        }
        Expression::Binary { left, right, .. } => {
            note_shared(globals, scope, faults, left);
            note_shared(globals, scope, faults, right);
        }
        Expression::Conditional {
            condition,
            then,
            otherwise,
        } => {
            note_shared(globals, scope, faults, condition);
            note_shared(globals, scope, faults, then);
            note_shared(globals, scope, faults, otherwise);
        }
    }
}

/// An expression with its place.
pub fn placed(
    alloc: Global,
    globals: &Globals,
    scope: &Scope,
    faults: &mut Faults,
    expression: &Expression,
) -> Result<Placed, AllocError>
    ensures made { IfOk result (λ x. placed_of x ≡ typing.placed (globals_of globals.now) (scope_of scope.now) (expression_of expression.now)) }
    ensures noted { OnOk result (first_of faults.new ≡ noted (first_of faults.old)
        (rules.expression_faults globals.now.language (globals_of globals.now) (scope_of scope.now) (expression_of expression.now))) }
{
    let expr = value(alloc, globals, scope, faults, expression)?;
    Ok(Placed {
        place: first_place(expression),
        expr,
    })
}

/// An expression with its place, of which a number is wanted.
#[tactic(auto, using(crate::proofs::FirstFaultLaws::noted_append))]
pub fn numeric(
    alloc: Global,
    globals: &Globals,
    scope: &Scope,
    faults: &mut Faults,
    expression: &Expression,
) -> Result<Placed, AllocError>
    ensures made { IfOk result (λ x. placed_of x ≡ typing.placed (globals_of globals.now) (scope_of scope.now) (expression_of expression.now)) }
    ensures noted { OnOk result (first_of faults.new ≡ noted (first_of faults.old)
        (rules.numeric_faults globals.now.language (globals_of globals.now) (scope_of scope.now) (expression_of expression.now))) }
{
    let made = placed(alloc, globals, scope, faults, expression)?;
    note_number(globals, scope, faults, expression);
    Ok(made)
}

fn unary_of(alloc: Global, operator: Unary, operand: Expr) -> Result<Expr, AllocError>
    ensures { IfOk result (λ x. expr_of x ≡ e.Unary operator (expr_of operand)) }
{
    let operand = Box::new(alloc, operand)?;
    Ok(Expr::Unary { operator, operand })
}

fn cast_of(alloc: Global, kind: Kind, operand: Expr) -> Result<Expr, AllocError>
    ensures { IfOk result (λ x. expr_of x ≡ e.Cast kind (expr_of operand)) }
{
    let operand = Box::new(alloc, operand)?;
    Ok(Expr::Cast { kind, operand })
}

/// An operator with two operands.
pub fn binary_of(
    alloc: Global,
    operator: Binary,
    left: Expr,
    right: Expr,
) -> Result<Expr, AllocError>
    ensures { IfOk result (λ x. expr_of x ≡ e.Binary operator (expr_of left) (expr_of right)) }
{
    let left = Box::new(alloc, left)?;
    let right = Box::new(alloc, right)?;
    Ok(Expr::Binary {
        operator,
        left,
        right,
    })
}

fn conditional_of(
    alloc: Global,
    condition: Expr,
    then: Expr,
    otherwise: Expr,
) -> Result<Expr, AllocError>
    ensures { IfOk result (λ x. expr_of x ≡ typing.conditional (expr_of condition) (expr_of then) (expr_of otherwise)) }
{
    let kind = common(then.kind(), otherwise.kind());
    let condition = Box::new(alloc, condition)?;
    let then = Box::new(alloc, then)?;
    let otherwise = Box::new(alloc, otherwise)?;
    Ok(Expr::Conditional {
        kind,
        condition,
        then,
        otherwise,
    })
}
