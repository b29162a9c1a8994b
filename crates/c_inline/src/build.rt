//! The flat form of statements. Calls are gone through by a list of bodies that have been begun, so that a long
//! chain of calls takes no deep recursion.
ghost use Rattle.std.specs.Prelude.{◌≡◌, ◌<◌, ◌++◌, ◌∷◌, [], map, length, IfOk, OnOk, slice_index_or};
ghost use Rattle.std.specs.Option.{option_copied, option_map};
ghost use Rattle.c_tree.specs.Exprs.{placed_of, lvalue_of};
ghost use Rattle.c_tree.specs.Programs as p;
ghost use Rattle.c_tree.specs.Programs.{function_of, returned_of};
ghost use Rattle.c_tree.specs.Flats as f;
ghost use Rattle.c_tree.specs.Inlining as i;
ghost use Rattle.c_inline.specs.links.Weights as v;
ghost use Rattle.c_inline.specs.links.InlinedBodies.{AreSized, IsTaken, locals_of, whole, after, following_of, begun_made, begun_if_any};
ghost use Rattle.c_inline.specs.links.InlinedBodies.{all_made, and_any, work_if_any, all_work, function_work};

use crate::shift::{shift, shift_lock, shift_placed, shift_target};
use crate::weight::{SIZE, call_weight};
use c_tree::expr::{Expr, Lvalue, Placed};
use c_tree::flat;
use c_tree::program::{Arm, Function, Returned, Statement};
use ido_base::place::Place;
use ido_ints::Kind;
use std::alloc::{AllocError, Global};

/// What calls are replaced by: the functions, and what each weighs by `SIZE`.
#[derive(Clone, Copy)]
pub struct Bodies<'a> {
    pub functions: &'a [Function],
    pub sizes: &'a [Option<u64>],
}

/// A body that has been begun: its function, how many of its statements are done, where its locals begin, and what
/// stands after it.
#[derive(Drop)]
struct Begun {
    function: u32,
    done: usize,
    by: u32,
    following: Option<flat::Statement>,
}

/// The kinds of the locals of a thread so far, and of each the array to whose elements it refers, where it is a reference.
#[derive(Drop)]
pub struct Locals {
    pub kinds: Vec<Kind>,
    pub refers: Vec<Option<u32>>,
}

/// How many locals there are; beyond 2^32 - 1 there is no memory for so many.
fn local_count(kinds: &[Kind]) -> Result<u32, AllocError>
    ensures { IfOk result (λ count. count ≡ length kinds.now) }
{
    u32::try_from(kinds.len()).map_err(|_| AllocError)
}

/// The kind of a local.
fn kind_of(locals: &[Kind], index: usize) -> Kind
    ensures { result ≡ slice_index_or locals.now index Kind.Int }
{
    match locals.get(index) {
        Some(kind) => *kind,
        None => Kind::Int,
    }
}

/// Parameters take the arguments.
fn pass(
    alloc: Global,
    place: Place,
    first: u32,
    locals: &[Kind],
    by: u32,
    arguments: &[Placed],
    made: &mut Vec<flat::Statement>,
) -> Result<(), AllocError>
    ensures { OnOk result (f.statements_of made.new.items
        ≡ i.statements_and (f.statements_of made.old.items) (i.passed place first locals.now (map (i.shifted_placed by) (map placed_of arguments.now)))) }
{
    let mut local = first;
    for (index, argument) in arguments.iter().enumerate() {
        let value = shift_placed(alloc, by, argument)?;
        made.push(flat::Statement::Assign {
            place,
            target: Lvalue::Local {
                place,
                local,
                kind: kind_of(locals, index),
            },
            value,
        })?;
        local = local.checked_add(1).ok_or(AllocError)?;
    }
    Ok(())
}

/// The assignment of a result, converted to its function's kind.
fn assign(
    alloc: Global,
    place: Place,
    first: u32,
    returned: &Option<Returned>,
    by: u32,
    target: &Option<Lvalue>,
) -> Result<Option<flat::Statement>, AllocError>
    ensures { IfOk result (λ following. following_of following
        ≡ i.assigned place first (option_map returned_of returned.now) (option_map (i.shifted_target by) (option_map lvalue_of target.now))) }
{
    match (returned, target) {
        (Some(returned), Some(target)) => {
            let target = shift_target(alloc, by, target)?;
            let operand = shift(alloc, first, &returned.value.expr)?;
            let operand = Box::new(alloc, operand)?;
            Ok(Some(flat::Statement::Assign {
                place,
                target,
                value: Placed {
                    place: returned.value.place,
                    expr: Expr::Converted {
                        kind: returned.kind,
                        operand,
                    },
                },
            }))
        }
        _ => Ok(None),
    }
}

/// Appends the locals of a function.
fn add_locals(locals: &mut Locals, called: &Function) -> Result<(), AllocError>
    ensures { OnOk result (locals_of locals.new ≡ i.joined (locals_of locals.old) (i.locals called.now.locals.items called.now.refers.items)) }
{
    locals.kinds.extend_from_slice(&called.locals)?;
    locals.refers.extend_from_slice(&called.refers)?;
    Ok(())
}

/// Begins the body of a call, unless nothing is left of the call.
fn begin(
    alloc: Global,
    bodies: Bodies,
    by: u32,
    place: Place,
    function: u32,
    arguments: &[Placed],
    target: &Option<Lvalue>,
    locals: &mut Locals,
    made: &mut Vec<flat::Statement>,
) -> Result<Option<Begun>, AllocError>
    requires { AreSized (map function_of bodies.functions.now) bodies.sizes.now }
    ensures made { IfOk result (λ begun. let fs = map function_of bodies.entry.functions.now in
        after (f.statements_of made.old.items)
        (i.statement fs (whole fs) by (locals_of locals.old) (p.Call place place function (map placed_of arguments.now) (option_map lvalue_of target.now)))
        ≡ after (f.statements_of made.new.items) (begun_if_any bodies.entry.functions.now begun (locals_of locals.new))) }
    ensures work { IfOk result (λ begun. let fs = map function_of bodies.entry.functions.now in
        work_if_any bodies.entry.functions.now begun
        < v.called_weight v.size 2 fs (function_work fs) function (map placed_of arguments.now) (option_map lvalue_of target.now)) }
{
    if call_weight(
        SIZE,
        bodies.functions,
        bodies.sizes,
        function,
        arguments,
        target,
    ) == 0
    {
        return Ok(None);
    }
    let Some(called) = bodies.functions.get(function as usize) else {
        return Ok(None);
    };
    let first = local_count(&locals.kinds)?;
    pass(alloc, place, first, &called.locals, by, arguments, made)?;
    add_locals(locals, called)?;
    let following = assign(alloc, place, first, &called.result, by, target)?;
    Ok(Some(Begun {
        function,
        done: 0,
        by: first,
        following,
    }))
}

/// Takes the next statement of a body that has been begun.
fn next<'a>(bodies: Bodies<'a>, begun: &mut Begun) -> Option<&'a Statement>
    ensures { IsTaken bodies.entry.functions.now begun.old (option_copied result) begun.new }
{
    let function = bodies.functions.get(begun.function as usize)?;
    let statement = function.body.get(begun.done)?;
    begun.done += 1;
    Some(statement)
}

/// Appends a body that has been begun, if there is one.
fn push_begun(waiting: &mut Vec<Begun>, begun: Option<Begun>) -> Result<(), AllocError>
    ensures { OnOk result (waiting.new.items ≡ and_any waiting.old.items begun) }
{
    if let Some(begun) = begun {
        waiting.push(begun)?;
    }
    Ok(())
}

/// Appends what stands after a body, if there is something.
fn push_following(
    made: &mut Vec<flat::Statement>,
    following: Option<flat::Statement>,
) -> Result<(), AllocError>
    ensures { OnOk result (f.statements_of made.new.items ≡ i.statements_and (f.statements_of made.old.items) (following_of following)) }
{
    if let Some(following) = following {
        made.push(following)?;
    }
    Ok(())
}

/// One step of a body that has been begun: its next statement, or what stands after it. What is left waits.
#[cycle(build)]
fn make_step(
    alloc: Global,
    bodies: Bodies,
    begun: Begun,
    waiting: &mut Vec<Begun>,
    locals: &mut Locals,
    made: &mut Vec<flat::Statement>,
) -> Result<(), AllocError>
    requires { AreSized (map function_of bodies.functions.now) bodies.sizes.now }
    ensures made { OnOk result
        (after (f.statements_of made.old.items) (all_made bodies.entry.functions.now (waiting.old.items ++ begun ∷ []) (locals_of locals.old))
        ≡ after (f.statements_of made.new.items) (all_made bodies.entry.functions.now waiting.new.items (locals_of locals.new))) }
    ensures work { OnOk result (all_work bodies.entry.functions.now waiting.new.items < all_work bodies.entry.functions.now (waiting.old.items ++ begun ∷ [])) }
{
    let mut begun = begun;
    match next(bodies, &mut begun) {
        Some(statement) => {
            let by = begun.by;
            waiting.push(begun)?;
            let inner = make_or_begin(alloc, bodies, by, statement, locals, made)?;
            push_begun(waiting, inner)
        }
        None => push_following(made, begun.following),
    }
}

/// Makes a body that has been begun, with all the bodies that it calls.
#[cycle(build)]
fn make_body(
    alloc: Global,
    bodies: Bodies,
    begun: Begun,
    locals: &mut Locals,
    made: &mut Vec<flat::Statement>,
) -> Result<(), AllocError>
    requires { AreSized (map function_of bodies.functions.now) bodies.sizes.now }
    ensures { OnOk result (after (f.statements_of made.old.items) (begun_made bodies.entry.functions.now begun (locals_of locals.old))
        ≡ record { made = f.statements_of made.new.items; locals = locals_of locals.new }) }
{
    let mut waiting = Vec::new(alloc);
    waiting.push(begun)?;
    while let Some(begun) = waiting.pop() {
        make_step(alloc, bodies, begun, &mut waiting, locals, made)?;
    }
    Ok(())
}

/// Makes a statement that isn't a call, or begins the body of a call.
#[cycle(build)]
fn make_or_begin(
    alloc: Global,
    bodies: Bodies,
    by: u32,
    statement: &Statement,
    locals: &mut Locals,
    made: &mut Vec<flat::Statement>,
) -> Result<Option<Begun>, AllocError>
    requires { AreSized (map function_of bodies.functions.now) bodies.sizes.now }
    ensures made { IfOk result (λ begun. let fs = map function_of bodies.entry.functions.now in
        after (f.statements_of made.old.items) (i.statement fs (whole fs) by (locals_of locals.old) (p.statement_of statement.now))
        ≡ after (f.statements_of made.new.items) (begun_if_any bodies.entry.functions.now begun (locals_of locals.new))) }
    ensures work { IfOk result (λ begun. let fs = map function_of bodies.entry.functions.now in
        work_if_any bodies.entry.functions.now begun < v.statement_weight v.size 2 fs (function_work fs) (p.statement_of statement.now)) }
{
    match statement {
        Statement::Call {
            place,
            function,
            arguments,
            result: target,
            ..
        } => begin(
            alloc, bodies, by, *place, *function, arguments, target, locals, made,
        ),
        Statement::Assign {
            place,
            target,
            value,
        } => {
            let target = shift_target(alloc, by, target)?;
            let value = shift_placed(alloc, by, value)?;
            made.push(flat::Statement::Assign {
                place: *place,
                target,
                value,
            })?;
            Ok(None)
        }
        Statement::If {
            place,
            arms,
            otherwise,
        } => {
            let arms = make_arms(alloc, bodies, by, arms, locals)?;
            let otherwise = make_statements(alloc, bodies, by, otherwise, locals)?;
            made.push(flat::Statement::If {
                place: *place,
                arms,
                otherwise,
            })?;
            Ok(None)
        }
        Statement::While {
            place,
            condition,
            body,
        } => {
            let condition = shift_placed(alloc, by, condition)?;
            let body = make_statements(alloc, bodies, by, body, locals)?;
            made.push(flat::Statement::While {
                place: *place,
                condition,
                body,
            })?;
            Ok(None)
        }
        Statement::Do {
            place,
            body,
            condition,
        } => {
            let body = make_statements(alloc, bodies, by, body, locals)?;
            let condition = shift_placed(alloc, by, condition)?;
            made.push(flat::Statement::Do {
                place: *place,
                body,
                condition,
            })?;
            Ok(None)
        }
        Statement::Lock { place, lock } => {
            let lock = shift_lock(alloc, by, lock)?;
            made.push(flat::Statement::Lock {
                place: *place,
                lock,
            })?;
            Ok(None)
        }
        Statement::Unlock { place, lock } => {
            let lock = shift_lock(alloc, by, lock)?;
            made.push(flat::Statement::Unlock {
                place: *place,
                lock,
            })?;
            Ok(None)
        }
    }
}

/// Appends the flat form of a statement.
#[cycle(build)]
fn make_statement(
    alloc: Global,
    bodies: Bodies,
    by: u32,
    statement: &Statement,
    locals: &mut Locals,
    made: &mut Vec<flat::Statement>,
) -> Result<(), AllocError>
    requires { AreSized (map function_of bodies.functions.now) bodies.sizes.now }
    ensures { OnOk result (let fs = map function_of bodies.entry.functions.now in
        after (f.statements_of made.old.items) (i.statement fs (whole fs) by (locals_of locals.old) (p.statement_of statement.now))
        ≡ record { made = f.statements_of made.new.items; locals = locals_of locals.new }) }
{
    match make_or_begin(alloc, bodies, by, statement, locals, made)? {
        Some(begun) => make_body(alloc, bodies, begun, locals, made),
        None => Ok(()),
    }
}

/// The flat form of statements. The locals of what they call are appended to those that there are.
#[cycle(build)]
pub fn make_statements(
    alloc: Global,
    bodies: Bodies,
    by: u32,
    statements: &[Statement],
    locals: &mut Locals,
) -> Result<Vec<flat::Statement>, AllocError>
    requires { AreSized (map function_of bodies.functions.now) bodies.sizes.now }
    ensures { IfOk result (λ made. let fs = map function_of bodies.entry.functions.now in
        i.statements fs (whole fs) by (locals_of locals.old) (p.statements_of statements.now)
        ≡ record { made = f.statements_of made.items; locals = locals_of locals.new }) }
{
    let mut made = Vec::new(alloc);
    for statement in statements {
        make_statement(alloc, bodies, by, statement, locals, &mut made)?;
    }
    Ok(made)
}

/// The flat form of conditions with what is done where they hold.
#[cycle(build)]
fn make_arms(
    alloc: Global,
    bodies: Bodies,
    by: u32,
    arms: &[Arm],
    locals: &mut Locals,
) -> Result<Vec<flat::Arm>, AllocError>
    requires { AreSized (map function_of bodies.functions.now) bodies.sizes.now }
    ensures { IfOk result (λ made. let fs = map function_of bodies.entry.functions.now in
        i.arms_of fs (whole fs) by (locals_of locals.old) (p.arms_list_of arms.now)
        ≡ record { made = f.arms_list_of made.items; locals = locals_of locals.new }) }
{
    let mut made = Vec::new(alloc);
    for arm in arms {
        let condition = shift_placed(alloc, by, &arm.condition)?;
        let body = make_statements(alloc, bodies, by, &arm.body, locals)?;
        made.push(flat::Arm { condition, body })?;
    }
    Ok(made)
}
