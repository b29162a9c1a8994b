//! Code of threads: what is left to do stands at a position of it.
ghost use Rattle.std.specs.Prelude.{◌≡◌, IfOk};
ghost use Rattle.ido_base.specs.declared.place.Place.{Place};
ghost use Rattle.c_tree.specs.Exprs.{placed_of};
ghost use Rattle.c_tree.specs.Flats.{statement_of, statements_of, arms_list_of};
ghost use Rattle.c_tree.specs.Source.{opened, opened_all};
ghost use Rattle.source_machine.specs.links.Codes.{Emits, EmitsArm, EmitsArms, EmitsLoop, IsPushed, IsCodeOf};

use c_tree::expr::{LockName, Lvalue, Placed};
use c_tree::flat::{Arm, Statement};
use ido_base::memory::OutOfMemory;
use std::alloc::Global;

/// What is done at a position, and the positions after it.
#[derive(Clone, Copy)]
pub(crate) enum Node<'a> {
    /// Nothing is left.
    End,
    /// The target takes the value.
    Assign {
        target: &'a Lvalue,
        value: &'a Placed,
        next: usize,
    },
    /// A condition, with what comes after it where it holds and where it doesn't.
    Test {
        condition: &'a Placed,
        holds: usize,
        fails: usize,
    },
    Lock {
        lock: &'a LockName,
        next: usize,
    },
    Unlock {
        lock: &'a LockName,
        next: usize,
    },
    /// An `if` without a condition: it has no step.
    Never,
}

/// The code of a thread, and where it begins.
#[derive(Drop)]
pub(crate) struct Code<'a> {
    pub(crate) nodes: Vec<Node<'a>>,
    pub(crate) start: usize,
}

/// The positions of a loop.
#[derive(Clone, Copy)]
struct Loop {
    test: usize,
    body: usize,
}

/// The code of a body. It is emitted from its end, so that what comes after a node stands before it.
pub(crate) fn compile<'a>(alloc: Global, body: &'a [Statement]) -> Result<Code<'a>, OutOfMemory>
    ensures { IfOk result (λ code. IsCodeOf code (statements_of body.now)) }
{
    let mut nodes = Vec::new(alloc);
    nodes.push(Node::End)?;
    let start = emit_all(&mut nodes, body, 0)?;
    Ok(Code { nodes, start })
}

/// Adds a node, and answers its position.
fn push<'a>(nodes: &mut Vec<Node<'a>>, node: Node<'a>) -> Result<usize, OutOfMemory>
    ensures { IfOk result (λ position. IsPushed nodes.old.items nodes.new.items node.entry position) }
{
    let position = nodes.len();
    nodes.push(node)?;
    Ok(position)
}

/// The code of statements, with what comes after them at `next`. Answers where it begins.
#[cycle(emission)]
fn emit_all<'a>(
    nodes: &mut Vec<Node<'a>>,
    statements: &'a [Statement],
    next: usize,
) -> Result<usize, OutOfMemory>
    ensures { IfOk result (λ entry. Emits nodes.old.items nodes.new.items (opened_all (statements_of statements.now)) next entry) }
{
    let mut entry = next;
    for i in (0..statements.len()).rev() {
        entry = emit(nodes, &statements[i], entry)?;
    }
    Ok(entry)
}

/// The code of a statement.
#[cycle(emission)]
fn emit<'a>(
    nodes: &mut Vec<Node<'a>>,
    statement: &'a Statement,
    next: usize,
) -> Result<usize, OutOfMemory>
    ensures { IfOk result (λ entry. Emits nodes.old.items nodes.new.items (opened (statement_of statement.now)) next entry) }
{
    match statement {
        Statement::Assign { target, value, .. } => push(
            nodes,
            Node::Assign {
                target,
                value,
                next,
            },
        ),
        Statement::If {
            arms,
            otherwise,
            ..
        } => {
            if arms.is_empty() {
                return push(nodes, Node::Never);
            }
            let last = emit_all(nodes, otherwise, next)?;
            emit_arms(nodes, arms, last, next)
        }
        Statement::While {
            condition,
            body,
            ..
        } => Ok(emit_loop(nodes, condition, body, next)?.test),
        Statement::Do {
            body,
            condition,
            ..
        } => Ok(emit_loop(nodes, condition, body, next)?.body),
        Statement::Lock { lock, .. } => push(nodes, Node::Lock { lock, next }),
        Statement::Unlock { lock, .. } => push(nodes, Node::Unlock { lock, next }),
    }
}

/// The code of the arms of an `if`, where its last part stands at `last`.
#[cycle(emission)]
fn emit_arms<'a>(
    nodes: &mut Vec<Node<'a>>,
    arms: &'a [Arm],
    last: usize,
    next: usize,
) -> Result<usize, OutOfMemory>
    ensures { IfOk result (λ entry. EmitsArms nodes.old.items nodes.new.items (arms_list_of arms.now) last next entry) }
{
    let mut entry = last;
    for i in (0..arms.len()).rev() {
        entry = emit_arm(nodes, &arms[i], entry, next)?;
    }
    Ok(entry)
}

/// The code of a condition with its body. Where the condition fails it goes on at `fails`.
#[cycle(emission)]
fn emit_arm<'a>(
    nodes: &mut Vec<Node<'a>>,
    arm: &'a Arm,
    fails: usize,
    next: usize,
) -> Result<usize, OutOfMemory>
    ensures { IfOk result (λ entry. EmitsArm nodes.old.items nodes.new.items arm.now fails next entry) }
{
    let holds = emit_all(nodes, &arm.body, next)?;
    push(
        nodes,
        Node::Test {
            condition: &arm.condition,
            holds,
            fails,
        },
    )
}

/// The code of a loop: its test, after which the body goes back to it.
#[cycle(emission)]
fn emit_loop<'a>(
    nodes: &mut Vec<Node<'a>>,
    condition: &'a Placed,
    body: &'a [Statement],
    next: usize,
) -> Result<Loop, OutOfMemory>
    ensures { IfOk result (λ made. EmitsLoop nodes.old.items nodes.new.items (placed_of condition.now) (statements_of body.now) next made) }
{
    let test = push(nodes, Node::Never)?;
    let holds = emit_all(nodes, body, test)?;
    nodes[test] = Node::Test {
        condition,
        holds,
        fails: next,
    };
    Ok(Loop { test, body: holds })
}
