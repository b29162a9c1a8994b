//! Flat forms of one thread, with one mutex and variables of kind `int`.
use c_tree::expr::{Expr, Lvalue, Placed};
use c_tree::flat::{Flat, Statement, Thread};
use c_tree::program::{Guard, Mutex, Variable};
use c_tree::tree::Name;
use ido_base::place::Place;
use ido_ints::{Binary, Kind};
use std::alloc::{AllocError, Global};

pub(crate) const HERE: Place = Place(0);

pub(crate) const KIND: Kind = Kind::Int;

/// An operator with two operands.
pub(crate) fn binary(
    a: Global,
    operator: Binary,
    left: Expr,
    right: Expr,
) -> Result<Expr, AllocError> {
    Ok(Expr::Binary {
        operator,
        left: Box::new(a, left)?,
        right: Box::new(a, right)?,
    })
}

/// The target takes the value.
pub(crate) fn assign(place: Place, target: Lvalue, expr: Expr) -> Statement {
    Statement::Assign {
        place,
        target,
        value: Placed { place, expr },
    }
}

/// The target takes the sum.
pub(crate) fn sum(
    a: Global,
    target: Lvalue,
    left: Expr,
    right: Expr,
) -> Result<Statement, AllocError> {
    Ok(assign(HERE, target, binary(a, Binary::Add, left, right)?))
}

fn name(a: Global) -> Result<Name, AllocError> {
    Ok(Name {
        text: b"x".to_vec(a)?,
        place: HERE,
    })
}

/// The form of a thread with so many locals, and of variables with these numbers.
pub(crate) fn flat(
    a: Global,
    locals: usize,
    body: Vec<Statement>,
    initials: &[i128],
) -> Result<Flat, AllocError> {
    let thread = Thread {
        name: name(a)?,
        locals: vec![in a; KIND; locals]?,
        refers: vec![in a; None; locals]?,
        body,
        closing: HERE,
    };
    let mut variables = Vec::new(a);
    for initial in initials {
        variables.push(Variable {
            name: name(a)?,
            guard: Guard::By { mutex: 0 },
            kind: KIND,
            refers: None,
            length: None,
            initial: vec![in a; *initial]?,
        })?;
    }
    Ok(Flat {
        mutexes: vec![in a;
            Mutex {
                name: name(a)?,
                length: None,
            },
        ]?,
        variables,
        threads: vec![in a; thread]?,
    })
}
