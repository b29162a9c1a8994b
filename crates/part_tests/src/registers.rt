//! Registers of a short thread's locals that clash, worked out by hand.
use crate::flats::{HERE, KIND, flat, sum};
use c_tree::expr::{Expr, Lvalue};
use c_tree::flat::{Flat, Statement};
use flow_graph::colours::Colours;
use flow_live::live;
use flow_lower::lower;
use ido_base::place::Place;
use ido_ints::Value;
use reg_colour::{ColourError, check_colours};
use std::alloc::{AllocError, Global};
use std::test::Fail;

fn number() -> Expr {
    Expr::Constant {
        value: Value::reduce(KIND, 1),
    }
}

fn local(local: u32) -> Expr {
    Expr::Local { local, kind: KIND }
}

/// The local takes the sum.
fn keep(a: Global, local: u32, left: Expr, right: Expr) -> Result<Statement, AllocError> {
    let target = Lvalue::Local {
        place: Place(0),
        local,
        kind: KIND,
    };
    sum(a, target, left, right)
}

/// The registers of four locals, and the first clash among them: the node, and both locals. Node i assigns local i; locals 0 and 2 are read at
/// node 3, 1 and 3 at node 4.
const COLOURS: [([u8; 4], Option<(usize, usize, usize)>); 6] = [
    ([0, 1, 2, 3], None),
    ([0, 0, 0, 0], Some((1, 0, 1))),
    ([0, 1, 0, 1], Some((2, 0, 2))),
    ([5, 7, 7, 5], Some((2, 1, 2))),
    ([5, 7, 8, 5], Some((3, 0, 3))),
    ([5, 7, 8, 7], Some((3, 1, 3))),
];

/// Four locals are set, the last from two others, and a variable from two.
fn short(a: Global) -> Result<Flat, AllocError> {
    let target = Lvalue::Variable {
        place: HERE,
        variable: 0,
        kind: KIND,
    };
    let mut body = Vec::new(a);
    body.push(keep(a, 0, number(), number())?)?;
    body.push(keep(a, 1, number(), number())?)?;
    body.push(keep(a, 2, number(), number())?)?;
    body.push(keep(a, 3, local(0), local(2))?)?;
    body.push(sum(a, target, local(1), local(3))?)?;
    flat(a, 4, body, &[0])
}

#[test]
fn clashes(rt: HostRuntime) -> Result<(), Fail> {
    let a = rt.alloc();
    let flat = short(a)?;
    let graph = lower(a, &flat)?;
    let sets = live(a, &graph)?;
    for (registers, clash) in COLOURS {
        let threads = vec![in a; registers.to_vec(a)?]?;
        let found = check_colours(a, &graph, &sets, &Colours { threads }).err();
        let wanted = clash.map(|(node, a, b)| ColourError::Clash { node, a, b });
        assert_eq!(rt; found, wanted, "{registers:?}");
    }
    Ok(())
}
