//! Steps of graphs that are made by hand.
use c_tree::expr::{Expr, Lvalue, Placed};
use flow_graph::graph::{Action, Node};
use ido_base::location::Location;
use ido_base::place::Place;
use ido_ints::Kind;
use std::alloc::Global;

const KIND: Kind = Kind::Int;

/// A variable's value.
pub(crate) fn value() -> Placed {
    Placed {
        place: Place(0),
        expr: Expr::Variable {
            place: Place(0),
            variable: 0,
            kind: KIND,
        },
    }
}

/// A local as a target.
pub(crate) fn target() -> Lvalue {
    Lvalue::Local {
        place: Place(0),
        local: 0,
        kind: KIND,
    }
}

/// A step that reads and writes nothing.
pub(crate) fn step(a: Global, action: Action<'_>) -> Node<'_> {
    Node {
        place: Place(0),
        action,
        uses: Vec::new(a),
        assigns: None,
        reads: Vec::new(a),
        writes: None,
    }
}

/// A store into the location.
pub(crate) fn store<'a>(a: Global, written: Location, next: usize) -> Node<'a> {
    let mut node = step(
        a,
        Action::Store {
            variable: written.variable,
            kind: KIND,
            next,
        },
    );
    node.writes = Some(written);
    node
}
