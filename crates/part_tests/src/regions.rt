//! Cuts of a section that stores, reads and stores again, with their faults worked out by hand.
use crate::steps::{step, store, target, value};
use c_tree::expr::{LockName, Lvalue, Placed};
use flow_graph::cuts::Cuts;
use flow_graph::graph::{Action, Graph, Node};
use ido_base::location::Location;
use region_checker::{CheckError, check};
use std::alloc::{AllocError, Global};
use std::test::Fail;

/// A variable that is no array.
const SCALAR: Location = Location {
    variable: 0,
    lo: 0,
    hi: 0,
    key: None,
};

/// Another location.
const OTHER: Location = Location {
    variable: 1,
    lo: 0,
    hi: 0,
    key: None,
};

/// An element of an array that isn't known.
const ELEMENT: Location = Location {
    variable: 2,
    lo: 0,
    hi: 3,
    key: None,
};

/// Lock, store, read, store, unlock, end.
fn section<'a>(
    a: Global,
    lock: &'a LockName,
    target: &'a Lvalue,
    value: &'a Placed,
    first: Location,
    read: Location,
    last: Location,
) -> Result<Graph<'a>, AllocError> {
    let mut nodes = Vec::new(a);
    nodes.push(step(a, Action::Lock { lock, next: 1 }))?;
    nodes.push(store(a, first, 2))?;
    let mut reading = step(
        a,
        Action::Eval {
            target,
            value,
            next: 3,
        },
    );
    reading.reads.push(read)?;
    nodes.push(reading)?;
    nodes.push(store(a, last, 4))?;
    nodes.push(step(a, Action::Unlock { lock, next: 5 }))?;
    nodes.push(step(a, Action::End))?;
    Ok(Graph {
        nodes,
        threads: Vec::new(a),
    })
}

/// Boundaries after the lock, before the last store and before the unlock.
fn cuts(a: Global, [lock, last, unlock]: [bool; 3]) -> Result<Cuts, AllocError> {
    Ok(Cuts {
        before: Vec::from_array(a, [false, false, false, last, unlock, false])?,
        after_lock: Vec::from_array(a, [lock])?,
    })
}

/// The elements that the section stores first, reads, and stores last; which of the boundaries stand; and what is said of them.
const CUTS: [([Location; 3], [bool; 3], Option<CheckError>); 7] = [
    (
        [OTHER, SCALAR, SCALAR],
        [false, false, false],
        Some(CheckError::MissingAfterAcquire { node: 0 }),
    ),
    (
        [OTHER, SCALAR, SCALAR],
        [true, false, false],
        Some(CheckError::MissingBeforeRelease { node: 4 }),
    ),
    (
        [OTHER, SCALAR, SCALAR],
        [true, false, true],
        Some(CheckError::Anti { read: 2, store: 3 }),
    ),
    ([OTHER, SCALAR, SCALAR], [true, true, true], None),
    ([SCALAR, SCALAR, SCALAR], [true, false, true], None),
    (
        [ELEMENT, ELEMENT, ELEMENT],
        [true, false, true],
        Some(CheckError::Anti { read: 2, store: 3 }),
    ),
    ([ELEMENT, ELEMENT, ELEMENT], [true, true, true], None),
];

#[test]
fn cuts_of_a_section(rt: HostRuntime) -> Result<(), Fail> {
    let a = rt.alloc();
    let target = target();
    let value = value();
    let lock = LockName {
        mutex: 0,
        key: None,
    };
    for ([first, read, last], stands, wanted) in CUTS {
        let graph = section(a, &lock, &target, &value, first, read, last)?;
        let found = check(a, &graph, &cuts(a, stands)?).err();
        assert_eq!(rt; found, wanted, "{stands:?}");
    }
    Ok(())
}
