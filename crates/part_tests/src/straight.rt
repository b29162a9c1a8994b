//! Labels that show that straight code can't have fewer boundaries.
ghost use Rattle.std.specs.Prelude.{◌≡◌, IfOk, Some};
ghost use Rattle.flow_graph.specs.Nodes.{graph_of};
ghost use Rattle.region_cutter.specs.FewestCuts.{IsStretch};
ghost use Rattle.region_cutter.specs.declared.straight.Stretch as spec;

use crate::steps::{step, store, target, value};
use c_tree::expr::{LockName, Lvalue, Placed};
use flow_graph::graph::{Action, Graph, Node};
use ido_base::location::Location;
use ido_base::memory::OutOfMemory;
use region_checker::{LabelError, Least, check_labels};
use region_cutter::{Stretch, stretches};
use std::alloc::{AllocError, Global};
use std::test::Fail;

fn scalar(variable: u32) -> Location {
    Location {
        variable,
        lo: 0,
        hi: 0,
        key: None,
    }
}

/// Adds a step that reads these variables, if there are any, and a step that stores into this one, if there is one.
fn assign<'a>(
    a: Global,
    nodes: &mut Vec<Node<'a>>,
    target: &'a Lvalue,
    value: &'a Placed,
    written: Option<u32>,
    reads: &[u32],
) -> Result<(), AllocError> {
    let mut reading = step(
        a,
        Action::Eval {
            target,
            value,
            next: nodes.len() + 1,
        },
    );
    for variable in reads {
        reading.reads.push(scalar(*variable))?;
    }
    nodes.push(reading)?;
    if let Some(variable) = written {
        nodes.push(store(a, scalar(variable), nodes.len() + 1))?;
    }
    Ok(())
}

/// A lock, these assignments, an unlock, the end.
fn section<'a>(
    a: Global,
    lock: &'a LockName,
    target: &'a Lvalue,
    value: &'a Placed,
    assignments: &[(Option<u32>, &[u32])],
) -> Result<Graph<'a>, AllocError> {
    let mut nodes = Vec::new(a);
    nodes.push(step(a, Action::Lock { lock, next: 1 }))?;
    for (written, reads) in assignments {
        assign(a, &mut nodes, target, value, *written, reads)?;
    }
    let unlock = nodes.len();
    nodes.push(step(
        a,
        Action::Unlock {
            lock,
            next: unlock + 1,
        },
    ))?;
    nodes.push(step(a, Action::End))?;
    Ok(Graph {
        nodes,
        threads: Vec::new(a),
    })
}

/// The first stretch of the graph.
fn first_stretch(a: Global, graph: &Graph) -> Result<Option<Stretch>, OutOfMemory>
    ensures { IfOk result (λ found. (s : spec.Stretch) → found ≡ Some s → IsStretch (graph_of graph.now) s.first s.past) }
{
    let found = stretches(a, graph)?;
    if found.len() == 0 {
        return Ok(None);
    }
    Ok(Some(found[0]))
}

/// Labels of the nodes of x = y; y = x; x = y; and of what comes after it, how many boundaries there are said to be, and what is said of that.
const LABELS: [([usize; 7], &[usize], Result<Least, LabelError>); 6] = [
    ([0, 1, 0, 1, 1, 1, 2], &[4], Ok(Least)),
    ([1, 1, 1, 1, 1, 1, 2], &[4], Err(LabelError::Start)),
    (
        [0, 1, 0, 1, 1, 2, 2],
        &[4],
        Err(LabelError::Edge { from: 3, to: 6 }),
    ),
    (
        [0, 2, 2, 1, 1, 1, 2],
        &[4],
        Err(LabelError::Edge { from: 1, to: 2 }),
    ),
    (
        [0, 0, 0, 0, 0, 0, 0],
        &[4],
        Err(LabelError::End { label: 0, cuts: 1 }),
    ),
    (
        [0, 1, 0, 1, 1, 1, 2],
        &[3, 6],
        Err(LabelError::End { label: 2, cuts: 2 }),
    ),
];

#[test]
fn labels_of_straight_code(rt: HostRuntime) -> Result<(), Fail> {
    let a = rt.alloc();
    let target = target();
    let value = value();
    let lock = LockName {
        mutex: 0,
        key: None,
    };
    let graph = section(
        a,
        &lock,
        &target,
        &value,
        &[(Some(0), &[1]), (Some(1), &[0]), (Some(0), &[1])],
    )?;
    for (labels, cuts, wanted) in LABELS {
        let mut said = None;
        if let Some(stretch) = first_stretch(a, &graph)? {
            if stretch.past.saturating_sub(stretch.first) == 6 {
                said = Some(check_labels(a, &graph, stretch.first, stretch.past, cuts, &labels));
            }
        }
        assert_eq!(rt; said, Some(wanted));
    }
    Ok(())
}
