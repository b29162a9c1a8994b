//! Flow graphs.
ghost use Rattle.std.specs.Prelude.{◌≡◌};
ghost use Rattle.flow_graph.specs.Nodes.{node_of, next_of, other_of};

use c_tree::expr::{LockName, Lvalue, Placed};
use ido_base::location::Location;
use ido_base::place::Place;
use ido_ints::Kind;

/// What a node does, and its successors, by their numbers.
#[derive(Clone, Copy)]
pub enum Action<'a> {
    /// Evaluates a value for a target: a local takes it, the store of a variable is pending from then on.
    Eval {
        target: &'a Lvalue,
        value: &'a Placed,
        next: usize,
    },
    /// Makes the pending store, which is one of this variable.
    Store {
        variable: u32,
        kind: Kind,
        next: usize,
    },
    /// Goes on at one node where the condition isn't 0, and at the other where it is.
    Test {
        condition: &'a Placed,
        holds: usize,
        fails: usize,
    },
    /// Takes the lock that has this name.
    Lock {
        lock: &'a LockName,
        next: usize,
    },
    /// Gives the lock that has this name back.
    Unlock {
        lock: &'a LockName,
        next: usize,
    },
    /// The thread's last step.
    End,
}

/// A step of the source.
#[derive(Drop)]
pub struct Node<'a> {
    /// The place of the statement.
    pub place: Place,
    pub action: Action<'a>,
    /// The locals that it reads.
    pub uses: Vec<u32>,
    /// The local that it assigns.
    pub assigns: Option<u32>,
    /// The elements of variables that it reads.
    pub reads: Vec<Location>,
    /// The elements of which it writes one.
    pub writes: Option<Location>,
}

impl Node<'_> {
    /// The next node; of a test the one where the condition isn't 0. The end has none.
    pub fn next(&self) -> Option<usize>
        ensures { result ≡ next_of (node_of self.now).action }
    {
        match self.action {
            Action::Eval { next, .. }
            | Action::Store { next, .. }
            | Action::Lock { next, .. }
            | Action::Unlock { next, .. } => Some(next),
            Action::Test { holds, .. } => Some(holds),
            Action::End => None,
        }
    }

    /// The second node after a test, where its condition is 0. No other has one.
    pub fn other(&self) -> Option<usize>
        ensures { result ≡ other_of (node_of self.now).action }
    {
        match self.action {
            Action::Test { fails, .. } => Some(fails),
            _ => None,
        }
    }
}

/// The nodes of a thread: those from `first` up to `end`, without `end`. The thread begins at `first`.
#[derive(Clone, Copy, PartialEq, Eq, Debug, Drop)]
pub struct Part {
    pub first: usize,
    pub end: usize,
    /// How many locals the thread has.
    pub locals: usize,
}

/// The nodes of all threads, thread after thread, each in the order of its text.
#[derive(Drop)]
pub struct Graph<'a> {
    pub nodes: Vec<Node<'a>>,
    pub threads: Vec<Part>,
}
