//! The flat form: threads with their calls replaced and their locals numbered a thread at a time.
use crate::expr::{LockName, Lvalue, Placed};
use crate::program::{Mutex, Variable};
use crate::tree::Name;
use ido_base::place::Place;
use ido_ints::Kind;

/// A statement. Each place is that of its first token.
#[cycle(flat)]
#[derive(Drop)]
pub enum Statement {
    /// The target takes the value, converted to its kind.
    Assign {
        place: Place,
        target: Lvalue,
        value: Placed,
    },
    /// The first arm whose condition isn't 0, else the last part.
    If {
        place: Place,
        arms: Vec<Arm>,
        otherwise: Vec<Statement>,
    },
    /// The body while the condition isn't 0.
    While {
        place: Place,
        condition: Placed,
        body: Vec<Statement>,
    },
    /// The body, and again while the condition isn't 0.
    Do {
        place: Place,
        body: Vec<Statement>,
        condition: Placed,
    },
    /// Takes a lock.
    Lock {
        place: Place,
        lock: LockName,
    },
    /// Gives a lock back.
    Unlock {
        place: Place,
        lock: LockName,
    },
}

/// A condition and what is done where it isn't 0.
#[cycle(flat)]
#[derive(Drop)]
pub struct Arm {
    pub condition: Placed,
    pub body: Vec<Statement>,
}

/// A thread.
#[derive(Drop)]
pub struct Thread {
    pub name: Name,
    /// The kinds of its locals, by their numbers.
    pub locals: Vec<Kind>,
    /// Of each local the array to whose elements it refers, where it is a reference.
    pub refers: Vec<Option<u32>>,
    pub body: Vec<Statement>,
    /// The place of its closing brace.
    pub closing: Place,
}

/// A program without calls.
#[derive(Drop)]
pub struct Flat {
    /// By the numbers of locks.
    pub mutexes: Vec<Mutex>,
    pub variables: Vec<Variable>,
    pub threads: Vec<Thread>,
}
