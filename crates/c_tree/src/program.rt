//! Programs whose names are resolved and whose kinds are fixed.
use crate::expr::{LockName, Lvalue, Placed};
use crate::tree::Name;
use ido_base::place::Place;
use ido_ints::Kind;

/// A mutex, or an element of an array of mutexes.
#[derive(Drop)]
pub struct Mutex {
    pub name: Name,
    /// How many elements its array has; none where it is in none.
    pub length: Option<u32>,
}

/// What guards a variable.
#[derive(Clone, Copy, PartialEq, Eq, Debug)]
pub enum Guard {
    /// The mutex of this number guards all of it.
    By { mutex: u32 },
    /// Of an array of mutexes, the first of which has this number, each guards the element of its place.
    Each { first: u32 },
}

/// A persistent variable.
#[derive(Drop)]
pub struct Variable {
    pub name: Name,
    pub guard: Guard,
    /// The kind of its elements.
    pub kind: Kind,
    /// The array to whose elements it refers, where it has references.
    pub refers: Option<u32>,
    /// How many elements an array has; none where it is no array.
    pub length: Option<u32>,
    /// The numbers that its elements begin with, one for each element.
    pub initial: Vec<i128>,
}

/// A statement. Each place is that of its first token.
#[cycle(program)]
#[derive(Drop)]
pub enum Statement {
    /// The target takes the value, converted to its kind.
    Assign {
        place: Place,
        target: Lvalue,
        value: Placed,
    },
    /// A call, and the assignment of its result. The name is at `name`.
    Call {
        place: Place,
        name: Place,
        function: u32,
        arguments: Vec<Placed>,
        result: Option<Lvalue>,
    },
    /// The first arm whose condition isn't 0, else the last part.
    If {
        place: Place,
        arms: Vec<Arm>,
        otherwise: Vec<Statement>,
    },
    /// The body while the condition isn't 0.
    While {
        place: Place,
        condition: Placed,
        body: Vec<Statement>,
    },
    /// The body, and again while the condition isn't 0.
    Do {
        place: Place,
        body: Vec<Statement>,
        condition: Placed,
    },
    /// Takes a lock.
    Lock {
        place: Place,
        lock: LockName,
    },
    /// Gives a lock back.
    Unlock {
        place: Place,
        lock: LockName,
    },
}

/// A condition and what is done where it isn't 0.
#[cycle(program)]
#[derive(Drop)]
pub struct Arm {
    pub condition: Placed,
    pub body: Vec<Statement>,
}

/// A function.
#[derive(Drop)]
pub struct Function {
    pub name: Name,
    /// How many parameters it has: its first locals.
    pub parameters: u32,
    /// The kinds of its locals, by their numbers.
    pub locals: Vec<Kind>,
    /// Of each local the array to whose elements it refers, where it is a reference.
    pub refers: Vec<Option<u32>>,
    pub body: Vec<Statement>,
    /// The kind and the value of its result; none where it has no result.
    pub result: Option<Returned>,
}

/// What a function gives.
#[derive(Drop)]
pub struct Returned {
    pub kind: Kind,
    pub value: Placed,
}

/// A thread.
#[derive(Drop)]
pub struct Thread {
    pub name: Name,
    /// The kinds of its locals, by their numbers.
    pub locals: Vec<Kind>,
    /// Of each local the array to whose elements it refers, where it is a reference.
    pub refers: Vec<Option<u32>>,
    pub body: Vec<Statement>,
    /// The place of its closing brace.
    pub closing: Place,
}

/// A program.
#[derive(Drop)]
pub struct Program {
    /// By the numbers of locks: an array of mutexes has as many as it has elements.
    pub mutexes: Vec<Mutex>,
    pub variables: Vec<Variable>,
    pub functions: Vec<Function>,
    pub threads: Vec<Thread>,
}
