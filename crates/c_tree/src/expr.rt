//! Expressions whose names are resolved and whose kinds are fixed.
ghost use Rattle.std.specs.Prelude.{◌≡◌};
ghost use Rattle.c_tree.specs.Exprs.{expr_of, lock_name_of, lock_ref_of};
ghost use Rattle.c_tree.specs.Elaboration.{kind_of};

use ido_base::place::Place;
use ido_ints::{Binary, Kind, Unary, Value};

/// An expression. It has no side effects.
#[derive(Drop)]
pub enum Expr {
    /// A number.
    Constant {
        value: Value,
    },
    /// A local, by its number.
    Local {
        local: u32,
        kind: Kind,
    },
    /// A persistent variable that is no array; the place is that of its name.
    Variable {
        place: Place,
        variable: u32,
        kind: Kind,
    },
    /// An element of a persistent array. The places are those of its name and of the index's first token.
    Element {
        place: Place,
        variable: u32,
        kind: Kind,
        index_place: Place,
        index: Box<Expr>,
    },
    /// `&variable[index]`: a reference to the element, its number and 1 more. The place is that of the index's first token.
    Address {
        variable: u32,
        index_place: Place,
        index: Box<Expr>,
    },
    /// The number of the element to which a local refers, which isn't past the last one of its array. The place is that of `*`.
    Referent {
        place: Place,
        last: u32,
        local: u32,
    },
    /// An operator with one operand.
    Unary {
        operator: Unary,
        operand: Box<Expr>,
    },
    /// A cast, as it is written.
    Cast {
        kind: Kind,
        operand: Box<Expr>,
    },
    /// A conversion that isn't written: it is no node of a price.
    Converted {
        kind: Kind,
        operand: Box<Expr>,
    },
    /// An operator with two operands.
    Binary {
        operator: Binary,
        left: Box<Expr>,
        right: Box<Expr>,
    },
    /// `condition ? then : otherwise`, whose value is converted to the kind.
    Conditional {
        kind: Kind,
        condition: Box<Expr>,
        then: Box<Expr>,
        otherwise: Box<Expr>,
    },
}

impl Expr {
    /// The kind of its value.
    pub fn kind(&self) -> Kind
        ensures { result ≡ kind_of (expr_of self.now) }
    {
        match self {
            Expr::Constant { value } => value.kind(),
            Expr::Address { .. } | Expr::Referent { .. } => Kind::UnsignedLong,
            Expr::Local { kind, .. }
            | Expr::Variable { kind, .. }
            | Expr::Element { kind, .. }
            | Expr::Cast { kind, .. }
            | Expr::Converted { kind, .. }
            | Expr::Conditional { kind, .. } => *kind,
            Expr::Unary { operator, operand } => operator.kind(operand.kind()),
            Expr::Binary {
                operator,
                left,
                right,
            } => operator.kind(left.kind(), right.kind()),
        }
    }
}

/// An expression with the place of its first token.
#[derive(Drop)]
pub struct Placed {
    pub place: Place,
    pub expr: Expr,
}

/// The name of a lock: a mutex, or an element of an array of mutexes, which the key tells.
#[derive(Drop)]
pub struct LockName {
    /// The number of the mutex; of an array that of its first one.
    pub mutex: u32,
    /// It reads locals alone.
    pub key: Option<Placed>,
}

impl LockName {
    /// The name, whose key stays where it stands.
    pub fn as_ref(&self) -> LockRef<'_>
        ensures { lock_ref_of result ≡ lock_name_of self.now }
    {
        let key = match &self.key {
            Some(key) => Some(PlacedRef {
                place: key.place,
                expr: &key.expr,
            }),
            None => None,
        };
        LockRef {
            mutex: self.mutex,
            key,
        }
    }
}

/// An expression that stands elsewhere, with the place of its first token.
#[derive(Clone, Copy, Drop)]
pub struct PlacedRef<'a> {
    pub place: Place,
    pub expr: &'a Expr,
}

/// The name of a lock whose key stands elsewhere.
#[derive(Clone, Copy, Drop)]
pub struct LockRef<'a> {
    /// The number of the mutex; of an array that of its first one.
    pub mutex: u32,
    pub key: Option<PlacedRef<'a>>,
}

/// What is assigned.
#[derive(Drop)]
pub enum Lvalue {
    /// A local, by its number; the place is that of its name, of a declared one that of the declaration, of a parameter that of the call.
    Local {
        place: Place,
        local: u32,
        kind: Kind,
    },
    /// A persistent variable that is no array; the place is that of its name.
    Variable {
        place: Place,
        variable: u32,
        kind: Kind,
    },
    /// An element of a persistent array; the place is that of its name.
    Element {
        place: Place,
        variable: u32,
        kind: Kind,
        index: Placed,
    },
}
