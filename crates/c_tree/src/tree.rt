//! What was read, with places.
ghost use Rattle.std.specs.Prelude.{◌≡◌};
ghost use Rattle.c_tree.specs.Names.{kind_named};
ghost use Rattle.c_tree.specs.Views.{lvalue_of, type_name_of};
ghost use Rattle.c_tree.specs.Elaboration.{target_place};

use ido_base::place::Place;
use ido_ints::{Binary, Kind, Unary, Value};

/// A name as it stands somewhere.
#[derive(Drop)]
pub struct Name {
    /// The name's bytes.
    pub text: Vec<u8>,
    /// Where the name begins.
    pub place: Place,
}

/// The type of a local, of a parameter, of a result or of a variable.
#[derive(Drop)]
pub enum TypeName {
    Kind(Kind),
    /// `ref(array)`: references to elements of the array.
    Reference { array: Name },
}

impl TypeName {
    /// The kind of the numbers that a value of the type may be.
    pub fn kind(&self) -> Kind
        ensures { result ≡ kind_named (type_name_of self.now) }
    {
        match self {
            TypeName::Kind(kind) => *kind,
            TypeName::Reference { .. } => Kind::UnsignedLong,
        }
    }
}

/// An expression. Each place is that of its first token.
#[derive(Drop)]
pub enum Expression {
    Number {
        place: Place,
        value: Value,
    },
    Named {
        name: Name,
    },
    /// `name[index]`
    Element {
        array: Name,
        index: Box<Expression>,
    },
    /// `null`
    Null {
        place: Place,
    },
    /// `&array[index]`
    Address {
        place: Place,
        array: Name,
        index: Box<Expression>,
    },
    /// `*reference`
    Referent {
        place: Place,
        reference: Name,
    },
    /// `(inner)`
    Parenthesised {
        place: Place,
        inner: Box<Expression>,
    },
    Unary {
        place: Place,
        operator: Unary,
        operand: Box<Expression>,
    },
    /// `(kind)operand`
    Cast {
        place: Place,
        kind: Kind,
        operand: Box<Expression>,
    },
    Binary {
        operator: Binary,
        left: Box<Expression>,
        right: Box<Expression>,
    },
    /// `condition ? then : otherwise`
    Conditional {
        condition: Box<Expression>,
        then: Box<Expression>,
        otherwise: Box<Expression>,
    },
}

/// What is assigned. The place is that of the first token.
#[derive(Drop)]
pub enum Lvalue {
    /// A name, or an element of an array.
    Named {
        name: Name,
        index: Option<Expression>,
    },
    /// `*reference`
    Followed {
        place: Place,
        reference: Name,
    },
}

impl Lvalue {
    /// The place of its first token.
    pub fn place(&self) -> Place
        ensures { result ≡ target_place (lvalue_of self.now) }
    {
        match self {
            Lvalue::Named { name, .. } => name.place,
            Lvalue::Followed { place, .. } => *place,
        }
    }
}

/// How an assignment changes its target.
#[derive(Drop)]
pub enum Change {
    /// `= value`
    Set { value: Expression },
    /// `operator= value`
    Update { operator: Binary, value: Expression },
    /// `++`
    Increment,
    /// `--`
    Decrement,
}

/// An assignment. Its place is that of its first token.
#[derive(Drop)]
pub struct Assignment {
    pub place: Place,
    pub target: Lvalue,
    pub change: Change,
}

/// `function(arguments)`
#[derive(Drop)]
pub struct Call {
    pub function: Name,
    pub arguments: Vec<Expression>,
}

/// What a local begins with.
#[derive(Drop)]
pub enum Initial {
    /// Nothing is written: it begins as 0.
    Absent,
    Expression(Expression),
    Call(Call),
}

/// `type_name name = initial`
#[derive(Drop)]
pub struct Declaration {
    pub place: Place,
    pub type_name: TypeName,
    pub name: Name,
    pub initial: Initial,
}

/// The first part of a `for`.
#[derive(Drop)]
pub enum First {
    Absent,
    Declaration(Declaration),
    Assignment(Assignment),
}

/// What stands in the parentheses of a `for`.
#[derive(Drop)]
pub struct Head {
    pub first: First,
    pub condition: Option<Expression>,
    pub last: Option<Assignment>,
}

/// Statements in braces.
#[cycle(statements)]
#[derive(Drop)]
pub struct Block {
    pub opening: Place,
    pub statements: Vec<Statement>,
    pub closing: Place,
}

/// `if (condition) block`, also after an `else`.
#[cycle(statements)]
#[derive(Drop)]
pub struct Arm {
    pub condition: Expression,
    pub block: Block,
}

/// A statement. Each place is that of its first token. Large parts are boxed: there may be as many statements as the text has bytes.
#[cycle(statements)]
#[derive(Drop)]
pub enum Statement {
    Block(Block),
    Empty {
        place: Place,
    },
    Declaration(Box<Declaration>),
    Assignment(Box<Assignment>),
    /// `target = call;`
    CallAssignment {
        target: Box<Lvalue>,
        call: Box<Call>,
    },
    Call(Box<Call>),
    If {
        place: Place,
        arms: Vec<Arm>,
        otherwise: Option<Block>,
    },
    While {
        place: Place,
        condition: Box<Expression>,
        block: Block,
    },
    Do {
        place: Place,
        block: Block,
        condition: Box<Expression>,
    },
    For {
        place: Place,
        head: Box<Head>,
        block: Block,
    },
    /// `lock(mutex[key]);`
    Lock {
        place: Place,
        mutex: Name,
        key: Option<Box<Expression>>,
    },
    Unlock {
        place: Place,
        mutex: Name,
        key: Option<Box<Expression>>,
    },
}

/// `return value;`
#[derive(Drop)]
pub struct Return {
    pub place: Place,
    pub value: Option<Expression>,
}

/// The body of a function.
#[derive(Drop)]
pub struct Body {
    pub opening: Place,
    pub statements: Vec<Statement>,
    pub returned: Option<Return>,
    pub closing: Place,
}

/// A parameter of a function.
#[derive(Drop)]
pub struct Parameter {
    pub type_name: TypeName,
    pub name: Name,
}

/// A function; `void` is no type of a result.
#[derive(Drop)]
pub struct Function {
    pub type_name: Option<TypeName>,
    pub name: Name,
    pub parameters: Vec<Parameter>,
    pub body: Body,
}

/// A number of an initialiser, perhaps with a `-` before it. Its place is that of its first token.
#[derive(Drop)]
pub struct Signed {
    pub place: Place,
    pub negative: bool,
    pub value: Value,
}

/// What a persistent variable begins with.
#[derive(Drop)]
pub enum Initialiser {
    /// A number without braces.
    Single(Signed),
    /// Numbers in braces, and the place of the opening brace.
    Braced { place: Place, numbers: Vec<Signed> },
}

/// The length of an array.
#[derive(Drop)]
pub struct Length {
    pub place: Place,
    pub value: Value,
}

/// What guards a variable: a mutex, or each mutex of an array one element, as `mutex[]`.
#[derive(Drop)]
pub struct Guard {
    pub mutex: Name,
    pub each: bool,
}

/// `mutex name[length];`
#[derive(Drop)]
pub struct Mutex {
    pub name: Name,
    pub length: Option<Length>,
}

/// `persistent(guard) type_name name[length] = initialiser;`
#[derive(Drop)]
pub struct Persistent {
    pub guard: Guard,
    pub type_name: TypeName,
    pub name: Name,
    pub length: Option<Length>,
    pub initialiser: Option<Initialiser>,
}

/// `thread name block`
#[derive(Drop)]
pub struct Thread {
    pub name: Name,
    pub block: Block,
}

/// A part of a program.
#[derive(Drop)]
pub enum Item {
    Mutex(Mutex),
    Persistent(Persistent),
    Thread(Thread),
    Function(Function),
}

/// A text, as it was read.
#[derive(Drop)]
pub struct Tree {
    pub items: Vec<Item>,
}
