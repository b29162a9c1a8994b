//! The names of the whole text.
ghost use Rattle.std.specs.Prelude.{◌≡◌, ◌+◌, ℕ, List, map, IfOk, OnOk};
ghost use Rattle.std.proofs.Props.{props};
ghost use Rattle.c_tree.specs.Trees as t;
ghost use Rattle.std.specs.Option.{option_map};
ghost use Rattle.c_tree.specs.Names as n;
ghost use Rattle.c_tree.specs.Names.{kind_named};
ghost use Rattle.c_tree.specs.Views.{name_of, parameter_of, type_name_of};
ghost use Rattle.c_typer.specs.links.Declarations.{names_declared};
ghost use Rattle.c_typer.specs.links.Places.{place_of, first_place};

use crate::length::{element_count, length_of};
use crate::names::Places;
use c_tree::language::Language;
use c_tree::tree::{Item, Name, Parameter, Tree, TypeName};
use ido_base::limits::MOST_ELEMENTS;
use ido_ints::Kind;
use std::alloc::{AllocError, Global};

/// What a name of the whole text stands for, with its number among those of its sort.
#[derive(Drop)]
pub enum Sort {
    /// The number of an array of mutexes is that of its first one.
    Mutex {
        number: u128,
        length: Option<u64>,
    },
    /// Of an array how many elements it has, and whether each has a mutex of its own.
    Variable {
        number: u32,
        type_name: TypeName,
        length: Option<u64>,
        each: bool,
    },
    Function {
        number: u32,
        result: Option<TypeName>,
        parameters: Vec<TypeName>,
    },
    Thread,
}

/// What a value is.
#[derive(Clone, Copy)]
pub enum Referring {
    Number,
    Null,
    /// A reference to an element of the array of that number.
    To { array: u32 },
    /// A rule is broken.
    Anything,
}

/// An array to whose elements there may be references.
#[derive(Clone, Copy)]
pub struct Array {
    pub number: u32,
    /// The kind of its elements, and what they are.
    pub kind: Kind,
    pub elements: Referring,
    /// The number of its last element.
    pub last: u32,
}

impl Array {
    ghost use Rattle.c_typer.specs.links.Scopes.{array_of};

    /// The number of an array, if there is one.
    pub fn number_of(array: Option<Array>) -> Option<u32>
        ensures { result ≡ option_map (λ (a : n.Array). a.number) (option_map array_of array) }
    {
        match array {
            Some(array) => Some(array.number),
            None => None,
        }
    }
}

impl Sort {
    ghost use Rattle.std.specs.Prelude.{Some};
    ghost use Rattle.c_typer.specs.links.Scopes.{referring_of, sort_of};

    /// What values of the type are that names it.
    pub fn referred(&self) -> Referring
        ensures { referring_of result ≡ n.referred_by (Some (sort_of self.now)) }
    {
        match self {
            Sort::Variable {
                number,
                length: Some(_),
                each: false,
                ..
            } => Referring::To { array: *number },
            _ => Referring::Anything,
        }
    }
}

/// The number of the last of so many elements, where the length breaks no rule.
fn last_of(length: u64) -> u32
    ensures { result ≡ n.last_of length }
{
    if length <= u64::from(MOST_ELEMENTS) {
        (length as u32).saturating_sub(1)
    } else {
        0
    }
}

/// A name of the whole text.
#[derive(Drop)]
pub struct Declared {
    pub name: Name,
    pub sort: Sort,
}

impl Declared {
    ghost use Rattle.c_tree.specs.Views.{item_of};
    ghost use Rattle.c_typer.specs.links.Scopes.{counts_of, global_of};

    /// The name that an item declares.
    fn of(alloc: Global, counts: &Counts, item: &Item) -> Result<Declared, AllocError>
        ensures { IfOk result (λ x. global_of x ≡ n.global_of (counts_of counts.now) (item_of item.now)) }
    {
        match item {
            Item::Mutex(read) => Ok(Declared {
                name: copied(&read.name)?,
                sort: Sort::Mutex {
                    number: counts.mutexes,
                    length: length_of(&read.length),
                },
            }),
            Item::Persistent(read) => Ok(Declared {
                name: copied(&read.name)?,
                sort: Sort::Variable {
                    number: counts.variables,
                    type_name: copied_type(&read.type_name)?,
                    length: length_of(&read.length),
                    each: read.guard.each,
                },
            }),
            Item::Thread(read) => Ok(Declared {
                name: copied(&read.name)?,
                sort: Sort::Thread,
            }),
            Item::Function(read) => Ok(Declared {
                name: copied(&read.name)?,
                sort: Sort::Function {
                    number: counts.functions,
                    result: copied_result(&read.type_name)?,
                    parameters: types_of(alloc, &read.parameters)?,
                },
            }),
        }
    }
}

/// The names of the whole text, in order of declaration, and for each the place of the first one.
#[derive(Drop)]
pub struct Globals {
    pub language: Language,
    pub declared: Vec<Declared>,
    places: Places,
    ghost placed: { (name : List ℕ) → place_of places name ≡ first_place name (names_declared declared.items) } by { Prim.hlevel props },
}

impl Globals {
    ghost use Rattle.std.specs.Prelude.{◌≤◌, find, length, take, Some};
    ghost use Rattle.std.specs.List.{list_any};
    ghost use Rattle.c_tree.specs.Views.{items_of};
    ghost use Rattle.c_typer.specs.links.Scopes.{array_of, global_of, globals_of, names_before, referring_of, sort_of};

    /// The first declaration of a name.
    pub fn find(&self, name: &[u8]) -> Option<&Declared>
        ensures { option_map (λ g. global_of g.now) result ≡ find (λ (g : n.Global). n.same_name g.name.text name.now) (globals_of self.now) }
    {
        let first = self.places.get(name)?;
        Some(&self.declared[first])
    }

    /// What values of the type are.
    pub fn of_type(&self, type_name: &TypeName) -> Referring
        ensures { referring_of result ≡ n.of_type (globals_of self.now) (type_name_of type_name.now) }
    {
        match type_name {
            TypeName::Kind(_) => Referring::Number,
            TypeName::Reference { array } => match self.find(&array.text) {
                Some(global) => global.sort.referred(),
                None => Referring::Anything,
            },
        }
    }

    /// The array that a name stands for, if there may be references to its elements.
    pub fn array(&self, sort: &Sort) -> Option<Array>
        ensures { option_map array_of result ≡ n.array_of (globals_of self.now) (Some (sort_of sort.now)) }
    {
        match sort {
            Sort::Variable {
                number,
                type_name,
                length: Some(length),
                each: false,
            } => Some(Array {
                number: *number,
                kind: type_name.kind(),
                elements: self.of_type(type_name),
                last: last_of(*length),
            }),
            _ => None,
        }
    }

    /// The array to whose elements values of the type refer, if they are references.
    pub fn referred(&self, type_name: &TypeName) -> Option<Array>
        ensures { option_map array_of result ≡ n.referred (globals_of self.now) (type_name_of type_name.now) }
    {
        match type_name {
            TypeName::Kind(_) => None,
            TypeName::Reference { array } => match self.find(&array.text) {
                Some(global) => self.array(&global.sort),
                None => None,
            },
        }
    }

    /// Whether a name is declared before the global of that number.
    pub fn is_declared_before(&self, number: usize, name: &[u8]) -> bool
        requires { number ≤ length self.now.declared.items }
        ensures { result ≡ list_any (n.same_name name.now) (names_before (take number self.now.declared.items)) }
    {
        match self.places.get(name) {
            Some(first) => first < number,
            None => false,
        }
    }

    /// The names of a tree of the language.
    pub fn of(alloc: Global, language: Language, tree: &Tree) -> Result<Globals, AllocError>
        ensures names { IfOk result (λ x. globals_of x ≡ n.globals_of (items_of tree.now)) }
        ensures language { IfOk result (λ x. x.language ≡ language) }
    {
        let mut declared = Vec::new(alloc);
        let mut places = Places::new(alloc);
        let mut counts = Counts {
            mutexes: 0,
            variables: 0,
            functions: 0,
        };
        for item in &tree.items {
            let global = Declared::of(alloc, &counts, item)?;
            places.put_first(&global.name.text, declared.len())?;
            declared.push(global)?;
            counts.count(item)?;
        }
        Ok(Globals {
            language,
            declared,
            places,
        })
    }
}

/// How many of a sort were declared before.
#[derive(Drop)]
struct Counts {
    mutexes: u128,
    variables: u32,
    functions: u32,
}

impl Counts {
    ghost use Rattle.c_tree.specs.Views.{item_of};
    ghost use Rattle.c_typer.specs.links.Scopes.{counts_of};

    /// Counts one more, or as many mutexes as an array has. More than 2^32 - 1 variables or functions have no numbers; an
    /// array of mutexes has some, however long it is, since its length may break a rule.
    fn count(&mut self, item: &Item) -> Result<(), AllocError>
        ensures { OnOk result (counts_of self.new ≡ n.counted (counts_of self.old) (item_of item.now)) }
    {
        match item {
            Item::Mutex(read) => self.mutexes = after(self.mutexes, element_count(&read.length))?,
            Item::Persistent(_) => self.variables = next(self.variables)?,
            Item::Thread(_) => (),
            Item::Function(_) => self.functions = next(self.functions)?,
        }
        Ok(())
    }
}

fn after(number: u128, count: u64) -> Result<u128, AllocError>
    ensures { IfOk result (λ x. x ≡ number + count) }
{
    number.checked_add(u128::from(count)).ok_or(AllocError)
}

fn next(number: u32) -> Result<u32, AllocError>
    ensures { IfOk result (λ x. x ≡ number + 1) }
{
    number.checked_add(1).ok_or(AllocError)
}

/// A copy of the name.
pub fn copied(name: &Name) -> Result<Name, AllocError>
    ensures { IfOk result (λ x. name_of x ≡ name_of name.now) }
{
    Ok(Name {
        text: name.text.clone()?,
        place: name.place,
    })
}

/// The kind of a result of the type, where there is one.
pub fn kind_of_result(type_name: &Option<TypeName>) -> Option<Kind>
    ensures { result ≡ option_map kind_named (option_map type_name_of type_name.now) }
{
    match type_name {
        Some(type_name) => Some(type_name.kind()),
        None => None,
    }
}

/// A copy of the type.
fn copied_type(type_name: &TypeName) -> Result<TypeName, AllocError>
    ensures { IfOk result (λ x. type_name_of x ≡ type_name_of type_name.now) }
{
    match type_name {
        TypeName::Kind(kind) => Ok(TypeName::Kind(*kind)),
        TypeName::Reference { array } => Ok(TypeName::Reference {
            array: copied(array)?,
        }),
    }
}

/// A copy of a result's type.
fn copied_result(type_name: &Option<TypeName>) -> Result<Option<TypeName>, AllocError>
    ensures { IfOk result (λ x. option_map type_name_of x ≡ option_map type_name_of type_name.now) }
{
    match type_name {
        Some(type_name) => Ok(Some(copied_type(type_name)?)),
        None => Ok(None),
    }
}

/// The types of parameters.
fn types_of(alloc: Global, parameters: &[Parameter]) -> Result<Vec<TypeName>, AllocError>
    ensures { IfOk result (λ xs. map type_name_of xs.items ≡ map (λ (x : t.Parameter). x.type_name) (map parameter_of parameters.now)) }
{
    let mut types = Vec::new(alloc);
    for parameter in parameters {
        types.push(copied_type(&parameter.type_name)?)?;
    }
    Ok(types)
}
