//! What a name means where it stands.
ghost use Rattle.std.specs.Prelude.{◌≡◌, map, IfOk};
ghost use Rattle.std.specs.Option.{option_map};
ghost use Rattle.c_tree.specs.Views.{type_name_of};
ghost use Rattle.ido_ints.specs.Kinds.{Holds};
ghost use Rattle.ido_ints.specs.TypedNumbers.{typed};
ghost use Rattle.ido_ints.specs.declared.kinds.Kind.TheVariants.{Int};
ghost use Rattle.c_tree.specs.Exprs as e;
ghost use Rattle.c_tree.specs.Exprs.{expr_of, placed_of, lvalue_of};
ghost use Rattle.c_tree.specs.Names as n;
ghost use Rattle.c_typer.specs.links.Meanings.{address_as, address_of_as, array_rule, name_as, parameters_as};
ghost use Rattle.c_typer.specs.links.Meanings.{reference_as, reference_of, reference_rule, result_as};
ghost use Rattle.c_typer.specs.links.Meanings.{count_rule, element_as, function_as, function_rule, meaning_of, mutex_as, mutexes_as};
ghost use Rattle.c_typer.specs.links.Meanings.{mutex_rule, named_as, persistent_rule, rule_if, target_as, target_element_as, use_rule};
ghost use Rattle.c_typer.specs.links.Scopes.{globals_of, referring_of, scope_of};

use crate::globals::{Array, Globals, Referring, Sort};
use crate::scope::{Local, Scope};
use c_tree::expr::{Expr, Lvalue, Placed};
use c_tree::rule::Rule;
use c_tree::tree::TypeName;
use ido_base::place::Place;
use ido_ints::{Kind, Value};
use std::alloc::{AllocError, Global};

/// What a name means.
#[derive(Clone, Copy)]
pub enum Meaning<'a> {
    Local(&'a Local),
    Global(&'a Sort),
    Unknown,
}

/// A local that is a reference, and its array.
#[derive(Clone, Copy)]
pub struct Reference {
    pub local: u32,
    pub array: Array,
}

/// What a name means: a local hides what is declared outside its scope.
pub fn resolve<'a>(globals: &'a Globals, scope: &'a Scope, name: &[u8]) -> Meaning<'a>
    ensures { meaning_of result ≡ n.meaning (globals_of globals.now) (scope_of scope.now) name.now }
{
    match scope.find(name) {
        Some(local) => Meaning::Local(local),
        None => match globals.find(name) {
            Some(global) => Meaning::Global(&global.sort),
            None => Meaning::Unknown,
        },
    }
}

/// An `int`.
pub fn int(number: i128) -> Expr
    requires { Holds Int number }
    ensures { expr_of result ≡ e.Constant (typed Int number) }
{
    Expr::Constant {
        value: Value::new(Kind::Int, number),
    }
}

impl<'a> Meaning<'a> {
    /// The value of the name at a place, or any where it has none.
    pub fn named(self, place: Place) -> Expr
        ensures { expr_of result ≡ named_as (meaning_of self.entry) place }
    {
        match self {
            Meaning::Local(local) => Expr::Local {
                local: local.number,
                kind: local.kind,
            },
            Meaning::Global(
                Sort::Variable {
                    number,
                    type_name,
                    ..
                },
            ) => Expr::Variable {
                place,
                variable: *number,
                kind: type_name.kind(),
            },
            _ => int(0),
        }
    }

    /// The element of the name at a place, or any value where it has none.
    pub fn element(self, alloc: Global, place: Place, index: Placed) -> Result<Expr, AllocError>
        ensures { IfOk result (λ x. expr_of x ≡ element_as (meaning_of self.entry) place index.place (expr_of index.expr)) }
    {
        match self {
            Meaning::Global(
                Sort::Variable {
                    number,
                    type_name,
                    ..
                },
            ) => Ok(Expr::Element {
                place,
                variable: *number,
                kind: type_name.kind(),
                index_place: index.place,
                index: Box::new(alloc, index.expr)?,
            }),
            _ => Ok(int(0)),
        }
    }

    /// The name at a place as a target, or any where it is none.
    pub fn target(self, place: Place) -> Lvalue
        ensures { lvalue_of result ≡ target_as (meaning_of self.entry) place }
    {
        match self {
            Meaning::Local(local) => Lvalue::Local {
                place,
                local: local.number,
                kind: local.kind,
            },
            Meaning::Global(
                Sort::Variable {
                    number,
                    type_name,
                    ..
                },
            ) => Lvalue::Variable {
                place,
                variable: *number,
                kind: type_name.kind(),
            },
            _ => Lvalue::Local {
                place,
                local: 0,
                kind: Kind::Int,
            },
        }
    }

    /// The element of the name at a place as a target, or any where it is none.
    pub fn target_element(self, place: Place, index: Placed) -> Lvalue
        ensures { lvalue_of result ≡ target_element_as (meaning_of self.entry) place (placed_of index) }
    {
        match self {
            Meaning::Global(
                Sort::Variable {
                    number,
                    type_name,
                    ..
                },
            ) => Lvalue::Element {
                place,
                variable: *number,
                kind: type_name.kind(),
                index,
            },
            _ => Lvalue::Local {
                place,
                local: 0,
                kind: Kind::Int,
            },
        }
    }

    /// The address of an element of the array, or any value where it is none.
    pub fn address(self, alloc: Global, index: Placed) -> Result<Expr, AllocError>
        ensures { IfOk result (λ x. expr_of x ≡ address_as (meaning_of self.entry) index.place (expr_of index.expr)) }
    {
        match self {
            Meaning::Global(Sort::Variable { number, .. }) => Ok(Expr::Address {
                variable: *number,
                index_place: index.place,
                index: Box::new(alloc, index.expr)?,
            }),
            _ => Ok(int(0)),
        }
    }

    /// The reference that the local is, if it is one.
    pub fn reference(self) -> Option<Reference>
        ensures { option_map reference_of result ≡ reference_as (meaning_of self.entry) }
    {
        match self {
            Meaning::Local(local) => match local.refers {
                Some(array) => Some(Reference {
                    local: local.number,
                    array,
                }),
                None => None,
            },
            _ => None,
        }
    }

    /// What the value of the name is, or an element of it.
    pub fn referring(self, globals: &Globals) -> Referring
        ensures { referring_of result ≡ name_as (globals_of globals.now) (meaning_of self.entry) }
    {
        match self {
            Meaning::Local(local) => match local.refers {
                Some(array) => Referring::To {
                    array: array.number,
                },
                None => Referring::Number,
            },
            Meaning::Global(Sort::Variable { type_name, .. }) => globals.of_type(type_name),
            _ => Referring::Anything,
        }
    }

    /// What the address of an element of it is.
    pub fn address_referring(self) -> Referring
        ensures { referring_of result ≡ address_of_as (meaning_of self.entry) }
    {
        match self {
            Meaning::Global(sort) => sort.referred(),
            _ => Referring::Anything,
        }
    }

    /// The types of the parameters of the function.
    pub fn parameters(self) -> &'a [TypeName]
        ensures { map type_name_of result.now ≡ parameters_as (meaning_of self.entry) }
    {
        match self {
            Meaning::Global(Sort::Function { parameters, .. }) => parameters,
            _ => &[],
        }
    }

    /// What the result of the function is.
    pub fn result(self, globals: &Globals) -> Referring
        ensures { referring_of result ≡ result_as (globals_of globals.now) (meaning_of self.entry) }
    {
        match self {
            Meaning::Global(
                Sort::Function {
                    result: Some(type_name),
                    ..
                },
            ) => globals.of_type(type_name),
            _ => Referring::Anything,
        }
    }

    /// The rule that its use as an array breaks to whose elements there may be references.
    pub fn array_rule(self, globals: &Globals) -> Option<Rule>
        ensures { result ≡ array_rule (globals_of globals.now) (meaning_of self.entry) }
    {
        match self {
            Meaning::Unknown => Some(Rule::Unknown),
            Meaning::Global(sort) => rule_if(globals.array(sort).is_none(), Rule::WrongSort),
            Meaning::Local(_) => Some(Rule::WrongSort),
        }
    }

    /// The rule that its use as a reference breaks: only a local is followed.
    pub fn reference_rule(self) -> Option<Rule>
        ensures { result ≡ reference_rule (meaning_of self.entry) }
    {
        match self {
            Meaning::Unknown => Some(Rule::Unknown),
            Meaning::Local(local) => rule_if(local.refers.is_none(), Rule::WrongSort),
            Meaning::Global(_) => Some(Rule::WrongSort),
        }
    }

    /// The number of the function, or any where it is none.
    pub fn function(self) -> u32
        ensures { result ≡ function_as (meaning_of self.entry) }
    {
        match self {
            Meaning::Global(Sort::Function { number, .. }) => *number,
            _ => 0,
        }
    }

    /// The number of the mutex, of an array that of its first one, or any where it is none. A number past 2^32 - 1 stands for none.
    pub fn mutex(self) -> Result<u32, AllocError>
        ensures { IfOk result (λ x. x ≡ mutex_as (meaning_of self.entry)) }
    {
        match self {
            Meaning::Global(Sort::Mutex { number, .. }) => {
                u32::try_from(*number).map_err(|_| AllocError)
            }
            _ => Ok(0),
        }
    }

    /// How many mutexes the array has, where it is one.
    pub fn mutexes(self) -> Option<u64>
        ensures { result ≡ mutexes_as (meaning_of self.entry) }
    {
        match self {
            Meaning::Global(Sort::Mutex { length, .. }) => *length,
            _ => None,
        }
    }

    /// The rule that a use breaks: a local or a variable has an index exactly where it is an array.
    pub fn use_rule(self, indexed: bool) -> Option<Rule>
        ensures { result ≡ use_rule (meaning_of self.entry) indexed }
    {
        match self {
            Meaning::Unknown => Some(Rule::Unknown),
            Meaning::Local(_) => rule_if(indexed, Rule::WrongSort),
            Meaning::Global(Sort::Variable { length, .. }) => rule_if(
                if length.is_some() { !indexed } else { indexed },
                Rule::WrongSort,
            ),
            Meaning::Global(_) => Some(Rule::WrongSort),
        }
    }

    /// The rule that its use as a mutex breaks: it has a key or brackets exactly where it is an array.
    pub fn mutex_rule(self, keyed: bool) -> Option<Rule>
        ensures { result ≡ mutex_rule (meaning_of self.entry) keyed }
    {
        match self {
            Meaning::Unknown => Some(Rule::Unknown),
            Meaning::Global(Sort::Mutex { length, .. }) => rule_if(
                if length.is_some() { !keyed } else { keyed },
                Rule::WrongSort,
            ),
            _ => Some(Rule::WrongSort),
        }
    }

    /// The rule that its use in a key breaks: a key reads no persistent variable.
    pub fn persistent_rule(self) -> Option<Rule>
        ensures { result ≡ persistent_rule (meaning_of self.entry) }
    {
        match self {
            Meaning::Global(Sort::Variable { .. }) => Some(Rule::WrongSort),
            _ => None,
        }
    }

    /// The rule that its call breaks, but for the number of arguments: a function has a result
    /// exactly where one is assigned.
    pub fn function_rule(self, assigned: bool) -> Option<Rule>
        ensures { result ≡ function_rule (meaning_of self.entry) assigned }
    {
        match self {
            Meaning::Unknown => Some(Rule::Unknown),
            Meaning::Global(Sort::Function { result: gives, .. }) => rule_if(
                if gives.is_some() { !assigned } else { assigned },
                Rule::WrongSort,
            ),
            _ => Some(Rule::WrongSort),
        }
    }

    /// The rule that a call with so many arguments breaks by their number.
    pub fn count_rule(self, arguments: usize) -> Option<Rule>
        ensures { result ≡ count_rule (meaning_of self.entry) arguments }
    {
        match self {
            Meaning::Global(Sort::Function { parameters, .. }) => {
                rule_if(arguments != parameters.len(), Rule::Count)
            }
            _ => None,
        }
    }
}

fn rule_if(broken: bool, rule: Rule) -> Option<Rule>
    ensures { result ≡ rule_if broken rule }
{
    if broken { Some(rule) } else { None }
}
