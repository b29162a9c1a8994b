//! The first rule that is broken.
ghost use Rattle.std.specs.Prelude.{◌≡◌, [], ◌∷◌};
ghost use Rattle.c_tree.specs.Refusals.{fault_of};
ghost use Rattle.c_tree.specs.TypeRules.{order_of};
ghost use Rattle.c_typer.specs.links.Meanings.{fault_at};
ghost use Rattle.c_typer.specs.links.FirstFaults.{comes_before, first_of, noted};

use c_tree::refusal::Refusal;
use c_tree::rule::Rule;
use ido_base::place::Place;

/// The first of the faults that were noted, by their places.
#[derive(Drop)]
pub struct Faults {
    pub first: Option<Refusal>,
}

/// Of two rules at one place the lesser is told.
fn order_of(rule: Rule) -> u8
    ensures { result ≡ order_of rule }
{
    match rule {
        Rule::Unknown => 0,
        Rule::Twice => 1,
        Rule::WrongSort => 2,
        Rule::Count => 3,
        Rule::Return => 4,
        Rule::Threads => 5,
        Rule::Mutexes => 6,
        Rule::Bytes => 7,
        Rule::Length => 8,
        _ => 9,
    }
}

fn comes_before(fault: Refusal, other: Refusal) -> bool
    ensures { result ≡ comes_before (fault_of fault) (fault_of other) }
{
    fault.place.0 < other.place.0
        || (fault.place.0 == other.place.0 && order_of(fault.rule) < order_of(other.rule))
}

impl Faults {
    /// No fault yet.
    pub fn new() -> Faults
        ensures { first_of result ≡ None }
    {
        Faults { first: None }
    }

    /// Notes one more.
    pub fn note(&mut self, rule: Rule, place: Place)
        ensures { first_of self.new ≡ noted (first_of self.old) (record { rule = rule; place = place } ∷ []) }
    {
        let fault = Refusal { rule, place };
        let is_first = match self.first {
            None => true,
            Some(first) => comes_before(fault, first),
        };
        if is_first {
            self.first = Some(fault);
        }
    }

    /// Notes one more, where there is one.
    pub fn note_some(&mut self, rule: Option<Rule>, place: Place)
        ensures { first_of self.new ≡ noted (first_of self.old) (fault_at rule place) }
    {
        if let Some(rule) = rule {
            self.note(rule, place);
        }
    }
}
