//! What the checks of a flat form find out about it.
ghost use Rattle.std.specs.Prelude.{◌≡◌, None, IfErr, IfOk};
ghost use Rattle.c_tree.specs.Flats.{flat_of};
ghost use Rattle.c_tree.specs.LockDiscipline.{lock_fault};
ghost use Rattle.c_tree.specs.HoldPrices.{price_fault};
ghost use Rattle.c_tree.specs.Temporaries.{temporaries_fault};
ghost use Rattle.c_tree.specs.WellFormed.{ArePlain, IsWellFormed};
ghost use Rattle.c_tree.specs.declared.language.Language.TheVariants.{Plain};
ghost use Rattle.lock_discipline.specs.HeldSetsByStep.{AreAllSetsOf};
ghost use Rattle.flow_graph.specs.Nodes.{graph_of};
ghost use Rattle.flow_graph.specs.LocalSets.{AreLive};
ghost use Rattle.flow_graph.specs.Liveness.{AreRegisters, HasNoClash, HasRoom};
ghost use Rattle.flow_graph.specs.Colours.{colouring_of};
ghost use Rattle.flat_analysis.specs.CompilableForms.{IsFormRefusal};
ghost use Rattle.flat_analysis.specs.Analyses.{IsAnalysis};
ghost use Rattle.flat_analysis.specs.links.Refusing.{of_lock, refusal_by, IsLocalsRefusal, IsTemporariesRefusal};

use c_tree::flat::Flat;
use c_tree::language::Language;
use c_tree::refusal::{Refusal, SourceError};
use c_tree::rule::Rule;
use flow_graph::colours::Colours;
use flow_graph::graph::Graph;
use flow_graph::live_sets::LiveSets;
use flow_live::live;
use flow_lower::lower;
use ido_base::place::Place;
use lock_discipline::{Held, LockError};
use reg_colour::{ColourRefusal, colour};
use std::alloc::Global;

/// A flat form that no check refuses, and what the checks have found out about it.
#[derive(Drop)]
pub struct Analysis<'a> {
    pub flat: &'a Flat,
    /// Of each thread the locks that are held before each of its nodes.
    pub held: Held,
    pub graph: Graph<'a>,
    /// The locals that are live at the entry of each node.
    pub live: LiveSets,
    /// Of each thread the registers of its locals.
    pub colours: Colours,
}

/// The form breaks the rule at the place.
fn refusal_by(rule: Rule, place: Place) -> SourceError
    ensures { result ≡ refusal_by rule place }
{
    SourceError::Refused(Refusal { rule, place })
}

/// The rule of the lock discipline that is broken, and where.
fn of_lock(error: LockError<'_>) -> SourceError
    ensures { result ≡ of_lock error.entry }
{
    match error {
        LockError::Unheld { place, .. } => refusal_by(Rule::Unheld, place),
        LockError::Again { place, .. } => refusal_by(Rule::Again, place),
        LockError::NotHeld { place, .. } => refusal_by(Rule::NotHeld, place),
        LockError::Join { place, .. } => refusal_by(Rule::Join, place),
        LockError::EndHeld { place, .. } => refusal_by(Rule::EndHeld, place),
        LockError::Frozen { place, .. } => refusal_by(Rule::Frozen, place),
        LockError::Held { place, .. } => refusal_by(Rule::Held, place),
        LockError::Memory => SourceError::Memory,
    }
}

/// The locks that are held before each step, where the form keeps the lock discipline of the language.
fn held(alloc: Global, language: Language, flat: &Flat) -> Result<Held, SourceError>
    requires { IsWellFormed (flat_of flat.now) }
    ensures sets { IfOk result (AreAllSetsOf (flat_of flat.now)) }
    ensures disciplined { IfOk result (λ _. lock_fault language (flat_of flat.now) ≡ None) }
    ensures refused { IfErr result (IsFormRefusal language (flat_of flat.now)) }
{
    match lock_discipline::check(alloc, language, flat) {
        Ok(held) => Ok(held),
        Err(error) => Err(of_lock(error)),
    }
}

/// Registers of the locals, where they suffice.
fn coloured(alloc: Global, graph: &Graph, live: &LiveSets) -> Result<Colours, SourceError>
    requires { AreLive (graph_of graph.now) live.now }
    ensures registers { IfOk result (λ colours. AreRegisters (graph_of graph.now) (colouring_of colours)) }
    ensures apart { IfOk result (λ colours. HasNoClash (graph_of graph.now) (colouring_of colours)) }
    ensures room { IfOk result (λ _. HasRoom (graph_of graph.now)) }
    ensures refused { IfErr result (IsLocalsRefusal (graph_of graph.now)) }
{
    match colour(alloc, graph, live) {
        Ok(colours) => Ok(colours),
        Err(ColourRefusal::Locals { place, .. }) => Err(refusal_by(Rule::Locals, place)),
        Err(ColourRefusal::Memory) => Err(SourceError::Memory),
    }
}

/// Whether the temporaries suffice for each expression.
fn check_temporaries(flat: &Flat) -> Result<(), SourceError>
    ensures shallow { IfOk result (λ _. temporaries_fault (flat_of flat.now) ≡ None) }
    ensures refused { IfErr result (IsTemporariesRefusal (flat_of flat.now)) }
{
    match c_temporaries::check(flat) {
        Ok(()) => Ok(()),
        Err(error) => Err(refusal_by(Rule::Temporaries, error.place)),
    }
}

/// The analysis of a flat form that keeps all rules of the language for locks, registers and temporaries; else the rule and the place
/// of the first of these checks that it fails.
pub fn analyse<'a>(
    alloc: Global,
    language: Language,
    flat: &'a Flat,
) -> Result<Analysis<'a>, SourceError>
    requires formed { IsWellFormed (flat_of flat.now) }
    requires plain { language ≡ Plain → ArePlain (flat_of flat.now).mutexes }
    requires priced { price_fault language (flat_of flat.now) ≡ None }
    ensures of_flat { IfOk result (λ a. a.flat.now ≡ flat.now) }
    ensures analysed { IfOk result (λ a. IsAnalysis language a) }
    ensures refused { IfErr result (IsFormRefusal language (flat_of flat.now)) }
{
    let held = held(alloc, language, flat)?;
    let graph = lower(alloc, flat)?;
    let live = live(alloc, &graph)?;
    let colours = coloured(alloc, &graph, &live)?;
    check_temporaries(flat)?;
    Ok(Analysis {
        flat,
        held,
        graph,
        live,
        colours,
    })
}
