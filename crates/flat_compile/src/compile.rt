//! Objects of flat forms.
ghost use Rattle.std.specs.Prelude.{◌≡◌, IfOk};
ghost use Rattle.log_schemes.specs.Schemes.{locals_of};
ghost use Rattle.log_schemes.specs.declared.locals.Locals.TheVariants.{Frame, Registers};
ghost use Rattle.c_tree.specs.Flats.{flat_of};
ghost use Rattle.flow_graph.specs.Nodes.{graph_of};
ghost use Rattle.flow_graph.specs.Liveness.{AreAssignedFirst};
ghost use Rattle.flow_graph.specs.IdempotentCuts.{AreAtWrites, AreCuts, boundaries_of};
ghost use Rattle.flat_analysis.specs.Analyses.{IsAnalysis};
ghost use Rattle.thread_code.specs.Plans.{language_of};
ghost use Rattle.flat_compile.specs.TranslatedForms.{IsTranslatedAs, IsResumableAs};
ghost use Rattle.region_cutter.specs.BoundaryPlaces.{AreBoundariesFor};

use crate::resumes::{Resume, resume_table};
use flat_analysis::Analysis;
use flow_graph::cuts::Cuts;
use ido_base::memory::OutOfMemory;
use lock_discipline::laws::walk_is_discipline;
use log_schemes::locals::Locals;
use log_schemes::log::Log;
use machine_model::object::Object;
use object_link::link::link;
use region_cutter::{cut, cut_each_write};
use rv64_codegen::{Plan, emit};
use rv64_isa::object::Marks;
use std::alloc::Global;

/// An accepted program, compiled.
#[derive(Drop)]
pub struct Translated {
    pub object: Object,
    /// Of each thread the addresses of its nodes, and where recovery may resume it.
    pub marks: Marks,
    /// Where boundaries stand among the nodes of the graph.
    pub cuts: Cuts,
    /// Of each thread what it has where recovery may resume it, in the order of the addresses.
    pub resumes: Vec<Vec<Resume>>,
}

/// Where boundaries stand: where locals stand in registers as few as may be, and where they stand in the log one before each write.
fn boundaries(alloc: Global, log: Log, analysis: &Analysis) -> Result<Cuts, OutOfMemory>
    requires { IsAnalysis (language_of log) analysis.now }
    ensures cuts { IfOk result (λ cuts. AreCuts (graph_of analysis.now.graph) (boundaries_of cuts)) }
    ensures placed { IfOk result (λ cuts. AreBoundariesFor (locals_of log) (graph_of analysis.now.graph) analysis.now.held (boundaries_of cuts)) }
    ensures at_writes { IfOk result (λ cuts. locals_of log ≡ Registers → AreAtWrites (graph_of analysis.now.graph) (boundaries_of cuts)) }
{
    match log.locals() {
        Locals::Registers => cut(alloc, &analysis.graph),
        Locals::Frame => cut_each_write(alloc, &analysis.graph, &analysis.held),
    }
}

/// The object of a flat form that was analysed, whose threads log so, the addresses of its marks, and where boundaries stand: a machine
/// that runs it is resumed after each crash. The analysis is by the rules of the language that the log is of; a life begins with the frame
/// as the one before it has left that, so where locals stand there each is assigned before it is read. Want of memory is all that may hinder it.
pub fn translate(alloc: Global, log: Log, analysis: &Analysis) -> Result<Translated, OutOfMemory>
    requires analysis { IsAnalysis (language_of log) analysis.now }
    requires assigned_first { locals_of log ≡ Frame → AreAssignedFirst (graph_of analysis.now.graph) }
    ensures translated { IfOk result (λ r. IsTranslatedAs log (flat_of analysis.now.flat.now) r.object r.marks r.cuts) }
    ensures resumes { IfOk result (λ r. IsResumableAs log (flat_of analysis.now.flat.now) r.object r.marks r.cuts r.resumes.items) }
{
    walk_is_discipline();
    let cuts = boundaries(alloc, log, analysis)?;
    let plan = Plan {
        log,
        flat: analysis.flat,
        graph: &analysis.graph,
        cuts: &cuts,
        held: &analysis.held,
        live: &analysis.live,
        colours: &analysis.colours,
    };
    let code = emit(alloc, &plan)?;
    let (object, marks) = link(alloc, code)?;
    let resumes = resume_table(alloc, &plan, &marks)?;
    Ok(Translated {
        object,
        marks,
        cuts,
        resumes,
    })
}
