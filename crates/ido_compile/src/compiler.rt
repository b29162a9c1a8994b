//! Source texts, read in the language of a log, checked and compiled for it.
ghost use Rattle.std.specs.Prelude.{◌≡◌, ◌≤◌, length, IfOk};
ghost use Rattle.ido_base.specs.declared.limits.TheConstants.{MOST_SOURCE_BYTES};
ghost use Rattle.c_tree.specs.Flats.{flat_of};
ghost use Rattle.ido_compile.specs.CompileAnswers.{IsCompileAnswerAs};
ghost use Rattle.ido_compile.specs.LoggedTexts.{IsFlattenedAs};
ghost use Rattle.thread_code.specs.Plans.{language_of};
ghost use Rattle.ido_compile.specs.links.FrontEndAnswers.{IsAnalysisAnswerAs, IsFlatAnswerAs, IsFrontAnswerAs, IsTranslationAnswerAs};

use crate::error::CompileError;
use crate::forms::{flattened_is_formed, flattened_is_plain};
use crate::laws::translations_are_compilations;
use c_inline::inline::inline;
use c_reader::read;
use c_tree::flat::Flat;
use c_tree::language::Language;
use c_typer::type_tree;
use first_assignments::laws::locals_are_assigned_first;
use flat_analysis::{Analysis, analyse};
use flat_compile::{Translated, translate};
use ido_base::memory::OutOfMemory;
use log_schemes::keeping::Keeping;
use log_schemes::log::Log;
use std::alloc::Global;

/// A text, compiled.
#[derive(Drop)]
pub struct Compiled {
    pub text: Vec<u8>,
    /// The text's flat form.
    pub flat: Flat,
    /// What a machine runs for that.
    pub translated: Translated,
}

/// The language in which texts are read for a log, and by whose prices and lock rules they are checked.
fn language_of(log: Log) -> Language
    ensures { result ≡ language_of log }
{
    match log.keeping() {
        Keeping::Masked => Language::Plain,
        Keeping::Listed => Language::Full,
    }
}

/// The flat form of a text that keeps all rules of names, kinds, indexes, references, calls and prices; else the rule and the place of the first
/// of these checks that it fails.
pub fn flatten(alloc: Global, log: Log, text: &[u8]) -> Result<Flat, CompileError>
    requires { length text.now ≤ MOST_SOURCE_BYTES }
    ensures { IsFlatAnswerAs log text.now result }
{
    let language = language_of(log);
    let tree = read(alloc, language, text)?;
    let program = type_tree(alloc, language, tree)?;
    c_ranges::check(alloc, &program)?;
    let flat = inline(alloc, language, &program)?;
    Ok(flat)
}

/// The analysis of a text's flat form that keeps all rules of locks, registers and temporaries; else the rule and the place of the
/// first of these checks that it fails.
pub fn checked<'a>(
    alloc: Global,
    log: Log,
    text: &[u8],
    flat: &'a Flat,
) -> Result<Analysis<'a>, CompileError>
    requires { IsFlattenedAs log text.now (flat_of flat.now) }
    ensures of_flat { IfOk result (λ a. a.flat.now ≡ flat.now) }
    ensures answer { IsAnalysisAnswerAs log text.now (flat_of flat.now) result }
{
    flattened_is_formed();
    flattened_is_plain();
    let analysis = analyse(alloc, language_of(log), flat)?;
    Ok(analysis)
}

/// The flat form of a text that keeps all rules of names, kinds, indexes, references, calls, prices, locks, registers and temporaries;
/// else the rule and the place of the first check that it fails.
pub fn front(alloc: Global, log: Log, text: &[u8]) -> Result<Flat, CompileError>
    requires { length text.now ≤ MOST_SOURCE_BYTES }
    ensures { IsFrontAnswerAs log text.now result }
{
    let flat = flatten(alloc, log, text)?;
    checked(alloc, log, text, &flat)?;
    Ok(flat)
}

/// What a machine runs for a text's flat form, or why nothing does.
fn translated(alloc: Global, log: Log, text: &[u8], flat: &Flat) -> Result<Translated, CompileError>
    requires { IsFlattenedAs log text.now (flat_of flat.now) }
    ensures { IsTranslationAnswerAs log text.now (flat_of flat.now) result }
{
    locals_are_assigned_first();
    let analysis = checked(alloc, log, text, flat)?;
    let translated = translate(alloc, log, &analysis)?;
    Ok(translated)
}

/// The text, as a value of its own.
fn copied(alloc: Global, text: &[u8]) -> Result<Vec<u8>, OutOfMemory>
    ensures { IfOk result (λ copy. copy.items ≡ text.now) }
{
    let copy = text.to_vec(alloc)?;
    Ok(copy)
}

/// The object, for a log, of a text that keeps all rules of that log, with its flat form, the addresses of its marks, and where boundaries
/// stand; else the rule and the place of the first check that the text fails.
pub fn compile(alloc: Global, log: Log, text: &[u8]) -> Result<Compiled, CompileError>
    requires { length text.now ≤ MOST_SOURCE_BYTES }
    ensures { IsCompileAnswerAs log text.now result }
{
    translations_are_compilations();
    let flat = flatten(alloc, log, text)?;
    let translated = translated(alloc, log, text, &flat)?;
    let text = copied(alloc, text)?;
    Ok(Compiled {
        text,
        flat,
        translated,
    })
}
