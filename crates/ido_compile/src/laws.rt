//! Laws of what a text comes to: nothing is computed here.
ghost use Rattle.ido_compile.specs.CompileAnswers.{TranslationsAreCompilations};
ghost use Rattle.ido_compile.specs.Files.{FilesBegin};
ghost use Rattle.ido_compile.specs.Verdicts.{NotBoth, OneFault, OneFlat};

use c_reader::laws::one_reading;
use c_typer::laws::one_first;
use compiler_correctness::laws::systems_are_compilations;

/// For a log a text is accepted or refused by one rule, at one place, and never both; it has one flat form, for whichever logs it is accepted,
/// and in whichever language it is read for these. That a text has one translation isn't said.
pub fn one_verdict()
    ensures flat { OneFlat }
    ensures fault { OneFault }
    ensures not_both { NotBoth }
{
    one_reading();
    one_first();
}

/// What is translated of a flat form is a compilation of it.
pub fn translations_are_compilations()
    ensures { TranslationsAreCompilations }
{
    systems_are_compilations();
}

/// The machine of an object that begins with the words of an image file is the one of the image that stands in it.
pub fn files_begin()
    ensures { FilesBegin }
{}
