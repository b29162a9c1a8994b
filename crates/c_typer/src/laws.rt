//! Laws of the rules of names and kinds: nothing is computed here.
ghost use Rattle.c_typer.specs.FormLaws.{TypedIsFormed, TypedIsPlain};
ghost use Rattle.c_typer.specs.Laws.{OneFirst};

/// At most one of the rules that a tree breaks is broken first, at one place.
pub fn one_first()
    ensures { OneFirst }
{}

/// A text that breaks none of them is a well formed program: its numbers name what they are used as, each variable
/// has a number of its kind for each element, each reference is to the array that its type names, and no limit is passed.
pub fn typed_is_formed()
    ensures { TypedIsFormed }
{}

/// Of a text of the plain language no mutex is in an array.
pub fn typed_is_plain()
    ensures { TypedIsPlain }
{}
