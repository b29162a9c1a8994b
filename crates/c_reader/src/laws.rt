//! Laws of what a text is read as: nothing is computed here.
ghost use Rattle.c_reader.specs.Laws.{NotBoth, OneRefusal, OneTree, TreesAreShallow};

/// A text is read as at most one tree or refused by at most one rule at one place, and never both.
pub fn one_reading()
    ensures tree { OneTree }
    ensures refusal { OneRefusal }
    ensures not_both { NotBoth }
{}

/// The blocks of a tree that is read are at most 128 deep, and its expressions at most 129 high.
pub fn trees_are_shallow()
    ensures { TreesAreShallow }
{}
