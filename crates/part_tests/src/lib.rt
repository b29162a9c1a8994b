//! Tests of parts of the program: results that an emulator gave; short graphs and steps that were followed by hand; adapters over readers and writers
//! that fail in the middle; and boards and legs at a small core. They stand in a crate of their own, so that no crate below is proved twice, and in
//! one, since each crate of tests costs the proof that all below it is linked.
#![tactic(auto)]

#[cfg(test)]
mod arithmetic;
#[cfg(test)]
mod arithmetic_vectors;
#[cfg(test)]
mod boards;
#[cfg(test)]
mod counter;
#[cfg(test)]
mod drives;
#[cfg(test)]
mod flats;
#[cfg(test)]
mod flows;
#[cfg(test)]
mod harts;
#[cfg(test)]
mod outside;
#[cfg(test)]
mod points;
#[cfg(test)]
mod regions;
#[cfg(test)]
mod registers;
#[cfg(test)]
mod rounds;
#[cfg(test)]
mod steps;
#[cfg(test)]
mod straight;
#[cfg(test)]
mod watched;
