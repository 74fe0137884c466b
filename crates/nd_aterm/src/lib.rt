//! The texts of store derivations.
//!
//! A derivation text is the ATerm form in which Nix stores a derivation (Nix Reference Manual,
//! Derivation "ATerm" file format). [`parse`] reads exactly these texts, [`parse_selected`] with less of
//! them and without copying them, [`write`] gives the one text of a derivation, and [`laws`] says that no text
//! begins another.
#![tactic(auto)]

mod derivations;
mod fault;
pub mod laws;
mod leaf;
mod lists;
mod names;
mod orders;
mod part;
mod plain;
mod record_texts;
mod records;
mod selecting;
mod sifting;
mod strings;
mod texts;
mod views;

pub use derivations::Derivation;
pub use fault::AtermError;
pub use leaf::Leaf;
pub use names::Names;
pub use records::{EnvEntry, InputDrv, Output, Parts, SelectedParts};
pub use selecting::parse_selected;
pub use sifting::Selection;
pub use texts::{parse, write};
pub use views::{EnvEntryView, NeededDrvView, OutputView, SelectedView};
