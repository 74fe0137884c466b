//! The store path of a derivation's text.

ghost use Rattle.std.specs.Prelude.{◌≡◌, ℕ, List, IfOk, IfErr, MatchResult};
ghost use Rattle.nd_links.specs.declared.fault.GraphError.{GraphError};
ghost use Rattle.nd_bundle.specs.DrvPaths.{is_drv_name, IsDrvPath, HasNoDrvPath};

use nd_line::path_of_text;
use nd_links::GraphError;
use nd_path::{StorePath, is_path_name};
use std::alloc::Global;

/// The store path of the derivation with this name and this text: the text path over its input
/// sources and input derivations as one set (Nix Reference Manual, "Store Path Specification").
///
/// Refuses with `BadPath` (2) where `name` is no store path's name that ends in `.drv`, with
/// `BadDerivation` (3) where `text` is no derivation text or a path in it is none of its kind, the
/// line being 0 in both, and with `Memory` (12).
#[tactic(auto, using(crate::proofs::OneDrvPath::is_drv_path, crate::proofs::OneDrvPath::path_or_memory))]
pub fn drv_path(alloc: Global, name: &[u8], text: &[u8]) -> Result<StorePath, GraphError>
    ensures found { IfOk result (IsDrvPath name.now text.now) }
    ensures refused { IfErr result (HasNoDrvPath name.now text.now) }
    ensures exactly { (path : List ℕ) → IsDrvPath name.now text.now path
        → MatchResult result (λ p. p ≡ path) (λ e. e ≡ GraphError.Memory) }
{
    if !is_derivation_name(name) {
        return Err(GraphError::BadPath(0));
    }
    match path_of_text(alloc, name, text) {
        Ok(path) => Ok(path),
        Err(fault) => Err(GraphError::of_line(fault, 0)),
    }
}

/// Whether the bytes are a store path's name that ends in `.drv`.
fn is_derivation_name(name: &[u8]) -> bool
    ensures { result ≡ is_drv_name name.now }
{
    is_path_name(name) && name.ends_with(b".drv")
}
