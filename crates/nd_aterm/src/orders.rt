//! The orders in which a derivation's lists stand.

ghost use Rattle.std.specs.Prelude.{◌≡◌, ◌&&◌, ℕ, List};
ghost use Rattle.std.specs.List.{list_all};
ghost use Rattle.nd_aterm.specs.Derivations.{rises, in_order};
ghost use Rattle.nd_aterm.specs.Sifting.{is_in_order};

use crate::leaf::Leaf;
use crate::records::{EnvEntry, InputDrv, Output, Parts};
use crate::views::{NeededDrvView, OutputView, SelectedView};
use nd_bytes::ByteString;

/// What stands in a list in the order of its key.
trait Keyed {
    ghost key: { Self → List ℕ };

    /// The bytes that decide the place.
    fn key(&self) -> &[u8]
        ensures { result.now ≡ key self.now };
}

impl Keyed for ByteString {
    ghost key = { λ s. s };

    fn key(&self) -> &[u8] {
        self.as_slice()
    }
}

impl<'t> Keyed for Leaf<'t> {
    ghost key = { λ s. s };

    fn key(&self) -> &[u8] {
        self.as_slice()
    }
}

impl Keyed for Output {
    ghost key = { λ o. o.name };

    fn key(&self) -> &[u8] {
        self.name.as_slice()
    }
}

impl<'t> Keyed for OutputView<'t> {
    ghost key = { λ o. o.name };

    fn key(&self) -> &[u8] {
        self.name.as_slice()
    }
}

impl Keyed for InputDrv {
    ghost key = { λ d. d.path };

    fn key(&self) -> &[u8] {
        self.path.as_slice()
    }
}

impl<'t> Keyed for NeededDrvView<'t> {
    ghost key = { λ d. d.path };

    fn key(&self) -> &[u8] {
        self.path.as_slice()
    }
}

impl Keyed for EnvEntry {
    ghost key = { λ v. v.key };

    fn key(&self) -> &[u8] {
        self.key.as_slice()
    }
}

/// Whether each key is below the next.
fn is_rising<T: Keyed>(items: &[T]) -> bool
    ensures { result ≡ rises T.key items.now }
{
    let [first, others @ ..] = items else {
        return true;
    };
    let mut last = first;
    for item in others {
        let order = last.key().cmp(item.key());
        if !order.is_lt() {
            return false;
        }
        last = item;
    }
    true
}

/// An input derivation, whose output names have an order too.
trait Named: Keyed {
    ghost names: { Self → List (List ℕ) };

    /// Whether the output names rise.
    fn has_rising_names(&self) -> bool
        ensures { result ≡ rises (λ name. name) (names self.now) };
}

impl Named for InputDrv {
    ghost names = { λ d. d.outputs };

    fn has_rising_names(&self) -> bool {
        is_rising(self.outputs.as_slice())
    }
}

impl<'t> Named for NeededDrvView<'t> {
    ghost names = { λ d. d.outputs };

    fn has_rising_names(&self) -> bool {
        is_rising(self.outputs.as_slice())
    }
}

/// Whether the output names of each input derivation rise.
fn have_rising_names<D: Named>(input_drvs: &[D]) -> bool
    ensures { result ≡ list_all (λ d. rises (λ name. name) (D.names d)) input_drvs.now }
{
    input_drvs.iter().all(|input| input.has_rising_names())
}

/// Whether the lists of outputs, input derivations, their output names and sources strictly rise.
fn are_paths_in_order<O: Keyed, D: Named, S: Keyed>(
    outputs: &[O],
    input_drvs: &[D],
    input_srcs: &[S],
) -> bool
    ensures { result ≡ (rises O.key outputs.now && rises D.key input_drvs.now
        && list_all (λ d. rises (λ name. name) (D.names d)) input_drvs.now && rises S.key input_srcs.now) }
{
    if !is_rising(outputs) {
        return false;
    }
    if !is_rising(input_drvs) {
        return false;
    }
    if !have_rising_names(input_drvs) {
        return false;
    }
    is_rising(input_srcs)
}

/// Whether all five kinds of list of these parts strictly rise.
pub(crate) fn is_in_order(parts: &Parts) -> bool
    ensures { result ≡ in_order parts.now }
{
    let paths_rise = are_paths_in_order(
        parts.outputs.as_slice(),
        parts.input_drvs.as_slice(),
        parts.input_srcs.as_slice(),
    );
    if !paths_rise {
        return false;
    }
    is_rising(parts.env.as_slice())
}

/// The same of parts of which not all variables are kept, where `rising` says whether the environment
/// strictly rises.
pub(crate) fn is_selected_in_order(parts: &SelectedView<'_>, rising: bool) -> bool
    ensures { result ≡ is_in_order parts.now rising }
{
    if !rising {
        return false;
    }
    are_paths_in_order(
        parts.outputs.as_slice(),
        parts.input_drvs.as_slice(),
        parts.input_srcs.as_slice(),
    )
}
