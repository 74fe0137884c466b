//! A piece of a bundle, as it was read.

use nd_line::LineError;
use nd_links::Columns;

/// What was read of a piece of a bundle: what its lines say, or those up to the first that is refused, and
/// that refusal.
#[derive(Drop)]
pub(crate) struct Piece {
    pub columns: Columns,
    pub refused: Option<LineError>,
}
