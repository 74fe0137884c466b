//! The workers, each with its place in the park and its transport.

use nd_receipts::ParkPlace;

/// A place in the park, and the transport that serves it.
#[derive(Drop)]
pub struct Seat<T> {
    /// The place.
    pub place: ParkPlace,
    /// The way to the machine.
    pub transport: T,
}
