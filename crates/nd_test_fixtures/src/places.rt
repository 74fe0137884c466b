//! What a command over a bundle is given.

use nd_bytes::ByteString;
use nd_cli::ParkOptions;
use std::alloc::{AllocError, Global};

/// What a command over a bundle is given: the bundle, and the options that the tests choose. The local
/// system is `x86_64-linux`.
#[derive(Clone, Copy, Debug)]
pub struct Place<'a> {
    /// The bundle.
    pub bundle: &'a str,
    /// The builders list.
    pub builders: &'a str,
    /// The number of local jobs.
    pub jobs: u16,
    /// Whether the rest goes on after a failure.
    pub keep_going: bool,
    /// The further local systems.
    pub extra: &'a str,
    /// The local features.
    pub features: &'a str,
    /// Whether the paths of the bundle are checked.
    pub check_paths: bool,
    /// The info text.
    pub info: &'a str,
}

/// A place with no bundle, no builders and no local job, of which others are made.
pub const NOWHERE: Place<'static> = Place {
    bundle: "",
    builders: "",
    jobs: 0,
    keep_going: false,
    extra: "",
    features: "",
    check_paths: false,
    info: "",
};

/// A bundle with these builders and this number of local jobs. There are no further systems, no local
/// features and no info text, nothing goes on after a failure, and no path is checked.
pub fn park<'a>(bundle: &'a str, builders: &'a str, jobs: u16) -> Place<'a> {
    Place {
        bundle,
        builders,
        jobs,
        ..NOWHERE
    }
}

/// A text as an option has it: an empty one where there is no memory for it.
pub fn given(alloc: Global, text: &str) -> ByteString {
    match ByteString::from_slice(alloc, text.as_bytes()) {
        Ok(given) => given,
        Err(AllocError) => ByteString::new(Vec::new(alloc)),
    }
}

/// The options of a command at a place.
pub fn options(alloc: Global, place: &Place<'_>) -> ParkOptions {
    ParkOptions {
        builders: given(alloc, place.builders),
        system: given(alloc, "x86_64-linux"),
        extra: given(alloc, place.extra),
        features: given(alloc, place.features),
        jobs: place.jobs,
        keep_going: place.keep_going,
        check_paths: place.check_paths,
        info: given(alloc, place.info),
    }
}
