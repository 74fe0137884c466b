//! What the command line says.

use nd_bytes::ByteString;

/// What the command line of a command over a bundle says, with the bytes of the files that it
/// names.
#[derive(Drop)]
pub struct ParkOptions {
    /// The builders list: the text of `--builders TEXT`, or the bytes of the file of
    /// `--builders @FILE`.
    pub builders: ByteString,
    /// The local system: `--system S`.
    pub system: ByteString,
    /// The further local systems: `--extra LIST`, items between commas.
    pub extra: ByteString,
    /// The local features: `--features LIST`, items between commas.
    pub features: ByteString,
    /// The local jobs: `--jobs N`.
    pub jobs: u16,
    /// Whether the rest goes on after a failure: `--keep-going`.
    pub keep_going: bool,
    /// Whether each line's path is compared with the one that its text has: `--check-paths`.
    pub check_paths: bool,
    /// The info text: the bytes of the file of `--info FILE`, and none without that option.
    pub info: ByteString,
}
