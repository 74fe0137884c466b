//! Store paths: their texts, sets of them, Nix's base 32, and the paths of texts.
#![tactic(auto)]

mod encoding;
mod path_error;
mod path_set;
mod path_text;
mod store_path;
mod texts;

pub use encoding::{base32, fold};
pub use path_error::PathError;
pub use path_set::PathSet;
pub use store_path::{StorePath, is_drv_store_path, is_path_name, is_store_path};
pub use texts::text_path;
