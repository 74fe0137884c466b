//! The tests, by what they are about, and what they share.

mod builders_lists;
mod choices;
mod derivation_texts;
mod eligibility;
mod replies;
mod spellings;
mod store_paths;
mod values;
