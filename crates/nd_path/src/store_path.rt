//! A store path.

ghost use Rattle.std.specs.Prelude.{true, ◌≤◌, length, ◌&&◌, ◌∷◌, ◌++◌, ◌≡◌, ℕ, List, Option, None, IfOk, IfErr, is_none};
ghost use Rattle.std.proofs.Common.{rules};
ghost use Rattle.std.specs.Cmp as Cmp;
ghost use Rattle.std.specs.Cmp.Lexicographic.{nat_list_eq_equiv, nat_list_cmp_total, texts_ties, texts_po};
ghost use Rattle.std.specs.Ordering.{as_partial_cmp};
ghost use Rattle.nd_path.specs.StorePath.{store_directory, path_eq, path_cmp, path_input, IsNameOf, name_of, is_drv_path, is_digest_byte, is_dash_and_name, is_name_byte, is_name};
ghost use Rattle.std.specs.List.{list_all};
ghost use Rattle.nd_path.specs.declared.path_error.PathError.{PathError};
ghost use Rattle.nd_path.specs.Refusals.{fault_of, fault_behind_directory, IsPath, IsSpelled, IsRefused};
ghost use Rattle.nd_path.specs.SamePaths.{paths_alike};
ghost use Rattle.nd_path.specs.Fronts.{base_of, IsFrontOf};

use crate::path_error::PathError;
use crate::path_text::PathText;
use std::alloc::{AllocError, Global};
use std::cmp::Ordering;
use std::hash::{Hash, Hasher};
use std::marker::Model;
use std::sync::Arc;

/// The number of characters of a digest in base 32.
const DIGEST_LENGTH: usize = 32;

/// The number of characters of the store directory and its slash.
const DIRECTORY_LENGTH: usize = 11;

/// Where the name begins: behind the store directory, the digest and the dash.
const NAME_START: usize = 44;

/// The greatest number of bytes of a name.
const NAME_LIMIT: usize = 211;

/// What each byte is in a store path, 32 to a row: `2` is a character of a digest and of a name, `1`
/// one of a name alone, and `0` none of both.
const KINDS: &[u8; 256] = b"\
    00000000000000000000000000000000\
    00000000000101102222222222000101\
    01111111111111111111111111100001\
    02222122222222212222112222200000\
    00000000000000000000000000000000\
    00000000000000000000000000000000\
    00000000000000000000000000000000\
    00000000000000000000000000000000";

/// A store path: `/nix/store/`, a digest of 32 characters, `-` and a name (Nix Reference Manual,
/// "Store Path"). Contracts see the list of its bytes, which is a store path. Two are equal where
/// their bytes are, and they stand in the order of their bytes. All copies of one share its bytes.
#[derive(Debug, Drop)]
pub struct StorePath {
    text: Arc<PathText>,
}

impl Model for StorePath {
    ghost use Rattle.std.specs.Prelude.{ℕ, List};
    ghost use Rattle.nd_path.specs.Refusals.{IsPath};

    ghost Value = { List ℕ };

    ghost view = { λ p. p.text.value };

    ghost invariant = { λ p. IsPath p.text.value };
}

impl StorePath {
    /// The store path with these bytes.
    ///
    /// Refuses with the first of `Prefix` (1), `Digest` (2) and `Name` (3) that the bytes give cause
    /// for, and bytes that give none with `Memory` (4) where the copy is refused.
    #[tactic(auto, using(crate::proofs::Spelling::spelled))]
    pub fn parse(alloc: Global, bytes: &[u8]) -> Result<StorePath, PathError>
        ensures found { IfOk result (λ p. p ≡ bytes.now) }
        ensures path { IfOk result IsPath }
        ensures spelled { IfOk result IsSpelled }
        ensures refused { IfErr result (IsRefused bytes.now) }
        ensures taken { IsSpelled bytes.now → IfErr result (λ e. e ≡ PathError.Memory) }
    {
        if let Some(fault) = fault(bytes) {
            return Err(fault);
        }
        Ok(StorePath::from_path(alloc, bytes)?)
    }

    /// The store path with these bytes, which are one ([`is_store_path`]).
    pub fn from_path(alloc: Global, bytes: &[u8]) -> Result<StorePath, AllocError>
        requires { IsPath bytes.now }
        ensures { IfOk result (λ p. p ≡ bytes.now) }
    {
        let text = PathText::from_slice(alloc, bytes)?;
        Ok(StorePath {
            text: Arc::new(alloc, text)?,
        })
    }

    /// The store path of a digest in base 32 and a name.
    pub(crate) fn from_digest(
        alloc: Global,
        digest: &[u8; 32],
        name: &[u8],
    ) -> Result<StorePath, AllocError>
        requires digest { list_all is_digest_byte digest.now ≡ true }
        requires name { is_name name.now ≡ true }
        ensures { IfOk result (λ p. p ≡ store_directory ++ digest.now ++ 45 ∷ name.now) }
    {
        let mut bytes = Vec::new(alloc);
        bytes.extend_from_slice(b"/nix/store/")?;
        bytes.extend_from_slice(digest)?;
        bytes.push(b'-')?;
        bytes.extend_from_slice(name)?;
        StorePath::from_path(alloc, bytes.as_slice())
    }

    /// The whole path's bytes.
    #[tactic(auto, using(crate::proofs::Spelling::spelled))]
    pub fn bytes(&self) -> &[u8]
        ensures value { result.now ≡ self.now }
        ensures path { IsPath result.now }
        ensures spelled { IsSpelled result.now }
    {
        self.text.as_slice()
    }

    /// What stands behind the store directory, with which every store path begins: the digest, the
    /// dash and the name. Two paths are told apart by these bytes alone.
    #[tactic(auto, using(crate::specs::Lengths::path_long))]
    fn behind_directory(&self) -> &[u8]
        ensures whole { self.now ≡ store_directory ++ result.now }
        ensures value { result.now ≡ base_of self.now }
        ensures long { 33 ≤ length result.now }
    {
        let (_, base) = self.text.as_slice().split_at(DIRECTORY_LENGTH);
        base
    }

    /// The name: 1 to 211 bytes behind the digest and its dash.
    #[tactic(auto, using(crate::specs::Lengths::path_long))]
    pub fn name(&self) -> &[u8]
        ensures part { IsNameOf self.now result.now }
        ensures value { result.now ≡ name_of self.now }
        ensures named { is_name result.now ≡ true }
    {
        let (_, name) = self.text.as_slice().split_at(NAME_START);
        name
    }

    /// Whether the name ends in `.drv`, as a derivation's does.
    pub fn is_drv(&self) -> bool
        ensures { result ≡ is_drv_path self.now }
    {
        self.name().ends_with(b".drv")
    }

    /// A copy that is equal to the original. It shares the bytes and takes no memory.
    pub fn try_clone(&self) -> Result<StorePath, AllocError>
        ensures { IfOk result (λ p. p ≡ self.now) }
    {
        Ok(StorePath {
            text: self.text.clone()?,
        })
    }
}

impl Clone for StorePath {
    ghost is_clone = { λ p q. q ≡ p };

    fn clone(&self) -> Result<StorePath, AllocError> {
        self.try_clone()
    }
}

impl PartialEq for StorePath {
    ghost eq = { path_eq };

    ghost laws = { Cmp.partial_equiv_from_equiv nat_list_eq_equiv };

    fn eq(&self, other: &StorePath) -> bool {
        self.behind_directory() == other.behind_directory()
    }
}

impl Eq for StorePath {
    ghost laws = { nat_list_eq_equiv };
}

impl PartialOrd for StorePath {
    ghost partial_cmp = { as_partial_cmp path_cmp };

    ghost laws = { texts_po };

    fn partial_cmp(&self, other: &StorePath) -> Option<Ordering> {
        Some(self.cmp(other))
    }
}

impl Ord for StorePath {
    ghost cmp = { path_cmp };

    ghost total = { nat_list_cmp_total };

    ghost matches_partial_cmp = { Prim.search rules };

    ghost matches_eq = { texts_ties };

    fn cmp(&self, other: &StorePath) -> Ordering {
        order(self.behind_directory(), other.behind_directory())
    }
}

impl Hash for StorePath {
    ghost hash_input = { path_input };

    ghost respects_eq = { paths_alike };

    fn hash<H: Hasher>(&self, state: &mut H) {
        state.write(self.bytes());
    }
}

/// The order of what stands behind the store directory of two paths. The digests' first eight
/// characters, as one number each, mostly tell it.
fn order(base: &[u8], other: &[u8]) -> Ordering
    requires one { 8 ≤ length base.now }
    requires two { 8 ≤ length other.now }
    ensures { result ≡ path_cmp base.now other.now }
{
    match front_number(base).cmp(&front_number(other)) {
        Ordering::Equal => base.cmp(other),
        unequal => unequal,
    }
}

/// The first eight bytes as a number, the first byte the highest: these numbers stand in the order
/// of the bytes.
fn front_number(bytes: &[u8]) -> u64
    requires { 8 ≤ length bytes.now }
    ensures { IsFrontOf bytes.now result }
{
    u64::from_be_bytes([
        bytes[0], bytes[1], bytes[2], bytes[3], bytes[4], bytes[5], bytes[6], bytes[7],
    ])
}

/// Whether the bytes are a store path. It takes no memory.
pub fn is_store_path(bytes: &[u8]) -> bool
    ensures { result ≡ is_none (fault_of bytes.now) }
{
    fault(bytes).is_none()
}

/// Whether the bytes are the store path of a derivation: a store path whose name ends in `.drv`. It
/// takes no memory.
#[tactic(auto, using(crate::specs::Lengths::path_long))]
pub fn is_drv_store_path(bytes: &[u8]) -> bool
    ensures { result ≡ (is_none (fault_of bytes.now) && is_drv_path bytes.now) }
{
    if fault(bytes).is_some() {
        return false;
    }
    let (_, name) = bytes.split_at(NAME_START);
    name.ends_with(b".drv")
}

/// The first fault of the bytes, from left to right.
fn fault(bytes: &[u8]) -> Option<PathError>
    ensures { result ≡ fault_of bytes.now }
{
    match bytes.strip_prefix(b"/nix/store/") {
        Some(base) => fault_in_base(base),
        None => Some(PathError::Prefix),
    }
}

/// The first fault of what stands behind the store directory.
fn fault_in_base(base: &[u8]) -> Option<PathError>
    ensures { result ≡ fault_behind_directory base.now }
{
    if base.len() < DIGEST_LENGTH {
        return Some(PathError::Digest);
    }
    let (digest, rest) = base.split_at(DIGEST_LENGTH);
    if !are_digest_bytes(digest) {
        return Some(PathError::Digest);
    }
    if !is_dash_then_name(rest) {
        return Some(PathError::Name);
    }
    None
}

/// Whether each byte is of Nix's base-32 alphabet.
fn are_digest_bytes(bytes: &[u8]) -> bool
    ensures { result ≡ list_all is_digest_byte bytes.now }
{
    bytes.iter().all(|b| is_digit(*b))
}

/// Whether the byte is of Nix's base-32 alphabet.
#[tactic(auto, using(crate::proofs::Digits::digit_kind))]
fn is_digit(b: u8) -> bool
    ensures { result ≡ is_digest_byte b }
{
    KINDS[usize::from(b)] == b'2'
}

/// Whether the bytes are a dash and a name.
fn is_dash_then_name(bytes: &[u8]) -> bool
    ensures { result ≡ is_dash_and_name bytes.now }
{
    match bytes {
        [b'-', name @ ..] => is_path_name(name),
        _ => false,
    }
}

/// Whether the bytes are a store path's name: 1 to 211 of those that a name may have.
pub fn is_path_name(name: &[u8]) -> bool
    ensures { result ≡ is_name name.now }
{
    if name.is_empty() {
        return false;
    }
    if name.len() > NAME_LIMIT {
        return false;
    }
    are_name_bytes(name)
}

/// Whether each byte is one that a name may have.
fn are_name_bytes(bytes: &[u8]) -> bool
    ensures { result ≡ list_all is_name_byte bytes.now }
{
    bytes.iter().all(|b| is_name_character(*b))
}

/// Whether a name may have the byte.
#[tactic(auto, using(crate::proofs::Digits::name_kind))]
fn is_name_character(b: u8) -> bool
    ensures { result ≡ is_name_byte b }
{
    KINDS[usize::from(b)] != b'0'
}
