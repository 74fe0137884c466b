//! Reading the fields of an entry.

ghost use Rattle.std.specs.Prelude.{◌≡◌, ◌≤◌, IfOk};
ghost use Rattle.nd_machines.specs.Fields.{is_dash, is_include, is_complete, uri_of, systems_of, features_of, name_of, jobs_of, fraction_of, speed_of};

use crate::feature_set::FeatureSet;
use nd_bytes::{ByteString, cut, decimal};
use std::alloc::{AllocError, Global};

/// The most jobs of a machine.
const MOST_JOBS: u32 = 65_535;

/// The greatest whole part of a speed.
const MOST_SPEED: u32 = 1_000_000;

/// The greatest number of six digits.
const MOST_FRACTION: u32 = 999_999;

/// A speed of 1 in millionths.
const MILLION: u64 = 1_000_000;

/// Whether the field is `-`.
pub(crate) fn is_left_out(field: &[u8]) -> bool
    ensures { result ≡ is_dash field.now }
{
    matches!(field, [b'-'])
}

/// Whether the URI would name a file of machines.
pub(crate) fn names_file(uri: &[u8]) -> bool
    ensures { result ≡ is_include uri.now }
{
    uri.starts_with(b"@")
}

/// Whether the URI says how the store is reached.
fn is_whole(uri: &[u8]) -> bool
    ensures { result ≡ is_complete uri.now }
{
    uri.contains(&b'/')
        || uri == b"auto".as_slice()
        || uri.starts_with(b"auto?")
        || uri == b"daemon".as_slice()
        || uri.starts_with(b"daemon?")
        || uri == b"local".as_slice()
        || uri.starts_with(b"local?")
        || uri.starts_with(b"?")
}

/// The store's URI, with `ssh://` before the name of a host.
pub(crate) fn read_uri(alloc: Global, field: &[u8]) -> Result<ByteString, AllocError>
    ensures { IfOk result (λ uri. uri ≡ uri_of field.now) }
{
    if is_whole(field) {
        return ByteString::from_slice(alloc, field);
    }
    let mut uri = Vec::from_slice(alloc, b"ssh://")?;
    uri.extend_from_slice(field)?;
    Ok(ByteString::new(uri))
}

/// The systems of a machine: this system alone where the field is `-`.
#[tactic(auto, using(crate::proofs::Sets::set_of_one))]
pub(crate) fn read_systems(
    alloc: Global,
    field: &[u8],
    this_system: &[u8],
) -> Result<FeatureSet, AllocError>
    ensures { IfOk result (λ systems. systems ≡ systems_of this_system.now field.now) }
{
    if is_left_out(field) {
        let mut systems = Vec::new(alloc);
        systems.push(ByteString::from_slice(alloc, this_system)?)?;
        return Ok(FeatureSet::new(systems));
    }
    FeatureSet::from_list(alloc, field)
}

/// The features of a field: none where it is `-`.
#[tactic(auto, using(crate::proofs::Sets::set_of_none))]
pub(crate) fn read_features(alloc: Global, field: &[u8]) -> Result<FeatureSet, AllocError>
    ensures { IfOk result (λ features. features ≡ features_of field.now) }
{
    if is_left_out(field) {
        return Ok(FeatureSet::new(Vec::new(alloc)));
    }
    FeatureSet::from_list(alloc, field)
}

/// The name in a field: none where it is `-`.
pub(crate) fn read_name(alloc: Global, field: &[u8]) -> Result<Option<ByteString>, AllocError>
    ensures { IfOk result (λ name. name ≡ name_of field.now) }
{
    if is_left_out(field) {
        return Ok(None);
    }
    Ok(Some(ByteString::from_slice(alloc, field)?))
}

/// The number of jobs: 1 where the field is `-`.
pub(crate) fn read_jobs(field: &[u8]) -> Option<u32>
    ensures { result ≡ jobs_of field.now }
{
    if is_left_out(field) {
        return Some(1);
    }
    decimal(field, MOST_JOBS)
}

/// The millionths that one to six digits behind a point stand for.
fn read_fraction(digits: &[u8]) -> Option<u64>
    ensures { result ≡ fraction_of digits.now }
{
    // No digit at all is no number, whatever its scale.
    let scale = match digits.len() {
        0 | 1 => 100_000,
        2 => 10_000,
        3 => 1_000,
        4 => 100,
        5 => 10,
        6 => 1,
        _ => return None,
    };
    let value = decimal(digits, MOST_FRACTION)?;
    Some(u64::from(value) * scale)
}

/// The speed in millionths: 1 where the field is `-`.
pub(crate) fn read_speed(field: &[u8]) -> Option<u64>
    ensures { result ≡ speed_of field.now }
{
    if is_left_out(field) {
        return Some(MILLION);
    }
    let (whole, behind_point) = cut(field, b'.');
    let whole = u64::from(decimal(whole, MOST_SPEED)?) * MILLION;
    let speed = match behind_point {
        Some(digits) => whole + read_fraction(digits)?,
        None => whole,
    };
    if speed == 0 || speed > u64::from(MOST_SPEED) * MILLION {
        return None;
    }
    Some(speed)
}
