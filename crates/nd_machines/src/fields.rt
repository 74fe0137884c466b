//! The fields of an entry.

ghost use Rattle.std.specs.Prelude.{◌≡◌, ◌==◌, ◌≤◌, ◌∷◌, [], ℕ, length, drop, MatchOption};
ghost use Rattle.std.specs.Option.{option_copied};
ghost use Rattle.std.specs.List.{slice_split};
ghost use Rattle.nd_bytes.specs.Cut.{left_over};
ghost use Rattle.nd_machines.specs.Fields.{is_blank, blank_pieces, fields, field};

/// The fields of one entry as they stand in it. One that is missing is `-`.
#[derive(Clone, Copy)]
pub(crate) struct Entry<'a> {
    pub uri: &'a [u8],
    pub systems: &'a [u8],
    pub key: &'a [u8],
    pub jobs: &'a [u8],
    pub speed: &'a [u8],
    pub supported: &'a [u8],
    pub mandatory: &'a [u8],
    pub host_key: &'a [u8],
}

/// Whether a byte separates fields: a space, a tab or a return.
fn is_blank_byte(byte: u8) -> bool
    ensures { result ≡ is_blank byte }
{
    byte == b' ' || byte == b'\t' || byte == b'\r'
}

/// What stands before the first blank, and what stands after it: `None` where there is no blank.
fn cut_at_blank(bytes: &[u8]) -> (&[u8], Option<&[u8]>)
    ensures whole { slice_split is_blank bytes.now ≡ result.0.now ∷ blank_pieces (option_copied result.1) }
    ensures shorter { left_over (option_copied result.1) ≤ length bytes.now }
{
    for i in 0..bytes.len() {
        if is_blank_byte(bytes[i]) {
            let (front, _) = bytes.split_at(i);
            let (_, rest) = bytes.split_at(i + 1);
            return (front, Some(rest));
        }
    }
    (bytes, None)
}

/// The first field, and what stands behind it: `None` where there is no field.
fn next_field(bytes: &[u8]) -> Option<(&[u8], &[u8])>
    ensures { MatchOption result (fields bytes.now ≡ []) (λ p. fields bytes.now ≡ p.0.now ∷ fields p.1.now) }
{
    let mut left = Some(bytes);
    while let Some(parts) = left {
        let (part, rest) = cut_at_blank(parts);
        left = rest;
        if !part.is_empty() {
            return Some((part, rest.unwrap_or(&[])));
        }
    }
    None
}

/// The first field, or `-` where there is none, and what stands behind it.
fn field_or_dash(bytes: &[u8]) -> (&[u8], &[u8])
    ensures field { result.0.now ≡ field 0 (fields bytes.now) }
    ensures rest { fields result.1.now ≡ drop 1 (fields bytes.now) }
{
    match next_field(bytes) {
        Some(found) => found,
        None => (b"-", bytes),
    }
}

impl<'a> Entry<'a> {
    ghost use Rattle.nd_machines.specs.Entries.{IsEntry};

    /// The entry of the fields of `bytes`, or `None` where it has no field.
    pub(crate) fn read(bytes: &'a [u8]) -> Option<Self>
        ensures { MatchOption result (fields bytes.now ≡ []) (λ entry. IsEntry entry (fields bytes.now)) }
    {
        let (uri, rest) = next_field(bytes)?;
        let (systems, rest) = field_or_dash(rest);
        let (key, rest) = field_or_dash(rest);
        let (jobs, rest) = field_or_dash(rest);
        let (speed, rest) = field_or_dash(rest);
        let (supported, rest) = field_or_dash(rest);
        let (mandatory, rest) = field_or_dash(rest);
        let (host_key, _) = field_or_dash(rest);
        Some(Entry {
            uri,
            systems,
            key,
            jobs,
            speed,
            supported,
            mandatory,
            host_key,
        })
    }
}
