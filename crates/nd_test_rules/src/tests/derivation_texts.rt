//! The worked examples of derivation texts. Want of memory is a no.

use nd_aterm::{AtermError, Derivation, EnvEntry, Parts, parse, write};
use nd_bytes::{ByteString, Items};
use std::alloc::{AllocError, Global};

const SMALLEST: &[u8] = b"Derive([],[],[],\"s\",\"b\",[],[])";

/// The smallest derivation, with this platform and environment.
fn smallest(alloc: Global, platform: &[u8], env: Vec<EnvEntry>) -> Result<Derivation, AtermError> {
    match two_texts(alloc, platform) {
        Ok((platform, builder)) => Derivation::new(Parts {
            outputs: Items::new(Vec::new(alloc)),
            input_drvs: Items::new(Vec::new(alloc)),
            input_srcs: Items::new(Vec::new(alloc)),
            platform,
            builder,
            args: Items::new(Vec::new(alloc)),
            env: Items::new(env),
        }),
        Err(_) => {
            drop(env);
            Err(AtermError::Memory)
        }
    }
}

/// This platform and the builder `b`.
fn two_texts(alloc: Global, platform: &[u8]) -> Result<(ByteString, ByteString), AllocError> {
    let platform = ByteString::from_slice(alloc, platform)?;
    match ByteString::from_slice(alloc, b"b") {
        Ok(builder) => Ok((platform, builder)),
        Err(refused) => {
            drop(platform);
            Err(refused)
        }
    }
}

/// Whether a derivation has this text.
fn is_written(alloc: Global, derivation: &Derivation, text: &[u8]) -> bool {
    match write(alloc, derivation) {
        Ok(written) => {
            let is_so = written.as_slice() == text;
            drop(written);
            is_so
        }
        Err(_) => false,
    }
}

/// Whether this is the smallest derivation, and nothing that was refused.
fn is_smallest(alloc: Global, answer: Result<Derivation, AtermError>) -> bool {
    match answer {
        Ok(derivation) => {
            let is_so = derivation.parts.platform.as_slice() == b"s".as_slice()
                && derivation.parts.builder.as_slice() == b"b".as_slice()
                && is_written(alloc, &derivation, SMALLEST);
            drop(derivation);
            is_so
        }
        Err(_) => false,
    }
}

#[test]
fn smallest_derivation(rt: HostRuntime) {
    let alloc = rt.alloc();
    assert_eq!(rt; SMALLEST.len(), 30);
    assert!(rt; is_smallest(alloc, parse(alloc, SMALLEST)));
    assert!(rt; is_smallest(alloc, smallest(alloc, b"s", Vec::new(alloc))));
}

/// The value of the example of escapes.
const VALUE: [u8; 6] = [0x22, 0x5c, 0x0a, 0x0d, 0x09, 0xff];

/// The text of the smallest derivation with that value under the key `k`.
fn escaped(alloc: Global) -> Result<Vec<u8>, AllocError> {
    let spelled = [
        0x5c, 0x22, 0x5c, 0x5c, 0x5c, 0x6e, 0x5c, 0x72, 0x5c, 0x74, 0xff,
    ];
    joined(
        alloc,
        b"Derive([],[],[],\"s\",\"b\",[],[(\"k\",\"",
        &spelled,
        b"\")])",
    )
}

/// Three texts, one behind the other.
pub(crate) fn joined(
    alloc: Global,
    first: &[u8],
    middle: &[u8],
    last: &[u8],
) -> Result<Vec<u8>, AllocError> {
    let mut text = Vec::new(alloc);
    match put_three(&mut text, first, middle, last) {
        Ok(()) => Ok(text),
        Err(refused) => {
            drop(text);
            Err(refused)
        }
    }
}

/// Puts three texts, one behind the other.
fn put_three(
    text: &mut Vec<u8>,
    first: &[u8],
    middle: &[u8],
    last: &[u8],
) -> Result<(), AllocError> {
    text.extend_from_slice(first)?;
    text.extend_from_slice(middle)?;
    text.extend_from_slice(last)
}

/// The smallest derivation with that value under the key `k`.
fn with_value(alloc: Global) -> Result<Derivation, AtermError> {
    let mut env = Vec::new(alloc);
    match push_value(alloc, &mut env) {
        Ok(()) => smallest(alloc, b"s", env),
        Err(_) => {
            drop(env);
            Err(AtermError::Memory)
        }
    }
}

/// Adds that value under the key `k`.
fn push_value(alloc: Global, env: &mut Vec<EnvEntry>) -> Result<(), AllocError> {
    let key = ByteString::from_slice(alloc, b"k")?;
    match ByteString::from_slice(alloc, &VALUE) {
        Ok(value) => Ok(env.push(EnvEntry { key, value })?),
        Err(refused) => {
            drop(key);
            Err(refused)
        }
    }
}

/// Whether a derivation has an environment of one entry, which has the value.
fn has_one_value(derivation: &Derivation) -> bool {
    match derivation.parts.env.as_slice() {
        [entry] => entry.value.as_slice() == VALUE.as_slice(),
        _ => false,
    }
}

/// Whether this is a derivation with this text and an environment of one entry, which has the value.
fn has_value(alloc: Global, answer: Result<Derivation, AtermError>, text: &[u8]) -> bool {
    match answer {
        Ok(derivation) => {
            let is_so = has_one_value(&derivation) && is_written(alloc, &derivation, text);
            drop(derivation);
            is_so
        }
        Err(_) => false,
    }
}

/// Whether the value is escaped so, and read back.
fn is_escaped(alloc: Global) -> bool {
    match escaped(alloc) {
        Ok(text) => {
            let is_so = has_value(alloc, with_value(alloc), &text)
                && has_value(alloc, parse(alloc, &text), &text);
            drop(text);
            is_so
        }
        Err(_) => false,
    }
}

#[test]
fn escapes(rt: HostRuntime) {
    assert!(rt; is_escaped(rt.alloc()));
}

/// Whether a text is refused so.
fn is_refused(alloc: Global, text: &[u8], refusal: AtermError) -> bool {
    match parse(alloc, text) {
        Ok(derivation) => {
            drop(derivation);
            false
        }
        Err(why) => why == refusal,
    }
}

#[test]
fn bad_spellings(rt: HostRuntime) {
    let texts = [
        (
            b"Derive([],[],[],\"s\",\"\\x\",[],[])".as_slice(),
            AtermError::NotDerivation,
        ),
        (
            b"Derive([],[],[],\"s\",\"\t\",[],[])",
            AtermError::NotDerivation,
        ),
        (
            b"Derive([(\"out\",\"p\",\"\",\"\"),(\"dev\",\"q\",\"\",\"\")],[],[],\"s\",\"b\",[],[])",
            AtermError::Order,
        ),
        (
            b"Derive([(\"out\",\"p\",\"\",\"\"),(\"out\",\"q\",\"\",\"\")],[],[],\"s\",\"b\",[],[])",
            AtermError::Order,
        ),
    ];
    for (text, refusal) in texts {
        assert!(rt; is_refused(rt.alloc(), text, refusal));
    }
}

#[test]
fn proper_prefixes(rt: HostRuntime) {
    for n in 0..30 {
        let prefix = &SMALLEST[..n];
        assert!(rt;
            is_refused(rt.alloc(), prefix, AtermError::NotDerivation),
            "{n} bytes"
        );
    }
    let with_newline = b"Derive([],[],[],\"s\",\"b\",[],[])\n";
    assert!(rt; is_refused(rt.alloc(), with_newline, AtermError::NotDerivation));
}

/// The text of the smallest derivation with this platform.
fn long_text(alloc: Global, platform: &[u8]) -> Result<Vec<u8>, AllocError> {
    joined(alloc, b"Derive([],[],[],\"", platform, b"\",\"b\",[],[])")
}

/// Whether this is a derivation with this text and a platform of 16,777,187 letters.
fn is_longest(alloc: Global, answer: Result<Derivation, AtermError>, text: &[u8]) -> bool {
    match answer {
        Ok(derivation) => {
            let is_so = derivation.parts.platform.len() == 16_777_187
                && is_written(alloc, &derivation, text);
            drop(derivation);
            is_so
        }
        Err(_) => false,
    }
}

/// Whether the smallest derivation with this platform is read and written at the limit's length.
fn is_taken(alloc: Global, platform: &[u8]) -> bool {
    match long_text(alloc, platform) {
        Ok(text) => {
            let is_so = text.len() == 16_777_216
                && is_longest(alloc, parse(alloc, &text), &text)
                && is_longest(alloc, smallest(alloc, platform, Vec::new(alloc)), &text);
            drop(text);
            is_so
        }
        Err(_) => false,
    }
}

/// Whether this is a derivation whose text is too long to be written.
fn is_unwritten(alloc: Global, answer: Result<Derivation, AtermError>) -> bool {
    match answer {
        Ok(derivation) => {
            let answer = write(alloc, &derivation);
            drop(derivation);
            answer.err() == Some(AtermError::TooLong)
        }
        Err(_) => false,
    }
}

/// Whether the smallest derivation with this platform is neither read nor written.
fn is_too_long(alloc: Global, platform: &[u8]) -> bool {
    match long_text(alloc, platform) {
        Ok(text) => {
            let is_so = is_refused(alloc, &text, AtermError::TooLong)
                && is_unwritten(alloc, smallest(alloc, platform, Vec::new(alloc)));
            drop(text);
            is_so
        }
        Err(_) => false,
    }
}

/// Whether the smallest derivation with a platform of this many letters is taken, or is too long.
fn is_limited(alloc: Global, letters: usize, accepted: bool) -> bool {
    match vec![in alloc; b's'; letters] {
        Ok(platform) if accepted => is_taken(alloc, &platform),
        Ok(platform) => {
            let is_so = is_too_long(alloc, &platform);
            drop(platform);
            is_so
        }
        Err(_) => false,
    }
}

#[test]
fn limits(rt: HostRuntime) {
    assert!(rt; is_limited(rt.alloc(), 16_777_187, true));
    assert!(rt; is_limited(rt.alloc(), 16_777_188, false));
}
