//! Parks, as builders lists and options.

use crate::graphs::class_at;
use crate::texts::Text;
use nd_bytes::ByteString;
use nd_cli::ParkOptions;
use std::alloc::{AllocError, Global};

/// A park.
#[derive(Clone, Copy, PartialEq, Eq)]
pub(crate) enum Park {
    /// Eight machines of eight jobs, of one system.
    Eight,
    /// 64 machines of four jobs, in five classes of systems and features.
    Classes,
    /// 1,024 machines of one to four jobs and three speeds, in five classes.
    Large,
    /// 64 machines of four jobs, each of which has some of so many features.
    Features(usize),
}

/// The options for a park, on which what doesn't depend on a failure goes on.
pub(crate) fn options(alloc: Global, park: Park) -> Result<ParkOptions, AllocError> {
    let builders = match park {
        Park::Eight => eight_builders(alloc)?,
        Park::Classes => class_builders(alloc, 64)?,
        Park::Large => class_builders(alloc, 1_024)?,
        Park::Features(count) => feature_builders(alloc, count)?,
    };
    Ok(ParkOptions {
        builders: ByteString::new(builders),
        system: ByteString::from_slice(alloc, b"x86_64-linux")?,
        extra: ByteString::new(Vec::new(alloc)),
        features: ByteString::new(Vec::new(alloc)),
        jobs: 0,
        keep_going: true,
        check_paths: false,
        info: ByteString::new(Vec::new(alloc)),
    })
}

fn eight_builders(alloc: Global) -> Result<Vec<u8>, AllocError> {
    let mut text = Text::with_room(alloc, 256)?;
    for machine in 0..8usize {
        text.put_word(b"m", machine)?;
        text.put(b" x86_64-linux - 8\n")?;
    }
    Ok(text.into_vec())
}

/// So many machines in five classes. Of 64 each has four jobs; of more, one to four and three speeds.
fn class_builders(alloc: Global, machines: usize) -> Result<Vec<u8>, AllocError> {
    let mut text = Text::with_room(alloc, machines.saturating_mul(48))?;
    for machine in 0..machines {
        let class = class_at(machine);
        text.put_word(b"m", machine)?;
        text.put(b" ")?;
        text.put(class.system)?;
        let many = machines > 64;
        text.put_word(b" - ", if many { 1 + machine % 4 } else { 4 })?;
        text.put_word(b" ", if many { 1 + machine % 3 } else { 1 })?;
        text.put(b" ")?;
        put_list(&mut text, class.features)?;
        text.put(b"\n")?;
    }
    Ok(text.into_vec())
}

/// Puts words that stand with spaces between them, with commas between them; `-` where there is none.
fn put_list(text: &mut Text, words: &[u8]) -> Result<(), AllocError> {
    if words.is_empty() {
        return text.put(b"-");
    }
    for byte in words {
        let byte = if *byte == b' ' { b',' } else { *byte };
        text.put(&[byte])?;
    }
    Ok(())
}

/// 64 machines. Machine m has the features of the numbers m, m + 64 and so on.
fn feature_builders(alloc: Global, count: usize) -> Result<Vec<u8>, AllocError> {
    let mut text = Text::with_room(alloc, count.saturating_mul(8).saturating_add(2_048))?;
    for machine in 0..64usize {
        text.put_word(b"m", machine)?;
        text.put(b" x86_64-linux - 4 1 -")?;
        for round in 0..count / 64 + 1 {
            let feature = round.saturating_mul(64).saturating_add(machine);
            text.put_word(b",f", feature)?;
        }
        text.put(b"\n")?;
    }
    Ok(text.into_vec())
}
