//! The first word of a stand text's line.

ghost use Rattle.std.specs.Prelude.{◌≡◌};
ghost use Rattle.nd_script.specs.Stand.{topic_of};

/// What a rule speaks of, by the first word of its line.
#[derive(Clone, Copy, Debug, PartialEq, Eq)]
pub enum Topic {
    NoConnect,
    NoCopy,
    Fail,
    Lose,
    Built,
}

/// What this word speaks of, if it is one of those that a line may begin with.
pub(crate) fn topic_named(word: &[u8]) -> Option<Topic>
    ensures { result ≡ topic_of word.now }
{
    if word == b"noconnect".as_slice() {
        return Some(Topic::NoConnect);
    }
    if word == b"nocopy".as_slice() {
        return Some(Topic::NoCopy);
    }
    if word == b"fail".as_slice() {
        return Some(Topic::Fail);
    }
    if word == b"lose".as_slice() {
        return Some(Topic::Lose);
    }
    if word == b"built".as_slice() {
        return Some(Topic::Built);
    }
    None
}
