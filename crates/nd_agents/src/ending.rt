//! The first word of an answer to a build.

ghost use Rattle.std.specs.Prelude.{◌≡◌};
ghost use Rattle.nd_agents.specs.AnswerTexts.{ending_of};

/// How a build ended, by the first word of its answer.
#[derive(Clone, Copy, Debug, PartialEq, Eq)]
pub enum Ending {
    /// `built`: with its outputs.
    Built,
    /// `failed`: the builder ended with a status.
    Failed,
    /// `lost`: nobody knows.
    Lost,
}

/// How a build ended by this word, if it is one of those that an answer may begin with.
pub(crate) fn ending_named(word: &[u8]) -> Option<Ending>
    ensures { result ≡ ending_of word.now }
{
    if word == b"built".as_slice() {
        return Some(Ending::Built);
    }
    if word == b"failed".as_slice() {
        return Some(Ending::Failed);
    }
    if word == b"lost".as_slice() {
        return Some(Ending::Lost);
    }
    None
}
