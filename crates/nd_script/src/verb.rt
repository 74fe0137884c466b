//! The first word of a script's line.

ghost use Rattle.std.specs.Prelude.{◌≡◌};
ghost use Rattle.nd_script.specs.Verbs.{verb_of};

/// What a line asks for, by its first word.
#[derive(Clone, Copy, Debug, PartialEq, Eq)]
pub enum Verb {
    Start,
    StartWith,
    Built,
    Fail,
    Lose,
    Down,
    Stop,
    Drain,
    Enable,
    Ask,
}

/// What this word asks for, if it is one of those that a line may begin with.
pub(crate) fn verb_named(word: &[u8]) -> Option<Verb>
    ensures { result ≡ verb_of word.now }
{
    if word == b"start".as_slice() {
        return Some(Verb::Start);
    }
    if word == b"startwith".as_slice() {
        return Some(Verb::StartWith);
    }
    if word == b"built".as_slice() {
        return Some(Verb::Built);
    }
    if word == b"fail".as_slice() {
        return Some(Verb::Fail);
    }
    if word == b"lose".as_slice() {
        return Some(Verb::Lose);
    }
    if word == b"down".as_slice() {
        return Some(Verb::Down);
    }
    if word == b"stop".as_slice() {
        return Some(Verb::Stop);
    }
    if word == b"drain".as_slice() {
        return Some(Verb::Drain);
    }
    if word == b"enable".as_slice() {
        return Some(Verb::Enable);
    }
    if word == b"ask".as_slice() {
        return Some(Verb::Ask);
    }
    None
}
