//! The paths and names that the lines of a piece have in common.

ghost use Rattle.std.specs.Prelude.{◌≡◌, IfOk, IfSome};

use crate::name::Name;
use crate::names::Names;
use crate::want::Want;
use nd_aterm::Leaf;
use nd_bytes::Items;
use nd_line::InputView;
use nd_path::StorePath;
use std::alloc::{AllocError, Global};

/// How many names are kept to be shared. Outputs have few names, and the search goes through all of them.
const NAME_LIMIT: usize = 16;

/// How many paths are found again, each by three characters of its digest: a search by all of its bytes would take
/// as long as to read it.
const PLACES: usize = 4096;

/// Where the second character of a path's digest stands.
const DIGEST: usize = 12;

/// The paths and the first names of outputs that were read so far: of inputs, and from the first of these on of lines
/// too. One that is read again shares the bytes of the one that is here, unless another path has taken its place since.
#[derive(Drop)]
pub struct Pool {
    /// Whether there are lines that may share a path.
    shares: bool,
    paths: Vec<StorePath>,
    /// The number of the path that was read last of those with these characters; nothing before the first path.
    latest: Vec<usize>,
    names: Vec<Name>,
}

/// The place of a path among [`PLACES`]: five bits of each of three characters, of which the last has two.
fn place_of(path: &[u8]) -> usize {
    let digit = |at: usize| -> usize { path.get(at).map_or(0, |byte| *byte as usize % 32) };
    (digit(DIGEST) * 32 + digit(DIGEST + 1)) * 4 + digit(DIGEST + 2) % 4
}

/// For each place no number yet, which is as good as the first.
fn no_numbers(alloc: Global) -> Result<Vec<usize>, AllocError> {
    vec![in alloc; 0; PLACES]
}

impl Pool {
    /// No path and no name, for so many lines. It takes no memory.
    pub fn new(alloc: Global, lines: usize) -> Pool {
        Pool {
            shares: lines > 1,
            paths: Vec::new(alloc),
            latest: Vec::new(alloc),
            names: Vec::new(alloc),
        }
    }

    /// The inputs of a line on their own.
    pub(crate) fn wants(
        &mut self,
        alloc: Global,
        inputs: &[InputView<'_>],
    ) -> Result<Items<Want>, AllocError>
        ensures { IfOk result (λ wants. wants ≡ inputs.now) }
    {
        let mut wants = Vec::with_capacity(alloc, inputs.len())?;
        for input in inputs {
            wants.push(self.want(alloc, input)?)?;
        }
        Ok(Items::new(wants))
    }

    /// An input on its own.
    #[tactic(auto, using(crate::proofs::Pooled::same_input))]
    fn want(&mut self, alloc: Global, input: &InputView<'_>) -> Result<Want, AllocError>
        ensures { IfOk result (λ want. want ≡ input.now) }
    {
        let path = self.path(alloc, input)?;
        let names = self.names(alloc, input.names())?;
        Ok(Want::new(path, names))
    }

    /// The path of an input.
    fn path(&mut self, alloc: Global, input: &InputView<'_>) -> Result<StorePath, AllocError>
        ensures { IfOk result (λ path. path ≡ input.now.path) }
    {
        let place = place_of(input.path());
        if let Some(path) = self.known_at(place, input.path()) {
            return path.try_clone();
        }
        let path = input.store_path(alloc)?;
        if self.shares {
            self.note(alloc, place, path.try_clone()?)?;
        }
        Ok(path)
    }

    /// The path of a line, which may be an input of later ones. It isn't kept before the first input, since there may be
    /// none.
    pub(crate) fn keep(&mut self, alloc: Global, path: &StorePath) -> Result<(), AllocError> {
        if self.latest.is_empty() {
            return Ok(());
        }
        self.note(alloc, place_of(path.bytes()), path.try_clone()?)
    }

    /// The path with these bytes, where it has this place.
    fn known_at(&self, place: usize, bytes: &[u8]) -> Option<&StorePath>
        ensures { IfSome result (λ path. path.now ≡ bytes.now) }
    {
        let number = *self.latest.get(place)?;
        let path = self.paths.get(number)?;
        if path.bytes() == bytes {
            return Some(path);
        }
        None
    }

    /// A path has this place from now on.
    fn note(&mut self, alloc: Global, place: usize, path: StorePath) -> Result<(), AllocError> {
        if self.latest.is_empty() {
            self.latest = no_numbers(alloc)?;
        }
        let number = self.paths.len();
        self.paths.push(path)?;
        if place < self.latest.len() {
            self.latest[place] = number;
        }
        Ok(())
    }

    /// Names on their own.
    #[tactic(auto, using(crate::proofs::Linked::only_wanted))]
    pub(crate) fn names(&mut self, alloc: Global, leaves: &[Leaf<'_>]) -> Result<Names, AllocError>
        ensures { IfOk result (λ names. names ≡ leaves.now) }
    {
        match leaves {
            [leaf] => Ok(Names::one(self.name(alloc, leaf.as_slice())?)),
            _ => self.list_names(alloc, leaves),
        }
    }

    /// The same, in a list.
    fn list_names(&mut self, alloc: Global, leaves: &[Leaf<'_>]) -> Result<Names, AllocError>
        ensures { IfOk result (λ names. names ≡ leaves.now) }
    {
        let mut names = Vec::with_capacity(alloc, leaves.len())?;
        for leaf in leaves {
            names.push(self.name(alloc, leaf.as_slice())?)?;
        }
        Names::many(alloc, names)
    }

    /// The name with these bytes.
    fn name(&mut self, alloc: Global, bytes: &[u8]) -> Result<Name, AllocError>
        ensures { IfOk result (λ name. name ≡ bytes.now) }
    {
        if let Some(name) = find_name(self.names.as_slice(), bytes) {
            return name.try_clone();
        }
        let name = Name::from_slice(alloc, bytes)?;
        if self.names.len() < NAME_LIMIT {
            self.names.push(name.try_clone()?)?;
        }
        Ok(name)
    }
}

/// The name with these bytes, where it is one of the names.
fn find_name<'n>(names: &'n [Name], bytes: &[u8]) -> Option<&'n Name>
    ensures { IfSome result (λ name. name.now ≡ bytes.now) }
{
    for name in names {
        if name.as_slice() == bytes {
            return Some(name);
        }
    }
    None
}
