//! The classes of derivations.

ghost use Rattle.std.specs.Prelude.{◌≡◌, ◌<◌, length, IfOk, IsTrue};
ghost use Rattle.std.specs.List.{All, AllZip};
ghost use Rattle.nd_cli.specs.SharedClasses.{IsMade, IsOfClass, IsSameClass, MeetsClass, MeetsNeed};

use crate::class_marks::ClassMarks;
use nd_bytes::ByteString;
use nd_eligible::Need;
use nd_machines::FeatureSet;
use std::alloc::{AllocError, Global};
use std::collections::BTreeMap;

/// What the reply about a derivation depends on where no slot is taken and every machine is up: the platform and
/// the required features of its need. These say which machines are eligible, and each of those is free then; so
/// whether the local machine may build it and has a free slot too changes nothing.
type Class<'a> = (&'a ByteString, &'a FeatureSet);

/// Derivations by their classes, which are numbered from zero as they are met.
#[derive(Drop)]
pub(crate) struct Classes<'a> {
    /// Of each class the need of its first derivation.
    firsts: Vec<&'a Need>,
    /// Of each derivation its class.
    members: Vec<usize>,
}

impl<'a> Classes<'a> {
    /// The classes of derivations with these needs.
    pub(crate) fn of(alloc: Global, needs: &'a [Need]) -> Result<Classes<'a>, AllocError>
        ensures { IfOk result (λ classes. AllZip (IsOfClass classes.firsts.items) needs.now classes.members.items) }
    {
        let mut known = Known::new(alloc);
        let mut members = Vec::with_capacity(alloc, needs.len())?;
        for drv in 0..needs.len() {
            let class = known.meet(needs, drv)?;
            members.push(class)?;
        }
        let Known { firsts, .. } = known;
        Ok(Classes { firsts, members })
    }

    /// Of each class the need of its first derivation.
    pub(crate) fn firsts(&self) -> &[&'a Need]
        ensures { result.now ≡ self.now.firsts.items }
    {
        self.firsts.as_slice()
    }

    /// Of each derivation its class.
    pub(crate) fn members(&self) -> &[usize]
        ensures { result.now ≡ self.now.members.items }
    {
        self.members.as_slice()
    }
}

/// For each derivation what was made of its class.
pub(crate) fn by_class<T: Copy>(
    alloc: Global,
    made: &[T],
    members: &[usize],
) -> Result<Vec<T>, AllocError>
    requires made { All (λ class. class < length made.now) members.now }
    ensures { IfOk result (λ all. AllZip (IsMade made.now) members.now all.items) }
{
    let mut all = Vec::with_capacity(alloc, members.len())?;
    for number in 0..members.len() {
        let class = members[number];
        all.push(made[class])?;
    }
    Ok(all)
}

/// The classes that were met.
#[derive(Drop)]
struct Known<'a> {
    /// Of each class the need of its first derivation.
    firsts: Vec<&'a Need>,
    /// The class that was met last, or zero. Most derivations are of the class of the one before, and no mark is
    /// made for these.
    latest: usize,
    marks: ClassMarks,
    /// By marks of classes, the first class with each mark.
    marked: BTreeMap<u64, usize>,
    /// Classes whose mark is one of another class's.
    others: BTreeMap<Class<'a>, usize>,
}

impl<'a> Known<'a> {
    /// No class.
    fn new(alloc: Global) -> Known<'a>
        ensures { length result.firsts.items ≡ 0 }
    {
        Known {
            firsts: Vec::new(alloc),
            latest: 0,
            marks: ClassMarks::new(),
            marked: BTreeMap::new(alloc),
            others: BTreeMap::new(alloc),
        }
    }

    /// The class of derivation `drv`, which is known from now on.
    ///
    /// For the proof: what the maps answer is compared once more, so that nothing has to be said of them.
    #[tactic(auto, using(crate::proofs::SameClass::meets_known, crate::proofs::SameClass::meets_at))]
    fn meet(&mut self, needs: &'a [Need], drv: usize) -> Result<usize, AllocError>
        requires { drv < length needs.now }
        ensures { IfOk result (MeetsClass needs.now drv self.old.firsts.items self.new.firsts.items) }
    {
        let latest = self.latest;
        if is_of_class(self.firsts.as_slice(), latest, &needs[drv]) {
            return Ok(latest);
        }
        let mark = self.marks.mark(needs, drv);
        let class = self.meet_marked(&needs[drv], mark)?;
        self.latest = class;
        Ok(class)
    }

    /// The class of a derivation with this need, of which this is the mark.
    #[tactic(auto, using(crate::proofs::SameClass::meets_known))]
    fn meet_marked(&mut self, need: &'a Need, mark: u64) -> Result<usize, AllocError>
        ensures { IfOk result (MeetsNeed need.now self.old.firsts.items self.new.firsts.items) }
    {
        let Some(marked) = self.marked.get(&mark) else {
            self.marked.insert(mark, self.firsts.len())?;
            return self.begin(need);
        };
        let marked = *marked;
        if is_of_class(self.firsts.as_slice(), marked, need) {
            return Ok(marked);
        }
        self.meet_other(need)
    }

    /// As `meet_marked`, where another class has the mark of this one.
    #[tactic(auto, using(crate::proofs::SameClass::meets_known))]
    fn meet_other(&mut self, need: &'a Need) -> Result<usize, AllocError>
        ensures { IfOk result (MeetsNeed need.now self.old.firsts.items self.new.firsts.items) }
    {
        let class = (&need.system, &need.features);
        if let Some(other) = self.others.get(&class) {
            let other = *other;
            if is_of_class(self.firsts.as_slice(), other, need) {
                return Ok(other);
            }
        }
        self.others.insert(class, self.firsts.len())?;
        self.begin(need)
    }

    /// A class of which the derivation with this need is the first.
    fn begin(&mut self, need: &'a Need) -> Result<usize, AllocError>
        ensures { IfOk result (MeetsNeed need.now self.old.firsts.items self.new.firsts.items) }
    {
        let class = self.firsts.len();
        self.firsts.push(need)?;
        Ok(class)
    }
}

/// Whether a derivation with this need is of the class with this number, which may be that of no class.
#[tactic(auto, using(crate::proofs::SameClass::of_class))]
fn is_of_class(firsts: &[&Need], class: usize, need: &Need) -> bool
    ensures { IsTrue result → IsOfClass firsts.now need.now class }
{
    if class >= firsts.len() {
        return false;
    }
    is_same_class(firsts[class], need)
}

/// Whether two needs are of one class.
fn is_same_class(one: &Need, other: &Need) -> bool
    ensures { IsTrue result → IsSameClass one.now other.now }
{
    if !is_same_text(&one.system, &other.system) {
        return false;
    }
    is_same_set(&one.features, &other.features)
}

/// Whether two texts are the same.
fn is_same_text(one: &ByteString, other: &ByteString) -> bool
    ensures { IsTrue result → one.now ≡ other.now }
{
    one == other
}

/// Whether two sets are the same.
fn is_same_set(one: &FeatureSet, other: &FeatureSet) -> bool
    ensures { IsTrue result → one.now ≡ other.now }
{
    one == other
}
