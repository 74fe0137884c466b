//! What machines hold and what paths refer to, kept beside the entries of a history.

ghost use Rattle.std.specs.Prelude.{◌≡◌, ◌<◌, ◌≤◌, true, length, IfOk, OnOk, IfErr, OnErr, IfSome, OnSome};
ghost use Rattle.nd_path_numbers.specs.Numbers.{AreKnown, AreNumbersOf, row_in};
ghost use Rattle.nd_history.specs.Premises.{premises_of};
ghost use Rattle.nd_history.specs.References.{outputs_of};
ghost use Rattle.nd_provision.specs.Copies.{IsMissingIn};
ghost use Rattle.nd_provision.specs.Stored.{AreListings, IsFirstFor, IsSameStored, IsClosureBy, IsMissingBy, ArePathsRightBy, IsPathsFaultBy, AreReferencesRightBy, Fits, HasTaken, AreStartAdditions, AreBuiltAdditions, IsProvided, HasRoomFor};

use crate::checks::{all_lie_in, are_listings_held, are_rows_held, is_covered, lacked, lie_in};
use crate::copying::{Additions, Listing, PathsError, enter_all, put_all, set_with};
use crate::listed_paths::Listed;
use crate::near::are_near;
use crate::needs::{all_sources, count_outputs, needed_by, outputs_by_number, seeds_by_number};
use crate::numbering::{number_build, number_given, numbers_at_hand};
use nd_closure::{RefTable, Refs, reach};
use nd_flags::Rows;
use nd_graph::Graph;
use nd_history::Inputs;
use nd_path::{PathSet, StorePath};
use nd_path_numbers::{Held, Holdings, PathNumbers, match_unheld, reach_unheld};
use std::alloc::{AllocError, Global};
use std::marker::Model;

/// What each path refers to, and the set of the paths that each machine holds. Both follow a history entry by
/// entry, so that no closure and no copy is found by a search of the entries.
///
/// Paths have numbers here, which are given before the first entry to all outputs and to those that are given or
/// that some derivation needs. Which outputs a derivation has, what it needs at once, what a path refers to and
/// what a machine holds is kept by number, so a search compares no paths, and an output that is built is compared
/// with one and isn't looked up.
///
/// A machine that holds a path mostly holds all that the path refers to, since closures are copied whole.
/// It is otherwise only where a build has an output that another build had first, or that is given, with
/// references that its own machine lacks. While that has not happened, a search for what a machine lacks
/// stops at each path that it holds.
#[derive(Drop, Debug)]
pub struct Stores {
    listed: Listed,
    numbers: PathNumbers,
    outputs: Rows,
    seeds: Rows,
    holdings: Holdings,
    whole: bool,
}

impl Model for Stores {
    ghost use Rattle.nd_provision.specs.Stored.{Stored};

    ghost Value = { Stored };

    ghost use Rattle.nd_provision.specs.StoresKept.{stored, AreKept};

    ghost view = { stored };

    ghost invariant = { AreKept };
}

impl Stores {
    /// What holds before the first entry: the given paths refer to what the info table lists for them,
    /// the local machine holds them, and no builder holds anything.
    pub fn new(
        alloc: Global,
        graph: &Graph,
        builders: usize,
        info: &RefTable,
    ) -> Result<Stores, AllocError>
        requires { builders ≤ 1024 }
        ensures { IfOk result (IsFirstFor graph.now builders info.now.entries) }
    {
        let sources = all_sources(alloc, graph)?;
        let given = reach(alloc, sources.as_slice(), info)?;
        let count = count_outputs(graph);
        let known = given.len().saturating_add(count);
        let mut numbers = PathNumbers::with_capacity(alloc, known)?;
        let outputs = outputs_by_number(alloc, &mut numbers, graph, count)?;
        let seeds = seeds_by_number(alloc, &mut numbers, graph, &outputs)?;
        let Additions { entries, own, .. } = number_given(
            alloc,
            &mut numbers,
            given.as_slice(),
            info,
        )?;
        let mut listed = Listed::new(alloc)?;
        listed.reserve(alloc, entries.len(), known)?;
        enter_all(&mut listed, &mut numbers, entries);
        let mut holdings = Holdings::new(alloc, builders + 1)?;
        holdings.reserve_below(alloc, 0, own.len(), numbers.len())?;
        put_all(&mut holdings, 0, own.as_slice());
        Ok(Stores {
            listed,
            numbers,
            outputs,
            seeds,
            holdings,
            whole: true,
        })
    }

    /// A copy with the same references and the same holdings. Reserved room is no part of this.
    pub fn try_clone(&self, alloc: Global) -> Result<Stores, AllocError>
        ensures { IfOk result (IsSameStored self.now) }
    {
        Ok(Stores {
            listed: self.listed.try_clone()?,
            numbers: self.numbers.try_clone(alloc)?,
            outputs: self.outputs.try_clone()?,
            seeds: self.seeds.try_clone()?,
            holdings: self.holdings.try_clone()?,
            whole: self.whole,
        })
    }

    /// The input closure of derivation `drv`: what a search finds that stops nowhere, since nothing is held.
    pub(crate) fn closure(
        &self,
        alloc: Global,
        inputs: &Inputs,
        drv: usize,
    ) -> Result<PathSet, AllocError>
        requires { drv < length inputs.now.graph.paths }
        ensures { IfOk result (IsClosureBy (premises_of inputs.now) self.now drv) }
    {
        // For the proof: only the contract speaks of the inputs.
        let seeds = self.seeds(drv);
        let nothing = Held::new(alloc);
        reach_unheld(alloc, seeds, &self.numbers, &nothing)
    }

    /// The paths of derivation `drv`'s input closure that machine `m` doesn't hold. Mostly it costs as much
    /// as there is missing, and not as much as the closure has.
    pub fn missing(
        &self,
        alloc: Global,
        inputs: &Inputs,
        drv: usize,
        m: usize,
    ) -> Result<PathSet, AllocError>
        requires drv { drv < length inputs.now.graph.paths }
        requires machine { m < length self.now.stocks }
        ensures { IfOk result (IsMissingBy (premises_of inputs.now) self.now drv m) }
    {
        if !self.whole {
            return self.walk_missing(alloc, inputs, drv, m);
        }
        let seeds = self.seeds(drv);
        reach_unheld(alloc, seeds, &self.numbers, self.holdings.held(m))
    }

    /// The numbers of what derivation `drv` needs at once.
    fn seeds(&self, drv: usize) -> &[usize]
        ensures { result.now ≡ row_in self.now.seeds drv }
    {
        self.seeds.row(drv)
    }

    /// The same by a walk over the whole closure.
    fn walk_missing(
        &self,
        alloc: Global,
        inputs: &Inputs,
        drv: usize,
        m: usize,
    ) -> Result<PathSet, AllocError>
        requires drv { drv < length inputs.now.graph.paths }
        requires machine { m < length self.now.stocks }
        ensures { IfOk result (IsMissingBy (premises_of inputs.now) self.now drv m) }
    {
        let closure = self.closure(alloc, inputs, drv)?;
        lacked(alloc, &closure, &self.numbers, self.holdings.held(m))
    }

    /// Tests paths that were copied for a build of derivation `drv` on machine `m`: they are to lie in
    /// its input closure, which is to lie in what the machine holds together with them. Where they are just what
    /// the machine lacks, and the search for that stops at each path that it holds, it has found their numbers,
    /// and these are the answer. A walk over the whole closure finds none.
    ///
    /// Refuses with `Uncovered` where a path of the closure is lacking, then with `Extra` where a copied
    /// path is outside it, and with `Memory` where an allocation is refused.
    pub fn check_paths(
        &self,
        alloc: Global,
        inputs: &Inputs,
        drv: usize,
        m: usize,
        paths: &PathSet,
    ) -> Result<Option<Vec<usize>>, PathsError>
        requires drv { drv < length inputs.now.graph.paths }
        requires machine { m < length self.now.stocks }
        ensures ok { OnOk result (ArePathsRightBy (premises_of inputs.now) self.now drv m paths.now) }
        ensures refused { IfErr result (IsPathsFaultBy (premises_of inputs.now) self.now drv m paths.now) }
        ensures numbers { IfOk result (λ r. IfSome r (λ v. AreNumbersOf self.now.numbers.paths paths.now v.items)) }
    {
        if self.whole {
            if let Some(numbers) = self.match_missing(alloc, drv, m, paths)? {
                return Ok(Some(numbers));
            }
        } else if *paths == self.walk_missing(alloc, inputs, drv, m)? {
            return Ok(None);
        }
        self.walk_paths(alloc, inputs, drv, m, paths)?;
        Ok(None)
    }

    /// The numbers of these paths where they are found to be just those of derivation `drv`'s input closure
    /// that machine `m` doesn't hold.
    fn match_missing(
        &self,
        alloc: Global,
        drv: usize,
        m: usize,
        paths: &PathSet,
    ) -> Result<Option<Vec<usize>>, AllocError>
        requires machine { m < length self.now.stocks }
        requires whole { self.now.whole ≡ true }
        ensures missing { IfOk result (λ r. OnSome r (IsMissingIn self.now drv m paths.now)) }
        ensures numbers { IfOk result (λ r. IfSome r (λ v. AreNumbersOf self.now.numbers.paths paths.now v.items)) }
    {
        let seeds = self.seeds(drv);
        let held = self.holdings.held(m);
        match_unheld(alloc, seeds, &self.numbers, held, paths.as_slice())
    }

    /// Tests these paths by a walk over the whole closure: first that each path of it is held or copied, then
    /// that each copied one lies in it.
    fn walk_paths(
        &self,
        alloc: Global,
        inputs: &Inputs,
        drv: usize,
        m: usize,
        paths: &PathSet,
    ) -> Result<(), PathsError>
        requires drv { drv < length inputs.now.graph.paths }
        requires machine { m < length self.now.stocks }
        ensures ok { OnOk result (ArePathsRightBy (premises_of inputs.now) self.now drv m paths.now) }
        ensures refused { IfErr result (IsPathsFaultBy (premises_of inputs.now) self.now drv m paths.now) }
    {
        let closure = self.closure(alloc, inputs, drv)?;
        let held = self.holdings.held(m);
        if !is_covered(closure.as_slice(), &self.numbers, held, paths) {
            return Err(PathsError::Uncovered);
        }
        if !lie_in(paths.as_slice(), &closure) {
            return Err(PathsError::Extra);
        }
        Ok(())
    }

    /// Whether these are references that a build of derivation `drv` may report: one set per output,
    /// each in its input closure or among its outputs. Refuses only where an allocation is refused, and never
    /// where there isn't one set per output: that is found without memory.
    pub fn check_references(
        &self,
        alloc: Global,
        inputs: &Inputs,
        drv: usize,
        refs: &Refs,
    ) -> Result<bool, AllocError>
        requires { drv < length inputs.now.graph.paths }
        ensures right { IfOk result (AreReferencesRightBy (premises_of inputs.now) self.now drv refs.now) }
        ensures sized { OnErr result (length refs.now ≡ length (outputs_of (premises_of inputs.now) drv)) }
    {
        let outputs = inputs.graph.outputs(drv);
        if refs.lists().len() != outputs.len() {
            return Ok(false);
        }
        if are_near(&inputs.graph, drv, refs.lists()) {
            return Ok(true);
        }
        let near = set_with(needed_by(alloc, &inputs.graph, drv)?, outputs)?;
        if all_lie_in(refs.lists(), &near) {
            return Ok(true);
        }
        self.walk_references(alloc, inputs, drv, refs)
    }

    /// The same by a walk over the whole closure, where there is one set per output.
    fn walk_references(
        &self,
        alloc: Global,
        inputs: &Inputs,
        drv: usize,
        refs: &Refs,
    ) -> Result<bool, AllocError>
        requires drv { drv < length inputs.now.graph.paths }
        requires sized { length refs.now ≡ length (outputs_of (premises_of inputs.now) drv) }
        ensures { IfOk result (AreReferencesRightBy (premises_of inputs.now) self.now drv refs.now) }
    {
        let outputs = inputs.graph.outputs(drv);
        let closure = self.closure(alloc, inputs, drv)?;
        let allowed = set_with(closure.into_vec(), outputs)?;
        Ok(all_lie_in(refs.lists(), &allowed))
    }

    /// Takes the memory that a start on machine `m` with these copied paths needs. The numbers of these may be at
    /// hand ([`Stores::check_paths`]).
    pub fn prepare_start(
        &mut self,
        alloc: Global,
        m: usize,
        paths: &PathSet,
        numbers: Option<Vec<usize>>,
    ) -> Result<Additions, AllocError>
        requires machine { m < length self.old.stocks }
        requires numbers { IfSome numbers (λ v. AreNumbersOf self.old.numbers.paths paths.now v.items) }
        ensures same { IsSameStored self.old self.new }
        ensures fits { IfOk result (Fits self.new) }
        ensures additions { IfOk result (AreStartAdditions self.new m paths.now) }
    {
        let brought = numbers_at_hand(alloc, &mut self.numbers, m, paths.as_slice(), numbers)?;
        let known = self.numbers.len();
        self.holdings.reserve_below(alloc, m, brought.len(), known)?;
        Ok(Additions {
            machine: m,
            entries: Vec::new(alloc),
            own: Vec::new(alloc),
            brought,
            provided: true,
        })
    }

    /// Takes the memory that the end of a build of derivation `drv` on machine `m` needs, with these
    /// references of its outputs.
    pub fn prepare_built(
        &mut self,
        alloc: Global,
        inputs: &Inputs,
        drv: usize,
        m: usize,
        refs: &Refs,
    ) -> Result<Additions, AllocError>
        requires drv { drv < length inputs.now.graph.paths }
        requires machine { m < length self.old.stocks }
        requires sized { length refs.now ≡ length (outputs_of (premises_of inputs.now) drv) }
        ensures same { IsSameStored self.old self.new }
        ensures fits { IfOk result (Fits self.new) }
        ensures additions { IfOk result (AreBuiltAdditions (premises_of inputs.now) self.new drv m refs.now) }
    {
        let outputs = inputs.graph.outputs(drv);
        let likely = self.outputs.row(drv);
        let mut additions = number_build(
            alloc,
            &mut self.numbers,
            m,
            outputs,
            likely,
            refs.lists(),
        )?;
        additions.provided = self.is_provided(
            m,
            additions.own.as_slice(),
            additions.entries.as_slice(),
        );
        self.make_room(alloc, &additions)?;
        Ok(additions)
    }

    /// Makes room for these additions, and changes nothing.
    fn make_room(&mut self, alloc: Global, additions: &Additions) -> Result<(), AllocError>
        requires machine { additions.now.machine < length self.old.stocks }
        requires alone { additions.now.machine ≡ 0 → length additions.now.brought.items ≡ 0 }
        ensures same { IsSameStored self.old self.new }
        ensures numbers { self.new.numbers ≡ self.old.numbers }
        ensures room { OnOk result (HasRoomFor self.new additions.now) }
    {
        let known = self.numbers.len();
        self.listed.reserve(alloc, additions.entries.len(), known)?;
        self.holdings
            .reserve_below(alloc, additions.machine, additions.brought.len(), known)?;
        self.holdings
            .reserve_below(alloc, 0, additions.own.len(), known)?;
        Ok(())
    }

    /// Whether machine `m` holds what the outputs with these numbers refer to once these are entered, but for
    /// the outputs themselves.
    fn is_provided(&self, m: usize, own: &[usize], entries: &[Listing]) -> bool
        requires machine { m < length self.now.stocks }
        requires known { AreKnown self.now.numbers.paths own.now }
        requires listed { AreListings self.now.numbers.paths entries.now }
        ensures { IsProvided self.now m own.now entries.now result }
    {
        let held = self.holdings.held(m);
        if !are_rows_held(&self.numbers, held, own) {
            return false;
        }
        are_listings_held(entries, held, own)
    }

    /// Takes these additions in. It takes no memory.
    pub fn take_in(&mut self, additions: Additions)
        requires { Fits self.old additions }
        ensures { HasTaken self.old self.new additions }
    {
        let Additions {
            machine,
            entries,
            own,
            brought,
            provided,
        } = additions;
        enter_all(&mut self.listed, &mut self.numbers, entries);
        put_all(&mut self.holdings, 0, own.as_slice());
        put_all(&mut self.holdings, machine, brought.as_slice());
        self.whole &= provided;
    }
}
