//! The search for an order of the nodes in which each stands after its inputs.

ghost use Rattle.std.specs.Prelude.{◌≡◌, ℕ, ◌+◌, ◌<◌, ◌≤◌, [], ◌∷◌, ◌++◌, ◌-◌, ◌↔◌, length, sum, slice_set, IsTrue, Contains, MatchOption, IfOk, OnOk, IfErr};
ghost use Rattle.nd_graph.specs.Graphs.{needed, IsOrderFault};
ghost use Rattle.nd_graph.specs.Orders.{input_count, left_of, Advances, IsNew, IsNext, IsSearch, KeepsSearch};
ghost use Rattle.nd_graph.specs.Walks.{inputs_of, AreInRange, IsAcyclic, IsOrder};

use crate::fault::OrderError;
use crate::graph::Input;
use nd_bytes::Items;
use std::alloc::{AllocError, Global};

/// The nodes of `inputs`, each once and after its inputs. There is such an order exactly where no
/// node needs itself. It takes time in proportion to the nodes and inputs together.
///
/// Refuses with `Cycle` where some node needs itself, directly or through others, and with `Memory`
/// where an allocation is refused.
#[tactic(auto, using(crate::proofs::Walked::acyclic))]
pub fn find_order(alloc: Global, inputs: &[Items<Input>]) -> Result<Vec<usize>, OrderError>
    requires { AreInRange (needed inputs.now) }
    ensures ok { IfOk result (λ order. IsOrder (needed inputs.now) order.items) }
    ensures acyclic { OnOk result (IsAcyclic (needed inputs.now)) }
    ensures err { IfErr result (λ fault. IsOrderFault (needed inputs.now) fault) }
{
    let mut left = Vec::with_capacity(alloc, inputs.len())?;
    for row in inputs {
        left.push(row.as_slice().len() + 2)?;
    }
    let mut order = Vec::with_capacity(alloc, inputs.len())?;
    visit_all(alloc, inputs, left.as_mut_slice(), &mut order)?;
    Ok(order)
}

/// Visits all nodes.
fn visit_all(
    alloc: Global,
    inputs: &[Items<Input>],
    left: &mut [usize],
    order: &mut Vec<usize>,
) -> Result<(), OrderError>
    requires ranged { AreInRange (needed inputs.now) }
    requires search { IsSearch (needed inputs.now) left.old [] order.old.items }
    ensures ok { OnOk result (IsOrder (needed inputs.now) order.new.items) }
    ensures err { IfErr result (λ fault. IsOrderFault (needed inputs.now) fault) }
{
    let mut trail = Vec::new(alloc);
    for root in 0..inputs.len() {
        visit(inputs, left, &mut trail, order, root)?;
    }
    Ok(())
}

/// Puts `root` into the order, after all nodes below it. Nothing stands on the trail before and after.
fn visit(
    inputs: &[Items<Input>],
    left: &mut [usize],
    trail: &mut Vec<usize>,
    order: &mut Vec<usize>,
    root: usize,
) -> Result<(), OrderError>
    requires ranged { AreInRange (needed inputs.now) }
    requires root { root < length inputs.now }
    requires trail { trail.old.items ≡ [] }
    requires search { IsSearch (needed inputs.now) left.old [] order.old.items }
    ensures trail { OnOk result (trail.new.items ≡ []) }
    ensures search { OnOk result (IsSearch (needed inputs.now) left.new [] order.new.items) }
    ensures advances { OnOk result (Advances left.old left.new) }
    ensures done { OnOk result (left_of left.new root ≡ 0) }
    ensures err { IfErr result (λ fault. IsOrderFault (needed inputs.now) fault) }
{
    if !is_new(inputs, left, root) {
        return Ok(());
    }
    meet(left, trail, root)?;
    while let Some(top) = trail.pop() {
        step(inputs, left, trail, order, top)?;
    }
    Ok(())
}

/// Whether a node isn't met yet.
fn is_new(inputs: &[Items<Input>], left: &[usize], node: usize) -> bool
    requires within { node < length inputs.now }
    requires sized { length left.now ≡ length inputs.now }
    ensures { IsTrue result ↔ IsNew (needed inputs.now) left.now node }
{
    left[node] == inputs[node].as_slice().len() + 2
}

/// Whether a node stands in the order.
fn is_done(left: &[usize], node: usize) -> bool
    requires within { node < length left.now }
    ensures { IsTrue result ↔ (left_of left.now node ≡ 0) }
{
    left[node] == 0
}

/// Puts a new node on the trail.
fn meet(left: &mut [usize], trail: &mut Vec<usize>, node: usize) -> Result<(), AllocError>
    requires within { node < length left.old }
    requires some { 0 < left_of left.old node }
    ensures left { left.new ≡ slice_set left.old node (left_of left.old node - 1) }
    ensures trail { OnOk result (trail.new.items ≡ trail.old.items ++ node ∷ []) }
{
    left[node] -= 1;
    trail.push(node)?;
    Ok(())
}

/// The next input that `top` has to pass, or none.
fn next_input(inputs: &[Items<Input>], left: &[usize], top: usize) -> Option<usize>
    requires within { top < length inputs.now }
    requires sized { length left.now ≡ length inputs.now }
    requires some { 0 < left_of left.now top }
    requires few { left_of left.now top < input_count (needed inputs.now) top + 2 }
    ensures { IsNext (needed inputs.now) left.now top result }
{
    let row = inputs[top].as_slice();
    let steps = left[top];
    if steps == 1 {
        return None;
    }
    Some(row[row.len() + 1 - steps].node)
}

/// Passes the inputs of `top` that are done, and answers the first that isn't.
fn pass_done(inputs: &[Items<Input>], left: &mut [usize], top: usize) -> Option<usize>
    requires ranged { AreInRange (needed inputs.now) }
    requires within { top < length inputs.now }
    requires sized { length left.old ≡ length inputs.now }
    requires some { 0 < left_of left.old top }
    requires few { left_of left.old top < input_count (needed inputs.now) top + 2 }
    ensures search { KeepsSearch (needed inputs.now) top left.old left.new }
    ensures advances { Advances left.old left.new }
    ensures smaller { sum left.new ≤ sum left.old }
    ensures next { MatchOption result
        (left_of left.new top ≡ 1)
        (λ next. Contains (inputs_of (needed inputs.now) top) next × (0 < left_of left.new next)) }
{
    while let Some(next) = next_input(inputs, left, top) {
        if !is_done(left, next) {
            return Some(next);
        }
        left[top] -= 1;
    }
    None
}

/// One step of the search: `top`, which was taken off the trail, passes the inputs that are done. Where these are all it
/// goes into the order; else it goes back, and the first that isn't done is met.
fn step(
    inputs: &[Items<Input>],
    left: &mut [usize],
    trail: &mut Vec<usize>,
    order: &mut Vec<usize>,
    top: usize,
) -> Result<(), OrderError>
    requires ranged { AreInRange (needed inputs.now) }
    requires search { IsSearch (needed inputs.now) left.old (trail.old.items ++ top ∷ []) order.old.items }
    ensures search { OnOk result (IsSearch (needed inputs.now) left.new trail.new.items order.new.items) }
    ensures advances { OnOk result (Advances left.old left.new) }
    ensures smaller { OnOk result (sum left.new < sum left.old) }
    ensures err { IfErr result (λ fault. IsOrderFault (needed inputs.now) fault) }
{
    let Some(next) = pass_done(inputs, left, top) else {
        left[top] = 0;
        order.push(top)?;
        return Ok(());
    };
    if !is_new(inputs, left, next) {
        return Err(OrderError::Cycle);
    }
    trail.push(top)?;
    meet(left, trail, next)?;
    Ok(())
}
