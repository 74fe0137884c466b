//! What no contract of `nd_failure` says: that boards are made with ample memory, that the worked
//! examples come out with both bodies, and that no call follows each walk of a tower of diamonds.

ghost use Rattle.std.specs.Prelude.{◌≡◌};

use crate::tests::shapes::{Shape, text_of};
use nd_bundle::GraphError;
use nd_bundle::plain::read_bundle;
use nd_failure::plain::PlainBoard;
use nd_failure::{Board, Counts, Status};
use nd_graph::Graph;
use std::alloc::{AllocError, Global};

/// What becomes of a lease.
#[derive(Clone, Copy)]
enum Ending {
    /// It is given back.
    Back,
    /// The node is built.
    Built,
    /// The node fails.
    Failed,
}

/// What is done with both boards, or asked of them.
#[derive(Clone, Copy)]
enum Call {
    /// The node, which is ready, is leased.
    Lease(usize),
    /// The node, which is ready, has no builder.
    Refuse(usize),
    /// The lease of the node ends so.
    End(usize, Ending),
    /// The nodes before this one are built one after another, each seventh once its first lease was given
    /// back, and the two agree after each end of a lease.
    Climb(usize),
    /// A stop, and then the end of the lease of node 0, leave the right counts, and a copy as it was.
    StopAlone,
    /// The first ready node is this one, or there is none.
    Next(Option<usize>),
    /// Every answer of the two agrees.
    Agree,
}

/// From where the first ready node is asked for.
const PLACES: &[usize] = &[0, 1, 63, 64, 150, 299, 300, usize::MAX];

/// The counts of five nodes once node 0 is leased and all is stopped.
const STOPPED: Counts = Counts {
    waiting: 0,
    leased: 1,
    built: 0,
    failed: 0,
    cancelled: 4,
};

/// Two boards of one graph, which get the same calls.
#[derive(Drop)]
struct Boards {
    kept: Board,
    plain: PlainBoard,
    ghost same: { plain.inputs ≡ kept.inputs },
}

impl Boards {
    /// The boards of a graph.
    fn new(alloc: Global, graph: &Graph, keep_going: bool) -> Result<Boards, AllocError> {
        let kept = Board::new(alloc, graph, keep_going)?;
        let plain = PlainBoard::new(alloc, graph, keep_going)?;
        Ok(Boards { kept, plain })
    }

    /// Copies of both.
    fn try_clone(&self, alloc: Global) -> Result<Boards, AllocError> {
        let kept = self.kept.try_clone(alloc)?;
        let plain = self.plain.try_clone(alloc)?;
        Ok(Boards { kept, plain })
    }

    /// A node that is ready on both is leased, or fails where it has no builder. Where it isn't ready,
    /// the answer is no.
    fn begin(&mut self, node: usize, has_builder: bool) -> bool {
        if node >= self.kept.edges().len() {
            return false;
        }
        if !self.kept.is_ready(node) || !self.plain.is_ready(node) {
            return false;
        }
        if has_builder {
            self.kept.leased(node);
            self.plain.leased(node);
        } else {
            self.kept.failed(node);
            self.plain.failed(node);
        }
        true
    }

    /// The lease of a node that is leased on both ends. Where it isn't leased, the answer is no.
    fn end(&mut self, node: usize, ending: Ending) -> bool {
        if node >= self.kept.edges().len() {
            return false;
        }
        if !matches!(self.kept.status(node), Status::Leased) {
            return false;
        }
        if !matches!(self.plain.status(node), Status::Leased) {
            return false;
        }
        match ending {
            Ending::Back => {
                self.kept.back(node);
                self.plain.back(node);
            }
            Ending::Built => {
                self.kept.built(node);
                self.plain.built(node);
            }
            Ending::Failed => {
                self.kept.failed(node);
                self.plain.failed(node);
            }
        }
        true
    }

    /// No further lease is made on both.
    fn stop(&mut self) {
        self.kept.stop();
        self.plain.stop();
    }

    /// Whether the two agree on each node.
    fn agree_on_nodes(&self) -> bool {
        for node in 0..self.kept.edges().len() {
            if self.kept.status(node) != self.plain.status(node) {
                return false;
            }
            if self.kept.is_ready(node) != self.plain.is_ready(node) {
                return false;
            }
        }
        true
    }

    /// Whether every answer of the two agrees.
    fn agree(&self) -> bool {
        for from in PLACES {
            if self.kept.first_ready(*from) != self.plain.first_ready(*from) {
                return false;
            }
        }
        self.agree_on_nodes() && self.kept.counts() == self.plain.counts()
    }

    /// A node is leased and its lease ends, and then the two agree.
    fn lease_once(&mut self, node: usize, ending: Ending) -> bool {
        self.begin(node, true) && self.end(node, ending) && self.agree()
    }

    /// The nodes before this one are built, as `Climb` says.
    fn climb(&mut self, len: usize) -> bool {
        for node in 0..len {
            if node % 7 == 0 && !self.lease_once(node, Ending::Back) {
                return false;
            }
            if !self.lease_once(node, Ending::Built) {
                return false;
            }
        }
        true
    }

    /// Whether the two agree, and four nodes wait and one is leased.
    fn is_going(&self) -> bool {
        self.agree() && self.kept.counts().waiting == 4 && self.plain.counts().leased == 1
    }

    /// Whether a stop, and then the end of the lease of node 0, leave the right counts.
    fn stops(&mut self) -> bool {
        self.stop();
        let stopped = self.agree() && self.kept.counts() == STOPPED;
        let back = self.end(0, Ending::Back) && self.agree();
        stopped && back && self.kept.counts() == ended(0, 0, 5)
    }

    /// Whether they do so, and leave a copy from before as it was. Want of memory is a no.
    fn stops_alone(&mut self, alloc: Global) -> bool {
        match self.try_clone(alloc) {
            Ok(copy) => copy.is_going() && self.stops() && copy.is_going(),
            Err(_) => false,
        }
    }

    /// Makes a call, and says whether it was right.
    fn play(&mut self, alloc: Global, call: Call) -> bool {
        match call {
            Call::Lease(node) => self.begin(node, true),
            Call::Refuse(node) => self.begin(node, false),
            Call::End(node, ending) => self.end(node, ending),
            Call::Climb(len) => self.climb(len),
            Call::StopAlone => self.stops_alone(alloc),
            Call::Next(node) => self.kept.first_ready(0) == node,
            Call::Agree => self.agree(),
        }
    }

    /// Makes these calls, and says whether each was right.
    fn play_all(&mut self, alloc: Global, calls: &[Call]) -> bool {
        for call in calls {
            if !self.play(alloc, *call) {
                return false;
            }
        }
        true
    }

    /// The counts after the first calls and the second ones, or none where one wasn't right.
    fn play_both(&mut self, alloc: Global, first: &[Call], second: &[Call]) -> Option<Counts> {
        if self.play_all(alloc, first) && self.play_all(alloc, second) {
            Some(self.kept.counts())
        } else {
            None
        }
    }
}

/// A graph, and whether its other nodes go on after a failure.
#[derive(Clone, Copy)]
struct Example {
    shape: Shape,
    len: usize,
    keep_going: bool,
}

/// The boards of an example.
fn boards_of(alloc: Global, example: Example) -> Result<Boards, GraphError> {
    let text = text_of(alloc, example.shape, example.len)?;
    let graph = read_bundle(alloc, text.as_slice(), false)?;
    Ok(Boards::new(alloc, &graph, example.keep_going)?)
}

/// The counts of an example after the first calls and the second ones, or none where one wasn't right
/// or memory was wanting.
fn counts_after(
    alloc: Global,
    example: Example,
    first: &[Call],
    second: &[Call],
) -> Option<Counts> {
    match boards_of(alloc, example) {
        Ok(mut boards) => boards.play_both(alloc, first, second),
        Err(_) => None,
    }
}

/// The counts of built, failed and cancelled nodes, where no other is left.
fn ended(built: usize, failed: usize, cancelled: usize) -> Counts {
    Counts {
        waiting: 0,
        leased: 0,
        built,
        failed,
        cancelled,
    }
}

/// The calls of the example `keep_going`, up to the failure and what is built beside it.
const FAILING: &[Call] = &[
    Call::Agree,
    Call::Next(Some(0)),
    Call::Lease(0),
    Call::Next(None),
    Call::End(0, Ending::Built),
    Call::Agree,
    Call::Next(Some(1)),
    Call::Lease(1),
    Call::Next(Some(2)),
    Call::Lease(2),
    Call::Agree,
    Call::End(1, Ending::Failed),
    Call::Agree,
    Call::End(2, Ending::Built),
    Call::Agree,
];

/// What follows where the others go on.
const GOING: &[Call] = &[
    Call::Next(Some(4)),
    Call::Lease(4),
    Call::End(4, Ending::Built),
    Call::Agree,
    Call::Next(None),
];

/// What follows where they don't.
const NONE_LEFT: &[Call] = &[Call::Next(None)];

/// The graph of five nodes.
fn five(keep_going: bool) -> Example {
    Example {
        shape: Shape::Five,
        len: 5,
        keep_going,
    }
}

#[test]
fn two_boards(rt: HostRuntime) {
    let going = counts_after(rt.alloc(), five(true), FAILING, GOING);
    assert!(rt; going == Some(ended(3, 1, 1)));
    let left = counts_after(rt.alloc(), five(false), FAILING, NONE_LEFT);
    assert!(rt; left == Some(ended(2, 1, 2)));
}

/// Node 200 has no builder.
const REFUSED: &[Call] = &[Call::Refuse(200), Call::Agree];

#[test]
fn two_boards_of_a_chain(rt: HostRuntime) {
    for keep_going in [true, false] {
        let chain = Example {
            shape: Shape::Chain,
            len: 300,
            keep_going,
        };
        let counts = counts_after(rt.alloc(), chain, &[Call::Climb(200)], REFUSED);
        assert!(rt; counts == Some(ended(200, 1, 99)));
    }
}

#[test]
fn stopped_boards(rt: HostRuntime) {
    let counts = counts_after(
        rt.alloc(),
        five(true),
        &[Call::Lease(0)],
        &[Call::StopAlone],
    );
    assert!(rt; counts == Some(ended(0, 0, 5)));
}

/// Node 0 is leased, and fails.
const FIRST_FAILS: &[Call] = &[Call::Lease(0), Call::End(0, Ending::Failed), Call::Agree];

#[test]
fn tower_of_diamonds(rt: HostRuntime) {
    let tower = Example {
        shape: Shape::Tower,
        len: 2_000,
        keep_going: true,
    };
    let counts = counts_after(rt.alloc(), tower, &[Call::Agree], FIRST_FAILS);
    let want = Counts {
        waiting: 1,
        ..ended(0, 1, 1_998)
    };
    assert!(rt; counts == Some(want));
}

#[test]
fn many_nodes_on_a_failed_one(rt: HostRuntime) {
    let star = Example {
        shape: Shape::Star,
        len: 65_536,
        keep_going: true,
    };
    let counts = counts_after(rt.alloc(), star, FIRST_FAILS, &[]);
    assert!(rt; counts == Some(ended(0, 1, 65_535)));
}
