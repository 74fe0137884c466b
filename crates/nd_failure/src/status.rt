//! Statuses and their counts.
ghost use Rattle.std.specs.Prelude.{◌≡◌, ◌<◌, ◌+◌, ◌^◌};
ghost use Rattle.nd_failure.specs.Statuses.{total_of};
ghost use Rattle.nd_failure.specs.Tallied.{count_in, IsLess, IsMore, IsMoved};

/// What has been recorded of a node: nothing, or that it is in one of the three sets of a board.
#[derive(Clone, Copy, Debug, PartialEq, Eq)]
pub enum Mark {
    /// In none of the sets.
    Free,
    /// It is leased: some machine has it.
    Leased,
    /// It is built.
    Built,
    /// It has failed, or there is no builder for it.
    Failed,
}

/// What becomes of a node.
#[derive(Clone, Copy, Debug, PartialEq, Eq)]
pub enum Status {
    /// It may still be begun.
    Waiting,
    /// It is leased: some machine has it.
    Leased,
    /// It is built.
    Built,
    /// It has failed, or there is no builder for it.
    Failed,
    /// It was not begun and never will be.
    Cancelled,
}

/// How many nodes have each status.
#[derive(Clone, Copy, Debug, PartialEq, Eq)]
pub struct Counts {
    pub waiting: usize,
    pub leased: usize,
    pub built: usize,
    pub failed: usize,
    pub cancelled: usize,
}

impl Counts {
    /// The five numbers together; those of a board sum to the number of its nodes.
    pub fn total(&self) -> usize
        requires { total_of self.now < 2 ^ 64 }
        ensures { result ≡ total_of self.now }
    {
        self.waiting + self.leased + self.built + self.failed + self.cancelled
    }

    /// Counts of `nodes` nodes that all wait.
    pub(crate) fn all_waiting(nodes: usize) -> Counts
        ensures { result ≡ record { waiting = nodes; leased = 0; built = 0; failed = 0; cancelled = 0 } }
    {
        Counts {
            waiting: nodes,
            leased: 0,
            built: 0,
            failed: 0,
            cancelled: 0,
        }
    }

    /// One node fewer has this status.
    pub(crate) fn take(&mut self, status: Status)
        requires { 0 < count_in status self.old }
        ensures { IsLess status self.old self.new }
    {
        match status {
            Status::Waiting => self.waiting -= 1,
            Status::Leased => self.leased -= 1,
            Status::Built => self.built -= 1,
            Status::Failed => self.failed -= 1,
            Status::Cancelled => self.cancelled -= 1,
        }
    }

    /// One node more has this status.
    pub(crate) fn add(&mut self, status: Status)
        requires { total_of self.old + 1 < 2 ^ 64 }
        ensures { IsMore status self.old self.new }
    {
        match status {
            Status::Waiting => self.waiting += 1,
            Status::Leased => self.leased += 1,
            Status::Built => self.built += 1,
            Status::Failed => self.failed += 1,
            Status::Cancelled => self.cancelled += 1,
        }
    }

    /// One node has another status than before.
    #[tactic(auto, using(crate::proofs::TallyFacts::moved_from, crate::proofs::TallyFacts::total_of_less))]
    pub(crate) fn change(&mut self, was: Status, becomes: Status)
        requires some { 0 < count_in was self.old }
        requires sized { total_of self.old < 2 ^ 64 }
        ensures { IsMoved was becomes self.old self.new }
    {
        self.take(was);
        self.add(becomes);
    }
}
