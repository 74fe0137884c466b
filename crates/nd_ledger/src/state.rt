//! The entries so far, with what follows them entry by entry.

ghost use Rattle.std.specs.Prelude.{◌≡◌, ◌<◌, reverse, IfOk, OnOk, OnErr};
ghost use Rattle.nd_graph.specs.Graphs.{IsSound};
ghost use Rattle.nd_history.specs.Books.{CanRecord, MayRecord};
ghost use Rattle.nd_history.specs.Marks.{board_after, CanFollow};
ghost use Rattle.nd_pump.specs.Turned.{machine_of as leased_on, touched};

use nd_eligible::Local;
use nd_failure::Board;
use nd_graph::Graph;
use nd_history::{Book, Entry};
use nd_machines::Machine;
use nd_pump::Turns;
use std::alloc::{AllocError, Global};

/// A history with what follows it entry by entry. What is kept of references and holdings is not among it.
#[derive(Drop)]
pub struct State {
    /// The entries so far, and the leases.
    pub book: Book,
    /// How far each derivation is.
    pub board: Board,
    /// Whose turn it is.
    pub turns: Turns,
}

/// The machine of the live lease of derivation `drv`.
fn machine_of(book: &Book, drv: u32) -> Option<u32>
    ensures { result ≡ leased_on drv (reverse book.now.entries) }
{
    let ticket = book.lease(drv)?;
    Some(ticket.machine)
}

/// The machine that an entry gives a slot or takes one back from, or that it puts up or down, but for a
/// choice, which only takes one.
fn touches(book: &Book, entry: &Entry) -> Option<u32>
    ensures { result ≡ touched entry.now (reverse book.now.entries) }
{
    match entry {
        Entry::Down { drv } => machine_of(book, *drv),
        Entry::Built { drv, .. } => machine_of(book, *drv),
        Entry::Failed { drv, .. } => machine_of(book, *drv),
        Entry::Drain { machine } | Entry::Enable { machine } => Some(*machine),
        Entry::Chosen { .. } | Entry::NoBuilder { .. } => None,
        Entry::Started { .. } | Entry::Stop => None,
    }
}

/// The board follows one more entry.
fn follow(board: &mut Board, entry: &Entry)
    requires { CanFollow board.old entry.now }
    ensures { board.new ≡ board_after board.old entry.now }
{
    match entry {
        Entry::Chosen { drv, .. } => board.leased(*drv as usize),
        Entry::NoBuilder { drv } | Entry::Failed { drv, .. } => board.failed(*drv as usize),
        Entry::Down { drv } => board.back(*drv as usize),
        Entry::Built { drv, .. } => board.built(*drv as usize),
        Entry::Stop => board.stop(),
        Entry::Started { .. } | Entry::Drain { .. } | Entry::Enable { .. } => {}
    }
}

impl State {
    ghost use Rattle.nd_ledger.specs.States.{CanTurn, IsAppended, IsEntered, IsFresh, IsRoomier};

    /// The empty history over this graph and these machines. Refuses where an allocation is refused.
    pub fn new(
        alloc: Global,
        graph: &Graph,
        machines: &[Machine],
        local: &Local,
        keep_going: bool,
    ) -> Result<State, AllocError>
        ensures fresh { IfOk result (IsFresh graph.now machines.now local.now keep_going) }
        ensures sound { IsSound graph.now }
    {
        let drvs = graph.len();
        let board = Board::new(alloc, graph, keep_going)?;
        let turns = Turns::new(alloc, machines, local, graph.needs(), &board)?;
        let book = Book::new(alloc, drvs, machines.len() + 1)?;
        Ok(State { book, board, turns })
    }

    /// Records an entry, and the board and the turns follow it. It takes no memory.
    pub(crate) fn enter(&mut self, entry: Entry)
        requires room { 0 < self.old.book.room }
        requires can { CanFollow self.old.board entry }
        requires fits { CanRecord self.old.book entry }
        requires turn { CanTurn self.old entry }
        ensures { IsEntered self.old self.new entry }
    {
        let machine = touches(&self.book, &entry);
        follow(&mut self.board, &entry);
        self.turns.follow(&self.board, &entry, machine);
        self.book.record(entry);
    }

    /// Records an entry and keeps room behind it: for the end of each lease, and for a stop. Where memory is
    /// refused nothing is recorded.
    pub fn append(&mut self, entry: Entry) -> Result<(), AllocError>
        requires can { CanFollow self.old.board entry }
        requires may { MayRecord self.old.book entry }
        requires turn { CanTurn self.old entry }
        ensures ok { OnOk result (IsAppended self.old self.new entry) }
        ensures err { OnErr result (IsRoomier self.old.book self.new.book) }
        ensures same { OnErr result (self.new.board ≡ self.old.board) }
        ensures unturned { OnErr result (self.new.turns ≡ self.old.turns) }
    {
        let room = self.book.live_len() + 3;
        self.book.make_room(room)?;
        self.book.make_slot(&entry)?;
        self.enter(entry);
        Ok(())
    }
}
