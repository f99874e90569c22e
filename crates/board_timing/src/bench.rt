//! A board with a move list that suits every call.
use crate::stopwatch::Stopwatch;
use board::{Board, Call, Move};
use std::alloc::{AllocError, Global};
use std::io;
use tools::ToolSource;
use vocabulary::{Program, Ticket};

/// How many tickets there are, which is as long as a list need ever be.
const TICKETS: usize = 1024;

/// A board, and its list.
#[derive(Drop)]
pub struct Bench {
    board: Board<ToolSource>,
    moves: Vec<Move>,
}

impl Bench {
    /// A board that is just opened.
    pub fn open(heap: Global, source: ToolSource) -> Result<Bench, AllocError> {
        let moves = vec![in heap; Move::default(); TICKETS]?;
        Ok(Bench {
            board: Board::open(source),
            moves,
        })
    }

    /// Performs a call and takes its time.
    fn time(&mut self, rt: &HostRuntime, watch: &mut Stopwatch, call: Call) -> io::Result<()> {
        watch.take(rt, &mut self.board, call, self.moves.as_mut_slice())
    }

    /// Performs pairs of calls in turn, so many times, and takes the times of the first ones and of the second ones.
    pub fn rounds(
        &mut self,
        rt: &HostRuntime,
        rounds: u32,
        pairs: &[(Call, Call)],
    ) -> io::Result<(Stopwatch, Stopwatch)> {
        let mut firsts = Stopwatch::default();
        let mut seconds = Stopwatch::default();
        for _ in 0..rounds {
            for (first, second) in pairs {
                self.time(rt, &mut firsts, *first)?;
                self.time(rt, &mut seconds, *second)?;
            }
        }
        Ok((firsts, seconds))
    }

    /// Performs a call without taking its time; what it does shows in the calls after it.
    pub fn prepare(&mut self, call: Call) {
        let _ = self.board.perform(call, self.moves.as_mut_slice());
    }

    /// Adds so many tickets from a number on, all with one program.
    pub fn prepare_tickets(&mut self, first: u16, count: u16, program: Program) {
        for number in first..first.saturating_add(count) {
            self.prepare(adding(number, program));
        }
    }

    /// Tells the report of the board.
    pub fn tell(&self, rt: &HostRuntime, what: &str) -> io::Result<()> {
        println!(rt; "{what}: {}", self.board.report())
    }
}

/// The call that adds a ticket.
pub fn adding(number: u16, program: Program) -> Call {
    Call::Add {
        ticket: Ticket(number),
        program,
    }
}

/// The call that finishes a ticket.
pub fn finishing(number: u16) -> Call {
    Call::Done {
        ticket: Ticket(number),
    }
}
