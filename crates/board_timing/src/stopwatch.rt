//! How long calls took, and what they did.
ghost use Rattle.std.specs.Prelude.{◌≤◌};

use board::{Answer, Board, Call, Move};
use std::time::Instant;
use std::{fmt, io};
use vocabulary::Refusal;

/// The calls of one kind: how many were made and accepted, how many tickets they moved, and how long they took in nanoseconds.
#[derive(Default, Drop)]
pub struct Stopwatch {
    calls: u32,
    accepted: u32,
    moved: u32,
    total: u128,
    worst: u128,
}

impl Stopwatch {
    /// Performs a call and takes its time.
    pub fn take<S>(
        &mut self,
        rt: &HostRuntime,
        board: &mut Board<S>,
        call: Call,
        moves: &mut [Move],
    ) -> io::Result<()> {
        let start = Instant::now(rt)?;
        let answer = board.perform(call, moves);
        let nanos = start.elapsed(rt)?.as_nanos();
        self.note(answer, nanos);
        Ok(())
    }

    /// Takes in one answer and its time.
    fn note(&mut self, answer: Result<Answer, Refusal>, nanos: u128)
        ensures worst { nanos ≤ self.new.worst }
    {
        self.calls = self.calls.saturating_add(1);
        self.total = self.total.saturating_add(nanos);
        self.worst = self.worst.max(nanos);
        if let Ok(answer) = answer {
            self.accepted = self.accepted.saturating_add(1);
            self.moved = self.moved.saturating_add(u32::from(answer.count()));
        }
    }

    /// Tells what the calls did, and how long they took.
    pub fn tell(&self, rt: &HostRuntime, what: &str) -> io::Result<()> {
        println!(rt;
            "{what}: {} calls, {} accepted, {} moved",
            self.calls, self.accepted, self.moved
        )?;
        let mean = self.total / u128::from(self.calls.max(1));
        eprintln!(rt;
            "{what}: mean {}, worst {} microseconds",
            Micros(mean),
            Micros(self.worst)
        )
    }
}

/// A time in nanoseconds, told in microseconds with one place behind the point.
#[derive(Clone, Copy)]
struct Micros(u128);

impl fmt::Display for Micros {
    fn fmt<W: fmt::Write>(&self, f: &mut fmt::Formatter<W>) -> fmt::Result {
        let whole = self.0 / 1000;
        let tenth = self.0 / 100 % 10;
        write!(f, "{whole}.{tenth}")
    }
}
