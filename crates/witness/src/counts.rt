//! How much was compared.
use board::{Answer, Call};
use std::fmt;
use vocabulary::Refusal;

/// Above the number of every refusal.
const NUMBERS: usize = 17;

/// Accepted calls of a kind.
#[derive(Clone, Copy, Default)]
struct Accepted {
    calls: u32,
    moves: u32,
    /// The most tickets that one of them moved.
    most: u16,
}

impl Accepted {
    /// One call more.
    fn note(&mut self, answer: Answer) {
        // The witness takes nothing of the board's but its calls and questions.
        let (Answer::Added { count, .. } | Answer::Moved { count }) = answer;
        self.calls = self.calls.saturating_add(1);
        self.moves = self.moves.saturating_add(u32::from(count));
        self.most = self.most.max(count);
    }
}

impl fmt::Display for Accepted {
    fn fmt<W: fmt::Write>(&self, f: &mut fmt::Formatter<W>) -> fmt::Result {
        let Accepted { calls, moves, most } = *self;
        write!(f, "{calls}, {moves} moves, at most {most} by one call")
    }
}

/// What was compared so far.
#[derive(Clone, Copy, Default)]
pub struct Counts {
    pub boards: u32,
    pub calls: u32,
    pub placements: u32,
    pub differing: u32,
    adds: Accepted,
    dones: Accepted,
    withdrawals: Accepted,
    returns: Accepted,
    /// How many calls were refused with each number; the number is the place in the table.
    // An array by the number of a refusal: few entries, known beforehand.
    refused: [u32; NUMBERS],
}

impl Counts {
    /// One call more.
    pub fn note(&mut self, call: Call, answer: Result<Answer, Refusal>) {
        self.calls = self.calls.saturating_add(1);
        match answer {
            Ok(answer) => self.accept(call, answer),
            Err(refusal) => self.refuse(refusal),
        }
    }

    /// One accepted call more.
    fn accept(&mut self, call: Call, answer: Answer) {
        match call {
            Call::Add { .. } => self.adds.note(answer),
            Call::Done { .. } => self.dones.note(answer),
            Call::Withdraw { .. } => self.withdrawals.note(answer),
            Call::Return { .. } => self.returns.note(answer),
        }
    }

    /// One refusal more.
    fn refuse(&mut self, refusal: Refusal) {
        if let Some(times) = self.refused.get_mut(usize::from(refusal.number())) {
            *times = times.saturating_add(1);
        }
    }
}

impl fmt::Display for Counts {
    fn fmt<W: fmt::Write>(&self, f: &mut fmt::Formatter<W>) -> fmt::Result {
        writeln!(f, "{} boards, {} calls", self.boards, self.calls)?;
        writeln!(f, "  added: {}", self.adds)?;
        writeln!(f, "  finished: {}", self.dones)?;
        writeln!(f, "  mills withdrawn: {}", self.withdrawals)?;
        writeln!(f, "  mills returned: {}", self.returns)?;
        for (number, times) in self.refused.iter().enumerate() {
            if *times > 0 {
                writeln!(f, "  refused with {number}: {times}")?;
            }
        }
        write!(f, "{} placements tried", self.placements)
    }
}
