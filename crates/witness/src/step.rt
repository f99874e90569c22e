//! One call of a board: its refusal, its records and its chain.
use crate::compare::TICKETS;
use crate::difference::Difference;
use crate::loads::Loads;
use crate::refusals::Told;
use crate::tally::Tally;
use crate::{chains, refusals};
use board::{Answer, Call, Move};
use vocabulary::{Mill, Program, Refusal, Ticket};

/// What every entry of a list is before a call: a record of no ticket.
pub const UNWRITTEN: Move = Move {
    ticket: Ticket(60_000),
    from: Mill(200),
    to: Mill(201),
};

/// A call with its answer, its list and the tallies around it.
#[derive(Drop)]
pub struct Step<'a> {
    pub before: &'a Tally,
    pub after: &'a Tally,
    pub call: Call,
    pub answer: Result<Answer, Refusal>,
    pub list: &'a [Move],
}

impl Step<'_> {
    /// Whether the call was refused as it is due, and else did what its rule says.
    pub fn check(&self) -> Result<(), Difference> {
        let told = self.answer.err().map(Told::from);
        let due = refusals::due(self.before, self.call, self.list.len());
        Difference::Refused { told, due }.unless(told == due)?;
        match self.answer {
            Ok(answer) => self.check_accepted(answer),
            Err(_) => self.check_unwritten(0),
        }
    }

    /// Whether an accepted call wrote its records and followed its rule.
    fn check_accepted(&self, answer: Answer) -> Result<(), Difference> {
        match (self.call, answer) {
            (Call::Add { program, .. }, Answer::Added { mill, count }) => {
                self.check_records(count)?;
                self.check_few(count)?;
                self.check_placed(self.before, program, mill, count)
            }
            (Call::Done { ticket }, Answer::Moved { count }) => {
                self.check_records(count)?;
                self.check_few(count)?;
                self.check_done(ticket, count)
            }
            (Call::Withdraw { mill }, Answer::Moved { count }) => {
                self.check_records(count)?;
                self.check_withdrawn(mill, count)
            }
            (Call::Return { mill }, Answer::Moved { count }) => {
                self.check_records(count)?;
                self.check_returned(mill, count)
            }
            _ => Err(Difference::Kind),
        }
    }

    /// Whether the list has a record for each ticket that stands before and after on different mills, by rising ticket number,
    /// and nothing behind them.
    pub fn check_records(&self, told: u16) -> Result<(), Difference> {
        // Counted by hand: the number of a record is also the number of those due, for which a count of its own would ask anew.
        let mut due = 0usize;
        for record in (0..TICKETS).filter_map(|number| self.record_of(Ticket(number))) {
            Difference::Record { entry: due }.unless(self.list.get(due) == Some(&record))?;
            due = due.saturating_add(1);
        }
        Difference::Count { told, due }.unless(usize::from(told) == due)?;
        self.check_unwritten(told)
    }

    /// The record that is due for a ticket.
    fn record_of(&self, ticket: Ticket) -> Option<Move> {
        let from = self.before.mill_of(ticket)?;
        let to = self.after.mill_of(ticket)?;
        (from != to).then_some(Move { ticket, from, to })
    }

    /// Whether the entries of the list from one on are as they were.
    fn check_unwritten(&self, first: u16) -> Result<(), Difference> {
        let mut entries = self.list.iter().enumerate().skip(usize::from(first));
        match entries.find(|(_, record)| **record != UNWRITTEN) {
            Some((entry, _)) => Err(Difference::Written { entry }),
            None => Ok(()),
        }
    }

    /// Whether fewer tickets moved than there are mills in service.
    fn check_few(&self, moved: u16) -> Result<(), Difference> {
        let serving = self.before.serving();
        Difference::TooMany { moved, serving }.unless(usize::from(moved) < serving)
    }

    /// Whether a chain was carried out to the mill of a finished ticket as the rule says.
    fn check_done(&self, ticket: Ticket, count: u16) -> Result<(), Difference> {
        let Some(mill) = self.before.mill_of(ticket) else {
            return Err(Difference::Stands { ticket });
        };
        let mut between = self.before.clone()?;
        between.take_off(ticket);
        self.check_shifted(&between, mill, count)
    }

    /// Whether the ticket of a withdrawn mill was placed again as the rule of adding says, if it had one, and nothing moved if it had
    /// none. Of more tickets the chains may cross, and cannot be told apart.
    fn check_withdrawn(&self, mill: Mill, count: u16) -> Result<(), Difference> {
        if self.before.loads().at(mill) > 1 {
            return Ok(());
        }
        let Some(seat) = self.before.first_on(mill) else {
            return check_length(count, 0);
        };
        let Some(first) = self.after.mill_of(seat.ticket) else {
            return Err(Difference::Stands {
                ticket: seat.ticket,
            });
        };
        let mut between = self.before.clone()?;
        between.take_off(seat.ticket);
        between.serve(mill, false);
        self.check_placed(&between, seat.program, first, count.saturating_sub(1))
    }

    /// Whether a chain was carried out to a returned mill as the rule says, if it came to one ticket or to none. Of more tickets the
    /// chains may cross, and cannot be told apart.
    fn check_returned(&self, mill: Mill, count: u16) -> Result<(), Difference> {
        if self.after.loads().at(mill) > 1 {
            return Ok(());
        }
        let mut between = self.before.clone()?;
        between.serve(mill, true);
        self.check_shifted(&between, mill, count)
    }

    /// Whether a ticket that came to a first mill took a chain of fewest tickets to a reached mill of least load.
    fn check_placed(
        &self,
        between: &Tally,
        program: Program,
        first: Mill,
        moved: u16,
    ) -> Result<(), Difference> {
        let Some(due) = chains::to_place(between, program)? else {
            return Err(Difference::Kind);
        };
        check_length(moved, due.tickets)?;
        let mut loads = between.loads();
        let end = self.walk(first, moved, |record| (record.from, record.to));
        check_far_end(loads.at(end), due.load)?;
        loads.grow(end);
        self.check_loads(&loads)
    }

    /// Whether a chain of fewest tickets was carried out to a mill, from a mill of greatest load among those that have an improving
    /// one; or none, where there is none.
    fn check_shifted(&self, between: &Tally, mill: Mill, moved: u16) -> Result<(), Difference> {
        let mut loads = between.loads();
        let Some(due) = chains::to_shift(between, mill)? else {
            check_length(moved, 0)?;
            return self.check_loads(&loads);
        };
        check_length(moved, due.tickets)?;
        let start = self.walk(mill, moved, |record| (record.to, record.from));
        check_far_end(loads.at(start), due.load)?;
        loads.shrink(start);
        loads.grow(mill);
        self.check_loads(&loads)
    }

    /// Whether the loads after the call are these.
    fn check_loads(&self, due: &Loads) -> Result<(), Difference> {
        Difference::Loads.unless(self.after.loads() == *due)
    }

    /// The mill to which a chain of so many tickets leads from a mill, where each record leads from one mill to another; a mill
    /// that no record leads on from is its end.
    fn walk<F: Fn(&Move) -> (Mill, Mill)>(&self, start: Mill, tickets: u16, way: F) -> Mill
        requires { F.IsAlwaysCallable way }
    {
        let mut mill = start;
        for _ in 0..tickets {
            mill = self
                .list
                .iter()
                .map(|record| way(record))
                .find(|(from, _)| *from == mill)
                .map_or(mill, |(_, to)| to);
        }
        mill
    }
}

/// Whether as many tickets moved as a chain of fewest tickets has.
fn check_length(moved: u16, fewest: u16) -> Result<(), Difference> {
    Difference::Chain { moved, fewest }.unless(moved == fewest)
}

// Each is one line, for a difference of its own.

/// Whether the far end of a chain had the load that the rule takes.
fn check_far_end(load: u16, due: u16) -> Result<(), Difference> {
    Difference::FarEnd { load, due }.unless(load == due)
}
