//! Whether a call is sent back, and why.
ghost use Rattle.std.specs.Prelude.{◌≡◌, ℕ, ◌<◌, ◌≤◌, ◌↔◌, IsTrue, MatchOption, MatchResult, true};
ghost use Rattle.vocabulary.specs.declared.refusal.Refusal.TheVariants.{NoSuchTicket, NoSuchMill, ShortList};
ghost use Rattle.board.specs.declared.call.Call.TheVariants.{Add, Done, Withdraw, Return};
ghost use Rattle.table.specs.Held.{meant, tally_of};
ghost use Rattle.table.specs.Tally.{mill_for, standing};
ghost use Rattle.board.specs.Causes.{Judged, JudgedForAnyList, Strands};

use crate::call::{Call, TICKETS};
use table::Table;
use vocabulary::{Mill, Program, Refusal, Ticket};

// A table is of another crate, so what is asked of one here are functions and no methods.

/// Whether a call with a move list of so many entries is accepted, or else why it is sent back.
pub(crate) fn check_call(table: &Table, call: Call, room: usize) -> Result<(), Refusal>
    ensures { Judged (meant table.now) (tally_of table.now) room call result }
{
    check_arguments(table, call)?;
    check_room(table, room)
}

/// Every cause but the length of the move list, which is looked at last.
fn check_arguments(table: &Table, call: Call) -> Result<(), Refusal>
    ensures { JudgedForAnyList (meant table.now) (tally_of table.now) call result }
{
    match call {
        Call::Add { ticket, program } => check_add(table, ticket, program),
        Call::Done { ticket } => check_done(table, ticket),
        Call::Withdraw { mill } => check_withdraw(table, mill),
        Call::Return { mill } => check_return(table, mill),
    }
}

/// The move list must have room for every standing ticket.
fn check_room(table: &Table, room: usize) -> Result<(), Refusal>
    ensures { MatchResult result (λ _. standing (tally_of table.now) ≤ room) (λ e. (room < standing (tally_of table.now)) × (e ≡ ShortList (standing (tally_of table.now)))) }
{
    let standing = table.standing();
    if room < usize::from(standing) {
        return Err(Refusal::ShortList { standing });
    }
    Ok(())
}

fn check_add(table: &Table, ticket: Ticket, program: Program) -> Result<(), Refusal>
    ensures { JudgedForAnyList (meant table.now) (tally_of table.now) (Add ticket program) result }
{
    check_ticket(ticket)?;
    if table.seat(ticket).is_some() {
        return Err(Refusal::Standing { ticket });
    }
    if table.mills_for(program).is_empty() {
        return Err(Refusal::NoAbleMill { ticket });
    }
    Ok(())
}

fn check_done(table: &Table, ticket: Ticket) -> Result<(), Refusal>
    ensures { JudgedForAnyList (meant table.now) (tally_of table.now) (Done ticket) result }
{
    check_ticket(ticket)?;
    if table.seat(ticket).is_none() {
        return Err(Refusal::NotStanding { ticket });
    }
    Ok(())
}

fn check_withdraw(table: &Table, mill: Mill) -> Result<(), Refusal>
    ensures { JudgedForAnyList (meant table.now) (tally_of table.now) (Withdraw mill) result }
{
    check_mill(table, mill)?;
    if !table.service().contains(mill.0) {
        return Err(Refusal::SameService { mill });
    }
    if let Some(ticket) = lowest_stranded(table, mill) {
        return Err(Refusal::Stranded { ticket });
    }
    Ok(())
}

fn check_return(table: &Table, mill: Mill) -> Result<(), Refusal>
    ensures { JudgedForAnyList (meant table.now) (tally_of table.now) (Return mill) result }
{
    check_mill(table, mill)?;
    if table.service().contains(mill.0) {
        return Err(Refusal::SameService { mill });
    }
    Ok(())
}

/// There are tickets only up to a number.
fn check_ticket(ticket: Ticket) -> Result<(), Refusal>
    ensures { MatchResult result (λ _. ticket.0 < 1024) (λ e. (1024 ≤ ticket.0) × (e ≡ NoSuchTicket ticket)) }
{
    if ticket.0 >= TICKETS {
        return Err(Refusal::NoSuchTicket { ticket });
    }
    Ok(())
}

/// A shop has only so many mills.
fn check_mill(table: &Table, mill: Mill) -> Result<(), Refusal>
    ensures { MatchResult result (λ _. mill.0 < (meant table.now).mills) (λ e. ((meant table.now).mills ≤ mill.0) × (e ≡ NoSuchMill mill)) }
{
    if mill.0 >= table.mills() {
        return Err(Refusal::NoSuchMill { mill });
    }
    Ok(())
}

/// The lowest ticket of a mill that may stand on no other.
fn lowest_stranded(table: &Table, mill: Mill) -> Option<Ticket>
    ensures { MatchOption result ((k : ℕ) → Strands (meant table.now) (tally_of table.now) mill.0 k → ⊥) (λ t. Strands (meant table.now) (tally_of table.now) mill.0 t.0 × ((k : ℕ) → k < t.0 → Strands (meant table.now) (tally_of table.now) mill.0 k → ⊥)) }
{
    (0..TICKETS)
        .find(|&number| is_stranded(table, mill, Ticket(number)))
        .map(Ticket)
}

/// Whether a ticket stands on a mill and may stand on no other.
fn is_stranded(table: &Table, mill: Mill, ticket: Ticket) -> bool
    ensures { IsTrue result ↔ Strands (meant table.now) (tally_of table.now) mill.0 ticket.0 }
{
    table.seat(ticket).is_some_and(|seat| seat.mill == mill
        && is_only_mill(table, mill, seat.program))
}

/// Whether no other mill in service is able for a program.
fn is_only_mill(table: &Table, mill: Mill, program: Program) -> bool
    ensures { IsTrue result ↔ ((m : ℕ) → mill_for (meant table.now) (tally_of table.now).service program.0 m ≡ true → m ≡ mill.0) }
{
    let mut others = table.mills_for(program);
    others.remove(mill.0);
    others.is_empty()
}
