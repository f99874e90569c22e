//! How calls, answers and boards are told.
use crate::list::is_untouched;
use board::{Answer, Board, Call, Move};
use std::io;
use telling::Refused;
use vocabulary::{Mill, Refusal, Ticket};

/// Tells what is asked, and with how long a list.
pub fn asked(rt: &HostRuntime, call: Call, entries: usize) -> io::Result<()> {
    match call {
        Call::Add { ticket, program } => print!(rt; "add {ticket} of program {program}"),
        Call::Done { ticket } => print!(rt; "done {ticket}"),
        Call::Withdraw { mill } => print!(rt; "withdraw {mill}"),
        Call::Return { mill } => print!(rt; "return {mill}"),
    }?;
    print!(rt; ", list of {entries}: ")
}

/// Tells a refusal, and whether the list is as it was.
pub fn refused(rt: &HostRuntime, refusal: Refusal, list: &[Move]) -> io::Result<()> {
    let kept = if is_untouched(list) {
        "list unchanged"
    } else {
        "LIST CHANGED"
    };
    print!(rt; "{}, {kept}", Refused(refusal))
}

/// Tells the answer of an accepted call, its records, and whether the list behind them is as it was.
pub fn accepted(rt: &HostRuntime, answer: Answer, list: &[Move]) -> io::Result<()> {
    if let Answer::Added { mill, .. } = answer {
        print!(rt; "mill {mill}, ")?;
    }
    let count = answer.count();
    match list.split_at_checked(usize::from(count)) {
        Some((written, rest)) => {
            let kept = if is_untouched(rest) {
                "rest untouched"
            } else {
                "REST TOUCHED"
            };
            println!(rt; "{count} moved, {kept}")?;
            records(rt, written)
        }
        None => println!(rt; "{count} MOVED, MORE THAN THE LIST HOLDS"),
    }
}

/// Tells move records.
fn records(rt: &HostRuntime, records: &[Move]) -> io::Result<()> {
    for record in records {
        let Move { ticket, from, to } = *record;
        println!(rt; "  ticket {ticket} from mill {from} to mill {to}")?;
    }
    Ok(())
}

/// Tells the report of a board.
pub fn report<S>(rt: &HostRuntime, board: &Board<S>) -> io::Result<()> {
    println!(rt; "{}", board.report())
}

/// Tells where a ticket stands.
pub fn place<S>(rt: &HostRuntime, board: &Board<S>, ticket: Ticket) -> io::Result<()> {
    match board.where_is(ticket) {
        Some(mill) => println!(rt; "ticket {ticket} on mill {mill}"),
        None => println!(rt; "ticket {ticket} nowhere"),
    }
}

/// Tells how many tickets stand on a mill.
pub fn load<S>(rt: &HostRuntime, board: &Board<S>, mill: Mill) -> io::Result<()> {
    let load = board.load(mill);
    println!(rt; "{load} on mill {mill}")
}
