//! What was asked and answered, in words.
ghost use Rattle.std.specs.Prelude.{◌++◌, Some, codes};
ghost use Rattle.std.specs.Fmt.{decimal};

use board::{Answer, Board, Call, Move, Report, Request};
use std::{fmt, io};
use telling::Refused;
use vocabulary::Mill;

/// Tells a request: what was asked, what was answered, and which tickets moved.
pub fn request(rt: &HostRuntime, request: &Request) -> io::Result<()> {
    asked(rt, request.call)?;
    match request.answer {
        Ok(Answer::Added { mill, count }) => {
            println!(rt; "  it stands on mill {mill}; tickets moved: {count}")?;
            moved(rt, request.moves.as_slice(), count)
        }
        Ok(Answer::Moved { count }) => {
            println!(rt; "  tickets moved: {count}")?;
            moved(rt, request.moves.as_slice(), count)
        }
        Err(refusal) => println!(rt; "  {}: {refusal}", Refused(refusal)),
    }
}

/// Tells a call.
fn asked(rt: &HostRuntime, call: Call) -> io::Result<()> {
    match call {
        Call::Add { ticket, program } => {
            println!(rt; "add ticket {ticket} with program {program}")
        }
        Call::Done { ticket } => println!(rt; "ticket {ticket} is done"),
        Call::Withdraw { mill } => println!(rt; "withdraw mill {mill}"),
        Call::Return { mill } => println!(rt; "return mill {mill}"),
    }
}

/// Tells the records of the moved tickets.
fn moved(rt: &HostRuntime, moves: &[Move], count: u16) -> io::Result<()> {
    for record in moves.iter().take(usize::from(count)) {
        let Move { ticket, from, to } = *record;
        println!(rt; "  ticket {ticket} goes from mill {from} to mill {to}")?;
    }
    Ok(())
}

/// Tells the loads, and the report on all of them.
pub fn end<S>(rt: &HostRuntime, board: &Board<S>) -> io::Result<()> {
    println!(rt; "at the end:")?;
    for number in 0..64 {
        let mill = Mill(number);
        let load = board.load(mill);
        if load > 0 {
            println!(rt; "  mill {mill} has load {load}")?;
        }
    }
    println!(rt; "  {}", InWords(board.report()))
}

/// A report in this program's own words, which are not those of its `Display`.
#[derive(Clone, Copy)]
struct InWords(Report);

impl fmt::Display for InWords {
    ghost output = { λ words. Some (codes "highest load " ++ decimal words.0.highest_load ++ codes ", busy mills " ++ decimal words.0.busy_mills ++ codes ", flow time " ++ decimal words.0.flow_time) };

    fn fmt<W: fmt::Write>(&self, f: &mut fmt::Formatter<W>) -> fmt::Result {
        let highest = self.0.highest_load;
        let busy = self.0.busy_mills;
        let flow = self.0.flow_time;
        write!(
            f,
            "highest load {highest}, busy mills {busy}, flow time {flow}"
        )
    }
}
