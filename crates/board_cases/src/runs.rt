//! A whole run of calls on one board.
use crate::list::marked;
use crate::shop::three_mills;
use crate::tell;
use board::{Call, Request, run};
use std::alloc::{AllocError, Global};
use std::io;
use vocabulary::{Mill, Program, Refusal, Ticket};

/// Mill 2 is away while three tickets come, and comes back; then mill 0 is to go.
const CALLS: [Call; 6] = [
    Call::Withdraw { mill: Mill(2) },
    Call::Add {
        ticket: Ticket(5),
        program: Program(3),
    },
    Call::Add {
        ticket: Ticket(6),
        program: Program(2),
    },
    Call::Add {
        ticket: Ticket(7),
        program: Program(1),
    },
    Call::Return { mill: Mill(2) },
    Call::Withdraw { mill: Mill(0) },
];

/// Requests for calls, each with a list of so many entries. The answers that they begin with are none that a board gives.
fn requests(heap: Global, calls: &[Call], entries: usize) -> Result<Vec<Request>, AllocError> {
    let mut requests = Vec::new(heap);
    for call in calls {
        requests.push(Request {
            call: *call,
            moves: marked(heap, entries)?,
            answer: Err(Refusal::TableFull),
        })?;
    }
    Ok(requests)
}

/// The six calls in one run.
pub fn one_run(rt: &HostRuntime) -> io::Result<()> {
    println!(rt; "six calls in one run")?;
    let mut requests = requests(rt.alloc(), &CALLS, 3)?;
    let board = run(three_mills(), requests.as_mut_slice());
    for request in requests.as_slice() {
        answered(rt, request)?;
    }
    tell::report(rt, &board)?;
    for number in 5..=7 {
        tell::place(rt, &board, Ticket(number))?;
    }
    Ok(())
}

/// Tells what came of a request.
fn answered(rt: &HostRuntime, request: &Request) -> io::Result<()> {
    let moves = request.moves.as_slice();
    tell::asked(rt, request.call, moves.len())?;
    match request.answer {
        Ok(answer) => tell::accepted(rt, answer, moves),
        Err(refusal) => {
            tell::refused(rt, refusal, moves)?;
            println!(rt; "")
        }
    }
}
