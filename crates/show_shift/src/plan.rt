//! The calls of the shift.
use board::{Call, Move, Request};
use std::alloc::{AllocError, Global};
use vocabulary::{Mill, Program, Ticket};

/// Each move list has so many entries, more than tickets come.
const ROOM: usize = 8;

/// Mill 2 is away while three tickets come. When it is back, mill 0 is to go, a ticket is finished, and two adds are refused.
const CALLS: [Call; 9] = [
    Call::Withdraw { mill: Mill(2) },
    Call::Add {
        ticket: Ticket(5),
        program: Program(3),
    },
    Call::Add {
        ticket: Ticket(6),
        program: Program(2),
    },
    Call::Add {
        ticket: Ticket(7),
        program: Program(1),
    },
    Call::Return { mill: Mill(2) },
    Call::Withdraw { mill: Mill(0) },
    Call::Done { ticket: Ticket(7) },
    Call::Add {
        ticket: Ticket(6),
        program: Program(2),
    },
    Call::Add {
        ticket: Ticket(8),
        program: Program(9),
    },
];

/// The calls of the shift, each with a move list.
pub fn requests(heap: Global) -> Result<Vec<Request>, AllocError> {
    let mut requests = Vec::new(heap);
    for call in CALLS {
        requests.push(Request::new(call, vec![in heap; Move::default(); ROOM]?))?;
    }
    Ok(requests)
}
