//! Which calls are to be refused, and how.
use crate::tally::Tally;
use board::Call;
use capability::Source;
use vocabulary::{Mill, Refusal};

/// The number and the place of a refusal.
#[derive(Clone, Copy, PartialEq, Eq, Debug)]
pub struct Told {
    pub number: u8,
    pub place: u16,
}

impl From<Refusal> for Told {
    fn from(refusal: Refusal) -> Told {
        Told {
            number: refusal.number(),
            place: refusal.place(),
        }
    }
}

/// The refusal that a call is due, with a list of so much room; nothing where it is to be accepted.
/// The numbers and places stand here a second time, since a witness takes none of the board's.
pub fn due(tally: &Tally, call: Call, room: usize) -> Option<Told> {
    let mills = tally.shop().mills();
    let standing = u16::try_from(tally.standing()).unwrap_or(u16::MAX);
    let short = cause(room < tally.standing(), 14, standing);
    match call {
        Call::Add { ticket, program } => first(&[
            short,
            cause(!tally.has_mill(program, |_| true), 10, ticket.0),
            cause(tally.mill_of(ticket).is_some(), 8, ticket.0),
            cause(ticket.0 > 1023, 7, ticket.0),
        ]),
        Call::Done { ticket } => first(&[
            short,
            cause(tally.mill_of(ticket).is_none(), 9, ticket.0),
            cause(ticket.0 > 1023, 7, ticket.0),
        ]),
        Call::Withdraw { mill } => first(&[
            short,
            stranded(tally, mill),
            cause(!tally.serves(mill), 12, u16::from(mill.0)),
            cause(mill.0 >= mills, 11, u16::from(mill.0)),
        ]),
        Call::Return { mill } => first(&[
            short,
            cause(tally.serves(mill), 12, u16::from(mill.0)),
            cause(mill.0 >= mills, 11, u16::from(mill.0)),
        ]),
    }
}

/// A cause, where it holds.
fn cause(holds: bool, number: u8, place: u16) -> Option<Told> {
    holds.then_some(Told { number, place })
}

/// The cause of the smallest number.
fn first(causes: &[Option<Told>]) -> Option<Told> {
    causes
        .iter()
        .copied()
        .flatten()
        .min_by_key(|told| told.number)
}

/// The lowest ticket of a mill that has no other mill.
fn stranded(tally: &Tally, mill: Mill) -> Option<Told> {
    tally
        .seats()
        .iter()
        .filter(|seat| seat.mill == mill && !tally.has_mill(seat.program, |other| other != mill))
        .map(|seat| seat.ticket.0)
        .min()
        .map(|place| Told { number: 13, place })
}
