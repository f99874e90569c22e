//! Every chain, tried one after the other.
use crate::digits::Digits;
use crate::shop::MOST_MILLS;
use crate::tally::Tally;
use arrayvec::ArrayVec;
use capability::Source;
use std::alloc::AllocError;
use std::cmp::Reverse;
use vocabulary::{Mill, Program};

/// What a rule chooses: the load of the mill at the far end of a chain, and the number of standing tickets in the chain.
#[derive(Clone, Copy, PartialEq, Eq, PartialOrd, Ord, Debug)]
pub struct Choice {
    pub load: u16,
    pub tickets: u16,
}

/// Of the mills that a chain from a new ticket reaches the least load, and the fewest tickets of a chain to such a mill.
pub fn to_place(tally: &Tally, program: Program) -> Result<Option<Choice>, AllocError> {
    let loads = tally.loads();
    least_key(tally, |first, last, tickets| {
        tally.takes(program, first).then_some(Choice {
            load: loads.at(last),
            tickets,
        })
    })
}

/// Of the mills that have an improving chain to a mill the greatest load, and the fewest tickets of a chain from such a mill.
pub fn to_shift(tally: &Tally, mill: Mill) -> Result<Option<Choice>, AllocError> {
    let loads = tally.loads();
    let improving = loads.at(mill).saturating_add(2);
    let chosen = least_key(tally, |first, last, tickets| {
        let load = loads.at(first);
        (last == mill && load >= improving).then_some((Reverse(load), tickets))
    })?;
    Ok(chosen.map(|(Reverse(load), tickets)| Choice { load, tickets }))
}

/// The least of the keys that are told of chains: of the first mill of each, its last, and the number of standing tickets in it.
fn least_key<K: Ord + Copy, F: Fn(Mill, Mill, u16) -> Option<K>>(
    tally: &Tally,
    key: F,
) -> Result<Option<K>, AllocError>
    requires { F.IsAlwaysCallable key }
{
    let mills = tally.shop().mills();
    let mut best: Option<K> = None;
    for length in 1..=mills {
        let tickets = u16::from(length).saturating_sub(1);
        for number in 0..u32::from(mills).saturating_pow(u32::from(length)) {
            let digits = Digits::of(number, mills);
            // Most rows have no key, and those are not written out.
            let (mut front, mut back) = (digits, digits);
            if let (Some(first), Some(last)) = (front.next(), back.nth(usize::from(tickets)))
                && let Some(key) = key(first, last, tickets)
            {
                let mut row: ArrayVec<Mill, MOST_MILLS> = ArrayVec::new();
                row.extend(digits.take(usize::from(length)))?;
                if is_chain(tally, row.as_slice()) {
                    best = Some(best.map_or(key, |best| best.min(key)));
                }
            }
        }
    }
    Ok(best)
}

/// Whether some mills in a row are a chain: none is there twice, and from each to the next a ticket can go on.
fn is_chain(tally: &Tally, row: &[Mill]) -> bool {
    let repeats = row.iter().any(|mill| row.iter().filter(|other| *other == mill).count() > 1);
    !repeats
        && row
            .iter()
            .zip(row.iter().skip(1))
            .all(|(from, to)| is_link(tally, *from, *to))
}

/// Whether a ticket stands on a mill that has another for one of its mills.
fn is_link(tally: &Tally, from: Mill, to: Mill) -> bool {
    tally
        .seats()
        .iter()
        .any(|seat| seat.mill == from && tally.takes(seat.program, to))
}
