//! Shops, calls and lists that are drawn.
use crate::random::Random;
use crate::shop::Shop;
use board::Call;
use capability::Source;
use vocabulary::{Mill, Program, Ticket};

/// The tickets that are drawn from; of a board with fewer tickets the first ones.
const TICKETS: [Ticket; 8] = [
    Ticket(1023),
    Ticket(0),
    Ticket(511),
    Ticket(5),
    Ticket(1022),
    Ticket(1),
    Ticket(64),
    Ticket(700),
];

/// The programs that some mills of a shop may be able for.
const PROGRAMS: [Program; 6] = [
    Program(0),
    Program(1),
    Program(77),
    Program(128),
    Program(254),
    Program(255),
];

/// The program that no mill is able for.
const UNKNOWN: Program = Program(9);

/// How the mills of a program are drawn.
#[derive(Clone, Copy)]
enum Spread {
    /// A program has its place in a row of mills, and the mill before it.
    Row,
    /// A program has one or two mills.
    Two,
    /// A program has every mill but for one in so many.
    Most(u8),
}

/// A shop of so many mills, each able for some of the programs.
pub fn draw_shop(random: &mut Random, mills: u8) -> Shop {
    let spread = match random.below(4) {
        0 => Spread::Row,
        1 => Spread::Two,
        odds => Spread::Most(odds),
    };
    let mut shop = Shop::new(mills);
    for (place, program) in (0..).zip(PROGRAMS) {
        allow_some(random, &mut shop, program, spread, place);
    }
    shop
}

/// Makes some mills able for a program, which has a place among the programs.
fn allow_some(random: &mut Random, shop: &mut Shop, program: Program, spread: Spread, place: u8) {
    match spread {
        Spread::Row => {
            shop.allow(program, Mill(place));
            shop.allow(program, Mill(place.saturating_sub(1)));
        }
        Spread::Two => {
            shop.allow(program, Mill(random.below(shop.mills())));
            shop.allow(program, Mill(random.below(shop.mills())));
        }
        Spread::Most(odds) => {
            for mill in 0..shop.mills() {
                if !random.one_in(odds) {
                    shop.allow(program, Mill(mill));
                }
            }
        }
    }
}

/// A call, of a ticket among the first so many, or of a mill of a shop; now and then of one that is not there.
pub fn draw_call(random: &mut Random, shop: &Shop, tickets: u8) -> Call {
    match random.below(16) {
        0..=8 => Call::Add {
            ticket: draw_ticket(random, tickets),
            program: draw_program(random),
        },
        9..=11 => Call::Done {
            ticket: draw_ticket(random, tickets),
        },
        12 => Call::Withdraw {
            mill: draw_mill(random, shop),
        },
        _ => Call::Return {
            mill: draw_mill(random, shop),
        },
    }
}

/// A ticket among the first so many, or one that does not exist.
fn draw_ticket(random: &mut Random, tickets: u8) -> Ticket {
    match random.below(40) {
        0 => Ticket(1024),
        1 => Ticket(65_535),
        _ => {
            let first = TICKETS.get(..usize::from(tickets)).unwrap_or(&TICKETS);
            random.one_of(first).unwrap_or_default()
        }
    }
}

/// A program, of some mills or of none.
fn draw_program(random: &mut Random) -> Program {
    let known = random.one_of(&PROGRAMS);
    if random.one_in(24) {
        UNKNOWN
    } else {
        known.unwrap_or(UNKNOWN)
    }
}

/// A mill of a shop, or one that does not exist.
fn draw_mill(random: &mut Random, shop: &Shop) -> Mill {
    match random.below(24) {
        0 => Mill(shop.mills()),
        1 => Mill(64),
        2 => Mill(255),
        _ => Mill(random.below(shop.mills())),
    }
}

/// The length of a list: as many entries as tickets stand, some more, or one too few.
pub fn draw_room(random: &mut Random, standing: usize) -> usize {
    if random.one_in(12) {
        standing.saturating_sub(1)
    } else {
        standing.saturating_add(usize::from(random.below(3)))
    }
}
