//! What stands where in a shop, as calls, answers and records tell it.
use crate::loads::Loads;
use crate::shop::{MOST_MILLS, Shop};
use board::{Answer, Call, Move};
use capability::Source;
use std::alloc::{AllocError, Global};
use vocabulary::{Mill, Program, Refusal, Ticket};

/// A standing ticket, its program and its mill.
#[derive(Clone, Copy)]
pub struct Seat {
    pub ticket: Ticket,
    pub program: Program,
    pub mill: Mill,
}

/// A shop, the tickets that stand in it, in the order in which they came, and its mills in service.
#[derive(Clone, Drop)]
pub struct Tally {
    shop: Shop,
    seats: Vec<Seat>,
    // An array by the number of a mill: few entries, known beforehand.
    service: [bool; MOST_MILLS],
}

impl Tally {
    /// No ticket stands, and every mill of a shop is in service.
    pub fn open(heap: Global, shop: &Shop) -> Tally {
        let mut tally = Tally {
            shop: *shop,
            seats: Vec::new(heap),
            service: [false; MOST_MILLS],
        };
        for mill in 0..shop.mills() {
            tally.serve(Mill(mill), true);
        }
        tally
    }

    /// The shop.
    pub(crate) fn shop(&self) -> &Shop {
        &self.shop
    }

    /// The standing tickets.
    pub fn seats(&self) -> &[Seat] {
        self.seats.as_slice()
    }

    /// How many tickets stand.
    pub fn standing(&self) -> usize {
        self.seats.len()
    }

    /// Where a ticket stands.
    pub fn mill_of(&self, ticket: Ticket) -> Option<Mill> {
        self.seats
            .iter()
            .find(|seat| seat.ticket == ticket)
            .map(|seat| seat.mill)
    }

    /// The ticket on a mill that came first.
    pub fn first_on(&self, mill: Mill) -> Option<Seat> {
        self.seats.iter().find(|seat| seat.mill == mill).copied()
    }

    /// Whether a mill is in service.
    pub fn serves(&self, mill: Mill) -> bool {
        self.service
            .get(usize::from(mill.0))
            .copied()
            .unwrap_or(false)
    }

    /// How many mills are in service.
    pub fn serving(&self) -> usize {
        self.service.iter().filter(|serves| **serves).count()
    }

    /// Whether a mill is one of the mills of a ticket of a program: in service, and able.
    pub fn takes(&self, program: Program, mill: Mill) -> bool {
        self.serves(mill) && self.shop.able(program, mill)
    }

    /// Whether a ticket of a program has a mill that is wanted.
    pub(crate) fn has_mill<F: Fn(Mill) -> bool>(&self, program: Program, is_wanted: F) -> bool
        requires { F.IsAlwaysCallable is_wanted }
    {
        (0..self.shop.mills())
            .map(Mill)
            .any(|mill| is_wanted(mill) && self.takes(program, mill))
    }

    /// The loads of the mills.
    pub fn loads(&self) -> Loads {
        let mut loads = Loads::default();
        for seat in self.seats.iter() {
            loads.grow(seat.mill);
        }
        loads
    }

    /// Puts a ticket on a mill.
    pub fn put(&mut self, seat: Seat) -> Result<(), AllocError> {
        self.seats.push(seat)?;
        Ok(())
    }

    /// Takes a ticket off its mill.
    pub fn take_off(&mut self, ticket: Ticket) {
        self.seats.retain(|seat| seat.ticket != ticket);
    }

    /// Moves a ticket to another mill.
    fn relocate(&mut self, ticket: Ticket, mill: Mill) {
        if let Some(seat) = self.seats.iter_mut().find(|seat| seat.ticket == ticket) {
            seat.mill = mill;
        }
    }

    /// Takes a mill into service, or out of it.
    pub fn serve(&mut self, mill: Mill, serves: bool) {
        if let Some(service) = self.service.get_mut(usize::from(mill.0)) {
            *service = serves;
        }
    }

    /// Follows a call, from what was asked, what was answered, and as many records of the list as the answer tells.
    pub fn follow(
        &mut self,
        call: Call,
        answer: Result<Answer, Refusal>,
        list: &[Move],
    ) -> Result<(), AllocError> {
        match answer {
            Ok(Answer::Added { mill, count }) => {
                self.relocate_all(list, count);
                self.come(call, mill)
            }
            Ok(Answer::Moved { count }) => {
                self.relocate_all(list, count);
                self.change(call);
                Ok(())
            }
            Err(_) => Ok(()),
        }
    }

    /// Follows the first records of a list.
    fn relocate_all(&mut self, list: &[Move], count: u16) {
        for record in list.iter().take(usize::from(count)) {
            self.relocate(record.ticket, record.to);
        }
    }

    /// A ticket that was added to a mill.
    fn come(&mut self, call: Call, mill: Mill) -> Result<(), AllocError> {
        if let Call::Add { ticket, program } = call {
            self.put(Seat {
                ticket,
                program,
                mill,
            })?;
        }
        Ok(())
    }

    /// A ticket that went, or a mill that went or came back.
    fn change(&mut self, call: Call) {
        match call {
            Call::Add { .. } => {}
            Call::Done { ticket } => self.take_off(ticket),
            Call::Withdraw { mill } => self.serve(mill, false),
            Call::Return { mill } => self.serve(mill, true),
        }
    }
}
