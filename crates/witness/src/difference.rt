//! What may differ between a board and what is worked out here.
use crate::prices::Price;
use crate::refusals::Told;
use std::alloc::AllocError;
use vocabulary::{Mill, Ticket};

/// The first thing that differs after a call.
#[derive(Clone, Copy, Debug)]
pub enum Difference {
    /// The board has a ticket elsewhere than the tally.
    Stands {
        ticket: Ticket,
    },
    /// The board tells another load than the tally.
    Load {
        mill: Mill,
    },
    /// The board reports other numbers than the loads of the tally come to.
    Report,
    /// The call was refused or accepted in another way than it was due.
    Refused {
        told: Option<Told>,
        due: Option<Told>,
    },
    /// The answer is of another kind than the call.
    Kind,
    /// An entry of the list was written behind the records.
    Written {
        entry: usize,
    },
    /// An entry of the list is not the record that is due there.
    Record {
        entry: usize,
    },
    /// The answer tells another number of records than there are.
    Count {
        told: u16,
        due: usize,
    },
    /// A ticket stands on a mill that is out of service or not able.
    Unable {
        ticket: Ticket,
    },
    /// Another placement has a lower total.
    Total {
        price: Price,
        board: u32,
        best: u32,
    },
    /// Another placement has a lower highest load.
    Highest {
        board: u16,
        best: u16,
    },
    /// Another placement keeps more mills busy.
    Busy {
        board: usize,
        best: usize,
    },
    /// The call moved another number of tickets than a chain of fewest tickets has.
    Chain {
        moved: u16,
        fewest: u16,
    },
    /// The far end of the chain had another load than the rule takes.
    FarEnd {
        load: u16,
        due: u16,
    },
    /// The loads are not those that the chain makes.
    Loads,
    /// As many tickets moved as there are mills in service, or more.
    TooMany {
        moved: u16,
        serving: usize,
    },
    /// No memory was left to compare in.
    NoMemory,
}

impl Difference {
    /// This difference, unless what it denies holds.
    pub(crate) fn unless(self, holds: bool) -> Result<(), Difference> {
        if holds { Ok(()) } else { Err(self) }
    }
}

impl From<AllocError> for Difference {
    fn from(_: AllocError) -> Difference {
        Difference::NoMemory
    }
}
