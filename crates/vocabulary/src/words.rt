//! What each refusal says to a technician, in words; its number and its place are told beside them.
use crate::refusal::Refusal;
use std::fmt;

impl fmt::Display for Refusal {
    fn fmt<W: fmt::Write>(&self, f: &mut fmt::Formatter<W>) -> fmt::Result {
        f.write_str(words(*self))
    }
}

/// What went wrong, as one phrase.
// Written out: the derive of `thiserror` would put these phrases among the cases that every proof reads.
fn words(refusal: Refusal) -> &'static str {
    match refusal {
        Refusal::BadLine { .. } => {
            "a line with a wrong character, an odd number of digits, under 6 or over 516 digits, or no line feed"
        }
        Refusal::WrongCount { .. } => "a count byte that differs from the number of payload bytes",
        Refusal::WrongSum { .. } => "a frame whose bytes do not sum to a multiple of 256",
        Refusal::NotDue { .. } => {
            "a kind that is not due here, a payload length that is wrong for it, or a text that ends too soon or goes on too long"
        }
        Refusal::WrongValue { .. } => "a value that is out of range or does not rise",
        Refusal::TableFull => "a strike or alias table that is full",
        Refusal::NoSuchTicket { .. } => "a ticket that does not exist",
        Refusal::Standing { .. } => "an added ticket that stands already",
        Refusal::NotStanding { .. } => "a finished ticket that does not stand",
        Refusal::NoAbleMill { .. } => "a ticket for which no mill in service is able",
        Refusal::NoSuchMill { .. } => "a mill that does not exist",
        Refusal::SameService { .. } =>
            "a mill that is out of service already, or in service already",
        Refusal::Stranded { .. } => "a ticket that has no other mill to go to",
        Refusal::ShortList { .. } =>
            "a move list that is shorter than the number of standing tickets",
        Refusal::FullMagazine { .. } => "a magazine of too many tools",
        Refusal::ShortArea { .. } => "a text area that is too short for what is to be written",
        Refusal::NoMills => "a sheet of zero mills",
    }
}
