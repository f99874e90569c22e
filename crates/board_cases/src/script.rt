//! Cases as scripts: calls and questions, one after another.
use crate::attempt::attempt;
use crate::tell;
use board::{Board, Call};
use std::io;
use vocabulary::{Mill, Program, Ticket};

/// One step of a script. The last number of a call is how many entries its list has. A step holds bare numbers and no `Call`, since
/// the scripts are tables that are read beside what is told.
#[derive(Clone, Copy)]
pub enum Step {
    /// A ticket comes with its program.
    Add(u16, u8, usize),
    /// A ticket is finished.
    Done(u16, usize),
    /// A mill goes out of service.
    Withdraw(u8, usize),
    /// A mill comes back into service.
    Return(u8, usize),
    /// The board reports.
    Report,
    /// The place of a ticket is asked for.
    Place(u16),
    /// The load of a mill is asked for.
    Load(u8),
}

/// Takes the steps of a script on a board, and tells what came of each.
pub fn play<S>(
    rt: &HostRuntime,
    title: &str,
    board: &mut Board<S>,
    steps: &[Step],
) -> io::Result<()> {
    println!(rt; "{title}")?;
    for step in steps {
        take_step(rt, board, *step)?;
    }
    Ok(())
}

/// Takes one step.
fn take_step<S>(rt: &HostRuntime, board: &mut Board<S>, step: Step) -> io::Result<()> {
    match step {
        Step::Add(number, program, entries) => {
            let call = Call::Add {
                ticket: Ticket(number),
                program: Program(program),
            };
            attempt(rt, board, call, entries)
        }
        Step::Done(number, entries) => {
            let ticket = Ticket(number);
            attempt(rt, board, Call::Done { ticket }, entries)
        }
        Step::Withdraw(number, entries) => {
            let mill = Mill(number);
            attempt(rt, board, Call::Withdraw { mill }, entries)
        }
        Step::Return(number, entries) => {
            let mill = Mill(number);
            attempt(rt, board, Call::Return { mill }, entries)
        }
        Step::Report => tell::report(rt, board),
        Step::Place(number) => tell::place(rt, board, Ticket(number)),
        Step::Load(number) => tell::load(rt, board, Mill(number)),
    }
}
