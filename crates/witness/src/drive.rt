//! Boards that are driven by drawn calls, and compared after each.
use crate::counts::Counts;
use crate::difference::Difference;
use crate::draw::{draw_call, draw_room, draw_shop};
use crate::random::Random;
use crate::shop::Shop;
use crate::step::{Step, UNWRITTEN};
use crate::tally::Tally;
use crate::{compare, refusals};
use board::{Answer, Board, Call, Move};
use std::io;
use vocabulary::Refusal;

/// So many boards of so many mills, on which so many tickets may stand.
#[derive(Clone, Copy)]
struct Course {
    mills: u8,
    tickets: u8,
    boards: u32,
}

/// What is driven, one after the other.
const COURSES: [Course; 7] = [
    Course {
        mills: 0,
        tickets: 2,
        boards: 2,
    },
    Course {
        mills: 1,
        tickets: 5,
        boards: 10,
    },
    Course {
        mills: 2,
        tickets: 7,
        boards: 40,
    },
    Course {
        mills: 3,
        tickets: 7,
        boards: 80,
    },
    Course {
        mills: 4,
        tickets: 7,
        boards: 120,
    },
    Course {
        mills: 4,
        tickets: 8,
        boards: 40,
    },
    Course {
        mills: 5,
        tickets: 7,
        boards: 80,
    },
];

/// How many calls a board is driven by.
const CALLS: u32 = 60;

/// How often a call that is to be refused is drawn anew at most.
const DRAWS: u32 = 3;

/// How many differences are told.
const TOLD: u32 = 10;

/// A board, beside it what stands where as its calls tell it, and what its calls are drawn from.
#[derive(Drop)]
struct Bench {
    board: Board<Shop>,
    tally: Tally,
    random: Random,
    tickets: u8,
}

impl Bench {
    /// Draws a call, and most often another one for one that is to be refused.
    fn draw(&mut self) -> Call {
        let shop = self.tally.shop();
        let mut call = draw_call(&mut self.random, shop, self.tickets);
        for _ in 0..DRAWS {
            let refused = refusals::due(&self.tally, call, usize::MAX).is_some();
            if refused && !self.random.one_in(6) {
                call = draw_call(&mut self.random, shop, self.tickets);
            }
        }
        call
    }

    /// Performs a drawn call, and compares what came of it.
    fn drive(&mut self, rt: &HostRuntime, counts: &mut Counts) -> Result<(), Difference> {
        let call = self.draw();
        let standing = self.tally.standing();
        let room = draw_room(&mut self.random, standing);
        let mut list = vec![in rt.alloc(); UNWRITTEN; room]?;
        let answer = perform(&mut self.board, call, list.as_mut_slice());
        counts.note(call, answer);
        let before = self.tally.clone()?;
        self.tally.follow(call, answer, list.as_slice())?;
        compare::with_board(&self.board, &self.tally)?;
        let step = Step {
            before: &before,
            after: &self.tally,
            call,
            answer,
            list: list.as_slice(),
        };
        step.check()?;
        let tried = compare::with_placements(&self.tally)?;
        counts.placements = counts.placements.saturating_add(tried);
        Ok(())
    }
}

/// Asks a board for a call, by the method that each call has for itself, so that each of them is witnessed.
// The cases of boards have the same few lines: a witness shares nothing with them.
fn perform(board: &mut Board<Shop>, call: Call, list: &mut [Move]) -> Result<Answer, Refusal> {
    match call {
        Call::Add { ticket, program } => board.add(ticket, program, list),
        Call::Done { ticket } => board.done(ticket, list),
        Call::Withdraw { mill } => board.withdraw(mill, list),
        Call::Return { mill } => board.return_mill(mill, list),
    }
}

/// Drives one board, up to the first call after which something differs.
fn drive_board(rt: &HostRuntime, seed: u64, course: Course, counts: &mut Counts) -> io::Result<()> {
    let mut random = Random::new(seed);
    let shop = draw_shop(&mut random, course.mills);
    let mut bench = Bench {
        board: Board::open(shop),
        tally: Tally::open(rt.alloc(), &shop),
        random,
        tickets: course.tickets,
    };
    counts.boards = counts.boards.saturating_add(1);
    for number in 0..CALLS {
        if let Err(difference) = bench.drive(rt, counts) {
            counts.differing = counts.differing.saturating_add(1);
            if counts.differing <= TOLD {
                println!(rt; "seed {seed}, call {number}: {difference:?}")?;
            }
            return Ok(());
        }
    }
    Ok(())
}

/// Drives all boards, and gives how much was compared.
pub fn drive_all(rt: &HostRuntime) -> io::Result<Counts> {
    let mut counts = Counts::default();
    let mut seed = 1u64;
    for course in COURSES {
        for _ in 0..course.boards {
            // The seed goes on from one course to the next, so it is counted here.
            drive_board(rt, seed, course, &mut counts)?;
            seed = seed.saturating_add(1);
        }
    }
    Ok(counts)
}
