//! That the comparison can fail.
use board::{Answer, Call, Move};
use std::alloc::{AllocError, Global};
use std::test::Fail;
use vocabulary::{Mill, Program, Ticket};
use witness::compare;
use witness::difference::Difference;
use witness::shop::Shop;
use witness::step::{Step, UNWRITTEN};
use witness::tally::{Seat, Tally};

/// Two mills that can both cut program 3.
fn two_mills() -> Shop {
    let mut shop = Shop::new(2);
    shop.allow(Program(3), Mill(0));
    shop.allow(Program(3), Mill(1));
    shop
}

/// The tally of tickets 0 and 1 on two mills.
fn pair_on(heap: Global, shop: &Shop, first: u8, second: u8) -> Result<Tally, AllocError> {
    let mut tally = Tally::open(heap, shop);
    for (ticket, mill) in [(0, first), (1, second)] {
        tally.put(Seat {
            ticket: Ticket(ticket),
            program: Program(3),
            mill: Mill(mill),
        })?;
    }
    Ok(tally)
}

/// Two tickets on one mill are a cycle longer than one on each.
#[test]
fn one_cycle_too_long(rt: HostRuntime) -> Result<(), Fail> {
    let shop = two_mills();
    let even = pair_on(rt.alloc(), &shop, 1, 0)?;
    assert!(rt; matches!(compare::with_placements(&even), Ok(4)));
    let uneven = pair_on(rt.alloc(), &shop, 1, 1)?;
    assert!(rt;
        matches!(
            compare::with_placements(&uneven),
            Err(Difference::Total {
                board: 3,
                best: 2,
                ..
            })
        )
    );
    Ok(())
}

/// A withdrawn mill's ticket moved, and the answer tells none, one or two moves.
#[test]
fn one_move_too_many(rt: HostRuntime) -> Result<(), Fail> {
    let shop = two_mills();
    let before = pair_on(rt.alloc(), &shop, 1, 0)?;
    let after = pair_on(rt.alloc(), &shop, 0, 0)?;
    let moved = Move {
        ticket: Ticket(0),
        from: Mill(1),
        to: Mill(0),
    };
    let step = Step {
        before: &before,
        after: &after,
        call: Call::Withdraw { mill: Mill(1) },
        answer: Ok(Answer::Moved { count: 1 }),
        list: &[moved, UNWRITTEN],
    };
    assert!(rt; step.check().is_ok());
    assert!(rt;
        matches!(
            step.check_records(2),
            Err(Difference::Count { told: 2, due: 1 })
        )
    );
    assert!(rt;
        matches!(
            step.check_records(0),
            Err(Difference::Count { told: 0, due: 1 })
        )
    );
    Ok(())
}
