//! Worked cases of the shop, each proved from the definitions that the other crates' promises are written in.
//! They are all in `specs/` and `proofs/`; the function here has them for its contract, so that they are asked for.
#![tactic(auto)]

ghost use Rattle.cases.specs.Blanks.{EqualBlanks};
ghost use Rattle.cases.specs.Loads.{NoneImproves, Costs};
ghost use Rattle.cases.specs.Texts.{ShortSheets, EndLine};
ghost use Rattle.cases.specs.Tickets.{TicketsInRange};
ghost use Rattle.cases.specs.WorkedRun.{WorkedRun};

/// The worked cases, each proved from the definitions: a run of six calls, chains between loads of 2 and 1, what loads cost,
/// the last ticket, sheets of 0, 64 and 65 mills, the end frame, and a blank as long as the travel.
pub fn cases_hold()
    ensures run { WorkedRun }
    ensures chains { NoneImproves }
    ensures costs { Costs }
    ensures tickets { TicketsInRange }
    ensures sheets { ShortSheets }
    ensures frame { EndLine }
    ensures blank { EqualBlanks }
{}
