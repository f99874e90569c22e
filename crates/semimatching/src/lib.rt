//! The theory of semi-matchings: tickets on mills, loads, chains, prices, and when a placement is even.
//! It is all in `specs/` and `proofs/`; the function here has the main theorem for its contract, so that it is asked for.
#![tactic(auto)]

ghost use Rattle.semimatching.specs.Theorems.{LeastExactly, EvenThen};

/// A semi-matching has no improving chain exactly when its total is least at every price list that never falls;
/// and then no other has a lower highest load or more busy mills.
pub fn even_without_improving_chain()
    ensures least { LeastExactly }
    ensures even { EvenThen }
{}
