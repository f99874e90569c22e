//! The choice among mills by their loads.
ghost use Rattle.std.specs.Prelude.{ℕ, ◌<◌, Bool, map, length};
ghost use Rattle.std.specs.Cmp.{IsStrictWeakOrder};
ghost use Rattle.table.specs.Held.{tally_of};
ghost use Rattle.search.specs.Firsts.{Computes, First};
ghost use Rattle.search.specs.Visits.{load_in};

use table::Table;
use vocabulary::Mill;

/// The first of some mills whose load no other's beats.
// No `min_by_key`: that it gives the first is not promised, and of the greatest `max_by_key` gives the last.
pub(crate) fn first_best<F: Fn(u16, u16) -> bool>(table: &Table, mills: &[Mill], beats: F) -> Mill
    requires some { 0 < length mills.now }
    requires callable { F.IsAlwaysCallable beats }
    ensures { (order : ℕ → ℕ → Bool) → IsStrictWeakOrder order → Computes (F.post beats) order → First order (load_in (tally_of table.now)) (map (λ mill. mill.0) mills.now) result.0 }
{
    let mut best = mills[0];
    for &mill in &mills[1..] {
        if beats(table.load(mill), table.load(best)) {
            best = mill;
        }
    }
    best
}
