//! The magazine of a mill, checked.
ghost use Rattle.std.specs.Prelude.{◌≡◌, ℕ, ◌≤◌, length, Some, None, MatchResult};
ghost use Rattle.std.specs.List.{list_all};
ghost use Rattle.sets.specs.Sets.{holds, has, members};
ghost use Rattle.tools.specs.Tools.{magazine_fault};

use crate::tools::MillRow;
use sets::NumberSet;
use vocabulary::Refusal;

/// The most tools that a magazine holds.
const MOST_TOOLS: u8 = 20;

/// The tools of a mill's magazine, at most 20.
#[derive(Clone, Copy)]
pub struct Magazine {
    tools: NumberSet,
    ghost few: { length (members tools) ≤ 20 },
}

impl Magazine {
    /// The magazine of a row of the mill table; one of more than 20 tools is refused, with their number.
    // No `TryFrom`: a magazine is one part of a row.
    pub fn of(row: &MillRow) -> Result<Magazine, Refusal>
        ensures { MatchResult result (λ magazine. (magazine_fault row.now ≡ None) × ((k : ℕ) → has magazine.tools k ≡ holds row.now.tools k)) (λ e. magazine_fault row.now ≡ Some e) }
    {
        let tools = NumberSet::from_bits(row.tools);
        let count = tools.count();
        if count > MOST_TOOLS {
            return Err(Refusal::FullMagazine { tools: count });
        }
        Ok(Magazine { tools })
    }

    /// Whether the magazine has every tool of a set.
    pub(crate) fn has_all(self, needed: NumberSet) -> bool
        ensures { result ≡ list_all (has self.tools) (members needed) }
    {
        needed.is_subset(self.tools)
    }
}
