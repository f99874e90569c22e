//! The tool source: answers for a shop's abilities from its tables.
ghost use Rattle.std.specs.Prelude.{◌≡◌, IfOk};
ghost use Rattle.tools.specs.Tools.{tool_meaning};
ghost use Rattle.tools.specs.ToolSources.{source_meaning};
ghost use Rattle.tools.specs.Laws.{source_lawful};

use super::{MillRow, ProgramRow, ToolSource, checked_mills};
use capability::Source;
use std::alloc::{AllocError, Global};
use vocabulary::{Mill, Program};

impl ToolSource {
    /// The source over a mill table and a program table, of which it keeps copies: only memory may not suffice.
    /// `check_mills` tells what is wrong with a mill table.
    pub fn new(
        heap: Global,
        mills: &[MillRow],
        programs: &[ProgramRow],
    ) -> Result<ToolSource, AllocError>
        ensures { IfOk result (λ source. source_meaning source ≡ tool_meaning mills.now programs.now) }
    {
        Ok(ToolSource {
            mills: checked_mills(heap, mills)?,
            programs: Vec::from_slice(heap, programs)?,
        })
    }
}

impl Source for ToolSource {
    ghost meaning = { source_meaning };

    ghost lawful = { source_lawful };

    fn mills(&self) -> u8 {
        self.mills.len() as u8
    }

    fn able(&self, program: Program, mill: Mill) -> bool {
        let row = self.programs.get(usize::from(program.0));
        let candidate = self.mills.get(usize::from(mill.0));
        candidate
            .zip(row)
            .is_some_and(|(mill, row)| mill.can_cut(*row))
    }
}
