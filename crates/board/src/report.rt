//! What a board reports.
ghost use Rattle.std.specs.Prelude.{◌++◌, Some, codes};
ghost use Rattle.std.specs.Fmt.{decimal};

use std::fmt;

/// The load of a board as a whole.
#[derive(Clone, Copy, Default, PartialEq, Eq, Debug)]
pub struct Report {
    /// The greatest number of tickets on one mill; 0 where no ticket stands.
    pub highest_load: u16,
    /// How many mills have a ticket.
    pub busy_mills: u8,
    /// The sum of the mills' costs, where a mill of load L costs L × (L + 1) / 2.
    pub flow_time: u32,
}

impl fmt::Display for Report {
    ghost output = { λ report. Some (codes "highest load " ++ decimal report.highest_load ++ codes ", " ++ decimal report.busy_mills ++ codes " busy mills, flow time " ++ decimal report.flow_time) };

    fn fmt<W: fmt::Write>(&self, f: &mut fmt::Formatter<W>) -> fmt::Result {
        let highest = self.highest_load;
        let busy = self.busy_mills;
        let flow = self.flow_time;
        write!(
            f,
            "highest load {highest}, {busy} busy mills, flow time {flow}"
        )
    }
}
