//! Lists of lines, and their runs through a fresh console.
use crate::shop::THREE_MILLS;
use crate::tell;
use crate::tell::MARKER;
use console::{Exchange, answer_lines};
use sheet::SheetSource;
use std::alloc::{AllocError, Global};
use std::io;
use wire::AREA;

/// A list of lines, each with a marked area that just serves.
#[derive(Drop)]
pub struct Lines {
    exchanges: Vec<Exchange>,
}

impl Lines {
    /// No line.
    pub fn new(heap: Global) -> Lines {
        Lines {
            exchanges: Vec::new(heap),
        }
    }

    /// A list of these lines.
    pub fn of(heap: Global, lines: &[&str]) -> Result<Lines, AllocError> {
        let mut list = Lines::new(heap);
        list.push_all(lines)?;
        Ok(list)
    }

    /// Where the lines are kept.
    pub fn heap(&self) -> Global {
        *self.exchanges.allocator()
    }

    /// How many lines there are.
    pub fn count(&self) -> usize {
        self.exchanges.len()
    }

    /// Adds a line.
    pub fn push(&mut self, line: &str) -> Result<(), AllocError> {
        let heap = self.heap();
        let area = vec![in heap; MARKER; AREA]?;
        let line = line.as_bytes().to_vec(heap)?;
        self.exchanges.push(Exchange::new(line, area))?;
        Ok(())
    }

    /// Adds lines.
    pub fn push_all(&mut self, lines: &[&str]) -> Result<(), AllocError> {
        for line in lines {
            self.push(line)?;
        }
        Ok(())
    }

    /// Runs the lines through a fresh console over a sheet. The first so many are told together, the others one by one.
    pub fn run(
        mut self,
        rt: &HostRuntime,
        title: &str,
        sheet: &str,
        together: usize,
    ) -> io::Result<()> {
        println!(rt; "{title}")?;
        answer_lines(
            SheetSource::new(sheet.as_bytes()),
            self.exchanges.as_mut_slice(),
        );
        match self.exchanges.as_slice().split_at_checked(together) {
            Some((front, rest)) => {
                tell::together(rt, front)?;
                tell::one_by_one(rt, rest)
            }
            None => println!(rt; "  FEWER LINES THAN ARE TO BE TOLD TOGETHER"),
        }
    }
}

/// Runs lines through a fresh console over the sheet of three mills, and tells each.
pub fn play(rt: &HostRuntime, title: &str, lines: &[&str]) -> io::Result<()> {
    Lines::of(rt.alloc(), lines)?.run(rt, title, THREE_MILLS, 0)
}
