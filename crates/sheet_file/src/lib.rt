//! The file with the shop's sheet.
#![tactic(auto)]

use std::fs::File;
use std::io;
use std::io::Read;

/// Of a longer file only so many bytes are read.
const MOST: u64 = 40_000;

/// The text of the sheet in the file cell.hex, its first 40,000 bytes; empty where there is no file.
pub fn sheet_text(rt: &HostRuntime) -> io::Result<Vec<u8>> {
    let mut text = Vec::new(rt.alloc());
    match File::open(rt, "cell.hex") {
        Ok(file) => {
            file.take(MOST).read_to_end(&mut text)?;
        }
        Err(e) if e.kind() == io::ErrorKind::NotFound => {}
        Err(e) => return Err(e),
    }
    Ok(text)
}
