//! The tables of a small shop, and one that is at fault.
use tools::{Extent, MillRow, ProgramRow};

/// Three mills: with the tools 1 to 3, with tool 7 besides, and a long one with tool 1 alone.
pub const MILLS: [MillRow; 3] = [
    MillRow {
        tools: 0b0000_1110,
        travel: Extent {
            x: 400,
            y: 300,
            z: 200,
        },
    },
    MillRow {
        tools: 0b1000_1110,
        travel: Extent {
            x: 600,
            y: 400,
            z: 250,
        },
    },
    MillRow {
        tools: 0b0000_0010,
        travel: Extent {
            x: 1000,
            y: 800,
            z: 500,
        },
    },
];

/// Five programs: the first has a blank as large as the travel of mill 0, the second needs tool 7, and the others have a long blank, each on an axis of its own.
pub const PROGRAMS: [ProgramRow; 5] = [
    ProgramRow {
        tools: 0b0000_0110,
        blank: Extent {
            x: 400,
            y: 300,
            z: 200,
        },
    },
    ProgramRow {
        tools: 0b1000_0010,
        blank: Extent {
            x: 100,
            y: 100,
            z: 100,
        },
    },
    ProgramRow {
        tools: 0b0000_0010,
        blank: Extent {
            x: 601,
            y: 100,
            z: 100,
        },
    },
    ProgramRow {
        tools: 0b0000_0010,
        blank: Extent {
            x: 100,
            y: 401,
            z: 100,
        },
    },
    ProgramRow {
        tools: 0b0000_0010,
        blank: Extent {
            x: 100,
            y: 100,
            z: 251,
        },
    },
];

/// A mill table whose one magazine holds the 21 tools 0 to 20.
pub const CROWDED: [MillRow; 1] = [MillRow {
    tools: 0x001F_FFFF,
    travel: Extent {
        x: 400,
        y: 300,
        z: 200,
    },
}];
