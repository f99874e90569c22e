//! Short lists of lines to a console over the sheet of three mills.
use crate::run::play;
use std::io;

/// Mill 2 is away while three tickets come, and comes back; mill 0 cannot go.
const WORKED: &[&str] = &[
    "130102EA\n", // withdraw 2
    "1103000503E4\n", // add 5 of program 3
    "1103000602E4\n", // add 6 of program 2
    "1103000701E4\n", // add 7 of program 1
    "140102E9\n", // return 2
    "130100EC\n", // withdraw 0
    "1600EA\n", // report
];

/// The first command to the board ends the setting up.
const STAGES: &[&str] = &[
    "21020101DB\n", // strike 1 on 1
    "22020901D2\n", // 9 cut as 1
    "21020101DB\n", // strike 1 on 1
    "1600EA\n", // report
    "21020101DB\n", // strike 1 on 1
    "22020901D2\n", // 9 cut as 1
    "1600EA\n", // report
];

/// A refusal by the board comes from an open board.
const REFUSED_OPENING: &[&str] = &[
    "21020301D9\n", // strike 3 on 1
    "15020005E4\n", // where 5
    "21020301D9\n", // strike 3 on 1
    "22020901D2\n", // 9 cut as 1
];

/// So does the refusal of a ticket that there is not.
const REFUSED_CALL: &[&str] = &[
    "22020901D2\n", // 9 cut as 1
    "1103040009DF\n", // add 1024 of program 9
    "22020901D2\n", // 9 cut as 1
    "21020301D9\n", // strike 3 on 1
    "1103000509DE\n", // add 5 of program 9
];

/// Lines that are refused by the reader leave the board to be set up.
const NO_OPENING: &[&str] = &[
    "1600ea\n", // report in lower case
    "1601E9\n", // report with a wrong count
    "1600EB\n", // report with a wrong sum
    "160100E9\n", // report with a payload
    "1700E9\n", // an unknown kind
    "21020301D9\n", // strike 3 on 1
    "22020901D2\n", // 9 cut as 1
    "1103000503E4\n", // add 5 of program 3
];

/// Program 3 loses mill 1, and then has mill 2 alone.
const STRUCK: &[&str] = &[
    "21020301D9\n", // strike 3 on 1
    "1103000503E4\n", // add 5 of program 3
    "1103000603E3\n", // add 6 of program 3
    "130102EA\n", // withdraw 2
];

/// Program 9 is cut as program 1; the alias of an alias is not followed.
const ALIASED: &[&str] = &[
    "22020901D2\n", // 9 cut as 1
    "22020809CB\n", // 8 cut as 9
    "1103000509DE\n", // add 5 of program 9
    "1103000608DE\n", // add 6 of program 8
    "1103000701E4\n", // add 7 of program 1
];

/// Program 9 is struck by its own number; striking the program that it is cut as takes nothing from it.
const BOTH: &[&str] = &[
    "22020902D1\n", // 9 cut as 2
    "21020900D4\n", // strike 9 on 0
    "21020201DA\n", // strike 2 on 1
    "1103000509DE\n", // add 5 of program 9
    "1103000602E4\n", // add 6 of program 2
    "1103000709DC\n", // add 7 of program 9
    "15020005E4\n", // where 5
    "15020007E2\n", // where 7
];

/// The second alias counts.
const REPLACED: &[&str] = &[
    "22020901D2\n", // 9 cut as 1
    "22020903D0\n", // 9 cut as 3
    "1103000509DE\n", // add 5 of program 9
    "130101EB\n", // withdraw 1
    "130102EA\n", // withdraw 2
];

/// Ticket 6 makes way for a ticket that has no other mill; a mill that is left empty gets one of two tickets of another.
const MOVED: &[&str] = &[
    "130101EB\n", // withdraw 1
    "1103000602E4\n", // add 6 of program 2
    "140101EA\n", // return 1
    "1103000701E4\n", // add 7 of program 1
    "1103000802E2\n", // add 8 of program 2
    "1103000902E1\n", // add 9 of program 2
    "12020006E6\n", // done 6
    "12020009E3\n", // done 9
    "15020008E1\n", // where 8
    "12020007E5\n", // done 7
    "1600EA\n", // report
];

/// The last ticket that there is, the first that there is not, and the greatest number of two bytes.
const TICKETS: &[&str] = &[
    "110303FF03E7\n", // add 1023 of program 3
    "150203FFE7\n", // where 1023
    "110303FF03E7\n", // add 1023 of program 3
    "1103040003E5\n", // add 1024 of program 3
    "15020400E5\n", // where 1024
    "12020400E8\n", // done 1024
    "1103FFFF00EE\n", // add 65535 of program 0
    "1502FFFFEB\n", // where 65535
    "1202FFFFEE\n", // done 65535
    "1600EA\n", // report
    "120203FFEA\n", // done 1023
    "120203FFEA\n", // done 1023
    "150203FFE7\n", // where 1023
    "110300FF03EA\n", // add 255 of program 3
    "1103010003E8\n", // add 256 of program 3
    "15020100E8\n", // where 256
    "1600EA\n", // report
];

/// The first mill that there is not, and a mill that comes and goes twice.
const MILLS: &[&str] = &[
    "130103E9\n", // withdraw 3
    "1301FFED\n", // withdraw 255
    "140103E8\n", // return 3
    "140100EB\n", // return 0
    "130100EC\n", // withdraw 0
    "130100EC\n", // withdraw 0
    "1103000501E6\n", // add 5 of program 1
    "1103000600E6\n", // add 6 of program 0
    "140100EB\n", // return 0
    "140100EB\n", // return 0
    "1600EA\n", // report
];

/// The lists with their titles.
const CASES: &[(&str, &[&str])] = &[
    ("the worked example", WORKED),
    (
        "strikes and aliases before the board is open, and after",
        STAGES,
    ),
    ("a refused question opens the board", REFUSED_OPENING),
    ("a refused call opens the board", REFUSED_CALL),
    ("a refused line does not open the board", NO_OPENING),
    ("a struck pair", STRUCK),
    ("an alias", ALIASED),
    ("strikes over aliases", BOTH),
    ("a second alias of a program", REPLACED),
    ("tickets moved by adding and finishing", MOVED),
    ("ticket numbers", TICKETS),
    (
        "mills that are not there, and service that does not change",
        MILLS,
    ),
];

/// Runs each list through a console of its own.
pub fn scripts(rt: &HostRuntime) -> io::Result<()> {
    for (title, lines) in CASES {
        play(rt, title, lines)?;
    }
    Ok(())
}
