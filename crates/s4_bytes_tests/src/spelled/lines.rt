//! Lines of scripts and of arrivals, and what they ask for, told with the names of all fields.

use s4_script::{ArrivalLine, parse_arrival};
use std::alloc::Global;
use std::test::Fail;

/// First lines of scripts: the windows that they open the drive with, and the version that the callers
/// of the other lines speak that say none.
pub const OPENINGS: &str = "\
window 0|Ok(Opening { window: 0, version: One });
window 18446744073709551615|Ok(Opening { window: 18446744073709551615, version: One });
window 5 wire 2|Ok(Opening { window: 5, version: Two });
window 18446744073709551615 wire 2|Ok(Opening { window: 18446744073709551615, version: Two })";

/// What such first lines are written as.
pub const OPENED: &str = "\
window 0|window 0;
window 18446744073709551615|window 18446744073709551615;
window 5 wire 2|window 5 wire 2;
window 18446744073709551615 wire 2|window 18446744073709551615 wire 2";

/// First lines that open nothing.
pub const NO_OPENINGS: &str = "\
;
window;
window -1;
window 18446744073709551616;
windows 5;
window 5 ;
window 5 wire;
window 5 wire 0;
window 5 wire 1;
window 5 wire 3;
window 5 wire 02;
window 5 wires 2;
window 5  wire 2;
window 5 wire 2 2";

/// First lines of arrivals: their callers say by themselves which version they speak.
pub const WINDOWS: &str = "\
window 5|Ok(5);
window 5 wire 2|Err(Bad)";

/// Lines after the first.
pub const LINES: &str = "\
used|Ok(Used);
cut 18446744073709551615|Ok(Cut(Moment { tick: 18446744073709551615 }));
sweep 18446744073709551615|Ok(Step(Sweep { n: 18446744073709551615 }));
5 7 create 15|Ok(Step(Request { moment: Moment { tick: 5 }, caller: Caller { who: Principal { \
    number: 7 }, client: 0, version: One }, request: Create { number: PurseNo { number: 15 } } \
    }));
5 7/2 create 15|Ok(Step(Request { moment: Moment { tick: 5 }, caller: Caller { who: Principal { \
    number: 7 }, client: 0, version: Two }, request: Create { number: PurseNo { number: 15 } } \
    }));
0 0 setbudget 7.15 4294967295|Ok(Step(Request { moment: Moment { tick: 0 }, caller: Caller { \
    who: Principal { number: 0 }, client: 0, version: One }, request: SetBudget { purse: Purse \
    { creator: Principal { number: 7 }, number: PurseNo { number: 15 } }, budget: 4294967295 } \
    }));
0 7 read 7.0.1 0 5|Ok(Step(Request { moment: Moment { tick: 0 }, caller: Caller { who: \
    Principal { number: 7 }, client: 0, version: One }, request: Read { object: ObjectId { \
    purse: Purse { creator: Principal { number: 7 }, number: PurseNo { number: 0 } }, serial: \
    Serial { number: 1 } }, offset: 0, length: 5, at: None } }));
0 7 setacl 7.0.1 everyone 17|Ok(Step(Request { moment: Moment { tick: 0 }, caller: Caller { \
    who: Principal { number: 7 }, client: 0, version: One }, request: SetAcl { object: \
    ObjectId { purse: Purse { creator: Principal { number: 7 }, number: PurseNo { number: 0 } \
    }, serial: Serial { number: 1 } }, user: User { number: 4294967295 }, rights: Rights { \
    number: 17 } } }));
0 7 acl-user 7.0.1 4294967294|Ok(Step(Request { moment: Moment { tick: 0 }, caller: Caller { \
    who: Principal { number: 7 }, client: 0, version: One }, request: GetAclByUser { object: \
    ObjectId { purse: Purse { creator: Principal { number: 7 }, number: PurseNo { number: 0 } \
    }, serial: Serial { number: 1 } }, user: User { number: 4294967294 }, at: None } }));
0 0 flush 5 6|Ok(Step(Request { moment: Moment { tick: 0 }, caller: Caller { who: Principal { \
    number: 0 }, client: 0, version: One }, request: Flush { from: Moment { tick: 5 }, to: \
    Moment { tick: 6 } } }));
0 0 flusho 7.0.1 5 6|Ok(Step(Request { moment: Moment { tick: 0 }, caller: Caller { who: \
    Principal { number: 0 }, client: 0, version: One }, request: FlushO { object: ObjectId { \
    purse: Purse { creator: Principal { number: 7 }, number: PurseNo { number: 0 } }, serial: \
    Serial { number: 1 } }, from: Moment { tick: 5 }, to: Moment { tick: 6 } } }))";

/// Lines behind a first one of version 2.
pub const LINES_TWO: &str = "\
5 7 create 15|Ok(Step(Request { moment: Moment { tick: 5 }, caller: Caller { who: Principal { \
    number: 7 }, client: 0, version: Two }, request: Create { number: PurseNo { number: 15 } } \
    }));
5 7/1 create 15|Ok(Step(Request { moment: Moment { tick: 5 }, caller: Caller { who: Principal { \
    number: 7 }, client: 0, version: One }, request: Create { number: PurseNo { number: 15 } } \
    }))";

/// Lines after the first that spell nothing.
pub const NO_LINES: &str = "\
0;
0 7;
0 7 ;
 0 7 create 0;
0  7 create 0;
0 7 create 0 ;
0 7 create 0\r;
18446744073709551616 7 create 0;
0 4294967295 create 0;
0 everyone create 0;
0 7/1 create 0;
0 7/3 create 0;
0 7/ create 0;
0 /2 create 0;
0 07/2 create 0;
0 7/02 create 0;
0 7/2/2 create 0;
0 7//2 create 0;
0 7/two create 0;
0 everyone/2 create 0;
0 4294967295/2 create 0;
0/2 7 create 0;
0 7 /2 create 0;
0 7 create 0/2;
0 7 plist 7/2;
0 7 Create 0;
0 7 create;
0 7 create 0 0;
0 7 create 00;
0 7 create +1;
0 7 create 16;
0 7 delete;
0 7 delete 7.0;
0 7 delete 7.0.0;
0 7 delete 7.0.65536;
0 7 delete 7.16.1;
0 7 delete 4294967295.0.1;
0 7 delete 7.0.1.1;
0 7 delete 7.0.1 at 0;
0 7 read 7.0.1 0;
0 7 read 7.0.1 0 4294967296;
0 7 read 7.0.1 4294967296 1;
0 7 read 7.0.1 0 1 0;
0 7 read 7.0.1 0 1 at;
0 7 read 7.0.1 0 1 At 0;
0 7 read 7.0.1 0 1 at 18446744073709551616;
0 7 read 7.0.1 0 1 at 0 0;
0 7 read 7.0.1 0 at 0;
0 7 write 7.0.1 0;
0 7 write 7.0.1 0 ;
0 7 write 7.0.1 0 abc;
0 7 write 7.0.1 0 EMPTY;
0 7 write 7.0.1 0 61 at 0;
0 7 append 7.0.1;
0 7 append 7.0.1 6g;
0 7 append 7.0.1 0 61;
0 7 truncate 7.0.1;
0 7 truncate 7.0.1 4294967296;
0 7 truncate 7.0.1 1 at 0;
0 7 getattr;
0 7 getattr 7.0.1 0;
0 7 getattr 7.0.1 at;
0 7 getattr 7.0.1 at -1;
0 7 setattr 7.0.1;
0 7 setattr 7.0.1 6;
0 7 setattr 7.0.1 61 at 0;
0 7 acl-user 7.0.1;
0 7 acl-user 7.0.1 4294967295;
0 7 acl-user 7.0.1 Everyone;
0 7 acl-user 7.0.1 9 at;
0 7 acl-index 7.0.1;
0 7 acl-index 7.0.1 256;
0 7 acl-index 7.0.1 0 0;
0 7 setacl 7.0.1 9;
0 7 setacl 7.0.1 9 32;
0 7 setacl 7.0.1 4294967295 1;
0 7 setacl everyone.0.1 9 1;
0 7 setacl 7.0.1 9 1 at 0;
0 7 pcreate home;
0 7 pcreate home 7.0;
0 7 pcreate 7.0.1 home;
0 7 pcreate  7.0.1;
0 7 pcreate Home 7.0.1;
0 7 pcreate my_home 7.0.1;
0 7 pcreate abcdefghijklmnopqrstuvwxyz-012345 7.0.1;
0 7 pcreate home 7.0.1 at 0;
0 7 pdelete 7.0;
0 7 pdelete 7.0 ;
0 7 pdelete 7.0.1 home;
0 7 pdelete 7.16 home;
0 7 pdelete home 7.0;
0 7 pdelete 7.0 home at 0;
0 7 plist;
0 7 plist 4294967295;
0 7 plist everyone;
0 7 plist 9 1 b;
0 7 plist 9 after 1;
0 7 plist 9 after b 1;
0 7 plist 9 after 16 b;
0 7 plist 9 after 1 B;
0 7 plist 9 at;
0 7 plist 9 at 3 after 1 b;
0 7 plist 9 after 1 b at;
0 7 plist 9 after 1 b at 3 0;
0 7 pmount 7.0;
0 7 pmount 7 home;
0 7 pmount 7.0 home at;
0 7 pmount 7.0 home 0;
0 7 pmount 7.0 HOME;
0 0 flush;
0 0 flush 1;
0 0 flush -1 1;
0 0 flush 1 18446744073709551616;
0 0 flush 1 2 3;
0 0 flush 7.0.1 1 2;
0 0 flush 1 at 2;
0 0 flusho 7.0.1 1;
0 0 flusho 7.0 1 2;
0 0 flusho 7.0.0 1 2;
0 0 flusho 1 2 7.0.1;
0 0 flusho 7.0.1 1 2 3;
0 0 setwindow;
0 0 setwindow -1;
0 0 setwindow 18446744073709551616;
0 0 setwindow 7.0 1;
0 0 setwindow 1 at 0;
0 0 setbudget;
0 0 setbudget 7.0;
0 0 setbudget 7.0.1 1;
0 0 setbudget 7.16 1;
0 0 setbudget 4294967295.0 1;
0 0 setbudget everyone.0 1;
0 0 setbudget 7.0 -1;
0 0 setbudget 7.0 4294967296;
0 0 setbudget 1 7.0;
0 0 setbudget 7.0 1 at 0;
0 7 audit;
0 7 audit 9;
0 7 audit 4294967295 0;
0 7 audit everyone 0;
0 7 audit 9.0 0;
0 7 audit 9 -1;
0 7 audit 9 4294967296;
0 7 audit 9 0 at 0;
sweep;
sweep -1;
sweep 18446744073709551616;
sweep 1 1;
0 sweep 1;
0 0 sweep 1;
used 1;
cut;
cut -1;
cut 18446744073709551616;
cut 1 1;
cut at 1;
0 0 cut 1;
0 used;
0 0 used";

/// Lines behind a first one of version 2 that spell nothing.
pub const NO_LINES_TWO: &str = "\
0 7/2 create 0;
0 7/3 create 0;
0 7/ create 0;
0 /1 create 0;
0 07/1 create 0;
0 7/01 create 0;
0 7/1/1 create 0";

/// A sweep among arrivals.
pub const ARRIVALS: &str = "\
sweep 18446744073709551615|Ok(Sweep { n: 18446744073709551615 })";

/// Lines of arrivals that spell nothing.
pub const NO_ARRIVALS: &str = "\
;
5;
5 1;
5 1 ;
 5 1 00;
5  1 00;
5 1 00 ;
5 1 00\r;
5 1 00 00;
05 1 00;
+5 1 00;
18446744073709551616 1 00;
5 01 00;
5 4294967296 00;
5 -1 00;
5 1/1 00;
5 1/2 00;
5/2 1 00;
5 7/2 create 0;
5 1 0;
5 1 0g;
5 1 Empty;
sweep;
sweep 18446744073709551616;
5 sweep 1;
window 1";

/// Lines of arrivals, and the moment, the connection and the bytes that they tell.
const PIECES: [(&str, u64, u32, &[u8]); 2] = [
    (
        "18446744073709551615 4294967295 0A00fF",
        18446744073709551615,
        4294967295,
        &[10, 0, 255],
    ),
    ("5 0 empty", 5, 0, &[]),
];

/// That a line of arrivals tells of these bytes.
fn is_piece(
    alloc: Global,
    line: &str,
    tick: u64,
    connection: u32,
    bytes: &[u8],
) -> Result<bool, Fail> {
    match parse_arrival(alloc, line.as_bytes())? {
        ArrivalLine::Arrive {
            moment,
            conn,
            piece,
        } => Ok(moment.tick() == tick && conn == connection && piece.as_slice() == bytes),
        ArrivalLine::Sweep { .. } => Ok(false),
    }
}

#[test]
fn arrivals_tell_of_these_bytes(rt: HostRuntime) -> Result<(), Fail> {
    for (line, tick, connection, bytes) in &PIECES {
        let is_so = is_piece(rt.alloc(), line, *tick, *connection, bytes)?;
        assert!(rt; is_so, "{line}");
    }
    Ok(())
}
