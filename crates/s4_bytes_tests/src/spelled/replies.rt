//! Bodies of replies, in hexadecimal digits, and the texts of these. They are taken from the format's
//! table and from worked examples.

/// By both versions.
pub const REPLIES: &str = "\
00|done;
010000000700000001|made 7.0.1;
0100000007000fffff|made 7.15.65535;
04010f00000000000001020f000000091f|entry 15 9 31 by 15 since 258;
04000ffffffffe1f|entry 15 4294967294 31 by admin;
04000fffffffff11|entry 15 everyone 17 by admin;
05000000000700000001|mounted 7.0.1 by admin;
05010100000000000000030000000900000002|mounted 9.0.2 by 1 since 3;
060000|names 0 end;
060104686f6d6500000007000000010101000000000000000301|names 1 more
name home 7.0.1 by 1 since 3;
0601017800000009000000020101000000000000000301|names 1 more
name x 9.0.2 by 1 since 3;
060203612d30000000090000000201010000000000000003017800000009000000020101000000000000000300|nam\
    es 2 end
name a-0 9.0.2 by 1 since 3
name x 9.0.2 by 1 since 3;
070000|audit 0 end;
0702000000000000000800000007000000000300010000000000000008000000070000000012010000|audit 2 end
record 8 7 0 3 range 1
record 8 7 0 18 wide 0;
0702ffffffffffffffff00000000ffffffff120100ffffffffffffffff00000007ffffffff12000101|audit 2 more
record 18446744073709551615 0 4294967295 18 wide 0
record 18446744073709551615 7 4294967295 18 range 1;
080101|denied read;
080102|denied write;
080104|denied delete;
080108|denied control;
080110|denied recover;
080120|denied admin;
0802|no-object;
0803|no-partition;
0804|future;
08050000000000000032|too-old 50;
0805ffffffffffffffff|too-old 18446744073709551615;
0806|flushed;
0807|too-long;
0808|acl-full;
0809|no-entry;
080a|exists;
080b|parts-full;
080c|named;
080d|names-spent;
080e00000040000000a4000000c8|over-budget 64 164 200;
080e00000000000000d0ffffffff|over-budget 0 208 4294967295;
080f|bad-range;
0810|no-memory";

/// Replies with data, by version 1.
pub const DATA: &str = "\
0201000000000000000006000568656c6c6f|data 68656c6c6f by 0 since 6;
0200000200ff|data 00ff by admin;
02000000|data empty by admin;
02010fffffffffffffffff0001ab|data ab by 15 since 18446744073709551615;
03000000|attr empty by admin;
0300000200ff|attr 00ff by admin;
03010fffffffffffffffff0001ab|attr ab by 15 since 18446744073709551615";

/// The same by version 2, in which its length has four bytes.
pub const DATA_TWO: &str = "\
02010000000000000000060000000568656c6c6f|data 68656c6c6f by 0 since 6;
02000000000200ff|data 00ff by admin;
020000000000|data empty by admin;
02010fffffffffffffffff00000001ab|data ab by 15 since 18446744073709551615;
030000000000|attr empty by admin;
03000000000200ff|attr 00ff by admin;
03010fffffffffffffffff00000001ab|attr ab by 15 since 18446744073709551615";

/// Bodies of no reply: none at all; no kind, and two that a session alone says; a byte left over, and one
/// too few; no grant, and no index of an entry; an entry without rights, and one with more than there
/// are; more lines than a page has, fewer than their number says, no flag, and more lines than an audit has;
/// lines of an audit with no code, twice, with no flag and with no reply's code; two that are no refusals, and
/// two that are no right.
pub const NO_REPLIES: &str = "\
;
09;
1001;
1101;
0000;
0100000007000000;
03020000;
03011000000000000000060000;
0400000000000900;
0400000000000920;
0641;
060100;
060002;
0721;
07010000000000000008000000070000000000000000;
07010000000000000008000000070000000015000000;
07010000000000000008000000070000000003020000;
07010000000000000008000000070000000003001000;
0800;
0811;
080103;
080140";

/// By version 2: the bytes that version 1 has for `00ff`, twice, a length of three bytes, and fewer bytes than
/// their number says.
pub const NO_REPLIES_TWO: &str = "\
0200000200ff;
0300000200ff;
0200000000;
02000000000200";
