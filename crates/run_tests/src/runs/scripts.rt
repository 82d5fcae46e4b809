//! Scripts, what they write, and how their runs end.

/// A script, the line that tells how it ends, and what it writes.
pub(super) type Case = (&'static [u8], &'static [u8], &'static [u8]);

pub(super) const EMPTY: &[u8] = b"";

pub(super) const EMPTY_TEXT: &[u8] = b"vale 2 pool 8192\nend 0 free 8192\n";

pub(super) const FIRST_COUNT: &[u8] = b"vale: script line 1: count\n";

pub(super) const FOURTH_PORT: &[u8] = b"vale: script line 4: port\n";

pub(super) const LONG_SCRIPT_LINE: &[u8] = b"vale: script 1048577 over 1048576\n";

pub(super) const MANY_LINES_LINE: &[u8] = b"vale: lines 10001 over 10000\n";

/// What a switch learns; a ring that fills; openings that are refused: the folder `examples` has the
/// same.
pub(super) const EXAMPLES: &[Case] = &[
    (EMPTY, EMPTY, EMPTY_TEXT),
    (
        b"pool 262144\n",
        EMPTY,
        b"vale 2 pool 262144\nend 0 free 262144\n",
    ),
    // Two stations, and what the switch learns.
    (
        b"pool 64\nuser ana\nuser bob\nuser cem\nopen ana vale0:a 4 4\nopen bob vale0:b 4 4\nopen cem vale0:c 4 4\nput ana vale0:a 1 ff:ff:ff:ff:ff:ff 02:00:00:00:00:0a 14 00\ntx ana vale0:a\nput bob vale0:b 1 02:00:00:00:00:0a 02:00:00:00:00:0b 14 00\ntx bob vale0:b\nrx ana vale0:a\nrx cem vale0:c\n",
        EMPTY,
        b"vale 2 pool 64\n1 enter 1\n2 enter 2\n3 enter 3\n4 1 open vale0:a 4 4 0 = ok\n5 2 open vale0:b 4 4 0 = ok\n6 3 open vale0:c 4 4 0 = ok\n7 1 send 4 ffffffffffff02000000000a88b5 = short 0 lone 0 to 5*1,6*1\n8 1 grant 7 5 = given 1 full 0 gone 0\n9 1 done 8\n10 1 grant 7 6 = given 1 full 0 gone 0\n11 1 done 10\n12 2 send 5 02000000000a02000000000b88b5 = short 0 lone 0 to 4*1\n13 2 grant 12 4 = given 1 full 0 gone 0\n14 2 done 13\n15 1 sync 4 - = gave 1 to -\n16 3 sync 6 - = gave 1 to -\n17 1 shut 4\n18 1 finish 4 2-6 found 0 astray 0 = unread 0\n19 1 leave\n20 2 shut 5\n21 2 finish 5 10-13 found 0 astray 0 = unread 1\n22 2 leave\n23 3 shut 6\n24 3 finish 6 18-22 found 0 astray 0 = unread 0\n25 3 leave\nend 25 free 64\n",
    ),
    // A ring that fills, and what it counts.
    (
        b"pool 64\nuser ana\nuser bob\nopen ana vale0:a 4 4\nopen bob vale0:b 2 2\nput ana vale0:a 3 ff:ff:ff:ff:ff:ff 02:00:00:00:00:0a 14 00\ntx ana vale0:a\nrx bob vale0:b\nrx bob vale0:b\nstat bob vale0:b\nclose bob vale0:b\n",
        EMPTY,
        b"vale 2 pool 64\n1 enter 1\n2 enter 2\n3 1 open vale0:a 4 4 0 = ok\n4 2 open vale0:b 2 2 0 = ok\n5 1 send 3 ffffffffffff02000000000a88b5,ffffffffffff02000000000a88b5,ffffffffffff02000000000a88b5 = short 0 lone 0 to 4*3\n6 1 grant 5 4 = given 1 full 2 gone 0\n7 1 done 6\n8 2 sync 4 - = gave 1 to -\n9 2 sync 4 12 = gave 0 to -\n10 2 stat 4 = sent 0 short 0 lone 0 given 1 full 2 read 1\n11 2 shut 4\n12 2 finish 4 10-11 found 0 astray 0 = unread 0\n13 1 shut 3\n14 1 finish 3 2-5 found 0 astray 0 = unread 0\n15 1 leave\n16 2 leave\nend 16 free 64\n",
    ),
    // Openings that are refused.
    (
        b"pool 10\nuser ana\nopen ana vale0:a 4 4\nopen ana vale0:b 2 2\nopen ana vale0:c 1 2\nput ana vale0:b 1 ff:ff:ff:ff:ff:ff 02:00:00:00:00:0b 14 00\ntx ana vale0:b\nclose ana vale0:b\nclose ana vale0:a\nopen ana vale0:b 2 2\n",
        EMPTY,
        b"vale 2 pool 10\n1 enter 1\n2 1 open vale0:a 4 4 0 = ok\n3 1 open vale0:b 2 2 0 = nobuffers 4 2\n4 1 open vale0:c 1 2 0 = badsize\n5 1 shut 2\n6 1 finish 2 2-5 found 0 astray 0 = unread 0\n7 1 open vale0:b 2 2 0 = ok\n8 1 shut 7\n9 1 finish 7 2-3 found 0 astray 0 = unread 0\n10 1 leave\nend 10 free 10\n",
    ),
];

/// Scripts, and lines that stand in what each writes.
pub(super) const LINES: &[(&[u8], &[u8])] = &[
    // A short frame before another.
    (
        b"pool 64\nuser a\nuser b\nopen a vale0:a 4 4\nopen b vale0:b 4 4\nput a vale0:a 1 ff:ff:ff:ff:ff:ff 02:00:00:00:00:0a 13 00\nput a vale0:a 1 ff:ff:ff:ff:ff:ff 02:00:00:00:00:0a 14 00\ntx a vale0:a\n",
        b"5 1 send 3 ffffffffffff02000000000a88,ffffffffffff02000000000a88b5 = short 1 lone 0 to 4*1\n",
    ),
    // A group as a source is not learned.
    (
        b"pool 64\nuser a\nuser b\nuser c\nopen a vale0:a 4 4\nopen b vale0:b 4 4\nopen c vale0:c 4 4\nput a vale0:a 1 ff:ff:ff:ff:ff:ff 03:00:00:00:00:0a 14 00\ntx a vale0:a\nput b vale0:b 1 02:00:00:00:00:0a 02:00:00:00:00:0b 14 00\ntx b vale0:b\n",
        b"12 2 send 5 02000000000a02000000000b88b5 = short 0 lone 0 to 4*1,6*1\n",
    ),
    // Two stations in one bucket: the newer one hides the older.
    (
        b"pool 64\nuser a\nuser b\nuser c\nopen a vale0:a 4 4\nopen b vale0:b 4 4\nopen c vale0:c 4 4\nput a vale0:a 1 ff:ff:ff:ff:ff:ff 02:00:00:00:00:01 14 00\ntx a vale0:a\nput b vale0:b 1 ff:ff:ff:ff:ff:ff 02:00:00:01:00:00 14 00\ntx b vale0:b\nput c vale0:c 1 02:00:00:00:00:01 02:00:00:00:00:0c 14 00\ntx c vale0:c\nput c vale0:c 1 02:00:00:01:00:00 02:00:00:00:00:0c 14 00\ntx c vale0:c\n",
        b"22 3 send 6 02000001000002000000000c88b5 = short 0 lone 0 to 5*1\n",
    ),
    // A frame to its own sender.
    (
        b"pool 64\nuser a\nuser b\nopen a vale0:a 4 4\nopen b vale0:b 4 4\nput a vale0:a 1 ff:ff:ff:ff:ff:ff 02:00:00:00:00:0a 14 00\ntx a vale0:a\nput a vale0:a 1 02:00:00:00:00:0a 02:00:00:00:00:0a 14 00\ntx a vale0:a\n",
        b"8 1 send 3 02000000000a02000000000a88b5 = short 0 lone 1 to -\n",
    ),
    // More frames than a ring takes.
    (
        b"pool 64\nuser a\nopen a vale0:a 2 4\nput a vale0:a 3 ff:ff:ff:ff:ff:ff 02:00:00:00:00:0a 14 00\n",
        b"2 1 open vale0:a 2 4 0 = ok\n3 1 send 2 ffffffffffff02000000000a88b5 = short 0 lone 1 to -\n4 1 send 2 ffffffffffff02000000000a88b5 = short 0 lone 1 to -\n5 1 shut 2\n",
    ),
    // A name that is taken, and the lines of the port that is refused.
    (
        b"pool 64\nuser a\nuser b\nopen a vale0:a 4 4\nopen b vale0:a 4 4\nput b vale0:a 1 ff:ff:ff:ff:ff:ff 02:00:00:00:00:0b 14 00\ntx b vale0:a\nrx b vale0:a\nclose b vale0:a\n",
        b"4 2 open vale0:a 4 4 0 = nametaken\n5 1 shut 3\n6 1 finish 3 2-5 found 0 astray 0 = unread 0\n7 1 leave\n8 2 leave\nend 8 free 64\n",
    ),
    // More switches than there may be.
    (
        b"user a\nopen a vale0:a 2 2\nopen a vale1:a 2 2\nopen a vale2:a 2 2\nopen a vale3:a 2 2\nopen a vale4:a 2 2\n",
        b"5 1 open vale3:a 2 2 0 = ok\n6 1 open vale4:a 2 2 0 = switchesfull\n",
    ),
    // A frame that is forwarded without a copy.
    (
        b"pool 64\nuser a\nuser b\nopen a vale0:a 4 4\nopen b vale0:b 4 4\nput a vale0:a 1 ff:ff:ff:ff:ff:ff 02:00:00:00:00:0a 14 00\ntx a vale0:a\nrx b vale0:b\nswap b vale0:b rx 0 vale0:b tx 0\npoke b vale0:b tx 0 len 14\nmove b vale0:b tx 1 1\ntx b vale0:b\nrx b vale0:b\n",
        b"8 2 sync 4 - = gave 1 to -\n9 2 send 4 ffffffffffff02000000000a88b5 = short 0 lone 0 to 3*1\n10 2 grant 9 3 = given 1 full 0 gone 0\n11 2 done 10\n12 2 sync 4 10 = gave 0 to -\n",
    ),
    // Extra buffers, one of which is linked away.
    (
        b"pool 64\nuser a\nopen a vale0:a 2 2 3\nextra a vale0:a 2 1\n",
        b"3 1 shut 2\n4 1 finish 2 2-3,6-8 found 2 astray 1 = unread 0\n5 1 leave\nend 5 free 64\n",
    ),
    // Rings whose positions do not fit.
    (
        b"user a\nopen a vale0:a 4 4\nmove a vale0:a rx 1 1\nrx a vale0:a keep\nmove a vale0:a tx 2 1\ntx a vale0:a\nmove a vale0:a tx 4 4\ntx a vale0:a\ntx a vale0:a\n",
        b"3 1 reset 2 rx headout 1 0 0\n4 1 reset 2 tx curout 1 2 3\n5 1 reset 2 tx headout 4 0 3\n6 1 send 2 - = short 0 lone 0 to -\n",
    ),
    // Users side by side, whose entries come in any order.
    (
        b"user a\nuser b\nopen a vale0:a 4 4\nopen b vale0:b 4 4\npar\nput a vale0:a 3 ff:ff:ff:ff:ff:ff 02:00:00:00:00:0a 60 11\ntx a vale0:a\nput b vale0:b 2 ff:ff:ff:ff:ff:ff 02:00:00:00:00:0b 60 22\ntx b vale0:b\nend\nrx a vale0:a\nrx b vale0:b\n",
        b"end 18 free 8192\n",
    ),
    // A frame marked no-learn: its source is not learned.
    (
        b"pool 64\nuser a\nuser b\nuser c\nopen a vale0:a 4 4\nopen b vale0:b 4 4\nopen c vale0:c 4 4\nput a vale0:a 1 ff:ff:ff:ff:ff:ff 02:00:00:00:00:0a 14 00\npoke a vale0:a tx 0 flags 8\ntx a vale0:a\nput b vale0:b 1 02:00:00:00:00:0a 02:00:00:00:00:0b 14 00\ntx b vale0:b\n",
        b"7 1 send 4 ~ffffffffffff02000000000a88b5 = short 0 lone 0 to 5*1,6*1\n8 1 grant 7 5 = given 1 full 0 gone 0\n9 1 done 8\n10 1 grant 7 6 = given 1 full 0 gone 0\n11 1 done 10\n12 2 send 5 02000000000a02000000000b88b5 = short 0 lone 0 to 4*1,6*1\n",
    ),
    // A ring of 4,096 slots that goes round; one frame to nobody, and none.
    (
        b"user a\nopen a vale0:a 4096 4\nput a vale0:a 4095 ff:ff:ff:ff:ff:ff 02:00:00:00:00:0a 0 00\ntx a vale0:a\nput a vale0:a 1 ff:ff:ff:ff:ff:ff 02:00:00:00:00:0a 14 00\ntx a vale0:a\ntx a vale0:a\n",
        b"4 1 send 2 ffffffffffff02000000000a88b5 = short 0 lone 1 to -\n5 1 send 2 - = short 0 lone 0 to -\n",
    ),
    // Each fault of a pushed slot, and a frame behind them.
    (
        b"pool 64\nuser ana\nopen ana vale0:a 4 4\nmove ana vale0:a tx 4 0\ntx ana vale0:a\nmove ana vale0:a tx 2 1\ntx ana vale0:a\nput ana vale0:a 1 ff:ff:ff:ff:ff:ff 02:00:00:00:00:0a 14 00\npoke ana vale0:a tx 0 flags 16\ntx ana vale0:a\nput ana vale0:a 1 ff:ff:ff:ff:ff:ff 02:00:00:00:00:0a 14 00\npoke ana vale0:a tx 0 idx 66\ntx ana vale0:a\nput ana vale0:a 1 ff:ff:ff:ff:ff:ff 02:00:00:00:00:0a 14 00\npoke ana vale0:a tx 0 idx 6\ntx ana vale0:a\nput ana vale0:a 2 ff:ff:ff:ff:ff:ff 02:00:00:00:00:0a 14 00\npoke ana vale0:a tx 1 idx 2\npoke ana vale0:a tx 1 flags 1\ntx ana vale0:a\nput ana vale0:a 1 ff:ff:ff:ff:ff:ff 02:00:00:00:00:0a 14 00\npoke ana vale0:a tx 0 idx 3\ntx ana vale0:a\nput ana vale0:a 1 ff:ff:ff:ff:ff:ff 02:00:00:00:00:0a 14 00\npoke ana vale0:a tx 0 len 2049\ntx ana vale0:a\nput ana vale0:a 1 ff:ff:ff:ff:ff:ff 02:00:00:00:00:0a 14 00\npoke ana vale0:a tx 0 flags 32\ntx ana vale0:a\nput ana vale0:a 1 ff:ff:ff:ff:ff:ff 02:00:00:00:00:0a 14 00\ntx ana vale0:a\n",
        b"3 1 reset 2 tx headout 4 0 3\n4 1 reset 2 tx curout 1 2 3\n5 1 reset 2 tx indirect 0\n6 1 reset 2 tx indexout 0 66\n7 1 reset 2 tx notheld 0 6\n8 1 reset 2 tx doubled 1 2\n9 1 reset 2 tx unannounced 0 3 2\n10 1 reset 2 tx longlen 0 2049\n11 1 reset 2 tx fragment 0\n12 1 send 2 ffffffffffff02000000000a88b5 = short 0 lone 1 to -\n",
    ),
    // An exchange without marks.
    (
        b"pool 64\nuser a\nuser b\nopen a vale0:a 4 4\nopen b vale0:b 4 4\nput a vale0:a 1 ff:ff:ff:ff:ff:ff 02:00:00:00:00:0a 14 00\ntx a vale0:a\nrx b vale0:b\nswap b vale0:b rx 0 vale0:b tx 0 quiet\npoke b vale0:b tx 0 len 14\nmove b vale0:b tx 1 1\ntx b vale0:b\nrx b vale0:b\n",
        b"9 2 reset 4 tx unannounced 0 14 10\n10 2 reset 4 rx unannounced 0 10 14\n",
    ),
    // An extra buffer that is sent.
    (
        b"pool 64\nuser ana\nopen ana vale0:a 2 2 3\nextra ana vale0:a 0 2\npoke ana vale0:a tx 0 idx 6\npoke ana vale0:a tx 0 flags 1\nhex ana vale0:a ffffffffffff02000000000a88b5\ntx ana vale0:a\nclose ana vale0:a\n",
        b"3 1 send 2 ffffffffffff02000000000a88b5 = short 0 lone 1 to -\n4 1 shut 2\n5 1 finish 2 6,3,2,7-8 found 2 astray 1 = unread 0\n6 1 leave\n",
    ),
    // A chain that goes round.
    (
        b"pool 64\nuser a\nopen a vale0:a 2 2 3\nextra a vale0:a 2 2\nclose a vale0:a\n",
        b"3 1 shut 2\n4 1 finish 2 2-3,6-8 found 2 astray 1 = unread 0\n5 1 leave\n",
    ),
    // The largest number as a head.
    (
        b"user a\nopen a vale0:a 2 2\nmove a vale0:a tx 4294967295 0\ntx a vale0:a\n",
        b"3 1 reset 2 tx headout 4294967295 0 1\n",
    ),
    // Frames that are forwarded without a copy.
    (
        b"pool 64\nuser ana\nuser mid\nuser bob\nopen ana vale0:ana 4 4\nopen mid vale0:mid 4 4\nopen mid vale1:mid 4 4\nopen bob vale1:bob 4 4\nput ana vale0:ana 2 ff:ff:ff:ff:ff:ff 02:00:00:00:00:0a 14 00\ntx ana vale0:ana\nrx mid vale0:mid\nfwd mid vale0:mid vale1:mid 2\ntx mid vale1:mid\nrx mid vale0:mid\nrx bob vale1:bob\n",
        b"11 2 sync 5 - = gave 2 to -\n12 2 send 6 ffffffffffff02000000000a88b5,ffffffffffff02000000000a88b5 = short 0 lone 0 to 7*2\n13 2 grant 12 7 = given 2 full 0 gone 0\n14 2 done 13\n15 2 sync 5 18-19 = gave 0 to -\n16 3 sync 7 - = gave 2 to -\n17 1 shut 4\n18 1 finish 4 2-5 found 0 astray 0 = unread 0\n19 1 leave\n20 2 shut 5\n21 2 finish 5 10-13 found 0 astray 0 = unread 0\n22 2 shut 6\n23 2 finish 6 14-15,20-21 found 0 astray 0 = unread 0\n24 2 leave\n",
    ),
    // A pipe's other end that comes late.
    (
        b"pool 64\nuser a\nopen a pipe0{ 4 4\nput a pipe0{ 1 ff:ff:ff:ff:ff:ff 02:00:00:00:00:0a 14 00\ntx a pipe0{\nuser b\nopen b pipe0} 4 4\ntx a pipe0{\n",
        b"3 1 put 2 1 = peergone\n4 enter 2\n5 4 open pipe0} 4 4 0 = ok\n6 1 put 2 1 = took 2:ffffffffffff02000000000a88b5 to -\n",
    ),
    // A monitor of what a port receives.
    (
        b"pool 64\nuser a\nuser b\nuser m\nopen a vale0:a 4 4\nopen b vale0:b 4 4\nopen m mon0 0 2\nwatch m mon0 vale0:b r\nput a vale0:a 1 ff:ff:ff:ff:ff:ff 02:00:00:00:00:0a 14 00\ntx a vale0:a\nrx b vale0:b\nrx m mon0\n",
        b"7 3 watch 6 vale0:b r = ok 5\n8 1 send 4 ffffffffffff02000000000a88b5 = short 0 lone 0 to 5*1\n9 1 grant 8 5 = given 1 full 0 gone 0\n10 1 done 9\n11 2 sync 5 - = gave 1 to 6*1\n12 2 grant 11 6 = given 1 full 0 gone 0\n13 2 done 12\n14 3 sync 6 - = gave 1 to -\n",
    ),
    // Openings refused for sizes and for want of buffers, with extra ones.
    (
        b"pool 10\nuser a\nopen a vale0:a 4 4\nopen a vale0:b 2 2\nopen a vale0:c 1 2\nopen a vale0:d 2 2 3\nopen a vale0:e 2 2 1025\n",
        b"2 1 open vale0:a 4 4 0 = ok\n3 1 open vale0:b 2 2 0 = nobuffers 4 2\n4 1 open vale0:c 1 2 0 = badsize\n5 1 open vale0:d 2 2 3 = nobuffers 7 2\n6 1 open vale0:e 2 2 1025 = badsize\n",
    ),
    // The largest rings, and a larger one.
    (
        b"user a\nopen a vale0:a 4096 4096\nopen a vale0:b 4097 2\n",
        b"2 1 open vale0:a 4096 4096 0 = ok\n3 1 open vale0:b 4097 2 0 = badsize\n",
    ),
    // Two slots are one frame, whose first slot tells that its source is not learned.
    (
        b"pool 64\nuser a\nuser b\nopen a vale0:a 4 4\nopen b vale0:b 4 4\nput a vale0:a 2 ff:ff:ff:ff:ff:ff 02:00:00:00:00:0a 14 00\npoke a vale0:a tx 0 flags 40\ntx a vale0:a\n",
        b"5 1 send 3 ~ffffffffffff02000000000a88b5ffffffffffff02000000000a88b5 = short 0 lone 0 to 4*1\n",
    ),
    // What its other slot tells of that is passed over. It comes in one slot.
    (
        b"pool 64\nuser a\nuser b\nopen a vale0:a 4 4\nopen b vale0:b 4 4\nput a vale0:a 2 ff:ff:ff:ff:ff:ff 02:00:00:00:00:0a 14 00\npoke a vale0:a tx 0 flags 32\npoke a vale0:a tx 1 flags 8\ntx a vale0:a\nrx b vale0:b\nrx b vale0:b\n",
        b"5 1 send 3 ffffffffffff02000000000a88b5ffffffffffff02000000000a88b5 = short 0 lone 0 to 4*1\n6 1 grant 5 4 = given 1 full 0 gone 0\n7 1 done 6\n8 2 sync 4 - = gave 1 to -\n9 2 sync 4 14 = gave 0 to -\n",
    ),
    // The last slot that is pushed does not go on.
    (
        b"pool 64\nuser a\nuser b\nopen a vale0:a 4 4\nopen b vale0:b 4 4\nput a vale0:a 1 ff:ff:ff:ff:ff:ff 02:00:00:00:00:0a 14 00\npoke a vale0:a tx 0 flags 32\ntx a vale0:a\n",
        b"5 1 reset 3 tx fragment 0\n",
    ),
    // A frame of two short slots comes in one, which is forwarded with all its bytes.
    (
        b"pool 64\nuser a\nuser b\nopen a vale0:a 4 4\nopen b vale0:b 4 4\nopen b vale1:b 4 4\nput a vale0:a 2 ff:ff:ff:ff:ff:ff 02:00:00:00:00:0a 14 00\npoke a vale0:a tx 0 flags 32\ntx a vale0:a\nrx b vale0:b\nfwd b vale0:b vale1:b 1\ntx b vale1:b\n",
        b"9 2 sync 4 - = gave 1 to -\n10 2 send 5 ffffffffffff02000000000a88b5ffffffffffff02000000000a88b5 = short 0 lone 1 to -\n",
    ),
    // A frame of two slots is forwarded whole, and a pipe's end takes none.
    (
        b"pool 64\nuser a\nuser b\nopen a vale0:a 4 4\nopen b vale0:b 4 4\nopen b vale1:b 4 4\nopen b pipe0{ 4 4\nput a vale0:a 2 ff:ff:ff:ff:ff:ff 02:00:00:00:00:0a 2048 00\npoke a vale0:a tx 0 flags 32\ntx a vale0:a\nrx b vale0:b\nfwd b vale0:b pipe0{ 1\nfwd b vale0:b vale1:b 1\nrx b vale0:b\n",
        b"10 2 sync 4 - = gave 1 to -\n11 2 sync 4 18-19 = gave 0 to -\n",
    ),
];

/// A script that opens ports of one switch, which are named with three digits.
pub(super) struct Opening {
    /// The lines before and behind those that open the ports.
    pub(super) before: &'static [u8],
    pub(super) behind: &'static [u8],
    pub(super) ports: u8,
    /// How each line that opens one ends.
    pub(super) sizes: &'static [u8],
    /// Lines that stand in what the script writes, and how many grants give a frame.
    pub(super) lines: &'static [u8],
    pub(super) given: usize,
}

pub(super) const OPENINGS: &[Opening] = &[
    // The last port that a switch takes, and one more.
    Opening {
        before: b"user a\n",
        behind: EMPTY,
        ports: 255,
        sizes: b" 2 2\n",
        lines: b"255 1 open vale0:p253 2 2 0 = ok\n256 1 open vale0:p254 2 2 0 = portsfull\n",
        given: 0,
    },
    // A broadcast goes to all other ports of a switch that has its last one.
    Opening {
        before: b"user a\n",
        behind: b"put a vale0:p000 1 ff:ff:ff:ff:ff:ff 02:00:00:00:00:0a 14 00\ntx a vale0:p000\n",
        ports: 254,
        sizes: b" 2 2\n",
        lines: b",254*1,255*1\n257 1 grant 256 3 = given 1 full 0 gone 0\n258 1 done 257\n",
        given: 253,
    },
    // The largest pool is handed out.
    Opening {
        before: b"pool 262144\nuser a\n",
        behind: EMPTY,
        ports: 29,
        sizes: b" 4096 4096 1024\n",
        lines: b"29 1 open vale0:p027 4096 4096 1024 = ok\n30 1 open vale0:p028 4096 4096 1024 = nobuffers 9216 4096\n",
        given: 0,
    },
];

/// The end of a grant that gives a frame.
pub(super) const GIVEN: &[u8] = b" = given 1 full 0 gone 0\n";

/// Puts a frame in each of 65 slots.
pub(super) const SLOTS_PUT: &[u8] =
    b"pool 256\nuser a\nuser b\nopen a vale0:a 128 4\nopen b vale0:b 4 4\nput a vale0:a 65 ff:ff:ff:ff:ff:ff 02:00:00:00:00:0a 14 00\n";

/// What stands before and behind the bytes of the frame of the first 64 slots, and of the one behind it.
pub(super) const LONGEST_BEFORE: &[u8] = b"5 1 send 3 ";

pub(super) const LONGEST_BEHIND: &[u8] = b" = short 0 lone 0 to 4*2\n";

/// The bytes of each slot.
pub(super) const SLOT_BYTES: &[u8] = b"ffffffffffff02000000000a88b5";

/// The slot in which a frame must end.
pub(super) const LONGER_REFUSED: &[u8] = b"5 1 reset 3 tx fragment 63\n";

/// Scripts that are not accepted, and the lines that tell why.
pub(super) const BAD_SCRIPTS: &[Case] = &[
    // A user that is declared twice.
    (b"user a\nuser a\n", b"vale: script line 2: twice\n", EMPTY),
    // A pool behind another line.
    (b"user a\npool 9\n", b"vale: script line 2: order\n", EMPTY),
    // A pool of one buffer too many.
    (b"pool 262145\n", b"vale: script line 1: number\n", EMPTY),
    // A port that is not open.
    (
        b"user a\nclose a vale0:a\n",
        b"vale: script line 2: port\n",
        EMPTY,
    ),
    // A port that is another user's.
    (
        b"user a\nuser b\nopen a vale0:a 2 2\nrx b vale0:a\n",
        FOURTH_PORT,
        EMPTY,
    ),
    // A port that is closed twice.
    (
        b"user a\nopen a vale0:a 2 2\nclose a vale0:a\nclose a vale0:a\n",
        FOURTH_PORT,
        EMPTY,
    ),
    // A user declared inside a block.
    (
        b"user a\npar\nuser a\nend\n",
        b"vale: script line 3: order\n",
        EMPTY,
    ),
    // A word too many on a user's line, which names a monitor.
    (b"user a mon0\n", FIRST_COUNT, EMPTY),
    // The same of the pool.
    (b"pool 5 mon0\n", FIRST_COUNT, EMPTY),
    // One frame more than the lines may put.
    (
        b"user a\nopen a vale0:a 4 4\nput a vale0:a 1000000 ff:ff:ff:ff:ff:ff 02:00:00:00:00:0a 14 00\nput a vale0:a 1 ff:ff:ff:ff:ff:ff 02:00:00:00:00:0a 14 00\n",
        b"vale: counts 1000001 over 1000000\n",
        EMPTY,
    ),
];
