//! Transcripts that are migrated.

use super::EMPTY;
use vale_cases::FIRST_TEXT;

/// The transcript of the first run in version 1.
pub(super) const OLD_TEXT: &[u8] =
    b"vale 1 pool 8192\n1 enter 1\n2 enter 2\n3 1 open vale0:a 4 4 0 = ok\n4 2 open vale0:b 4 4 0 = ok\n5 1 send 3 ffffffffffff02000000000a88b511111111111111111111111111111111111111111111111111111111111111111111111111111111111111111111 = short 0 lone 0 to 4*1\n6 1 grant 5 4 = given 1 full 0 gone 0\n7 1 done 6\n8 2 sync 4 - = gave 1 to -\n9 1 shut 3\n10 1 finish 3 2,3,4,5 found 0 astray 0 = unread 0\n11 1 leave\n12 2 shut 4\n13 2 finish 4 10,11,12,13,14 found 0 astray 0 = unread 0\n14 2 leave\nend 14 free 8192\n";

/// A text, the status with which its migration ends, the line that says so, and what is written.
pub(super) type Migration = (&'static [u8], u8, &'static [u8], &'static [u8]);

pub(super) const MIGRATIONS: &[Migration] = &[
    (OLD_TEXT, 0, EMPTY, FIRST_TEXT),
    (FIRST_TEXT, 0, EMPTY, FIRST_TEXT),
    (b"vale 3 pool 8\n", 9, b"vale: s: line 1\n", EMPTY),
    (
        b"vale 1 pool 8\nend 0 free 8\n",
        0,
        EMPTY,
        b"vale 2 pool 8\nend 0 free 8\n",
    ),
    (
        b"vale 1 pool 8\n1 1 sync 2 2-3 = gave 0 to -\nend 1 free 0\n",
        9,
        b"vale: s: line 2\n",
        EMPTY,
    ),
    (
        b"vale 2 pool 8\n1 1 sync 2 2,3 = gave 0 to -\nend 1 free 0\n",
        9,
        b"vale: s: line 2\n",
        EMPTY,
    ),
    (
        b"vale 2 pool 8\n1 1 sync 2 2-4294967295 = gave 0 to -\nend 1 free 0\n",
        8,
        b"vale: no memory\n",
        EMPTY,
    ),
    (EMPTY, 9, b"vale: s: line 1\n", EMPTY),
];
