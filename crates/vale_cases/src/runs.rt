/// A script, and the transcript of its run with ample memory.
#[derive(Clone, Copy, Debug)]
pub struct Run {
    pub name: &'static str,
    pub script: &'static [u8],
    pub text: &'static [u8],
}

/// The transcript of the first run, of which a broadcast is read.
pub const FIRST_TEXT: &[u8] = b"vale 2 pool 8192\n1 enter 1\n2 enter 2\n\
    3 1 open vale0:a 4 4 0 = ok\n4 2 open vale0:b 4 4 0 = ok\n\
    5 1 send 3 ffffffffffff02000000000a88b5\
    1111111111111111111111111111111111111111111111\
    1111111111111111111111111111111111111111111111 = short 0 lone 0 to 4*1\n\
    6 1 grant 5 4 = given 1 full 0 gone 0\n7 1 done 6\n8 2 sync 4 - = gave 1 to -\n\
    9 1 shut 3\n10 1 finish 3 2-5 found 0 astray 0 = unread 0\n11 1 leave\n\
    12 2 shut 4\n13 2 finish 4 10-14 found 0 astray 0 = unread 0\n14 2 leave\n\
    end 14 free 8192\n";

/// Runs that are tried with memory, a shelf or a sink that fails at one call after another.
pub const RUNS: [Run; 4] = [
    Run {
        name: "a broadcast is read",
        script: b"user a\nuser b\nopen a vale0:a 4 4\nopen b vale0:b 4 4\n\
            put a vale0:a 1 ff:ff:ff:ff:ff:ff 02:00:00:00:00:0a 60 11\ntx a vale0:a\nrx b vale0:b\n",
        text: FIRST_TEXT,
    },
    Run {
        name: "a pipe takes frames in part",
        script: b"pool 64\nuser a\nuser b\nopen a pipe0{ 4 4\nopen b pipe0} 2 2\n\
            put a pipe0{ 2 ff:ff:ff:ff:ff:ff 02:00:00:00:00:0a 14 00\ntx a pipe0{\n\
            rx b pipe0}\ntx a pipe0{\nrx b pipe0}\ntx a pipe0{\n",
        text: b"vale 2 pool 64\n1 enter 1\n2 enter 2\n\
            3 1 open pipe0{ 4 4 0 = ok\n4 2 open pipe0} 2 2 0 = ok\n\
            5 1 put 3 2 = took 2:ffffffffffff02000000000a88b5 to -\n6 2 get 4 - = gave 1 to -\n\
            7 1 put 3 1 = took - to -\n8 2 get 4 2 = gave 0 to -\n\
            9 1 put 3 1 = took 3:ffffffffffff02000000000a88b5 to -\n\
            10 1 shut 3\n11 1 finish 3 12-13,4-5 found 0 astray 0 = unread 0\n12 1 leave\n\
            13 2 shut 4\n14 2 finish 4 10-11 found 0 astray 0 = unread 1\n15 2 leave\n\
            end 15 free 64\n",
    },
    Run {
        name: "a pipe's other end comes late",
        script: b"pool 64\nuser a\nopen a pipe0{ 4 4\n\
            put a pipe0{ 1 ff:ff:ff:ff:ff:ff 02:00:00:00:00:0a 14 00\ntx a pipe0{\n\
            user b\nopen b pipe0} 4 4\ntx a pipe0{\n",
        text: b"vale 2 pool 64\n1 enter 1\n2 1 open pipe0{ 4 4 0 = ok\n3 1 put 2 1 = peergone\n\
            4 enter 2\n5 4 open pipe0} 4 4 0 = ok\n\
            6 1 put 2 1 = took 2:ffffffffffff02000000000a88b5 to -\n\
            7 1 shut 2\n8 1 finish 2 14,3-5 found 0 astray 0 = unread 0\n9 1 leave\n\
            10 4 shut 5\n11 4 finish 5 10-13 found 0 astray 0 = unread 1\n12 4 leave\n\
            end 12 free 64\n",
    },
    Run {
        name: "a monitor that fills",
        script: b"pool 64\nuser a\nuser b\nuser m\nopen a vale0:a 4 4\nopen b vale0:b 4 4\n\
            open m mon0 0 2\nwatch m mon0 vale0:a t\n\
            put a vale0:a 2 ff:ff:ff:ff:ff:ff 02:00:00:00:00:0a 14 00\ntx a vale0:a\nrx m mon0\n\
            watch m mon0 vale0:a t\nwatch m mon0 vale9:x t\n",
        text: b"vale 2 pool 64\n1 enter 1\n2 enter 2\n3 enter 3\n4 1 open vale0:a 4 4 0 = ok\n\
            5 2 open vale0:b 4 4 0 = ok\n6 3 open mon0 0 2 0 = ok\n7 3 watch 6 vale0:a t = ok 4\n\
            8 1 send 4 ffffffffffff02000000000a88b5,ffffffffffff02000000000a88b5 \
            = short 0 lone 0 to 5*2,6*2\n\
            9 1 grant 8 5 = given 2 full 0 gone 0\n10 1 done 9\n\
            11 1 grant 8 6 = given 1 full 1 gone 0\n12 1 done 11\n13 3 sync 6 - = gave 1 to -\n\
            14 3 watch 6 vale0:a t = watched 6\n15 3 watch 6 vale9:x t = notarget\n\
            16 1 shut 4\n17 1 finish 4 2-5 found 0 astray 0 = unread 0\n18 1 leave\n\
            19 2 shut 5\n20 2 finish 5 10-13 found 0 astray 0 = unread 2\n21 2 leave\n\
            22 3 shut 6\n23 3 finish 6 18 found 0 astray 0 = unread 0\n24 3 leave\n\
            end 24 free 64\n",
    },
];

/// Positions that no ring takes, and chains of extra buffers that are whole or broken. In each the
/// pool is whole at the end.
pub const RINGS: [Run; 6] = [
    Run {
        name: "cur behind head",
        script: b"user a\nopen a vale0:a 2 2\nmove a vale0:a tx 1 0\ntx a vale0:a\n",
        text: b"vale 2 pool 8192\n1 enter 1\n2 1 open vale0:a 2 2 0 = ok\n\
            3 1 reset 2 tx curout 0 1 1\n\
            4 1 shut 2\n5 1 finish 2 2-3 found 0 astray 0 = unread 0\n6 1 leave\n\
            end 6 free 8192\n",
    },
    Run {
        name: "the largest number as a head",
        script: b"user a\nopen a vale0:a 2 2\nmove a vale0:a tx 4294967295 0\ntx a vale0:a\n",
        text: b"vale 2 pool 8192\n1 enter 1\n2 1 open vale0:a 2 2 0 = ok\n\
            3 1 reset 2 tx headout 4294967295 0 1\n\
            4 1 shut 2\n5 1 finish 2 2-3 found 0 astray 0 = unread 0\n6 1 leave\n\
            end 6 free 8192\n",
    },
    Run {
        name: "no chain",
        script: b"pool 64\nuser a\nopen a vale0:a 2 2 3\nextra a vale0:a 0 0\nclose a vale0:a\n",
        text: b"vale 2 pool 64\n1 enter 1\n2 1 open vale0:a 2 2 3 = ok\n\
            3 1 shut 2\n4 1 finish 2 2-3,6-8 found 0 astray 3 = unread 0\n5 1 leave\n\
            end 5 free 64\n",
    },
    Run {
        name: "a chain that goes round",
        script: b"pool 64\nuser a\nopen a vale0:a 2 2 3\nextra a vale0:a 2 2\nclose a vale0:a\n",
        text: b"vale 2 pool 64\n1 enter 1\n2 1 open vale0:a 2 2 3 = ok\n\
            3 1 shut 2\n4 1 finish 2 2-3,6-8 found 2 astray 1 = unread 0\n5 1 leave\n\
            end 5 free 64\n",
    },
    Run {
        name: "a whole chain",
        script: b"pool 64\nuser a\nopen a vale0:a 2 2 3\nclose a vale0:a\n",
        text: b"vale 2 pool 64\n1 enter 1\n2 1 open vale0:a 2 2 3 = ok\n\
            3 1 shut 2\n4 1 finish 2 2-3,6-8 found 3 astray 0 = unread 0\n5 1 leave\n\
            end 5 free 64\n",
    },
    Run {
        name: "an extra buffer that is sent",
        script: b"pool 64\nuser a\nopen a vale0:a 2 2 3\npoke a vale0:a tx 0 idx 6\n\
            poke a vale0:a tx 0 flags 1\nmove a vale0:a tx 1 1\ntx a vale0:a\nclose a vale0:a\n",
        text: b"vale 2 pool 64\n1 enter 1\n2 1 open vale0:a 2 2 3 = ok\n\
            3 1 send 2 . = short 1 lone 0 to -\n\
            4 1 shut 2\n5 1 finish 2 6,3,2,7-8 found 0 astray 3 = unread 0\n6 1 leave\n\
            end 6 free 64\n",
    },
];
