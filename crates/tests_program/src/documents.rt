//! The examples of docs/SCRIPT.md, each with what it prints and its status. Made by
//! `tools/document-examples --write`.

use crate::scripts::Row;

pub const EXAMPLES: &[Row] = &[
    (
        "# each command once, and three refused lines\n\
         m backup list\n\
         m put a 1\n\
         m durable put b x:20\n\
         m batch put c 3 del a put a 4\n\
         m del c\n\
         m sync\n\
         m get a\n\
         m get c\n\
         m backup create\n\
         m put a 2\n\
         m backup restore 1 r\n\
         m show dir r\n\
         m backup restore 1 r\n\
         m backup restore 2 s\n\
         m show dir s\n\
         m put x: x:\n\
         m get x:\n\
         m scan\n\
         m state\n",
        "end 0\n\
         seq 1\n\
         seq 2\n\
         seq 5\n\
         seq 6\n\
         ok\n\
         value 4\n\
         none\n\
         backup 1 seq 6\n\
         seq 7\n\
         restored 1 r\n\
         seq 6\n\
         a 4\n\
         b x:20\n\
         end 2\n\
         refused DestinationExists r\n\
         refused NoSuchBackup 2\n\
         refused NoFolder s\n\
         seq 8\n\
         value x:\n\
         x: x:\n\
         a 2\n\
         b x:20\n\
         end 3\n\
         seq 8 keys 3\n",
        0,
    ),
    (
        "# a comment, and an empty line\n\
         \n\
         m put a 1\n\
         other get a\n",
        "seq 1\n\
         value 1\n",
        0,
    ),
    (
        "m put x:61 x:3120\n\
         m get a\n\
         m put x: x:\n\
         m get x:\n\
         m put b x:783a\n\
         m get b\n",
        "seq 1\n\
         value x:3120\n\
         seq 2\n\
         value x:\n\
         seq 3\n\
         value x:783a\n",
        0,
    ),
    (
        "m put a 1\n\
         m put a 2\n\
         m get a\n",
        "seq 1\n\
         seq 2\n\
         value 2\n",
        0,
    ),
    (
        "m put a 1\n\
         m del a\n\
         m del b\n\
         m get a\n",
        "seq 1\n\
         seq 2\n\
         seq 3\n\
         none\n",
        0,
    ),
    (
        "m batch put a 1 put b 2 del a\n\
         m get a\n\
         m get b\n",
        "seq 3\n\
         none\n\
         value 2\n",
        0,
    ),
    (
        "m put a 1\n\
         m durable put b 2\n\
         m durable del a\n\
         m durable batch put c 3 put d 4\n",
        "seq 1\n\
         seq 2\n\
         seq 3\n\
         seq 5\n",
        0,
    ),
    (
        "m put a 1\n\
         m sync\n",
        "seq 1\n\
         ok\n",
        0,
    ),
    (
        "m put a 1\n\
         m get a\n\
         m get b\n",
        "seq 1\n\
         value 1\n\
         none\n",
        0,
    ),
    (
        "m put b 2\n\
         m put a x:20\n\
         m batch put x: 0 put a 1\n\
         m scan\n",
        "seq 1\n\
         seq 2\n\
         seq 4\n\
         x: 0\n\
         a 1\n\
         b 2\n\
         end 3\n",
        0,
    ),
    (
        "m state\n\
         m put a 1\n\
         m del b\n\
         m state\n",
        "seq 0 keys 0\n\
         seq 1\n\
         seq 2\n\
         seq 2 keys 1\n",
        0,
    ),
    (
        "m put b x:20\n\
         m show dir db\n\
         m show dir r\n",
        "seq 1\n\
         seq 1\n\
         b x:20\n\
         end 1\n\
         refused NoFolder r\n",
        0,
    ),
    (
        "m put a 1\n\
         m backup create\n\
         m put a 2\n\
         m backup create\n",
        "seq 1\n\
         backup 1 seq 1\n\
         seq 2\n\
         backup 2 seq 2\n",
        0,
    ),
    (
        "m backup list\n\
         m put a 1\n\
         m backup create\n\
         m backup list\n",
        "end 0\n\
         seq 1\n\
         backup 1 seq 1\n\
         1 1000 1 x:\n\
         end 1\n",
        0,
    ),
    (
        "m put a 1\n\
         m backup create\n\
         m put a 2\n\
         m backup restore 1 r\n\
         m show dir r\n\
         m get a\n",
        "seq 1\n\
         backup 1 seq 1\n\
         seq 2\n\
         restored 1 r\n\
         seq 1\n\
         a 1\n\
         end 1\n\
         value 2\n",
        0,
    ),
    ("m show dir r\n", "refused NoFolder r\n", 0),
    (
        "m backup create\n\
         m backup restore 1 r\n\
         m backup restore 1 r\n\
         m backup restore 1 db\n",
        "backup 1 seq 0\n\
         restored 1 r\n\
         refused DestinationExists r\n\
         refused DestinationExists db\n",
        0,
    ),
    (
        "m backup restore 3 r\n\
         m backup restore 1 db\n",
        "refused NoSuchBackup 3\n\
         refused NoSuchBackup 1\n",
        0,
    ),
    (
        "m put a 1\n\
         m  get a\n",
        "seq 1\n\
         bad line 2\n",
        2,
    ),
    ("m put a\n", "bad line 1\n", 2),
    ("m put a x:4A\n", "bad line 1\n", 2),
    ("m durable get a\n", "bad line 1\n", 2),
    ("m batch\n", "bad line 1\n", 2),
];
