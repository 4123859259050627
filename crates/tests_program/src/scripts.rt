//! Scripts, each with what it prints and its status.

/// A script, what it prints, and its status.
pub type Row = (&'static str, &'static str, u8);

/// An empty script, and writes that are read again.
pub const EMPTY_AND_WRITES: &[Row] = &[
    ("", "", 0),
    ("m put a 1\nm get a\n", "seq 1\nvalue 1\n", 0),
    ("m put a 1", "seq 1\n", 0),
    (
        "m put a 1\nm put a 2\nm get a\n",
        "seq 1\nseq 2\nvalue 2\n",
        0,
    ),
];

/// Scans and the state.
pub const SCANS: &[Row] = &[
    (
        "m put x: x:\nm get x:\nm get zz\nm scan\nm state\n",
        "seq 1\nvalue x:\nnone\nx: x:\nend 1\nseq 1 keys 1\n",
        0,
    ),
    ("m scan\nm state\n", "end 0\nseq 0 keys 0\n", 0),
    (
        "m put b 2\nm put a x:20\nm batch put x: 0 put a 1\nm scan\nm del a\nm state\n",
        "seq 1\nseq 2\nseq 4\nx: 0\na 1\nb 2\nend 3\nseq 5\nseq 5 keys 2\n",
        0,
    ),
];

/// Words, actors, and bytes in words.
pub const WORDS: &[Row] = &[
    (
        "# a remark\n\nm put x:00ff x:783a41\nm get x:00ff\n",
        "seq 1\nvalue x:783a41\n",
        0,
    ),
    (
        "m put x:61 x:3120\nother get a\n",
        "seq 1\nvalue x:3120\n",
        0,
    ),
    ("m put a x:4A\n", "bad line 1\n", 2),
    ("m put a x:4\n", "bad line 1\n", 2),
    ("lettersab get a\n", "bad line 1\n", 2),
    ("letters get a\n", "none\n", 0),
    ("M get a\n", "bad line 1\n", 2),
    ("m get a\r\n", "bad line 1\n", 2),
    (" m get a\n", "bad line 1\n", 2),
];

/// Deletes, batches and what makes them durable.
pub const BATCHES: &[Row] = &[
    (
        "m put a 1\nm del a\nm get a\nm del zz\n",
        "seq 1\nseq 2\nnone\nseq 3\n",
        0,
    ),
    (
        "m batch put a 1 put b x: del a put a 2\nm get a\nm get b\n",
        "seq 4\nvalue 2\nvalue x:\n",
        0,
    ),
    (
        "m batch del put\nm batch put put del\nm get put\n",
        "seq 1\nseq 2\nvalue del\n",
        0,
    ),
    (
        "m durable put a 1\nm durable del a\nm durable batch put a 2 put b 3\nm get a\n",
        "seq 1\nseq 2\nseq 4\nvalue 2\n",
        0,
    ),
    (
        "m sync\nm put a 1\nm sync\nm sync\n",
        "ok\nseq 1\nok\nok\n",
        0,
    ),
];

/// Lines that are in no form of a command.
pub const BAD_LINES: &[Row] = &[
    ("m put a 1\nm  get a\nm get a\n", "seq 1\nbad line 2\n", 2),
    ("m put a\n", "bad line 1\n", 2),
    ("m scan a\n", "bad line 1\n", 2),
    ("m state now\n", "bad line 1\n", 2),
    ("m batch\n", "bad line 1\n", 2),
    ("m batch put a\n", "bad line 1\n", 2),
    ("m batch put a 1 get a\n", "bad line 1\n", 2),
    ("m put a 1 put b 2\n", "bad line 1\n", 2),
    ("m del a b\n", "bad line 1\n", 2),
    ("m durable get a\n", "bad line 1\n", 2),
    ("m sync now\n", "bad line 1\n", 2),
    ("m show dir\n", "bad line 1\n", 2),
    ("m show dir R\n", "bad line 1\n", 2),
    ("m backup\n", "bad line 1\n", 2),
    ("m backup list 1\n", "bad line 1\n", 2),
    ("m backup restore 0 r\n", "bad line 1\n", 2),
    ("m backup restore 01 r\n", "bad line 1\n", 2),
    ("m backup restore 4294967296 r\n", "bad line 1\n", 2),
];

/// Backups, restores, and folders that are shown.
pub const BACKUPS: &[Row] = &[
    (
        "m put a 1\nm backup create\nm put a 2\nm backup restore 1 r\nm show dir r\n",
        "seq 1\nbackup 1 seq 1\nseq 2\nrestored 1 r\nseq 1\na 1\nend 1\n",
        0,
    ),
    (
        "m put b x:20\nm show dir db\nm show dir none\n",
        "seq 1\nseq 1\nb x:20\nend 1\nrefused NoFolder none\n",
        0,
    ),
    (
        "m backup list\nm backup create\nm put a 1\nm backup create\nm backup list\n",
        "end 0\nbackup 1 seq 0\nseq 1\nbackup 2 seq 1\n1 1000 0 x:\n2 500 1 x:\nend 2\n",
        0,
    ),
    (
        "m backup create\nm backup create\nm backup create\nm state\n",
        "backup 1 seq 0\nbackup 2 seq 0\nclock fault\n",
        7,
    ),
    (
        "m backup create\nm backup restore 1 r\nm backup restore 1 r\nm backup restore 1 db\n",
        "backup 1 seq 0\nrestored 1 r\nrefused DestinationExists r\nrefused DestinationExists db\n",
        0,
    ),
    (
        "m backup restore 3 r\nm backup restore 1 db\nm show dir r\n",
        "refused NoSuchBackup 3\nrefused NoSuchBackup 1\nrefused NoFolder r\n",
        0,
    ),
];
