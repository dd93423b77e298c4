//! One run of each command: what is there before it, what it prints and stores, and what is there after it.

use aea_cli::Status;

/// The words of a run, parted by spaces, and its input.
pub type Run = (&'static str, &'static str);

/// The name of an object, and its bytes.
pub type Object = (&'static str, &'static [u8]);

/// What a run makes durable.
#[derive(Clone, Copy)]
pub struct Commit {
    /// How many bytes of the input are read before it; one more where the end of the input is found before it.
    pub reads: usize,
    /// The call of the disk, counted from 1, that makes it durable. The call before it opens a gate, but in a repair.
    pub calls: u64,
    /// What is printed of it.
    pub line: &'static str,
}

/// A run of a command.
#[derive(Clone, Copy)]
pub struct Case {
    /// The runs that make what is there before it.
    pub before: &'static [Run],
    /// The bytes that are then flipped: the file of each, and its place.
    pub flipped: &'static [(u8, u64)],
    pub line: &'static str,
    pub input: &'static str,
    pub status: Status,
    pub out: &'static str,
    /// In how many pieces it is printed, each flushed; where there are several, each is a line.
    pub pieces: usize,
    /// How many calls of the disk it makes.
    pub calls: u64,
    pub commits: &'static [Commit],
    /// The objects that are there before it, and after them one of each commit that stores one.
    pub objects: &'static [Object],
    /// How many of them are there before it.
    pub kept: usize,
    /// What is reported of the archive once one more object is put: where no commit is durable, and where each is.
    pub stands: &'static [&'static str],
}

/// The line that makes the archive.
pub const CREATE_LINE: &str = "create 3 2 5 16 4";

// An object of one node, one of two, and one with the bytes of the first.
const A: Object = ("a", b"abc");

const B: Object = ("b", b"0123456789abcdefg");

const C: Object = ("c", b"abc");

/// The object that is put once a run has ended.
pub const MORE: Object = ("more", b"one object more");

/// What is printed of it.
pub const STORED_MORE: &str =
    "stored 1 15 c7de3931a5456675b04ac86ab46534e901f808de1ac13f396d735ab82dd5b256 more\n";

const STORED_B: &str =
    "stored 2 17 8378b19d693ee89e2ca594b6ec0abfaadc4fe1831eaca2f748f0b71ede38892e b\n";

const STORED_C: &str =
    "stored 1 3 ba7816bf8f01cfea414140de5dae2223b00361a396177a9cb410ff61f20015ad c\n";

// The damage of nineteen blocks of which no equation has just one.
const NINETEEN: &str =
    "d1\nd3\nd4\nd5\nd6\nd8\nd9\nd10\nd11\nh1\nh3\nh4\nh8\nh9\nr1\nr3\nr5\nr8\nr10\n";

// What is printed of them: three are determined, and the others are in two codewords.
const TWO_CODEWORDS: &str = "aea-report 1\nlattice 2 2 2 11\nledger none\ncounts 19 0 3 16\n\
    lost d1 by 1 3 4 6\nlost h1 by 1 3 4 6\nlost r1 by 1 3 4 6\nlost d3 by 1 3 4 6\nsolved h3\n\
    lost r3 by 1 3 4 6\nlost d4 by 1 3 4 6\nlost h4 by 1 3 4 6\nsolved d5\nsolved r5\n\
    lost d6 by 1 3 4 6\nlost d8 by 8 9 10 11\nlost h8 by 8 9 10 11\nlost r8 by 8 9 10 11\n\
    lost d9 by 8 9 10 11\nlost h9 by 8 9 10 11\nlost d10 by 8 9 10 11\nlost r10 by 8 9 10 11\n\
    lost d11 by 8 9 10 11\n";

const ONE: &[Run] = &[(CREATE_LINE, ""), ("put a", "abc")];

const TWO: &[Run] = &[
    (CREATE_LINE, ""),
    ("put a", "abc"),
    ("put b", "0123456789abcdefg"),
];

// A byte of each of the cells of d1, r1, d2 and l2, the first, third, fifth and eighth block of the archive of two objects.
const TORN: &[(u8, u64)] = &[(1, 20), (3, 16), (2, 70), (1, 127)];

/// The lines that a scrub prints of them.
pub const TORN_LINES: [&str; 4] = ["damaged d1", "damaged r1", "damaged d2", "damaged l2"];

/// The line among them of the one block that is the last parity of a strand, and what a put is then refused for.
pub const TORN_HEAD: &str = "damaged r1\n";

pub const HEAD_REFUSED: &str = "refused: head damaged r1\n";

// The reports of the archives in which `MORE` is alone, after `A`, after `A` and `B`, and after `A`, `B` and `C`; and
// after `A` and a fence, and `A` and a raise of the limit. The seals were computed by another program from the formats.
const ALONE: &str = "aea-report 1\nlattice 3 2 5 1\n\
    ledger c57496d7c6b01f2aad09243ae7a7953f9c89170f49e04856478a8bc786d5a3fc\ncounts 0 0 0 0\n";

const BEHIND_A: &str = "aea-report 1\nlattice 3 2 5 2\n\
    ledger b2ecc9862c0f8e266dc3ba8ece6103c76fd4d9f35a3b6c6b770e7adedd75801e\ncounts 0 0 0 0\n";

const BEHIND_B: &str = "aea-report 1\nlattice 3 2 5 4\n\
    ledger 5d1cb6b7c367310180f372a0573dce997d8746e8139bd6084ca8ac966dadf183\ncounts 0 0 0 0\n";

const BEHIND_C: &str = "aea-report 1\nlattice 3 2 5 5\n\
    ledger 6fef8dd886b5fc6f1da5aa4785b61691c2a03bf51fe1045b09cda17a3625b555\ncounts 0 0 0 0\n";

const BEHIND_A_FENCE: &str = "aea-report 1\nlattice 3 2 5 2\n\
    ledger 16a396fe697b78047469125046c5059c78bc59d904dfcba7c9e346cfd9412bb1\ncounts 0 0 0 0\n";

const BEHIND_A_RAISE: &str = "aea-report 1\nlattice 3 2 5 2\n\
    ledger 367dc4b9787c3db2ae390d16b3bda950c0332a4ace99e8efde5dcb17f6e64a8b\ncounts 0 0 0 0\n";

// The report of the archive of two objects where the four blocks are restored.
const RESTORED: &str = "aea-report 1\nlattice 3 2 5 3\n\
    ledger 8f64e3355259d9db2689484dbbf26004d0d7a355d40a10207db743ad30d129c3\ncounts 4 4 0 0\n\
    peeled d1\npeeled r1\npeeled d2\npeeled l2\n";

// A run that makes, reads and prints nothing, where nothing is there.
const NOTHING: Case = Case {
    before: &[],
    flipped: &[],
    line: "",
    input: "",
    status: Status::Done,
    out: "",
    pieces: 1,
    calls: 0,
    commits: &[],
    objects: &[],
    kept: 0,
    stands: &[ALONE],
};

// Such a run over the archive of the first object.
const OVER_ONE: Case = Case {
    before: ONE,
    objects: &[A],
    kept: 1,
    stands: &[BEHIND_A],
    ..NOTHING
};

// Such a run over the archive of two objects.
const OVER_TWO: Case = Case {
    before: TWO,
    objects: &[A, B],
    kept: 2,
    stands: &[BEHIND_B],
    ..NOTHING
};

pub const DRILL: Case = Case {
    line: "drill 2 2 2 11",
    input: NINETEEN,
    status: Status::Damage,
    out: TWO_CODEWORDS,
    ..NOTHING
};

const CREATE: Case = Case {
    line: CREATE_LINE,
    out: "created 3 2 5 16 4\n",
    calls: 13,
    commits: &[Commit {
        reads: 0,
        calls: 13,
        line: "created 3 2 5 16 4\n",
    }],
    stands: &[ALONE, ALONE],
    ..NOTHING
};

const STAT: Case = Case {
    line: "stat",
    out: "{\"alpha\":3,\"block\":16,\"nodes\":3,\"objects\":2,\"p\":5,\"s\":2,\"sites\":4}\n",
    calls: 8,
    ..OVER_TWO
};

const LIST: Case = Case {
    line: "list",
    out: "3 ba7816bf8f01cfea414140de5dae2223b00361a396177a9cb410ff61f20015ad a\n\
        17 8378b19d693ee89e2ca594b6ec0abfaadc4fe1831eaca2f748f0b71ede38892e b\n",
    calls: 8,
    ..OVER_TWO
};

pub const PUT: Case = Case {
    line: "put b",
    input: "0123456789abcdefg",
    out: STORED_B,
    calls: 24,
    commits: &[Commit {
        reads: 18,
        calls: 24,
        line: STORED_B,
    }],
    objects: &[A, B],
    stands: &[BEHIND_A, BEHIND_B],
    ..OVER_ONE
};

pub const INGEST: Case = Case {
    line: "ingest",
    input: "\0\x01b\0\0\0\0\0\0\0\x110123456789abcdefg\0\x01c\0\0\0\0\0\0\0\x03abc",
    out: "stored 2 17 8378b19d693ee89e2ca594b6ec0abfaadc4fe1831eaca2f748f0b71ede38892e b\n\
        stored 1 3 ba7816bf8f01cfea414140de5dae2223b00361a396177a9cb410ff61f20015ad c\nend 2\n",
    pieces: 3,
    calls: 33,
    commits: &[
        Commit {
            reads: 28,
            calls: 24,
            line: STORED_B,
        },
        Commit {
            reads: 42,
            calls: 33,
            line: STORED_C,
        },
    ],
    objects: &[A, B, C],
    stands: &[BEHIND_A, BEHIND_B, BEHIND_C],
    ..OVER_ONE
};

const GET: Case = Case {
    line: "get b",
    out: "0123456789abcdefg",
    calls: 12,
    ..OVER_TWO
};

const FETCH: Case = Case {
    flipped: TORN,
    line: "fetch b",
    out: "0123456789abcdefg",
    calls: 17,
    ..OVER_TWO
};

const FENCE: Case = Case {
    line: "fence",
    out: "fence 1\n",
    calls: 12,
    commits: &[Commit {
        reads: 0,
        calls: 12,
        line: "fence 1\n",
    }],
    stands: &[BEHIND_A, BEHIND_A_FENCE],
    ..OVER_ONE
};

const UPGRADE: Case = Case {
    line: "upgrade",
    out: "upgraded 1048576\n",
    calls: 12,
    commits: &[Commit {
        reads: 0,
        calls: 12,
        line: "upgraded 1048576\n",
    }],
    stands: &[BEHIND_A, BEHIND_A_RAISE],
    ..OVER_ONE
};

const SCRUB: Case = Case {
    flipped: TORN,
    line: "scrub",
    status: Status::Damage,
    out: "damaged d1\ndamaged r1\ndamaged d2\ndamaged l2\ntotal 12 damaged 4\n",
    calls: 20,
    ..OVER_TWO
};

const REPAIR: Case = Case {
    flipped: TORN,
    line: "repair",
    out: RESTORED,
    calls: 29,
    commits: &[Commit {
        reads: 0,
        calls: 29,
        line: RESTORED,
    }],
    stands: &[BEHIND_B, BEHIND_B],
    ..OVER_TWO
};

const EXPLAIN: Case = Case {
    flipped: TORN,
    line: "explain d1",
    out: "damaged d1\nsum h1\n",
    calls: 12,
    ..OVER_TWO
};

pub const VERIFY: Case = Case {
    line: "verify",
    input: RESTORED,
    out: "accepted\n",
    calls: 20,
    ..OVER_TWO
};

const REHEARSE: Case = Case {
    line: "rehearse 7 1 1000",
    status: Status::Damage,
    out: "nodes 1 blocks 4 damaged 4 peeled 0 solved 0 lost 4 accepted\n",
    ..NOTHING
};

const SITES: Case = Case {
    line: "sites",
    out: "site 1 lost 0\nsite 2 lost 0\nsite 3 lost 0\nsite 4 lost 0\n\
        pair 1 2 lost 0\npair 1 3 lost 0\npair 1 4 lost 0\n\
        pair 2 3 lost 0\npair 2 4 lost 0\npair 3 4 lost 0\n",
    pieces: 10,
    calls: 8,
    ..OVER_ONE
};

// One run of each command.
const CASES: &[Case] = &[
    DRILL, CREATE, STAT, LIST, PUT, INGEST, GET, FETCH, FENCE, UPGRADE, SCRUB, REPAIR, EXPLAIN,
    VERIFY, REHEARSE, SITES,
];

/// One run of each command. It is a function, so that the proof of a test does not carry the table.
pub fn cases() -> &'static [Case] {
    CASES
}

/// A run of these words that makes, reads and prints nothing, where nothing is there.
pub fn bare(line: &'static str) -> Case {
    Case { line, ..NOTHING }
}
