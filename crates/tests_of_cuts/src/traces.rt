//! Traces, and what may be found of two files where the power goes in them.

/// A run on what another left.
#[derive(Clone, Copy)]
pub struct Row {
    pub name: &'static str,
    /// The trace of an earlier run.
    pub before: &'static str,
    pub trace: &'static str,
    /// Cuts are looked at from the first of its syncs on that comes after so many others.
    pub syncs: usize,
    /// What `LOOK` may answer of the first file and of the second one, after the spaces.
    pub found: &'static [(&'static str, &'static str)],
}

/// What the lines that make spaces answer.
pub const SPACES: &str = "space 1 0
space 2 1
space 3 2
";

/// Looks at two pages of the first file, at one of the second, and for a third file.
pub const LOOK: &str = "space 0 1
space 0 1
space 0 1
attr 0000000700000001
map 1 0000000700000001 0 ro
load 15 2
map 2 0000000700000001 1 ro
load 527 2
attr 0000000700000002
map 3 0000000700000002 0 ro
load 1039 2
next 0000000700000002
";

const NO_FIRST: &str = "error file
error file
error nomap 0
error file
error nomap 1
";

const EMPTY: &str = "attr 0 9 perm mutable
error window
error nomap 0
error window
error nomap 1
";

const ZEROS: &str = "attr 1 9 perm mutable
ok
bytes 0000
error window
error nomap 1
";

const ONE_PAGE: &str = "attr 1 9 perm mutable
ok
bytes aabb
error window
error nomap 1
";

const TWO_PAGES: &str = "attr 2 9 perm mutable
ok
bytes aabb
ok
bytes ccdd
";

const FORCED: &str = "attr 1 9 perm mutable
ok
bytes 1122
error window
error nomap 1
";

const FORCED_AND_ZEROS: &str = "attr 2 9 perm mutable
ok
bytes 1122
ok
bytes 0000
";

const FORCED_FOR_GOOD: &str = "attr 2 9 perm immutable
ok
bytes 1122
ok
bytes 0000
";

const NO_SECOND: &str = "error file
error file
error nomap 2
none
";

const SECOND: &str = "attr 1 8 perm mutable
ok
bytes 5566
none
";

// Makes the first file, with no page.
const MAKES_EMPTY: &str = "create 0 9
permanent 0000000700000001
close
";

// Makes the first file, with one page.
const MAKES_ONE_PAGE: &str = "create 1 9
space 0 1
map 1 0000000700000001 0 rw
store 15 aabb
unmap 1
permanent 0000000700000001
close
";

// Makes the first file, with two pages.
const MAKES_TWO_PAGES: &str = "create 2 9
space 0 2
map 1 0000000700000001 0 rw
store 15 aabb
store 527 ccdd
unmap 1
permanent 0000000700000001
close
";

// Makes both files, each with one page.
const MAKES_BOTH: &str = "create 1 9
create 1 8
space 0 1
map 1 0000000700000001 0 rw
store 15 aabb
unmap 1
permanent 0000000700000001
map 1 0000000700000002 0 rw
store 15 5566
unmap 1
permanent 0000000700000002
close
";

/// The runs.
pub const ROWS: [Row; 9] = [
    Row {
        name: "a run that is halted",
        before: MAKES_TWO_PAGES,
        trace: "volume
halt
",
        syncs: 0,
        found: &[(TWO_PAGES, NO_SECOND)],
    },
    Row {
        name: "a file is made",
        before: "",
        trace: "create 1 9
permanent 0000000700000001
close
",
        syncs: 0,
        found: &[(NO_FIRST, NO_SECOND), (ZEROS, NO_SECOND)],
    },
    Row {
        name: "a file is deleted",
        before: MAKES_TWO_PAGES,
        trace: "delete 0000000700000001
close
",
        syncs: 0,
        found: &[(TWO_PAGES, NO_SECOND), (NO_FIRST, NO_SECOND)],
    },
    Row {
        name: "another file is stored to after a file was cut",
        before: MAKES_TWO_PAGES,
        trace: "setsize 0000000700000001 1
create 1 8
space 0 1
map 1 0000000700000002 0 rw
store 15 5566
deactivate 1
close
",
        syncs: 0,
        found: &[(TWO_PAGES, NO_SECOND), (ONE_PAGE, NO_SECOND)],
    },
    Row {
        name: "another file is kept after a file was cut",
        before: MAKES_TWO_PAGES,
        trace: "setsize 0000000700000001 1
create 1 8
space 0 1
map 1 0000000700000002 0 rw
store 15 5566
deactivate 1
permanent 0000000700000002
close
",
        syncs: 0,
        found: &[
            (TWO_PAGES, NO_SECOND),
            (ONE_PAGE, NO_SECOND),
            (ONE_PAGE, SECOND),
        ],
    },
    Row {
        name: "an empty file grows after another was deleted",
        before: MAKES_EMPTY,
        trace: "create 1 8
space 0 1
map 1 0000000700000002 0 rw
store 15 5566
unmap 1
delete 0000000700000002
create 0 8
setsize 0000000700000001 1
close
",
        syncs: 0,
        found: &[(EMPTY, NO_SECOND), (ZEROS, NO_SECOND)],
    },
    Row {
        name: "both files are deleted",
        before: MAKES_BOTH,
        trace: "delete 0000000700000001
delete 0000000700000002
close
",
        syncs: 0,
        found: &[
            (ONE_PAGE, SECOND),
            (NO_FIRST, SECOND),
            (NO_FIRST, NO_SECOND),
        ],
    },
    Row {
        name: "the second file takes the place of the first",
        before: MAKES_ONE_PAGE,
        trace: "create 1 8
space 0 1
map 1 0000000700000002 0 rw
store 15 5566
force 1
permanent 0000000700000002
delete 0000000700000001
close
",
        syncs: 0,
        found: &[
            (ONE_PAGE, NO_SECOND),
            (ONE_PAGE, SECOND),
            (NO_FIRST, SECOND),
        ],
    },
    Row {
        name: "what was forced stays",
        before: MAKES_ONE_PAGE,
        trace: "space 0 1
map 1 0000000700000001 0 rw
store 15 1122
force 1
setsize 0000000700000001 2
unmap 1
immutable 0000000700000001
close
",
        syncs: 1,
        found: &[
            (FORCED, NO_SECOND),
            (FORCED_AND_ZEROS, NO_SECOND),
            (FORCED_FOR_GOOD, NO_SECOND),
        ],
    },
];
