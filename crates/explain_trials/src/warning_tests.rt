//! Each warning once. The codes are those with which a run refuses the lines.
use crate::expectations::{Example, check_all};
use std::test::Fail;

const CHANGES: [Example; 2] = [
    Example {
        file: "\
input a 1
view v a
start
change a 0 0 1 7 8
change a 0 0 0 7
change a 0 0 2147483648 7
change a 0 0 -2147483648 7
change a 0 0 -2147483647 7
advance a 0 1
read v 0 0
",
        told: "\
line 4 warning: a row of 2 columns, and the input has 1; a run refuses the line with 2
    change a 0 0 1 7 8
                   ^
line 5 warning: the difference is 0; a run refuses the line with 3
    change a 0 0 0 7
                 ^
line 6 warning: the difference is above 2147483647 or below -2147483647; a run refuses the line with 4
    change a 0 0 2147483648 7
                 ^^^^^^^^^^
line 7 warning: the difference is above 2147483647 or below -2147483647; a run refuses the line with 4
    change a 0 0 -2147483648 7
                 ^^^^^^^^^^^
line 8 warning: takes back a row that did not stand: its differences so far add to -2147483647
    change a 0 0 -2147483647 7
                             ^
0 faults, 5 warnings
",
    },
    Example {
        file: "\
input a 2
input b 2
view v a
start
change a 0 0 2 7 8
change b 0 0 1 7 8
change a 0 0 -1 7 8
change b 0 0 -2 7 8
change a 0 0 -1 7 8
change b 0 0 2 7 8
close a
changes v
",
        told: "\
line 8 warning: takes back a row that did not stand: its differences so far add to -1
    change b 0 0 -2 7 8
                    ^
0 faults, 1 warning
",
    },
];

#[test]
fn changes_are_warned_of(rt: HostRuntime) -> Result<(), Fail> {
    Ok(check_all(&rt, rt.alloc(), &CHANGES)?)
}

// To advance to (0, 0) passes no time.
const READS: [Example; 3] = [
    Example {
        file: "\
input a 1
view v a
start
read v 0 0
close a
read v 0 0
",
        told: "\
line 4 warning: the input `a` feeds the view, and no line before advances or closes it; a run refuses the line with 8
    read v 0 0
         ^
0 faults, 1 warning
",
    },
    Example {
        file: "\
input a 1
input b 1
input unused 1
node c concat a b
view v c
view w unused
start
close a
advance b 0 0
read v 0 0
frontier w
",
        told: "\
line 2 warning: no line advances or closes this input, so no view that it feeds can be read
    input b 1
          ^
line 10 warning: the input `b` feeds the view, and no line before advances or closes it; a run refuses the line with 8
    read v 0 0
         ^
0 faults, 2 warnings
",
    },
    Example {
        file: "\
input a 1
# nobody asks
view v a
start
allow v 0 0
close a
",
        told: "\
line 3 warning: no line asks about this view
    view v a
         ^
0 faults, 1 warning
",
    },
];

#[test]
fn reads_are_warned_of(rt: HostRuntime) -> Result<(), Fail> {
    Ok(check_all(&rt, rt.alloc(), &READS)?)
}

const GOOD: [Example; 1] = [Example {
    file: "\
input ledger 2
view postings ledger
start
change ledger 3 0 1 7 500
advance ledger 0 1
read postings 4 0
change ledger 3 1 -1 7 500
close ledger
read postings 4 1
",
    told: "0 faults, 0 warnings\n",
}];

#[test]
fn a_good_file_has_no_warnings(rt: HostRuntime) -> Result<(), Fail> {
    Ok(check_all(&rt, rt.alloc(), &GOOD)?)
}
