//! Each hint once.
use crate::expectations::{Example, check_all, check_told};
use std::test::Fail;

const NAMES: [Example; 4] = [
    Example {
        file: "\
input ledger 2
view postings ledger
start
read ledger 4 0
close postings
",
        told: "\
line 4 code 14: no such name, or a name of another sort
    read ledger 4 0
         ^^^^^^
    hint: `ledger` is an input, and a view is due here
line 5 code 14: no such name, or a name of another sort
    close postings
          ^^^^^^^^
    hint: `postings` is a view, and an input is due here
2 faults, 0 warnings
",
    },
    Example {
        file: "\
input ledger 2
view postings ledger
start
read Postings 4 0
",
        told: "\
line 4 code 14: no such name, or a name of another sort
    read Postings 4 0
         ^^^^^^^^
    hint: there is `postings`; small and large letters differ
1 fault, 0 warnings
",
    },
    Example {
        file: "\
input a 0
view v a
view w w
start
read v 0 0
",
        told: "\
line 1 code 20: not 1 to 8 columns
    input a 0
            ^
    hint: a row has 1 to 8 columns
line 2 code 14: no such name, or a name of another sort
    view v a
           ^
    hint: line 1 was to declare `a`, and is at fault
line 3 code 14: no such name, or a name of another sort
    view w w
           ^
    hint: a line does not know the name that it declares
line 5 code 14: no such name, or a name of another sort
    read v 0 0
         ^
    hint: line 2 was to declare `v`, and is at fault
4 faults, 0 warnings
",
    },
    Example {
        file: "\
input a 1
view v a
node n negate v
start
",
        told: "\
line 3 code 14: no such name, or a name of another sort
    node n negate v
                  ^
    hint: `v` is a view, and an input or a node is due here
1 fault, 0 warnings
",
    },
];

#[test]
fn names_have_hints(rt: HostRuntime) -> Result<(), Fail> {
    Ok(check_all(&rt, rt.alloc(), &NAMES)?)
}

// 2024 is a leap year. Its first of March is the day 19783: 54 years of 365 days, 13 leap days
// before 2024, and 60 days of 2024.
const DATES: [Example; 3] = [
    Example {
        file: "\
input a 1
start
change a 2024-03-01 0 1 7
",
        told: "\
line 3 code 33: not a number, or not an item
    change a 2024-03-01 0 1 7
             ^^^^^^^^^^
    hint: a day is written as a number; 2024-03-01 is day 19783, counted from 1970-01-01
1 fault, 0 warnings
",
    },
    Example {
        file: "\
input a 1
start
change a 1970-01-01 0 1 7
",
        told: "\
line 3 code 33: not a number, or not an item
    change a 1970-01-01 0 1 7
             ^^^^^^^^^^
    hint: a day is written as a number; 1970-01-01 is day 0, counted from 1970-01-01
1 fault, 0 warnings
",
    },
    Example {
        file: "\
input a 1
start
change a 2024-13-01 0 1 7
",
        told: "\
line 3 code 33: not a number, or not an item
    change a 2024-13-01 0 1 7
             ^^^^^^^^^^
    hint: a day is written as a number, not as a date
1 fault, 0 warnings
",
    },
];

#[test]
fn dates_have_hints(rt: HostRuntime) -> Result<(), Fail> {
    Ok(check_all(&rt, rt.alloc(), &DATES)?)
}

const NUMBERS: [Example; 2] = [
    Example {
        file: "\
input a 01
node n map a 7
start
close a
",
        told: "\
line 1 code 33: not a number, or not an item
    input a 01
            ^^
    hint: a number has no zero in front
line 2 code 14: no such name, or a name of another sort
    node n map a 7
               ^
    hint: line 1 was to declare `a`, and is at fault
line 4 code 14: no such name, or a name of another sort
    close a
          ^
    hint: line 1 was to declare `a`, and is at fault
3 faults, 0 warnings
",
    },
    Example {
        file: "\
input a 1
node n map a 7
start
change a 0 0 1 12.50
change a 0 0 +1 7
change a -1 0 1 7
change a 0 0 -0 7
change a 0 18446744073709551616 1 7
change a 0 0 1,000 7
",
        told: "\
line 2 code 33: not a number, or not an item
    node n map a 7
                 ^
    hint: a constant begins with `=`, as =7, and a column with `c`, as c0
line 4 code 33: not a number, or not an item
    change a 0 0 1 12.50
                   ^^^^^
    hint: a number is whole: it has no point and no comma
line 5 code 33: not a number, or not an item
    change a 0 0 +1 7
                 ^^
    hint: a number has no plus sign
line 6 code 33: not a number, or not an item
    change a -1 0 1 7
             ^^
    hint: this number may not be negative
line 7 code 33: not a number, or not an item
    change a 0 0 -0 7
                 ^^
    hint: 0 has no sign
line 8 code 33: not a number, or not an item
    change a 0 18446744073709551616 1 7
               ^^^^^^^^^^^^^^^^^^^^
    hint: the number does not fit in 64 bits
line 9 code 33: not a number, or not an item
    change a 0 0 1,000 7
                 ^^^^^
    hint: a number is whole: it has no point and no comma
7 faults, 0 warnings
",
    },
];

#[test]
fn numbers_have_hints(rt: HostRuntime) -> Result<(), Fail> {
    Ok(check_all(&rt, rt.alloc(), &NUMBERS)?)
}

const SPELLINGS: [Example; 2] = [
    Example {
        file: "\
input a 1
Start
close a
",
        told: "\
line 2 code 31: unknown command, kind or comparison
    Start
    ^^^^^
    hint: it is written `start`
line 3 code 34: on the wrong side of `start`, a second `start`, or none
    close a
    ^^^^^
    hint: line 2 was to be `start`, and is at fault
line 4 code 34: on the wrong side of `start`, a second `start`, or none
    hint: line 2 was to be `start`, and is at fault
3 faults, 0 warnings
",
    },
    Example {
        file: "\
input a 1
node f filter a c0 > =10
node n Negate a
start
",
        told: "\
line 2 code 31: unknown command, kind or comparison
    node f filter a c0 > =10
                       ^
    hint: it is written `gt`
line 3 code 31: unknown command, kind or comparison
    node n Negate a
           ^^^^^^
    hint: it is written `negate`
2 faults, 0 warnings
",
    },
];

#[test]
fn spellings_have_hints(rt: HostRuntime) -> Result<(), Fail> {
    Ok(check_all(&rt, rt.alloc(), &SPELLINGS)?)
}

const FORMS: &str = "\
input a
view v
start
change a 0 0 1
advance a 0
read v 0
";

const FORMS_TOLD: &str = "\
line 1 code 32: wrong number of words
    input a
          ^
    hint: the line is `input NAME WIDTH`
line 2 code 32: wrong number of words
    view v
         ^
    hint: the line is `view NAME SOURCE`
line 4 code 32: wrong number of words
    change a 0 0 1
                 ^
    hint: the line is `change INPUT VALID SYSTEM DIFF COLUMN ..`, with 1 to 8 columns, as `change a 0 0 1 7`
line 5 code 32: wrong number of words
    advance a 0
              ^
    hint: the line is `advance INPUT VALID SYSTEM ..`, with one pair or more, as `advance a 0 1`
line 6 code 32: wrong number of words
    read v 0
           ^
    hint: the line is `read VIEW VALID SYSTEM`
5 faults, 0 warnings
";

const MORE_FORMS: &str = "\
node n
node m map a
node f filter a c0
node c concat a
start now
";

const MORE_FORMS_TOLD: &str = "\
line 1 code 32: wrong number of words
    node n
         ^
    hint: the line is `node NAME KIND SOURCE ..`
line 2 code 32: wrong number of words
    node m map a
               ^
    hint: the line is `node NAME map SOURCE ITEM ..`, as `node m map a c1 c0`
line 3 code 32: wrong number of words
    node f filter a c0
                    ^^
    hint: the line is `node NAME filter SOURCE ITEM COMPARISON ITEM`, as `node f filter a c1 lt =0`
line 4 code 32: wrong number of words
    node c concat a
                  ^
    hint: the line is `node NAME concat SOURCE SOURCE`
line 5 code 32: wrong number of words
    start now
          ^^^
    hint: the line is `start`
line 6 code 34: on the wrong side of `start`, a second `start`, or none
    hint: line 5 was to be `start`, and is at fault
6 faults, 0 warnings
";

#[test]
fn forms_are_told(rt: HostRuntime) -> Result<(), Fail> {
    check_told(&rt, rt.alloc(), FORMS.as_bytes(), FORMS_TOLD)?;
    check_told(&rt, rt.alloc(), MORE_FORMS.as_bytes(), MORE_FORMS_TOLD)?;
    Ok(())
}

const RETURNS_TOLD: &str = "\
line 1 code 33: not a number, or not an item
    input a 1?
            ^^
    hint: the line ends in a carriage return; only a newline ends a line
line 2 code 31: unknown command, kind or comparison
    start?
    ^^^^^^
    hint: the line ends in a carriage return; only a newline ends a line
line 3 code 34: on the wrong side of `start`, a second `start`, or none
    hint: line 2 was to be `start`, and is at fault
3 faults, 0 warnings
";

const TAB_TOLD: &str = "\
line 3 code 31: unknown command, kind or comparison
    close?a
    ^^^^^^^
    hint: there is a tab in the word; only spaces separate words
1 fault, 0 warnings
";

const MARK_TOLD: &str = "\
line 1 code 31: unknown command, kind or comparison
    ?input a 1
    ^^^^^^
    hint: the file begins with a byte order mark; save it without one
1 fault, 0 warnings
";

#[test]
fn stray_characters_are_told(rt: HostRuntime) -> Result<(), Fail> {
    check_told(&rt, rt.alloc(), b"input a 1\r\nstart\r\n", RETURNS_TOLD)?;
    check_told(&rt, rt.alloc(), b"input a 1\nstart\nclose\ta\n", TAB_TOLD)?;
    check_told(
        &rt,
        rt.alloc(),
        b"\xef\xbb\xbfinput a 1\nstart\n",
        MARK_TOLD,
    )?;
    Ok(())
}
