//! Each code once, with the word that is marked.
use crate::expectations::{Example, check_all, check_told};
use std::test::Fail;

const NAMES: [Example; 3] = [
    Example {
        file: "\
input ledger 2
view postings ledger
start
read balanses 3 1
",
        told: "\
line 4 code 14: no such name, or a name of another sort
    read balanses 3 1
         ^^^^^^^^
1 fault, 0 warnings
",
    },
    Example {
        file: "\
input a 1
input a x
start
",
        told: "\
line 2 code 15: the name is taken
    input a x
          ^
    hint: `a` is an input already
1 fault, 0 warnings
",
    },
    Example {
        file: "\
input 9a 1
start
",
        told: "\
line 1 code 37: not a name
    input 9a 1
          ^^
    hint: a name is a letter, and then letters, digits and `_`, 32 in all at most
1 fault, 0 warnings
",
    },
];

#[test]
fn names_are_marked(rt: HostRuntime) -> Result<(), Fail> {
    Ok(check_all(&rt, rt.alloc(), &NAMES)?)
}

const COLUMNS: [Example; 3] = [
    Example {
        file: "\
input a 1
node f filter a c0 gt c1
start
",
        told: "\
line 2 code 16: no such column
    node f filter a c0 gt c1
                          ^^
    hint: `a` has 1 column, c0
1 fault, 0 warnings
",
    },
    Example {
        file: "\
input a 2
node m map a c2 c0
start
",
        told: "\
line 2 code 16: no such column
    node m map a c2 c0
                 ^^
    hint: `a` has 2 columns, c0 to c1
1 fault, 0 warnings
",
    },
    Example {
        file: "\
input a 2
input b 1
node c concat a b
start
",
        told: "\
line 3 code 17: two widths
    node c concat a b
                    ^
    hint: the width of `a` is 2, and that of `b` is 1
1 fault, 0 warnings
",
    },
];

#[test]
fn columns_are_marked(rt: HostRuntime) -> Result<(), Fail> {
    Ok(check_all(&rt, rt.alloc(), &COLUMNS)?)
}

const ARRANGED: [Example; 3] = [
    Example {
        file: "\
input a 2
node r arrange a 1
node j join r a
start
",
        told: "\
line 3 code 18: not arranged
    node j join r a
                  ^
    hint: read a node that arranges it, as `node NAME arrange a 1`
1 fault, 0 warnings
",
    },
    Example {
        file: "\
input a 2
node r arrange a 1
node s arrange a 2
node j join r s
start
",
        told: "\
line 4 code 19: arranged by different keys
    node j join r s
                  ^
    hint: the key of `r` is 1, and that of `s` is 2
1 fault, 0 warnings
",
    },
    Example {
        file: "\
input a 2
node r arrange a 3
start
",
        told: "\
line 2 code 21: no such key
    node r arrange a 3
                     ^
    hint: a key of `a` is 1 to 2 columns
1 fault, 0 warnings
",
    },
];

#[test]
fn keys_are_marked(rt: HostRuntime) -> Result<(), Fail> {
    Ok(check_all(&rt, rt.alloc(), &ARRANGED)?)
}

const WIDTHS: [Example; 3] = [
    Example {
        file: "\
input a 9
start
",
        told: "\
line 1 code 20: not 1 to 8 columns
    input a 9
            ^
    hint: a row has 1 to 8 columns
1 fault, 0 warnings
",
    },
    Example {
        file: "\
input a 1
node m map a =1 =2 =3 =4 =5 =6 =7 =8 =9 =10
start
",
        told: "\
line 2 code 20: not 1 to 8 columns
    node m map a =1 =2 =3 =4 =5 =6 =7 =8 =9 =10
                                         ^^
    hint: a row has 1 to 8 columns
1 fault, 0 warnings
",
    },
    Example {
        file: "\
input a 8
node r arrange a 1
node j join r r
start
",
        told: "\
line 3 code 20: not 1 to 8 columns
    node j join r r
           ^^^^
    hint: a row has 1 to 8 columns
1 fault, 0 warnings
",
    },
];

#[test]
fn widths_are_marked(rt: HostRuntime) -> Result<(), Fail> {
    Ok(check_all(&rt, rt.alloc(), &WIDTHS)?)
}

const WORDS: [Example; 5] = [
    Example {
        file: "\
input a 1
open a
start
",
        told: "\
line 2 code 31: unknown command, kind or comparison
    open a
    ^^^^
    hint: a line begins with input node view start change advance close allow read changes frontier
1 fault, 0 warnings
",
    },
    Example {
        file: "\
input a 1
node n sum a
start
",
        told: "\
line 2 code 31: unknown command, kind or comparison
    node n sum a
           ^^^
    hint: the kinds are map filter concat negate arrange join count distinct min max
1 fault, 0 warnings
",
    },
    Example {
        file: "\
input a 1
node f filter a c0 over =10
start
",
        told: "\
line 2 code 31: unknown command, kind or comparison
    node f filter a c0 over =10
                       ^^^^
    hint: the comparisons are eq ne lt le gt ge
1 fault, 0 warnings
",
    },
    Example {
        file: "\
input a 1
start
close a a
",
        told: "\
line 3 code 32: wrong number of words
    close a a
            ^
    hint: the line is `close INPUT`
1 fault, 0 warnings
",
    },
    Example {
        file: "\
input a 1
start
change a 0 zero 1 7
",
        told: "\
line 3 code 33: not a number, or not an item
    change a 0 zero 1 7
               ^^^^
1 fault, 0 warnings
",
    },
];

#[test]
fn words_are_marked(rt: HostRuntime) -> Result<(), Fail> {
    Ok(check_all(&rt, rt.alloc(), &WORDS)?)
}

const ORDERS: [Example; 3] = [
    Example {
        file: "\
read v 0 0
start
",
        told: "\
line 1 code 34: on the wrong side of `start`, a second `start`, or none
    read v 0 0
    ^^^^
    hint: no `start` stands before this line; it comes behind all inputs, nodes and views
1 fault, 0 warnings
",
    },
    Example {
        file: "\
# two of them

start
input a 1
  start
",
        told: "\
line 4 code 34: on the wrong side of `start`, a second `start`, or none
    input a 1
    ^^^^^
    hint: `start` is line 3; inputs, nodes and views stand before it
line 5 code 34: on the wrong side of `start`, a second `start`, or none
      start
      ^^^^^
    hint: line 3 is `start` already
2 faults, 0 warnings
",
    },
    Example {
        file: "# nothing",
        told: "\
line 2 code 34: on the wrong side of `start`, a second `start`, or none
    hint: the file has no `start`
1 fault, 0 warnings
",
    },
];

#[test]
fn orders_are_marked(rt: HostRuntime) -> Result<(), Fail> {
    Ok(check_all(&rt, rt.alloc(), &ORDERS)?)
}

const BAD_BYTE: &str = "\
line 2 code 36: not UTF-8
    view ? ? a
           ^
    hint: save the file as UTF-8
1 fault, 0 warnings
";

// A tab is UTF-8, and the byte 255 is not.
#[test]
fn a_bad_byte_is_marked(rt: HostRuntime) -> Result<(), Fail> {
    let file = b"input a 1\nview \t \xff a\nstart\n";
    check_told(&rt, rt.alloc(), file, BAD_BYTE)?;
    Ok(())
}

const TOO_MANY: &str = "\
line 257 code 13: too many inputs, nodes and views; 256 are taken
    input i256 1
          ^^^^
1 fault, 0 warnings
";

#[test]
fn the_name_behind_the_last_is_marked(rt: HostRuntime) -> Result<(), Fail> {
    let mut file = String::new(rt.alloc());
    for i in 0..257 {
        writeln!(file, "input i{i} 1")?;
    }
    file.push_str("start\n")?;
    check_told(&rt, rt.alloc(), file.as_bytes(), TOO_MANY)?;
    Ok(())
}

// A comment of 4097 bytes, of which 80 are shown and marked.
#[test]
fn a_long_line_is_cut(rt: HostRuntime) -> Result<(), Fail> {
    let mut file = String::from_str(rt.alloc(), "#")?;
    let mut told = String::from_str(rt.alloc(), "line 1 code 35: more than 4096 bytes\n    #")?;
    for _ in 0..4096 {
        file.push('x')?;
    }
    file.push_str("\nstart\n")?;
    for _ in 0..79 {
        told.push('x')?;
    }
    told.push_str(" ...\n    ")?;
    for _ in 0..80 {
        told.push('^')?;
    }
    told.push_str("\n1 fault, 0 warnings\n")?;
    check_told(&rt, rt.alloc(), file.as_bytes(), told.as_str())?;
    Ok(())
}

// The word at fault is in column 106, so the first columns are left out.
#[test]
fn a_mark_far_right_is_shown(rt: HostRuntime) -> Result<(), Fail> {
    let mut file = String::from_str(rt.alloc(), "start\nclose ")?;
    let mut told = String::from_str(
        rt.alloc(),
        "line 2 code 14: no such name, or a name of another sort\n    ... ",
    )?;
    for _ in 0..100 {
        file.push(' ')?;
    }
    file.push_str("b\n")?;
    for _ in 0..40 {
        told.push(' ')?;
    }
    told.push_str("b\n        ")?;
    for _ in 0..40 {
        told.push(' ')?;
    }
    told.push_str("^\n1 fault, 0 warnings\n")?;
    check_told(&rt, rt.alloc(), file.as_bytes(), told.as_str())?;
    Ok(())
}
