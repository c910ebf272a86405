//! Answers of a run as tables.
use crate::calls::{show_fault, shown};
use std::alloc::Global;
use std::process::Abort;
use std::test::Fail;

const NAMES: &str = "valid,date\n\
revision,whole\n\
column,balances,account,code\n\
column,balances,balance,decimal 2\n\
name,0,\"Rent, \"\"office\"\"\"\n\
name,1,Bank\n";

// Each answer: rows with names, a code that has no name, a view of which nothing is known, no rows,
// and a refused line. 2932897 is the day after 9999-12-31, and -719529 the one before 0000-01-01.
#[test]
fn each_answer(rt: HostRuntime) -> Result<(), Fail> {
    let text = shown(
        rt.alloc(),
        NAMES,
        b"read balances 20787 0 3\n\
1 0 -1250\n\
1 1 5\n\
-2 7 100\n\
read other 0 1 1\n\
3 -4 5 6\n\
changes balances 1\n\
2932896 3 -1 1 0\n\
frontier balances 1\n\
2932897 18446744073709551615\n\
read balances 0 0 0\n\
frontier other 0\n\
refused 15 8\n",
    )?;
    assert_eq!(rt;
        text.as_str(),
        "read,balances,2026-11-30,0\n\
weight,account,balance\n\
1,\"Rent, \"\"office\"\"\",-12.50\n\
1,Bank,0.05\n\
-2,7,1.00\n\
\n\
read,other,1970-01-01,1\n\
weight,c0,c1,c2\n\
3,-4,5,6\n\
\n\
changes,balances\n\
valid,revision,weight,account,balance\n\
9999-12-31,3,-1,Bank,0.00\n\
\n\
frontier,balances\n\
valid,revision\n\
2932897,18446744073709551615\n\
\n\
read,balances,1970-01-01,0\n\
weight,account,balance\n\
\n\
frontier,other\n\
valid,revision\n\
\n\
refused,15,8\n\
\n"
    );
    Ok(())
}

// The run's text has this fault.
fn expect<R: Abort>(rt: &R, alloc: Global, run: &[u8], text: &str) -> Result<(), Fail> {
    let told = show_fault(alloc, NAMES, run)?;
    assert_eq!(rt; told.as_str(), text);
    Ok(())
}

#[test]
fn faults(rt: HostRuntime) -> Result<(), Fail> {
    let alloc = rt.alloc();
    expect(&rt, alloc, b"", "")?;
    expect(
        &rt,
        alloc,
        b"ok 1 2\n",
        "line 1: no answer of a run begins so",
    )?;
    expect(
        &rt,
        alloc,
        b"read v x 0 1\n",
        "line 1: no answer of a run begins so",
    )?;
    expect(
        &rt,
        alloc,
        b"read v 0 0 2\n1 1\n1 2 3\n",
        "line 3: no row of the answer before it",
    )?;
    expect(
        &rt,
        alloc,
        b"frontier v 1\n1\n",
        "line 2: no row of the answer before it",
    )?;
    expect(
        &rt,
        alloc,
        b"read v 0 0 1\n1 x\n",
        "line 2: no row of the answer before it",
    )?;
    expect(
        &rt,
        alloc,
        b"read v 0 0 2\n1 1\n",
        "line 3: the text ends within an answer",
    )?;
    expect(
        &rt,
        alloc,
        b"refused 1 8\n\xff\n",
        "line 2: the text is not UTF-8",
    )?;
    Ok(())
}
