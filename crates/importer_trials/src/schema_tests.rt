//! Faults of schemas, each with its exact text.
use crate::calls::schema_fault;
use std::alloc::Global;
use std::process::Abort;
use std::test::Fail;

// The schema has this fault.
fn expect<R: Abort>(rt: &R, alloc: Global, schema: &[u8], text: &str) -> Result<(), Fail> {
    let told = schema_fault(alloc, schema)?;
    assert_eq!(rt; told.as_str(), text);
    Ok(())
}

#[test]
fn lines(rt: HostRuntime) -> Result<(), Fail> {
    let alloc = rt.alloc();
    expect(
        &rt,
        alloc,
        b"table t\r\n # note\n\n  column A row code\n",
        "",
    )?;
    expect(
        &rt,
        alloc,
        b"# note\ntables t\n",
        "line 2: \"tables\" begins no line: table, column, plan, ask and shows do",
    )?;
    expect(&rt, alloc, b"table \"t\n", "line 1: a quote is not closed")?;
    expect(
        &rt,
        alloc,
        b"table t\n\xff\n",
        "line 2: the text is not UTF-8",
    )?;
    expect(
        &rt,
        alloc,
        b"table t u\n",
        "line 1: the line is not of the form: table NAME",
    )?;
    expect(
        &rt,
        alloc,
        b"column A row\n",
        "line 1: the line is not of the form: column TITLE ROLE KIND",
    )?;
    expect(
        &rt,
        alloc,
        b"shows v\n",
        "line 1: the line is not of the form: shows VIEW TITLE KIND",
    )?;
    Ok(())
}

#[test]
fn words(rt: HostRuntime) -> Result<(), Fail> {
    let alloc = rt.alloc();
    expect(
        &rt,
        alloc,
        b"table 9a\n",
        "line 1: \"9a\" is no name: 1 to 32 letters, digits and _, a letter first",
    )?;
    expect(
        &rt,
        alloc,
        b"column A column code\n",
        "line 1: \"column\" is no role: valid, revision, row and weight are roles",
    )?;
    expect(
        &rt,
        alloc,
        b"column A row decimal 10\n",
        "line 1: no kind: whole, signed, decimal N (N from 0 to 9), date and code are kinds",
    )?;
    expect(
        &rt,
        alloc,
        b"column A valid decimal 2\n",
        "line 1: a valid column is not a decimal with 2 places",
    )?;
    expect(
        &rt,
        alloc,
        b"ask read v 2026-02-29 0\n",
        "line 1: \"2026-02-29\" is no day from 1970-01-01 on",
    )?;
    Ok(())
}

#[test]
fn wholes(rt: HostRuntime) -> Result<(), Fail> {
    let alloc = rt.alloc();
    expect(
        &rt,
        alloc,
        b"table t\ntable u\n",
        "line 2: the table is named a second time",
    )?;
    expect(
        &rt,
        alloc,
        b"column A valid date\ncolumn B valid date\n",
        "line 2: a second valid column",
    )?;
    expect(
        &rt,
        alloc,
        b"column A row code\ncolumn A weight whole\n",
        "line 2: the column \"A\" is named a second time",
    )?;
    expect(
        &rt,
        alloc,
        b"column 1 row code\ncolumn 2 row code\ncolumn 3 row code\ncolumn 4 row code\n\
column 5 row code\ncolumn 6 row code\ncolumn 7 row code\ncolumn 8 row code\ncolumn 9 row code\n",
        "line 9: a ninth row column; a row has at most 8",
    )?;
    expect(&rt, alloc, b"", "line 1: no line names the table")?;
    expect(
        &rt,
        alloc,
        b"table t\n",
        "line 2: no column has the role row",
    )?;
    Ok(())
}
