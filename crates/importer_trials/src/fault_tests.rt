//! Faults of CSV files, each with its exact text.
use crate::calls::import_fault;
use std::alloc::Global;
use std::process::Abort;
use std::test::Fail;

const LEDGER: &str = "table t\n\
column Date valid date\n\
column Account row code\n\
column Amount weight decimal 2\n";

// The import of the file has this fault.
fn expect<R: Abort>(rt: &R, alloc: Global, file: &[u8], text: &str) -> Result<(), Fail> {
    let told = import_fault(alloc, LEDGER, file)?;
    assert_eq!(rt; told.as_str(), text);
    Ok(())
}

#[test]
fn titles(rt: HostRuntime) -> Result<(), Fail> {
    let alloc = rt.alloc();
    expect(
        &rt,
        alloc,
        b"",
        "line 1: no record with the titles of the columns",
    )?;
    expect(
        &rt,
        alloc,
        b"\n\nDate,Account\n",
        "line 3: no column has the title \"Amount\"",
    )?;
    expect(
        &rt,
        alloc,
        b"Date,Amount,Account,Date\n",
        "line 1: two columns have the title \"Date\"",
    )?;
    Ok(())
}

#[test]
fn fields(rt: HostRuntime) -> Result<(), Fail> {
    let alloc = rt.alloc();
    expect(
        &rt,
        alloc,
        b"Date,Account,Amount\r\n1970-01-01,Bank,1\r\n\r\n1970-01-01,Bank,\"12,5\"\r\n",
        "line 4, column Amount: \"12,5\" is no decimal with 2 places",
    )?;
    expect(
        &rt,
        alloc,
        b"Date,Account,Amount\n1970-01-01,\"two\nlines\",1\n1970-02-29,Bank,1\n",
        "line 4, column Date: \"1970-02-29\" is no date YYYY-MM-DD",
    )?;
    expect(
        &rt,
        alloc,
        b"Date,Account,Amount\n1969-12-31,Bank,1\n",
        "line 2, column Date: \"1969-12-31\" is before 1970-01-01",
    )?;
    expect(
        &rt,
        alloc,
        b"Date,Account,Amount\n1970-01-01,\xff,1\n",
        "line 2, column Account: not UTF-8",
    )?;
    Ok(())
}

#[test]
fn records(rt: HostRuntime) -> Result<(), Fail> {
    let alloc = rt.alloc();
    expect(
        &rt,
        alloc,
        b"Date,Account,Amount\n1970-01-01,Bank,1\n1970-01-01,Bank\n",
        "line 3: 2 fields, but there are 3 titles",
    )?;
    // 1048576 changes are taken: that many pieces of 21474836.47 are 22517998126366.72, and this is
    // a cent more.
    expect(
        &rt,
        alloc,
        b"Date,Account,Amount\n1970-01-01,Bank,22517998126366.73\n",
        "line 2: more than 1048576 changes, counting each piece of a large amount",
    )?;
    Ok(())
}

// A long field is cut to 80 characters.
#[test]
fn long_fields(rt: HostRuntime) -> Result<(), Fail> {
    expect(
        &rt,
        rt.alloc(),
        "Date,Account,Amount\n1970-01-01,Bank,éééééééééééééééééééééééééééééééééééééééééééééééééééééééééééééééééééééééééééééééééééé\n".as_bytes(),
        "line 2, column Amount: \"éééééééééééééééééééééééééééééééééééééééééééééééééééééééééééééééééééééééééééééééé\" is no decimal with 2 places",
    )
}
