//! Whole imports: the command file and the dictionary of a CSV file.
use crate::calls::imported;
use std::test::Fail;

const LEDGER: &str = "# a ledger\n\
table postings\n\
column Date valid date\n\
column Account row code\n\
column Amount weight decimal 2\n\
plan node by_account arrange postings 1\n\
plan node sums count by_account\n\
plan view balances sums\n\
ask read balances 2026-11-30 0\n\
shows balances account code\n\
shows balances balance decimal 2\n";

// A title that the schema does not name, a quoted field with a comma, and amounts of each sign. The
// day number of 2026-11-30 is 20787: 56 years of 365 days and 14 leap days are 20454 days, and 333
// more.
#[test]
fn a_small_ledger(rt: HostRuntime) -> Result<(), Fail> {
    let made = imported(
        rt.alloc(),
        LEDGER,
        b"Date,Text,Account,Amount\n\
1970-01-02,first,\"Rent, office\",12.5\n\
1970-01-03,second,Bank,-0.05\n",
    )?;
    assert_eq!(rt;
        made.commands.as_str(),
        "# postings: imported from CSV by bitview import\n\
input postings 1\n\
node by_account arrange postings 1\n\
node sums count by_account\n\
view balances sums\n\
start\n\
change postings 1 0 1250 0\n\
change postings 2 0 -5 1\n\
close postings\n\
read balances 20787 0\n"
    );
    assert_eq!(rt;
        made.dictionary.as_str(),
        "valid,date\n\
revision,whole\n\
column,balances,account,code\n\
column,balances,balance,decimal 2\n\
name,0,\"Rent, office\"\n\
name,1,Bank\n"
    );
    assert!(rt; made.records == 2 && made.changes == 2 && made.zeros == 0);
    Ok(())
}

const KINDS: &str = "table t\n\
column V valid whole\n\
column S revision whole\n\
column \"the weight\" weight signed\n\
column W row whole\n\
column S1 row signed\n\
column D0 row decimal 0\n\
column D9 row decimal 9\n\
column Day row date\n\
column Name row code\n";

// Each kind, with columns in another order than the schema's, a byte order mark, and lines that end
// in a carriage return and a newline.
#[test]
fn each_kind(rt: HostRuntime) -> Result<(), Fail> {
    let made = imported(
        rt.alloc(),
        KINDS,
        "\u{feff}Name,Day,D9,D0,S1,W,the weight,S,V\r\n\
Zoë \"Z\",1969-12-31,-1.000000001,+7,-8,007,-3,18446744073709551615,1\r\n\
\"a\r\nb\",2000-02-29,0.5,0,9223372036854775807,0,3,0,2\r\n"
            .as_bytes(),
    )?;
    assert_eq!(rt;
        made.commands.as_str(),
        "# t: imported from CSV by bitview import\n\
input t 6\n\
start\n\
change t 1 18446744073709551615 -3 7 -8 7 -1000000001 -1 0\n\
change t 2 0 3 0 9223372036854775807 0 500000000 11016 1\n\
close t\n"
    );
    assert_eq!(rt;
        made.dictionary.as_str(),
        "valid,whole\nrevision,whole\nname,0,\"Zoë \"\"Z\"\"\"\nname,1,\"a\r\nb\"\n"
    );
    Ok(())
}

const LARGE: &str = "table t\ncolumn A weight decimal 2\ncolumn K row whole\n";

// An amount above the limit comes in pieces of one sign that sum to it, and one of 0 is left out.
// Without a column for a time, it is 0.
#[test]
fn large_amounts_and_zeros(rt: HostRuntime) -> Result<(), Fail> {
    let made = imported(
        rt.alloc(),
        LARGE,
        b"A,K\n21474836.47,1\n21474836.48,2\n0.00,3\n-50000000,4\n42949672.94,5\n",
    )?;
    assert_eq!(rt;
        made.commands.as_str(),
        "# t: imported from CSV by bitview import\n\
input t 1\n\
start\n\
change t 0 0 2147483647 1\n\
change t 0 0 2147483647 2\n\
change t 0 0 1 2\n\
change t 0 0 -2147483647 4\n\
change t 0 0 -2147483647 4\n\
change t 0 0 -705032706 4\n\
change t 0 0 2147483647 5\n\
change t 0 0 2147483647 5\n\
close t\n"
    );
    assert!(rt; made.records == 5 && made.changes == 8 && made.zeros == 1);
    Ok(())
}

// Without a column for the weight it is 1, and a name that comes again has its number again. Two
// columns of names have one numbering.
#[test]
fn names_have_one_numbering(rt: HostRuntime) -> Result<(), Fail> {
    let made = imported(
        rt.alloc(),
        "table t\ncolumn A row code\ncolumn B row code\n",
        b"A,B\nx,y\ny,x\n,x\n",
    )?;
    assert_eq!(rt;
        made.commands.as_str(),
        "# t: imported from CSV by bitview import\n\
input t 2\n\
start\n\
change t 0 0 1 0 1\n\
change t 0 0 1 1 0\n\
change t 0 0 1 2 0\n\
close t\n"
    );
    assert_eq!(rt;
        made.dictionary.as_str(),
        "valid,whole\nrevision,whole\nname,0,x\nname,1,y\nname,2,\n"
    );
    Ok(())
}

// A file with titles alone is a table without changes.
#[test]
fn titles_alone(rt: HostRuntime) -> Result<(), Fail> {
    let made = imported(rt.alloc(), LARGE, b"K,A")?;
    assert_eq!(rt;
        made.commands.as_str(),
        "# t: imported from CSV by bitview import\ninput t 1\nstart\nclose t\n"
    );
    assert!(rt; made.records == 0);
    Ok(())
}
