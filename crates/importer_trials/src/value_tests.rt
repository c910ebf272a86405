//! Values of each kind, and dictionaries.
use dictionary::{
    Kind, Names, Places, dictionary_text, read_dictionary, read_number, read_time, write_value,
};
use std::alloc::Global;
use std::process::Abort;
use std::test::Fail;

// The text spells the number, and the number is written as the other text.
fn both<R: Abort>(
    rt: &R,
    alloc: Global,
    kind: Kind,
    text: &str,
    number: i64,
    written: &str,
) -> Result<(), Fail> {
    assert_eq!(rt; read_number(kind, text), Some(number));
    let names = Names::new(alloc);
    let mut out = String::new(alloc);
    write_value(&mut out, kind, number, &names)?;
    assert_eq!(rt; out.as_str(), written);
    Ok(())
}

#[test]
fn amounts(rt: HostRuntime) -> Result<(), Fail> {
    let alloc = rt.alloc();
    let two = Kind::Decimal(Places::new(2).ok_or("two places")?);
    both(&rt, alloc, two, "0", 0, "0.00")?;
    both(&rt, alloc, two, "-0", 0, "0.00")?;
    both(&rt, alloc, two, "+12.5", 1250, "12.50")?;
    both(&rt, alloc, two, "-0.05", -5, "-0.05")?;
    both(&rt, alloc, two, "0012.00", 1200, "12.00")?;
    both(
        &rt,
        alloc,
        two,
        "92233720368547758.07",
        i64::MAX,
        "92233720368547758.07",
    )?;
    for bad in [
        "",
        "-",
        ".5",
        "1.",
        "1.234",
        "12,5",
        " 1",
        "1e2",
        "--1",
        "1.-5",
        "92233720368547758.08",
    ] {
        assert_eq!(rt; read_number(two, bad), None);
    }
    Ok(())
}

#[test]
fn days(rt: HostRuntime) -> Result<(), Fail> {
    let alloc = rt.alloc();
    both(&rt, alloc, Kind::Date, "1970-01-01", 0, "1970-01-01")?;
    both(&rt, alloc, Kind::Date, "2000-02-29", 11016, "2000-02-29")?;
    both(&rt, alloc, Kind::Date, "0000-01-01", -719528, "0000-01-01")?;
    both(&rt, alloc, Kind::Date, "9999-12-31", 2932896, "9999-12-31")?;
    for bad in [
        "1900-02-29",
        "2000-13-01",
        "2000-00-01",
        "2000-01-00",
        "2000-1-1",
        "20000-01-01",
        "2000/01/01",
    ] {
        assert_eq!(rt; read_number(Kind::Date, bad), None);
    }
    assert_eq!(rt; read_time(Kind::Date, "1969-12-31"), None);
    assert_eq!(rt;
        read_time(Kind::Whole, "18446744073709551615"),
        Some(u64::MAX)
    );
    assert_eq!(rt; read_time(Kind::Whole, "18446744073709551616"), None);
    assert_eq!(rt; read_number(Kind::Whole, "9223372036854775808"), None);
    assert_eq!(rt; read_number(Kind::Whole, "-1"), None);
    assert_eq!(rt; read_number(Kind::Signed, "1.0"), None);
    Ok(())
}

// A dictionary that is written reads back as the same one.
#[test]
fn dictionaries_read_back(rt: HostRuntime) -> Result<(), Fail> {
    let alloc = rt.alloc();
    let text =
        "valid,date\nrevision,whole\ncolumn,v,\"a \"\"b\"\"\",decimal 9\ncolumn,v,c,signed\ncolumn,w,d,date\nname,0,\"x,y\"\nname,1,\"line\nbreak\"\nname,2,Zoë\n";
    let read = read_dictionary(alloc, text.as_bytes())?;
    let again = dictionary_text(alloc, &read)?;
    assert_eq!(rt; again.as_slice(), text.as_bytes());
    Ok(())
}

#[test]
fn faulty_dictionaries(rt: HostRuntime) -> Result<(), Fail> {
    let alloc = rt.alloc();
    for (text, told) in [
        (
            "valid,date,x\n",
            "line 1: no record of a dictionary: valid, revision, column and name begin one",
        ),
        (
            "valid,date\nrevision,week\n",
            "line 2: no kind: whole, signed, decimal N (N from 0 to 9), date and code are kinds",
        ),
        (
            "name,0,a\nname,2,b\n",
            "line 2: names are numbered from 0 on, one by one, and each has one number",
        ),
        (
            "name,0,a\nname,1,a\n",
            "line 2: names are numbered from 0 on, one by one, and each has one number",
        ),
    ] {
        match read_dictionary(alloc, text.as_bytes()) {
            Ok(_) => assert!(rt; false, "a fault"),
            Err(fault) => {
                let fault = format!(in alloc; "{fault}")?;
                assert_eq!(rt; fault.as_str(), told);
            }
        }
    }
    Ok(())
}
