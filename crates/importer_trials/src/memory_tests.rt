//! Where memory is refused, the answer says so, and the same call made again gives the whole text.
use dictionary::{Problem, dictionary_text, read_dictionary};
use importer::{ImportFault, SchemaProblem, import, read_schema};
use output::MemoryOut;
use presenter::{ShowProblem, show};
use std::alloc::Global;
use std::test::Fail;

// What came of an attempt. `MemoryOut` fails only if memory is refused.
#[derive(Drop)]
enum Attempt {
    Done(Vec<u8>, Vec<u8>),
    Refused,
    Wrong,
}

const SCHEMA: &[u8] =
    b"table t\ncolumn A row code\nplan view v t\nask read v 0 0\nshows v a code\n";

const FILE: &[u8] = b"A\n\"x,y\"\nz\n";

const COMMANDS: &[u8] = b"# t: imported from CSV by bitview import\n\
input t 1\nview v t\nstart\nchange t 0 0 1 0\nchange t 0 0 1 1\nclose t\nread v 0 0\n";

const NAMES: &[u8] = b"valid,whole\nrevision,whole\ncolumn,v,a,code\nname,0,\"x,y\"\nname,1,z\n";

fn imports(alloc: Global) -> Attempt {
    let schema = match read_schema(alloc, SCHEMA) {
        Ok(schema) => schema,
        Err(fault) => {
            return match fault.problem {
                SchemaProblem::OutOfMemory => Attempt::Refused,
                _ => Attempt::Wrong,
            };
        }
    };
    let mut out = MemoryOut::new(alloc);
    let made = match import(alloc, &schema, FILE, &mut out) {
        Ok(made) => made,
        Err(ImportFault::OutOfMemory | ImportFault::Write) => return Attempt::Refused,
        Err(_) => return Attempt::Wrong,
    };
    match (
        dictionary_text(alloc, &made.dictionary),
        out.bytes().to_vec(alloc),
    ) {
        (Ok(names), Ok(commands)) => Attempt::Done(commands, names),
        _ => Attempt::Refused,
    }
}

#[test]
fn an_import_takes_memory(rt: HostRuntime) -> Result<(), Fail> {
    let alloc = rt.alloc();
    let mut attempt = imports(alloc);
    if let Attempt::Refused = attempt {
        attempt = imports(alloc);
    }
    match attempt {
        Attempt::Done(commands, names) => {
            assert_eq!(rt; commands.as_slice(), COMMANDS);
            assert_eq!(rt; names.as_slice(), NAMES);
        }
        _ => assert!(rt; false, "the second import is done"),
    }
    Ok(())
}

const RUN: &[u8] = b"read v 0 0 2\n1 0\n1 1\n";

const TABLES: &[u8] = b"read,v,0,0\nweight,a\n1,\"x,y\"\n1,z\n\n";

fn shows(alloc: Global) -> Attempt {
    let dictionary = match read_dictionary(alloc, NAMES) {
        Ok(dictionary) => dictionary,
        Err(fault) => {
            return match fault.problem {
                Problem::OutOfMemory => Attempt::Refused,
                _ => Attempt::Wrong,
            };
        }
    };
    let mut out = MemoryOut::new(alloc);
    match show(alloc, &dictionary, RUN, &mut out) {
        Ok(()) => match out.bytes().to_vec(alloc) {
            Ok(tables) => Attempt::Done(tables, Vec::new(alloc)),
            Err(_) => Attempt::Refused,
        },
        Err(fault) => match fault.problem {
            ShowProblem::OutOfMemory | ShowProblem::Write => Attempt::Refused,
            _ => Attempt::Wrong,
        },
    }
}

#[test]
fn tables_take_memory(rt: HostRuntime) -> Result<(), Fail> {
    let alloc = rt.alloc();
    let mut attempt = shows(alloc);
    if let Attempt::Refused = attempt {
        attempt = shows(alloc);
    }
    match attempt {
        Attempt::Done(tables, _) => assert_eq!(rt; tables.as_slice(), TABLES),
        _ => assert!(rt; false, "the second time the tables are written"),
    }
    Ok(())
}
