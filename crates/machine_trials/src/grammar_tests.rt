//! Parsing, the one call here that takes memory: if an allocation is refused, the fault says so and
//! names a line of the file.
use grammar::parse;

// The script has a line for each kind of thing that takes memory: words, a name, a node, items,
// numbers, times and a command.
const TEXT: &[u8] = b"input a 1\nnode m map a =5\nstart\nadvance a 0 1\n";

#[test]
fn reading_takes_memory(rt: HostRuntime) {
    let read = match parse(rt.alloc(), TEXT) {
        Err(fault) => {
            assert!(rt; fault.code == 1 && 1 <= fault.line && fault.line <= 4);
            parse(rt.alloc(), TEXT)
        }
        done => done,
    };
    assert!(rt; read.is_ok());
}
