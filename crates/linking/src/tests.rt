// What no contract of linking says: that memory suffices, so that a script links and lists, or is refused for its fault.
use crate::{Linked, Stop, link};
use script::{Empty, Read};
use std::alloc::Global;
use std::test::Fail;
use words::{Fault, Refusal};

fn read(heap: Global, text: &[u8]) -> Result<Read, Fail> {
    Empty::new(heap)?
        .read(text)
        .map_err(|_| Fail::new("the text is not read"))
}

fn linked(heap: Global, text: &[u8]) -> Result<Linked, Fail> {
    link(read(heap, text)?, heap).map_err(|_| Fail::new("the script is not linked"))
}

// Why a script that is read is not linked.
fn stop_of(heap: Global, text: &[u8]) -> Result<Stop, Fail> {
    match link(read(heap, text)?, heap) {
        Ok(_) => Err(Fail::new("the script is linked")),
        Err(unlinked) => Ok(unlinked.stop),
    }
}

// A channel and a body of one name, and targets at the end of their bodies.
#[test]
fn a_script_links_and_lists(rt: HostRuntime) -> Result<(), Fail> {
    let text = b"VC w 1\nRT main\nGO w\nSE 1\nCR w v0 v1 4\nJP 4\nRT w\nSD w v0\n";
    let mut out = [0u8; 64];
    let listed = linked(rt.alloc(), text)?.list(&mut out).ok();
    assert_eq!(rt; listed, Some(text.len()));
    assert!(rt; out.starts_with(text));
    Ok(())
}

// The lowest number of the first faulty line; that there is no `main` is found last.
#[test]
fn a_fault_has_its_number_and_line(rt: HostRuntime) -> Result<(), Fail> {
    let unknown = stop_of(rt.alloc(), b"VC a 0\nRT main\nSD b v0\nJP 9\n")?;
    assert_eq!(rt; unknown, Stop::Faulty(Refusal::Unknown.at(3)));
    let wild = stop_of(rt.alloc(), b"RT w\nJP 2\n")?;
    assert_eq!(rt; wild, Stop::Faulty(Refusal::Wild.at(2)));
    let no_main = stop_of(rt.alloc(), b"RT w\nJP 1\n")?;
    assert_eq!(rt; no_main, Stop::Faulty(Refusal::Unknown.at(0)));
    Ok(())
}
