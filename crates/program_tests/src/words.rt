//! Words that ask for nothing, and made-up scripts. Neither reads the source.
use crate::commands::{TABLE, status_of_long, words_of};
use pcc_io::{MemSink, MemSource};
use pccrun_core::run;
use std::test::Fail;

const USAGE: &[u8] = b"usage: pccrun show|build|cpc|step|weave|threads|audit|make N|raise\n";

#[test]
fn words_that_ask_for_nothing(rt: HostRuntime) -> Result<(), Fail> {
    let alloc = rt.alloc();
    for text in [
        "step x",
        "make",
        "make 0",
        "make 4097",
        "make 04",
        "make 4 4",
        "Step",
        "raise x",
        "audit x",
        "",
    ] {
        let words = words_of(alloc, text)?;
        let mut source = MemSource::new(alloc, TABLE, 100, &[1])?;
        let mut sink = MemSink::new(alloc, 100, 100, &[])?;
        assert_eq!(rt; run(alloc, &words, &mut source, &mut sink).status, 2);
        assert_eq!(rt; sink.bytes_held(), USAGE);
        assert_eq!(rt; source.bytes_left(), TABLE);
    }
    Ok(())
}

#[test]
fn summaries_of_made_up_scripts(rt: HostRuntime) -> Result<(), Fail> {
    let alloc = rt.alloc();
    let rows: [(&str, &[u8]); 2] = [
        (
            "make 2",
            b"calls 2\nok 2\nerror 0\ntimed out 0\nstill pending 0\nother 0\nrecords 2\npending 0\nsum 1\n",
        ),
        (
            "make 4",
            b"calls 4\nok 3\nerror 0\ntimed out 1\nstill pending 0\nother 0\nrecords 3\npending 1\nsum 923\n",
        ),
    ];
    for (words, text) in rows {
        let words = words_of(alloc, words)?;
        let mut source = MemSource::new(alloc, TABLE, 100, &[1])?;
        let mut sink = MemSink::new(alloc, 200, 100, &[])?;
        assert_eq!(rt; run(alloc, &words, &mut source, &mut sink).status, 0);
        assert_eq!(rt; sink.bytes_held(), text);
        assert_eq!(rt; source.bytes_left(), TABLE);
    }
    Ok(())
}

const MADE: &[u8] =
    b"calls 4096\nok 3072\nerror 0\ntimed out 1024\nstill pending 0\nother 0\nrecords 4095\npending 1\nsum 4175423\n";

#[test]
fn the_longest_made_up_script(rt: HostRuntime) -> Result<(), Fail> {
    let alloc = rt.alloc();
    assert_eq!(rt; status_of_long(alloc, "make 4096", b"", MADE)?, Some(0));
    Ok(())
}
