ghost use Rattle.std.specs.Prelude.{◌<◌};

use crate::{
    Duplex, Failed, LineFault, Lines, MemoryLine, MemorySink, MemorySource, PIECE_BYTES, Sink,
    Source, put_all,
};
use std::alloc::Global;
use std::process::Abort;
use std::test::Fail;

// The lines of a text that is read in pieces of this size, with these reads failing, and what ends them.
fn lines_are(
    rt: &(impl Abort + Alloc<A = Global>),
    text: &[u8],
    piece: usize,
    fails: &[u64],
    lines: &[&[u8]],
    end: Result<(), LineFault>,
) -> Result<(), Fail>
    requires { 0 < piece }
{
    let alloc = rt.alloc();
    let mut source = MemorySource::new(text.to_vec(alloc)?, piece, fails.to_vec(alloc)?);
    let mut reader = Lines::new(&mut source);
    for want in lines {
        let Some(line) = reader.next(alloc)? else {
            return Err(Fail::from("a line is missing"));
        };
        assert_eq!(rt; line.bytes.as_slice(), *want, "in pieces of {piece}");
    }
    for _ in 0..2 {
        match reader.next(alloc) {
            Ok(line) => assert!(rt; line.is_none() && end.is_ok()),
            Err(fault) => assert_eq!(rt; Err(fault), end, "in pieces of {piece}"),
        }
    }
    Ok(())
}

#[test]
fn a_text_has_its_lines(rt: HostRuntime) -> Result<(), Fail> {
    for piece in [1, 7, PIECE_BYTES] {
        lines_are(&rt, b"", piece, &[], &[], Ok(()))?;
        lines_are(&rt, b"\n", piece, &[], &[b""], Ok(()))?;
        lines_are(&rt, b"a\r\n\nb\r", piece, &[], &[b"a", b"", b"b\r"], Ok(()))?;
    }
    lines_are(
        &rt,
        b"a\nb\nc\n",
        2,
        &[3],
        &[b"a", b"b"],
        Err(LineFault::ReadFault),
    )
}

// Reads once and writes what was read.
fn echo<L: Duplex>(line: &mut L) -> Result<(), Failed> {
    let mut place = [0; 4];
    let count = line.read(&mut place)?;
    put_all(line, &place[..count])
}

#[test]
fn a_line_reads_and_writes(rt: HostRuntime) -> Result<(), Fail> {
    let alloc = rt.alloc();
    let source = MemorySource::new(b"abcd".to_vec(alloc)?, 3, Vec::new(alloc));
    let sink = MemorySink::new(alloc, 3, 2, vec![in alloc; 3]?)?;
    let mut line = MemoryLine::new(source, sink);
    echo(&mut line)?;
    assert_eq!(rt; line.sink().written(), b"abc".as_slice());
    for _ in 0..2 {
        assert_eq!(rt; line.write(b"x"), Err(Failed));
    }
    Ok(())
}

#[test]
fn faults_are_told(rt: HostRuntime) -> Result<(), Fail> {
    let alloc = rt.alloc();
    for (fault, text) in [
        (LineFault::ReadFault, "a read failed"),
        (LineFault::LineTooLong(7), "line 7 is too long"),
        (LineFault::InputTooLong, "the input is too long"),
        (LineFault::NoMemory, "out of memory"),
    ] {
        assert_eq!(rt; fault.to_string(alloc)?.as_str(), text, "at {fault:?}");
    }
    assert_eq!(rt;
        Failed.to_string(alloc)?.as_str(),
        "a read or a write failed"
    );
    Ok(())
}
