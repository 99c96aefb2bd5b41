ghost use Rattle.std.specs.Prelude.{◌<◌};

use crate::{HeadFault, read_head, send};
use dup_http::{Allow, Answer, Ask, Method, Reading};
use dup_io::{Failed, MemorySink, MemorySource};
use dup_names::Path;
use std::alloc::Global;
use std::process::Abort;
use std::test::Fail;

// The head of a line with this text, in pieces of this size and with these reads failing, is read so.
fn head_is(
    rt: &(impl Abort + Alloc<A = Global>),
    name: &str,
    text: &[u8],
    piece: usize,
    fails: &[u64],
    want: &Result<Reading, HeadFault>,
) -> Result<(), Fail>
    requires { 0 < piece }
{
    let alloc = rt.alloc();
    let mut line = MemorySource::new(text.to_vec(alloc)?, piece, fails.to_vec(alloc)?);
    let mut bytes = Vec::new(alloc);
    let read = read_head(alloc, &mut line, &mut bytes);
    assert!(rt; read == *want, "{name}, in pieces of {piece}");
    Ok(())
}

const EVENT: &str = "GET /event/e1 HTTP/1.1\r\nHost: a\r\n\r\n";

fn asks_event() -> Reading {
    let ask = Ask {
        method: Method::Get,
        path: Path::read(b"/event/e1"),
        pass: 0,
        body: 0,
    };
    Reading::Complete(ask, EVENT.len())
}

#[test]
fn the_head_of_a_line_is_read(rt: HostRuntime) -> Result<(), Fail> {
    let fault = Err(HeadFault::ReadFault);
    for piece in [1, 7, 4096] {
        head_is(
            &rt,
            "whole",
            EVENT.as_bytes(),
            piece,
            &[],
            &Ok(asks_event()),
        )?;
        let two = b"GET / HTTP/1.1\r\nHost: a\r\nHost: a\r\n\r\n";
        head_is(&rt, "two Hosts", two, piece, &[], &Ok(Reading::Bad(400)))?;
        head_is(&rt, "no bytes", b"", piece, &[], &Ok(Reading::More))?;
        head_is(&rt, "cut", b"GET / HT", piece, &[], &Ok(Reading::More))?;
        head_is(&rt, "a failed read", b"GET / HT", piece, &[2], &fault)?;
    }
    Ok(())
}

#[test]
fn faults_are_told(rt: HostRuntime) -> Result<(), Fail> {
    for (fault, text) in [
        (HeadFault::ReadFault, "a read failed"),
        (HeadFault::NoMemory, "out of memory"),
    ] {
        assert_eq!(rt; fault.to_string(rt.alloc())?.as_str(), text);
    }
    Ok(())
}

// A sink that takes so many bytes at a time and fails these writes gets this, and the reply ends so.
fn reply_is(
    rt: &(impl Abort + Alloc<A = Global>),
    name: &str,
    method: Method,
    fails: &[u64],
    text: &str,
    want: Result<(), Failed>,
) -> Result<(), Fail> {
    let alloc = rt.alloc();
    let body = b"method not allowed\n";
    let answer = Answer {
        code: 405,
        page: false,
        length: 19,
        allow: Some(Allow::Post),
        edition: None,
        version: None,
        pass: None,
        cache: None,
    };
    let mut sink = MemorySink::new(alloc, 4096, 10, fails.to_vec(alloc)?)?;
    let room = Vec::with_capacity(alloc, 512)?;
    let sent = send(&mut sink, method, &answer, body, room);
    assert!(rt; sent == want, "{name}");
    assert!(rt; sink.written() == text.as_bytes(), "{name}");
    Ok(())
}

#[test]
fn a_reply_is_written(rt: HostRuntime) -> Result<(), Fail> {
    let head = "HTTP/1.1 405 Method Not Allowed\r\nContent-Type: text/plain; charset=utf-8\r\n\
                Content-Length: 19\r\nAllow: POST\r\nConnection: close\r\n\r\n";
    let whole = "HTTP/1.1 405 Method Not Allowed\r\nContent-Type: text/plain; charset=utf-8\r\n\
                 Content-Length: 19\r\nAllow: POST\r\nConnection: close\r\n\r\nmethod not allowed\n";
    reply_is(&rt, "GET", Method::Get, &[], whole, Ok(()))?;
    reply_is(&rt, "HEAD", Method::Head, &[], head, Ok(()))?;
    reply_is(
        &rt,
        "the second write fails",
        Method::Get,
        &[2],
        "HTTP/1.1 4",
        Err(Failed),
    )
}
