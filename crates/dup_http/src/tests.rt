use crate::{Allow, Answer, Ask, CacheWord, Method, Reading, read_ask, reply_head};
use dup_names::{NoMemory, Path};
use std::alloc::Global;
use std::process::Abort;
use std::test::Fail;

// What is read of a text that comes byte by byte, until no more is wanted.
fn by_bytes(alloc: Global, text: &[u8]) -> Result<Reading, NoMemory> {
    for i in 0..text.len() {
        let reading = read_ask(alloc, &text[..i])?;
        if reading != Reading::More {
            return Ok(reading);
        }
    }
    read_ask(alloc, text)
}

// A text is read so, whole and byte by byte.
fn reads(
    rt: &(impl Abort + Alloc<A = Global>),
    name: &str,
    text: &[u8],
    want: &Reading,
) -> Result<(), Fail> {
    let whole = read_ask(rt.alloc(), text)?;
    assert!(rt; whole == *want, "{name}");
    let cut = by_bytes(rt.alloc(), text)?;
    assert!(rt; cut == *want, "{name}, byte by byte");
    Ok(())
}

#[test]
fn heads_are_refused(rt: HostRuntime) -> Result<(), Fail> {
    let rows: [(&str, &str, u16); 24] = [
        ("no Host in HTTP/1.1", "GET / HTTP/1.1\r\n\r\n", 400),
        (
            "two Hosts",
            "GET / HTTP/1.1\r\nHost: a\r\nHost: a\r\n\r\n",
            400,
        ),
        (
            "two Hosts in HTTP/1.0",
            "GET / HTTP/1.0\r\nHost: a\r\nhOST: b\r\n\r\n",
            400,
        ),
        ("no slash", "GET x HTTP/1.1\r\nHost: a\r\n\r\n", 400),
        (
            "a target with its host",
            "GET http://a/ HTTP/1.1\r\nHost: a\r\n\r\n",
            400,
        ),
        (
            "chunked",
            "GET / HTTP/1.1\r\nHost: a\r\nTransfer-Encoding: chunked\r\n\r\n",
            501,
        ),
        (
            "chunked, before a bad length",
            "GET / HTTP/1.1\r\nHost: a\r\ntransfer-encoding: chunked\r\nContent-Length: x\r\n\r\n",
            501,
        ),
        (
            "chunked, without Host",
            "GET / HTTP/1.1\r\nTransfer-Encoding: chunked\r\n\r\n",
            400,
        ),
        (
            "two lengths",
            "GET / HTTP/1.1\r\nHost: a\r\nContent-Length: 1\r\ncontent-length: 1\r\n\r\n",
            400,
        ),
        (
            "an empty length",
            "GET / HTTP/1.1\r\nHost: a\r\nContent-Length:\r\n\r\n",
            400,
        ),
        (
            "a length with a sign",
            "GET / HTTP/1.1\r\nHost: a\r\nContent-Length: +1\r\n\r\n",
            400,
        ),
        (
            "a body of 262,145 bytes",
            "GET /event/e1 HTTP/1.1\r\nHost: a\r\nDUP-Pass: 1\r\nContent-Length: 262145\r\n\r\n",
            413,
        ),
        (
            "a body too long, before a bad pass",
            "GET / HTTP/1.1\r\nHost: a\r\nContent-Length: 262145\r\nDUP-Pass: x\r\n\r\n",
            413,
        ),
        (
            "a body of 2^64 bytes",
            "GET / HTTP/1.1\r\nHost: a\r\nContent-Length: 18446744073709551616\r\n\r\n",
            413,
        ),
        (
            "a pass of 2^64",
            "GET / HTTP/1.1\r\nHost: a\r\nDUP-Pass: 18446744073709551616\r\n\r\n",
            400,
        ),
        (
            "a pass of 21 digits",
            "GET / HTTP/1.1\r\nHost: a\r\nDUP-Pass: 000000000000000000001\r\n\r\n",
            400,
        ),
        (
            "two passes",
            "GET / HTTP/1.1\r\nHost: a\r\nDUP-Pass: 1\r\ndup-pass: 1\r\n\r\n",
            400,
        ),
        ("HTTP/2.0", "GET / HTTP/2.0\r\nHost: a\r\n\r\n", 400),
        ("no version", "GET /\r\n\r\n", 400),
        (
            "a name with a space",
            "GET / HTTP/1.1\r\nHost: a\r\nA b: c\r\n\r\n",
            400,
        ),
        (
            "a space behind a name",
            "GET / HTTP/1.1\r\nHost : a\r\n\r\n",
            400,
        ),
        (
            "an empty name",
            "GET / HTTP/1.1\r\nHost: a\r\n: c\r\n\r\n",
            400,
        ),
        (
            "a value with a byte of control",
            "GET / HTTP/1.1\r\nHost: a\u{1}b\r\n\r\n",
            400,
        ),
        (
            "a value on two lines",
            "GET / HTTP/1.1\r\nHost: a\r\n b\r\n\r\n",
            400,
        ),
    ];
    for (name, text, code) in rows {
        reads(&rt, name, text.as_bytes(), &Reading::Bad(code))?;
    }
    Ok(())
}

// What a text asks, its whole length being the head.
fn complete(text: &str, method: Method, path: &str, pass: u64, body: u32) -> Reading {
    let ask = Ask {
        method,
        path: Path::read(path.as_bytes()),
        pass,
        body,
    };
    Reading::Complete(ask, text.len())
}

#[test]
fn heads_say_what_is_asked(rt: HostRuntime) -> Result<(), Fail> {
    let rows: [(&str, &str, Method, &str, u64, u32); 11] = [
        (
            "GET",
            "GET /event/e1 HTTP/1.1\r\nHost: a\r\nDUP-Pass: 1\r\n\r\n",
            Method::Get,
            "/event/e1",
            1,
            0,
        ),
        (
            "HEAD",
            "HEAD /event/e1 HTTP/1.1\r\nHost: a\r\nDUP-Pass: 1\r\n\r\n",
            Method::Head,
            "/event/e1",
            1,
            0,
        ),
        (
            "POST",
            "POST /event/e1 HTTP/1.1\r\nHost: a\r\nDUP-Pass: 1\r\n\r\n",
            Method::Post,
            "/event/e1",
            1,
            0,
        ),
        (
            "a pass of 2",
            "GET /event/e1 HTTP/1.1\r\nHost: a\r\nDUP-Pass: 2\r\n\r\n",
            Method::Get,
            "/event/e1",
            2,
            0,
        ),
        ("HTTP/1.0", "GET / HTTP/1.0\n\n", Method::Get, "/", 0, 0),
        (
            "a query",
            "GET /event/e1?a=/b?c HTTP/1.1\r\nHost:\r\n\r\n",
            Method::Get,
            "/event/e1",
            0,
            0,
        ),
        (
            "no path",
            "GET /event/E1 HTTP/1.1\r\nHost: a\r\n\r\n",
            Method::Get,
            "",
            0,
            0,
        ),
        (
            "the largest pass",
            "GET / HTTP/1.1\r\nHost: a\r\ndup-pass: \t18446744073709551615 \r\n\r\n",
            Method::Get,
            "/",
            u64::MAX,
            0,
        ),
        (
            "the largest body",
            "POST /commit HTTP/1.1\r\nDUP-Pass: 007\r\nHost: a\r\nContent-Length: 0262144\r\n\r\n",
            Method::Post,
            "/commit",
            7,
            262_144,
        ),
        (
            "a method in lower case",
            "get / HTTP/1.1\r\nHost: a\r\n\r\n",
            Method::Other,
            "/",
            0,
            0,
        ),
        (
            "an empty line in front",
            "\r\nGET / HTTP/1.1\r\nHost: a\r\n\r\n",
            Method::Get,
            "/",
            0,
            0,
        ),
    ];
    for (name, text, method, path, pass, body) in rows {
        let want = complete(text, method, path, pass, body);
        reads(&rt, name, text.as_bytes(), &want)?;
    }
    Ok(())
}

#[test]
fn a_body_stands_behind_its_head(rt: HostRuntime) -> Result<(), Fail> {
    let head = "POST /commit HTTP/1.1\r\nHost: a\r\nContent-Length: 4\r\n\r\n";
    let text = "POST /commit HTTP/1.1\r\nHost: a\r\nContent-Length: 4\r\n\r\n\r\n\r\n";
    let want = complete(head, Method::Post, "/commit", 0, 4);
    reads(&rt, "a body of line ends", text.as_bytes(), &want)
}

#[test]
fn a_cut_head_wants_more(rt: HostRuntime) -> Result<(), Fail> {
    for (name, text) in [
        ("no byte", ""),
        ("a method", "GE"),
        ("an end of line cut in two", "GET /event/e1 HTTP/1.1\r"),
        ("no empty line", "GET /event/e1 HTTP/1.1\r\nHost: a\r\n"),
    ] {
        reads(&rt, name, text.as_bytes(), &Reading::More)?;
    }
    Ok(())
}

// A head with a Host and this line so many times, and this end.
fn long(alloc: Global, line: &str, times: usize, end: &str) -> Result<Vec<u8>, NoMemory> {
    let mut text = Vec::new(alloc);
    text.extend_from_slice(b"GET / HTTP/1.1\r\nHost: a\r\n")?;
    for _ in 0..times {
        text.extend_from_slice(line.as_bytes())?;
    }
    text.extend_from_slice(end.as_bytes())?;
    Ok(text)
}

#[test]
fn a_head_can_be_too_large(rt: HostRuntime) -> Result<(), Fail> {
    let rows: [(&str, &str, usize, &str, u16); 5] = [
        ("8,192 bytes without end", "A", 8167, "", 431),
        ("9,000 bytes, one field", "A", 8975, ": b\r\n\r\n", 431),
        ("8,193 bytes", "A", 8161, ": b\r\n\r\n", 431),
        ("65 fields", "A: b\r\n", 64, "\r\n", 431),
        ("66 fields without end", "A: b\r\n", 65, "", 431),
    ];
    for (name, line, times, end, code) in rows {
        let text = long(rt.alloc(), line, times, end)?;
        reads(&rt, name, text.as_slice(), &Reading::Bad(code))?;
    }
    Ok(())
}

#[test]
fn a_head_can_be_as_large_as_that(rt: HostRuntime) -> Result<(), Fail> {
    let rows: [(&str, &str, usize, &str); 2] = [
        ("8,192 bytes", "A", 8160, ": b\r\n\r\n"),
        ("64 fields", "A: b\r\n", 63, "\r\n"),
    ];
    for (name, line, times, end) in rows {
        let text = long(rt.alloc(), line, times, end)?;
        let ask = Ask {
            method: Method::Get,
            path: Path::read(b"/"),
            pass: 0,
            body: 0,
        };
        let want = Reading::Complete(ask, text.len());
        reads(&rt, name, text.as_slice(), &want)?;
    }
    Ok(())
}

#[test]
fn a_reply_has_its_fields_in_order(rt: HostRuntime) -> Result<(), Fail> {
    let bare = Answer {
        code: 405,
        page: false,
        length: 19,
        allow: Some(Allow::GetHead),
        edition: None,
        version: None,
        pass: None,
        cache: None,
    };
    let full = Answer {
        code: 200,
        page: true,
        length: 13,
        allow: Some(Allow::Post),
        edition: Some(1),
        version: Some(2),
        pass: Some(u64::MAX),
        cache: Some(CacheWord::Miss),
    };
    for (name, answer, text) in [
        (
            "few fields",
            bare,
            "HTTP/1.1 405 Method Not Allowed\r\nContent-Type: text/plain; charset=utf-8\r\n\
             Content-Length: 19\r\nAllow: GET, HEAD\r\nConnection: close\r\n\r\n",
        ),
        (
            "all fields",
            full,
            "HTTP/1.1 200 OK\r\nContent-Type: text/html; charset=utf-8\r\nContent-Length: 13\r\n\
             Allow: POST\r\nDUP-Edition: 1\r\nDUP-Version: 2\r\nDUP-Pass: 18446744073709551615\r\n\
             DUP-Cache: miss\r\nConnection: close\r\n\r\n",
        ),
    ] {
        let mut out = Vec::new(rt.alloc());
        reply_head(&answer, &mut out)?;
        assert!(rt; out.as_slice() == text.as_bytes(), "{name}");
    }
    Ok(())
}
