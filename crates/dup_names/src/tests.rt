use crate::{Bytes, Key, Meter, Name, Path, Text};
use std::test::Fail;

#[test]
fn names_are_read(rt: HostRuntime) {
    for (text, is_name) in [
        ("", false),
        ("a", true),
        ("a1_", true),
        ("1a", false),
        ("_a", false),
        ("A", false),
        ("a-b", false),
        ("abcdefghijklmnopqrstuvwxyz012345", true),
        ("abcdefghijklmnopqrstuvwxyz0123456", false),
    ] {
        assert_eq!(rt; Name::read(text.as_bytes()).is_some(), is_name, "at {text}");
    }
}

#[test]
fn keys_are_read(rt: HostRuntime) {
    for (text, is_key) in [
        ("", false),
        ("100m-final_2", true),
        ("-", true),
        ("a.b", false),
        ("abcdefghijklmnopqrstuvwxyz0123456789-_abcdefghij", true),
        ("abcdefghijklmnopqrstuvwxyz0123456789-_abcdefghijk", false),
    ] {
        assert_eq!(rt; Key::read(text.as_bytes()).is_some(), is_key, "at {text}");
    }
}

#[test]
fn paths_are_read(rt: HostRuntime) {
    for (text, is_path) in [
        ("", false),
        ("/", true),
        ("//", false),
        ("/a/", false),
        ("a", false),
        ("/event/e1", true),
        ("/style.css", true),
        ("/a//b", false),
        ("/A", false),
    ] {
        assert_eq!(rt; Path::read(text.as_bytes()).is_some(), is_path, "at {text}");
    }
}

#[test]
fn texts_are_read(rt: HostRuntime) -> Result<(), Fail> {
    let alloc = rt.alloc();
    let longest = [b'x'; 4097];
    assert!(rt; Text::read(alloc, &longest[..4096])?.is_some());
    assert!(rt; Text::read(alloc, &longest)?.is_none());
    assert!(rt; Text::read(alloc, b"\xff")?.is_none());
    let text = Text::read(alloc, "é".as_bytes())?.ok_or("a text")?;
    assert_eq!(rt; text.share()?.bytes(), "é".as_bytes());
    let bytes = Bytes::of(alloc, b"ab".to_vec(alloc)?)?;
    assert_eq!(rt; bytes.share()?.bytes(), b"ab".as_slice());
    Ok(())
}

#[test]
fn names_are_shown(rt: HostRuntime) -> Result<(), Fail> {
    let name = Name::read(b"event").ok_or("a name")?;
    assert_eq!(rt;
        format!(in rt.alloc(); "{name:?}")?.as_str(),
        "Name { text: event }"
    );
    let mut meter = Meter::new();
    meter.tick();
    assert_eq!(rt; meter.count(), 1);
    Ok(())
}
