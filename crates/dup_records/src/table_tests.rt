use crate::tests::{commit, put, remove, results};
use crate::{Change, Content, apply};
use dup_names::{Key, Name};
use std::alloc::Global;
use std::test::Fail;

// So many keys, in order.
fn keys(alloc: Global, count: u16) -> Result<Vec<Key>, Fail> {
    let mut keys = Vec::new(alloc);
    for number in 0..count {
        let text = format!(in alloc; "k{}", 10000 + u32::from(number))?;
        keys.push(Key::read(text.as_bytes()).ok_or("a key")?)?;
    }
    Ok(keys)
}

// The change that gives a row this text in its first field, or takes the row out at 0.
fn change(alloc: Global, key: &Key, text: u8) -> Result<Change, Fail> {
    if text == 0 {
        let name = Name::read(b"result").ok_or("a name")?;
        return Ok(Change::remove(name, *key));
    }
    let row = key.to_string(alloc)?;
    let text = format!(in alloc; "t{text}")?;
    put(alloc, "result", row.as_str(), &[("event", text.as_str())])
}

fn changed(alloc: Global, content: &Content, change: Change) -> Result<Content, Fail> {
    let mut changes = Vec::new(alloc);
    changes.push(change)?;
    let made = apply(alloc, content, &commit(changes)?, 4096)?;
    let made = made.copy(alloc)?;
    Ok(made)
}

// Whether a content has these rows, each with its text or 0 where it is absent, in its list and a group.
fn has_rows(alloc: Global, content: &Content, keys: &[Key], texts: &[u8]) -> Result<bool, Fail> {
    let mut all = Vec::new(alloc);
    let mut group = Vec::new(alloc);
    for (key, text) in keys.iter().zip(texts) {
        if *text > 0 {
            all.push(*key)?;
        }
        if *text == 2 {
            group.push(*key)?;
        }
    }
    let two = Key::read(b"t2").ok_or("a key")?;
    let listed = content.keys(alloc, 0)?;
    let grouped = content.group(alloc, 0, 0, &two)?;
    Ok(listed.items() == all.as_slice() && grouped.items() == group.as_slice())
}

// The text that a row gets in a round; the third takes every other row out.
fn text_in(round: usize, at: usize) -> u8 {
    match (round, at % 4) {
        (0, 0) => 1,
        (0, 1) => 2,
        (1, 1) => 3,
        (1, 2) => 2,
        (2, 0) => 0,
        (2, 2) => 0,
        _ => 4,
    }
}

// Puts so many rows in the order that a step gives, puts them again, and removes some.
fn follows(alloc: Global, count: u16, step: usize) -> Result<bool, Fail> {
    let keys = keys(alloc, count)?;
    let mut texts = vec![in alloc; 0u8; usize::from(count)]?;
    let mut content = results(alloc)?;
    let mut fine = true;
    for round in 0..3 {
        for number in 0..usize::from(count) {
            let at = number.wrapping_mul(step) % usize::from(count).max(1);
            let text = text_in(round, at);
            let Some(key) = keys.get(at) else {
                return Ok(false);
            };
            content = changed(alloc, &content, change(alloc, key, text)?)?;
            if let Some(place) = texts.get_mut(at) {
                *place = text;
            }
            fine = fine && has_rows(alloc, &content, &keys, &texts)?;
        }
    }
    Ok(fine)
}

#[test]
fn rows_follow_changes_in_any_order(rt: HostRuntime) -> Result<(), Fail> {
    let alloc = rt.alloc();
    for (count, step) in [(63, 1), (64, 63), (65, 64), (65, 1), (128, 127), (129, 37)] {
        assert!(rt; follows(alloc, count, step)?, "{count} rows by {step}");
    }
    Ok(())
}

#[test]
fn a_row_is_removed_in_the_middle(rt: HostRuntime) -> Result<(), Fail> {
    let alloc = rt.alloc();
    let keys = keys(alloc, 65)?;
    let mut content = results(alloc)?;
    for key in keys.iter().rev() {
        content = changed(alloc, &content, change(alloc, key, 1)?)?;
    }
    content = changed(alloc, &content, remove("result", "k10032")?)?;
    let mut left = Vec::new(alloc);
    for key in &keys {
        if key.bytes() != b"k10032".as_slice() {
            left.push(*key)?;
        }
    }
    assert_eq!(rt; left.len(), 64);
    assert_eq!(rt; content.keys(alloc, 0)?.items(), left.as_slice());
    Ok(())
}

#[test]
fn a_group_of_many_rows(rt: HostRuntime) -> Result<(), Fail> {
    let alloc = rt.alloc();
    let keys = keys(alloc, 4096)?;
    let mut content = results(alloc)?;
    for (number, key) in keys.iter().enumerate() {
        let text = if number % 1500 == 7 { 2 } else { 1 };
        content = changed(alloc, &content, change(alloc, key, text)?)?;
    }
    let two = Key::read(b"t2").ok_or("a key")?;
    let group = content.group(alloc, 0, 0, &two)?;
    assert_eq!(rt; group.items().len(), 3);
    assert_eq!(rt; content.keys(alloc, 0)?.items(), keys.as_slice());
    Ok(())
}
