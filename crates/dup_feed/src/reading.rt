// A feed message is read.
ghost use Rattle.std.specs.Prelude.{◌≡◌, ◌≤◌, Ok, length, option_map, MatchResult};
ghost use Rattle.serde_json.specs.View.{view, items_view};
ghost use Rattle.dup_names.specs.declared.limits.TheConstants.{MAX_CHANGES};
ghost use Rattle.dup_feed.specs.Feed as feed;
ghost use Rattle.dup_feed.specs.Feed.{feed_says, Reads};

use crate::change::{change, count};
use dup_model::FeedRefusal;
use dup_names::MAX_CHANGES;
use dup_records::{Change, Commit};
use serde_json::Value;
use std::alloc::Global;
use std::str;

/// The JSON value of bytes.
fn json(alloc: Global, bytes: &[u8]) -> Result<Value, FeedRefusal>
    ensures { feed.ReadsJson result (feed.json_of bytes.now) }
{
    let Ok(text) = str::from_utf8(bytes) else {
        return Err(FeedRefusal::NotJson);
    };
    match Value::from_str(alloc, text) {
        Ok(value) => Ok(value),
        Err(fault) => {
            if fault.is_memory() {
                Err(FeedRefusal::NoMemory)
            } else {
                Err(FeedRefusal::NotJson)
            }
        }
    }
}

/// The elements of the one member `changes`, where that is an array.
fn elements(value: &Value) -> Option<&[Value]>
    ensures { option_map (λ found. items_view found.now) result ≡ feed.changes_of (view value.now) }
{
    if count(value) != 1 {
        return None;
    }
    let Some(found) = value.get("changes") else {
        return None;
    };
    let Some(elements) = found.as_array() else {
        return None;
    };
    Some(elements.as_slice())
}

fn changes(alloc: Global, elements: &[Value]) -> Result<Vec<Change>, FeedRefusal>
    requires { length elements.now ≤ MAX_CHANGES }
    ensures { MatchResult result (λ made. feed.each_from 1 (items_view elements.now) ≡ Ok made.items)
        (λ e. feed.Refuses e (feed.each_from 1 (items_view elements.now))) }
{
    let mut made = Vec::new(alloc);
    for i in 0..elements.len() {
        let Some(change) = change(alloc, &elements[i])? else {
            return Err(FeedRefusal::Shape(i as u32 + 1));
        };
        made.push(change)?;
    }
    Ok(made)
}

/// The commit that a value says.
fn commit_of(alloc: Global, value: &Value) -> Result<Commit, FeedRefusal>
    ensures { Reads result (feed.array_says (feed.changes_of (view value.now))) }
{
    let Some(elements) = elements(value) else {
        return Err(FeedRefusal::Shape(0));
    };
    if elements.is_empty() {
        return Err(FeedRefusal::Shape(0));
    }
    if elements.len() > MAX_CHANGES {
        return Err(FeedRefusal::TooMany(elements.len() as u64));
    }
    let changes = changes(alloc, elements)?;
    match Commit::of(changes) {
        Some(commit) => Ok(commit),
        None => Err(FeedRefusal::Shape(0)),
    }
}

/// The commit that a feed message says, or why it says none: `NotJson` where the bytes are no JSON
/// text, then `Shape(0)`, `TooMany` and `Shape` with an element's number, in this order. Which member
/// counts where one stands twice is what `serde_json` reads: the last.
pub fn read_commit(alloc: Global, bytes: &[u8]) -> Result<Commit, FeedRefusal>
    ensures { Reads result (feed_says bytes.now) }
{
    let value = json(alloc, bytes)?;
    commit_of(alloc, &value)
}
