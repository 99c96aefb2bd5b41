ghost use Rattle.std.specs.Prelude.{◌≡◌, IfOk, IsTrue, length};
ghost use Rattle.std.specs.Option.{option_copied};
ghost use Rattle.dup_feed.specs.Feed.{feed_says};
ghost use Rattle.dup_template.specs.Good.{behind};
ghost use Rattle.dup_script.specs.Commands.{HasRoom, command_of, seen};
ghost use Rattle.dup_transcript.specs.Commands.{by_message, by_start, by_words, comes_alone, comes_with_slot, deliver_command, evict_command, four_words, get_command, if_more, message_of, mode_of, node_command, of_message, one_word, slot_command, three_words, two_words};
ghost use Rattle.dup_transcript.specs.Numbers.{number_of};

use crate::number::read_number;
use dup_feed::{FeedRefusal, read_commit};
use dup_model::Mode;
use dup_names::{NoMemory, Path, are_spaces, is_word, trimmed, words_of};
use dup_records::Commit;
use dup_transcript::Command;
use std::alloc::Global;

fn read_mode(word: &[u8]) -> Option<Mode>
    ensures { result ≡ mode_of word.now }
{
    if is_word(word, b"update") {
        Some(Mode::Update)
    } else if is_word(word, b"invalidate") {
        Some(Mode::Invalidate)
    } else {
        None
    }
}

fn node_command(number: &[u8], capacity: &[u8], mode: &[u8]) -> Command<Commit>
    ensures { result ≡ node_command (number_of number.now) (number_of capacity.now)
        (mode_of mode.now) }
{
    match (read_number(number), read_number(capacity), read_mode(mode)) {
        (Some(number @ 1..=16), Some(capacity @ 1..=65_536), Some(mode)) => Command::Node {
            number: number as u16,
            capacity: capacity as u32,
            mode,
        },
        _ => Command::Bad,
    }
}

fn get_command(node: &[u8], pass: &[u8], path: &[u8]) -> Command<Commit>
    ensures { result ≡ get_command (number_of node.now) (number_of pass.now) path.now }
{
    match (read_number(node), read_number(pass), Path::read(path)) {
        (Some(node @ 1..=16), Some(pass), Some(path)) => Command::Get {
            node: node as u16,
            pass,
            path,
        },
        _ => Command::Bad,
    }
}

fn deliver_command(node: &[u8]) -> Command<Commit>
    ensures { result ≡ deliver_command (number_of node.now) }
{
    match read_number(node) {
        Some(node @ 1..=16) => Command::Deliver(node as u16),
        _ => Command::Bad,
    }
}

fn evict_command(node: &[u8], path: &[u8]) -> Command<Commit>
    ensures { result ≡ evict_command (number_of node.now) path.now }
{
    match (read_number(node), Path::read(path)) {
        (Some(node @ 1..=16), Some(path)) => Command::Evict {
            node: node as u16,
            path,
        },
        _ => Command::Bad,
    }
}

// Whether it is a command of one word that isn't built.
fn comes_alone(word: &[u8]) -> bool
    ensures { result ≡ comes_alone word.now }
{
    is_word(word, b"begin")
        || is_word(word, b"join")
        || is_word(word, b"finish")
        || is_word(word, b"publish")
}

// Whether it is a command of a slot, none of which is built.
fn comes_with_slot(word: &[u8]) -> bool
    ensures { result ≡ comes_with_slot word.now }
{
    is_word(word, b"hand") || is_word(word, b"put")
}

fn slot_command(slot: &[u8]) -> Command<Commit>
    ensures { result ≡ slot_command (number_of slot.now) }
{
    match read_number(slot) {
        Some(1..=64) => Command::NotBuilt,
        _ => Command::Bad,
    }
}

fn one_word(word: &[u8]) -> Command<Commit>
    ensures { result ≡ one_word word.now }
{
    if is_word(word, b"settle") {
        Command::Settle
    } else if is_word(word, b"status") {
        Command::Status
    } else if comes_alone(word) {
        Command::NotBuilt
    } else {
        Command::Bad
    }
}

fn two_words(word: &[u8], a: &[u8]) -> Command<Commit>
    ensures { result ≡ two_words word.now a.now }
{
    if is_word(word, b"deliver") {
        deliver_command(a)
    } else if comes_with_slot(word) {
        slot_command(a)
    } else {
        Command::Bad
    }
}

fn three_words(word: &[u8], a: &[u8], b: &[u8]) -> Command<Commit>
    ensures { result ≡ three_words word.now a.now b.now }
{
    if is_word(word, b"evict") {
        evict_command(a, b)
    } else {
        Command::Bad
    }
}

fn four_words(word: &[u8], a: &[u8], b: &[u8], c: &[u8]) -> Command<Commit>
    ensures { result ≡ four_words word.now a.now b.now c.now }
{
    if is_word(word, b"node") {
        node_command(a, b, c)
    } else if is_word(word, b"get") {
        get_command(a, b, c)
    } else {
        Command::Bad
    }
}

#[tactic(auto, using(crate::proofs::WordLemmas::by_number))]
fn by_words(words: &[&[u8]]) -> Command<Commit>
    ensures { result ≡ by_words (seen words.now) }
{
    match words.len() {
        1 => one_word(words[0]),
        2 => two_words(words[0], words[1]),
        3 => three_words(words[0], words[1], words[2]),
        4 => four_words(words[0], words[1], words[2], words[3]),
        _ => Command::Bad,
    }
}

fn commit_command(alloc: Global, message: &[u8]) -> Result<Command<Commit>, NoMemory>
    ensures { IfOk result (λ command. command ≡ of_message (feed_says message.now)) }
{
    match read_commit(alloc, message) {
        Ok(commit) => Ok(Command::Commit(commit)),
        Err(FeedRefusal::NoMemory) => Err(NoMemory),
        Err(why) => Ok(Command::BadFeed(why)),
    }
}

fn message_of(text: &[u8]) -> Option<&[u8]>
    ensures { option_copied result ≡ message_of text.now }
{
    match text.strip_prefix(b"commit ") {
        Some(rest) if !are_spaces(rest) => Some(rest),
        _ => None,
    }
}

fn by_start(alloc: Global, text: &[u8]) -> Result<Command<Commit>, NoMemory>
    ensures { IfOk result (λ command. command ≡ by_start feed_says text.now) }
{
    match text {
        [] | [b'#', ..] => Ok(Command::Blank),
        [_, ..] => match message_of(text) {
            Some(message) => commit_command(alloc, message),
            None => {
                let words = words_of(alloc, text)?;
                Ok(by_words(&words))
            }
        },
    }
}

/// The command of a line.
pub fn read_command(alloc: Global, text: &[u8]) -> Result<Command<Commit>, NoMemory>
    ensures command { IfOk result (λ command. command ≡ command_of text.now) }
    ensures room { IfOk result HasRoom }
{
    by_start(alloc, trimmed(text))
}
