// The texts of the answers.
ghost use Rattle.std.specs.Prelude.{◌≡◌, ◌≤◌, ◌+◌, ◌++◌, IsOk, OnErr, OnOk, codes, length, vec_capacity, vec_len};
ghost use Rattle.std.specs.Fmt.{decimal};
ghost use Rattle.arrayvec.specs.ArrayVec.{array_vec_len};
ghost use Rattle.dup_names.specs.Lines.{line as line_text};
ghost use Rattle.dup_machine.specs.World.{Told};
ghost use Rattle.dup_transcript.specs.BadSites.{rule_text};
ghost use Rattle.dup_transcript.specs.Texts.{bad_feed_text, found_line, how_word, settled_text, status_text, told_text, version_word, yes_or_no};
ghost use Rattle.dup_script.specs.Answers.{IsLine, how_of, refused_text, said_line, said_text};

use crate::line::{Line, append, put, put_labelled, put_number, put_numbered};
use crate::said::{HowWord, Said};
use crate::site_texts::put_rule;
use dup_model::FeedRefusal;
use dup_names::NoMemory;
use dup_records::CommitRefusal;
use dup_template::SiteRefusal;

// A refusal that names a change.
fn put_at_change(out: &mut Line, what: &[u8], change: u16)
    requires room { array_vec_len out.old ≡ 0 }
    requires short { length what.now ≤ 20 }
    ensures { out.new.items ≡ out.old.items
        ++ line_text (codes "refused " ++ (what.now ++ (codes " at " ++ decimal change))) }
{
    put(out, b"refused ");
    put(out, what);
    put_labelled(out, b" at ", u64::from(change));
    put(out, b"\n");
}

fn put_bad_body(out: &mut Line, change: u16, why: SiteRefusal)
    requires { array_vec_len out.old ≡ 0 }
    ensures { out.new.items ≡ out.old.items
        ++ line_text (codes "refused bad body at " ++ decimal change ++ codes ": " ++ rule_text why) }
{
    put_labelled(out, b"refused bad body at ", u64::from(change));
    put(out, b": ");
    put_rule(out, why);
    put(out, b"\n");
}

fn put_refused(out: &mut Line, why: CommitRefusal)
    requires { array_vec_len out.old ≡ 0 }
    ensures { out.new.items ≡ out.old.items ++ refused_text why }
{
    match why {
        CommitRefusal::UnknownKind(change) => put_at_change(out, b"unknown kind", change),
        CommitRefusal::UnknownField(change) => put_at_change(out, b"unknown field", change),
        CommitRefusal::NoRow(change) => put_at_change(out, b"no row", change),
        CommitRefusal::KindFull(change) => put_at_change(out, b"kind full", change),
        CommitRefusal::JournalFull {
            commits: _,
            bytes: _,
        } => put(out, b"refused journal full\n"),
        CommitRefusal::UnknownTemplate(change) => put_at_change(out, b"unknown template", change),
        CommitRefusal::BadBody(change, rule) => put_bad_body(out, change, rule),
        CommitRefusal::NoMemory => {}
    }
}

fn put_bad_feed(out: &mut Line, why: FeedRefusal)
    requires { array_vec_len out.old ≡ 0 }
    ensures { out.new.items ≡ out.old.items ++ bad_feed_text why }
{
    match why {
        FeedRefusal::NotJson => put(out, b"refused not json\n"),
        FeedRefusal::Shape(change) => put_numbered(out, b"refused shape ", u64::from(change)),
        FeedRefusal::TooMany(_) => put(out, b"refused too many changes\n"),
        FeedRefusal::NoMemory => {}
    }
}

fn put_settled(
    out: &mut Line,
    version: u64,
    edition: u64,
    bundles: u64,
    expanded: u64,
    joined: u64,
    kept: u64,
)
    requires { array_vec_len out.old ≡ 0 }
    ensures { out.new.items ≡ out.old.items ++ settled_text edition bundles
        (record { version = version; expanded = expanded; joined = joined; kept = kept }) }
{
    put_labelled(out, b"settled ", version);
    put_labelled(out, b" edition ", edition);
    put_labelled(out, b" bundles ", bundles);
    put_labelled(out, b" expanded ", expanded);
    put_labelled(out, b" joined ", joined);
    put_numbered(out, b" kept ", kept);
}

fn put_version(out: &mut Line, version: Option<u64>)
    requires { array_vec_len out.old + 20 ≤ 512 }
    ensures text { out.new.items ≡ out.old.items ++ version_word version }
    ensures len { array_vec_len out.new ≤ array_vec_len out.old + 20 }
{
    match version {
        Some(version) => put_number(out, version),
        None => put(out, b"-"),
    }
}

fn yes_or_no(is_so: bool) -> &'static [u8]
    ensures value { result.now ≡ yes_or_no is_so }
    ensures short { length result.now ≤ 3 }
{
    if is_so { b"yes" } else { b"no" }
}

fn put_status(
    out: &mut Line,
    version: u64,
    work: Option<u64>,
    target: Option<u64>,
    edition: u64,
    pending: bool,
)
    requires { array_vec_len out.old ≡ 0 }
    ensures { out.new.items ≡ out.old.items ++ status_text (record {
      version = version;
      work = work;
      target = target;
      edition = edition;
      pending = pending;
    }) }
{
    put_labelled(out, b"version ", version);
    put(out, b" work ");
    put_version(out, work);
    put(out, b" target ");
    put_version(out, target);
    put_labelled(out, b" edition ", edition);
    put(out, b" pending ");
    put(out, yes_or_no(pending));
    put(out, b"\n");
}

fn how_word(how: HowWord) -> &'static [u8]
    ensures value { result.now ≡ how_word (how_of how) }
    ensures short { length result.now ≤ 6 }
{
    match how {
        HowWord::Hit => b"hit",
        HowWord::Miss => b"miss",
        HowWord::Unkept => b"unkept",
    }
}

fn put_found(out: &mut Line, edition: u64, version: u64, how: HowWord, bytes: u64)
    requires { array_vec_len out.old ≡ 0 }
    ensures { out.new.items ≡ out.old.items ++ found_line edition version (how_of how) bytes }
{
    put_labelled(out, b"found ", edition);
    put_labelled(out, b" ", version);
    put(out, b" ");
    put(out, how_word(how));
    put_numbered(out, b" ", bytes);
}

// The line of an answer of a node.
fn put_node_line(out: &mut Line, node: u16, rest: &[u8])
    requires room { array_vec_len out.old ≡ 0 }
    requires short { length rest.now ≤ 20 }
    ensures { out.new.items ≡ out.old.items ++ line_text (codes "node " ++ decimal node ++ rest.now) }
{
    put_labelled(out, b"node ", u64::from(node));
    put(out, rest);
    put(out, b"\n");
}

fn put_delivered(out: &mut Line, node: u16, edition: u64, entries: u32)
    requires { array_vec_len out.old ≡ 0 }
    ensures { out.new.items ≡ out.old.items ++ told_text (Told.Delivered node edition entries) }
{
    put_labelled(out, b"delivered ", u64::from(node));
    put_labelled(out, b" edition ", edition);
    put_numbered(out, b" entries ", u64::from(entries));
}

fn put_ahead(out: &mut Line, pass: u64, edition: u64)
    requires { array_vec_len out.old ≡ 0 }
    ensures { out.new.items ≡ out.old.items ++ told_text (Told.Ahead pass edition) }
{
    put_labelled(out, b"ahead ", pass);
    put_numbered(out, b" ", edition);
}

// The line of an answer.
fn put_line(out: &mut Line, said: &Said)
    requires { array_vec_len out.old ≡ 0 }
    ensures { out.new.items ≡ out.old.items ++ said_line said.now }
{
    match said {
        Said::Node(node) => put_numbered(out, b"node ", u64::from(*node)),
        Said::NodeTaken(node) => put_node_line(out, *node, b" taken"),
        Said::NoNode(node) => put_numbered(out, b"no node ", u64::from(*node)),
        Said::Committed(version) => put_numbered(out, b"committed ", *version),
        Said::Refused(why) => put_refused(out, *why),
        Said::BadFeed(why) => put_bad_feed(out, *why),
        Said::Settled {
            version,
            edition,
            bundles,
            expanded,
            joined,
            kept,
        } => put_settled(out, *version, *edition, *bundles, *expanded, *joined, *kept),
        Said::Delivered {
            node,
            edition,
            entries,
        } => put_delivered(out, *node, *edition, *entries),
        Said::Found {
            edition,
            version,
            how,
            bytes,
        } => put_found(out, *edition, *version, *how, bytes.bytes().len() as u64),
        Said::Absent(edition) => put_numbered(out, b"absent ", *edition),
        Said::Ahead { pass, edition } => put_ahead(out, *pass, *edition),
        Said::Evicted => put(out, b"evicted\n"),
        Said::NotKept => put(out, b"not kept\n"),
        Said::Status {
            version,
            work,
            target,
            edition,
            pending,
        } => put_status(out, *version, *work, *target, *edition, *pending),
        Said::NotBuilt(number) => put_numbered(out, b"not built ", *number),
        Said::BadLine(number) => put_numbered(out, b"bad line ", *number),
    }
}

fn line_of(said: &Said) -> Line
    ensures { result.items ≡ said_line said.now }
{
    let mut out = Line::new();
    put_line(&mut out, said);
    out
}

// Appends a line and a page behind it, for both of which it takes the room first.
fn append_page(line: &Line, page: &[u8], out: &mut Vec<u8>) -> Result<(), NoMemory>
    ensures ok { OnOk result (out.new.items ≡ out.old.items ++ (line.now.items ++ line_text page.now)) }
    ensures err { OnErr result (out.new.items ≡ out.old.items) }
{
    let line = line.as_slice();
    out.reserve(line.len() + page.len() + 1)?;
    out.extend_from_slice(line)?;
    out.extend_from_slice(page)?;
    out.push(b'\n')?;
    Ok(())
}

/// Appends what is written of an answer: its line, and behind that of a page the page's bytes and a line
/// feed. Where memory runs out nothing is appended. With 512 bytes to spare it doesn't for an answer of one
/// line, which is every one but that of a page.
pub fn said_text(said: &Said, out: &mut Vec<u8>) -> Result<(), NoMemory>
    ensures ok { OnOk result (out.new.items ≡ out.old.items ++ said_text said.now) }
    ensures err { OnErr result (out.new.items ≡ out.old.items) }
    ensures room { IsLine said.now → vec_len out.old + 512 ≤ vec_capacity out.old → IsOk result }
{
    let line = line_of(said);
    match said {
        Said::Found {
            edition: _,
            version: _,
            how: _,
            bytes,
        } => append_page(&line, bytes.bytes(), out),
        _ => append(&line, out),
    }
}
