// The line that says why a text is no good site's.
ghost use Rattle.std.specs.Prelude.{◌≡◌, ◌≤◌, ◌+◌, ◌++◌, IsOk, OnErr, OnOk, length, vec_capacity, vec_len};
ghost use Rattle.arrayvec.specs.ArrayVec.{array_vec_len};
ghost use Rattle.dup_transcript.specs.BadSites.{bad_site_text, cause_text, rule_text, what_word};

use crate::line::{Line, append, put, put_labelled};
use dup_names::NoMemory;
use dup_template::{SiteRefusal, SiteTextRefusal, What};

fn what_word(what: What) -> &'static [u8]
    ensures value { result.now ≡ what_word what }
    ensures short { length result.now ≤ 10 }
{
    match what {
        What::Kinds => b"kinds",
        What::Fields => b"fields",
        What::Templates => b"templates",
        What::Pages => b"pages",
        What::Statements => b"statements",
        What::Nesting => b"nesting",
    }
}

fn put_cause(out: &mut Line, wrong: &[u8], with: &[u8])
    requires { array_vec_len out.old + (length wrong.now + length with.now) ≤ 512 }
    ensures text { out.new.items ≡ out.old.items ++ (wrong.now ++ with.now) }
    ensures len { array_vec_len out.new ≡ array_vec_len out.old + (length wrong.now + length with.now) }
{
    put(out, wrong);
    put(out, with);
}

/// A rule that is broken, in words.
#[tactic(auto, using(crate::proofs::LineTexts::short_names))]
pub(crate) fn put_rule(out: &mut Line, why: SiteRefusal)
    requires { array_vec_len out.old + 220 ≤ 512 }
    ensures text { out.new.items ≡ out.old.items ++ rule_text why }
    ensures len { array_vec_len out.new ≤ array_vec_len out.old + 220 }
{
    match why {
        SiteRefusal::Twice(name) => put_cause(out, b"twice ", name.bytes()),
        SiteRefusal::Unknown(name) => put_cause(out, b"unknown ", name.bytes()),
        SiteRefusal::LaterTemplate(name) => put_cause(out, b"later ", name.bytes()),
        SiteRefusal::WrongKind(name) => put_cause(out, b"wrong kind ", name.bytes()),
        SiteRefusal::NoPage(name) => put_cause(out, b"no page ", name.bytes()),
        SiteRefusal::PathClash(path) => put_cause(out, b"path clash ", path.bytes()),
        SiteRefusal::TooMany(what) => put_cause(out, b"too many ", what_word(what)),
        SiteRefusal::NoMemory => {}
    }
}

fn put_site_cause(out: &mut Line, why: SiteTextRefusal)
    requires { array_vec_len out.old + 220 ≤ 512 }
    ensures text { out.new.items ≡ out.old.items ++ cause_text why }
    ensures len { array_vec_len out.new ≤ array_vec_len out.old + 220 }
{
    match why {
        SiteTextRefusal::BadLine(number) => put_labelled(out, b"line ", number),
        SiteTextRefusal::Check(why) => put_rule(out, why),
        SiteTextRefusal::NoMemory => {}
    }
}

fn put_bad_site(out: &mut Line, why: SiteTextRefusal)
    requires { array_vec_len out.old ≡ 0 }
    ensures { out.new.items ≡ out.old.items ++ bad_site_text why }
{
    put(out, b"bad site: ");
    put_site_cause(out, why);
    put(out, b"\n");
}

/// Appends the line that says why a text is no good site's. Where memory runs out nothing is appended, and
/// with 512 bytes to spare it doesn't. Want of memory is none of the causes.
pub fn bad_site_text(why: SiteTextRefusal, out: &mut Vec<u8>) -> Result<(), NoMemory>
    ensures ok { OnOk result (out.new.items ≡ out.old.items ++ bad_site_text why) }
    ensures err { OnErr result (out.new.items ≡ out.old.items) }
    ensures room { vec_len out.old + 512 ≤ vec_capacity out.old → IsOk result }
{
    let mut line = Line::new();
    put_bad_site(&mut line, why);
    append(&line, out)
}
