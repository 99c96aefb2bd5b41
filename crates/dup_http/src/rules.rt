// The rules for a whole head.
ghost use Rattle.std.specs.Prelude.{◌≡◌, codes, map};
ghost use Rattle.dup_http.specs.Asks.{is_host as host_rule, starts_with_slash as slash_rule, rules, first_broken, ask_of};
ghost use Rattle.dup_http.specs.Fields.{seen, found, body_of, pass_of, unless};

use crate::ask::{Ask, method_named, target_path};
use crate::fields::{Field, first};
use crate::numbers::{is_digits, number};

/// The longest body, in bytes.
const MAX_BODY: u64 = 262_144;

fn is_host(minor: u8, fields: &[Field]) -> bool
    ensures { result ≡ host_rule minor (found (map seen fields.now) (codes "host")) }
{
    match first(fields, "host") {
        None => minor == 0,
        Some((_, rest)) => first(rest, "host").is_none(),
    }
}

fn starts_with_slash(target: &[u8]) -> bool
    ensures { result ≡ slash_rule target.now }
{
    matches!(target, [b'/', ..])
}

/// How many bytes of body follow, or the code of the refusal.
fn body(fields: &[Field]) -> Result<u32, u16>
    ensures { result ≡ body_of (found (map seen fields.now) (codes "content-length")) }
{
    let Some((word, rest)) = first(fields, "content-length") else {
        return Ok(0);
    };
    if first(rest, "content-length").is_some() || !is_digits(word) {
        return Err(400);
    }
    match number(word) {
        Some(body) if body <= MAX_BODY => Ok(body as u32),
        _ => Err(413),
    }
}

/// The edition that the client has seen, or the code of the refusal.
fn pass(fields: &[Field]) -> Result<u64, u16>
    ensures { result ≡ pass_of (found (map seen fields.now) (codes "dup-pass")) }
{
    let Some((word, rest)) = first(fields, "dup-pass") else {
        return Ok(0);
    };
    if first(rest, "dup-pass").is_some() || !is_digits(word) || word.len() > 20 {
        return Err(400);
    }
    number(word).ok_or(400)
}

/// What a head asks, or the code of the first rule that it breaks.
pub(crate) fn ask(minor: u8, method: &[u8], target: &[u8], fields: &[Field]) -> Result<Ask, u16>
    ensures { result ≡ unless (first_broken (rules minor target.now (found (map seen fields.now))))
        (ask_of method.now target.now (found (map seen fields.now))) }
{
    if !is_host(minor, fields) || !starts_with_slash(target) {
        return Err(400);
    }
    if first(fields, "transfer-encoding").is_some() {
        return Err(501);
    }
    let body = body(fields)?;
    let pass = pass(fields)?;
    Ok(Ask {
        method: method_named(method),
        path: target_path(target),
        pass,
        body,
    })
}
