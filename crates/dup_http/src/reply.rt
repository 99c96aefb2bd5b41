// The head of a reply.
ghost use Rattle.std.specs.Prelude.{◌≡◌, ◌≤◌, ◌<◌, ◌+◌, ◌^◌, IfSome, ◌++◌, length, codes, Some, IsSome, option_map, OnOk, OnErr, IsOk, vec_len, vec_capacity};
ghost use Rattle.std.specs.Fmt.{decimal};
ghost use Rattle.std.specs.List.{flat_map};
ghost use Rattle.arrayvec.specs.ArrayString.{array_string_len};
ghost use Rattle.dup_http.specs.Replies.{reason as reason_of, content_type as type_of, given, allow_text, cache_text, field_line, reply_fields, status_line as line_of, reply_head as head_text, IsReadAs};

use crate::answer::{Allow, Answer, CacheWord};
use arrayvec::ArrayString;
use dup_names::NoMemory;
use itoa::Buffer;

/// The longest head of a reply, in bytes.
const MAX: usize = 512;

fn reason(code: u16) -> &'static str
    requires { IsSome (reason_of code) }
    ensures value { reason_of code ≡ Some result.now }
    ensures short { length result.now ≤ 31 }
{
    match code {
        200 => "OK",
        400 => "Bad Request",
        404 => "Not Found",
        405 => "Method Not Allowed",
        413 => "Content Too Large",
        422 => "Unprocessable Content",
        431 => "Request Header Fields Too Large",
        501 => "Not Implemented",
        503 => "Service Unavailable",
        _ => unreachable!(),
    }
}

fn content_type(page: bool) -> &'static str
    ensures value { result.now ≡ type_of page }
    ensures short { length result.now ≤ 25 }
{
    if page {
        "text/html; charset=utf-8"
    } else {
        "text/plain; charset=utf-8"
    }
}

fn status_line(head: &mut ArrayString<MAX>, code: u16)
    requires known { IsSome (reason_of code) }
    requires room { array_string_len head.old ≡ 0 }
    ensures text { head.new.bytes ≡ line_of code }
    ensures len { array_string_len head.new ≤ 48 }
{
    let mut buffer = Buffer::new();
    head.push_str("HTTP/1.1 ");
    head.push_str(buffer.format(code));
    head.push_str(" ");
    head.push_str(reason(code));
    head.push_str("\r\n");
}

fn field(head: &mut ArrayString<MAX>, name: &str, value: &str)
    requires { array_string_len head.old + (length name.now + length value.now + 4) ≤ 512 }
    ensures text { head.new.bytes ≡ head.old.bytes ++ field_line (name.now, value.now) }
    ensures len { array_string_len head.new
        ≡ array_string_len head.old + (length name.now + length value.now + 4) }
{
    head.push_str(name);
    head.push_str(": ");
    head.push_str(value);
    head.push_str("\r\n");
}

fn number(head: &mut ArrayString<MAX>, name: &str, value: u64)
    requires { array_string_len head.old + (length name.now + 24) ≤ 512 }
    ensures text { head.new.bytes ≡ head.old.bytes ++ field_line (name.now, decimal value) }
    ensures fits { value < 2 ^ 64 }
    ensures len { array_string_len head.new ≤ array_string_len head.old + (length name.now + 24) }
{
    let mut buffer = Buffer::new();
    field(head, name, buffer.format(value));
}

fn number_if(head: &mut ArrayString<MAX>, name: &str, value: Option<u64>)
    requires { array_string_len head.old + (length name.now + 24) ≤ 512 }
    ensures text { head.new.bytes
        ≡ head.old.bytes ++ flat_map field_line (given name.now (option_map decimal value)) }
    ensures fits { IfSome value (λ n. n < 2 ^ 64) }
    ensures len { array_string_len head.new ≤ array_string_len head.old + (length name.now + 24) }
{
    match value {
        None => {}
        Some(value) => number(head, name, value),
    }
}

fn allow(head: &mut ArrayString<MAX>, allow: Option<Allow>)
    requires { array_string_len head.old + 18 ≤ 512 }
    ensures text { head.new.bytes
        ≡ head.old.bytes ++ flat_map field_line (given (codes "Allow") (option_map allow_text allow)) }
    ensures len { array_string_len head.new ≤ array_string_len head.old + 18 }
{
    match allow {
        None => {}
        Some(allow) => field(head, "Allow", allow.text()),
    }
}

fn cache(head: &mut ArrayString<MAX>, cache: Option<CacheWord>)
    requires { array_string_len head.old + 19 ≤ 512 }
    ensures text { head.new.bytes
        ≡ head.old.bytes ++ flat_map field_line (given (codes "DUP-Cache") (option_map cache_text cache)) }
    ensures len { array_string_len head.new ≤ array_string_len head.old + 19 }
{
    match cache {
        None => {}
        Some(cache) => field(head, "DUP-Cache", cache.text()),
    }
}

fn head(answer: &Answer) -> ArrayString<MAX>
    requires { IsSome (reason_of answer.now.code) }
    ensures text { result.bytes ≡ head_text answer.now }
    ensures read_back { IsReadAs (head_text answer.now) answer.now.code (reply_fields answer.now) }
{
    let mut head = ArrayString::<MAX>::new();
    status_line(&mut head, answer.code);
    field(&mut head, "Content-Type", content_type(answer.page));
    number(&mut head, "Content-Length", answer.length);
    allow(&mut head, answer.allow);
    number_if(&mut head, "DUP-Edition", answer.edition);
    number_if(&mut head, "DUP-Version", answer.version);
    number_if(&mut head, "DUP-Pass", answer.pass);
    cache(&mut head, answer.cache);
    head.push_str("Connection: close\r\n\r\n");
    head
}

/// Appends the head of a reply, of at most 512 bytes, for an answer whose code is one of those that replies
/// have. Where memory runs out nothing is appended, and with 512 bytes to spare it doesn't. The text is
/// made aside, and appended by one copy.
pub fn reply_head(answer: &Answer, out: &mut Vec<u8>) -> Result<(), NoMemory>
    requires { IsSome (reason_of answer.now.code) }
    ensures ok { OnOk result (out.new.items ≡ out.old.items ++ head_text answer.now) }
    ensures err { OnErr result (out.new.items ≡ out.old.items) }
    ensures short { length (head_text answer.now) ≤ 512 }
    ensures read_back { IsReadAs (head_text answer.now) answer.now.code (reply_fields answer.now) }
    ensures room { vec_len out.old + 512 ≤ vec_capacity out.old → IsOk result }
{
    let head = head(answer);
    out.extend_from_slice(head.as_str().as_bytes())?;
    Ok(())
}
