// Writing a reply.
ghost use Rattle.std.specs.Prelude.{◌≡◌, ◌≤◌, [], length, IsSome, OnErr, OnOk, vec_capacity};
ghost use Rattle.std.specs.Io.KnownBytes.{Appends};
ghost use Rattle.dup_io.specs.Causes.{AppendsPrefix, HasCause};
ghost use Rattle.dup_http.specs.Replies.{reason};
ghost use Rattle.dup_serve.specs.Sent.{body_for as body_of, text_for};

use dup_http::{Answer, Method, reply_head};
use dup_io::{Failed, Sink, put_all};

/// The body, or none for `HEAD`.
fn body_for(method: Method, body: &[u8]) -> &[u8]
    ensures { result.now ≡ body_of method body.now }
{
    match method {
        Method::Head => &[],
        Method::Get => body,
        Method::Post => body,
        Method::Other => body,
    }
}

/// Writes a reply: its head, and its body unless the method is `HEAD`. Where no ask was read, `GET` stands
/// for the method. Where the line fails, the first bytes of the reply were written.
///
/// The head is made in an empty `Vec` with room for 512 bytes, which the caller takes before it asks for
/// what the reply says, so that memory can't run out once that was asked. The body isn't copied.
pub fn send<K: Sink>(
    line: &mut K,
    method: Method,
    answer: &Answer,
    body: &[u8],
    room: Vec<u8>,
) -> Result<(), Failed>
    requires known { IsSome (reason answer.now.code) }
    requires sized { answer.now.length ≡ length body.now }
    requires empty { room.items ≡ [] }
    requires spare { 512 ≤ vec_capacity room }
    ensures all { OnOk result (Appends (K.written line.old) (K.written line.new)
        (text_for method answer.now body.now)) }
    ensures part { OnErr result (AppendsPrefix (K.written line.old) (K.written line.new)
        (text_for method answer.now body.now)) }
    ensures cause { HasCause (K.faults line.old) (K.faults line.new) result }
    ensures beside { K.beside line.old line.new }
{
    let mut head = room;
    let Ok(()) = reply_head(answer, &mut head) else {
        unreachable!()
    };
    put_all(line, head.as_slice())?;
    put_all(line, body_for(method, body))
}
