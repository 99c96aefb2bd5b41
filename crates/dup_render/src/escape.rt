// Texts as a page has them.
ghost use Rattle.std.specs.Prelude.{◌≡◌, ◌++◌, IfOk, OnOk};
ghost use Rattle.dup_model.specs.Here.{escaped, escaped_byte};

use dup_names::NoMemory;
use std::alloc::Global;

fn put_escaped(byte: u8, out: &mut Vec<u8>) -> Result<(), NoMemory>
    ensures { OnOk result (out.new.items ≡ out.old.items ++ escaped_byte byte) }
{
    match byte {
        b'&' => out.extend_from_slice(b"&amp;")?,
        b'<' => out.extend_from_slice(b"&lt;")?,
        b'>' => out.extend_from_slice(b"&gt;")?,
        b'"' => out.extend_from_slice(b"&quot;")?,
        b'\'' => out.extend_from_slice(b"&#39;")?,
        _ => out.push(byte)?,
    }
    Ok(())
}

/// A text with its five special characters escaped.
pub(crate) fn escape(alloc: Global, text: &[u8]) -> Result<Vec<u8>, NoMemory>
    ensures { IfOk result (λ made. made.items ≡ escaped text.now) }
{
    let mut out = Vec::new(alloc);
    for byte in text {
        put_escaped(*byte, &mut out)?;
    }
    Ok(out)
}
