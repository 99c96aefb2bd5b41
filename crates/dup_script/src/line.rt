// A line that is made aside, before it is appended by one copy.
ghost use Rattle.std.specs.Prelude.{◌≡◌, ◌≤◌, ◌+◌, ◌++◌, IsOk, OnErr, OnOk, length, vec_capacity, vec_len};
ghost use Rattle.std.specs.Fmt.{decimal};
ghost use Rattle.arrayvec.specs.ArrayVec.{array_vec_len};
ghost use Rattle.dup_names.specs.Lines.{line as line_text};

use arrayvec::ArrayVec;
use dup_names::NoMemory;
use itoa::Buffer;

/// The longest line of an answer, in bytes.
pub(crate) const MAX: usize = 512;

pub(crate) type Line = ArrayVec<u8, MAX>;

/// Appends bytes for which there is room.
pub(crate) fn put(line: &mut Line, bytes: &[u8])
    requires { array_vec_len line.old + length bytes.now ≤ 512 }
    ensures text { line.new.items ≡ line.old.items ++ bytes.now }
    ensures len { array_vec_len line.new ≡ array_vec_len line.old + length bytes.now }
{
    line.try_extend_from_slice(bytes).unwrap();
}

/// Appends a number in decimal.
pub(crate) fn put_number(line: &mut Line, number: u64)
    requires { array_vec_len line.old + 20 ≤ 512 }
    ensures text { line.new.items ≡ line.old.items ++ decimal number }
    ensures len { array_vec_len line.new ≤ array_vec_len line.old + 20 }
{
    let mut buffer = Buffer::new();
    put(line, buffer.format(number).as_bytes());
}

/// Appends a label of at most 20 bytes, and a number in decimal behind it.
pub(crate) fn put_labelled(line: &mut Line, label: &[u8], number: u64)
    requires room { array_vec_len line.old + 40 ≤ 512 }
    requires short { length label.now ≤ 20 }
    ensures text { line.new.items ≡ line.old.items ++ (label.now ++ decimal number) }
    ensures len { array_vec_len line.new ≤ array_vec_len line.old + 40 }
{
    put(line, label);
    put_number(line, number);
}

/// Appends a line of a label and a number.
pub(crate) fn put_numbered(out: &mut Line, label: &[u8], number: u64)
    requires room { array_vec_len out.old + 41 ≤ 512 }
    requires short { length label.now ≤ 20 }
    ensures { out.new.items ≡ out.old.items ++ line_text (label.now ++ decimal number) }
{
    put_labelled(out, label, number);
    put(out, b"\n");
}

/// Appends a line, which has 512 bytes at most, by one copy.
pub(crate) fn append(line: &Line, out: &mut Vec<u8>) -> Result<(), NoMemory>
    ensures ok { OnOk result (out.new.items ≡ out.old.items ++ line.now.items) }
    ensures err { OnErr result (out.new.items ≡ out.old.items) }
    ensures room { vec_len out.old + 512 ≤ vec_capacity out.old → IsOk result }
{
    out.extend_from_slice(line.as_slice())?;
    Ok(())
}
