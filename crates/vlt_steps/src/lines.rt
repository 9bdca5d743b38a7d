//! Lines of events: numbers and names in; bytes out, to a sink or to a line with room for them.
//! There are no definitions of its own; what is written is said by std's `signed_decimal`.
//! Used by: `vlt_acts::hosts`, `vlt_externals` and `c_primitives`.

ghost use Rattle.std.specs.Prelude.{◌≡◌, ◌<◌, ◌≤◌, ◌+◌, ◌∷◌, ◌++◌, [], length, pos, take, codes, vec_capacity, OnOk, OnErr};
ghost use Rattle.std.specs.Fmt.{signed_decimal};
ghost use Rattle.vlt_io.specs.Outside.{Rose, Grew, GrewByPart};

use itoa::Buffer;
use vlt_io::{Sink, SinkFailed};

/// Writes the number and a line feed, in one piece.
///
/// # Errors
///
/// `SinkFailed` where the sink did not take all.
pub fn write_number<K: Sink>(sink: &mut K, number: i64) -> Result<(), SinkFailed>
    ensures ok { OnOk result (Grew (K.written sink.old) (K.written sink.new)
        (signed_decimal number ++ codes "\n")) }
    ensures part { OnErr result (GrewByPart (K.written sink.old) (K.written sink.new)
        (signed_decimal number ++ codes "\n")) }
    ensures failed { OnErr result (Rose (K.faults sink.old) (K.faults sink.new)) }
    ensures counted { K.faults sink.old ≤ K.faults sink.new }
{
    let mut digits = Buffer::new();
    let mut line = [0; 41];
    let len = put_line(&mut line, digits.format(number).as_bytes());
    sink.write(&line[..len])
}

/// Puts the text and a line feed at the front of the line, and gives their length.
fn put_line(line: &mut [u8], text: &[u8]) -> usize
    requires { length text.now < length line.old }
    ensures within { result ≤ length line.new }
    ensures line { take result line.new ≡ text.now ++ 10 ∷ [] }
{
    line[..text.len()].copy_from_slice(text);
    line[text.len()] = b'\n';
    text.len() + 1
}

/// One byte more, for which there is room.
fn put(line: &mut Vec<u8>, byte: u8)
    requires { length line.old.items < vec_capacity line.old }
    ensures items { line.new.items ≡ line.old.items ++ byte ∷ [] }
    ensures room { vec_capacity line.old ≤ vec_capacity line.new }
{
    match line.push(byte) {
        Ok(()) => {}
        Err(_) => unreachable!(),
    }
}

/// More bytes, for which there is room.
fn put_all(line: &mut Vec<u8>, bytes: &[u8])
    requires { length line.old.items + length bytes.now ≤ vec_capacity line.old }
    ensures items { line.new.items ≡ line.old.items ++ bytes.now }
    ensures room { vec_capacity line.old ≤ vec_capacity line.new }
{
    match line.extend_from_slice(bytes) {
        Ok(()) => {}
        Err(_) => unreachable!(),
    }
}

/// The beginning of the line of a call: `@` and a name.
pub fn begin(line: &mut Vec<u8>, name: &[u8])
    requires { length name.now + 1 ≤ vec_capacity line.old }
    ensures items { line.new.items ≡ codes "@" ++ name.now }
    ensures room { vec_capacity line.old ≤ vec_capacity line.new }
{
    line.clear();
    put(line, b'@');
    put_all(line, name);
}

/// A number after a blank.
pub fn tell_number(line: &mut Vec<u8>, number: i64)
    requires { length line.old.items + 42 ≤ vec_capacity line.old }
    ensures items { line.new.items ≡ line.old.items ++ (codes " " ++ signed_decimal number) }
    ensures short { length line.new.items ≤ length line.old.items + 42 }
    ensures room { vec_capacity line.old ≤ vec_capacity line.new }
{
    let mut digits = Buffer::new();
    put(line, b' ');
    put_all(line, digits.format(number).as_bytes());
}

/// The number of an object, from 1, after a blank and `#`.
pub fn tell_object(line: &mut Vec<u8>, object: u64)
    requires { length line.old.items + 42 ≤ vec_capacity line.old }
    ensures items { line.new.items ≡
        line.old.items ++ (codes " #" ++ signed_decimal (pos (object + 1))) }
    ensures short { length line.new.items ≤ length line.old.items + 42 }
    ensures room { vec_capacity line.old ≤ vec_capacity line.new }
{
    let mut digits = Buffer::new();
    put(line, b' ');
    put(line, b'#');
    put_all(line, digits.format(u128::from(object) + 1).as_bytes());
}

/// The end of a line.
pub fn end(line: &mut Vec<u8>)
    requires { length line.old.items < vec_capacity line.old }
    ensures items { line.new.items ≡ line.old.items ++ codes "\n" }
    ensures room { vec_capacity line.old ≤ vec_capacity line.new }
{
    put(line, b'\n');
}
