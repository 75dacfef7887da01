ghost use Rattle.std.specs.Prelude.{◌≡◌, ◌≤◌, ◌∷◌, ◌++◌, decimal, length, map, take, OnErr, OnOk};
ghost use Rattle.std.specs.List.{join_with_byte};
ghost use Rattle.lj_text.specs.Fields.{Extends, after_each, named, spaced};

use itoa::Buffer;
use lj_base::Memory;

/// Appends bytes.
pub fn put(out: &mut Vec<u8>, bytes: &[u8]) -> Result<(), Memory>
    ensures ok { OnOk result (out.new.items ≡ out.old.items ++ bytes.now) }
    ensures err { OnErr result (out.new.items ≡ out.old.items) }
{
    out.extend_from_slice(bytes)?;
    Ok(())
}

/// Appends a number in decimal digits.
pub fn put_number(out: &mut Vec<u8>, n: u64) -> Result<(), Memory>
    ensures ok { OnOk result (out.new.items ≡ out.old.items ++ decimal n) }
    ensures err { OnErr result (out.new.items ≡ out.old.items) }
{
    let mut digits = Buffer::new();
    put(out, digits.format(n).as_bytes())
}

/// Appends a space and a field.
pub fn put_field(out: &mut Vec<u8>, field: &[u8]) -> Result<(), Memory>
    ensures ok { OnOk result (out.new.items ≡ out.old.items ++ 32 ∷ field.now) }
    ensures err { OnErr result (out.new.items ≡ out.old.items) }
{
    let start = out.len();
    let result = append_two(out, b" ", field);
    cut_back(out, start, result)
}

/// Appends a space and a number.
pub fn put_number_field(out: &mut Vec<u8>, n: u64) -> Result<(), Memory>
    ensures ok { OnOk result (out.new.items ≡ out.old.items ++ 32 ∷ decimal n) }
    ensures err { OnErr result (out.new.items ≡ out.old.items) }
{
    let mut digits = Buffer::new();
    put_field(out, digits.format(n).as_bytes())
}

/// Appends each of the numbers after a space.
pub fn put_number_fields(out: &mut Vec<u8>, numbers: &[u64]) -> Result<(), Memory>
    ensures ok { OnOk result (out.new.items ≡ out.old.items ++ spaced (map decimal numbers.now)) }
    ensures err { OnErr result (out.new.items ≡ out.old.items) }
{
    let start = out.len();
    let result = append_after(out, b' ', numbers);
    cut_back(out, start, result)
}

/// Appends a word and, each after a space, the numbers.
pub fn put_named(out: &mut Vec<u8>, word: &[u8], numbers: &[u64]) -> Result<(), Memory>
    ensures ok { OnOk result (out.new.items ≡ out.old.items ++ named word.now numbers.now) }
    ensures err { OnErr result (out.new.items ≡ out.old.items) }
{
    let start = out.len();
    let result = append_named(out, word, numbers);
    cut_back(out, start, result)
}

/// Appends the numbers with the byte between each two.
pub fn put_joined(out: &mut Vec<u8>, byte: u8, numbers: &[u64]) -> Result<(), Memory>
    ensures ok { OnOk result (out.new.items ≡ out.old.items ++ join_with_byte byte (map decimal numbers.now)) }
    ensures err { OnErr result (out.new.items ≡ out.old.items) }
{
    let start = out.len();
    let result = append_joined(out, byte, numbers);
    cut_back(out, start, result)
}

/// For the end of a call that appends several pieces: where memory ran out, it cuts the text back to its first `len`
/// bytes, so that what was appended is gone. It returns the result that it is given.
pub fn cut_back(out: &mut Vec<u8>, len: usize, outcome: Result<(), Memory>) -> Result<(), Memory>
    ensures same { result ≡ outcome }
    ensures ok { OnOk result (out.new.items ≡ out.old.items) }
    ensures err { OnErr result (out.new.items ≡ take len out.old.items) }
{
    if outcome.is_err() {
        out.truncate(len);
    }
    outcome
}

// Appends two pieces; where memory ran out the first may have been appended.
fn append_two(out: &mut Vec<u8>, first: &[u8], second: &[u8]) -> Result<(), Memory>
    ensures ok { OnOk result (out.new.items ≡ out.old.items ++ first.now ++ second.now) }
    ensures err { OnErr result (Extends out.old.items out.new.items) }
{
    put(out, first)?;
    put(out, second)
}

// Appends each number after the byte; where memory ran out a part may have been appended.
fn append_after(out: &mut Vec<u8>, byte: u8, numbers: &[u64]) -> Result<(), Memory>
    ensures ok { OnOk result (out.new.items ≡ out.old.items ++ after_each byte (map decimal numbers.now)) }
    ensures err { OnErr result (Extends out.old.items out.new.items) }
{
    for n in numbers {
        put(out, &[byte])?;
        put_number(out, *n)?;
    }
    Ok(())
}

// Appends a word and the numbers; where memory ran out the word may have been appended.
fn append_named(out: &mut Vec<u8>, word: &[u8], numbers: &[u64]) -> Result<(), Memory>
    ensures ok { OnOk result (out.new.items ≡ out.old.items ++ named word.now numbers.now) }
    ensures err { OnErr result (Extends out.old.items out.new.items) }
{
    put(out, word)?;
    put_number_fields(out, numbers)
}

// Appends the numbers with the byte between each two; where memory ran out a part may have been appended.
fn append_joined(out: &mut Vec<u8>, byte: u8, numbers: &[u64]) -> Result<(), Memory>
    ensures ok { OnOk result (out.new.items ≡ out.old.items ++ join_with_byte byte (map decimal numbers.now)) }
    ensures err { OnErr result (Extends out.old.items out.new.items) }
{
    let Some((first, others)) = numbers.split_first() else {
        return Ok(());
    };
    put_number(out, *first)?;
    append_after(out, byte, others)
}

#[cfg(test)]
mod tests {
    use super::*;
    use std::test::Fail;

    // With ample memory each call appends its text.
    #[test]
    fn fields_are_appended(rt: HostRuntime) -> Result<(), Fail> {
        let mut out = Vec::new(rt.alloc());
        put(&mut out, b"plan")?;
        put_number_fields(&mut out, &[7, 3, 2])?;
        put_number_field(&mut out, 10)?;
        put_field(&mut out, b"end")?;
        put(&mut out, b"\n")?;
        put_named(&mut out, b"covers", &[10])?;
        put(&mut out, b"\n")?;
        put_number(&mut out, 0)?;
        put(&mut out, b" ")?;
        put_joined(&mut out, b':', &[1, 20, 300])?;
        assert!(rt; out.as_slice() == b"plan 7 3 2 10 end\ncovers 10\n0 1:20:300".as_slice());
        Ok(())
    }
}
