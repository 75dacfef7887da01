ghost use Rattle.std.specs.Prelude.{◌≡◌, ◌↔◌, IfSome, IsNone, IsTrue};
ghost use Rattle.lj_upload.specs.Names.{IsName, is_name_byte};

use std::marker::Model;

/// A client's name: 1 to 32 bytes out of the ASCII letters, the digits, `_` and `-`, seen as the list of its bytes.
#[derive(Clone, Copy, Debug, PartialEq, Eq)]
pub struct Name {
    bytes: [u8; 32],
    len: u8,
}

impl Model for Name {
    ghost use Rattle.std.specs.Prelude.{ℕ, List, ◌-◌, ◌++◌, length, take, replicate};
    ghost use Rattle.lj_base.specs.Padding.{array_back, count_back};
    ghost use Rattle.lj_upload.specs.Names.{HoldsName};

    ghost Value = { List ℕ };

    ghost view = { λ n. take n.len n.bytes };

    ghost invariant = { λ n. HoldsName n.len n.bytes };

    ghost inverse = { λ s. record { bytes = s ++ replicate (32 - length s) 0; len = length s } };

    ghost inverse_ok = { λ n h i. record {
      bytes = array_back 32 n.len n.bytes h.padding i;
      len = count_back 32 n.len n.bytes h.padding i;
    } };
}

impl Name {
    /// The name of these bytes, where they are one.
    pub fn of(bytes: &[u8]) -> Option<Name>
        ensures none { IsNone result ↔ (IsName bytes.now → ⊥) }
        ensures value { IfSome result (λ name. name ≡ bytes.now) }
    {
        if !is_name(bytes) {
            return None;
        }
        let len = bytes.len();
        let mut padded = [0; 32];
        padded[..len].copy_from_slice(bytes);
        Some(Name {
            bytes: padded,
            len: len as u8,
        })
    }

    /// Its bytes, in ASCII.
    pub fn bytes(&self) -> &[u8]
        ensures bytes { result.now ≡ self.now }
        ensures name { IsName self.now }
    {
        &self.bytes[..self.len as usize]
    }
}

fn is_name(bytes: &[u8]) -> bool
    ensures { IsTrue result ↔ IsName bytes.now }
{
    1 <= bytes.len() && bytes.len() <= 32 && bytes.iter().all(|b| is_name_byte(*b))
}

fn is_name_byte(b: u8) -> bool
    ensures { result ≡ is_name_byte b }
{
    b.is_ascii_alphanumeric() || b == b'_' || b == b'-'
}

#[cfg(test)]
mod tests {
    use super::*;

    #[test]
    fn names_have_1_to_32_bytes_of_their_own_kind(rt: HostRuntime) {
        for (bytes, named) in [
            (b"".as_slice(), false),
            (b"a".as_slice(), true),
            (b"AZ_az-09".as_slice(), true),
            (b"a b".as_slice(), false),
            (b"a.b".as_slice(), false),
            (b"abcdefghijklmnopqrstuvwxyz012345".as_slice(), true),
            (b"abcdefghijklmnopqrstuvwxyz0123456".as_slice(), false),
        ] {
            match Name::of(bytes) {
                Some(name) => {
                    assert!(rt; named);
                    assert!(rt; name.bytes() == bytes);
                }
                None => assert!(rt; !named),
            }
        }
    }
}
