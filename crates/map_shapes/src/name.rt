// The name of a layer.
ghost use Rattle.std.specs.Prelude.{◌≡◌, ◌≤◌, IsTrue, length};
ghost use Rattle.std.specs.List.{list_all};
ghost use Rattle.map_model.specs.Words.{is_name, is_name_byte};

use std::marker::Model;

/// The name of a layer: 1 to 16 ASCII letters, digits, `_` and `-`, kept in place.
#[derive(Clone, Copy, Debug)]
pub struct Name {
    bytes: [u8; 16],
    len: u8,
}

impl Model for Name {
    ghost use Rattle.std.specs.Prelude.{List, ℕ, take, length};
    ghost use Rattle.map_shapes.specs.NameBytes.{IsNameIn, array_of};

    ghost Value = { List ℕ };

    ghost view = { λ n. take n.len n.bytes };

    ghost invariant = { λ n. IsNameIn n.bytes n.len };

    ghost inverse = { λ name. record { bytes = array_of name; len = length name } };

    ghost use Rattle.map_shapes.specs.Name.{fields_of_name};

    ghost inverse_ok = { fields_of_name };
}

impl PartialEq for Name {
    ghost use Rattle.std.specs.Cmp.{partial_equiv_from_equiv};
    ghost use Rattle.std.specs.Cmp.Lexicographic.{nat_list_eq_equiv};
    ghost use Rattle.std.specs.Prelude.{bytes_eq};

    ghost eq = { bytes_eq };

    ghost laws = { partial_equiv_from_equiv nat_list_eq_equiv };

    fn eq(&self, other: &Name) -> bool {
        self.as_bytes() == other.as_bytes()
    }
}

impl Eq for Name {
    ghost use Rattle.std.specs.Cmp.Lexicographic.{nat_list_eq_equiv};

    ghost laws = { nat_list_eq_equiv };
}

impl Name {
    ghost use Rattle.std.specs.Prelude.{◌≡◌};
    ghost use Rattle.map_model.specs.Words.{name_field};

    /// The longest name, in bytes.
    pub const LONGEST: usize = 16;

    /// Reads a name: `None` exactly where the word isn't one.
    pub fn read(word: &[u8]) -> Option<Name>
        ensures { result ≡ name_field word.now }
    {
        if !is_name(word) {
            return None;
        }
        let mut bytes = [0u8; 16];
        bytes[..word.len()].copy_from_slice(word);
        Some(Name {
            bytes,
            len: word.len() as u8,
        })
    }

    /// Its bytes.
    pub fn as_bytes(&self) -> &[u8]
        ensures { result.now ≡ self.now }
    {
        &self.bytes[..self.len as usize]
    }
}

fn is_name(word: &[u8]) -> bool
    ensures name { result ≡ is_name word.now }
    ensures short { IsTrue result → length word.now ≤ 16 }
{
    1 <= word.len() && word.len() <= Name::LONGEST && has_name_bytes(word)
}

fn has_name_bytes(word: &[u8]) -> bool
    ensures { result ≡ list_all is_name_byte word.now }
{
    word.iter().all(|byte| is_name_byte(*byte))
}

fn is_name_byte(byte: u8) -> bool
    ensures { result ≡ is_name_byte byte }
{
    byte.is_ascii_alphanumeric() || byte == b'_' || byte == b'-'
}
