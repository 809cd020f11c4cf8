ghost use Rattle.std.specs.Prelude.{◌≡◌, IfSome, IsSome, is_some, ◌↔◌, IsTrue};
ghost use Rattle.scan_types.specs.Names.{IsLetter, IsMark, IsNameByte, IsNameText, is_name_text};

use crate::limits::MOST_NAME_BYTES;
use std::cmp::Ordering;
use std::hash::{Hash, Hasher};
use std::marker::Model;

/// A book's or a match's name: 1 to `MOST_NAME_BYTES` bytes out of letters, digits, `_`, `-` and `.`.
///
/// Names are ordered by their bytes.
#[derive(Clone, Copy, Debug)]
pub struct Name {
    bytes: [u8; MOST_NAME_BYTES],
    len: usize,
}

impl Model for Name {
    ghost use Rattle.std.specs.Prelude.{List, ℕ};

    ghost Value = { List ℕ };

    ghost use Rattle.scan_types.specs.NameView.{name_bytes, IsPadded, padded, padded_back};

    ghost view = { name_bytes };

    ghost invariant = { IsPadded };

    ghost inverse = { padded };

    ghost inverse_ok = { padded_back };
}

/// Whether the byte is an ASCII letter.
fn is_letter(byte: u8) -> bool
    ensures { IsTrue result ↔ IsLetter byte }
{
    if byte < b'a' {
        b'A' <= byte && byte <= b'Z'
    } else {
        byte <= b'z'
    }
}

/// Whether the byte is `_`, `-` or `.`.
fn is_mark(byte: u8) -> bool
    ensures { IsTrue result ↔ IsMark byte }
{
    byte == b'_' || (byte == b'-' || byte == b'.')
}

/// Whether the byte may stand in a name.
fn is_name_byte(byte: u8) -> bool
    ensures { IsTrue result ↔ IsNameByte byte }
{
    // Grouped to the right, so that each test knows what the earlier ones told.
    is_letter(byte) || (byte.is_ascii_digit() || is_mark(byte))
}

impl Name {
    /// The name of this text, or `None` if the text is not a name.
    pub fn read(text: &[u8]) -> Option<Name>
        ensures value { IfSome result (λ name. name ≡ text.now) }
        ensures form { IsSome result ↔ IsNameText text.now }
        ensures test { is_some result ≡ is_name_text text.now }
    {
        let len = text.len();
        if len == 0 || len > MOST_NAME_BYTES || !text.iter().all(|byte| is_name_byte(*byte)) {
            return None;
        }
        let mut bytes = [0; MOST_NAME_BYTES];
        bytes[..len].copy_from_slice(text);
        Some(Name { bytes, len })
    }

    /// The bytes of the name.
    pub fn as_bytes(&self) -> &[u8]
        ensures value { result.now ≡ self.now }
        ensures form { IsNameText self.now }
    {
        &self.bytes[..self.len]
    }
}

impl Hash for Name {
    ghost use Rattle.std.specs.Prelude.{[], ◌∷◌};
    ghost use Rattle.std.proofs.Common.{rules};

    // All the bytes in one write: a name is the whole of a key, so that none has to be told from a longer one.
    ghost hash_input = { λ name. name ∷ [] };

    ghost respects_eq = { Prim.search rules };

    fn hash<H: Hasher>(&self, state: &mut H) {
        state.write(self.as_bytes());
    }
}

impl PartialEq for Name {
    ghost use Rattle.std.specs.Prelude.{◌==◌};
    ghost use Rattle.std.specs.Cmp.Lexicographic.{pointwise};
    ghost use Rattle.std.proofs.Common.{rules};
    ghost use Rattle.std.specs.Cmp.Rules.{comparing};

    ghost eq = { pointwise ◌==◌ };

    ghost laws = { Prim.search (comparing, rules) };

    fn eq(&self, other: &Name) -> bool {
        self.as_bytes() == other.as_bytes()
    }
}

impl Eq for Name {
    ghost use Rattle.std.proofs.Common.{rules};
    ghost use Rattle.std.specs.Cmp.Rules.{comparing};

    ghost laws = { Prim.search (comparing, rules) };
}

impl PartialOrd for Name {
    ghost use Rattle.std.proofs.Common.{rules};
    ghost use Rattle.std.specs.Cmp.{partial_order_from_own_ties};
    ghost use Rattle.std.specs.Cmp.Lexicographic.{slice_cmp};
    ghost use Rattle.std.specs.Cmp.Rules.{comparing};
    ghost use Rattle.std.specs.Ordering.{nat_cmp, as_partial_cmp};

    ghost partial_cmp = { as_partial_cmp (slice_cmp nat_cmp) };

    ghost laws = { partial_order_from_own_ties (Prim.search (comparing, rules)) (Prim.search (comparing, rules)) };

    fn partial_cmp(&self, other: &Name) -> Option<Ordering> {
        Some(self.cmp(other))
    }
}

impl Ord for Name {
    ghost use Rattle.std.proofs.Common.{rules};
    ghost use Rattle.std.specs.Cmp.Lexicographic.{slice_cmp};
    ghost use Rattle.std.specs.Cmp.Rules.{comparing};
    ghost use Rattle.std.specs.Ordering.{nat_cmp};

    ghost cmp = { slice_cmp nat_cmp };

    ghost total = { Prim.search (comparing, rules) };

    ghost matches_partial_cmp = { Prim.search (comparing, rules) };

    ghost matches_eq = { Prim.search (comparing, rules) };

    fn cmp(&self, other: &Name) -> Ordering {
        self.as_bytes().cmp(other.as_bytes())
    }
}
