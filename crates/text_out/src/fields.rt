//! Fields at the end of a line.
ghost use Rattle.std.specs.Prelude.{◌≡◌, ◌≤◌, ◌+◌, ◌∷◌, ◌++◌, length, decimal};
ghost use Rattle.odds_fixed.specs.declared.text_buf.TheConstants.{TEXT_BYTES};

use odds_fixed::{TextBuf, put_number};

/// Appends a text for which there is room.
pub fn push_word(out: &mut TextBuf, word: &[u8])
    requires { length out.old + length word.now ≤ TEXT_BYTES }
    ensures value { out.new ≡ out.old ++ word.now }
    ensures short { length out.new ≡ length out.old + length word.now }
{
    out.push_bytes(word);
}

/// Appends a field after a space, for both of which there is room.
pub fn push_field(out: &mut TextBuf, field: &[u8])
    requires { length out.old + (1 + length field.now) ≤ TEXT_BYTES }
    ensures value { out.new ≡ out.old ++ (32 ∷ field.now) }
    ensures short { length out.new ≡ length out.old + (1 + length field.now) }
{
    push_word(out, b" ");
    push_word(out, field);
}

/// Appends a number after a space. It needs a room of 65 bytes.
pub fn push_number(out: &mut TextBuf, number: u64)
    requires { length out.old + 65 ≤ TEXT_BYTES }
    ensures value { out.new ≡ out.old ++ (32 ∷ decimal number) }
    ensures short { length out.new ≤ length out.old + 65 }
{
    push_word(out, b" ");
    put_number(out, i128::from(number));
}
