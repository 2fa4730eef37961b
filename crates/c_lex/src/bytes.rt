//! Kinds of bytes, and runs of them.
ghost use Rattle.std.specs.Prelude.{◌≡◌, ◌≤◌, length};
ghost use Rattle.c_lex.specs.Bytes.{IsStretch, is_letter, is_in_class, is_space};

/// Bytes that go on together.
#[derive(Clone, Copy)]
pub enum ByteClass {
    /// Blanks but the newline.
    Space,
    /// All but the newline.
    InLine,
    /// Letters, digits and `_`.
    InWord,
    /// 32 to 126.
    Printable,
}

pub fn is_space(byte: u8) -> bool
    ensures { result ≡ is_space byte }
{
    byte == b'\t' || byte == b'\r' || byte == b' '
}

/// Whether a name may begin so.
pub fn is_letter(byte: u8) -> bool
    ensures { result ≡ is_letter byte }
{
    byte.is_ascii_alphabetic() || byte == b'_'
}

fn is_of(class: ByteClass, byte: u8) -> bool
    ensures { result ≡ is_in_class class byte }
{
    match class {
        ByteClass::Space => is_space(byte),
        ByteClass::InLine => byte != b'\n',
        ByteClass::InWord => is_letter(byte) || byte.is_ascii_digit(),
        ByteClass::Printable => byte >= 32 && byte <= 126,
    }
}

/// Where the bytes of one kind end that stand from a place on.
pub fn run_end(class: ByteClass, text: &[u8], from: usize, limit: usize) -> usize
    requires low { from ≤ limit }
    requires high { limit ≤ length text.now }
    ensures { IsStretch class text.now from limit result }
{
    let mut end = from;
    while end < limit && is_of(class, text[end]) {
        end += 1;
    }
    end
}
