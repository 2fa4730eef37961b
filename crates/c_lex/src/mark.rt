//! Marks.
ghost use Rattle.std.specs.Prelude.{◌≡◌, ◌≤◌, ◌+◌, length, map};
ghost use Rattle.c_lex.specs.Marks.{first_length, mark_length};

/// The marks of C, the longest first.
const MARKS: [&str; 44] = [
    "<<=", ">>=", "==", "!=", "<=", ">=", "<<", ">>", "&&", "||", "++", "--", "+=", "-=", "*=",
    "/=", "%=", "&=", "|=", "^=", "(", ")", "{", "}", "[", "]", ";", ",", ".", "?", ":", "=", "<",
    ">", "+", "-", "*", "/", "%", "!", "~", "&", "|", "^",
];

/// How many bytes the longest mark from this place on has; 0 where none begins.
pub fn mark_length(text: &[u8], at: usize) -> usize
    requires { at ≤ length text.now }
    ensures value { result ≡ mark_length text.now at }
    ensures within { at + result ≤ length text.now }
{
    first_length(&MARKS, &text[at..])
}

/// How many bytes the first of these has with which the text goes on.
fn first_length(marks: &[&str], rest: &[u8]) -> usize
    ensures value { result ≡ first_length (map (λ mark. mark.now) marks.now) rest.now }
    ensures within { result ≤ length rest.now }
{
    let mut left = marks;
    while let [mark, after @ ..] = left {
        if rest.starts_with(mark.as_bytes()) {
            return mark.len();
        }
        left = after;
    }
    0
}
