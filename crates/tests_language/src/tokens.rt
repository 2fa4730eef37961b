//! The tokens of small texts, worked out by hand.
use c_lex::{SourceFault, Token, TokenKind, TokenList, Why, literal_value, one_reading, tokens};
use std::process::Abort;
use std::test::Fail;

/// The first program.
const FIRST: &str =
    "int main(void){int r,x=7;MPI_Comm_rank(MPI_COMM_WORLD,&r);if(r==0)MPI_Send(&x,1,MPI_INT,1,5,MPI_COMM_WORLD);if(r==1){x=0;MPI_Recv(&x,1,MPI_INT,0,5,MPI_COMM_WORLD,MPI_STATUS_IGNORE);printf(\"%d\\n\",x);}return 0;}";

/// Its tokens, one behind each blank.
const FIRST_TOKENS: &str =
    "int main ( void ) { int r , x = 7 ; MPI_Comm_rank ( MPI_COMM_WORLD , & r ) ; if ( r == 0 ) MPI_Send ( & x , 1 , MPI_INT , 1 , 5 , MPI_COMM_WORLD ) ; if ( r == 1 ) { x = 0 ; MPI_Recv ( & x , 1 , MPI_INT , 0 , 5 , MPI_COMM_WORLD , MPI_STATUS_IGNORE ) ; printf ( \"%d\\n\" , x ) ; } return 0 ; }";

/// Texts, and their tokens, one behind each blank.
static TEXTS: [(&str, &str); 10] = [
    (FIRST, FIRST_TOKENS),
    ("", ""),
    (" a/*b\n*/c // d\n e", "a c e"),
    ("/**/a/***/b/*/*/c//", "a b c"),
    (
        "a<<=b>>=c<<d>>e<=f>=g==h!=i",
        "a <<= b >>= c << d >> e <= f >= g == h != i",
    ),
    ("+++--->===&&&|||^^=", "++ + -- - >= == && & || | ^ ^="),
    (
        "0 00 017 2147483647 0x7fffffff 0X1aF",
        "0 00 017 2147483647 0x7fffffff 0X1aF",
    ),
    ("\"\\\"\\\\\"\"#\"", "\"\\\"\\\\\" \"#\""),
    ("#include <mpi.h>\n a\n\t# include\x01\"x\nb", "a b"),
    ("autos _auto staticx", "autos _auto staticx"),
];

/// Whether the tokens of a text are these words, in this order.
fn are_words(text: &str, list: &[Token], expected: &str) -> bool {
    let mut words = expected.split(' ');
    for token in list {
        let start = token.start as usize;
        let word = text.as_bytes().get(start..start + token.len as usize);
        if word != words.next().map(|word| word.as_bytes()) {
            return false;
        }
    }
    words.next().unwrap_or("").is_empty()
}

fn check_tokens(rt: &(impl Abort + AllocGlobal), text: &str, expected: &str) -> Result<(), Fail> {
    assert!(rt; text.len() <= 65536);
    let list = tokens(rt.alloc(), text.as_bytes())?;
    assert!(rt; are_words(text, list.as_slice(), expected), "{text}");
    Ok(())
}

#[test]
fn tokens_are_slices_in_order(rt: HostRuntime) -> Result<(), Fail> {
    for &(text, expected) in &TEXTS {
        check_tokens(&rt, text, expected)?;
    }
    Ok(())
}

/// Two lines of defines, and a line of other tokens between them.
const DEFINES: &[u8] = b" # define A /*b*/ (-0x1)\t\nB \"c\"\n#define//d";

/// Their tokens: the kind, the start and the length.
static DEFINE_TOKENS: [(TokenKind, u32, u32); 11] = [
    (TokenKind::Define, 1, 8),
    (TokenKind::Name, 10, 1),
    (TokenKind::Mark, 18, 1),
    (TokenKind::Mark, 19, 1),
    (TokenKind::Number, 20, 3),
    (TokenKind::Mark, 23, 1),
    (TokenKind::EndLine, 25, 0),
    (TokenKind::Name, 26, 1),
    (TokenKind::Text, 28, 3),
    (TokenKind::Define, 32, 7),
    (TokenKind::EndLine, 42, 0),
];

fn check_define_tokens(rt: &impl Abort, list: &TokenList) {
    assert_eq!(rt; list.as_slice().len(), DEFINE_TOKENS.len());
    // A row is told by its place in the text.
    for (token, row) in list.as_slice().iter().zip(&DEFINE_TOKENS) {
        assert_eq!(rt; (token.kind, token.start, token.len), *row);
    }
}

#[test]
fn a_define_is_a_line(rt: HostRuntime) -> Result<(), Fail> {
    let list = tokens(rt.alloc(), DEFINES)?;
    check_define_tokens(&rt, &list);
    Ok(())
}

#[test]
fn the_first_fault_is_given(rt: HostRuntime) {
    let fault = SourceFault {
        line: 2,
        column: 3,
        why: Why::BadByte,
    };
    let found = tokens(rt.alloc(), b"a\n  @").err();
    assert_eq!(rt; found, Some(fault));
}

#[test]
fn literals_have_values(rt: HostRuntime) {
    assert_eq!(rt; literal_value(b"0XfF"), Some(255));
    assert_eq!(rt; literal_value(b""), None);
    one_reading();
}
