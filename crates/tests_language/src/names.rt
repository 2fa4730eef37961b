//! Formats, operators and names, worked out by hand.
use c_names::function::{ArgumentKind, accepts, arguments};
use c_names::operator::{Operator, UnaryOperator, apply, apply_unary};
use c_names::predefined::{Predefined, meaning_of};
use c_program::format::{count_ints, pieces};
use std::test::Fail;

#[test]
fn formats_take_ints(rt: HostRuntime) -> Result<(), Fail> {
    assert_eq!(rt; count_ints(b"%-5i|%05x%%"), Some(2));
    let found = pieces(rt.alloc(), b"%-5i|%05x%%")?;
    assert_eq!(rt; found.map_or(0, |found| found.len()), 4);
    assert_eq!(rt; count_ints(b"%"), None);
    Ok(())
}

#[test]
fn operators_wrap(rt: HostRuntime) {
    assert_eq!(rt; apply(Operator::Plus, 2147483647, 1), Some(-2147483648));
    assert_eq!(rt; apply(Operator::Divide, 1, 0), None);
    assert_eq!(rt; apply_unary(UnaryOperator::Complement, 0), -1);
}

#[test]
fn names_have_meanings(rt: HostRuntime) -> Result<(), Fail> {
    assert!(rt;
        matches!(
            meaning_of(b"MPI_UNDEFINED"),
            Some(Predefined::Number(-32766))
        )
    );
    assert!(rt; meaning_of(b"MPI_IN_PLACE").is_none());
    match meaning_of(b"MPI_Waitall") {
        Some(Predefined::Mpi(function)) => assert_eq!(rt; arguments(function).len(), 3),
        _ => return Err(Fail::from("MPI_Waitall")),
    }
    assert!(rt; accepts(ArgumentKind::Buffer, Predefined::NoReference));
    Ok(())
}
