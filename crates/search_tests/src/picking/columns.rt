//! Lines in which literals end in one column, and others.
use super::*;

/// Lines with a literal that ends after five bytes, one so short that its fifth byte is the next one's, and some with a
/// literal in other columns.
static ALIKE: [Turn; 3] = [
    (
        Some(b"a cat\na cat\na cat\nx\ncat\na cat\na dog\nno cat\na cat\na ca"),
        Ok(Next::More),
        b"1:a cat\n2:a cat\n3:a cat\n5:cat\n6:a cat\n8:no cat\n9:a cat\n",
    ),
    (
        Some(b"t\na cat\n"),
        Ok(Next::More),
        b"1:a cat\n2:a cat\n3:a cat\n5:cat\n6:a cat\n8:no cat\n9:a cat\n10:a cat\n11:a cat\n",
    ),
    (
        None,
        Ok(Next::More),
        b"1:a cat\n2:a cat\n3:a cat\n5:cat\n6:a cat\n8:no cat\n9:a cat\n10:a cat\n11:a cat\n",
    ),
];

#[test]
fn takes_lines_by_their_own_columns(rt: HostRuntime) -> Result<(), Fail> {
    let wrong = first_wrong_of(rt.alloc(), b"cat", PARTS, Mood::Takes, &ALIKE)?;
    assert_eq!(rt; wrong, None);
    Ok(())
}

/// Lines with a literal in one column, in either case.
static IN_EITHER_CASE: [Turn; 2] = [
    (
        Some(b"a cat\nA CAT\na Cat\nb CAT\na cot\nA CaT\nx CAR\ncat\n"),
        Ok(Next::More),
        b"1:a cat\n2:A CAT\n3:a Cat\n4:b CAT\n6:A CaT\n8:cat\n",
    ),
    (
        None,
        Ok(Next::More),
        b"1:a cat\n2:A CAT\n3:a Cat\n4:b CAT\n6:A CaT\n8:cat\n",
    ),
];

#[test]
fn takes_lines_by_their_columns_in_either_case(rt: HostRuntime) -> Result<(), Fail> {
    let compiled = plan_under(rt.alloc(), b"CAT", Fold::Ascii).ok_or(AllocError)?;
    let wrong = first_wrong_by(rt.alloc(), &compiled, PARTS, Mood::Takes, &IN_EITHER_CASE)?;
    assert_eq!(rt; wrong, None);
    Ok(())
}
