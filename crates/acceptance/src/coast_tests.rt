use crate::reference::REFERENCE;
use coasts::answer::answer;
use coasts::kinds::look;
use coasts::text::{write_fills, write_refusal, write_row};
use grid::cell::Cell;
use request::Kind;
use std::process::Abort;
use std::test::Fail;

// Each line is answered so.
fn check_answers(rt: &(impl Abort + AllocGlobal), cases: &[(&[u8], &str)]) -> Result<(), Fail> {
    for (line, expected) in cases {
        let text = answer(rt.alloc(), line)?;
        assert_eq!(rt; text.as_str(), *expected);
    }
    Ok(())
}

#[test]
fn looks_at_the_kinds(rt: HostRuntime) {
    let at = Cell { x: -8, y: -8 };
    assert_eq!(rt; look(Kind::Raw, 0, Cell { x: 3, y: 0 }), Ok(3976));
    assert_eq!(rt; look(Kind::Heights, 9, at), Ok(2249));
    assert_eq!(rt; look(Kind::Heights, 9, Cell { x: 100, y: -100 }), Ok(1828));
    assert_eq!(rt; look(Kind::Sites, 0, Cell { x: 0, y: -1 }), Ok(1));
    assert_eq!(rt; look(Kind::Roads, 0, Cell { x: 0, y: -3 }), Ok(1));
}

#[test]
fn lines_of_an_answer(rt: HostRuntime) -> Result<(), Fail> {
    let mut text = String::new(rt.alloc());
    write_row(&mut text, &[3618, 0, 65_534])?;
    write_row(&mut text, &[7])?;
    write_fills(&mut text, 64)?;
    write_refusal(&mut text, 6)?;
    assert_eq!(rt; text.as_str(), "3618 0 65534\n7\nfills 64\nrefused 6\n");
    Ok(())
}

#[test]
fn answers_of_the_reference_through_worlds(rt: HostRuntime) -> Result<(), Fail> {
    check_answers(&rt, &REFERENCE)
}

#[test]
fn settlements_and_roads_of_the_reference(rt: HostRuntime) -> Result<(), Fail> {
    let cases: [(&[u8], &str); 9] = [
        (b"heights 0 999999990 0 11 3\n", "refused 6\n"),
        (
            b"sites 0 -12 -9 14 9\n",
            "0 0 0 0 0 0 0 0 0 1 0 0 0 0\n0 0 0 0 0 0 0 0 0 0 0 0 0 0\n0 0 0 0 0 0 0 0 0 0 0 0 0 0\n0 0 0 0 0 0 0 0 0 0 0 0 0 0\n0 0 0 0 0 0 0 0 0 0 0 0 0 0\n0 0 0 0 0 0 0 0 0 0 0 0 0 0\n0 0 0 0 0 0 1 0 0 0 0 0 0 0\n0 0 0 0 0 0 0 0 0 0 0 0 0 0\n0 0 0 0 0 0 0 0 0 0 0 0 1 0\nfills 6\n",
        ),
        (
            b"sites 42 1 -10 9 16\n",
            "0 0 0 0 0 0 0 0 0\n0 0 0 0 0 0 0 0 0\n0 0 0 0 0 0 0 0 0\n0 0 0 0 0 0 0 0 0\n0 0 0 0 0 0 0 0 0\n0 0 0 0 0 0 0 0 0\n0 0 0 0 0 0 0 0 0\n0 0 0 0 0 0 0 0 0\n0 1 0 0 0 0 0 0 0\n0 0 0 0 0 0 0 0 0\n0 0 0 0 0 0 0 0 0\n0 0 0 0 0 0 0 0 0\n0 0 0 0 0 0 0 0 0\n0 0 0 0 0 0 0 0 0\n0 0 0 0 0 0 0 1 0\n0 0 0 0 0 0 0 0 0\nfills 6\n",
        ),
        (
            b"roads 0 -10 -5 20 8\n",
            "0 0 0 0 1 0 0 0 0 0 1 0 0 0 0 0 0 0 0 0\n0 0 0 0 1 0 0 0 0 0 1 0 0 0 0 0 0 0 0 0\n0 0 0 0 1 1 1 1 1 1 1 0 0 0 0 0 0 0 0 0\n0 0 0 0 0 0 1 0 0 0 1 0 0 0 0 0 0 0 0 0\n0 0 0 0 0 0 1 1 1 1 1 1 1 0 0 0 0 0 0 0\n0 0 0 0 0 0 1 0 0 0 0 0 1 0 0 0 0 0 0 0\n1 1 1 0 0 0 1 0 0 0 0 0 1 0 0 0 0 0 0 0\n0 0 1 0 0 0 1 0 0 0 0 0 1 0 0 0 0 0 0 0\nfills 8\n",
        ),
        (
            b"roads 7 -9 14 12 6\n",
            "0 0 0 0 0 0 0 0 1 0 0 0\n0 0 0 0 0 0 0 0 1 0 0 0\n0 0 0 0 0 0 0 0 1 0 0 0\n0 0 0 1 1 1 1 1 1 1 1 1\n0 0 0 1 0 0 0 1 0 0 0 0\n0 0 0 1 0 0 0 1 0 0 0 0\nfills 6\n",
        ),
        (b"roads 3 999999980 0 5 1\n", "0 0 0 0 1\nfills 2\n"),
        (b"roads 3 999999985 0 2 1\n", "refused 6\n"),
        (b"sites 1 -999999996 0 3 1\n", "0 0 0\nfills 1\n"),
        (b"sites 1 -999999997 0 3 1\n", "refused 6\n"),
    ];
    check_answers(&rt, &cases)
}
