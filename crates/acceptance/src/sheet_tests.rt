use crate::reference::{REFERENCE, WIDE};
use request::{Kind, Request};
use sheets::answer::answer;
use std::test::Fail;

#[test]
fn lines_that_are_read(rt: HostRuntime) -> Result<(), Fail> {
    let most = Request {
        kind: Kind::Roads,
        seed: u64::MAX,
        x: i32::MIN,
        y: i32::MAX,
        width: u16::MAX,
        height: u16::MAX,
    };
    let least = Request {
        kind: Kind::Raw,
        seed: 0,
        x: 0,
        y: 0,
        width: 0,
        height: 0,
    };
    assert_eq!(rt;
        Request::read(b"roads 18446744073709551615 -2147483648 2147483647 65535 65535\n").ok(),
        Some(most)
    );
    assert_eq!(rt; Request::read(b"raw 0 0 0 0 0\n").ok(), Some(least));
    assert_eq!(rt;
        Request::read(
            b"raw 0 0 0 0 0\n and whatever follows, however long, is ignored: 0123456789 0123456789\n",
        ).ok(),
        Some(least)
    );
    assert_eq!(rt;
        Request::read(b"heights 10 -1 1 57 8\n")?.kind,
        Kind::Heights
    );
    assert_eq!(rt; Request::read(b"sites 10 -10 100 57 8\n")?.y, 100);
    Ok(())
}

#[test]
fn lines_that_are_refused(rt: HostRuntime) -> Result<(), Fail> {
    let lines: [&[u8]; 38] = [
        b"",
        b"\n",
        b"raw 0 0 0 4 1",
        b"raw 0 0 0 4\n",
        b"raw 0 0 0 4 1 1\n",
        b"raw 0 0 0 4\n1",
        b" raw 0 0 0 4 1\n",
        b"raw  0 0 0 4 1\n",
        b"raw 0 0 0  4 1\n",
        b"raw 0 0 0 4 1 \n",
        b"raw\t0 0 0 4 1\n",
        b"raw 0 0 0 4 1\r\n",
        b"raw +0 0 0 4 1\n",
        b"raw 0 +1 0 4 1\n",
        b"raw 0 0 0 +4 1\n",
        b"raw 00 0 0 4 1\n",
        b"raw 0 01 0 4 1\n",
        b"raw 0 -01 0 4 1\n",
        b"raw 0 0 0 04 1\n",
        b"raw 0 0 0 4 01\n",
        b"raw -0 0 0 4 1\n",
        b"raw 0 -0 0 4 1\n",
        b"raw 0 0 -0 4 1\n",
        b"raw 0 0 0 -4 1\n",
        b"raw 0 - 0 4 1\n",
        b"raw 0 --1 0 4 1\n",
        b"raw 18446744073709551616 0 0 4 1\n",
        b"raw 0 2147483648 0 4 1\n",
        b"raw 0 0 -2147483649 4 1\n",
        b"raw 0 0 0 65536 1\n",
        b"raw 0 0 0 4 65536\n",
        b"raw 0x0 0 0 4 1\n",
        b"Raw 0 0 0 4 1\n",
        b"road 0 0 0 4 1\n",
        b"heightss 0 0 0 4 1\n",
        b"r\xc3\xa4w 0 0 0 4 1\n",
        // 80 bytes, and 81, with the line feed
        b"raw 0000000000000000000000000000000000000000000000000000000000000000000 0 0 4 1\n",
        b"raw 00000000000000000000000000000000000000000000000000000000000000000000 0 0 4 1\n",
    ];
    for line in lines {
        let refusal = Request::read(line).err().ok_or("a bad line was read")?;
        assert_eq!(rt; refusal.number(), 1);
    }
    Ok(())
}

#[test]
fn answers_of_the_reference(rt: HostRuntime) -> Result<(), Fail> {
    // One loop for this and for the coasts' answers would be no plainer: they fail with different errors.
    for (line, expected) in REFERENCE {
        let text = answer(rt.alloc(), line)?;
        assert_eq!(rt; text.as_str(), expected);
    }
    Ok(())
}

#[test]
fn wide_windows_of_heights(rt: HostRuntime) -> Result<(), Fail> {
    // The first is drawn through a world, the second cell by cell.
    for (line, expected) in WIDE {
        let text = answer(rt.alloc(), line)?;
        assert_eq!(rt; text.as_str(), expected);
    }
    Ok(())
}

#[test]
fn kinds_that_are_not_built(rt: HostRuntime) {
    let lines: [&[u8]; 2] = [b"sites 0 0 0 4 1\n", b"roads 0 0 0 4 1\n"];
    for line in lines {
        assert!(rt; answer(rt.alloc(), line).is_err());
    }
}
