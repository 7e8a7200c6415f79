// The values of the fields: a kind, and numbers in decimal with no plus and no leading zero.
ghost use Rattle.std.specs.Prelude.{◌^◌, ◌<◌, decimal};
ghost use Rattle.std.specs.Fmt.{signed_decimal};
ghost use Rattle.request.specs.Fields.{Parsed};
ghost use Rattle.request.specs.Requests.{Int32, kind_word};
ghost use Rattle.std.proofs.Common.{rules, arith};
ghost use Rattle.request.specs.Decimals.{printable_decimal, printable_signed};

use crate::Kind;
use crate::field::Field;
use std::str::FromStr;

impl Field for Kind {
    ghost text = { kind_word };

    ghost fits = { λ _. Unit {0} };

    ghost printable = { Prim.search rules };

    fn read(bytes: &[u8]) -> Option<Kind> {
        Kind::ALL
            .iter()
            .find(|kind| kind.word().as_bytes() == bytes)
            .copied()
    }
}

// The number that the bytes write with no plus, no 0 before other digits and no minus before a 0, all of which `parse`
// would take.
fn number<N: FromStr>(bytes: &[u8]) -> Option<N>
where
    N::Err: Drop,
    ensures { Parsed N.from_str_gives bytes.now result }
{
    match bytes {
        [b'+', ..] | [b'0', _, ..] | [b'-', b'0', ..] => None,
        _ => str::from_utf8(bytes).ok()?.parse().ok(),
    }
}

// One impl for all three numbers would be no plainer: it would take a trait that gives each its text and its range, which is what these impls do. They share `number`.
impl Field for u64 {
    ghost text = { decimal };

    ghost fits = { λ n. n < 2 ^ 64 };

    ghost printable = { λ n fits. printable_decimal n (omega arith) };

    fn read(bytes: &[u8]) -> Option<u64> {
        number(bytes)
    }
}

impl Field for u16 {
    ghost text = { decimal };

    ghost fits = { λ n. n < 2 ^ 16 };

    ghost printable = { λ n fits. printable_decimal n (omega arith) };

    fn read(bytes: &[u8]) -> Option<u16> {
        number(bytes)
    }
}

impl Field for i32 {
    ghost text = { signed_decimal };

    ghost fits = { Int32 };

    ghost printable = { λ z fits. printable_signed z fits };

    fn read(bytes: &[u8]) -> Option<i32> {
        number(bytes)
    }
}
