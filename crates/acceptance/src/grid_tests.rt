use grid::cell::Cell;
use grid::window::Window;
use std::test::Fail;

// The number with which a window is refused, if it is.
fn refusal(x: i32, y: i32, width: u16, height: u16) -> Option<u8> {
    let refused = Window::new(Cell { x, y }, width, height).err()?;
    Some(refused.number())
}

#[test]
fn chunks_round_down(rt: HostRuntime) {
    let west = Cell { x: -1, y: 0 }.chunk();
    assert_eq!(rt; Cell { x: -8, y: 7 }.chunk(), west);
    assert_ne!(rt; Cell { x: -9, y: 0 }.chunk(), west);
    assert_ne!(rt; Cell { x: 0, y: 0 }.chunk(), west);
    assert_ne!(rt; Cell { x: -1, y: -1 }.chunk(), west);
    assert_eq!(rt; west.slot(), 7);
    assert_eq!(rt; Cell { x: -9, y: 0 }.chunk().slot(), 6);
    assert_eq!(rt; Cell { x: 0, y: -1 }.chunk().slot(), 56);
    assert_eq!(rt; Cell { x: 64, y: 8 }.chunk().slot(), 8);
}

#[test]
fn cells_compare(rt: HostRuntime) {
    let here = Cell { x: 3, y: -2 };
    assert!(rt; here.precedes(Cell { x: -9, y: -1 }));
    assert!(rt; here.precedes(Cell { x: 4, y: -2 }));
    assert!(rt; !here.precedes(here));
    assert_eq!(rt; here.distance(Cell { x: 1, y: 4 }), 6);
    assert_eq!(rt;
        Cell { x: i32::MIN, y: 0 }.distance(Cell { x: i32::MAX, y: 0 }),
        u32::MAX
    );
    assert!(rt;
        Cell {
            x: 1_000_000_000,
            y: -1_000_000_000,
        }
        .is_inside()
    );
    assert!(rt;
        !Cell {
            x: 0,
            y: 1_000_000_001,
        }
        .is_inside()
    );
    assert!(rt; !Cell { x: i32::MIN, y: 0 }.is_inside());
}

#[test]
fn windows_are_refused_by_size_and_then_by_rim(rt: HostRuntime) {
    let far = 1_000_000_000;
    let cases = [
        (0, 0, 1, 1, None),
        (0, 0, 57, 57, None),
        (0, 0, 0, 1, Some(2)),
        (0, 0, 1, 0, Some(2)),
        (0, 0, 58, 1, Some(2)),
        (0, 0, 1, 58, Some(2)),
        (0, 0, 65535, 65535, Some(2)),
        (i32::MAX, 0, 0, 1, Some(2)),
        (999_999_944, 0, 57, 1, None),
        (999_999_945, 0, 57, 1, Some(3)),
        (0, 999_999_944, 1, 57, None),
        (0, 999_999_945, 1, 57, Some(3)),
        (-far, -far, 57, 57, None),
        (-far - 1, 0, 1, 1, Some(3)),
        (0, -far - 1, 1, 57, Some(3)),
        (far, far, 1, 1, None),
        (far, far, 2, 1, Some(3)),
        (i32::MAX, i32::MAX, 57, 57, Some(3)),
        (i32::MIN, i32::MIN, 57, 57, Some(3)),
    ];
    for (x, y, width, height, expected) in cases {
        assert_eq!(rt; refusal(x, y, width, height), expected);
    }
}

#[test]
fn windows_count_their_chunks(rt: HostRuntime) -> Result<(), Fail> {
    let cases = [
        (0, 0, 1, 1, 1),
        (0, 0, 8, 8, 1),
        (0, 0, 9, 8, 2),
        (-1, -1, 2, 2, 4),
        (-8, -8, 8, 8, 1),
        (-9, 0, 57, 1, 8),
        (7, 7, 57, 57, 64),
        (-28, -28, 57, 57, 64),
        (999_999_944, -1_000_000_000, 57, 57, 64),
    ];
    for (x, y, width, height, expected) in cases {
        let window = Window::new(Cell { x, y }, width, height)?;
        assert_eq!(rt; window.chunk_count(), expected);
    }
    Ok(())
}

#[test]
fn windows_have_their_cells(rt: HostRuntime) -> Result<(), Fail> {
    let window = Window::new(Cell { x: -2, y: 5 }, 3, 2)?;
    let last = window.cell(2, 1).ok_or("no such cell")?;
    assert_eq!(rt; last, Cell { x: 0, y: 6 });
    assert!(rt; window.cell(3, 1).is_none());
    assert!(rt; window.cell(2, 2).is_none());
    assert_eq!(rt; window.corner(), Cell { x: -2, y: 5 });
    assert_eq!(rt; (window.width(), window.height()), (3, 2));
    Ok(())
}
