use coasts::kinds::heights;
use grid::blank::Blank;
use grid::cell::Cell;
use grid::window::Window;
use grounds::constant::Constant;
use std::test::Fail;
use worlds::drawing::Drawing;
use worlds::refusal::{BlankFault, RowRefusal};
use worlds::world::World;

fn draw_rows(drawing: &mut Drawing<Constant>, row: &mut [u16]) {
    for _ in 0..drawing.window().height() {
        let _ = drawing.row(row);
    }
}

// Draws a window of a level ground to its end, and answers the world and the fills.
fn draw(world: World<Constant>, window: Window) -> (World<Constant>, u32) {
    let mut drawing = world.begin(window);
    draw_rows(&mut drawing, &mut [0; 57]);
    drawing.finish()
}

#[test]
fn rows_are_retried_after_a_blank(rt: HostRuntime) -> Result<(), Fail> {
    let corner = Cell {
        x: 999_999_990,
        y: 5,
    };
    let window = Window::new(corner, 11, 2)?;
    let mut drawing = World::open(heights(1)).begin(window);
    let fault = BlankFault {
        cell: Cell {
            x: 999_999_999,
            y: 5,
        },
        blank: Blank {
            place: Cell {
                x: 1_000_000_001,
                y: 3,
            },
            rise: 2,
        },
    };
    let mut row = [65_535; 12];
    assert_eq!(rt; drawing.row(&mut row), Err(RowRefusal::Blank(fault)));
    assert!(rt; row[8] != 65_535);
    assert_eq!(rt; row[9], 65_535);
    assert_eq!(rt; row[11], 65_535);
    assert_eq!(rt; drawing.next_row(), 0);
    let mut again = [65_535; 11];
    assert_eq!(rt; drawing.row(&mut again), Err(RowRefusal::Blank(fault)));
    assert_eq!(rt; &again[0..11], &row[0..11]);
    assert_eq!(rt; fault.number(), 6);
    let (_, fills) = drawing.finish();
    assert_eq!(rt; fills, 2);
    Ok(())
}

#[test]
fn rows_are_refused_when_all_are_written_and_for_want_of_room(rt: HostRuntime) -> Result<(), Fail> {
    let window = Window::new(Cell { x: -3, y: -3 }, 4, 2)?;
    let mut drawing = World::open(Constant::new(7)).begin(window);
    let mut row = [1; 6];
    assert_eq!(rt; drawing.row(&mut row[0..3]), Err(RowRefusal::Short));
    assert_eq!(rt; row, [1; 6]);
    assert_eq!(rt; drawing.row(&mut row), Ok(()));
    assert_eq!(rt; row, [7, 7, 7, 7, 1, 1]);
    assert_eq!(rt; drawing.row(&mut row[0..4]), Ok(()));
    assert_eq!(rt; drawing.next_row(), 2);
    let mut other = [1; 6];
    assert_eq!(rt; drawing.row(&mut other), Err(RowRefusal::Full));
    assert_eq!(rt; drawing.row(&mut other[0..3]), Err(RowRefusal::Full));
    assert_eq!(rt; other, [1; 6]);
    assert_eq!(rt;
        (RowRefusal::Full.number(), RowRefusal::Short.number()),
        (4, 5)
    );
    let (_, fills) = drawing.finish();
    assert_eq!(rt; fills, 2);
    Ok(())
}

#[test]
fn a_drawing_of_no_row_fills_nothing(rt: HostRuntime) -> Result<(), Fail> {
    let window = Window::new(Cell { x: 0, y: 0 }, 57, 57)?;
    let (_, fills) = World::open(Constant::new(7)).begin(window).finish();
    assert_eq!(rt; fills, 0);
    Ok(())
}

#[test]
fn a_warm_world_fills_less(rt: HostRuntime) -> Result<(), Fail> {
    let world = World::open(Constant::new(7));
    let (world, cold) = draw(world, Window::new(Cell { x: 0, y: 0 }, 57, 57)?);
    let (world, east) = draw(world, Window::new(Cell { x: 8, y: 0 }, 57, 57)?);
    let (world, same) = draw(world, Window::new(Cell { x: 8, y: 0 }, 57, 57)?);
    let (_, west) = draw(world, Window::new(Cell { x: 0, y: 0 }, 57, 57)?);
    assert_eq!(rt; (cold, east, same, west), (64, 8, 0, 8));
    Ok(())
}

#[test]
fn a_clear_makes_a_world_cold(rt: HostRuntime) -> Result<(), Fail> {
    let window = Window::new(Cell { x: -1, y: -1 }, 2, 2)?;
    let (world, cold) = draw(World::open(Constant::new(7)), window);
    let (world, warm) = draw(world, window);
    let mut world = world;
    world.clear();
    let (_, cleared) = draw(world, window);
    assert_eq!(rt; (cold, warm, cleared), (4, 0, 4));
    Ok(())
}

#[test]
fn chunks_of_one_slot_drive_each_other_out(rt: HostRuntime) -> Result<(), Fail> {
    let here = Window::new(Cell { x: 0, y: 0 }, 1, 1)?;
    let there = Window::new(Cell { x: 64, y: -64 }, 1, 1)?;
    let beside = Window::new(Cell { x: 8, y: 0 }, 1, 1)?;
    let (world, first) = draw(World::open(Constant::new(7)), here);
    let (world, second) = draw(world, there);
    let (world, third) = draw(world, here);
    let (world, fourth) = draw(world, beside);
    let (mut world, fifth) = draw(world, here);
    assert_eq!(rt; (first, second, third, fourth, fifth), (1, 1, 1, 1, 0));
    // A look asks its cell too.
    assert_eq!(rt; world.look(Cell { x: 64, y: 0 }), Ok(7));
    let (_, sixth) = draw(world, here);
    assert_eq!(rt; sixth, 1);
    Ok(())
}

#[test]
fn a_look_beyond_the_rim_carries_its_own_cell(rt: HostRuntime) {
    let mut world = World::open(heights(1));
    let beyond = Cell {
        x: 0,
        y: -1_000_000_001,
    };
    let fault = BlankFault {
        cell: beyond,
        blank: Blank {
            place: beyond,
            rise: 0,
        },
    };
    assert_eq!(rt; world.look(beyond), Err(fault));
    assert_eq!(rt; world.look(beyond), Err(fault));
}
