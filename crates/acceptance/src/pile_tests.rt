use grid::blank::Blank;
use grid::cell::Cell;
use grid::field::Field;
use grounds::constant::Constant;
use layers::layer::Layer;
use layers::smoothing::Smoothing;
use request::Kind;
use sheets::kinds::{Smoothed, cell};
use tables::cache::Cache;

// A constant ground smoothed twice, with a cache below each layer.
fn smoothed_twice(height: u16) -> Smoothed<Smoothed<Constant>> {
    Layer::new(
        Cache::new(Layer::new(Cache::new(Constant::new(height)), Smoothing {})),
        Smoothing {},
    )
}

#[test]
fn a_level_ground_stays_level(rt: HostRuntime) {
    for height in [0u16, 7, 65_534] {
        let mut pile = smoothed_twice(height);
        assert_eq!(rt; pile.ask(Cell { x: 0, y: 0 }), Ok(height));
        assert_eq!(rt; pile.ask(Cell { x: -9, y: 1_000 }), Ok(height));
        assert_eq!(rt; pile.ask(Cell { x: 0, y: 0 }), Ok(height));
    }
}

#[test]
fn blanks_rise_through_the_layers(rt: HostRuntime) {
    let mut nowhere = smoothed_twice(65_535);
    let first = Cell { x: 1, y: 2 };
    assert_eq!(rt;
        nowhere.ask(Cell { x: 3, y: 4 }),
        Err(Blank {
            place: first,
            rise: 2,
        })
    );
    assert_eq!(rt;
        nowhere.ask(Cell { x: 3, y: 4 }),
        Err(Blank {
            place: first,
            rise: 2,
        })
    );
    let mut level = smoothed_twice(7);
    let beyond = Cell {
        x: 1_000_000_001,
        y: -2,
    };
    assert_eq!(rt;
        level.ask(Cell {
            x: 1_000_000_000,
            y: 0,
        }),
        Err(Blank {
            place: beyond,
            rise: 2,
        })
    );
    assert_eq!(rt;
        level.ask(beyond),
        Err(Blank {
            place: beyond,
            rise: 0,
        })
    );
}

#[test]
fn a_rise_stops_at_255(rt: HostRuntime) {
    let place = Cell { x: 0, y: 0 };
    let mut blank = Blank { place, rise: 253 };
    for rise in [254u8, 255, 255] {
        blank = blank.raise();
        assert_eq!(rt; blank.rise, rise);
    }
}

#[test]
fn cells_of_the_kinds(rt: HostRuntime) {
    let at = Cell { x: -8, y: -8 };
    assert_eq!(rt; cell(Kind::Raw, 0, Cell { x: 3, y: 0 }), Some(Ok(3976)));
    assert_eq!(rt; cell(Kind::Heights, 9, at), Some(Ok(2249)));
    assert_eq!(rt;
        cell(Kind::Heights, 9, Cell { x: 100, y: -100 }),
        Some(Ok(1828))
    );
    assert_eq!(rt; cell(Kind::Sites, 9, at), None);
    assert_eq!(rt; cell(Kind::Roads, 9, at), None);
}
