use coasts::kinds::heights;
use grid::cell::Cell;
use grid::window::Window;
use grounds::constant::Constant;
use grounds::noise::Noise;
use layers::layer::Layer;
use layers::smoothing::Smoothing;
use std::process::Abort;
use std::test::Fail;
use tracks::call::Call;
use tracks::compare::compare;
use tracks::replay::Track;
use worlds::event::Event;
use worlds::refusal::RowRefusal;

// Checks that a journal tells this cell, with this height each time.
fn check_told(rt: &impl Abort, journal: &[Event], cell: Cell, height: u16) {
    let mut answers = journal.iter().filter_map(|event| match event {
        Event::Asked(at, answer) if *at == cell => Some(*answer),
        _ => None,
    });
    assert_eq!(rt; answers.next(), Some(Ok(height)));
    assert!(rt; answers.all(|answer| answer == Ok(height)));
}

#[test]
fn a_track_tells_each_call(rt: HostRuntime) -> Result<(), Fail> {
    let here = Cell { x: 0, y: 0 };
    let window = Window::new(Cell { x: -1, y: -1 }, 3, 2)?;
    let calls = [
        Call::Look(here),
        Call::Row(57),
        Call::Begin(window),
        Call::Look(here),
        Call::Row(2),
        Call::Row(3),
        Call::Row(1_000),
        Call::Row(3),
        Call::Finish,
        Call::Clear,
        Call::Finish,
    ];
    let track = Track {
        field: Constant::new(7),
        calls: &calls,
        room: Vec::new(rt.alloc()),
    };
    let run = track.replay();
    assert_eq!(rt; run.done, 11);
    let journal = run.journal.as_slice();
    assert_eq!(rt; journal.len(), 17);
    assert_eq!(rt; journal[1], Event::Passed);
    assert_eq!(rt; journal[3], Event::Passed);
    assert_eq!(rt; journal[4], Event::Refused(RowRefusal::Short));
    assert_eq!(rt; journal[8], Event::Wrote);
    assert_eq!(rt; journal[13], Event::Refused(RowRefusal::Full));
    // Four chunks are touched, and the look has filled one of them before.
    assert_eq!(rt; journal[14], Event::Finished(3));
    assert_eq!(rt; journal[15], Event::Cleared);
    assert_eq!(rt; journal[16], Event::Passed);
    check_told(&rt, journal, here, 7);
    Ok(())
}

#[test]
fn two_worlds_answer_alike(rt: HostRuntime) -> Result<(), Fail> {
    let here = Cell { x: -8, y: -8 };
    let east = Window::new(Cell { x: -8, y: -8 }, 9, 3)?;
    let west = Window::new(Cell { x: -20, y: -9 }, 57, 2)?;
    let looks = [
        Call::Look(Cell { x: 56, y: -8 }),
        Call::Look(here),
        Call::Begin(east),
        Call::Row(9),
        Call::Finish,
    ];
    let drawings = [
        Call::Begin(west),
        Call::Row(57),
        Call::Row(56),
        Call::Row(57),
        Call::Finish,
        Call::Clear,
        Call::Look(here),
    ];
    // The same rules over the same noise, with caches below each layer and with none.
    let plain = Layer::new(Layer::new(Noise::new(9), Smoothing {}), Smoothing {});
    let first = Track {
        field: heights(9),
        calls: &looks,
        room: Vec::new(rt.alloc()),
    };
    let second = Track {
        field: plain,
        calls: &drawings,
        room: Vec::new(rt.alloc()),
    };
    let (one, other) = compare(first, second);
    check_told(&rt, one.journal.as_slice(), here, 2249);
    check_told(&rt, other.journal.as_slice(), here, 2249);
    Ok(())
}
