// world_drift: draws windows that drift over a coast, for measuring, and prints what the heights add up to.
// `bench/run-worlds` measures it beside the same in plain Rust.
// Nothing is claimed of it beyond that it is safe and ends: the answers are those of the library, and what is printed is compared.
#![tactic(auto)]

use anyhow::{anyhow, ensure};
use coasts::kinds::{heights, roads};
use grid::field::Field;
use grid::window::LONGEST_SIDE;
use grounds::constant::Constant;
use layers::layer::Layer;
use programs::count::window_count;
use programs::course::Course;
use programs::ending::exit_code;
use programs::tally::Tally;
use rules::road::Road;
use std::env;
use std::process::ExitCode;
use std::rt::Env;
use std::str::FromStr;
use worlds::drawing::Drawing;
use worlds::world::World;

const SEED: u64 = 1;

// So windows lie as a buoy drifts: most of what one of them needs is held from the one before.
const COURSE: Course = Course { east: 3, south: 1 };

#[derive(Clone, Copy)]
enum Coast {
    // The kinds `heights` and `roads`.
    Heights,
    Roads,
    // Roads where every cell is a settlement.
    Dense,
}

// A coast is named as on the command line.
impl FromStr for Coast {
    type Err = anyhow::Error;

    fn from_str(word: &str) -> anyhow::Result<Coast> {
        match word {
            "heights" => Ok(Coast::Heights),
            "roads" => Ok(Coast::Roads),
            "dense" => Ok(Coast::Dense),
            _ => Err(anyhow!("the kind of coast must be heights, roads or dense")),
        }
    }
}

// Draws the rows of a window up to the first one with a blank.
fn draw_rows<F: Field>(drawing: &mut Drawing<F>, mut tally: Tally) -> Tally {
    let mut row = [0; LONGEST_SIDE as usize];
    for _ in 0..drawing.window().height() {
        if drawing.row(&mut row).is_err() {
            break;
        }
        tally = tally.and_row(&row);
    }
    tally
}

// Draws so many windows one after another on one world. The answer is what the heights and what the fills add up to.
fn drift<F: Field + Drop>(field: F, windows: u16) -> (Tally, u64) {
    let mut world = World::open(field);
    let mut tally = Tally::default();
    let mut all_fills = 0u64;
    for i in 0..windows {
        let mut drawing = world.begin(COURSE.window(i));
        tally = draw_rows(&mut drawing, tally);
        let (back, fills) = drawing.finish();
        all_fills = all_fills.wrapping_add(u64::from(fills));
        world = back;
    }
    (tally, all_fills)
}

// The kind of coast and the number of windows, which are the two arguments.
fn read_arguments(rt: &(impl Env + AllocGlobal)) -> anyhow::Result<(Coast, u16)> {
    let mut args = env::args(rt)?.skip(1);
    let kind = args
        .next()
        .ok_or_else(|| anyhow!("the kind of coast is missing"))?;
    let coast = kind.as_str().parse()?;
    let count = args.next();
    ensure!(args.next().is_none(), "there are more than two arguments");
    Ok((coast, window_count(count)?))
}

fn run(rt: &(impl Env + Print + AllocGlobal)) -> anyhow::Result<()> {
    let (coast, windows) = read_arguments(rt)?;
    let (Tally { cells, checksum }, fills) = match coast {
        Coast::Heights => drift(heights(SEED), windows),
        Coast::Roads => drift(roads(SEED), windows),
        Coast::Dense => drift(Layer::new(Constant::new(1), Road {}), windows),
    };
    // A line a write, so that what was printed before a failure is whole lines.
    println!(rt; "cells {cells}")?;
    println!(rt; "checksum {checksum}")?;
    println!(rt; "fills {fills}")?;
    Ok(())
}

fn main(rt: HostRuntime) -> ExitCode {
    exit_code(&rt, "world_drift", run(&rt))
}
