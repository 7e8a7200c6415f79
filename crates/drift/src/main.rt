// drift: asks windows that drift over the kind `heights`, for measuring, and prints what the answers add up to.
// `bench/run` measures it beside the same in plain Rust.
// Nothing is claimed of it beyond that it is safe and ends: the answers are those of the library, and what is printed is compared.
#![tactic(auto)]

use anyhow::ensure;
use grid::field::Field;
use grid::window::Window;
use programs::count::window_count;
use programs::course::Course;
use programs::ending::exit_code;
use programs::tally::Tally;
use sheets::kinds::heights;
use std::env;
use std::process::ExitCode;
use std::rt::Env;

const SEED: u64 = 1;

// A part of what is stored for one window serves again for the next.
const COURSE: Course = Course { east: 40, south: 7 };

// What counts for a blank in the checksum, which is made of numbers. No height is as great.
const BLANK: u16 = 65_535;

// Asks one row of a window from west to east. A struct of the field and the tally would be no plainer: the one is lent by `run`, the other is the answer, and it would be made and taken apart in each call.
fn ask_row<F: Field>(field: &mut F, window: &Window, row: u16, mut tally: Tally) -> Tally {
    for column in 0..window.width() {
        if let Some(at) = window.cell(column, row) {
            tally = tally.and(field.ask(at).unwrap_or(BLANK));
        }
    }
    tally
}

// Asks every cell of a window in reading order.
fn ask_window<F: Field>(field: &mut F, window: &Window, mut tally: Tally) -> Tally {
    for row in 0..window.height() {
        tally = ask_row(field, window, row, tally);
    }
    tally
}

// Asks so many windows one after another through the same field.
fn drift<F: Field>(field: &mut F, windows: u16) -> Tally {
    let mut tally = Tally::default();
    for i in 0..windows {
        tally = ask_window(field, &COURSE.window(i), tally);
    }
    tally
}

// The number of windows, which is the only argument.
fn read_count(rt: &(impl Env + AllocGlobal)) -> anyhow::Result<u16> {
    let mut args = env::args(rt)?.skip(1);
    let word = args.next();
    ensure!(args.next().is_none(), "there is more than one argument");
    window_count(word)
}

fn run(rt: &(impl Env + Print + AllocGlobal)) -> anyhow::Result<()> {
    let windows = read_count(rt)?;
    let Tally { cells, checksum } = drift(&mut heights(SEED), windows);
    // A line a write, so that what was printed before a failure is whole lines.
    println!(rt; "cells {cells}")?;
    println!(rt; "checksum {checksum}")?;
    Ok(())
}

fn main(rt: HostRuntime) -> ExitCode {
    exit_code(&rt, "drift", run(&rt))
}
