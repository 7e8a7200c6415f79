// What became of a track.
use grid::field::Field;
use worlds::drawing::Drawing;
use worlds::event::Event;
use worlds::world::World;

// A world by itself, or the drawing that it is in.
#[derive(Drop)]
pub enum Phase<F: Field> {
    Alone(World<F>),
    Open(Drawing<F>),
}

#[derive(Drop)]
pub struct Run<F: Field> {
    pub phase: Phase<F>,
    // How many of the calls were made.
    pub done: usize,
    // What they told.
    pub journal: Vec<Event>,
}
