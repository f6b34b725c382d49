// What a machine and a net say of a station.
use book::record::Word;

// A stance's next move: the word that it sends, if any, and the following stance.
#[derive(Clone, Copy)]
pub struct Move {
    pub word: Option<Word>,
    pub follows: u32,
}

// A station's state in a net: its stance, and the parts of a tick that have elapsed in it.
#[derive(Clone, Copy)]
pub struct StationState {
    pub stance: u32,
    pub elapsed: u64,
}
