//! What a seat knows.
use std::collections::LinkedList;

/// The words as the seat saw them last, the bits that it took from them and their number, its
/// stake, how often it loaded each word and which one last, and how often it looked at a word
/// without loading it. The numbers have no largest value. No value of it is made.
pub struct View {
    pub seen: LinkedList<u64>,
    pub credits: LinkedList<u64>,
    pub count: u64,
    pub stake: u64,
    pub loads: LinkedList<u64>,
    pub last: u64,
    pub looks: u64,
}
