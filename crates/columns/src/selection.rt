// What a call hashes of an image.
use image::place::Image;

// A node of an admitted image by its number from 0, and which of its rows are met: those that a list names, in its
// order, or without a list all of them, in theirs. Any node and any list may stand here: whoever hashes asks that they
// are there, or refuses them.
#[derive(Clone, Copy)]
pub struct Selection<'a> {
    pub image: &'a Image<'a>,
    pub node: u64,
    pub list: Option<&'a [u32]>,
}
