// Masks of classes, by halving: class c is in a mask where the mask halved c times is odd.
use crate::small::CLASSES;

// Whether class c is in a mask.
pub(crate) fn has(mask: u8, c: usize) -> bool {
    (0..c).fold(mask, |rest, _| rest / 2) % 2 == 1
}

// The mask of k classes: that of all, halved for each class that is lacking.
pub fn full(k: usize) -> u8 {
    (k..CLASSES).fold(255, |rest, _| rest / 2)
}
