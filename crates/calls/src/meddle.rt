// Bytes put into the arrays of a network, where a table or a plot stands or past it.
use network::Network;

// The array that has a letter: the first of its name.
fn array(n: &mut Network, letter: u8) -> Option<&mut [u8]> {
    match letter {
        b'r' => Some(&mut n.rows),
        b'i' => Some(&mut n.ids),
        b'p' => Some(&mut n.parents),
        b't' => Some(&mut n.through),
        b'c' => Some(&mut n.classes),
        b'd' => Some(&mut n.domains),
        b'l' => Some(&mut n.labels),
        _ => None,
    }
}

// A byte at a place of the array that has a letter. A letter of none, or a place past the array, changes nothing.
pub(crate) fn put_byte(n: &mut Network, letter: u8, place: usize, byte: u8) {
    if let Some(array) = array(n, letter)
        && let Some(old) = array.get_mut(place)
    {
        *old = byte;
    }
}

// The same byte everywhere past the tables and plots that stand.
pub(crate) fn fill_spare(n: &mut Network, byte: u8) {
    let tables = n.tables.min(stored::MAX_TABLES);
    let plots = n.plots.min(stored::MAX_PLOTS);
    n.rows[tables * stored::TABLE_ROWS..].fill(byte);
    n.ids[plots * text::SLOT_BYTES..].fill(byte);
    n.parents[plots..].fill(byte);
    n.through[plots..].fill(byte);
    n.classes[plots..].fill(byte);
    n.domains[plots..].fill(byte);
    n.labels[plots..].fill(byte);
}
