// U3's networks as small ones, drawn in the order that it gives.
ghost use Rattle.std.specs.Prelude.{◌≤◌};
ghost use Rattle.listing.specs.declared.small.TheConstants.{PLOTS};

use drawing::Generator;
use listing::{CLASSES, Link, NEW_PLOT, PLOTS, Plot, Small, TABLES};
use std::array;

// The plot at a position: its parent, its label, its domain.
fn plot(g: &mut Generator, i: usize, labelled: bool) -> Plot
    requires { i ≤ PLOTS }
{
    let link = if i == 0 {
        None
    } else {
        Some(Link {
            parent: g.draw(i),
            table: 0,
        })
    };
    let label = g.draw(CLASSES);
    Plot {
        link,
        classes: CLASSES,
        domain: 1 + g.draw(255) as u8,
        label: labelled.then_some(label),
    }
}

// The network of a start and a number of plots, with its labels or without.
pub(crate) fn drawn(start: u32, plots: usize, labelled: bool) -> Small
    requires { plots ≤ PLOTS }
{
    let mut g = Generator::new(start);
    let mut rows = [[0; CLASSES]; TABLES];
    rows[0] = array::from_fn(|_| g.draw(256) as u8);
    let mut slots = [NEW_PLOT; PLOTS];
    for (i, slot) in slots.iter_mut().enumerate().take(plots) {
        *slot = plot(&mut g, i, labelled);
    }
    Small {
        tables: 1,
        rows,
        plots,
        slots,
    }
}
