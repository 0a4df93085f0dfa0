// The network of the engine that a small network says, made by the edits that lines make.
ghost use Rattle.std.specs.Prelude.{◌≡◌, true, IfSome};
ghost use Rattle.semantics.specs.Rules.{link_holds};
ghost use Rattle.stored.specs.Values.{as_link};

use crate::small::{Plot, Small, Table};
use network::{Network, State};

// A table behind those that stand, if there is room.
fn add_table(n: &mut Network, table: Table) -> Option<()> {
    if stored::MAX_TABLES <= n.tables {
        return None;
    }
    editing::add_table(n, table);
    Some(())
}

// The link of the next plot, if it may stand there.
fn link_of(n: &Network, plot: &Plot) -> Option<Option<stored::Link>>
    ensures { IfSome result (λ link. link_holds n.now.tables n.now.plots (as_link link) ≡ true) }
{
    match plot.link {
        None if n.plots == 0 => Some(None),
        Some(link) if link.parent < n.plots && link.table < n.tables => Some(Some(stored::Link {
            parent: link.parent,
            table: link.table,
        })),
        _ => None,
    }
}

// A plot behind those that stand, if there is room, and its parent and table stand. Its id is a letter: A, B and so on.
fn add_plot(n: &mut Network, plot: &Plot) -> Option<()> {
    let i = n.plots;
    if stored::MAX_PLOTS <= i || stored::MAX_TABLES < n.tables {
        return None;
    }
    let id = text::Id {
        low: b'A' as u64 + i as u64,
        high: 0,
    };
    let link = link_of(n, plot)?;
    editing::add_plot(n, id, link, plot.classes);
    editing::set_domain(n, i, plot.domain);
    editing::set_label(n, i, stored::label_byte(plot.label));
    Some(())
}

// The network that a small one says, made by edits of the empty one; nothing where they can't be made.
pub(crate) fn built(small: &Small) -> Option<State> {
    let mut state = State::empty();
    for table in small.tables() {
        add_table(&mut state.network, *table)?;
    }
    for plot in small.plots() {
        add_plot(&mut state.network, plot)?;
    }
    Some(state)
}
