// The edits that lines make to a network: a table more, a plot more, another domain or label for a plot.
#![tactic(auto)]

ghost use Rattle.std.specs.Prelude.{◌≡◌, true, ◌≤◌, ◌<◌};
ghost use Rattle.semantics.specs.Limits.{max_tables, max_plots, max_classes};
ghost use Rattle.semantics.specs.Rules.{link_holds};
ghost use Rattle.text.specs.Ids.{slot_of};
ghost use Rattle.stored.specs.Values.{as_link};
ghost use Rattle.editing.specs.Edits.{table_stored, plot_stored, domain_stored, label_stored};

// A table behind those that stand.
pub fn add_table(n: &mut network::Network, rows: [u8; stored::TABLE_ROWS])
    requires { n.old.tables < max_tables }
    ensures { n.new ≡ table_stored n.old rows }
{
    writing::write_bytes(&mut n.rows, n.tables * stored::TABLE_ROWS, &rows);
    n.tables += 1;
}

// A plot behind those that stand: all its classes possible, no label. Every field of its slot is written.
pub fn add_plot(n: &mut network::Network, id: text::Id, link: Option<stored::Link>, k: usize)
    requires plots_lt_max_plots { n.old.plots < max_plots }
    requires tables_le_max_tables { n.old.tables ≤ max_tables }
    requires link_value { link_holds n.old.tables n.old.plots (as_link link) ≡ true }
    requires k_le_max_classes { k ≤ max_classes }
    ensures { n.new ≡ plot_stored n.old (slot_of id) link k }
{
    let i = n.plots;
    text::write_slot(&mut n.ids, i * text::SLOT_BYTES, id);
    let bytes = stored::link_bytes(link);
    n.parents[i] = bytes.parent;
    n.through[i] = bytes.table;
    n.classes[i] = k as u8;
    n.domains[i] = stored::all_classes(k);
    n.labels[i] = 0;
    n.plots += 1;
}

// Another mask of classes still possible for the plot at a position.
pub fn set_domain(n: &mut network::Network, i: usize, mask: u8)
    requires i_lt_plots { i < n.old.plots }
    requires plots_le_max_plots { n.old.plots ≤ max_plots }
    ensures { n.new ≡ domain_stored n.old i mask }
{
    n.domains[i] = mask;
}

// Another label or none for the plot at a position, by its byte.
pub fn set_label(n: &mut network::Network, i: usize, byte: u8)
    requires i_lt_plots { i < n.old.plots }
    requires plots_le_max_plots { n.old.plots ≤ max_plots }
    ensures { n.new ≡ label_stored n.old i byte }
{
    n.labels[i] = byte;
}
