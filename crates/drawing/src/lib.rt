// A network drawn from a start (document 02: U3), and its text in a lent buffer.
#![tactic(auto)]

mod generator;

ghost use Rattle.std.specs.Prelude.{◌≡◌, ◌≤◌, ◌<◌, length};
ghost use Rattle.semantics.specs.Limits.{max_plots, table_rows};
ghost use Rattle.semantics.specs.Drawing.{after_steps, rows_drawn, link_drawn, after_link, id_drawn, can_draw, drawn_output};
ghost use Rattle.semantics.specs.NetworkText.{max_text_bytes};
ghost use Rattle.semantics.specs.Buffers.{written};
ghost use Rattle.text.specs.Ids.{id_bytes};
ghost use Rattle.stored.specs.Values.{as_link};
ghost use Rattle.network.specs.View.{view_state};
ghost use Rattle.drawing.specs.Drawn.{DrawsPlot, with_drawn, Generating};

pub use generator::Generator;
use network::{Network, State};
use refusals::Refusal;
use writing::Page;

// The rows of the table.
fn draw_rows(g: &mut Generator) -> [u8; stored::TABLE_ROWS]
    ensures rows { result ≡ rows_drawn table_rows g.old.state }
    ensures state { g.new.state ≡ after_steps table_rows g.old.state }
{
    let mut rows = [0u8; stored::TABLE_ROWS];
    for i in 0..stored::TABLE_ROWS {
        rows[i] = g.draw(256) as u8;
    }
    rows
}

// How the plot at a position is bound: the first needs no draw.
fn draw_link(g: &mut Generator, i: usize) -> Option<stored::Link>
    ensures link { as_link result ≡ link_drawn i g.old.state }
    ensures state { g.new.state ≡ after_link i g.old.state }
{
    if i == 0 {
        return None;
    }
    Some(stored::Link {
        parent: g.draw(i),
        table: 0,
    })
}

// Writes the id of the plot at a position at the front of a buffer, and returns its length.
fn write_id(out: &mut [u8], i: u32) -> usize
    requires { length (id_drawn i) ≤ length out.old }
    ensures next { result ≡ length (id_drawn i) }
    ensures written { out.new ≡ written out.old 0 (id_drawn i) }
{
    let mut page = Page::new(out, 0);
    page.byte(b'G');
    page.number(i);
    page.place()
}

// The id of the plot at a position.
fn id_of(i: usize) -> text::Id
    requires { i < max_plots }
    ensures { id_bytes result ≡ id_drawn i }
{
    let mut bytes = [0u8; text::SLOT_BYTES];
    let end = write_id(&mut bytes, i as u32);
    text::read_id(&bytes[..end]).unwrap()
}

// One plot more, behind those that stand: all of it is drawn in U3's order.
fn draw_plot(n: &mut Network, g: &mut Generator)
    requires room { n.old.plots < max_plots }
    requires table { n.old.tables ≡ 1 }
    ensures { DrawsPlot n.old g.old.state n.new g.new.state }
{
    let i = n.plots;
    let link = draw_link(g, i);
    let label = g.draw(8);
    let domain = 1 + g.draw(255);
    n.lengths();
    editing::add_plot(n, id_of(i), link, stored::MAX_CLASSES);
    n.lengths();
    editing::set_domain(n, i, domain as u8);
    n.lengths();
    editing::set_label(n, i, stored::label_byte(Some(label)));
}

// The network of a start and a number of plots, in a run that took no line.
fn drawn(start: u32, plots: usize) -> State
    requires { plots ≤ max_plots }
    ensures { view_state result ≡ with_drawn start plots }
{
    let mut g = Generator::new(start);
    let mut state = State::empty();
    editing::add_table(&mut state.network, draw_rows(&mut g));
    for _ in 0..plots {
        draw_plot(&mut state.network, &mut g);
    }
    state
}

// Whether so many plots can be asked for.
fn can_draw(plots: u64) -> bool
    ensures { result ≡ can_draw plots }
{
    1 <= plots && plots <= stored::MAX_PLOTS as u64
}

// The text of the network of a start and a number of plots, for any buffer.
pub fn generate(start: u32, plots: u64, out: &mut [u8]) -> Result<usize, Refusal>
    ensures { Generating start plots out.old result out.new }
{
    if !can_draw(plots) {
        return Err(Refusal::OutOfRange);
    }
    engine::save(drawn(start, plots as usize), out)
}

// What the program prints for a start and a number of plots: the text or its refusal, at the front of a buffer that any text fits in. How
// many bytes that is is returned.
pub fn print(start: u32, plots: u64, out: &mut [u8]) -> usize
    requires { max_text_bytes ≤ length out.old }
    ensures wrote { result ≡ length (drawn_output start plots) }
    ensures buffer { out.new ≡ written out.old 0 (drawn_output start plots) }
{
    match generate(start, plots, out) {
        Ok(wrote) => wrote,
        Err(q) => answers::write_refusal(out, 0, refusals::number_of(q)),
    }
}
