// The rows of a network's plots that a pass starts from.
ghost use Rattle.messages.specs.Rows.{MadeBy};

use network::Sound;

// The own rows of all plots, each made of the plot's domain and label, whatever makes it. Behind them the rows stay as they were.
#[tactic(auto, using(network::proofs::Standing::few))]
pub fn own_rows<T: Copy, F: Fn(u8, Option<usize>) -> [T; stored::MAX_CLASSES]>(
    s: &Sound,
    rows: &mut [[T; stored::MAX_CLASSES]; stored::MAX_PLOTS],
    own: F,
)
    requires { F.IsAlwaysCallable own }
    ensures { MadeBy (λ domain label r. F.post own domain label r) s.now.network s.now.network.plots rows.old rows.new }
{
    for i in 0..s.network.plots {
        rows[i] = own(s.network.domain_at(i), s.network.label_at(i));
    }
}
