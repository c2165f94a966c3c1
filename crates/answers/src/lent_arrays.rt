// What is known of lent arrays: each has the length of its type, and so the link that lies in them has the lists of a link.
// Serves demand 1.
ghost use Rattle.std.specs.Prelude.{false};
ghost use Rattle.state.specs.Queue.{Shaped};
ghost use Rattle.steps.specs.declared.Stand.{Stand};
ghost use Rattle.steps.specs.Fields.{link_at};
ghost use Rattle.tree.specs.declared.Tree.{Tree};

// Whatever tree it has and wherever it stands, the lists of the link are as long as a link's.
pub fn known(
    balance: &[u64; 64],
    residual: &[u64; 64],
    start: &[u8; 64],
    held: &[u8; 64],
    lengths: &[u16; 2048],
    tags: &[u32; 2048],
    marks: &[u64; 2048],
    packets: &[u64; 64],
    bytes: &[u64; 64],
) -> bool
    ensures { (t : Tree) (s : Stand) → Shaped (link_at false t s balance.now residual.now start.now
        held.now lengths.now tags.now marks.now packets.now
        bytes.now) }
{
    true
}
