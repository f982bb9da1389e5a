// Links over the knots of one axis: from each to a later one, past knots at which no line stands.
ghost use Rattle.std.specs.Prelude.{◌≡◌, ℕ, ◌≤◌, ◌<◌, length};
ghost use Rattle.axis.specs.Limits.{largest_side};
ghost use Rattle.mesh.specs.Lines.{side, fresh_mesh};
ghost use Rattle.mesh.specs.declared.Direction.{Direction};
ghost use Rattle.mesh.specs.Carried.{Leads, Linked, Bare, unlinked};

// Links knot z: no link leads past it any more.
pub(crate) fn link(links: &mut [u8], z: usize)
    requires { (length links.old ≡ 131) × (z < 131) }
    ensures { Linked links.old links.new z }
{
    for k in 0..z {
        links[k] = links[k].min(z as u8);
    }
}

// Links the knots of a fresh map's lines, over links that lead past all.
pub(crate) fn link_fresh(crossed: usize, links: &mut [u8])
    requires { (links.old ≡ unlinked) × (crossed ≤ largest_side) }
    ensures { (d : Direction) (w h : ℕ) → side d w h ≡ crossed → Leads (Bare (fresh_mesh w h) d) links.new }
{
    link(links, 1);
    link(links, crossed + 1);
    link(links, crossed + 2);
}
