//! The links themselves, and the two steps that change them.

ghost use Rattle.std.specs.Prelude.{◌≡◌, ℕ, ◌+◌, ◌^◌, ◌<◌, ◌≤◌, length, slice_index};
ghost use Rattle.links.specs.Cells.{link_at, detached, attached};

/// How many nodes a line has.
pub const NODES: usize = 512;

/// How many lists lie on a line; also the home of a node that is in none, which as an `Option` would take a byte more.
pub const LISTS: u8 = 4;

/// The neighbours of a node or a sentinel.
#[derive(Clone, Copy)]
pub struct Link {
    pub prev: u16,
    pub next: u16,
}

/// The links of the nodes and of the sentinels, each node's list, and each list's length.
#[derive(Drop)]
pub struct Cells {
    pub links: [Link; 517],
    pub home: [u8; 512],
    pub lens: [u16; 4],
}

/// Takes a node out of its list.
pub(crate) fn detach(cells: &mut Cells, node: u16)
    requires inside { node < 512 }
    requires before { slice_index cells.old.home node < 4 → (link_at cells.old.links node).prev < 517 }
    requires after { slice_index cells.old.home node < 4 → (link_at cells.old.links node).next < 517 }
    requires counted { slice_index cells.old.home node < 4 → 1 ≤ slice_index cells.old.lens (slice_index cells.old.home node) }
    ensures { cells.new ≡ detached cells.old node }
{
    let list = cells.home[node as usize];
    if list < LISTS {
        let Link { prev, next } = cells.links[node as usize];
        cells.links[prev as usize].next = next;
        cells.links[next as usize].prev = prev;
        cells.home[node as usize] = LISTS;
        cells.lens[list as usize] -= 1;
    }
}

/// Puts a node that is in no list between two neighbours of a list.
pub(crate) fn attach(cells: &mut Cells, node: u16, between: Link, list: u8)
    requires inside { node < 512 }
    requires left { between.prev < 517 }
    requires right { between.next < 517 }
    requires listed { list < 4 }
    requires room { slice_index cells.old.lens list ≤ 512 }
    ensures { cells.new ≡ attached cells.old node between list }
{
    cells.links[between.prev as usize].next = node;
    cells.links[node as usize] = between;
    cells.links[between.next as usize].prev = node;
    cells.home[node as usize] = list;
    cells.lens[list as usize] += 1;
}
