//! What can be asked of a line, and done to it.

ghost use Rattle.std.specs.Prelude.{◌≡◌, ℕ, ◌<◌, ◌≤◌, [], ◌∷◌, length};
ghost use Rattle.links.specs.Rows.{fronted, backed, holder, first_of, last_of, nth};
ghost use Rattle.links.specs.Lists.{lists, home_of, rehomed};

use crate::cells::{Cells, LISTS, Link, NODES, attach, detach};
use crate::line::Line;

/// The sentinel before list 0.
const FIRST: u16 = 512;

impl Line {
    /// A line of four empty lists.
    pub fn new() -> Self
        ensures lists { lists result ≡ [] ∷ [] ∷ [] ∷ [] ∷ [] }
        ensures homes { (q : ℕ) → home_of result q ≡ 4 }
    {
        let mut links = [Link { prev: 0, next: 0 }; 517];
        links[512].next = 513;
        links[513].next = 514;
        links[514].next = 515;
        links[515].next = 516;
        links[513].prev = 512;
        links[514].prev = 513;
        links[515].prev = 514;
        links[516].prev = 515;
        Line {
            cells: Cells {
                links,
                home: [LISTS; 512],
                lens: [0; 4],
            },
        }
    }

    /// The length of a list.
    pub fn len(&self, list: u8) -> u16
        ensures { result ≡ length (nth list (lists self.now)) }
    {
        self.cells.lens.get(list as usize).copied().unwrap_or(0)
    }

    /// The list that holds a node.
    pub fn home(&self, node: u16) -> Option<u8>
        ensures { result ≡ holder node 0 (lists self.now) }
    {
        let list = *self.cells.home.get(node as usize)?;
        (list < LISTS).then_some(list)
    }

    /// The first node of a list.
    pub fn first(&self, list: u8) -> Option<u16>
        ensures { result ≡ first_of (nth list (lists self.now)) }
    {
        if self.len(list) == 0 {
            return None;
        }
        Some(self.cells.links[(FIRST + list as u16) as usize].next)
    }

    /// The last node of a list.
    pub fn last(&self, list: u8) -> Option<u16>
        ensures { result ≡ last_of (nth list (lists self.now)) }
    {
        if self.len(list) == 0 {
            return None;
        }
        Some(self.cells.links[(FIRST + 1 + list as u16) as usize].prev)
    }

    /// Takes a node from wherever it is, and puts it before the first of a list.
    pub fn push_front(&mut self, node: u16, list: u8)
        ensures lists { lists self.new ≡ fronted node list (lists self.old) }
        ensures homes { (q : ℕ) → home_of self.new q ≡ rehomed node list (home_of self.old) q }
    {
        if (node as usize) < NODES && list < LISTS {
            detach(&mut self.cells, node);
            let prev = FIRST + list as u16;
            let next = self.cells.links[prev as usize].next;
            attach(&mut self.cells, node, Link { prev, next }, list);
        }
    }

    /// Takes a node from wherever it is, and puts it after the last of a list.
    pub fn push_back(&mut self, node: u16, list: u8)
        ensures lists { lists self.new ≡ backed node list (lists self.old) }
        ensures homes { (q : ℕ) → home_of self.new q ≡ rehomed node list (home_of self.old) q }
    {
        if (node as usize) < NODES && list < LISTS {
            detach(&mut self.cells, node);
            let next = FIRST + 1 + list as u16;
            let prev = self.cells.links[next as usize].prev;
            attach(&mut self.cells, node, Link { prev, next }, list);
        }
    }
}
