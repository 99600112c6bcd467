//! Which modules reach one another by instances: the strongly connected components of the graph whose edges lead from a
//! module to those that it instantiates. Two depth-first walks (Kosaraju and Sharir, 1981), with a stack of their own.

use std::alloc::Global;
use sv_tree::NoMemory;

/// An edge of the graph.
#[derive(Clone, Copy)]
pub struct Edge {
    pub from: usize,
    pub to: usize,
}

/// An edge among those that leave one node.
#[derive(Clone, Copy)]
struct Link {
    to: usize,
    next: Option<usize>,
}

/// For each node the first link of its list, and all links.
#[derive(Drop)]
struct Lists {
    first: Vec<Option<usize>>,
    links: Vec<Link>,
}

/// A depth-first walk: for each node the mark of the walk that met it first and the next link to follow, and the nodes
/// in the order in which they are done.
#[derive(Drop)]
struct Walk {
    marks: Vec<Option<usize>>,
    next: Vec<Option<usize>>,
    open: Vec<usize>,
    done: Vec<usize>,
}

/// For each node the mark of its component.
#[derive(Drop)]
pub struct Components {
    marks: Vec<Option<usize>>,
}

impl Components {
    /// The components of a graph with `count` nodes. An edge from or to another node is none.
    ///
    /// `NoMemory`: there was none left.
    pub fn new(alloc: Global, count: usize, edges: &[Edge]) -> Result<Components, NoMemory> {
        let order = finished(alloc, count, edges)?;
        let marks = marked(alloc, count, edges, order.as_slice())?;
        Ok(Components { marks })
    }

    /// Whether two nodes reach one another. A node reaches itself.
    pub fn joins(&self, a: usize, b: usize) -> bool {
        match self.marks.get(a) {
            Some(Some(mark)) => self.marks.get(b).copied() == Some(Some(*mark)),
            _ => a == b,
        }
    }
}

/// The nodes in the order in which a walk along the edges is done with them.
fn finished(alloc: Global, count: usize, edges: &[Edge]) -> Result<Vec<usize>, NoMemory> {
    let lists = leaving(alloc, count, edges)?;
    let Ok(mut walk) = new_walk(alloc, count, &lists) else {
        return Err(NoMemory);
    };
    for root in 0..count {
        let Ok(()) = go(&mut walk, &lists, root, root) else {
            return Err(NoMemory);
        };
    }
    let Walk { done, .. } = walk;
    Ok(done)
}

/// The marks of a walk against the edges, from the nodes in the opposite order.
fn marked(
    alloc: Global,
    count: usize,
    edges: &[Edge],
    order: &[usize],
) -> Result<Vec<Option<usize>>, NoMemory> {
    let lists = entering(alloc, count, edges)?;
    let Ok(mut walk) = new_walk(alloc, count, &lists) else {
        return Err(NoMemory);
    };
    for root in order.iter().rev() {
        let Ok(()) = go(&mut walk, &lists, *root, *root) else {
            return Err(NoMemory);
        };
    }
    let Walk { marks, .. } = walk;
    Ok(marks)
}

/// The lists of the edges that leave each node.
fn leaving(alloc: Global, count: usize, edges: &[Edge]) -> Result<Lists, NoMemory> {
    let mut lists = no_lists(alloc, count)?;
    for edge in edges {
        add_link(&mut lists, edge.from, edge.to)?;
    }
    Ok(lists)
}

/// The lists of the edges that enter each node.
fn entering(alloc: Global, count: usize, edges: &[Edge]) -> Result<Lists, NoMemory> {
    let mut lists = no_lists(alloc, count)?;
    for edge in edges {
        add_link(&mut lists, edge.to, edge.from)?;
    }
    Ok(lists)
}

/// Nothing for each of `count` nodes.
fn nothing(alloc: Global, count: usize) -> Result<Vec<Option<usize>>, NoMemory> {
    let Ok(mut all) = Vec::with_capacity(alloc, count) else {
        return Err(NoMemory);
    };
    for _ in 0..count {
        let Ok(()) = all.push(None) else {
            return Err(NoMemory);
        };
    }
    Ok(all)
}

fn no_lists(alloc: Global, count: usize) -> Result<Lists, NoMemory> {
    let first = nothing(alloc, count)?;
    Ok(Lists {
        first,
        links: Vec::new(alloc),
    })
}

/// Puts an edge before those of a node's list.
fn add_link(lists: &mut Lists, from: usize, to: usize) -> Result<(), NoMemory> {
    let at = lists.links.len();
    let Some(first) = lists.first.get(from).copied() else {
        return Ok(());
    };
    let Ok(()) = lists.links.push(Link { to, next: first }) else {
        return Err(NoMemory);
    };
    set(&mut lists.first, from, Some(at));
    Ok(())
}

/// Sets the entry of a node, where there is one.
fn set(entries: &mut [Option<usize>], node: usize, entry: Option<usize>) {
    if let Some(place) = entries.get_mut(node) {
        *place = entry;
    }
}

fn new_walk(alloc: Global, count: usize, lists: &Lists) -> Result<Walk, NoMemory> {
    let marks = nothing(alloc, count)?;
    let Ok(next) = Vec::from_slice(alloc, lists.first.as_slice()) else {
        return Err(NoMemory);
    };
    Ok(Walk {
        marks,
        next,
        open: Vec::new(alloc),
        done: Vec::new(alloc),
    })
}

/// Walks from a node to all that no walk has met yet, and marks them.
fn go(walk: &mut Walk, lists: &Lists, root: usize, mark: usize) -> Result<(), NoMemory> {
    meet(walk, root, mark)?;
    let most = lists.first.len().saturating_add(lists.links.len());
    for _ in 0..most {
        let Some(node) = walk.open.last().copied() else {
            return Ok(());
        };
        let Ok(()) = advance(walk, lists, node, mark) else {
            return Err(NoMemory);
        };
    }
    Ok(())
}

/// Marks a node that no walk has met yet, and goes on from there.
fn meet(walk: &mut Walk, node: usize, mark: usize) -> Result<(), NoMemory> {
    if walk.marks.get(node).copied() != Some(None) {
        return Ok(());
    }
    set(&mut walk.marks, node, Some(mark));
    let Ok(()) = walk.open.push(node) else {
        return Err(NoMemory);
    };
    Ok(())
}

/// Follows the next link of the node that was met last, or is done with it.
fn advance(walk: &mut Walk, lists: &Lists, node: usize, mark: usize) -> Result<(), NoMemory> {
    let next = walk.next.get(node).copied().unwrap_or(None);
    let Some(link) = link_at(lists, next) else {
        let _ = walk.open.pop();
        return finish(walk, node);
    };
    set(&mut walk.next, node, link.next);
    meet(walk, link.to, mark)
}

fn finish(walk: &mut Walk, node: usize) -> Result<(), NoMemory> {
    let Ok(()) = walk.done.push(node) else {
        return Err(NoMemory);
    };
    Ok(())
}

fn link_at(lists: &Lists, at: Option<usize>) -> Option<Link> {
    match at {
        Some(at) => lists.links.get(at).copied(),
        None => None,
    }
}
