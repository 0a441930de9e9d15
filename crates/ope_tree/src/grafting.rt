//! A new item where a gap was, and one row more of an item.
ghost use Rattle.ope_tree.specs.Built.{IsBuilt};
ghost use Rattle.ope_tree.specs.Nodes.{IsLink, item_of, tree_of};
ghost use Rattle.path_code.specs.Ways.{way};
ghost use Rattle.std.specs.Prelude.{◌≡◌, ◌+◌, ◌≤◌, ◌++◌, IfOk};
ghost use Rattle.tree_model.specs.Insertion.{graft};
ghost use Rattle.tree_model.specs.Removal.{change_tree};
ghost use Rattle.tree_model.specs.Trees.{height, path};
ghost use Rattle.tree_model.specs.declared.Place.TheVariants.{Gap};

use crate::arena::Arena;
use crate::building::{add_node, join};
use crate::nodes::{Entry, Node};
use mope_base::OutOfMemory;
use path_code::{Path, child};
use tree_model::Side;

/// A tree with a new item, and the path to it.
#[derive(Clone, Copy)]
pub struct Grafted {
    pub link: Option<u32>,
    pub path: Path,
}

fn at_path(link: Option<u32>, path: Path) -> Grafted
    ensures { result ≡ record { link = link; path = path } }
{
    Grafted { link, path }
}

/// The tree of a link, which stands at the end of a path, with a new item at the gap of a rank.
pub fn graft(
    nodes: &mut Arena,
    link: Option<u32>,
    rank: u32,
    entry: Entry,
    above: Path,
) -> Result<Grafted, OutOfMemory>
    requires link { IsLink nodes.old link }
    requires short { above.len + height (tree_of nodes.old link) ≤ 63 }
    ensures built { IfOk result (λ grafted. IsBuilt nodes.old nodes.new grafted.link (graft rank (item_of entry) (tree_of nodes.old link))) }
    ensures path { IfOk result (λ grafted. way grafted.path ≡ way above ++ path (tree_of nodes.old link) (Gap rank)) }
{
    let Some(at) = link else {
        let link = join(nodes, None, entry, None)?;
        return Ok(at_path(link, above));
    };
    let node = nodes.get(at);
    let before = node.before;
    let Some(size) = node.size.checked_add(1) else {
        return Err(OutOfMemory);
    };
    if rank <= before {
        let path = child(above, Side::Left);
        let left = graft(nodes, node.left, rank, entry, path)?;
        let more = Node {
            left: left.link,
            size,
            before: before + 1,
            ..node
        };
        let link = add_node(nodes, more)?;
        return Ok(at_path(link, left.path));
    }
    let path = child(above, Side::Right);
    let right = graft(nodes, node.right, rank - before - 1, entry, path)?;
    let more = Node {
        right: right.link,
        size,
        ..node
    };
    let link = add_node(nodes, more)?;
    Ok(at_path(link, right.path))
}

/// The tree of a link with another item at a rank in place of the one there.
pub fn replace_item(
    nodes: &mut Arena,
    link: Option<u32>,
    rank: u32,
    entry: Entry,
) -> Result<Option<u32>, OutOfMemory>
    requires { IsLink nodes.old link }
    ensures { IfOk result (λ changed. IsBuilt nodes.old nodes.new changed (change_tree (λ _. item_of entry) (tree_of nodes.old link) rank)) }
{
    let Some(at) = link else {
        return Ok(None);
    };
    let node = nodes.get(at);
    let before = node.before;
    if rank < before {
        let left = replace_item(nodes, node.left, rank, entry)?;
        let changed = add_node(nodes, Node { left, ..node })?;
        return Ok(changed);
    }
    if before < rank {
        let right = replace_item(nodes, node.right, rank - before - 1, entry)?;
        let changed = add_node(nodes, Node { right, ..node })?;
        return Ok(changed);
    }
    let changed = add_node(nodes, Node { entry, ..node })?;
    Ok(changed)
}
