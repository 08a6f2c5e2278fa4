//! Changing the links between nodes.

ghost use Rattle.std.specs.Prelude.{◌≡◌, ℕ, ◌≢◌, ◌≤◌, ◌+◌, ◌++◌, Some, None, length, option_map};
ghost use Rattle.slab.specs.Slab.{get, slab_len, ContainsKey};
ghost use Rattle.win_tree.specs.declared.node.Node.{Node};
ghost use Rattle.win_tree.specs.Links.{over, or_to, skipping, above};
ghost use Rattle.win_tree.specs.Forests.{Forest, order, AreLinked, IsOneEach, among, left_without};

use crate::node::{Node, Nodes};

/// A link, where one to the key goes on to the sibling below it.
fn link_over(link: Option<usize>, key: usize, below: Option<usize>) -> Option<usize>
    ensures { result ≡ over key below link }
{
    match link {
        Some(k) => { if k == key { below } else { Some(k) } }
        None => None,
    }
}

/// A link, or one to the key where there is none.
fn link_or(link: Option<usize>, key: usize) -> Option<usize>
    ensures { result ≡ or_to key link }
{
    match link {
        Some(k) => Some(k),
        None => Some(key),
    }
}

/// A node with its links over the key.
fn node_over(node: &Node, key: usize, below: Option<usize>) -> Node
    ensures { result ≡ skipping key below node.now }
{
    Node {
        win: node.win,
        first: link_over(node.first, key, below),
        next: link_over(node.next, key, below),
    }
}

/// A node, which, as the lowest child of the parent that has the handle, has the key below it.
fn node_above(node: &Node, handle: u32, key: usize) -> Node
    ensures { result ≡ above handle key node.now }
{
    Node {
        win: node.win,
        first: node.first,
        next: if node.win.parent == handle {
            link_or(node.next, key)
        } else {
            node.next
        },
    }
}

/// Takes a window out of its siblings: each link to it goes on to the sibling below it.
pub fn detach(nodes: &mut Nodes, key: usize, below: Option<usize>)
    ensures links { (k : ℕ) → get nodes.new k ≡ option_map (skipping key below) (get nodes.old k) }
    ensures len { slab_len nodes.new ≡ slab_len nodes.old }
    ensures capacity { nodes.new.capacity ≡ nodes.old.capacity }
{
    for k in 0..nodes.capacity() {
        if let Some(node) = nodes.get_mut(k) {
            *node = node_over(node, key, below);
        }
    }
}

/// Puts a window on top of a parent's children.
pub fn put_on_top(nodes: &mut Nodes, parent: usize, key: usize)
    requires parent { ContainsKey nodes.old parent }
    requires key { ContainsKey nodes.old key }
    requires differ { parent ≢ key }
    ensures parent { (p : Node) → get nodes.old parent ≡ Some p
        → get nodes.new parent ≡ Some (record p { first = Some key }) }
    ensures key { (p n : Node) → get nodes.old parent ≡ Some p → get nodes.old key ≡ Some n
        → get nodes.new key ≡ Some (record n { next = p.first }) }
    ensures others { (k : ℕ) → k ≢ parent → k ≢ key → get nodes.new k ≡ get nodes.old k }
    ensures len { slab_len nodes.new ≡ slab_len nodes.old }
    ensures capacity { nodes.new.capacity ≡ nodes.old.capacity }
{
    let first = nodes[parent].first;
    nodes[key].next = first;
    nodes[parent].first = Some(key);
}

/// Puts a key below the children of the parent that has the handle.
fn put_below(nodes: &mut Nodes, handle: u32, key: usize)
    ensures links { (k : ℕ) → get nodes.new k ≡ option_map (above handle key) (get nodes.old k) }
    ensures len { slab_len nodes.new ≡ slab_len nodes.old }
    ensures capacity { nodes.new.capacity ≡ nodes.old.capacity }
{
    for k in 0..nodes.capacity() {
        if let Some(node) = nodes.get_mut(k) {
            *node = node_above(node, handle, key);
        }
    }
}

/// Puts a window below the children of a parent, which has the handle.
pub fn put_at_bottom(nodes: &mut Nodes, parent: usize, handle: u32, key: usize)
    requires parent { ContainsKey nodes.old parent }
    requires key { ContainsKey nodes.old key }
    requires differ { parent ≢ key }
    ensures parent { (p : Node) → get nodes.old parent ≡ Some p
        → get nodes.new parent ≡ Some (record (above handle key p) { first = or_to key p.first }) }
    ensures key { (n : Node) → get nodes.old key ≡ Some n
        → get nodes.new key ≡ Some (record n { next = None }) }
    ensures others { (k : ℕ) → k ≢ parent → k ≢ key
        → get nodes.new k ≡ option_map (above handle key) (get nodes.old k) }
    ensures len { slab_len nodes.new ≡ slab_len nodes.old }
    ensures capacity { nodes.new.capacity ≡ nodes.old.capacity }
{
    put_below(nodes, handle, key);
    nodes[key].next = None;
    let first = nodes[parent].first;
    nodes[parent].first = link_or(first, key);
}

/// Removes the windows that a link leads to, which are at most so many.
pub fn free(nodes: &mut Nodes, link: Option<usize>, steps: usize)
    ensures links { (t : Forest) → AreLinked (get nodes.old) link t → IsOneEach (get nodes.old)
        → ((handle : ℕ) → among handle t ≤ 1) → length (order t) ≤ steps
        → (k : ℕ) → get nodes.new k ≡ left_without (order t) (get nodes.old k) }
    ensures len { (t : Forest) → AreLinked (get nodes.old) link t → IsOneEach (get nodes.old)
        → ((handle : ℕ) → among handle t ≤ 1) → length (order t) ≤ steps
        → slab_len nodes.new + length (order t) ≡ slab_len nodes.old }
    ensures capacity { nodes.new.capacity ≡ nodes.old.capacity }
{
    if steps == 0 {
        return;
    }
    let Some(key) = link else {
        return;
    };
    if let Some(node) = nodes.try_remove(key) {
        free(nodes, node.next, steps - 1);
        free(nodes, node.first, steps - 1);
    }
}
