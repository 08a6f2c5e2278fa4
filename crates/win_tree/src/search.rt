//! Finding a window's node by its handle.

ghost use Rattle.std.specs.Prelude.{◌≡◌, ℕ, ◌≢◌, Some, IfNone, IfSome};
ghost use Rattle.slab.specs.Slab.{get};
ghost use Rattle.win_tree.specs.declared.node.Node.{Node};

use crate::node::Nodes;

/// The key of the window that has the handle, if there is one. It looks at the places for windows
/// one after the other, which are at most 256.
pub fn find(nodes: &Nodes, handle: u32) -> Option<usize>
    ensures found { IfSome result (λ key. (n : Node) × (get nodes.now key ≡ Some n)
        × (n.win.handle ≡ handle)) }
    ensures absent { IfNone result ((key : ℕ) (n : Node) → get nodes.now key ≡ Some n
        → n.win.handle ≢ handle) }
{
    for key in 0..nodes.capacity() {
        if let Some(node) = nodes.get(key) {
            if node.win.handle == handle {
                return Some(key);
            }
        }
    }
    None
}
