//! Binding tags that are paths of windows.
ghost use Rattle.std.specs.Prelude.{◌≡◌};
ghost use Rattle.tk_dispatch.specs.Dispatch.{is_live, is_path};
ghost use Rattle.tk_tree.specs.Shared.{own_of};

use tk_tree::Windows;

/// Whether a tag is the path of a window: whether it begins with a dot.
fn is_path(tag: &str) -> bool
    ensures { result ≡ is_path tag.now }
{
    match tag.as_bytes() {
        [first, ..] => *first == b'.',
        [] => false,
    }
}

/// Whether scripts of a tag may run and be bound: a path counts while its window is there, and any other tag always (bindtags(n)). It takes no
/// memory.
pub fn is_live(windows: &Windows, owner: usize, tag: &str) -> bool
    ensures { result ≡ is_live (own_of owner windows.now) tag.now }
{
    !is_path(tag) || windows.find(owner, tag).is_some()
}
