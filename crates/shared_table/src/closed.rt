//! What the words of a closed directory say.

ghost use Rattle.std.specs.Prelude.{◌≡◌, IfOk, IsPermutation, map};
ghost use Rattle.std.specs.List.Sorted.{IsSortedByKey};
ghost use Rattle.plain_map.specs.Keys.{key_cmp};
ghost use Rattle.word_rows.specs.LayoutView.{shape_of};
ghost use Rattle.table_model.specs.Closed.{closed_depth, closed_leaves, closed_pairs};
ghost use Rattle.closed_words.specs.Views.{as_leaf};

use closed_words::{ClosedLeaf, Starts, Words, closed_depth, closed_leaves, closed_pairs};
use plain_map::Pair;
use std::alloc::{AllocError, Global};
use word_rows::Layout;

/// The depth of the directory.
pub fn depth_in<W: Words>(layout: &Layout, words: &W) -> u64
    ensures { result ≡ closed_depth (shape_of layout.now) (W.words words.now) }
{
    closed_depth(&Starts::new(layout), words)
}

/// The leaves, in the order of their prefixes as bit strings. The only error is want of memory.
pub fn leaves_in<W: Words>(
    alloc: Global,
    layout: &Layout,
    words: &W,
) -> Result<Vec<ClosedLeaf>, AllocError>
    ensures { IfOk result (λ leaves. map as_leaf leaves.items
        ≡ closed_leaves (shape_of layout.now) (W.words words.now)) }
{
    closed_leaves(alloc, &Starts::new(layout), words)
}

/// The pairs that are held, in the order of their keys. The only error is want of memory.
///
/// After a run they are the pairs of the sessions that its order leaves: `order_laws::reopen_laws`.
pub fn pairs_in<W: Words>(
    alloc: Global,
    layout: &Layout,
    words: &W,
) -> Result<Vec<Pair>, AllocError>
    ensures held { IfOk result (λ pairs.
        IsPermutation (closed_pairs (shape_of layout.now) (W.words words.now)) pairs.items) }
    ensures sorted { IfOk result (λ pairs. IsSortedByKey (λ pair. pair.key) key_cmp pairs.items) }
{
    let mut pairs = closed_pairs(alloc, &Starts::new(layout), words)?;
    pairs.sort_unstable_by_key(|pair| pair.key);
    Ok(pairs)
}
