//! How a heap grows by blocks that are drawn, filled and written in place. Each function does nothing: its clauses are theorems.
ghost use Rattle.std.specs.Prelude.{◌≡◌, ◌≢◌, ◌+◌, ◌<◌, ◌≤◌, ◌∷◌, ℕ, List, length, nat_eq, slice_set, if◌then◌else◌, []};
ghost use Rattle.stm_model.specs.Layouts.{block_at, block_count, cell_count};
ghost use Rattle.stm_model.specs.declared.sizes.Layout.{Layout};
ghost use Rattle.trie_law.specs.Blocks.{IsDrawn, SameBlock, branch_header, drawn_count, generation, kind, used_count, word};
ghost use Rattle.trie_law.specs.Growing.{AllHaveChildren, Drew, Filled, Grown, IsHanded, IsMadeFrom, IsWritable};
ghost use Rattle.trie_law.specs.Law.{HasChildren, HasTrie, IsLawful};
ghost use Rattle.trie_law.specs.Tries.{AreDrawn, Branch, EachBlock, IsLeafAt, Leaf, Leaves, Stands, Tree, path_count};

/// A tree stands as long as its blocks are kept.
pub fn a_tree_stands_while_its_blocks_are_kept()
    ensures { (layout : Layout) (before after : List ℕ) (block : ℕ) (tree : Tree) →
        EachBlock (λ number own. SameBlock layout before after number) tree →
        Stands layout before block tree → Stands layout after block tree }
{}

/// A heap grows by nothing, by one step after another, by a block that is drawn and filled, and by one
/// that is written in place. The law of children holds all the way: what points to a new block is filled
/// after it, and a drawn block never changes its kind or its generation.
pub fn a_heap_grows_in_steps()
    ensures none { (layout : Layout) (own : ℕ) (handed : Tree) (heap : List ℕ) →
        Grown layout own handed heap heap }
    ensures steps { (layout : Layout) (own : ℕ) (first second whole : Tree) (start middle end : List ℕ) →
        ((block : ℕ) → IsWritable own first block → IsWritable own whole block) →
        ((block : ℕ) → IsDrawn layout start block → IsWritable own second block → IsWritable own whole block) →
        Grown layout own first start middle → Grown layout own second middle end →
        Grown layout own whole start end }
    ensures new { (layout : Layout) (own : ℕ) (handed : Tree) (before drawn after : List ℕ) (block : ℕ) →
        cell_count layout ≤ length before → Drew layout before drawn block → Filled layout drawn after block →
        generation layout after block ≡ own → (AllHaveChildren layout before → HasChildren layout after block) →
        Grown layout own handed before after }
    ensures in_place { (layout : Layout) (own : ℕ) (handed : Tree) (before after : List ℕ) (block : ℕ) →
        IsDrawn layout before block → Filled layout before after block →
        kind layout after block ≡ kind layout before block →
        generation layout after block ≡ generation layout before block →
        IsWritable own handed block → kind layout before block ≢ 3 →
        (AllHaveChildren layout before → HasChildren layout after block) →
        Grown layout own handed before after }
{}

/// A block is filled by nothing, and by one of its cells after another.
pub fn a_block_is_filled_cell_by_cell()
    ensures none { (layout : Layout) (heap : List ℕ) (block : ℕ) → Filled layout heap heap block }
    ensures cell { (layout : Layout) (before after : List ℕ) (block index value : ℕ) → index < 18 →
        Filled layout before after block →
        Filled layout before (slice_set after (block_at layout block index) value) block }
{}

/// Where a heap grew, a tree still stands that has none of the blocks that may have been written. Such
/// are all trees that have no block of that generation in common with the one that was handed down.
pub fn what_may_not_be_written_still_stands()
    ensures stands { (layout : Layout) (own : ℕ) (handed : Tree) (before after : List ℕ) (block : ℕ)
        (tree : Tree) →
        Grown layout own handed before after → AreDrawn layout before tree →
        EachBlock (λ number other. ¬ IsWritable own handed number) tree → Stands layout before block tree →
        Stands layout after block tree }
    ensures apart { (layout : Layout) (heap : List ℕ) (own one_root other_root : ℕ) (one other : Tree) →
        Stands layout heap one_root one → Stands layout heap other_root other →
        (0 < own → (block : ℕ) → 0 < path_count own block other → path_count own block one ≡ 0) →
        EachBlock (λ block generation. ¬ IsWritable own other block) one }
{}

/// A call that sets a key is handed the trie of a map's root, and hands on the tree of a child or the
/// chain behind a leaf.
pub fn a_tree_is_handed_on()
    ensures root { (layout : Layout) (heap : List ℕ) (own root : ℕ) (has : HasTrie layout heap own root) →
        IsHanded layout heap own root has.tree }
    ensures child { (layout : Layout) (heap : List ℕ) (own block number other i : ℕ) (children : ℕ → Tree) →
        i < 16 → IsHanded layout heap own block (Branch number other children) →
        IsHanded layout heap own (word layout heap block (1 + i)) (children i) }
    ensures rest { (layout : Layout) (heap : List ℕ) (own block : ℕ) (leaf : Leaf) (chain : List Leaf) →
        IsHanded layout heap own block (Leaves (leaf ∷ chain)) →
        IsHanded layout heap own (word layout heap block 17) (Leaves chain) }
{}

/// What was made of a tree: the tree itself, where nothing was done; what was made of it in two steps;
/// what was made of no tree at all.
pub fn what_was_made_is_made_on()
    ensures nothing { (layout : Layout) (heap : List ℕ) (own block : ℕ) (tree : Tree) →
        IsHanded layout heap own block tree → IsMadeFrom layout own heap heap tree block tree }
    ensures steps { (layout : Layout) (own : ℕ) (start middle end : List ℕ) (handed between : Tree) (one other : ℕ)
        (tree written : Tree) → Grown layout own written start middle →
        IsMadeFrom layout own start middle handed one between → IsMadeFrom layout own middle end between other tree →
        IsMadeFrom layout own start end handed other tree }
    ensures new { (layout : Layout) (own : ℕ) (before after : List ℕ) (handed : Tree) (block : ℕ) (tree : Tree) →
        IsMadeFrom layout own before after (Leaves []) block tree → IsMadeFrom layout own before after handed block tree }
    ensures kept { (layout : Layout) (own : ℕ) (start middle end : List ℕ) (handed : Tree) (block : ℕ) (tree : Tree) →
        ((number : ℕ) → IsDrawn layout middle number → IsDrawn layout end number) →
        EachBlock (λ number other. SameBlock layout middle end number) tree →
        IsMadeFrom layout own start middle handed block tree → IsMadeFrom layout own start end handed block tree }
{}

/// A branch on the way gets a new child, over what was made below that one: in place where it has the
/// map's generation, and else as a copy. The whole was then made of the handed tree, and only what is its
/// map's own was written.
pub fn a_branch_gets_a_child()
    ensures in_place { (layout : Layout) (start below after : List ℕ) (own block number other i child : ℕ)
        (children : ℕ → Tree) (under : Tree) →
        i < 16 → IsHanded layout start own block (Branch number other children) →
        Grown layout own (children i) start below → IsMadeFrom layout own start below (children i) child under →
        0 < own → other ≡ own → Filled layout below after block →
        word layout after block 0 ≡ word layout below block 0 →
        ((j : ℕ) → j < 16 → word layout after block (1 + j) ≡ if nat_eq j i then child else word layout below block (1 + j)) →
        Grown layout own (Branch number other children) start after
        × IsMadeFrom layout own start after (Branch number other children) block (Branch block own (λ j. if nat_eq j i then under else children j)) }
    ensures copied { (layout : Layout) (start below drawn after : List ℕ)
        (own block number other i child copy : ℕ) (children : ℕ → Tree) (under : Tree) →
        i < 16 → IsHanded layout start own block (Branch number other children) →
        Grown layout own (children i) start below → IsMadeFrom layout own start below (children i) child under →
        cell_count layout ≤ length below → Drew layout below drawn copy → Filled layout drawn after copy →
        word layout after copy 0 ≡ branch_header own →
        ((j : ℕ) → j < 16 → word layout after copy (1 + j) ≡ if nat_eq j i then child else word layout below block (1 + j)) →
        Grown layout own (Branch number other children) start after
        × IsMadeFrom layout own start after (Branch number other children) copy (Branch copy own (λ j. if nat_eq j i then under else children j)) }
{}

/// A leaf is written in front of a chain, over what was made of the chain behind it: new, as a copy or in
/// place. Where a leaf is taken out, the chain behind it stands in its place.
pub fn a_leaf_is_written()
    ensures new { (layout : Layout) (start below drawn after : List ℕ) (own : ℕ) (handed : Tree)
        (next block : ℕ) (leaf : Leaf) (chain : List Leaf) →
        Grown layout own handed start below → IsMadeFrom layout own start below handed next (Leaves chain) →
        cell_count layout ≤ length below → Drew layout below drawn block → Filled layout drawn after block →
        leaf.generation ≡ own → IsLeafAt layout after block leaf → word layout after block 17 ≡ next →
        Grown layout own handed start after × IsMadeFrom layout own start after handed block (Leaves (leaf ∷ chain)) }
    ensures copied { (layout : Layout) (start below drawn after : List ℕ) (own block next copy : ℕ)
        (first leaf : Leaf) (rest chain : List Leaf) →
        IsHanded layout start own block (Leaves (first ∷ rest)) →
        Grown layout own (Leaves rest) start below →
        IsMadeFrom layout own start below (Leaves rest) next (Leaves chain) →
        cell_count layout ≤ length below → Drew layout below drawn copy → Filled layout drawn after copy →
        leaf.generation ≡ own → IsLeafAt layout after copy leaf → word layout after copy 17 ≡ next →
        Grown layout own (Leaves (first ∷ rest)) start after × IsMadeFrom layout own start after (Leaves (first ∷ rest)) copy (Leaves (leaf ∷ chain)) }
    ensures in_place { (layout : Layout) (start below after : List ℕ) (own block next : ℕ) (first leaf : Leaf)
        (rest chain : List Leaf) →
        IsHanded layout start own block (Leaves (first ∷ rest)) →
        Grown layout own (Leaves rest) start below →
        IsMadeFrom layout own start below (Leaves rest) next (Leaves chain) →
        0 < own → first.generation ≡ own → Filled layout below after block →
        leaf.generation ≡ own → IsLeafAt layout after block leaf → word layout after block 17 ≡ next →
        Grown layout own (Leaves (first ∷ rest)) start after × IsMadeFrom layout own start after (Leaves (first ∷ rest)) block (Leaves (leaf ∷ chain)) }
    ensures taken_out { (layout : Layout) (heap : List ℕ) (own block : ℕ) (first : Leaf) (rest : List Leaf) →
        IsHanded layout heap own block (Leaves (first ∷ rest)) →
        IsMadeFrom layout own heap heap (Leaves (first ∷ rest)) (word layout heap block 17) (Leaves rest) }
{}

/// A draw takes one block of those that aren't in use, and to fill a block takes none. Of a lawful heap no
/// more blocks are in use than there are, and all are where no stripe has one left.
pub fn draws_are_counted()
    ensures drew { (layout : Layout) (before after : List ℕ) (block : ℕ) → cell_count layout ≤ length before →
        Drew layout before after block →
        used_count layout after ≡ used_count layout before + 1 }
    ensures filled { (layout : Layout) (before after : List ℕ) (block : ℕ) → Filled layout before after block →
        used_count layout after ≡ used_count layout before }
    ensures most { (layout : Layout) (heap : List ℕ) → IsLawful layout heap →
        used_count layout heap ≤ block_count layout }
    ensures full { (layout : Layout) (heap : List ℕ) →
        ((stripe : ℕ) → stripe < layout.stripes → drawn_count layout heap stripe ≤ layout.per_stripe) →
        ((stripe : ℕ) → stripe < layout.stripes → layout.per_stripe ≤ drawn_count layout heap stripe) →
        used_count layout heap ≡ block_count layout }
{}
