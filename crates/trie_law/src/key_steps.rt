//! How a key is set or taken out, from a leaf's pairs up to a branch. Each function does nothing: its clauses are theorems.
ghost use Rattle.std.specs.Prelude.{◌≡◌, ◌+◌, ◌<◌, ◌≤◌, ◌*◌, ◌^◌, ◌++◌, ◌∷◌, [], ℕ, suc, IsTrue, List, None, Option, Some, length, nat_eq, if◌then◌else◌};
ghost use Rattle.std.specs.List.{AllByRecursion, IsDistinct};
ghost use Rattle.std.specs.Map.{keys_of};
ghost use Rattle.stm_model.specs.Heap.{put};
ghost use Rattle.stm_model.specs.Layouts.{cell_count};
ghost use Rattle.stm_model.specs.declared.sizes.Layout.{Layout};
ghost use Rattle.ledger_model.specs.Maps.{same_hash, value_at};
ghost use Rattle.trie_law.specs.Blocks.{branch_header, word};
ghost use Rattle.trie_law.specs.Growing.{Drew, Filled, IsHanded};
ghost use Rattle.trie_law.specs.LeafPairs.{SetsKey, without};
ghost use Rattle.trie_law.specs.Nibbles.{nibble, way};
ghost use Rattle.trie_law.specs.Setting.{HoldsJust, SetsAt, SetsKeyIn, part};
ghost use Rattle.trie_law.specs.Tries.{AreOnWay, Branch, IsChain, Leaf, Leaves, Tree, pairs_of};

/// In a leaf's pairs a key has the value that was put, and none once it was taken out. All other keys
/// have what they had. A pair that is taken out leaves one pair less.
pub fn a_leaf_has_what_was_put()
    ensures put { (key value : ℕ) (pairs : List (ℕ × ℕ)) →
        IsDistinct nat_eq (keys_of pairs) → SetsKey key (Some value) pairs (put pairs key value) }
    ensures without { (key : ℕ) (pairs : List (ℕ × ℕ)) →
        IsDistinct nat_eq (keys_of pairs) → SetsKey key None pairs (without key pairs) }
    ensures shorter { (key value : ℕ) (pairs : List (ℕ × ℕ)) →
        value_at key pairs ≡ Some value → length (without key pairs) + 1 ≡ length pairs }
{}

/// What a chain or any other list of pairs becomes where a key is set in the middle of it, that stands
/// nowhere else.
pub fn a_key_is_set_in_the_middle()
    ensures { (key : ℕ) (value : Option ℕ) (front before after behind : List (ℕ × ℕ)) →
        value_at key front ≡ None → value_at key behind ≡ None →
        IsDistinct nat_eq (keys_of (front ++ (before ++ behind))) → SetsKey key value before after →
        SetsKey key value (front ++ (before ++ behind)) (front ++ (after ++ behind)) }
{}

/// In a chain a key is set by writing its leaf, by adding a leaf at the end, or by taking out a leaf with
/// its only pair, where it stands in no other leaf.
pub fn a_key_is_set_in_a_chain()
    ensures written { (depth key : ℕ) (value : Option ℕ) (front behind : List Leaf) (old new : Leaf) →
        value_at key (pairs_of front) ≡ None → value_at key (pairs_of behind) ≡ None →
        (0 < length front → 0 < length new.pairs) →
        (IsDistinct nat_eq (keys_of old.pairs) → SetsKey key value old.pairs new.pairs) →
        SetsKeyIn depth key value (Leaves (front ++ old ∷ behind)) (Leaves (front ++ new ∷ behind)) }
    ensures added { (depth key value : ℕ) (front : List Leaf) (new : Leaf) →
        new.pairs ≡ (key, value) ∷ [] → value_at key (pairs_of front) ≡ None → (depth < 8 → length front ≡ 0) →
        SetsKeyIn depth key (Some value) (Leaves front) (Leaves (front ++ new ∷ [])) }
    ensures taken_out { (depth key value : ℕ) (front behind : List Leaf) (old : Leaf) →
        old.pairs ≡ (key, value) ∷ [] → 0 < length front → value_at key (pairs_of front) ≡ None →
        value_at key (pairs_of behind) ≡ None →
        SetsKeyIn depth key None (Leaves (front ++ old ∷ behind)) (Leaves (front ++ behind)) }
{}

/// A chain has at most one leaf more than there are pairs in its map whose keys have its hash.
pub fn a_chain_has_few_leaves()
    ensures { (key : ℕ) (pairs : List (ℕ × ℕ)) (chain : List Leaf) → IsChain (way 8 key) 8 chain →
        ((other value : ℕ) → value_at other (pairs_of chain) ≡ Some value → value_at other pairs ≡ Some value) →
        length chain ≤ same_hash key pairs + 1 }
{}

/// What holds just some pairs: no leaf, a leaf, a chain of two, a branch over their parts, and one with a
/// single child where all have one nibble. A leaf that is exchanged for what its pairs and one more are
/// split into has that key set.
pub fn a_full_leaf_is_split()
    ensures none { (so_far depth : ℕ) → depth ≤ 8 → HoldsJust so_far depth [] (Leaves []) }
    ensures leaf { (so_far depth : ℕ) (leaf : Leaf) → depth ≤ 8 → AreOnWay so_far depth leaf.pairs →
        HoldsJust so_far depth leaf.pairs (Leaves (leaf ∷ [])) }
    ensures chain { (so_far : ℕ) (first second : Leaf) → 0 < length second.pairs →
        AreOnWay so_far 8 (first.pairs ++ second.pairs) →
        HoldsJust so_far 8 (first.pairs ++ second.pairs) (Leaves (first ∷ second ∷ [])) }
    ensures parts { (so_far depth i : ℕ) (pairs : List (ℕ × ℕ)) → AreOnWay so_far depth pairs →
        AreOnWay (so_far + i * 2 ^ (4 * depth)) (suc depth) (part depth i pairs) }
    ensures branch { (so_far depth : ℕ) (pairs : List (ℕ × ℕ)) (block own : ℕ) (children : ℕ → Tree) →
        depth < 8 →
        ((i : ℕ) → i < 16 → HoldsJust (so_far + i * 2 ^ (4 * depth)) (suc depth) (part depth i pairs)
        (children i)) →
        HoldsJust so_far depth pairs (Branch block own children) }
    ensures deeper { (so_far depth i : ℕ) (pairs : List (ℕ × ℕ)) (block own : ℕ) (tree : Tree) → depth < 8 →
        AllByRecursion (λ key. IsTrue (nat_eq (nibble depth key) i)) (keys_of pairs) →
        HoldsJust (so_far + i * 2 ^ (4 * depth)) (suc depth) pairs tree →
        HoldsJust so_far depth pairs (Branch block own (λ j. if nat_eq j i then tree else Leaves [])) }
    ensures sets { (depth key value : ℕ) (leaf : Leaf) (tree : Tree) → value_at key leaf.pairs ≡ None →
        (AreOnWay (way depth key) depth (leaf.pairs ++ (key, value) ∷ []) → HoldsJust (way depth key) depth (leaf.pairs ++ (key, value) ∷ []) tree) →
        SetsKeyIn depth key (Some value) (Leaves (leaf ∷ [])) tree }
{}

/// A key is set below a branch by setting it in the child of its nibble.
pub fn a_key_is_set_below_a_branch()
    ensures { (depth key : ℕ) (value : Option ℕ) (number other block own : ℕ) (children : ℕ → Tree)
        (under : Tree) →
        SetsKeyIn (suc depth) key value (children (nibble depth key)) under →
        SetsKeyIn depth key value (Branch number other children)
        (Branch block own (λ j. if nat_eq j (nibble depth key) then under else children j)) }
{}

/// A key that was set below the child of its nibble is set at the branch, in place or in its copy.
pub fn a_key_is_set_at_a_branch()
    ensures in_place { (layout : Layout) (start below after : List ℕ)
        (own depth key block number other child : ℕ) (value : Option ℕ) (children : ℕ → Tree) →
        IsHanded layout start own block (Branch number other children) →
        SetsAt layout own (suc depth) key value (children (nibble depth key)) child start below →
        0 < own → other ≡ own → Filled layout below after block →
        word layout after block 0 ≡ word layout below block 0 →
        ((j : ℕ) → j < 16 → word layout after block (1 + j) ≡ if nat_eq j (nibble depth key) then child else word layout below block (1 + j)) →
        SetsAt layout own depth key value (Branch number other children) block start after }
    ensures copied { (layout : Layout) (start below drawn after : List ℕ)
        (own depth key block number other child copy : ℕ) (value : Option ℕ) (children : ℕ → Tree) →
        IsHanded layout start own block (Branch number other children) →
        SetsAt layout own (suc depth) key value (children (nibble depth key)) child start below →
        cell_count layout ≤ length below → Drew layout below drawn copy → Filled layout drawn after copy →
        word layout after copy 0 ≡ branch_header own →
        ((j : ℕ) → j < 16 → word layout after copy (1 + j) ≡ if nat_eq j (nibble depth key) then child else word layout below block (1 + j)) →
        SetsAt layout own depth key value (Branch number other children) copy start after }
{}
