//! The laws of maps and snapshots in a heap. Each function does nothing: its clauses are theorems.
ghost use Rattle.std.specs.List.{IsDistinct};
ghost use Rattle.std.specs.Map.{keys_of};
ghost use Rattle.std.specs.Prelude.{◌≡◌, ◌+◌, ◌<◌, [], ℕ, List, None, Option, Some, nat_eq, replicate, slice_index_or, slice_set, take};
ghost use Rattle.stm_model.specs.declared.sizes.Layout.{Layout};
ghost use Rattle.ledger_model.specs.declared.job.Contents.{Contents};
ghost use Rattle.ledger_model.specs.Maps.{delete_pair, put_pair, value_at};
ghost use Rattle.trie_law.specs.Blocks.{used_count};
ghost use Rattle.trie_law.specs.Growing.{DrewToken, Grown, IsMadeFrom};
ghost use Rattle.trie_law.specs.Holding.{HasPairs, HoldsContents, all_pairs};
ghost use Rattle.trie_law.specs.Law.{HasTrie, IsLawful, MayBecome, map_generation, map_root, slot_root, with_generation, with_root, with_slot};
ghost use Rattle.trie_law.specs.Opening.{IsOpening};
ghost use Rattle.trie_law.specs.Setting.{SetsAt};
ghost use Rattle.trie_law.specs.Tries.{IsShaped, IsTrie, Tree, value_in};

/// The heap with which maps and snapshots begin is lawful. Its maps and slots are empty, and no block is
/// in use.
pub fn an_opening_heap_is_lawful()
    ensures law { (layout : Layout) (heap : List ℕ) → IsOpening layout heap → IsLawful layout heap }
    ensures holds { (layout : Layout) (heap : List ℕ) → IsOpening layout heap →
        HoldsContents layout heap (record { refs = take layout.refs heap; maps = replicate layout.maps []; slots = replicate layout.snaps []; used = 0 }) }
{}

/// Whatever trees stand at one root, a key has the same value in each of them. So a root has one map.
pub fn a_root_has_one_map()
    ensures { (layout : Layout) (heap : List ℕ) (root : ℕ) (one other : Tree) (key : ℕ) →
        IsTrie layout heap root one → IsTrie layout heap root other →
        value_in 0 one key ≡ value_in 0 other key }
{}

/// A root has one list of pairs.
pub fn a_root_has_one_list_of_pairs()
    ensures { (layout : Layout) (heap : List ℕ) (root : ℕ) (one other : List (ℕ × ℕ)) →
        HasPairs layout heap root one → HasPairs layout heap root other → one ≡ other }
{}

/// A trie has pairs. Child by child they have the values that its keys have in it, each key once.
pub fn a_trie_has_pairs()
    ensures pairs { (layout : Layout) (heap : List ℕ) (root : ℕ) (tree : Tree) → IsTrie layout heap root tree →
        (pairs : List (ℕ × ℕ)) × HasPairs layout heap root pairs }
    ensures collected { (layout : Layout) (heap : List ℕ) (root key : ℕ) (tree : Tree) →
        IsTrie layout heap root tree → value_at key (all_pairs tree) ≡ value_in 0 tree key }
    ensures distinct { (layout : Layout) (heap : List ℕ) (root : ℕ) (tree : Tree) →
        IsTrie layout heap root tree → IsDistinct nat_eq (keys_of (all_pairs tree)) }
{}

/// A lawful heap holds contents, and no heap holds two.
pub fn a_lawful_heap_has_contents()
    ensures some { (layout : Layout) (heap : List ℕ) → IsLawful layout heap →
        (contents : Contents) × HoldsContents layout heap contents }
    ensures only { (layout : Layout) (heap : List ℕ) (one other : Contents) →
        HoldsContents layout heap one → HoldsContents layout heap other → one ≡ other }
{}

/// A slot holds the map that it held, whatever its heap becomes, until its root is written.
pub fn a_slot_keeps_its_map()
    ensures values { (layout : Layout) (before after : List ℕ) (snap : ℕ) (one other : Tree) (key : ℕ) →
        IsLawful layout before → MayBecome layout before after →
        snap < layout.snaps → slot_root layout after snap ≡ slot_root layout before snap →
        IsTrie layout before (slot_root layout before snap) one →
        IsTrie layout after (slot_root layout after snap) other →
        value_in 0 one key ≡ value_in 0 other key }
    ensures pairs { (layout : Layout) (before after : List ℕ) (snap : ℕ) (pairs : List (ℕ × ℕ)) →
        IsLawful layout before → MayBecome layout before after →
        snap < layout.snaps → slot_root layout after snap ≡ slot_root layout before snap →
        HasPairs layout before (slot_root layout before snap) pairs →
        HasPairs layout after (slot_root layout after snap) pairs }
{}

/// A ref may be written, whatever its new word is: the heap stays lawful, may follow the one before, and
/// holds the contents with that word.
pub fn a_ref_is_written()
    ensures law { (layout : Layout) (heap : List ℕ) (cell value : ℕ) → IsLawful layout heap →
        cell < layout.refs →
        let after = slice_set heap cell value in
        IsLawful layout after × MayBecome layout heap after }
    ensures holds { (layout : Layout) (heap : List ℕ) (cell value : ℕ) (contents : Contents) →
        IsLawful layout heap → cell < layout.refs → HoldsContents layout heap contents →
        HoldsContents layout (slice_set heap cell value)
        (record contents { refs = slice_set contents.refs cell value }) }
{}

/// Where a map's trie was written by what was made of it, and its root was set to that, the heap is lawful
/// again, and may follow the one before.
pub fn a_written_map_is_lawful()
    ensures { (layout : Layout) (start below : List ℕ) (map block : ℕ) (tree : Tree) → IsLawful layout start →
        map < layout.maps →
        (has : HasTrie layout start (map_generation layout start map) (map_root layout start map)) →
        0 < map_generation layout start map →
        Grown layout (map_generation layout start map) has.tree start below →
        IsMadeFrom layout (map_generation layout start map) start below has.tree block tree →
        IsShaped 0 0 tree →
        let after = with_root layout below map block in
        IsLawful layout after × MayBecome layout start after }
{}

/// A key that was set in a map's trie is set in the map: with the map's root set to what was made, the heap
/// holds the contents with that key set or removed. It is lawful and may follow, as each written map's is.
pub fn a_key_is_set_in_a_map()
    ensures put { (layout : Layout) (start below : List ℕ) (map block key value : ℕ) (contents : Contents) →
        IsLawful layout start → map < layout.maps →
        (has : HasTrie layout start (map_generation layout start map) (map_root layout start map)) →
        0 < map_generation layout start map →
        SetsAt layout (map_generation layout start map) 0 key (Some value) has.tree block start below →
        HoldsContents layout start contents →
        let after = with_root layout below map block in
        HoldsContents layout after (record contents {
          maps = slice_set contents.maps map (put_pair key value (slice_index_or contents.maps map []));
          used = used_count layout after;
        }) }
    ensures removed { (layout : Layout) (start below : List ℕ) (map block key : ℕ) (contents : Contents) →
        IsLawful layout start → map < layout.maps →
        (has : HasTrie layout start (map_generation layout start map) (map_root layout start map)) →
        0 < map_generation layout start map →
        SetsAt layout (map_generation layout start map) 0 key None has.tree block start below →
        HoldsContents layout start contents →
        let after = with_root layout below map block in
        HoldsContents layout after (record contents {
          maps = slice_set contents.maps map (delete_pair key (slice_index_or contents.maps map []));
          used = used_count layout after;
        }) }
{}

/// A map gets a new token as its generation, in one step. Its trie stands as it did, and none of its
/// blocks is live any more.
pub fn a_map_gets_a_new_token()
    ensures law { (layout : Layout) (start below : List ℕ) (map token : ℕ) → IsLawful layout start →
        map < layout.maps → DrewToken layout start below token →
        let after = with_generation layout below map token in
        IsLawful layout after × MayBecome layout start after }
    ensures retired { (layout : Layout) (start below : List ℕ) (map token : ℕ) → IsLawful layout start →
        map < layout.maps → DrewToken layout start below token →
        HasTrie layout (with_generation layout below map token) 0 (map_root layout start map) }
    ensures holds { (layout : Layout) (start below : List ℕ) (map token : ℕ) (contents : Contents) →
        IsLawful layout start → map < layout.maps → DrewToken layout start below token →
        HoldsContents layout start contents →
        HoldsContents layout (with_generation layout below map token)
        (record contents { used = contents.used + 1 }) }
    ensures stands { (layout : Layout) (start below : List ℕ) (map token root : ℕ) (tree : Tree) →
        IsLawful layout start → map < layout.maps → DrewToken layout start below token →
        IsTrie layout start root tree →
        IsTrie layout (with_generation layout below map token) root tree }
{}

/// A snapshot gives the map a new token and sets the slot's root to the map's. All tries stand as they did.
pub fn a_snapshot_is_lawful()
    ensures law { (layout : Layout) (start below : List ℕ) (map snap token : ℕ) → IsLawful layout start →
        map < layout.maps → snap < layout.snaps →
        DrewToken layout start below token →
        let after = with_slot layout (with_generation layout below map token) snap (map_root layout start map) in
        IsLawful layout after × MayBecome layout start after }
    ensures stands { (layout : Layout) (start below : List ℕ) (map snap token root : ℕ) (tree : Tree) →
        IsLawful layout start → map < layout.maps → snap < layout.snaps →
        DrewToken layout start below token → IsTrie layout start root tree →
        IsTrie layout (with_slot layout (with_generation layout below map token) snap (map_root layout start map)) root tree }
    ensures holds { (layout : Layout) (start below : List ℕ) (map snap token : ℕ) (contents : Contents) →
        IsLawful layout start → map < layout.maps → snap < layout.snaps →
        DrewToken layout start below token → HoldsContents layout start contents →
        HoldsContents layout (with_slot layout (with_generation layout below map token) snap (map_root layout start map))
        (record contents { slots = slice_set contents.slots snap (slice_index_or contents.maps map []); used = contents.used + 1 }) }
{}

/// A share gives both maps a new token, one map after the other, and sets the root of the one to that of the
/// other. All tries stand as they did.
pub fn a_share_is_lawful()
    ensures law { (layout : Layout) (start one_drawn both_drawn : List ℕ) (from into from_token into_token : ℕ) →
        IsLawful layout start → from < layout.maps → into < layout.maps →
        DrewToken layout start one_drawn from_token →
        DrewToken layout (with_generation layout one_drawn from from_token) both_drawn into_token →
        let after = with_root layout (with_generation layout both_drawn into into_token) into (map_root layout start from) in
        IsLawful layout after × MayBecome layout start after }
    ensures stands { (layout : Layout) (start one_drawn both_drawn : List ℕ) (from into from_token into_token root : ℕ)
        (tree : Tree) → IsLawful layout start → from < layout.maps → into < layout.maps →
        DrewToken layout start one_drawn from_token →
        DrewToken layout (with_generation layout one_drawn from from_token) both_drawn into_token →
        IsTrie layout start root tree →
        IsTrie layout (with_root layout (with_generation layout both_drawn into into_token) into (map_root layout start from)) root tree }
    ensures holds { (layout : Layout) (start one_drawn both_drawn : List ℕ) (from into from_token into_token : ℕ)
        (contents : Contents) → IsLawful layout start → from < layout.maps → into < layout.maps →
        DrewToken layout start one_drawn from_token →
        DrewToken layout (with_generation layout one_drawn from from_token) both_drawn into_token →
        HoldsContents layout start contents →
        HoldsContents layout (with_root layout (with_generation layout both_drawn into into_token) into (map_root layout start from))
        (record contents { maps = slice_set contents.maps into (slice_index_or contents.maps from []); used = contents.used + 2 }) }
{}
