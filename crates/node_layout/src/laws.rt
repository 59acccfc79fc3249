//! What is written is read again, what is sealed is opened again, and the places number the nodes.
ghost use Rattle.std.specs.Prelude.{◌≡◌, ◌≤◌, ◌^◌, ℕ, List, Some, length};
ghost use Rattle.node_layout.specs.declared.metadata.MetaSecret.{MetaSecret};
ghost use Rattle.node_layout.specs.Opening.{OpensTo};
ghost use Rattle.node_layout.specs.Places.{data_place, mht_place, node_count, NumberTheNodes, HaveParents, EntriesAreApart, AreLive};
ghost use Rattle.node_layout.specs.Metadata.{IsPath, IsPlain, IsMetaText, MOST_SIZE, flag_at, nonce_at, tag_at, meta_text, meta_opens, meta_block};

/// The text of some fields is a text of these fields, and a text is one of no other fields: what
/// `MetaSecret::read` gives of what `MetaSecret::write` wrote is the same.
pub fn text_gives_its_fields()
    ensures its_fields { (path : List ℕ) (size : ℕ) (root_key root_tag first : List ℕ) → IsPath path → size ≤ MOST_SIZE → length root_key ≡ 16 → length root_tag ≡ 16 → length first ≡ 3072 → IsMetaText (meta_text path size root_key root_tag first) path size root_key root_tag first }
    ensures no_others { (text path : List ℕ) (size : ℕ) (root_key root_tag first other_path : List ℕ) (other_size : ℕ) (other_key other_tag other_first : List ℕ) → IsMetaText text path size root_key root_tag first → IsMetaText text other_path other_size other_key other_tag other_first → (path ≡ other_path) × (size ≡ other_size) × (root_key ≡ other_key) × (root_tag ≡ other_tag) × (first ≡ other_first) }
    ensures one_secret { (text : List ℕ) (secret other : MetaSecret) → IsMetaText text secret.path secret.size secret.root_key secret.root_tag secret.first → IsMetaText text other.path other.size other.root_key other.root_tag other.first → secret ≡ other }
{}

/// A sealed metadata node is one of version 1.0 with the nonce and update flag 0, and opens under
/// the user's key to the text that was sealed. A node opens to one secret only: what `open_meta`
/// gives of what `seal_meta` sealed is the same.
pub fn sealed_meta_opens()
    ensures opens { (user nonce text : List ℕ) → length user ≡ 16 → length nonce ≡ 32 → length text ≡ 3880 → meta_opens user (meta_block user nonce text) ≡ Some text }
    ensures plain { (user nonce text : List ℕ) → IsPlain (meta_block user nonce text) }
    ensures nonce { (user nonce text : List ℕ) → length nonce ≡ 32 → nonce_at (meta_block user nonce text) ≡ nonce }
    ensures flag { (user nonce text : List ℕ) → length user ≡ 16 → length nonce ≡ 32 → flag_at (meta_block user nonce text) ≡ 0 }
    ensures length { (user nonce text : List ℕ) → length user ≡ 16 → length nonce ≡ 32 → length text ≡ 3880 → length (meta_block user nonce text) ≡ 4096 }
    ensures one_secret { (user node : List ℕ) (secret other : MetaSecret) → OpensTo user node secret → OpensTo user node other → secret ≡ other }
{}

/// The numbers from 1 on are those of the data nodes and of the hash-tree nodes, each of exactly one. What is said of a
/// number's parent and place is what is said of its node, no two nodes share an entry, and the nodes of a content are the
/// numbers below its count.
pub fn places_number_the_nodes()
    ensures number { NumberTheNodes }
    ensures parents { HaveParents }
    ensures apart { EntriesAreApart }
    ensures live { AreLive }
{}

/// The places and counts that docs/FORMAT.md lists, and the count of the longest content.
pub fn listed_places()
    ensures data { (data_place 0 ≡ 2) × (data_place 95 ≡ 97) × (data_place 96 ≡ 99) × (data_place 192 ≡ 196) }
    ensures mht { (mht_place 0 ≡ 1) × (mht_place 1 ≡ 98) × (mht_place 2 ≡ 195) × (mht_place 33 ≡ 3202) }
    ensures counts { (node_count 0 ≡ 1) × (node_count 3072 ≡ 1) × (node_count 3073 ≡ 3) × (node_count 396288 ≡ 98) × (node_count 396289 ≡ 100) }
    ensures longest { node_count (2 ^ 32) ≡ 1059500 }
{}
