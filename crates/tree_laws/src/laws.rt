//! Laws of lawful trees. Each is the contract of a function that does nothing.

ghost use Rattle.std.specs.Prelude.{◌≡◌, ◌≢◌, ℕ, ◌*◌, ◌-◌, ◌^◌, ◌<◌, ◌≤◌, ◌↔◌, Bool, false, IsTrue};
ghost use Rattle.std.specs.Prelude.{Option, None, Some, List, [], ◌∷◌, ◌⊎◌, Contains};
ghost use Rattle.std.specs.Prelude.{length};
ghost use Rattle.std.specs.Bool.{Decides};
ghost use Rattle.std.specs.List.{AllByRecursion};
ghost use Rattle.reg_model.specs.declared.span.Member.{Member};
ghost use Rattle.reg_model.specs.declared.answer.Update.{Update};
ghost use Rattle.reg_model.specs.declared.answer.Update.TheVariants.{Register, Deregister};
ghost use Rattle.reg_model.specs.declared.answer.Update.TheVariants.{Replace};
ghost use Rattle.tree_shape.specs.declared.pair.Pair.{Pair};
ghost use Rattle.tree_shape.specs.declared.limits.TheConstants.{PAIRS, ENTRIES, HIGHEST_LEVEL};
ghost use Rattle.reg_model.specs.SpanData.{contains};
ghost use Rattle.reg_model.specs.Query.{member_at};
ghost use Rattle.tree_shape.specs.NodeData.{IsLeaf, EntriesWithin, entries_of, pairs_of};
ghost use Rattle.tree_shape.specs.NodeData.{IsInFences, LiesInFences};
ghost use Rattle.tree_laws.specs.Trees.{Contents, branches, nodes, entries, leaf_for, HasEntry};
ghost use Rattle.tree_laws.specs.Lawful.{IsTree, IsLawfulTree, IsFilled, FitsParent};
ghost use Rattle.tree_laws.specs.Lawful.{fewest_entries};
ghost use Rattle.tree_laws.specs.LocalChange.{IsLocalChange, reached_nodes, live_after};
ghost use Rattle.tree_laws.specs.LocalChange.{IsLawfulChange, ChangesEntries, EntriesBecome};
ghost use Rattle.tree_laws.specs.LocalChange.{AgreeOn, IsChangeOf, IsSameChange, either};
ghost use Rattle.tree_laws.specs.Decisions.{is_lawful_change};
ghost use Rattle.tree_laws.specs.Numbers.{is_among};
ghost use Rattle.tree_laws.specs.Steps.{Keeps, IsSplit, IsJoin, IsShare, with_node, without_node};
ghost use Rattle.tree_laws.specs.Steps.{IsFenceMove, fence_nodes, IsLift, Lifts, IsRootSplit};
ghost use Rattle.tree_laws.specs.Steps.{IsSink, IsPut, Adds, IsTake, Takes, IsReplace};

/// A lookup down the separators comes to a leaf, and finds there exactly what the tree holds.
pub fn lookup()
    ensures leaf { (f : Contents) (live : ℕ → Bool) (pc : ℕ) → IsTree f live → pc ≤ 2 ^ 64 - 1
        → IsTrue (live (leaf_for f pc)) × IsLeaf (f (leaf_for f pc)) }
    ensures found { (f : Contents) (live : ℕ → Bool) (pc : ℕ) (m : Member) → IsTree f live
        → pc ≤ 2 ^ 64 - 1 → (member_at pc (entries_of (f (leaf_for f pc))) ≡ Some m)
        ↔ (HasEntry f live m × IsTrue (contains m.span pc)) }
{}

/// A live leaf holds exactly the tree's entries inside its fences, and an address leads to the leaf
/// whose fences hold it. So one who holds a live leaf knows all that the tree has inside them.
pub fn leaf_fences()
    ensures kind { (f : Contents) (live : ℕ → Bool) (n : ℕ) → IsTree f live → IsTrue (live n)
        → IsLeaf (f n) ↔ ((f n).level ≡ 0) }
    ensures leaf { (f : Contents) (live : ℕ → Bool) (leaf pc : ℕ) → IsTree f live
        → IsTrue (live leaf) → IsLeaf (f leaf) → pc ≤ 2 ^ 64 - 1
        → (leaf_for f pc ≡ leaf) ↔ IsInFences pc (f leaf) }
    ensures entries { (f : Contents) (live : ℕ → Bool) (leaf : ℕ) (m : Member) → IsTree f live
        → IsTrue (live leaf) → IsLeaf (f leaf)
        → Contains (entries_of (f leaf)) m ↔ (HasEntry f live m × LiesInFences m.span (f leaf)) }
    ensures found { (f : Contents) (live : ℕ → Bool) (leaf pc : ℕ) (m : Member) → IsTree f live
        → IsTrue (live leaf) → IsLeaf (f leaf) → IsInFences pc (f leaf)
        → (member_at pc (entries_of (f leaf)) ≡ Some m)
        ↔ (HasEntry f live m × IsTrue (contains m.span pc)) }
{}

/// The root is live, and so are the children of a live node, each with the level and the fences
/// that it gives them. None of them is the root.
pub fn children()
    ensures root { (f : Contents) (live : ℕ → Bool) → IsTree f live → IsTrue (live 0) }
    ensures live { (f : Contents) (live : ℕ → Bool) (n : ℕ) → IsTree f live → IsTrue (live n)
        → AllByRecursion (λ b. IsTrue (live b.child) × FitsParent f b)
        (branches ((f n).level - 1) (f n)) }
    ensures never_root { (f : Contents) (live : ℕ → Bool) (n : ℕ) → IsTree f live
        → IsTrue (live n) → AllByRecursion (λ b. b.child ≢ 0) (branches ((f n).level - 1) (f n)) }
{}

/// A tree's entries from left to right are those of its live nodes, and ascend.
pub fn order()
    ensures entries { (f : Contents) (live : ℕ → Bool) (m : Member) → IsTree f live
        → Contains (entries f) m ↔ HasEntry f live m }
    ensures ascending { (f : Contents) (live : ℕ → Bool) → IsTree f live
        → EntriesWithin 0 (2 ^ 64 - 1) (entries f) }
{}

/// A lawful tree of two nodes or more has at least twice as many entries as nodes, one with a full
/// node has ten, and one whose root has level 12 has more than 16,384 nodes.
pub fn fillings()
    ensures entries { (f : Contents) (live : ℕ → Bool) → IsLawfulTree f live → 2 ≤ length (nodes f)
        → 2 * length (nodes f) ≤ length (entries f) }
    ensures full { (f : Contents) (live : ℕ → Bool) (n : ℕ) → IsLawfulTree f live → IsTrue (live n)
        → (PAIRS ≤ length (pairs_of (f n))) ⊎ (ENTRIES ≤ length (entries_of (f n)))
        → ENTRIES ≤ length (entries f) }
    ensures height { (f : Contents) (live : ℕ → Bool) → IsLawfulTree f live
        → (f 0).level ≡ HIGHEST_LEVEL
        → 16384 < length (nodes f) }
{}

/// A change of some nodes that keeps what these nodes say of themselves and of their neighbours
/// keeps the whole tree. It changes the tree's entries by those of these nodes, so what it makes of
/// the changed leaves' entries it makes of the tree's. Where the nodes that the top now reaches are
/// filled, it keeps a lawful tree lawful.
pub fn local_change()
    ensures tree { (f : Contents) (live : ℕ → Bool) (top : ℕ)
        (group fresh : ℕ → Bool) (g : Contents)
        → IsTree f live → IsLocalChange f live top group fresh g
        → IsTree g (live_after live top group fresh g) }
    ensures entries { (f : Contents) (live : ℕ → Bool) (top : ℕ)
        (group fresh : ℕ → Bool) (g : Contents)
        → IsTree f live → IsLocalChange f live top group fresh g
        → ChangesEntries f live top group fresh g }
    ensures lawful { (f : Contents) (live : ℕ → Bool) (top : ℕ)
        (group fresh : ℕ → Bool) (g : Contents)
        → IsLawfulTree f live → IsLocalChange f live top group fresh g
        → AllByRecursion (λ n. IsFilled n (g n)) (reached_nodes top group fresh g)
        → IsLawfulTree g (live_after live top group fresh g) }
    ensures update { (f : Contents) (live : ℕ → Bool) (top : ℕ)
        (group fresh : ℕ → Bool) (g : Contents) (update : Option Update) → IsLawfulTree f live
        → IsLawfulChange f live top group fresh g update
        → EntriesBecome update (HasEntry f live) (HasEntry g (live_after live top group fresh g)) }
{}

/// A local change is one of all contents that agree on its nodes: so one who holds these nodes of a
/// tree shows a change of the tree by the nodes that it holds, and the other way round.
pub fn transfer()
    ensures change { (top : ℕ) (group fresh : ℕ → Bool) (f : Contents) (live : ℕ → Bool)
        (g f' : Contents) (live' : ℕ → Bool) (g' : Contents)
        → IsLocalChange f live top group fresh g → IsSameChange top group fresh f g f' live' g'
        → IsLocalChange f' live' top group fresh g' }
    ensures lawful { (top : ℕ) (group fresh : ℕ → Bool) (f : Contents) (live : ℕ → Bool)
        (g f' : Contents) (live' : ℕ → Bool) (g' : Contents) (update : Option Update)
        → IsLawfulChange f live top group fresh g update
        → IsSameChange top group fresh f g f' live' g'
        → IsLawfulChange f' live' top group fresh g' update }
    ensures reached { (top : ℕ) (group fresh : ℕ → Bool) (f : Contents) (live : ℕ → Bool)
        (g f' : Contents) (live' : ℕ → Bool) (g' : Contents)
        → IsLocalChange f live top group fresh g → IsSameChange top group fresh f g f' live' g'
        → reached_nodes top group fresh g' ≡ reached_nodes top group fresh g }
    ensures tests { (f : Contents) (live : ℕ → Bool) (top : ℕ)
        (group fresh group' fresh' : ℕ → Bool) (g : Contents) (update : Option Update)
        → ((n : ℕ) → group n ≡ group' n) → ((n : ℕ) → fresh n ≡ fresh' n)
        → IsLawfulChange f live top group fresh g update
        → IsLawfulChange f live top group' fresh' g update }
{}

/// Contents that agree with a lawful tree on its live nodes are a lawful tree.
pub fn agreement()
    ensures { (f g : Contents) (live : ℕ → Bool) → IsLawfulTree f live → AgreeOn live f g
        → IsLawfulTree g live }
{}

/// A local change of a tree may have more fresh nodes: nothing that it reaches leads to them.
pub fn widen()
    ensures lawful { (f : Contents) (live : ℕ → Bool) (top : ℕ)
        (group fresh more : ℕ → Bool) (g : Contents) (update : Option Update)
        → IsTree f live → IsLawfulChange f live top group fresh g update
        → ((n : ℕ) → IsTrue (fresh n) → IsTrue (more n))
        → ((n : ℕ) → IsTrue (more n) → live n ≡ false)
        → IsLawfulChange f live top group more g update }
    ensures reached { (f : Contents) (live : ℕ → Bool) (top : ℕ)
        (group fresh more : ℕ → Bool) (g : Contents)
        → IsTree f live → IsLocalChange f live top group fresh g
        → ((n : ℕ) → IsTrue (fresh n) → IsTrue (more n))
        → ((n : ℕ) → IsTrue (more n) → live n ≡ false)
        → reached_nodes top group more g ≡ reached_nodes top group fresh g }
{}

/// The premises of a lawful change of listed nodes are tests over finite lists: the test is true
/// exactly where they hold.
pub fn decided()
    ensures { (f : Contents) (live : ℕ → Bool) (top : ℕ) (group : List ℕ) (fresh : ℕ → Bool)
        (fresh_nodes : List ℕ) (g : Contents) (update : Option Update)
        → ((n : ℕ) → either (is_among group) fresh n ≡ false → g n ≡ f n)
        → ((n : ℕ) → IsTrue (fresh n) → IsTrue (is_among fresh_nodes n))
        → Decides (is_lawful_change f live top group fresh fresh_nodes g update)
        (IsLawfulChange f live top (is_among group) fresh g update) }
{}

/// A child that is split, with its parent's new pair.
pub fn split()
    ensures kept { (f : Contents) (live : ℕ → Bool) (parent slot : ℕ) (p : Pair)
        (fresh : ℕ) (g : Contents)
        → IsLawfulTree f live → IsSplit f live parent slot p fresh g
        → Keeps f live g (with_node fresh live) }
    ensures change { (f : Contents) (live : ℕ → Bool) (parent slot : ℕ) (p : Pair)
        (fresh : ℕ) (g : Contents)
        → IsLawfulTree f live → IsSplit f live parent slot p fresh g
        → IsChangeOf f live parent (parent ∷ p.child ∷ []) (fresh ∷ []) g None
        (parent ∷ p.child ∷ fresh ∷ []) }
{}

/// Two children that are joined, with their parent's pair less.
pub fn join()
    ensures kept { (f : Contents) (live : ℕ → Bool) (parent slot : ℕ) (p q : Pair) (g : Contents)
        → IsLawfulTree f live → IsJoin f live parent slot p q g
        → Keeps f live g (without_node q.child live) }
    ensures change { (f : Contents) (live : ℕ → Bool) (parent slot : ℕ) (p q : Pair) (g : Contents)
        → IsLawfulTree f live → IsJoin f live parent slot p q g
        → IsChangeOf f live parent (parent ∷ p.child ∷ q.child ∷ []) [] g None
        (parent ∷ p.child ∷ []) }
{}

/// Two children that are given even shares, with their parent's new separator.
pub fn share()
    ensures kept { (f : Contents) (live : ℕ → Bool) (parent slot : ℕ) (p q : Pair) (g : Contents)
        → IsLawfulTree f live → IsShare f live parent slot p q g → Keeps f live g live }
    ensures change { (f : Contents) (live : ℕ → Bool) (parent slot : ℕ) (p q : Pair) (g : Contents)
        → IsLawfulTree f live → IsShare f live parent slot p q g
        → IsChangeOf f live parent (parent ∷ p.child ∷ q.child ∷ []) [] g None
        (parent ∷ p.child ∷ q.child ∷ []) }
{}

/// A fence that is moved, on both spines and in the node above them.
pub fn move_fence()
    ensures kept { (f : Contents) (live : ℕ → Bool) (parent slot : ℕ) (p q : Pair)
        (fence : ℕ) (g : Contents)
        → IsLawfulTree f live → IsFenceMove f live parent slot p q fence g → Keeps f live g live }
    ensures change { (f : Contents) (live : ℕ → Bool) (parent slot : ℕ) (p q : Pair)
        (fence : ℕ) (g : Contents)
        → IsLawfulTree f live → IsFenceMove f live parent slot p q fence g
        → IsChangeOf f live parent (fence_nodes f parent p q) [] g None (fence_nodes f parent p q) }
{}

/// The root that is lifted leaves a tree that is lawful but for its one pair; the split that
/// follows makes it lawful.
pub fn lift()
    ensures lifted { (f : Contents) (live : ℕ → Bool) (fresh : ℕ) (g : Contents)
        → IsLawfulTree f live → IsLift f live fresh g → Lifts f live g (with_node fresh live) }
    ensures split { (f : Contents) (live : ℕ → Bool) (moved : ℕ) (h : Contents) (p : Pair)
        (fresh : ℕ) (g : Contents)
        → IsLawfulTree f live → IsLift f live moved h
        → IsSplit h (with_node moved live) 0 0 p fresh g
        → Keeps f live g (with_node fresh (with_node moved live)) }
{}

/// The root that is lifted and split in one step.
pub fn split_root()
    ensures kept { (f : Contents) (live : ℕ → Bool) (left right : ℕ) (g : Contents)
        → IsLawfulTree f live → IsRootSplit f live left right g
        → Keeps f live g (with_node right (with_node left live)) }
    ensures change { (f : Contents) (live : ℕ → Bool) (left right : ℕ) (g : Contents)
        → IsLawfulTree f live → IsRootSplit f live left right g
        → IsChangeOf f live 0 (0 ∷ []) (left ∷ right ∷ []) g None (0 ∷ left ∷ right ∷ []) }
{}

/// The root that takes the place of its only two children.
pub fn sink()
    ensures kept { (f : Contents) (live : ℕ → Bool) (p q : Pair) (g : Contents)
        → IsLawfulTree f live → IsSink f live p q g
        → Keeps f live g (without_node p.child (without_node q.child live)) }
    ensures change { (f : Contents) (live : ℕ → Bool) (p q : Pair) (g : Contents)
        → IsLawfulTree f live → IsSink f live p q g
        → IsChangeOf f live 0 (0 ∷ p.child ∷ q.child ∷ []) [] g None (0 ∷ []) }
{}

/// A leaf that gets one more entry adds exactly this member.
pub fn put()
    ensures added { (f : Contents) (live : ℕ → Bool) (leaf : ℕ) (member : Member) (g : Contents)
        → IsLawfulTree f live → IsPut f live leaf member g → Adds f live member g }
    ensures change { (f : Contents) (live : ℕ → Bool) (leaf : ℕ) (member : Member) (g : Contents)
        → IsLawfulTree f live → IsPut f live leaf member g
        → IsChangeOf f live leaf (leaf ∷ []) [] g (Some (Register member)) (leaf ∷ []) }
{}

/// A leaf that loses an entry takes exactly the member that begins at the address. The tree stays
/// lawful where the leaf is the root or had an entry to spare.
pub fn take()
    ensures taken { (f : Contents) (live : ℕ → Bool) (leaf base : ℕ) (member : Member)
        (g : Contents)
        → IsLawfulTree f live → IsTake f live leaf base member g → Takes f live leaf member g }
    ensures change { (f : Contents) (live : ℕ → Bool) (leaf base : ℕ) (member : Member)
        (g : Contents)
        → IsLawfulTree f live → IsTake f live leaf base member g
        → fewest_entries leaf < length (entries_of (f leaf))
        → IsChangeOf f live leaf (leaf ∷ []) [] g (Some (Deregister base)) (leaf ∷ []) }
{}

/// A leaf whose entry gives way to a member with the same whole span exchanges exactly these two.
/// No count and no fence changes, so the tree stays lawful in any leaf.
pub fn replace()
    ensures { (f : Contents) (live : ℕ → Bool) (leaf : ℕ) (member : Member) (g : Contents)
        → IsLawfulTree f live → IsReplace f live leaf member g
        → IsChangeOf f live leaf (leaf ∷ []) [] g (Some (Replace member)) (leaf ∷ []) }
{}
