// The nodes of the proof tree; paths and their leaves.
#![tactic(auto)]

ghost use Rattle.std.specs.Prelude.{◌≡◌, Bool, ◌⊎◌, List, [], ◌∷◌, ◌++◌, ℕ, ◌≤◌, ◌<◌, ◌+◌, leb, length, get_or, suc};
ghost use Rattle.definition.specs.Limits.{most_identifiers};
ghost use Rattle.arrays.specs.Listed.{HasList};
ghost use Rattle.definition.specs.Lists.{any, filter};
ghost use Rattle.definition.specs.Records.{nobody, is_nobody};
ghost use Rattle.definition.specs.Tree.{Node, node_at, new_node, marked_against, is_contradictory, change, placed_below, with_child, link, link_chain, is_leaf, leaves_below, leaves, path};
ghost use Rattle.definition.specs.Subtree.{takes};
ghost use Rattle.definition.specs.TreeShape.{placed, Treed};
ghost use Rattle.tree.specs.Sequence.{id_at, count_after};

use arrays::Numbers;
use formula::FormulaNumber;
use graph::PossibleWorld;
use limits::{FULL, MOST_IDENTIFIERS};

#[derive(Clone, Copy, Debug, PartialEq, Eq)]
pub struct ProofTreeNodeID(pub u16);

impl ProofTreeNodeID {
    // No node: what a node that lacks a parent, a child, a spawner or a contrarian has there.
    // A number and no Option: it is the definition's and the trays', and an Option would double an entry's field.
    pub const NONE: ProofTreeNodeID = ProofTreeNodeID(65535);

    // The root of the tree, the first that is issued.
    pub const ROOT: ProofTreeNodeID = ProofTreeNodeID(0);

    pub fn is_none(self) -> bool
        ensures { result ≡ is_nobody self.0 }
    {
        self == ProofTreeNodeID::NONE
    }
}

// The sequence that every identifier is drawn from: how many are issued, which is the one that is next; FULL after a draw that found no room.
#[derive(Clone, Copy)]
struct ProofTreeNodeIDSequence {
    issued: usize,
}

impl ProofTreeNodeIDSequence {
    fn is_full(self) -> bool
        ensures { result ≡ leb most_identifiers self.issued }
    {
        MOST_IDENTIFIERS <= self.issued
    }

    // The identifier that is next; none where there is no room.
    fn current(self) -> ProofTreeNodeID
        ensures { result.0 ≡ id_at self.issued }
    {
        if self.is_full() {
            return ProofTreeNodeID::NONE;
        }
        ProofTreeNodeID(self.issued as u16)
    }

    // The sequence once that identifier is issued.
    fn advanced(self) -> ProofTreeNodeIDSequence
        ensures { result.issued ≡ count_after self.issued }
    {
        if self.is_full() {
            return ProofTreeNodeIDSequence { issued: FULL };
        }
        ProofTreeNodeIDSequence {
            issued: self.issued + 1,
        }
    }

    // The next identifier of the sequence that is lent.
    fn next(&mut self) -> ProofTreeNodeID
        ensures { (result.0 ≡ id_at self.old.issued) × (self.new.issued ≡ count_after self.old.issued) }
    {
        let id = self.current();
        *self = self.advanced();
        id
    }
}

// The identifier that was drawn where `i` were issued; none beyond the limit.
pub fn id_at(i: usize) -> ProofTreeNodeID
    ensures { result.0 ≡ id_at i }
{
    let sequence = ProofTreeNodeIDSequence { issued: i };
    sequence.current()
}

// `count` identifiers from `start` on; the first is the top if rising, else the last.
#[derive(Clone, Copy)]
pub struct Chain {
    pub start: ProofTreeNodeID,
    pub count: u16,
    pub rising: bool,
}

impl Chain {
    ghost use Rattle.tree.specs.Chain.{chain_of, falling_chain, ChainBelow, Spans};

    pub const EMPTY: Chain = Chain {
        start: ProofTreeNodeID(0),
        count: 0,
        rising: true,
    };

    // So many identifiers from `start` on, the last on top.
    pub fn falling(start: ProofTreeNodeID, count: u16) -> Chain
        ensures { result ≡ falling_chain start.0 count }
    {
        Chain {
            start,
            count,
            rising: false,
        }
    }

    // The chain with one identifier more, at its lower end.
    fn extended(self, id: ProofTreeNodeID) -> Chain
        ensures { (lo : ℕ) → id.0 < most_identifiers → Spans self lo id.0 → Spans result lo (id.0 + 1) }
    {
        if self.count == 0 {
            return Chain {
                start: id,
                count: 1,
                rising: true,
            };
        }
        if self.count == 65535 {
            return self;
        }
        Chain {
            start: self.start,
            count: self.count + 1,
            rising: true,
        }
    }

    // Identifier k, from the top; none beyond the chain, and none of a chain that does not fit.
    pub fn at(self, k: usize) -> ProofTreeNodeID
        ensures { (ChainBelow self most_identifiers → k < self.count → result.0 ≡ get_or (chain_of self) k 0)
            × ((self.count ≤ k) ⊎ (most_identifiers < self.start.0 + self.count) → result.0 ≡ nobody) }
    {
        let s = self.start.0 as usize;
        let n = self.count as usize;
        if n <= k {
            return ProofTreeNodeID::NONE;
        }
        if MOST_IDENTIFIERS < s + n {
            return ProofTreeNodeID::NONE;
        }
        if self.rising {
            return ProofTreeNodeID((s + k) as u16);
        }
        ProofTreeNodeID((s + (n - 1 - k)) as u16)
    }
}

// Where a node stands: at the root, as a child of its parent, or not in the tree yet.
#[derive(Clone, Copy, Debug, PartialEq, Eq)]
pub enum Place {
    Root,
    Left,
    Middle,
    Right,
    Unplaced,
}

impl Place {
    ghost use Rattle.definition.specs.Tree.{place_number};
    ghost use Rattle.tree.specs.Lay.{place_of};

    // The number that the trays have.
    pub fn number(self) -> u8
        ensures { result ≡ place_number (place_of self) }
    {
        self as u8
    }
}

// A place as an entry stores it: a number that is 65535 where there is none. A Place has a small tag, and the blank entry, whose bytes
// are to be alike (`ProofTreeNode::BLANK`), would have bytes that differ.
#[derive(Clone, Copy, Debug, PartialEq, Eq)]
struct StoredPlace(u16);

impl From<Place> for StoredPlace {
    ghost use Rattle.tree.specs.Lay.{place_of, place_code};

    ghost from_gives = { λ place stored. stored.0 ≡ place_code (place_of place) };

    fn from(place: Place) -> StoredPlace {
        match place {
            Place::Unplaced => StoredPlace(65535),
            other => StoredPlace(other as u16),
        }
    }
}

impl From<StoredPlace> for Place {
    ghost use Rattle.definition.specs.Tree as D;
    ghost use Rattle.tree.specs.Lay.{place_of, place_code};

    ghost from_gives = { λ stored place. (p : D.Place) → stored.0 ≡ place_code p → place_of place ≡ p };

    fn from(stored: StoredPlace) -> Place {
        match stored.0 {
            0 => Place::Root,
            1 => Place::Left,
            2 => Place::Middle,
            3 => Place::Right,
            _ => Place::Unplaced,
        }
    }
}

// A node, as its entry in the tree has it.
#[derive(Clone, Copy, Debug, PartialEq, Eq)]
pub struct ProofTreeNode {
    parent: ProofTreeNodeID,
    place: StoredPlace,
    world: PossibleWorld,
    formula: FormulaNumber,
    spawner: ProofTreeNodeID,
    contrarian: ProofTreeNodeID,
    left: ProofTreeNodeID,
    middle: ProofTreeNodeID,
    right: ProofTreeNodeID,
}

impl ProofTreeNode {
    ghost use Rattle.tree.specs.Lay.{place_of, stored};

    // The entry that has no node. Its bytes are alike, so that one memset fills the array.
    const BLANK: ProofTreeNode = ProofTreeNode {
        parent: ProofTreeNodeID::NONE,
        place: StoredPlace(65535),
        world: PossibleWorld::NONE,
        formula: FormulaNumber::COMMENT,
        spawner: ProofTreeNodeID::NONE,
        contrarian: ProofTreeNodeID::NONE,
        left: ProofTreeNodeID::NONE,
        middle: ProofTreeNodeID::NONE,
        right: ProofTreeNodeID::NONE,
    };

    // The node as it enters the tree below y, with no child yet.
    fn placed_below(self, y: ProofTreeNodeID, place: Place) -> ProofTreeNode
        ensures { (n : Node) → self ≡ stored n → result ≡ stored (placed_below y.0 (place_of place) n) }
    {
        ProofTreeNode {
            parent: y,
            place: place.into(),
            left: ProofTreeNodeID::NONE,
            middle: ProofTreeNodeID::NONE,
            right: ProofTreeNodeID::NONE,
            ..self
        }
    }

    // The node with the child x.
    #[tactic(auto, unfolding(definition::specs::Tree::set_child))]
    fn with_child(self, place: Place, x: ProofTreeNodeID) -> ProofTreeNode
        ensures { (n : Node) → self ≡ stored n → result ≡ stored (with_child (place_of place) x.0 n) }
    {
        match place {
            Place::Left => ProofTreeNode { left: x, ..self },
            Place::Middle => ProofTreeNode { middle: x, ..self },
            Place::Right => ProofTreeNode { right: x, ..self },
            _ => self,
        }
    }
}

// The nodes by their identifiers, and how many of these are issued. A count above MOST_IDENTIFIERS says that there are too many, and nothing of the entries.
// Numbered nodes in an array, and no nodes that own one another: the product has no heap, and the trays show the identifiers.
// No `arrays::Table`, since an identifier is drawn from the sequence before its entry is filled.
#[derive(Clone, Copy)]
pub struct ProofTree {
    pub nodes: [ProofTreeNode; MOST_IDENTIFIERS],
    pub len: usize,
}

impl ProofTree {
    ghost use Rattle.tree.specs.Lay.{place_of, stored, Laid, HasNodes};
    ghost use Rattle.tree.specs.Chain.{chain_of, ChainBelow, DrawnFrom};
    ghost use Rattle.tree.specs.Sequence.{Draws};
    ghost use Rattle.tree.specs.Stands.{Stands};
    ghost use Rattle.tree.specs.Outside.{leaves_outside};

    // No node.
    pub fn new() -> Self
        ensures { HasNodes [] result }
    {
        ProofTree {
            nodes: [ProofTreeNode::BLANK; MOST_IDENTIFIERS],
            len: 0,
        }
    }

    // More nodes than there is room for.
    pub fn fill_up(&mut self)
        ensures { self.new.len ≡ suc most_identifiers }
    {
        self.len = FULL;
    }

    // The next identifier.
    fn new_node_id(&mut self) -> ProofTreeNodeID
        ensures { Draws self.old.len self.new.len result.0 × (self.new.nodes ≡ self.old.nodes) }
    {
        let mut sequence = ProofTreeNodeIDSequence { issued: self.len };
        let id = sequence.next();
        self.len = sequence.issued;
        id
    }

    // The entry of node x; the blank one where there is none.
    fn entry(&self, x: ProofTreeNodeID) -> ProofTreeNode
        ensures { (ns : List Node) → Laid ns self.now → result ≡ stored (node_at ns x.0) }
    {
        let i = x.0 as usize;
        if MOST_IDENTIFIERS <= i {
            return ProofTreeNode::BLANK;
        }
        self.nodes[i]
    }

    pub fn parent_of(&self, x: ProofTreeNodeID) -> ProofTreeNodeID
        ensures { (ns : List Node) → Laid ns self.now → result.0 ≡ (node_at ns x.0).parent }
    {
        self.entry(x).parent
    }

    pub fn place_of(&self, x: ProofTreeNodeID) -> Place
        ensures { (ns : List Node) → Laid ns self.now → place_of result ≡ (node_at ns x.0).place }
    {
        self.entry(x).place.into()
    }

    // Node x is in the tree.
    pub fn is_placed(&self, x: ProofTreeNodeID) -> bool
        ensures { (ns : List Node) → Laid ns self.now → result ≡ placed (node_at ns x.0).place }
    {
        self.place_of(x) != Place::Unplaced
    }

    pub fn world_of(&self, x: ProofTreeNodeID) -> PossibleWorld
        ensures { (ns : List Node) → Laid ns self.now → result.0 ≡ (node_at ns x.0).world }
    {
        self.entry(x).world
    }

    pub fn formula_of(&self, x: ProofTreeNodeID) -> FormulaNumber
        ensures { (ns : List Node) → Laid ns self.now → result.0 ≡ (node_at ns x.0).formula }
    {
        self.entry(x).formula
    }

    pub fn spawner_of(&self, x: ProofTreeNodeID) -> ProofTreeNodeID
        ensures { (ns : List Node) → Laid ns self.now → result.0 ≡ (node_at ns x.0).spawner }
    {
        self.entry(x).spawner
    }

    pub fn contrarian_of(&self, x: ProofTreeNodeID) -> ProofTreeNodeID
        ensures { (ns : List Node) → Laid ns self.now → result.0 ≡ (node_at ns x.0).contrarian }
    {
        self.entry(x).contrarian
    }

    pub fn left_of(&self, x: ProofTreeNodeID) -> ProofTreeNodeID
        ensures { (ns : List Node) → Laid ns self.now → result.0 ≡ (node_at ns x.0).children.left }
    {
        self.entry(x).left
    }

    pub fn middle_of(&self, x: ProofTreeNodeID) -> ProofTreeNodeID
        ensures { (ns : List Node) → Laid ns self.now → result.0 ≡ (node_at ns x.0).children.middle }
    {
        self.entry(x).middle
    }

    pub fn right_of(&self, x: ProofTreeNodeID) -> ProofTreeNodeID
        ensures { (ns : List Node) → Laid ns self.now → result.0 ≡ (node_at ns x.0).children.right }
    {
        self.entry(x).right
    }

    pub fn is_contradictory(&self, x: ProofTreeNodeID) -> bool
        ensures { (ns : List Node) → Laid ns self.now → result ≡ is_contradictory (node_at ns x.0) }
    {
        !self.contrarian_of(x).is_none()
    }

    // Changes the entry of node x, where there is one.
    fn change<F: FnOnce(ProofTreeNode) -> ProofTreeNode>(&mut self, x: ProofTreeNodeID, f: F)
        requires { F.IsAlwaysCallable f }
        ensures { (self.new.len ≡ self.old.len)
            × ((ns : List Node) (g : Node → Node) → ((n : Node) (r : ProofTreeNode) → F.post f (stored n) r → r ≡ stored (g n)) → HasNodes ns self.old → HasNodes (change ns x.0 g) self.new) }
    {
        let i = x.0 as usize;
        if MOST_IDENTIFIERS < self.len {
            return;
        }
        if self.len <= i {
            return;
        }
        self.nodes[i] = f(self.nodes[i]);
    }

    // One node more, not in the tree yet: its identifier; none where there is no room.
    pub fn new_node(
        &mut self,
        spawner: ProofTreeNodeID,
        formula: FormulaNumber,
        world: PossibleWorld,
    ) -> ProofTreeNodeID
        ensures { Draws self.old.len self.new.len result.0 × ((ns : List Node) → HasNodes ns self.old → HasNodes (ns ++ (new_node spawner.0 formula.0 world.0 ∷ [])) self.new) }
    {
        let x = self.new_node_id();
        self.change(
            x,
            |_| ProofTreeNode {
                world,
                formula,
                spawner,
                ..ProofTreeNode::BLANK
            },
        );
        x
    }

    // One node more, whose identifier goes to the lower end of the chain.
    pub fn extend(
        &mut self,
        chain: Chain,
        spawner: ProofTreeNodeID,
        formula: FormulaNumber,
        world: PossibleWorld,
    ) -> Chain
        ensures { ((lo : ℕ) → DrawnFrom lo chain self.old.len → DrawnFrom lo result self.new.len)
            × ((ns : List Node) → HasNodes ns self.old → HasNodes (ns ++ (new_node spawner.0 formula.0 world.0 ∷ [])) self.new) }
    {
        let id = self.new_node(spawner, formula, world);
        chain.extended(id)
    }

    // Marks node x against its contrarian.
    pub fn mark_child_node_as_contradictory(
        &mut self,
        x: ProofTreeNodeID,
        contrarian: ProofTreeNodeID,
    )
        ensures { (self.new.len ≡ self.old.len) × ((ns : List Node) → HasNodes ns self.old → HasNodes (change ns x.0 (marked_against contrarian.0)) self.new) }
    {
        self.change(x, |node| ProofTreeNode { contrarian, ..node });
    }

    // x becomes the child of y at a place.
    fn link(&mut self, y: ProofTreeNodeID, place: Place, x: ProofTreeNodeID)
        ensures { (self.new.len ≡ self.old.len) × ((ns : List Node) → HasNodes ns self.old → HasNodes (link ns y.0 (place_of place) x.0) self.new) }
    {
        self.change(x, |node| node.placed_below(y, place));
        self.change(y, |node| node.with_child(place, x));
    }

    // The chain below y: the first at a place, each further one the middle child of the one before.
    pub fn link_chain(&mut self, y: ProofTreeNodeID, place: Place, c: Chain)
        ensures { (self.new.len ≡ self.old.len) × ((ns : List Node) → HasNodes ns self.old → (length ns ≤ most_identifiers → ChainBelow c (length ns)) → HasNodes (link_chain ns y.0 (place_of place) (chain_of c)) self.new) }
    {
        if MOST_IDENTIFIERS < self.len {
            return;
        }
        let mut above = y;
        let mut at = place;
        for k in 0..c.count as usize {
            let x = c.at(k);
            self.link(above, at, x);
            above = x;
            at = Place::Middle;
        }
    }

    // In the tree as it stood, when it had `count` nodes: a node of the leaf's path passes the test.
    fn any_on_path<F: Fn(ProofTreeNodeID) -> bool>(
        &self,
        leaf: ProofTreeNodeID,
        count: usize,
        test: F,
    ) -> bool
        requires { F.IsAlwaysCallable test }
        ensures { (t : List Node) (p : ℕ → Bool) → Stands t count self.now → ((x : ProofTreeNodeID) (b : Bool) → F.post test x b → b ≡ p x.0) → result ≡ any p (path t leaf.0) }
    {
        let mut cur = leaf;
        for _ in 0..count {
            if count <= cur.0 as usize {
                // What is no node of that tree has no parent there.
                return !cur.is_none() && test(cur);
            }
            if test(cur) {
                return true;
            }
            cur = self.parent_of(cur);
        }
        false
    }

    // The path of a leaf holds a contradictory node.
    fn path_is_contradictory(&self, leaf: ProofTreeNodeID) -> bool
        ensures { (ns : List Node) → length ns ≡ self.now.len → Laid ns self.now → result ≡ any (λ x. is_contradictory (node_at ns x)) (path ns leaf.0) }
    {
        self.any_on_path(leaf, self.len, |x| self.is_contradictory(x))
    }

    pub fn is_leaf(&self, x: ProofTreeNodeID) -> bool
        ensures { (ns : List Node) → Laid ns self.now → result ≡ is_leaf (node_at ns x.0).children }
    {
        self.left_of(x).is_none() && self.middle_of(x).is_none() && self.right_of(x).is_none()
    }

    // The leaves at and below x, left, then middle, then right, but none at or below a node that is left out.
    fn leaves_outside<F: Fn(&ProofTree, ProofTreeNodeID) -> bool>(
        &self,
        x: ProofTreeNodeID,
        depth: usize,
        out: &mut Numbers,
        is_left_out: &F,
    )
        requires { F.IsAlwaysCallable is_left_out.now }
        ensures { (ns : List Node) (l : List ℕ) (p : ℕ → Bool) → Laid ns self.now → ((stood : _) (y : ProofTreeNodeID) (b : Bool) → stood.now ≡ self.now → F.post is_left_out.now stood y b → b ≡ p y.0) → HasList l out.old
            → HasList (l ++ leaves_outside p depth ns x.0) out.new }
    {
        if x.is_none() || is_left_out(self, x) {
            return;
        }
        if depth == 0 || self.is_leaf(x) {
            out.push(x.0);
            return;
        }
        self.leaves_outside(self.left_of(x), depth - 1, out, is_left_out);
        self.leaves_outside(self.middle_of(x), depth - 1, out, is_left_out);
        self.leaves_outside(self.right_of(x), depth - 1, out, is_left_out);
    }

    // All leaves at and below x, in that order.
    pub fn leaves_below(&self, x: ProofTreeNodeID, depth: usize, out: &mut Numbers)
        ensures { (ns : List Node) (l : List ℕ) → Laid ns self.now → HasList l out.old → HasList (l ++ leaves_below depth ns x.0) out.new }
    {
        self.leaves_outside(x, depth, out, &|_, _| false);
    }

    // The leaves whose paths hold the target and no contradictory node, into an empty list.
    pub fn takers(&self, target: ProofTreeNodeID, out: &mut Numbers)
        ensures { (ns : List Node) → Treed ns → length ns ≡ self.now.len → Laid ns self.now → HasList [] out.old
            → HasList (filter (takes ns target.0) (leaves ns)) out.new }
    {
        if !self.is_placed(target) {
            return;
        }
        if self.path_is_contradictory(target) {
            return;
        }
        self.leaves_outside(target, self.len, out, &|tree, x| tree.is_contradictory(x));
    }
}
