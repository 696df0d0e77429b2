// The stack of stored necessities.
#![tactic(auto)]

ghost use Rattle.std.specs.Prelude.{◌≡◌, List, [], ◌∷◌, reverse, ℕ, ◌+◌, ◌≤◌, ◌<◌, get_or, set};
ghost use Rattle.definition.specs.Limits.{most_identifiers};
ghost use Rattle.arrays.specs.Listed.{HasList};
ghost use Rattle.bits.specs.Worlds.{worlds_in};
ghost use Rattle.definition.specs.Lists.{Each, elem};
ghost use Rattle.definition.specs.Modality.{Necessity};
ghost use Rattle.necessities.specs.Stored.{InRow};
ghost use Rattle.necessities.specs.Change.{Added};

use arrays::Numbers;
use bits::{LeafTable, WorldSet};
use formula::FormulaNumber;
use graph::PossibleWorld;
use limits::{FULL, MOST_IDENTIFIERS};
use tree::ProofTreeNodeID;

// A stored necessity: the worlds that it has visited, and the row of leaf bits where its leaves stand.
#[derive(Clone, Copy, Debug, PartialEq, Eq)]
pub struct StoredNecessity {
    pub formula: FormulaNumber,
    pub world: PossibleWorld,
    pub spawner: ProofTreeNodeID,
    pub leaf_row: u16,
    pub visited: WorldSet,
}

impl StoredNecessity {
    // An entry that has no necessity; every byte is 0.
    const BLANK: StoredNecessity = StoredNecessity {
        formula: FormulaNumber(0),
        world: PossibleWorld::ZERO,
        spawner: ProofTreeNodeID::ROOT,
        leaf_row: 0,
        visited: WorldSet::EMPTY,
    };
}

// The necessities, from the bottom of the stack to the top, how many there are, and the table of leaf bits.
// No `arrays::Table`, whose clauses speak of entries pushed, read and taken out: here rows change where they stand and are turned round.
#[derive(Clone, Copy)]
pub struct Necessities {
    pub rows: [StoredNecessity; MOST_IDENTIFIERS],
    pub count: usize,
    pub leaves: LeafTable,
}

// Puts the listed numbers, each below MOST_IDENTIFIERS, into row k.
fn insert_all(leaves: &mut LeafTable, k: usize, list: &Numbers)
    ensures { (l : List ℕ) → HasList l list.now → list.now.len ≤ most_identifiers → Each (λ x. x < most_identifiers) l → Added k l leaves.old.words leaves.new.words }
{
    if MOST_IDENTIFIERS <= k {
        return;
    }
    for i in 0..list.len {
        let x = list.nth(i) as usize;
        leaves.insert(k * MOST_IDENTIFIERS + x);
    }
}

impl Necessities {
    ghost use Rattle.necessities.specs.Stored.{Stores};
    ghost use Rattle.necessities.specs.Stack.{HasStack, HasRow, fresh, visits};

    // No necessity.
    pub fn new() -> Self
        ensures { HasStack [] result }
    {
        Necessities {
            rows: [StoredNecessity::BLANK; MOST_IDENTIFIERS],
            count: 0,
            leaves: LeafTable::new(),
        }
    }

    // The necessity of row k.
    pub fn at(&self, k: usize) -> StoredNecessity
        ensures { (n : Necessity) → HasRow n k self.now → Stores n result self.now.leaves.words }
    {
        if MOST_IDENTIFIERS <= k {
            return StoredNecessity::BLANK;
        }
        self.rows[k]
    }

    // Row k of the table of leaf bits has y.
    pub fn row_contains(&self, k: usize, y: ProofTreeNodeID) -> bool
        ensures { (l : List ℕ) → InRow k l self.now.leaves.words → result ≡ elem y.0 l }
    {
        let at = y.0 as usize;
        if MOST_IDENTIFIERS <= k {
            return false;
        }
        if MOST_IDENTIFIERS <= at {
            return false;
        }
        self.leaves.contains(k * MOST_IDENTIFIERS + at)
    }

    // Pushes a necessity with the listed leaves, which has visited no world; too many where there is no room.
    pub fn store(
        &mut self,
        formula: FormulaNumber,
        world: PossibleWorld,
        spawner: ProofTreeNodeID,
        list: &Numbers,
    )
        ensures { (ns : List Necessity) (l : List ℕ) → HasStack ns self.old → self.old.count < most_identifiers
            → HasList l list.now → list.now.len ≤ most_identifiers → Each (λ x. x < most_identifiers) l
            → HasStack (fresh formula.0 world.0 spawner.0 l ∷ ns) self.new }
    {
        if MOST_IDENTIFIERS <= self.count {
            self.count = FULL;
            return;
        }
        let k = self.count;
        self.rows[k] = StoredNecessity {
            formula,
            world,
            spawner,
            leaf_row: k as u16,
            visited: WorldSet::EMPTY,
        };
        self.leaves.clear_row(k);
        insert_all(&mut self.leaves, k, list);
        self.count = k + 1;
    }

    // The necessity of row k, which stands i below the top, has visited these worlds too.
    pub fn visit(&mut self, k: usize, worlds: WorldSet)
        ensures kept { (self.new.leaves ≡ self.old.leaves) × (self.new.count ≡ self.old.count) }
        ensures stack { (ns : List Necessity) (i : ℕ) (none : Necessity) → HasStack ns self.old → i + k + 1 ≡ self.old.count
            → HasStack (set ns i (visits (get_or ns i none) (worlds_in worlds.0))) self.new }
    {
        if MOST_IDENTIFIERS <= k {
            return;
        }
        let visited = self.rows[k].visited;
        self.rows[k].visited = visited.union(worlds);
    }

    // The stack turned round.
    pub fn turn(&mut self)
        ensures kept { (self.new.leaves ≡ self.old.leaves) × (self.new.count ≡ self.old.count) }
        ensures stack { (ns : List Necessity) → HasStack ns self.old → HasStack (reverse ns) self.new }
    {
        if MOST_IDENTIFIERS < self.count {
            return;
        }
        self.rows[..self.count].reverse();
    }
}
