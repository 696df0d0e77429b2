// The rule of a formula: which it is, the records that it makes, and the nodes at the formula's own world.
#![tactic(auto)]

ghost use Rattle.std.specs.Prelude.{◌≡◌, List, [], ◌∷◌, ◌++◌, ℕ, length};
ghost use Rattle.formula.specs.Kinds.{kind_meant};
ghost use Rattle.formula.specs.Recorded.{HasRecords};
ghost use Rattle.definition.specs.Records as kind;
ghost use Rattle.definition.specs.Records.{Rec};
ghost use Rattle.definition.specs.Rules.{Expansion, expansion, non_expansion};
ghost use Rattle.definition.specs.Tree.{Node, new_node, node_at};
ghost use Rattle.definition.specs.Subtree.{with_middle, with_left_right};
ghost use Rattle.tree.specs.Lay.{HasNodes};
ghost use Rattle.tree.specs.Sequence.{id_at};
ghost use Rattle.rules.specs.Choice.{logic_rule, ruled};
ghost use Rattle.rules.specs.Consequences.{consequence_of};
ghost use Rattle.rules.specs.Expands.{said_expansion, modal_expansion, expansion_of, Expands};
ghost use Rattle.rules.specs.Here.{here_of, in_middle, in_left_right, Here};

use formula::{FormulaNumber, Formulas, Kind};
use graph::PossibleWorld;
use subtree::ProofSubtree;
use tree::{Chain, ProofTree, ProofTreeNodeID};

// The rules, by the outer kind and, under Non, the inner kind.
#[derive(Clone, Copy, Debug, PartialEq, Eq)]
pub enum LogicRule {
    Nothing,
    And,
    Or,
    Imply,
    BiImply,
    StrictImply,
    Possible,
    Necessary,
    NonNon,
    NonAnd,
    NonOr,
    NonImply,
    NonBiImply,
    NonStrictImply,
    NonPossible,
    NonNecessary,
}

// What a rule puts on the paths, by record numbers; of two in a chain, the first stands above.
#[derive(Clone, Copy, Debug, PartialEq, Eq)]
pub enum Consequence {
    Nothing,
    Down1(FormulaNumber),
    Down2(FormulaNumber, FormulaNumber),
    Split1(FormulaNumber, FormulaNumber),
    Split2(FormulaNumber, FormulaNumber, FormulaNumber, FormulaNumber),
    AsPossible(FormulaNumber),
    AsNecessary(FormulaNumber),
}

// A match on kind numbers, nested under Non, is the form that document 01 asks for.
#[tactic(auto, unfolding(crate::specs::Choice::logic_rule))]
fn rule_of(outer: u16, inner: u16) -> LogicRule
    ensures { result ≡ logic_rule outer inner }
{
    match outer {
        1 => match inner {
            1 => LogicRule::NonNon,
            2 => LogicRule::NonAnd,
            3 => LogicRule::NonOr,
            4 => LogicRule::NonImply,
            5 => LogicRule::NonBiImply,
            6 => LogicRule::NonStrictImply,
            7 => LogicRule::NonPossible,
            8 => LogicRule::NonNecessary,
            0 | 9..=65535 => LogicRule::Nothing,
        },
        2 => LogicRule::And,
        3 => LogicRule::Or,
        4 => LogicRule::Imply,
        5 => LogicRule::BiImply,
        6 => LogicRule::StrictImply,
        7 => LogicRule::Possible,
        8 => LogicRule::Necessary,
        0 | 9..=65535 => LogicRule::Nothing,
    }
}

// The formula whose two fields the rule reads: f itself or, under Non, what f denies.
#[tactic(auto, unfolding(crate::specs::Choice::ruled))]
fn ruled_formula(outer: u16, f: FormulaNumber, denied: FormulaNumber) -> FormulaNumber
    ensures { result.0 ≡ ruled outer f.0 denied.0 }
{
    if outer == Kind::Non as u16 {
        return denied;
    }
    f
}

#[tactic(auto, unfolding(definition::specs::Rules::expansion_by))]
fn imply(formulas: &mut Formulas, p: FormulaNumber, q: FormulaNumber) -> Consequence
    ensures { (rs : List Rec) → HasRecords rs formulas.old → Expands rs (said_expansion kind.Imply (length rs) p.0 q.0) result formulas.new }
{
    let non_p = formulas.make_unary(Kind::Non, p);
    Consequence::Split1(non_p, q)
}

#[tactic(auto, unfolding(definition::specs::Rules::expansion_by))]
fn strict_imply(formulas: &mut Formulas, p: FormulaNumber, q: FormulaNumber) -> Consequence
    ensures { (rs : List Rec) → HasRecords rs formulas.old → Expands rs (said_expansion kind.StrictImply (length rs) p.0 q.0) result formulas.new }
{
    let imply_p_q = formulas.make_binary(Kind::Imply, p, q);
    Consequence::AsNecessary(imply_p_q)
}

#[tactic(auto, unfolding(definition::specs::Rules::non_expansion))]
fn non_imply(formulas: &mut Formulas, p: FormulaNumber, q: FormulaNumber) -> Consequence
    ensures { (rs : List Rec) → HasRecords rs formulas.old → Expands rs (non_expansion kind.Imply (length rs) p.0 q.0) result formulas.new }
{
    let non_q = formulas.make_unary(Kind::Non, q);
    Consequence::Down2(p, non_q)
}

#[tactic(auto, unfolding(definition::specs::Rules::expansion_by))]
fn bi_imply(formulas: &mut Formulas, p: FormulaNumber, q: FormulaNumber) -> Consequence
    ensures { (rs : List Rec) → HasRecords rs formulas.old → Expands rs (said_expansion kind.BiImply (length rs) p.0 q.0) result formulas.new }
{
    let non_q = formulas.make_unary(Kind::Non, q);
    let non_p = formulas.make_unary(Kind::Non, p);
    Consequence::Split2(p, q, non_p, non_q)
}

#[tactic(auto, unfolding(definition::specs::Rules::non_expansion))]
fn non_and(formulas: &mut Formulas, p: FormulaNumber, q: FormulaNumber) -> Consequence
    ensures { (rs : List Rec) → HasRecords rs formulas.old → Expands rs (non_expansion kind.And (length rs) p.0 q.0) result formulas.new }
{
    let non_p = formulas.make_unary(Kind::Non, p);
    let non_q = formulas.make_unary(Kind::Non, q);
    Consequence::Split1(non_p, non_q)
}

#[tactic(auto, unfolding(definition::specs::Rules::non_expansion))]
fn non_or(formulas: &mut Formulas, p: FormulaNumber, q: FormulaNumber) -> Consequence
    ensures { (rs : List Rec) → HasRecords rs formulas.old → Expands rs (non_expansion kind.Or (length rs) p.0 q.0) result formulas.new }
{
    let non_q = formulas.make_unary(Kind::Non, q);
    let non_p = formulas.make_unary(Kind::Non, p);
    Consequence::Down2(non_p, non_q)
}

#[tactic(auto, unfolding(definition::specs::Rules::non_expansion))]
fn non_bi_imply(formulas: &mut Formulas, p: FormulaNumber, q: FormulaNumber) -> Consequence
    ensures { (rs : List Rec) → HasRecords rs formulas.old → Expands rs (non_expansion kind.BiImply (length rs) p.0 q.0) result formulas.new }
{
    let non_q = formulas.make_unary(Kind::Non, q);
    let non_p = formulas.make_unary(Kind::Non, p);
    Consequence::Split2(p, non_q, non_p, q)
}

#[tactic(auto, unfolding(definition::specs::Rules::non_expansion))]
fn non_strict_imply(formulas: &mut Formulas, p: FormulaNumber, q: FormulaNumber) -> Consequence
    ensures { (rs : List Rec) → HasRecords rs formulas.old → Expands rs (non_expansion kind.StrictImply (length rs) p.0 q.0) result formulas.new }
{
    let imply_p_q = formulas.make_binary(Kind::Imply, p, q);
    let non_imply_p_q = formulas.make_unary(Kind::Non, imply_p_q);
    Consequence::AsPossible(non_imply_p_q)
}

// Non of a modal kind: what it denies, denied, under the other kind.
fn non_modal(formulas: &mut Formulas, other: Kind, p: FormulaNumber) -> Consequence
    ensures { (rs : List Rec) → HasRecords rs formulas.old → Expands rs (modal_expansion (kind_meant other) (length rs) p.0) result formulas.new }
{
    let non_p = formulas.make_unary(Kind::Non, p);
    let other_non_p = formulas.make_unary(other, non_p);
    Consequence::Down1(other_non_p)
}

// The records of a rule, and its consequence; p and q are the fields that the rule reads.
#[tactic(auto, using(crate::proofs::RecordsMade::expands_none), unfolding(definition::specs::Rules::expansion_by, definition::specs::Rules::non_expansion))]
fn expand_by(
    formulas: &mut Formulas,
    rule: LogicRule,
    p: FormulaNumber,
    q: FormulaNumber,
) -> Consequence
    ensures { (rs : List Rec) → HasRecords rs formulas.old → Expands rs (expansion_of rule (length rs) p.0 q.0) result formulas.new }
{
    match rule {
        LogicRule::Nothing => Consequence::Nothing,
        LogicRule::And => Consequence::Down2(p, q),
        LogicRule::Or => Consequence::Split1(p, q),
        LogicRule::Imply => imply(formulas, p, q),
        LogicRule::BiImply => bi_imply(formulas, p, q),
        LogicRule::StrictImply => strict_imply(formulas, p, q),
        LogicRule::Possible => Consequence::AsPossible(p),
        LogicRule::Necessary => Consequence::AsNecessary(p),
        LogicRule::NonNon => Consequence::Down1(p),
        LogicRule::NonAnd => non_and(formulas, p, q),
        LogicRule::NonOr => non_or(formulas, p, q),
        LogicRule::NonImply => non_imply(formulas, p, q),
        LogicRule::NonBiImply => non_bi_imply(formulas, p, q),
        LogicRule::NonStrictImply => non_strict_imply(formulas, p, q),
        LogicRule::NonPossible => non_modal(formulas, Kind::Necessary, p),
        LogicRule::NonNecessary => non_modal(formulas, Kind::Possible, p),
    }
}

// The rule of a node's formula: its records are made, and its consequence is answered.
pub fn expand(formulas: &mut Formulas, f: FormulaNumber) -> Consequence
    ensures { (rs : List Rec) → HasRecords rs formulas.old → Expands rs (expansion rs f.0) result formulas.new }
{
    let outer = formulas.formula_kind(f);
    let denied = formulas.left_at(f);
    let inner = formulas.kind_at(denied);
    let ruled = ruled_formula(outer, f, denied);
    let p = formulas.left_at(ruled);
    let q = formulas.right_at(ruled);
    expand_by(formulas, rule_of(outer, inner), p, q)
}

// One chain in the middle: `count` identifiers from `start` on, the last on top.
fn with_middle_node(start: ProofTreeNodeID, count: u16) -> ProofSubtree
    ensures { result ≡ in_middle start.0 count }
{
    ProofSubtree::with_middle(Chain::falling(start, count))
}

// Two chains of as many identifiers: the left from `start` on, the right from `further` on.
fn with_left_right_nodes(
    start: ProofTreeNodeID,
    further: ProofTreeNodeID,
    count: u16,
) -> ProofSubtree
    ensures { result ≡ in_left_right start.0 further.0 count }
{
    ProofSubtree {
        left: Chain::falling(start, count),
        middle: Chain::EMPTY,
        right: Chain::falling(further, count),
    }
}

// A node and the one below it, which gets its identifier first: that identifier.
fn new_node_with_subnode(
    tree: &mut ProofTree,
    x: ProofTreeNodeID,
    w: PossibleWorld,
    formula: FormulaNumber,
    child: FormulaNumber,
) -> ProofTreeNodeID
    ensures { (result.0 ≡ id_at tree.old.len) × ((ns : List Node) → HasNodes ns tree.old → HasNodes (ns ++ (new_node x.0 child.0 w.0 ∷ new_node x.0 formula.0 w.0 ∷ [])) tree.new) }
{
    let below = tree.new_node(x, child, w);
    tree.new_node(x, formula, w);
    below
}

fn down_one(
    tree: &mut ProofTree,
    x: ProofTreeNodeID,
    w: PossibleWorld,
    p: FormulaNumber,
) -> ProofSubtree
    ensures { (ns : List Node) → HasNodes ns tree.old → Here ns x.0 w.0 (with_middle (p.0 ∷ [])) result tree.new }
{
    let id = tree.new_node(x, p, w);
    with_middle_node(id, 1)
}

fn down_two(
    tree: &mut ProofTree,
    x: ProofTreeNodeID,
    w: PossibleWorld,
    p: FormulaNumber,
    q: FormulaNumber,
) -> ProofSubtree
    ensures { (ns : List Node) → HasNodes ns tree.old → Here ns x.0 w.0 (with_middle (p.0 ∷ q.0 ∷ [])) result tree.new }
{
    let id = new_node_with_subnode(tree, x, w, p, q);
    with_middle_node(id, 2)
}

fn split_one(
    tree: &mut ProofTree,
    x: ProofTreeNodeID,
    w: PossibleWorld,
    p: FormulaNumber,
    q: FormulaNumber,
) -> ProofSubtree
    ensures { (ns : List Node) → HasNodes ns tree.old → Here ns x.0 w.0 (with_left_right (p.0 ∷ []) (q.0 ∷ [])) result tree.new }
{
    let left = tree.new_node(x, p, w);
    let right = tree.new_node(x, q, w);
    with_left_right_nodes(left, right, 1)
}

// The left chain is p above q, the right one s above t.
fn split_two(
    tree: &mut ProofTree,
    x: ProofTreeNodeID,
    w: PossibleWorld,
    p: FormulaNumber,
    q: FormulaNumber,
    s: FormulaNumber,
    t: FormulaNumber,
) -> ProofSubtree
    ensures { (ns : List Node) → HasNodes ns tree.old → Here ns x.0 w.0 (with_left_right (p.0 ∷ q.0 ∷ []) (s.0 ∷ t.0 ∷ [])) result tree.new }
{
    let left = new_node_with_subnode(tree, x, w, p, q);
    let right = new_node_with_subnode(tree, x, w, s, t);
    with_left_right_nodes(left, right, 2)
}

// The nodes of a rule at the world of node x; none for a rule of the two modal kinds.
pub fn apply_here(tree: &mut ProofTree, x: ProofTreeNodeID, rule: Consequence) -> ProofSubtree
    ensures { (ns : List Node) → HasNodes ns tree.old → Here ns x.0 (node_at ns x.0).world (here_of (consequence_of rule)) result tree.new }
{
    let w = tree.world_of(x);
    match rule {
        Consequence::Down1(p) => down_one(tree, x, w, p),
        Consequence::Down2(p, q) => down_two(tree, x, w, p, q),
        Consequence::Split1(p, q) => split_one(tree, x, w, p, q),
        Consequence::Split2(p, q, s, t) => split_two(tree, x, w, p, q, s, t),
        Consequence::Nothing | Consequence::AsPossible(_) | Consequence::AsNecessary(_) => {
            ProofSubtree::with_middle(Chain::EMPTY)
        }
    }
}
