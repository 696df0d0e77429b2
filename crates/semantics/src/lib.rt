// Which formulas contradict one another: binary_logic_semantics.rs.
#![tactic(auto)]

ghost use Rattle.std.specs.Prelude.{◌≡◌, ◌&&◌, List, ◌≤◌};
ghost use Rattle.definition.specs.Limits.{most_formulas};
ghost use Rattle.definition.specs.Lists.{empty};
ghost use Rattle.definition.specs.Records.{Rec, rec_at, formula_of};
ghost use Rattle.definition.specs.Contradiction.{atom_of, atoms_of, said, denied, opposed, are_formulas_contradictory};
ghost use Rattle.formula.specs.Recorded.{HasRecords};
ghost use Rattle.semantics.specs.Literal.{atoms_in, Claims};

use formula::{FormulaNumber, Formulas, Kind};

// What a formula can say or deny: one atom, or the agreement of two in this order.
#[derive(Clone, Copy, Debug, PartialEq, Eq)]
pub enum Literal {
    Atom(u16),
    Pair(u16, u16),
}

// The number of an atom.
#[tactic(auto, unfolding(definition::specs::Contradiction::atom_of, definition::specs::Records::number_of))]
fn atom_of(formulas: &Formulas, f: FormulaNumber) -> Option<Literal>
    ensures { (rs : List Rec) → HasRecords rs formulas.now → formulas.now.records.len ≤ most_formulas → atoms_in result ≡ atom_of rs (rec_at rs f.0) }
{
    if formulas.kind_at(f) != Kind::Atomic as u16 {
        return None;
    }
    let a = formulas.left_at(f);
    Some(Literal::Atom(a.0))
}

// Of an atom its number, of a BiImply of two atoms both.
#[tactic(auto, unfolding(definition::specs::Contradiction::atoms_of, definition::specs::Contradiction::atom_of, definition::specs::Records::number_of))]
fn atoms_of(formulas: &Formulas, f: FormulaNumber) -> Option<Literal>
    ensures { (rs : List Rec) → HasRecords rs formulas.now → formulas.now.records.len ≤ most_formulas → atoms_in result ≡ atoms_of rs (rec_at rs f.0) }
{
    if formulas.kind_at(f) != Kind::BiImply as u16 {
        return atom_of(formulas, f);
    }
    let p = formulas.left_at(f);
    if formulas.kind_at(p) != Kind::Atomic as u16 {
        return None;
    }
    let q = formulas.right_at(f);
    if formulas.kind_at(q) != Kind::Atomic as u16 {
        return None;
    }
    let a = formulas.left_at(p);
    let b = formulas.left_at(q);
    Some(Literal::Pair(a.0, b.0))
}

// What a formula says: an atom, a BiImply of two atoms, Non Non of an atom.
fn said(formulas: &Formulas, f: FormulaNumber) -> Option<Literal>
    ensures { (rs : List Rec) → HasRecords rs formulas.now → formulas.now.records.len ≤ most_formulas → atoms_in result ≡ said rs (formula_of rs f.0) }
{
    if formulas.kind_at(f) != Kind::Non as u16 {
        return atoms_of(formulas, f);
    }
    let p = formulas.left_at(f);
    if formulas.kind_at(p) != Kind::Non as u16 {
        return atoms_of(formulas, f);
    }
    atom_of(formulas, formulas.left_at(p))
}

// What a formula denies: the atom, or the BiImply of two atoms, under its Non.
fn denied(formulas: &Formulas, f: FormulaNumber) -> Option<Literal>
    ensures { (rs : List Rec) → HasRecords rs formulas.now → formulas.now.records.len ≤ most_formulas → atoms_in result ≡ denied rs (formula_of rs f.0) }
{
    if formulas.kind_at(f) != Kind::Non as u16 {
        return None;
    }
    atoms_of(formulas, formulas.left_at(f))
}

// One says what the other denies.
fn opposed(p: Option<Literal>, q: Option<Literal>) -> bool
    ensures { result ≡ opposed (atoms_in p) (atoms_in q) }
{
    p.is_some() && p == q
}

// What a formula says and denies, so that many can be held against it.
#[derive(Clone, Copy)]
pub struct Claim {
    pub says: Option<Literal>,
    pub denies: Option<Literal>,
}

pub fn claim_of(formulas: &Formulas, f: FormulaNumber) -> Claim
    ensures { (rs : List Rec) → HasRecords rs formulas.now → formulas.now.records.len ≤ most_formulas → Claims rs (formula_of rs f.0) result }
{
    Claim {
        says: said(formulas, f),
        denies: denied(formulas, f),
    }
}

// It says nothing and denies nothing, so that no formula contradicts it.
pub fn is_no_literal(c: Claim) -> bool
    ensures { result ≡ (empty (atoms_in c.says) && empty (atoms_in c.denies)) }
{
    c.says.is_none() && c.denies.is_none()
}

// The formula of a claim and g contradict one another.
#[tactic(auto, unfolding(definition::specs::Contradiction::are_formulas_contradictory))]
pub fn contradicts(c: Claim, formulas: &Formulas, g: FormulaNumber) -> bool
    ensures { (rs : List Rec) (p : Rec) → Claims rs p c → HasRecords rs formulas.now → formulas.now.records.len ≤ most_formulas → result ≡ are_formulas_contradictory rs p (formula_of rs g.0) }
{
    if opposed(c.says, denied(formulas, g)) {
        return true;
    }
    if c.denies.is_none() {
        return false;
    }
    opposed(said(formulas, g), c.denies)
}
