// The tray bytes that no digest sees. What is lent is longer than the trays and filled with 255.
ghost use Rattle.std.specs.Prelude.{◌≡◌, ◌≤◌};
ghost use Rattle.definition.specs.Limits.{most_identifiers, most_formulas};
ghost use Rattle.cases.specs.Lent.{is_marked, are_marked, are_made, is_ended, nodes_agree, formulas_agree, unused_row, edges_agree, are_zero};

use crate::bytes::{all, begins, two};
use limits::{
    EDGE_TRAY_LENGTH, FORMULA_TRAY_LENGTH, MOST_FORMULAS, MOST_IDENTIFIERS, NODE_LENGTH,
    NODE_TRAY_LENGTH, RECORD_LENGTH,
};
use slices::byte_at;

// The trays as the call left them.
#[derive(Clone, Copy)]
pub struct Trays<'a> {
    pub nodes: &'a [u8],
    pub formulas: &'a [u8],
    pub edges: &'a [u32],
}

// Byte 10 of the node at a position says whether it has a contrarian; byte 11 is 0.
#[tactic(auto, unfolding(crate::specs::Lent::is_marked))]
fn is_marked(nodes: &[u8], at: usize) -> bool
    ensures { result ≡ is_marked nodes.now at }
{
    if nodes.len() <= at || byte_at(nodes, at + 11) != 0 {
        return false;
    }
    let has_contrarian = two(nodes, at + 8) != u16::MAX;
    byte_at(nodes, at + 10) == u8::from(has_contrarian)
}

fn are_marked(nodes: &[u8], identifiers: usize) -> bool
    requires { identifiers ≤ most_identifiers }
    ensures { result ≡ are_marked nodes.now identifiers }
{
    (0..identifiers).all(|i| is_marked(nodes, NODE_LENGTH * i))
}

// Made formulas have mark 0.
fn are_made(formulas: &[u8], from: usize, to: usize) -> bool
    requires { to ≤ most_formulas }
    ensures { result ≡ are_made formulas.now from to }
{
    (from..to).all(|i| byte_at(formulas, RECORD_LENGTH * i + 1) == 0)
}

// What is written ends in zeros, and what lies beyond the tray is as it was lent.
#[tactic(auto, unfolding(crate::specs::Lent::is_ended))]
fn is_ended(tray: &[u8], used: usize, size: usize) -> bool
    ensures { result ≡ is_ended tray.now used size }
{
    all(tray, used, size, 0) && all(tray, size, tray.len(), 255)
}

#[tactic(auto, unfolding(crate::specs::Lent::nodes_agree))]
pub fn nodes_agree(nodes: &[u8], identifiers: usize) -> bool
    ensures { result ≡ nodes_agree nodes.now identifiers }
{
    identifiers <= MOST_IDENTIFIERS
        && are_marked(nodes, identifiers)
        && is_ended(nodes, NODE_LENGTH * identifiers, NODE_TRAY_LENGTH)
}

#[tactic(auto, unfolding(crate::specs::Lent::formulas_agree))]
pub fn formulas_agree(formulas: &[u8], branch: &[u8], count: usize) -> bool
    ensures { result ≡ formulas_agree formulas.now branch.now count }
{
    count <= MOST_FORMULAS
        && begins(formulas, branch)
        && are_made(formulas, branch.len() / RECORD_LENGTH, count)
        && is_ended(formulas, RECORD_LENGTH * count, FORMULA_TRAY_LENGTH)
}

// A row that is no world's is 0 in the tray; beyond it, it is as it was lent.
#[tactic(auto, unfolding(crate::specs::Lent::unused_row))]
fn unused_row(u: usize) -> u32
    ensures { result ≡ unused_row u }
{
    if u < EDGE_TRAY_LENGTH { 0 } else { u32::MAX }
}

// The rows from the first that is no world are 0, and what lies beyond the tray is as it was lent.
pub fn edges_agree(edges: &[u32], worlds: usize) -> bool
    ensures { result ≡ edges_agree edges.now worlds }
{
    (worlds..edges.len()).all(|u| edges[u] == unused_row(u))
}

// The three lengths are zeroed, and nothing else is written.
#[tactic(auto, unfolding(crate::specs::Lent::are_zero))]
pub fn are_zero(trays: Trays) -> bool
    ensures { result ≡ are_zero trays.entry.nodes.now trays.entry.formulas.now trays.entry.edges.now }
{
    is_ended(trays.nodes, 0, NODE_TRAY_LENGTH)
        && is_ended(trays.formulas, 0, FORMULA_TRAY_LENGTH)
        && edges_agree(trays.edges, 0)
}
