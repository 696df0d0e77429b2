// The digest of the text T of a run, from its trays.
ghost use Rattle.std.specs.Prelude.{◌≡◌, [], ◌∷◌, ◌++◌, ◌+◌, ◌%◌, ◌<◌, get_or};
ghost use Rattle.definition.specs.Limits.{most_formulas};
ghost use Rattle.slices.specs.Text.{decimal_of};
ghost use Rattle.cases.specs.Bytes.{two_at};
ghost use Rattle.cases.specs.Text.{fed, digest_of, number_or_none, letter_of, has_one, name_of, LinksAt, record_by, formula_text, formula_or_comment, node_line, node_lines, edge_line, edges_from, text_of};

use crate::bytes::two;
use crate::lent::Trays;
use limits::{EDGE_TRAY_LENGTH, MOST_FORMULAS, MOST_IDENTIFIERS, NODE_LENGTH, RECORD_LENGTH};
use slices::byte_at;

// The digest of what is written so far. Each method writes a piece behind it.
#[derive(Clone, Copy, Debug, PartialEq, Eq)]
pub struct Digest {
    pub first: u64,
    pub second: u64,
}

impl Digest {
    const EMPTY: Digest = Digest {
        first: 0,
        second: 0,
    };

    #[tactic(auto, using(crate::proofs::Fed::fed_one))]
    fn byte(self, b: u8) -> Digest
        ensures { result ≡ fed self (b ∷ []) }
    {
        let n = u64::from(b);
        let first = self.first % 2147483647 * 257 + n;
        let second = self.second % 2147483629 * 257 + n;
        Digest {
            first: first % 2147483647,
            second: second % 2147483629,
        }
    }

    fn figure(self, n: usize) -> Digest
        ensures { result ≡ fed self ((48 + n % 10) ∷ []) }
    {
        self.byte(b'0' + (n % 10) as u8)
    }

    // A number in decimal.
    #[tactic(auto, using(crate::proofs::Fed::feeding, crate::proofs::Fed::decimal_one, crate::proofs::Fed::decimal_more))]
    fn number(self, n: usize) -> Digest
        ensures { result ≡ fed self (decimal_of n) }
    {
        if n < 10 {
            return self.figure(n);
        }
        self.number(n / 10).figure(n)
    }

    // A number of a node, or a dash for none.
    #[tactic(auto, unfolding(crate::specs::Text::number_or_none))]
    fn number_or_none(self, n: u16) -> Digest
        ensures { result ≡ fed self (number_or_none n) }
    {
        if n == u16::MAX {
            return self.byte(b'-');
        }
        self.number(usize::from(n))
    }

    // An atom, or the letter of a kind.
    #[tactic(auto, using(crate::proofs::Fed::fed_cons), unfolding(crate::specs::Text::name_of))]
    fn name(self, kind: u8, left: usize) -> Digest
        ensures { result ≡ fed self (name_of kind left) }
    {
        if kind == 0 {
            return self.byte(b'A').number(left);
        }
        self.byte(letter(kind))
    }

    // Formula f written out by its links. A link that is not to an earlier record stops.
    #[tactic(auto, using(crate::proofs::Fed::feeding, crate::proofs::Formulas::no_record), unfolding(crate::specs::Text::record_by, crate::specs::Text::linked))]
    fn formula(self, tray: &[u8], f: usize) -> Digest
        ensures { result ≡ fed self (formula_text tray.now f) }
    {
        if MOST_FORMULAS <= f {
            return self.byte(b'?');
        }
        let links = Links::at(tray, f);
        let named = self.name(links.kind, links.left);
        if links.kind == 0 {
            return named;
        }
        if f <= links.left {
            return named.byte(b'?');
        }
        let first = named.byte(b'(').formula(tray, links.left);
        if has_one(links.kind) {
            return first.byte(b')');
        }
        if f <= links.right {
            return first.byte(b'?');
        }
        first.byte(b',').formula(tray, links.right).byte(b')')
    }

    #[tactic(auto, unfolding(crate::specs::Text::formula_or_comment))]
    fn formula_or_comment(self, tray: &[u8], f: u16) -> Digest
        ensures { result ≡ fed self (formula_or_comment tray.now f) }
    {
        if f == u16::MAX {
            return self.byte(b'#');
        }
        self.formula(tray, usize::from(f))
    }

    // A byte as a number, and a space.
    #[tactic(auto, using(crate::proofs::Fed::feeding))]
    fn small(self, tray: &[u8], i: usize) -> Digest
        ensures { result ≡ fed self (decimal_of (get_or tray.now i 0) ++ (32 ∷ [])) }
    {
        self.number(usize::from(byte_at(tray, i))).byte(b' ')
    }

    // The number of a node or none in two bytes, and what ends it.
    #[tactic(auto, using(crate::proofs::Fed::feeding))]
    fn link(self, tray: &[u8], i: usize, end: u8) -> Digest
        ensures { result ≡ fed self (number_or_none (two_at tray.now i) ++ (end ∷ [])) }
    {
        self.number_or_none(two(tray, i)).byte(end)
    }

    // The line of the node whose record stands at a position.
    #[tactic(auto, using(crate::proofs::Fed::feeding), unfolding(crate::specs::Text::node_line, slices::specs::Text::line_of_words))]
    fn node_line(self, nodes: &[u8], formulas: &[u8], at: usize) -> Digest
        ensures { result ≡ fed self (node_line nodes.now formulas.now at) }
    {
        if nodes.len() <= at {
            return self;
        }
        self.link(nodes, at, b' ')
            .small(nodes, at + 2)
            .small(nodes, at + 3)
            .formula_or_comment(formulas, two(nodes, at + 4))
            .byte(b' ')
            .link(nodes, at + 6, b' ')
            .link(nodes, at + 8, b'\n')
    }

    // The line of an edge, if the lowest bit is set.
    #[tactic(auto, using(crate::proofs::Fed::feeding), unfolding(crate::specs::Text::edge_line))]
    fn edge_line(self, u: usize, v: usize, bits: u32) -> Digest
        ensures { result ≡ fed self (edge_line u v bits) }
    {
        if bits % 2 == 1 {
            return self.number(u).byte(b'>').number(v).byte(b'\n');
        }
        self
    }

    // The lines of the edges from world u: bit v of its number says that u reaches v.
    fn row(self, u: usize, bits: u32) -> Digest
        ensures { result ≡ fed self (edges_from u bits) }
    {
        let mut text = self;
        for v in 0..32 {
            text = text.edge_line(u, v, bits >> v);
        }
        text
    }

    // The digest of a run that issued so many identifiers.
    pub fn of_trays(trays: Trays, identifiers: usize) -> Digest
        ensures { result ≡ digest_of (text_of trays.entry.nodes.now trays.entry.formulas.now trays.entry.edges.now identifiers) }
    {
        let mut text = node_lines(trays.nodes, trays.formulas, identifiers);
        let rows = &trays.edges[..EDGE_TRAY_LENGTH.min(trays.edges.len())];
        for (u, bits) in rows.iter().enumerate() {
            text = text.row(u, *bits);
        }
        text
    }
}

fn node_lines(nodes: &[u8], formulas: &[u8], identifiers: usize) -> Digest
    ensures { result ≡ digest_of (node_lines nodes.now formulas.now identifiers) }
{
    let mut text = Digest::EMPTY;
    for i in 0..identifiers.min(MOST_IDENTIFIERS) {
        text = text.node_line(nodes, formulas, NODE_LENGTH * i);
    }
    text
}

// The letter of a kind; a tray's byte may be any number, so that a kind is no enum here.
#[tactic(auto, unfolding(crate::specs::Text::letter_of))]
fn letter(kind: u8) -> u8
    ensures { result ≡ letter_of kind }
{
    let letters = b"?NCDIBSPL";
    letters.get(usize::from(kind)).copied().unwrap_or(b'?')
}

#[tactic(auto, unfolding(crate::specs::Text::has_one))]
fn has_one(kind: u8) -> bool
    ensures { result ≡ has_one kind }
{
    !matches!(kind, 2..=6)
}

// The record of a formula: its kind, which may be any byte, and its two links.
#[derive(Clone, Copy)]
struct Links {
    kind: u8,
    left: usize,
    right: usize,
}

impl Links {
    #[tactic(auto, using(crate::proofs::Formulas::text_by))]
    fn at(tray: &[u8], f: usize) -> Links
        requires { f < most_formulas }
        ensures links { LinksAt tray.now f result.kind result.left result.right }
        ensures text { formula_text tray.now f ≡ record_by (formula_text tray.now) f result.kind result.left result.right }
    {
        let at = RECORD_LENGTH * f;
        Links {
            kind: byte_at(tray, at),
            left: usize::from(two(tray, at + 2)),
            right: usize::from(two(tray, at + 4)),
        }
    }
}
