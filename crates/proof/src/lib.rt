// The run: a step, and the steps until none is due.
#![tactic(auto)]

ghost use Rattle.std.specs.Prelude.{◌≡◌, false, List, ℕ, suc, ◌<◌, ◌≤◌};
ghost use Rattle.definition.specs.Limits.{most_identifiers, most_formulas};
ghost use Rattle.definition.specs.Records.{Rec};
ghost use Rattle.definition.specs.Setting as D;
ghost use Rattle.definition.specs.Run as R;
ghost use Rattle.definition.specs.Run.{apply_here, apply_rule, check_for_contradictions, stops, run, enough_steps};
ghost use Rattle.definition.specs.Reached.{Reached};
ghost use Rattle.definition.specs.Shortcuts.{CheckedAt};
ghost use Rattle.setting.specs.Asked.{asked};
ghost use Rattle.rules.specs.Consequences.{consequence_of};
ghost use Rattle.rules.specs.Here.{here_of};
ghost use Rattle.logic.specs.Applied.{Before, After};
ghost use Rattle.proof.specs.StateHeld.{StateLaid, StateHeld};

use arrays::Numbers;
use contradictions::check_for_contradictions;
use formula::Formulas;
use limits::{ENOUGH_STEPS, FULL, MOST_IDENTIFIERS, WORLD_LIMIT};
use logic::{Tableau, apply_necessity, apply_possibility};
use queue::{classify, pop};
use rules::{Consequence, apply_here, expand};
use setting::Setting;
use subtree::append_subtree;
use tree::ProofTreeNodeID;

// The state of a run: the formulas, what the rules work on, the classes of the nodes that wait, how many steps were made, and whether it has proved.
// The classes are a list of their own, since the rules queue nodes and know of no class.
#[derive(Clone, Copy)]
pub struct State {
    pub formulas: Formulas,
    pub tableau: Tableau,
    pub classes: Numbers,
    pub steps: usize,
    pub proved: bool,
}

// No step is due.
fn stops(state: &State) -> bool
    ensures { (F : D.Setting) (s : R.State) → StateHeld F s state.now → result ≡ stops F s }
{
    if MOST_IDENTIFIERS < state.tableau.tree.len {
        return true;
    }
    if state.proved {
        return true;
    }
    if state.tableau.waiting.len == 0 {
        return true;
    }
    WORLD_LIMIT <= state.tableau.graph.worlds
}

// The rule's nodes at its own world, placed.
fn append_here(tableau: &mut Tableau, x: ProofTreeNodeID, rule: Consequence)
    ensures { (s : R.State) (more : List Rec) (q : List ℕ) → Before tableau.old s q
        → After tableau.new s q (apply_here s x.0 more (here_of (consequence_of rule))) }
{
    let subtree = apply_here(&mut tableau.tree, x, rule);
    append_subtree(&mut tableau.tree, x, subtree, &mut tableau.waiting);
}

// The rule of node x, by its consequence.
fn apply(tableau: &mut Tableau, setting: Setting, x: ProofTreeNodeID, rule: Consequence)
    ensures { (s : R.State) (more : List Rec) (q : List ℕ) → Before tableau.old s q
        → After tableau.new s q (apply_rule (asked setting) s x.0 more (consequence_of rule)) }
{
    match rule {
        Consequence::AsPossible(f) => apply_possibility(tableau, setting, x, f),
        Consequence::AsNecessary(f) => apply_necessity(tableau, setting, x, f),
        Consequence::Nothing
        | Consequence::Down1(_)
        | Consequence::Down2(_, _)
        | Consequence::Split1(_, _)
        | Consequence::Split2(_, _, _, _) => append_here(tableau, x, rule),
    }
}

// The count after one step more.
fn next_step(steps: usize) -> usize
    ensures { steps < most_identifiers → result ≡ suc steps }
{
    if MOST_IDENTIFIERS <= steps {
        return FULL;
    }
    steps + 1
}

impl State {
    // Checks the tree's contradictions after a rule, unless they are skipped. They were checked when the tree had `old` nodes.
    fn check(&mut self, setting: Setting, old: usize)
        ensures checked { (s : R.State) → self.old.formulas.records.len ≤ most_formulas → ((asked setting).skip ≡ false → self.old.tableau.tree.len ≤ most_identifiers → CheckedAt s.formulas s.nodes old)
            → StateHeld (asked setting) s self.old → StateHeld (asked setting) (check_for_contradictions (asked setting) s) self.new }
        ensures kept { (self.new.formulas ≡ self.old.formulas) × (self.new.tableau.graph ≡ self.old.tableau.graph) × (self.new.tableau.necessities ≡ self.old.tableau.necessities)
            × (self.new.tableau.waiting ≡ self.old.tableau.waiting) × (self.new.classes ≡ self.old.classes) }
    {
        if setting.skip {
            return;
        }
        let every = check_for_contradictions(&self.formulas, &mut self.tableau.tree, old);
        if self.proved {
            return;
        }
        self.proved = every;
    }

    // The state before any step: contradictions are checked once, unless they are skipped.
    pub fn begin(&mut self, setting: Setting)
        ensures checked { (s : R.State) → self.old.formulas.records.len ≤ most_formulas → CheckedAt s.formulas s.nodes 0
            → StateLaid (asked setting) s self.old → StateHeld (asked setting) (check_for_contradictions (asked setting) s) self.new }
        ensures kept { (self.new.formulas ≡ self.old.formulas) × (self.new.tableau.graph ≡ self.old.tableau.graph) × (self.new.tableau.necessities ≡ self.old.tableau.necessities)
            × (self.new.tableau.waiting ≡ self.old.tableau.waiting) × (self.new.classes ≡ self.old.classes) }
    {
        self.check(setting, 0);
    }

    // One step, where one is due; else the state stays.
    fn step(&mut self, setting: Setting)
        ensures { (s : R.State) → Reached (asked setting) s → StateHeld (asked setting) s self.old → StateHeld (asked setting) (run 1 (asked setting) s) self.new }
    {
        if stops(self) {
            return;
        }
        let Some(id) = pop(&mut self.tableau.waiting, &mut self.classes) else {
            return;
        };
        let old = self.tableau.tree.len;
        let f = self.tableau.tree.formula_of(id);
        let rule = expand(&mut self.formulas, f);
        self.steps = next_step(self.steps);
        apply(&mut self.tableau, setting, id, rule);
        classify(
            &self.formulas,
            &self.tableau.tree,
            &self.tableau.waiting,
            &mut self.classes,
        );
        self.check(setting, old);
    }

    // The steps until none is due.
    pub fn prove(&mut self, setting: Setting)
        ensures { (s : R.State) → Reached (asked setting) s → StateHeld (asked setting) s self.old → StateHeld (asked setting) (run enough_steps (asked setting) s) self.new }
    {
        for _ in 0..ENOUGH_STEPS {
            if stops(self) {
                return;
            }
            self.step(setting);
        }
    }
}
