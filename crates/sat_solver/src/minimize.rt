//! Minimizing the learned clause (Sörensson and Biere 2009): a literal that the plan found to be redundant is resolved away with its
//! reason, which is one more resolution of the step. So the log needs no rule of its own for it. Only literals that became false ahead
//! of the last level are resolved away; that of the first unique implication point stays.

ghost use Rattle.std.specs.Prelude.{◌≡◌, ℕ, ◌<◌, length, OnOk};
ghost use Rattle.sat_solver.specs.Analyzing.{IsImplicationGraph, IsIdle, Shrinks, IsAnalyzed};

use crate::analyze::{Resolvent, is_marked};
use crate::graph::ImplicationGraph;
use crate::plan::MarkedGraph;
use rh_base::NoMemory;

impl Resolvent {
    /// Resolves the opposite of the literal at a place away, where it is in the resolvent and a clause gave that literal.
    #[tactic(auto, using(crate::proofs::Analyzing::shrinks_same))]
    fn resolve_away_at(
        &mut self,
        graph: &ImplicationGraph<'_>,
        place: usize,
    ) -> Result<(), NoMemory>
        requires graph { IsImplicationGraph graph.now }
        requires early { place < graph.now.boundary }
        requires within { place < length graph.now.trail.now.literals }
        requires idle { IsIdle graph.now self.old }
        ensures idle { OnOk result (IsIdle graph.now self.new) }
        ensures shrinks { OnOk result (Shrinks graph.now self.old self.new) }
    {
        let literal = graph.trail.literal(place);
        let seen = is_marked(&self.seen, literal);
        if !seen {
            return Ok(());
        }
        let Some(reason) = graph.trail.reason(place) else {
            return Ok(());
        };
        let end = graph.trail.len();
        self.cut(literal, reason)?;
        let ground = ImplicationGraph {
            store: graph.store,
            trail: graph.trail,
            boundary: end,
        };
        self.join(&ground, end, graph.store.clause(reason), literal)?;
        Ok(())
    }

    /// Resolves a literal away, where it is in the resolvent, became false ahead of the last level, and a clause gave its
    /// opposite.
    #[tactic(auto, using(crate::proofs::Analyzing::shrinks_same))]
    fn resolve_away(&mut self, graph: &ImplicationGraph<'_>, literal: u32) -> Result<(), NoMemory>
        requires graph { IsImplicationGraph graph.now }
        requires idle { IsIdle graph.now self.old }
        ensures idle { OnOk result (IsIdle graph.now self.new) }
        ensures shrinks { OnOk result (Shrinks graph.now self.old self.new) }
    {
        let Some(place) = graph.trail.place_ahead(literal, graph.boundary) else {
            return Ok(());
        };
        self.resolve_away_at(graph, place)
    }

    /// Resolves away what the plan found to be redundant.
    #[tactic(auto, using(crate::proofs::Analyzing::shrinks_same))]
    fn shrink(&mut self, graph: &ImplicationGraph<'_>) -> Result<(), NoMemory>
        requires graph { IsImplicationGraph graph.now }
        requires idle { IsIdle graph.now self.old }
        ensures idle { OnOk result (IsIdle graph.now self.new) }
        ensures shrinks { OnOk result (Shrinks graph.now self.old self.new) }
    {
        'redundant: for _literal in 0..self.plan.len() {
            match self.plan.pop() {
                Some(literal) => self.resolve_away(graph, literal)?,
                None => {}
            }
        }
        Ok(())
    }

    /// Plans which literals are resolved away.
    fn look_ahead(&mut self, graph: &ImplicationGraph<'_>) -> Result<(), NoMemory>
        ensures seen { self.new.seen ≡ self.old.seen }
        ensures marked { self.new.marked ≡ self.old.marked }
        ensures resolutions { self.new.resolutions ≡ self.old.resolutions }
        ensures idle { self.new.pending ≡ 0 }
    {
        self.pending = 0;
        self.met = self.marked.len();
        let graph = MarkedGraph {
            graph: *graph,
            seen: &self.seen,
        };
        self.plan.make(&graph, &self.marked)
    }

    /// Makes the resolvent smaller; what analysis found still holds.
    pub(crate) fn minimize(&mut self, graph: &ImplicationGraph<'_>) -> Result<(), NoMemory>
        requires graph { IsImplicationGraph graph.now }
        requires long { length self.old.seen.items ≡ graph.now.trail.now.vars }
        ensures { OnOk result ((conflict p : ℕ) → IsAnalyzed graph.now conflict self.old p → IsAnalyzed graph.now conflict self.new p) }
    {
        self.look_ahead(graph)?;
        self.shrink(graph)?;
        Ok(())
    }
}
