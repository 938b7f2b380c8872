//! Laws of reports and refusals, as functions that do nothing.

ghost use Rattle.std.specs.Prelude.{ℕ, List, Option};
ghost use Rattle.rh_base.specs.declared.fault.Refusal.{Refusal};
ghost use Rattle.known_inputs.specs.declared.inputs.Inputs.{Inputs};
ghost use Rattle.verdict_report.specs.declared.report.Report.{Report};
ghost use Rattle.reports.specs.declared.question.Question.{Question};
ghost use Rattle.reports.specs.Stages.{CatalogRefusal, GraphRefusal};
ghost use Rattle.reports.specs.Reports.{IsCatalogReport, IsGraphReport};
ghost use Rattle.reports.specs.Questions.{IsReport, ReportRefusal};
ghost use Rattle.reports.specs.declared.sides.Side.{Side};
ghost use Rattle.reports.specs.Comparisons.{IsComparison, ComparisonRefusal};

use compiled_text::compiled_texts;
use graph_semantics::one_graph;
use known_inputs::files_say_one_thing;
use pp_compile::one_reading;
use size_limits::{path_counts, weights};

/// Where there is a report, nothing is refused: inputs have one catalog, one graph, one list of programs and one size.
pub fn reports_exclude_refusals()
    ensures catalogs { (i : Inputs) (report : List ℕ) (r : Refusal) → IsCatalogReport i report → CatalogRefusal i r → ⊥ }
    ensures graphs { (i : Inputs) (report : List ℕ) (r : Refusal) → IsGraphReport i report → GraphRefusal i r → ⊥ }
    ensures programs { (q : Question) (i : Inputs) (report : Report) (r : Refusal) → IsReport q i report → ReportRefusal q i r → ⊥ }
    ensures comparisons { (given : Option ℕ) (i : Inputs) (report : Report) (s : Side) (r : Refusal)
        → IsComparison given i report → ComparisonRefusal i s r → ⊥ }
{
    files_say_one_thing();
    compiled_texts();
    one_reading();
    one_graph();
    path_counts();
    weights();
}
