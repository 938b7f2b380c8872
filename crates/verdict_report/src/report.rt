//! A report, and the status that goes with it.

ghost use Rattle.std.specs.Prelude.{◌≡◌};
ghost use Rattle.verdict_report.specs.Lines.{printed};

use rh_base::Seq;

/// The text of a report, and the status with which the program ends when it has written it.
#[derive(Drop)]
pub struct Report {
    pub status: u8,
    pub text: Seq<u8>,
}

/// How a verdict is told.
#[derive(Clone, Copy, Debug, PartialEq, Eq)]
pub enum Form {
    /// By lines on what was found.
    Lines,
    /// By the proofs of the questions that were refuted.
    Proofs,
}

/// What was asked for is printed.
pub fn printed(text: Seq<u8>) -> Report
    ensures { result ≡ printed text }
{
    Report { status: 0, text }
}
